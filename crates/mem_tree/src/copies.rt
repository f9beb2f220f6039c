//! The parts of a file system once more.
ghost use Rattle.std.specs.Prelude.{◌≡◌, IfOk};

use mc_text::NoMemory;
use std::alloc::Global;
use tree_trait::{FileSystem, NameEdit, Node, Seq};

/// The same node once more.
pub fn copy_node(alloc: Global, node: &Node) -> Result<Node, NoMemory>
    ensures { IfOk result (λ copy. copy ≡ node.now) }
{
    Ok(Node {
        kind: node.kind,
        bytes: Seq::from_slice(alloc, node.bytes.as_slice())?,
        mode: node.mode,
        mtime: node.mtime,
        unnamed: node.unnamed,
    })
}

/// The same nodes once more.
fn copy_nodes(alloc: Global, nodes: &[Node]) -> Result<Seq<Node>, NoMemory>
    ensures { IfOk result (λ copy. copy ≡ nodes.now) }
{
    let mut copy = Seq::new(alloc);
    for node in nodes {
        copy.push(copy_node(alloc, node)?)?;
    }
    Ok(copy)
}

/// The same edit once more.
pub fn copy_edit(alloc: Global, edit: &NameEdit) -> Result<NameEdit, NoMemory>
    ensures { IfOk result (λ copy. copy ≡ edit.now) }
{
    Ok(NameEdit {
        folder: edit.folder,
        name: edit.name.copy(alloc)?,
        to: edit.to,
    })
}

/// The same edits once more.
fn copy_edits(alloc: Global, edits: &[NameEdit]) -> Result<Seq<NameEdit>, NoMemory>
    ensures { IfOk result (λ copy. copy ≡ edits.now) }
{
    let mut copy = Seq::new(alloc);
    for edit in edits {
        copy.push(copy_edit(alloc, edit)?)?;
    }
    Ok(copy)
}

/// The same file system once more.
pub fn copy_of(alloc: Global, fs: &FileSystem) -> Result<FileSystem, NoMemory>
    ensures { IfOk result (λ copy. copy ≡ fs.now) }
{
    Ok(FileSystem {
        nodes: copy_nodes(alloc, fs.nodes.as_slice())?,
        names: copy_edits(alloc, fs.names.as_slice())?,
        mounts: Seq::from_slice(alloc, fs.mounts.as_slice())?,
    })
}
