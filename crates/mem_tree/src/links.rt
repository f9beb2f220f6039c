//! The texts of links.
ghost use Rattle.std.specs.Prelude.{◌≡◌, ℕ, true, reverse, IfOk};
ghost use Rattle.std.specs.Str.{IsUtf8};
ghost use Rattle.tree_trait.specs.FileSystem.{node};
ghost use Rattle.tree_trait.specs.Calls.{ReadLink};
ghost use Rattle.tree_trait.specs.Refusals.{is_link};
ghost use Rattle.tree_trait.specs.Change.{found_node};
ghost use Rattle.tree_trait.specs.Answers.{IsLinkText};
ghost use Rattle.tree_rules.specs.Told.{IsTold};
ghost use Rattle.mem_tree.specs.Held.{link_node};
ghost use Rattle.mem_tree.specs.Sound.{IsLink};

use mc_text::{Kind, Name, NoMemory, Text};
use std::alloc::Global;
use tree_rules::{bytes_at, found, refuse_read_link};
use tree_trait::{FileSystem, Node, Seq, TreeError};

/// A link with this text.
pub fn link_node(alloc: Global, text: &str) -> Result<Node, NoMemory>
    ensures { IfOk result (λ made. made ≡ link_node text.now) }
{
    Ok(Node {
        kind: Kind::Link,
        bytes: Seq::from_slice(alloc, text.as_bytes())?,
        mode: 0,
        mtime: 0,
        unnamed: 0,
    })
}

/// The text that has these bytes.
fn text_of(alloc: Global, bytes: &[u8]) -> Result<Text, NoMemory>
    requires { IsUtf8 bytes.now }
    ensures { IfOk result (λ text. text ≡ bytes.now) }
{
    match str::from_utf8(bytes) {
        Ok(text) => Text::from_str(alloc, text),
        Err(_) => Err(NoMemory),
    }
}

/// The answer of `read_link`.
pub fn read_link_text(alloc: Global, fs: &FileSystem, names: &[Name]) -> Result<Text, TreeError>
    requires { (i : ℕ) → is_link (node fs.now i) ≡ true → IsLink (node fs.now i).bytes }
    ensures answer { IsTold fs.now (ReadLink (reverse names.now)) result (λ text.
        text ≡ (node fs.now (found_node fs.now (reverse names.now))).bytes) }
    ensures link_text { IfOk result IsLinkText }
{
    match refuse_read_link(fs, names) {
        Some(e) => Err(e),
        None => match text_of(alloc, bytes_at(fs, found(fs, names))) {
            Err(_) => Err(TreeError::Memory),
            Ok(text) => Ok(text),
        },
    }
}
