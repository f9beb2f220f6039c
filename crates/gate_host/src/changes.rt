//! Calls that change or sync what stands at a path.
ghost use Rattle.std.specs.Prelude.{◌≤◌};
ghost use Rattle.std.specs.Bool.{OnTrue};
ghost use Rattle.tree_trait.specs.Answers.{IsLinkText};

use mc_text::Path;
use std::alloc::Global;
use tree_trait::{Tree, TreeError};

/// A call that changes or syncs what stands at a path, with one word more.
pub fn change<T: Tree>(
    alloc: Global,
    tree: &mut T,
    call: &str,
    path: &Path,
    word: &str,
) -> Result<(), TreeError> {
    match call {
        "file" => tree.make_file(alloc, path, octal(word)),
        "write" => write(alloc, tree, path, word),
        "mode" => tree.set_mode(alloc, path, octal(word)),
        "folder" => tree.make_folder(alloc, path, octal(word)),
        "make_link" if may_be_link_text(word) => tree.make_link(alloc, path, word),
        "remove_file" => tree.remove_file(alloc, path),
        "remove_folder" => tree.remove_folder(alloc, path),
        "sync_file" => tree.sync_file(alloc, path),
        "sync_folder" => tree.sync_folder(alloc, path),
        _ => Err(TreeError::Memory),
    }
}

/// Writes what stands behind a colon at the offset before it.
fn write<T: Tree>(alloc: Global, tree: &mut T, path: &Path, word: &str) -> Result<(), TreeError> {
    let (offset, text) = word.split_once(':').unwrap_or((word, ""));
    let offset = offset.parse::<u32>().unwrap_or(0);
    if text.len() > 16 {
        return Err(TreeError::Memory);
    }
    tree.write_at(alloc, path, u64::from(offset), text.as_bytes())
}

fn octal(word: &str) -> u16
    ensures { result ≤ 0o7777 }
{
    u16::from_str_radix(word, 8).unwrap_or(0) & 0o7777
}

/// Whether a link may say this: 1 to 4,095 bytes and no NUL.
fn may_be_link_text(text: &str) -> bool
    ensures { OnTrue result (IsLinkText text.now) }
{
    !text.is_empty() && text.len() <= 4095 && text.as_bytes().iter().all(|byte| *byte != 0)
}
