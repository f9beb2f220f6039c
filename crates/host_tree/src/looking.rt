//! The calls that tell what stands at a path.
ghost use Rattle.std.specs.Prelude.{◌≡◌, ◌≤◌, ◌^◌, min, None, true, IfOk, bit_and};
ghost use Rattle.std.specs.Fs.{metadata_len, metadata_mode};
ghost use Rattle.host_tree.specs.Kept.{forgetting};
ghost use Rattle.host_tree.specs.Kinds.{kind_of_mode};
ghost use Rattle.host_tree.specs.Modes.{told_mode};
ghost use Rattle.tree_trait.specs.Answers.{IsInRange, IsAscending};

use crate::kinds::kind_of;
use crate::listing::children_of;
use crate::machine::Machine;
use crate::writing::SET_ID_BITS;
use mc_text::Path;
use std::alloc::Global;
use std::convert::AsStr;
use std::fs;
use std::fs::Metadata;
use std::os::unix::fs::MetadataExt;
use std::rt::Files;
use tree_trait::{Children, Meta, TreeError};

impl<R: Files> Machine<R> {
    /// What stands at a path. The next read of a file there opens it anew, as it may be another one by now.
    pub fn stat(&mut self, alloc: Global, path: &Path) -> Result<Meta, TreeError>
        ensures in_range { IfOk result IsInRange }
        ensures kept { self.new.kept ≡ self.old.kept }
        ensures read { self.new.read.files.items ≡ forgetting self.old.read.files.items path.now }
    {
        self.read.forget(path);
        let facts = self.facts_of(alloc, path)?;
        let lends = lends_rights(&self.rt, &facts);
        Ok(meta_of(&facts, lends))
    }

    /// The children of a folder.
    pub fn list(&mut self, alloc: Global, path: &Path) -> Result<Children, TreeError>
        ensures ascending { IfOk result (λ children. IsAscending children.names) }
        ensures kept { self.new.kept ≡ self.old.kept }
    {
        self.look_anew();
        let text = self.text_of(alloc, path)?;
        children_of(&self.rt, alloc, text.as_str())
    }
}

/// The most bytes that a thing is said to have.
const GREATEST_SIZE: u64 = 1 << 63;

/// The system's facts. The number of a mount is that of its device, or 0 where that is too large.
fn meta_of(facts: &Metadata, lends: bool) -> Meta
    ensures in_range { IsInRange result }
    ensures size { result.size ≡ min (metadata_len facts.now) (2 ^ 63) }
    ensures mode { result.mode ≡ told_mode lends (metadata_mode facts.now) }
    ensures kind { result.kind ≡ kind_of_mode (metadata_mode facts.now) }
{
    Meta {
        kind: kind_of(facts),
        size: facts.len().min(GREATEST_SIZE),
        mode: mode_told(facts.mode(), lends),
        mtime: facts.mtime(),
        mount: u32::try_from(facts.dev()).unwrap_or(0),
    }
}

/// The twelve bits of a mode, or the ten without the set-id bits.
fn mode_told(mode: u32, lends: bool) -> u16
    ensures { result ≡ told_mode lends mode }
{
    if lends {
        (mode & 0o7777) as u16
    } else {
        (mode & 0o1777) as u16
    }
}

/// Whether the set-id bits of a thing are told: those of a stranger's aren't, so that no copy of it lends the
/// rights of whoever copies. It is the program's own where it has the owner of the system's entry of this
/// process, which is asked only where a thing has such bits.
fn lends_rights<R: Files>(rt: &R, facts: &Metadata) -> bool
    ensures { bit_and (metadata_mode facts.now) 0o6000 ≡ 0 → result ≡ true }
{
    if facts.mode() & SET_ID_BITS == 0 {
        return true;
    }
    match fs::metadata(rt, "/proc/self") {
        Ok(own) => own.uid() == facts.uid(),
        Err(_) => false,
    }
}
