//! The calls that read what a file or a link holds.
ghost use Rattle.std.specs.Prelude.{◌≡◌, ◌≤◌, ◌<◌, ◌^◌, length, All, IfOk, OnOk};
ghost use Rattle.std.specs.Bool.{OnTrue};
ghost use Rattle.tree_trait.specs.Answers.{IsLinkText};
ghost use Rattle.host_tree.specs.Kept.{HasRoom};

use crate::kept::{Access, KeptFile};
use crate::kinds::Wanted;
use crate::machine::Machine;
use host_devices::{TURNS, answer_of};
use mc_text::{Path, Text};
use std::alloc::Global;
use std::convert::AsStr;
use std::fs::File;
use std::io;
use std::io::ErrorKind;
use std::os::unix::fs::FileExt;
use std::rt::Files;
use tree_trait::TreeError;

impl<R: Files> Machine<R>
where
    R::File: FileExt,
{
    /// Reads bytes of a file from an offset on. The file stays open for the next read of it.
    pub fn read_at(
        &mut self,
        alloc: Global,
        path: &Path,
        offset: u64,
        into: &mut [u8],
    ) -> Result<usize, TreeError>
        ensures in_room { IfOk result (λ count. count ≤ length into.old) }
        ensures kept { self.new.kept ≡ self.old.kept }
    {
        if let Some(open) = self.read.at(path) {
            return fill_from(&open.file, offset, into);
        }
        let open = self.open_to_read(alloc, path)?;
        let answer = fill_from(&open.file, offset, into);
        self.read.keep(open);
        answer
    }

    /// Opens a file to be read, with room to keep it.
    fn open_to_read(&mut self, alloc: Global, path: &Path) -> Result<KeptFile<R::File>, TreeError>
        ensures room { OnOk result (HasRoom self.new.read.files) }
        ensures kept { self.new.kept ≡ self.old.kept }
    {
        self.read.forget_all();
        let kept_path = self.read.room_for(alloc, path)?;
        let text = self.text_to(alloc, path, Wanted::File)?;
        let file = answer_of(File::open(&self.rt, text.as_str()))?;
        Ok(KeptFile {
            path: kept_path,
            access: Access::Read,
            file,
        })
    }

    /// The text of a link. One that isn't UTF-8 is a fault.
    pub fn read_link(&mut self, alloc: Global, path: &Path) -> Result<Text, TreeError>
        ensures { IfOk result IsLinkText }
    {
        let text = self.text_to(alloc, path, Wanted::Link)?;
        let target = answer_of(self.rt.read_link(alloc, text.as_str()))?;
        let target = target.as_path().as_os_str();
        if !may_be_link_text(target) {
            return Err(TreeError::Fault);
        }
        Ok(Text(String::from_str(alloc, target)?))
    }
}

/// The most that an offset may be for the system. No file has a byte there or behind it.
const GREATEST_OFFSET: u64 = (1 << 63) - 1;

/// Fills a buffer with the bytes of a file from an offset on, as far as there are any.
fn fill_from<F: FileExt>(file: &F, offset: u64, into: &mut [u8]) -> Result<usize, TreeError>
    ensures { IfOk result (λ count. count ≤ length into.old) }
{
    if offset >= GREATEST_OFFSET {
        return Ok(0);
    }
    answer_of(read_full(file, offset, into))
}

/// Reads until the buffer is full or the file is at its end, and once more where a signal came in between.
fn read_full<F: FileExt>(file: &F, offset: u64, into: &mut [u8]) -> io::Result<usize>
    ensures { IfOk result (λ count. count ≤ length into.old) }
{
    let mut count = 0;
    for _ in 0..TURNS {
        if count >= into.len() {
            return Ok(into.len());
        }
        match file.read_at(&mut into[count..], offset.saturating_add(count as u64)) {
            Ok(0) => return Ok(count),
            Ok(more) => count += more,
            Err(error) if error.kind() == ErrorKind::Interrupted => {}
            Err(error) => return Err(error),
        }
    }
    Err(io::Error::from(ErrorKind::TimedOut))
}

/// Whether a link may say this: 1 to 4,095 bytes and no NUL.
pub fn may_be_link_text(text: &str) -> bool
    ensures { OnTrue result (IsLinkText text.now) }
{
    !text.is_empty() && text.len() <= 4095 && text.as_bytes().iter().all(|byte| *byte != 0)
}
