//! The calls that change and sync what a file holds, and its mode.
ghost use Rattle.std.specs.Prelude.{◌≡◌, [], ◌+◌, ◌^◌, ◌≤◌, length, true, Err, OnOk, OnErr};
ghost use Rattle.std.specs.Fs.{permissions_mode};
ghost use Rattle.host_tree.specs.Kept.{HasRoom, forgetting, with_newest};
ghost use Rattle.host_tree.specs.Modes.{bars_owner};

use crate::kept::{Access, KeptFile};
use crate::kinds::Wanted;
use crate::machine::Machine;
use host_devices::{answer_of, cause_of};
use mc_text::Path;
use std::alloc::Global;
use std::convert::AsStr;
use std::fs::{File, OpenFile, OpenOptions, Permissions};
use std::os::unix::fs::{FileExt, OpenOptionsExt, PermissionsExt};
use std::process::{Command, Processes, Stdio};
use std::rt::Files;
use std::{fs, io};
use tree_trait::TreeError;

/// The permissions of a mode's twelve bits.
pub fn permissions_of(mode: u16) -> Permissions
    ensures { permissions_mode result ≡ mode }
{
    Permissions::from_mode(u32::from(mode))
}

impl<R: Files + Processes> Machine<R>
where
    R::File: FileExt,
{
    /// Makes an empty file, and keeps it open. Where its mode can't be set the file is taken away again.
    pub fn make_file(&mut self, alloc: Global, path: &Path, mode: u16) -> Result<(), TreeError> {
        let text = self.text_of(alloc, path)?;
        let place = self.kept.room_for(alloc, path)?;
        let file = create(&self.rt, text.as_str(), mode)?;
        // The system's mask may have narrowed the mode.
        if let Err(cause) = answer_of(file.set_permissions(permissions_of(mode))) {
            let _removed = fs::remove_file(&self.rt, text.as_str());
            return Err(cause);
        }
        self.kept.keep(KeptFile {
            path: place,
            access: access_by(mode),
            file,
        });
        Ok(())
    }

    /// Writes bytes over what stands at an offset of a file, and keeps it open.
    pub fn write_at(
        &mut self,
        alloc: Global,
        path: &Path,
        offset: u64,
        bytes: &[u8],
    ) -> Result<(), TreeError> {
        if let Some(open) = self.kept.at(path) {
            match open.access {
                Access::WritePlain => return put_into(&open.file, offset, bytes),
                Access::Write => return put_with_mode(&open.file, offset, bytes),
                Access::Read | Access::Sync => {}
            }
        }
        let open = self.open_to_write(alloc, path)?;
        let answer = put_with_mode(&open.file, offset, bytes);
        self.kept.keep(open);
        answer
    }

    /// Opens a file to be written, with room to keep it.
    fn open_to_write(&mut self, alloc: Global, path: &Path) -> Result<KeptFile<R::File>, TreeError>
        ensures room { OnOk result (HasRoom self.new.kept.files) }
    {
        let kept_path = self.kept.room_for(alloc, path)?;
        let text = self.text_to(alloc, path, Wanted::File)?;
        let file = answer_of(OpenOptions::new().write(true).open(&self.rt, text.as_str()))?;
        Ok(KeptFile {
            path: kept_path,
            access: Access::Write,
            file,
        })
    }

    /// Sets the mode of a file or a folder, and keeps it open where the old mode lets it be read: the new
    /// one may hinder the sync. Where neither lets it be read, nothing is set.
    pub fn set_mode(&mut self, alloc: Global, path: &Path, mode: u16) -> Result<(), TreeError>
        ensures read { self.new.read.files.items ≡ [] }
    {
        self.read.forget_all();
        if let Some(open) = self.kept.at(path) {
            let answer = answer_of(open.file.set_permissions(permissions_of(mode)));
            if access_by(mode) == Access::Write {
                self.kept.note_set_id(path);
            }
            return answer;
        }
        let place = self.kept.room_for(alloc, path)?;
        let text = self.text_to(alloc, path, Wanted::Moded)?;
        let file = match answer_of(File::open(&self.rt, text.as_str())) {
            Ok(file) => file,
            Err(refusal) => return set_unopened(&self.rt, text.as_str(), mode, refusal),
        };
        let answer = answer_of(file.set_permissions(permissions_of(mode)));
        self.kept.keep(KeptFile {
            path: place,
            access: Access::Sync,
            file,
        });
        answer
    }

    /// Brings a file, or the names of a folder, onto the disk, and closes it. Where it isn't open to be
    /// written the look comes first, since an open would follow a link, and wait for ever at a pipe.
    pub fn sync(&mut self, alloc: Global, path: &Path, wanted: Wanted) -> Result<(), TreeError>
        ensures closed { OnOk result
            (self.new.kept.files.items ≡ forgetting self.old.kept.files.items path.now) }
        ensures refused { OnErr result (self.new.kept ≡ self.old.kept) }
    {
        if wanted == Wanted::File && self.kept.is_written(path) {
            self.sync_open(path)?;
        } else {
            self.sync_found(alloc, path, wanted)?;
        }
        self.kept.forget(path);
        Ok(())
    }

    /// Brings onto the disk what is open at a path.
    fn sync_open(&self, path: &Path) -> Result<(), TreeError> {
        match self.kept.at(path) {
            Some(open) => answer_of(open.file.sync_all()),
            None => Err(TreeError::Missing),
        }
    }

    /// Brings onto the disk what stands at a path.
    fn sync_found(&mut self, alloc: Global, path: &Path, wanted: Wanted) -> Result<(), TreeError>
        ensures { self.new.kept ≡ self.old.kept }
    {
        let text = self.text_to(alloc, path, wanted)?;
        if let Some(open) = self.kept.at(path) {
            return answer_of(open.file.sync_all());
        }
        match answer_of(File::open(&self.rt, text.as_str())) {
            Ok(file) => answer_of(file.sync_all()),
            Err(TreeError::Denied) if wanted == Wanted::Folder => sync_disks(&self.rt, alloc),
            Err(refusal) => Err(refusal),
        }
    }
}

/// Brings all that the system holds onto its disks, by the command `sync`: a folder that may not be opened,
/// as a drop box, can't be synced alone. Where the command can't do that, the folder's own refusal stands.
fn sync_disks<R: Processes>(rt: &R, alloc: Global) -> Result<(), TreeError> {
    match run_sync(rt, alloc) {
        Ok(true) => Ok(()),
        Err(error) if cause_of(&error) == TreeError::Memory => Err(TreeError::Memory),
        Ok(false) | Err(_) => Err(TreeError::Denied),
    }
}

/// Whether the command `sync` ended well.
fn run_sync<R: Processes>(rt: &R, alloc: Global) -> io::Result<bool> {
    let status = Command::new(alloc, "sync")?
        .stdin(Stdio::null())
        .stdout(Stdio::null())
        .stderr(Stdio::null())
        .status(rt)?;
    Ok(status.success())
}

/// The bit of a mode that lets the owner read.
const OWNER_READS: u16 = 0o400;

/// Sets the mode of what couldn't be opened. One that bars the owner would bar the sync too, so the open's
/// refusal is answered then, before anything is changed.
fn set_unopened<R: Files>(
    rt: &R,
    text: &str,
    mode: u16,
    refusal: TreeError,
) -> Result<(), TreeError>
    ensures barred { bars_owner mode ≡ true → result ≡ Err refusal }
{
    if mode & OWNER_READS == 0 {
        return Err(refusal);
    }
    answer_of(fs::set_permissions(rt, text, permissions_of(mode)))
}

/// Makes a file where nothing stands yet, open to be written and synced.
fn create<R: Files>(rt: &R, text: &str, mode: u16) -> Result<R::File, TreeError> {
    answer_of(
        OpenOptions::new()
            .write(true)
            .create_new(true)
            .mode(u32::from(mode))
            .open(rt, text),
    )
}

/// The bits of a mode that lend a program the rights of its owner and of its group.
pub const SET_ID_BITS: u32 = 0o6000;

/// For what a file of this mode is open, where it is open to be written.
fn access_by(mode: u16) -> Access {
    if u32::from(mode) & SET_ID_BITS == 0 {
        Access::WritePlain
    } else {
        Access::Write
    }
}

/// Writes bytes at an offset of a file, and leaves its mode: where the writer isn't root, the system takes
/// the set-id bits away at a write, and they are set again.
fn put_with_mode<F: FileExt + OpenFile>(
    file: &F,
    offset: u64,
    bytes: &[u8],
) -> Result<(), TreeError> {
    let before = answer_of(file.metadata())?.permissions();
    let written = put_into(file, offset, bytes);
    if before.mode() & SET_ID_BITS != 0 {
        answer_of(file.set_permissions(before))?;
    }
    written
}

/// Writes bytes at an offset of a file. With no bytes the file reaches up to the offset at least.
fn put_into<F: FileExt + OpenFile>(file: &F, offset: u64, bytes: &[u8]) -> Result<(), TreeError> {
    if bytes.is_empty() && answer_of(file.metadata())?.len() < offset {
        return answer_of(file.set_len(offset));
    }
    answer_of(file.write_all_at(bytes, offset))
}
