//! The tree of the machine's files.
ghost use Rattle.std.specs.Prelude.{◌≡◌, [], None};
ghost use Rattle.tree_trait.specs.Answered.{with_answer};
ghost use Rattle.tree_trait.specs.Answers.{HasCause, count_after};
ghost use Rattle.tree_trait.specs.Changing.{call_of};

use crate::kinds::Wanted;
use crate::machine::Machine;
use host_devices::Faults;
use mc_text::{Path, Text};
use std::alloc::{AllocGlobal, Global};
use std::marker::Model;
use std::os::unix::fs::FileExt;
use std::process::Processes;
use std::rt::Files;
use tree_trait::{AnsweredCalls, ChangingCall, Children, Meta, ReadTree, Tree, TreeError};

/// The files of the machine. Contracts see how often a call has failed, and which changing calls were made
/// and what each answered. It tells nothing of what it holds.
#[derive(Drop)]
pub struct HostTree<R: Files> {
    machine: Machine<R>,
    faults: Faults,
    answered: AnsweredCalls,
}

impl<R: Files> Model for HostTree<R> {
    ghost use Rattle.host_tree.specs.Told.{Told};

    ghost Value = { Told };

    ghost view = { λ t. record { faults = t.faults; answered = t.answered.calls } };
}

impl<R: Files + AllocGlobal> HostTree<R> {
    /// The files that this runtime reaches. It takes no memory.
    pub fn new(rt: R) -> HostTree<R>
        ensures { result ≡ record { faults = 0; answered = [] } }
    {
        HostTree {
            machine: Machine::new(rt),
            faults: Faults::new(),
            answered: AnsweredCalls::new(),
        }
    }
}

impl<R: Files> HostTree<R> {
    /// The answer as it is, where a fault is counted first.
    fn counted<T>(&mut self, answer: Result<T, TreeError>) -> Result<T, TreeError>
        ensures same { result ≡ answer }
        ensures cause { HasCause TreeError.Fault self.old.faults self.new.faults result }
        ensures counts { self.new.faults ≡ count_after self.old.faults result }
        ensures told { self.new.answered ≡ self.old.answered }
    {
        if matches!(answer, Err(TreeError::Fault)) {
            self.faults.raise();
        }
        answer
    }

    /// The answer of a changing call as it is. The call is told, and a fault is counted first.
    fn told(
        &mut self,
        call: ChangingCall<'_>,
        answer: Result<(), TreeError>,
    ) -> Result<(), TreeError>
        ensures same { result ≡ answer }
        ensures cause { HasCause TreeError.Fault self.old.faults self.new.faults result }
        ensures counts { self.new.faults ≡ count_after self.old.faults result }
        ensures told { self.new.answered ≡ with_answer (call_of call.entry) result self.old.answered }
    {
        self.answered.tell(call, answer);
        self.counted(answer)
    }
}

impl<R: Files> ReadTree for HostTree<R>
where
    R::File: FileExt,
{
    ghost contents = { λ _. None };

    ghost fault_count = { λ t. t.faults };

    ghost answered = { λ t. t.answered };

    fn stat(&mut self, alloc: Global, path: &Path) -> Result<Meta, TreeError> {
        let seen = self.machine.stat(alloc, path);
        self.counted(seen)
    }

    fn list(&mut self, alloc: Global, path: &Path) -> Result<Children, TreeError> {
        let listed = self.machine.list(alloc, path);
        self.counted(listed)
    }

    fn read_at(
        &mut self,
        alloc: Global,
        path: &Path,
        offset: u64,
        into: &mut [u8],
    ) -> Result<usize, TreeError> {
        let read = self.machine.read_at(alloc, path, offset, into);
        self.counted(read)
    }

    fn read_link(&mut self, alloc: Global, path: &Path) -> Result<Text, TreeError> {
        let said = self.machine.read_link(alloc, path);
        self.counted(said)
    }

    fn faults(&self) -> u64 {
        self.faults.count()
    }
}

impl<R: Files + Processes> Tree for HostTree<R>
where
    R::File: FileExt,
{
    fn make_file(&mut self, alloc: Global, path: &Path, mode: u16) -> Result<(), TreeError> {
        let answer = self.machine.make_file(alloc, path, mode);
        self.told(ChangingCall::MakeFile { path, mode }, answer)
    }

    fn write_at(
        &mut self,
        alloc: Global,
        path: &Path,
        offset: u64,
        bytes: &[u8],
    ) -> Result<(), TreeError> {
        let answer = self.machine.write_at(alloc, path, offset, bytes);
        self.told(
            ChangingCall::WriteAt {
                path,
                offset,
                bytes,
            },
            answer,
        )
    }

    fn set_mode(&mut self, alloc: Global, path: &Path, mode: u16) -> Result<(), TreeError> {
        let answer = self.machine.set_mode(alloc, path, mode);
        self.told(ChangingCall::SetMode { path, mode }, answer)
    }

    fn make_folder(&mut self, alloc: Global, path: &Path, mode: u16) -> Result<(), TreeError> {
        let answer = self.machine.make_folder(alloc, path, mode);
        self.told(ChangingCall::MakeFolder { path, mode }, answer)
    }

    fn make_link(&mut self, alloc: Global, path: &Path, text: &str) -> Result<(), TreeError> {
        let answer = self.machine.make_link(alloc, path, text);
        self.told(ChangingCall::MakeLink { path, text }, answer)
    }

    fn rename(&mut self, alloc: Global, from: &Path, to: &Path) -> Result<(), TreeError> {
        let answer = self.machine.rename(alloc, from, to);
        self.told(ChangingCall::Rename { from, to }, answer)
    }

    fn remove_file(&mut self, alloc: Global, path: &Path) -> Result<(), TreeError> {
        let answer = self.machine.remove_file(alloc, path);
        self.told(ChangingCall::RemoveFile(path), answer)
    }

    fn remove_folder(&mut self, alloc: Global, path: &Path) -> Result<(), TreeError> {
        let answer = self.machine.remove_folder(alloc, path);
        self.told(ChangingCall::RemoveFolder(path), answer)
    }

    fn sync_file(&mut self, alloc: Global, path: &Path) -> Result<(), TreeError> {
        let answer = self.machine.sync(alloc, path, Wanted::File);
        self.told(ChangingCall::SyncFile(path), answer)
    }

    fn sync_folder(&mut self, alloc: Global, path: &Path) -> Result<(), TreeError> {
        let answer = self.machine.sync(alloc, path, Wanted::Folder);
        self.told(ChangingCall::SyncFolder(path), answer)
    }
}
