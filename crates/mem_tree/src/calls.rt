//! The calls of a tree in memory.
ghost use Rattle.std.specs.Prelude.{◌≡◌, ◌+◌, ◌^◌, ◌≤◌, length, Some, IfOk};
ghost use Rattle.tree_trait.specs.FileSystem.{node};
ghost use Rattle.tree_trait.specs.Answered.{with_answer};
ghost use Rattle.tree_trait.specs.Calls.{Stat, ListFolder, ReadAt, ReadLink, MakeFile};
ghost use Rattle.tree_trait.specs.Calls.{WriteAt, SetMode, MakeFolder, MakeLink, Rename};
ghost use Rattle.tree_trait.specs.Calls.{RemoveFile, RemoveFolder, SyncFile, SyncFolder};
ghost use Rattle.tree_trait.specs.Change.{current, found_node};
ghost use Rattle.tree_trait.specs.Answers.{HasCause, count_after, Performs, Reads, IsMeta};
ghost use Rattle.tree_trait.specs.Answers.{IsListing, IsRead, IsLinkText, IsInRange, IsAscending};
ghost use Rattle.mem_tree.specs.Counted.{IsCounted, TakesOnePlace};

use crate::counts::{count, count_fault, fail_if};
use crate::links::read_link_text;
use crate::perform::conclude;
use crate::plan::{
    plan_make_file, plan_make_folder, plan_make_link, plan_remove_file, plan_remove_folder,
    plan_rename, plan_set_mode, plan_sync_file, plan_sync_folder, plan_write_at,
};
use crate::tree::MemTree;
use mc_text::{Path, Text};
use std::alloc::Global;
use tree_rules::{read_bytes, read_children, read_meta};
use tree_trait::{ChangingCall, Children, Meta, ReadTree, Tree, TreeError};

impl ReadTree for MemTree {
    ghost contents = { λ m. Some m.log };

    ghost fault_count = { λ m. m.faults };

    ghost answered = { λ m. m.answered };

    fn stat(&mut self, _alloc: Global, path: &Path) -> Result<Meta, TreeError>
        ensures answer { Reads self.old.log (Stat path.now) result (IsMeta (current self.old.log) path.now) }
        ensures same { self.new.log ≡ self.old.log }
        ensures in_range { IfOk result IsInRange }
        ensures cause { HasCause TreeError.Fault self.old.faults self.new.faults result }
        ensures counts { self.new.faults ≡ count_after self.old.faults result }
        ensures told { self.new.answered ≡ self.old.answered }
        ensures counted { IsCounted self.old self.new result }
    {
        let due = count(&self.fails, &mut self.called);
        let read = read_meta(&self.stands, path.names());
        let answer = fail_if(due, read);
        count_fault(&answer, &mut self.faults);
        answer
    }

    fn list(&mut self, alloc: Global, path: &Path) -> Result<Children, TreeError>
        ensures answer { Reads self.old.log (ListFolder path.now) result
            (IsListing (current self.old.log) (found_node (current self.old.log) path.now)) }
        ensures same { self.new.log ≡ self.old.log }
        ensures ascending { IfOk result (λ children. IsAscending children.names) }
        ensures cause { HasCause TreeError.Fault self.old.faults self.new.faults result }
        ensures counts { self.new.faults ≡ count_after self.old.faults result }
        ensures told { self.new.answered ≡ self.old.answered }
        ensures counted { IsCounted self.old self.new result }
    {
        let due = count(&self.fails, &mut self.called);
        let read = read_children(alloc, &self.stands, path.names());
        let answer = fail_if(due, read);
        count_fault(&answer, &mut self.faults);
        answer
    }

    fn read_at(
        &mut self,
        _alloc: Global,
        path: &Path,
        offset: u64,
        into: &mut [u8],
    ) -> Result<usize, TreeError>
        ensures answer { Reads self.old.log (ReadAt path.now offset (length into.old)) result
            (IsRead (node (current self.old.log) (found_node (current self.old.log) path.now)).bytes offset
            into.old into.new) }
        ensures same { self.new.log ≡ self.old.log }
        ensures in_room { IfOk result (λ count. count ≤ length into.old) }
        ensures cause { HasCause TreeError.Fault self.old.faults self.new.faults result }
        ensures counts { self.new.faults ≡ count_after self.old.faults result }
        ensures told { self.new.answered ≡ self.old.answered }
        ensures counted { IsCounted self.old self.new result }
    {
        let due = count(&self.fails, &mut self.called);
        let read = read_bytes(&self.stands, path.names(), offset, into);
        let answer = fail_if(due, read);
        count_fault(&answer, &mut self.faults);
        answer
    }

    fn read_link(&mut self, alloc: Global, path: &Path) -> Result<Text, TreeError>
        ensures answer { Reads self.old.log (ReadLink path.now) result
            (λ text.
            text ≡ (node (current self.old.log) (found_node (current self.old.log) path.now)).bytes) }
        ensures same { self.new.log ≡ self.old.log }
        ensures link_text { IfOk result IsLinkText }
        ensures cause { HasCause TreeError.Fault self.old.faults self.new.faults result }
        ensures counts { self.new.faults ≡ count_after self.old.faults result }
        ensures told { self.new.answered ≡ self.old.answered }
        ensures counted { IsCounted self.old self.new result }
    {
        let due = count(&self.fails, &mut self.called);
        let read = read_link_text(alloc, &self.stands, path.names());
        let answer = fail_if(due, read);
        count_fault(&answer, &mut self.faults);
        answer
    }

    fn faults(&self) -> u64 {
        self.faults
    }
}

impl Tree for MemTree {
    fn make_file(&mut self, alloc: Global, path: &Path, mode: u16) -> Result<(), TreeError>
        requires mode { mode ≤ 0o7777 }
        ensures answer { Performs self.old.log (MakeFile path.now mode) result (Some self.new.log) }
        ensures cause { HasCause TreeError.Fault self.old.faults self.new.faults result }
        ensures counts { self.new.faults ≡ count_after self.old.faults result }
        ensures told { self.new.answered ≡ with_answer (MakeFile path.now mode) result self.old.answered }
        ensures counted { IsCounted self.old self.new result }
    {
        let due = count(&self.fails, &mut self.called);
        let plan = plan_make_file(alloc, &self.stands, path.names(), mode, self.time);
        let answer = conclude(alloc, &mut self.stands, &mut self.records, due, plan);
        count_fault(&answer, &mut self.faults);
        self.answered
            .tell(ChangingCall::MakeFile { path, mode }, answer);
        answer
    }

    fn write_at(
        &mut self,
        alloc: Global,
        path: &Path,
        offset: u64,
        bytes: &[u8],
    ) -> Result<(), TreeError>
        requires fits { offset + length bytes.now ≤ 2 ^ 63 }
        ensures answer { Performs self.old.log (WriteAt path.now offset bytes.now) result
            (Some self.new.log) }
        ensures cause { HasCause TreeError.Fault self.old.faults self.new.faults result }
        ensures counts { self.new.faults ≡ count_after self.old.faults result }
        ensures told { self.new.answered
            ≡ with_answer (WriteAt path.now offset bytes.now) result self.old.answered }
        ensures counted { IsCounted self.old self.new result }
    {
        let due = count(&self.fails, &mut self.called);
        let plan = plan_write_at(alloc, &self.stands, path.names(), offset, bytes, self.time);
        let answer = conclude(alloc, &mut self.stands, &mut self.records, due, plan);
        count_fault(&answer, &mut self.faults);
        self.answered.tell(
            ChangingCall::WriteAt {
                path,
                offset,
                bytes,
            },
            answer,
        );
        answer
    }

    fn set_mode(&mut self, alloc: Global, path: &Path, mode: u16) -> Result<(), TreeError>
        requires mode { mode ≤ 0o7777 }
        ensures answer { Performs self.old.log (SetMode path.now mode) result (Some self.new.log) }
        ensures cause { HasCause TreeError.Fault self.old.faults self.new.faults result }
        ensures counts { self.new.faults ≡ count_after self.old.faults result }
        ensures told { self.new.answered ≡ with_answer (SetMode path.now mode) result self.old.answered }
        ensures counted { IsCounted self.old self.new result }
        ensures place { TakesOnePlace self.old self.new result }
    {
        let due = count(&self.fails, &mut self.called);
        let plan = plan_set_mode(&self.stands, path.names(), mode, self.time);
        let answer = conclude(alloc, &mut self.stands, &mut self.records, due, plan);
        count_fault(&answer, &mut self.faults);
        self.answered
            .tell(ChangingCall::SetMode { path, mode }, answer);
        answer
    }

    fn make_folder(&mut self, alloc: Global, path: &Path, mode: u16) -> Result<(), TreeError>
        requires mode { mode ≤ 0o7777 }
        ensures answer { Performs self.old.log (MakeFolder path.now mode) result (Some self.new.log) }
        ensures cause { HasCause TreeError.Fault self.old.faults self.new.faults result }
        ensures counts { self.new.faults ≡ count_after self.old.faults result }
        ensures told { self.new.answered ≡ with_answer (MakeFolder path.now mode) result self.old.answered }
        ensures counted { IsCounted self.old self.new result }
    {
        let due = count(&self.fails, &mut self.called);
        let plan = plan_make_folder(alloc, &self.stands, path.names(), mode, self.time);
        let answer = conclude(alloc, &mut self.stands, &mut self.records, due, plan);
        count_fault(&answer, &mut self.faults);
        self.answered
            .tell(ChangingCall::MakeFolder { path, mode }, answer);
        answer
    }

    fn make_link(&mut self, alloc: Global, path: &Path, text: &str) -> Result<(), TreeError>
        requires link_text { IsLinkText text.now }
        ensures answer { Performs self.old.log (MakeLink path.now text.now) result (Some self.new.log) }
        ensures cause { HasCause TreeError.Fault self.old.faults self.new.faults result }
        ensures counts { self.new.faults ≡ count_after self.old.faults result }
        ensures told { self.new.answered ≡ with_answer (MakeLink path.now text.now) result self.old.answered }
        ensures counted { IsCounted self.old self.new result }
    {
        let due = count(&self.fails, &mut self.called);
        let plan = plan_make_link(alloc, &self.stands, path.names(), text, self.time);
        let answer = conclude(alloc, &mut self.stands, &mut self.records, due, plan);
        count_fault(&answer, &mut self.faults);
        self.answered
            .tell(ChangingCall::MakeLink { path, text }, answer);
        answer
    }

    fn rename(&mut self, alloc: Global, from: &Path, to: &Path) -> Result<(), TreeError>
        ensures answer { Performs self.old.log (Rename from.now to.now) result (Some self.new.log) }
        ensures cause { HasCause TreeError.Fault self.old.faults self.new.faults result }
        ensures counts { self.new.faults ≡ count_after self.old.faults result }
        ensures told { self.new.answered ≡ with_answer (Rename from.now to.now) result self.old.answered }
        ensures counted { IsCounted self.old self.new result }
    {
        let due = count(&self.fails, &mut self.called);
        let plan = plan_rename(alloc, &self.stands, from, to, self.time);
        let answer = conclude(alloc, &mut self.stands, &mut self.records, due, plan);
        count_fault(&answer, &mut self.faults);
        self.answered
            .tell(ChangingCall::Rename { from, to }, answer);
        answer
    }

    fn remove_file(&mut self, alloc: Global, path: &Path) -> Result<(), TreeError>
        ensures answer { Performs self.old.log (RemoveFile path.now) result (Some self.new.log) }
        ensures cause { HasCause TreeError.Fault self.old.faults self.new.faults result }
        ensures counts { self.new.faults ≡ count_after self.old.faults result }
        ensures told { self.new.answered ≡ with_answer (RemoveFile path.now) result self.old.answered }
        ensures counted { IsCounted self.old self.new result }
        ensures place { TakesOnePlace self.old self.new result }
    {
        let due = count(&self.fails, &mut self.called);
        let plan = plan_remove_file(&self.stands, path.names(), self.time);
        let answer = conclude(alloc, &mut self.stands, &mut self.records, due, plan);
        count_fault(&answer, &mut self.faults);
        self.answered.tell(ChangingCall::RemoveFile(path), answer);
        answer
    }

    fn remove_folder(&mut self, alloc: Global, path: &Path) -> Result<(), TreeError>
        ensures answer { Performs self.old.log (RemoveFolder path.now) result (Some self.new.log) }
        ensures cause { HasCause TreeError.Fault self.old.faults self.new.faults result }
        ensures counts { self.new.faults ≡ count_after self.old.faults result }
        ensures told { self.new.answered ≡ with_answer (RemoveFolder path.now) result self.old.answered }
        ensures counted { IsCounted self.old self.new result }
        ensures place { TakesOnePlace self.old self.new result }
    {
        let due = count(&self.fails, &mut self.called);
        let plan = plan_remove_folder(&self.stands, path.names(), self.time);
        let answer = conclude(alloc, &mut self.stands, &mut self.records, due, plan);
        count_fault(&answer, &mut self.faults);
        self.answered.tell(ChangingCall::RemoveFolder(path), answer);
        answer
    }

    fn sync_file(&mut self, alloc: Global, path: &Path) -> Result<(), TreeError>
        ensures answer { Performs self.old.log (SyncFile path.now) result (Some self.new.log) }
        ensures cause { HasCause TreeError.Fault self.old.faults self.new.faults result }
        ensures counts { self.new.faults ≡ count_after self.old.faults result }
        ensures told { self.new.answered ≡ with_answer (SyncFile path.now) result self.old.answered }
        ensures counted { IsCounted self.old self.new result }
        ensures place { TakesOnePlace self.old self.new result }
    {
        let due = count(&self.fails, &mut self.called);
        let plan = plan_sync_file(&self.stands, path.names(), self.time);
        let answer = conclude(alloc, &mut self.stands, &mut self.records, due, plan);
        count_fault(&answer, &mut self.faults);
        self.answered.tell(ChangingCall::SyncFile(path), answer);
        answer
    }

    fn sync_folder(&mut self, alloc: Global, path: &Path) -> Result<(), TreeError>
        ensures answer { Performs self.old.log (SyncFolder path.now) result (Some self.new.log) }
        ensures cause { HasCause TreeError.Fault self.old.faults self.new.faults result }
        ensures counts { self.new.faults ≡ count_after self.old.faults result }
        ensures told { self.new.answered ≡ with_answer (SyncFolder path.now) result self.old.answered }
        ensures counted { IsCounted self.old self.new result }
        ensures place { TakesOnePlace self.old self.new result }
    {
        let due = count(&self.fails, &mut self.called);
        let plan = plan_sync_folder(&self.stands, path.names(), self.time);
        let answer = conclude(alloc, &mut self.stands, &mut self.records, due, plan);
        count_fault(&answer, &mut self.faults);
        self.answered.tell(ChangingCall::SyncFolder(path), answer);
        answer
    }
}
