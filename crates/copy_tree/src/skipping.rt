//! What is left as it is, and what is tried again.
ghost use Rattle.std.specs.Prelude.{◌≡◌, None, true};
ghost use Rattle.copy_file.specs.LastSteps.{left_at};
ghost use Rattle.copy_tree.specs.Skipping.{Skips, SkipsFile, SkipsLink, SkipsNext, SkipsRest};
ghost use Rattle.copy_tree.specs.Skipping.{retried_copy, retried_file, retried_link};
ghost use Rattle.copy_tree.specs.Standing.{seen_copy};
ghost use Rattle.copy_tree.specs.TreeCopySteps.{IsWorkable, stays_ready};

use crate::copy::TreeCopy;
use crate::item::ItemAtWork;
use copy_file::FileCopy;
use copy_link::LinkCopy;
use job_reports::{Cause, Did, out_of_memory};
use mc_text::{NoMemory, PathError};
use std::alloc::Global;
use std::mem;

impl TreeCopy {
    /// What is in trouble is left as it is, with all below it. A part that stands is to be removed.
    pub fn skip(&mut self, alloc: Global, cause: Cause) -> Did
        requires workable { IsWorkable self.old.item }
        ensures skips { Skips cause (seen_copy self.old) result (seen_copy self.new) }
        ensures workable { IsWorkable self.new.item }
    {
        match mem::replace(&mut self.item, ItemAtWork::Next) {
            ItemAtWork::Next => self.skip_next(alloc, cause),
            ItemAtWork::File(copy) => self.skip_file(alloc, cause, copy),
            ItemAtWork::Link(copy) => self.skip_link(alloc, cause, copy),
            ItemAtWork::Stays(_) => unreachable!(),
        }
    }

    fn skip_file(&mut self, alloc: Global, cause: Cause, copy: FileCopy) -> Did
        requires free { self.old.item ≡ ItemAtWork.Next }
        requires ready { left_at copy.stage ≡ None }
        ensures skips { SkipsFile cause copy (seen_copy self.old) result (seen_copy self.new) }
        ensures workable { IsWorkable self.new.item }
    {
        let mut copy = copy;
        let did = copy.skip(alloc, cause);
        self.put_file(copy);
        did
    }

    fn skip_link(&mut self, alloc: Global, cause: Cause, copy: LinkCopy) -> Did
        requires free { self.old.item ≡ ItemAtWork.Next }
        requires ready { stays_ready copy.stage ≡ true }
        ensures skips { SkipsLink cause copy (seen_copy self.old) result (seen_copy self.new) }
        ensures workable { IsWorkable self.new.item }
    {
        let mut copy = copy;
        let did = copy.skip(alloc, cause);
        self.put_link(copy);
        did
    }

    /// The next name is passed, or the end of a folder leaves the mode that it was made with.
    fn skip_next(&mut self, alloc: Global, cause: Cause) -> Did
        requires free { self.old.item ≡ ItemAtWork.Next }
        ensures skips { SkipsNext cause (seen_copy self.old) result (seen_copy self.new) }
        ensures workable { IsWorkable self.new.item }
    {
        let Some(name) = self.stack.next_name() else {
            return self.stack.skip_folder(alloc, cause);
        };
        match self.stack.source().join(alloc, name) {
            Ok(source) => {
                self.stack.pass(true);
                Did::Skipped(source, cause)
            }
            Err(PathError::TooLong(_)) => self.skip_rest(alloc, cause),
            Err(_) => Did::Troubled(out_of_memory(false)),
        }
    }

    /// All that is left in the folder that is worked is passed over.
    fn skip_rest(&mut self, alloc: Global, cause: Cause) -> Did
        requires free { self.old.item ≡ ItemAtWork.Next }
        ensures skips { SkipsRest cause (seen_copy self.old) result (seen_copy self.new) }
        ensures workable { IsWorkable self.new.item }
    {
        let Ok(folder) = self.stack.source().copy(alloc) else {
            return Did::Troubled(out_of_memory(false));
        };
        match self.stack.pass_rest(alloc) {
            Ok(()) => Did::Skipped(folder, cause),
            Err(NoMemory) => Did::Troubled(out_of_memory(false)),
        }
    }
}

impl TreeCopy {
    /// What was refused is tried again. A file or a link whose part stands is copied
    /// anew, once that was removed.
    pub fn retry(&mut self)
        requires workable { IsWorkable self.old.item }
        ensures retried { seen_copy self.new ≡ retried_copy (seen_copy self.old) }
        ensures workable { IsWorkable self.new.item }
    {
        match mem::replace(&mut self.item, ItemAtWork::Next) {
            ItemAtWork::Next => {}
            ItemAtWork::File(copy) => self.retry_file(copy),
            ItemAtWork::Link(copy) => self.retry_link(copy),
            ItemAtWork::Stays(_) => unreachable!(),
        }
    }

    fn retry_file(&mut self, copy: FileCopy)
        requires free { self.old.item ≡ ItemAtWork.Next }
        requires ready { left_at copy.stage ≡ None }
        ensures retried { seen_copy self.new ≡ retried_file copy (seen_copy self.old) }
        ensures workable { IsWorkable self.new.item }
    {
        let mut copy = copy;
        copy.retry();
        self.put_file(copy);
    }

    fn retry_link(&mut self, copy: LinkCopy)
        requires free { self.old.item ≡ ItemAtWork.Next }
        requires ready { stays_ready copy.stage ≡ true }
        ensures retried { seen_copy self.new ≡ retried_link copy (seen_copy self.old) }
        ensures workable { IsWorkable self.new.item }
    {
        let mut copy = copy;
        copy.retry();
        self.put_link(copy);
    }
}
