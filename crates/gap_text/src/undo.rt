//! The changes of a text, to be undone and redone: at most `depth` of them are kept.
ghost use Rattle.std.specs.Prelude.{◌≡◌, ⊤, None, IfOk, IsOk, slice_get, option_copied, if◌then◌else◌};
ghost use Rattle.std.specs.Borrow.{sem};
ghost use mathlib.Core.Option.{none};
ghost use denote.Follow.{follows_so};
ghost use Rattle.gap_text.specs.UndoHistory.{noted_history, undone_history, redone_history, no_changes};

use crate::change::Change;
use circular_buffer::HeapCircularBuffer;
use mc_text::NoMemory;
use std::alloc::Global;
use std::marker::Model;

/// The changes that stand, and those that were undone. Both rings have room for `depth` changes from the
/// start, and together they never hold more, so a change that goes from one to the other takes no memory.
#[derive(Drop)]
pub struct Undo {
    past: HeapCircularBuffer<Change>,
    future: HeapCircularBuffer<Change>,
}

impl Model for Undo {
    ghost use Rattle.std.specs.Prelude.{◌≡◌, ◌+◌, ◌≤◌, ◌<◌, length};
    ghost use Rattle.gap_text.specs.UndoHistory.{UndoHistory};

    ghost Value = { UndoHistory };

    ghost view = { λ u. record { past = u.past.items; future = u.future.items; depth = u.past.capacity } };

    ghost invariant = { λ u. (0 < u.past.capacity) × (u.future.capacity ≡ u.past.capacity)
        × (length u.past.items + length u.future.items ≤ u.past.capacity) };
}

impl Undo {
    ghost use Rattle.std.specs.Prelude.{◌<◌};
    ghost use Rattle.gap_text.specs.contracts.undo.Undo.{the_row};

    /// No changes yet, and room for `depth` of them in each direction.
    pub fn new(alloc: Global, depth: usize) -> Result<Undo, NoMemory>
        requires { 0 < depth }
        ensures { IfOk result (λ undo. undo ≡ no_changes depth) }
    {
        Ok(Undo {
            past: HeapCircularBuffer::with_capacity(alloc, depth)?,
            future: HeapCircularBuffer::with_capacity(alloc, depth)?,
        })
    }

    /// Notes a change that was made. All that was undone is dropped, and the oldest change
    /// where there is no more room.
    pub fn note(&mut self, change: Change)
        ensures { self.new ≡ noted_history self.old change }
    {
        self.future.clear();
        self.past.push_front(change);
    }

    /// Takes the newest change out of the past, and shows it: the caller takes it back in the text.
    /// It never answers NoMemory.
    pub fn undo(&mut self) -> Result<Option<&Change>, NoMemory>
        ensures succeeds { IsOk result }
        ensures shown { IfOk result (λ shown. option_copied shown ≡ slice_get self.old.past 0) }
        ensures* after { sem 𝓛 (follows_so the_row the_row self.entry.ghost_name none (λ _ _. ⊤)
            (λ after. after ≡ undone_history self.old)) }
    {
        if self.step_back() {
            Ok(self.next_redone())
        } else {
            Ok(None)
        }
    }

    /// Puts the change that was undone last back into the past, and shows it: the caller
    /// makes it again in the text.
    pub fn redo(&mut self) -> Option<&Change>
        ensures shown { option_copied result ≡ slice_get self.old.future 0 }
        ensures* after { sem 𝓛 (follows_so the_row the_row self.entry.ghost_name none (λ _ _. ⊤)
            (λ after. after ≡ redone_history self.old)) }
    {
        if self.step_forward() {
            self.next_undone()
        } else {
            None
        }
    }

    /// The change that an undo would take back.
    pub fn next_undone(&self) -> Option<&Change>
        ensures { option_copied result ≡ slice_get self.now.past 0 }
    {
        self.past.front()
    }

    /// The change that a redo would make again.
    pub fn next_redone(&self) -> Option<&Change>
        ensures { option_copied result ≡ slice_get self.now.future 0 }
    {
        self.future.front()
    }

    /// Takes the newest change from the past to what was undone, if there is one. It takes no memory.
    pub fn step_back(&mut self) -> bool
        ensures after { self.new ≡ undone_history self.old }
        ensures shown { slice_get self.old.past 0 ≡ (if result then slice_get self.new.future 0 else None) }
    {
        let Some(newest) = self.past.pop_front() else {
            return false;
        };
        self.future.push_front(newest);
        true
    }

    /// Takes the change that was undone last back into the past, if there is one. It takes no memory.
    pub fn step_forward(&mut self) -> bool
        ensures after { self.new ≡ redone_history self.old }
        ensures shown { slice_get self.old.future 0 ≡ (if result then slice_get self.new.past 0 else None) }
    {
        let Some(last_undone) = self.future.pop_front() else {
            return false;
        };
        self.past.push_front(last_undone);
        true
    }
}
