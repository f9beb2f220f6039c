//! The commands that move the point.
ghost use Rattle.std.specs.Prelude.{◌≡◌, ◌-◌, IfErr, OnOk, OnErr, Ok, length};
ghost use Rattle.mc_edit.specs.declared.error.EditError.TheVariants.{Memory};
ghost use Rattle.mc_edit.specs.Commands.{moved_point};
ghost use Rattle.mc_edit.specs.Lines.{line_start, line_end, start_of_line};
ghost use Rattle.mc_edit.specs.Moves.{left_of, right_of, up_of, down_of, repeated_move};

use super::Editor;
use crate::error::EditError;
use crate::lines::{line_end, line_start, start_of_line};
use crate::moves::{down_of, left_of, page_down, page_up, right_of, up_of};
use std::alloc::Global;

impl Editor {
    pub(super) fn left(&mut self, alloc: Global) -> Result<(), EditError>
        ensures done { OnOk result (moved_point self.old
            (left_of self.old.text.bytes self.old.text.point) ≡ Ok self.new) }
        ensures refused { IfErr result (λ error. error ≡ Memory) }
        ensures same { OnErr result (self.new ≡ self.old) }
    {
        self.point = left_of(alloc, &self.text, self.point)?;
        Ok(())
    }

    pub(super) fn right(&mut self, alloc: Global) -> Result<(), EditError>
        ensures done { OnOk result (moved_point self.old
            (right_of self.old.text.bytes self.old.text.point) ≡ Ok self.new) }
        ensures refused { IfErr result (λ error. error ≡ Memory) }
        ensures same { OnErr result (self.new ≡ self.old) }
    {
        self.point = right_of(alloc, &self.text, self.point)?;
        Ok(())
    }

    #[tactic(auto, unfolding(crate::specs::Edits::largest_text))]
    pub(super) fn up(&mut self, alloc: Global) -> Result<(), EditError>
        ensures done { OnOk result (moved_point self.old (up_of self.old.text.bytes self.old.text.point)
            ≡ Ok self.new) }
        ensures refused { IfErr result (λ error. error ≡ Memory) }
        ensures same { OnErr result (self.new ≡ self.old) }
    {
        self.point = up_of(alloc, &self.text, self.point)?;
        Ok(())
    }

    #[tactic(auto, unfolding(crate::specs::Edits::largest_text))]
    pub(super) fn down(&mut self, alloc: Global) -> Result<(), EditError>
        ensures done { OnOk result (moved_point self.old
            (down_of self.old.text.bytes self.old.text.point) ≡ Ok self.new) }
        ensures refused { IfErr result (λ error. error ≡ Memory) }
        ensures same { OnErr result (self.new ≡ self.old) }
    {
        self.point = down_of(alloc, &self.text, self.point)?;
        Ok(())
    }

    #[tactic(auto, unfolding(crate::specs::Edits::largest_text))]
    pub(super) fn page_up(&mut self, alloc: Global, count: u16) -> Result<(), EditError>
        ensures done { OnOk result (moved_point self.old (repeated_move
            (up_of self.old.text.bytes) count self.old.text.point) ≡ Ok self.new) }
        ensures refused { IfErr result (λ error. error ≡ Memory) }
        ensures same { OnErr result (self.new ≡ self.old) }
    {
        self.point = page_up(alloc, &self.text, self.point, count)?;
        Ok(())
    }

    #[tactic(auto, unfolding(crate::specs::Edits::largest_text))]
    pub(super) fn page_down(&mut self, alloc: Global, count: u16) -> Result<(), EditError>
        ensures done { OnOk result (moved_point self.old (repeated_move
            (down_of self.old.text.bytes) count self.old.text.point) ≡ Ok self.new) }
        ensures refused { IfErr result (λ error. error ≡ Memory) }
        ensures same { OnErr result (self.new ≡ self.old) }
    {
        self.point = page_down(alloc, &self.text, self.point, count)?;
        Ok(())
    }

    pub(super) fn line_start(&mut self)
        ensures { moved_point self.old (line_start self.old.text.bytes self.old.text.point)
            ≡ Ok self.new }
    {
        self.point = line_start(&self.text, self.point);
    }

    pub(super) fn line_end(&mut self)
        ensures { moved_point self.old (line_end self.old.text.bytes self.old.text.point) ≡ Ok self.new }
    {
        self.point = line_end(&self.text, self.point);
    }

    pub(super) fn text_start(&mut self)
        ensures { moved_point self.old 0 ≡ Ok self.new }
    {
        self.point = 0;
    }

    pub(super) fn text_end(&mut self)
        ensures { moved_point self.old (length self.old.text.bytes) ≡ Ok self.new }
    {
        self.point = self.text.len();
    }

    pub(super) fn go_line(&mut self, line: u64)
        ensures { moved_point self.old (start_of_line (line - 1) self.old.text.bytes) ≡ Ok self.new }
    {
        self.point = start_of_line(&mut self.text, line);
    }
}
