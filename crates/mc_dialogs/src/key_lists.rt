//! Boxes that answer a list of keys.
ghost use Rattle.std.specs.Prelude.{◌≡◌, Ok, IfOk, OnOk, OnErr, Contains};
ghost use Rattle.mc_dialogs.specs.InputKeys.{InputState, input_after, input_shut};
ghost use Rattle.mc_dialogs.specs.ListKeys.{ListState, list_after, list_shut};
ghost use Rattle.mc_dialogs.specs.ModeKeys.{ModeState, mode_after, mode_shut};
ghost use Rattle.mc_dialogs.specs.QuestionKeys.{QuestionState, question_shut};
ghost use Rattle.mc_dialogs.specs.KeyLists.{answer_of, left_by, states_before};

use crate::input_line::InputLine;
use crate::list_box::ListBox;
use crate::mode_box::ModeBox;
use crate::question_box::QuestionBox;
use crate::shut::Shut;
use key_screen::Key;
use mc_text::NoMemory;
use std::alloc::Global;

impl InputLine {
    /// What it answers to a list of keys, up to the first that closes it. Where memory is wanting for one
    /// of them, those before that one are done.
    pub fn answer(&mut self, alloc: Global, keys: &[Key]) -> Result<Shut, NoMemory>
        ensures state { OnOk result (self.new ≡ left_by InputState input_after input_shut self.old keys.now) }
        ensures refused { OnErr result
            (Contains (states_before InputState input_after input_shut self.old keys.now) self.new) }
        ensures shut { IfOk result
            (λ shut. shut ≡ answer_of InputState input_after input_shut self.old keys.now) }
    {
        for key in keys {
            match self.key(alloc, *key)? {
                Shut::Stay => {}
                Shut::Closed(reply) => return Ok(Shut::Closed(reply)),
            }
        }
        Ok(Shut::Stay)
    }
}

impl ListBox {
    /// What it answers to a list of keys, up to the first that closes it.
    pub fn answer(&mut self, keys: &[Key]) -> Result<Shut, NoMemory>
        ensures state { self.new ≡ left_by ListState list_after list_shut self.old keys.now }
        ensures shut { result ≡ Ok (answer_of ListState list_after list_shut self.old keys.now) }
    {
        for key in keys {
            match self.key(*key)? {
                Shut::Stay => {}
                Shut::Closed(reply) => return Ok(Shut::Closed(reply)),
            }
        }
        Ok(Shut::Stay)
    }
}

impl ModeBox {
    /// What it answers to a list of keys, up to the first that closes it.
    pub fn answer(&mut self, keys: &[Key]) -> Result<Shut, NoMemory>
        ensures state { self.new ≡ left_by ModeState mode_after mode_shut self.old keys.now }
        ensures shut { result ≡ Ok (answer_of ModeState mode_after mode_shut self.old keys.now) }
    {
        for key in keys {
            match self.key(*key)? {
                Shut::Stay => {}
                Shut::Closed(reply) => return Ok(Shut::Closed(reply)),
            }
        }
        Ok(Shut::Stay)
    }
}

impl QuestionBox {
    /// What it answers to a list of keys, up to the first that closes it.
    pub fn answer(&mut self, keys: &[Key]) -> Result<Shut, NoMemory>
        ensures state { self.new ≡ self.old }
        ensures shut { result
            ≡ Ok (answer_of QuestionState (λ asked key. asked) question_shut self.old keys.now) }
    {
        for key in keys {
            match self.key(*key)? {
                Shut::Stay => {}
                Shut::Closed(reply) => return Ok(Shut::Closed(reply)),
            }
        }
        Ok(Shut::Stay)
    }
}
