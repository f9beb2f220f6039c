//! What a tree remembers for contracts alone: its changing calls, and what each answered.
ghost use Rattle.std.specs.Prelude.{◌≡◌, List, []};
ghost use Rattle.std.specs.Borrow.{ftrue};
ghost use Rattle.tree_trait.specs.Answered.{Answered};

use crate::calls::TreeError;
use crate::changing::{AnsweredCall, ChangingCall};
use std::marker::Model;

/// The changing calls that were made on a tree, the newest first, and what each answered. It has no bytes,
/// and its functions do nothing when they run.
#[derive(Drop)]
pub struct AnsweredCalls {
    pub ghost calls: { List Answered },
}

impl Model for AnsweredCalls {
    ghost also_owns = { λ _. ftrue };
}

impl AnsweredCalls {
    ghost use Rattle.tree_trait.specs.Answered.{with_answer};
    ghost use Rattle.tree_trait.specs.Changing.{call_of};

    /// None yet.
    pub fn new() -> AnsweredCalls
        ensures { result.calls ≡ [] }
    {
        AnsweredCalls {}
    }

    /// This call joins them, which was answered so.
    pub fn tell(&mut self, call: ChangingCall<'_>, answer: Result<(), TreeError>)
        ensures { self.new.calls ≡ with_answer (call_of call.entry) answer self.old.calls }
    {
        *self = self.and(&AnsweredCall { call, answer });
    }

    /// The same calls and this one.
    fn and(&self, made: &AnsweredCall<'_>) -> AnsweredCalls
        ensures { result.calls ≡ with_answer (call_of made.now.call) made.now.answer self.now.calls }
    {
        AnsweredCalls {}
    }
}
