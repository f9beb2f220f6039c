//! A list, as far as its file is read.
ghost use Rattle.std.specs.Prelude.{◌≡◌, ◌≢◌, [], ◌∷◌, ◌++◌, ◌≤◌, OnOk};
ghost use Rattle.std.specs.Prelude.{IfErr, Some, ℕ, List, Option, vec_len};
ghost use Rattle.hotlist.specs.HotLines.{ParsedLine, GroupLine, EndLine, Parsed};
ghost use Rattle.hotlist.specs.HotFiles.{fault_at, said_before};
ghost use Rattle.hotlist.specs.LineViews.{parsed_line, reading_view};
ghost use Rattle.hotlist.specs.declared.error.HotError.{HotError};

use crate::error::HotError;
use crate::items::{HotItem, push_item};
use crate::lines::{HotLine, LineRead};
use crate::list::NESTING;
use mc_text::{NoMemory, Text};
use std::alloc::Global;
use std::mem;

/// A group whose end is still to come: its label, its line, and the items that stand before
/// it in the list around it.
#[derive(Drop)]
pub struct OpenGroup {
    pub label: Text,
    pub line: usize,
    pub items_before: Vec<HotItem>,
}

/// The groups that are open, the outermost first, and the items of the innermost so far.
#[derive(Drop)]
pub struct Draft {
    pub groups: Vec<OpenGroup>,
    pub items: Vec<HotItem>,
}

impl Draft {
    ghost use Rattle.hotlist.specs.Drafts.{said_so_far, room_in, unclosed_in, with_said};

    /// Nothing yet.
    pub fn new(alloc: Global) -> Draft
        ensures said { said_so_far result ≡ [] }
        ensures room { room_in result ≡ 32 }
        ensures unclosed { unclosed_in result ≡ [] }
        ensures limited { vec_len result.groups ≤ 32 }
    {
        Draft {
            groups: Vec::new(alloc),
            items: Vec::new(alloc),
        }
    }

    /// Takes what was read of the line `at`.
    pub fn take_line(&mut self, alloc: Global, read: LineRead, at: usize) -> Result<(), HotError>
        requires { vec_len self.old.groups ≤ 32 }
        ensures said { OnOk result ((others : Option (List ParsedLine))
            → with_said (said_so_far self.new) others
            ≡ with_said (said_so_far self.old) (said_before (reading_view read) others)) }
        ensures goes_on { OnOk result ((behind : ℕ → List ℕ → Option HotError) →
            fault_at (reading_view read) at (room_in self.old) (unclosed_in self.old) behind
            ≡ behind (room_in self.new) (unclosed_in self.new)) }
        ensures limited { OnOk result (vec_len self.new.groups ≤ 32) }
        ensures refused { IfErr result (λ e. e ≢ HotError.Memory → (behind : ℕ → List ℕ → Option HotError) →
            fault_at (reading_view read) at (room_in self.old) (unclosed_in self.old) behind ≡ Some e) }
    {
        match read {
            LineRead::Passed => Ok(()),
            LineRead::Bad => Err(HotError::BadLine(at)),
            LineRead::Said(HotLine::Entry { label, path }) => {
                push_item(&mut self.items, HotItem::entry(label, path))?;
                Ok(())
            }
            LineRead::Said(HotLine::Group { label }) => self.begin_group(alloc, label, at),
            LineRead::Said(HotLine::End) => self.end_group(at),
        }
    }

    /// Begins a group at a line.
    fn begin_group(&mut self, alloc: Global, label: Text, at: usize) -> Result<(), HotError>
        requires { vec_len self.old.groups ≤ 32 }
        ensures said { OnOk result ((others : Option (List ParsedLine))
            → with_said (said_so_far self.new) others
            ≡ with_said (said_so_far self.old) (said_before (Parsed (GroupLine label)) others)) }
        ensures goes_on { OnOk result ((behind : ℕ → List ℕ → Option HotError) →
            fault_at (Parsed (GroupLine label)) at (room_in self.old) (unclosed_in self.old) behind
            ≡ behind (room_in self.new) (unclosed_in self.new)) }
        ensures limited { OnOk result (vec_len self.new.groups ≤ 32) }
        ensures refused { IfErr result (λ e. e ≢ HotError.Memory → (behind : ℕ → List ℕ → Option HotError) →
            fault_at (Parsed (GroupLine label)) at (room_in self.old) (unclosed_in self.old) behind
            ≡ Some e) }
    {
        if self.groups.len() >= NESTING {
            return Err(HotError::TooDeep(at));
        }
        let items_before = mem::replace(&mut self.items, Vec::new(alloc));
        let group = OpenGroup {
            label,
            line: at,
            items_before,
        };
        push_group(&mut self.groups, group)?;
        Ok(())
    }

    /// Ends the innermost group.
    fn end_group(&mut self, at: usize) -> Result<(), HotError>
        requires { vec_len self.old.groups ≤ 32 }
        ensures said { OnOk result ((others : Option (List ParsedLine))
            → with_said (said_so_far self.new) others
            ≡ with_said (said_so_far self.old) (said_before (Parsed EndLine) others)) }
        ensures goes_on { OnOk result ((behind : ℕ → List ℕ → Option HotError) →
            fault_at (Parsed EndLine) at (room_in self.old) (unclosed_in self.old) behind
            ≡ behind (room_in self.new) (unclosed_in self.new)) }
        ensures limited { OnOk result (vec_len self.new.groups ≤ 32) }
        ensures refused { IfErr result (λ e. e ≢ HotError.Memory → (behind : ℕ → List ℕ → Option HotError) →
            fault_at (Parsed EndLine) at (room_in self.old) (unclosed_in self.old) behind ≡ Some e) }
    {
        let Some(group) = self.groups.pop() else {
            return Err(HotError::BadLine(at));
        };
        let items = mem::replace(&mut self.items, group.items_before);
        push_item(&mut self.items, HotItem::group(group.label, items))?;
        Ok(())
    }
}

/// Puts an open group within the others.
fn push_group(groups: &mut Vec<OpenGroup>, group: OpenGroup) -> Result<(), NoMemory>
    ensures { OnOk result (groups.new.items ≡ groups.old.items ++ group ∷ []) }
{
    groups.push(group)?;
    Ok(())
}
