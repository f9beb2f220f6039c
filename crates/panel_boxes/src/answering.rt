//! What keys make of the boxes.
ghost use Rattle.std.specs.Prelude.{◌≡◌, false, OnErr, OnOk, IfOk};
ghost use Rattle.mc_dialogs.specs.InputKeys.{input_after, input_shut};
ghost use Rattle.mc_dialogs.specs.ListKeys.{list_shut};
ghost use Rattle.panel_boxes.specs.Replies.{box_after, is_key as does_spell, line_reply};
ghost use Rattle.panel_boxes.specs.Replies.{list_kept, option_reply as option_reply_of};
ghost use Rattle.panel_boxes.specs.Replies.{options_reply, pending_reply as pending_by, reply_to};
ghost use Rattle.panel_boxes.specs.Replies.{row_reply as row_reply_of, stays, SameWhereClosed};

use crate::opening::{filter_text, typed};
use crate::options::{PanelOption, option_at};
use crate::panel_box::{Asked, PanelBox, PanelReply};
use crate::typed::typed_reply;
use key_screen::{Base, Key};
use mc_dialogs::{InputLine, ListBox, Reply, Shut};
use mc_text::NoMemory;
use panel_pair::{PanelCommand, Panels};
use panel_state::{Arrangement, Panel, PanelFormat};
use std::alloc::Global;
use tagging::PatternKind;

impl PanelBox {
    /// What it comes to by a key over these panels. Unless it stays it is as it was, as it is
    /// where memory is wanting.
    pub fn key(&mut self, alloc: Global, panels: &Panels, key: Key) -> Result<PanelReply, NoMemory>
        ensures reply { IfOk result (λ reply. reply ≡ reply_to panels.now self.old key) }
        ensures state { OnOk result (self.new ≡ box_after self.old key) }
        ensures kept { IfOk result (λ reply. stays reply ≡ false → self.new ≡ self.old) }
        ensures refused { OnErr result (self.new ≡ self.old) }
    {
        if !is_key(key.base) {
            return Ok(PanelReply::Stays);
        }
        match self {
            PanelBox::Pending => Ok(pending_reply(key)),
            PanelBox::Typed(asked, line) => {
                key_in_line(alloc, panels.patterns(), *asked, line, key)
            }
            PanelBox::Options(list) => key_in_options(alloc, panels.current(), list, key),
        }
    }
}

/// Whether bytes spelled a key.
fn is_key(base: Base) -> bool
    ensures { result ≡ does_spell base }
{
    match base {
        Base::Unknown => false,
        _ => true,
    }
}

/// The key behind C-x.
fn pending_reply(key: Key) -> PanelReply
    ensures { result ≡ pending_by key }
{
    if key.meta {
        return PanelReply::Shuts;
    }
    match key.base {
        Base::Char('c') => PanelReply::AsksMode,
        Base::Char('d') => PanelReply::Does(PanelCommand::Compare),
        Base::Char('j') => PanelReply::ListsJobs,
        Base::Char('s') => PanelReply::AsksLink,
        _ => PanelReply::Shuts,
    }
}

/// A key in an input line.
fn key_in_line(
    alloc: Global,
    kind: PatternKind,
    asked: Asked,
    line: &mut InputLine,
    key: Key,
) -> Result<PanelReply, NoMemory>
    ensures reply { IfOk result (λ reply. reply ≡ line_reply kind asked (input_shut line.old key)) }
    ensures state { OnOk result (line.new ≡ input_after line.old key) }
    ensures kept { IfOk result (λ reply. stays reply ≡ false → line.new ≡ line.old) }
    ensures refused { OnErr result (line.new ≡ line.old) }
{
    match type_in(alloc, line, key)? {
        Shut::Stay => Ok(PanelReply::Stays),
        Shut::Closed(Reply::Line { text, .. }) => typed_reply(alloc, kind, asked, &text),
        Shut::Closed(_) => Ok(PanelReply::Shuts),
    }
}

/// Types a key into a line, which stays as it was where that closes it.
#[tactic(auto, using(crate::proofs::ClosedLines::closed_stays))]
fn type_in(alloc: Global, line: &mut InputLine, key: Key) -> Result<Shut, NoMemory>
    ensures shut { IfOk result (λ shut. shut ≡ input_shut line.old key) }
    ensures state { OnOk result (line.new ≡ input_after line.old key) }
    ensures kept { IfOk result (λ shut. SameWhereClosed shut line.old line.new) }
    ensures refused { OnErr result (line.new ≡ line.old) }
{
    let shut = line.key(alloc, key)?;
    Ok(shut)
}

/// A key in the list of options.
fn key_in_options(
    alloc: Global,
    panel: &Panel,
    list: &mut ListBox,
    key: Key,
) -> Result<PanelReply, NoMemory>
    ensures reply { IfOk result (λ reply. reply ≡ options_reply panel.now (list_shut list.old key)) }
    ensures state { OnOk result (list.new ≡ list_kept (list_shut list.old key) key list.old) }
    ensures kept { IfOk result (λ reply. stays reply ≡ false → list.new ≡ list.old) }
    ensures refused { OnErr result (list.new ≡ list.old) }
{
    match list.answer_to(key) {
        Shut::Stay => {
            let _shut = list.key(key)?;
            Ok(PanelReply::Stays)
        }
        Shut::Closed(Reply::Chosen(row)) => row_reply(alloc, panel, option_at(row)),
        Shut::Closed(_) => Ok(PanelReply::Shuts),
    }
}

/// What a row of the list comes to, if there is an option in it.
fn row_reply(
    alloc: Global,
    panel: &Panel,
    option: Option<PanelOption>,
) -> Result<PanelReply, NoMemory>
    ensures { IfOk result (λ reply. reply ≡ row_reply_of panel.now option) }
{
    match option {
        None => Ok(PanelReply::Shuts),
        Some(option) => option_reply(alloc, panel, option),
    }
}

/// What an option comes to.
fn option_reply(alloc: Global, panel: &Panel, option: PanelOption) -> Result<PanelReply, NoMemory>
    ensures { IfOk result (λ reply. reply ≡ option_reply_of panel.now option) }
{
    match option {
        PanelOption::ListFull => {
            let format = PanelFormat::full(alloc)?;
            Ok(PanelReply::Does(PanelCommand::ShowColumns(format)))
        }
        PanelOption::ListBrief => Ok(PanelReply::Does(PanelCommand::ShowBrief)),
        PanelOption::ListUser => {
            let line = typed(alloc, Asked::Format, panel.format().text())?;
            Ok(PanelReply::Opens(line))
        }
        PanelOption::SortBy(order) => Ok(arranges(Arrangement::Sorted(order))),
        PanelOption::Reverse => {
            let reverse = !panel.wish().reverse;
            Ok(arranges(Arrangement::Reversed(reverse)))
        }
        PanelOption::Filter => {
            let line = typed(alloc, Asked::Filter, filter_text(panel.wish()))?;
            Ok(PanelReply::Opens(line))
        }
        PanelOption::ShellPatterns => Ok(PanelReply::Does(PanelCommand::SwitchPatterns)),
    }
}

/// That the current panel is to show its items so.
fn arranges(arrangement: Arrangement) -> PanelReply
    ensures { result ≡ PanelReply.Does (PanelCommand.Arrange arrangement) }
{
    PanelReply::Does(PanelCommand::Arrange(arrangement))
}
