//! What a text comes to that was typed in an input line.
ghost use Rattle.std.specs.Prelude.{◌≡◌, ◌≢◌, IfOk};
ghost use Rattle.tagging.specs.TypedPatterns.{pattern_in};
ghost use Rattle.panel_listing.specs.FormatTexts.{format_of};
ghost use Rattle.panel_boxes.specs.Replies.{by_pattern, fault_reply, filter_command};
ghost use Rattle.panel_boxes.specs.Replies.{filter_reply, format_reply, typed_reply};

use crate::panel_box::{Asked, PanelReply};
use mc_text::{NoMemory, Text};
use panel_listing::FormatError;
use panel_pair::PanelCommand;
use panel_state::{Arrangement, PanelFormat};
use session_entries::TypedError;
use std::alloc::Global;
use std::convert::AsStr;
use tagging::{Pattern, PatternKind, pattern_in};

/// What a text comes to that a line asked for, while patterns are of this kind.
pub fn typed_reply(
    alloc: Global,
    kind: PatternKind,
    asked: Asked,
    text: &Text,
) -> Result<PanelReply, NoMemory>
    ensures { IfOk result (λ reply. reply ≡ typed_reply kind asked text.now) }
{
    match asked {
        Asked::Select => match pattern_in(alloc, kind, text.as_str())? {
            Some(pattern) => Ok(PanelReply::Does(PanelCommand::Select(pattern))),
            None => Ok(PanelReply::Refuses(TypedError::BadPattern)),
        },
        Asked::Unselect => match pattern_in(alloc, kind, text.as_str())? {
            Some(pattern) => Ok(PanelReply::Does(PanelCommand::Unselect(pattern))),
            None => Ok(PanelReply::Refuses(TypedError::BadPattern)),
        },
        Asked::Filter => filter_reply(alloc, kind, text.as_str()),
        Asked::Format => format_reply(alloc, text.as_str()),
    }
}

/// The filter of a text; an empty one takes the filter away.
fn filter_reply(alloc: Global, kind: PatternKind, text: &str) -> Result<PanelReply, NoMemory>
    ensures { IfOk result (λ reply. reply ≡ filter_reply kind text.now) }
{
    match text.as_bytes() {
        [] => Ok(filtered(None)),
        [_, ..] => pattern_filter(alloc, kind, text),
    }
}

/// The filter of a pattern.
fn pattern_filter(alloc: Global, kind: PatternKind, text: &str) -> Result<PanelReply, NoMemory>
    ensures { IfOk result (λ reply. reply ≡ by_pattern filter_command (pattern_in kind text.now)) }
{
    match pattern_in(alloc, kind, text)? {
        Some(pattern) => Ok(filtered(Some(pattern))),
        None => Ok(PanelReply::Refuses(TypedError::BadPattern)),
    }
}

/// That files are to be filtered so.
fn filtered(filter: Option<Pattern>) -> PanelReply
    ensures { result ≡ PanelReply.Does (PanelCommand.Arrange (Arrangement.Filtered filter)) }
{
    PanelReply::Does(PanelCommand::Arrange(Arrangement::Filtered(filter)))
}

/// The format of a text.
fn format_reply(alloc: Global, text: &str) -> Result<PanelReply, NoMemory>
    ensures { IfOk result (λ reply. reply ≡ format_reply text.now (format_of text.now)) }
{
    match PanelFormat::user(alloc, text) {
        Ok(format) => Ok(PanelReply::Does(PanelCommand::ShowColumns(format))),
        Err(error) => fault_reply(error),
    }
}

/// What is said of a format that is at fault, or that there is no memory.
fn fault_reply(error: FormatError) -> Result<PanelReply, NoMemory>
    ensures told { IfOk result (λ reply. reply ≡ fault_reply error) }
    ensures fault { IfOk result (λ _reply. error ≢ FormatError.Memory) }
{
    match error {
        FormatError::NoSize(at) => Ok(PanelReply::Refuses(TypedError::BadFormat(at))),
        FormatError::UnknownField(at) => Ok(PanelReply::Refuses(TypedError::BadFormat(at))),
        FormatError::BadWidth(at) => Ok(PanelReply::Refuses(TypedError::BadFormat(at))),
        FormatError::Memory => Err(NoMemory),
    }
}
