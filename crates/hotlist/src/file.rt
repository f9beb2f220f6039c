//! The file of a hotlist, read.
ghost use Rattle.std.specs.Prelude.{◌≡◌, ◌≢◌, Some, true, IfOk, IfErr, MatchResult, []};
ghost use Rattle.hotlist.specs.HotLists.{HotList, is_within};
ghost use Rattle.hotlist.specs.HotFiles.{IsHotlist, hotlist_fault, fault_from, said_by, lines_that_say};
ghost use Rattle.hotlist.specs.ListViews.{list_in};
ghost use Rattle.text_scan.specs.Lines.{lines_of};

use crate::draft::Draft;
use crate::error::HotError;
use crate::lines::read_line;
use crate::list::Hotlist;
use std::alloc::Global;
use std::str;
use text_scan::first_line;

/// Reads a hotlist's file. The first fault decides: first bytes that are no UTF-8, then the first line that
/// is wrong, and at last the outermost group that has no end.
pub fn parse_hotlist(alloc: Global, bytes: &[u8]) -> Result<Hotlist, HotError>
    ensures read { IfOk result (λ list. IsHotlist bytes.now (list_in list)) }
    ensures only { (list : HotList) → IsHotlist bytes.now list
        → MatchResult result (λ read. list_in read ≡ list) (λ e. e ≡ HotError.Memory) }
    ensures refused { IfErr result (λ e. e ≢ HotError.Memory → hotlist_fault bytes.now ≡ Some e) }
{
    parse_bytes(alloc, bytes)
}

/// Reads the bytes of a file.
fn parse_bytes(alloc: Global, bytes: &[u8]) -> Result<Hotlist, HotError>
    ensures read { IfOk result (λ list. IsHotlist bytes.now (list_in list)) }
    ensures refused { IfErr result (λ e. e ≢ HotError.Memory → hotlist_fault bytes.now ≡ Some e) }
{
    match str::from_utf8(bytes) {
        Ok(text) => parse_text(alloc, text),
        Err(fault) => Err(HotError::NotText(fault.valid_up_to())),
    }
}

/// Reads the text of a file.
fn parse_text(alloc: Global, text: &str) -> Result<Hotlist, HotError>
    ensures said { IfOk result (λ list. said_by (lines_of text.now) ≡ Some (lines_that_say (list_in list))) }
    ensures nested { IfOk result (λ list. is_within 32 (list_in list) ≡ true) }
    ensures refused { IfErr result
        (λ e. e ≢ HotError.Memory → fault_from 1 (lines_of text.now) 32 [] ≡ Some e) }
{
    let mut draft = Draft::new(alloc);
    let mut rest = text;
    let mut at = 1;
    while let Some((line, behind)) = first_line(rest) {
        let read = read_line(alloc, line)?;
        draft.take_line(alloc, read, at)?;
        at += 1;
        rest = behind;
    }
    match draft.groups.first() {
        Some(group) => Err(HotError::UnclosedGroup(group.line)),
        None => Ok(Hotlist { items: draft.items }),
    }
}
