//! A menu's file, read.
ghost use Rattle.std.specs.Prelude.{◌≡◌, ◌≢◌, ℕ, ◌+◌, ◌<◌, [], ◌∷◌, ◌++◌, List};
ghost use Rattle.std.specs.Prelude.{Some, None, false, vec_len, IfOk, IfErr, OnOk};
ghost use Rattle.user_menu.specs.declared.line.LineRead.{LineRead};
ghost use Rattle.user_menu.specs.MenuFiles.{IsMenuFile, menu_fault, fault_from};
ghost use Rattle.user_menu.specs.MenuFiles.{kind_first, kind_after, readings, entries_of};
ghost use Rattle.user_menu.specs.Drafts.{has_entry, extended_entries, continued_entries};

use crate::error::MenuError;
use crate::line::{Asked, LineRead, read_line};
use crate::menu::{Entry, Menu};
use mc_text::{NoMemory, Text};
use std::alloc::Global;
use std::{mem, str};
use tagging::PatternKind;
use text_scan::first_line;

/// Reads a menu. Its patterns are shell patterns or regular expressions, until a line of the file says
/// which. The first fault decides: first bytes that are no UTF-8, then the first line that is wrong.
pub fn parse_menu(alloc: Global, bytes: &[u8], shell_patterns: bool) -> Result<Menu, MenuError>
    ensures read { IfOk result (λ menu. IsMenuFile shell_patterns bytes.now menu) }
    ensures refused { IfErr result (λ e.
        e ≢ MenuError.Memory → menu_fault shell_patterns bytes.now ≡ Some e) }
{
    match str::from_utf8(bytes) {
        Ok(text) => parse_text(alloc, text, kind_first(shell_patterns)),
        Err(fault) => Err(MenuError::NotText(fault.valid_up_to())),
    }
}

/// The kind of the patterns at the begin.
fn kind_first(shell_patterns: bool) -> PatternKind
    ensures { result ≡ kind_first shell_patterns }
{
    if shell_patterns {
        PatternKind::Shell
    } else {
        PatternKind::Regex
    }
}

/// A menu as far as its file is read: its entries, and the conditions that wait for the next title.
#[derive(Drop)]
struct Draft {
    entries: Vec<Entry>,
    waiting: Vec<Asked>,
}

/// Reads the text of a file.
fn parse_text(alloc: Global, text: &str, first: PatternKind) -> Result<Menu, MenuError>
    ensures entries { IfOk result (λ menu. menu ≡ entries_of (readings first text.now)) }
    ensures faultless { IfOk result (λ _. fault_from 1 false (readings first text.now) ≡ None) }
    ensures refused { IfErr result (λ e.
        e ≢ MenuError.Memory → fault_from 1 false (readings first text.now) ≡ Some e) }
{
    let mut draft = Draft {
        entries: Vec::new(alloc),
        waiting: Vec::new(alloc),
    };
    let mut kind = first;
    let mut rest = text;
    let mut at = 1;
    while let Some((line, behind)) = first_line(rest) {
        let read = read_line(alloc, kind, line)?;
        kind = kind_after(kind, &read);
        take_line(alloc, &mut draft, read, at)?;
        at += 1;
        rest = behind;
    }
    Ok(Menu::of(draft.entries))
}

/// The kind of the patterns behind a line.
fn kind_after(kind: PatternKind, read: &LineRead) -> PatternKind
    ensures { result ≡ kind_after kind read.now }
{
    match read {
        LineRead::Patterns(next) => *next,
        _ => kind,
    }
}

/// Takes what the line `at` says.
fn take_line(alloc: Global, draft: &mut Draft, read: LineRead, at: usize) -> Result<(), MenuError>
    ensures said { OnOk result ((lines : List LineRead) →
        continued_entries draft.new lines ≡ continued_entries draft.old (read ∷ lines)) }
    ensures goes_on { OnOk result ((lines : List LineRead) →
        fault_from (at + 1) (has_entry draft.new) lines
        ≡ fault_from at (has_entry draft.old) (read ∷ lines)) }
    ensures refused { IfErr result (λ e. e ≢ MenuError.Memory → (lines : List LineRead) →
        fault_from at (has_entry draft.old) (read ∷ lines) ≡ Some e) }
{
    match read {
        LineRead::Passed => Ok(()),
        LineRead::Command(line) => {
            if draft.entries.is_empty() {
                return Err(MenuError::CommandBeforeTitle(at));
            }
            add_line(alloc, &mut draft.entries, line)?;
            Ok(())
        }
        LineRead::Asked(asked) => {
            push_asked(&mut draft.waiting, asked)?;
            Ok(())
        }
        LineRead::Patterns(_) => Ok(()),
        LineRead::Title(title) => {
            begin_entry(alloc, draft, title)?;
            Ok(())
        }
        LineRead::BadCondition => Err(MenuError::BadCondition(at)),
    }
}

/// Puts a condition behind those that wait.
fn push_asked(waiting: &mut Vec<Asked>, asked: Asked) -> Result<(), NoMemory>
    ensures { OnOk result (waiting.new.items ≡ waiting.old.items ++ asked ∷ []) }
{
    waiting.push(asked)?;
    Ok(())
}

/// Begins an entry: the conditions that wait are its own.
fn begin_entry(alloc: Global, draft: &mut Draft, title: Text) -> Result<(), NoMemory>
    ensures begun { OnOk result (draft.new.entries.items ≡ draft.old.entries.items
        ++ record { conditions = draft.old.waiting.items; title = title; commands = None } ∷ []) }
    ensures none_waits { OnOk result (draft.new.waiting.items ≡ []) }
{
    let conditions = mem::replace(&mut draft.waiting, Vec::new(alloc));
    draft.entries.push(Entry::new(conditions, title))?;
    Ok(())
}

/// Puts a command line at the end of the last entry.
fn add_line(alloc: Global, entries: &mut Vec<Entry>, line: Text) -> Result<(), NoMemory>
    requires { 0 < vec_len entries.old }
    ensures extended { OnOk result ((more : List (List ℕ)) →
        extended_entries entries.new.items more ≡ extended_entries entries.old.items (line ∷ more)) }
    ensures same_entries { OnOk result (vec_len entries.new ≡ vec_len entries.old) }
{
    let last = entries.len() - 1;
    entries[last].add_line(alloc, line)
}
