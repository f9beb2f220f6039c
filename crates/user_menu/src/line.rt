//! One line of a menu.
ghost use Rattle.std.specs.Prelude.{◌≡◌, IfOk, option_map};
ghost use Rattle.user_menu.specs.MenuLines.{condition_line, asked_line, word_line, reading_of};

use crate::condition::Condition;
use crate::reading::read_condition;
use mc_text::{NoMemory, Text};
use std::alloc::Global;
use tagging::PatternKind;
use text_scan::{behind_indent, behind_word, unindented};

/// What a condition is for: whether an entry is shown, whether it is the default, or both.
#[derive(Clone, Copy, Drop)]
pub enum Purpose {
    Shown,
    Default,
    Both,
}

/// A condition, and what it is for.
#[derive(Drop)]
pub struct Asked {
    pub purpose: Purpose,
    pub condition: Condition,
}

/// What a line says: nothing, a command, a condition, the kind of the patterns from there on, a title, or
/// what has to be a condition and is none.
#[derive(Drop)]
pub enum LineRead {
    Passed,
    Command(Text),
    Asked(Asked),
    Patterns(PatternKind),
    Title(Text),
    BadCondition,
}

/// Reads a line, where patterns are of this kind.
pub fn read_line(alloc: Global, kind: PatternKind, line: &str) -> Result<LineRead, NoMemory>
    ensures { IfOk result (λ read. read ≡ reading_of kind line.now) }
{
    if line.is_empty() {
        return Ok(LineRead::Passed);
    }
    if behind_word(line, "#").is_some() {
        return Ok(LineRead::Passed);
    }
    match behind_indent(line) {
        Some(words) => Ok(LineRead::Command(Text::from_str(alloc, unindented(words))?)),
        None => read_words(alloc, kind, line),
    }
}

/// Reads a line that is neither passed over nor a command, by the mark or word with which it begins.
fn read_words(alloc: Global, kind: PatternKind, line: &str) -> Result<LineRead, NoMemory>
    ensures { IfOk result (λ read. read ≡ word_line kind line.now) }
{
    if let Some(text) = behind_word(line, "+=") {
        return read_asked(alloc, kind, Purpose::Both, text);
    }
    if let Some(text) = behind_word(line, "=+") {
        return read_asked(alloc, kind, Purpose::Both, text);
    }
    if let Some(text) = behind_word(line, "+") {
        return read_asked(alloc, kind, Purpose::Shown, text);
    }
    if let Some(text) = behind_word(line, "=") {
        return read_asked(alloc, kind, Purpose::Default, text);
    }
    if line == "shell_patterns=0" {
        return Ok(LineRead::Patterns(PatternKind::Regex));
    }
    if line == "shell_patterns=1" {
        return Ok(LineRead::Patterns(PatternKind::Shell));
    }
    Ok(LineRead::Title(Text::from_str(alloc, line)?))
}

/// Reads the condition behind its marks; a question mark there is skipped.
fn read_asked(
    alloc: Global,
    kind: PatternKind,
    purpose: Purpose,
    text: &str,
) -> Result<LineRead, NoMemory>
    ensures { IfOk result (λ read. read ≡ asked_line kind purpose text.now) }
{
    match behind_word(text, "?") {
        Some(text) => read_behind_marks(alloc, kind, purpose, text),
        None => read_behind_marks(alloc, kind, purpose, text),
    }
}

/// Reads the condition behind all marks.
fn read_behind_marks(
    alloc: Global,
    kind: PatternKind,
    purpose: Purpose,
    text: &str,
) -> Result<LineRead, NoMemory>
    ensures { IfOk result (λ read. read ≡ condition_line kind purpose text.now) }
{
    match read_condition(alloc, kind, text)? {
        Some(condition) => Ok(LineRead::Asked(Asked { purpose, condition })),
        None => Ok(LineRead::BadCondition),
    }
}
