//! One line of an extension file.
ghost use Rattle.std.specs.Prelude.{◌≡◌, IfOk};
ghost use Rattle.tagging.specs.TypedPatterns.{pattern_in};
ghost use Rattle.ext_rules.specs.declared.condition.Condition.TheVariants.{FoundInName};
ghost use Rattle.ext_rules.specs.ExtLines.{reading_of, action_line, rule_line, shell_line};
ghost use Rattle.ext_rules.specs.ExtLines.{shell_condition, regex_line, folder_line, pattern_rule};

use crate::actions::{Action, Key};
use crate::condition::{Case, Condition};
use mc_text::{NoMemory, Text};
use std::alloc::Global;
use tagging::{PatternKind, pattern_in};
use text_scan::{behind_indent, behind_word, unindented};

/// What a line says: nothing, a rule, an action, an action that is ignored, no rule, or a rule whose text
/// is no regular expression.
#[derive(Drop)]
pub enum LineRead {
    Passed,
    Rule(Condition),
    Action(Action),
    Ignored,
    Unknown,
    BadPattern,
}

/// Reads a line.
pub fn read_line(alloc: Global, line: &str) -> Result<LineRead, NoMemory>
    ensures { IfOk result (λ read. read ≡ reading_of line.now) }
{
    if line.is_empty() {
        return Ok(LineRead::Passed);
    }
    if behind_word(line, "#").is_some() {
        return Ok(LineRead::Passed);
    }
    match behind_indent(line) {
        Some(words) => read_action(alloc, unindented(words)),
        None => read_rule(alloc, line),
    }
}

/// Reads an action without its leading blanks and tabs.
fn read_action(alloc: Global, words: &str) -> Result<LineRead, NoMemory>
    ensures { IfOk result (λ read. read ≡ action_line words.now) }
{
    if let Some(command) = behind_word(words, "Open=") {
        return action(alloc, Key::Open, command);
    }
    if let Some(command) = behind_word(words, "View=") {
        return action(alloc, Key::View, command);
    }
    if let Some(command) = behind_word(words, "Edit=") {
        return action(alloc, Key::Edit, command);
    }
    match behind_word(words, "Include=") {
        Some(name) => action(alloc, Key::Include, name),
        None => Ok(LineRead::Ignored),
    }
}

/// An action.
fn action(alloc: Global, key: Key, command: &str) -> Result<LineRead, NoMemory>
    ensures { IfOk result (λ read. read ≡ LineRead.Action (record { key = key; command = command.now })) }
{
    let command = Text::from_str(alloc, command)?;
    Ok(LineRead::Action(Action { key, command }))
}

/// Reads a rule by its first word.
fn read_rule(alloc: Global, line: &str) -> Result<LineRead, NoMemory>
    ensures { IfOk result (λ read. read ≡ rule_line line.now) }
{
    if let Some(text) = behind_word(line, "shell/") {
        return read_shell(alloc, text);
    }
    if let Some(text) = behind_word(line, "regex/") {
        return read_regex(alloc, text);
    }
    if let Some(text) = behind_word(line, "directory/") {
        return read_directory(alloc, text);
    }
    if behind_word(line, "type/").is_some() {
        return Ok(LineRead::Rule(Condition::Nothing));
    }
    if let Some(name) = behind_word(line, "include/") {
        let name = Text::from_str(alloc, name)?;
        return Ok(LineRead::Rule(Condition::Included { name }));
    }
    match behind_word(line, "default/*") {
        Some("") => Ok(LineRead::Rule(Condition::Everything)),
        _ => Ok(LineRead::Unknown),
    }
}

/// A rule on names by their end, where the text begins with a dot, or by the whole name.
fn read_shell(alloc: Global, text: &str) -> Result<LineRead, NoMemory>
    ensures { IfOk result (λ read. read ≡ shell_line text.now) }
{
    match behind_word(text, "i/") {
        Some(text) => shell_rule(alloc, Case::Insensitive, text),
        None => shell_rule(alloc, Case::Sensitive, text),
    }
}

/// A rule on names of files by their end or whole, in one case.
fn shell_rule(alloc: Global, case: Case, text: &str) -> Result<LineRead, NoMemory>
    ensures { IfOk result (λ read. read ≡ LineRead.Rule (shell_condition case text.now)) }
{
    let is_end = behind_word(text, ".").is_some();
    let text = Text::from_str(alloc, text)?;
    if is_end {
        Ok(LineRead::Rule(Condition::EndsWith { case, text }))
    } else {
        Ok(LineRead::Rule(Condition::IsName { case, text }))
    }
}

/// A rule on names by a regular expression.
fn read_regex(alloc: Global, text: &str) -> Result<LineRead, NoMemory>
    ensures { IfOk result (λ read. read ≡ regex_line text.now) }
{
    match behind_word(text, "i/") {
        Some(text) => {
            let text = format!(in alloc; "(?i){text}")?;
            read_pattern(alloc, text.as_str())
        }
        None => read_pattern(alloc, text),
    }
}

/// A rule on names in which a pattern is found.
fn read_pattern(alloc: Global, text: &str) -> Result<LineRead, NoMemory>
    ensures { IfOk result (λ read. read ≡ pattern_rule FoundInName (pattern_in PatternKind.Regex text.now)) }
{
    match pattern_in(alloc, PatternKind::Regex, text)? {
        Some(pattern) => Ok(LineRead::Rule(Condition::FoundInName(pattern))),
        None => Ok(LineRead::BadPattern),
    }
}

/// A rule on folders in whose name a pattern is found.
fn read_directory(alloc: Global, text: &str) -> Result<LineRead, NoMemory>
    ensures { IfOk result (λ read. read ≡ folder_line text.now) }
{
    match pattern_in(alloc, PatternKind::Regex, text)? {
        Some(pattern) => Ok(LineRead::Rule(Condition::FoundInFolder(pattern))),
        None => Ok(LineRead::BadPattern),
    }
}
