//! A pattern over names: a shell pattern or a regular expression.
ghost use Rattle.std.specs.Prelude.{◌≡◌, ◌≢◌, true, None, Ok, Err, is_ok};
ghost use Rattle.std.specs.Prelude.{is_some, filter, IfOk, IfErr, chars};
ghost use Rattle.tagging.specs.GlobText.{pattern_of};
ghost use Rattle.tagging.specs.Regexes.{meaning_of, found_in};
ghost use Rattle.tagging.specs.Patterns.{is_pattern_of, is_found};
ghost use Rattle.tagging.specs.Globs.{is_match};

use crate::error::PatternError;
use crate::glob::ShellPattern;
use crate::keep::keep_if;
use crate::regex_name::NameRegex;
use mc_text::{Names, NoMemory};
use std::alloc::Global;
use std::marker::Model;

/// How a pattern's text is read.
#[derive(Clone, Copy, Debug, Drop, PartialEq, Eq)]
pub enum PatternKind {
    Shell,
    Regex,
}

/// A pattern over names. It keeps its text, which was read once as a test, so threads may share it.
/// Contracts see its kind and its text.
#[derive(Debug, Drop)]
pub struct Pattern {
    kind: PatternKind,
    text: String,
}

impl Model for Pattern {
    ghost use Rattle.std.specs.Prelude.{◌≡◌, true, string_bytes};
    ghost use Rattle.tagging.specs.Patterns.{PatternText, is_pattern};

    ghost Value = { PatternText };

    ghost view = { λ p. record { kind = p.kind; text = string_bytes p.text } };

    ghost invariant = { λ p. is_pattern (record { kind = p.kind; text = string_bytes p.text }) ≡ true };
}

impl Pattern {
    /// A shell pattern.
    pub fn shell(alloc: Global, text: &str) -> Result<Pattern, PatternError>
        ensures ok { IfOk result (λ p. p ≡ record { kind = PatternKind.Shell; text = text.now }) }
        ensures is_pattern { IfOk result (λ _. is_pattern_of PatternKind.Shell text.now ≡ true) }
        ensures refused { IfErr result (λ e. e ≢ PatternError.Memory → pattern_of text.now ≡ Err e) }
    {
        ShellPattern::parse(alloc, text)?;
        Ok(Pattern {
            kind: PatternKind::Shell,
            text: String::from_str(alloc, text)?,
        })
    }

    /// A regular expression. It matches where it is found anywhere in a name.
    pub fn regex(alloc: Global, text: &str) -> Result<Pattern, PatternError>
        ensures ok { IfOk result (λ p. p ≡ record { kind = PatternKind.Regex; text = text.now }) }
        ensures is_pattern { IfOk result (λ _. is_pattern_of PatternKind.Regex text.now ≡ true) }
        ensures refused { IfErr result
            (λ e. e ≢ PatternError.Memory → (e ≡ PatternError.BadPattern) × (meaning_of text.now ≡ None)) }
    {
        NameRegex::new(alloc, text)?;
        Ok(Pattern {
            kind: PatternKind::Regex,
            text: String::from_str(alloc, text)?,
        })
    }

    /// The text, as it was typed.
    pub fn text(&self) -> &str
        ensures { result.now ≡ self.now.text }
    {
        self.text.as_str()
    }

    /// Whether the pattern finds the name. It reads the pattern anew: for a list of names take `found_among`.
    pub fn matches(&self, alloc: Global, name: &str) -> Result<bool, NoMemory>
        ensures { IfOk result (λ found. found ≡ is_found self.now name.now) }
    {
        match self.kind {
            PatternKind::Shell => Ok(shell_of(alloc, self.text.as_str())?.matches(name)),
            PatternKind::Regex => regex_of(alloc, self.text.as_str())?.matches(alloc, name),
        }
    }

    /// Those of the names that the pattern finds, in their order. The pattern is read once for them all.
    pub fn found_among(&self, alloc: Global, names: &Names) -> Result<Names, NoMemory>
        ensures { IfOk result (λ found. found ≡ filter (is_found self.now) names.now) }
    {
        match self.kind {
            PatternKind::Shell => shell_of(alloc, self.text.as_str())?.found_among(alloc, names),
            PatternKind::Regex => regex_of(alloc, self.text.as_str())?.found_among(alloc, names),
        }
    }
}

impl ShellPattern {
    /// Those of the names that the pattern matches, in their order.
    pub fn found_among(&self, alloc: Global, names: &Names) -> Result<Names, NoMemory>
        ensures { IfOk result (λ found. found ≡ filter (λ name. is_match self.now (chars name)) names.now) }
    {
        let mut found = Names::new(alloc);
        for name in names.as_slice() {
            keep_if(alloc, self.matches(name.text()), &mut found, name)?;
        }
        Ok(found)
    }
}

/// The shell pattern of a text that was read before. Only want of memory refuses it.
fn shell_of(alloc: Global, text: &str) -> Result<ShellPattern, NoMemory>
    requires { is_ok (pattern_of text.now) ≡ true }
    ensures { IfOk result (λ pattern. pattern_of text.now ≡ Ok pattern) }
{
    match ShellPattern::parse(alloc, text) {
        Ok(pattern) => Ok(pattern),
        Err(PatternError::Memory) => Err(NoMemory),
        Err(_) => unreachable!(),
    }
}

/// The regular expression of a text that was read before. Only want of memory refuses it.
fn regex_of(alloc: Global, text: &str) -> Result<NameRegex, NoMemory>
    requires { is_some (meaning_of text.now) ≡ true }
    ensures { IfOk result (λ regex. regex ≡ text.now) }
{
    match NameRegex::new(alloc, text) {
        Ok(regex) => Ok(regex),
        Err(PatternError::Memory) => Err(NoMemory),
        Err(_) => unreachable!(),
    }
}
