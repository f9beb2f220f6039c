//! Patterns as they are typed: a text is tried as a pattern of its kind.

ghost use Rattle.std.specs.Prelude.{◌≡◌, IfOk};
ghost use Rattle.tagging.specs.TypedPatterns.{pattern_in};

use crate::error::PatternError;
use crate::pattern::{Pattern, PatternKind};
use mc_text::NoMemory;
use std::alloc::Global;

/// The pattern of a text, or nothing where the text is no pattern of this kind.
pub fn pattern_in(alloc: Global, kind: PatternKind, text: &str) -> Result<Option<Pattern>, NoMemory>
    ensures { IfOk result (λ pattern. pattern ≡ pattern_in kind text.now) }
{
    match kind {
        PatternKind::Shell => shell_in(alloc, text),
        PatternKind::Regex => regex_in(alloc, text),
    }
}

/// The shell pattern of a text, or nothing where the text is none.
fn shell_in(alloc: Global, text: &str) -> Result<Option<Pattern>, NoMemory>
    ensures { IfOk result (λ pattern. pattern ≡ pattern_in PatternKind.Shell text.now) }
{
    match Pattern::shell(alloc, text) {
        Ok(pattern) => Ok(Some(pattern)),
        Err(PatternError::Memory) => Err(NoMemory),
        Err(_) => Ok(None),
    }
}

/// The regular expression of a text, or nothing where the text is none.
fn regex_in(alloc: Global, text: &str) -> Result<Option<Pattern>, NoMemory>
    ensures { IfOk result (λ pattern. pattern ≡ pattern_in PatternKind.Regex text.now) }
{
    match Pattern::regex(alloc, text) {
        Ok(pattern) => Ok(Some(pattern)),
        Err(PatternError::Memory) => Err(NoMemory),
        Err(_) => Ok(None),
    }
}
