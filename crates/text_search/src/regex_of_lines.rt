//! A compiled regular expression over lines.
ghost use Rattle.std.specs.Prelude.{◌≡◌, ◌≢◌, true, false, IfOk, Err};
ghost use Rattle.regex.specs.declared.error.Error.TheVariants.{Internal};
ghost use Rattle.text_search.specs.Lines.{is_pattern};
ghost use Rattle.text_search.specs.Refusals.{error_of};

use crate::error::RegexError;
use crate::matcher::LineMatcher;
use regex::RegexBuilder;
use regex::bytes::Regex;
use std::alloc::{AllocError, Global};
use std::marker::Model;

/// The most bytes that the tables of a compiled regular expression take.
const SIZE_LIMIT: usize = 256 << 20;

/// A compiled regular expression, in its form for bytes. Contracts see it as its text.
#[derive(Drop)]
pub struct LineRegex {
    regex: Regex,
}

impl Model for LineRegex {
    ghost use Rattle.std.specs.Prelude.{◌≡◌, List, ℕ};
    ghost use Rattle.regex.specs.Bytes.{regex_source, regex_config, IsReadFromSource};
    ghost use Rattle.text_search.specs.Lines.{bytes_config};

    ghost Value = { List ℕ };

    ghost view = { λ p. regex_source p.regex };

    ghost invariant = { λ p. IsReadFromSource p.regex × (regex_config p.regex ≡ bytes_config) };
}

impl LineRegex {
    /// Compiles a regular expression. `BadPattern` says that the text is none, `TooBig` that it is one
    /// whose tables would pass the size limit.
    pub fn new(alloc: Global, text: &str) -> Result<LineRegex, RegexError>
        ensures ok { IfOk result (λ regex. regex ≡ text.now) }
        ensures is_pattern { IfOk result (λ _. is_pattern text.now ≡ true) }
        ensures bad { result ≡ Err RegexError.BadPattern → is_pattern text.now ≡ false }
        ensures too_big { result ≡ Err RegexError.TooBig → is_pattern text.now ≡ true }
    {
        match RegexBuilder::new(text)
            .size_limit(SIZE_LIMIT)
            .build_bytes(alloc)
        {
            Ok(regex) => Ok(LineRegex { regex }),
            Err(error) => Err(error_of(error)),
        }
    }

    /// What searches for it.
    pub fn matcher(&self, alloc: Global) -> Result<LineMatcher<'_>, AllocError>
        ensures { IfOk result (λ matcher. matcher ≡ self.now) }
    {
        let matcher = self.regex.matcher(alloc)?;
        Ok(LineMatcher::new(self.regex.as_str(), matcher))
    }
}

/// What an error of `regex` says. A failed internal check is none: with so small
/// tables there is no such error.
fn error_of(error: regex::Error) -> RegexError
    requires { error ≢ Internal }
    ensures { result ≡ error_of error }
{
    match error {
        regex::Error::Syntax(_) => RegexError::BadPattern,
        regex::Error::CompiledTooBig => RegexError::TooBig,
        regex::Error::Internal => unreachable!(),
        regex::Error::OutOfMemory => RegexError::Memory,
    }
}
