//! A compiled regular expression over names.
ghost use Rattle.std.specs.Prelude.{◌≡◌, ◌⊎◌, ℕ, List, true, None, is_some, filter, IfOk, IfErr};
ghost use Rattle.regex.specs.Strings.{matcher_pattern};
ghost use Rattle.tagging.specs.Regexes.{meaning_of, found_in, IsMeantBy};

use crate::error::PatternError;
use crate::keep::keep_if;
use mc_text::{Names, NoMemory};
use regex::{Matcher, Regex, RegexBuilder};
use std::alloc::Global;
use std::marker::Model;

/// The most bytes that the tables of a compiled regular expression take.
const SIZE_LIMIT: usize = 256 << 20;

/// A compiled regular expression. Contracts see it as its text.
#[derive(Drop)]
pub struct NameRegex {
    regex: Regex,
}

impl Model for NameRegex {
    ghost use Rattle.std.specs.Prelude.{◌≡◌, List, ℕ};
    ghost use Rattle.regex.specs.Patterns.{default_config};
    ghost use Rattle.regex.specs.Strings.{regex_source, regex_config, IsReadFromSource};

    ghost Value = { List ℕ };

    ghost view = { λ p. regex_source p.regex };

    ghost invariant = { λ p. IsReadFromSource p.regex × (regex_config p.regex ≡ default_config) };
}

impl NameRegex {
    /// Compiles a regular expression. `BadPattern` says that the text is none; tables past the size limit
    /// count as want of memory.
    pub fn new(alloc: Global, text: &str) -> Result<NameRegex, PatternError>
        ensures ok { IfOk result (λ p. p ≡ text.now) }
        ensures is_pattern { IfOk result (λ _. is_some (meaning_of text.now) ≡ true) }
        ensures bad { result ≡ Err PatternError.BadPattern → meaning_of text.now ≡ None }
        ensures kinds { IfErr result (λ e. (e ≡ PatternError.Memory) ⊎ (e ≡ PatternError.BadPattern)) }
    {
        match RegexBuilder::new(text).size_limit(SIZE_LIMIT).build(alloc) {
            Ok(regex) => Ok(NameRegex { regex }),
            Err(regex::Error::Syntax(_)) => Err(PatternError::BadPattern),
            Err(regex::Error::Internal) => unreachable!(),
            Err(_) => Err(PatternError::Memory),
        }
    }

    /// Whether it is found anywhere in the name.
    pub fn matches(&self, alloc: Global, name: &str) -> Result<bool, NoMemory>
        ensures { IfOk result (λ found. found ≡ found_in self.now name.now) }
    {
        let mut matcher = self.regex.matcher(alloc)?;
        Ok(finds(&mut matcher, name))
    }

    /// Those of the names in which it is found, in their order. One matcher serves them all.
    pub fn found_among(&self, alloc: Global, names: &Names) -> Result<Names, NoMemory>
        ensures { IfOk result (λ found. found ≡ filter (found_in self.now) names.now) }
    {
        let mut matcher = self.regex.matcher(alloc)?;
        let mut found = Names::new(alloc);
        for name in names.as_slice() {
            let is_found = finds(&mut matcher, name.text());
            keep_if(alloc, is_found, &mut found, name)?;
        }
        Ok(found)
    }
}

/// Whether the matcher finds its pattern in the name.
fn finds(matcher: &mut Matcher<'_>, name: &str) -> bool
    ensures found { (text : List ℕ) → IsMeantBy text (matcher_pattern matcher.old)
        → result ≡ found_in text name.now }
    ensures same { matcher_pattern matcher.new ≡ matcher_pattern matcher.old }
{
    matcher.is_match(name)
}
