//! The search of a part of a file, line by line.
ghost use Rattle.std.specs.Prelude.{◌≡◌, ◌≤◌, ℕ, List, length, take, false, IfSome, MatchOption};
ghost use Rattle.regex.specs.Bytes.{matcher_pattern};
ghost use Rattle.text_search.specs.Lines.{line_place, first_line, IsMeantBy};
ghost use Rattle.text_search.specs.Parts.{Answers, IsWithin, IsLine};

use crate::sought::Part;
use memchr::memchr;
use regex::bytes::Matcher;
use std::marker::Model;

/// The bytes of a part of a file that is searched: of a line that is too long one more than it may have.
pub const PART_BYTES: usize = 1_048_577;

/// What searches for a regular expression. Contracts see the text of that.
#[derive(Drop)]
pub struct LineMatcher<'r> {
    text: &'r str,
    matcher: Matcher<'r>,
}

impl<'r> Model for LineMatcher<'r> {
    ghost use Rattle.std.specs.Prelude.{List, ℕ};
    ghost use Rattle.regex.specs.Bytes.{matcher_pattern};
    ghost use Rattle.text_search.specs.Lines.{IsMeantBy};

    ghost Value = { List ℕ };

    ghost view = { λ m. m.text.now };

    ghost invariant = { λ m. IsMeantBy m.text.now (matcher_pattern m.matcher) };
}

impl<'r> LineMatcher<'r> {
    /// A search by a matcher of what the text means.
    pub fn new(text: &'r str, matcher: Matcher<'r>) -> LineMatcher<'r>
        requires { IsMeantBy text.now (matcher_pattern matcher) }
        ensures { result ≡ text.now }
    {
        LineMatcher { text, matcher }
    }

    /// Searches a part of a file, that begins where a line begins. It ends with the file where it
    /// has fewer bytes than a part may have. A line is searched where its newline is there too, or
    /// the file ends behind it.
    pub fn search(&mut self, part: &[u8]) -> Part
        requires some { 1 ≤ length part.now }
        requires short { length part.now ≤ 1048577 }
        ensures answer { (at : ℕ) (rest : List ℕ) → part.now ≡ take 1048577 rest
            → Answers self.old at rest result }
        ensures within { IsWithin part.now result }
        ensures same { self.new ≡ self.old }
    {
        let is_last = part.len() < PART_BYTES;
        let mut start = 0;
        while start < part.len() {
            let rest = part.split_at(start).1;
            let Some(count) = line_bytes(rest, is_last) else {
                if start == 0 {
                    return Part::TooLong;
                }
                return Part::Passed(start);
            };
            if let Some(place) = self.place_in(rest.split_at(count).0) {
                return Part::Found(start + place);
            }
            start += count + 1;
        }
        Part::Passed(start)
    }

    /// Where what is found in a line begins.
    fn place_in(&mut self, line: &[u8]) -> Option<usize>
        ensures place { result ≡ line_place self.old line.now }
        ensures within { IfSome result (λ place. place ≤ length line.now) }
        ensures same { self.new ≡ self.old }
    {
        match self.matcher.find(line) {
            Some(found) => Some(found.start()),
            None => None,
        }
    }
}

/// How many bytes the first line has, where it ends within a part: at a newline, or at the end of the file.
fn line_bytes(part: &[u8], is_last: bool) -> Option<usize>
    ensures { MatchOption result ((is_last ≡ false) × (first_line part.now ≡ part.now))
        (IsLine part.now is_last) }
{
    match memchr(b'\n', part) {
        Some(newline) => Some(newline),
        None if is_last => Some(part.len()),
        None => None,
    }
}
