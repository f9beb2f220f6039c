//! What the wildcards of a pattern take of a name.
ghost use Rattle.std.specs.Prelude.{◌≡◌, ◌≢◌, List, ◌∷◌, ◌++◌, [], chars, None};
ghost use Rattle.std.specs.Prelude.{IfOk, IfSome, OnOk, MatchOption, if◌then◌else◌};
ghost use Rattle.tagging.specs.Globs.{is_wild, cut_of, captures_of, AreCaptures};
ghost use Rattle.tagging.specs.declared.glob.GlobPart.{GlobPart};
ghost use Rattle.tagging.specs.declared.glob.GlobPart.TheVariants.{AnyText};
ghost use Rattle.tagging.specs.Fronts.{IsPrefixTaken, LeavesCut, LosesLast};

use crate::first_char::first_char;
use crate::glob::{GlobPart, ShellPattern};
use crate::walk::matches_parts;
use mc_text::{NoMemory, Text, Texts};
use std::alloc::Global;

impl ShellPattern {
    /// The texts that `*`, `?` and the brackets took, in their order, where the pattern matches the name.
    /// Where several cuts fit, the first takes the longest text, then the second, and so on. Where it
    /// doesn't match, the time is that of `matches`; where it does, at worst that squared: each `*` tries
    /// each length, the longest first.
    pub fn captures(&self, alloc: Global, name: &str) -> Result<Option<Texts>, NoMemory>
        ensures longest { IfOk result (λ found. IfSome found (AreCaptures self.now (chars name.now))) }
        ensures value { IfOk result (λ found. found ≡ captures_of self.now (chars name.now)) }
    {
        // Else a `*` would try each length before the miss is known.
        if !self.matches(name) {
            return Ok(None);
        }
        let mut captured = Texts::new(alloc);
        let mut parts = self.parts();
        let mut rest = name;
        while let Some((part, behind)) = parts.split_first() {
            let Some((front, more)) = front_of(part, behind, rest) else {
                return Ok(None);
            };
            capture(alloc, &mut captured, part, front)?;
            parts = behind;
            rest = more;
        }
        match first_char(rest) {
            None => Ok(Some(captured)),
            Some(_) => Ok(None),
        }
    }
}

/// Keeps what a wildcard took.
fn capture(alloc: Global, captured: &mut Texts, part: &GlobPart, text: &str) -> Result<(), NoMemory>
    ensures { OnOk result (captured.new ≡ captured.old ++ (if is_wild part.now then text.now ∷ [] else [])) }
{
    if part.is_wild() {
        captured.push(Text::from_str(alloc, text)?)?;
    }
    Ok(())
}

/// The text that the part takes at the front, as long as may be, and the text behind it,
/// which the parts behind match.
fn front_of<'a>(part: &GlobPart, behind: &[GlobPart], text: &'a str) -> Option<(&'a str, &'a str)>
    ensures { MatchOption result (cut_of (part.now ∷ behind.now) (chars text.now) ≡ None)
        (λ (front, more). IsPrefixTaken part.now behind.now text.now front.now more.now) }
{
    let more = behind_part(part, behind, text)?;
    let (front, _) = text.split_at(text.len() - more.len());
    Some((front, more))
}

/// The text behind what the part takes at the front.
fn behind_part<'a>(part: &GlobPart, behind: &[GlobPart], text: &'a str) -> Option<&'a str>
    ensures { MatchOption result (cut_of (part.now ∷ behind.now) (chars text.now) ≡ None)
        (λ more. LeavesCut part.now behind.now text.now more.now) }
{
    match part {
        GlobPart::AnyText => shortest_end(behind, text),
        one => behind_one(one, text),
    }
}

/// The shortest end of the text that the parts match: what a `*` leaves that takes as much as it can.
fn shortest_end<'a>(parts: &[GlobPart], text: &'a str) -> Option<&'a str>
    ensures { MatchOption result (cut_of (AnyText ∷ parts.now) (chars text.now) ≡ None)
        (λ end. LeavesCut AnyText parts.now text.now end.now) }
{
    let mut front = text;
    loop {
        let (_, end) = text.split_at(front.len());
        if matches_parts(parts, end) {
            return Some(end);
        }
        let Some(shorter) = without_last(front) else {
            return None;
        };
        front = shorter;
    }
}

/// The text behind the one character that the part takes.
fn behind_one<'a>(part: &GlobPart, text: &'a str) -> Option<&'a str>
    requires { part.now ≢ AnyText }
    ensures { MatchOption result
        ((behind : List GlobPart) → cut_of (part.now ∷ behind) (chars text.now) ≡ None)
        (λ more. (behind : List GlobPart) → LeavesCut part.now behind text.now more.now) }
{
    let (character, more) = first_char(text)?;
    if part.stands_for(character) {
        Some(more)
    } else {
        None
    }
}

/// The text without its last character.
fn without_last(text: &str) -> Option<&str>
    ensures { MatchOption result (text.now ≡ []) (λ front. LosesLast text.now front.now) }
{
    let mut characters = text.chars();
    match characters.next_back() {
        Some(_) => Some(characters.as_str()),
        None => None,
    }
}
