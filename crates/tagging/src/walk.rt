//! Whether the parts of a pattern match a text.
//!
//! The parts up to the next `*` are tried where the text stands. Where they differ, only the last `*`
//! before them takes one character more: an earlier one that took more could bring nothing that the
//! later one can't take itself.
ghost use Rattle.std.specs.Prelude.{◌≡◌, ◌∷◌, chars};
ghost use Rattle.tagging.specs.Globs.{is_match};
ghost use Rattle.tagging.specs.Stretches.{IsStretch, IsShrunk};
ghost use Rattle.tagging.specs.declared.glob.GlobPart.TheVariants.{AnyText};

use crate::first_char::first_char;
use crate::glob::GlobPart;

/// How the parts before the next `*` fare at the front of a text.
enum Stretch<'a> {
    /// There is no `*`, and the parts and the text end together.
    Whole,
    /// A part doesn't stand for its character, or the text goes on past the last part.
    Differs,
    /// The text ends before the parts do.
    Short,
    /// They fit, and a `*` follows: what is behind it, and the text that is left.
    Star(&'a [GlobPart], &'a str),
}

/// Whether the parts match the whole text.
pub fn matches_parts(parts: &[GlobPart], text: &str) -> bool
    ensures { result ≡ is_match parts.now (chars text.now) }
{
    match next_stretch(parts, text) {
        Stretch::Whole => true,
        Stretch::Differs | Stretch::Short => false,
        Stretch::Star(behind, rest) => matches_behind_star(behind, rest),
    }
}

/// Whether a `*` and the parts behind it match the whole text.
fn matches_behind_star<'a>(mut parts: &'a [GlobPart], mut text: &'a str) -> bool
    ensures { result ≡ is_match (AnyText ∷ parts.entry.now) (chars text.entry.now) }
{
    loop {
        match next_stretch(parts, text) {
            Stretch::Whole => return true,
            Stretch::Short => return false,
            Stretch::Star(behind, rest) => {
                parts = behind;
                text = rest;
            }
            Stretch::Differs => {
                let Some((_, rest)) = first_char(text) else {
                    return false;
                };
                text = rest;
            }
        }
    }
}

/// Tries the parts before the next `*` at the front of the text.
fn next_stretch<'a>(mut parts: &'a [GlobPart], mut text: &'a str) -> Stretch<'a>
    ensures fits { IsStretch parts.entry.now (chars text.entry.now) result }
    ensures shrinks { IsShrunk parts.entry.now text.entry.now result }
{
    while let Some((part, behind)) = parts.split_first() {
        if let GlobPart::AnyText = part {
            return Stretch::Star(behind, text);
        }
        let Some((character, rest)) = first_char(text) else {
            return Stretch::Short;
        };
        if !part.stands_for(character) {
            return Stretch::Differs;
        }
        parts = behind;
        text = rest;
    }
    match first_char(text) {
        None => Stretch::Whole,
        Some(_) => Stretch::Differs,
    }
}
