//! One term of a condition: signs, a letter, an argument.
ghost use Rattle.std.specs.Prelude.{◌≡◌, ◌<◌, length, IfSome, IfOk, MatchOption};
ghost use Rattle.user_menu.specs.Conditions.{turned_sense, opposite, sense_of};
ghost use Rattle.user_menu.specs.Conditions.{behind_signs, letter_of, test_of, first_term};
ghost use Rattle.user_menu.specs.TermViews.{letter_view, term_view};

use crate::condition::{Panel, Sense, Term, Test};
use crate::words::first_word;
use mc_text::{NoMemory, Text};
use std::alloc::Global;
use tagging::{PatternKind, pattern_in};
use text_scan::{behind_indent, behind_word};

/// What the letter of a term asks.
#[derive(Clone, Copy, Drop)]
pub enum Letter {
    Name(Panel),
    Folder(Panel),
    Types(Panel),
    Program,
    Never,
}

/// Reads the term with which a text begins. Its patterns are of this kind. Gives the text behind it too, or
/// nothing where no term stands there.
pub fn read_term(
    alloc: Global,
    kind: PatternKind,
    text: &str,
) -> Result<Option<(Term, &str)>, NoMemory>
    ensures { IfOk result (λ read. term_view read ≡ first_term kind text.now) }
{
    let (sense, words) = read_signs(text);
    let Some((letter, behind)) = read_letter(words) else {
        return Ok(None);
    };
    let Some((argument, rest)) = first_word(behind) else {
        return Ok(None);
    };
    match read_test(alloc, kind, letter, argument)? {
        Some(test) => Ok(Some((Term { sense, test }, rest))),
        None => Ok(None),
    }
}

/// The sense that the signs before a letter give, and the text behind them and the blanks among them.
fn read_signs(text: &str) -> (Sense, &str)
    ensures sense { result.0 ≡ sense_of text.now }
    ensures behind { result.1.now ≡ behind_signs text.now }
{
    let mut sense = Sense::Plain;
    let mut rest = text;
    while let Some((turn, behind)) = read_sign(rest) {
        sense = turned(sense, turn);
        rest = behind;
    }
    (sense, rest)
}

/// What the sign or blank with which a text begins makes of the sense, and the text behind it.
fn read_sign(text: &str) -> Option<(Sense, &str)>
    ensures sense { MatchOption result (sense_of text.now ≡ Sense.Plain)
        (λ (turn, rest). sense_of text.now ≡ turned_sense turn (sense_of rest.now)) }
    ensures behind { MatchOption result (behind_signs text.now ≡ text.now)
        (λ (turn, rest). behind_signs text.now ≡ behind_signs rest.now) }
    ensures shorter { IfSome result (λ (turn, rest). length rest.now < length text.now) }
{
    if let Some(rest) = behind_word(text, "!") {
        return Some((Sense::Turned, rest));
    }
    match behind_indent(text) {
        Some(rest) => Some((Sense::Plain, rest)),
        None => None,
    }
}

/// A sense in which another one stands.
fn turned(outer: Sense, inner: Sense) -> Sense
    ensures { result ≡ turned_sense outer inner }
{
    match outer {
        Sense::Plain => inner,
        Sense::Turned => opposite(inner),
    }
}

/// The other sense.
fn opposite(sense: Sense) -> Sense
    ensures { result ≡ opposite sense }
{
    match sense {
        Sense::Plain => Sense::Turned,
        Sense::Turned => Sense::Plain,
    }
}

/// What the letter with which a text begins asks, and the text behind it.
fn read_letter(text: &str) -> Option<(Letter, &str)>
    ensures { letter_view result ≡ letter_of text.now }
{
    if let Some(rest) = behind_word(text, "f") {
        return Some((Letter::Name(Panel::Here), rest));
    }
    if let Some(rest) = behind_word(text, "F") {
        return Some((Letter::Name(Panel::There), rest));
    }
    if let Some(rest) = behind_word(text, "d") {
        return Some((Letter::Folder(Panel::Here), rest));
    }
    if let Some(rest) = behind_word(text, "D") {
        return Some((Letter::Folder(Panel::There), rest));
    }
    if let Some(rest) = behind_word(text, "t") {
        return Some((Letter::Types(Panel::Here), rest));
    }
    if let Some(rest) = behind_word(text, "T") {
        return Some((Letter::Types(Panel::There), rest));
    }
    if let Some(rest) = behind_word(text, "x") {
        return Some((Letter::Program, rest));
    }
    match behind_word(text, "y") {
        Some(rest) => Some((Letter::Never, rest)),
        None => None,
    }
}

/// The test of a letter with its argument, or nothing where that has to be a pattern
/// of this kind and is none.
fn read_test(
    alloc: Global,
    kind: PatternKind,
    letter: Letter,
    argument: &str,
) -> Result<Option<Test>, NoMemory>
    ensures { IfOk result (λ test. test ≡ test_of kind letter argument.now) }
{
    match letter {
        Letter::Name(panel) => match pattern_in(alloc, kind, argument)? {
            Some(pattern) => Ok(Some(Test::Name(panel, pattern))),
            None => Ok(None),
        },
        Letter::Folder(panel) => match pattern_in(alloc, kind, argument)? {
            Some(pattern) => Ok(Some(Test::Folder(panel, pattern))),
            None => Ok(None),
        },
        Letter::Types(panel) => Ok(Some(Test::Types(panel, Text::from_str(alloc, argument)?))),
        Letter::Program => Ok(Some(Test::Program(Text::from_str(alloc, argument)?))),
        Letter::Never => Ok(Some(Test::Never)),
    }
}
