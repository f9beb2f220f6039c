//! Reading a shell pattern.
ghost use Rattle.std.specs.Prelude.{◌≡◌, ◌≢◌, ◌≤◌, [], ◌∷◌, length, chars, false, option_map};
ghost use Rattle.std.specs.Prelude.{Ok, Err, None, IfOk, IfErr, IfSome, MatchOption};
ghost use Rattle.tagging.specs.GlobText.{pattern_of, first_part, bracket_of, marks_of};
ghost use Rattle.tagging.specs.GlobText.{marks_up_to_close, after_marks, spans_after, is_dash};

use crate::bracket::{BracketSet, Span};
use crate::error::PatternError;
use crate::first_char::first_char;
use crate::glob::{GlobPart, ShellPattern};
use std::alloc::Global;

/// A character between brackets. A quoted one means itself.
#[derive(Clone, Copy, Debug, Drop)]
struct Mark {
    character: char,
    quoted: bool,
}

impl Mark {
    /// Whether it is a `-` that makes a range.
    fn is_dash(self) -> bool
        ensures { result ≡ is_dash self }
    {
        self.character == '-' && !self.quoted
    }
}

impl ShellPattern {
    /// Reads a shell pattern. The refusals have the byte at which the fault stands.
    pub fn parse(alloc: Global, text: &str) -> Result<ShellPattern, PatternError>
        ensures read { IfOk result (λ pattern. pattern_of text.now ≡ Ok pattern) }
        ensures refused { IfErr result (λ e. e ≢ PatternError.Memory → pattern_of text.now ≡ Err e) }
    {
        let mut parts = Vec::new(alloc);
        let mut rest = text;
        while let Some((first, behind)) = first_char(rest) {
            let at = text.len() - rest.len();
            let (part, more) = read_part(alloc, at, first, behind)?;
            parts.push(part)?;
            rest = more;
        }
        Ok(ShellPattern::from_parts(parts))
    }
}

/// The part that begins with the character `first` at byte `at`, and the text behind it.
fn read_part(
    alloc: Global,
    at: usize,
    first: char,
    behind: &str,
) -> Result<(GlobPart, &str), PatternError>
    ensures read { IfOk result (λ (part, more).
        first_part at first (chars behind.now) ≡ Ok (part, chars more.now)) }
    ensures refused { IfErr result (λ e. e ≢ PatternError.Memory
        → first_part at first (chars behind.now) ≡ Err e) }
    ensures shrinks { IfOk result (λ (part, more). length more.now ≤ length behind.now) }
{
    match first {
        '*' => Ok((GlobPart::AnyText, behind)),
        '?' => Ok((GlobPart::AnyOne, behind)),
        '\\' => match first_char(behind) {
            Some((quoted, more)) => Ok((GlobPart::Plain(quoted), more)),
            None => Err(PatternError::TrailingBackslash(at)),
        },
        '[' => match read_bracket(alloc, behind)? {
            Some((bracket, more)) => Ok((GlobPart::OneOf(bracket), more)),
            None => Err(PatternError::OpenBracket(at)),
        },
        plain => Ok((GlobPart::Plain(plain), behind)),
    }
}

/// The bracket whose `[` stands before the text, and the text behind its `]`. Nothing where no `]` closes it.
fn read_bracket(alloc: Global, text: &str) -> Result<Option<(BracketSet, &str)>, PatternError>
    ensures read { IfOk result (λ found.
        option_map (λ (bracket, more). (bracket, chars more.now)) found ≡ bracket_of (chars text.now)) }
    ensures refused { IfErr result (λ e. e ≡ PatternError.Memory) }
    ensures shrinks { IfOk result
        (λ found. IfSome found (λ (bracket, more). length more.now ≤ length text.now)) }
{
    let (negated, list) = match first_char(text) {
        Some(('!', list)) => (true, list),
        _ => (false, text),
    };
    match read_marks(alloc, list)? {
        Some((marks, more)) => {
            let spans = spans_of(alloc, marks.as_slice())?;
            Ok(Some((BracketSet::new(negated, spans), more)))
        }
        None => Ok(None),
    }
}

/// The characters of a list up to the `]` that closes it, and the text behind that. A `]`
/// at its front is a member.
fn read_marks(alloc: Global, list: &str) -> Result<Option<(Vec<Mark>, &str)>, PatternError>
    ensures read { IfOk result (λ found.
        option_map (λ (marks, more). (marks.items, chars more.now)) found ≡ marks_of (chars list.now)) }
    ensures refused { IfErr result (λ e. e ≡ PatternError.Memory) }
    ensures shrinks { IfOk result
        (λ found. IfSome found (λ (marks, more). length more.now ≤ length list.now)) }
{
    let mut marks = Vec::new(alloc);
    match first_char(list) {
        Some((']', behind)) => {
            marks.push(Mark {
                character: ']',
                quoted: false,
            })?;
            read_to_close(marks, behind)
        }
        _ => read_to_close(marks, list),
    }
}

/// These marks and those up to the `]` that closes the list, and the text behind that.
fn read_to_close(
    mut marks: Vec<Mark>,
    text: &str,
) -> Result<Option<(Vec<Mark>, &str)>, PatternError>
    ensures read { IfOk result (λ found. option_map (λ (all, more). (all.items, chars more.now)) found
        ≡ after_marks marks.items (marks_up_to_close false (chars text.now))) }
    ensures refused { IfErr result (λ e. e ≡ PatternError.Memory) }
    ensures shrinks { IfOk result (λ found. IfSome found (λ (all, more). length more.now ≤ length text.now)) }
{
    let mut rest = text;
    while let Some((character, behind)) = first_char(rest) {
        if character == ']' {
            return Ok(Some((marks, behind)));
        }
        let Some((mark, more)) = read_mark(character, behind) else {
            return Ok(None);
        };
        marks.push(mark)?;
        rest = more;
    }
    Ok(None)
}

/// The member that begins with the character, and the text behind it.
fn read_mark(character: char, behind: &str) -> Option<(Mark, &str)>
    requires { character ≢ 93 }
    ensures read { MatchOption result (marks_up_to_close false (character ∷ chars behind.now) ≡ None)
        (λ (mark, more). marks_up_to_close false (character ∷ chars behind.now)
        ≡ after_marks (mark ∷ []) (marks_up_to_close false (chars more.now))) }
    ensures shrinks { IfSome result (λ (mark, more). length more.now ≤ length behind.now) }
{
    if character == '\\' {
        let (quoted, more) = first_char(behind)?;
        let mark = Mark {
            character: quoted,
            quoted: true,
        };
        return Some((mark, more));
    }
    let mark = Mark {
        character,
        quoted: false,
    };
    Some((mark, behind))
}

/// The ranges of a list. A `-` between two characters makes a range, unless it is quoted.
fn spans_of(alloc: Global, marks: &[Mark]) -> Result<Vec<Span>, PatternError>
    ensures spans { IfOk result (λ spans. spans.items ≡ spans_after 0 marks.now) }
    ensures refused { IfErr result (λ e. e ≡ PatternError.Memory) }
{
    let mut spans = Vec::new(alloc);
    let mut rest = marks;
    while let Some((first, behind)) = rest.split_first() {
        let (span, more) = first_span(*first, behind);
        spans.push(span)?;
        rest = more;
    }
    Ok(spans)
}

/// The range that begins with a mark, and the marks behind it.
fn first_span(from: Mark, behind: &[Mark]) -> (Span, &[Mark])
    ensures span { spans_after 0 (from ∷ behind.now) ≡ result.0 ∷ spans_after 0 result.1.now }
    ensures shrinks { length result.1.now ≤ length behind.now }
{
    match behind {
        [dash, to, more @ ..] if dash.is_dash() => {
            let span = Span {
                from: from.character,
                to: to.character,
            };
            (span, more)
        }
        _ => {
            let span = Span {
                from: from.character,
                to: from.character,
            };
            (span, behind)
        }
    }
}
