//! What a search comes to, over pieces of what is viewed.
ghost use Rattle.std.specs.Prelude.{◌≡◌, ◌≤◌, ◌<◌, ◌^◌, ◌+◌, length, drop, IfOk, IfErr, IfSome, true};
ghost use Rattle.tree_trait.specs.Answers.{IfKnown, HasCause};
ghost use Rattle.memchr.specs.Find.{FindsNeedle};
ghost use Rattle.text_search.specs.Lines.{in_lines, lines_sought};
ghost use Rattle.mc_viewer.specs.Viewing.{IfShorter, IsReadError, AsTheTreeSays, is_output};
ghost use Rattle.mc_viewer.specs.Searches.{sought_place, text_sought};

use crate::error::ViewError;
use crate::reading::piece;
use crate::search::Search;
use crate::subject::Subject;
use memchr::memmem::Finder;
use std::alloc::Global;
use std::convert::AsStr;
use text_search::{LineMatcher, LineRegex, PART_BYTES, Part, RegexError, Sought};
use tree_trait::{ReadTree, TreeError};

/// The places of a piece at which a text is sought. It has as many bytes more as the text, so that
/// it shows each place whole.
const PIECE_PLACES: usize = 65_536;

/// What a search from a place on comes to.
pub fn sought<T: ReadTree>(
    alloc: Global,
    tree: &mut T,
    subject: &Subject,
    size: u64,
    what: &Search,
    from: u64,
) -> Result<Sought, ViewError>
    requires small { size ≤ 2 ^ 63 }
    ensures shown { IfShorter (T.contents tree.old) subject.now size (λ bytes.
        IfOk result (λ found. found ≡ sought_place what.now bytes from)) }
    ensures refused { IfKnown (T.contents tree.old) (λ log. IfErr result (AsTheTreeSays log subject.now)) }
    ensures kinds { IfErr result IsReadError }
    ensures same { T.contents tree.new ≡ T.contents tree.old }
    ensures apart { is_output subject.now ≡ true → tree.new ≡ tree.old }
    ensures cause { HasCause (ViewError.Tree TreeError.Fault) (T.fault_count tree.old)
        (T.fault_count tree.new) result }
{
    match what {
        Search::Plain(text) => text_sought(alloc, tree, subject, size, text.0.as_slice(), from),
        Search::Regex(text) => lines_sought(alloc, tree, subject, size, text.as_str(), from),
    }
}

/// What a search for a text comes to. An empty one is nowhere.
fn text_sought<T: ReadTree>(
    alloc: Global,
    tree: &mut T,
    subject: &Subject,
    size: u64,
    text: &[u8],
    from: u64,
) -> Result<Sought, ViewError>
    requires small { size ≤ 2 ^ 63 }
    ensures shown { IfShorter (T.contents tree.old) subject.now size (λ bytes.
        IfOk result (λ found. found ≡ text_sought text.now from (drop from bytes))) }
    ensures refused { IfKnown (T.contents tree.old) (λ log. IfErr result (AsTheTreeSays log subject.now)) }
    ensures kinds { IfErr result IsReadError }
    ensures same { T.contents tree.new ≡ T.contents tree.old }
    ensures apart { is_output subject.now ≡ true → tree.new ≡ tree.old }
    ensures cause { HasCause (ViewError.Tree TreeError.Fault) (T.fault_count tree.old)
        (T.fault_count tree.new) result }
{
    if text.is_empty() {
        return Ok(Sought::Nowhere);
    }
    through_pieces(
        alloc,
        tree,
        subject,
        size,
        &Finder::new(text),
        text.len(),
        from,
    )
}

/// Reads piece by piece, up to the first place where the finder's bytes stand.
fn through_pieces<T: ReadTree>(
    alloc: Global,
    tree: &mut T,
    subject: &Subject,
    size: u64,
    finder: &Finder<'_>,
    width: usize,
    from: u64,
) -> Result<Sought, ViewError>
    requires small { size ≤ 2 ^ 63 }
    requires width { width ≡ length finder.now }
    requires some { 1 ≤ width }
    requires narrow { width ≤ 2 ^ 63 }
    ensures shown { IfShorter (T.contents tree.old) subject.now size (λ bytes.
        IfOk result (λ found. found ≡ text_sought finder.now from (drop from bytes))) }
    ensures refused { IfKnown (T.contents tree.old) (λ log. IfErr result (AsTheTreeSays log subject.now)) }
    ensures kinds { IfErr result IsReadError }
    ensures same { T.contents tree.new ≡ T.contents tree.old }
    ensures apart { is_output subject.now ≡ true → tree.new ≡ tree.old }
    ensures cause { HasCause (ViewError.Tree TreeError.Fault) (T.fault_count tree.old)
        (T.fault_count tree.new) result }
{
    let mut at = from;
    while at < size {
        let piece = piece(alloc, tree, subject, at, PIECE_PLACES + width)?;
        if let Some(place) = place_in(finder, width, piece.as_slice()) {
            return Ok(Sought::At(at + place as u64));
        }
        at += PIECE_PLACES as u64;
    }
    Ok(Sought::Nowhere)
}

/// The first place in a piece where the finder's bytes stand.
fn place_in(finder: &Finder<'_>, width: usize, piece: &[u8]) -> Option<usize>
    requires { width ≡ length finder.now }
    ensures first { FindsNeedle piece.now finder.now 0 result }
    ensures within { IfSome result (λ place. place + width ≤ length piece.now) }
{
    finder.find(piece)
}

/// What a search line by line comes to.
fn lines_sought<T: ReadTree>(
    alloc: Global,
    tree: &mut T,
    subject: &Subject,
    size: u64,
    text: &str,
    from: u64,
) -> Result<Sought, ViewError>
    requires small { size ≤ 2 ^ 63 }
    ensures shown { IfShorter (T.contents tree.old) subject.now size (λ bytes.
        IfOk result (λ found. found ≡ lines_sought text.now from (drop from bytes))) }
    ensures refused { IfKnown (T.contents tree.old) (λ log. IfErr result (AsTheTreeSays log subject.now)) }
    ensures kinds { IfErr result IsReadError }
    ensures same { T.contents tree.new ≡ T.contents tree.old }
    ensures apart { is_output subject.now ≡ true → tree.new ≡ tree.old }
    ensures cause { HasCause (ViewError.Tree TreeError.Fault) (T.fault_count tree.old)
        (T.fault_count tree.new) result }
{
    match LineRegex::new(alloc, text) {
        Ok(regex) => regex_sought(alloc, tree, subject, size, &regex, from),
        Err(RegexError::BadPattern) => Ok(Sought::NoPattern),
        Err(RegexError::TooBig) => Err(ViewError::Memory),
        Err(RegexError::Memory) => Err(ViewError::Memory),
    }
}

/// What a search for a regular expression comes to.
fn regex_sought<T: ReadTree>(
    alloc: Global,
    tree: &mut T,
    subject: &Subject,
    size: u64,
    regex: &LineRegex,
    from: u64,
) -> Result<Sought, ViewError>
    requires small { size ≤ 2 ^ 63 }
    ensures shown { IfShorter (T.contents tree.old) subject.now size (λ bytes.
        IfOk result (λ found. found ≡ in_lines regex.now from 0 (drop from bytes))) }
    ensures refused { IfKnown (T.contents tree.old) (λ log. IfErr result (AsTheTreeSays log subject.now)) }
    ensures kinds { IfErr result IsReadError }
    ensures same { T.contents tree.new ≡ T.contents tree.old }
    ensures apart { is_output subject.now ≡ true → tree.new ≡ tree.old }
    ensures cause { HasCause (ViewError.Tree TreeError.Fault) (T.fault_count tree.old)
        (T.fault_count tree.new) result }
{
    let mut matcher = regex.matcher(alloc)?;
    through_lines(alloc, tree, subject, size, &mut matcher, from)
}

/// Reads part by part, each from the line on with which the one before ended, up to the first line in
/// which something is found.
fn through_lines<T: ReadTree>(
    alloc: Global,
    tree: &mut T,
    subject: &Subject,
    size: u64,
    matcher: &mut LineMatcher<'_>,
    from: u64,
) -> Result<Sought, ViewError>
    requires small { size ≤ 2 ^ 63 }
    ensures shown { IfShorter (T.contents tree.old) subject.now size (λ bytes.
        IfOk result (λ found. found ≡ in_lines matcher.old from 0 (drop from bytes))) }
    ensures refused { IfKnown (T.contents tree.old) (λ log. IfErr result (AsTheTreeSays log subject.now)) }
    ensures kinds { IfErr result IsReadError }
    ensures same { T.contents tree.new ≡ T.contents tree.old }
    ensures apart { is_output subject.now ≡ true → tree.new ≡ tree.old }
    ensures cause { HasCause (ViewError.Tree TreeError.Fault) (T.fault_count tree.old)
        (T.fault_count tree.new) result }
{
    let mut at = from;
    while at < size {
        let part = piece(alloc, tree, subject, at, PART_BYTES)?;
        let lines = part.as_slice();
        if lines.is_empty() {
            return Ok(Sought::Nowhere);
        }
        match matcher.search(lines) {
            Part::Found(place) => return Ok(Sought::At(at + place as u64)),
            Part::TooLong => return Ok(Sought::TooLong(at)),
            Part::Passed(count) => at += count as u64,
        }
    }
    Ok(Sought::Nowhere)
}
