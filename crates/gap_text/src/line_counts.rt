//! How many newlines the blocks of a text have.
ghost use Rattle.std.specs.Prelude.{◌≡◌, ◌+◌, ◌-◌, ◌<◌, ◌≤◌, IfSome, length, slice_index, take};
ghost use Rattle.gap_text.specs.LineCounts.{newlines, seen_from, AreCounts};
ghost use Rattle.gap_text.specs.declared.line_counts.Side.TheVariants.{Front, Back};

use memchr::memchr_iter;

/// So many bytes a block has.
pub const BLOCK: usize = 65_536;

/// The side of the point on which a half lies. Its blocks are counted from the text's end on that side.
#[derive(Clone, Copy)]
pub enum Side {
    Front,
    Back,
}

/// A place, and how many newlines stand before it.
#[derive(Clone, Copy, Debug)]
pub struct LineMark {
    pub place: usize,
    pub lines: usize,
}

/// How many newlines a half has. The blocks that weren't counted yet are noted in `counts`,
/// as far as there is memory.
pub fn count_on(counts: &mut Vec<usize>, half: &[u8], side: Side) -> usize
    requires { AreCounts counts.old.items (seen_from side half.now) }
    ensures counted { AreCounts counts.new.items (seen_from side half.now) }
    ensures all { result ≡ newlines half.now }
{
    let mut all = counted(counts);
    let blocks = half.len() / BLOCK;
    for block in counts.len()..blocks {
        let end = BLOCK * (block + 1);
        all += newlines(seen_part(half, side, BLOCK * block, end));
        let Ok(()) = counts.push(all) else {
            return all + newlines(seen_part(half, side, end, half.len()));
        };
    }
    all + newlines(seen_part(half, side, BLOCK * blocks, half.len()))
}

/// How many newlines there are in all blocks that were counted.
fn counted(counts: &[usize]) -> usize
    ensures { result ≡ slice_index counts.now (length counts.now - 1) }
{
    match counts.last() {
        Some(all) => *all,
        None => 0,
    }
}

/// The bytes of a half between two places, seen from its side.
fn seen_part(half: &[u8], side: Side, from: usize, to: usize) -> &[u8]
    requires ordered { from ≤ to }
    requires within { to ≤ length half.now }
    ensures count { newlines (take from (seen_from side half.now)) + newlines result.now
        ≡ newlines (take to (seen_from side half.now)) }
    ensures long { length result.now ≡ to - from }
{
    match side {
        Side::Front => &half[from..to],
        Side::Back => &half[half.len() - to..half.len() - from],
    }
}

fn newlines(bytes: &[u8]) -> usize
    ensures value { result ≡ newlines bytes.now }
    ensures small { result ≤ length bytes.now }
{
    memchr_iter(b'\n', bytes).count()
}

/// The end of the last counted block with no more newlines before it than these, or the start.
pub fn mark_in_front(counts: &[usize], front: &[u8], lines: usize) -> LineMark
    requires { AreCounts counts.now (seen_from Front front.now) }
    ensures counted { result.lines ≡ newlines (take result.place front.now) }
    ensures few { result.lines ≤ lines }
    ensures within { result.place ≤ length front.now }
{
    match last_within(counts, lines) {
        Some(at) => LineMark {
            place: BLOCK * (at + 1),
            lines: counts[at],
        },
        None => LineMark { place: 0, lines: 0 },
    }
}

/// The start of the last counted block with no more newlines before it than these, or
/// the end, or else the start.
pub fn mark_in_back(counts: &[usize], back: &[u8], all: usize, lines: usize) -> LineMark
    requires counts { AreCounts counts.now (seen_from Back back.now) }
    requires all { all ≡ newlines back.now }
    ensures counted { result.lines ≡ newlines (take result.place back.now) }
    ensures few { result.lines ≤ lines }
    ensures within { result.place ≤ length back.now }
{
    if all <= lines {
        return LineMark {
            place: back.len(),
            lines: all,
        };
    }
    match first_reaching(counts, all - lines) {
        Some(at) => LineMark {
            place: back.len() - BLOCK * (at + 1),
            lines: all - counts[at],
        },
        None => LineMark { place: 0, lines: 0 },
    }
}

/// The last of the counts that isn't above `most`.
fn last_within(counts: &[usize], most: usize) -> Option<usize>
    ensures within { IfSome result (λ at. at < length counts.now) }
    ensures below { IfSome result (λ at. slice_index counts.now at ≤ most) }
{
    let mut last = None;
    for at in 0..counts.len() {
        if counts[at] > most {
            break;
        }
        last = Some(at);
    }
    last
}

/// The first of the counts that is at least `least`.
fn first_reaching(counts: &[usize], least: usize) -> Option<usize>
    ensures within { IfSome result (λ at. at < length counts.now) }
    ensures above { IfSome result (λ at. least ≤ slice_index counts.now at) }
{
    for at in 0..counts.len() {
        if counts[at] >= least {
            return Some(at);
        }
    }
    None
}
