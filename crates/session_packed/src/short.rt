//! Entries of which little is to be kept: most steps of a job.
ghost use Rattle.std.specs.Prelude.{◌≡◌, ◌+◌, ◌++◌, ◌≤◌, ◌<◌, ◌^◌, take, drop, length, IfSome, IfNone};
ghost use Rattle.session_packed.specs.Shorts.{did_of, entry_of as short_entry};

use crate::delta::PathKind;
use job_reports::Did;
use mc_text::{Path, Text};
use session_entries::{Entry, Event};

/// What such a step did.
pub enum ShortDid<'a> {
    Named(PathKind, &'a Path),
    Chunk(u32),
    Barrier,
}

/// Such a step: its job, how many calls it made, and what it did.
pub struct Short<'a> {
    pub job: u32,
    pub calls: u8,
    pub did: ShortDid<'a>,
}

/// The entry as a short one, if it is one where there were so many calls and faults before it.
pub fn short_of(entry: &Entry, calls: u64, faults: u64) -> Option<Short<'_>>
    ensures entry { IfSome result (λ short. entry.now ≡ short_entry calls faults short) }
    ensures fits { IfSome result (λ short. calls + short.calls < 2 ^ 64) }
{
    if entry.seat != 0 || entry.shown != 0 || entry.faults != faults || entry.calls < calls {
        return None;
    }
    let Ok(more) = u8::try_from(entry.calls - calls) else {
        return None;
    };
    let Event::Step { job, did } = &entry.what else {
        return None;
    };
    let Some(did) = short_did(did) else {
        return None;
    };
    Some(Short {
        job: *job,
        calls: more,
        did,
    })
}

/// What a step did, if little is to be kept of it.
fn short_did(did: &Did) -> Option<ShortDid<'_>>
    ensures { IfSome result (λ short. did.now ≡ did_of short) }
{
    match did {
        Did::Began(path) => Some(ShortDid::Named(PathKind::Began, path)),
        Did::Placed(path) => Some(ShortDid::Named(PathKind::Placed, path)),
        Did::Removed(path) => Some(ShortDid::Named(PathKind::Removed, path)),
        Did::Made(path) => Some(ShortDid::Named(PathKind::Made, path)),
        Did::Set(path) => Some(ShortDid::Named(PathKind::Set, path)),
        Did::Kept(path) => Some(ShortDid::Named(PathKind::Kept, path)),
        Did::Cleaned(path) => Some(ShortDid::Named(PathKind::Cleaned, path)),
        Did::Chunk(count) => Some(ShortDid::Chunk(*count)),
        Did::Barrier => Some(ShortDid::Barrier),
        _ => None,
    }
}

/// How the path before differs from the newest.
#[derive(Clone, Copy, Debug, Drop)]
pub struct Difference {
    pub shared: u16,
    pub tail: u16,
}

/// Keeps how a path differs from the newest: its bytes behind those that they share. Where there is no room
/// for these nothing is kept.
pub fn keep_difference(tails: &mut Vec<u8>, before: &str, newest: &str) -> Option<Difference>
    ensures kept { IfSome result (λ difference.
        tails.new.items ≡ tails.old.items ++ drop difference.shared before.now) }
    ensures shared { IfSome result (λ difference.
        take difference.shared newest.now ≡ take difference.shared before.now) }
    ensures tail { IfSome result (λ difference.
        difference.tail ≡ length (drop difference.shared before.now)) }
    ensures same { IfNone result (tails.new.items ≡ tails.old.items) }
{
    let before = before.as_bytes();
    let common = shared_length(before, newest.as_bytes());
    let tail = &before[common..];
    if tails.capacity() - tails.len() < tail.len() {
        return None;
    }
    let Ok(shared) = u16::try_from(common) else {
        return None;
    };
    let Ok(length) = u16::try_from(tail.len()) else {
        return None;
    };
    match tails.extend_from_slice(tail) {
        Err(_) => None,
        Ok(()) => Some(Difference {
            shared,
            tail: length,
        }),
    }
}

/// How many first bytes two texts share.
fn shared_length(left: &[u8], right: &[u8]) -> usize
    ensures within { result ≤ length left.now }
    ensures shared { take result right.now ≡ take result left.now }
{
    let mut at = 0;
    while at < left.len() && at < right.len() && left[at] == right[at] {
        at += 1;
    }
    at
}
