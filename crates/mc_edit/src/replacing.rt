//! Bytes put in place of others, wherever these stand.
ghost use Rattle.std.specs.Prelude.{◌≡◌, ◌+◌, ◌<◌, ◌≤◌, [], IfOk, OnOk, IfSome, length};
ghost use Rattle.memchr.specs.Find.{FindsNeedle, matches};
ghost use Rattle.mc_edit.specs.Replacing.{replaced_run, last_end};

use mc_text::{Bytes, NoMemory};
use memchr::memmem::Finder;
use std::alloc::Global;

/// How many bytes stand up to the end of the last place once each place has given way,
/// and where that place ended.
#[derive(Clone, Copy)]
pub struct RunSize {
    pub bytes: usize,
    pub end: usize,
}

/// Measures what `replaced_run` would build, without memory. A size that no number of
/// the machine holds is None.
pub fn run_size(text: &[u8], what: &[u8], new: &[u8]) -> Option<RunSize>
    requires { 0 < length what.now }
    ensures bytes { IfSome result (λ size. size.bytes
        ≡ length (replaced_run text.now what.now new.now 0 (matches text.now what.now 0))) }
    ensures end { IfSome result (λ size. size.end ≡ last_end what.now 0
        (matches text.now what.now 0)) }
    ensures within { IfSome result (λ size. size.end ≤ length text.now) }
{
    measure(&Finder::new(what), text, what.len(), new)
}

/// The size, place by place.
fn measure(finder: &Finder<'_>, text: &[u8], width: usize, new: &[u8]) -> Option<RunSize>
    requires width { width ≡ length finder.now }
    requires some { 0 < width }
    ensures bytes { IfSome result (λ size. size.bytes
        ≡ length (replaced_run text.now finder.now new.now 0 (matches text.now finder.now 0))) }
    ensures end { IfSome result (λ size. size.end ≡ last_end finder.now 0
        (matches text.now finder.now 0)) }
    ensures within { IfSome result (λ size. size.end ≤ length text.now) }
{
    let mut bytes = 0usize;
    let mut end = 0;
    while let Some(place) = next_place(finder, text, end) {
        bytes = bytes.checked_add((place - end) + new.len())?;
        end = place + width;
    }
    Some(RunSize { bytes, end })
}

/// What stands up to the end of the last place once new bytes have taken the room of each. The
/// size is measured before.
pub fn replaced_run(
    alloc: Global,
    text: &[u8],
    what: &[u8],
    new: &[u8],
    size: usize,
) -> Result<Bytes, NoMemory>
    requires { 0 < length what.now }
    ensures { IfOk result (λ bytes. bytes ≡ replaced_run text.now what.now new.now 0
        (matches text.now what.now 0)) }
{
    let mut bytes = Vec::with_capacity(alloc, size)?;
    build(&mut bytes, &Finder::new(what), text, what.len(), new)?;
    Ok(Bytes(bytes))
}

/// The run, built place by place.
fn build(
    bytes: &mut Vec<u8>,
    finder: &Finder<'_>,
    text: &[u8],
    width: usize,
    new: &[u8],
) -> Result<(), NoMemory>
    requires width { width ≡ length finder.now }
    requires some { 0 < width }
    requires empty { bytes.old.items ≡ [] }
    ensures { OnOk result (bytes.new.items
        ≡ replaced_run text.now finder.now new.now 0 (matches text.now finder.now 0)) }
{
    let mut end = 0;
    while let Some(place) = next_place(finder, text, end) {
        bytes.extend_from_slice(&text[end..place])?;
        bytes.extend_from_slice(new)?;
        end = place + width;
    }
    Ok(())
}

/// The first place at or after `from`.
fn next_place(finder: &Finder<'_>, text: &[u8], from: usize) -> Option<usize>
    requires { from ≤ length text.now }
    ensures place { FindsNeedle text.now finder.now from result }
    ensures within { IfSome result (λ place. place + length finder.now ≤ length text.now) }
    ensures low { IfSome result (λ place. from ≤ place) }
{
    let at = finder.find(&text[from..])?;
    Some(from + at)
}
