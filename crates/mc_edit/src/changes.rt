//! Changes of a text: made, taken back, made again.
ghost use Rattle.std.specs.Prelude.{◌≡◌, ◌+◌, ◌≤◌, OnOk, OnErr, length};
ghost use Rattle.std.specs.Str.{bytes_eq};
ghost use Rattle.mc_edit.specs.Edits.{spliced_bytes};
ghost use Rattle.mc_edit.specs.Changes.{text_before_change, text_after_change, Leads};

use crate::lines::slice_of;
use gap_text::{Change, GapText};
use mc_text::{Bytes, NoMemory};

/// The bytes from one place up to another give way to new ones. It takes the time of the bytes put in, and
/// of those between this change and the last one.
pub fn put(text: &mut GapText, from: usize, to: usize, new: &[u8]) -> Result<(), NoMemory>
    requires ordered { from ≤ to }
    requires within { to ≤ length text.old.bytes }
    ensures done { OnOk result (text.new.bytes ≡ spliced_bytes text.old.bytes from to new.now) }
    ensures same { OnErr result (text.new.bytes ≡ text.old.bytes) }
{
    text.move_to(from);
    text.replace(to - from, new)?;
    Ok(())
}

/// Takes a change back in the text to which it led.
#[tactic(auto, unfolding(crate::specs::Changes::text_before_change, crate::specs::Edits::largest_text))]
pub fn take_back(text: &mut GapText, change: &Change) -> Result<(), NoMemory>
    requires { Leads change.now (text_before_change change.now text.old.bytes) text.old.bytes }
    ensures done { OnOk result (text.new.bytes ≡ text_before_change change.now text.old.bytes) }
    ensures same { OnErr result (text.new.bytes ≡ text.old.bytes) }
{
    let inserted = slice_of(&change.inserted);
    put(
        text,
        change.at,
        change.at + inserted.len(),
        slice_of(&change.removed),
    )
}

/// Makes a change again in the text from which it leads on.
#[tactic(auto, unfolding(crate::specs::Changes::text_after_change, crate::specs::Edits::largest_text))]
pub fn make_again(text: &mut GapText, change: &Change) -> Result<(), NoMemory>
    requires { Leads change.now text.old.bytes (text_after_change change.now text.old.bytes) }
    ensures done { OnOk result (text.new.bytes ≡ text_after_change change.now text.old.bytes) }
    ensures same { OnErr result (text.new.bytes ≡ text.old.bytes) }
{
    let removed = slice_of(&change.removed);
    put(
        text,
        change.at,
        change.at + removed.len(),
        slice_of(&change.inserted),
    )
}

/// Whether the two have the same bytes.
pub fn are_same(left: &Bytes, right: &Bytes) -> bool
    ensures { result ≡ bytes_eq left.now right.now }
{
    slice_of(left) == slice_of(right)
}
