//! What the crash images of each moment show of the thing: whole at its source (`s`), at its target (`t`),
//! at both (`b`), or at neither, which is a loss.
ghost use Rattle.std.specs.Prelude.{◌≤◌, length};

use crate::judging::{Standing, Thing, what_stands};
use crate::scene::{SOURCE, TARGET};
use mc_text::Bits;
use mem_tree::{Choice, Fill, MemTree};
use rows_page::Page;

/// Which of these were seen at one moment.
#[derive(Clone, Copy)]
struct Seen {
    at_source: bool,
    at_both: bool,
    at_target: bool,
    lost: bool,
}

/// For each number of calls, what a crash may leave behind it.
pub fn tell_images(page: &mut Page, tree: &MemTree, thing: &Thing) {
    page.put("  images:");
    for calls in 0..=tree.calls() {
        let seen = see_moment(page, tree, calls, thing);
        tell_seen(page, seen);
    }
    page.put("\n");
}

fn tell_seen(page: &mut Page, seen: Seen) {
    page.put(" ");
    tell_if(page, seen.at_source, "s");
    tell_if(page, seen.at_both, "b");
    tell_if(page, seen.at_target, "t");
    tell_if(page, seen.lost, "LOST");
}

fn tell_if(page: &mut Page, holds: bool, word: &str) {
    if holds {
        page.put(word);
    }
}

/// The images of a crash after so many calls: all, none, all but one and one alone of the changes are kept,
/// each with two fills of what was written.
fn see_moment(page: &mut Page, tree: &MemTree, calls: u64, thing: &Thing) -> Seen
    requires { calls ≤ length tree.now.log.changes }
{
    let mut seen = Seen {
        at_source: false,
        at_both: false,
        at_target: false,
        lost: false,
    };
    for fill in [Fill::Written, Fill::Junk(7)] {
        for (kept, others) in [(true, true), (false, false), (true, false), (false, true)] {
            for one in 0..calls.max(1) {
                let choice = choice(page, calls, one, kept, others, fill);
                see_image(page, tree, calls, &choice, thing, &mut seen);
            }
        }
    }
    seen
}

/// Whether the change of this place is kept, and whether the others are.
fn choice(page: &mut Page, calls: u64, one: u64, kept: bool, others: bool, fill: Fill) -> Choice {
    let mut keep = Vec::new(page.alloc());
    for place in 0..calls {
        let stands = if place == one { kept } else { others };
        page.need(keep.push(stands).is_ok());
    }
    Choice {
        keep: Bits(keep),
        fill,
    }
}

fn see_image(
    page: &mut Page,
    tree: &MemTree,
    calls: u64,
    choice: &Choice,
    thing: &Thing,
    seen: &mut Seen,
)
    requires { calls ≤ length tree.now.log.changes }
{
    match tree.image(page.alloc(), calls, choice) {
        Ok(image) => see(page, image, thing, seen),
        Err(_error) => page.fail(),
    }
}

fn see(page: &mut Page, image: MemTree, thing: &Thing, seen: &mut Seen) {
    let mut image = image;
    let source = what_stands(page, &mut image, SOURCE, thing);
    let target = what_stands(page, &mut image, TARGET, thing);
    match (source, target) {
        (Standing::Whole, Standing::Whole) => seen.at_both = true,
        (Standing::Whole, _) => seen.at_source = true,
        (Standing::Nothing, Standing::Whole) => seen.at_target = true,
        _ => seen.lost = true,
    }
}
