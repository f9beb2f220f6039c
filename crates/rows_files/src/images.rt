//! The crash images of each moment of a copy, and whether each is safe.
ghost use Rattle.std.specs.Prelude.{◌≤◌, length};

use crate::judging::{Verdict, judge};
use crate::scene::Original;
use mc_text::Bits;
use mem_tree::{Choice, Fill, MemTree};
use rows_page::Page;

/// How many images have the target and how many do not, and the first that is not safe.
#[derive(Drop)]
struct Seen {
    whole: u64,
    missing: u64,
    torn: Page,
}

/// What the images of all moments come to.
pub fn tell_images(page: &mut Page, tree: &MemTree, original: &Original) {
    let mut seen = Seen {
        whole: 0,
        missing: 0,
        torn: Page::new(page.alloc()),
    };
    for calls in 0..=tree.calls() {
        see_moment(page, tree, calls, original, &mut seen);
    }
    tell_seen(page, &seen);
}

/// The images of a crash after so many calls: all, none, and all but one of the changes are kept, each with
/// all fills of what was written.
fn see_moment(page: &mut Page, tree: &MemTree, calls: u64, original: &Original, seen: &mut Seen)
    requires { calls ≤ length tree.now.log.changes }
{
    for fill in [Fill::Written, Fill::Nothing, Fill::Zeros, Fill::Junk(7)] {
        let all = choice(page, calls, None, fill);
        see_image(page, tree, calls, &all, original, seen);
        let none = choice(page, 0, None, fill);
        see_image(page, tree, calls, &none, original, seen);
        for lost in 0..calls {
            let others = choice(page, calls, Some(lost), fill);
            see_image(page, tree, calls, &others, original, seen);
        }
    }
}

/// So many changes stand, but for the one of this place, if there is one.
fn choice(page: &mut Page, calls: u64, lost: Option<u64>, fill: Fill) -> Choice {
    let mut keep = Vec::new(page.alloc());
    for place in 0..calls {
        page.need(keep.push(lost != Some(place)).is_ok());
    }
    Choice {
        keep: Bits(keep),
        fill,
    }
}

fn see_image(
    page: &mut Page,
    tree: &MemTree,
    calls: u64,
    choice: &Choice,
    original: &Original,
    seen: &mut Seen,
)
    requires { calls ≤ length tree.now.log.changes }
{
    match tree.image(page.alloc(), calls, choice) {
        Ok(image) => see(calls, choice, verdict_on(page, image, original), seen),
        Err(_error) => page.fail(),
    }
}

fn verdict_on(page: &mut Page, image: MemTree, original: &Original) -> Verdict {
    let mut image = image;
    judge(page, &mut image, original)
}

fn see(calls: u64, choice: &Choice, verdict: Verdict, seen: &mut Seen) {
    match verdict {
        Verdict::Whole => seen.whole = seen.whole.saturating_add(1),
        Verdict::Missing => seen.missing = seen.missing.saturating_add(1),
        Verdict::Unsafe(why) => tell_torn(&mut seen.torn, calls, why, choice),
    }
}

fn tell_torn(torn: &mut Page, calls: u64, why: &str, choice: &Choice) {
    if torn.text().is_empty() {
        torn.tell(format_args!("after {calls} calls {why}: {choice:?}"));
    }
}

fn tell_seen(page: &mut Page, seen: &Seen) {
    page.put("  images: ");
    if seen.torn.text().is_empty() {
        let (whole, missing) = (seen.whole, seen.missing);
        let all = whole.saturating_add(missing);
        page.tell(format_args!("{all}, each safe; with the target {whole}, without {missing}"));
    }
    page.put(seen.torn.text());
    page.put("\n");
}
