//! Which modes a crash leaves at each moment of a setting.
ghost use Rattle.std.specs.Prelude.{◌≤◌, length};

use crate::scene::THING;
use mc_text::{Bits, Path};
use mem_tree::{Choice, Fill, MemTree};
use rows_page::Page;
use tree_trait::ReadTree;

/// The modes after each number of calls: with all that waits, and without.
pub fn tell_images(page: &mut Page, tree: &MemTree) {
    for calls in 0..=tree.calls() {
        tell_moment(page, tree, calls);
    }
}

fn tell_moment(page: &mut Page, tree: &MemTree, calls: u64)
    requires { calls ≤ length tree.now.log.changes }
{
    let all = mode_after(page, tree, calls, true);
    let none = mode_after(page, tree, calls, false);
    page.tell(format_args!("  after {calls} calls: "));
    tell_mode(page, all);
    if none != all {
        page.put(" or ");
        tell_mode(page, none);
    }
    page.put("\n");
}

fn tell_mode(page: &mut Page, mode: Option<u16>) {
    match mode {
        Some(mode) => page.tell(format_args!("{mode:o}")),
        None => page.put("nothing"),
    }
}

/// The mode in the image in which all that waits stands, or none of it.
fn mode_after(page: &mut Page, tree: &MemTree, calls: u64, stands: bool) -> Option<u16>
    requires { calls ≤ length tree.now.log.changes }
{
    let choice = choice(page, calls, stands);
    match tree.image(page.alloc(), calls, &choice) {
        Ok(image) => mode_in(page, image),
        Err(_error) => {
            page.fail();
            None
        }
    }
}

fn choice(page: &mut Page, calls: u64, stands: bool) -> Choice {
    let mut keep = Vec::new(page.alloc());
    for _ in 0..calls {
        page.need(keep.push(stands).is_ok());
    }
    Choice {
        keep: Bits(keep),
        fill: Fill::Written,
    }
}

fn mode_in(page: &mut Page, image: MemTree) -> Option<u16> {
    let mut image = image;
    let path = Path::parse(page.alloc(), THING).ok()?;
    let meta = image.stat(page.alloc(), &path).ok()?;
    Some(meta.mode)
}
