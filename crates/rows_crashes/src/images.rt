//! The crash images of each moment of a session, a line for each.
ghost use Rattle.std.specs.Prelude.{◌≤◌, length};

use crate::judging::tell_left;
use crate::scenes::Scene;
use mc_text::Bits;
use mem_tree::{Choice, Fill, MemTree};
use rows_page::Page;

/// A title, and what is left after each count of calls, a line for each image.
pub fn walk(page: &mut Page, tree: &MemTree, scene: Scene) {
    page.tell(format_args!("{}\n", scene.title()));
    for calls in 0..=tree.calls() {
        page.tell(format_args!("after {calls} calls\n"));
        walk_moment(page, tree, calls, scene);
    }
}

/// The images of a crash after so many calls: all changes are kept, all but one, or none. Where none is
/// kept the files that were written have each fill; where all are, too, if the session writes: a name may
/// come to the disk before its bytes.
fn walk_moment(page: &mut Page, tree: &MemTree, calls: u64, scene: Scene)
    requires { calls ≤ length tree.now.log.changes }
{
    page.put("  all kept: ");
    tell_kept(page, tree, calls, scene, calls, Fill::Written);
    if scene.writes() {
        tell_fills(page, tree, calls, scene, calls, "all kept");
    }
    for lost in 0..calls {
        page.tell(format_args!("  all but {lost}: "));
        tell_all_but(page, tree, calls, scene, lost);
    }
    page.put("  none kept: ");
    tell_kept(page, tree, calls, scene, 0, Fill::Written);
    tell_fills(page, tree, calls, scene, 0, "none kept");
}

/// The images in which files don't hold what was written.
fn tell_fills(page: &mut Page, tree: &MemTree, calls: u64, scene: Scene, count: u64, name: &str)
    requires { calls ≤ length tree.now.log.changes }
{
    page.tell(format_args!("  {name}, no bytes: "));
    tell_kept(page, tree, calls, scene, count, Fill::Nothing);
    page.tell(format_args!("  {name}, zeros: "));
    tell_kept(page, tree, calls, scene, count, Fill::Zeros);
    page.tell(format_args!("  {name}, junk: "));
    tell_kept(page, tree, calls, scene, count, Fill::Junk(7));
}

/// The image that keeps the first so many changes.
fn tell_kept(page: &mut Page, tree: &MemTree, calls: u64, scene: Scene, count: u64, fill: Fill)
    requires { calls ≤ length tree.now.log.changes }
{
    let keep = first_kept(page, count, None);
    tell_image(page, tree, calls, scene, &Choice { keep, fill });
}

/// The image that keeps all changes but the one of this place.
fn tell_all_but(page: &mut Page, tree: &MemTree, calls: u64, scene: Scene, lost: u64)
    requires { calls ≤ length tree.now.log.changes }
{
    let keep = first_kept(page, calls, Some(lost));
    let fill = Fill::Written;
    tell_image(page, tree, calls, scene, &Choice { keep, fill });
}

/// What is left in an image.
fn tell_image(page: &mut Page, tree: &MemTree, calls: u64, scene: Scene, choice: &Choice)
    requires { calls ≤ length tree.now.log.changes }
{
    match tree.image(page.alloc(), calls, choice) {
        Ok(mut image) => tell_left(page, &mut image, scene),
        Err(_error) => page.fail(),
    }
    page.put("\n");
}

/// The first so many changes stand, but for the one of this place, if there is one.
fn first_kept(page: &mut Page, count: u64, lost: Option<u64>) -> Bits {
    let mut bits = Vec::new(page.alloc());
    for place in 0..count {
        page.need(bits.push(lost != Some(place)).is_ok());
    }
    Bits(bits)
}
