//! Both panels, read again after a job's end: first both folders are read, and then the
//! panels take what was read.
ghost use Rattle.std.specs.Prelude.{◌≡◌, ◌<◌, ◌^◌, IfOk};
ghost use Rattle.tree_trait.specs.Answers.{IfKnown};
ghost use Rattle.panel_state.specs.Rereadings.{IsAttempt, panel_after_attempt as panel_taken};
ghost use Rattle.panel_pair.specs.Looks.{IsRereadOf, LooksAgain, ShowsReread, TakesReread, unread_of};
ghost use Rattle.panel_pair.specs.Readings.{ReadsTree, refused_looks};

use crate::panels::Panels;
use crate::side::Side;
use mc_text::NoMemory;
use panel_state::{Attempt, Panel};
use resolving::ResolveError;
use std::alloc::Global;
use tree_trait::ReadTree;

/// What reading both folders again came to.
#[derive(Drop)]
pub struct Reread {
    pub left: Attempt,
    pub right: Attempt,
}

/// Why the folders of the panels could not be read again; one that was read has no refusal.
#[derive(Debug, Drop)]
pub struct Unread {
    pub left: Option<ResolveError>,
    pub right: Option<ResolveError>,
}

impl Panels {
    /// Reads both folders again, the left one first. The panels stay as they are. It takes a
    /// look for each child of both.
    pub fn read_both<T: ReadTree>(&self, alloc: Global, tree: &mut T) -> Result<Reread, NoMemory>
        ensures read { IfOk result (IsRereadOf self.now) }

        // What is read of the tree, and what that refuses.
        ensures answer { IfKnown (T.contents tree.old) (λ log. IfOk result (ShowsReread log self.now)) }
        ensures reads { ReadsTree (refused_looks result) (T.contents tree.old) (T.contents tree.new)
            (T.fault_count tree.old) (T.fault_count tree.new) }
    {
        let left = self.left().try_reading(alloc, tree)?;
        let right = self.right().try_reading(alloc, tree)?;
        Ok(Reread { left, right })
    }

    /// Takes what was read again, and answers why a folder wasn't; a page has so many rows. A panel whose
    /// folder was refused stays as it was. It takes no memory.
    pub fn take(&mut self, page: usize, reread: Reread) -> Unread
        requires page { page < 2 ^ 16 }
        requires read { IsRereadOf self.old reread }
        ensures refused { result ≡ unread_of reread }
        ensures looked { LooksAgain page result self.old self.new }
        ensures shows { TakesReread reread self.old self.new }
    {
        let Reread { left, right } = reread;
        match self.side {
            Side::Left => taken(page, &mut self.current, &mut self.other, left, right),
            Side::Right => taken(page, &mut self.other, &mut self.current, left, right),
        }
    }
}

/// Gives two panels what was read for each.
fn taken(
    page: usize,
    left: &mut Panel,
    right: &mut Panel,
    on_left: Attempt,
    on_right: Attempt,
) -> Unread
    requires page { page < 2 ^ 16 }
    requires left { IsAttempt left.old on_left }
    requires right { IsAttempt right.old on_right }
    ensures left { left.new ≡ panel_taken page on_left left.old }
    ensures right { right.new ≡ panel_taken page on_right right.old }
    ensures refused { result ≡ unread_of (record { left = on_left; right = on_right }) }
{
    let left = left.take_if_read(page, on_left);
    let right = right.take_if_read(page, on_right);
    Unread { left, right }
}
