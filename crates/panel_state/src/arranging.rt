//! What is shown of a folder that was read, and in which order.
ghost use Rattle.std.specs.Prelude.{◌≡◌, ◌<◌, ◌^◌, OnOk, OnErr};
ghost use Rattle.panel_state.specs.Arrangements.{wish_after, arranged_again, HasSameItems};

use crate::panel::Panel;
use crate::scrolling::{rows_shown, scrolled};
use crate::searching::{count_rows, row_from};
use mc_text::NoMemory;
use panel_listing::{Order, Wish};
use std::alloc::Global;
use std::mem;
use tagging::Pattern;

/// What a key changes of what is shown.
#[derive(Debug, Drop)]
pub enum Arrangement {
    Sorted(Order),
    Reversed(bool),
    Hidden(bool),
    /// Without a pattern all files are shown.
    Filtered(Option<Pattern>),
}

impl Panel {
    /// Shows the items in another order, or others of them. The folder isn't read again. The cursor stays
    /// on its name, or else on its row; tags stay, also on what isn't shown any more.
    pub fn arrange(
        &mut self,
        alloc: Global,
        page: usize,
        arrangement: Arrangement,
    ) -> Result<(), NoMemory>
        requires { page < 2 ^ 16 }
        ensures done { OnOk result (self.new ≡ arranged_again page arrangement self.new.listing self.old) }
        ensures items { HasSameItems self.old.listing self.new.listing }
        ensures refused { OnErr result (self.new ≡ self.old) }
    {
        let name = self.name_copy(alloc)?;
        let back = changed(&mut self.wish, arrangement);
        match self.listing.arrange(alloc, &self.wish) {
            Ok(()) => {}
            Err(NoMemory) => {
                let _ = changed(&mut self.wish, back);
                return Err(NoMemory);
            }
        }
        let _ = count_rows(&self.listing, &self.wish);
        let row = row_from(&self.listing, &name, self.cursor);
        self.first = scrolled(rows_shown(self.format.layout(), page), self.first, row);
        self.cursor = row;
        Ok(())
    }
}

/// Changes what is wished for. Answers what changes it back.
fn changed(wish: &mut Wish, arrangement: Arrangement) -> Arrangement
    ensures done { wish.new ≡ wish_after arrangement wish.old }
    ensures back { wish_after result wish.new ≡ wish.old }
{
    match arrangement {
        Arrangement::Sorted(order) => Arrangement::Sorted(mem::replace(&mut wish.order, order)),
        Arrangement::Reversed(reverse) => {
            Arrangement::Reversed(mem::replace(&mut wish.reverse, reverse))
        }
        Arrangement::Hidden(hidden) => {
            Arrangement::Hidden(mem::replace(&mut wish.hidden, hidden))
        }
        Arrangement::Filtered(filter) => {
            Arrangement::Filtered(mem::replace(&mut wish.filter, filter))
        }
    }
}
