//! Hidden names shown or not, in two steps: first what needs memory, and then what needs none.
ghost use Rattle.std.specs.Prelude.{◌≡◌, ◌<◌, ◌^◌, IfOk};
ghost use Rattle.panel_state.specs.declared.arranging.Arrangement.TheVariants.{Hidden};
ghost use Rattle.panel_state.specs.Arrangements.{arranged_again, HasSameItems};
ghost use Rattle.panel_state.specs.Hidings.{IsHiddenPlan};

use crate::panel::Panel;
use crate::scrolling::{rows_shown, scrolled};
use crate::searching::{count_rows, row_from};
use mc_text::{Name, NoMemory};
use panel_listing::ShownItems;
use std::alloc::Global;
use std::mem;

/// What a panel is to show once hidden names are wanted, or aren't any more: which items, and the name
/// on which the cursor stays.
#[derive(Drop)]
pub struct HiddenPlan {
    pub shown: ShownItems,
    pub name: Option<Name>,
}

impl Panel {
    /// What it would show with the hidden names, or without them. It stays as it is.
    pub fn plan_hidden(&mut self, alloc: Global, hidden: bool) -> Result<HiddenPlan, NoMemory>
        ensures planned { IfOk result (IsHiddenPlan hidden self.old) }
        ensures same { self.new ≡ self.old }
    {
        let name = self.name_copy(alloc)?;
        let before = mem::replace(&mut self.wish.hidden, hidden);
        let shown = self.listing.shown_by(alloc, &self.wish);
        self.wish.hidden = before;
        Ok(HiddenPlan {
            shown: shown?,
            name,
        })
    }

    /// Shows that. It takes no memory. The cursor stays on its name, or else on its row; tags stay.
    pub fn take_hidden(&mut self, page: usize, hidden: bool, plan: HiddenPlan)
        requires page { page < 2 ^ 16 }
        requires planned { IsHiddenPlan hidden self.old plan }
        ensures done { self.new ≡ arranged_again page (Hidden hidden) self.new.listing self.old }
        ensures items { HasSameItems self.old.listing self.new.listing }
    {
        let HiddenPlan { shown, name } = plan;
        self.wish.hidden = hidden;
        self.listing.show(shown);
        let _ = count_rows(&self.listing, &self.wish);
        let row = row_from(&self.listing, &name, self.cursor);
        self.first = scrolled(rows_shown(self.format.layout(), page), self.first, row);
        self.cursor = row;
    }
}
