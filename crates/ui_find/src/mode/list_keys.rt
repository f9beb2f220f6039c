//! Keys while the found paths are listed.
ghost use Rattle.std.specs.Prelude.{◌≡◌, ◌<◌, ◌^◌, None, IfOk, OnErr};
ghost use Rattle.ui_find.specs.FindKeys.{find_command as command_of_key};
ghost use Rattle.ui_find.specs.FindScreens.{CommandLeads, choice, page_of as rows_of};
ghost use Rattle.ui_find.specs.Listings.{chosen_path};

use super::FindMode;
use crate::act::FindAct;
use crate::command::{FindCommand, find_command};
use crate::listing::Listing;
use key_screen::Key;
use mc_text::NoMemory;
use std::alloc::Global;

impl FindMode {
    /// A key while no line asks: each command is a row.
    pub(super) fn key_in_list(&mut self, alloc: Global, key: Key) -> Result<FindAct, NoMemory>
        requires clear { self.old.asking ≡ None }
        ensures leads { IfOk result (λ act. CommandLeads (command_of_key key) act self.old self.new) }
        ensures lost { OnErr result (self.new ≡ self.old) }
    {
        let _folder = &self.folder;
        match find_command(key) {
            FindCommand::Move(base) => {
                self.listing.move_by(page_of(self.lines), base);
                Ok(FindAct::Stays)
            }
            FindCommand::Choose => chosen_in(alloc, &self.listing),
            FindCommand::Stop => {
                self.listing.stop();
                Ok(FindAct::Stays)
            }
            FindCommand::Leave => Ok(FindAct::Leaves),
            FindCommand::Nothing => Ok(FindAct::Stays),
        }
    }
}

/// How many paths a screen of so many lines shows at most.
pub fn page_of(lines: u16) -> usize
    ensures value { result ≡ rows_of lines }
    ensures bound { result < 2 ^ 16 }
{
    usize::from(lines).saturating_sub(6)
}

/// What Enter comes to.
fn chosen_in(alloc: Global, listing: &Listing) -> Result<FindAct, NoMemory>
    ensures { IfOk result (λ act. act ≡ choice (chosen_path listing.now)) }
{
    match listing.chosen() {
        None => Ok(FindAct::Leaves),
        Some(path) => Ok(FindAct::Goes(path.copy(alloc)?)),
    }
}
