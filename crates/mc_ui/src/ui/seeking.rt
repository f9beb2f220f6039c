//! The steps of a search, while what it finds is listed.
ghost use Rattle.std.specs.Prelude.{◌≡◌, ◌≤◌, ◌<◌, false, true, is_some, None, OnErr, OnOk};
ghost use Rattle.ui_find.specs.FindScreens.{with_listing};
ghost use Rattle.ui_find.specs.Listings.{IsKept, StepLeads, steps_to_end};
ghost use Rattle.mc_ui.specs.Boxes.{FindBox, NoBox, seen_box};
ghost use Rattle.mc_ui.specs.Screens.{HasSameSize};
ghost use Rattle.mc_ui.specs.Seekings.{SeekLeads, is_seeking as does_seek, list_in, with_list};

use super::Ui;
use crate::dialog::Dialog;
use mc_text::NoMemory;
use std::alloc::Global;
use tree_trait::ReadTree;
use ui_find::FindMode;

impl Ui {
    /// Makes one step of the search that goes on, if one does: at most a look and the read of a file, or a
    /// listing. Where memory is wanting nothing is lost, and the next step goes on.
    pub fn seek<T: ReadTree>(&mut self, alloc: Global, tree: &mut T) -> Result<(), NoMemory>
        ensures leads { OnOk result (SeekLeads (T.contents tree.old) (T.fault_count tree.old)
            (T.fault_count tree.new) self.old.over self.new.over) }
        ensures rest { self.new ≡ with_list (list_in self.new.over) self.old }
        ensures lost { OnErr result (list_in self.new.over
            ≡ record (list_in self.old.over) { search = (list_in self.new.over).search }) }
        ensures kept { IsKept (T.contents tree.old) (T.fault_count tree.old) (T.fault_count tree.new)
            (list_in self.old.over) (list_in self.new.over) }
        ensures falls { OnOk result (does_seek self.old ≡ true
            → steps_to_end (list_in self.new.over) < steps_to_end (list_in self.old.over)) }
        ensures still { does_seek self.old ≡ false → (tree.new ≡ tree.old) × (self.new ≡ self.old) }
        ensures size { HasSameSize self.old self.new }
        ensures settled { self.new.planned ≡ None }
        ensures same { T.contents tree.new ≡ T.contents tree.old }
        ensures later { T.fault_count tree.old ≤ T.fault_count tree.new }
    {
        match self.take_box() {
            Dialog::Find(find) => self.step_find(alloc, tree, find),
            other => {
                self.show_box(other);
                Ok(())
            }
        }
    }

    /// Whether a search goes on.
    pub fn is_seeking(&self) -> bool
        ensures { result ≡ does_seek self.now }
    {
        match &self.dialog {
            Dialog::Find(find) => find.is_searching(),
            _ => false,
        }
    }

    /// Makes a step of what is sought, and puts it back.
    fn step_find<T: ReadTree>(
        &mut self,
        alloc: Global,
        tree: &mut T,
        find: FindMode,
    ) -> Result<(), NoMemory>
        requires clear { self.old.over ≡ NoBox }
        ensures leads { OnOk result
            (StepLeads find.listing.search (T.contents tree.old) (T.fault_count tree.old)
            (T.fault_count tree.new) find.listing (list_in self.new.over)) }
        ensures rest { self.new
            ≡ record self.old { over = FindBox (with_listing (list_in self.new.over) find) } }
        ensures lost { OnErr result
            (list_in self.new.over ≡ record find.listing { search = (list_in self.new.over).search }) }
        ensures kept { IsKept (T.contents tree.old) (T.fault_count tree.old) (T.fault_count tree.new)
            find.listing (list_in self.new.over) }
        ensures falls { OnOk result (is_some find.listing.search ≡ true
            → steps_to_end (list_in self.new.over) < steps_to_end find.listing) }
        ensures still { does_seek (record self.old { over = FindBox find }) ≡ false
            → (tree.new ≡ tree.old) × (self.new ≡ record self.old { over = FindBox find }) }
        ensures same { T.contents tree.new ≡ T.contents tree.old }
        ensures later { T.fault_count tree.old ≤ T.fault_count tree.new }
    {
        let mut find = find;
        let stepped = find.step(alloc, tree);
        self.show_box(Dialog::Find(find));
        stepped
    }
}
