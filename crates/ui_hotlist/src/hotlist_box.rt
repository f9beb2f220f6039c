//! The box, and what a key comes to in it.
ghost use Rattle.std.specs.Prelude.{◌≡◌, ◌<◌, ◌^◌, length, IfOk, OnErr, OnOk};
ghost use Rattle.hotlist.specs.HotLists.{list_of};
ghost use Rattle.hotlist.specs.ListViews.{list_in};
ghost use Rattle.ui_hotlist.specs.HotlistBoxes.{act_by, cut_to, entered, entered_act, here, items_shown};
ghost use Rattle.ui_hotlist.specs.HotlistBoxes.{moved_by, opened_hotlist, page_of as rows_on, removal_act};
ghost use Rattle.ui_hotlist.specs.HotlistBoxes.{rest_of, saved_act, seen, shown_count, state_by};
ghost use Rattle.ui_hotlist.specs.HotlistBoxes.{with_rest, with_saved};

use crate::act::{HotlistAct, HotlistRefusal};
use crate::command::{HotlistCommand, hotlist_command};
use crate::entering::{UnderCursor, found_at};
use crate::printing::file_of;
use hotlist::{HotItem, Hotlist};
use key_screen::{Base, Key};
use mc_dialogs::{moved, scrolled};
use mc_text::NoMemory;
use std::alloc::Global;

/// Where the cursor of a list stands, and the first row shown.
#[derive(Clone, Copy, Debug, Drop, PartialEq, Eq)]
pub struct Cursor {
    pub current: usize,
    pub first: usize,
}

/// The hotlist on a screen of so many lines: the items of one of its groups, of which one is current. It
/// reads no file and saves none: what is to be saved a key's answer says.
#[derive(Drop)]
pub struct HotlistBox {
    pub(crate) lines: u16,
    pub(crate) list: Hotlist,
    /// The place of the group whose items are shown; the empty one is that of the list itself.
    pub(crate) group: Vec<usize>,
    pub(crate) cursor: Cursor,
}

impl HotlistBox {
    /// A list as its box opens: the first item of the list itself is current. It takes no memory.
    pub fn new(alloc: Global, lines: u16, list: Hotlist) -> HotlistBox
        ensures { seen result ≡ opened_hotlist lines (list_in list) }
    {
        HotlistBox {
            lines,
            list,
            group: Vec::new(alloc),
            cursor: Cursor {
                current: 0,
                first: 0,
            },
        }
    }

    /// Works a key. Without memory the box stays as it was. One that takes an item out copies and prints the
    /// list; all others take the time of one path at most.
    pub fn key(&mut self, alloc: Global, key: Key) -> Result<HotlistAct, NoMemory>
        ensures act { IfOk result (λ act. act ≡ act_by (seen self.old) key) }
        ensures state { OnOk result (seen self.new ≡ state_by (seen self.old) key) }
        ensures lost { OnErr result (seen self.new ≡ seen self.old) }
    {
        match hotlist_command(key) {
            HotlistCommand::Move(base) => {
                self.cursor = self.moved_by(base);
                Ok(HotlistAct::Stays)
            }
            HotlistCommand::Choose => self.enter(alloc),
            HotlistCommand::Remove => self.remove(alloc),
            HotlistCommand::Leave => Ok(HotlistAct::Leaves),
            HotlistCommand::Nothing => Ok(HotlistAct::Stays),
        }
    }

    /// Where a key moves the cursor.
    fn moved_by(&self, base: Base) -> Cursor
        ensures { result
            ≡ moved_by (shown_count (seen self.now)) (rows_on (seen self.now)) base self.now.cursor }
    {
        let page = self.page();
        let cut = self.cut();
        let current = moved(self.items().len(), page, cut.current, base);
        Cursor {
            current,
            first: scrolled(page, cut.first, current),
        }
    }

    /// Enter.
    fn enter(&mut self, alloc: Global) -> Result<HotlistAct, NoMemory>
        ensures act { IfOk result (λ act. act ≡ entered_act (here (seen self.old))) }
        ensures state { OnOk result (seen self.new ≡ entered (here (seen self.old)) (seen self.old)) }
        ensures lost { OnErr result (seen self.new ≡ seen self.old) }
    {
        let current = self.cut().current;
        match found_at(alloc, self.items(), current)? {
            UnderCursor::Nothing => Ok(HotlistAct::Leaves),
            UnderCursor::Entry(path) => Ok(HotlistAct::Goes(path)),
            UnderCursor::Group => {
                self.group.push(current)?;
                self.cursor = Cursor {
                    current: 0,
                    first: 0,
                };
                Ok(HotlistAct::Stays)
            }
        }
    }

    /// Delete: a copy of the list without the current item, and its file, come before any change.
    fn remove(&mut self, alloc: Global) -> Result<HotlistAct, NoMemory>
        ensures act { IfOk result (λ act. act ≡ removal_act (rest_of (seen self.old))) }
        ensures state { OnOk result (seen self.new ≡ with_rest (rest_of (seen self.old)) (seen self.old)) }
        ensures lost { OnErr result (seen self.new ≡ seen self.old) }
    {
        let mut place = Vec::from_slice(alloc, self.group.as_slice())?;
        place.push(self.cut().current)?;
        let mut rest = self.list.copy(alloc)?;
        match rest.remove(place.as_slice()) {
            None => Ok(HotlistAct::Stays),
            Some(_item) => self.save(alloc, rest),
        }
    }

    /// Shows this list from now on, and asks for it to be saved.
    fn save(&mut self, alloc: Global, list: Hotlist) -> Result<HotlistAct, NoMemory>
        ensures act { IfOk result (λ act. act ≡ saved_act (list_in list)) }
        ensures state { OnOk result (seen self.new ≡ with_saved (list_in list) (seen self.old)) }
        ensures lost { OnErr result (seen self.new ≡ seen self.old) }
    {
        match file_of(alloc, &list)? {
            None => Ok(HotlistAct::Refused(HotlistRefusal::TooLarge)),
            Some(bytes) => {
                self.list = list;
                Ok(HotlistAct::Saves(bytes))
            }
        }
    }

    /// The items of the group that is shown.
    pub(crate) fn items(&self) -> &[HotItem]
        ensures value { list_of result.now ≡ items_shown (seen self.now) }
        ensures count { length result.now ≡ shown_count (seen self.now) }
    {
        self.list.items_of_group(self.group.as_slice())
    }

    /// The cursor over as many items as there are: neither the current one nor the first one shown lies
    /// behind the last.
    pub(crate) fn cut(&self) -> Cursor
        ensures value { result ≡ cut_to (shown_count (seen self.now)) self.now.cursor }
        ensures current { result.current < 2 ^ 59 }
        ensures first { result.first < 2 ^ 59 }
    {
        let last = self.items().len().saturating_sub(1);
        Cursor {
            current: self.cursor.current.min(last),
            first: self.cursor.first.min(last),
        }
    }

    /// How many items are shown at most.
    pub(crate) fn page(&self) -> usize
        ensures value { result ≡ rows_on (seen self.now) }
        ensures bound { result < 2 ^ 16 }
    {
        usize::from(self.lines).saturating_sub(6)
    }
}
