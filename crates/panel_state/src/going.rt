//! Going from a folder to another one.
ghost use Rattle.std.specs.Prelude.{◌≡◌, ◌<◌, ◌^◌, None, length, IfOk, IfErr, OnOk, OnErr};
ghost use Rattle.mc_text.specs.Routes.{last_of};
ghost use Rattle.tree_trait.specs.Refusals.{holder};
ghost use Rattle.tree_trait.specs.Answers.{IfKnown, HasCause};
ghost use Rattle.resolving.specs.Errors.{CarriesCause, count_told};
ghost use Rattle.panel_listing.specs.Orders.{AreArranged};
ghost use Rattle.panel_listing.specs.Listings.{rows_in};
ghost use Rattle.panel_state.specs.Panels.{with_cursor_on};
ghost use Rattle.panel_state.specs.Readings.{ShowsFolder, outcome, read_again, went_to};
ghost use Rattle.panel_state.specs.Readings.{gone_to, gone_to_path, shown_anew};
ghost use Rattle.panel_state.specs.Goings.{way_of, Enters, Reads, Turns, ShowsNext};
ghost use Rattle.panel_state.specs.Visits.{folders_on};

use crate::panel::Panel;
use crate::reading::read_folder;
use crate::scrolling::{rows_shown, scrolled};
use crate::searching::row_from;
use crate::visits::Turn;
use mc_text::{Name, NoMemory, Path};
use panel_listing::Listing;
use resolving::{ResolveError, Wanted, resolve};
use std::alloc::Global;
use std::convert::AsStr;
use tree_trait::ReadTree;

/// Whether a key led to a folder.
#[derive(Clone, Copy, Debug, Drop, PartialEq, Eq)]
pub enum Going {
    Went,
    /// There was no folder to go to, and nothing was looked at.
    NoFolder,
}

/// Where Enter on a row leads: to the folder above, into a folder or along a link to one, or nowhere.
#[derive(Clone, Copy, Debug, Drop, PartialEq, Eq)]
pub enum Way {
    Nowhere,
    Up,
    Into,
}

impl Panel {
    /// Enters the folder of the current row, or the one that a link there leads to. From `..` the cursor
    /// comes to stand on the folder that was left. Where it is refused the panel stays as it was.
    pub fn enter<T: ReadTree>(
        &mut self,
        alloc: Global,
        tree: &mut T,
        page: usize,
    ) -> Result<Going, ResolveError>
        requires { page < 2 ^ 16 }
        ensures done { IfOk result (Enters (way_of self.old) page self.old self.new) }
        ensures refused { OnErr result (self.new ≡ self.old) }
        ensures answer { IfKnown (T.contents tree.old) (λ log.
            Reads (way_of self.old) log self.old (outcome result self.new)) }
        ensures same { T.contents tree.new ≡ T.contents tree.old }
        ensures cause { HasCause ResolveError.Fault (T.fault_count tree.old) (T.fault_count tree.new) result }
        ensures counts { T.fault_count tree.new ≡ count_told (T.fault_count tree.old) result }
        ensures carried { IfErr result CarriesCause }
    {
        match self.way() {
            Way::Nowhere => Ok(Going::NoFolder),
            Way::Up => {
                let above = above(alloc, &self.folder)?;
                let left = last_name(alloc, &self.folder)?;
                self.change_to(alloc, tree, page, above, left)?;
                Ok(Going::Went)
            }
            Way::Into => self.go_into(alloc, tree, page),
        }
    }

    /// Goes to a folder, whose path has no links. Its own folder is read again.
    pub fn go_to<T: ReadTree>(
        &mut self,
        alloc: Global,
        tree: &mut T,
        page: usize,
        folder: Path,
    ) -> Result<(), ResolveError>
        requires { page < 2 ^ 16 }
        ensures done { OnOk result (self.new ≡ gone_to page folder self.new.listing self.old) }
        ensures refused { OnErr result (self.new ≡ self.old) }
        ensures answer { IfKnown (T.contents tree.old) (λ log.
            ShowsFolder log folder (outcome result self.new)) }
        ensures same { T.contents tree.new ≡ T.contents tree.old }
        ensures cause { HasCause ResolveError.Fault (T.fault_count tree.old) (T.fault_count tree.new) result }
        ensures counts { T.fault_count tree.new ≡ count_told (T.fault_count tree.old) result }
        ensures carried { IfErr result CarriesCause }
    {
        if folder.same(&self.folder) {
            return self.read_again(alloc, tree, page);
        }
        self.change_to(alloc, tree, page, folder, None)
    }

    /// Goes to the folder that holds a path without links, with the cursor on the path's last name, or
    /// on the first row where that name isn't shown. Its own folder is read again. The root lies in
    /// none, and is gone to itself.
    pub fn go_to_path<T: ReadTree>(
        &mut self,
        alloc: Global,
        tree: &mut T,
        page: usize,
        path: Path,
    ) -> Result<(), ResolveError>
        requires { page < 2 ^ 16 }
        ensures done { OnOk result (self.new ≡ gone_to_path page path self.new.listing self.old) }
        ensures refused { OnErr result (self.new ≡ self.old) }
        ensures answer { IfKnown (T.contents tree.old) (λ log.
            ShowsFolder log (holder path) (outcome result self.new)) }
        ensures same { T.contents tree.new ≡ T.contents tree.old }
        ensures cause { HasCause ResolveError.Fault (T.fault_count tree.old) (T.fault_count tree.new) result }
        ensures counts { T.fault_count tree.new ≡ count_told (T.fault_count tree.old) result }
        ensures carried { IfErr result CarriesCause }
    {
        let folder = above(alloc, &path)?;
        let name = last_name(alloc, &path)?;
        if folder.same(&self.folder) {
            return self.read_again_at(alloc, tree, page, name);
        }
        self.change_to(alloc, tree, page, folder, name)
    }

    /// Goes along the folders that were shown, to the one before this one or to the one that was gone back
    /// from last, if there is one.
    pub fn turn<T: ReadTree>(
        &mut self,
        alloc: Global,
        tree: &mut T,
        page: usize,
        turn: Turn,
    ) -> Result<Going, ResolveError>
        requires { page < 2 ^ 16 }
        ensures done { IfOk result (Turns turn page self.old self.new) }
        ensures refused { OnErr result (self.new ≡ self.old) }
        ensures answer { IfKnown (T.contents tree.old) (λ log.
            ShowsNext log (folders_on turn self.old.visits) (outcome result self.new)) }
        ensures same { T.contents tree.new ≡ T.contents tree.old }
        ensures cause { HasCause ResolveError.Fault (T.fault_count tree.old) (T.fault_count tree.new) result }
        ensures counts { T.fault_count tree.new ≡ count_told (T.fault_count tree.old) result }
        ensures carried { IfErr result CarriesCause }
    {
        let Some(folder) = self.visits.next(turn) else {
            return Ok(Going::NoFolder);
        };
        let folder = folder.copy(alloc)?;
        let listing = read_folder(alloc, tree, &folder, &self.wish)?;
        self.visits.turn(alloc, turn, &self.folder)?;
        self.show(page, folder, listing, None);
        Ok(Going::Went)
    }

    /// Where Enter leads.
    fn way(&self) -> Way
        ensures { result ≡ way_of self.now }
    {
        match self.listing.item(self.cursor) {
            Some(item) if item.leads_to_folder() => Way::Into,
            Some(_) => Way::Nowhere,
            None if self.cursor < self.listing.len() => Way::Up,
            None => Way::Nowhere,
        }
    }

    /// Goes into the folder of the current row, or along its link.
    fn go_into<T: ReadTree>(
        &mut self,
        alloc: Global,
        tree: &mut T,
        page: usize,
    ) -> Result<Going, ResolveError>
        requires { page < 2 ^ 16 }
        ensures done { IfOk result (Enters Way.Into page self.old self.new) }
        ensures refused { OnErr result (self.new ≡ self.old) }
        ensures answer { IfKnown (T.contents tree.old) (λ log.
            Reads Way.Into log self.old (outcome result self.new)) }
        ensures same { T.contents tree.new ≡ T.contents tree.old }
        ensures cause { HasCause ResolveError.Fault (T.fault_count tree.old) (T.fault_count tree.new) result }
        ensures counts { T.fault_count tree.new ≡ count_told (T.fault_count tree.old) result }
        ensures carried { IfErr result CarriesCause }
    {
        let name = self.current_text(alloc)?;
        let folder = resolve(
            alloc,
            tree,
            Wanted::FolderAlone,
            &self.folder,
            name.as_str(),
        )?;
        self.go_to(alloc, tree, page, folder)?;
        Ok(Going::Went)
    }

    /// Goes to another folder, with the cursor on a name there.
    fn change_to<T: ReadTree>(
        &mut self,
        alloc: Global,
        tree: &mut T,
        page: usize,
        folder: Path,
        on: Option<Name>,
    ) -> Result<(), ResolveError>
        requires { page < 2 ^ 16 }
        ensures done { OnOk result (self.new ≡ went_to page folder self.new.listing on self.old) }
        ensures refused { OnErr result (self.new ≡ self.old) }
        ensures answer { IfKnown (T.contents tree.old) (λ log.
            ShowsFolder log folder (outcome result self.new)) }
        ensures same { T.contents tree.new ≡ T.contents tree.old }
        ensures cause { HasCause ResolveError.Fault (T.fault_count tree.old) (T.fault_count tree.new) result }
        ensures counts { T.fault_count tree.new ≡ count_told (T.fault_count tree.old) result }
        ensures carried { IfErr result CarriesCause }
    {
        let found = read_folder(alloc, tree, &folder, &self.wish)?;
        self.visits.leave(alloc, &self.folder)?;
        self.show(page, folder, found, on);
        Ok(())
    }

    /// Reads its folder again, and puts the cursor on a name there.
    fn read_again_at<T: ReadTree>(
        &mut self,
        alloc: Global,
        tree: &mut T,
        page: usize,
        on: Option<Name>,
    ) -> Result<(), ResolveError>
        requires { page < 2 ^ 16 }
        ensures done { OnOk result
            (self.new ≡ with_cursor_on page on (read_again page self.new.listing self.old)) }
        ensures refused { OnErr result (self.new ≡ self.old) }
        ensures answer { IfKnown (T.contents tree.old) (λ log.
            ShowsFolder log self.old.folder (outcome result self.new)) }
        ensures same { T.contents tree.new ≡ T.contents tree.old }
        ensures cause { HasCause ResolveError.Fault (T.fault_count tree.old) (T.fault_count tree.new) result }
        ensures counts { T.fault_count tree.new ≡ count_told (T.fault_count tree.old) result }
        ensures carried { IfErr result CarriesCause }
    {
        self.read_again(alloc, tree, page)?;
        self.put_cursor_on(page, &on);
        Ok(())
    }

    /// Puts the cursor on a name, or else on the first row.
    fn put_cursor_on(&mut self, page: usize, name: &Option<Name>)
        requires { page < 2 ^ 16 }
        ensures { self.new ≡ with_cursor_on page name.now self.old }
    {
        let row = row_from(&self.listing, name, 0);
        self.first = scrolled(rows_shown(self.format.layout(), page), self.first, row);
        self.cursor = row;
    }

    /// Shows another folder: nothing is tagged, and the cursor is on a name, or else on the first
    /// row. It takes no memory.
    fn show(&mut self, page: usize, folder: Path, listing: Listing, on: Option<Name>)
        requires page { page < 2 ^ 16 }
        requires arranged { AreArranged self.old.wish listing.items listing.shown }
        requires small { length (rows_in listing) < 2 ^ 60 }
        ensures { self.new ≡ shown_anew page folder listing on self.old.visits self.old }
    {
        let row = row_from(&listing, &on, 0);
        self.first = scrolled(rows_shown(self.format.layout(), page), 0, row);
        self.cursor = row;
        self.folder = folder;
        self.listing = listing;
        self.tags.untag();
    }
}

/// The folder above; the root is its own.
fn above(alloc: Global, folder: &Path) -> Result<Path, NoMemory>
    ensures { IfOk result (λ path. path ≡ holder folder.now) }
{
    match folder.parent(alloc)? {
        Some(path) => Ok(path),
        None => Ok(Path::root(alloc)),
    }
}

/// The last name of a path. The root has none.
fn last_name(alloc: Global, folder: &Path) -> Result<Option<Name>, NoMemory>
    ensures { IfOk result (λ name. name ≡ last_of folder.now) }
{
    match folder.names() {
        [] => Ok(None),
        [.., last] => Ok(Some(last.copy(alloc)?)),
    }
}
