//! Things are sought: what is asked for, and then what was found.
ghost use Rattle.std.specs.Prelude.{◌≡◌, ◌≤◌, ◌<◌, false, true, is_some, IfOk, OnOk, OnErr};
ghost use Rattle.ui_find.specs.Listings.{IsKept, StepLeads, steps_to_end};
ghost use Rattle.ui_find.specs.FindScreens.{KeyLeads, ReadsTree, looks, opened_find_screen, with_listing};

mod line_keys;
mod list_keys;

use crate::act::FindAct;
use crate::asking::{Asked, Asking, start_line};
use crate::listing::Listing;
use key_screen::Key;
pub use list_keys::page_of;
use mc_text::{NoMemory, Path};
use std::alloc::Global;
use std::marker::Model;
use tagging::PatternKind;
use tree_trait::ReadTree;

/// Things are sought: a line asks for what, and then the found paths are listed while the
/// search goes on step by step.
#[derive(Debug, Drop)]
pub struct FindMode {
    lines: u16,
    folder: Path,
    home: Option<Path>,
    kind: PatternKind,
    hidden: bool,
    asking: Option<Asking>,
    listing: Listing,
}

impl Model for FindMode {
    ghost use Rattle.ui_find.specs.FindScreens.{FindScreen};

    ghost Value = { FindScreen };

    ghost view = { λ m. record {
      lines = m.lines;
      folder = m.folder;
      home = m.home;
      kind = m.kind;
      hidden = m.hidden;
      asking = m.asking;
      listing = m.listing;
    } };
}

impl FindMode {
    /// Asks where to start. A start that is typed leads from a folder on, and its tilde from HOME; patterns
    /// are of a kind; names that begin with a dot are met only with `hidden`.
    pub fn open(
        alloc: Global,
        lines: u16,
        folder: &Path,
        home: &Option<Path>,
        kind: PatternKind,
        hidden: bool,
    ) -> Result<FindMode, NoMemory>
        ensures { IfOk result (λ mode. mode ≡ opened_find_screen lines folder.now home.now kind hidden) }
    {
        let asked = Asked::Start;
        let line = start_line(alloc)?;
        let folder = folder.copy(alloc)?;
        let home = copy_of(alloc, home)?;
        Ok(FindMode {
            lines,
            folder,
            home,
            kind,
            hidden,
            asking: Some(Asking { asked, line }),
            listing: Listing::new(alloc),
        })
    }

    /// Works a key. Only one that answers where to start looks at the tree. Where memory is
    /// wanting all stays as it was.
    pub fn key<T: ReadTree>(
        &mut self,
        alloc: Global,
        tree: &mut T,
        key: Key,
    ) -> Result<FindAct, NoMemory>
        ensures leads { IfOk result (λ act. KeyLeads (T.contents tree.old) key act self.old self.new) }
        ensures still { looks key self.old ≡ false → tree.new ≡ tree.old }
        ensures lost { OnErr result (self.new ≡ self.old) }
        ensures reads { ReadsTree result (T.contents tree.old) (T.contents tree.new) (T.fault_count tree.old)
            (T.fault_count tree.new) }
    {
        match self.asking.take() {
            None => self.key_in_list(alloc, key),
            Some(asking) => self.key_in_line(alloc, tree, asking, key),
        }
    }

    /// Makes one step of the search, if one goes on: at most a look and the read of a file, or a listing.
    /// Where memory is wanting nothing is lost: the next step goes on.
    pub fn step<T: ReadTree>(&mut self, alloc: Global, tree: &mut T) -> Result<(), NoMemory>
        ensures leads { OnOk result
            (StepLeads self.old.listing.search (T.contents tree.old) (T.fault_count tree.old)
            (T.fault_count tree.new) self.old.listing self.new.listing) }
        ensures rest { self.new ≡ with_listing self.new.listing self.old }
        ensures lost { OnErr result
            (self.new.listing ≡ record self.old.listing { search = self.new.listing.search }) }
        ensures kept { IsKept (T.contents tree.old) (T.fault_count tree.old) (T.fault_count tree.new)
            self.old.listing self.new.listing }
        ensures falls { OnOk result (is_some self.old.listing.search ≡ true
            → steps_to_end self.new.listing < steps_to_end self.old.listing) }
        ensures still { is_some self.old.listing.search ≡ false
            → (tree.new ≡ tree.old) × (self.new ≡ self.old) }
        ensures same { T.contents tree.new ≡ T.contents tree.old }
        ensures later { T.fault_count tree.old ≤ T.fault_count tree.new }
    {
        let _folder = &self.folder;
        self.listing.step(alloc, tree)?;
        Ok(())
    }

    /// Whether a search goes on.
    pub fn is_searching(&self) -> bool
        ensures { result ≡ is_some self.now.listing.search }
    {
        self.listing.is_searching()
    }

    /// How many lines the screen has.
    pub fn lines(&self) -> u16
        ensures { result ≡ self.now.lines }
    {
        self.lines
    }

    /// The line that asks.
    pub fn asking(&self) -> &Option<Asking>
        ensures { result.now ≡ self.now.asking }
    {
        &self.asking
    }

    /// The found paths.
    pub fn listing(&self) -> &Listing
        ensures { result.now ≡ self.now.listing }
    {
        &self.listing
    }
}

/// The same path once more, if there is one.
fn copy_of(alloc: Global, path: &Option<Path>) -> Result<Option<Path>, NoMemory>
    ensures { IfOk result (λ copy. copy ≡ path.now) }
{
    match path {
        None => Ok(None),
        Some(path) => Ok(Some(path.copy(alloc)?)),
    }
}
