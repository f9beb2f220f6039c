//! Reading the folder of a panel.
ghost use Rattle.std.specs.Prelude.{◌≡◌, ◌<◌, ◌^◌, ◌⊎◌, [], length, None, IfOk, IfErr, OnOk, OnErr};
ghost use Rattle.tree_trait.specs.Answers.{IfKnown, HasCause};
ghost use Rattle.resolving.specs.Errors.{CarriesCause, count_told, refused_by};
ghost use Rattle.panel_listing.specs.Orders.{AreArranged};
ghost use Rattle.panel_listing.specs.Listings.{nothing_listed, rows_in};
ghost use Rattle.panel_state.specs.Readings.{ListsFolder, ShowsFolder, outcome};
ghost use Rattle.panel_state.specs.Readings.{first_wish, opened_panel, read_again};

use crate::format::PanelFormat;
use crate::panel::Panel;
use crate::searching::count_rows;
use crate::visits::Visits;
use mc_text::{NoMemory, Path};
use panel_listing::{Listing, Order, Wish, read_listing};
use resolving::ResolveError;
use std::alloc::Global;
use tagging::Tags;
use tree_trait::{ReadTree, TreeError};

impl Panel {
    /// The panel of a folder, whose path has no links: by name, hidden names too, without a filter, in the
    /// full format, the cursor on the first row.
    pub fn open<T: ReadTree>(
        alloc: Global,
        tree: &mut T,
        folder: Path,
    ) -> Result<Panel, ResolveError>
        ensures opened { IfOk result (λ panel. panel ≡ opened_panel folder panel.listing) }
        ensures answer { IfKnown (T.contents tree.old) (λ log. ShowsFolder log folder result) }
        ensures same { T.contents tree.new ≡ T.contents tree.old }
        ensures cause { HasCause ResolveError.Fault (T.fault_count tree.old) (T.fault_count tree.new) result }
        ensures counts { T.fault_count tree.new ≡ count_told (T.fault_count tree.old) result }
        ensures carried { IfErr result CarriesCause }
    {
        let wish = first_wish();
        let format = PanelFormat::full(alloc)?;
        let listing = read_folder(alloc, tree, &folder, &wish)?;
        Ok(Panel {
            folder,
            listing,
            wish,
            format,
            tags: Tags::new(alloc),
            cursor: 0,
            first: 0,
            visits: Visits::new(alloc),
        })
    }

    /// The panel of the root before that is read: it shows nothing.
    pub fn unread(alloc: Global) -> Result<Panel, NoMemory>
        ensures { IfOk result (λ panel. panel ≡ opened_panel [] nothing_listed) }
    {
        let format = PanelFormat::full(alloc)?;
        Ok(Panel {
            folder: Path::root(alloc),
            listing: Listing::nothing(alloc),
            wish: first_wish(),
            format,
            tags: Tags::new(alloc),
            cursor: 0,
            first: 0,
            visits: Visits::new(alloc),
        })
    }

    /// Reads its folder again. The cursor stays on its name, or else on its row; tags stay on
    /// names that are still there.
    pub fn read_again<T: ReadTree>(
        &mut self,
        alloc: Global,
        tree: &mut T,
        page: usize,
    ) -> Result<(), ResolveError>
        requires { page < 2 ^ 16 }
        ensures done { OnOk result (self.new ≡ read_again page self.new.listing self.old) }
        ensures refused { OnErr result (self.new ≡ self.old) }
        ensures answer { IfKnown (T.contents tree.old) (λ log.
            ShowsFolder log self.old.folder (outcome result self.new)) }
        ensures same { T.contents tree.new ≡ T.contents tree.old }
        ensures cause { HasCause ResolveError.Fault (T.fault_count tree.old) (T.fault_count tree.new) result }
        ensures counts { T.fault_count tree.new ≡ count_told (T.fault_count tree.old) result }
        ensures carried { IfErr result CarriesCause }
    {
        let fresh = self.read_fresh(alloc, tree)?;
        self.take(page, fresh);
        Ok(())
    }
}

/// What panels show at first.
fn first_wish() -> Wish
    ensures { result ≡ first_wish }
{
    Wish {
        order: Order::Name,
        reverse: false,
        hidden: true,
        filter: None,
    }
}

/// Reads a folder. What is refused is told with the folder's path.
pub fn read_folder<T: ReadTree>(
    alloc: Global,
    tree: &mut T,
    folder: &Path,
    wish: &Wish,
) -> Result<Listing, ResolveError>
    ensures answer { IfKnown (T.contents tree.old) (λ log. ListsFolder log folder.now result) }
    ensures arranged { IfOk result (λ listing. AreArranged wish.now listing.items listing.shown) }
    ensures small { IfOk result (λ listing. length (rows_in listing) < 2 ^ 60) }
    ensures same { T.contents tree.new ≡ T.contents tree.old }
    ensures cause { HasCause ResolveError.Fault (T.fault_count tree.old) (T.fault_count tree.new) result }
    ensures counts { T.fault_count tree.new ≡ count_told (T.fault_count tree.old) result }
    ensures carried { IfErr result CarriesCause }
{
    match read_listing(alloc, tree, folder, wish) {
        Ok(listing) => {
            let _ = count_rows(&listing, wish);
            Ok(listing)
        }
        Err(error) => Err(refused(alloc, folder, error)),
    }
}

/// What a refused call at a path is told as.
fn refused(alloc: Global, path: &Path, error: TreeError) -> ResolveError
    ensures told { (result ≡ ResolveError.Memory) ⊎ (result ≡ refused_by path.now error) }
    ensures fault { error ≡ TreeError.Fault → result ≡ ResolveError.Fault }
{
    match error {
        TreeError::Fault => ResolveError::Fault,
        TreeError::Memory => ResolveError::Memory,
        error => match path.copy(alloc) {
            Ok(path) => ResolveError::Tree(path, error),
            Err(NoMemory) => ResolveError::Memory,
        },
    }
}
