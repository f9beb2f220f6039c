//! What the answers to the lines lead to.
ghost use Rattle.std.specs.Prelude.{◌≡◌, IfErr};
ghost use Rattle.tree_trait.specs.Answers.{HasCause, IfKnown};
ghost use Rattle.tree_trait.specs.Change.{current};
ghost use Rattle.resolving.specs.declared.walking.Wanted.TheVariants.{AnyThing};
ghost use Rattle.resolving.specs.Errors.{Answers, CarriesCause, count_told};
ghost use Rattle.resolving.specs.Resolution.{resolved_path};
ghost use Rattle.resolving.specs.Homes.{with_home as with_home_of};
ghost use Rattle.ui_find.specs.Listings.{IsBegun};

use crate::listing::Listing;
use find_file::Finder;
use mc_text::{Bytes, Path, Text};
use resolving::{ResolveError, Wanted, resolve, with_home};
use std::alloc::Global;
use std::convert::AsStr;
use tagging::Pattern;
use tree_trait::ReadTree;

/// The thing to which a typed start leads from a folder on, with HOME in place of its tilde.
pub fn start_at<T: ReadTree>(
    alloc: Global,
    tree: &mut T,
    folder: &Path,
    home: &Option<Path>,
    typed: &str,
) -> Result<Path, ResolveError>
    ensures answer { IfKnown (T.contents tree.old) (λ log.
        Answers (resolved_path (current log) AnyThing folder.now (with_home_of home.now typed.now)) result) }
    ensures same { T.contents tree.new ≡ T.contents tree.old }
    ensures cause { HasCause ResolveError.Fault (T.fault_count tree.old) (T.fault_count tree.new) result }
    ensures counts { T.fault_count tree.new ≡ count_told (T.fault_count tree.old) result }
    ensures carried { IfErr result CarriesCause }
{
    match with_home(alloc, home, typed) {
        Ok(text) => resolve(alloc, tree, Wanted::AnyThing, folder, text.as_str()),
        Err(_error) => Err(ResolveError::Memory),
    }
}

/// A search below a start, into its folders, for things of such names that hold a text, where there is
/// one. It takes no memory.
pub fn search_below(
    alloc: Global,
    start: Path,
    name: Pattern,
    content: Text,
    hidden: bool,
) -> Listing
    ensures { IsBegun start name content hidden result }
{
    let content = bytes_of(content);
    let Ok(finder) = Finder::new(alloc, start, name, Some(content), true, hidden) else {
        unreachable!()
    };
    Listing::of(alloc, finder)
}

/// The bytes of a text.
fn bytes_of(text: Text) -> Bytes
    ensures { result ≡ text }
{
    let Text(text) = text;
    Bytes(text.into_bytes())
}
