//! The walk along the components of a text, across at most 40 links.
ghost use Rattle.std.specs.Prelude.{◌≡◌, ◌≢◌, ◌+◌, ◌≤◌, ◌∷◌, ◌++◌, IfOk, IfErr};
ghost use Rattle.tree_trait.specs.Change.{current};
ghost use Rattle.tree_trait.specs.Answers.{IfKnown, HasCause};
ghost use Rattle.resolving.specs.Errors.{Answers, CarriesCause, count_told};
ghost use Rattle.resolving.specs.Resolution.{resolved_path, walk_from, start_of, steps_of};
ghost use Rattle.resolving.specs.Places.{end_of, into_folder, way_of, way_from};

use crate::ahead::Ahead;
use crate::ending::{end_in, end_on};
use crate::error::ResolveError;
use crate::looking::{Step, step_to};
use mc_text::Path;
use std::alloc::Global;
use std::convert::AsStr;
use tree_trait::ReadTree;

/// The most links that a walk follows (POSIX's SYMLOOP_MAX).
const MOST_LINKS: u8 = 40;

/// What a walk may end at.
#[derive(Clone, Copy, Debug)]
pub enum Wanted {
    FolderAlone,
    AnyThing,
}

/// The folder or the thing that a text leads to, from a folder on. Links are followed, the
/// last one too, so it is none.
pub fn resolve<T: ReadTree>(
    alloc: Global,
    tree: &mut T,
    wanted: Wanted,
    from: &Path,
    typed: &str,
) -> Result<Path, ResolveError>
    ensures answer { IfKnown (T.contents tree.old) (λ log.
        Answers (resolved_path (current log) wanted from.now typed.now) result) }
    ensures same { T.contents tree.new ≡ T.contents tree.old }
    ensures cause { HasCause ResolveError.Fault (T.fault_count tree.old) (T.fault_count tree.new) result }
    ensures counts { T.fault_count tree.new ≡ count_told (T.fault_count tree.old) result }
    ensures carried { IfErr result CarriesCause }
{
    let start = begin(alloc, from.copy(alloc)?, typed);
    walk(alloc, tree, wanted, start, typed)
}

/// Where a text begins.
fn begin(alloc: Global, folder: Path, text: &str) -> Path
    ensures { result ≡ start_of folder text.now }
{
    if text.starts_with('/') {
        Path::root(alloc)
    } else {
        folder
    }
}

/// Where a walk is: in a folder, with components ahead, and so many links left that it may follow.
#[derive(Debug, Drop)]
struct Place {
    folder: Path,
    ahead: Ahead,
    links: u8,
}

/// How a walk goes on after a step.
#[derive(Debug, Drop)]
enum Course {
    EndsAt(Path),
    GoesOn(Place),
}

/// Walks from a folder along the components of a text.
fn walk<T: ReadTree>(
    alloc: Global,
    tree: &mut T,
    wanted: Wanted,
    start: Path,
    typed: &str,
) -> Result<Path, ResolveError>
    ensures answer { IfKnown (T.contents tree.old) (λ log.
        Answers (walk_from (current log) wanted MOST_LINKS start (steps_of typed.now)) result) }
    ensures same { T.contents tree.new ≡ T.contents tree.old }
    ensures cause { HasCause ResolveError.Fault (T.fault_count tree.old) (T.fault_count tree.new) result }
    ensures counts { T.fault_count tree.new ≡ count_told (T.fault_count tree.old) result }
    ensures carried { IfErr result CarriesCause }
{
    let mut place = Place {
        folder: start,
        ahead: Ahead::of(alloc, typed)?,
        links: MOST_LINKS,
    };
    'components: while let Some(component) = place.ahead.next() {
        match advance(alloc, tree, wanted, place, component.as_str())? {
            Course::EndsAt(path) => return Ok(path),
            Course::GoesOn(further) => place = further,
        }
    }
    let Place { folder, .. } = place;
    end_in(alloc, tree, wanted, folder)
}

/// Takes the component that was nearest ahead of a place.
fn advance<T: ReadTree>(
    alloc: Global,
    tree: &mut T,
    wanted: Wanted,
    place: Place,
    component: &str,
) -> Result<Course, ResolveError>
    ensures goes { IfKnown (T.contents tree.old) (λ log. IfOk result (λ course.
        walk_from (current log) wanted place.links place.folder (component.now ∷ place.ahead)
        ≡ end_of (current log) wanted course)) }
    ensures refused { IfKnown (T.contents tree.old) (λ log. IfErr result (λ e.
        Answers (walk_from (current log) wanted place.links place.folder (component.now ∷ place.ahead))
        (Err e))) }
    ensures nearer { IfOk result (λ course. way_of course ≤ way_from place) }
    ensures same { T.contents tree.new ≡ T.contents tree.old }
    ensures cause { HasCause ResolveError.Fault (T.fault_count tree.old) (T.fault_count tree.new) result }
    ensures counts { T.fault_count tree.new ≡ count_told (T.fault_count tree.old) result }
    ensures carried { IfErr result CarriesCause }
{
    let Place {
        folder,
        ahead,
        links,
    } = place;
    match step_to(alloc, tree, &folder, component)? {
        Step::Into(folder) => Ok(goes_into(folder, ahead, links)),
        Step::Up(folder) => Ok(Course::GoesOn(Place {
            folder,
            ahead,
            links,
        })),
        Step::Onto(path) => Ok(Course::EndsAt(end_on(wanted, path, ahead.is_empty())?)),
        Step::Across(text) => {
            let place = Place {
                folder,
                ahead,
                links,
            };
            match across(alloc, place, text.as_str()) {
                Ok(further) => Ok(Course::GoesOn(further)),
                Err(error) => Err(error),
            }
        }
    }
}

/// How a walk goes on in a folder that was looked at: it ends there where nothing is
/// ahead, without a second look.
fn goes_into(folder: Path, ahead: Ahead, links: u8) -> Course
    ensures { result ≡ into_folder folder ahead links }
{
    if ahead.is_empty() {
        return Course::EndsAt(folder);
    }
    Course::GoesOn(Place {
        folder,
        ahead,
        links,
    })
}

/// Follows a link with this text, whose folder the place is in.
fn across(alloc: Global, place: Place, text: &str) -> Result<Place, ResolveError>
    ensures begins { IfOk result (λ after. after.folder ≡ start_of place.folder text.now) }
    ensures ahead { IfOk result (λ after. after.ahead ≡ steps_of text.now ++ place.ahead) }
    ensures links { IfOk result (λ after. after.links + 1 ≡ place.links) }
    ensures refused { IfErr result (λ e.
        e ≢ ResolveError.Memory → (e ≡ ResolveError.TooManyLinks) × (place.links ≡ 0)) }
{
    let Place {
        folder,
        mut ahead,
        links,
    } = place;
    if links == 0 {
        return Err(ResolveError::TooManyLinks);
    }
    ahead.prefix(alloc, text)?;
    Ok(Place {
        folder: begin(alloc, folder, text),
        ahead,
        links: links - 1,
    })
}
