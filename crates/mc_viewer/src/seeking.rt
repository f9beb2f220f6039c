//! Where a search leads.
ghost use Rattle.std.specs.Prelude.{◌≡◌, ◌≢◌, ◌≤◌, ◌^◌, None, Ok, Err, IfOk, IfErr, true};
ghost use Rattle.tree_trait.specs.Answers.{IfKnown, HasCause};
ghost use Rattle.mc_viewer.specs.Viewing.{held_bytes, IfHeld, IfRead, IsReadable};
ghost use Rattle.mc_viewer.specs.Viewing.{IsReadError, AsTheTreeSays, is_output};
ghost use Rattle.mc_viewer.specs.ViewerSteps.{to_byte};
ghost use Rattle.mc_viewer.specs.Searches.{sought_place, start_from, first_from, next_from};
ghost use Rattle.mc_viewer.specs.Searches.{landing, hit_landing, IsMissed, IsSearchError};

use crate::error::ViewError;
use crate::layout::{Layout, Shape};
use crate::lines::line_end;
use crate::reading::size_of;
use crate::search::{Hit, Landing, Search};
use crate::state::{State, layout_of, with_top};
use crate::subject::Subject;
use crate::walking::row_holding;
use crate::window::sought;
use std::alloc::Global;
use text_search::Sought;
use tree_trait::{ReadTree, TreeError};

/// Where a search from the top leads.
#[tactic(auto, using(crate::proofs::SeekLemmas::readings))]
pub fn first_landing<T: ReadTree>(
    alloc: Global,
    tree: &mut T,
    subject: &Subject,
    state: State,
    what: &Search,
) -> Result<Landing, ViewError>
    requires wide { 1 ≤ state.columns }
    ensures shown { IfKnown (held_bytes (T.contents tree.old) subject.now) (λ bytes.
        IfOk result (λ l. landing what.now bytes state (first_from bytes state what.now) ≡ Ok l)) }
    ensures missed { IfKnown (held_bytes (T.contents tree.old) subject.now) (λ bytes.
        IfErr result (IsMissed (landing what.now bytes state (first_from bytes state what.now)))) }
    ensures columns { IfOk result (λ l. l.state.columns ≡ state.columns) }
    ensures readable { IfKnown (T.contents tree.old) (λ log. IfRead result (IsReadable log subject.now)) }
    ensures refused { IfKnown (T.contents tree.old) (λ log. IfErr result (AsTheTreeSays log subject.now)) }
    ensures kinds { IfErr result IsSearchError }
    ensures same { T.contents tree.new ≡ T.contents tree.old }
    ensures apart { is_output subject.now ≡ true → tree.new ≡ tree.old }
    ensures cause { HasCause (ViewError.Tree TreeError.Fault) (T.fault_count tree.old)
        (T.fault_count tree.new) result }
{
    let size = size_of(alloc, tree, subject)?;
    let layout = layout_of(state);
    let top = row_holding(alloc, tree, subject, layout, size, state.top)?;
    let from = search_start(alloc, tree, subject, state.columns, size, what, top)?;
    land(alloc, tree, subject, state, size, what, from)
}

/// Where a search begins: at the top, one over lines where the line of the top begins.
fn search_start<T: ReadTree>(
    alloc: Global,
    tree: &mut T,
    subject: &Subject,
    columns: u16,
    size: u64,
    what: &Search,
    top: u64,
) -> Result<u64, ViewError>
    requires small { size ≤ 2 ^ 63 }
    requires wide { 1 ≤ columns }
    ensures shown { IfHeld (T.contents tree.old) subject.now size (λ bytes.
        IfOk result (λ from. from ≡ start_from bytes columns what.now top)) }
    ensures refused { IfKnown (T.contents tree.old) (λ log. IfErr result (AsTheTreeSays log subject.now)) }
    ensures kinds { IfErr result IsReadError }
    ensures same { T.contents tree.new ≡ T.contents tree.old }
    ensures apart { is_output subject.now ≡ true → tree.new ≡ tree.old }
    ensures cause { HasCause (ViewError.Tree TreeError.Fault) (T.fault_count tree.old)
        (T.fault_count tree.new) result }
{
    match what {
        Search::Plain(_) => Ok(top),
        Search::Regex(_) => row_holding(alloc, tree, subject, lines_of(columns), size, top),
    }
}

/// Lines in one row each.
fn lines_of(columns: u16) -> Layout
    ensures { result ≡ record { shape = Shape.Unwrapped; columns = columns; left = 0 } }
{
    Layout {
        shape: Shape::Unwrapped,
        columns,
        left: 0,
    }
}

/// Where a search behind what was found last leads.
#[tactic(auto, using(crate::proofs::SeekLemmas::readings))]
pub fn next_landing<T: ReadTree>(
    alloc: Global,
    tree: &mut T,
    subject: &Subject,
    state: State,
    last: &Option<Hit>,
) -> Result<Landing, ViewError>
    requires wide { 1 ≤ state.columns }
    ensures shown { IfKnown (held_bytes (T.contents tree.old) subject.now) (λ bytes.
        IfOk result (λ l. hit_landing bytes state last.now ≡ Ok l)) }
    ensures missed { IfKnown (held_bytes (T.contents tree.old) subject.now) (λ bytes.
        IfErr result (IsMissed (hit_landing bytes state last.now))) }
    ensures columns { IfOk result (λ l. l.state.columns ≡ state.columns) }
    ensures unsought { last.now ≡ None → (result ≡ Err ViewError.NotFound) × (tree.new ≡ tree.old) }
    ensures readable { IfKnown (T.contents tree.old) (λ log.
        IfRead result (last.now ≢ None → IsReadable log subject.now)) }
    ensures refused { IfKnown (T.contents tree.old) (λ log. IfErr result (AsTheTreeSays log subject.now)) }
    ensures kinds { IfErr result IsSearchError }
    ensures same { T.contents tree.new ≡ T.contents tree.old }
    ensures apart { is_output subject.now ≡ true → tree.new ≡ tree.old }
    ensures cause { HasCause (ViewError.Tree TreeError.Fault) (T.fault_count tree.old)
        (T.fault_count tree.new) result }
{
    let Some(hit) = last else {
        return Err(ViewError::NotFound);
    };
    let size = size_of(alloc, tree, subject)?;
    let from = behind(alloc, tree, subject, size, &hit.what, hit.place)?;
    land(alloc, tree, subject, state, size, &hit.what, from)
}

/// Where the next search begins: behind the place that was found, one over lines behind the line of that.
/// Behind the end there is nothing more.
fn behind<T: ReadTree>(
    alloc: Global,
    tree: &mut T,
    subject: &Subject,
    size: u64,
    what: &Search,
    place: u64,
) -> Result<u64, ViewError>
    requires small { size ≤ 2 ^ 63 }
    ensures shown { IfHeld (T.contents tree.old) subject.now size (λ bytes.
        IfOk result (λ from.
        sought_place what.now bytes from ≡ sought_place what.now bytes (next_from bytes what.now place))) }
    ensures refused { IfKnown (T.contents tree.old) (λ log. IfErr result (AsTheTreeSays log subject.now)) }
    ensures kinds { IfErr result IsReadError }
    ensures same { T.contents tree.new ≡ T.contents tree.old }
    ensures apart { is_output subject.now ≡ true → tree.new ≡ tree.old }
    ensures cause { HasCause (ViewError.Tree TreeError.Fault) (T.fault_count tree.old)
        (T.fault_count tree.new) result }
{
    if place >= size {
        return Ok(size);
    }
    match what {
        Search::Plain(_) => Ok(place + 1),
        Search::Regex(_) => line_end(alloc, tree, subject, size, place),
    }
}

/// Where a search from a place on leads.
#[tactic(auto, using(crate::proofs::SeekLemmas::missed_unread, crate::proofs::SeekLemmas::read_error_search))]
fn land<T: ReadTree>(
    alloc: Global,
    tree: &mut T,
    subject: &Subject,
    state: State,
    size: u64,
    what: &Search,
    from: u64,
) -> Result<Landing, ViewError>
    requires small { size ≤ 2 ^ 63 }
    requires wide { 1 ≤ state.columns }
    ensures shown { IfHeld (T.contents tree.old) subject.now size (λ bytes.
        IfOk result (λ l. landing what.now bytes state from ≡ Ok l)) }
    ensures missed { IfHeld (T.contents tree.old) subject.now size (λ bytes.
        IfErr result (IsMissed (landing what.now bytes state from))) }
    ensures columns { IfOk result (λ l. l.state.columns ≡ state.columns) }
    ensures refused { IfKnown (T.contents tree.old) (λ log. IfErr result (AsTheTreeSays log subject.now)) }
    ensures kinds { IfErr result IsSearchError }
    ensures same { T.contents tree.new ≡ T.contents tree.old }
    ensures apart { is_output subject.now ≡ true → tree.new ≡ tree.old }
    ensures cause { HasCause (ViewError.Tree TreeError.Fault) (T.fault_count tree.old)
        (T.fault_count tree.new) result }
{
    match sought(alloc, tree, subject, size, what, from)? {
        Sought::At(place) => landed(alloc, tree, subject, state, size, place),
        Sought::Nowhere => Err(ViewError::NotFound),
        Sought::TooLong(line) => Err(ViewError::LineTooLong(line)),
        Sought::NoPattern => Err(ViewError::BadPattern),
    }
}

/// The row that holds the place is the top.
fn landed<T: ReadTree>(
    alloc: Global,
    tree: &mut T,
    subject: &Subject,
    state: State,
    size: u64,
    place: u64,
) -> Result<Landing, ViewError>
    requires small { size ≤ 2 ^ 63 }
    requires wide { 1 ≤ state.columns }
    ensures shown { IfHeld (T.contents tree.old) subject.now size (λ bytes.
        IfOk result (λ l. l ≡ record { state = to_byte bytes state place; place = place })) }
    ensures columns { IfOk result (λ l. l.state.columns ≡ state.columns) }
    ensures refused { IfKnown (T.contents tree.old) (λ log. IfErr result (AsTheTreeSays log subject.now)) }
    ensures kinds { IfErr result IsReadError }
    ensures same { T.contents tree.new ≡ T.contents tree.old }
    ensures apart { is_output subject.now ≡ true → tree.new ≡ tree.old }
    ensures cause { HasCause (ViewError.Tree TreeError.Fault) (T.fault_count tree.old)
        (T.fault_count tree.new) result }
{
    let layout = layout_of(state);
    let top = row_holding(alloc, tree, subject, layout, size, place)?;
    Ok(Landing {
        state: with_top(state, top),
        place,
    })
}
