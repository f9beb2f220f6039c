//! A viewer of a file or an output.
ghost use Rattle.std.specs.Prelude.{◌≡◌, ◌≢◌, ◌≤◌, None, Ok, Err, IsOk, IfOk, IfErr, OnOk, OnErr, true};
ghost use Rattle.tree_trait.specs.Answers.{IfKnown, HasCause};
ghost use Rattle.mc_viewer.specs.Viewing.{held_bytes, IfRead, IsReadable};
ghost use Rattle.mc_viewer.specs.Viewing.{IsReadError, AsTheTreeSays, is_output};
ghost use Rattle.mc_viewer.specs.Searches.{after_search, after_next, moved_on, IsMissed, IsSearchError};
ghost use Rattle.mc_viewer.specs.ViewerSteps.{begun_viewing, page_of, after_step, NeedsNoLook};

mod showing;

use crate::error::ViewError;
use crate::moves::moved;
use crate::pages::page_rows;
use crate::reading::size_of;
use crate::search::{Hit, Search};
use crate::seeking::{first_landing, next_landing};
use crate::state::{State, ViewStep, layout_of, page_lines};
use crate::subject::Subject;
use mc_text::Rows;
use std::alloc::Global;
use std::marker::Model;
use tree_trait::{ReadTree, TreeError};

/// A viewer. It keeps none of what it shows: each call reads what it needs, as it stands then. Contracts
/// see what is viewed, and where the viewer stands, and what was found last.
#[derive(Debug, Drop)]
pub struct Viewer {
    subject: Subject,
    state: State,
    last: Option<Hit>,
}

impl Model for Viewer {
    ghost use Rattle.std.specs.Prelude.{◌≤◌};
    ghost use Rattle.mc_viewer.specs.ViewerSteps.{Viewing};

    ghost Value = { Viewing };

    ghost view = { λ v. record { subject = v.subject; state = v.state; last = v.last } };

    ghost invariant = { λ v. 1 ≤ v.state.columns };
}

impl Viewer {
    /// Begins at the top, with lines wrapped. What can't be read is refused.
    pub fn start<T: ReadTree>(
        alloc: Global,
        tree: &mut T,
        subject: Subject,
        lines: u16,
        columns: u16,
    ) -> Result<Viewer, ViewError>
        requires wide { 1 ≤ columns }
        ensures begun { IfOk result (λ viewer. viewer ≡ begun_viewing subject lines columns) }
        ensures readable { IfKnown (T.contents tree.old) (λ log. IfOk result (λ _. IsReadable log subject)) }
        ensures refused { IfKnown (T.contents tree.old) (λ log. IfErr result (AsTheTreeSays log subject)) }
        ensures kinds { IfErr result IsReadError }
        ensures same { T.contents tree.new ≡ T.contents tree.old }
        ensures apart { is_output subject ≡ true → tree.new ≡ tree.old }
        ensures cause { HasCause (ViewError.Tree TreeError.Fault) (T.fault_count tree.old)
            (T.fault_count tree.new) result }
    {
        size_of(alloc, tree, &subject)?;
        let state = State {
            lines,
            columns,
            wraps: true,
            is_hex: false,
            left: 0,
            top: 0,
        };
        Ok(Viewer {
            subject,
            state,
            last: None,
        })
    }

    /// The rows that are shown.
    pub fn page<T: ReadTree>(&self, alloc: Global, tree: &mut T) -> Result<Rows, ViewError>
        ensures shown { IfKnown (held_bytes (T.contents tree.old) self.now.subject) (λ bytes.
            IfOk result (λ rows. rows ≡ page_of bytes self.now.state)) }
        ensures readable { IfKnown (T.contents tree.old) (λ log.
            IfOk result (λ _. IsReadable log self.now.subject)) }
        ensures refused { IfKnown (T.contents tree.old) (λ log.
            IfErr result (AsTheTreeSays log self.now.subject)) }
        ensures kinds { IfErr result IsReadError }
        ensures same { T.contents tree.new ≡ T.contents tree.old }
        ensures apart { is_output self.now.subject ≡ true → tree.new ≡ tree.old }
        ensures cause { HasCause (ViewError.Tree TreeError.Fault) (T.fault_count tree.old)
            (T.fault_count tree.new) result }
    {
        page_rows(
            alloc,
            tree,
            &self.subject,
            layout_of(self.state),
            page_lines(self.state),
            self.state.top,
        )
    }

    /// Makes a step. A refused one leaves the viewer where it stood; one that needs no look makes none.
    pub fn go<T: ReadTree>(
        &mut self,
        alloc: Global,
        tree: &mut T,
        step: ViewStep,
    ) -> Result<(), ViewError>
        ensures done { IfKnown (held_bytes (T.contents tree.old) self.old.subject) (λ bytes.
            OnOk result (self.new.state ≡ after_step bytes step self.old.state)) }
        ensures subject { self.new.subject ≡ self.old.subject }
        ensures last { self.new.last ≡ self.old.last }
        ensures stays { OnErr result (self.new ≡ self.old) }
        ensures still { NeedsNoLook step → IsOk result × (tree.new ≡ tree.old) }
        ensures refused { IfKnown (T.contents tree.old) (λ log.
            IfErr result (AsTheTreeSays log self.old.subject)) }
        ensures kinds { IfErr result IsReadError }
        ensures same { T.contents tree.new ≡ T.contents tree.old }
        ensures apart { is_output self.old.subject ≡ true → tree.new ≡ tree.old }
        ensures cause { HasCause (ViewError.Tree TreeError.Fault) (T.fault_count tree.old)
            (T.fault_count tree.new) result }
    {
        let state = moved(alloc, tree, &self.subject, self.state, step)?;
        self.state = state;
        Ok(())
    }

    /// Searches from the top on. What can't be read is refused before anything is sought. A search that
    /// fails leaves the viewer where it stood, and what was found before is still the last.
    pub fn search<T: ReadTree>(
        &mut self,
        alloc: Global,
        tree: &mut T,
        what: Search,
    ) -> Result<(), ViewError>
        ensures found { IfKnown (held_bytes (T.contents tree.old) self.old.subject) (λ bytes.
            OnOk result (after_search bytes what self.old ≡ Ok self.new)) }
        ensures missed { IfKnown (held_bytes (T.contents tree.old) self.old.subject) (λ bytes.
            IfErr result (IsMissed (after_search bytes what self.old))) }
        ensures subject { self.new.subject ≡ self.old.subject }
        ensures stays { OnErr result (self.new ≡ self.old) }
        ensures readable { IfKnown (T.contents tree.old) (λ log.
            IfRead result (IsReadable log self.old.subject)) }
        ensures refused { IfKnown (T.contents tree.old) (λ log.
            IfErr result (AsTheTreeSays log self.old.subject)) }
        ensures kinds { IfErr result IsSearchError }
        ensures same { T.contents tree.new ≡ T.contents tree.old }
        ensures apart { is_output self.old.subject ≡ true → tree.new ≡ tree.old }
        ensures cause { HasCause (ViewError.Tree TreeError.Fault) (T.fault_count tree.old)
            (T.fault_count tree.new) result }
    {
        let landing = first_landing(alloc, tree, &self.subject, self.state, &what)?;
        self.state = landing.state;
        self.last = Some(Hit {
            what,
            place: landing.place,
        });
        Ok(())
    }

    /// Searches once more, behind what was found last. Before that nothing is found,
    /// and nothing is looked at.
    pub fn next<T: ReadTree>(&mut self, alloc: Global, tree: &mut T) -> Result<(), ViewError>
        ensures found { IfKnown (held_bytes (T.contents tree.old) self.old.subject) (λ bytes.
            OnOk result (after_next bytes self.old ≡ Ok self.new)) }
        ensures missed { IfKnown (held_bytes (T.contents tree.old) self.old.subject) (λ bytes.
            IfErr result (IsMissed (after_next bytes self.old))) }
        ensures subject { self.new.subject ≡ self.old.subject }
        ensures stays { OnErr result (self.new ≡ self.old) }
        ensures unsought { self.old.last ≡ None → (result ≡ Err ViewError.NotFound) × (tree.new ≡ tree.old) }
        ensures readable { IfKnown (T.contents tree.old) (λ log.
            IfRead result (self.old.last ≢ None → IsReadable log self.old.subject)) }
        ensures refused { IfKnown (T.contents tree.old) (λ log.
            IfErr result (AsTheTreeSays log self.old.subject)) }
        ensures kinds { IfErr result IsSearchError }
        ensures same { T.contents tree.new ≡ T.contents tree.old }
        ensures apart { is_output self.old.subject ≡ true → tree.new ≡ tree.old }
        ensures cause { HasCause (ViewError.Tree TreeError.Fault) (T.fault_count tree.old)
            (T.fault_count tree.new) result }
    {
        let landing = next_landing(alloc, tree, &self.subject, self.state, &self.last)?;
        self.state = landing.state;
        self.last = moved_on(self.last.take(), landing.place);
        Ok(())
    }
}

/// What was found last, at another place.
fn moved_on(last: Option<Hit>, place: u64) -> Option<Hit>
    ensures { result ≡ moved_on last place }
{
    match last {
        Some(hit) => Some(Hit {
            what: hit.what,
            place,
        }),
        None => None,
    }
}
