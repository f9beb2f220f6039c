//! Steps and searches with the page behind them: a viewer goes nowhere where it can't show what is there.
ghost use Rattle.std.specs.Prelude.{◌≡◌, ◌≢◌, ◌≤◌, None, Ok, IfOk, IfErr, OnOk, OnErr, true};
ghost use Rattle.tree_trait.specs.Answers.{IfKnown, HasCause};
ghost use Rattle.mc_viewer.specs.Viewing.{held_bytes, IfRead, IsReadable};
ghost use Rattle.mc_viewer.specs.Viewing.{IsReadError, AsTheTreeSays, is_output};
ghost use Rattle.mc_viewer.specs.Searches.{after_search, after_next, IsMissed, IsSearchError};
ghost use Rattle.mc_viewer.specs.ViewerSteps.{page_of, after_step};

use super::{Viewer, moved_on};
use crate::error::ViewError;
use crate::moves::moved;
use crate::pages::page_rows;
use crate::search::{Hit, Search};
use crate::seeking::{first_landing, next_landing};
use crate::state::{State, ViewStep, layout_of, page_lines};
use crate::subject::Subject;
use mc_text::Rows;
use std::alloc::Global;
use tree_trait::{ReadTree, TreeError};

impl Viewer {
    /// What is viewed.
    pub fn subject(&self) -> &Subject
        ensures { result.now ≡ self.now.subject }
    {
        &self.subject
    }

    /// Whether it shows rows in hexadecimal.
    pub fn is_hex(&self) -> bool
        ensures { result ≡ self.now.state.is_hex }
    {
        self.state.is_hex
    }

    /// Makes a step, and gives the rows that are shown then. Where one of the two is refused
    /// it stays where it stood.
    pub fn step_to_page<T: ReadTree>(
        &mut self,
        alloc: Global,
        tree: &mut T,
        step: ViewStep,
    ) -> Result<Rows, ViewError>
        ensures done { IfKnown (held_bytes (T.contents tree.old) self.old.subject) (λ bytes.
            OnOk result (self.new ≡ record self.old { state = after_step bytes step self.old.state })) }
        ensures shown { IfKnown (held_bytes (T.contents tree.old) self.old.subject) (λ bytes.
            IfOk result (λ rows. rows ≡ page_of bytes self.new.state)) }
        ensures subject { self.new.subject ≡ self.old.subject }
        ensures last { self.new.last ≡ self.old.last }
        ensures stays { OnErr result (self.new ≡ self.old) }
        ensures readable { IfKnown (T.contents tree.old) (λ log.
            IfOk result (λ _. IsReadable log self.old.subject)) }
        ensures refused { IfKnown (T.contents tree.old) (λ log.
            IfErr result (AsTheTreeSays log self.old.subject)) }
        ensures kinds { IfErr result IsReadError }
        ensures same { T.contents tree.new ≡ T.contents tree.old }
        ensures apart { is_output self.old.subject ≡ true → tree.new ≡ tree.old }
        ensures cause { HasCause (ViewError.Tree TreeError.Fault) (T.fault_count tree.old)
            (T.fault_count tree.new) result }
    {
        let state = moved(alloc, tree, &self.subject, self.state, step)?;
        let rows = page_at(alloc, tree, &self.subject, state)?;
        self.state = state;
        Ok(rows)
    }

    /// Searches from the top on, and gives the rows that are shown then. Where one of the two fails it
    /// stays where it stood, and what was found before is still the last.
    #[tactic(auto, using(crate::proofs::SeekLemmas::readings))]
    pub fn search_to_page<T: ReadTree>(
        &mut self,
        alloc: Global,
        tree: &mut T,
        what: Search,
    ) -> Result<Rows, ViewError>
        ensures found { IfKnown (held_bytes (T.contents tree.old) self.old.subject) (λ bytes.
            OnOk result (after_search bytes what self.old ≡ Ok self.new)) }
        ensures missed { IfKnown (held_bytes (T.contents tree.old) self.old.subject) (λ bytes.
            IfErr result (IsMissed (after_search bytes what self.old))) }
        ensures shown { IfKnown (held_bytes (T.contents tree.old) self.old.subject) (λ bytes.
            IfOk result (λ rows. rows ≡ page_of bytes self.new.state)) }
        ensures subject { self.new.subject ≡ self.old.subject }
        ensures stays { OnErr result (self.new ≡ self.old) }
        ensures readable { IfKnown (T.contents tree.old) (λ log.
            IfRead result (IsReadable log self.old.subject)) }
        ensures refused { IfKnown (T.contents tree.old) (λ log.
            IfErr result (AsTheTreeSays log self.old.subject)) }
        ensures kinds { IfErr result IsSearchError }
        ensures same { T.contents tree.new ≡ T.contents tree.old }
        ensures apart { is_output self.old.subject ≡ true → tree.new ≡ tree.old }
        ensures cause { HasCause (ViewError.Tree TreeError.Fault) (T.fault_count tree.old)
            (T.fault_count tree.new) result }
    {
        let landing = first_landing(alloc, tree, &self.subject, self.state, &what)?;
        let rows = page_at(alloc, tree, &self.subject, landing.state)?;
        self.state = landing.state;
        self.last = Some(Hit {
            what,
            place: landing.place,
        });
        Ok(rows)
    }

    /// Searches once more, behind what was found last, and gives the rows that are shown then. Where one of
    /// the two fails it stays as it was. Before any search nothing is found, and nothing is looked at.
    #[tactic(auto, using(crate::proofs::SeekLemmas::readings))]
    pub fn next_to_page<T: ReadTree>(
        &mut self,
        alloc: Global,
        tree: &mut T,
    ) -> Result<Rows, ViewError>
        ensures found { IfKnown (held_bytes (T.contents tree.old) self.old.subject) (λ bytes.
            OnOk result (after_next bytes self.old ≡ Ok self.new)) }
        ensures missed { IfKnown (held_bytes (T.contents tree.old) self.old.subject) (λ bytes.
            IfErr result (IsMissed (after_next bytes self.old))) }
        ensures shown { IfKnown (held_bytes (T.contents tree.old) self.old.subject) (λ bytes.
            IfOk result (λ rows. rows ≡ page_of bytes self.new.state)) }
        ensures subject { self.new.subject ≡ self.old.subject }
        ensures stays { OnErr result (self.new ≡ self.old) }
        ensures unsought { self.old.last ≡ None → (result ≡ Err ViewError.NotFound) × (tree.new ≡ tree.old) }
        ensures readable { IfKnown (T.contents tree.old) (λ log.
            IfRead result (self.old.last ≢ None → IsReadable log self.old.subject)) }
        ensures refused { IfKnown (T.contents tree.old) (λ log.
            IfErr result (AsTheTreeSays log self.old.subject)) }
        ensures kinds { IfErr result IsSearchError }
        ensures same { T.contents tree.new ≡ T.contents tree.old }
        ensures apart { is_output self.old.subject ≡ true → tree.new ≡ tree.old }
        ensures cause { HasCause (ViewError.Tree TreeError.Fault) (T.fault_count tree.old)
            (T.fault_count tree.new) result }
    {
        let landing = next_landing(alloc, tree, &self.subject, self.state, &self.last)?;
        let rows = page_at(alloc, tree, &self.subject, landing.state)?;
        self.state = landing.state;
        self.last = moved_on(self.last.take(), landing.place);
        Ok(rows)
    }
}

/// The rows that are shown where a viewer stands so.
fn page_at<T: ReadTree>(
    alloc: Global,
    tree: &mut T,
    subject: &Subject,
    state: State,
) -> Result<Rows, ViewError>
    requires wide { 1 ≤ state.columns }
    ensures shown { IfKnown (held_bytes (T.contents tree.old) subject.now) (λ bytes.
        IfOk result (λ rows. rows ≡ page_of bytes state)) }
    ensures readable { IfKnown (T.contents tree.old) (λ log. IfOk result (λ _. IsReadable log subject.now)) }
    ensures refused { IfKnown (T.contents tree.old) (λ log. IfErr result (AsTheTreeSays log subject.now)) }
    ensures kinds { IfErr result IsReadError }
    ensures same { T.contents tree.new ≡ T.contents tree.old }
    ensures apart { is_output subject.now ≡ true → tree.new ≡ tree.old }
    ensures cause { HasCause (ViewError.Tree TreeError.Fault) (T.fault_count tree.old)
        (T.fault_count tree.new) result }
{
    page_rows(
        alloc,
        tree,
        subject,
        layout_of(state),
        page_lines(state),
        state.top,
    )
}
