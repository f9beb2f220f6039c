//! The list of the found paths, and the search that goes on beside it.
ghost use Rattle.std.specs.Prelude.{◌≡◌, ◌≤◌, ◌<◌, ◌^◌, ◌||◌, is_some, true, None, Some, OnOk, OnErr};
ghost use Rattle.std.specs.Option.{option_map};
ghost use Rattle.ui_find.specs.Listings.{IsKept, StepLeads, begun_search, chosen_path};
ghost use Rattle.ui_find.specs.Listings.{moved_by, no_listing, steps_to_end, stopped_search};

use crate::findings::{Course, Findings};
use find_file::Finder;
use key_screen::Base;
use mc_dialogs::{moved, scrolled};
use mc_text::{NoMemory, Path};
use std::alloc::Global;
use std::marker::Model;
use tree_trait::ReadTree;

/// The found paths, of which one is current, the search that goes on, if one does, and whether a key stopped
/// it.
#[derive(Debug, Drop)]
pub struct Listing {
    search: Option<Finder>,
    is_stopped: bool,
    findings: Findings,
    current: usize,
    first: usize,
}

impl Model for Listing {
    ghost use Rattle.std.specs.Prelude.{◌≤◌, ◌-◌, length};
    ghost use Rattle.ui_find.specs.Listings.{ListingState};

    ghost Value = { ListingState };

    ghost view = { λ l. record {
      search = l.search;
      stopped = l.is_stopped;
      findings = l.findings;
      current = l.current;
      first = l.first;
    } };

    ghost invariant = { λ l. (l.current ≤ 10000) × (l.first ≤ 10001) };
}

impl Listing {
    /// Nothing is sought yet. It takes no memory.
    pub fn new(alloc: Global) -> Listing
        ensures { result ≡ no_listing }
    {
        Listing {
            search: None,
            is_stopped: false,
            findings: Findings::new(alloc),
            current: 0,
            first: 0,
        }
    }

    /// A search begins. It takes no memory.
    pub fn of(alloc: Global, finder: Finder) -> Listing
        ensures { result ≡ begun_search finder }
    {
        Listing {
            search: Some(finder),
            is_stopped: false,
            findings: Findings::new(alloc),
            current: 0,
            first: 0,
        }
    }

    /// Makes one step of the search, if one goes on. Where memory is wanting nothing is
    /// lost: the next step goes on.
    pub fn step<T: ReadTree>(&mut self, alloc: Global, tree: &mut T) -> Result<(), NoMemory>
        ensures leads { OnOk result
            (StepLeads self.old.search (T.contents tree.old) (T.fault_count tree.old) (T.fault_count tree.new)
            self.old self.new) }
        ensures lost { OnErr result (self.new ≡ record self.old { search = self.new.search }) }
        ensures kept { IsKept (T.contents tree.old) (T.fault_count tree.old) (T.fault_count tree.new)
            self.old self.new }
        ensures falls { OnOk result (is_some self.old.search ≡ true
            → steps_to_end self.new < steps_to_end self.old) }
        ensures still { self.old.search ≡ None → (tree.new ≡ tree.old) × (self.new ≡ self.old) }
        ensures same { T.contents tree.new ≡ T.contents tree.old }
        ensures later { T.fault_count tree.old ≤ T.fault_count tree.new }
    {
        match self.search.take() {
            None => Ok(()),
            Some(finder) => self.go_on(alloc, tree, finder),
        }
    }

    /// Makes one step of a search that was taken out, and puts it back where it goes on.
    fn go_on<T: ReadTree>(
        &mut self,
        alloc: Global,
        tree: &mut T,
        finder: Finder,
    ) -> Result<(), NoMemory>
        requires { self.old.search ≡ None }
        ensures leads { OnOk result
            (StepLeads (Some finder) (T.contents tree.old) (T.fault_count tree.old) (T.fault_count tree.new)
            (record self.old { search = Some finder }) self.new) }
        ensures lost { OnErr result (self.new ≡ record self.old { search = self.new.search }) }
        ensures kept { IsKept (T.contents tree.old) (T.fault_count tree.old) (T.fault_count tree.new)
            (record self.old { search = Some finder }) self.new }
        ensures falls { OnOk result
            (steps_to_end self.new < steps_to_end (record self.old { search = Some finder })) }
        ensures same { T.contents tree.new ≡ T.contents tree.old }
        ensures later { T.fault_count tree.old ≤ T.fault_count tree.new }
    {
        let mut finder = finder;
        let course = self.findings.next(alloc, tree, &mut finder);
        match course {
            Ok(Course::GoesOn) => {
                self.search = Some(finder);
                Ok(())
            }
            Ok(Course::Ends) => Ok(()),
            Err(error) => {
                self.search = Some(finder);
                Err(error)
            }
        }
    }

    /// Whether a search goes on.
    pub fn is_searching(&self) -> bool
        ensures { result ≡ is_some self.now.search }
    {
        self.search.is_some()
    }

    /// Whether a key stopped the search.
    pub fn is_stopped(&self) -> bool
        ensures { result ≡ self.now.stopped }
    {
        self.is_stopped
    }

    /// Stops the search, if one goes on. What was found stays.
    pub fn stop(&mut self)
        ensures { self.new ≡ stopped_search self.old }
    {
        let _findings = &self.findings;
        self.is_stopped = either(self.is_stopped, self.search.is_some());
        self.search = None;
    }

    /// Makes another path current, on a screen that shows so many.
    pub fn move_by(&mut self, page: usize, base: Base)
        requires { page < 2 ^ 16 }
        ensures { self.new ≡ moved_by page base self.old }
    {
        let count = self.findings.found().len();
        self.current = moved(count, page, self.current, base);
        self.first = scrolled(page, self.first, self.current);
    }

    /// The current path, where there is one.
    pub fn chosen(&self) -> Option<&Path>
        ensures { option_map (λ path. path.now) result ≡ chosen_path self.now }
    {
        self.findings.found().get(self.current)
    }

    /// What was told so far.
    pub fn findings(&self) -> &Findings
        ensures { result.now ≡ self.now.findings }
    {
        &self.findings
    }

    /// The position of the current path.
    pub fn current(&self) -> usize
        ensures { result ≡ self.now.current }
    {
        self.current
    }

    /// The position of the first path shown.
    pub fn first(&self) -> usize
        ensures value { result ≡ self.now.first }
        ensures bound { self.now.first < 2 ^ 60 }
    {
        self.first
    }
}

/// Whether one of two facts holds. The prover keeps no branch of a call.
fn either(one: bool, other: bool) -> bool
    ensures { result ≡ (one || other) }
{
    one || other
}
