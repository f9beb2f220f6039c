//! Folders that are read again: first they are read, and then the panels take what was read.
ghost use Rattle.std.specs.Prelude.{◌≡◌, ◌<◌, ◌≤◌, ◌^◌, Some, IfOk, IfErr};
ghost use Rattle.tree_trait.specs.Answers.{IfKnown, HasCause, HasRisen};
ghost use Rattle.resolving.specs.Errors.{CarriesCause, count_told};
ghost use Rattle.panel_state.specs.Readings.{ListsFolder, read_again};
ghost use Rattle.panel_state.specs.Rereadings.{listed_in, IsFresh, IsAttempt, ShowsAttempt};
ghost use Rattle.panel_state.specs.Rereadings.{refusal_in, panel_after_attempt, tried_read};

use crate::fresh::Fresh;
use crate::kept::kept_tags;
use crate::panel::Panel;
use crate::reading::read_folder;
use crate::scrolling::{rows_shown, scrolled};
use crate::searching::row_from;
use mc_text::NoMemory;
use resolving::ResolveError;
use std::alloc::Global;
use tree_trait::ReadTree;

/// What reading a folder again came to: what it held then, or why it could not be read.
#[derive(Drop)]
pub enum Attempt {
    Read(Fresh),
    Refused(ResolveError),
}

impl Panel {
    /// Reads its folder again. The panel stays as it is.
    #[tactic(auto, using(crate::proofs::TagLemmas::read_back))]
    pub(crate) fn read_fresh<T: ReadTree>(
        &self,
        alloc: Global,
        tree: &mut T,
    ) -> Result<Fresh, ResolveError>
        ensures fresh { IfOk result (IsFresh self.now) }
        ensures answer { IfKnown (T.contents tree.old) (λ log.
            ListsFolder log self.now.folder (listed_in result)) }
        ensures same { T.contents tree.new ≡ T.contents tree.old }
        ensures cause { HasCause ResolveError.Fault (T.fault_count tree.old) (T.fault_count tree.new) result }
        ensures counts { T.fault_count tree.new ≡ count_told (T.fault_count tree.old) result }
        ensures carried { IfErr result CarriesCause }
    {
        let name = self.name_copy(alloc)?;
        let listing = read_folder(alloc, tree, &self.folder, &self.wish)?;
        let tags = kept_tags(alloc, &self.tags, listing.items())?;
        let row = row_from(&listing, &name, self.cursor);
        Ok(Fresh { listing, tags, row })
    }

    /// Takes what was read again. It takes no memory.
    #[tactic(auto, using(crate::proofs::TagLemmas::read_back))]
    pub(crate) fn take(&mut self, page: usize, fresh: Fresh)
        requires page { page < 2 ^ 16 }
        requires fresh { IsFresh self.old fresh }
        ensures { self.new ≡ read_again page fresh.listing self.old }
    {
        let Fresh { listing, tags, row } = fresh;
        self.first = scrolled(rows_shown(self.format.layout(), page), self.first, row);
        self.cursor = row;
        self.listing = listing;
        self.tags = tags;
    }

    /// Reads its folder again, unless that is refused. The panel stays as it is. It
    /// takes a look for each child.
    pub fn try_reading<T: ReadTree>(&self, alloc: Global, tree: &mut T) -> Result<Attempt, NoMemory>
        ensures attempt { IfOk result (IsAttempt self.now) }
        ensures answer { IfKnown (T.contents tree.old) (λ log.
            IfOk result (ShowsAttempt log self.now.folder)) }
        ensures same { T.contents tree.new ≡ T.contents tree.old }
        ensures later { T.fault_count tree.old ≤ T.fault_count tree.new }
        ensures fault { IfOk result (λ attempt. refusal_in attempt ≡ Some ResolveError.Fault
            → HasRisen (T.fault_count tree.old) (T.fault_count tree.new)) }
        ensures counts { IfOk result (λ attempt.
            T.fault_count tree.new ≡ count_told (T.fault_count tree.old) (tried_read attempt)) }
        ensures unread { IfErr result (λ _. T.fault_count tree.new ≡ T.fault_count tree.old) }
    {
        match self.read_fresh(alloc, tree) {
            Ok(fresh) => Ok(Attempt::Read(fresh)),
            Err(ResolveError::Memory) => Err(NoMemory),
            Err(error) => Ok(Attempt::Refused(error)),
        }
    }

    /// Takes what was read again, or answers why it wasn't. It takes no memory.
    pub fn take_if_read(&mut self, page: usize, attempt: Attempt) -> Option<ResolveError>
        requires page { page < 2 ^ 16 }
        requires attempt { IsAttempt self.old attempt }
        ensures done { self.new ≡ panel_after_attempt page attempt self.old }
        ensures refusal { result ≡ refusal_in attempt }
    {
        match attempt {
            Attempt::Read(fresh) => {
                self.take(page, fresh);
                None
            }
            Attempt::Refused(error) => Some(error),
        }
    }
}
