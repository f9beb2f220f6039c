//! Tagging names, and the selection that a job takes.
ghost use Rattle.std.specs.Prelude.{◌≡◌, ◌<◌, ◌^◌, IfOk, OnOk, OnErr, option_copied};
ghost use Rattle.tagging.specs.TagSets.{toggled_tags};
ghost use Rattle.panel_state.specs.Panels.{tag_set, untagged_panel, current_name};
ghost use Rattle.panel_state.specs.Wanted.{wanted_names};
ghost use Rattle.panel_state.specs.Selections.{with_toggled, toggled_current, selected_panel};
ghost use Rattle.panel_state.specs.Selections.{unselected_panel, inverted_files, selection, or_current};

use crate::panel::Panel;
use crate::wanted::{Wanted, names_of, wanted_items};
use key_screen::Base;
use mc_text::{Name, Names, NoMemory};
use std::alloc::Global;
use tagging::{Pattern, Tags};

impl Panel {
    /// Tags the current name, or takes its tag, and moves down. `..` is never tagged.
    pub fn toggle(&mut self, alloc: Global, page: usize) -> Result<(), NoMemory>
        requires { page < 2 ^ 16 }
        ensures done { OnOk result (self.new ≡ toggled_current page self.old) }
        ensures refused { OnErr result (self.new ≡ self.old) }
    {
        self.toggle_current(alloc)?;
        self.move_by(page, Base::Down);
        Ok(())
    }

    /// Tags those of the shown names that a pattern finds and that are no folders.
    #[tactic(auto, using(crate::proofs::TagLemmas::read_back))]
    pub fn select(&mut self, alloc: Global, pattern: &Pattern) -> Result<(), NoMemory>
        ensures done { OnOk result (self.new ≡ selected_panel pattern.now self.old) }
        ensures refused { OnErr result (self.new ≡ self.old) }
    {
        let names = self.names(alloc, Wanted::Files)?;
        self.tags.select(alloc, &names, pattern)
    }

    /// Takes the tags of those.
    #[tactic(auto, using(crate::proofs::TagLemmas::read_back))]
    pub fn unselect(&mut self, alloc: Global, pattern: &Pattern) -> Result<(), NoMemory>
        ensures done { OnOk result (self.new ≡ unselected_panel pattern.now self.old) }
        ensures refused { OnErr result (self.new ≡ self.old) }
    {
        let names = self.names(alloc, Wanted::Files)?;
        self.tags.unselect(alloc, &names, pattern)
    }

    /// Tags those of the shown names that aren't tagged and are no folders, and takes the
    /// tags of the others of them.
    #[tactic(auto, using(crate::proofs::TagLemmas::read_back))]
    pub fn invert(&mut self, alloc: Global) -> Result<(), NoMemory>
        ensures done { OnOk result (self.new ≡ inverted_files self.old) }
        ensures refused { OnErr result (self.new ≡ self.old) }
    {
        let names = self.names(alloc, Wanted::Files)?;
        self.tags.invert(alloc, &names)
    }

    /// Takes all tags. It takes no memory.
    pub fn untag(&mut self)
        ensures { self.new ≡ untagged_panel self.old }
    {
        self.tags.untag();
    }

    /// What a job takes: the tagged names in the order of their rows, or else the current name, but not `..`.
    pub fn selection(&self, alloc: Global) -> Result<Names, NoMemory>
        ensures { IfOk result (λ names. names ≡ selection self.now) }
    {
        let names = self.names(alloc, Wanted::Tagged)?;
        or_current(alloc, names, self.current_name())
    }

    /// Tags the current name, or takes its tag.
    #[tactic(auto, using(crate::proofs::TagLemmas::read_back))]
    fn toggle_current(&mut self, alloc: Global) -> Result<(), NoMemory>
        ensures done { OnOk result (self.new ≡ with_toggled (current_name self.old) self.old) }
        ensures refused { OnErr result (self.new ≡ self.old) }
    {
        match self.listing.item(self.cursor) {
            None => Ok(()),
            Some(item) => toggle_name(&mut self.tags, alloc, &item.name),
        }
    }

    /// The shown names that are wanted, in the order of their rows.
    #[tactic(auto, using(crate::proofs::TagLemmas::read_back))]
    fn names(&self, alloc: Global, wanted: Wanted) -> Result<Names, NoMemory>
        ensures { IfOk result (λ names. names ≡ wanted_names wanted (tag_set self.now) self.now.listing) }
    {
        let items = wanted_items(alloc, &self.listing, &self.tags, wanted)?;
        names_of(alloc, items.as_slice())
    }
}

/// Tags a name, or takes its tag.
fn toggle_name(tags: &mut Tags, alloc: Global, name: &Name) -> Result<(), NoMemory>
    ensures done { OnOk result (tags.new ≡ toggled_tags tags.old name.now) }
    ensures refused { OnErr result (tags.new ≡ tags.old) }
{
    tags.toggle(alloc, name)?;
    Ok(())
}

/// These names, or the current one where there are none.
fn or_current(alloc: Global, mut names: Names, current: Option<&Name>) -> Result<Names, NoMemory>
    ensures { IfOk result (λ chosen. chosen ≡ or_current names (option_copied current.entry)) }
{
    match current {
        Some(name) if names.as_slice().is_empty() => names.push(name.copy(alloc)?)?,
        _ => (),
    }
    Ok(names)
}
