//! The tagged names of a panel.
ghost use Rattle.std.specs.Prelude.{◌≡◌, not, if◌then◌else◌, filter, IfOk, OnOk, OnErr};
ghost use Rattle.std.specs.FinSet as set;
ghost use Rattle.std.specs.Ordering.{nat_cmp};
ghost use Rattle.std.specs.Cmp.Lexicographic.{slice_cmp};
ghost use Rattle.std.specs.Coded.{coded_list, coded_ℕ};
ghost use Rattle.tagging.specs.TagSets.{names_in, toggled_tags, inverted_tags, tag_set};
ghost use Rattle.tagging.specs.Patterns.{is_found};

use crate::keep::keep_if;
use crate::pattern::Pattern;
use mc_text::{Name, Names, NoMemory};
use std::alloc::Global;
use std::collections::BTreeSet;
use std::marker::Model;

/// The tagged names. Contracts see their set.
///
/// A look takes a time that grows as the logarithm of the number of tags. A call over names makes the new
/// set beside the old one, so a refused call leaves the tags as they were; its time grows as the number of
/// tags and names, times that.
#[derive(Drop)]
pub struct Tags {
    names: BTreeSet<String>,
}

impl Model for Tags {
    ghost use Rattle.std.specs.FinSet as set;
    ghost use Rattle.std.specs.Ordering.{nat_cmp};
    ghost use Rattle.std.specs.Cmp.Lexicographic.{slice_cmp};
    ghost use Rattle.std.specs.Coded.{coded_list, coded_ℕ};
    ghost use Rattle.tagging.specs.TagSets.{tag_set};

    ghost Value = { set.FinSet (slice_cmp nat_cmp) };

    ghost coded = { set.code (coded_list coded_ℕ) };

    ghost view = { λ t. tag_set t.names };
}

impl Tags {
    /// No tags. It takes no memory.
    pub fn new(alloc: Global) -> Tags
        ensures { result ≡ set.empty }
    {
        Tags {
            names: BTreeSet::new(alloc),
        }
    }

    /// Whether the name is tagged.
    pub fn has(&self, name: &str) -> bool
        ensures { result ≡ set.contains self.now name.now }
    {
        self.names.contains(name)
    }

    /// Tags a name that wasn't tagged, and takes the tag of one that was. Answers whether it is tagged now.
    pub fn toggle(&mut self, alloc: Global, name: &Name) -> Result<bool, NoMemory>
        ensures answer { IfOk result (λ tagged. tagged ≡ not (set.contains self.old name.now)) }
        ensures done { OnOk result (self.new ≡ toggled_tags self.old name.now) }
        ensures refused { OnErr result (self.new ≡ self.old) }
    {
        if self.has(name.text()) {
            self.remove(name);
            return Ok(false);
        }
        self.insert(alloc, name)?;
        Ok(true)
    }

    /// Tags those of the names that the pattern finds.
    pub fn select(
        &mut self,
        alloc: Global,
        names: &Names,
        pattern: &Pattern,
    ) -> Result<(), NoMemory>
        ensures done { OnOk result
            (self.new ≡ set.union self.old (names_in (filter (is_found pattern.now) names.now))) }
        ensures refused { OnErr result (self.new ≡ self.old) }
    {
        let found = pattern.found_among(alloc, names)?;
        let mut after = self.copy(alloc)?;
        for name in found.as_slice() {
            after.insert(alloc, name)?;
        }
        *self = after;
        Ok(())
    }

    /// Takes the tags of those of the names that the pattern finds.
    pub fn unselect(
        &mut self,
        alloc: Global,
        names: &Names,
        pattern: &Pattern,
    ) -> Result<(), NoMemory>
        ensures done { OnOk result
            (self.new ≡ set.difference self.old (names_in (filter (is_found pattern.now) names.now))) }
        ensures refused { OnErr result (self.new ≡ self.old) }
    {
        let found = pattern.found_among(alloc, names)?;
        for name in found.as_slice() {
            self.remove(name);
        }
        Ok(())
    }

    /// Tags those of the names that weren't tagged, and takes the tags of the others of them.
    pub fn invert(&mut self, alloc: Global, names: &Names) -> Result<(), NoMemory>
        ensures done { OnOk result (self.new ≡ inverted_tags self.old (names_in names.now)) }
        ensures refused { OnErr result (self.new ≡ self.old) }
    {
        let mut after = self.copy(alloc)?;
        for name in names.as_slice() {
            after.set(alloc, name, !self.has(name.text()))?;
        }
        *self = after;
        Ok(())
    }

    /// Takes all tags.
    pub fn untag(&mut self)
        ensures { self.new ≡ set.empty }
    {
        self.names.clear();
    }

    /// The tagged ones among the names, in their order.
    pub fn list(&self, alloc: Global, names: &Names) -> Result<Names, NoMemory>
        ensures { IfOk result (λ listed. listed ≡ filter (set.contains self.now) names.now) }
    {
        let mut listed = Names::new(alloc);
        for name in names.as_slice() {
            keep_if(alloc, self.has(name.text()), &mut listed, name)?;
        }
        Ok(listed)
    }

    /// The same tags once more.
    pub fn copy(&self, alloc: Global) -> Result<Tags, NoMemory>
        ensures { IfOk result (λ copy. copy ≡ self.now) }
    {
        let _ = alloc;
        Ok(Tags {
            names: self.names.clone()?,
        })
    }

    /// Tags the name.
    fn insert(&mut self, alloc: Global, name: &Name) -> Result<(), NoMemory>
        ensures done { OnOk result (self.new ≡ set.insert self.old name.now) }
        ensures refused { OnErr result (self.new ≡ self.old) }
    {
        self.names.insert(String::from_str(alloc, name.text())?)?;
        Ok(())
    }

    /// Takes the name's tag.
    fn remove(&mut self, name: &Name)
        ensures { self.new ≡ set.remove self.old name.now }
    {
        self.names.remove(name.text());
    }

    /// Tags the name, or takes its tag.
    fn set(&mut self, alloc: Global, name: &Name, tagged: bool) -> Result<(), NoMemory>
        ensures done { OnOk result
            (self.new ≡ (if tagged then set.insert self.old name.now else set.remove self.old name.now)) }
        ensures refused { OnErr result (self.new ≡ self.old) }
    {
        if tagged {
            return self.insert(alloc, name);
        }
        self.remove(name);
        Ok(())
    }
}
