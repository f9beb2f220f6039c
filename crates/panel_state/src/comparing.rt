//! The quick comparison of two panels.
ghost use Rattle.std.specs.Prelude.{◌≡◌, IfOk, OnOk, OnErr};
ghost use Rattle.panel_state.specs.Comparisons.{compared_panel};
ghost use Rattle.panel_state.specs.Wanted.{files_shown};

use crate::kept::tags_of;
use crate::panel::Panel;
use crate::wanted::{Wanted, facts_of, wanted_items};
use mc_text::NoMemory;
use std::alloc::Global;
use tagging::{FileFact, compare_quick};

/// Tags in two panels those of the shown files that the other one lacks, or that are newer than there, or
/// as old and of another size. All other tags of both are taken.
pub fn compare_panels(alloc: Global, left: &mut Panel, right: &mut Panel) -> Result<(), NoMemory>
    ensures left { OnOk result (left.new ≡ compared_panel right.old left.old) }
    ensures right { OnOk result (right.new ≡ compared_panel left.old right.old) }
    ensures left_refused { OnErr result (left.new ≡ left.old) }
    ensures right_refused { OnErr result (right.new ≡ right.old) }
{
    let on_left = left.files(alloc)?;
    let on_right = right.files(alloc)?;
    let (here, there) = compare_quick(alloc, on_left.as_slice(), on_right.as_slice())?;
    let left_tags = tags_of(alloc, &here)?;
    let right_tags = tags_of(alloc, &there)?;
    left.tags = left_tags;
    right.tags = right_tags;
    Ok(())
}

impl Panel {
    /// What the shown files are compared by.
    fn files(&self, alloc: Global) -> Result<Vec<FileFact>, NoMemory>
        ensures { IfOk result (λ files. files.items ≡ files_shown self.now.listing) }
    {
        let items = wanted_items(alloc, &self.listing, &self.tags, Wanted::Files)?;
        facts_of(alloc, items.as_slice())
    }
}
