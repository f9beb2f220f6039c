//! Saves: what is asked for, and what is told of it.
ghost use Rattle.std.specs.Prelude.{◌≡◌, ◌||◌, None, IfOk, OnErr};
ghost use Rattle.ui_editor.specs.EditorScreens.{SaveLeads, act_at_finish, after_failure, after_finish};
ghost use Rattle.ui_editor.specs.EditorScreens.{has_changes, leaves_at_finish, with_save};

use super::EditorMode;
use crate::act::{EditorAct, EditorAsks};
use crate::saving::Saving;
use mc_text::NoMemory;
use std::alloc::Global;

impl EditorMode {
    /// Whether the text was changed since the last save that is finished.
    pub fn has_changes(&self) -> bool
        ensures { result ≡ has_changes self.now }
    {
        self.is_unsaved || self.editor.is_changed()
    }

    /// Asks for a save of the text as it stands, unless one goes on.
    pub(super) fn ask_for_save(
        &mut self,
        alloc: Global,
        saving: Saving,
    ) -> Result<EditorAct, NoMemory>
        requires clear { self.old.asking ≡ None }
        ensures leads { IfOk result (λ act. SaveLeads self.old.saving saving act self.old self.new) }
        ensures lost { OnErr result (self.new ≡ self.old) }
    {
        let _title = &self.title;
        match self.saving {
            Some(_) => Ok(EditorAct::Waits),
            None => self.begin_save(alloc, saving),
        }
    }

    /// Asks for a save of the text as it stands.
    fn begin_save(&mut self, alloc: Global, saving: Saving) -> Result<EditorAct, NoMemory>
        requires clear { self.old.asking ≡ None }
        requires none { self.old.saving ≡ None }
        ensures leads { IfOk result (λ act. SaveLeads None saving act self.old self.new) }
        ensures lost { OnErr result (self.new ≡ self.old) }
    {
        let is_unsaved = self.has_changes();
        let bytes = self.editor.bytes(alloc)?;
        self.editor.forget_change();
        self.is_unsaved = is_unsaved;
        self.saving = Some(saving);
        Ok(EditorAct::Asks(EditorAsks::Save(bytes)))
    }

    /// Is told that the save that was asked for is finished: what it saved counts as saved. The editor is
    /// left where that was asked for, unless the text was changed since.
    pub fn finish_save(&mut self) -> EditorAct
        ensures act { result ≡ act_at_finish (leaves_at_finish self.old.saving self.old) }
        ensures after { self.new ≡ after_finish self.old.saving self.old }
    {
        let leaves = self.leaves_at_finish();
        if self.saving.take().is_some() {
            self.is_unsaved = false;
        }
        act_at_finish(leaves)
    }

    /// Is told that the save that was asked for has failed, or can't be begun: nothing more counts as saved.
    pub fn fail_save(&mut self)
        ensures { self.new ≡ after_failure self.old }
    {
        let _title = &self.title;
        self.saving = None;
    }

    /// Whether the editor is left once the save that goes on is finished.
    fn leaves_at_finish(&self) -> bool
        ensures { result ≡ leaves_at_finish self.now.saving self.now }
    {
        match self.saving {
            None => false,
            Some(saving) => saving.leaves && !self.editor.is_changed(),
        }
    }
}

fn act_at_finish(leaves: bool) -> EditorAct
    ensures { result ≡ act_at_finish leaves }
{
    if leaves {
        EditorAct::Asks(EditorAsks::Leave)
    } else {
        EditorAct::Stays
    }
}
