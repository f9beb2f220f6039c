//! The calls that make, move and remove names.
ghost use Rattle.std.specs.Prelude.{◌≡◌, ◌≤◌, [], OnOk, OnErr};
ghost use Rattle.host_tree.specs.Kept.{forgetting, forgetting_below};

use crate::machine::Machine;
use crate::writing::permissions_of;
use host_devices::{answer_of, naming_cause_of};
use mc_text::Path;
use std::alloc::Global;
use std::convert::AsStr;
use std::fs;
use std::fs::DirBuilder;
use std::os::unix::fs::{DirBuilderExt, symlink};
use std::rt::Files;
use tree_trait::TreeError;

impl<R: Files> Machine<R> {
    /// Makes an empty folder. Where its mode can't be set the folder is taken away again.
    pub fn make_folder(&mut self, alloc: Global, path: &Path, mode: u16) -> Result<(), TreeError> {
        let text = self.text_of(alloc, path)?;
        let mut builder = DirBuilder::new();
        builder.mode(u32::from(mode));
        answer_of(builder.create(&self.rt, text.as_str()))?;
        // The system's mask may have narrowed the mode, and mkdir takes no set-id bits.
        let answer = answer_of(fs::set_permissions(&self.rt, text.as_str(), permissions_of(mode)));
        if answer.is_err() {
            let _removed = fs::remove_dir(&self.rt, text.as_str());
        }
        answer
    }

    /// Makes a link that says a text.
    pub fn make_link(&mut self, alloc: Global, path: &Path, target: &str) -> Result<(), TreeError> {
        let text = self.text_of(alloc, path)?;
        answer_of(symlink(&self.rt, target, text.as_str()))
    }

    /// Gives a thing another name. What is open at either path or below it is closed, since
    /// the paths mean others now.
    pub fn rename(&mut self, alloc: Global, from: &Path, to: &Path) -> Result<(), TreeError>
        ensures closed { OnOk result (self.new.kept.files.items
            ≡ forgetting_below (forgetting_below self.old.kept.files.items from.now) to.now) }
        ensures reads { self.new.read.files.items ≡ [] }
        ensures refused { OnErr result (self.new.kept ≡ self.old.kept) }
    {
        self.look_anew();
        let from_text = self.text_of(alloc, from)?;
        let to_text = self.text_of(alloc, to)?;
        match fs::rename(&self.rt, from_text.as_str(), to_text.as_str()) {
            Ok(()) => {}
            Err(error) => return Err(naming_cause_of(&error)),
        }
        self.walked.forget();
        self.kept.forget_below(from);
        self.kept.forget_below(to);
        Ok(())
    }

    /// Removes the name of a thing. The system refuses it where the thing is a folder.
    pub fn remove_file(&mut self, alloc: Global, path: &Path) -> Result<(), TreeError>
        ensures closed { OnOk result
            (self.new.kept.files.items ≡ forgetting self.old.kept.files.items path.now) }
        ensures reads { self.new.read.files.items ≡ [] }
        ensures refused { OnErr result (self.new.kept ≡ self.old.kept) }
    {
        self.look_anew();
        let text = self.text_of(alloc, path)?;
        answer_of(fs::remove_file(&self.rt, text.as_str()))?;
        self.kept.forget(path);
        Ok(())
    }

    /// Removes the name of an empty folder. The system follows no link there, and finds it no folder.
    pub fn remove_folder(&mut self, alloc: Global, path: &Path) -> Result<(), TreeError>
        ensures closed { OnOk result
            (self.new.kept.files.items ≡ forgetting_below self.old.kept.files.items path.now) }
        ensures reads { self.new.read.files.items ≡ [] }
        ensures refused { OnErr result (self.new.kept ≡ self.old.kept) }
    {
        self.look_anew();
        let text = self.text_of(alloc, path)?;
        match fs::remove_dir(&self.rt, text.as_str()) {
            Ok(()) => {}
            Err(error) => return Err(naming_cause_of(&error)),
        }
        self.kept.forget_below(path);
        Ok(())
    }
}
