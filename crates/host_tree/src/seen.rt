//! What was seen at the end of a way on which no folder is a link, and by what the
//! system tells it from all else.
ghost use Rattle.std.specs.Prelude.{◌≡◌, ◌<◌, ◌≤◌, [], length, string_bytes};
ghost use Rattle.std.specs.Prelude.{IfOk, IfSome, OnOk, vec_len, vec_capacity};
ghost use Rattle.std.specs.Str.{bytes_eq};
ghost use Rattle.host_tree.specs.declared.seen.TheConstants.{SEEN_FOLDERS};
ghost use Rattle.host_tree.specs.Seen.{WasSeen, HasRoom, forgetting, newest, with_newest};

use std::alloc::Global;
use std::fs::Metadata;
use std::os::unix::fs::MetadataExt;
use std::time::SystemTime;
use tree_trait::TreeError;

/// By what the system tells a thing from all else: its device, its number there, and when it was made,
/// since a number is given to another thing once its own is gone.
#[derive(Clone, Copy, PartialEq, Eq)]
pub struct Identity {
    device: u64,
    number: u64,
    made: Option<SystemTime>,
}

impl Identity {
    /// That of the thing that these facts are of.
    pub fn of(facts: &Metadata) -> Identity {
        Identity {
            device: facts.dev(),
            number: facts.ino(),
            made: facts.created().ok(),
        }
    }
}

/// A thing, and the text of the path at which it was seen.
#[derive(Drop)]
pub struct SeenThing {
    pub text: String,
    pub identity: Identity,
}

impl SeenThing {
    /// Whether it was seen at this path.
    pub fn is_at(&self, text: &str) -> bool
        ensures { result ≡ bytes_eq (string_bytes self.now.text) text.now }
    {
        self.text.as_str() == text
    }
}

/// The most folders that are remembered.
pub const SEEN_FOLDERS: usize = 64;

/// Folders that were seen, the oldest first, of which no two have one path.
#[derive(Drop)]
pub struct Seen {
    pub folders: Vec<SeenThing>,
    pub ghost few: { vec_len folders ≤ SEEN_FOLDERS },
}

impl Seen {
    /// None yet. It takes no memory.
    pub fn new(alloc: Global) -> Seen
        ensures { result.folders.items ≡ [] }
    {
        Seen {
            folders: Vec::new(alloc),
        }
    }

    /// Which folder was seen at a path.
    pub fn at(&self, text: &str) -> Option<Identity>
        ensures { IfSome result (WasSeen self.now.folders.items text.now) }
    {
        for seen in &self.folders {
            if seen.is_at(text) {
                return Some(seen.identity);
            }
        }
        None
    }

    /// Takes room for one more, with the text of its path.
    pub fn room_for(&mut self, alloc: Global, text: &str) -> Result<String, TreeError>
        ensures same { self.new.folders.items ≡ self.old.folders.items }
        ensures room { OnOk result (HasRoom self.new.folders) }
        ensures copy { IfOk result (λ copy. string_bytes copy ≡ text.now) }
    {
        self.folders.reserve(1)?;
        Ok(String::from_str(alloc, text)?)
    }

    /// Remembers one more in place of what was seen at its path. Where they become too many,
    /// the oldest is forgotten.
    pub fn note(&mut self, folder: SeenThing)
        requires { HasRoom self.old.folders }
        ensures { self.new.folders.items ≡ with_newest self.old.folders.items folder }
    {
        self.forget(folder.text.as_str());
        self.forget_oldest();
        let _noted = self.folders.push(folder);
    }

    /// Forgets the oldest, where no more may be remembered.
    fn forget_oldest(&mut self)
        ensures folders { self.new.folders.items ≡ newest self.old.folders.items }
        ensures few { vec_len self.new.folders < SEEN_FOLDERS }
        ensures fewer { vec_len self.new.folders ≤ vec_len self.old.folders }
        ensures room { vec_capacity self.new.folders ≡ vec_capacity self.old.folders }
    {
        if self.folders.len() >= SEEN_FOLDERS {
            self.folders.remove(0);
        }
    }

    /// Forgets what was seen at a path.
    fn forget(&mut self, text: &str)
        ensures folders { self.new.folders.items ≡ forgetting self.old.folders.items text.now }
        ensures fewer { vec_len self.new.folders ≤ vec_len self.old.folders }
        ensures room { vec_capacity self.new.folders ≡ vec_capacity self.old.folders }
    {
        self.folders.retain(|seen| !seen.is_at(text));
    }
}
