//! A path as the system reads it, where no folder on the way is a link.
ghost use Rattle.std.specs.Prelude.{◌≡◌, ◌==◌, ◌||◌, false, length, None, IfOk, OnErr};
ghost use Rattle.std.specs.Option.{option_map_or};
ghost use Rattle.std.specs.Str.{bytes_eq};
ghost use Rattle.mc_text.specs.Routes.{path_text};

use crate::kinds::{Wanted, facts_at, require_kind};
use crate::seen::{Identity, Seen, SeenThing};
use mc_text::{NoMemory, Path, Text};
use std::alloc::Global;
use std::convert::AsStr;
use std::fs::Metadata;
use std::marker::Model;
use std::rt::Files;
use tree_trait::TreeError;

/// What was looked at on the ways of paths. The folder looked at last is a folder, as are all above it; it
/// is remembered, since a look at each folder on the way would make each call dearer by one look a folder.
/// Of any other one look asks whether it is the very folder, or file, that was seen at the end of its way.
#[derive(Drop)]
pub struct Walked {
    folder: Option<String>,
    seen: Seen,
    /// The file that was looked at last.
    file: Option<SeenThing>,
}

impl Model for Walked {
    ghost use Rattle.std.specs.Prelude.{List, ℕ, Option, string_bytes};
    ghost use Rattle.std.specs.Option.{option_map};

    ghost Value = { Option (List ℕ) };

    ghost view = { λ w. option_map string_bytes w.folder };
}

impl Walked {
    /// None yet. It takes no memory.
    pub fn new(alloc: Global) -> Walked
        ensures { result ≡ None }
    {
        Walked {
            folder: None,
            seen: Seen::new(alloc),
            file: None,
        }
    }

    /// The next call looks at its way anew.
    pub fn forget(&mut self)
        ensures { self.new ≡ None }
    {
        self.folder = None;
    }

    /// Remembers a file, whose way was looked at.
    pub fn note_file(&mut self, text: Text, facts: &Metadata)
        ensures { self.new ≡ self.old }
    {
        if facts.is_file() {
            self.file = Some(SeenThing {
                text: text.0,
                identity: Identity::of(facts),
            });
        }
    }

    /// Whether a folder is known to be one. The root, whose text is empty here, always is.
    fn knows(&self, folder: &str) -> bool
        ensures { result ≡ ((length folder.now == 0) || option_map_or (bytes_eq folder.now) self.now false) }
    {
        match &self.folder {
            Some(known) => folder.is_empty() || folder == known.as_str(),
            None => folder.is_empty(),
        }
    }

    /// Which folder, or file, was seen at a path.
    fn seen_at(&self, text: &str) -> Option<Identity> {
        match &self.file {
            Some(file) if file.is_at(text) => Some(file.identity),
            _ => self.seen.at(text),
        }
    }
}

/// The text of a path, whose folders before the last name are looked at first, since the
/// system follows links there.
pub fn real_text<R: Files>(
    rt: &R,
    alloc: Global,
    walked: &mut Walked,
    path: &Path,
) -> Result<Text, TreeError>
    ensures text { IfOk result (λ text. text ≡ path_text path.now) }
    ensures refused { OnErr result (walked.new ≡ walked.old) }
{
    let Ok(text) = text_at_once(alloc, path) else {
        return Err(TreeError::Memory);
    };
    look_at_way(rt, alloc, walked, text.as_str())?;
    Ok(text)
}

/// Looks at the folders before a path's last name, where they aren't known.
fn look_at_way<R: Files>(
    rt: &R,
    alloc: Global,
    walked: &mut Walked,
    text: &str,
) -> Result<(), TreeError>
    ensures refused { OnErr result (walked.new ≡ walked.old) }
{
    if let Some((folder, _)) = text.rsplit_once('/') {
        if !walked.knows(folder) {
            let known = String::from_str(alloc, folder)?;
            walk(rt, alloc, &mut walked.seen, folder)?;
            walked.folder = Some(known);
        }
    }
    Ok(())
}

/// What the system tells of a thing, on whose way is no link. Where it is the very thing that was seen
/// there, one look tells that too.
pub fn look_at<R: Files>(
    rt: &R,
    alloc: Global,
    walked: &mut Walked,
    text: &str,
) -> Result<Metadata, TreeError> {
    if let Some(seen) = walked.seen_at(text) {
        if let Some(facts) = facts_if(rt, text, seen) {
            if facts.is_dir() {
                walked.folder = Some(String::from_str(alloc, text)?);
            }
            return Ok(facts);
        }
    }
    look_at_way(rt, alloc, walked, text)?;
    facts_at(rt, text)
}

/// What the system tells of a thing, if this very one stands there.
fn facts_if<R: Files>(rt: &R, text: &str, seen: Identity) -> Option<Metadata> {
    match facts_at(rt, text) {
        Ok(facts) if Identity::of(&facts) == seen => Some(facts),
        _ => None,
    }
}

/// The bytes for which a path's text has room from the start.
const ROOM_BYTES: usize = 256;

/// The text of a path. It has room from the start: a text that grows is moved from place to place, and what
/// these moves leave behind makes every later allocation dearer.
pub fn text_at_once(alloc: Global, path: &Path) -> Result<Text, NoMemory>
    ensures { IfOk result (λ text. text ≡ path_text path.now) }
{
    let names = path.names();
    if names.is_empty() {
        return Ok(Text::from_str(alloc, "/")?);
    }
    let mut text = String::with_capacity(alloc, ROOM_BYTES)?;
    for name in names {
        text.push('/')?;
        text.push_str(name.text())?;
    }
    Ok(Text(text))
}

/// Looks at a folder and at those above it, the uppermost first, unless it is the very
/// folder that was seen there.
fn walk<R: Files>(rt: &R, alloc: Global, seen: &mut Seen, folder: &str) -> Result<(), TreeError> {
    if folder.is_empty() || is_still_there(rt, seen, folder) {
        return Ok(());
    }
    if let Some((above, _)) = folder.rsplit_once('/') {
        walk(rt, alloc, seen, above)?;
    }
    let text = seen.room_for(alloc, folder)?;
    let facts = facts_at(rt, folder)?;
    require_kind(&facts, Wanted::Folder)?;
    seen.note(SeenThing {
        text,
        identity: Identity::of(&facts),
    });
    Ok(())
}

/// Whether one look finds the very folder that was seen there.
fn is_still_there<R: Files>(rt: &R, seen: &Seen, folder: &str) -> bool {
    match seen.at(folder) {
        Some(identity) => facts_if(rt, folder, identity).is_some(),
        None => false,
    }
}
