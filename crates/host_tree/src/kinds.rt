//! What has to stand at a path for a call, and what the system says that stands there.
ghost use Rattle.std.specs.Prelude.{◌≡◌, None, Err, IsOk, IfOk, IfSome};
ghost use Rattle.std.specs.Fs.{metadata_mode};
ghost use Rattle.host_tree.specs.Kinds.{kind_of_mode, refusal_of_kind};

use host_devices::answer_of;
use mc_text::Kind;
use std::fs;
use std::fs::Metadata;
use std::rt::Files;
use tree_trait::TreeError;

/// What a call wants at its path.
#[derive(Clone, Copy, Debug, PartialEq, Eq)]
pub enum Wanted {
    File,
    Folder,
    Link,
    /// A file or a folder: what has a mode of its own.
    Moded,
}

/// Why a call is refused where a thing of this kind stands.
pub fn kind_refusal(wanted: Wanted, kind: Kind) -> Option<TreeError>
    ensures { result ≡ refusal_of_kind wanted kind }
{
    match (wanted, kind) {
        (Wanted::File, Kind::File) => None,
        (Wanted::File, Kind::Folder) => Some(TreeError::IsFolder),
        (Wanted::Folder, Kind::Folder) => None,
        (Wanted::Folder, _) => Some(TreeError::NotFolder),
        (Wanted::Link, Kind::Link) => None,
        (Wanted::Moded, Kind::File) => None,
        (Wanted::Moded, Kind::Folder) => None,
        (_, _) => Some(TreeError::Special),
    }
}

/// The kind of a thing.
pub fn kind_of(facts: &Metadata) -> Kind
    ensures { result ≡ kind_of_mode (metadata_mode facts.now) }
{
    if facts.is_file() {
        Kind::File
    } else if facts.is_dir() {
        Kind::Folder
    } else if facts.is_symlink() {
        Kind::Link
    } else {
        Kind::Other
    }
}

/// Looks at what stands at a path, which is a link itself where it is one.
pub fn facts_at<R: Files>(rt: &R, text: &str) -> Result<Metadata, TreeError> {
    answer_of(fs::symlink_metadata(rt, text))
}

/// Refuses what isn't of the kind that a call wants.
pub fn require_kind(facts: &Metadata, wanted: Wanted) -> Result<(), TreeError>
    ensures refused { IfSome (refusal_of_kind wanted (kind_of_mode (metadata_mode facts.now))) (λ refusal.
        result ≡ Err refusal) }
    ensures passed { refusal_of_kind wanted (kind_of_mode (metadata_mode facts.now)) ≡ None → IsOk result }
{
    match kind_refusal(wanted, kind_of(facts)) {
        None => Ok(()),
        Some(refusal) => Err(refusal),
    }
}
