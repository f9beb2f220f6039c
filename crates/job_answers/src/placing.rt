//! What comes of a thing that is to be placed where something may stand.
ghost use Rattle.std.specs.Prelude.{◌≡◌, Some};
ghost use Rattle.job_answers.specs.Questions.{placing_at};

use mc_text::Kind;

/// What is to be placed.
#[derive(Clone, Copy, Debug, PartialEq, Eq)]
pub enum Origin {
    /// A copy of a thing of this kind.
    Copied(Kind),
    /// A thing of this kind, by a new name.
    Moved(Kind),
    /// The bytes of a text that is saved.
    Saved,
}

/// What comes of it.
#[derive(Clone, Copy, Debug, PartialEq, Eq)]
pub enum Placing {
    /// Nothing stands at the target.
    Free,
    /// A folder comes onto a folder: its children are placed one by one.
    Merges,
    /// It is asked whether what stands at the target is to be replaced.
    Asks,
    /// What stands at the target is replaced, and nobody is asked.
    Replaces,
    /// A trouble: what stands at the target is of this kind.
    TargetKind(Kind),
    /// A trouble: the source is special, and can't be copied.
    SpecialSource,
}

/// What comes of a thing that is to be placed at a target where a thing of this kind, or nothing, stands.
pub fn placing_of(origin: Origin, target: Option<Kind>) -> Placing
    ensures { result ≡ placing_at origin target }
{
    match target {
        Some(kind) => onto(origin, kind),
        None => match origin {
            Origin::Copied(Kind::Other) => Placing::SpecialSource,
            Origin::Copied(_) | Origin::Moved(_) | Origin::Saved => Placing::Free,
        },
    }
}

/// The kinds go before the source: a special file onto a folder is a trouble of the target.
fn onto(origin: Origin, target: Kind) -> Placing
    ensures { result ≡ placing_at origin (Some target) }
{
    match (origin, target) {
        (Origin::Copied(Kind::Folder) | Origin::Moved(Kind::Folder), Kind::Folder) =>
            Placing::Merges,
        (Origin::Copied(Kind::Folder) | Origin::Moved(Kind::Folder), _) => Placing::TargetKind(
            target,
        ),
        (_, Kind::Folder | Kind::Other) => Placing::TargetKind(target),
        (Origin::Copied(Kind::Other), _) => Placing::SpecialSource,
        (Origin::Saved, _) => Placing::Replaces,
        (Origin::Copied(_) | Origin::Moved(_), _) => Placing::Asks,
    }
}
