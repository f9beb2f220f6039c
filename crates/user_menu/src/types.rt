//! The types of things, by the letters that stand for them.
ghost use Rattle.std.specs.Prelude.{◌≡◌};
ghost use Rattle.std.specs.List.{list_any};
ghost use Rattle.tree_trait.specs.Refusals.{file_kind, folder_kind, link_kind};
ghost use Rattle.user_menu.specs.Facts.{has_type, is_runnable};

use crate::fact::Fact;
use mc_text::Kind;

/// Whether the current thing of a panel has one of the types with these letters.
pub fn has_one_type(fact: &Fact, types: &str) -> bool
    ensures { result ≡ list_any (has_type fact.now) types.now }
{
    types
        .as_bytes()
        .iter()
        .any(|letter| has_type(fact, *letter))
}

/// Whether it has the type with this letter. Other letters stand for no type.
fn has_type(fact: &Fact, letter: u8) -> bool
    ensures { result ≡ has_type fact.now letter }
{
    match letter {
        b'n' => !is_folder(fact.kind),
        b'r' => is_file(fact.kind),
        b'd' => is_folder(fact.kind),
        b'l' => is_link(fact.kind),
        b'x' => is_runnable(fact.kind, fact.mode),
        b't' => fact.tagged,
        _ => false,
    }
}

/// Whether it is a file that somebody may run.
pub fn is_runnable(kind: Kind, mode: u16) -> bool
    ensures { result ≡ is_runnable kind mode }
{
    is_file(kind) && mode & 0o111 != 0
}

fn is_file(kind: Kind) -> bool
    ensures { result ≡ file_kind kind }
{
    match kind {
        Kind::File => true,
        Kind::Folder => false,
        Kind::Link => false,
        Kind::Other => false,
    }
}

fn is_folder(kind: Kind) -> bool
    ensures { result ≡ folder_kind kind }
{
    match kind {
        Kind::File => false,
        Kind::Folder => true,
        Kind::Link => false,
        Kind::Other => false,
    }
}

fn is_link(kind: Kind) -> bool
    ensures { result ≡ link_kind kind }
{
    match kind {
        Kind::File => false,
        Kind::Folder => false,
        Kind::Link => true,
        Kind::Other => false,
    }
}
