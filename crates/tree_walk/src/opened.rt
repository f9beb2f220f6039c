//! A folder whose children are met one by one.
ghost use Rattle.std.specs.Prelude.{◌≡◌, ◌≤◌, ◌^◌, ◌||◌, [], ◌∷◌, drop};
ghost use Rattle.std.specs.Prelude.{length, false, reverse, IfSome, IfNone};
ghost use Rattle.std.specs.List.{list_any};
ghost use Rattle.tree_walk.specs.Places.{is_named_as_part as named_as_part, is_one_of as one_of};

use mc_text::{Name, Names, Path};
use std::alloc::Global;
use std::marker::Model;

/// A folder that is open: its path, the names in it that are yet to be met, of which it keeps the last one
/// first, and whether one of those that were met was left where it stands.
#[derive(Debug, Drop)]
pub struct Opened {
    path: Path,
    names: Vec<Name>,
    spared: bool,
    /// Whether one of the names may begin as the name of a part does. In most folders none does, and then
    /// no part's name has to be compared with all that are yet to be met, as each part that is begun would
    /// have it. It costs one look at each name as the folder is opened.
    may_have_parts: bool,
}

impl Model for Opened {
    ghost use Rattle.std.specs.Prelude.{◌≡◌, false, reverse};
    ghost use Rattle.std.specs.List.{list_any};
    ghost use Rattle.tree_walk.specs.Places.{OpenFolder, is_named_as_part};

    ghost Value = { OpenFolder };

    ghost view = { λ o. record { path = o.path; names = reverse o.names.items; spared = o.spared } };

    ghost invariant = { λ o. o.may_have_parts ≡ false → list_any is_named_as_part o.names.items ≡ false };
}

impl Opened {
    /// No folder yet. It takes no memory.
    pub fn nothing(alloc: Global) -> Opened
        ensures { result ≡ record { path = []; names = []; spared = false } }
    {
        Opened {
            path: Path::root(alloc),
            names: Vec::new(alloc),
            spared: false,
            may_have_parts: false,
        }
    }

    /// A folder with these children, none of which was met yet.
    pub fn new(path: Path, names: Names) -> Opened
        ensures opened { result ≡ record { path = path; names = names; spared = false } }
        ensures few { length names ≤ 2 ^ 64 }
    {
        let mut names = names.0;
        names.reverse();
        let may_have_parts = is_any_named_as_part(names.as_slice());
        Opened {
            path,
            names,
            spared: false,
            may_have_parts,
        }
    }

    /// The folder's path.
    pub fn path(&self) -> &Path
        ensures { result.now ≡ self.now.path }
    {
        &self.path
    }

    /// The name that is met next.
    pub fn first(&self) -> Option<&Name>
        ensures some { IfSome result (λ name. self.now.names ≡ name.now ∷ drop 1 self.now.names) }
        ensures none { IfNone result (self.now.names ≡ []) }
    {
        self.names.last()
    }

    /// Whether this name is yet to be met.
    #[tactic(auto, using(crate::proofs::Ahead::one_reversed, crate::proofs::Ahead::none_named_so))]
    pub fn has(&self, name: &Name) -> bool
        ensures { result ≡ one_of name.now self.now.names }
    {
        if !self.may_have_parts && is_named_as_part(name) {
            return false;
        }
        is_one_of(name, self.names.as_slice())
    }

    /// Whether something in it was left.
    pub fn is_spared(&self) -> bool
        ensures { result ≡ self.now.spared }
    {
        self.spared
    }

    /// Passes the name that is met next.
    pub fn pass(&mut self)
        ensures { self.new ≡ record self.old { names = drop 1 self.old.names } }
    {
        let _passed = self.names.pop();
    }

    /// Something in it may have been left.
    pub fn note(&mut self, left: bool)
        ensures { self.new ≡ record self.old { spared = self.old.spared || left } }
    {
        self.spared = either(self.spared, left);
    }

    /// The path of a folder that is done with.
    pub fn into_path(self) -> Path
        ensures { result ≡ self.path }
    {
        self.path
    }
}

fn is_one_of(name: &Name, names: &[Name]) -> bool
    ensures { result ≡ one_of name.now names.now }
{
    names.iter().any(|met| met.same(name))
}

/// Whether the name begins as that of a part does.
fn is_named_as_part(name: &Name) -> bool
    ensures { result ≡ named_as_part name.now }
{
    name.text().as_bytes().starts_with(b".mc.")
}

fn is_any_named_as_part(names: &[Name]) -> bool
    ensures { result ≡ list_any named_as_part names.now }
{
    names.iter().any(|name| is_named_as_part(name))
}

/// One of them. (The prover keeps no branch of a call.)
fn either(a: bool, b: bool) -> bool
    ensures { result ≡ (a || b) }
{
    a || b
}
