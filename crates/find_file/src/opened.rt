//! A folder whose children are met one by one.
ghost use Rattle.std.specs.Prelude.{◌≡◌, List, [], ◌∷◌, drop, reverse, IfSome, IfNone};

use mc_text::{Name, Path};
use std::alloc::Global;
use std::marker::Model;

/// A child of a folder, and whether the pattern finds its name.
#[derive(Debug, Drop)]
pub struct Child {
    pub name: Name,
    pub is_named: bool,
}

/// A folder that is open: its path, and the children that are yet to be met, of which it
/// keeps the last one first.
#[derive(Debug, Drop)]
pub struct Opened {
    path: Path,
    children: Vec<Child>,
}

impl Model for Opened {
    ghost use Rattle.std.specs.Prelude.{reverse};
    ghost use Rattle.find_file.specs.Folders.{OpenFolder};

    ghost Value = { OpenFolder };

    ghost view = { λ o. record { path = o.path; children = reverse o.children.items } };
}

impl Opened {
    /// A folder of which nothing is left. It takes no memory.
    pub fn nothing(alloc: Global) -> Opened
        ensures { result ≡ record { path = []; children = [] } }
    {
        Opened {
            path: Path::root(alloc),
            children: Vec::new(alloc),
        }
    }

    /// A folder with these children, the last one first.
    pub fn from_last(path: Path, children: Vec<Child>) -> Opened
        ensures { result ≡ record { path = path; children = reverse children.items } }
    {
        Opened { path, children }
    }

    /// The folder's path.
    pub fn path(&self) -> &Path
        ensures { result.now ≡ self.now.path }
    {
        &self.path
    }

    /// The child that comes next.
    pub fn first(&self) -> Option<&Child>
        ensures some { IfSome result (λ child. self.now.children ≡ child.now ∷ drop 1 self.now.children) }
        ensures none { IfNone result (self.now.children ≡ []) }
    {
        self.children.last()
    }

    /// Passes the child that comes next.
    pub fn pass(&mut self)
        ensures { self.new ≡ record self.old { children = drop 1 self.old.children } }
    {
        let _passed = self.children.pop();
    }
}
