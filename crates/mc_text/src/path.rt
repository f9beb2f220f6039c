//! An absolute path: the names from the root on. Its text has at most 4,096 bytes.
ghost use Rattle.std.specs.Prelude.{◌≡◌, ◌≢◌, ◌+◌, ◌<◌, ◌≤◌, [], ◌∷◌, length, None, Some};
ghost use Rattle.std.specs.Prelude.{IsSome, reverse, option_map, option_copied, IfOk, IfErr};
ghost use Rattle.mc_text.specs.Names.{name_fault};
ghost use Rattle.mc_text.specs.Routes.{spelled_route, path_text, parent_of, last_of};
ghost use Rattle.mc_text.specs.Routes.{same_path, is_prefix, path_fault, route_of};

use crate::error::{NameError, NoMemory, PathError};
use crate::name::Name;
use crate::text::Text;
use std::alloc::Global;
use std::marker::Model;

/// The most bytes that a path's text may have.
pub const PATH_BYTES: usize = 4096;

/// An absolute path. Contracts see its names, the last one first, so that a thing in a folder is its name
/// before the folder's path.
#[derive(Debug, Drop)]
pub struct Path {
    /// From the root on.
    names: Vec<Name>,
    /// The bytes of the names, each with the slash before it.
    spelled_bytes: usize,
}

impl Model for Path {
    ghost use Rattle.std.specs.Prelude.{◌≡◌, ◌≤◌, List, ℕ, length, reverse};
    ghost use Rattle.mc_text.specs.Routes.{spelled_route};

    ghost Value = { List (List ℕ) };

    ghost view = { λ p. reverse p.names.items };

    ghost invariant = { λ p. (p.spelled_bytes ≡ length (spelled_route (reverse p.names.items)))
        × (p.spelled_bytes ≤ 4096) };
}

impl Path {
    /// The root, which has no names. It takes no memory.
    pub fn root(alloc: Global) -> Path
        ensures { result ≡ [] }
    {
        Path {
            names: Vec::new(alloc),
            spelled_bytes: 0,
        }
    }

    /// Reads a path: the names between its slashes, of which there may be several in a row. `NotAbsolute`
    /// where no slash stands first, then `TooLong`, then `BadName` with the first byte of the first
    /// component that is no name.
    pub fn parse(alloc: Global, text: &str) -> Result<Path, PathError>
        ensures read { IfOk result (λ path. path ≡ route_of text.now) }
        ensures sound { IfOk result (λ _. path_fault text.now ≡ None) }
        ensures refused { IfErr result (λ e. e ≢ PathError.Memory → path_fault text.now ≡ Some e) }
    {
        let Some(relative) = text.strip_prefix('/') else {
            return Err(PathError::NotAbsolute);
        };
        if text.len() > PATH_BYTES {
            return Err(PathError::TooLong(text.len()));
        }
        let mut names = Vec::new(alloc);
        let mut spelled_bytes = 0;
        let mut at = 1;
        for component in relative.split('/') {
            if !component.is_empty() {
                names.push(name_at(alloc, at, component)?)?;
                spelled_bytes += 1 + component.len();
            }
            at += component.len() + 1;
        }
        Ok(Path {
            names,
            spelled_bytes,
        })
    }

    /// The names from the root on.
    pub fn names(&self) -> &[Name]
        ensures names { reverse result.now ≡ self.now }
        ensures short { length (spelled_route self.now) ≤ PATH_BYTES }
    {
        self.names.as_slice()
    }

    /// The path of a thing in this folder. `TooLong` has the bytes that its text would have.
    pub fn join(&self, alloc: Global, name: &Name) -> Result<Path, PathError>
        ensures joined { IfOk result (λ path. path ≡ name.now ∷ self.now) }
        ensures fits { IfOk result (λ _. length (spelled_route (name.now ∷ self.now)) ≤ PATH_BYTES) }
        ensures too_long { IfErr result (λ e. e ≢ PathError.Memory
            → (e ≡ PathError.TooLong (length (spelled_route (name.now ∷ self.now))))
            × (PATH_BYTES < length (spelled_route (name.now ∷ self.now)))) }
    {
        let bytes = self.spelled_bytes + 1 + name.text().len();
        if bytes > PATH_BYTES {
            return Err(PathError::TooLong(bytes));
        }
        let mut names = copy_names(alloc, self.names.as_slice())?;
        names.push(name.copy(alloc)?)?;
        Ok(Path {
            names,
            spelled_bytes: bytes,
        })
    }

    /// The folder that holds what stands at this path. The root has none.
    pub fn parent(&self, alloc: Global) -> Result<Option<Path>, NoMemory>
        ensures { IfOk result (λ folder. folder ≡ parent_of self.now) }
    {
        match self.names.as_slice() {
            [] => Ok(None),
            [front @ .., last] => Ok(Some(Path {
                names: copy_names(alloc, front)?,
                spelled_bytes: self.spelled_bytes - 1 - last.text().len(),
            })),
        }
    }

    /// The last name. The root has none.
    pub fn last(&self) -> Option<&str>
        ensures { option_map (λ name. name.now) result ≡ last_of self.now }
    {
        match self.names.as_slice() {
            [] => None,
            [.., last] => Some(last.text()),
        }
    }

    /// Whether two paths are one.
    pub fn same(&self, other: &Path) -> bool
        ensures { result ≡ same_path self.now other.now }
    {
        same_names(self.names.as_slice(), other.names.as_slice())
    }

    /// Whether this path is another one, or that of a folder above what stands there.
    pub fn is_prefix_of(&self, other: &Path) -> bool
        ensures { result ≡ is_prefix self.now other.now }
    {
        let front = self.names.as_slice();
        let names = other.names.as_slice();
        front.len() <= names.len() && same_names(front, &names[..front.len()])
    }

    /// The path as it is written.
    pub fn text(&self, alloc: Global) -> Result<Text, NoMemory>
        ensures text { IfOk result (λ text. text ≡ path_text self.now) }

        // Read again it is this path.
        ensures sound { IfOk result (λ text. path_fault text ≡ None) }
        ensures read_back { IfOk result (λ text. route_of text ≡ self.now) }
    {
        if self.names.is_empty() {
            return Ok(Text::from_str(alloc, "/")?);
        }
        let mut text = String::new(alloc);
        for name in &self.names {
            text.push('/')?;
            text.push_str(name.text())?;
        }
        Ok(Text(text))
    }

    /// The same path once more.
    pub fn copy(&self, alloc: Global) -> Result<Path, NoMemory>
        ensures { IfOk result (λ path. path ≡ self.now) }
    {
        Ok(Path {
            names: copy_names(alloc, self.names.as_slice())?,
            spelled_bytes: self.spelled_bytes,
        })
    }
}

/// Reads the name of a path whose first byte stands at `at` there.
fn name_at(alloc: Global, at: usize, component: &str) -> Result<Name, PathError>
    ensures read { IfOk result (λ name. name ≡ component.now) }
    ensures sound { IfOk result (λ _. name_fault component.now ≡ None) }
    ensures refused { IfErr result (λ e. e ≢ PathError.Memory
        → (e ≡ PathError.BadName at) × (IsSome (name_fault component.now))) }
{
    match Name::new(alloc, component) {
        Ok(name) => Ok(name),
        Err(NameError::Memory) => Err(PathError::Memory),
        Err(_) => Err(PathError::BadName(at)),
    }
}

/// The same names once more.
fn copy_names(alloc: Global, names: &[Name]) -> Result<Vec<Name>, NoMemory>
    ensures { IfOk result (λ copies. copies.items ≡ names.now) }
{
    let mut copies = Vec::new(alloc);
    for name in names {
        copies.push(name.copy(alloc)?)?;
    }
    Ok(copies)
}

/// Whether two paths, each from the root on, have the same names.
fn same_names(mine: &[Name], theirs: &[Name]) -> bool
    ensures { result ≡ same_path (reverse mine.now) (reverse theirs.now) }
{
    match (mine, theirs) {
        ([], []) => true,
        ([my_front @ .., my_last], [front @ .., last]) => my_last.same(last)
            && same_names(my_front, front),
        _ => false,
    }
}
