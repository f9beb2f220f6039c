//! Which of a folder's names a pattern finds.
ghost use Rattle.std.specs.Prelude.{◌≡◌, ◌-◌, ◌≤◌, ◌^◌, false, length, ℕ, Bool};
ghost use Rattle.std.specs.Prelude.{List, [], ◌∷◌, ◌++◌, map, reverse, filter, IfOk};
ghost use Rattle.std.specs.List.{slice_get};
ghost use Rattle.std.specs.Option.{option_map_or};
ghost use Rattle.std.specs.Str.{bytes_eq};
ghost use Rattle.tagging.specs.Patterns.{is_found};
ghost use Rattle.find_file.specs.Folders.{child_of};

use crate::opened::Child;
use mc_text::{Name, Names, NoMemory};
use std::alloc::Global;
use tagging::Pattern;

/// The children with these names, the last one first. The pattern is read once for them all.
pub fn marked(alloc: Global, pattern: &Pattern, names: Names) -> Result<Vec<Child>, NoMemory>
    ensures marks { IfOk result (λ children. reverse children.items ≡ map (child_of pattern.now) names) }
    ensures few { IfOk result (λ children. length children.items ≤ 2 ^ 64) }
{
    let mut found = pattern.found_among(alloc, &names)?.0;
    let mut names = names.0;
    let mut children = Vec::new(alloc);
    while let Some(name) = names.pop() {
        let is_named = take_last(&mut found, &name);
        children.push(Child { name, is_named })?;
    }
    Ok(children)
}

/// Takes a name out of those that were found, where it is the last of them.
fn take_last(found: &mut Vec<Name>, name: &Name) -> bool
    ensures { (finds : List ℕ → Bool) (before : List (List ℕ))
        → found.old.items ≡ filter finds (before ++ name.now ∷ [])
        → (result ≡ finds name.now) × (found.new.items ≡ filter finds before) }
{
    let is_last = is_last(found.as_slice(), name);
    if is_last {
        let _found = found.pop();
    }
    is_last
}

/// Whether a name is the last of these.
fn is_last(names: &[Name], name: &Name) -> bool
    ensures { result ≡ option_map_or (λ last. bytes_eq last name.now)
        (slice_get names.now (length names.now - 1)) false }
{
    match names.last() {
        Some(last) => last.same(name),
        None => false,
    }
}
