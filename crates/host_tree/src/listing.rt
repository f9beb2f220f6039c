//! What a folder holds.
ghost use Rattle.std.specs.Prelude.{◌≡◌, ◌<◌, ℕ, List, length, Contains};
ghost use Rattle.std.specs.Prelude.{Some, None, IfOk, OnOk, OnErr, IsUtf8};
ghost use Rattle.mc_text.specs.Names.{name_fault};
ghost use Rattle.tree_trait.specs.Answers.{IsAscending};
ghost use Rattle.host_tree.specs.Listing.{IsNamed, IsCounted};

use crate::ranked::RankedName;
use host_devices::{TURNS, answer_of, cause_of, read_once};
use mc_text::{Name, NameError, Names};
use std::alloc::{AllocError, Global};
use std::io::Read;
use std::rt::Files;
use tree_trait::{Children, TreeError};

/// The children of the folder with this path. A name that is no `Name`, because it is not UTF-8 or is too
/// long for one, is counted alone.
pub fn children_of<R: Files>(rt: &R, alloc: Global, text: &str) -> Result<Children, TreeError>
    ensures { IfOk result (λ children. IsAscending children.names) }
{
    // This opens no link, and nothing but a folder.
    let mut folder = answer_of(rt.open_dir(text))?;
    let Children { names, unnamed } = read_names(alloc, &mut folder)?;
    let names = Names(in_order(alloc, names.0)?);
    Ok(Children { names, unnamed })
}

/// Reads the names to their end. They come in no order, and in a folder that changes
/// meanwhile one may come twice.
fn read_names<D: Read>(alloc: Global, folder: &mut D) -> Result<Children, TreeError> {
    let mut found = Children {
        names: Names::new(alloc),
        unnamed: 0,
    };
    let mut bytes = [0u8; 65536];
    for _ in 0..TURNS {
        match read_once(folder, &mut bytes) {
            Ok(0) => return Ok(found),
            Ok(count) => add_names(alloc, &bytes[..count], &mut found)?,
            Err(error) => return Err(cause_of(&error)),
        }
    }
    Err(TreeError::Fault)
}

/// Adds names, each of which is ended by a NUL.
fn add_names(alloc: Global, bytes: &[u8], found: &mut Children) -> Result<(), TreeError> {
    for name in bytes.split(|byte| *byte == 0) {
        if !name.is_empty() {
            add_name(alloc, name, found)?;
        }
    }
    Ok(())
}

/// Adds a name, but for the two that each folder has: its own and that of the folder above it.
fn add_name(alloc: Global, bytes: &[u8], found: &mut Children) -> Result<(), TreeError>
    ensures named { OnOk result (IsUtf8 bytes.now → name_fault bytes.now ≡ None
        → IsNamed bytes.now found.old found.new) }
    ensures dots { OnOk result (IsUtf8 bytes.now → name_fault bytes.now ≡ Some NameError.Dots
        → found.new ≡ found.old) }
    ensures no_text { OnOk result (¬ IsUtf8 bytes.now → IsCounted found.old found.new) }
    ensures too_long { OnOk result (IsUtf8 bytes.now → 255 < length bytes.now
        → IsCounted found.old found.new) }
    ensures refused { OnErr result (found.new ≡ found.old) }
{
    let Ok(text) = std::str::from_utf8(bytes) else {
        found.unnamed = found.unnamed.saturating_add(1);
        return Ok(());
    };
    match Name::new(alloc, text) {
        Ok(name) => match found.names.push(name) {
            Ok(()) => Ok(()),
            Err(_) => Err(TreeError::Memory),
        },
        Err(NameError::Dots) => Ok(()),
        Err(NameError::Memory) => Err(TreeError::Memory),
        Err(_) => {
            found.unnamed = found.unnamed.saturating_add(1);
            Ok(())
        }
    }
}

/// The names in the order of their bytes, each once.
fn in_order(alloc: Global, names: Vec<Name>) -> Result<Vec<Name>, TreeError>
    ensures ascending { IfOk result (λ sorted. IsAscending sorted.items) }
    ensures keeps { IfOk result (λ sorted. (name : List ℕ) → Contains names.items name
        → Contains sorted.items name) }
    ensures adds_none { IfOk result
        (λ sorted. (name : List ℕ) → Contains sorted.items name → Contains names.items name) }
{
    let sorted = sorted_once(ranked(alloc, names)?);
    let names = unranked(alloc, sorted)?;
    Ok(names)
}

/// The names in the order of their bytes, each once.
fn sorted_once(mut names: Vec<RankedName>) -> Vec<RankedName>
    ensures ascending { IsAscending result.items }
    ensures keeps { (name : List ℕ) → Contains names.items name → Contains result.items name }
    ensures adds_none { (name : List ℕ) → Contains result.items name → Contains names.items name }
{
    names.sort_unstable_by(|one, other| one.order(other));
    names.dedup_by(|later, earlier| later.same(earlier));
    names
}

/// The names with their numbers.
fn ranked(alloc: Global, names: Vec<Name>) -> Result<Vec<RankedName>, TreeError>
    ensures { IfOk result (λ ranked. ranked.items ≡ names.items) }
{
    let mut ranked = Vec::with_capacity(alloc, names.len())?;
    for name in names {
        let named = RankedName::of(name);
        ranked.push(named).map_err(AllocError::from)?;
    }
    Ok(ranked)
}

/// The names without their numbers.
fn unranked(alloc: Global, ranked: Vec<RankedName>) -> Result<Vec<Name>, TreeError>
    ensures { IfOk result (λ names. names.items ≡ ranked.items) }
{
    let mut names = Vec::with_capacity(alloc, ranked.len())?;
    for name in ranked {
        names.push(name.into_name()).map_err(AllocError::from)?;
    }
    Ok(names)
}
