//! What the changing calls are to do.
ghost use Rattle.std.specs.Prelude.{◌≡◌, ◌∷◌, ◌+◌, ◌^◌, ◌≤◌, Some, None};
ghost use Rattle.std.specs.Prelude.{Ok, true, length, reverse, IfOk, pos};
ghost use Rattle.mc_text.specs.declared.kind.Kind.TheVariants.{File, Folder, Link};
ghost use Rattle.tree_trait.specs.FileSystem.{find, node};
ghost use Rattle.tree_trait.specs.Calls.{MakeFile, WriteAt, SetMode, MakeFolder, MakeLink};
ghost use Rattle.tree_trait.specs.Calls.{Rename, RemoveFile, RemoveFolder, SyncFile, SyncFolder};
ghost use Rattle.tree_trait.specs.Refusals.{refusal_of};
ghost use Rattle.tree_trait.specs.Change.{Nothing, Makes, Moves, Removes};
ghost use Rattle.tree_trait.specs.Change.{of_name, found_node, overwritten_bytes};
ghost use Rattle.mem_tree.specs.CallSteps.{Plans, PlansTo, IsReady, takes_none};

use crate::links::link_node;
use crate::step::Step;
use mc_text::{Kind, Name, NoMemory, Path};
use std::alloc::Global;
use tree_rules::{
    bytes_at, find_in, found, found_in, place_of, refuse_make, refuse_remove_file,
    refuse_remove_folder, refuse_rename, refuse_set_mode, refuse_sync_file, refuse_sync_folder,
    refuse_write,
};
use tree_trait::{FileSystem, Node, Seq, TreeError};

/// The step that makes a node at a path.
fn make_step(alloc: Global, fs: &FileSystem, names: &[Name], made: Node) -> Result<Step, NoMemory>
    ensures { IfOk result
        (IsReady fs.now (of_name fs.now (reverse names.now) (λ f name. Makes f name made)) Nothing) }
{
    match names {
        [] => Ok(Step::Stay),
        [front @ .., name] => Ok(Step::Make {
            folder: found(fs, front),
            name: name.copy(alloc)?,
            made,
        }),
    }
}

/// A plan for the making of a node.
fn plan_make(alloc: Global, fs: &FileSystem, names: &[Name], made: Node) -> Result<Step, TreeError>
    ensures { PlansTo fs.now (refusal_of fs.now (MakeFile (reverse names.now) 0))
        (of_name fs.now (reverse names.now) (λ f name. Makes f name made)) Nothing result }
{
    match refuse_make(fs, names) {
        Some(e) => Err(e),
        None => match make_step(alloc, fs, names, made) {
            Err(_) => Err(TreeError::Memory),
            Ok(step) => Ok(step),
        },
    }
}

/// A plan for `make_file`, with the time that the file is given.
pub fn plan_make_file(
    alloc: Global,
    fs: &FileSystem,
    names: &[Name],
    mode: u16,
    time: i64,
) -> Result<Step, TreeError>
    ensures { Plans fs.now (MakeFile (reverse names.now) mode) time result }
{
    let made = Node {
        kind: Kind::File,
        bytes: Seq::new(alloc),
        mode,
        mtime: time,
        unnamed: 0,
    };
    plan_make(alloc, fs, names, made)
}

/// A plan for `make_folder`.
pub fn plan_make_folder(
    alloc: Global,
    fs: &FileSystem,
    names: &[Name],
    mode: u16,
    time: i64,
) -> Result<Step, TreeError>
    ensures { Plans fs.now (MakeFolder (reverse names.now) mode) time result }
{
    let made = Node {
        kind: Kind::Folder,
        bytes: Seq::new(alloc),
        mode,
        mtime: 0,
        unnamed: 0,
    };
    let _ = time;
    plan_make(alloc, fs, names, made)
}

/// A plan for `make_link`.
pub fn plan_make_link(
    alloc: Global,
    fs: &FileSystem,
    names: &[Name],
    text: &str,
    time: i64,
) -> Result<Step, TreeError>
    ensures { Plans fs.now (MakeLink (reverse names.now) text.now) time result }
{
    let _ = time;
    match link_node(alloc, text) {
        Err(_) => Err(TreeError::Memory),
        Ok(made) => plan_make(alloc, fs, names, made),
    }
}

/// Bytes with others written over them at an offset, zeros between.
fn overwrite(alloc: Global, old: &[u8], offset: u64, bytes: &[u8]) -> Result<Seq<u8>, NoMemory>
    requires { offset + length bytes.now ≤ 2 ^ 63 }
    ensures { IfOk result (λ all. all ≡ overwritten_bytes old.now offset bytes.now) }
{
    let start = offset as usize;
    let mut all = Vec::from_slice(alloc, &old[..start.min(old.len())])?;
    all.resize(start, 0)?;
    all.extend_from_slice(bytes)?;
    let end = old.len().min(start + bytes.len());
    all.extend_from_slice(&old[end..])?;
    Ok(Seq::from_vec(all))
}

/// A plan for `write_at`, with the time that the file is given.
pub fn plan_write_at(
    alloc: Global,
    fs: &FileSystem,
    names: &[Name],
    offset: u64,
    bytes: &[u8],
    time: i64,
) -> Result<Step, TreeError>
    requires { offset + length bytes.now ≤ 2 ^ 63 }
    ensures { Plans fs.now (WriteAt (reverse names.now) offset bytes.now) time result }
{
    match refuse_write(fs, names, offset, bytes) {
        Some(e) => Err(e),
        None => {
            let node = found(fs, names);
            match overwrite(alloc, bytes_at(fs, node), offset, bytes) {
                Err(_) => Err(TreeError::Memory),
                Ok(all) => Ok(Step::Write {
                    node,
                    bytes: all,
                    mtime: time,
                }),
            }
        }
    }
}

/// A plan for `set_mode`.
pub fn plan_set_mode(
    fs: &FileSystem,
    names: &[Name],
    mode: u16,
    time: i64,
) -> Result<Step, TreeError>
    ensures plan { Plans fs.now (SetMode (reverse names.now) mode) time result }
    ensures no_memory { takes_none result ≡ true }
{
    let _ = time;
    match refuse_set_mode(fs, names, mode) {
        Some(e) => Err(e),
        None => Ok(Step::SetMode {
            node: found(fs, names),
            mode,
        }),
    }
}

/// The step that ends a name in the folder of a path.
fn unlink_in(fs: &FileSystem, front: &[Name], name: &Name) -> Step
    requires { find fs.now (name.now ∷ reverse front.now)
        ≡ Some (found_node fs.now (name.now ∷ reverse front.now)) }
    ensures no_memory { takes_none (Ok result) ≡ true }
    ensures ready { IsReady fs.now (Removes (found_node fs.now (reverse front.now)) name.now
        (found_node fs.now (name.now ∷ reverse front.now))) Nothing result }
{
    match place_of(fs.names.as_slice(), found(fs, front), name) {
        None => Step::Stay,
        Some(at) => Step::Unlink {
            at,
            node: found_in(fs, front, name),
        },
    }
}

/// The step that ends the name of a path.
fn unlink_step(fs: &FileSystem, names: &[Name]) -> Step
    requires { find fs.now (reverse names.now) ≡ Some (found_node fs.now (reverse names.now)) }
    ensures no_memory { takes_none (Ok result) ≡ true }
    ensures ready { IsReady fs.now (of_name fs.now (reverse names.now)
        (λ f name. Removes f name (found_node fs.now (reverse names.now)))) Nothing result }
{
    match names {
        [] => Step::Stay,
        [front @ .., name] => unlink_in(fs, front, name),
    }
}

/// A plan for `remove_file`.
pub fn plan_remove_file(fs: &FileSystem, names: &[Name], time: i64) -> Result<Step, TreeError>
    ensures plan { Plans fs.now (RemoveFile (reverse names.now)) time result }
    ensures no_memory { takes_none result ≡ true }
{
    let _ = time;
    match refuse_remove_file(fs, names) {
        Some(e) => Err(e),
        None => Ok(unlink_step(fs, names)),
    }
}

/// A plan for `remove_folder`.
pub fn plan_remove_folder(fs: &FileSystem, names: &[Name], time: i64) -> Result<Step, TreeError>
    ensures plan { Plans fs.now (RemoveFolder (reverse names.now)) time result }
    ensures no_memory { takes_none result ≡ true }
{
    let _ = time;
    match refuse_remove_folder(fs, names) {
        Some(e) => Err(e),
        None => Ok(unlink_step(fs, names)),
    }
}

/// The step that moves a name of one folder to a name of another.
fn move_in(
    alloc: Global,
    fs: &FileSystem,
    up: &[Name],
    old: &Name,
    over: &[Name],
    new: &Name,
) -> Result<Step, NoMemory>
    requires { find fs.now (old.now ∷ reverse up.now) ≡ Some (found_node fs.now (old.now ∷ reverse up.now)) }
    ensures { IfOk result (IsReady fs.now
        (Moves (found_node fs.now (reverse up.now)) old.now (found_node fs.now (reverse over.now)) new.now
        (found_node fs.now (old.now ∷ reverse up.now)) (find fs.now (new.now ∷ reverse over.now))) Nothing) }
{
    match place_of(fs.names.as_slice(), found(fs, up), old) {
        None => Ok(Step::Stay),
        Some(at) => Ok(Step::Move {
            at,
            to: found(fs, over),
            name: new.copy(alloc)?,
            moved: found_in(fs, up, old),
            replaced: find_in(fs, over, new),
        }),
    }
}

/// The step that moves the name of a path to that of another.
fn move_step(alloc: Global, fs: &FileSystem, from: &[Name], to: &[Name]) -> Result<Step, NoMemory>
    requires { find fs.now (reverse from.now) ≡ Some (found_node fs.now (reverse from.now)) }
    ensures { IfOk result
        (IsReady fs.now (of_name fs.now (reverse from.now) (λ f old. of_name fs.now (reverse to.now) (λ g new.
        Moves f old g new (found_node fs.now (reverse from.now)) (find fs.now (reverse to.now))))) Nothing) }
{
    match from {
        [] => Ok(Step::Stay),
        [up @ .., old] => match to {
            [] => Ok(Step::Stay),
            [over @ .., new] => move_in(alloc, fs, up, old, over, new),
        },
    }
}

/// A plan for `rename`.
pub fn plan_rename(
    alloc: Global,
    fs: &FileSystem,
    from: &Path,
    to: &Path,
    time: i64,
) -> Result<Step, TreeError>
    ensures { Plans fs.now (Rename from.now to.now) time result }
{
    let _ = time;
    match refuse_rename(fs, from, to) {
        Some(e) => Err(e),
        None => {
            if from.same(to) {
                return Ok(Step::Stay);
            }
            match move_step(alloc, fs, from.names(), to.names()) {
                Err(_) => Err(TreeError::Memory),
                Ok(step) => Ok(step),
            }
        }
    }
}

/// A plan for `sync_file`.
pub fn plan_sync_file(fs: &FileSystem, names: &[Name], time: i64) -> Result<Step, TreeError>
    ensures plan { Plans fs.now (SyncFile (reverse names.now)) time result }
    ensures no_memory { takes_none result ≡ true }
{
    let _ = time;
    match refuse_sync_file(fs, names) {
        Some(e) => Err(e),
        None => Ok(Step::Flush(found(fs, names))),
    }
}

/// A plan for `sync_folder`.
pub fn plan_sync_folder(fs: &FileSystem, names: &[Name], time: i64) -> Result<Step, TreeError>
    ensures plan { Plans fs.now (SyncFolder (reverse names.now)) time result }
    ensures no_memory { takes_none result ≡ true }
{
    let _ = time;
    match refuse_sync_folder(fs, names) {
        Some(e) => Err(e),
        None => Ok(Step::Flush(found(fs, names))),
    }
}
