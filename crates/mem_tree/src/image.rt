//! What a crash may leave of a tree in memory.
ghost use Rattle.std.specs.Prelude.{◌≡◌, ◌∷◌, ◌||◌, replicate, if◌then◌else◌, IfOk, OnOk};
ghost use Rattle.tree_trait.specs.Change.{after_change, edit};
ghost use Rattle.tree_trait.specs.CrashImages.{is_settled, is_unsynced, is_write, without, image_by_bits};
ghost use Rattle.mem_tree.specs.Records.{change_by, changes_by};
ghost use Rattle.mem_tree.specs.Fills.{filled_bytes};

use crate::choice::Fill;
use crate::copies::{copy_node, copy_of};
use crate::perform::place;
use crate::record::Record;
use mc_text::{Name, NoMemory};
use std::alloc::Global;
use tree_trait::{FileSystem, NameEdit, Seq};

/// What is left of bytes that were written.
fn fill_of(alloc: Global, fill: Fill, bytes: &[u8]) -> Result<Seq<u8>, NoMemory>
    ensures { IfOk result (λ left. left ≡ filled_bytes fill bytes.now) }
{
    match fill {
        Fill::Written => Ok(Seq::from_slice(alloc, bytes)?),
        Fill::Nothing => Ok(Seq::new(alloc)),
        Fill::Zeros => zeros(alloc, bytes.len(), 0),
        Fill::Junk(byte) => zeros(alloc, bytes.len(), byte),
    }
}

/// So many times the same byte.
fn zeros(alloc: Global, count: usize, byte: u8) -> Result<Seq<u8>, NoMemory>
    ensures { IfOk result (λ all. all ≡ replicate count byte) }
{
    let mut all = Vec::new(alloc);
    all.resize(count, byte)?;
    Ok(Seq::from_vec(all))
}

/// Nothing of a node waits any more after these records.
fn is_settled(records: &[Record], i: usize) -> bool
    ensures { result ≡ is_settled i (changes_by records.now) }
{
    match records {
        [] => false,
        [first, rest @ ..] => match first {
            Record::Flush(j) => *j == i || is_settled(rest, i),
            Record::Unlink { folder, node, .. } => {
                (*node == i && is_settled(rest, *folder)) || is_settled(rest, i)
            }
            Record::Move {
                from,
                to,
                replaced,
                ..
            } => match replaced {
                None => is_settled(rest, i),
                Some(j) => {
                    (*j == i && (is_settled(rest, *from) && is_settled(rest, *to)))
                        || is_settled(rest, i)
                }
            },
            Record::Idle => is_settled(rest, i),
            Record::Make { .. } => is_settled(rest, i),
            Record::SetMode { .. } => is_settled(rest, i),
            Record::Write { .. } => is_settled(rest, i),
        },
    }
}

/// A record waits for a sync after these later ones.
fn is_unsynced(first: &Record, later: &[Record]) -> bool
    ensures { result ≡ is_unsynced (change_by first.now) (changes_by later.now) }
{
    match first {
        Record::Idle => false,
        Record::Make { folder, .. } => !is_settled(later, *folder),
        Record::Move { from, to, .. } => !(is_settled(later, *from) && is_settled(later, *to)),
        Record::Unlink { folder, .. } => !is_settled(later, *folder),
        Record::SetMode { node, .. } => !is_settled(later, *node),
        Record::Write { node, .. } => !is_settled(later, *node),
        Record::Flush(_) => false,
    }
}

/// A record is a write.
fn is_write(first: &Record) -> bool
    ensures { result ≡ is_write (change_by first.now) }
{
    match first {
        Record::Write { .. } => true,
        Record::Idle => false,
        Record::Make { .. } => false,
        Record::Move { .. } => false,
        Record::Unlink { .. } => false,
        Record::SetMode { .. } => false,
        Record::Flush(_) => false,
    }
}

/// One edit more of a name.
fn add_edit(
    alloc: Global,
    left: &mut FileSystem,
    folder: usize,
    name: &Name,
    to: Option<usize>,
) -> Result<(), NoMemory>
    ensures { OnOk result (left.new ≡ record left.old { names = edit folder name.now to ∷ left.old.names }) }
{
    let edit = NameEdit {
        folder,
        name: name.copy(alloc)?,
        to,
    };
    left.names.push_front(edit)?;
    Ok(())
}

/// A change that stands.
fn apply(alloc: Global, left: &mut FileSystem, first: &Record) -> Result<(), NoMemory>
    ensures { OnOk result (left.new ≡ after_change left.old (change_by first.now)) }
{
    match first {
        Record::Idle => Ok(()),
        Record::Make { folder, name, made } => {
            place(left, *folder, name.copy(alloc)?, copy_node(alloc, made)?)
        }
        Record::Move {
            from,
            old,
            to,
            new,
            moved,
            ..
        } => {
            add_edit(alloc, left, *from, old, None)?;
            add_edit(alloc, left, *to, new, Some(*moved))
        }
        Record::Unlink { folder, name, .. } => add_edit(alloc, left, *folder, name, None),
        Record::SetMode { node, mode } => {
            left.nodes.set_mode(*node, *mode);
            Ok(())
        }
        Record::Write { node, bytes, mtime } => {
            let own = Seq::from_slice(alloc, bytes.as_slice())?;
            left.nodes.set_bytes(*node, own, *mtime);
            Ok(())
        }
        Record::Flush(_) => Ok(()),
    }
}

/// A change that is lost.
fn lose(alloc: Global, left: &mut FileSystem, first: &Record, fill: Fill) -> Result<(), NoMemory>
    ensures { OnOk result (left.new ≡ without (filled_bytes fill) left.old (change_by first.now)) }
{
    match first {
        Record::Make { made, .. } => {
            left.nodes.push(copy_node(alloc, made)?)?;
            Ok(())
        }
        Record::Write { node, bytes, mtime } => {
            let rest = fill_of(alloc, fill, bytes.as_slice())?;
            left.nodes.set_bytes(*node, rest, *mtime);
            Ok(())
        }
        Record::Idle => Ok(()),
        Record::Move { .. } => Ok(()),
        Record::Unlink { .. } => Ok(()),
        Record::SetMode { .. } => Ok(()),
        Record::Flush(_) => Ok(()),
    }
}

/// A change that stands or is lost.
fn leave(
    alloc: Global,
    left: &mut FileSystem,
    first: &Record,
    stands: bool,
    fill: Fill,
) -> Result<(), NoMemory>
    ensures { OnOk result (left.new ≡ (if stands then after_change left.old (change_by first.now)
        else without (filled_bytes fill) left.old (change_by first.now))) }
{
    if stands {
        apply(alloc, left, first)
    } else {
        lose(alloc, left, first, fill)
    }
}

/// Makes the changes that stand, and leaves out those that are lost.
fn choose(
    alloc: Global,
    left: &mut FileSystem,
    records: &[Record],
    keep: &[bool],
    fill: Fill,
) -> Result<(), NoMemory>
    ensures { OnOk result
        (left.new ≡ image_by_bits (filled_bytes fill) left.old (changes_by records.now) keep.now) }
{
    match records {
        [] => Ok(()),
        [first, rest @ ..] => {
            let waits = is_unsynced(first, rest);
            match keep {
                [] => {
                    leave(alloc, left, first, !waits, fill)?;
                    choose(alloc, left, rest, keep, fill)
                }
                [bit, more @ ..] => {
                    if waits && !is_write(first) {
                        leave(alloc, left, first, *bit, fill)?;
                        return choose(alloc, left, rest, more, fill);
                    }
                    leave(alloc, left, first, !waits, fill)?;
                    choose(alloc, left, rest, keep, fill)
                }
            }
        }
    }
}

/// The image of a choice.
pub fn image_of(
    alloc: Global,
    opening: &FileSystem,
    records: &[Record],
    keep: &[bool],
    fill: Fill,
) -> Result<FileSystem, NoMemory>
    ensures { IfOk result
        (λ image. image ≡ image_by_bits (filled_bytes fill) opening.now (changes_by records.now) keep.now) }
{
    let mut image = copy_of(alloc, opening)?;
    choose(alloc, &mut image, records, keep, fill)?;
    Ok(image)
}
