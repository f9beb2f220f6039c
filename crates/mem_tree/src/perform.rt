//! Steps are carried out among the names that stand.
ghost use Rattle.std.specs.Prelude.{pos, ◌≡◌, ◌∷◌, ◌++◌, take, drop, ◌<◌, ◌≤◌, ◌+◌};
ghost use Rattle.std.specs.Prelude.{◌-◌, Err, length, List, true, false, Ok, vec_len};
ghost use Rattle.std.specs.Prelude.{vec_capacity, [], IfOk, IfErr, IsOk, OnOk, OnErr};
ghost use Rattle.tree_trait.specs.declared.file_system.FileSystem.{FileSystem};
ghost use Rattle.tree_trait.specs.Change.{Makes, Writes, after_change};
ghost use Rattle.mem_tree.specs.Records.{change_by};
ghost use Rattle.mem_tree.specs.Live.{without_name, IsOnce, IsPlaceBehind};
ghost use Rattle.mem_tree.specs.CallSteps.{step_change, torn_step, standing_after};
ghost use Rattle.mem_tree.specs.CallSteps.{IsPlaced, IsDone, takes_none, Concludes};

use crate::copies::copy_node;
use crate::record::Record;
use crate::step::Step;
use mc_text::{Name, NoMemory};
use std::alloc::Global;
use tree_rules::place_of;
use tree_trait::{FileSystem, NameEdit, Node, Seq, TreeError};

/// Makes a node under a name.
pub fn place(fs: &mut FileSystem, folder: usize, name: Name, node: Node) -> Result<(), NoMemory>
    ensures ok { OnOk result (fs.new ≡ after_change fs.old (Makes folder name node)) }
    ensures err { OnErr result (fs.new ≡ fs.old) }
{
    let number = fs.nodes.len();
    fs.nodes.push(node)?;
    let edit = NameEdit {
        folder,
        name,
        to: Some(number),
    };
    match fs.names.push_front(edit) {
        Ok(()) => Ok(()),
        Err(_) => {
            fs.nodes.pop();
            Err(NoMemory)
        }
    }
}

/// A node under a name, twice: once among those that stand, once in the record.
fn make(
    alloc: Global,
    stands: &mut FileSystem,
    folder: usize,
    name: Name,
    made: Node,
) -> Result<Record, NoMemory>
    ensures stands { OnOk result (stands.new ≡ after_change stands.old (Makes folder name made)) }
    ensures change { IfOk result (λ done. change_by done ≡ Makes folder name made) }
    ensures same { OnErr result (stands.new ≡ stands.old) }
{
    let own = name.copy(alloc)?;
    let node = copy_node(alloc, &made)?;
    place(stands, folder, own, node)?;
    Ok(Record::Make { folder, name, made })
}

/// The place of a name behind the first one.
fn place_behind(names: &[NameEdit], folder: usize, name: &Name) -> Option<usize>
    ensures { IsPlaceBehind folder name.now names.now result }
{
    match names {
        [] => None,
        [_, rest @ ..] => match place_of(rest, folder, name) {
            None => None,
            Some(k) => Some(k + 1),
        },
    }
}

/// Takes a name out behind the first one. It takes no memory.
fn take_behind(names: &mut Seq<NameEdit>, folder: usize, name: &Name)
    ensures { IsOnce (drop 1 names.old)
        → names.new ≡ take 1 names.old ++ without_name folder name.now (drop 1 names.old) }
{
    if let Some(k) = place_behind(names.as_slice(), folder, name) {
        let _ = names.remove(k);
    }
}

/// The name at a place ends, and the new one leads to the node. Only the copy of the new name takes memory.
fn change_name(
    alloc: Global,
    stands: &mut FileSystem,
    at: usize,
    to: usize,
    name: Name,
    moved: usize,
    replaced: Option<usize>,
) -> Result<Record, NoMemory>
    requires placed { at < length stands.old.names }
    requires once { IsOnce stands.old.names }
    ensures stands { OnOk result (stands.new
        ≡ standing_after stands.old (step_change stands.old (Step.Move at to name moved replaced))) }
    ensures change { IfOk result (λ done.
        change_by done ≡ step_change stands.old (Step.Move at to name moved replaced)) }
    ensures same { OnErr result (stands.new ≡ stands.old) }
{
    let edit = NameEdit {
        folder: to,
        name: name.copy(alloc)?,
        to: Some(moved),
    };
    let old = stands.names.replace_in_front(at, edit);
    take_behind(&mut stands.names, to, &name);
    Ok(Record::Move {
        from: old.folder,
        old: old.name,
        to,
        new: name,
        moved,
        replaced,
    })
}

/// The name at a place ends. It moves into the record, so no memory is taken.
fn unlink(stands: &mut FileSystem, at: usize, node: usize) -> Record
    requires placed { at < length stands.old.names }
    requires once { IsOnce stands.old.names }
    ensures stands { stands.new ≡ standing_after stands.old (step_change stands.old (Step.Unlink at node)) }
    ensures change { change_by result ≡ step_change stands.old (Step.Unlink at node) }
{
    let old = stands.names.remove(at);
    Record::Unlink {
        folder: old.folder,
        name: old.name,
        node,
    }
}

/// A file has other bytes, twice: once among those that stand, once in the record.
fn write(
    alloc: Global,
    stands: &mut FileSystem,
    node: usize,
    bytes: Seq<u8>,
    mtime: i64,
) -> Result<Record, NoMemory>
    ensures stands { OnOk result (stands.new ≡ after_change stands.old (Writes node bytes mtime)) }
    ensures change { IfOk result (λ done. change_by done ≡ Writes node bytes mtime) }
    ensures same { OnErr result (stands.new ≡ stands.old) }
{
    let own = Seq::from_slice(alloc, bytes.as_slice())?;
    stands.nodes.set_bytes(node, own, mtime);
    Ok(Record::Write { node, bytes, mtime })
}

/// Carries a step out.
fn perform(alloc: Global, stands: &mut FileSystem, step: Step) -> Result<Record, NoMemory>
    requires placed { IsPlaced stands.old step }
    requires once { IsOnce stands.old.names }
    ensures stands { OnOk result (stands.new ≡ standing_after stands.old (step_change stands.old step)) }
    ensures change { IfOk result (λ done. change_by done ≡ step_change stands.old step) }
    ensures same { OnErr result (stands.new ≡ stands.old) }
    ensures no_memory { takes_none (Ok step) ≡ true → IsOk result }
{
    match step {
        Step::Stay => Ok(Record::Idle),
        Step::Make { folder, name, made } => make(alloc, stands, folder, name, made),
        Step::Move {
            at,
            to,
            name,
            moved,
            replaced,
        } => change_name(alloc, stands, at, to, name, moved, replaced),
        Step::Unlink { at, node } => Ok(unlink(stands, at, node)),
        Step::SetMode { node, mode } => {
            stands.nodes.set_mode(node, mode);
            Ok(Record::SetMode { node, mode })
        }
        Step::Write { node, bytes, mtime } => write(alloc, stands, node, bytes, mtime),
        Step::Flush(node) => Ok(Record::Flush(node)),
    }
}

/// Room for one record more.
fn make_room(records: &mut Vec<Record>) -> Result<(), NoMemory>
    ensures same { records.new.items ≡ records.old.items }
    ensures len { vec_len records.new ≡ vec_len records.old }
    ensures room { OnOk result (vec_len records.new < vec_capacity records.new) }
    ensures had_room { vec_len records.old < vec_capacity records.old → IsOk result }
    ensures grown { vec_capacity records.old ≤ vec_capacity records.new }
{
    records.reserve(1)?;
    Ok(())
}

/// One record more, for which there is room.
fn note(records: &mut Vec<Record>, done: Record)
    requires { vec_len records.old < vec_capacity records.old }
    ensures added { records.new.items ≡ records.old.items ++ done ∷ [] }
    ensures len { vec_len records.new ≡ vec_len records.old + 1 }
    ensures grown { vec_capacity records.old ≤ vec_capacity records.new }
{
    match records.push(done) {
        Ok(()) => {}
        Err(_) => {}
    }
}

/// What a step leaves that fails: of a write a file without bytes, and else nothing.
fn torn(alloc: Global, step: Step) -> Step
    ensures torn { (s : FileSystem) → step_change s result ≡ torn_step step }
    ensures placed { (s : FileSystem) → IsPlaced s result }
    ensures no_memory { takes_none (Ok step) ≡ true → takes_none (Ok result) ≡ true }
{
    match step {
        Step::Write { node, .. } => Step::Write {
            node,
            bytes: Seq::new(alloc),
            mtime: 0,
        },
        Step::Stay => Step::Stay,
        Step::Make { .. } => Step::Stay,
        Step::Move { .. } => Step::Stay,
        Step::Unlink { .. } => Step::Stay,
        Step::SetMode { .. } => Step::Stay,
        Step::Flush(_) => Step::Stay,
    }
}

/// Carries a step out and records it.
fn record(
    alloc: Global,
    stands: &mut FileSystem,
    records: &mut Vec<Record>,
    step: Step,
) -> Result<(), NoMemory>
    requires room { vec_len records.old < vec_capacity records.old }
    requires placed { IsPlaced stands.old step }
    requires once { IsOnce stands.old.names }
    ensures done { OnOk result
        (IsDone stands.old records.old.items (step_change stands.old step) stands.new records.new.items) }
    ensures same { OnErr result (stands.new ≡ stands.old) }
    ensures same_records { OnErr result (records.new.items ≡ records.old.items) }
    ensures no_memory { takes_none (Ok step) ≡ true → IsOk result }
    ensures spare { vec_capacity records.old - vec_len records.old
        ≤ (vec_capacity records.new - vec_len records.new) + 1 }
{
    match perform(alloc, stands, step) {
        Err(e) => Err(e),
        Ok(done) => {
            note(records, done);
            Ok(())
        }
    }
}

/// Carries a step out, unless it is due to fail.
fn carry_out(
    alloc: Global,
    stands: &mut FileSystem,
    records: &mut Vec<Record>,
    due: bool,
    step: Step,
) -> Result<(), TreeError>
    requires room { vec_len records.old < vec_capacity records.old }
    requires placed { IsPlaced stands.old step }
    requires once { IsOnce stands.old.names }
    ensures concludes { Concludes stands.old records.old.items due (Ok step) result stands.new
        records.new.items }
    ensures no_memory { takes_none (Ok step) ≡ true → result ≡ Err TreeError.Memory → ⊥ }
    ensures spare { vec_capacity records.old - vec_len records.old
        ≤ (vec_capacity records.new - vec_len records.new) + 1 }
{
    if due {
        let left = torn(alloc, step);
        return match record(alloc, stands, records, left) {
            Err(_) => Err(TreeError::Memory),
            Ok(()) => Err(TreeError::Fault),
        };
    }
    match record(alloc, stands, records, step) {
        Err(_) => Err(TreeError::Memory),
        Ok(()) => Ok(()),
    }
}

/// Carries a plan out, unless the call is due to fail. Either way it is one record more,
/// unless there is no memory.
pub fn conclude(
    alloc: Global,
    stands: &mut FileSystem,
    records: &mut Vec<Record>,
    due: bool,
    plan: Result<Step, TreeError>,
) -> Result<(), TreeError>
    requires placed { IfOk plan (IsPlaced stands.old) }
    requires no_fault { plan ≡ Err TreeError.Fault → ⊥ }
    requires once { IsOnce stands.old.names }
    ensures concludes { Concludes stands.old records.old.items due plan result stands.new records.new.items }
    ensures no_memory { vec_len records.old < vec_capacity records.old → takes_none plan ≡ true
        → result ≡ Err TreeError.Memory → ⊥ }
    ensures spare { vec_capacity records.old - vec_len records.old
        ≤ (vec_capacity records.new - vec_len records.new) + 1 }
{
    if make_room(records).is_err() {
        return Err(TreeError::Memory);
    }
    match plan {
        Ok(step) => carry_out(alloc, stands, records, due, step),
        Err(TreeError::Memory) => Err(TreeError::Memory),
        Err(e) => {
            note(records, Record::Idle);
            Err(e)
        }
    }
}
