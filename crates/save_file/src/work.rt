//! The next piece of a save's work, by its stage.
ghost use Rattle.std.specs.Prelude.{◌≡◌, ◌≤◌, Bool, None, drop, length, take, true};
ghost use Rattle.mc_text.specs.Routes.{Route};
ghost use Rattle.copy_file.specs.LastSteps.{left_at};
ghost use Rattle.save_file.specs.Saving.{IsOwn, chunk_at, piece_at, saving};
ghost use Rattle.save_file.specs.SaveSteps.{StepsOn};

use crate::looks::mode_to_take;
use crate::piece::{Piece, next_piece};
use copy_file::{FileCopy, SourceFacts, Stage};
use job_reports::{Did, PartTest, StepResult};
use std::alloc::Global;
use tree_trait::Tree;

/// The most bytes that go to the part in one step.
const CHUNK_BYTES: usize = 65_536;

/// Does the next piece of work.
pub(crate) fn work<T: Tree, P: PartTest>(
    alloc: Global,
    tree: &mut T,
    parts: &P,
    copy: &mut FileCopy,
    bytes: &[u8],
) -> StepResult
    requires ready { left_at copy.old.stage ≡ None }
    requires own { IsOwn (saving copy.old bytes.now) }
    ensures { StepsOn (λ path. P.is_free parts.now path ≡ true) (saving copy.old bytes.now)
        (saving copy.new bytes.now)
        result.did result.calls (T.contents tree.old) (T.contents tree.new) (T.fault_count tree.old)
        (T.fault_count tree.new) }
{
    match next_piece(copy.stage()) {
        Piece::Make => make(alloc, tree, parts, copy, bytes),
        Piece::Write(done) => write(alloc, tree, copy, bytes, done),
        Piece::Settle => copy.step(alloc, tree, parts),
    }
}

/// Looks at the target, and makes the part of a file with so many bytes.
fn make<T: Tree, P: PartTest>(
    alloc: Global,
    tree: &mut T,
    parts: &P,
    copy: &mut FileCopy,
    bytes: &[u8],
) -> StepResult
    requires stage { copy.old.stage ≡ Stage.Begin }
    requires own { IsOwn (saving copy.old bytes.now) }
    ensures { StepsOn (λ path. P.is_free parts.now path ≡ true) (saving copy.old bytes.now)
        (saving copy.new bytes.now)
        result.did result.calls (T.contents tree.old) (T.contents tree.new) (T.fault_count tree.old)
        (T.fault_count tree.new) }
{
    let mode = match mode_to_take(alloc, tree, copy.target(), copy.folder()) {
        Ok(mode) => mode,
        Err(trouble) => {
            return StepResult {
                did: Did::Troubled(trouble),
                calls: 0,
            };
        }
    };
    let facts = SourceFacts {
        size: bytes.len() as u64,
        mode,
    };
    copy.begin_with(alloc, tree, parts, facts)
}

/// Writes the next bytes.
fn write<T: Tree>(
    alloc: Global,
    tree: &mut T,
    copy: &mut FileCopy,
    bytes: &[u8],
    done: u64,
) -> StepResult
    requires piece { piece_at copy.old.stage ≡ Piece.Write done }
    requires own { IsOwn (saving copy.old bytes.now) }
    ensures { (free : Route → Bool)
        → StepsOn (λ path. free path ≡ true) (saving copy.old bytes.now) (saving copy.new bytes.now)
        result.did result.calls (T.contents tree.old) (T.contents tree.new) (T.fault_count tree.old)
        (T.fault_count tree.new) }
{
    copy.fill_with(alloc, tree, next_bytes(bytes, done))
}

/// The bytes behind so many, as many as go to the part in one step.
fn next_bytes(bytes: &[u8], done: u64) -> &[u8]
    requires { done ≤ length bytes.now }
    ensures { result.now ≡ chunk_at bytes.now done }
{
    first_bytes(bytes_behind(bytes, done), CHUNK_BYTES)
}

fn bytes_behind(bytes: &[u8], done: u64) -> &[u8]
    requires { done ≤ length bytes.now }
    ensures { result.now ≡ drop done bytes.now }
{
    &bytes[done as usize..]
}

fn first_bytes(bytes: &[u8], most: usize) -> &[u8]
    ensures { result.now ≡ take most bytes.now }
{
    if bytes.len() <= most {
        bytes
    } else {
        &bytes[..most]
    }
}
