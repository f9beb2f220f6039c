//! One chunk of a copy: the next bytes of the source go to the part.
ghost use Rattle.std.specs.Prelude.{◌≡◌, ◌<◌, ◌≤◌, ◌^◌, length, IfOk, MatchResult};
ghost use Rattle.tree_trait.specs.Change.{current};
ghost use Rattle.tree_trait.specs.Answers.{IfKnown};
ghost use Rattle.copy_file.specs.Chunks.{HasCount, Wrote};
ghost use Rattle.copy_file.specs.CopyCalls.{ReadStops, next_bytes as bytes_of};
ghost use Rattle.job_reports.specs.Reading.{Peeks};

use crate::item::CopyPaths;
use crate::place::write_part;
use crate::stage::SourceFacts;
use job_reports::{
    Cause, Stop, Trouble, out_of_memory, reading_trouble, stopped_before, trouble_with_path,
};
use mc_text::Path;
use std::alloc::Global;
use tree_trait::Tree;

/// The most bytes that go to the part in one step.
const CHUNK_BYTES: u64 = 65_536;

/// Writes the next bytes of the source to the part, and says how many these were.
pub(crate) fn write_chunk<T: Tree>(
    alloc: Global,
    tree: &mut T,
    item: &CopyPaths,
    part: &Path,
    facts: SourceFacts,
    done: u64,
) -> Result<u32, Stop>
    requires unfilled { done < facts.size }
    requires in_range { facts.size ≤ 2 ^ 63 }
    ensures { Wrote item.now part.now facts done result (T.contents tree.old) (T.contents tree.new)
        (T.fault_count tree.old) (T.fault_count tree.new) }
{
    match next_bytes(alloc, tree, item, facts, done) {
        Ok(bytes) => match write_part(alloc, tree, part, done, bytes.as_slice()) {
            Ok(_) => Ok(bytes.len() as u32),
            Err(stop) => Err(stop),
        },
        Err(trouble) => Err(stopped_before(trouble)),
    }
}

/// The next bytes of the source. There are none where it ends before it should.
fn next_bytes<T: Tree>(
    alloc: Global,
    tree: &mut T,
    item: &CopyPaths,
    facts: SourceFacts,
    done: u64,
) -> Result<Vec<u8>, Trouble>
    requires unfilled { done < facts.size }
    ensures known { IfKnown (T.contents tree.old) (λ log. MatchResult result
        (λ bytes. bytes.items ≡ bytes_of (current log) item.now.source facts done)
        (λ trouble. ReadStops (current log) item.now.source facts done trouble.cause trouble.path)) }
    ensures some { IfOk result (λ bytes. HasCount facts done (length bytes.items)) }
    ensures peeks { Peeks result (T.contents tree.old) (T.contents tree.new)
        (T.fault_count tree.old) (T.fault_count tree.new) }
{
    let room = (facts.size - done).min(CHUNK_BYTES) as usize;
    let Ok(mut bytes) = vec![in alloc; 0u8; room] else {
        return Err(out_of_memory(false));
    };
    match tree.read_at(alloc, item.source(), done, bytes.as_mut_slice()) {
        Ok(0) => Err(trouble_with_path(
            alloc,
            Cause::Changed {
                said: facts.size,
                got: done,
            },
            item.source(),
        )),
        Ok(count) => {
            bytes.truncate(count);
            Ok(bytes)
        }
        Err(error) => Err(reading_trouble(alloc, error, item.source())),
    }
}
