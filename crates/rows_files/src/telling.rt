//! Runs a copy, and tells its steps, a line for each.
ghost use Rattle.std.specs.Prelude.{◌≡◌, None, IfSome};
ghost use Rattle.copy_file.specs.LastSteps.{left_at};

use crate::scene::{FOLDER, SOURCE, TARGET};
use copy_file::FileCopy;
use job_reports::{Cause, Did, Ending, PartTest};
use mc_text::Path;
use rows_page::Page;
use rows_trees::{tell_report, tell_step};
use std::alloc::Global;
use tree_trait::Tree;

/// A copy that makes more steps is not ended.
const MOST_STEPS: u32 = 20;

/// No job has a claim.
pub struct AllFree;

impl PartTest for AllFree {
    ghost use Rattle.std.specs.Prelude.{true};

    ghost is_free = { λ _ _. true };

    fn free(&self, _path: &Path) -> bool {
        true
    }
}

/// What is done with a copy, or a save.
#[derive(Clone, Copy, Debug)]
pub enum Answer {
    /// A trouble is answered by a skip.
    Skip,
    /// A trouble is answered by a retry.
    Retry,
    /// After the first chunk a copy is aborted, and a save where it stands in trouble.
    Abort,
}

/// How a copy goes on after a step.
#[derive(Clone, Copy)]
enum Then {
    Step,
    WindUp,
    Nothing,
}

/// The steps of a copy by job 1, a line for each.
pub fn tell_steps<T: Tree>(page: &mut Page, tree: &mut T, answer: Answer) {
    match begin(page.alloc()) {
        Some(copy) => step_through(page, tree, copy, answer),
        None => page.fail(),
    }
}

/// The copy by job 1, just begun.
fn begin(alloc: Global) -> Option<FileCopy>
    ensures ready { IfSome result (λ copy. left_at copy.stage ≡ None) }
{
    let source = Path::parse(alloc, SOURCE).ok()?;
    let source_folder = Path::parse(alloc, "/s").ok()?;
    let target = Path::parse(alloc, TARGET).ok()?;
    let folder = Path::parse(alloc, FOLDER).ok()?;
    Some(FileCopy::new(1, source, source_folder, target, folder))
}

fn step_through<T: Tree>(page: &mut Page, tree: &mut T, copy: FileCopy, answer: Answer)
    requires ready { left_at copy.stage ≡ None }
{
    let mut copy = copy;
    for _ in 0..MOST_STEPS {
        match step(page, tree, &mut copy, answer) {
            Then::Step => {}
            Then::WindUp => return wind_up(page, tree, &mut copy),
            Then::Nothing => return,
        }
    }
    page.fail();
}

/// Makes a step, and answers its trouble.
fn step<T: Tree>(page: &mut Page, tree: &mut T, copy: &mut FileCopy, answer: Answer) -> Then
    requires ready { left_at copy.old.stage ≡ None }
    ensures ready { left_at copy.new.stage ≡ None }
{
    let stepped = copy.step(page.alloc(), tree, &AllFree);
    tell_step(page, &stepped.did, stepped.calls);
    match cause_of(&stepped.did) {
        Some(cause) => answer_trouble(page, copy, cause, answer),
        None => after(&stepped.did, answer),
    }
}

/// Why a copy stands in trouble, if it does.
fn cause_of(did: &Did) -> Option<Cause> {
    match did {
        Did::Troubled(trouble) => Some(trouble.cause),
        _ => None,
    }
}

/// How a copy goes on after a step without trouble.
fn after(did: &Did, answer: Answer) -> Then {
    match (did, answer) {
        (Did::Ended { .. }, _) => Then::Nothing,
        (Did::Chunk(_), Answer::Abort) => Then::WindUp,
        _ => Then::Step,
    }
}

fn answer_trouble(page: &mut Page, copy: &mut FileCopy, cause: Cause, answer: Answer) -> Then
    requires ready { left_at copy.old.stage ≡ None }
    ensures ready { left_at copy.new.stage ≡ None }
{
    match answer {
        Answer::Skip => {
            let did = copy.skip(page.alloc(), cause);
            page.put("  skip: ");
            tell_report(page, &did);
            page.put("\n");
            Then::Step
        }
        Answer::Retry => {
            copy.retry();
            page.put("  retry\n");
            Then::Step
        }
        Answer::Abort => Then::WindUp,
    }
}

/// Makes the last steps of a copy that is aborted.
fn wind_up<T: Tree>(page: &mut Page, tree: &mut T, copy: &mut FileCopy) {
    for _ in 0..3 {
        if has_wound_up(page, tree, copy) {
            return;
        }
    }
    page.fail();
}

/// Makes a last step; whether it was the end.
fn has_wound_up<T: Tree>(page: &mut Page, tree: &mut T, copy: &mut FileCopy) -> bool {
    let stepped = copy.wind_up(page.alloc(), tree, Ending::Aborted);
    tell_step(page, &stepped.did, stepped.calls);
    matches!(&stepped.did, Did::Ended { .. })
}
