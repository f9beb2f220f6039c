//! Runs a save, and tells its steps, a line for each.
ghost use Rattle.std.specs.Prelude.{◌≡◌, None, IfSome};
ghost use Rattle.copy_file.specs.LastSteps.{left_at};

use crate::save_scene::{FOLDER, TARGET};
use crate::telling::{AllFree, Answer};
use job_reports::{Cause, Did, Ending};
use mc_text::{Bytes, Path};
use rows_page::Page;
use rows_trees::{tell_report, tell_step};
use save_file::FileSave;
use std::alloc::Global;
use tree_trait::Tree;

/// A save that makes more steps is not ended.
const MOST_STEPS: u32 = 20;

/// How a save goes on after a step.
#[derive(Clone, Copy)]
enum Then {
    Step,
    WindUp,
    Nothing,
}

/// The steps of a save of these bytes by job 1, and how many names the folder has then.
pub fn tell_steps<T: Tree>(page: &mut Page, tree: &mut T, bytes: Bytes, answer: Answer) {
    match begin(page.alloc(), bytes) {
        Some(save) => step_through(page, tree, save, answer),
        None => page.fail(),
    }
    tell_names(page, tree);
}

fn begin(alloc: Global, bytes: Bytes) -> Option<FileSave>
    ensures { IfSome result (λ save. left_at save.copy.stage ≡ None) }
{
    let target = Path::parse(alloc, TARGET).ok()?;
    let folder = Path::parse(alloc, FOLDER).ok()?;
    FileSave::new(alloc, 1, target, folder, bytes).ok()
}

fn step_through<T: Tree>(page: &mut Page, tree: &mut T, save: FileSave, answer: Answer)
    requires { left_at save.copy.stage ≡ None }
{
    let mut save = save;
    for _ in 0..MOST_STEPS {
        match step(page, tree, &mut save, answer) {
            Then::Step => {}
            Then::WindUp => return wind_up(page, tree, &mut save),
            Then::Nothing => return,
        }
    }
    page.fail();
}

/// Makes a step, and answers its trouble.
fn step<T: Tree>(page: &mut Page, tree: &mut T, save: &mut FileSave, answer: Answer) -> Then
    requires { left_at save.old.copy.stage ≡ None }
    ensures { left_at save.new.copy.stage ≡ None }
{
    let stepped = save.step(page.alloc(), tree, &AllFree);
    tell_step(page, &stepped.did, stepped.calls);
    match &stepped.did {
        Did::Troubled(trouble) => answer_trouble(page, save, trouble.cause, answer),
        Did::Ended { .. } => Then::Nothing,
        _ => Then::Step,
    }
}

fn answer_trouble(page: &mut Page, save: &mut FileSave, cause: Cause, answer: Answer) -> Then
    requires { left_at save.old.copy.stage ≡ None }
    ensures { left_at save.new.copy.stage ≡ None }
{
    match answer {
        Answer::Skip => {
            let did = save.skip(page.alloc(), cause);
            page.put("  skip: ");
            tell_report(page, &did);
            page.put("\n");
            Then::Step
        }
        Answer::Retry => {
            save.retry();
            page.put("  retry\n");
            Then::Step
        }
        Answer::Abort => Then::WindUp,
    }
}

/// Makes the last steps of a save that is aborted.
fn wind_up<T: Tree>(page: &mut Page, tree: &mut T, save: &mut FileSave) {
    for _ in 0..3 {
        let last = save.wind_up(page.alloc(), tree, Ending::Aborted);
        tell_step(page, &last.did, last.calls);
        if matches!(&last.did, Did::Ended { .. }) {
            return;
        }
    }
    page.fail();
}

fn tell_names<T: Tree>(page: &mut Page, tree: &mut T) {
    let Ok(folder) = Path::parse(page.alloc(), FOLDER) else {
        return page.fail();
    };
    match tree.list(page.alloc(), &folder) {
        Ok(children) => {
            let count = children.names.as_slice().len();
            page.tell(format_args!("  names in the folder: {count}\n"));
        }
        Err(_error) => page.fail(),
    }
}
