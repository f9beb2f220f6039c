//! Runs a setting, and tells its steps, a line for each.
ghost use Rattle.std.specs.Prelude.{◌≤◌};

use crate::scene::THING;
use job_answers::Replies;
use job_reports::{Cause, Did, Ending};
use mc_text::Path;
use mode_job::ModeSetting;
use rows_page::Page;
use rows_trees::{tell_report, tell_step};
use tree_trait::Tree;

/// A setting that makes more steps is not ended.
const MOST_STEPS: u32 = 8;

/// What is answered to a trouble.
#[derive(Clone, Copy, Debug)]
pub enum Answer {
    Skip,
    Retry,
    Abort,
    /// Troubles of this kind are passed over from now on, and the step is made again.
    PassOver,
}

/// How a setting goes on after a step.
#[derive(Clone, Copy)]
enum Then {
    Step,
    WindUp,
    Nothing,
}

/// The steps of the setting of a mode.
pub fn tell_steps<T: Tree>(page: &mut Page, tree: &mut T, mode: u16, answer: Answer)
    requires { mode ≤ 0o7777 }
{
    match Path::parse(page.alloc(), THING) {
        Ok(path) => tell_steps_at(page, tree, path, mode, answer),
        Err(_error) => page.fail(),
    }
}

fn tell_steps_at<T: Tree>(page: &mut Page, tree: &mut T, path: Path, mode: u16, answer: Answer)
    requires { mode ≤ 0o7777 }
{
    match path.parent(page.alloc()) {
        Ok(Some(folder)) => step_through(page, tree, ModeSetting::new(path, folder, mode), answer),
        _ => page.fail(),
    }
}

fn step_through<T: Tree>(page: &mut Page, tree: &mut T, setting: ModeSetting, answer: Answer) {
    let mut setting = setting;
    let mut replies = Replies::new();
    for _ in 0..MOST_STEPS {
        match step(page, tree, &mut setting, &mut replies, answer) {
            Then::Step => {}
            Then::WindUp => return wind_up(page, tree, &mut setting),
            Then::Nothing => return,
        }
    }
    page.fail();
}

/// Makes a step, and answers its trouble.
fn step<T: Tree>(
    page: &mut Page,
    tree: &mut T,
    setting: &mut ModeSetting,
    replies: &mut Replies,
    answer: Answer,
) -> Then {
    let stepped = setting.step(page.alloc(), tree, *replies);
    tell_step(page, &stepped.did, stepped.calls);
    match &stepped.did {
        Did::Troubled(trouble) => answer_trouble(page, setting, replies, trouble.cause, answer),
        Did::Ended { .. } => Then::Nothing,
        _ => Then::Step,
    }
}

fn answer_trouble(
    page: &mut Page,
    setting: &mut ModeSetting,
    replies: &mut Replies,
    cause: Cause,
    answer: Answer,
) -> Then {
    match answer {
        Answer::Skip => {
            let did = setting.skip(page.alloc(), cause);
            page.put("  skip: ");
            tell_report(page, &did);
            page.put("\n");
            Then::Step
        }
        Answer::Retry => Then::Step,
        Answer::Abort => Then::WindUp,
        Answer::PassOver => {
            replies.skip_all(cause);
            Then::Step
        }
    }
}

/// Makes the last steps of a setting that is aborted.
fn wind_up<T: Tree>(page: &mut Page, tree: &mut T, setting: &mut ModeSetting) {
    for _ in 0..2u32 {
        if has_wound_up(page, tree, setting) {
            return;
        }
    }
    page.fail();
}

/// Makes a last step; whether it was the end.
fn has_wound_up<T: Tree>(page: &mut Page, tree: &mut T, setting: &mut ModeSetting) -> bool {
    let last = setting.wind_up(page.alloc(), tree, Ending::Aborted);
    tell_step(page, &last.did, last.calls);
    if let Some(error) = last.left {
        page.tell(format_args!("  left: {error:?}\n"));
    }
    matches!(&last.did, Did::Ended { .. })
}
