//! Carries a thing, and tells its steps, a line for each.
ghost use Rattle.std.specs.Prelude.{◌≡◌, None, IfSome};
ghost use Rattle.carry_job.specs.Carryings.{left_at};

use crate::scene::{SOURCE, TARGET};
use carry_job::ThingCarrying;
use job_answers::Replies;
use job_reports::{Answer, Cause, Did, Ending, PartTest};
use mc_text::Path;
use rows_page::{Page, two_fields};
use rows_trees::{tell_report, tell_step};
use std::alloc::Global;
use tree_trait::Tree;

/// A carrying that makes more steps is not ended.
const MOST_STEPS: u32 = 20;

/// No job has a claim.
struct AllFree;

impl PartTest for AllFree {
    ghost use Rattle.std.specs.Prelude.{true};

    ghost is_free = { λ _ _. true };

    fn free(&self, _path: &Path) -> bool {
        true
    }
}

/// What is answered to a trouble.
#[derive(Clone, Copy)]
enum ToTrouble {
    Retry,
    Skip,
    Abort,
}

/// What is answered: to a trouble, and to a question.
#[derive(Clone, Copy)]
pub struct Answers {
    trouble: ToTrouble,
    question: Answer,
}

impl Answers {
    /// As two words spell them. `no` keeps what stands at the target, any other word lets it be replaced.
    pub fn new(words: &str) -> Answers {
        let (trouble, question) = two_fields(words, ' ');
        Answers {
            trouble: trouble_answer(trouble),
            question: question_answer(question),
        }
    }
}

fn trouble_answer(word: &str) -> ToTrouble {
    match word {
        "skip" => ToTrouble::Skip,
        "abort" => ToTrouble::Abort,
        _ => ToTrouble::Retry,
    }
}

fn question_answer(word: &str) -> Answer {
    match word {
        "no" => Answer::No,
        _ => Answer::Yes,
    }
}

/// How a carrying goes on after a step.
#[derive(Clone, Copy)]
enum Then {
    Step,
    WindUp,
    Nothing,
}

/// The steps of the carrying by job 1.
pub fn tell_steps<T: Tree>(page: &mut Page, tree: &mut T, answers: Answers) {
    match begin(page.alloc()) {
        Some(carrying) => step_through(page, tree, carrying, answers),
        None => page.fail(),
    }
}

/// The carrying, just begun.
fn begin(alloc: Global) -> Option<ThingCarrying>
    ensures going { IfSome result (λ carrying. left_at carrying.stage ≡ None) }
{
    let source = Path::parse(alloc, SOURCE).ok()?;
    let source_folder = Path::parse(alloc, "/m1").ok()?;
    let target = Path::parse(alloc, TARGET).ok()?;
    let folder = Path::parse(alloc, "/m2").ok()?;
    Some(ThingCarrying::new(1, source, source_folder, target, folder))
}

fn step_through<T: Tree>(page: &mut Page, tree: &mut T, carrying: ThingCarrying, answers: Answers)
    requires going { left_at carrying.stage ≡ None }
{
    let mut carrying = carrying;
    let mut replies = Replies::new();
    for _ in 0..MOST_STEPS {
        match step(page, tree, &mut carrying, &mut replies, answers) {
            Then::Step => {}
            Then::WindUp => return wind_up(page, tree, &mut carrying),
            Then::Nothing => return,
        }
    }
    page.fail();
}

/// Makes a step, and answers its question or its trouble.
fn step<T: Tree>(
    page: &mut Page,
    tree: &mut T,
    carrying: &mut ThingCarrying,
    replies: &mut Replies,
    answers: Answers,
) -> Then
    requires going { left_at carrying.old.stage ≡ None }
    ensures going { left_at carrying.new.stage ≡ None }
{
    let stepped = carrying.step(page.alloc(), tree, &AllFree, *replies);
    tell_step(page, &stepped.did, stepped.calls);
    match cause_of(&stepped.did) {
        Some(cause) => answer_trouble(page, carrying, cause, answers.trouble),
        None => after(&stepped.did, replies, answers),
    }
}

/// Why a carrying stands in trouble, if it does.
fn cause_of(did: &Did) -> Option<Cause> {
    match did {
        Did::Troubled(trouble) => Some(trouble.cause),
        _ => None,
    }
}

/// How it goes on after a step without trouble.
fn after(did: &Did, replies: &mut Replies, answers: Answers) -> Then {
    match did {
        Did::Ended { .. } => Then::Nothing,
        Did::Asked(_) => {
            replies.note(answers.question);
            Then::Step
        }
        _ => Then::Step,
    }
}

fn answer_trouble(
    page: &mut Page,
    carrying: &mut ThingCarrying,
    cause: Cause,
    answer: ToTrouble,
) -> Then
    requires going { left_at carrying.old.stage ≡ None }
    ensures going { left_at carrying.new.stage ≡ None }
{
    match answer {
        ToTrouble::Skip => {
            let did = carrying.skip(page.alloc(), cause);
            page.put("  skip: ");
            tell_report(page, &did);
            page.put("\n");
            Then::Step
        }
        ToTrouble::Retry => {
            carrying.retry();
            page.put("  retry\n");
            Then::Step
        }
        ToTrouble::Abort => Then::WindUp,
    }
}

/// The last steps of a carrying that is aborted.
fn wind_up<T: Tree>(page: &mut Page, tree: &mut T, carrying: &mut ThingCarrying) {
    page.put("  abort\n");
    for _ in 0..MOST_STEPS {
        let last = carrying.wind_up(page.alloc(), tree, Ending::Aborted);
        tell_step(page, &last.did, last.calls);
        if let Did::Ended { .. } = last.did {
            return;
        }
    }
    page.fail();
}
