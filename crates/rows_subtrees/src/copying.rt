//! Runs a copy, and tells its steps, a line for each.
ghost use Rattle.std.specs.Prelude.{◌≡◌, is_some, true, IfSome};
ghost use Rattle.mc_text.specs.Routes.{parent_of};
ghost use Rattle.copy_job.specs.Standing.{IsGoing};

use crate::orders::Orders;
use crate::telling::{Told, tell_skip, tell_step};
use copy_job::SubtreeCopy;
use job_answers::Replies;
use job_reports::{Answer, Cause, Did, Ending, Pair, PartTest};
use job_unsynced::Dirty;
use mc_text::Path;
use rows_page::{Page, number};
use rows_trees::{path_of, tell_of};
use std::alloc::Global;
use tree_trait::Tree;

/// A copy that makes more steps is not ended.
const MOST_STEPS: usize = 2000;

/// Other jobs have a claim on no path, or on each.
#[derive(Clone, Copy, Drop)]
struct Claims {
    free: bool,
}

impl PartTest for Claims {
    ghost is_free = { λ claims _. claims.free };

    fn free(&self, _path: &Path) -> bool {
        self.free
    }
}

/// How a copy goes on after a step.
#[derive(Clone, Copy)]
enum Then {
    Step,
    Ask,
    Answer(Cause),
    Nothing,
}

/// The steps of a copy by job 1, and the folders that it leaves dirty.
pub fn tell_copy<T: Tree>(page: &mut Page, tree: &mut T, orders: &Orders) {
    match copy_of(page, orders) {
        Some(mut copy) => tell_steps(page, tree, &mut copy, orders),
        None => page.fail(),
    }
}

fn copy_of(page: &mut Page, orders: &Orders) -> Option<SubtreeCopy>
    ensures going { IfSome result IsGoing }
{
    let source = path_of(page, orders.source)?;
    let target = path_of(page, orders.target)?;
    begun(page.alloc(), Pair { source, target })
}

fn begun(alloc: Global, top: Pair) -> Option<SubtreeCopy>
    ensures going { IfSome result IsGoing }
{
    if !has_folder(alloc, &top.source) {
        return None;
    }
    if !has_folder(alloc, &top.target) {
        return None;
    }
    match SubtreeCopy::begin(alloc, 1, top) {
        Ok(copy) => Some(copy),
        Err(_error) => None,
    }
}

/// Whether a folder holds it: it isn't the root.
fn has_folder(alloc: Global, path: &Path) -> bool
    ensures { result ≡ true → is_some (parent_of path.now) ≡ true }
{
    match path.parent(alloc) {
        Ok(Some(_folder)) => true,
        Ok(None) => false,
        Err(_error) => false,
    }
}

fn tell_steps<T: Tree>(page: &mut Page, tree: &mut T, copy: &mut SubtreeCopy, orders: &Orders)
    requires going { IsGoing copy.old }
{
    let mut dirty = Dirty::new(page.alloc());
    run(page, tree, copy, orders, &mut dirty);
    for folder in dirty.folders() {
        tell_of(page, "  dirty", folder);
        page.put("\n");
    }
}

/// The steps up to the end; or up to an abort, and then the last steps.
fn run<T: Tree>(
    page: &mut Page,
    tree: &mut T,
    copy: &mut SubtreeCopy,
    orders: &Orders,
    dirty: &mut Dirty,
)
    requires going { IsGoing copy.old }
{
    let mut told = Told::new();
    if !has_ended(page, tree, copy, orders, dirty, &mut told) {
        wind_up(page, tree, copy, dirty, &mut told);
    }
    told.finish(page);
}

/// Makes steps; whether the copy came to its end. Else it is to be aborted.
fn has_ended<T: Tree>(
    page: &mut Page,
    tree: &mut T,
    copy: &mut SubtreeCopy,
    orders: &Orders,
    dirty: &mut Dirty,
    told: &mut Told,
) -> bool
    requires going { IsGoing copy.old }
    ensures going { IsGoing copy.new }
{
    let claims = Claims {
        free: orders.claimed.is_empty(),
    };
    let mut answered = 0usize;
    let mut replies = Replies::new();
    for made in 0..MOST_STEPS {
        if is_after(orders.abort, made) {
            return false;
        }
        match step(page, tree, copy, &claims, replies, dirty, told) {
            Then::Step => {}
            Then::Nothing => return true,
            Then::Ask => {
                if !is_replied(&mut replies, letter(orders.answers, answered)) {
                    return false;
                }
                answered = answered.saturating_add(1);
            }
            Then::Answer(cause) => {
                let answer = letter(orders.answers, answered);
                if !is_answered(page, copy, &mut replies, cause, answer) {
                    return false;
                }
                answered = answered.saturating_add(1);
            }
        }
    }
    page.fail();
    true
}

/// The letter that stands there.
fn letter(answers: &str, place: usize) -> Option<u8> {
    answers.as_bytes().get(place).copied()
}

/// Answers a question; whether the copy goes on.
fn is_replied(replies: &mut Replies, answer: Option<u8>) -> bool {
    match answer {
        Some(b'y') => replies.note(Answer::Yes),
        Some(b'n') => replies.note(Answer::No),
        Some(b'a') => replies.note(Answer::All),
        Some(b'u') => replies.note(Answer::Update),
        Some(b'o') => replies.note(Answer::Nothing),
        Some(b's') => replies.note(Answer::SizeDiffers),
        _ => return false,
    }
    true
}

/// Answers a trouble; whether the copy goes on.
fn is_answered(
    page: &mut Page,
    copy: &mut SubtreeCopy,
    replies: &mut Replies,
    cause: Cause,
    answer: Option<u8>,
) -> bool
    requires going { IsGoing copy.old }
    ensures going { IsGoing copy.new }
{
    match answer {
        Some(b's') => skip(page, copy, cause),
        Some(b'a') => skip_all(page, copy, replies, cause),
        Some(b'r') => retry(page, copy),
        _ => return false,
    }
    true
}

/// Whether the copy is aborted after so many steps.
fn is_after(abort: &str, made: usize) -> bool {
    !abort.is_empty() && number(abort) == made
}

/// Makes a step, and tells it.
fn step<T: Tree>(
    page: &mut Page,
    tree: &mut T,
    copy: &mut SubtreeCopy,
    claims: &Claims,
    replies: Replies,
    dirty: &mut Dirty,
    told: &mut Told,
) -> Then
    requires going { IsGoing copy.old }
    ensures going { IsGoing copy.new }
{
    let stepped = copy.step(page.alloc(), tree, claims, dirty, replies);
    tell_step(page, told, &stepped.did, stepped.calls);
    after(&stepped.did)
}

fn after(did: &Did) -> Then {
    match did {
        Did::Troubled(trouble) => Then::Answer(trouble.cause),
        Did::Asked(_) => Then::Ask,
        Did::Ended { .. } => Then::Nothing,
        _ => Then::Step,
    }
}

fn skip(page: &mut Page, copy: &mut SubtreeCopy, cause: Cause)
    requires going { IsGoing copy.old }
    ensures going { IsGoing copy.new }
{
    let did = copy.skip(page.alloc(), cause);
    tell_skip(page, &did);
}

/// What is in trouble is left, and whatever comes into a trouble of its kind later.
fn skip_all(page: &mut Page, copy: &mut SubtreeCopy, replies: &mut Replies, cause: Cause)
    requires going { IsGoing copy.old }
    ensures going { IsGoing copy.new }
{
    replies.skip_all(cause);
    skip(page, copy, cause);
}

fn retry(page: &mut Page, copy: &mut SubtreeCopy)
    requires going { IsGoing copy.old }
    ensures going { IsGoing copy.new }
{
    copy.retry();
    page.put("  retry\n");
}

/// Makes the last steps of a copy that is aborted.
fn wind_up<T: Tree>(
    page: &mut Page,
    tree: &mut T,
    copy: &mut SubtreeCopy,
    dirty: &mut Dirty,
    told: &mut Told,
) {
    page.put("  abort\n");
    for _ in 0..MOST_STEPS {
        if has_wound_up(page, tree, copy, dirty, told) {
            return;
        }
    }
    page.fail();
}

/// Makes a last step; whether it was the end.
fn has_wound_up<T: Tree>(
    page: &mut Page,
    tree: &mut T,
    copy: &mut SubtreeCopy,
    dirty: &mut Dirty,
    told: &mut Told,
) -> bool {
    let stepped = copy.wind_up(page.alloc(), tree, Ending::Aborted, dirty);
    let ended = matches!(&stepped.did, Did::Ended { .. });
    if let Some(error) = stepped.left {
        page.tell(format_args!("  refused {error:?}\n"));
    }
    tell_step(page, told, &stepped.did, stepped.calls);
    ended
}
