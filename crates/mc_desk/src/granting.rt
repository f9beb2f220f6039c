//! What the desk does about what a key asks.
ghost use Rattle.std.specs.Prelude.{◌≡◌, ◌∷◌, [], true, IfOk, OnErr, Some};
ghost use Rattle.session_entries.specs.Sources.{are_workable};
ghost use Rattle.ui_plans.specs.Reading.{ReadsTree};
ghost use Rattle.mc_ui.specs.Screens.{is_request};
ghost use Rattle.mc_desk.specs.declared.granting.Granted.{Granted as GrantedType};
ghost use Rattle.mc_desk.specs.Granting.{CanBeWorked, IsGranted, IsWorked, told_of};

use crate::confirmed::Confirmed;
use copy_move::Run;
use job_reports::{Answer, Job, JobRows};
use job_sources::sources_in;
use key_screen::Key;
use mc_text::NoMemory;
use mc_ui::{Ask, KeyAct, Told, Ui};
use session_entries::{BeginError, Refusal, Refusals};
use std::alloc::Global;
use tree_trait::Tree;

/// What is done.
#[derive(Debug, Drop)]
pub enum Deed {
    Nothing,
    /// A job is begun.
    Begin(Confirmed),
    /// A job was asked for, and all numbers were given.
    Refuse,
    /// The live job is answered.
    Answer(Answer),
    End,
}

/// What is done about what a key asks, and what was refused to it.
#[derive(Debug, Drop)]
pub struct Granted {
    pub deed: Deed,
    pub refusals: Refusals,
}

/// Works a key on the screen at a second of the clock, while these jobs are live, and decides what is done
/// about what it asks. The screen is told of that; where memory runs out it is as it was.
pub fn work<T: Tree>(
    alloc: Global,
    ui: &mut Ui,
    tree: &mut T,
    rows: &JobRows,
    next: Option<u32>,
    key: Key,
    now: u64,
) -> Result<Granted, NoMemory>
    ensures worked { IfOk result (λ granted.
        IsWorked (T.contents tree.old) rows.now next now key ui.old ui.new granted.deed granted.refusals) }
    ensures lost { OnErr result (ui.new ≡ ui.old) }
    ensures reads { ReadsTree (λ (granted : GrantedType). granted.refusals) result (T.contents tree.old)
        (T.contents tree.new)
        (T.fault_count tree.old) (T.fault_count tree.new) }
{
    let second = ui.second();
    let act = ui.key(alloc, tree, rows, key, now)?;
    match grant(alloc, act, next) {
        Ok(granted) => {
            ui.settle(told(&granted.deed));
            Ok(granted)
        }
        Err(error) => {
            ui.set_second(second);
            Err(error)
        }
    }
}

/// Starts the job that a key asks for under the next number, or refuses it where none is left.
fn grant(alloc: Global, act: KeyAct, next: Option<u32>) -> Result<Granted, NoMemory>
    requires workable { CanBeWorked act.ask }
    ensures granted { IfOk result (λ granted.
        IsGranted next act.ask act.refusals granted.deed granted.refusals) }
    ensures lost { OnErr result (is_request act.ask ≡ true) }
{
    let KeyAct { ask, refusals } = act;
    match ask {
        Ask::Nothing => Ok(with_deed(Deed::Nothing, refusals)),
        Ask::End => Ok(with_deed(Deed::End, refusals)),
        Ask::Answer(answer) => Ok(with_deed(Deed::Answer(answer), refusals)),
        Ask::Begin { plan, background } => match next {
            None => refuse(alloc),
            Some(number) => begin(alloc, plan, background, number, refusals),
        },
    }
}

/// What the screen is told of it.
fn told(deed: &Deed) -> Told
    ensures { result ≡ told_of deed.now }
{
    match deed {
        Deed::Nothing | Deed::End => Told::Nothing,
        Deed::Begin(_) => Told::Begun,
        Deed::Answer(_) => Told::Answered,
        Deed::Refuse => Told::Refused(Refusal::Begin(BeginError::NoMoreIds)),
    }
}

fn with_deed(deed: Deed, refusals: Refusals) -> Granted
    ensures { result ≡ record { deed = deed; refusals = refusals } }
{
    Granted { deed, refusals }
}

/// No number is left.
fn refuse(alloc: Global) -> Result<Granted, NoMemory>
    ensures { IfOk result (λ granted.
        granted ≡ record { deed = Deed.Refuse; refusals = Refusal.Begin BeginError.NoMoreIds ∷ [] }) }
{
    let mut refusals = Vec::new(alloc);
    refusals.push(Refusal::Begin(BeginError::NoMoreIds))?;
    Ok(with_deed(Deed::Refuse, Refusals(refusals)))
}

/// Starts a job, with the first of its sources.
fn begin(
    alloc: Global,
    plan: Job,
    background: bool,
    number: u32,
    refusals: Refusals,
) -> Result<Granted, NoMemory>
    requires workable { are_workable plan ≡ true }
    ensures { IfOk result (λ granted.
        IsGranted (Some number) (Ask.Begin plan background) refusals granted.deed granted.refusals) }
{
    let mut later = sources_in(alloc, &plan)?;
    let Some(first) = later.take_next(alloc)? else {
        unreachable!()
    };
    let run = Run::start(alloc, &first, number)?;
    Ok(with_deed(
        Deed::Begin(Confirmed {
            plan,
            background,
            run,
            later,
        }),
        refusals,
    ))
}
