//! Entries of a history, by chance: most as the steps of a job make them, some of each other kind.
use crate::chance::Chance;
use crate::steps::{Style, some_did};
use crate::texts::{one_path, some_pair};
use job_reports::{Answer, Job, Pairs};
use key_screen::{Base, Key};
use rows_page::Page;
use session_entries::{Entry, Event, JobOrder, Refusal, Refusals, TypedError};

/// What is counted from entry to entry.
#[derive(Clone, Copy, Drop)]
pub struct Counts {
    pub calls: u64,
    pub faults: u64,
}

/// The next entry. Its counts are mostly some more than those of the one before, and sometimes fewer.
pub fn some_entry(page: &mut Page, chance: &mut Chance, style: Style, counts: Counts) -> Entry {
    let calls = match chance.below(40) {
        0 => chance.below(1000) as u64,
        1 => counts.calls.wrapping_add(chance.below(1000) as u64),
        _ => counts.calls.wrapping_add(chance.below(4) as u64),
    };
    let more_faults = if chance.happens(60) {
        chance.below(3)
    } else {
        0
    };
    Entry {
        seat: if chance.happens(30) { 1 } else { 0 },
        calls,
        faults: counts.faults.wrapping_add(more_faults as u64),
        shown: if chance.happens(25) {
            chance.below(5000) as u128
        } else {
            0
        },
        what: some_event(page, chance, style),
    }
}

fn some_event(page: &mut Page, chance: &mut Chance, style: Style) -> Event {
    if chance.happens(style.rare) {
        return rare_event(page, chance);
    }
    Event::Step {
        job: some_job(chance),
        did: some_did(page, chance, style),
    }
}

/// An event that is no step.
fn rare_event(page: &mut Page, chance: &mut Chance) -> Event {
    match chance.below(7) {
        0 => some_key(page, chance),
        1 => Event::Look {
            refusals: some_refusals(page, chance),
        },
        2 => Event::Sought,
        3 => Event::Began {
            job: some_job(chance),
            plan: some_plan(page, chance),
            background: chance.happens(2),
        },
        4 => Event::Order {
            job: some_job(chance),
            order: JobOrder::Answered(Answer::SkipAll),
        },
        5 => Event::Next {
            job: some_job(chance),
            plan: some_plan(page, chance),
        },
        _ => Event::Closed,
    }
}

fn some_key(page: &mut Page, chance: &mut Chance) -> Event {
    Event::Key {
        key: Key {
            meta: chance.happens(2),
            base: Base::Enter,
        },
        now: chance.below(9) as u64,
        refusals: some_refusals(page, chance),
        lost: chance.happens(2),
    }
}

/// Mostly one job, and sometimes another.
fn some_job(chance: &mut Chance) -> u32 {
    if chance.happens(5) {
        chance.below(256)
    } else {
        3
    }
}

fn some_plan(page: &mut Page, chance: &mut Chance) -> Job {
    if chance.happens(2) {
        return Job::Delete(one_path(page, chance));
    }
    let pair = some_pair(page, chance);
    let mut pairs = Vec::new(page.alloc());
    page.need(pairs.push(pair).is_ok());
    Job::Copy(Pairs(pairs))
}

fn some_refusals(page: &mut Page, chance: &mut Chance) -> Refusals {
    let mut refusals = Vec::new(page.alloc());
    if chance.happens(3) {
        let refusal = Refusal::Typed(TypedError::BadFormat(4));
        page.need(refusals.push(refusal).is_ok());
    }
    Refusals(refusals)
}
