//! Runs of the top call over devices in memory.
use crate::rows::{Row, env_of, failing, keys_of, words_of};
use crate::scenes::plant;
use crate::telling::{tell_outcome, tell_screen};
use mc_main::{Env, Gate, Outcome, mc_run};
use mc_text::{Bytes, Text};
use mem_devices::{FakeSpawner, FixedClock, MemSink, MemSource, Mute, Outcomes};
use mem_tree::MemTree;
use rows_page::Page;
use rows_trees::fresh;
use std::alloc::Global;
use std::marker::Brand;

/// What a run over devices that tell nothing leaves.
pub type MuteOutcome = Outcome<Mute<MemTree>, Mute<MemSink>, Mute<FakeSpawner>>;

/// A gate that is always open.
struct Open;

impl Gate for Open {
    fn pass(&self, _worker: u32, _turn: u64) {}
}

/// What comes of a run.
pub fn tell_run(page: &mut Page, row: &Row<'_>) {
    match fresh(page.alloc(), 0) {
        Ok(mut tree) => {
            plant(page, &mut tree, row);
            tell_run_over(page, tree, row);
        }
        Err(_error) => page.fail(),
    }
}

fn tell_run_over(page: &mut Page, tree: MemTree, row: &Row<'_>) {
    match row.device {
        "telling" => tell_told(page, tree, row, false),
        "shown" => tell_told(page, tree, row, true),
        _ => tell_mute(page, tree, row),
    }
}

/// A run over devices that tell what they hold, and below it the screen at the end, where it is shown.
fn tell_told(page: &mut Page, tree: MemTree, row: &Row<'_>, is_shown: bool) {
    let outcome = told_outcome(page, tree, row);
    let mut tree = outcome.tree;
    let bytes = outcome.screen.bytes();
    tell_outcome(page, outcome.status, &mut tree, bytes, &outcome.history);
    if is_shown {
        tell_screen(page, bytes);
    }
}

fn told_outcome(
    page: &mut Page,
    tree: MemTree,
    row: &Row<'_>,
) -> Outcome<MemTree, MemSink, FakeSpawner> {
    let words = words_of(page, row);
    let env = env_of(page, row);
    let keys = keys_of(page, row);
    run_told(page.alloc(), tree, words.as_slice(), &env, keys)
}

/// A run over devices that tell nothing.
fn tell_mute(page: &mut Page, tree: MemTree, row: &Row<'_>) {
    let outcome = mute_outcome(page, tree, row);
    let mut tree = outcome.tree;
    let bytes = outcome.screen.inner().bytes();
    tell_outcome(page, outcome.status, &mut tree, bytes, &outcome.history);
}

/// What such a run leaves, of which the named calls of the keyboard or the screen fail.
pub fn mute_outcome(page: &mut Page, tree: MemTree, row: &Row<'_>) -> MuteOutcome {
    let words = words_of(page, row);
    let env = env_of(page, row);
    let keys = keys_of(page, row);
    let keyboard_fails = first_failing(page, row, "keyboard");
    let screen_fails = first_failing(page, row, "screen");
    run_mute(
        page.alloc(),
        tree,
        words.as_slice(),
        &env,
        keys,
        keyboard_fails,
        screen_fails,
    )
}

fn first_failing(page: &mut Page, row: &Row<'_>, device: &str) -> Option<u64> {
    failing(page, row, device).as_slice().first().copied()
}

/// A run over devices that tell what they hold; the type that the call is given names what they tell.
pub fn run_told(
    alloc: Global,
    tree: MemTree,
    words: &[Text],
    env: &Env,
    keys: Bytes,
) -> Outcome<MemTree, MemSink, FakeSpawner> {
    let mut source = MemSource::new(keys, None);
    mc_run::<Brand, MemTree, MemSource, MemSink, FakeSpawner, FixedClock, Open>(
        alloc,
        words,
        env,
        tree,
        MemSink::new(alloc, None),
        &mut source,
        FakeSpawner::new(Outcomes(Vec::new(alloc))),
        &FixedClock::new(0),
        &Open,
    )
}

/// A run over devices that tell nothing. The keyboard and the screen fail at the calls of these numbers.
pub fn run_mute(
    alloc: Global,
    tree: MemTree,
    words: &[Text],
    env: &Env,
    keys: Bytes,
    keyboard_fails: Option<u64>,
    screen_fails: Option<u64>,
) -> Outcome<Mute<MemTree>, Mute<MemSink>, Mute<FakeSpawner>> {
    let mut source = Mute::new(MemSource::new(keys, keyboard_fails));
    mc_run::<
        Brand,
        Mute<MemTree>,
        Mute<MemSource>,
        Mute<MemSink>,
        Mute<FakeSpawner>,
        FixedClock,
        Open,
    >(
        alloc,
        words,
        env,
        Mute::new(tree),
        Mute::new(MemSink::new(alloc, screen_fails)),
        &mut source,
        Mute::new(FakeSpawner::new(Outcomes(Vec::new(alloc)))),
        &FixedClock::new(0),
        &Open,
    )
}
