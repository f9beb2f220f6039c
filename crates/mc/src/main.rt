//! The program: the real devices, the terminal made raw and put back, and one run.
#![tactic(auto)]

mod remains;
mod session_screen;
mod surroundings;
mod terminal;

use crate::remains::tell_remains;
use crate::session_screen::SessionScreen;
use crate::surroundings::{NoWords, surroundings, words_of};
use crate::terminal::{TerminalChange, begin_line, leave_screen, make_raw, put_back, put_usage};
use host_devices::{HostClock, ShSpawner, StdinSource, StdoutSink};
use host_tree::HostTree;
use mc_main::{Beginning, Env, Gate, beginning_of, mc_run};
use mc_text::Text;
use session_log::History;
use std::alloc::Global;
use std::io;
use std::marker::Brand;
use std::process::ExitCode;

/// A gate that is always open.
struct Open;

impl Gate for Open {
    fn pass(&self, _worker: u32, _turn: u64) {}
}

fn main(rt: HostRuntime) -> io::Result<ExitCode> {
    let words = match words_of(&rt) {
        Ok(words) => words,
        Err(NoWords::Memory) => return Ok(ExitCode::from(5)),
        Err(NoWords::NotText) => {
            put_usage(&rt)?;
            return Ok(ExitCode::from(1));
        }
    };
    let Ok(mut env) = surroundings(&rt) else {
        return Ok(ExitCode::from(5));
    };
    let terminal = enter(&rt, words.as_slice(), &mut env);
    let end = run(rt, words.as_slice(), &env);
    leave(&rt, &terminal, &end);
    tell_remains(&rt, &end.history);
    Ok(ExitCode::from(end.status))
}

/// How a run ended: its status, whether it went to the terminal's other screen, and its history.
#[derive(Drop)]
struct RunEnd {
    status: u8,
    has_entered: bool,
    history: History,
}

/// One run over the real devices.
fn run(rt: HostRuntime, words: &[Text], env: &Env) -> RunEnd {
    let tree = HostTree::new(rt);
    let screen = SessionScreen::new(StdoutSink::new(rt));
    let mut keys = StdinSource::new(rt);
    let spawner = ShSpawner::new(rt);
    let clock = HostClock::new(rt);
    let outcome = mc_run::<
        Brand,
        HostTree<HostRuntime>,
        StdinSource<HostRuntime>,
        SessionScreen<HostRuntime>,
        ShSpawner<HostRuntime>,
        HostClock<HostRuntime>,
        Open,
    >(
        rt.alloc(),
        words,
        env,
        tree,
        screen,
        &mut keys,
        spawner,
        &clock,
        &Open,
    );
    RunEnd {
        status: outcome.status,
        has_entered: outcome.screen.has_entered(),
        history: outcome.history,
    }
}

/// Makes the terminal ready for a session, and asks it for its size. Where a text is
/// printed alone it isn't touched.
fn enter(rt: &HostRuntime, words: &[Text], env: &mut Env) -> TerminalChange {
    if prints_alone(rt.alloc(), words, env) {
        return TerminalChange::Untouched;
    }
    make_raw(rt, env)
}

/// Whether a run on these words prints a text, and does nothing else.
fn prints_alone(alloc: Global, words: &[Text], env: &Env) -> bool {
    match beginning_of(alloc, words, env) {
        Ok(Beginning::Print(_)) => true,
        Ok(Beginning::Session { .. }) | Err(_) => false,
    }
}

/// Leaves the terminal as it was. The line of a path that was refused stays.
fn leave(rt: &HostRuntime, terminal: &TerminalChange, end: &RunEnd) {
    if let TerminalChange::Untouched = terminal {
        return;
    }
    if end.has_entered {
        leave_screen(rt);
    } else if end.status == 2 {
        begin_line(rt);
    }
    put_back(rt, terminal);
}
