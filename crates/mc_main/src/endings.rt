//! How a run ends: after its session, or before one began.
ghost use Rattle.std.specs.Prelude.{◌≡◌, ◌≢◌, ◌≤◌, ◌<◌, ◌++◌, [], true, IfOk};
ghost use Rattle.std.specs.Prelude.{Option, None, Some, reverse, string_bytes};
ghost use Rattle.tree_trait.specs.Answers.{IfKnown, HasRisen};
ghost use Rattle.laws_sessions.specs.ToldJob.{live_job};
ghost use Rattle.laws_sessions.specs.Traces.{IsTracedTo};
ghost use Rattle.session_log.specs.Logs.{jobs_begun};
ghost use Rattle.mc_desk.specs.KeysAndFaults.{faults_in, has_lost};
ghost use Rattle.mc_desk.specs.Desks.{IsFresh};
ghost use Rattle.mc_desk.specs.DeskDevices.{RanNothing};
ghost use Rattle.mc_main.specs.Printed.{MayPutCause, PrintsCause, PutsSome, start_line as line_for};
ghost use Rattle.mc_main.specs.Statuses.{IsStatusOr, IsStatusOf};
ghost use Rattle.mc_main.specs.SessionRuns.{RanSession};
ghost use Rattle.mc_main.specs.KeysRead.{ReadsKeys, TookAll};

use crate::outcome::Outcome;
use crate::session::{SessionEnd, run_session};
use crate::words::Typed;
use mc_desk::{Desk, Ended, Refused, StartError, Tag, resolve_text};
use mc_text::{NoMemory, drawn};
use resolving::ResolveError;
use session_log::{Entries, History};
use std::alloc::Global;
use tree_trait::{Clock, Sink, SinkError, Source, Spawner, Tree};

/// Runs a session that was opened, and ends it.
pub fn run_desk<N: Tag, T: Tree, K: Source, S: Sink, P: Spawner, C: Clock>(
    alloc: Global,
    desk: Desk<N, T, S, P>,
    keys: &mut K,
    clock: &C,
) -> Outcome<T, S, P>
    requires fresh { IsFresh desk }
    requires stream { K.left keys.old ≡ N.stream }
    ensures session { RanSession N.start N.opening N.tree_faults result.status
        (reverse result.history.entries) (T.contents result.tree)
        (TookAll N.stream (K.left keys.new)) N.given (S.given result.screen) }
    ensures traced { IsTracedTo N.opening (T.contents result.tree) (reverse result.history.entries) }
    ensures idle { live_job (reverse result.history.entries) ≡ None }
    ensures counted { result.history.started ≡ jobs_begun result.history.entries }
    ensures keys { IfKnown N.stream (λ bytes.
        ReadsKeys bytes (K.left keys.new) result.status (reverse result.history.entries)) }
    ensures lost { has_lost (reverse result.history.entries) ≡ true → result.status ≡ 5 }
    ensures statuses { result.status ≤ 5 }
    ensures not_usage { result.status ≢ 1 }
    ensures not_start { result.status ≢ 2 }
    ensures keyboard { result.status ≡ 3 → HasRisen (K.fault_count keys.old) (K.fault_count keys.new) }
    ensures screen { result.status ≡ 4 → HasRisen N.sink_faults (S.fault_count result.screen) }
    ensures faults { faults_in N.tree_faults (reverse result.history.entries) ≤ T.fault_count result.tree }
    ensures commands { RanNothing N.runs (P.runs result.spawner) N.spawner_faults
        (P.fault_count result.spawner) }
{
    let mut desk = desk;
    let end = run_session(alloc, &mut desk, keys, clock);
    let Ended {
        tree,
        screen,
        spawner,
        history,
        quit: _,
        failed,
        lost,
    } = desk.end(alloc);
    Outcome {
        status: status_of(end, failed, lost),
        tree,
        screen,
        spawner,
        history,
    }
}

/// The status of a session. With a lost key memory ran out; else the first cause that stands decides.
fn status_of(end: SessionEnd, screen_failed: bool, key_lost: bool) -> u8
    ensures { IsStatusOf end screen_failed key_lost result }
{
    if key_lost {
        return 5;
    }
    match end {
        SessionEnd::KeysFailed => 3,
        SessionEnd::ScreenFailed | SessionEnd::NoMemory => { if screen_failed { 4 } else { 5 } }
        SessionEnd::Quit | SessionEnd::KeysEnded => { if screen_failed { 4 } else { 0 } }
    }
}

/// Ends a run in which no session began, after its line is printed.
pub fn refuse<T, S: Sink, P>(
    alloc: Global,
    status: u8,
    line: &str,
    tree: T,
    screen: S,
    spawner: P,
) -> Outcome<T, S, P>
    ensures status { IsStatusOr status result.status }
    ensures screen { status ≢ 4 → result.status ≡ 4
        → HasRisen (S.fault_count screen) (S.fault_count result.screen) }
    ensures line { result.status < 4
        → IfKnown (S.given screen) (λ before. S.given result.screen ≡ Some (before ++ line.now)) }
    ensures put { IfKnown (S.given screen) (λ before. PutsSome before line.now (S.given result.screen)) }
    ensures tree { result.tree ≡ tree }
    ensures spawner { result.spawner ≡ spawner }
    ensures empty { result.history.entries ≡ [] }
    ensures counted { result.history.started ≡ 0 }
{
    let mut screen = screen;
    let status = match screen.put(alloc, line.as_bytes()) {
        Ok(()) => status,
        Err(SinkError::Fault) => 4,
        Err(SinkError::Memory) => 5,
    };
    without_session(alloc, status, tree, screen, spawner)
}

/// Ends a run of which a path was refused: the line names it as it was typed, drawn so that no control
/// character reaches the terminal, and the cause.
pub fn refuse_start<T, S: Sink, P>(
    alloc: Global,
    typed: &Typed,
    refused: Refused<T, S, P>,
) -> Outcome<T, S, P>
    ensures status { IsStatusOr 2 result.status }
    ensures cause { result.status ≡ 2 → refused.error ≢ StartError.Memory }
    ensures line { result.status ≡ 2 → IfKnown (S.given refused.screen) (λ before.
        PrintsCause typed.now refused.error before (S.given result.screen)) }
    ensures put { IfKnown (S.given refused.screen) (λ before.
        MayPutCause typed.now refused.error before (S.given result.screen)) }
    ensures screen { result.status ≡ 4
        → HasRisen (S.fault_count refused.screen) (S.fault_count result.screen) }
    ensures tree { result.tree ≡ refused.tree }
    ensures spawner { result.spawner ≡ refused.spawner }
    ensures empty { result.history.entries ≡ [] }
    ensures counted { result.history.started ≡ 0 }
{
    let Refused {
        error,
        tree,
        screen,
        spawner,
    } = refused;
    match error {
        StartError::Memory => without_session(alloc, 5, tree, screen, spawner),
        StartError::Resolve(place, error) => {
            match start_line(alloc, typed.word_for(place), &error) {
                Ok(line) => refuse(alloc, 2, line.as_str(), tree, screen, spawner),
                Err(NoMemory) => without_session(alloc, 5, tree, screen, spawner),
            }
        }
    }
}

/// The line for a path that was refused.
fn start_line(alloc: Global, word: &str, error: &ResolveError) -> Result<String, NoMemory>
    ensures { IfOk result (λ line. string_bytes line ≡ line_for word.now error.now) }
{
    let mut line = String::from_str(alloc, "mc: ")?;
    let shown = drawn(alloc, word)?;
    line.push_str(shown.0.as_str())?;
    line.push_str(": ")?;
    line.push_str(resolve_text(error))?;
    line.push('\n')?;
    Ok(line)
}

/// A run in which no session began.
pub fn without_session<T, S, P>(
    alloc: Global,
    status: u8,
    tree: T,
    screen: S,
    spawner: P,
) -> Outcome<T, S, P>
    ensures status { result.status ≡ status }
    ensures tree { result.tree ≡ tree }
    ensures screen { result.screen ≡ screen }
    ensures spawner { result.spawner ≡ spawner }
    ensures empty { result.history.entries ≡ [] }
    ensures counted { result.history.started ≡ 0 }
{
    Outcome {
        status,
        tree,
        screen,
        spawner,
        history: History {
            started: 0,
            entries: Entries::none(alloc),
        },
    }
}
