//! A run as its words ask for it: a text in place of a session, or a session and its end.
ghost use Rattle.std.specs.Prelude.{◌≡◌, ◌⊎◌, ◌≤◌, ◌++◌, true, [], Option, None, Some, IsSome, reverse};
ghost use Rattle.tree_trait.specs.Answers.{IfKnown, HasRisen};
ghost use Rattle.laws_sessions.specs.ToldJob.{live_job};
ghost use Rattle.laws_sessions.specs.Traces.{IsTracedTo};
ghost use Rattle.session_log.specs.Logs.{jobs_begun};
ghost use Rattle.mc_desk.specs.DeskDevices.{put_since, RanNothing};
ghost use Rattle.mc_desk.specs.KeysAndFaults.{faults_in, has_lost};
ghost use Rattle.mc_main.specs.Beginnings.{asked_in, printed_for, surroundings_in};
ghost use Rattle.mc_main.specs.Beginnings.{start_in, status_with, text_of};
ghost use Rattle.mc_main.specs.Headline.{IsSafeRun, IsFinishedRun, IsCalmedRun, IsKeepingRun};
ghost use Rattle.mc_main.specs.Headline.{IsReplayedRun, IsStayingRun, IsWholeRun};
ghost use Rattle.mc_main.specs.Statuses.{IsStatusOr};
ghost use Rattle.mc_main.specs.StartRefusals.{MayRefuseStart, RefusesStart, IsComplete};
ghost use Rattle.mc_main.specs.SessionRuns.{IsRun, ShowsRun};
ghost use Rattle.mc_main.specs.KeysRead.{ReadsKeys, TookAll};
ghost use Rattle.mc_main.specs.OutcomeRuns.{IsOutcomeRun, IsAnsweredRun};
ghost use Rattle.mc_main.specs.Printed.{PrintsStart};

use crate::endings::{refuse, refuse_start, run_desk, without_session};
use crate::outcome::Outcome;
use crate::run::Env;
use crate::words::{Beginning, Printed, beginning_of};
use mc_desk::{Desk, Tag};
use mc_text::{NoMemory, Text};
use std::alloc::Global;
use tree_trait::{Clock, Sink, Source, Spawner, Tree};

/// Reads the words, and prints the text that they ask for, or opens a session, works it and ends it. It says
/// each promise of `mc_run` by itself.
pub fn run_as_asked<N: Tag, T: Tree, K: Source, S: Sink, P: Spawner, C: Clock>(
    alloc: Global,
    words: &[Text],
    env: &Env,
    tree: T,
    screen: S,
    keys: &mut K,
    spawner: P,
    clock: &C,
) -> Outcome<T, S, P>
    requires start { N.start ≡ start_in env.now words.now }
    requires opening { T.contents tree ≡ N.opening }
    requires stream { K.left keys.old ≡ N.stream }
    requires given { S.given screen ≡ N.given }
    requires runs { P.runs spawner ≡ N.runs }
    requires faults { N.tree_faults ≡ T.fault_count tree }
    requires source { N.source_faults ≡ K.fault_count keys.old }
    requires sink { N.sink_faults ≡ S.fault_count screen }
    requires spawner { P.fault_count spawner ≡ N.spawner_faults }
    ensures keeps { IfKnown (T.contents tree) (λ opening. IfKnown (T.contents result.tree) (λ now.
        IsKeepingRun opening now (reverse result.history.entries))) }
    ensures safe { IfKnown (T.contents tree) (λ opening. IfKnown (T.contents result.tree) (λ now.
        IsSafeRun opening now (reverse result.history.entries))) }
    ensures whole { IfKnown (T.contents tree) (λ opening. IfKnown (T.contents result.tree) (λ now.
        IsWholeRun opening now (reverse result.history.entries))) }
    ensures finished { IfKnown (T.contents tree) (λ opening. IfKnown (T.contents result.tree) (λ now.
        IsFinishedRun opening now (reverse result.history.entries))) }
    ensures stays { IfKnown (T.contents tree) (λ opening. IfKnown (T.contents result.tree) (λ now.
        IsStayingRun opening now (reverse result.history.entries))) }
    ensures outcome { IfKnown (T.contents tree) (λ opening. IfKnown (T.contents result.tree) (λ now.
        IsOutcomeRun opening now (reverse result.history.entries))) }
    ensures answered { IfKnown (T.contents tree) (λ opening. IfKnown (T.contents result.tree) (λ now.
        IsAnsweredRun opening now (reverse result.history.entries))) }
    ensures calmed { IfKnown (T.contents tree) (λ opening. IfKnown (T.contents result.tree) (λ now.
        IsCalmedRun opening now (reverse result.history.entries))) }
    ensures replayed { IfKnown (T.contents tree) (λ opening. IfKnown (T.contents result.tree) (λ now.
        IsReplayedRun opening now (reverse result.history.entries))) }
    ensures traced { IsTracedTo (T.contents tree) (T.contents result.tree) (reverse result.history.entries) }
    ensures session { IsRun (surroundings_in env.now) (asked_in env.now.folder words.now) (T.contents tree)
        (T.fault_count tree) result.status
        (reverse result.history.entries) (T.contents result.tree)
        (TookAll (K.left keys.old) (K.left keys.new))
        (S.given screen) (S.given result.screen) }
    ensures shown { IfKnown (put_since (S.given screen) (S.given result.screen)) (λ put.
        ShowsRun (start_in env.now words.now) (T.contents tree) (T.fault_count tree) result.status
        (reverse result.history.entries) put) }
    ensures idle { live_job (reverse result.history.entries) ≡ None }
    ensures counted { result.history.started ≡ jobs_begun result.history.entries }
    ensures faults { faults_in (T.fault_count tree) (reverse result.history.entries)
        ≤ T.fault_count result.tree }
    ensures commands { RanNothing (P.runs spawner) (P.runs result.spawner) (P.fault_count spawner)
        (P.fault_count result.spawner) }
    ensures keys { IfKnown (K.left keys.old) (λ bytes. ReadsKeys bytes (K.left keys.new) result.status
        (reverse result.history.entries)) }
    ensures lost { has_lost (reverse result.history.entries) ≡ true → result.status ≡ 5 }
    ensures usage { result.status ≡ 1 → printed_for (asked_in env.now.folder words.now) ≡ Some Printed.Usage }
    ensures prints { IfKnown (printed_for (asked_in env.now.folder words.now)) (λ printed.
        IsStatusOr (status_with printed) result.status) }
    ensures printed_text { IfKnown (printed_for (asked_in env.now.folder words.now)) (λ printed.
        result.status ≡ status_with printed → IfKnown (S.given screen) (λ before.
        S.given result.screen ≡ Some (before ++ text_of printed))) }
    ensures untouched { IsSome (printed_for (asked_in env.now.folder words.now)) →
        (result.tree ≡ tree) × (result.history.entries ≡ []) }
    ensures start { result.status ≡ 2 → IfKnown (T.contents tree) (λ log.
        MayRefuseStart log (start_in env.now words.now) (T.fault_count tree) (T.fault_count result.tree)) }
    ensures refuses_start { IfKnown (T.contents tree) (λ log.
        RefusesStart log (start_in env.now words.now) result.status) }
    ensures start_line { result.status ≡ 2 → IfKnown (S.given screen) (λ before.
        PrintsStart (T.contents tree) (surroundings_in env.now) (asked_in env.now.folder words.now)
        (T.fault_count tree) (T.fault_count result.tree) before (S.given result.screen)) }
    ensures keyboard { result.status ≡ 3 → HasRisen (K.fault_count keys.old) (K.fault_count keys.new) }
    ensures screen { result.status ≡ 4 → HasRisen (S.fault_count screen) (S.fault_count result.screen) }
    ensures complete { IfKnown (T.contents tree) (λ log.
        IsComplete log (start_in env.now words.now) result.status
        (HasRisen (T.fault_count tree) (T.fault_count result.tree)
        ⊎ (HasRisen (K.fault_count keys.old) (K.fault_count keys.new)
        ⊎ HasRisen (S.fault_count screen) (S.fault_count result.screen)))) }
    ensures statuses { result.status ≤ 5 }
{
    match beginning_of(alloc, words, env) {
        Err(NoMemory) => without_session(alloc, 5, tree, screen, spawner),
        Ok(Beginning::Print(printed)) => {
            let (status, text) = (printed.status(), printed.text());
            refuse(alloc, status, text, tree, screen, spawner)
        }
        Ok(Beginning::Session { start, typed }) => {
            match Desk::<N, T, S, P>::begin(alloc, start, clock.now(), tree, screen, spawner) {
                Ok(desk) => run_desk(alloc, desk, keys, clock),
                Err(refused) => refuse_start(alloc, &typed, refused),
            }
        }
    }
}
