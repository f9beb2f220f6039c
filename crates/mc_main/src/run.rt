//! One run of the file manager over its devices.
ghost use Rattle.std.specs.Prelude.{◌≡◌, [], reverse};
ghost use Rattle.tree_trait.specs.Answers.{IfKnown, HasRisen};
ghost use Rattle.laws_sessions.specs.Traces.{IsTracedTo};
ghost use Rattle.mc_desk.specs.DeskDevices.{put_since, RanNothing};
ghost use Rattle.mc_main.specs.Beginnings.{asked_in, surroundings_in, start_in};
ghost use Rattle.mc_main.specs.Headline.{IsKeepingRun};
ghost use Rattle.mc_main.specs.KeysRead.{ReadsKeys, TookAll};
ghost use Rattle.mc_main.specs.RunClauses.{HasEnded, HasStatus, KeepsTree, PrintsInstead, RefusesRun};
ghost use Rattle.mc_main.specs.SessionRuns.{IsRun, ShowsRun};

use crate::as_asked::run_as_asked;
use crate::outcome::Outcome;
use mc_desk::Tag;
use mc_text::Text;
use std::alloc::Global;
use tree_trait::{Clock, Sink, Source, Spawner, Tree};

/// The surroundings of a run: the folder in which it was started, the sizes of the terminal, the home
/// folder, and how many workers are wanted, as the environment has them.
#[derive(Debug, Drop)]
pub struct Env {
    pub folder: Text,
    pub lines: Option<Text>,
    pub columns: Option<Text>,
    pub home: Option<Text>,
    pub workers: Option<Text>,
}

/// A hook for tests, passed before each turn of a worker.
pub trait Gate {
    fn pass(&self, worker: u32, turn: u64);
}

/// Runs the file manager: reads the words, opens the session, works its keys and steps its jobs, and ends it.
///
/// The status is 0 at the quit key or the end of the keys, 1 where the words can't be read or ask for what
/// isn't built yet, 2 where a folder or a file is refused, 3 where the keyboard failed, 4 where the screen
/// did, and else 5, where memory ran out. For 1 and 2 one line is printed. The words may also ask for the
/// help or the version, which is printed with status 0.
pub fn mc_run<N: Tag, T: Tree, K: Source, S: Sink, P: Spawner, C: Clock, G: Gate>(
    alloc: Global,
    words: &[Text],
    env: &Env,
    tree: T,
    screen: S,
    keys: &mut K,
    spawner: P,
    clock: &C,
    _gate: &G,
) -> Outcome<T, S, P>
    // The type names the world as the run finds it.
    requires start { N.start ≡ start_in env.now words.now }
    requires opening { T.contents tree ≡ N.opening }
    requires stream { K.left keys.old ≡ N.stream }
    requires given { S.given screen ≡ N.given }
    requires runs { P.runs spawner ≡ N.runs }
    requires faults { N.tree_faults ≡ T.fault_count tree }
    requires source { N.source_faults ≡ K.fault_count keys.old }
    requires sink { N.sink_faults ≡ S.fault_count screen }
    requires spawner { P.fault_count spawner ≡ N.spawner_faults }

    // Whenever the power is cut, inside a call too: what is copied is as it was; where something stood at a
    // target stands that, or the new thing, whole, and where nothing stood nothing, or the new thing, whole;
    // what is moved is whole at its source, or at its target, with all that lay in it; what is deleted is
    // whole, or gone; and all else is as it was. Each is said from any moment at which a job is at a source
    // and has changed nothing for it yet, until a step for another one names the path, of a move until a
    // change is begun for another one. Excepted are what wasn't on the disk then, parts, and of paths at
    // which nothing stood those that were ever parts. The tree had the shape of one at the opening, with
    // nothing pending.
    ensures keeps { IfKnown (T.contents tree) (λ opening. IfKnown (T.contents result.tree) (λ now.
        IsKeepingRun opening now (reverse result.history.entries))) }

    // What a crash leaves, what the jobs did and what they were answered: the record has a field for each.
    ensures tree { IfKnown (T.contents tree) (λ opening. IfKnown (T.contents result.tree) (λ now.
        KeepsTree opening now (reverse result.history.entries))) }

    // The history is a session: a job is begun directly after the key that confirmed it, as it was planned;
    // its question or trouble is answered directly after the key that answers it; no key is taken where a
    // step or a look is due; F10 in the panels, without a box, or leaving the viewer with which the session
    // began, asks for the end, and then only steps and the closing follow. At status 0 the end was asked
    // for, or all bytes were taken.
    // Each entry of a step is a piece of the job's work with the calls that belong to it, or the sync of a
    // folder that an ended job left. A tree that tells what it holds is handed back telling it.
    ensures traced { IsTracedTo (T.contents tree) (T.contents result.tree) (reverse result.history.entries) }
    ensures session { IsRun (surroundings_in env.now) (asked_in env.now.folder words.now) (T.contents tree)
        (T.fault_count tree) result.status
        (reverse result.history.entries) (T.contents result.tree)
        (TookAll (K.left keys.old) (K.left keys.new))
        (S.given screen) (S.given result.screen) }

    // After each key and each look a terminal shows, whatever it showed before the run, of the bytes that
    // the session has put by then, as many as its entry says, the frame of what the screen then shows. At
    // status 4 or 5 the last drawing may be cut short: then the screen was given those of the drawings that
    // ended, and perhaps a prefix of one that would have shown the frame due.
    ensures shown { IfKnown (put_since (S.given screen) (S.given result.screen)) (λ put.
        ShowsRun (start_in env.now words.now) (T.contents tree) (T.fault_count tree) result.status
        (reverse result.history.entries) put) }

    // No job is live at the end; the history says how many it began, and counts no more faults than the tree.
    ensures ended { HasEnded result.history.started result.history.entries (T.fault_count tree)
        (T.fault_count result.tree) }

    // No command was run: no key asks for one yet.
    ensures commands { RanNothing (P.runs spawner) (P.runs result.spawner) (P.fault_count spawner)
        (P.fault_count result.spawner) }

    // The keys are those of the bytes that were taken, and the keyboard has left the others.
    ensures keys { IfKnown (K.left keys.old) (λ bytes. ReadsKeys bytes (K.left keys.new) result.status
        (reverse result.history.entries)) }

    // Words that ask for no session, a start that is refused, and the status.
    ensures printed { PrintsInstead (asked_in env.now.folder words.now) result.status (S.given screen)
        (S.given result.screen) ((result.tree ≡ tree) × (result.history.entries ≡ [])) }
    ensures start { RefusesRun (T.contents tree) (surroundings_in env.now) (asked_in env.now.folder words.now)
        (T.fault_count tree) (T.fault_count result.tree) result.status (S.given screen)
        (S.given result.screen) }
    ensures status { HasStatus result.status (reverse result.history.entries) (T.contents tree)
        (start_in env.now words.now) (HasRisen (T.fault_count tree) (T.fault_count result.tree))
        (HasRisen (K.fault_count keys.old) (K.fault_count keys.new))
        (HasRisen (S.fault_count screen) (S.fault_count result.screen)) }
{
    run_as_asked::<N, T, K, S, P, C>(alloc, words, env, tree, screen, keys, spawner, clock)
}
