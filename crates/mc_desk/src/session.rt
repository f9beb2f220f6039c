//! A session over its devices: its screen, its job and its history. Every call leaves it whole. Where its
//! bytes come from, it doesn't know: that is the desk's.
ghost use Rattle.std.specs.Prelude.{◌≡◌, ◌≤◌, false, []};
ghost use Rattle.mc_desk.specs.declared.starts.Start.{Start};
ghost use Rattle.mc_desk.specs.Outputs.{FitsScreen};
ghost use Rattle.mc_desk.specs.Sessions.{BeginsIn};
ghost use Rattle.mc_desk.specs.StartedDesks.{IsOpened};

mod keys;
mod steps;

use crate::standing::Standing;
use crate::tag::Tag;
use crate::terminal::SessionTerminal;
use copy_move::Dirty;
use key_screen::KeyReader;
use mc_ui::Ui;
use screen_draw::Screen;
use session_log::Log;
use std::alloc::Global;
use std::marker::{Model, PhantomData};
use tree_trait::{Sink, Spawner, Tree};

/// A session. `N` names the world as it found it.
#[derive(Drop)]
pub struct Session<N: Tag, T: Tree, S: Sink, P: Spawner> {
    tree: T,
    terminal: SessionTerminal<N, S>,
    spawner: P,
    keys: KeyReader,
    ui: Ui,
    standing: Standing,
    dirty: Dirty,
    log: Log,
    taken: u64,
    of: PhantomData<N>,
}

impl<N: Tag, T: Tree, S: Sink, P: Spawner> Model for Session<N, T, S, P> {
    ghost use Rattle.mc_desk.specs.Desks.{Seen, KeepsDesk, seen_of};

    ghost Value = { Seen };

    ghost view = { λ d. seen_of d.log d.ui d.standing d.dirty d.terminal d.taken d.keys };

    ghost invariant = { λ d. KeepsDesk N.start N.opening (T.contents d.tree)
        (seen_of d.log d.ui d.standing d.dirty d.terminal d.taken d.keys) N.tree_faults (T.fault_count d.tree)
        N.runs (P.runs d.spawner) N.spawner_faults (P.fault_count d.spawner) };
}

impl<N: Tag, T: Tree, S: Sink, P: Spawner> Session<N, T, S, P> {
    /// A session that begins with this on its screen, over devices of which nothing was taken and to
    /// which nothing was given yet.
    pub fn new(
        alloc: Global,
        tree: T,
        screen: S,
        spawner: P,
        ui: Ui,
        log: Log,
        blank: Screen,
    ) -> Session<N, T, S, P>
        requires opened { (start : Start) × BeginsIn N.start start × IsOpened N.opening start ui log }
        requires fresh { blank.has_drawn ≡ false }
        requires fits { FitsScreen blank.grid ui }
        requires opening { T.contents tree ≡ N.opening }
        requires faults { N.tree_faults ≤ T.fault_count tree }
        requires given { S.given screen ≡ N.given }
        requires sink { N.sink_faults ≤ S.fault_count screen }
        requires runs { P.runs spawner ≡ N.runs }
        requires spawner { P.fault_count spawner ≡ N.spawner_faults }
        ensures opened { result.newest ≡ [] }
        ensures none_taken { (result.taken ≡ 0) × (result.pending ≡ []) }
        ensures uncut { result.out.put.is_cut ≡ false }
        ensures unclosed { (result.tally.closed ≡ false) × (result.quit ≡ false) }
    {
        Session {
            tree,
            terminal: SessionTerminal::new(screen, blank),
            spawner,
            keys: KeyReader::new(),
            ui,
            standing: Standing::new(alloc),
            dirty: Dirty::new(alloc),
            log,
            taken: 0,
            of: PhantomData,
        }
    }
}
