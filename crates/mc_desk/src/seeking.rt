//! The steps of a search that are made before one drawing, and the drawing. While they are made it is asked
//! whether C-c waits, which stops the search.
ghost use Rattle.std.specs.Prelude.{◌≡◌, ◌≤◌, ◌<◌, true, false, None, Ok, Err, IsOk, OnOk};
ghost use Rattle.mc_ui.specs.Frames.{frame_of};
ghost use Rattle.mc_ui.specs.Screens.{HasSameSize};
ghost use Rattle.mc_ui.specs.Seekings.{is_seeking};
ghost use Rattle.session_log.specs.Told.{waits_told};
ghost use Rattle.mc_desk.specs.LiveRows.{rows_of};
ghost use Rattle.mc_desk.specs.Outputs.{FitsScreen, ShowsFrame};
ghost use Rattle.mc_desk.specs.Searches.{HasSought, KeepsSource, steps_ahead};
ghost use Rattle.mc_desk.specs.Standings.{sought_entry as entry_of_steps};

use crate::drawing::Drawing;
use crate::tag::Tag;
use crate::terminal::SessionTerminal;
use copy_move::Run;
use mc_text::NoMemory;
use mc_ui::Ui;
use session_entries::{Entry, Event};
use session_log::Log;
use std::alloc::Global;
use tree_trait::{ReadTree, Sink, SinkError, Source};

/// The byte of C-c, the key that stops a search.
pub const STOP_BYTE: u8 = 0x03;

/// How many steps are made at most before the list is drawn again: some tenth of a second.
const MOST_STEPS: u32 = 50_000;

/// After how many steps it is asked again whether C-c waits.
const STEPS_UNASKED: u32 = 1_000;

/// Whether memory was found for the steps, and whether the list was drawn behind them.
#[derive(Debug, Drop)]
pub struct Shown {
    pub sought: Result<(), NoMemory>,
    pub drawn: Result<(), SinkError>,
}

/// Makes steps of the search that goes on, and then draws the frame, so that the list has what they found.
pub fn seek_and_show<N: Tag, T: ReadTree, K: Source, S: Sink>(
    alloc: Global,
    ui: &mut Ui,
    tree: &mut T,
    keys: &mut K,
    job: &Option<Run>,
    log: &Log,
    terminal: &mut SessionTerminal<N, S>,
) -> Shown
    requires settled { ui.old.planned ≡ None }
    requires seeking { is_seeking ui.old ≡ true }
    requires uncut { terminal.old.put.is_cut ≡ false }
    requires fits { FitsScreen terminal.old.display.grid ui.old }
    ensures sought { HasSought (T.contents tree.old) (T.fault_count tree.old)
        (T.fault_count tree.new) ui.old ui.new }
    ensures falls { OnOk result.sought (steps_ahead ui.new < steps_ahead ui.old) }
    ensures size { HasSameSize ui.old ui.new }
    ensures settled { ui.new.planned ≡ None }
    ensures same { T.contents tree.new ≡ T.contents tree.old }
    ensures later { T.fault_count tree.old ≤ T.fault_count tree.new }
    ensures source { KeepsSource (K.left keys.old) (K.left keys.new) (K.fault_count keys.old)
        (K.fault_count keys.new) }
    ensures shows { ShowsFrame false (frame_of ui.new (rows_of job.now (waits_told log.now.newest)))
        result.drawn terminal.old terminal.new }
{
    let sought = seek_on(alloc, ui, tree, keys);
    let drawn = terminal.show(alloc, Drawing::Changes, ui, job, log);
    Shown { sought, drawn }
}

/// What is written down of such steps.
pub fn sought_entry(calls: u64, faults: u64, shown: u128) -> Entry
    ensures { result ≡ entry_of_steps calls faults shown }
{
    Entry {
        seat: 0,
        calls,
        faults,
        shown,
        what: Event::Sought,
    }
}

/// Makes steps of the search that goes on, up to its end, or to where C-c waits, or so many as are made
/// before a drawing. The list grows; nothing is drawn yet. Where memory is wanting it stops, and nothing that
/// was found is lost.
fn seek_on<T: ReadTree, K: Source>(
    alloc: Global,
    ui: &mut Ui,
    tree: &mut T,
    keys: &mut K,
) -> Result<(), NoMemory>
    requires settled { ui.old.planned ≡ None }
    requires seeking { is_seeking ui.old ≡ true }
    ensures sought { HasSought (T.contents tree.old) (T.fault_count tree.old)
        (T.fault_count tree.new) ui.old ui.new }
    ensures falls { OnOk result (steps_ahead ui.new < steps_ahead ui.old) }
    ensures size { HasSameSize ui.old ui.new }
    ensures settled { ui.new.planned ≡ None }
    ensures same { T.contents tree.new ≡ T.contents tree.old }
    ensures later { T.fault_count tree.old ≤ T.fault_count tree.new }
    ensures source { KeepsSource (K.left keys.old) (K.left keys.new) (K.fault_count keys.old)
        (K.fault_count keys.new) }
{
    let mut steps = 0;
    while is_few(steps) && ui.is_seeking() {
        if is_stopped(steps, keys) {
            return Ok(());
        }
        ui.seek(alloc, tree)?;
        steps += 1;
    }
    Ok(())
}

/// Whether so few steps were made that one more may be.
fn is_few(steps: u32) -> bool
    ensures few { result ≡ true → steps < 50000 }
    ensures many { result ≡ false → 50000 ≤ steps }
{
    steps < MOST_STEPS
}

/// Whether the search is to stop here: after each so many steps it is asked whether C-c is the next byte.
/// Nothing is taken.
fn is_stopped<K: Source>(steps: u32, keys: &mut K) -> bool
    ensures some { result ≡ true → 1 ≤ steps }
    ensures source { KeepsSource (K.left keys.old) (K.left keys.new) (K.fault_count keys.old)
        (K.fault_count keys.new) }
{
    if steps == 0 || steps % STEPS_UNASKED != 0 {
        return false;
    }
    keys.next_is(STOP_BYTE)
}

/// What a drawing behind such steps came to: it fails too where memory was wanting for them.
pub fn drawn_behind(
    sought: Result<(), NoMemory>,
    drawn: Result<(), SinkError>,
) -> Result<(), SinkError>
    ensures whole { OnOk result (IsOk drawn) }
    ensures sought { OnOk result (IsOk sought) }
    ensures failed { result ≡ Err SinkError.Fault → drawn ≡ Err SinkError.Fault }
{
    match (drawn, sought) {
        (Err(error), _) => Err(error),
        (Ok(()), Err(NoMemory)) => Err(SinkError::Memory),
        (Ok(()), Ok(())) => Ok(()),
    }
}
