//! The terminal of a session: its sink, the frame that was drawn last, and what was put.
ghost use Rattle.std.specs.Prelude.{◌≡◌, ◌+◌, ◌≤◌, ◌<◌, ◌^◌, [], true, false, Err};
ghost use Rattle.session_log.specs.Told.{waits_told};
ghost use Rattle.mc_desk.specs.LiveRows.{rows_of as rows_for};
ghost use Rattle.mc_desk.specs.Outputs.{Blames, CountsAll, FitsScreen, IsFirstOutput, ShowsFrame, ShowsLast};
ghost use Rattle.mc_desk.specs.Outputs.{prepared};
ghost use Rattle.mc_desk.specs.Redrawing.{is_anew};
ghost use Rattle.mc_desk.specs.DeskDevices.{HasGiven, put_since};
ghost use Rattle.screen_draw.specs.Drawings.{HasSizeOf};
ghost use Rattle.mc_ui.specs.Frames.{frame_of};

use crate::drawing::Drawing;
use crate::rows::rows_of;
use crate::tag::Tag;
use copy_move::Run;
use key_screen::Grid;
use mc_ui::Ui;
use screen_draw::Screen;
use session_log::Log;
use std::alloc::Global;
use std::marker::{Model, PhantomData};
use tree_trait::{Sink, SinkError};

/// With more bytes shown than these none are drawn any more, so that those of each drawing can be counted.
const MOST_SHOWN: u128 = 1 << 127;

/// A terminal. Contracts see what was put, and the frame that it shows.
#[derive(Drop)]
pub struct SessionTerminal<N: Tag, S: Sink> {
    sink: S,
    screen: Screen,
    shown: u128,
    failed: bool,
    is_cut: bool,
    of: PhantomData<N>,
}

impl<N: Tag, S: Sink> Model for SessionTerminal<N, S> {
    ghost use Rattle.mc_desk.specs.Outputs.{Output, IsTerminal, output_of};

    ghost Value = { Output };

    ghost view = { λ t. output_of N.given (S.given t.sink) t.screen t.shown t.failed t.is_cut };

    ghost invariant = { λ t. IsTerminal N.given (S.given t.sink) N.sink_faults (S.fault_count t.sink)
        (output_of N.given (S.given t.sink) t.screen t.shown t.failed t.is_cut) };
}

impl<N: Tag, S: Sink> SessionTerminal<N, S> {
    /// One on which nothing was drawn yet.
    pub fn new(sink: S, screen: Screen) -> SessionTerminal<N, S>
        requires given { S.given sink ≡ N.given }
        requires faults { N.sink_faults ≤ S.fault_count sink }
        requires fresh { screen.has_drawn ≡ false }
        ensures { IsFirstOutput screen result }
    {
        SessionTerminal {
            sink,
            screen,
            shown: 0,
            failed: false,
            is_cut: false,
            of: PhantomData,
        }
    }

    /// Draws the frame of the screen while this job is live. A drawing for which there
    /// is no memory puts nothing.
    pub fn show(
        &mut self,
        alloc: Global,
        drawing: Drawing,
        ui: &Ui,
        job: &Option<Run>,
        log: &Log,
    ) -> Result<(), SinkError>
        requires uncut { self.old.put.is_cut ≡ false }
        requires size { FitsScreen self.old.display.grid ui.now }
        ensures shows { ShowsFrame (is_anew drawing)
            (frame_of ui.now (rows_for job.now (waits_told log.now.newest))) result self.old self.new }
    {
        let Ok(rows) = rows_of(alloc, job, log) else {
            self.cut_short();
            return Err(SinkError::Memory);
        };
        let Ok(frame) = ui.frame(alloc, &rows) else {
            self.cut_short();
            return Err(SinkError::Memory);
        };
        self.draw(alloc, drawing, &frame)
    }

    /// No memory was found for a drawing: it puts nothing.
    fn cut_short(&mut self)
        ensures cut { self.new ≡ record self.old { put = record self.old.put { is_cut = true } } }
        ensures counted { self.old.put.is_cut ≡ false → CountsAll self.old }
    {
        let _shown = self.shown;
        self.is_cut = true;
    }

    /// Draws a frame.
    fn draw(&mut self, alloc: Global, drawing: Drawing, frame: &Grid) -> Result<(), SinkError>
        requires uncut { self.old.put.is_cut ≡ false }
        requires size { HasSizeOf self.old.display.grid frame.now }
        ensures shows { ShowsFrame (is_anew drawing) frame.now result self.old self.new }
    {
        if self.shown > MOST_SHOWN {
            self.is_cut = true;
            return Err(SinkError::Memory);
        }
        prepare(&mut self.screen, drawing);
        match self.screen.draw(alloc, frame, &mut self.sink) {
            Ok(count) => {
                self.shown = with_bytes(self.shown, count);
                Ok(())
            }
            Err(SinkError::Fault) => {
                self.is_cut = true;
                self.failed = true;
                Err(SinkError::Fault)
            }
            Err(SinkError::Memory) => {
                self.is_cut = true;
                Err(SinkError::Memory)
            }
        }
    }

    /// How many bytes the drawings that ended have put.
    pub fn shown(&self) -> u128
        ensures counted { result ≡ self.now.shown }
        ensures all { self.now.put.is_cut ≡ false → CountsAll self.now }
        ensures shows { self.now.put.is_cut ≡ false → ShowsLast self.now }
    {
        self.shown
    }

    /// The sink, and whether it has failed.
    pub fn into_parts(self) -> (S, bool)
        ensures failed { result.1 ≡ self.failed }
        ensures blames { Blames self.failed N.sink_faults (S.fault_count result.0) }
        ensures put { self.put.bytes ≡ put_since N.given (S.given result.0) }
        ensures given { HasGiven N.given self.put.bytes (S.given result.0) }
    {
        (self.sink, self.failed)
    }
}

/// Lets nothing count as drawn before a drawing of all.
fn prepare(screen: &mut Screen, drawing: Drawing)
    ensures { screen.new ≡ prepared (is_anew drawing) screen.old }
{
    match drawing {
        Drawing::Changes => {}
        Drawing::Anew => screen.forget(),
    }
}

/// So many bytes more.
fn with_bytes(shown: u128, bytes: usize) -> u128
    requires few { shown ≤ 2 ^ 127 }
    ensures { result ≡ shown + bytes }
{
    shown + bytes as u128
}
