//! A screen that draws frames.
ghost use Rattle.std.specs.Prelude.{◌≡◌, ◌*◌, length, replicate, true, false, Ok, None, IfOk, OnOk, OnErr};
ghost use Rattle.tree_trait.specs.Answers.{HasCause, IfKnown};
ghost use Rattle.tree_trait.specs.Devices.{HasPut};
ghost use Rattle.key_screen.specs.Cells.{blank_cell};
ghost use Rattle.key_screen.specs.Grids.{blank_grid};
ghost use Rattle.screen_draw.specs.Drawings.{HasSizeOf, HasDrawn, disturbed};

use crate::changes::{changes_of, take_over};
use crate::strokes::bytes_of;
use key_screen::{Attr, Cell, Glyph, Grid};
use mc_text::NoMemory;
use std::alloc::{AllocError, Global};
use std::marker::Model;
use tree_trait::{Sink, SinkError};

/// A screen. Contracts see it as the frame that was drawn last, and whether one was since nothing was known
/// of the terminal.
#[derive(Debug, Drop)]
pub struct Screen {
    lines: u16,
    columns: u16,
    cells: Vec<Cell>,
    has_drawn: bool,
}

impl Model for Screen {
    ghost use Rattle.std.specs.Prelude.{◌≡◌, ◌*◌, length};
    ghost use Rattle.screen_draw.specs.Drawings.{Display};

    ghost Value = { Display };

    ghost view = { λ s. record {
      grid = record {
        lines = s.lines;
        columns = s.columns;
        cells = s.cells.items;
      };
      has_drawn = s.has_drawn;
    } };

    ghost invariant = { λ s. length s.cells.items ≡ s.lines * s.columns };
}

impl Screen {
    /// A screen of this size on which nothing was drawn: each cell is blank.
    pub fn new(alloc: Global, lines: u16, columns: u16) -> Result<Screen, NoMemory>
        ensures { IfOk result
            (λ screen. screen ≡ record { grid = blank_grid lines columns; has_drawn = false }) }
    {
        let cells = blank_cells(alloc, usize::from(lines) * usize::from(columns))?;
        Ok(Screen {
            lines,
            columns,
            cells,
            has_drawn: false,
        })
    }

    /// Draws a frame: all of the first one, behind a clearing of the terminal, and then what differs from the
    /// one before. Tells how many bytes were put. They are put by one call, after the memory was found that
    /// the drawing takes; where nothing differs there is no call. It takes time proportional to the cells,
    /// and memory proportional to those that differ.
    pub fn draw<S: Sink>(
        &mut self,
        alloc: Global,
        frame: &Grid,
        sink: &mut S,
    ) -> Result<usize, SinkError>
        requires { HasSizeOf self.old.grid frame.now }

        // What the screen then is, and what a terminal shows that showed it before.
        ensures done { OnOk result (self.new ≡ record { grid = frame.now; has_drawn = true }) }
        ensures refused { OnErr result (self.new ≡ self.old) }
        ensures shown { IfKnown (S.given sink.old)
            (λ given. HasDrawn self.old frame.now given result (S.given sink.new)) }

        // The device.
        ensures silent { result ≡ Ok 0 → sink.new ≡ sink.old }
        ensures stays_unknown { S.given sink.old ≡ None → S.given sink.new ≡ None }
        ensures cause { HasCause SinkError.Fault (S.fault_count sink.old) (S.fault_count sink.new) result }
    {
        let columns = usize::from(frame.columns());
        let cells = frame.cells();
        let Ok(changes) = changes_of(alloc, self.has_drawn, &self.cells, cells) else {
            return Err(SinkError::Memory);
        };
        let Ok(bytes) = bytes_of(alloc, self.has_drawn, columns, cells, &changes) else {
            return Err(SinkError::Memory);
        };
        put(alloc, &bytes, sink)?;
        take_over(&mut self.cells, changes);
        self.has_drawn = true;
        Ok(bytes.len())
    }

    /// Forgets what the terminal shows, since others may have written on it: the next drawing is as the
    /// first.
    pub fn forget(&mut self)
        ensures { self.new ≡ disturbed self.old }
    {
        self.has_drawn = false;
    }
}

/// Puts bytes, if there are any.
fn put<S: Sink>(alloc: Global, bytes: &[u8], sink: &mut S) -> Result<(), SinkError>
    ensures answer { IfKnown (S.given sink.old) (λ given. HasPut given bytes.now result (S.given sink.new)) }
    ensures silent { length bytes.now ≡ 0 → sink.new ≡ sink.old }
    ensures stays_unknown { S.given sink.old ≡ None → S.given sink.new ≡ None }
    ensures cause { HasCause SinkError.Fault (S.fault_count sink.old) (S.fault_count sink.new) result }
{
    if bytes.is_empty() {
        return Ok(());
    }
    sink.put(alloc, bytes)
}

/// Blank and plain cells.
fn blank_cells(alloc: Global, count: usize) -> Result<Vec<Cell>, AllocError>
    ensures { IfOk result (λ cells. cells.items ≡ replicate count blank_cell) }
{
    let mut cells = Vec::new(alloc);
    for _ in 0..count {
        cells.push(Cell {
            glyph: Glyph::Blank,
            attr: Attr::Plain,
        })?;
    }
    Ok(cells)
}
