//! A terminal that reads bytes, as `specs/Terminal.antt` says.
ghost use Rattle.std.specs.Prelude.{◌≡◌, ◌<◌, ◌≤◌, ◌+◌, ◌^◌, ◌≢◌, ℕ, true, length};
ghost use Rattle.std.specs.Prelude.{take, replicate, slice_index, IfOk, IfErr};
ghost use Rattle.key_screen.specs.Cells.{blank_cell};
ghost use Rattle.std.specs.Str.{IsUtf8};
ghost use Rattle.unicode_segmentation.specs.Grapheme.{graphemes};
ghost use Rattle.key_screen.specs.Terminal.{cluster_read, clusters_read, text_read, up_to_fault};
ghost use Rattle.key_screen.specs.Terminal.{sequence_read, controlled_terminal, looking};
ghost use Rattle.key_screen.specs.Terminal.{all_read, segments, shown_grid, screen_after};
ghost use Rattle.key_screen.specs.Terminal.{blank_terminal, Reads, Obeys, TellsScreen};

use crate::cells::{Attr, Cell, Glyph};
use crate::control::{Control, control_of};
use crate::drawn::{can_be_drawn, columns_of, glyph_of};
use crate::grid::{Grid, GridError, blank_cells, put};
use std::alloc::Global;
use std::marker::Model;
use unicode_segmentation::UnicodeSegmentation;

/// A terminal: its cells, the place of the next cluster, the columns left in its row, and how it will look.
#[derive(Debug, Drop)]
pub struct Terminal {
    lines: u16,
    columns: u16,
    cells: Vec<Cell>,
    at: usize,
    room: usize,
    mode: Attr,
}

impl Model for Terminal {
    ghost use Rattle.std.specs.Prelude.{◌≡◌, ◌≤◌, ◌+◌, ◌*◌, ◌<◌, ◌^◌, length};
    ghost use Rattle.key_screen.specs.Terminal.{TerminalState};
    ghost use Rattle.key_screen.specs.Layout.{IsLaidOut, IsRowEnd};

    ghost Value = { TerminalState };

    ghost view = { λ t. record {
      lines = t.lines;
      columns = t.columns;
      cells = t.cells.items;
      at = t.at;
      room = t.room;
      mode = t.mode;
    } };

    ghost invariant = { λ t. (length t.cells.items ≡ t.lines * t.columns)
        × (t.at + t.room ≤ length t.cells.items) × (t.room ≤ t.columns) × IsRowEnd t.columns (t.at + t.room)
        × IsLaidOut t.columns t.cells.items };
}

impl Terminal {
    /// A terminal before any byte.
    pub fn blank(alloc: Global, lines: u16, columns: u16) -> Result<Terminal, GridError>
        ensures blank { IfOk result (λ terminal. terminal ≡ blank_terminal lines columns) }
        ensures memory { IfErr result (λ error. error ≡ GridError.Memory) }
    {
        let count = usize::from(lines) * usize::from(columns);
        match blank_cells(alloc, count) {
            Ok(cells) => Ok(Terminal {
                lines,
                columns,
                cells,
                at: 0,
                room: usize::from(columns).min(count),
                mode: Attr::Plain,
            }),
            Err(_) => Err(GridError::Memory),
        }
    }

    /// What it shows.
    pub fn into_grid(self) -> Grid
        ensures { shown_grid (Ok self) ≡ Ok result }
    {
        Grid::of_cells(self.lines, self.columns, self.cells)
    }

    /// Reads all bytes.
    pub fn read_all(&mut self, alloc: Global, bytes: &[u8]) -> Result<(), GridError>
        ensures { Reads (all_read self.old (segments bytes.now)) result self.new }
    {
        let mut at = escape_in(bytes);
        self.read_text(alloc, &bytes[..at], 0)?;
        while at < bytes.len() {
            let (_, rest) = bytes.split_at(at + 1);
            let count = escape_in(rest);
            self.read_sequence(alloc, &rest[..count], at)?;
            at += 1 + count;
        }
        Ok(())
    }

    /// Shows a cluster that stands at this position of the bytes.
    fn show(&mut self, alloc: Global, cluster: &str, position: usize) -> Result<(), GridError>
        ensures { Reads (cluster_read self.old position cluster.now) result self.new }
    {
        let columns = columns_of(cluster);
        if !can_be_drawn(cluster) || columns > self.room {
            return Err(GridError::BadByte(position));
        }
        let Ok(glyph) = glyph_of(alloc, cluster) else {
            return Err(GridError::Memory);
        };
        put(&mut self.cells, self.at, glyph, self.mode);
        self.at += columns;
        self.room -= columns;
        Ok(())
    }

    /// Reads the clusters of a text that stands at this position of the bytes.
    fn read_clusters(&mut self, alloc: Global, text: &str, position: usize) -> Result<(), GridError>
        requires { position + length text.now < 2 ^ 63 }
        ensures { Reads (clusters_read self.old position (graphemes true text.now)) result self.new }
    {
        let mut at = position;
        for cluster in text.graphemes(true) {
            self.show(alloc, cluster, at)?;
            at += cluster.len();
        }
        Ok(())
    }

    /// Reads the text that stands at this position of the bytes.
    fn read_text(&mut self, alloc: Global, bytes: &[u8], position: usize) -> Result<(), GridError>
        requires { position + length bytes.now < 2 ^ 63 }
        ensures { Reads (text_read self.old position bytes.now) result self.new }
    {
        match str::from_utf8(bytes) {
            Ok(text) => self.read_clusters(alloc, text, position),
            Err(fault) => self.read_front(alloc, bytes, fault.valid_up_to(), position),
        }
    }

    /// Reads the front of bytes that are text up to there, and tells the byte behind it.
    fn read_front(
        &mut self,
        alloc: Global,
        bytes: &[u8],
        count: usize,
        position: usize,
    ) -> Result<(), GridError>
        requires bounded { position + length bytes.now < 2 ^ 63 }
        requires within { count ≤ length bytes.now }
        requires front { IsUtf8 (take count bytes.now) }
        ensures { Reads (up_to_fault (clusters_read self.old position (graphemes true (take count bytes.now)))
            (position + count)) result self.new }
    {
        match str::from_utf8(&bytes[..count]) {
            Ok(text) => {
                self.read_clusters(alloc, text, position)?;
                Err(GridError::BadByte(position + count))
            }
            Err(_) => unreachable!(),
        }
    }

    /// Reads what follows an escape at this position of the bytes, up to the next one.
    fn read_sequence(
        &mut self,
        alloc: Global,
        bytes: &[u8],
        position: usize,
    ) -> Result<(), GridError>
        requires { position + 1 + length bytes.now < 2 ^ 63 }
        ensures { Reads (sequence_read self.old position bytes.now) result self.new }
    {
        let Some(sequence) = control_of(bytes) else {
            return Err(GridError::BadByte(position));
        };
        if !self.obey(sequence.control) {
            return Err(GridError::BadByte(position));
        }
        self.read_text(
            alloc,
            &bytes[sequence.bytes..],
            position + 1 + sequence.bytes,
        )
    }

    /// Does what a control says, and tells whether it is read.
    fn obey(&mut self, control: Control) -> bool
        ensures { Obeys (controlled_terminal self.old control) result self.new }
    {
        match control {
            Control::Clear => {
                clear(&mut self.cells);
                true
            }
            Control::Look(Attr::Plain) => {
                self.mode = Attr::Plain;
                true
            }
            Control::Look(attr) => self.look(attr),
            Control::Place(row, column) => self.place(row, column),
        }
    }

    /// Shows text in bold or reverse from here on, if it is plain now.
    fn look(&mut self, attr: Attr) -> bool
        ensures { Obeys (looking self.old self.old.mode attr) result self.new }
    {
        if self.mode != Attr::Plain {
            return false;
        }
        self.mode = attr;
        true
    }

    /// Places the next cluster, if the row and column lie on the grid.
    fn place(&mut self, row: u32, column: u32) -> bool
        ensures { Obeys (controlled_terminal self.old (Control.Place row column)) result self.new }
    {
        if row == 0
            || row > u32::from(self.lines)
            || column == 0
            || column > u32::from(self.columns)
        {
            return false;
        }
        let columns = usize::from(self.columns);
        let before = column as usize - 1;
        self.at = (row as usize - 1) * columns + before;
        self.room = columns - before;
        true
    }
}

/// Makes all cells blank and plain.
fn clear(cells: &mut [Cell])
    ensures { cells.new ≡ replicate (length cells.old) blank_cell }
{
    for cell in cells.iter_mut() {
        *cell = Cell {
            glyph: Glyph::Blank,
            attr: Attr::Plain,
        };
    }
}

/// Where the first escape stands in the bytes, or their end.
fn escape_in(bytes: &[u8]) -> usize
    ensures within { result ≤ length bytes.now }
    ensures before { (k : ℕ) → k < result → slice_index bytes.now k ≢ 27 }
    ensures found { result < length bytes.now → slice_index bytes.now result ≡ 27 }
{
    for (at, byte) in bytes.iter().enumerate() {
        if *byte == 0x1b {
            return at;
        }
    }
    bytes.len()
}

/// What a blank screen of this size shows after these bytes.
pub fn read_grid(alloc: Global, lines: u16, columns: u16, bytes: &[u8]) -> Result<Grid, GridError>
    ensures { TellsScreen (screen_after lines columns bytes.now) result }
{
    let mut terminal = Terminal::blank(alloc, lines, columns)?;
    terminal.read_all(alloc, bytes)?;
    Ok(terminal.into_grid())
}
