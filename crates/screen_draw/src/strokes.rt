//! The bytes that draw changes on a terminal.
ghost use Rattle.std.specs.Prelude.{◌≡◌, ◌+◌, ◌<◌, ◌≤◌, ◌++◌, ◌/◌, ◌%◌, ◌^◌, true, All, IfOk, OnOk, length};
ghost use Rattle.key_screen.specs.DrawnText.{glyph_columns, cluster_columns};
ghost use Rattle.screen_draw.specs.Changes.{IsWithin};
ghost use Rattle.screen_draw.specs.DrawnBytes.{glyph_text, is_printable as is_printable_of, look, turn};
ghost use Rattle.screen_draw.specs.DrawnBytes.{digit, digit_at, number, place, is_here as is_here_of};
ghost use Rattle.screen_draw.specs.DrawnBytes.{is_typed as is_typed_of, are_typed as are_typed_of};
ghost use Rattle.screen_draw.specs.DrawnBytes.{cells_text, cells_between, is_near as is_near_of};
ghost use Rattle.screen_draw.specs.DrawnBytes.{goes_on as goes_on_of, place_as as place_as_of};
ghost use Rattle.screen_draw.specs.DrawnBytes.{approach_to as approach_of, lead, stroke};
ghost use Rattle.screen_draw.specs.DrawnBytes.{pen_after as pen_after_of, drawing, drawn_bytes, clearing};

use crate::changes::{Change, looks_same};
use key_screen::{Attr, Cell, Glyph};
use std::alloc::{AllocError, Global};
use std::convert::AsStr;
use unicode_width::UnicodeWidthStr;

/// Where the terminal's next cluster goes, by what was drawn last.
#[derive(Clone, Copy, Debug, PartialEq, Eq)]
pub enum Pen {
    /// Nothing was drawn yet.
    Away,
    /// Behind a cluster that stands there, is so many columns wide and looks so. What follows it
    /// might become one with it.
    Behind {
        last: usize,
        columns: usize,
        attr: Attr,
    },
    /// Behind a printable character of ASCII there that looks so. More of these stay apart.
    Typing {
        last: usize,
        columns: usize,
        attr: Attr,
    },
}

/// What stands before the text of a change.
#[derive(Clone, Copy, Debug, PartialEq, Eq)]
pub enum Approach {
    /// Its placement, and how it looks.
    Place,
    /// Its placement, and how it looks behind text of this look.
    Turn(Attr),
    /// Its placement alone, since it looks as the text before it.
    Move,
    /// How it looks behind text of this look.
    Look(Attr),
    /// The text from this place up to it, again. There is none where it stands directly
    /// behind the text before it.
    Type(usize),
}

/// The most cells between two changes that are written again. A placement takes six bytes at least.
const LONGEST_GAP: usize = 5;

/// The bytes that draw changes in a frame of these cells, of so many columns, in time proportional to the
/// changes and their texts. Where no frame was drawn before, all cells are cleared first.
pub fn bytes_of(
    alloc: Global,
    has_drawn: bool,
    columns: usize,
    cells: &[Cell],
    changes: &[Change],
) -> Result<Vec<u8>, AllocError>
    requires { All (IsWithin (length cells.now)) changes.now }
    ensures { IfOk result
        (λ bytes. bytes.items ≡ clearing has_drawn ++ drawn_bytes columns cells.now changes.now) }
{
    let mut bytes = first_bytes(alloc, has_drawn)?;
    if columns == 0 {
        return Ok(bytes);
    }
    let mut pen = Pen::Away;
    for change in changes {
        push_stroke(&mut bytes, columns, cells, pen, change)?;
        pen = pen_after(pen, change);
    }
    Ok(bytes)
}

/// What stands before all else: the clearing of all cells, where no frame was drawn before.
fn first_bytes(alloc: Global, has_drawn: bool) -> Result<Vec<u8>, AllocError>
    ensures { IfOk result (λ bytes. bytes.items ≡ clearing has_drawn) }
{
    let mut bytes = Vec::new(alloc);
    if has_drawn {
        return Ok(bytes);
    }
    bytes.extend_from_slice(b"\x1b[2J")?;
    Ok(bytes)
}

/// Adds what draws a change. A right half is drawn with its left half.
fn push_stroke(
    bytes: &mut Vec<u8>,
    columns: usize,
    cells: &[Cell],
    pen: Pen,
    change: &Change,
) -> Result<(), AllocError>
    requires some { 0 < columns }
    requires within { change.now.at < length cells.now }
    ensures { OnOk result (bytes.new.items ≡ bytes.old.items ++ stroke columns cells.now pen change.now) }
{
    if matches!(change.cell.glyph, Glyph::RightHalf) {
        return Ok(());
    }
    push_lead(bytes, columns, cells, pen, change)?;
    bytes.extend_from_slice(text_of(&change.cell.glyph))
}

/// Adds what stands before the text of a change.
fn push_lead(
    bytes: &mut Vec<u8>,
    columns: usize,
    cells: &[Cell],
    pen: Pen,
    change: &Change,
) -> Result<(), AllocError>
    requires some { 0 < columns }
    requires within { change.now.at < length cells.now }
    ensures { OnOk result (bytes.new.items ≡ bytes.old.items
        ++ lead columns cells.now (approach_of columns cells.now pen change.now) change.now) }
{
    match approach_to(columns, cells, pen, change) {
        Approach::Place => {
            push_place_of(bytes, columns, change.at)?;
            push_look(bytes, change.cell.attr)
        }
        Approach::Turn(before) => {
            push_place_of(bytes, columns, change.at)?;
            push_turn(bytes, before, change.cell.attr)
        }
        Approach::Move => push_place_of(bytes, columns, change.at),
        Approach::Look(before) => push_turn(bytes, before, change.cell.attr),
        Approach::Type(from) => push_texts(bytes, &cells[from..change.at]),
    }
}

/// What has to stand before the text of a change.
fn approach_to(columns: usize, cells: &[Cell], pen: Pen, change: &Change) -> Approach
    requires some { 0 < columns }
    requires within { change.now.at < length cells.now }
    ensures { result ≡ approach_of columns cells.now pen change.now }
{
    match pen {
        Pen::Away => Approach::Place,
        Pen::Behind {
            last,
            columns: width,
            attr,
        } => {
            if is_here(columns, last, width, change.at) {
                Approach::Look(attr)
            } else {
                place_as(attr, change)
            }
        }
        Pen::Typing {
            last,
            columns: width,
            attr,
        } => {
            if goes_on(columns, cells, attr, last, width, change) {
                Approach::Type(last + width)
            } else if is_here(columns, last, width, change.at) {
                Approach::Look(attr)
            } else {
                place_as(attr, change)
            }
        }
    }
}

/// How a change is placed that stands behind text of this look.
fn place_as(attr: Attr, change: &Change) -> Approach
    ensures { result ≡ place_as_of attr change.now }
{
    if looks_same(attr, change.cell.attr) {
        Approach::Move
    } else {
        Approach::Turn(attr)
    }
}

/// Whether text that looks so goes on from behind the last one up to a change.
fn goes_on(
    columns: usize,
    cells: &[Cell],
    attr: Attr,
    last: usize,
    width: usize,
    change: &Change,
) -> bool
    requires some { 0 < columns }
    requires within { change.now.at < length cells.now }
    ensures exact { result ≡ goes_on_of columns cells.now attr (last + width) change.now }
    ensures reached { result ≡ true → last + width ≤ change.now.at }
{
    is_near(columns, last, width, change.at)
        && is_typed(attr, &change.cell)
        && are_typed(attr, &cells[last + width..change.at])
}

/// Whether few cells lie between the last place and another, which stands in the same row.
fn is_near(columns: usize, last: usize, width: usize, at: usize) -> bool
    requires { 0 < columns }
    ensures exact { result ≡ is_near_of columns (last + width) at }
    ensures reached { result ≡ true → last + width ≤ at }
{
    if last > at || at - last < width {
        return false;
    }
    let from = last + width;
    at - from <= LONGEST_GAP && from % columns != 0 && at - from < columns - from % columns
}

/// Whether all cells are printable ASCII that looks so.
fn are_typed(attr: Attr, cells: &[Cell]) -> bool
    ensures { result ≡ are_typed_of attr cells.now }
{
    for cell in cells {
        if !is_typed(attr, cell) {
            return false;
        }
    }
    true
}

/// Whether a cell is a printable character of ASCII that looks so.
fn is_typed(attr: Attr, cell: &Cell) -> bool
    ensures { result ≡ is_typed_of attr cell.now }
{
    looks_same(attr, cell.attr) && is_printable(text_of(&cell.glyph))
}

/// Whether a place stands directly behind the last one, in the same row.
fn is_here(columns: usize, last: usize, width: usize, at: usize) -> bool
    requires { 0 < columns }
    ensures { result ≡ is_here_of columns last width at }
{
    last <= at && at - last == width && at % columns != 0
}

/// Where the pen is behind a change.
fn pen_after(pen: Pen, change: &Change) -> Pen
    ensures { result ≡ pen_after_of pen change.now }
{
    let columns = columns_of(&change.cell.glyph);
    match &change.cell.glyph {
        Glyph::RightHalf => pen,
        glyph => {
            if is_printable(text_of(glyph)) {
                Pen::Typing {
                    last: change.at,
                    columns,
                    attr: change.cell.attr,
                }
            } else {
                Pen::Behind {
                    last: change.at,
                    columns,
                    attr: change.cell.attr,
                }
            }
        }
    }
}

/// The text that shows a glyph.
fn text_of(glyph: &Glyph) -> &[u8]
    ensures { result.now ≡ glyph_text glyph.now }
{
    match glyph {
        Glyph::Blank => b" ",
        Glyph::Cluster(text) => text.as_str().as_bytes(),
        Glyph::RightHalf => b"",
    }
}

/// The columns of a glyph.
fn columns_of(glyph: &Glyph) -> usize
    ensures { result ≡ glyph_columns glyph.now }
{
    match glyph {
        Glyph::Cluster(text) => width_of(text.as_str()),
        Glyph::Blank | Glyph::RightHalf => 1,
    }
}

/// The columns of a cluster.
fn width_of(cluster: &str) -> usize
    ensures { result ≡ cluster_columns cluster.now }
{
    cluster.width()
}

/// Whether a text is one printable character of ASCII.
fn is_printable(text: &[u8]) -> bool
    ensures { result ≡ is_printable_of text.now }
{
    match text {
        [byte] => matches!(*byte, 32..=126),
        _ => false,
    }
}

/// Adds how the text behind it looks. Bold and reverse are read only while the text is plain.
fn push_look(bytes: &mut Vec<u8>, attr: Attr) -> Result<(), AllocError>
    ensures { OnOk result (bytes.new.items ≡ bytes.old.items ++ look attr) }
{
    match attr {
        Attr::Plain => bytes.extend_from_slice(b"\x1b[0m"),
        Attr::Bold => bytes.extend_from_slice(b"\x1b[0m\x1b[1m"),
        Attr::Reverse => bytes.extend_from_slice(b"\x1b[0m\x1b[7m"),
    }
}

/// Adds how the text behind it looks, where the text before it looks so.
fn push_turn(bytes: &mut Vec<u8>, before: Attr, attr: Attr) -> Result<(), AllocError>
    ensures { OnOk result (bytes.new.items ≡ bytes.old.items ++ turn before attr) }
{
    match (before, attr) {
        (Attr::Plain, Attr::Bold) => bytes.extend_from_slice(b"\x1b[1m"),
        (Attr::Plain, Attr::Reverse) => bytes.extend_from_slice(b"\x1b[7m"),
        _ => push_look(bytes, attr),
    }
}

/// Adds the text that shows cells.
fn push_texts(bytes: &mut Vec<u8>, cells: &[Cell]) -> Result<(), AllocError>
    ensures { OnOk result (bytes.new.items ≡ bytes.old.items ++ cells_text cells.now) }
{
    for cell in cells {
        bytes.extend_from_slice(text_of(&cell.glyph))?;
    }
    Ok(())
}

/// Adds the placement of a cell.
fn push_place_of(bytes: &mut Vec<u8>, columns: usize, at: usize) -> Result<(), AllocError>
    requires some { 0 < columns }
    requires within { at < 2 ^ 63 }
    ensures { OnOk result (bytes.new.items ≡ bytes.old.items ++ place (at / columns + 1) (at % columns + 1)) }
{
    push_place(bytes, at / columns + 1, at % columns + 1)
}

/// Adds a placement.
fn push_place(bytes: &mut Vec<u8>, row: usize, column: usize) -> Result<(), AllocError>
    ensures { OnOk result (bytes.new.items ≡ bytes.old.items ++ place row column) }
{
    bytes.extend_from_slice(b"\x1b[")?;
    push_number(bytes, row)?;
    bytes.push(b';')?;
    push_number(bytes, column)?;
    bytes.push(b'H')?;
    Ok(())
}

/// Adds a number below 100,000.
fn push_number(bytes: &mut Vec<u8>, n: usize) -> Result<(), AllocError>
    ensures { OnOk result (bytes.new.items ≡ bytes.old.items ++ number n) }
{
    push_digit(bytes, n, 10_000)?;
    push_digit(bytes, n, 1_000)?;
    push_digit(bytes, n, 100)?;
    push_digit(bytes, n, 10)?;
    bytes.push(last_digit(n))?;
    Ok(())
}

/// Adds the digit of this unit, unless it and all before it are 0.
fn push_digit(bytes: &mut Vec<u8>, n: usize, unit: usize) -> Result<(), AllocError>
    requires { 0 < unit }
    ensures { OnOk result (bytes.new.items ≡ bytes.old.items ++ digit_at n unit) }
{
    if n < unit {
        return Ok(());
    }
    bytes.push(last_digit(n / unit))?;
    Ok(())
}

/// The last decimal digit of a number.
fn last_digit(n: usize) -> u8
    ensures { result ≡ digit n }
{
    b'0' + (n % 10) as u8
}
