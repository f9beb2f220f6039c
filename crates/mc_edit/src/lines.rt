//! The lines of a text.
ghost use Rattle.std.specs.Prelude.{◌≡◌, ◌+◌, ◌-◌, ◌≤◌, length, drop};
ghost use Rattle.mc_edit.specs.Lines.{line_start, line_end, line_past, start_of_line};

use gap_text::GapText;
use mc_text::Bytes;

/// Behind the last newline that stands before the place. Takes time linear in what it passes.
pub fn line_start(text: &GapText, at: usize) -> usize
    requires { at ≤ length text.now.bytes }
    ensures value { result ≡ line_start text.now.bytes at }
    ensures bound { result ≤ at }
{
    match text.byte_before(at, b'\n') {
        Some(newline) => newline + 1,
        None => 0,
    }
}

/// The first newline at or behind the place, or the text's end. Takes time linear in what it passes.
pub fn line_end(text: &GapText, at: usize) -> usize
    requires { at ≤ length text.now.bytes }
    ensures value { result ≡ line_end text.now.bytes at }
    ensures low { at ≤ result }
    ensures high { result ≤ length text.now.bytes }
{
    match text.byte_from(at, b'\n') {
        Some(newline) => newline,
        None => text.len(),
    }
}

/// Where the next line begins, or the text's end.
pub fn line_past(text: &GapText, at: usize) -> usize
    requires { at ≤ length text.now.bytes }
    ensures value { result ≡ line_past text.now.bytes at }
    ensures low { at ≤ result }
    ensures high { result ≤ length text.now.bytes }
{
    let end = line_end(text, at);
    if end == text.len() { end } else { end + 1 }
}

/// Where a line begins, or the last one. Lines count from 1, and 0 counts as 1. Takes the time of a look at
/// the newlines that are counted (`GapText::line_mark`), and then of a block.
pub fn start_of_line(text: &mut GapText, line: u64) -> usize
    ensures value { result ≡ start_of_line (line - 1) text.old.bytes }
    ensures high { result ≤ length text.old.bytes }
    ensures same { text.new ≡ text.old }
{
    let lines = line.saturating_sub(1);
    let mark = text.line_mark(lines as usize);
    let start = line_start(text, mark.place);
    lines_behind(text, start, lines - mark.lines as u64)
}

/// Where a line begins that so many others stand before, behind the start of one, or the last line.
fn lines_behind(text: &GapText, from: usize, lines: u64) -> usize
    requires { from ≤ length text.now.bytes }
    ensures value { result ≡ from + start_of_line lines (drop from text.now.bytes) }
    ensures high { result ≤ length text.now.bytes }
{
    let mut start = from;
    for _ in 0..lines {
        let end = line_end(text, start);
        if end == text.len() {
            break;
        }
        start = end + 1;
    }
    start
}

/// The bytes as a slice.
pub fn slice_of(bytes: &Bytes) -> &[u8]
    ensures { result.now ≡ bytes.now }
{
    bytes.0.as_slice()
}
