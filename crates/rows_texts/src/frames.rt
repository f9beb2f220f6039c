//! Rows of frames of 10 lines and 40 columns, which are drawn one after the other.
ghost use Rattle.std.specs.Prelude.{◌≡◌, IfSome};

use crate::fields::put_spelled;
use crate::screens::grid_of;
use key_screen::{Grid, read_grid};
use mem_devices::MemSink;
use rows_page::{Page, two_fields};
use screen_draw::Screen;

/// How many frames a terminal shows as they were drawn, when it reads all bytes from the first on.
pub fn tell_frames(page: &mut Page, fields: &str) {
    match Screen::new(page.alloc(), 10, 40) {
        Ok(mut screen) => tell_frames_on(page, &mut screen, fields),
        Err(_error) => page.fail(),
    }
}

fn tell_frames_on(page: &mut Page, screen: &mut Screen, fields: &str)
    requires lines { screen.old.grid.lines ≡ 10 }
    requires columns { screen.old.grid.columns ≡ 40 }
{
    let mut sink = MemSink::new(page.alloc(), None);
    let mut count = 0u64;
    for written in fields.split('|') {
        if is_shown(page, screen, &mut sink, written) {
            count = count.saturating_add(1);
        }
    }
    page.tell(format_args!("{count} shown"));
}

/// Draws a frame, and says whether a terminal that read all bytes shows it.
fn is_shown(page: &mut Page, screen: &mut Screen, sink: &mut MemSink, written: &str) -> bool
    requires lines { screen.old.grid.lines ≡ 10 }
    requires columns { screen.old.grid.columns ≡ 40 }
    ensures lines { screen.new.grid.lines ≡ 10 }
    ensures columns { screen.new.grid.columns ≡ 40 }
{
    match frame_of(page, written) {
        Some(frame) => {
            let done = screen.draw(page.alloc(), &frame, sink);
            page.need(done.is_ok());
            reads_as(page, sink.bytes(), &frame)
        }
        None => false,
    }
}

fn reads_as(page: &mut Page, bytes: &[u8], frame: &Grid) -> bool {
    match read_grid(page.alloc(), 10, 40, bytes) {
        Ok(shown) => shown.same(frame),
        Err(_error) => false,
    }
}

/// How many bytes the first frame puts.
pub fn tell_first(page: &mut Page, written: &str) {
    match Screen::new(page.alloc(), 10, 40) {
        Ok(mut screen) => {
            let mut sink = MemSink::new(page.alloc(), None);
            let count = draw(page, &mut screen, &mut sink, written);
            page.tell(format_args!("{count} bytes"));
        }
        Err(_error) => page.fail(),
    }
}

/// How many bytes the second of two frames puts, and which.
pub fn tell_put(page: &mut Page, fields: &str) {
    match Screen::new(page.alloc(), 10, 40) {
        Ok(mut screen) => tell_put_on(page, &mut screen, fields),
        Err(_error) => page.fail(),
    }
}

fn tell_put_on(page: &mut Page, screen: &mut Screen, fields: &str)
    requires lines { screen.old.grid.lines ≡ 10 }
    requires columns { screen.old.grid.columns ≡ 40 }
{
    let (first, second) = two_fields(fields, '|');
    let mut sink = MemSink::new(page.alloc(), None);
    let _count = draw(page, screen, &mut sink, first);
    let before = sink.bytes().len();
    let count = draw(page, screen, &mut sink, second);
    page.tell(format_args!("{count}|"));
    put_spelled(page, sink.bytes().get(before..).unwrap_or(b""));
    page.put("|");
}

/// Draws a frame, and gives the number of bytes that it puts.
fn draw(page: &mut Page, screen: &mut Screen, sink: &mut MemSink, written: &str) -> usize
    requires lines { screen.old.grid.lines ≡ 10 }
    requires columns { screen.old.grid.columns ≡ 40 }
    ensures lines { screen.new.grid.lines ≡ 10 }
    ensures columns { screen.new.grid.columns ≡ 40 }
{
    let Some(frame) = frame_of(page, written) else {
        return 0;
    };
    match screen.draw(page.alloc(), &frame, sink) {
        Ok(count) => count,
        Err(_error) => {
            page.fail();
            0
        }
    }
}

fn frame_of(page: &mut Page, written: &str) -> Option<Grid>
    ensures lines { IfSome result (λ frame. frame.lines ≡ 10) }
    ensures columns { IfSome result (λ frame. frame.columns ≡ 40) }
{
    let frame = grid_of(page, 10, 40, written)?;
    if frame.lines() != 10 || frame.columns() != 40 {
        page.fail();
        return None;
    }
    Some(frame)
}
