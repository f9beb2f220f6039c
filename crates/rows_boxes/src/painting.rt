//! Boxes painted on screens.
ghost use Rattle.std.specs.Prelude.{◌≡◌};

use crate::fields::{mode_of, rows_of};
use crate::frames::{tell_both, tell_page, tell_whole};
use crate::keys::keys_of;
use crate::screens::{dot, tell_screen};
use key_screen::{Grid, Key};
use mc_dialogs::{InputLine, ListBox, ModeBox, QuestionBox};
use rows_page::{Page, two_fields};

/// The screen on which a box of a kind was painted, or a frame.
pub fn tell_painted(page: &mut Page, kind: &str, fields: &str) {
    match kind {
        "panels" => tell_both(page, fields),
        "panel" => tell_whole(page, fields),
        "page" => tell_page(page, fields),
        "question over dots" => tell_over_dots(page, fields),
        _ => tell_box(page, kind, fields),
    }
}

/// A box on a screen of 10 lines and 20 columns.
fn tell_box(page: &mut Page, kind: &str, fields: &str) {
    match Grid::blank(page.alloc(), 10, 20) {
        Ok(mut grid) => {
            paint(page, &mut grid, kind, fields);
            tell_screen(page, &grid);
        }
        Err(_error) => page.fail(),
    }
}

/// A question on a screen of 4 lines and 68 columns, which was full of dots.
fn tell_over_dots(page: &mut Page, lines: &str) {
    match Grid::blank(page.alloc(), 4, 68) {
        Ok(mut grid) => {
            dot(page, &mut grid);
            paint_question(page, &mut grid, lines);
            tell_screen(page, &grid);
        }
        Err(_error) => page.fail(),
    }
}

fn paint(page: &mut Page, grid: &mut Grid, kind: &str, fields: &str)
    requires { grid.old.lines ≡ 10 }
{
    match kind {
        "mode" => paint_mode(page, grid, fields),
        "question" => paint_question(page, grid, fields),
        "list" => paint_list(page, grid, fields),
        "line" => paint_line(page, grid, fields),
        _ => page.fail(),
    }
}

/// A title, and behind a bar a mode.
fn paint_mode(page: &mut Page, grid: &mut Grid, fields: &str) {
    let (title, mode) = two_fields(fields, '|');
    match ModeBox::new(page.alloc(), title, mode_of(mode)) {
        Ok(asked) => page.need(asked.paint(page.alloc(), grid).is_ok()),
        Err(_error) => page.fail(),
    }
}

/// At most eight lines.
fn paint_question(page: &mut Page, grid: &mut Grid, lines: &str) {
    let lines = rows_of(page, lines);
    if lines.as_slice().len() > 8 {
        return page.fail();
    }
    match QuestionBox::new(page.alloc(), lines, b"yn") {
        Ok(asked) => page.need(asked.paint(page.alloc(), grid).is_ok()),
        Err(_error) => page.fail(),
    }
}

/// Rows, and behind a bar the keys that are pressed before it is painted. Its current row is told too.
fn paint_list(page: &mut Page, grid: &mut Grid, fields: &str)
    requires { grid.old.lines ≡ 10 }
{
    let (rows, words) = two_fields(fields, '|');
    let rows = rows_of(page, rows);
    let keys = keys_of(page, words);
    match ListBox::new(page.alloc(), "Menu", rows, 10, false) {
        Ok(mut asked) => {
            press_all(page, &mut asked, &keys);
            tell_current(page, &asked);
            page.need(asked.paint(page.alloc(), grid).is_ok());
        }
        Err(_error) => page.fail(),
    }
}

fn tell_current(page: &mut Page, asked: &ListBox) {
    match asked.current() {
        Some(row) => page.tell(format_args!("row {row}, ")),
        None => page.put("no row, "),
    }
}

/// Presses keys one after the other, whether one of them closes it or not.
fn press_all(page: &mut Page, asked: &mut ListBox, keys: &[Key])
    ensures { asked.new.lines ≡ asked.old.lines }
{
    for key in keys {
        page.need(asked.key(*key).is_ok());
    }
}

/// A text, and behind a bar the keys that are pressed before it is painted.
fn paint_line(page: &mut Page, grid: &mut Grid, fields: &str) {
    let (text, words) = two_fields(fields, '|');
    let keys = keys_of(page, words);
    match InputLine::new(page.alloc(), "Copy to", text) {
        Ok(mut asked) => {
            page.need(asked.answer(page.alloc(), &keys).is_ok());
            page.need(asked.paint(page.alloc(), grid).is_ok());
        }
        Err(_error) => page.fail(),
    }
}
