//! What came of a run, in one line.
use job_reports::{Cause, Did, Ending};
use key_screen::{Base, Cell, Glyph, Key, read_grid};
use mc_text::{Name, Path};
use rows_page::Page;
use session_entries::Event;
use session_log::History;
use std::alloc::Global;
use std::convert::AsStr;
use tree_trait::{Tree, TreeError};

/// The status, what was printed where no session began, the keys and the steps of the history, and
/// what stands in the folders.
pub fn tell_outcome<T: Tree>(
    page: &mut Page,
    status: u8,
    tree: &mut T,
    printed: &[u8],
    history: &History,
) {
    page.tell(format_args!("status {status}"));
    if history.entries.0.len() == 0 {
        tell_printed(page, printed);
    } else {
        tell_history(page, history);
    }
    for folder in "/a /a/d /s /t".split(' ') {
        tell_folder(page, tree, folder);
    }
}

/// Each row that isn't blank of a screen of 10 lines and 40 columns that was given these
/// bytes, on a line of its own.
pub fn tell_screen(page: &mut Page, bytes: &[u8]) {
    match read_grid(page.alloc(), 10, 40, bytes) {
        Ok(grid) => tell_lines(page, grid.cells()),
        Err(_error) => page.fail(),
    }
}

fn tell_lines(page: &mut Page, cells: &[Cell]) {
    let mut number = 0u64;
    for cells in cells.chunks(40) {
        number = number.saturating_add(1);
        tell_line(page, number, cells);
    }
}

fn tell_line(page: &mut Page, number: u64, cells: &[Cell]) {
    let line = line_of(page.alloc(), cells);
    page.need(line.is_whole());
    let text = line.text().trim_end();
    if !text.is_empty() {
        page.tell(format_args!("\n  {number:2} {text}"));
    }
}

/// The text of a row of the screen.
fn line_of(alloc: Global, cells: &[Cell]) -> Page {
    let mut line = Page::new(alloc);
    for cell in cells {
        match &cell.glyph {
            Glyph::Blank => line.put(" "),
            Glyph::Cluster(cluster) => line.put(cluster.as_str()),
            Glyph::RightHalf => (),
        }
    }
    line
}

/// The lines that were printed.
fn tell_printed(page: &mut Page, printed: &[u8]) {
    match std::str::from_utf8(printed) {
        Ok(text) => tell_joined(page, text.trim_end()),
        Err(_error) => page.fail(),
    }
}

fn tell_joined(page: &mut Page, text: &str) {
    page.put("; printed: ");
    let mut lines = text.split('\n');
    if let Some(first) = lines.next() {
        page.put(first);
    }
    for line in lines {
        page.put(" / ");
        page.put(line);
    }
}

fn tell_history(page: &mut Page, history: &History) {
    page.put("; keys");
    let mut walk = history.entries.0.oldest_first(page.alloc());
    for _ in 0..history.entries.0.len() {
        match walk.next(page.alloc()) {
            Ok(Some(met)) => tell_key_of(page, &met.entry().what),
            Ok(None) | Err(_) => page.fail(),
        }
    }
    page.put("; steps");
    let mut walk = history.entries.0.oldest_first(page.alloc());
    for _ in 0..history.entries.0.len() {
        match walk.next(page.alloc()) {
            Ok(Some(met)) => tell_step_of(page, &met.entry().what),
            Ok(None) | Err(_) => page.fail(),
        }
    }
}

fn tell_key_of(page: &mut Page, what: &Event) {
    if let Event::Key { key, .. } = what {
        tell_key(page, *key);
    }
}

fn tell_step_of(page: &mut Page, what: &Event) {
    match what {
        Event::Step { job: _, did } => page.put(word_of(did)),
        Event::Next { .. } => page.put(" next"),
        _ => {}
    }
}

fn tell_key(page: &mut Page, key: Key) {
    page.put(if key.meta { " M-" } else { " " });
    match key.base {
        Base::Char(letter) => page.tell(letter),
        Base::F(number) => page.tell(format_args!("F{number}")),
        base => page.tell(format_args!("{base:?}")),
    }
}

/// What a step did.
fn word_of(did: &Did) -> &'static str {
    match did {
        Did::Began(_) => " part",
        Did::Chunk(_) => " chunk",
        Did::Placed(_) => " placed",
        Did::Removed(_) => " removed",
        Did::Made(_) => " made",
        Did::Set(_) => " set",
        Did::Kept(_) => " kept",
        Did::Skipped(_, _) => " skipped",
        Did::Cleaned(_) => " cleaned",
        Did::Barrier => " barrier",
        Did::Asked(_) => " asked",
        Did::Merges(_, _, _) => " merged",
        Did::Moved(_) => " moved",
        Did::Troubled(trouble) => match trouble.cause {
            Cause::Tree(TreeError::Denied) => " denied",
            Cause::Tree(TreeError::NoSpace) => " full",
            Cause::Tree(TreeError::Fault) => " fault",
            _ => " trouble",
        },
        Did::Ended { ending, part: _ } => match ending {
            Ending::Finished => " finished",
            Ending::Aborted => " aborted",
            Ending::Killed => " killed",
            Ending::NoMemory => " no-memory",
        },
    }
}

/// The things in a folder, if it is there: of each its name, size and mode.
fn tell_folder<T: Tree>(page: &mut Page, tree: &mut T, folder: &str) {
    match Path::parse(page.alloc(), folder) {
        Ok(path) => tell_things(page, tree, folder, &path),
        Err(_error) => page.fail(),
    }
}

fn tell_things<T: Tree>(page: &mut Page, tree: &mut T, folder: &str, path: &Path) {
    if let Ok(children) = tree.list(page.alloc(), path) {
        page.tell(format_args!("; {folder}:"));
        for name in children.names.as_slice() {
            tell_thing(page, tree, path, name);
        }
    }
}

fn tell_thing<T: Tree>(page: &mut Page, tree: &mut T, folder: &Path, name: &Name) {
    match folder.join(page.alloc(), name) {
        Ok(path) => tell_meta(page, tree, &path, name.text()),
        Err(_error) => page.fail(),
    }
}

fn tell_meta<T: Tree>(page: &mut Page, tree: &mut T, path: &Path, name: &str) {
    if let Ok(meta) = tree.stat(page.alloc(), path) {
        let (size, mode) = (meta.size, meta.mode);
        page.tell(format_args!(" {name} {size} {mode:o}"));
    }
}
