//! What the step of a job did, by chance.
use crate::chance::Chance;
use crate::texts::{some_names, some_pair, some_path};
use job_reports::{Cause, Did, Ending, Pair, Question, Transfer, Trouble};
use mc_text::Path;
use rows_page::Page;

/// How the steps of a list look: of so many steps one is another than a path's or a chunk's, as many of
/// these write bytes as say `chunks` of 8, and each path has fewer names than this.
#[derive(Clone, Copy, Drop)]
pub struct Style {
    pub rare: u32,
    pub chunks: u32,
    pub names: u32,
}

/// The steps of a list are those of a small files' copy, of a great file's, or have paths of great length.
pub fn some_style(chance: &mut Chance) -> Style {
    match chance.below(3) {
        0 => Style {
            rare: 9,
            chunks: 2,
            names: 6,
        },
        1 => Style {
            rare: 50,
            chunks: 8,
            names: 6,
        },
        _ => Style {
            rare: 9,
            chunks: 1,
            names: 30,
        },
    }
}

pub fn some_did(page: &mut Page, chance: &mut Chance, style: Style) -> Did {
    if chance.happens(style.rare) {
        return rare_did(page, chance);
    }
    if chance.below(8) < style.chunks {
        return Did::Chunk(chance.below(65_536));
    }
    if chance.happens(9) {
        return Did::Barrier;
    }
    let path = some_path(page, chance, style.names);
    named_did(chance, path)
}

/// A step to a path.
fn named_did(chance: &mut Chance, path: Path) -> Did {
    match chance.below(7) {
        0 => Did::Began(path),
        1 => Did::Placed(path),
        2 => Did::Removed(path),
        3 => Did::Made(path),
        4 => Did::Set(path),
        5 => Did::Kept(path),
        _ => Did::Cleaned(path),
    }
}

/// A step that a history keeps whole.
fn rare_did(page: &mut Page, chance: &mut Chance) -> Did {
    match chance.below(6) {
        0 => Did::Skipped(some_path(page, chance, 5), Cause::TooDeep),
        1 => Did::Asked(some_question(page, chance)),
        2 => Did::Merges(
            Transfer::ByMove,
            some_pair(page, chance),
            some_names(page, chance),
        ),
        3 => Did::Moved(some_pair(page, chance)),
        4 => Did::Troubled(some_trouble(page, chance)),
        _ => Did::Ended {
            ending: Ending::Aborted,
            part: Some(some_path(page, chance, 5)),
        },
    }
}

fn some_question(page: &mut Page, chance: &mut Chance) -> Question {
    let Pair { source, target } = some_pair(page, chance);
    Question {
        source,
        target,
        source_size: chance.below(9) as u64,
        target_size: chance.below(9) as u64,
        source_time: -1,
        target_time: 5,
    }
}

fn some_trouble(page: &mut Page, chance: &mut Chance) -> Trouble {
    Trouble {
        cause: Cause::Unnamed(chance.below(9) as u64),
        path: Some(some_path(page, chance, 5)),
        barrier: chance.happens(2),
    }
}
