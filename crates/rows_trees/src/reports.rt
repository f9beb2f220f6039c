//! What the steps of a job report, in words.

use crate::paths::tell_path;
use job_reports::{Did, Ending, Question, Trouble};
use mc_text::Path;
use rows_page::Page;

/// What a step did, and how many changing calls it made: a line.
pub fn tell_step(page: &mut Page, did: &Did, calls: u64) {
    page.put("  ");
    tell_report(page, did);
    page.tell(format_args!(", calls {calls}\n"));
}

/// What was done.
pub fn tell_report(page: &mut Page, did: &Did) {
    match did {
        Did::Began(part) => tell_of(page, "Began", part),
        Did::Chunk(count) => page.tell(format_args!("Chunk {count}")),
        Did::Placed(target) => tell_of(page, "Placed", target),
        Did::Removed(path) => tell_of(page, "Removed", path),
        Did::Made(path) => tell_of(page, "Made", path),
        Did::Set(path) => tell_of(page, "Set", path),
        Did::Kept(path) => tell_of(page, "Kept", path),
        Did::Skipped(source, cause) => {
            tell_of(page, "Skipped", source);
            page.tell(format_args!(", {cause:?}"));
        }
        Did::Cleaned(part) => tell_of(page, "Cleaned", part),
        Did::Barrier => page.put("Barrier"),
        Did::Asked(question) => tell_question(page, question),
        Did::Merges(_, pair, names) => {
            tell_of(page, "Merges", &pair.source);
            tell_of(page, " onto", &pair.target);
            page.tell(format_args!(", names {}", names.as_slice().len()));
        }
        Did::Moved(pair) => {
            tell_of(page, "Moved", &pair.source);
            tell_of(page, " to", &pair.target);
        }
        Did::Troubled(trouble) => tell_trouble(page, trouble),
        Did::Ended { ending, part } => tell_end(page, *ending, part),
    }
}

/// The sizes and times of a question.
fn tell_question(page: &mut Page, question: &Question) {
    page.tell(format_args!(
        "Asked: {} bytes of second {} over {} of second {}",
        question.source_size, question.source_time, question.target_size, question.target_time
    ));
}

fn tell_trouble(page: &mut Page, trouble: &Trouble) {
    page.put("Troubled");
    if trouble.barrier {
        page.put(" at a barrier");
    }
    page.tell(format_args!(" {:?}", trouble.cause));
    if let Some(path) = &trouble.path {
        tell_of(page, "", path);
    }
}

fn tell_end(page: &mut Page, ending: Ending, part: &Option<Path>) {
    page.tell(format_args!("Ended {ending:?}"));
    if let Some(part) = part {
        tell_of(page, " and left", part);
    }
}

/// A word, and the path that it is said of.
pub fn tell_of(page: &mut Page, word: &str, path: &Path) {
    page.put(word);
    page.put(" ");
    tell_path(page, path);
}
