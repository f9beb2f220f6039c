//! Jobs and refusals, told on a line.
use job_reports::Pair;
use mc_text::Path;
use op_plan::{Job, PlanError};
use resolving::ResolveError;
use rows_page::Page;
use std::convert::AsStr;

/// The most bytes of a text that is told whole.
const MOST_SHOWN: usize = 200;

/// A job, with its paths.
pub fn tell_job(page: &mut Page, job: &Job) {
    match job {
        Job::Copy(pairs) => tell_pairs(page, "copy", pairs.as_slice()),
        Job::Move(pairs) => tell_pairs(page, "move", pairs.as_slice()),
        Job::Delete(paths) => tell_paths(page, "delete", paths.as_slice()),
        Job::MakeFolder(path) => tell_at(page, "folder", path),
        Job::SetMode(paths, mode) => {
            page.tell(format_args!("mode {mode:o}"));
            tell_paths(page, "", paths.as_slice());
        }
        Job::MakeLink(path, text) => {
            tell_at(page, "link", path);
            page.put(" that says ");
            tell_short(page, text.as_str());
        }
        Job::Save(path, bytes) => {
            tell_at(page, "save", path);
            page.tell(format_args!(" of {} bytes", bytes.0.len()));
        }
    }
}

fn tell_pairs(page: &mut Page, word: &str, pairs: &[Pair]) {
    page.put(word);
    for pair in pairs {
        tell_path(page, &pair.source);
        page.put(" to");
        tell_path(page, &pair.target);
    }
}

fn tell_paths(page: &mut Page, word: &str, paths: &[Path]) {
    page.put(word);
    for path in paths {
        tell_path(page, path);
    }
}

fn tell_at(page: &mut Page, word: &str, path: &Path) {
    page.put(word);
    tell_path(page, path);
}

/// A refusal, with its paths.
pub fn tell_refusal(page: &mut Page, error: &PlanError) {
    match error {
        PlanError::NoSelection => page.put("NoSelection"),
        PlanError::Nested(first, second) => tell_two(page, "Nested", first, second),
        PlanError::Source(path, error) => {
            tell_at(page, "Source", path);
            page.tell(format_args!(": {error}"));
        }
        PlanError::BadMask => page.put("BadMask"),
        PlanError::Target(error) => tell_target(page, error),
        PlanError::TargetThere(path) => tell_at(page, "TargetThere", path),
        PlanError::SameFile(path) => tell_at(page, "SameFile", path),
        PlanError::IntoItself(source, target) => tell_two(page, "IntoItself", source, target),
        PlanError::TwoToOne(first, second) => tell_two(page, "TwoToOne", first, second),
        PlanError::BadLinkText => page.put("BadLinkText"),
        PlanError::Memory => page.put("Memory"),
    }
}

fn tell_two(page: &mut Page, word: &str, first: &Path, second: &Path) {
    page.put(word);
    tell_path(page, first);
    tell_path(page, second);
}

fn tell_target(page: &mut Page, error: &ResolveError) {
    page.put("Target");
    if let ResolveError::Tree(path, _) = error {
        tell_path(page, path);
    }
    page.tell(format_args!(": {error}"));
}

/// A path's text behind a blank.
pub fn tell_path(page: &mut Page, path: &Path) {
    page.put(" ");
    match path.text(page.alloc()) {
        Ok(text) => tell_short(page, text.as_str()),
        Err(_error) => page.fail(),
    }
}

/// A text, or how long it is.
fn tell_short(page: &mut Page, text: &str) {
    if text.len() <= MOST_SHOWN {
        page.put(text);
    } else {
        page.tell(format_args!("({} bytes)", text.len()));
    }
}
