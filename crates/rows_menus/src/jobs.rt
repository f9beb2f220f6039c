//! Lists of live jobs, by keys.
use job_reports::{Cause, JobKind, JobRow, JobRows, JobState, Question, Trouble, Waits};
use key_screen::{Grid, Key};
use mc_text::Path;
use rows_boxes::{keys_of, tell_screen};
use rows_page::{Page, two_fields};
use std::convert::AsStr;
use ui_job_list::{JobList, JobsAct};

/// How many lines and columns the screen has.
const LINES: u16 = 10;

const COLUMNS: u16 = 44;

/// What each key comes to in a list. Behind each exclamation mark other jobs are live.
pub fn tell_keys(page: &mut Page, stages: &str) {
    let mut list = JobList::new(LINES);
    for stage in stages.split('!') {
        let (jobs, words) = two_fields(stage, '|');
        let rows = rows_of(page, jobs);
        work_keys(page, &mut list, &rows, words);
    }
}

/// What the list shows of the last jobs, once the keys were worked.
pub fn tell_list(page: &mut Page, stages: &str) {
    let mut list = JobList::new(LINES);
    let mut aside = Page::new(page.alloc());
    let mut rows = JobRows(Vec::new(page.alloc()));
    for stage in stages.split('!') {
        let (jobs, words) = two_fields(stage, '|');
        rows = rows_of(page, jobs);
        work_keys(&mut aside, &mut list, &rows, words);
    }
    page.need(aside.is_whole());
    match Grid::blank(page.alloc(), LINES, COLUMNS) {
        Ok(mut grid) => tell_painted(page, &list, &rows, &mut grid),
        Err(_error) => page.fail(),
    }
}

fn tell_painted(page: &mut Page, list: &JobList, rows: &JobRows, grid: &mut Grid) {
    let done = list.paint(page.alloc(), rows, grid);
    page.need(done.is_ok());
    page.put(" ");
    tell_screen(page, grid);
}

fn work_keys(page: &mut Page, list: &mut JobList, rows: &JobRows, words: &str) {
    let keys = keys_of(page, words);
    for key in &keys {
        tell_key(page, list, rows, *key);
    }
}

fn tell_key(page: &mut Page, list: &mut JobList, rows: &JobRows, key: Key) {
    match list.key(page.alloc(), rows, key) {
        Ok(act) => tell_act(page, &act),
        Err(_error) => page.fail(),
    }
}

fn tell_act(page: &mut Page, act: &JobsAct) {
    match act {
        JobsAct::Stays => page.put(" stays"),
        JobsAct::Leaves => page.put(" shut"),
        JobsAct::Opens(waits) => tell_waits(page, waits),
    }
}

fn tell_waits(page: &mut Page, waits: &Waits) {
    page.put(" opens ");
    match waits {
        Waits::Question(question) => tell_path(page, &question.target),
        Waits::Trouble(trouble) => tell_trouble(page, trouble),
    }
}

fn tell_trouble(page: &mut Page, trouble: &Trouble) {
    match &trouble.path {
        Some(path) => tell_path(page, path),
        None => page.fail(),
    }
}

fn tell_path(page: &mut Page, path: &Path) {
    match path.text(page.alloc()) {
        Ok(text) => page.put(text.as_str()),
        Err(_error) => page.fail(),
    }
}

/// The jobs of these words, a semicolon between two.
fn rows_of(page: &mut Page, jobs: &str) -> JobRows {
    let mut rows = Vec::new(page.alloc());
    for job in jobs.split(';').filter(|job| !job.is_empty()) {
        match row_of(page, job) {
            Some(row) => page.need(rows.push(row).is_ok()),
            None => page.fail(),
        }
    }
    JobRows(rows)
}

/// A job: its number, what it is at, what it does, its path. A trouble is at that path, too, and so is
/// the target of a question.
fn row_of(page: &mut Page, job: &str) -> Option<JobRow> {
    let (number, rest) = two_fields(job, ' ');
    let (state, rest) = two_fields(rest, ' ');
    let (kind, path) = two_fields(rest, ' ');
    Some(JobRow {
        job: number.parse().ok()?,
        state: state_of(state),
        kind: kind_of(kind),
        path: Path::parse(page.alloc(), path).ok()?,
        background: false,
        asked: question_of(page, state, path),
        trouble: trouble_of(page, state, path),
    })
}

fn state_of(word: &str) -> JobState {
    match word {
        "ready" => JobState::Ready,
        "asking" => JobState::Asking,
        "trouble" => JobState::Troubled,
        _ => JobState::Stopped,
    }
}

fn kind_of(word: &str) -> JobKind {
    match word {
        "copy" => JobKind::Copy,
        "delete" => JobKind::Delete,
        "symlink" => JobKind::MakeLink,
        "chmod" => JobKind::SetMode,
        _ => JobKind::MakeFolder,
    }
}

fn question_of(page: &Page, state: &str, path: &str) -> Option<Question> {
    if state != "asking" {
        return None;
    }
    Some(Question {
        source: Path::parse(page.alloc(), "/from").ok()?,
        target: Path::parse(page.alloc(), path).ok()?,
        source_size: 1,
        target_size: 2,
        source_time: 0,
        target_time: 0,
    })
}

fn trouble_of(page: &Page, state: &str, path: &str) -> Option<Trouble> {
    if state != "trouble" {
        return None;
    }
    Some(Trouble {
        cause: Cause::TooDeep,
        path: Path::parse(page.alloc(), path).ok(),
        barrier: false,
    })
}
