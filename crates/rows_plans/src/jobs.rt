//! What jobs claim, and which of their claims clash.
use crate::fields::paths_of;
use crate::telling::tell_path;
use job_claims::{Claim, Claims, claims, clash};
use job_reports::{Pair, Pairs};
use mc_text::{Bytes, Path, Text};
use op_plan::Job;
use rows_page::{Page, two_fields};
use std::alloc::Global;

/// The claims of a job.
pub fn tell_claims(page: &mut Page, job: &str) {
    match claims_of(page.alloc(), job) {
        Some(claims) => tell_each(page, claims.as_slice()),
        None => page.fail(),
    }
}

fn tell_each(page: &mut Page, claims: &[Claim]) {
    let mut mark = "";
    for claim in claims {
        page.put(mark);
        page.put(if claim.writes { "writes" } else { "reads" });
        tell_path(page, &claim.path);
        mark = ", ";
    }
}

/// The first positions at which the claims of two jobs clash.
pub fn tell_clash(page: &mut Page, fields: &str) {
    let (mine, theirs) = two_fields(fields, '|');
    let (Some(mine), Some(theirs)) = (
        claims_of(page.alloc(), mine),
        claims_of(page.alloc(), theirs),
    ) else {
        return page.fail();
    };
    match clash(&mine, &theirs) {
        Some((i, j)) => page.tell(format_args!("{i} {j}")),
        None => page.put("none"),
    }
}

fn claims_of(alloc: Global, job: &str) -> Option<Claims> {
    let job = job_of(alloc, job)?;
    claims(alloc, &job).ok()
}

/// The job of this kind on these paths. Of a copy and a move an arrow stands between a source and its target.
fn job_of(alloc: Global, text: &str) -> Option<Job> {
    let (kind, paths) = two_fields(text, ' ');
    match kind {
        "copy" => Some(Job::Copy(pairs_of(alloc, paths)?)),
        "move" => Some(Job::Move(pairs_of(alloc, paths)?)),
        "delete" => Some(Job::Delete(paths_of(alloc, paths)?)),
        "mode" => Some(Job::SetMode(paths_of(alloc, paths)?, 0o600)),
        _ => job_at(alloc, kind, Path::parse(alloc, paths).ok()?),
    }
}

/// The job of this kind at a path.
fn job_at(alloc: Global, kind: &str, path: Path) -> Option<Job> {
    match kind {
        "folder" => Some(Job::MakeFolder(path)),
        "link" => Some(Job::MakeLink(path, Text::from_str(alloc, "x").ok()?)),
        "save" => Some(Job::Save(path, Bytes::from_slice(alloc, b"x").ok()?)),
        _ => None,
    }
}

fn pairs_of(alloc: Global, field: &str) -> Option<Pairs> {
    let mut pairs = Pairs(Vec::new(alloc));
    for word in field.split_whitespace() {
        if !add_pair(alloc, &mut pairs, word) {
            return None;
        }
    }
    Some(pairs)
}

fn add_pair(alloc: Global, pairs: &mut Pairs, word: &str) -> bool {
    match pair_of(alloc, word) {
        Some(pair) => pairs.0.push(pair).is_ok(),
        None => false,
    }
}

fn pair_of(alloc: Global, word: &str) -> Option<Pair> {
    let (source, target) = word.split_once("->")?;
    let source = Path::parse(alloc, source).ok()?;
    let target = Path::parse(alloc, target).ok()?;
    Some(Pair { source, target })
}
