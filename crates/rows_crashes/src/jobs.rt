//! Jobs without a session: one that makes a link, those that set modes, and one that
//! copies a folder, step by step.
ghost use Rattle.std.specs.Prelude.{◌≡◌, ◌∷◌, [], IfOk};

use crate::stepping::work_off;
use copy_move::{Dirty, Run};
use job_reports::{Job, Pair, Pairs};
use mc_text::{NoMemory, Path, PathError, Paths, Text};
use rows_page::Page;
use std::alloc::Global;
use tree_trait::Tree;

/// The mode that each thing is given.
const MODE: u16 = 0o600;

/// Makes a link that says `x` at this path.
pub fn make_link<T: Tree>(page: &mut Page, tree: &mut T, path: &str) {
    let mut dirty = Dirty::new(page.alloc());
    match Path::parse(page.alloc(), path) {
        Ok(path) => work(page, tree, &mut dirty, link_to_x(page.alloc(), path)),
        Err(_error) => page.fail(),
    }
}

/// Gives these things the mode 600, one after the other. A job in trouble is aborted.
pub fn set_modes<T: Tree>(page: &mut Page, tree: &mut T, paths: &str) {
    let mut dirty = Dirty::new(page.alloc());
    let mut id = 0u32;
    for path in paths.split(' ') {
        id = id.saturating_add(1);
        set_mode(page, tree, &mut dirty, path, id);
    }
}

fn set_mode<T: Tree>(page: &mut Page, tree: &mut T, dirty: &mut Dirty, path: &str, id: u32) {
    match Path::parse(page.alloc(), path) {
        Ok(path) => work(page, tree, dirty, setting(page.alloc(), path, id)),
        Err(_error) => page.fail(),
    }
}

/// Copies a thing with all that lies in it to this path.
pub fn copy_tree<T: Tree>(page: &mut Page, tree: &mut T, source: &str, target: &str) {
    let mut dirty = Dirty::new(page.alloc());
    match pair_of(page.alloc(), source, target) {
        Ok(pair) => work(page, tree, &mut dirty, tree_copy(page.alloc(), pair)),
        Err(_error) => page.fail(),
    }
}

fn pair_of(alloc: Global, source: &str, target: &str) -> Result<Pair, PathError> {
    let source = Path::parse(alloc, source)?;
    let target = Path::parse(alloc, target)?;
    Ok(Pair { source, target })
}

/// Works a job to its end, if there is one.
fn work<T: Tree>(
    page: &mut Page,
    tree: &mut T,
    dirty: &mut Dirty,
    run: Result<Option<Run>, NoMemory>,
) {
    match run {
        Ok(Some(mut run)) => work_off(page, tree, dirty, &mut run),
        Ok(None) => page.fail(),
        Err(_error) => page.fail(),
    }
}

fn link_to_x(alloc: Global, path: Path) -> Result<Option<Run>, NoMemory> {
    let Some(_folder) = path.parent(alloc)? else {
        return Ok(None);
    };
    let text = Text::from_str(alloc, "x")?;
    Ok(Some(Run::start(alloc, &Job::MakeLink(path, text), 1)?))
}

fn setting(alloc: Global, path: Path, id: u32) -> Result<Option<Run>, NoMemory> {
    let Some(_folder) = path.parent(alloc)? else {
        return Ok(None);
    };
    let paths = one_path(alloc, path)?;
    Ok(Some(Run::start(alloc, &Job::SetMode(paths, MODE), id)?))
}

fn one_path(alloc: Global, path: Path) -> Result<Paths, NoMemory>
    ensures { IfOk result (λ paths. paths ≡ path ∷ []) }
{
    let mut paths = Paths::new(alloc);
    paths.push(path)?;
    Ok(paths)
}

fn tree_copy(alloc: Global, pair: Pair) -> Result<Option<Run>, NoMemory> {
    let Some(_from) = pair.source.parent(alloc)? else {
        return Ok(None);
    };
    let Some(_to) = pair.target.parent(alloc)? else {
        return Ok(None);
    };
    let pairs = one_pair(alloc, pair)?;
    Ok(Some(Run::start(alloc, &Job::Copy(pairs), 1)?))
}

fn one_pair(alloc: Global, pair: Pair) -> Result<Pairs, NoMemory>
    ensures { IfOk result (λ pairs. pairs ≡ pair ∷ []) }
{
    let mut pairs = Vec::new(alloc);
    pairs.push(pair)?;
    Ok(Pairs(pairs))
}
