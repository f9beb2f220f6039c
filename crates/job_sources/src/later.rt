//! The sources that a job is yet to take up. Those of a folder that was merged are kept as its
//! names, and planned one by one.
ghost use Rattle.std.specs.Prelude.{◌≡◌, ◌∷◌, ◌++◌, [], IfOk, OnErr, OnOk, false, reverse, true};
ghost use Rattle.std.specs.List.{list_all};
ghost use Rattle.job_reports.specs.Jobs.{is_workable};
ghost use Rattle.session_entries.specs.SourcesLeft.{children_in, pair_within};
ghost use Rattle.job_sources.specs.Coming.{has_names, is_apart, is_sound};
ghost use Rattle.job_sources.specs.Coming.{leaves_none, sources_at, sources_from};
ghost use Rattle.job_sources.specs.Turning.{MayLeave, Takes};

use crate::left::Left;
use job_reports::{Job, Pair, Pairs, Transfer};
use mc_text::{Name, Names, NoMemory, Path};
use std::alloc::Global;
use std::marker::Model;

/// Sources that can be worked. The next one comes last, so that it is taken without a move of the others.
#[derive(Debug, Drop)]
pub struct Later {
    left: Vec<Left>,
}

impl Model for Later {
    ghost use Rattle.std.specs.Prelude.{List, ◌≡◌, reverse, true};
    ghost use Rattle.std.specs.List.{list_all};
    ghost use Rattle.job_reports.specs.declared.job.Job.{Job};
    ghost use Rattle.job_sources.specs.Coming.{is_sound, sources_from};

    ghost Value = { List Job };

    ghost view = { λ l. sources_from (reverse l.left.items) };

    ghost invariant = { λ l. list_all is_sound l.left.items ≡ true };
}

impl Later {
    /// None. It takes no memory.
    pub fn new(alloc: Global) -> Later
        ensures { result ≡ [] }
    {
        Later {
            left: Vec::new(alloc),
        }
    }

    /// One more, before all others.
    pub fn put_first(&mut self, source: Job) -> Result<(), NoMemory>
        requires { is_workable source ≡ true }
        ensures done { OnOk result (self.new ≡ source ∷ self.old) }
        ensures refused { OnErr result (self.new ≡ self.old) }
    {
        self.left.push(Left::Planned(source))?;
        Ok(())
    }

    /// What lies in a folder by these names, and comes so to the folder at its target, before all others.
    /// Behind what is moved comes the removal of the folder.
    pub fn put_children(
        &mut self,
        alloc: Global,
        transfer: Transfer,
        pair: &Pair,
        names: &Names,
    ) -> Result<(), NoMemory>
        requires apart { MayLeave transfer pair.now }
        ensures done { OnOk result (self.new ≡ children_in transfer pair.now names.now ++ self.old) }
        ensures refused { OnErr result (self.new ≡ self.old) }
    {
        if has_none(transfer, names) {
            return Ok(());
        }
        self.left.push(children_of(alloc, transfer, pair, names)?)?;
        Ok(())
    }

    /// Takes the next source, if one is left. Where there is no memory for its plan, it is lost.
    pub fn take_next(&mut self, alloc: Global) -> Result<Option<Job>, NoMemory>
        ensures { IfOk result (λ source. Takes self.old source self.new) }
    {
        match self.left.pop() {
            None => Ok(None),
            Some(Left::Planned(source)) => Ok(Some(source)),
            Some(Left::Children(transfer, pair, names)) => {
                take_child(alloc, &mut self.left, transfer, pair, names)
            }
        }
    }

    /// None is taken up any more.
    pub fn clear(&mut self)
        ensures { self.new ≡ [] }
    {
        self.left.clear();
    }
}

/// Whether the merge of a folder with these names leaves no source; behind what is moved out
/// of one comes its removal.
fn has_none(transfer: Transfer, names: &Names) -> bool
    ensures { result ≡ leaves_none transfer names.now }
{
    match transfer {
        Transfer::ByCopy => names.as_slice().is_empty(),
        Transfer::ByMove => false,
    }
}

/// What lies in a folder by these names, as it is kept.
fn children_of(
    alloc: Global,
    transfer: Transfer,
    pair: &Pair,
    names: &Names,
) -> Result<Left, NoMemory>
    requires some { leaves_none transfer names.now ≡ false }
    requires apart { MayLeave transfer pair.now }
    ensures kept { IfOk result (λ place. sources_at place ≡ children_in transfer pair.now names.now) }
    ensures sound { IfOk result (λ place. is_sound place ≡ true) }
{
    Ok(Left::Children(transfer, copy_pair(alloc, pair)?, last_first(alloc, names)?))
}

/// A pair once more.
fn copy_pair(alloc: Global, pair: &Pair) -> Result<Pair, NoMemory>
    ensures { IfOk result (λ copy. copy ≡ pair.now) }
{
    Ok(Pair {
        source: pair.source.copy(alloc)?,
        target: pair.target.copy(alloc)?,
    })
}

/// These names once more, the last one first.
fn last_first(alloc: Global, names: &Names) -> Result<Names, NoMemory>
    ensures { IfOk result (λ copies. copies ≡ reverse names.now) }
{
    let mut copies = Names::new(alloc);
    let mut left = names.as_slice();
    while let Some((name, before)) = left.split_last() {
        copies.push(name.copy(alloc)?)?;
        left = before;
    }
    Ok(copies)
}

/// Takes the next source that the merge of a folder leaves, which was taken from its place, and
/// leaves the others there.
fn take_child(
    alloc: Global,
    left: &mut Vec<Left>,
    transfer: Transfer,
    pair: Pair,
    names: Names,
) -> Result<Option<Job>, NoMemory>
    requires place { is_sound (Left.Children transfer pair names) ≡ true }
    requires sound { list_all is_sound left.old.items ≡ true }
    ensures taken { IfOk result (λ source.
        Takes (children_in transfer pair (reverse names) ++ sources_from (reverse left.old.items)) source
        (sources_from (reverse left.new.items))) }
    ensures kept { list_all is_sound left.new.items ≡ true }
{
    match transfer {
        Transfer::ByCopy => take_copied(alloc, left, pair, names),
        Transfer::ByMove => take_moved(alloc, left, pair, names),
    }
}

/// The same of what is copied.
fn take_copied(
    alloc: Global,
    left: &mut Vec<Left>,
    pair: Pair,
    names: Names,
) -> Result<Option<Job>, NoMemory>
    requires some { has_names names ≡ true }
    requires sound { list_all is_sound left.old.items ≡ true }
    ensures taken { IfOk result (λ source.
        Takes (children_in Transfer.ByCopy pair (reverse names) ++ sources_from (reverse left.old.items))
        source (sources_from (reverse left.new.items))) }
    ensures kept { list_all is_sound left.new.items ≡ true }
{
    let mut names = names;
    let Some(name) = names.0.pop() else {
        return Ok(None);
    };
    let source = Job::Copy(alone_within(alloc, &pair, &name)?);
    if !names.0.is_empty() {
        left.push(Left::Children(Transfer::ByCopy, pair, names))?;
    }
    Ok(Some(source))
}

/// The same of what is moved, behind which the folder is removed.
fn take_moved(
    alloc: Global,
    left: &mut Vec<Left>,
    pair: Pair,
    names: Names,
) -> Result<Option<Job>, NoMemory>
    requires apart { is_apart pair ≡ true }
    requires sound { list_all is_sound left.old.items ≡ true }
    ensures taken { IfOk result (λ source.
        Takes (children_in Transfer.ByMove pair (reverse names) ++ sources_from (reverse left.old.items))
        source (sources_from (reverse left.new.items))) }
    ensures kept { list_all is_sound left.new.items ≡ true }
{
    let mut names = names;
    let Some(name) = names.0.pop() else {
        return Ok(Some(Job::RemoveEmptied(pair.source)));
    };
    let source = Job::Move(alone_within(alloc, &pair, &name)?);
    left.push(Left::Children(Transfer::ByMove, pair, names))?;
    Ok(Some(source))
}

/// The pair of what has this name in a folder, alone. Its path and that of its target were told to be short
/// enough; else it can't be planned.
fn alone_within(alloc: Global, pair: &Pair, name: &Name) -> Result<Pairs, NoMemory>
    ensures { IfOk result (λ alone. alone ≡ pair_within pair.now name.now ∷ []) }
{
    let mut pairs = Vec::new(alloc);
    pairs.push(Pair {
        source: below(alloc, &pair.source, name)?,
        target: below(alloc, &pair.target, name)?,
    })?;
    Ok(Pairs(pairs))
}

/// The path of what has this name in a folder.
fn below(alloc: Global, folder: &Path, name: &Name) -> Result<Path, NoMemory>
    ensures { IfOk result (λ path. path ≡ name.now ∷ folder.now) }
{
    match folder.join(alloc, name) {
        Ok(path) => Ok(path),
        Err(_e) => Err(NoMemory),
    }
}
