//! Sources with their targets: none is or holds another.
ghost use Rattle.std.specs.Prelude.{◌≡◌, ◌≢◌, ◌<◌, ◌||◌, ℕ, length, List, [], ◌∷◌, true};
ghost use Rattle.std.specs.Prelude.{false, map, option_map, IfOk, IfErr, IfSome, OnOk};
ghost use Rattle.std.specs.List.{All, list_any, position};
ghost use Rattle.std.specs.Option.{option_map_or};
ghost use Rattle.std.specs.Str.{bytes_eq};
ghost use Rattle.std.specs.BTreeSet.{contains_text};
ghost use Rattle.mc_text.specs.Routes.{Route, is_prefix, same_path};
ghost use Rattle.job_reports.specs.declared.job.Pair.{Pair};
ghost use Rattle.op_plan.specs.Answering.{Plans, is_fault, CarriesPlanCause, IsPlaceError};
ghost use Rattle.op_plan.specs.Meeting.{meet, has_two};
ghost use Rattle.op_plan.specs.Digests.{name_of, IsChild, LieBeside};
ghost use Rattle.op_plan.specs.Checks.{none_same, none_across, none_into, none_twice};
ghost use Rattle.op_plan.specs.Checks.{is_too_long, targets_in, targets_from};
ghost use Rattle.op_plan.specs.Checks.{sources_in, pair, paired_sources, child_above};
ghost use Rattle.op_plan.specs.Planning.{pairs_into};
ghost use Rattle.op_plan.specs.Soundness.{ArePairsApart};

use crate::digest::are_told_apart;
use crate::error::PlanError;
use crate::meeting::{first_meeting, last_name, meet};
use job_reports::{Pair, Pairs};
use mc_text::{Name, NoMemory, Path, PathError, Paths};
use resolving::ResolveError;
use std::alloc::Global;
use std::collections::BTreeSet;

/// The sources, each with its target of this name in the folder, where none is or holds another.
pub fn pairs_into(
    alloc: Global,
    folder: &Path,
    sources: Paths,
    names: &[Name],
) -> Result<Pairs, PlanError>
    requires some { sources ≢ [] }
    requires apart { has_two meet sources ≡ false }
    requires named { length names.now ≡ length sources }
    ensures answer { Plans (pairs_into folder.now sources names.now) result }
    ensures apart { IfOk result ArePairsApart }
    ensures sources { IfOk result (λ pairs. sources_in pairs ≡ sources) }
    ensures placed { IfOk result (λ pairs. targets_from pairs ≡ map (λ name. name ∷ folder.now) names.now) }
    ensures no_fault { IfErr result (λ e. is_fault e ≡ false) }
    ensures carried { IfErr result CarriesPlanCause }
{
    let targets = targets_in(alloc, folder, names)?;
    let pairs = paired(alloc, sources, targets)?;
    refuse_into(alloc, folder, names, pairs.as_slice())?;
    refuse_twice(alloc, names, pairs.as_slice())?;
    Ok(pairs)
}

/// The sources, each with the target of its own name in the folder. They lie side by side in
/// another one, beside this.
pub fn pairs_beside(alloc: Global, folder: &Path, sources: Paths) -> Result<Pairs, PlanError>
    requires some { sources ≢ [] }
    requires beside { LieBeside folder.now sources }
    ensures answer { Plans (pairs_into folder.now sources (map name_of sources)) result }
    ensures apart { IfOk result ArePairsApart }
    ensures sources { IfOk result (λ pairs. sources_in pairs ≡ sources) }
    ensures placed { IfOk result (λ pairs.
        targets_from pairs ≡ map (λ name. name ∷ folder.now) (map name_of sources)) }
    ensures no_fault { IfErr result (λ e. is_fault e ≡ false) }
    ensures carried { IfErr result CarriesPlanCause }
{
    kept_pairs(alloc, folder, sources)
}

/// The sources, each with the target of its own name in the folder.
fn kept_pairs(alloc: Global, folder: &Path, sources: Paths) -> Result<Pairs, PlanError>
    requires { (holder : Route) × All (IsChild holder) sources }
    ensures made { IfOk result (λ pairs.
        pairs ≡ map (λ source. pair source (name_of source ∷ folder.now)) sources) }
    ensures fits { OnOk result (list_any (is_too_long folder.now) (map name_of sources) ≡ false) }
    ensures too_long { IfErr result (λ e. e ≢ PlanError.Memory
        → (e ≡ PlanError.Target ResolveError.TooLong)
        × (list_any (is_too_long folder.now) (map name_of sources) ≡ true)) }
    ensures no_fault { IfErr result (λ e. is_fault e ≡ false) }
    ensures carried { IfErr result CarriesPlanCause }
{
    let Paths(sources) = sources;
    let mut pairs = Vec::with_capacity(alloc, sources.len())?;
    for source in sources {
        match kept_target(alloc, folder, &source) {
            Ok(target) => pairs.push(Pair { source, target })?,
            Err(error) => return Err(error),
        }
    }
    Ok(Pairs(pairs))
}

/// The target of the same name in the folder.
#[tactic(auto, using(crate::proofs::BesideLemmas::name_last, crate::proofs::BesideLemmas::no_last))]
fn kept_target(alloc: Global, folder: &Path, source: &Path) -> Result<Path, PlanError>
    requires { source.now ≢ [] }
    ensures joined { IfOk result (λ target. target ≡ name_of source.now ∷ folder.now) }
    ensures fits { OnOk result (is_too_long folder.now (name_of source.now) ≡ false) }
    ensures too_long { IfErr result (λ e. e ≢ PlanError.Memory
        → (e ≡ PlanError.Target ResolveError.TooLong)
        × (is_too_long folder.now (name_of source.now) ≡ true)) }
    ensures no_fault { IfErr result (λ e. is_fault e ≡ false) }
    ensures carried { IfErr result CarriesPlanCause }
{
    match last_name(source) {
        Some(name) => target_in(alloc, folder, name),
        None => unreachable!(),
    }
}

/// The paths of these names in a folder.
fn targets_in(alloc: Global, folder: &Path, names: &[Name]) -> Result<Paths, PlanError>
    ensures answer { Plans (targets_in folder.now names.now) result }
    ensures joined { IfOk result (λ targets. targets ≡ map (λ name. name ∷ folder.now) names.now) }
    ensures no_fault { IfErr result (λ e. is_fault e ≡ false) }
    ensures carried { IfErr result CarriesPlanCause }
{
    let mut targets = Vec::with_capacity(alloc, names.len())?;
    for name in names {
        match target_in(alloc, folder, name) {
            Ok(target) => targets.push(target)?,
            Err(error) => return Err(error),
        }
    }
    Ok(Paths(targets))
}

/// The path of this name in a folder.
pub fn target_in(alloc: Global, folder: &Path, name: &Name) -> Result<Path, PlanError>
    ensures joined { IfOk result (λ target. target ≡ name.now ∷ folder.now) }
    ensures fits { IfOk result (λ _. is_too_long folder.now name.now ≡ false) }
    ensures too_long { IfErr result (λ e. e ≢ PlanError.Memory
        → (e ≡ PlanError.Target ResolveError.TooLong) × (is_too_long folder.now name.now ≡ true)) }
    ensures only { IfErr result IsPlaceError }
    ensures no_fault { IfErr result (λ e. is_fault e ≡ false) }
    ensures carried { IfErr result CarriesPlanCause }
{
    match folder.join(alloc, name) {
        Ok(target) => Ok(target),
        Err(PathError::Memory) => Err(PlanError::Memory),
        Err(_) => Err(PlanError::Target(ResolveError::TooLong)),
    }
}

/// Each source with its target.
fn paired(alloc: Global, sources: Paths, targets: Paths) -> Result<Pairs, NoMemory>
    requires { length targets ≡ length sources }
    ensures { IfOk result (λ pairs. pairs ≡ paired_sources sources targets) }
{
    let Paths(from) = sources;
    let Paths(to) = targets;
    let mut pairs = Vec::with_capacity(alloc, from.len())?;
    for (source, target) in from.into_iter().zip(to) {
        pairs.push(Pair { source, target })?;
    }
    Ok(Pairs(pairs))
}

/// Refuses a source that is its own target, or that is, holds or lies in one. The targets have these names
/// in the folder, so where no source has to do with the folder, none has to do with a target.
#[tactic(auto, using(crate::proofs::ApartLemmas::none_into_apart, crate::proofs::ApartLemmas::sources_apart))]
fn refuse_into(
    alloc: Global,
    folder: &Path,
    names: &[Name],
    pairs: &[Pair],
) -> Result<(), PlanError>
    requires { targets_from pairs.now ≡ map (λ name. name ∷ folder.now) names.now }
    ensures answer { Plans (none_into pairs.now) result }
    ensures apart { OnOk result (list_any (λ source. list_any (meet source) (targets_from pairs.now))
        (sources_in pairs.now) ≡ false) }
    ensures no_fault { IfErr result (λ e. is_fault e ≡ false) }
    ensures carried { IfErr result CarriesPlanCause }
{
    if !any_source_meets(folder, pairs) {
        return Ok(());
    }
    refuse_same(alloc, pairs)?;
    refuse_across(alloc, folder, names, pairs)
}

/// Whether a source is, holds or lies in the folder.
fn any_source_meets(folder: &Path, pairs: &[Pair]) -> bool
    ensures { result ≡ list_any (λ (pair : Pair). meet pair.source folder.now) pairs.now }
{
    pairs.iter().any(|pair| meet(&pair.source, folder))
}

/// Refuses a source that is its own target.
fn refuse_same(alloc: Global, pairs: &[Pair]) -> Result<(), PlanError>
    ensures answer { Plans (none_same pairs.now) result }
    ensures no_fault { IfErr result (λ e. is_fault e ≡ false) }
    ensures carried { IfErr result CarriesPlanCause }
{
    match first_same(pairs) {
        None => Ok(()),
        Some(at) => Err(PlanError::SameFile(pairs[at].source.copy(alloc)?)),
    }
}

/// The first source that is its own target.
fn first_same(pairs: &[Pair]) -> Option<usize>
    ensures first { result ≡ position (λ (pair : Pair). same_path pair.source pair.target) pairs.now }
    ensures within { IfSome result (λ at. at < length pairs.now) }
{
    pairs.iter().position(|pair| pair.source.same(&pair.target))
}

/// Refuses a source that is, holds or lies in a target. The targets have these names in the folder.
fn refuse_across(
    alloc: Global,
    folder: &Path,
    names: &[Name],
    pairs: &[Pair],
) -> Result<(), PlanError>
    requires { targets_from pairs.now ≡ map (λ name. name ∷ folder.now) names.now }
    ensures answer { Plans (none_across pairs.now) result }
    ensures apart { OnOk result (list_any (λ source. list_any (meet source) (targets_from pairs.now))
        (sources_in pairs.now) ≡ false) }
    ensures no_fault { IfErr result (λ e. is_fault e ≡ false) }
    ensures carried { IfErr result CarriesPlanCause }
{
    let taken = texts_in(alloc, names)?;
    for pair in pairs {
        if meets_any(folder, &taken, &pair.source)
            && let Some(at) = first_target(pairs, &pair.source)
        {
            return Err(PlanError::IntoItself(
                pair.source.copy(alloc)?,
                pairs[at].target.copy(alloc)?,
            ));
        }
    }
    Ok(())
}

/// The texts of names, as a set.
fn texts_in(alloc: Global, names: &[Name]) -> Result<BTreeSet<String>, NoMemory>
    ensures { IfOk result
        (λ texts. (name : List ℕ) → contains_text texts name ≡ list_any (bytes_eq name) names.now) }
{
    let mut texts = BTreeSet::new(alloc);
    for name in names {
        texts.insert(String::from_str(alloc, name.text())?)?;
    }
    Ok(texts)
}

/// Whether a path is, holds or lies in what has one of these names in the folder.
fn meets_any(folder: &Path, names: &BTreeSet<String>, path: &Path) -> bool
    ensures { result ≡ (is_prefix path.now folder.now
        || option_map_or (contains_text names.now) (child_above folder.now path.now) false) }
{
    if path.is_prefix_of(folder) {
        return true;
    }
    match child_above(folder, path) {
        Some(name) => names.contains(name),
        None => false,
    }
}

/// The name of the folder's child that a path is or lies in.
fn child_above<'a>(folder: &Path, path: &'a Path) -> Option<&'a str>
    ensures { option_map (λ name. name.now) result ≡ child_above folder.now path.now }
{
    let names = path.names();
    let depth = folder.names().len();
    if folder.is_prefix_of(path) && depth < names.len() {
        Some(names[depth].text())
    } else {
        None
    }
}

/// The first target that a path meets.
fn first_target(pairs: &[Pair], path: &Path) -> Option<usize>
    ensures first { result ≡ position (λ (pair : Pair). meet path.now pair.target) pairs.now }
    ensures within { IfSome result (λ at. at < length pairs.now) }
{
    pairs.iter().position(|pair| meet(path, &pair.target))
}

/// Refuses two sources with one target. The targets have these names in one folder.
#[tactic(auto, using(crate::proofs::Siblings::targets_apart, crate::proofs::Siblings::none_twice_apart))]
fn refuse_twice(alloc: Global, names: &[Name], pairs: &[Pair]) -> Result<(), PlanError>
    requires placed { (folder : Route) × (targets_from pairs.now ≡ map (λ name. name ∷ folder) names.now) }
    requires apart { has_two meet (sources_in pairs.now) ≡ false }
    ensures answer { Plans (none_twice pairs.now) result }
    ensures apart { OnOk result (has_two meet (targets_from pairs.now) ≡ false) }
    ensures no_fault { IfErr result (λ e. is_fault e ≡ false) }
    ensures carried { IfErr result CarriesPlanCause }
{
    if are_told_apart(alloc, names)? {
        return Ok(());
    }
    refuse_meeting_targets(alloc, pairs)
}

/// Refuses two sources of which the target of one is or holds that of the other.
fn refuse_meeting_targets(alloc: Global, pairs: &[Pair]) -> Result<(), PlanError>
    ensures answer { Plans (none_twice pairs.now) result }
    ensures apart { OnOk result (has_two meet (targets_from pairs.now) ≡ false) }
    ensures no_fault { IfErr result (λ e. is_fault e ≡ false) }
    ensures carried { IfErr result CarriesPlanCause }
{
    let targets = targets_from(alloc, pairs)?;
    match first_meeting(alloc, targets.as_slice())? {
        None => Ok(()),
        Some((first, second)) => Err(PlanError::TwoToOne(
            pairs[first].source.copy(alloc)?,
            pairs[second].source.copy(alloc)?,
        )),
    }
}

/// The targets of pairs.
fn targets_from(alloc: Global, pairs: &[Pair]) -> Result<Paths, NoMemory>
    ensures { IfOk result (λ targets. targets ≡ targets_from pairs.now) }
{
    let mut targets = Vec::new(alloc);
    for pair in pairs {
        targets.push(pair.target.copy(alloc)?)?;
    }
    Ok(Paths(targets))
}
