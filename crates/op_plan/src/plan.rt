//! A plan is made of a request: the first check that stands refuses it.
ghost use Rattle.std.specs.Prelude.{◌≡◌, ◌≢◌, ◌≤◌, ◌==◌, not, false, All, Ok, IfOk, IfErr, Some, [], ◌∷◌};
ghost use Rattle.tree_trait.specs.Change.{current};
ghost use Rattle.tree_trait.specs.Answers.{IfKnown};
ghost use Rattle.op_plan.specs.Answering.{Plans, PlansSources, and_then, is_fault};
ghost use Rattle.op_plan.specs.Answering.{HasPlanCause, CarriesPlanCause, IsPlaceError};
ghost use Rattle.std.specs.Bool.{OnTrue, OnFalse};
ghost use Rattle.std.specs.List.{list_any};
ghost use Rattle.std.specs.Option.{option_map_or};
ghost use Rattle.op_plan.specs.Meeting.{meet};
ghost use Rattle.tree_trait.specs.Answers.{IsLinkText};
ghost use Rattle.tree_trait.specs.Calls.{Stat};
ghost use Rattle.tree_trait.specs.Refusals.{refusal_of};
ghost use Rattle.op_plan.specs.Planning.{plan_of, pairs_of, sources_of, folder_for, placed_there};
ghost use Rattle.op_plan.specs.Planning.{placed_masked, place_of, nothing_there, is_link_text, link_of};
ghost use Rattle.op_plan.specs.Soundness.{AreApart, ArePairsApart, IsHeld, IsSound, HasMode};
ghost use Rattle.op_plan.specs.Asking.{ArePlaced, ArePairsFor, IsJobFor};
ghost use Rattle.op_plan.specs.Destinations.{last_part};
ghost use Rattle.op_plan.specs.Checks.{sources_in};
ghost use Rattle.mc_text.specs.Routes.{last_of};

use crate::apart::{pairs_beside, pairs_into, target_in};
use crate::destination::{folder_at, folder_there, split_last};
use crate::digest::folder_of_all;
use crate::error::PlanError;
use crate::job::Job;
use crate::mask::{Mask, MaskPiece};
use crate::meeting::meet;
use crate::naming::{choose, name_in, names_for, read_pattern};
use crate::request::Request;
use crate::sources::{Sources, look_at_all, refuse_nested_unless};
use job_reports::Pairs;
use mc_text::{Path, Paths, Text};
use resolving::ResolveError;
use std::alloc::Global;
use std::convert::AsStr;
use tagging::ShellPattern;
use tree_trait::{ReadTree, TreeError};

/// The job that a request comes to, or the first reason why it must not be begun.
pub fn make_plan<T: ReadTree>(
    alloc: Global,
    tree: &mut T,
    request: Request,
) -> Result<Job, PlanError>
    requires { HasMode request }
    ensures answer { IfKnown (T.contents tree.old) (λ log. Plans (plan_of (current log) request) result) }
    ensures same { T.contents tree.new ≡ T.contents tree.old }
    ensures cause { HasPlanCause (T.fault_count tree.old) (T.fault_count tree.new) result }
    ensures sound { IfOk result IsSound }
    ensures asked { IfOk result (IsJobFor request) }
{
    match request {
        Request::Copy {
            sources,
            mask,
            from,
            to,
        } => {
            let pairs = plan_pairs(alloc, tree, sources, mask.as_str(), &from, to.as_str())?;
            Ok(Job::Copy(pairs))
        }
        Request::Move {
            sources,
            mask,
            from,
            to,
        } => {
            let pairs = plan_pairs(alloc, tree, sources, mask.as_str(), &from, to.as_str())?;
            Ok(Job::Move(pairs))
        }
        Request::Delete { sources } => plan_deletion(alloc, tree, sources),
        Request::MakeFolder { from, to } => plan_folder(alloc, tree, &from, to.as_str()),
        Request::SetMode { sources, mode } => plan_mode(alloc, tree, sources, mode),
        Request::MakeLink { from, to, text } => plan_link(alloc, tree, &from, to.as_str(), text),
        Request::Save { path, bytes } => Ok(Job::Save(path, bytes)),
    }
}

/// The deletion of sources.
fn plan_deletion<T: ReadTree>(alloc: Global, tree: &mut T, sources: Paths) -> Result<Job, PlanError>
    ensures answer { IfKnown (T.contents tree.old) (λ log.
        Plans (and_then (sources_of (current log) sources) (λ left. Ok (Job.Delete left))) result) }
    ensures same { T.contents tree.new ≡ T.contents tree.old }
    ensures cause { HasPlanCause (T.fault_count tree.old) (T.fault_count tree.new) result }
    ensures sound { IfOk result IsSound }
    ensures asked { IfOk result (IsJobFor (Request.Delete sources)) }
{
    Ok(Job::Delete(plan_sources(alloc, tree, sources)?.paths))
}

/// The setting of a mode.
fn plan_mode<T: ReadTree>(
    alloc: Global,
    tree: &mut T,
    sources: Paths,
    mode: u16,
) -> Result<Job, PlanError>
    requires { mode ≤ 0o7777 }
    ensures answer { IfKnown (T.contents tree.old) (λ log.
        Plans (and_then (sources_of (current log) sources) (λ left. Ok (Job.SetMode left mode))) result) }
    ensures same { T.contents tree.new ≡ T.contents tree.old }
    ensures cause { HasPlanCause (T.fault_count tree.old) (T.fault_count tree.new) result }
    ensures sound { IfOk result IsSound }
    ensures asked { IfOk result (IsJobFor (Request.SetMode sources mode)) }
{
    Ok(Job::SetMode(plan_sources(alloc, tree, sources)?.paths, mode))
}

/// The making of a folder.
fn plan_folder<T: ReadTree>(
    alloc: Global,
    tree: &mut T,
    from: &Path,
    to: &str,
) -> Result<Job, PlanError>
    ensures answer { IfKnown (T.contents tree.old) (λ log.
        Plans (and_then (place_of (current log) from.now to.now) (λ path. Ok (Job.MakeFolder path))) result) }
    ensures same { T.contents tree.new ≡ T.contents tree.old }
    ensures cause { HasPlanCause (T.fault_count tree.old) (T.fault_count tree.new) result }
    ensures sound { IfOk result IsSound }
    ensures asked { IfOk result (IsJobFor (Request.MakeFolder from.now to.now)) }
{
    Ok(Job::MakeFolder(plan_place(alloc, tree, from, to)?))
}

/// The sources that the mask leaves in, each with its target.
#[tactic(auto, using(crate::proofs::AskingLemmas::masked_pairs, crate::proofs::AskingLemmas::kept_pairs))]
fn plan_pairs<T: ReadTree>(
    alloc: Global,
    tree: &mut T,
    sources: Paths,
    mask: &str,
    from: &Path,
    to: &str,
) -> Result<Pairs, PlanError>
    ensures answer { IfKnown (T.contents tree.old) (λ log.
        Plans (pairs_of (current log) sources mask.now from.now to.now) result) }
    ensures same { T.contents tree.new ≡ T.contents tree.old }
    ensures cause { HasPlanCause (T.fault_count tree.old) (T.fault_count tree.new) result }
    ensures apart { IfOk result ArePairsApart }
    ensures asked { IfOk result (ArePairsFor sources mask.now to.now) }
{
    let pattern = read_pattern(alloc, mask)?;
    let sources = plan_sources(alloc, tree, choose(&pattern, sources))?;
    let (front, last) = split_last(to);
    let mask = Mask::parse(alloc, last)?;
    match folder_for(alloc, tree, &mask, from, to)? {
        Some(folder) => plan_into(alloc, &pattern, sources, &folder),
        None => plan_masked(alloc, tree, &pattern, sources.paths, &mask, from, front),
    }
}

/// The folder that the whole text leads to, if its last part asks for nothing of a source's name.
fn folder_for<T: ReadTree>(
    alloc: Global,
    tree: &mut T,
    mask: &Mask,
    from: &Path,
    to: &str,
) -> Result<Option<Path>, PlanError>
    ensures answer { IfKnown (T.contents tree.old) (λ log.
        Plans (Ok (folder_for (current log) mask.now from.now to.now)) result) }
    ensures same { T.contents tree.new ≡ T.contents tree.old }
    ensures cause { HasPlanCause (T.fault_count tree.old) (T.fault_count tree.new) result }
{
    if mask.asks() {
        return Ok(None);
    }
    folder_there(alloc, tree, from, to)
}

/// The sources, each with the target of its own name in a folder.
fn plan_into(
    alloc: Global,
    pattern: &Option<ShellPattern>,
    sources: Sources,
    folder: &Path,
) -> Result<Pairs, PlanError>
    requires apart { AreApart sources.paths }
    requires held { IsHeld sources }
    ensures answer { Plans (placed_there pattern.now sources.paths folder.now) result }
    ensures apart { IfOk result ArePairsApart }
    ensures sources { IfOk result (λ pairs. sources_in pairs ≡ sources.paths) }
    ensures placed { IfOk result (ArePlaced pattern.now (MaskPiece.Star ∷ [])) }
    ensures no_fault { IfErr result (λ e. is_fault e ≡ false) }
    ensures carried { IfErr result CarriesPlanCause }
{
    if pattern.is_some() && lie_beside(&sources.holder, folder) {
        pairs_beside(alloc, folder, sources.paths)
    } else {
        plan_named(alloc, pattern, sources.paths, folder)
    }
}

/// Whether the sources lie in one folder, which neither is nor holds this one, nor lies in it.
fn lie_beside(holder: &Option<Path>, folder: &Path) -> bool
    ensures { result ≡ option_map_or (λ held. not (meet held folder.now)) holder.now false }
{
    match holder {
        Some(holder) => !meet(holder, folder),
        None => false,
    }
}

/// The sources, each with the target of its own name in a folder, wherever they lie.
#[tactic(auto, using(crate::proofs::AskingLemmas::placed_pairs))]
fn plan_named(
    alloc: Global,
    pattern: &Option<ShellPattern>,
    sources: Paths,
    folder: &Path,
) -> Result<Pairs, PlanError>
    requires { AreApart sources }
    ensures answer { Plans (placed_there pattern.now sources folder.now) result }
    ensures apart { IfOk result ArePairsApart }
    ensures sources { IfOk result (λ pairs. sources_in pairs ≡ sources) }
    ensures placed { IfOk result (ArePlaced pattern.now (MaskPiece.Star ∷ [])) }
    ensures no_fault { IfErr result (λ e. is_fault e ≡ false) }
    ensures carried { IfErr result CarriesPlanCause }
{
    let star = Mask::star(alloc)?;
    let names = names_for(alloc, pattern, &star, sources.as_slice())?;
    pairs_into(alloc, folder, sources, names.as_slice())
}

/// The sources, each with the target that the mask makes of its name, in the folder that the front leads to.
#[tactic(auto, using(crate::proofs::AskingLemmas::placed_pairs))]
fn plan_masked<T: ReadTree>(
    alloc: Global,
    tree: &mut T,
    pattern: &Option<ShellPattern>,
    sources: Paths,
    mask: &Mask,
    from: &Path,
    front: &str,
) -> Result<Pairs, PlanError>
    requires { AreApart sources }
    ensures answer { IfKnown (T.contents tree.old) (λ log.
        Plans (placed_masked (current log) pattern.now sources mask.now from.now front.now) result) }
    ensures same { T.contents tree.new ≡ T.contents tree.old }
    ensures cause { HasPlanCause (T.fault_count tree.old) (T.fault_count tree.new) result }
    ensures apart { IfOk result ArePairsApart }
    ensures sources { IfOk result (λ pairs. sources_in pairs ≡ sources) }
    ensures placed { IfOk result (ArePlaced pattern.now mask.now) }
{
    let folder = folder_at(alloc, tree, from, front)?;
    let names = names_for(alloc, pattern, mask, sources.as_slice())?;
    pairs_into(alloc, &folder, sources, names.as_slice())
}

/// The sources: at least one, of which none lies in another, and each is there.
fn plan_sources<T: ReadTree>(
    alloc: Global,
    tree: &mut T,
    sources: Paths,
) -> Result<Sources, PlanError>
    ensures answer { IfKnown (T.contents tree.old) (λ log.
        PlansSources (sources_of (current log) sources) result) }
    ensures same { T.contents tree.new ≡ T.contents tree.old }
    ensures cause { HasPlanCause (T.fault_count tree.old) (T.fault_count tree.new) result }
    ensures left { IfOk result (λ left. left.paths ≡ sources) }
    ensures apart { IfOk result (λ left. AreApart left.paths) }
    ensures held { IfOk result IsHeld }
{
    if sources.as_slice().is_empty() {
        return Err(PlanError::NoSelection);
    }
    let holder = folder_of_all(alloc, sources.as_slice())?;
    refuse_nested_unless(alloc, &holder, sources.as_slice())?;
    look_at_all(alloc, tree, sources.as_slice())?;
    Ok(Sources {
        paths: sources,
        holder,
    })
}

/// The path that a text leads to, at which nothing stands yet.
pub fn plan_place<T: ReadTree>(
    alloc: Global,
    tree: &mut T,
    from: &Path,
    to: &str,
) -> Result<Path, PlanError>
    ensures answer { IfKnown (T.contents tree.old) (λ log.
        Plans (place_of (current log) from.now to.now) result) }
    ensures same { T.contents tree.new ≡ T.contents tree.old }
    ensures cause { HasPlanCause (T.fault_count tree.old) (T.fault_count tree.new) result }
    ensures named { IfOk result (λ path. last_of path ≡ Some (last_part to.now)) }
    ensures only { IfErr result IsPlaceError }
{
    let (front, last) = split_last(to);
    let name = name_in(alloc, last)?;
    let folder = folder_at(alloc, tree, from, front)?;
    let target = target_in(alloc, &folder, &name)?;
    refuse_there(alloc, tree, target)
}

/// Refuses a path at which something stands.
fn refuse_there<T: ReadTree>(alloc: Global, tree: &mut T, target: Path) -> Result<Path, PlanError>
    ensures answer { IfKnown (T.contents tree.old) (λ log.
        Plans (nothing_there (refusal_of (current log) (Stat target)) target) result) }
    ensures same { T.contents tree.new ≡ T.contents tree.old }
    ensures cause { HasPlanCause (T.fault_count tree.old) (T.fault_count tree.new) result }
    ensures place { IfOk result (λ path. path ≡ target) }
    ensures only { IfErr result IsPlaceError }
{
    match tree.stat(alloc, &target) {
        Ok(_) => Err(PlanError::TargetThere(target)),
        Err(TreeError::Missing) => Ok(target),
        Err(TreeError::Fault) => Err(PlanError::Target(ResolveError::Fault)),
        Err(TreeError::Memory) => Err(PlanError::Memory),
        Err(error) => Err(PlanError::Target(ResolveError::Tree(target, error))),
    }
}

/// The link that a text makes where another leads.
fn plan_link<T: ReadTree>(
    alloc: Global,
    tree: &mut T,
    from: &Path,
    to: &str,
    text: Text,
) -> Result<Job, PlanError>
    ensures answer { IfKnown (T.contents tree.old) (λ log.
        Plans (link_of (current log) from.now to.now text) result) }
    ensures same { T.contents tree.new ≡ T.contents tree.old }
    ensures cause { HasPlanCause (T.fault_count tree.old) (T.fault_count tree.new) result }
    ensures sound { IfOk result IsSound }
    ensures asked { IfOk result (IsJobFor (Request.MakeLink from.now to.now text)) }
{
    let path = plan_place(alloc, tree, from, to)?;
    if !is_link_text(text.as_str()) {
        return Err(PlanError::BadLinkText);
    }
    Ok(Job::MakeLink(path, text))
}

/// Whether a link may say this: 1 to 4,095 bytes and no NUL.
pub fn is_link_text(text: &str) -> bool
    ensures test { result ≡ is_link_text text.now }
    ensures allowed { OnTrue result (IsLinkText text.now) }
{
    !text.is_empty() && text.len() <= 4095 && !has_nul(text)
}

/// Whether a text has a NUL.
fn has_nul(text: &str) -> bool
    ensures test { result ≡ list_any (λ byte. byte == 0) text.now }
    ensures none { OnFalse result (All (λ byte. byte ≢ 0) text.now) }
{
    text.as_bytes().iter().any(|byte| *byte == 0)
}
