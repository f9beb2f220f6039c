//! Which sources a mask leaves in, and the names of their targets.
ghost use Rattle.std.specs.Prelude.{◌≡◌, ◌≢◌, false, filter, length, IfOk, IfErr, None, Some, chars};
ghost use Rattle.op_plan.specs.Answering.{is_fault, CarriesPlanCause, IsPlaceError};
ghost use Rattle.op_plan.specs.Masks.{keeps_name};
ghost use Rattle.op_plan.specs.Stars.{is_star};
ghost use Rattle.op_plan.specs.Naming.{pattern_in, chosen_sources, has_match, target_text};
ghost use Rattle.op_plan.specs.Naming.{target_name, all_of, names_for, checked_name};

use crate::error::PlanError;
use crate::mask::Mask;
use mc_text::{Name, NameError, Names, NoMemory, Path, Paths, Text};
use std::alloc::Global;
use std::convert::AsStr;
use tagging::{GlobPart, PatternError, ShellPattern};

/// The pattern that the sources' mask is, if it is one.
pub fn read_pattern(alloc: Global, mask: &str) -> Result<Option<ShellPattern>, NoMemory>
    ensures { IfOk result (λ pattern. pattern ≡ pattern_in mask.now) }
{
    match ShellPattern::parse(alloc, mask) {
        Ok(pattern) => Ok(Some(pattern)),
        Err(PatternError::Memory) => Err(NoMemory),
        Err(_) => Ok(None),
    }
}

/// The sources whose names the mask matches, or all where it is no pattern.
pub fn choose(pattern: &Option<ShellPattern>, sources: Paths) -> Paths
    ensures { result ≡ chosen_sources pattern.now sources }
{
    match pattern {
        Some(pattern) => matching(pattern, sources),
        None => sources,
    }
}

/// The sources whose names the pattern matches.
fn matching(pattern: &ShellPattern, sources: Paths) -> Paths
    ensures { result ≡ filter (has_match pattern.now) sources }
{
    let Paths(mut paths) = sources;
    paths.retain(|source| has_match(pattern, source));
    Paths(paths)
}

/// Whether a source's name matches; the root has none.
#[tactic(auto, using(crate::proofs::StarLemmas::star_match))]
fn has_match(pattern: &ShellPattern, source: &Path) -> bool
    ensures { result ≡ has_match pattern.now source.now }
{
    if is_star(pattern) {
        return !source.names().is_empty();
    }
    match source.last() {
        Some(name) => pattern.matches(name),
        None => false,
    }
}

/// Whether the pattern is a star alone, which matches each name.
fn is_star(pattern: &ShellPattern) -> bool
    ensures { result ≡ is_star pattern.now }
{
    matches!(pattern.parts(), [GlobPart::AnyText])
}

/// The names of the targets of these sources.
pub fn names_for(
    alloc: Global,
    pattern: &Option<ShellPattern>,
    mask: &Mask,
    sources: &[Path],
) -> Result<Names, PlanError>
    ensures named { IfOk result (λ names. names_for pattern.now mask.now sources.now ≡ Some names) }
    ensures many { IfOk result (λ names. length names ≡ length sources.now) }
    ensures bad { IfErr result (λ e. e ≢ PlanError.Memory
        → (e ≡ PlanError.BadMask) × (names_for pattern.now mask.now sources.now ≡ None)) }
    ensures no_fault { IfErr result (λ e. is_fault e ≡ false) }
    ensures carried { IfErr result CarriesPlanCause }
{
    match pattern {
        Some(pattern) => target_names(alloc, pattern, mask, sources),
        None => Err(PlanError::BadMask),
    }
}

/// The names of the targets of sources that the pattern matches.
fn target_names(
    alloc: Global,
    pattern: &ShellPattern,
    mask: &Mask,
    sources: &[Path],
) -> Result<Names, PlanError>
    ensures named { IfOk result (λ names.
        all_of (target_name pattern.now mask.now) sources.now ≡ Some names) }
    ensures many { IfOk result (λ names. length names ≡ length sources.now) }
    ensures bad { IfErr result (λ e. e ≢ PlanError.Memory
        → (e ≡ PlanError.BadMask) × (all_of (target_name pattern.now mask.now) sources.now ≡ None)) }
    ensures no_fault { IfErr result (λ e. is_fault e ≡ false) }
    ensures carried { IfErr result CarriesPlanCause }
{
    let mut names = Vec::with_capacity(alloc, sources.len())?;
    for source in sources {
        match target_name(alloc, pattern, mask, source) {
            Ok(name) => names.push(name)?,
            Err(error) => return Err(error),
        }
    }
    Ok(Names(names))
}

/// The name of a source's target.
fn target_name(
    alloc: Global,
    pattern: &ShellPattern,
    mask: &Mask,
    source: &Path,
) -> Result<Name, PlanError>
    ensures named { IfOk result (λ name. target_name pattern.now mask.now source.now ≡ Some name) }
    ensures bad { IfErr result (λ e. e ≢ PlanError.Memory
        → (e ≡ PlanError.BadMask) × (target_name pattern.now mask.now source.now ≡ None)) }
    ensures no_fault { IfErr result (λ e. is_fault e ≡ false) }
    ensures carried { IfErr result CarriesPlanCause }
{
    let Some(name) = source.last() else {
        return Err(PlanError::BadMask);
    };
    if mask.keeps_name() {
        return name_in(alloc, name);
    }
    let text = target_text(alloc, pattern, mask, name)?;
    name_in(alloc, text.as_str())
}

/// The name that a text is.
pub fn name_in(alloc: Global, text: &str) -> Result<Name, PlanError>
    ensures named { IfOk result (λ name. checked_name text.now ≡ Some name) }
    ensures text { IfOk result (λ name. name ≡ text.now) }
    ensures bad { IfErr result (λ e. e ≢ PlanError.Memory
        → (e ≡ PlanError.BadMask) × (checked_name text.now ≡ None)) }
    ensures only { IfErr result IsPlaceError }
    ensures no_fault { IfErr result (λ e. is_fault e ≡ false) }
    ensures carried { IfErr result CarriesPlanCause }
{
    match Name::new(alloc, text) {
        Ok(name) => Ok(name),
        Err(NameError::Memory) => Err(PlanError::Memory),
        Err(_) => Err(PlanError::BadMask),
    }
}

/// What the mask makes of a name, where it isn't a star alone.
#[tactic(auto, using(crate::proofs::MaskLemmas::stars_numbered))]
fn target_text(
    alloc: Global,
    pattern: &ShellPattern,
    mask: &Mask,
    name: &str,
) -> Result<Text, PlanError>
    requires { keeps_name mask.now ≡ false }
    ensures made { IfOk result (λ text. target_text pattern.now mask.now name.now ≡ Some text) }
    ensures bad { IfErr result (λ e. e ≢ PlanError.Memory
        → (e ≡ PlanError.BadMask) × (target_text pattern.now mask.now name.now ≡ None)) }
    ensures no_fault { IfErr result (λ e. is_fault e ≡ false) }
    ensures carried { IfErr result CarriesPlanCause }
{
    match pattern.captures(alloc, name)? {
        Some(captures) => mask.fill(alloc, name, captures.as_slice()),
        None => Err(PlanError::BadMask),
    }
}
