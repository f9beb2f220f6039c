//! The texts of causes, as they are shown and printed.
ghost use Rattle.std.specs.Prelude.{◌≡◌, IfOk};
ghost use Rattle.ui_words.specs.Causes.{cause_words, resolve_words};
ghost use Rattle.ui_words.specs.RefusalWords.{begin_words, plan_words, refusal_words};
ghost use Rattle.ui_words.specs.RefusalWords.{trouble_words, typed_words};

use job_reports::Cause;
use mc_text::{NoMemory, Text};
use resolving::ResolveError;
use session_entries::{BeginError, PlanError, Refusal, TypedError};
use std::alloc::Global;
use tree_trait::TreeError;

/// What is said of a refused call.
pub fn cause_text(error: TreeError) -> &'static str
    ensures { result.now ≡ cause_words error }
{
    match error {
        TreeError::Missing => "no such file or folder",
        TreeError::NotFolder => "not a folder",
        TreeError::Denied => "permission denied",
        TreeError::Exists => "already there",
        TreeError::IsFolder => "is a folder",
        TreeError::NotEmpty => "folder not empty",
        TreeError::IntoItself => "inside itself",
        TreeError::Mounted => "is a mount",
        TreeError::CrossMount => "other mount",
        TreeError::NoSpace => "no space left",
        TreeError::Special => "special file",
        TreeError::Fault => "device fault",
        TreeError::Memory => "out of memory",
    }
}

/// What is said of a folder that can't be read, or to which no way leads.
pub fn resolve_text(error: &ResolveError) -> &'static str
    ensures { result.now ≡ resolve_words error.now }
{
    match error {
        ResolveError::Tree(_, cause) => cause_text(*cause),
        ResolveError::TooManyLinks => "too many links",
        ResolveError::TooLong => "path too long",
        ResolveError::BadName => "bad name",
        ResolveError::Fault => "device fault",
        ResolveError::Memory => "out of memory",
    }
}

/// What is said of a plan that can't be made.
fn plan_text(error: &PlanError) -> &'static str
    ensures { result.now ≡ plan_words error.now }
{
    match error {
        PlanError::NoSelection => "nothing selected",
        PlanError::TooLong => "path too long",
        PlanError::Nested(_, _) => "one lies in the other",
        PlanError::Source(_, error) => cause_text(*error),
        PlanError::BadMask => "bad mask",
        PlanError::Target(error) => resolve_text(error),
        PlanError::TargetThere(_) => "already there",
        PlanError::SameFile(_) => "same file",
        PlanError::IntoItself(_, _) => "inside itself",
        PlanError::TwoToOne(_, _) => "two files, one target",
        PlanError::BadLinkText => "bad link text",
    }
}

/// What is said of a job that can't be begun.
fn begin_text(error: BeginError) -> &'static str
    ensures { result.now ≡ begin_words error }
{
    match error {
        BeginError::Full => "too many jobs",
        BeginError::NoMoreIds => "too many jobs",
    }
}

/// What is said of what was typed and can't be taken.
fn typed_text(alloc: Global, error: TypedError) -> Result<Text, NoMemory>
    ensures { IfOk result (λ text. text ≡ typed_words error) }
{
    match error {
        TypedError::BadPattern => Text::from_str(alloc, "bad pattern"),
        TypedError::BadFormat(at) => position_text(alloc, at),
        TypedError::BadName => Text::from_str(alloc, "bad name"),
    }
}

/// What is said of a format whose fault stands at this byte.
fn position_text(alloc: Global, at: usize) -> Result<Text, NoMemory>
    ensures { IfOk result (λ text. text ≡ typed_words (TypedError.BadFormat at)) }
{
    Ok(Text(format!(in alloc; "position {at} is wrong")?))
}

/// What is said of a refusal.
pub fn refusal_text(alloc: Global, refusal: &Refusal) -> Result<Text, NoMemory>
    ensures { IfOk result (λ text. text ≡ refusal_words refusal.now) }
{
    match refusal {
        Refusal::Tree(_, error) => Text::from_str(alloc, cause_text(*error)),
        Refusal::Read(_, error) => Text::from_str(alloc, cause_text(*error)),
        Refusal::Resolve(error) => Text::from_str(alloc, resolve_text(error)),
        Refusal::Plan(error) => Text::from_str(alloc, plan_text(error)),
        Refusal::Begin(error) => Text::from_str(alloc, begin_text(*error)),
        Refusal::Typed(error) => typed_text(alloc, *error),
    }
}

/// What is said of a job's trouble.
pub fn trouble_text(alloc: Global, cause: Cause) -> Result<Text, NoMemory>
    ensures { IfOk result (λ text. text ≡ trouble_words cause) }
{
    match cause {
        Cause::Tree(error) => Text::from_str(alloc, cause_text(error)),
        Cause::TargetKind(_) => Text::from_str(alloc, "target is of another kind"),
        Cause::SpecialSource => Text::from_str(alloc, "special file"),
        Cause::TooDeep => Text::from_str(alloc, "too deep"),
        Cause::PartTaken => Text::from_str(alloc, "no free part name"),
        Cause::TooLong => Text::from_str(alloc, "path too long"),
        Cause::Unnamed(count) => unnamed_text(alloc, count),
        Cause::Changed { said, got } => changed_text(alloc, said, got),
        Cause::Memory => Text::from_str(alloc, "out of memory"),
    }
}

/// What is said of a folder with so many names that are no text.
fn unnamed_text(alloc: Global, count: u64) -> Result<Text, NoMemory>
    ensures { IfOk result (λ text. text ≡ trouble_words (Cause.Unnamed count)) }
{
    Ok(Text(format!(in alloc; "{count} names can't be shown")?))
}

/// What is said of a source that was said to have so many bytes, and gave so many.
fn changed_text(alloc: Global, said: u64, got: u64) -> Result<Text, NoMemory>
    ensures { IfOk result (λ text. text ≡ trouble_words (Cause.Changed said got)) }
{
    Ok(Text(format!(in alloc; "said {said} bytes, got {got}")?))
}
