//! The kinds of troubles that are skipped without a question.
ghost use Rattle.std.specs.Prelude.{◌≡◌, None, Some, if◌then◌else◌, true};
ghost use Rattle.job_answers.specs.Skipping.{holds, holds_refusal, is_passed_over, kind_in, no_refusals};
ghost use Rattle.job_answers.specs.Skipping.{no_skips, passed_cause as cause_passed, with_kind, with_refusal};

use job_reports::{Cause, Did, Trouble};
use tree_trait::TreeError;

/// The kind of a cause: which it is, without what it tells of the case. Two refusals of the tree are of one
/// kind where they are the same refusal.
#[derive(Clone, Copy, Debug, Drop, PartialEq, Eq)]
pub enum CauseKind {
    Tree(TreeError),
    TargetKind,
    SpecialSource,
    TooDeep,
    PartTaken,
    TooLong,
    Unnamed,
    Changed,
    Memory,
}

/// Which refusals of the tree are skipped.
#[derive(Clone, Copy, Debug, Drop)]
pub struct SkippedRefusals {
    missing: bool,
    not_folder: bool,
    denied: bool,
    exists: bool,
    is_folder: bool,
    not_empty: bool,
    into_itself: bool,
    mounted: bool,
    cross_mount: bool,
    no_space: bool,
    special: bool,
    fault: bool,
    memory: bool,
}

/// The kinds of troubles that are skipped. A set of fixed size, so that an answer takes no memory.
#[derive(Clone, Copy, Debug, Drop)]
pub struct Skips {
    refusals: SkippedRefusals,
    target_kind: bool,
    special_source: bool,
    too_deep: bool,
    part_taken: bool,
    too_long: bool,
    unnamed: bool,
    changed: bool,
    memory: bool,
}

/// The kind of a cause.
pub fn kind_of(cause: Cause) -> CauseKind
    ensures { result ≡ kind_in cause }
{
    match cause {
        Cause::Tree(error) => CauseKind::Tree(error),
        Cause::TargetKind(_) => CauseKind::TargetKind,
        Cause::SpecialSource => CauseKind::SpecialSource,
        Cause::TooDeep => CauseKind::TooDeep,
        Cause::PartTaken => CauseKind::PartTaken,
        Cause::TooLong => CauseKind::TooLong,
        Cause::Unnamed(_) => CauseKind::Unnamed,
        Cause::Changed { .. } => CauseKind::Changed,
        Cause::Memory => CauseKind::Memory,
    }
}

impl Skips {
    /// No kind is skipped.
    pub fn new() -> Skips
        ensures { result ≡ no_skips }
    {
        Skips {
            refusals: SkippedRefusals::new(),
            target_kind: false,
            special_source: false,
            too_deep: false,
            part_taken: false,
            too_long: false,
            unnamed: false,
            changed: false,
            memory: false,
        }
    }

    /// Whether troubles of this kind are skipped.
    pub fn contains(&self, kind: CauseKind) -> bool
        ensures { result ≡ holds self.now kind }
    {
        match kind {
            CauseKind::Tree(error) => self.refusals.contains(error),
            CauseKind::TargetKind => self.target_kind,
            CauseKind::SpecialSource => self.special_source,
            CauseKind::TooDeep => self.too_deep,
            CauseKind::PartTaken => self.part_taken,
            CauseKind::TooLong => self.too_long,
            CauseKind::Unnamed => self.unnamed,
            CauseKind::Changed => self.changed,
            CauseKind::Memory => self.memory,
        }
    }

    /// Whether a trouble is passed over without a question. At a barrier none is.
    pub fn passes_over(&self, trouble: &Trouble) -> bool
        ensures { result ≡ is_passed_over self.now trouble.now }
    {
        if trouble.barrier {
            return false;
        }
        self.contains(kind_of(trouble.cause))
    }

    /// The cause of a trouble that is passed over without a question.
    pub fn passed_cause(&self, did: &Did) -> Option<Cause>
        ensures { result ≡ cause_passed self.now did.now }
    {
        match did {
            Did::Troubled(trouble) => cause_if(self.passes_over(trouble), trouble.cause),
            _ => None,
        }
    }

    /// Troubles of this kind are skipped too.
    pub fn insert(&mut self, kind: CauseKind)
        ensures value { self.new ≡ with_kind kind self.old }
        ensures added { holds self.new kind ≡ true }
    {
        match kind {
            CauseKind::Tree(error) => self.refusals.insert(error),
            CauseKind::TargetKind => self.target_kind = true,
            CauseKind::SpecialSource => self.special_source = true,
            CauseKind::TooDeep => self.too_deep = true,
            CauseKind::PartTaken => self.part_taken = true,
            CauseKind::TooLong => self.too_long = true,
            CauseKind::Unnamed => self.unnamed = true,
            CauseKind::Changed => self.changed = true,
            CauseKind::Memory => self.memory = true,
        }
    }
}

impl SkippedRefusals {
    fn new() -> SkippedRefusals
        ensures { result ≡ no_refusals }
    {
        SkippedRefusals {
            missing: false,
            not_folder: false,
            denied: false,
            exists: false,
            is_folder: false,
            not_empty: false,
            into_itself: false,
            mounted: false,
            cross_mount: false,
            no_space: false,
            special: false,
            fault: false,
            memory: false,
        }
    }

    fn contains(&self, error: TreeError) -> bool
        ensures { result ≡ holds_refusal self.now error }
    {
        match error {
            TreeError::Missing => self.missing,
            TreeError::NotFolder => self.not_folder,
            TreeError::Denied => self.denied,
            TreeError::Exists => self.exists,
            TreeError::IsFolder => self.is_folder,
            TreeError::NotEmpty => self.not_empty,
            TreeError::IntoItself => self.into_itself,
            TreeError::Mounted => self.mounted,
            TreeError::CrossMount => self.cross_mount,
            TreeError::NoSpace => self.no_space,
            TreeError::Special => self.special,
            TreeError::Fault => self.fault,
            TreeError::Memory => self.memory,
        }
    }

    fn insert(&mut self, error: TreeError)
        ensures value { self.new ≡ with_refusal error self.old }
        ensures added { holds_refusal self.new error ≡ true }
    {
        match error {
            TreeError::Missing => self.missing = true,
            TreeError::NotFolder => self.not_folder = true,
            TreeError::Denied => self.denied = true,
            TreeError::Exists => self.exists = true,
            TreeError::IsFolder => self.is_folder = true,
            TreeError::NotEmpty => self.not_empty = true,
            TreeError::IntoItself => self.into_itself = true,
            TreeError::Mounted => self.mounted = true,
            TreeError::CrossMount => self.cross_mount = true,
            TreeError::NoSpace => self.no_space = true,
            TreeError::Special => self.special = true,
            TreeError::Fault => self.fault = true,
            TreeError::Memory => self.memory = true,
        }
    }
}

fn cause_if(passes: bool, cause: Cause) -> Option<Cause>
    ensures { result ≡ (if passes then Some cause else None) }
{
    if passes { Some(cause) } else { None }
}
