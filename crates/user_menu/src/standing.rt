//! How one entry of a menu stands.
ghost use Rattle.std.specs.Prelude.{◌≡◌, ◌⊎◌, IfOk, IfErr, option_copied};
ghost use Rattle.tree_trait.specs.declared.file_system.FileSystem.{FileSystem};
ghost use Rattle.tree_trait.specs.Answers.{HasCause};
ghost use Rattle.user_menu.specs.Facts.{IsAskedOf, AsksNoTree};
ghost use Rattle.user_menu.specs.ShownEntries.{is_for, last_asked, is_unasked};
ghost use Rattle.user_menu.specs.ShownEntries.{answer_of, standing_of, EachTestAsked};

use crate::choosing::Standing;
use crate::condition::Condition;
use crate::fact::Fact;
use crate::holding::holds;
use crate::line::{Asked, Purpose};
use crate::menu::Entry;
use std::alloc::Global;
use tree_trait::{ReadTree, TreeError};

/// What is asked of an entry.
#[derive(Clone, Copy, Drop)]
pub enum Question {
    Shown,
    Default,
}

/// How an entry stands: it is shown where it doesn't say when, and isn't the default
/// where it doesn't say when.
pub fn standing_of<T: ReadTree>(
    alloc: Global,
    tree: &mut T,
    entry: &Entry,
    here: &Fact,
    other: &Fact,
) -> Result<Standing, TreeError>
    ensures answer { (s : FileSystem) →
        EachTestAsked (IsAskedOf (T.contents tree.old) s) entry.now.conditions
        → IfOk result (λ standing. standing ≡ standing_of s here.now other.now entry.now) }
    ensures same { T.contents tree.new ≡ T.contents tree.old }
    ensures unasked { EachTestAsked AsksNoTree entry.now.conditions → tree.new ≡ tree.old }
    ensures cause { HasCause TreeError.Fault (T.fault_count tree.old) (T.fault_count tree.new) result }
    ensures refused { IfErr result (λ e. (e ≡ TreeError.Memory) ⊎ (e ≡ TreeError.Fault)) }
{
    if !answer_of(alloc, tree, entry, Question::Shown, here, other)? {
        return Ok(Standing::Hidden);
    }
    if answer_of(alloc, tree, entry, Question::Default, here, other)? {
        return Ok(Standing::Default);
    }
    Ok(Standing::Shown)
}

/// The answer to a question of an entry.
fn answer_of<T: ReadTree>(
    alloc: Global,
    tree: &mut T,
    entry: &Entry,
    question: Question,
    here: &Fact,
    other: &Fact,
) -> Result<bool, TreeError>
    ensures answer { (s : FileSystem) →
        EachTestAsked (IsAskedOf (T.contents tree.old) s) entry.now.conditions
        → IfOk result (λ answer. answer ≡ answer_of s here.now other.now question entry.now) }
    ensures same { T.contents tree.new ≡ T.contents tree.old }
    ensures unasked { EachTestAsked AsksNoTree entry.now.conditions → tree.new ≡ tree.old }
    ensures cause { HasCause TreeError.Fault (T.fault_count tree.old) (T.fault_count tree.new) result }
    ensures refused { IfErr result (λ e. (e ≡ TreeError.Memory) ⊎ (e ≡ TreeError.Fault)) }
{
    match last_asked(entry.conditions(), question) {
        Some(condition) => holds(alloc, tree, condition, here, other),
        None => Ok(unasked(question)),
    }
}

/// The answer where an entry has no condition for a question.
fn unasked(question: Question) -> bool
    ensures { result ≡ is_unasked question }
{
    match question {
        Question::Shown => true,
        Question::Default => false,
    }
}

/// The last of some conditions that answers a question.
fn last_asked(conditions: &[Asked], question: Question) -> Option<&Condition>
    ensures { option_copied result ≡ last_asked question conditions.now }
{
    let mut last = None;
    let mut rest = conditions;
    while let Some((asked, more)) = rest.split_first() {
        if is_for(asked.purpose, question) {
            last = Some(&asked.condition);
        }
        rest = more;
    }
    last
}

/// Whether a condition for this purpose answers a question.
fn is_for(purpose: Purpose, question: Question) -> bool
    ensures { result ≡ is_for purpose question }
{
    match (purpose, question) {
        (Purpose::Shown, Question::Default) => false,
        (Purpose::Default, Question::Shown) => false,
        _ => true,
    }
}
