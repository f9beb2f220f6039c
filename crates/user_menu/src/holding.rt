//! Whether a condition holds.
ghost use Rattle.std.specs.Prelude.{◌≡◌, ◌⊎◌, true, IfOk, IfErr};
ghost use Rattle.tree_trait.specs.declared.file_system.FileSystem.{FileSystem};
ghost use Rattle.tree_trait.specs.Answers.{HasCause};
ghost use Rattle.mc_text.specs.Routes.{path_text};
ghost use Rattle.tagging.specs.Patterns.{is_found};
ghost use Rattle.user_menu.specs.Facts.{fact_of, is_true, IsAskedOf, AsksNoTree};
ghost use Rattle.user_menu.specs.Holding.{is_met, joined_value, folded_values, holds_in, EachTest};

use crate::condition::{Condition, Joint, Panel, Sense, Term, Test};
use crate::fact::Fact;
use crate::program::is_program;
use crate::pushing::push;
use crate::types::has_one_type;
use mc_text::{NoMemory, Path};
use std::alloc::Global;
use std::convert::AsStr;
use tagging::Pattern;
use tree_trait::{ReadTree, TreeError};

/// Whether a condition holds of two panels: its terms are asked one by one, and then
/// taken from left to right.
pub fn holds<T: ReadTree>(
    alloc: Global,
    tree: &mut T,
    condition: &Condition,
    here: &Fact,
    other: &Fact,
) -> Result<bool, TreeError>
    ensures answer { (s : FileSystem) → EachTest (IsAskedOf (T.contents tree.old) s) condition.now
        → IfOk result (λ holds. holds ≡ holds_in s condition.now here.now other.now) }
    ensures unasked { EachTest AsksNoTree condition.now → tree.new ≡ tree.old }
    ensures same { T.contents tree.new ≡ T.contents tree.old }
    ensures cause { HasCause TreeError.Fault (T.fault_count tree.old) (T.fault_count tree.new) result }
    ensures refused { IfErr result (λ e. (e ≡ TreeError.Memory) ⊎ (e ≡ TreeError.Fault)) }
{
    let mut values = Vec::new(alloc);
    let mut terms = condition.terms();
    while let Some((first, more)) = terms.split_first() {
        let is_met = is_met(alloc, tree, &first.term, here, other)?;
        let joint = first.joint;
        push(&mut values, Value { joint, is_met })?;
        terms = more;
    }
    Ok(folded(values.as_slice()))
}

/// Whether a term is met, and how it is joined to those before it.
#[derive(Clone, Copy, Drop)]
pub struct Value {
    joint: Joint,
    is_met: bool,
}

/// The value of terms, taken from left to right: none of them binds closer than another.
fn folded(values: &[Value]) -> bool
    ensures { result ≡ folded_values true values.now }
{
    let mut so_far = true;
    for value in values {
        so_far = joined(value.joint, so_far, value.is_met);
    }
    so_far
}

/// A value joined to that of all before it.
fn joined(joint: Joint, so_far: bool, next: bool) -> bool
    ensures { result ≡ joined_value joint so_far next }
{
    match joint {
        Joint::And => so_far && next,
        Joint::Or => so_far || next,
    }
}

/// Whether a term is met: its test holds, or doesn't.
fn is_met<T: ReadTree>(
    alloc: Global,
    tree: &mut T,
    term: &Term,
    here: &Fact,
    other: &Fact,
) -> Result<bool, TreeError>
    ensures answer { (s : FileSystem) → IsAskedOf (T.contents tree.old) s term.now.test
        → IfOk result (λ is. is ≡ is_met s term.now here.now other.now) }
    ensures same { T.contents tree.new ≡ T.contents tree.old }
    ensures unasked { AsksNoTree term.now.test → tree.new ≡ tree.old }
    ensures cause { HasCause TreeError.Fault (T.fault_count tree.old) (T.fault_count tree.new) result }
    ensures refused { IfErr result (λ e. (e ≡ TreeError.Memory) ⊎ (e ≡ TreeError.Fault)) }
{
    let is = is_true(alloc, tree, &term.test, here, other)?;
    match term.sense {
        Sense::Plain => Ok(is),
        Sense::Turned => Ok(!is),
    }
}

/// Whether a test holds.
fn is_true<T: ReadTree>(
    alloc: Global,
    tree: &mut T,
    test: &Test,
    here: &Fact,
    other: &Fact,
) -> Result<bool, TreeError>
    ensures answer { (s : FileSystem) → IsAskedOf (T.contents tree.old) s test.now
        → IfOk result (λ is. is ≡ is_true s test.now here.now other.now) }
    ensures same { T.contents tree.new ≡ T.contents tree.old }
    ensures unasked { AsksNoTree test.now → tree.new ≡ tree.old }
    ensures cause { HasCause TreeError.Fault (T.fault_count tree.old) (T.fault_count tree.new) result }
    ensures refused { IfErr result (λ e. (e ≡ TreeError.Memory) ⊎ (e ≡ TreeError.Fault)) }
{
    match test {
        Test::Name(panel, pattern) => {
            finds(alloc, pattern, fact_of(*panel, here, other).name.as_str())
        }
        Test::Folder(panel, pattern) => {
            finds_path(alloc, pattern, &fact_of(*panel, here, other).folder)
        }
        Test::Types(panel, types) => Ok(has_one_type(fact_of(*panel, here, other), types.as_str())),
        Test::Program(argument) => is_program(alloc, tree, &here.folder, argument.as_str()),
        Test::Never => Ok(false),
    }
}

/// The facts of a panel.
fn fact_of<'a>(panel: Panel, here: &'a Fact, other: &'a Fact) -> &'a Fact
    ensures { result.now ≡ fact_of panel here.now other.now }
{
    match panel {
        Panel::Here => here,
        Panel::There => other,
    }
}

/// Whether a pattern finds a text. Want of memory is the tree's error.
fn finds(alloc: Global, pattern: &Pattern, text: &str) -> Result<bool, TreeError>
    ensures answer { IfOk result (λ found. found ≡ is_found pattern.now text.now) }
    ensures refused { IfErr result (λ e. e ≡ TreeError.Memory) }
{
    match pattern.matches(alloc, text) {
        Ok(found) => Ok(found),
        Err(NoMemory) => Err(TreeError::Memory),
    }
}

/// Whether a pattern finds the text of a path.
fn finds_path(alloc: Global, pattern: &Pattern, path: &Path) -> Result<bool, TreeError>
    ensures answer { IfOk result (λ found. found ≡ is_found pattern.now (path_text path.now)) }
    ensures refused { IfErr result (λ e. e ≡ TreeError.Memory) }
{
    match path.text(alloc) {
        Ok(text) => finds(alloc, pattern, text.as_str()),
        Err(NoMemory) => Err(TreeError::Memory),
    }
}
