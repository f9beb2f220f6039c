//! The components that a walk has still to go through.
ghost use Rattle.std.specs.Prelude.{◌≡◌, [], ◌∷◌, ◌++◌, ◌||◌, MatchOption, IfOk, OnOk};
ghost use Rattle.resolving.specs.Resolution.{is_passed, steps_of, no_more};

use mc_text::{NoMemory, Text};
use std::alloc::Global;
use std::marker::Model;

/// The components ahead. Contracts see them in their order.
#[derive(Debug, Drop)]
pub struct Ahead {
    /// The nearest one last.
    components: Vec<Text>,
}

impl Model for Ahead {
    ghost use Rattle.std.specs.Prelude.{List, ℕ, reverse};

    ghost Value = { List (List ℕ) };

    ghost view = { λ a. reverse a.components.items };
}

impl Ahead {
    /// The components of a text.
    pub fn of(alloc: Global, text: &str) -> Result<Ahead, NoMemory>
        ensures { IfOk result (λ ahead. ahead ≡ steps_of text.now) }
    {
        let mut components = read_steps(alloc, text)?;
        components.reverse();
        Ok(Ahead { components })
    }

    /// Puts the components of a text before those ahead.
    pub fn prefix(&mut self, alloc: Global, text: &str) -> Result<(), NoMemory>
        ensures { OnOk result (self.new ≡ steps_of text.now ++ self.old) }
    {
        let mut nearer = read_steps(alloc, text)?;
        nearer.reverse();
        self.components.append(&mut nearer)?;
        Ok(())
    }

    /// Takes the nearest component.
    pub fn next(&mut self) -> Option<Text>
        ensures { MatchOption result (self.old ≡ []) (λ component. self.old ≡ component ∷ self.new) }
    {
        self.components.pop()
    }

    /// Whether no component is ahead.
    pub fn is_empty(&self) -> bool
        ensures { result ≡ no_more self.now }
    {
        self.components.is_empty()
    }
}

/// The components that a text leads through, in their order.
fn read_steps(alloc: Global, text: &str) -> Result<Vec<Text>, NoMemory>
    ensures { IfOk result (λ steps. steps.items ≡ steps_of text.now) }
{
    let mut steps = Vec::new(alloc);
    for component in text.split('/') {
        if !is_passed_over(component) {
            steps.push(Text::from_str(alloc, component)?)?;
        }
    }
    Ok(steps)
}

/// Whether a walk passes over a component.
fn is_passed_over(component: &str) -> bool
    ensures { result ≡ is_passed component.now }
{
    component.is_empty() || component == "."
}
