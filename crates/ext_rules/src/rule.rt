//! A rule with its actions.
ghost use Rattle.std.specs.Prelude.{◌≡◌, ◌∷◌, ◌++◌, [], IfOk, OnOk, option_map};
ghost use Rattle.ext_rules.specs.Conditions.{is_met, is_included};
ghost use Rattle.ext_rules.specs.Actions.{first_command};

use crate::actions::{Action, Key};
use crate::condition::Condition;
use mc_text::{Kind, NoMemory, Text};
use std::alloc::Global;
use std::marker::Model;

/// A rule, and its actions in the order of their lines.
#[derive(Drop)]
pub struct Rule {
    condition: Condition,
    actions: Vec<Action>,
}

impl Model for Rule {
    ghost use Rattle.ext_rules.specs.FileRules.{FileRule};

    ghost Value = { FileRule };

    ghost view = { λ r. record { condition = r.condition; actions = r.actions.items } };
}

impl Rule {
    /// A rule without actions. It takes no memory.
    pub fn new(alloc: Global, condition: Condition) -> Rule
        ensures { result ≡ record { condition = condition; actions = [] } }
    {
        Rule {
            condition,
            actions: Vec::new(alloc),
        }
    }

    /// Puts an action behind the others.
    pub fn push(&mut self, action: Action) -> Result<(), NoMemory>
        ensures { OnOk result (self.new ≡ record {
          condition = self.old.condition;
          actions = self.old.actions ++ action ∷ [];
        }) }
    {
        self.actions.push(action)?;
        Ok(())
    }

    /// The command of a key: that of the first action with it.
    pub fn command(&self, key: Key) -> Option<&Text>
        ensures { option_map (λ command. command.now) result ≡ first_command key self.now.actions }
    {
        first_command(self.actions.as_slice(), key)
    }

    /// Whether a thing of this name and kind meets the rule's condition.
    pub fn is_met(&self, alloc: Global, name: &str, kind: Kind) -> Result<bool, NoMemory>
        ensures { IfOk result (λ is. is ≡ is_met self.now.condition kind name.now) }
    {
        self.condition.is_met(alloc, name, kind)
    }

    /// Whether it is the included rule of a name.
    pub fn includes(&self, name: &Text) -> bool
        ensures { result ≡ is_included name.now self.now.condition }
    {
        self.condition.includes(name)
    }
}

/// The command of the first of the actions that has the key.
#[tactic(auto, using(crate::proofs::KeyLemmas::same_key))]
fn first_command(actions: &[Action], key: Key) -> Option<&Text>
    ensures { option_map (λ command. command.now) result ≡ first_command key actions.now }
{
    for action in actions {
        if action.key == key {
            return Some(&action.command);
        }
    }
    None
}
