//! The command for a thing.
ghost use Rattle.std.specs.Prelude.{◌≡◌, IfOk, option_map};
ghost use Rattle.ext_rules.specs.Actions.{key_of, action_of, command_in, included_rule};

use crate::actions::Key;
use crate::file::Rules;
use crate::rule::Rule;
use mc_text::{Kind, NoMemory, Text};
use std::alloc::Global;

/// What is done with a thing.
#[derive(Clone, Copy, Debug, Drop)]
pub enum Act {
    Launch,
    Show,
    Change,
}

/// The command for a thing of this name and kind: that of the first rule that matches and has one for the
/// act, its macros not yet expanded.
pub fn action(
    alloc: Global,
    rules: &Rules,
    name: &str,
    kind: Kind,
    act: Act,
) -> Result<Option<Text>, NoMemory>
    ensures { IfOk result (λ command. command ≡ action_of rules.now name.now kind act) }
{
    let all = rules.as_slice();
    let key = key_of(act);
    for rule in all {
        if let Some(command) = command_in(all, key, rule) {
            if rule.is_met(alloc, name, kind)? {
                return Ok(Some(command.copy(alloc)?));
            }
        }
    }
    Ok(None)
}

/// The key of an act.
fn key_of(act: Act) -> Key
    ensures { result ≡ key_of act }
{
    match act {
        Act::Launch => Key::Open,
        Act::Show => Key::View,
        Act::Change => Key::Edit,
    }
}

/// A rule's command: its own, or else that of the rule that it includes. An include of
/// that one is not followed.
fn command_in<'a>(rules: &'a [Rule], key: Key, rule: &'a Rule) -> Option<&'a Text>
    ensures { option_map (λ command. command.now) result ≡ command_in rules.now key rule.now }
{
    if let Some(command) = rule.command(key) {
        return Some(command);
    }
    let name = rule.command(Key::Include)?;
    included_rule(rules, name)?.command(key)
}

/// The first rule that is included by a name.
fn included_rule<'a>(rules: &'a [Rule], name: &Text) -> Option<&'a Rule>
    ensures { option_map (λ rule. rule.now) result ≡ included_rule name.now rules.now }
{
    for rule in rules {
        if rule.includes(name) {
            return Some(rule);
        }
    }
    None
}
