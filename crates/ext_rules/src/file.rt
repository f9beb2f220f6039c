//! An extension file, read.
ghost use Rattle.std.specs.Prelude.{◌≡◌, ◌≢◌, ◌+◌, ◌<◌, [], ◌∷◌, ◌++◌, List, Some};
ghost use Rattle.std.specs.Prelude.{None, false, vec_len, IfOk, IfErr, OnOk};
ghost use Rattle.ext_rules.specs.declared.line.LineRead.{LineRead};
ghost use Rattle.ext_rules.specs.declared.actions.Action.{Action};
ghost use Rattle.ext_rules.specs.ExtFiles.{IsExtFile, ext_fault, fault_from, readings, rules_said};
ghost use Rattle.ext_rules.specs.Drafts.{has_rule, extended_rules, continued_rules};

use crate::actions::Action;
use crate::condition::Condition;
use crate::error::ExtError;
use crate::line::{LineRead, read_line};
use crate::rule::Rule;
use mc_text::NoMemory;
use std::alloc::Global;
use std::marker::Model;
use std::str;
use text_scan::first_line;

/// The rules of an extension file. Contracts see them in the order of the file.
#[derive(Drop)]
pub struct Rules {
    rules: Vec<Rule>,
}

impl Model for Rules {
    ghost use Rattle.std.specs.Prelude.{List};
    ghost use Rattle.ext_rules.specs.FileRules.{FileRule};

    ghost Value = { List FileRule };

    ghost view = { λ r. r.rules.items };
}

impl Rules {
    /// The rules in their order.
    pub(crate) fn as_slice(&self) -> &[Rule]
        ensures { result.now ≡ self.now }
    {
        self.rules.as_slice()
    }
}

/// Reads an extension file. The first fault decides: first bytes that are no UTF-8, then the
/// first line that is wrong.
pub fn parse_ext(alloc: Global, bytes: &[u8]) -> Result<Rules, ExtError>
    ensures read { IfOk result (λ rules. IsExtFile bytes.now rules) }
    ensures refused { IfErr result (λ e. e ≢ ExtError.Memory → ext_fault bytes.now ≡ Some e) }
{
    match str::from_utf8(bytes) {
        Ok(text) => parse_text(alloc, text),
        Err(fault) => Err(ExtError::NotText(fault.valid_up_to())),
    }
}

/// Reads the text of a file.
fn parse_text(alloc: Global, text: &str) -> Result<Rules, ExtError>
    ensures rules { IfOk result (λ rules. rules ≡ rules_said (readings text.now)) }
    ensures faultless { IfOk result (λ _. fault_from 1 false (readings text.now) ≡ None) }
    ensures refused { IfErr result
        (λ e. e ≢ ExtError.Memory → fault_from 1 false (readings text.now) ≡ Some e) }
{
    let mut rules = Vec::new(alloc);
    let mut rest = text;
    let mut at = 1;
    while let Some((line, behind)) = first_line(rest) {
        let read = read_line(alloc, line)?;
        take_line(alloc, &mut rules, read, at)?;
        at += 1;
        rest = behind;
    }
    Ok(Rules { rules })
}

/// Takes what the line `at` says.
fn take_line(
    alloc: Global,
    rules: &mut Vec<Rule>,
    read: LineRead,
    at: usize,
) -> Result<(), ExtError>
    ensures said { OnOk result ((lines : List LineRead)
        → continued_rules rules.new.items lines ≡ continued_rules rules.old.items (read ∷ lines)) }
    ensures goes_on { OnOk result ((lines : List LineRead) →
        fault_from (at + 1) (has_rule rules.new.items) lines
        ≡ fault_from at (has_rule rules.old.items) (read ∷ lines)) }
    ensures refused { IfErr result (λ e. e ≢ ExtError.Memory → (lines : List LineRead) →
        fault_from at (has_rule rules.old.items) (read ∷ lines) ≡ Some e) }
{
    match read {
        LineRead::Passed => Ok(()),
        LineRead::Rule(condition) => {
            begin_rule(alloc, rules, condition)?;
            Ok(())
        }
        LineRead::Action(action) => {
            if rules.is_empty() {
                return Err(ExtError::ActionBeforeRule(at));
            }
            add_action(rules, action)?;
            Ok(())
        }
        LineRead::Ignored => {
            if rules.is_empty() {
                return Err(ExtError::ActionBeforeRule(at));
            }
            Ok(())
        }
        LineRead::Unknown => Err(ExtError::UnknownRule(at)),
        LineRead::BadPattern => Err(ExtError::BadPattern(at)),
    }
}

/// Begins a rule, which has no action yet.
fn begin_rule(alloc: Global, rules: &mut Vec<Rule>, condition: Condition) -> Result<(), NoMemory>
    ensures { OnOk result
        (rules.new.items ≡ rules.old.items ++ record { condition = condition; actions = [] } ∷ []) }
{
    rules.push(Rule::new(alloc, condition))?;
    Ok(())
}

/// Puts an action at the end of the last rule.
fn add_action(rules: &mut Vec<Rule>, action: Action) -> Result<(), NoMemory>
    requires { 0 < vec_len rules.old }
    ensures extended { OnOk result ((more : List Action)
        → extended_rules rules.new.items more ≡ extended_rules rules.old.items (action ∷ more)) }
    ensures same_rules { OnOk result (vec_len rules.new ≡ vec_len rules.old) }
{
    let last = rules.len() - 1;
    rules[last].push(action)
}
