//! The actions of a rule.
use mc_text::Text;

/// What an action is for. `Include` names a rule whose actions count as the rule's own.
#[derive(Clone, Copy, Drop, PartialEq, Eq)]
pub enum Key {
    Open,
    View,
    Edit,
    Include,
}

/// A line `Key=command`.
#[derive(Drop)]
pub struct Action {
    pub key: Key,
    pub command: Text,
}
