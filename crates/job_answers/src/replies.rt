//! What was answered to a job: to its questions, for the item that is at hand and for all later
//! items, and to its troubles.
ghost use Rattle.std.specs.Prelude.{◌≡◌, Some, None, if◌then◌else◌};
ghost use Rattle.job_answers.specs.Decisions.{decision_on, no_replies, rule_decides, with_reply, with_skips};

use crate::skips::{Skips, kind_of};
use job_reports::{Answer, Cause, Question};

/// An answer for one item: whether it replaces what stands at its target.
#[derive(Clone, Copy, Debug, Drop, PartialEq, Eq)]
pub enum ItemAnswer {
    Yes,
    No,
}

/// An answer for all later items: which of them replace what stands at their targets.
#[derive(Clone, Copy, Debug, Drop, PartialEq, Eq)]
pub enum Rule {
    All,
    /// Those whose source was changed later than the target.
    Update,
    Nothing,
    /// Those whose source and target differ in size.
    SizeDiffers,
}

/// What becomes of an item at whose target something stands.
#[derive(Clone, Copy, Debug, Drop, PartialEq, Eq)]
pub enum Decision {
    Replace,
    Keep,
    Ask,
}

/// What was answered to the questions and troubles of a job so far, and still holds.
#[derive(Clone, Copy, Debug, Drop)]
pub struct Replies {
    item: Option<ItemAnswer>,
    rule: Option<Rule>,
    skips: Skips,
}

impl Replies {
    /// Nothing was answered.
    pub fn new() -> Replies
        ensures { result ≡ no_replies }
    {
        Replies {
            item: None,
            rule: None,
            skips: Skips::new(),
        }
    }

    /// Whether the item replaces what stands at its target, or that is to be asked.
    pub fn decide(&self, question: &Question) -> Decision
        ensures { result ≡ decision_on self.now question.now }
    {
        match (self.item, self.rule) {
            (Some(ItemAnswer::Yes), _) => Decision::Replace,
            (Some(ItemAnswer::No), _) => Decision::Keep,
            (None, Some(rule)) => decide_by(rule, question),
            (None, None) => Decision::Ask,
        }
    }

    /// Keeps what is answered to a question; an answer that is none to a question changes
    /// nothing. It takes no memory.
    pub fn note(&mut self, answer: Answer)
        ensures { self.new ≡ with_reply answer self.old }
    {
        match answer {
            Answer::Yes => self.item = Some(ItemAnswer::Yes),
            Answer::No => self.item = Some(ItemAnswer::No),
            Answer::All => self.rule = Some(Rule::All),
            Answer::Update => self.rule = Some(Rule::Update),
            Answer::Nothing => self.rule = Some(Rule::Nothing),
            Answer::SizeDiffers => self.rule = Some(Rule::SizeDiffers),
            Answer::Retry | Answer::Skip | Answer::SkipAll | Answer::Abort => {}
        }
    }

    /// From now on troubles of this kind are passed over. It takes no memory.
    pub fn skip_all(&mut self, cause: Cause)
        ensures { self.new ≡ with_skips cause self.old }
    {
        self.skips.insert(kind_of(cause));
    }

    /// The kinds of troubles that are passed over.
    pub fn skips(&self) -> Skips
        ensures { result ≡ self.now.skips }
    {
        self.skips
    }

    /// What holds for the next item: an answer for the one before doesn't.
    pub fn for_next(self) -> Replies
        ensures { result ≡ record self { item = None } }
    {
        Replies {
            item: None,
            rule: self.rule,
            skips: self.skips,
        }
    }
}

/// Whether an item replaces what stands at its target, by an answer for all.
fn decide_by(rule: Rule, question: &Question) -> Decision
    ensures { result ≡ rule_decides rule question.now }
{
    match rule {
        Rule::All => Decision::Replace,
        Rule::Nothing => Decision::Keep,
        Rule::Update => replace_if(question.target_time < question.source_time),
        Rule::SizeDiffers => replace_if(question.source_size != question.target_size),
    }
}

fn replace_if(replaces: bool) -> Decision
    ensures { result ≡ if replaces then Decision.Replace else Decision.Keep }
{
    if replaces {
        Decision::Replace
    } else {
        Decision::Keep
    }
}
