//! A job, as far as it asks: what was answered, and what it waits with.
ghost use Rattle.std.specs.Prelude.{◌<◌};

use crate::standing::Standing;
use crate::words::{
    answer_of, cause_of, error_word, kind_of, number_at, second_at, then_word, word_at,
};
use job_answers::{Decision, Origin, Placing, Then, Waiting, placing_of, waiting_in};
use job_reports::{Question, Trouble};
use mc_text::{Kind, Path};
use rows_page::{Page, two_fields};
use tree_trait::Meta;

#[derive(Drop)]
pub struct Asked {
    standing: Standing,
    waiting: Option<Waiting>,
    question: Option<Question>,
}

impl Asked {
    pub fn new() -> Asked {
        Asked {
            standing: Standing::new(),
            waiting: None,
            question: None,
        }
    }

    /// What comes of an item, a trouble, or an answer.
    pub fn tell(&mut self, page: &mut Page, event: &str) {
        let (word, fields) = two_fields(event, ' ');
        match word {
            "copied" | "moved" | "saved" => self.tell_item(page, word, fields),
            "trouble" => self.tell_trouble(page, fields, false),
            "barrier" => self.tell_trouble(page, fields, true),
            _ => self.tell_answer(page, word),
        }
    }

    /// The next item: the kind, size and time of its source, and of what stands at its target.
    fn tell_item(&mut self, page: &mut Page, word: &str, fields: &str) {
        self.standing.next_item();
        self.waiting = None;
        let placing = placing_of(
            origin_of(word, kind_of(word_at(fields, 0))),
            kind_of(word_at(fields, 3)),
        );
        page.put(placing_word(placing));
        self.question = match placing {
            Placing::Asks => question_in(page, fields),
            _ => None,
        };
        self.tell_decision(page);
    }

    /// What is decided of the item, if a question stands.
    fn tell_decision(&mut self, page: &mut Page) {
        match &self.question {
            Some(question) => match self.standing.decide(question) {
                Decision::Replace => page.put(", replaced"),
                Decision::Keep => page.put(", kept"),
                Decision::Ask => {
                    self.waiting = Some(Waiting::Question);
                    page.put(", asked");
                }
            },
            None => {}
        }
    }

    fn tell_trouble(&mut self, page: &mut Page, fields: &str, barrier: bool) {
        let trouble = Trouble {
            cause: cause_of(fields),
            path: None,
            barrier,
        };
        if self.standing.passes_over(&trouble) {
            page.put("skipped");
        } else {
            self.waiting = Some(waiting_in(&trouble));
            page.put("waits");
        }
    }

    fn tell_answer(&mut self, page: &mut Page, word: &str) {
        match answer_of(word) {
            Some(answer) => match self.standing.answer(self.waiting, answer) {
                Ok(then) => self.tell_then(page, then),
                Err(error) => page.put(error_word(error)),
            },
            None => page.fail(),
        }
    }

    /// What the job does then. Of an item that is skipped, or was the last, nothing more is decided.
    fn tell_then(&mut self, page: &mut Page, then: Then) {
        self.waiting = None;
        page.put(then_word(then));
        match then {
            Then::Decides | Then::Retries => self.tell_decision(page),
            Then::Skips | Then::Ends => self.question = None,
        }
    }
}

fn origin_of(word: &str, kind: Option<Kind>) -> Origin {
    match (word, kind) {
        ("copied", Some(kind)) => Origin::Copied(kind),
        ("moved", Some(kind)) => Origin::Moved(kind),
        _ => Origin::Saved,
    }
}

fn placing_word(placing: Placing) -> &'static str {
    match placing {
        Placing::Free => "free",
        Placing::Merges => "merges",
        Placing::Asks => "asks",
        Placing::Replaces => "replaces",
        Placing::TargetKind(_) => "target kind",
        Placing::SpecialSource => "special source",
    }
}

/// The question on an item, whose paths count for nothing here.
fn question_in(page: &mut Page, fields: &str) -> Option<Question> {
    let alloc = page.alloc();
    let source = Path::parse(alloc, "/s").ok()?;
    let target = Path::parse(alloc, "/t").ok()?;
    Question::new(
        alloc,
        &source,
        &meta_at(fields, 0),
        &target,
        &meta_at(fields, 3),
    )
    .ok()
}

/// What the three fields from this place on say of a thing.
fn meta_at(fields: &str, place: usize) -> Meta
    requires { place < 100 }
{
    Meta {
        kind: kind_of(word_at(fields, place)).unwrap_or(Kind::Other),
        size: number_at(fields, place + 1),
        mode: 0,
        mtime: second_at(fields, place + 2),
        mount: 0,
    }
}
