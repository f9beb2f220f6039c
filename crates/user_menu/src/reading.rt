//! Reading a condition: terms, one behind the other.
ghost use Rattle.std.specs.Prelude.{◌≡◌, ◌<◌, length, IfOk, option_map};
ghost use Rattle.user_menu.specs.Conditions.{joint_of, before_others, terms_of, condition_of};
ghost use Rattle.user_menu.specs.Words.{first_word};
ghost use Rattle.tagging.specs.declared.pattern.PatternKind.{PatternKind};
ghost use Rattle.user_menu.specs.Courses.{onto_terms, terms_at, IsBehind};

use crate::condition::{Condition, Joined, Joint};
use crate::term::read_term;
use crate::words::first_word;
use mc_text::NoMemory;
use std::alloc::Global;
use tagging::PatternKind;

/// Reads a condition, whose patterns are of this kind. Nothing where the text is none.
pub fn read_condition(
    alloc: Global,
    kind: PatternKind,
    text: &str,
) -> Result<Option<Condition>, NoMemory>
    ensures { IfOk result (λ condition. condition ≡ condition_of kind text.now) }
{
    match first_word(text) {
        None => Ok(Some(Condition(Vec::new(alloc)))),
        Some(_) => read_terms(alloc, kind, text),
    }
}

/// How reading goes on behind a term: the condition ends, another term is joined, or it is no condition.
enum Course<'a> {
    Ends,
    GoesOn(Joint, &'a str),
    Breaks,
}

/// Reads terms, of which there is one at least.
fn read_terms(alloc: Global, kind: PatternKind, text: &str) -> Result<Option<Condition>, NoMemory>
    ensures { IfOk result (λ condition. condition ≡ terms_of kind Joint.And text.now) }
{
    let mut terms = Vec::new(alloc);
    let mut joint = Joint::And;
    let mut rest = text;
    'terms: loop {
        match take_term(alloc, kind, &mut terms, joint, rest)? {
            Course::Ends => return Ok(Some(Condition(terms))),
            Course::GoesOn(next, behind) => {
                joint = next;
                rest = behind;
            }
            Course::Breaks => return Ok(None),
        }
    }
}

/// Takes the term with which a text begins, and the joint behind it.
fn take_term<'a>(
    alloc: Global,
    kind: PatternKind,
    terms: &mut Vec<Joined>,
    joint: Joint,
    text: &'a str,
) -> Result<Course<'a>, NoMemory>
    ensures taken { IfOk result (λ course.
        onto_terms terms.old.items (terms_of kind joint text.now) ≡ terms_at kind terms.new.items course) }
    ensures shorter { IfOk result (IsBehind text.now) }
{
    match read_term(alloc, kind, text)? {
        Some((term, behind)) => take_joined(terms, Joined { joint, term }, behind),
        None => Ok(Course::Breaks),
    }
}

/// Takes a term, and the joint behind it.
fn take_joined<'a>(
    terms: &mut Vec<Joined>,
    joined: Joined,
    behind: &'a str,
) -> Result<Course<'a>, NoMemory>
    ensures taken { IfOk result (λ course. (kind : PatternKind) →
        onto_terms terms.old.items (before_others joined (first_word behind.now) (terms_of kind))
        ≡ terms_at kind terms.new.items course) }
    ensures shorter { IfOk result (IsBehind behind.now) }
{
    terms.push(joined)?;
    match first_word(behind) {
        None => Ok(Course::Ends),
        Some((word, rest)) => match joint_of(word) {
            Some(next) => Ok(Course::GoesOn(next, rest)),
            None => Ok(Course::Breaks),
        },
    }
}

/// The joint that a word stands for.
fn joint_of(word: &str) -> Option<Joint>
    ensures { result ≡ joint_of word.now }
{
    if word == "&" {
        return Some(Joint::And);
    }
    if word == "|" {
        return Some(Joint::Or);
    }
    None
}
