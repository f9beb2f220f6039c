//! The box that asks a question.
ghost use Rattle.std.specs.Prelude.{◌≡◌, ◌≤◌, if◌then◌else◌, length, IfOk, OnOk};
ghost use Rattle.mc_dialogs.specs.QuestionKeys.{is_letter_of, first_letter, letters_shut};
ghost use Rattle.mc_dialogs.specs.QuestionKeys.{plain_lines as lines_of, question_shut};
ghost use Rattle.mc_dialogs.specs.Boxes.{with_box};

use crate::frame::{Line, paint_box};
use crate::shut::{Reply, Shut};
use key_screen::{Attr, Base, Grid, Key};
use mc_text::{NoMemory, Rows, Text};
use std::alloc::Global;
use std::marker::Model;

/// A box that asks a question, which one of its letters answers.
#[derive(Debug, Drop)]
pub struct QuestionBox {
    lines: Rows,
    letters: Vec<u8>,
}

impl Model for QuestionBox {
    ghost use Rattle.std.specs.Prelude.{◌≤◌, length};
    ghost use Rattle.mc_dialogs.specs.QuestionKeys.{QuestionState};

    ghost Value = { QuestionState };

    ghost view = { λ b. record { lines = b.lines; letters = b.letters.items } };

    ghost invariant = { λ b. length b.lines ≤ 8 };
}

impl QuestionBox {
    /// A box with these lines and letters.
    pub fn new(alloc: Global, lines: Rows, letters: &[u8]) -> Result<QuestionBox, NoMemory>
        requires { length lines ≤ 8 }
        ensures { IfOk result (λ asked. asked ≡ record { lines = lines; letters = letters.now }) }
    {
        Ok(QuestionBox {
            lines,
            letters: Vec::from_slice(alloc, letters)?,
        })
    }

    /// What it answers to a key. It takes no memory.
    pub fn key(&mut self, key: Key) -> Result<Shut, NoMemory>
        ensures state { self.new ≡ self.old }
        ensures shut { result ≡ Ok (question_shut self.old key) }
    {
        Ok(answer_by_letters(&self.letters, key))
    }

    /// Paints it over a screen. Where memory is wanting, a part of it may stand.
    pub fn paint(&self, alloc: Global, grid: &mut Grid) -> Result<(), NoMemory>
        ensures { OnOk result (grid.new ≡ with_box grid.old (lines_of self.now.lines)) }
    {
        let lines = plain_lines(alloc, self.lines.as_slice())?;
        paint_box(grid, alloc, &lines)
    }
}

/// What a box with these letters answers to a key. It takes no memory.
pub fn answer_by_letters(letters: &[u8], key: Key) -> Shut
    ensures { result ≡ letters_shut letters.now key }
{
    if key.meta {
        return Shut::Stay;
    }
    match key.base {
        Base::Char(code) => letter_shut(letters, code),
        Base::Enter => Shut::Closed(first_reply(letters)),
        Base::Escape => Shut::Closed(Reply::Cancel),
        Base::F(10) => Shut::Closed(Reply::Cancel),
        _ => Shut::Stay,
    }
}

/// Lines of these texts, all plain.
pub fn plain_lines(alloc: Global, texts: &[Text]) -> Result<Vec<Line>, NoMemory>
    ensures value { IfOk result (λ lines. lines.items ≡ lines_of texts.now) }
    ensures count { IfOk result (λ lines. length lines.items ≡ length texts.now) }
{
    let mut lines = Vec::new(alloc);
    for text in texts {
        lines.push(Line {
            text: text.copy(alloc)?,
            attr: Attr::Plain,
        })?;
    }
    Ok(lines)
}

/// What a character answers.
fn letter_shut(letters: &[u8], code: char) -> Shut
    ensures { result
        ≡ (if is_letter_of letters.now code then Shut.Closed (Reply.Letter code) else Shut.Stay) }
{
    for letter in letters {
        if char::from(*letter) == code {
            return Shut::Closed(Reply::Letter(*letter));
        }
    }
    Shut::Stay
}

/// What Enter answers.
fn first_reply(letters: &[u8]) -> Reply
    ensures { result ≡ first_letter letters.now }
{
    match letters {
        [letter, ..] => Reply::Letter(*letter),
        [] => Reply::Cancel,
    }
}
