//! What the boxes' answers to a key come to.
ghost use Rattle.std.specs.Prelude.{◌≡◌};
ghost use Rattle.ui_words.specs.BoxKeys.{answer_for_all, answer_reply as answer_reply_of};
ghost use Rattle.ui_words.specs.BoxKeys.{answer_reply_to as answers_by, closes_message as does_close};
ghost use Rattle.ui_words.specs.BoxKeys.{delete_letters, delete_reply as delete_reply_of};
ghost use Rattle.ui_words.specs.BoxKeys.{delete_reply_to as deletes_by, letter_answer};
ghost use Rattle.ui_words.specs.BoxKeys.{line_reply as line_reply_of, mode_reply as mode_reply_of};
ghost use Rattle.ui_words.specs.BoxKeys.{question_answer, trouble_answer};
ghost use Rattle.ui_words.specs.BoxKeys.{trouble_letters as letters_of_trouble, waits_letters as letters_of};

use job_reports::{Answer, Waits};
use key_screen::{Base, Key};
use mc_dialogs::{Reply, Shut, answer_by_letters};
use mc_text::Text;

/// The letters of the delete box: yes, in the background, and no.
const DELETE_LETTERS: [u8; 3] = [b'y', b'g', b'n'];

/// What becomes of the box that asks whether to delete a file.
#[derive(Clone, Copy, Debug, Drop, PartialEq, Eq)]
pub enum DeleteReply {
    Stays,
    Shuts,
    Deletes,
}

/// What becomes of the box that tells what a job waits with.
#[derive(Clone, Copy, Debug, Drop, PartialEq, Eq)]
pub enum AnswerReply {
    Stays,
    Shuts,
    Gives(Answer),
}

/// What becomes of an input line.
#[derive(Debug, Drop)]
pub enum LineReply {
    Stays,
    Shuts,
    Takes(Text),
}

/// What becomes of a mode box.
#[derive(Clone, Copy, Debug, Drop, PartialEq, Eq)]
pub enum ModeReply {
    Stays,
    Shuts,
    Takes(u16),
}

/// What a key makes of the delete box. Until jobs run in the background `g` does as `y`.
pub fn delete_reply_to(key: Key) -> DeleteReply
    ensures { result ≡ deletes_by key }
{
    delete_reply(answer_by_letters(&DELETE_LETTERS, key))
}

fn delete_reply(shut: Shut) -> DeleteReply
    ensures { result ≡ delete_reply_of shut }
{
    match shut {
        Shut::Stay => DeleteReply::Stays,
        Shut::Closed(Reply::Letter(b'n')) => DeleteReply::Shuts,
        Shut::Closed(Reply::Letter(_)) => DeleteReply::Deletes,
        Shut::Closed(_) => DeleteReply::Shuts,
    }
}

/// What a key makes of the box that tells what a job waits with.
pub fn answer_reply_to(waits: &Waits, key: Key) -> AnswerReply
    ensures { result ≡ answers_by waits.now key }
{
    answer_reply(waits, answer_by_letters(waits_letters(waits), key))
}

fn waits_letters(waits: &Waits) -> &'static [u8]
    ensures { result.now ≡ letters_of waits.now }
{
    match waits {
        Waits::Question(_) => b"ynauosb",
        Waits::Trouble(trouble) => trouble_letters(trouble.barrier),
    }
}

/// At a barrier nothing can be skipped.
fn trouble_letters(at_barrier: bool) -> &'static [u8]
    ensures { result.now ≡ letters_of_trouble at_barrier }
{
    if at_barrier { b"rb" } else { b"rsab" }
}

fn answer_reply(waits: &Waits, shut: Shut) -> AnswerReply
    ensures { result ≡ answer_reply_of waits.now shut }
{
    match shut {
        Shut::Stay => AnswerReply::Stays,
        Shut::Closed(Reply::Letter(letter)) => AnswerReply::Gives(answer_of(waits, letter)),
        Shut::Closed(_) => AnswerReply::Shuts,
    }
}

fn answer_of(waits: &Waits, letter: u8) -> Answer
    ensures { result ≡ letter_answer waits.now letter }
{
    match waits {
        Waits::Question(_) => question_answer(letter),
        Waits::Trouble(_) => trouble_answer(letter),
    }
}

fn question_answer(letter: u8) -> Answer
    ensures { result ≡ question_answer letter }
{
    match letter {
        b'y' => Answer::Yes,
        b'n' => Answer::No,
        _ => answer_for_all(letter),
    }
}

/// What is answered for all items from here on.
fn answer_for_all(letter: u8) -> Answer
    ensures { result ≡ answer_for_all letter }
{
    match letter {
        b'a' => Answer::All,
        b'u' => Answer::Update,
        b'o' => Answer::Nothing,
        b's' => Answer::SizeDiffers,
        _ => Answer::Abort,
    }
}

fn trouble_answer(letter: u8) -> Answer
    ensures { result ≡ trouble_answer letter }
{
    match letter {
        b'r' => Answer::Retry,
        b's' => Answer::Skip,
        b'a' => Answer::SkipAll,
        _ => Answer::Abort,
    }
}

/// What an input line's answer comes to. Until jobs run in the background meta with `b`
/// closes it as Enter does.
pub fn line_reply(shut: Shut) -> LineReply
    ensures { result ≡ line_reply_of shut }
{
    match shut {
        Shut::Stay => LineReply::Stays,
        Shut::Closed(Reply::Line { text, .. }) => LineReply::Takes(text),
        Shut::Closed(_) => LineReply::Shuts,
    }
}

/// What a mode box's answer comes to.
pub fn mode_reply(shut: Shut) -> ModeReply
    ensures { result ≡ mode_reply_of shut }
{
    match shut {
        Shut::Stay => ModeReply::Stays,
        Shut::Closed(Reply::Mode(mode)) => ModeReply::Takes(mode),
        Shut::Closed(_) => ModeReply::Shuts,
    }
}

/// Whether a key closes a message.
pub fn closes_message(base: Base) -> bool
    ensures { result ≡ does_close base }
{
    matches!(base, Base::Enter | Base::Escape)
}
