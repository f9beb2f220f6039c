//! The lines of the boxes.
ghost use Rattle.std.specs.Prelude.{◌≡◌, ◌∷◌, ◌++◌, [], IfOk};
ghost use Rattle.std.specs.Option.{option_map_or};
ghost use Rattle.ui_words.specs.BoxLines.{delete_lines as lines_of_deletion, folder_line as line_of_folder};
ghost use Rattle.ui_words.specs.BoxLines.{link_name_line as line_of_link_name};
ghost use Rattle.ui_words.specs.BoxLines.{link_text_line as line_of_link_text, mask_line as line_of_mask};
ghost use Rattle.ui_words.specs.BoxLines.{message_lines as lines_of_message, mode_box as box_of_mode};
ghost use Rattle.ui_words.specs.BoxLines.{path_lines, plan_path, question_lines as lines_of_question};
ghost use Rattle.ui_words.specs.BoxLines.{resolve_path, sizes_line as line_of_sizes};
ghost use Rattle.ui_words.specs.BoxLines.{target_line as line_of_target, target_text as text_of_target};
ghost use Rattle.ui_words.specs.BoxLines.{target_title as title_of_target, thing_text as text_of_thing};
ghost use Rattle.ui_words.specs.BoxLines.{trouble_letter_words, trouble_lines as lines_of_trouble};
ghost use Rattle.ui_words.specs.BoxLines.{waits_lines as lines_of_waits};
ghost use Rattle.ui_words.specs.PathLines.{path_line as line_of_path};

use crate::carry::Carry;
use crate::causes::{refusal_text, trouble_text};
use crate::message::Message;
use crate::path_lines::path_line;
use crate::things::{called, things_line};
use job_reports::{Question, Trouble, Waits};
use mc_dialogs::{InputLine, ModeBox};
use mc_text::{Name, NoMemory, Path, Rows, Text};
use resolving::ResolveError;
use session_entries::{PlanError, Refusal};
use std::alloc::Global;
use std::convert::AsStr;

/// What the program is called with, in lines that a box on 80 columns shows whole.
const USAGE: &str = "usage: mc [-b] [-V] [-h] [-P FILE]";

const MORE_USAGE: &str = "       [-v FILE | -e FILE | --drill N | DIR1 [DIR2]]";

/// What the function keys do.
const KEYS: &str = "F1 help  F2 menu  F3 view  F4 edit  F5 copy";

const MORE_KEYS: &str = "F6 move  F7 mkdir  F8 delete  F9 options  F10 quit";

/// The lines, of so many columns, of the box that asks whether to delete these things.
pub fn delete_lines(alloc: Global, columns: usize, paths: &[Path]) -> Result<Rows, NoMemory>
    ensures { IfOk result (λ lines. lines ≡ lines_of_deletion columns paths.now) }
{
    let count = paths.len();
    let mut lines = Rows::new(alloc);
    lines.push(Text(format!(in alloc; "Delete {count} things?")?))?;
    lines.push(things_line(alloc, columns, paths)?)?;
    lines.push(Text::from_str(alloc, "y Delete  g Background  n No")?)?;
    Ok(lines)
}

/// The lines, of so many columns, of the box that tells what a job waits with.
pub fn waits_lines(alloc: Global, columns: usize, waits: &Waits) -> Result<Rows, NoMemory>
    ensures { IfOk result (λ lines. lines ≡ lines_of_waits columns waits.now) }
{
    match waits {
        Waits::Question(question) => question_lines(alloc, columns, question),
        Waits::Trouble(trouble) => trouble_lines(alloc, columns, trouble),
    }
}

/// The lines of a question's box.
fn question_lines(alloc: Global, columns: usize, question: &Question) -> Result<Rows, NoMemory>
    ensures { IfOk result (λ lines. lines ≡ lines_of_question columns question.now) }
{
    let mut lines = Rows::new(alloc);
    lines.push(Text::from_str(alloc, "Target exists")?)?;
    lines.push(path_line(alloc, &question.target, columns)?)?;
    lines.push(sizes_line(alloc, question)?)?;
    lines.push(Text::from_str(alloc, "y Yes  n No  a All  u Update")?)?;
    lines.push(Text::from_str(alloc, "o None  s Size differs  b Abort")?)?;
    Ok(lines)
}

/// The sizes of the source and of what stands at the target.
fn sizes_line(alloc: Global, question: &Question) -> Result<Text, NoMemory>
    ensures { IfOk result (λ text. text ≡ line_of_sizes question.now) }
{
    let source = question.source_size;
    let target = question.target_size;
    Ok(Text(format!(in alloc; "source {source} bytes, target {target} bytes")?))
}

/// The lines of a trouble's box; the path's is empty where there is none.
fn trouble_lines(alloc: Global, columns: usize, trouble: &Trouble) -> Result<Rows, NoMemory>
    ensures { IfOk result (λ lines. lines ≡ lines_of_trouble columns trouble.now) }
{
    let mut lines = Rows::new(alloc);
    lines.push(trouble_text(alloc, trouble.cause)?)?;
    lines.push(line_or_none(alloc, columns, &trouble.path)?)?;
    lines.push(Text::from_str(alloc, letter_words(trouble.barrier))?)?;
    Ok(lines)
}

/// The letters that answer a trouble, with their words.
fn letter_words(at_barrier: bool) -> &'static str
    ensures { result.now ≡ trouble_letter_words at_barrier }
{
    if at_barrier {
        "r Retry  b Abort"
    } else {
        "r Retry  s Skip  a Skip all  b Abort"
    }
}

/// The line of a path, or an empty one.
fn line_or_none(alloc: Global, columns: usize, path: &Option<Path>) -> Result<Text, NoMemory>
    ensures { IfOk result (λ text. text ≡ option_map_or (line_of_path columns) path.now []) }
{
    match path {
        None => Text::from_str(alloc, ""),
        Some(path) => path_line(alloc, path, columns),
    }
}

/// The lines of a message, of so many columns.
pub fn message_lines(alloc: Global, columns: usize, message: &Message) -> Result<Rows, NoMemory>
    ensures { IfOk result (λ lines. lines ≡ lines_of_message columns message.now) }
{
    match message {
        Message::Refused(refusal) => refusal_lines(alloc, columns, refusal),
        Message::PartLeft(path) => part_lines(alloc, columns, path),
        Message::OutOfMemory(part) => memory_lines(alloc, columns, part),
        Message::Help => help_lines(alloc, columns),
    }
}

/// The words of a refusal, and the path that it speaks of, where it speaks of one.
fn refusal_lines(alloc: Global, columns: usize, refusal: &Refusal) -> Result<Rows, NoMemory>
    ensures { IfOk result (λ lines. lines ≡ lines_of_message columns (Message.Refused refusal.now)) }
{
    let words = refusal_text(alloc, refusal)?;
    match refusal {
        Refusal::Tree(path, _) => words_and_path(alloc, columns, words, path),
        Refusal::Read(path, _) => words_and_path(alloc, columns, words, path),
        Refusal::Resolve(error) => resolve_lines(alloc, columns, words, error),
        Refusal::Plan(error) => plan_lines(alloc, columns, words, error),
        Refusal::Begin(_) => words_alone(alloc, words),
        Refusal::Typed(_) => words_alone(alloc, words),
    }
}

/// Words, and the path that a plan was refused for: the first, where it was for two.
fn plan_lines(
    alloc: Global,
    columns: usize,
    words: Text,
    error: &PlanError,
) -> Result<Rows, NoMemory>
    ensures { IfOk result (λ lines. lines ≡ words ∷ path_lines columns (plan_path error.now)) }
{
    match error {
        PlanError::NoSelection => words_alone(alloc, words),
        PlanError::TooLong => words_alone(alloc, words),
        PlanError::Nested(first, _) => words_and_path(alloc, columns, words, first),
        PlanError::Source(path, _) => words_and_path(alloc, columns, words, path),
        PlanError::BadMask => words_alone(alloc, words),
        PlanError::Target(error) => resolve_lines(alloc, columns, words, error),
        PlanError::TargetThere(path) => words_and_path(alloc, columns, words, path),
        PlanError::SameFile(path) => words_and_path(alloc, columns, words, path),
        PlanError::IntoItself(source, _) => words_and_path(alloc, columns, words, source),
        PlanError::TwoToOne(first, _) => words_and_path(alloc, columns, words, first),
        PlanError::BadLinkText => words_alone(alloc, words),
    }
}

/// Words, and the path that can't be read, where one is to blame.
fn resolve_lines(
    alloc: Global,
    columns: usize,
    words: Text,
    error: &ResolveError,
) -> Result<Rows, NoMemory>
    ensures { IfOk result (λ lines. lines ≡ words ∷ path_lines columns (resolve_path error.now)) }
{
    match error {
        ResolveError::Tree(path, _) => words_and_path(alloc, columns, words, path),
        ResolveError::TooManyLinks => words_alone(alloc, words),
        ResolveError::TooLong => words_alone(alloc, words),
        ResolveError::BadName => words_alone(alloc, words),
        ResolveError::Fault => words_alone(alloc, words),
        ResolveError::Memory => words_alone(alloc, words),
    }
}

fn words_alone(alloc: Global, words: Text) -> Result<Rows, NoMemory>
    ensures { IfOk result (λ lines. lines ≡ words ∷ []) }
{
    let mut lines = Rows::new(alloc);
    lines.push(words)?;
    Ok(lines)
}

fn words_and_path(alloc: Global, columns: usize, words: Text, path: &Path) -> Result<Rows, NoMemory>
    ensures { IfOk result (λ lines. lines ≡ words ∷ line_of_path columns path.now ∷ []) }
{
    let mut lines = Rows::new(alloc);
    lines.push(words)?;
    lines.push(path_line(alloc, path, columns)?)?;
    Ok(lines)
}

fn part_lines(alloc: Global, columns: usize, path: &Path) -> Result<Rows, NoMemory>
    ensures { IfOk result (λ lines. lines ≡ lines_of_message columns (Message.PartLeft path.now)) }
{
    words_and_path(alloc, columns, Text::from_str(alloc, "part left")?, path)
}

/// That a job ended since memory ran out, and the part that it left.
fn memory_lines(alloc: Global, columns: usize, part: &Option<Path>) -> Result<Rows, NoMemory>
    ensures { IfOk result (λ lines. lines ≡ lines_of_message columns (Message.OutOfMemory part.now)) }
{
    let mut lines = Rows::new(alloc);
    lines.push(Text::from_str(alloc, "job ended: out of memory")?)?;
    if let Some(path) = part {
        lines.push(Text::from_str(alloc, "part left")?)?;
        lines.push(path_line(alloc, path, columns)?)?;
    }
    Ok(lines)
}

fn help_lines(alloc: Global, columns: usize) -> Result<Rows, NoMemory>
    ensures { IfOk result (λ lines. lines ≡ lines_of_message columns Message.Help) }
{
    let mut lines = Rows::new(alloc);
    lines.push(Text::from_str(alloc, USAGE)?)?;
    lines.push(Text::from_str(alloc, MORE_USAGE)?)?;
    lines.push(Text::from_str(alloc, KEYS)?)?;
    lines.push(Text::from_str(alloc, MORE_KEYS)?)?;
    Ok(lines)
}

/// The line that asks for the source mask of these things.
pub fn mask_line(alloc: Global, paths: &[Path]) -> Result<InputLine, NoMemory>
    ensures { IfOk result (λ line. line ≡ line_of_mask paths.now) }
{
    let mut title = String::from_str(alloc, "Source mask for ")?;
    title.push_str(called(alloc, paths)?.as_str())?;
    InputLine::new(alloc, title.as_str(), "*")
}

/// The line that asks where things are to be copied or moved to, while the other panel shows this folder.
pub fn target_line(alloc: Global, carry: Carry, folder: &Path) -> Result<InputLine, NoMemory>
    ensures { IfOk result (λ line. line ≡ line_of_target carry folder.now) }
{
    let text = target_text(alloc, folder)?;
    InputLine::new(alloc, target_title(carry), text.as_str())
}

/// The title of that line.
fn target_title(carry: Carry) -> &'static str
    ensures { result.now ≡ title_of_target carry }
{
    match carry {
        Carry::Copy => "Copy to",
        Carry::Move => "Move to",
    }
}

/// The line that asks for a new folder's path.
pub fn folder_line(alloc: Global) -> Result<InputLine, NoMemory>
    ensures { IfOk result (λ line. line ≡ line_of_folder) }
{
    InputLine::new(alloc, "Make folder", "")
}

/// The line that asks what a link is to say.
pub fn link_text_line(alloc: Global, text: &str) -> Result<InputLine, NoMemory>
    ensures { IfOk result (λ line. line ≡ line_of_link_text text.now) }
{
    InputLine::new(alloc, "Link text", text)
}

/// The line that asks for a link's path.
pub fn link_name_line(alloc: Global) -> Result<InputLine, NoMemory>
    ensures { IfOk result (λ line. line ≡ line_of_link_name) }
{
    InputLine::new(alloc, "Link name", "")
}

/// The box that asks for a mode, and has this one at first.
pub fn mode_box(alloc: Global, mode: u16) -> Result<ModeBox, NoMemory>
    ensures { IfOk result (λ asked. asked ≡ box_of_mode mode) }
{
    ModeBox::new(alloc, "Mode", mode)
}

/// The path of a thing in a folder, however long it is.
pub fn thing_text(alloc: Global, folder: &Path, name: &Name) -> Result<Text, NoMemory>
    ensures { IfOk result (λ text. text ≡ text_of_thing folder.now name.now) }
{
    let Text(mut text) = target_text(alloc, folder)?;
    text.push_str(name.text())?;
    Ok(Text(text))
}

/// A folder's path and a slash, for the root a slash alone.
fn target_text(alloc: Global, folder: &Path) -> Result<Text, NoMemory>
    ensures { IfOk result (λ text. text ≡ text_of_target folder.now) }
{
    let text = folder.text(alloc)?;
    match folder.names() {
        [] => Ok(text),
        [_, ..] => with_slash(text),
    }
}

fn with_slash(text: Text) -> Result<Text, NoMemory>
    ensures { IfOk result (λ longer. longer ≡ text ++ 47 ∷ []) }
{
    let Text(mut text) = text;
    text.push('/')?;
    Ok(Text(text))
}
