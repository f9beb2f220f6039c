//! One line of a hotlist's file.
ghost use Rattle.std.specs.Prelude.{◌≡◌, ◌≢◌, ◌<◌, ◌≤◌, ◌∷◌, ◌++◌, ℕ, List, length, encode_utf8};
ghost use Rattle.std.specs.Prelude.{IfOk, IfSome, MatchOption, None, false, option_map};
ghost use Rattle.hotlist.specs.HotLines.{behind_word, without_blanks, behind_blanks, up_to_quote};
ghost use Rattle.hotlist.specs.HotLines.{quoted_text, spaced_text, entry_line, group_line};
ghost use Rattle.hotlist.specs.HotLines.{parsed_or_bad, reading_of, reading_of_words};
ghost use Rattle.hotlist.specs.LineViews.{parsed_line, reading_view, read_view};
ghost use Rattle.hotlist.specs.LineViews.{with_bytes, path_behind, reading_of_text};

use mc_text::{NoMemory, Text};
use std::alloc::Global;
use text_scan::first_char;

/// What a line says.
#[derive(Drop)]
pub enum HotLine {
    Entry { label: Text, path: Text },
    Group { label: Text },
    End,
}

/// What is read of a line: nothing, what it says, or that it is bad.
#[derive(Drop)]
pub enum LineRead {
    Passed,
    Said(HotLine),
    Bad,
}

/// Reads a line.
pub fn read_line(alloc: Global, line: &str) -> Result<LineRead, NoMemory>
    ensures { IfOk result (λ read. reading_view read ≡ reading_of line.now) }
{
    let words = unindented(line);
    if words.is_empty() {
        return Ok(LineRead::Passed);
    }
    match behind_mark(words, '#') {
        Some(_) => Ok(LineRead::Passed),
        None => read_words(alloc, words),
    }
}

/// The line without leading blanks and tabs.
fn unindented(line: &str) -> &str
    ensures { reading_of line.now ≡ reading_of_words result.now }
{
    let mut words = line;
    while let Some(behind) = behind_indent(words) {
        words = behind;
    }
    words
}

/// The text behind a blank or tab with which it begins.
fn behind_indent(text: &str) -> Option<&str>
    ensures indent { MatchOption result (reading_of text.now ≡ reading_of_words text.now) (λ rest.
        reading_of text.now ≡ reading_of rest.now) }
    ensures shorter { IfSome result (λ rest. length rest.now < length text.now) }
{
    if let Some(rest) = behind_mark(text, ' ') {
        return Some(rest);
    }
    match behind_mark(text, '\t') {
        Some(rest) => Some(rest),
        None => None,
    }
}

/// The text behind a mark with which it begins. The mark is ASCII.
fn behind_mark(text: &str, mark: char) -> Option<&str>
    requires { mark < 128 }
    ensures found { MatchOption result ((rest : List ℕ) → text.now ≢ mark ∷ rest)
        (λ rest. text.now ≡ mark ∷ rest.now) }
{
    text.strip_prefix(mark)
}

/// Reads a line that is neither empty nor a comment, by its first word.
fn read_words(alloc: Global, words: &str) -> Result<LineRead, NoMemory>
    ensures { IfOk result (λ read. reading_view read ≡ reading_of_text words.now) }
{
    if let Some(text) = behind_word(words, "ENTRY") {
        let entry = read_entry(alloc, text)?;
        return Ok(said_or_bad(entry));
    }
    if let Some(text) = behind_word(words, "GROUP") {
        let group = read_group(alloc, text)?;
        return Ok(said_or_bad(group));
    }
    match behind_word(words, "ENDGROUP") {
        Some("") => Ok(LineRead::Said(HotLine::End)),
        _ => Ok(LineRead::Bad),
    }
}

/// What a line says, or that it is bad.
fn said_or_bad(line: Option<HotLine>) -> LineRead
    ensures { reading_view result ≡ parsed_or_bad (option_map parsed_line line) }
{
    match line {
        Some(line) => LineRead::Said(line),
        None => LineRead::Bad,
    }
}

/// The entry behind its first word.
fn read_entry(alloc: Global, text: &str) -> Result<Option<HotLine>, NoMemory>
    ensures { IfOk result (λ line. option_map parsed_line line ≡ entry_line text.now) }
{
    let Some((label, rest)) = spaced_text(alloc, text)? else {
        return Ok(None);
    };
    let Some((path, rest)) = path_behind(alloc, rest)? else {
        return Ok(None);
    };
    if rest.is_empty() {
        Ok(Some(HotLine::Entry { label, path }))
    } else {
        Ok(None)
    }
}

/// An entry's path behind its label, and the text behind that.
fn path_behind(alloc: Global, text: &str) -> Result<Option<(Text, &str)>, NoMemory>
    ensures { IfOk result (λ read. read_view read ≡ path_behind text.now) }
{
    let Some(words) = behind_blanks(text) else {
        return Ok(None);
    };
    let Some(rest) = behind_word(words, "URL") else {
        return Ok(None);
    };
    spaced_text(alloc, rest)
}

/// The begin of a group behind its first word.
fn read_group(alloc: Global, text: &str) -> Result<Option<HotLine>, NoMemory>
    ensures { IfOk result (λ line. option_map parsed_line line ≡ group_line text.now) }
{
    let Some((label, rest)) = spaced_text(alloc, text)? else {
        return Ok(None);
    };
    if rest.is_empty() {
        Ok(Some(HotLine::Group { label }))
    } else {
        Ok(None)
    }
}

/// The text behind a word with which it begins.
fn behind_word<'a>(text: &'a str, word: &str) -> Option<&'a str>
    ensures { option_map (λ rest. rest.now) result ≡ behind_word word.now text.now }
{
    text.strip_prefix(word)
}

/// The text behind its leading blanks, of which there is one at least.
fn behind_blanks(text: &str) -> Option<&str>
    ensures { option_map (λ rest. rest.now) result ≡ behind_blanks text.now }
{
    match behind_mark(text, ' ') {
        Some(rest) => Some(without_blanks(rest)),
        None => None,
    }
}

/// The text behind its leading blanks.
fn without_blanks(text: &str) -> &str
    ensures { result.now ≡ without_blanks text.now }
{
    let mut rest = text;
    while let Some(behind) = behind_mark(rest, ' ') {
        rest = behind;
    }
    rest
}

/// A text in quotes behind blanks, and the text behind it.
fn spaced_text(alloc: Global, text: &str) -> Result<Option<(Text, &str)>, NoMemory>
    ensures { IfOk result (λ read. read_view read ≡ spaced_text text.now) }
{
    match behind_blanks(text) {
        Some(words) => quoted_text(alloc, words),
        None => Ok(None),
    }
}

/// A text in quotes, and the text behind it.
fn quoted_text(alloc: Global, text: &str) -> Result<Option<(Text, &str)>, NoMemory>
    ensures { IfOk result (λ read. read_view read ≡ quoted_text text.now) }
{
    match behind_mark(text, '"') {
        Some(behind) => up_to_quote(alloc, behind),
        None => Ok(None),
    }
}

/// A text up to the quote that ends it, and the text behind that.
fn up_to_quote(alloc: Global, text: &str) -> Result<Option<(Text, &str)>, NoMemory>
    ensures { IfOk result (λ read. read_view read ≡ up_to_quote false text.now) }
{
    let mut read = String::new(alloc);
    let mut rest = text;
    while let Some((character, behind)) = first_char(rest) {
        if character == '"' {
            return Ok(Some((Text(read), behind)));
        }
        let Some((plain, more)) = plain_character(character, behind) else {
            return Ok(None);
        };
        read.push(plain)?;
        rest = more;
    }
    Ok(None)
}

/// What the character at the front of a quoted text means with the text behind it, which a
/// backslash reads on from.
fn plain_character(character: char, behind: &str) -> Option<(char, &str)>
    requires { character ≢ 34 }
    ensures read { MatchOption result (up_to_quote false (encode_utf8 character ++ behind.now) ≡ None)
        (λ (plain, more). up_to_quote false (encode_utf8 character ++ behind.now)
        ≡ with_bytes (encode_utf8 plain) (up_to_quote false more.now)) }
    ensures shorter { IfSome result (λ (plain, more). length more.now ≤ length behind.now) }
{
    if character != '\\' {
        return Some((character, behind));
    }
    if let Some(more) = behind_mark(behind, '"') {
        return Some(('"', more));
    }
    match behind_mark(behind, '\\') {
        Some(more) => Some(('\\', more)),
        None => None,
    }
}
