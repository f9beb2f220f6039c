//! Reading a format.
ghost use Rattle.std.specs.Prelude.{◌≡◌, ◌≢◌, ◌+◌, ◌<◌, ◌≤◌, ◌^◌, ◌==◌, length};
ghost use Rattle.std.specs.Prelude.{option_map, Ok, Err, IfOk, IfErr, IfSome};
ghost use Rattle.std.specs.List.{position};
ghost use Rattle.std.specs.Str.{bytes_eq};
ghost use Rattle.panel_listing.specs.FormatTexts.{format_of, words_from, column_of, columns_of};
ghost use Rattle.panel_listing.specs.FormatTexts.{field_named, size_named, width_in, number_from};
ghost use Rattle.panel_listing.specs.FormatTexts.{is_colon, before_colon, behind_colon};
ghost use Rattle.panel_listing.specs.Words.{word_in};

use crate::error::FormatError;
use crate::format::{Column, Field, Format};
use crate::words::{Word, next_word};
use mc_text::NoMemory;
use std::alloc::Global;

impl Format {
    /// Reads a format: `half` or `full`, then the fields of its columns. Blanks, tabs and commas stand
    /// between them, and a bar is a field by itself. Behind a field may stand a colon and its width, from 1
    /// to 255. The first fault decides.
    pub fn parse(alloc: Global, text: &str) -> Result<Format, FormatError>
        ensures read { IfOk result (λ format. format_of text.now ≡ Ok format) }
        ensures refused { IfErr result (λ e. e ≢ FormatError.Memory → format_of text.now ≡ Err e) }
    {
        let Some((first, fields)) = next_word(0, text.as_bytes()) else {
            return Err(FormatError::NoSize(0));
        };
        let Some(full) = size_named(first.text) else {
            return Err(FormatError::NoSize(0));
        };
        let columns = columns_of(alloc, first.at + first.text.len(), fields)?;
        Ok(Format::of(full, columns))
    }
}

/// The size of a format: `half` or `full`, which is true.
#[tactic(auto, unfolding(crate::specs::FormatTexts::size_named))]
fn size_named(name: &[u8]) -> Option<bool>
    ensures { result ≡ size_named name.now }
{
    if is(name, "half") {
        return Some(false);
    }
    if is(name, "full") {
        return Some(true);
    }
    None
}

/// The columns that the words of a text mean, whose first byte stands at this place.
fn columns_of(alloc: Global, at: usize, text: &[u8]) -> Result<Vec<Column>, FormatError>
    requires { at + length text.now < 2 ^ 64 }
    ensures read { IfOk result (λ columns. columns_of (words_from at text.now) ≡ Ok columns.items) }
    ensures refused { IfErr result
        (λ e. e ≢ FormatError.Memory → columns_of (words_from at text.now) ≡ Err e) }
{
    let mut columns = Vec::new(alloc);
    let mut from = at;
    let mut rest = text;
    while let Some((word, behind)) = next_word(from, rest) {
        let column = column_of(word)?;
        columns.push(column).map_err(NoMemory::from)?;
        from = word.at + word.text.len();
        rest = behind;
    }
    Ok(columns)
}

/// The column that a word means.
fn column_of(word: Word) -> Result<Column, FormatError>
    requires { word.at + length word.text.now < 2 ^ 64 }
    ensures { result ≡ column_of (word_in word.entry) }
{
    let name = before_colon(word.text);
    let Some(field) = field_named(name) else {
        return Err(FormatError::UnknownField(word.at));
    };
    let Some(told) = behind_colon(word.text) else {
        return Ok(Column { field, width: None });
    };
    let Some(width) = width_in(told) else {
        return Err(FormatError::BadWidth(word.at + name.len() + 1));
    };
    Ok(Column {
        field,
        width: Some(width),
    })
}

/// What a word says before its first colon.
fn before_colon(word: &[u8]) -> &[u8]
    ensures { result.now ≡ before_colon word.now }
{
    match colon_in(word) {
        Some(at) => &word[..at],
        None => word,
    }
}

/// What a word says behind its first colon.
fn behind_colon(word: &[u8]) -> Option<&[u8]>
    ensures told { option_map (λ told. told.now) result ≡ behind_colon word.now }
    ensures within { IfSome result (λ _. length (before_colon word.now) < length word.now) }
{
    match colon_in(word) {
        Some(at) => Some(&word[at + 1..]),
        None => None,
    }
}

/// Where the first colon stands.
fn colon_in(word: &[u8]) -> Option<usize>
    ensures first { result ≡ position is_colon word.now }
    ensures within { IfSome result (λ at. at < length word.now) }
{
    word.iter().position(|byte| *byte == b':')
}

/// The width that is told: a number from 1 to 255, of one to three digits.
fn width_in(text: &[u8]) -> Option<u8>
    ensures { result ≡ width_in text.now }
{
    if text.len() > 3 {
        return None;
    }
    match number_in(text) {
        Some(number) if 1 <= number && number <= 255 => Some(number as u8),
        _ => None,
    }
}

/// The number that these digits spell.
fn number_in(digits: &[u8]) -> Option<u16>
    requires { length digits.now ≤ 3 }
    ensures { result ≡ number_from 0 digits.now }
{
    let mut number = 0u16;
    let mut rest = digits;
    while let Some((digit, more)) = rest.split_first() {
        if *digit < b'0' || b'9' < *digit {
            return None;
        }
        number = number * 10 + (*digit - b'0') as u16;
        rest = more;
    }
    Some(number)
}

/// The field of this name.
#[tactic(auto, unfolding(crate::specs::FormatTexts::field_named))]
fn field_named(name: &[u8]) -> Option<Field>
    ensures { result ≡ field_named name.now }
{
    if is(name, "name") {
        return Some(Field::Name);
    }
    if is(name, "size") {
        return Some(Field::Size);
    }
    if is(name, "bsize") {
        return Some(Field::FileSize);
    }
    if is(name, "type") {
        return Some(Field::TypeLetter);
    }
    if is(name, "mtime") {
        return Some(Field::Mtime);
    }
    if is(name, "perm") {
        return Some(Field::Permissions);
    }
    if is(name, "mark") {
        return Some(Field::Mark);
    }
    if is(name, "space") {
        return Some(Field::Space);
    }
    if is(name, "|") {
        return Some(Field::Bar);
    }
    None
}

/// Whether a word is this one.
fn is(word: &[u8], name: &str) -> bool
    ensures { result ≡ bytes_eq word.now name.now }
{
    word == name.as_bytes()
}
