//! The fields of a row. What is missing is empty, or nought: its answer then is another one than is expected.
use crate::page::Page;
use std::alloc::Global;

/// Two fields with a mark between them.
pub fn two_fields(fields: &str, mark: char) -> (&str, &str) {
    fields.split_once(mark).unwrap_or((fields, ""))
}

/// The number that a field spells.
pub fn number(field: &str) -> usize {
    field.parse().unwrap_or(0)
}

/// A part over and over.
pub fn repeated(alloc: Global, part: &str, count: usize) -> Page {
    let mut text = Page::new(alloc);
    for _ in 0..count {
        text.put(part);
    }
    text
}

/// The bytes of a field, in which `\n` stands for a newline, `\t` for a tab, and `\xHH` for a byte.
pub fn bytes_of(page: &mut Page, field: &str) -> Vec<u8> {
    let mut bytes = Vec::new(page.alloc());
    let mut pieces = field.split('\\');
    if let Some(plain) = pieces.next() {
        page.need(bytes.extend_from_slice(plain.as_bytes()).is_ok());
    }
    for piece in pieces {
        push_escaped(page, &mut bytes, piece);
    }
    bytes
}

/// The byte that stands behind a backslash, and the plain text behind it.
fn push_escaped(page: &mut Page, bytes: &mut Vec<u8>, piece: &str) {
    match escaped(piece) {
        Some((byte, plain)) => {
            page.need(bytes.push(byte).is_ok());
            page.need(bytes.extend_from_slice(plain.as_bytes()).is_ok());
        }
        None => page.fail(),
    }
}

fn escaped(piece: &str) -> Option<(u8, &str)> {
    if let Some(plain) = piece.strip_prefix("n") {
        return Some((b'\n', plain));
    }
    if let Some(plain) = piece.strip_prefix("t") {
        return Some((b'\t', plain));
    }
    let (digits, plain) = piece.split_at_checked(3)?;
    let byte = u8::from_str_radix(digits.strip_prefix("x")?, 16).ok()?;
    Some((byte, plain))
}
