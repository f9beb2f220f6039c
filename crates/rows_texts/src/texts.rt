//! Rows of texts that are shown. Behind each shown text stands a bar, so that its last blanks are seen.
use crate::fields::{put_text, text_of};
use mc_text::{Kind, drawn, fit, perm_text, size_text, time_text};
use rows_page::{Page, number, two_fields};

/// A text in so many columns.
pub fn tell_fitted(page: &mut Page, fields: &str) {
    let (text, columns) = two_fields(fields, '|');
    let text = text_of(page, text);
    put_text(page, fit(page.alloc(), text.as_str(), number(columns)));
    page.put("|");
}

/// A second as it is shown at a second.
pub fn tell_time(page: &mut Page, fields: &str) {
    let (second, now) = two_fields(fields, '|');
    let second = second.parse().unwrap_or(0);
    let now = now.parse().unwrap_or(0);
    put_text(page, time_text(page.alloc(), second, now));
    page.put("|");
}

/// A kind and a mode.
pub fn tell_mode(page: &mut Page, fields: &str) {
    let (kind, mode) = two_fields(fields, '|');
    let mode = u16::from_str_radix(mode, 8).unwrap_or(0);
    for letter in perm_text(kind_of(kind), mode) {
        page.tell(char::from(letter));
    }
}

fn kind_of(word: &str) -> Kind {
    match word {
        "file" => Kind::File,
        "folder" => Kind::Folder,
        "link" => Kind::Link,
        _ => Kind::Other,
    }
}

/// A size in so many columns.
pub fn tell_size(page: &mut Page, fields: &str) {
    let (size, columns) = two_fields(fields, '|');
    let size = size.parse().unwrap_or(0);
    put_text(page, size_text(page.alloc(), size, number(columns)));
    page.put("|");
}

/// A text as it is drawn.
pub fn tell_drawn(page: &mut Page, field: &str) {
    let text = text_of(page, field);
    put_text(page, drawn(page.alloc(), text.as_str()));
}
