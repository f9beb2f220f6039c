//! The fields of a row.
use mc_text::{Rows, Text};
use rows_page::Page;

/// A text; an empty one where memory is wanting.
pub fn text_of(page: &mut Page, field: &str) -> Text {
    match Text::from_str(page.alloc(), field) {
        Ok(text) => text,
        Err(_error) => {
            page.fail();
            Text(String::new(page.alloc()))
        }
    }
}

/// Texts with `;` between them, as rows. An empty field has none.
pub fn rows_of(page: &mut Page, field: &str) -> Rows {
    let mut rows = Rows::new(page.alloc());
    if field.is_empty() {
        return rows;
    }
    for text in field.split(';') {
        let text = text_of(page, text);
        page.need(rows.push(text).is_ok());
    }
    rows
}

/// The mode that a field spells with octal digits.
pub fn mode_of(field: &str) -> u16 {
    u16::from_str_radix(field, 8).unwrap_or(0)
}
