//! The fields of a row.
use mc_text::{NoMemory, Text};
use rows_page::{Page, bytes_of};
use std::convert::AsStr;

/// The text of a field, in which `\xHH` stands for a byte.
pub fn text_of(page: &mut Page, field: &str) -> String {
    let bytes = bytes_of(page, field);
    match String::from_utf8(bytes) {
        Ok(text) => text,
        Err(_error) => {
            page.fail();
            String::new(page.alloc())
        }
    }
}

/// Writes a text that a call gave.
pub fn put_text(page: &mut Page, text: Result<Text, NoMemory>) {
    match text {
        Ok(text) => page.put(text.as_str()),
        Err(_error) => page.fail(),
    }
}

/// Writes bytes as a field has them: those of printable ASCII, and `\xHH` for the others.
pub fn put_spelled(page: &mut Page, bytes: &[u8]) {
    for byte in bytes {
        if matches!(*byte, 32..=126) {
            page.tell(char::from(*byte));
        } else {
            page.tell(format_args!("\\x{byte:02x}"));
        }
    }
}
