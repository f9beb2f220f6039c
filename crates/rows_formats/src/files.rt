//! Files as rows spell them.
use mc_text::{Bytes, NoMemory};
use rows_page::Page;
use std::alloc::Global;

/// The bytes of a file: `|` is a newline, `_` a tab, and `!` a byte that is no text.
pub fn file_of(alloc: Global, field: &str) -> Result<Bytes, NoMemory> {
    let mut file = Bytes::from_slice(alloc, field.as_bytes())?;
    for byte in file.0.iter_mut() {
        *byte = meant(*byte);
    }
    Ok(file)
}

fn meant(byte: u8) -> u8 {
    match byte {
        b'|' => b'\n',
        b'_' => b'\t',
        b'!' => 0xff,
        other => other,
    }
}

/// Writes a text with a bar for each newline.
pub fn put_in_one_line(page: &mut Page, text: &str) {
    let mut lines = text.split('\n');
    page.put(lines.next().unwrap_or(""));
    for line in lines {
        page.put("|");
        page.put(line);
    }
}

/// A text over and over.
pub fn repeated(alloc: Global, part: &str, count: usize) -> Page {
    let mut text = Page::new(alloc);
    for _ in 0..count {
        text.put(part);
    }
    text
}
