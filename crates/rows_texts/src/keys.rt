//! Rows of keys as terminals spell them.
use key_screen::{Base, Key, KeyReader};
use rows_page::{Page, bytes_of};

/// The keys that these bytes complete, fed one by one, and how many bytes are left.
pub fn tell_keys(page: &mut Page, field: &str) {
    let bytes = bytes_of(page, field);
    let mut reader = KeyReader::new();
    for byte in &bytes {
        let fed = reader.feed(*byte);
        tell(page, fed.first);
        tell(page, fed.second);
    }
    page.tell(format_args!("({} left)", reader.pending()));
}

/// Writes a key, and a blank behind it.
fn tell(page: &mut Page, key: Option<Key>) {
    if let Some(key) = key {
        page.put(if key.meta { "M-" } else { "" });
        tell_base(page, key.base);
        page.put(" ");
    }
}

/// A key's name: a character of ASCII that is seen is itself, another has its number.
fn tell_base(page: &mut Page, base: Base) {
    match base {
        Base::Char(character) if character.is_ascii_graphic() => page.tell(character),
        Base::Char(character) => page.tell(format_args!("U+{:04X}", character as u32)),
        Base::Ctrl(code) => page.tell(format_args!("C-{}", code as char)),
        Base::F(number) => page.tell(format_args!("F{number}")),
        named => page.tell(format_args!("{named:?}")),
    }
}
