//! Keys by their names.
use key_screen::{Base, Key};
use rows_page::Page;

/// The keys of these words.
pub fn keys_of(page: &mut Page, words: &str) -> Vec<Key> {
    let mut keys = Vec::new(page.alloc());
    for word in words.split(' ') {
        page.need(keys.push(key_of(word)).is_ok());
    }
    keys
}

fn key_of(word: &str) -> Key {
    match word.strip_prefix("M-") {
        Some(rest) => Key {
            meta: true,
            base: base_of(rest),
        },
        None => Key {
            meta: false,
            base: base_of(word),
        },
    }
}

fn base_of(word: &str) -> Base {
    match word {
        "enter" => Base::Enter,
        "escape" => Base::Escape,
        "space" => Base::Char(' '),
        "C-a" => Base::Ctrl(b'a'),
        "C-e" => Base::Ctrl(b'e'),
        "C-k" => Base::Ctrl(b'k'),
        "C-u" => Base::Ctrl(b'u'),
        _ => editing(word),
    }
}

/// A key that moves the cursor or deletes, or else a character.
fn editing(word: &str) -> Base {
    match word {
        "up" => Base::Up,
        "down" => Base::Down,
        "left" => Base::Left,
        "right" => Base::Right,
        "home" => Base::Home,
        "end" => Base::End,
        "pgup" => Base::PgUp,
        "pgdn" => Base::PgDn,
        "delete" => Base::Delete,
        "backspace" => Base::Backspace,
        _ => function_key(word),
    }
}

/// A function key, or else a character.
fn function_key(word: &str) -> Base {
    match word.strip_prefix('F') {
        Some(number) if !number.is_empty() => Base::F(number.parse().unwrap_or(0)),
        _ => first_character(word),
    }
}

fn first_character(word: &str) -> Base {
    match word.chars().next() {
        Some(code) => Base::Char(code),
        None => Base::Unknown,
    }
}
