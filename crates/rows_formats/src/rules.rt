//! Rows of extension files.
use crate::files::{file_of, repeated};
use crate::fronts::tell_new;
use ext_rules::{Act, Rules, action, parse_ext};
use mc_text::Kind;
use rows_page::{Page, number, two_fields};
use std::convert::AsStr;

/// What a row asks of an extension file: what is to be done, with a thing of this kind and name.
#[derive(Clone, Copy)]
struct Asked<'a> {
    act: Act,
    kind: Kind,
    name: &'a str,
}

pub fn answer(page: &mut Page, row: &str) {
    let (call, fields) = two_fields(row, '|');
    match call {
        "fronts" => tell_fronts(page, fields),
        "brackets" => tell_brackets(page, number(fields)),
        asked => tell_asked(page, asked_of(asked), fields),
    }
}

/// An act, a kind and a name.
fn asked_of(words: &str) -> Asked<'_> {
    let (act, thing) = two_fields(words, ' ');
    let (kind, name) = two_fields(thing, ' ');
    Asked {
        act: act_of(act),
        kind: kind_of(kind),
        name,
    }
}

fn act_of(word: &str) -> Act {
    match word {
        "launch" => Act::Launch,
        "show" => Act::Show,
        _ => Act::Change,
    }
}

fn kind_of(word: &str) -> Kind {
    match word {
        "file" => Kind::File,
        "folder" => Kind::Folder,
        "link" => Kind::Link,
        _ => Kind::Other,
    }
}

fn tell_asked(page: &mut Page, asked: Asked<'_>, file: &str) {
    let Ok(file) = file_of(page.alloc(), file) else {
        return page.fail();
    };
    match parse_ext(page.alloc(), file.0.as_slice()) {
        Ok(rules) => tell_command(page, &rules, asked),
        Err(error) => page.tell(format_args!("{error:?}")),
    }
}

/// The command for a thing.
fn tell_command(page: &mut Page, rules: &Rules, asked: Asked<'_>) {
    match action(page.alloc(), rules, asked.name, asked.kind, asked.act) {
        Ok(Some(command)) => page.put(command.as_str()),
        Ok(None) => page.put("none"),
        Err(_error) => page.fail(),
    }
}

/// What comes of each front of a file.
fn tell_fronts(page: &mut Page, file: &str) {
    match file_of(page.alloc(), file) {
        Ok(file) => tell_each_front(page, file.0.as_slice()),
        Err(_error) => page.fail(),
    }
}

fn tell_each_front(page: &mut Page, file: &[u8]) {
    let mut last = Page::new(page.alloc());
    for length in 0..file.len().saturating_add(1) {
        let mut answer = Page::new(page.alloc());
        tell_opened(&mut answer, file.get(..length).unwrap_or(b""));
        tell_new(page, length, answer, &mut last);
    }
}

/// What a file says of opening four things, each behind a comma, or why it is refused.
fn tell_opened(page: &mut Page, file: &[u8]) {
    match parse_ext(page.alloc(), file) {
        Ok(rules) => tell_four(page, &rules),
        Err(error) => page.tell(format_args!("{error:?}")),
    }
}

fn tell_four(page: &mut Page, rules: &Rules) {
    tell_command(page, rules, opening(Kind::File, "a.c"));
    page.put(", ");
    tell_command(page, rules, opening(Kind::File, "README"));
    page.put(", ");
    tell_command(page, rules, opening(Kind::Folder, "src"));
    page.put(", ");
    tell_command(page, rules, opening(Kind::Other, "日"));
    page.put(".");
}

fn opening(kind: Kind, name: &str) -> Asked<'_> {
    Asked {
        act: Act::Launch,
        kind,
        name,
    }
}

/// So many open brackets, as a line and as a regular expression.
fn tell_brackets(page: &mut Page, count: usize) {
    let line = repeated(page.alloc(), "[", count);
    tell_opened(page, line.text().as_bytes());
    page.put(" ");
    let mut regex = Page::new(page.alloc());
    regex.put("regex/");
    regex.put(line.text());
    tell_opened(page, regex.text().as_bytes());
}
