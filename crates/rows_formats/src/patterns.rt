//! Rows of patterns.
use mc_text::{NoMemory, Texts};
use rows_page::{Page, two_fields};
use std::convert::AsStr;
use tagging::{Pattern, PatternError, ShellPattern};

pub fn answer(page: &mut Page, row: &str) {
    let (call, fields) = two_fields(row, '|');
    let (pattern, name) = two_fields(fields, '|');
    match call {
        "matches" => tell_match(page, pattern, name),
        "captures" => tell_captures(page, pattern, name),
        "shell" => tell_found(page, Pattern::shell(page.alloc(), pattern), name),
        "regex" => tell_found(page, Pattern::regex(page.alloc(), pattern), name),
        _ => page.fail(),
    }
}

/// Whether a name matches a shell pattern, or why the text is none.
fn tell_match(page: &mut Page, pattern: &str, name: &str) {
    match ShellPattern::parse(page.alloc(), pattern) {
        Ok(pattern) => page.tell(pattern.matches(name)),
        Err(error) => page.tell(format_args!("{error:?}")),
    }
}

/// What the wildcards take of a name, a bar behind each.
fn tell_captures(page: &mut Page, pattern: &str, name: &str) {
    match ShellPattern::parse(page.alloc(), pattern) {
        Ok(pattern) => tell_texts(page, pattern.captures(page.alloc(), name)),
        Err(_error) => page.fail(),
    }
}

fn tell_texts(page: &mut Page, captures: Result<Option<Texts>, NoMemory>) {
    match captures {
        Ok(Some(texts)) => tell_each(page, &texts),
        Ok(None) => page.put("none"),
        Err(_error) => page.fail(),
    }
}

fn tell_each(page: &mut Page, texts: &Texts) {
    page.put("|");
    for text in texts.as_slice() {
        page.put(text.as_str());
        page.put("|");
    }
}

fn tell_found(page: &mut Page, pattern: Result<Pattern, PatternError>, name: &str) {
    match pattern {
        Ok(pattern) => tell_whether(page, pattern.matches(page.alloc(), name)),
        Err(error) => page.tell(format_args!("{error:?}")),
    }
}

fn tell_whether(page: &mut Page, found: Result<bool, NoMemory>) {
    match found {
        Ok(found) => page.tell(found),
        Err(_error) => page.fail(),
    }
}
