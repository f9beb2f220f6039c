//! Rows of tags, and of the comparison of two folders.
use mc_text::{Name, NameError, Names, NoMemory};
use rows_page::{Page, number, two_fields};
use std::alloc::Global;
use tagging::{FileFact, Pattern, PatternError, Tags, compare_quick};

pub fn answer(page: &mut Page, row: &str) {
    let (call, fields) = two_fields(row, '|');
    let (first, second) = two_fields(fields, '|');
    match call {
        "after" => tell_tagged(page, first, second),
        "compare" => tell_compared(page, first, second),
        _ => page.fail(),
    }
}

/// Names, and changes of their tags with blanks between them: the tagged names after each change.
fn tell_tagged(page: &mut Page, names: &str, changes: &str) {
    match names_of(page.alloc(), names) {
        Ok(names) => tell_after_each(page, &names, changes),
        Err(_error) => page.fail(),
    }
}

fn tell_after_each(page: &mut Page, names: &Names, changes: &str) {
    let mut tags = Tags::new(page.alloc());
    for change in changes.split(' ') {
        let changed = change_tags(page.alloc(), &mut tags, names, change);
        page.need(changed);
        tell_names(page, tags.list(page.alloc(), names));
    }
}

fn names_of(alloc: Global, field: &str) -> Result<Names, NameError> {
    let mut names = Names::new(alloc);
    add_names(alloc, &mut names, field)?;
    Ok(names)
}

fn add_names(alloc: Global, names: &mut Names, field: &str) -> Result<(), NameError> {
    for text in field.split(' ') {
        add_name(alloc, names, text)?;
    }
    Ok(())
}

fn add_name(alloc: Global, names: &mut Names, text: &str) -> Result<(), NameError> {
    let name = Name::new(alloc, text)?;
    match names.push(name) {
        Ok(()) => Ok(()),
        Err(NoMemory) => Err(NameError::Memory),
    }
}

/// A change, and what it is about behind a colon; whether it was made.
fn change_tags(alloc: Global, tags: &mut Tags, names: &Names, change: &str) -> bool {
    let (kind, about) = two_fields(change, ':');
    match kind {
        "toggle" => toggle(alloc, tags, about),
        "select" => select(alloc, tags, names, Pattern::shell(alloc, about)),
        "search" => select(alloc, tags, names, Pattern::regex(alloc, about)),
        "unselect" => unselect(alloc, tags, names, Pattern::regex(alloc, about)),
        "invert" => tags.invert(alloc, names).is_ok(),
        "copy" => copy(alloc, tags),
        _ => {
            tags.untag();
            true
        }
    }
}

/// Changes the tag of a name; whether the answer says how it stands then.
fn toggle(alloc: Global, tags: &mut Tags, name: &str) -> bool {
    match Name::new(alloc, name) {
        Ok(name) => tags.toggle(alloc, &name) == Ok(tags.has(name.text())),
        Err(_error) => false,
    }
}

fn select(
    alloc: Global,
    tags: &mut Tags,
    names: &Names,
    pattern: Result<Pattern, PatternError>,
) -> bool {
    match pattern {
        Ok(pattern) => tags.select(alloc, names, &pattern).is_ok(),
        Err(_error) => false,
    }
}

fn unselect(
    alloc: Global,
    tags: &mut Tags,
    names: &Names,
    pattern: Result<Pattern, PatternError>,
) -> bool {
    match pattern {
        Ok(pattern) => tags.unselect(alloc, names, &pattern).is_ok(),
        Err(_error) => false,
    }
}

fn copy(alloc: Global, tags: &mut Tags) -> bool {
    match tags.copy(alloc) {
        Ok(copied) => {
            *tags = copied;
            true
        }
        Err(_error) => false,
    }
}

/// Names with a blank behind each, and a bar behind all.
fn tell_names(page: &mut Page, names: Result<Names, NoMemory>) {
    match names {
        Ok(names) => tell_each(page, &names),
        Err(_error) => page.fail(),
    }
}

fn tell_each(page: &mut Page, names: &Names) {
    for name in names.as_slice() {
        page.put(name.text());
        page.put(" ");
    }
    page.put("|");
}

/// The names that each of two folders gives.
fn tell_compared(page: &mut Page, left: &str, right: &str) {
    let left = facts_of(page, left);
    let right = facts_of(page, right);
    match compare_quick(page.alloc(), left.as_slice(), right.as_slice()) {
        Ok((on_left, on_right)) => {
            tell_each(page, &on_left);
            tell_each(page, &on_right);
        }
        Err(_error) => page.fail(),
    }
}

fn facts_of(page: &mut Page, field: &str) -> Vec<FileFact> {
    let mut facts = Vec::new(page.alloc());
    for fact in field.split_terminator(';') {
        let added = add_fact(page.alloc(), &mut facts, fact);
        page.need(added);
    }
    facts
}

/// A name, a size and a second; whether there was memory for them.
fn add_fact(alloc: Global, facts: &mut Vec<FileFact>, field: &str) -> bool {
    let (name, numbers) = two_fields(field, ' ');
    let (size, second) = two_fields(numbers, ' ');
    match Name::new(alloc, name) {
        Ok(name) => facts
            .push(FileFact {
                name,
                size: number(size) as u64,
                mtime: second.parse().unwrap_or(0),
            })
            .is_ok(),
        Err(_error) => false,
    }
}
