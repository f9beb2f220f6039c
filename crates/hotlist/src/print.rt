//! The file of a hotlist, printed.
ghost use Rattle.std.specs.Prelude.{◌≡◌, ◌+◌, ◌-◌, ◌≤◌, ◌∷◌, ◌++◌, [], true};
ghost use Rattle.std.specs.Prelude.{OnOk, IfOk, string_bytes, encode_utf8};
ghost use Rattle.std.specs.List.{flat_map};
ghost use Rattle.hotlist.specs.HotLists.{NoMore, AreOneLine, before, list_of, is_within};
ghost use Rattle.hotlist.specs.HotFiles.{IsHotlist};
ghost use Rattle.hotlist.specs.ListViews.{list_in};
ghost use Rattle.hotlist.specs.Printed.{escaped_byte, in_quotes, indent, entry_words};
ghost use Rattle.hotlist.specs.Printed.{group_words, end_words, line_of, printed_list};

use crate::items::HotItem;
use crate::list::Hotlist;
use mc_text::{Bytes, NoMemory, Text};
use std::alloc::Global;
use std::convert::AsStr;
use text_scan::first_char;

/// Prints a hotlist. Where no label and no path holds a newline, the file is read back as the list.
pub fn print_hotlist(alloc: Global, list: &Hotlist) -> Result<Bytes, NoMemory>
    ensures printed { IfOk result (λ bytes. bytes ≡ printed_list 0 (list_in list.now)) }
    ensures read_back { IfOk result
        (λ bytes. AreOneLine (list_in list.now) → IsHotlist bytes (list_in list.now)) }
{
    let mut text = String::new(alloc);
    print_items(&mut text, list.items.as_slice(), 0)?;
    Ok(Bytes(text.into_bytes()))
}

/// Prints items that have so many groups around them.
#[cycle(printing)]
fn print_items(text: &mut String, items: &[HotItem], depth: usize) -> Result<(), NoMemory>
    requires depth { depth ≤ 32 }
    requires nested { is_within (32 - depth) (list_of items.now) ≡ true }
    ensures { OnOk result
        (string_bytes text.new ≡ string_bytes text.old ++ printed_list depth (list_of items.now)) }
{
    for item in items {
        print_item(text, item, depth)?;
    }
    Ok(())
}

/// Prints an item that has so many groups around it.
#[cycle(printing)]
fn print_item(text: &mut String, item: &HotItem, depth: usize) -> Result<(), NoMemory>
    requires depth { depth ≤ 32 }
    requires nested { is_within (32 - depth) (before item.now NoMore) ≡ true }
    ensures { OnOk result
        (string_bytes text.new ≡ string_bytes text.old ++ printed_list depth (before item.now NoMore)) }
{
    match item {
        HotItem::Entry { label, path } => print_entry(text, depth, label, path),
        HotItem::Group { label, items } => {
            print_group_line(text, depth, label)?;
            print_items(text, items.as_slice(), depth + 1)?;
            print_end_line(text, depth)
        }
    }
}

/// Prints the line of an entry.
fn print_entry(text: &mut String, depth: usize, label: &Text, path: &Text) -> Result<(), NoMemory>
    ensures { OnOk result
        (string_bytes text.new ≡ string_bytes text.old ++ line_of depth (entry_words label.now path.now)) }
{
    push_indent(text, depth)?;
    text.push_str("ENTRY \"")?;
    push_escaped(text, label.as_str())?;
    text.push_str("\" URL \"")?;
    push_escaped(text, path.as_str())?;
    text.push_str("\"\n")?;
    Ok(())
}

/// Prints the line at which a group begins.
fn print_group_line(text: &mut String, depth: usize, label: &Text) -> Result<(), NoMemory>
    ensures { OnOk result
        (string_bytes text.new ≡ string_bytes text.old ++ line_of depth (group_words label.now)) }
{
    push_indent(text, depth)?;
    text.push_str("GROUP \"")?;
    push_escaped(text, label.as_str())?;
    text.push_str("\"\n")?;
    Ok(())
}

/// Prints the line at which a group ends.
fn print_end_line(text: &mut String, depth: usize) -> Result<(), NoMemory>
    ensures { OnOk result (string_bytes text.new ≡ string_bytes text.old ++ line_of depth end_words) }
{
    push_indent(text, depth)?;
    text.push_str("ENDGROUP\n")?;
    Ok(())
}

/// Puts two blanks at the end for each group around a line.
fn push_indent(text: &mut String, depth: usize) -> Result<(), NoMemory>
    ensures { OnOk result (string_bytes text.new ≡ string_bytes text.old ++ indent depth []) }
{
    for _ in 0..depth {
        text.push_str("  ")?;
    }
    Ok(())
}

/// Puts a text at the end, with a backslash before each quote and backslash.
fn push_escaped(text: &mut String, plain: &str) -> Result<(), NoMemory>
    ensures { OnOk result (string_bytes text.new ≡ string_bytes text.old ++ flat_map escaped_byte plain.now) }
{
    let mut rest = plain;
    while let Some((character, behind)) = first_char(rest) {
        push_character(text, character)?;
        rest = behind;
    }
    Ok(())
}

/// Puts a character at the end, behind a backslash where it is a quote or a backslash.
fn push_character(text: &mut String, character: char) -> Result<(), NoMemory>
    ensures { OnOk result
        (string_bytes text.new ≡ string_bytes text.old ++ flat_map escaped_byte (encode_utf8 character)) }
{
    match character {
        '"' => text.push_str("\\\"")?,
        '\\' => text.push_str("\\\\")?,
        _ => text.push(character)?,
    }
    Ok(())
}
