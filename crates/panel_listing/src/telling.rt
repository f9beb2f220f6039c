//! What the fields of a row say of an item, or of `..`, which is none.
ghost use Rattle.std.specs.Prelude.{◌≡◌, ◌∷◌, [], IfOk, option_copied};
ghost use Rattle.std.specs.Str.{IsUtf8};
ghost use Rattle.panel_listing.specs.RowTexts.{link_letter, type_letter, name_told, type_told};
ghost use Rattle.panel_listing.specs.RowTexts.{size_told, file_size_told, mtime_told};
ghost use Rattle.panel_listing.specs.RowTexts.{permissions_told, at_right, field_text, label};

use crate::format::Field;
use crate::item::{Item, LinkKind};
use crate::layout::Cell;
use mc_text::{Kind, NoMemory, Text, drawn, perm_text, push_blanks, size_text, time_text};
use std::alloc::Global;
use std::convert::AsStr;

/// What a field shows.
pub fn field_text(
    alloc: Global,
    cell: Cell,
    now: u64,
    tagged: bool,
    item: Option<&Item>,
) -> Result<Text, NoMemory>
    ensures { IfOk result
        (λ text. text ≡ field_text cell.field cell.width now tagged (option_copied item.entry)) }
{
    match cell.field {
        Field::Name => drawn(alloc, name_told(item)),
        Field::Size => at_right(alloc, cell.width, size_told(alloc, cell.width, item)?),
        Field::FileSize => at_right(alloc, cell.width, file_size_told(alloc, cell.width, item)?),
        Field::TypeLetter => type_told(alloc, item),
        Field::Mtime => mtime_told(alloc, now, item),
        Field::Permissions => permissions_told(alloc, item),
        Field::Mark => Text::from_str(alloc, if tagged { "*" } else { "" }),
        Field::Space => Text::from_str(alloc, ""),
        Field::Bar => Text::from_str(alloc, "|"),
    }
}

/// What stands over a field.
pub fn label(field: Field) -> &'static str
    ensures { result.now ≡ label field }
{
    match field {
        Field::Name => "Name",
        Field::Size | Field::FileSize => "Size",
        Field::Mtime => "Modify time",
        Field::Permissions => "Permission",
        Field::Bar => "|",
        Field::TypeLetter | Field::Mark | Field::Space => "",
    }
}

fn name_told(item: Option<&Item>) -> &str
    ensures { result.now ≡ name_told (option_copied item.entry) }
{
    match item {
        None => "..",
        Some(item) => item.name.text(),
    }
}

fn size_told(alloc: Global, width: usize, item: Option<&Item>) -> Result<Text, NoMemory>
    ensures { IfOk result (λ text. text ≡ size_told width (option_copied item.entry)) }
{
    match item {
        None => Text::from_str(alloc, "UP--DIR"),
        Some(item) => size_text(alloc, item.size, width),
    }
}

fn file_size_told(alloc: Global, width: usize, item: Option<&Item>) -> Result<Text, NoMemory>
    ensures { IfOk result (λ text. text ≡ file_size_told width (option_copied item.entry)) }
{
    match item {
        None => Text::from_str(alloc, "UP--DIR"),
        Some(item) => match item.kind {
            Kind::Folder => Text::from_str(alloc, "SUB-DIR"),
            Kind::File | Kind::Link | Kind::Other => size_text(alloc, item.size, width),
        },
    }
}

fn mtime_told(alloc: Global, now: u64, item: Option<&Item>) -> Result<Text, NoMemory>
    ensures { IfOk result (λ text. text ≡ mtime_told now (option_copied item.entry)) }
{
    match item {
        None => Text::from_str(alloc, ""),
        Some(item) => time_text(alloc, item.mtime, now),
    }
}

fn permissions_told(alloc: Global, item: Option<&Item>) -> Result<Text, NoMemory>
    ensures { IfOk result (λ text. text ≡ permissions_told (option_copied item.entry)) }
{
    match item {
        None => Text::from_str(alloc, ""),
        Some(item) => text_of(alloc, &perm_text(item.kind, item.mode)),
    }
}

fn type_told(alloc: Global, item: Option<&Item>) -> Result<Text, NoMemory>
    ensures { IfOk result (λ text. text ≡ type_told (option_copied item.entry)) }
{
    match item {
        None => Text::from_str(alloc, "/"),
        Some(item) => Text::from_str(alloc, type_letter(item.kind, item.link, item.mode)),
    }
}

/// The character that tells what kind of thing it is. A file that somebody may run has a star.
fn type_letter(kind: Kind, link: LinkKind, mode: u16) -> &'static str
    ensures { result.now ≡ type_letter kind link mode ∷ [] }
{
    match kind {
        Kind::File => runnable_letter(mode),
        Kind::Folder => "/",
        Kind::Link => link_letter(link),
        Kind::Other => "?",
    }
}

fn runnable_letter(mode: u16) -> &'static str
    ensures { result.now ≡ type_letter Kind.File LinkKind.NotLink mode ∷ [] }
{
    if mode & 0o111 == 0 { " " } else { "*" }
}

fn link_letter(link: LinkKind) -> &'static str
    ensures { result.now ≡ link_letter link ∷ [] }
{
    match link {
        LinkKind::ToFolder => "~",
        LinkKind::Stale => "!",
        LinkKind::NotLink | LinkKind::ToThing => "@",
    }
}

/// A text at the right of its place.
fn at_right(alloc: Global, width: usize, text: Text) -> Result<Text, NoMemory>
    ensures { IfOk result (λ line. line ≡ at_right width text) }
{
    let mut line = String::new(alloc);
    push_blanks(&mut line, width.saturating_sub(text.as_str().len()))?;
    line.push_str(text.as_str())?;
    Ok(Text(line))
}

/// A text of these bytes.
fn text_of(alloc: Global, bytes: &[u8]) -> Result<Text, NoMemory>
    requires { IsUtf8 bytes.now }
    ensures { IfOk result (λ text. text ≡ bytes.now) }
{
    match str::from_utf8(bytes) {
        Ok(text) => Text::from_str(alloc, text),
        Err(_) => unreachable!(),
    }
}
