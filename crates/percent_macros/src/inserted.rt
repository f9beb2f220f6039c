//! The text that stands in a macro's place.
ghost use Rattle.std.specs.Prelude.{◌≡◌, IfOk};
ghost use Rattle.percent_macros.specs.Inserted.{macro_text, joined_names, selected_names};

use crate::context::{Context, Side};
use crate::extension::name_parts;
use crate::macros::Macro;
use crate::quoting::quote;
use mc_text::{Name, NoMemory, Text};
use std::alloc::Global;
use std::convert::AsStr;

/// The text of a macro, with each name and folder quoted.
pub fn inserted(alloc: Global, context: &Context, meant: Macro) -> Result<Text, NoMemory>
    ensures { IfOk result (λ text. text ≡ macro_text context.now meant) }
{
    let here = &context.here;
    let other = &context.other;
    match meant {
        Macro::Percent => Text::from_str(alloc, "%"),
        Macro::CurrentHere => quote(alloc, here.current.as_str()),
        Macro::CurrentOther => quote(alloc, other.current.as_str()),
        Macro::Extension => quote(alloc, name_parts(here.current.as_str()).1),
        Macro::Stem => quote(alloc, name_parts(here.current.as_str()).0),
        Macro::FolderHere => quote(alloc, here.folder.text(alloc)?.as_str()),
        Macro::FolderOther => quote(alloc, other.folder.text(alloc)?.as_str()),
        Macro::TaggedHere | Macro::UntaggedHere => joined(alloc, here.tagged.as_slice()),
        Macro::TaggedOther | Macro::UntaggedOther => joined(alloc, other.tagged.as_slice()),
        Macro::SelectedHere => selected(alloc, here),
        Macro::SelectedOther => selected(alloc, other),
    }
}

/// The tagged names of a side, or else its current one.
fn selected(alloc: Global, side: &Side) -> Result<Text, NoMemory>
    ensures { IfOk result (λ text. text ≡ selected_names side.now.current side.now.tagged) }
{
    match side.tagged.as_slice() {
        [] => quote(alloc, side.current.as_str()),
        names => joined(alloc, names),
    }
}

/// The names, quoted, with a blank between each two.
fn joined(alloc: Global, names: &[Name]) -> Result<Text, NoMemory>
    ensures { IfOk result (λ text. text ≡ joined_names names.now) }
{
    let mut text = String::new(alloc);
    let Some((first, others)) = names.split_first() else {
        return Ok(Text(text));
    };
    text.push_str(quote(alloc, first.text())?.as_str())?;
    for name in others {
        text.push(' ')?;
        text.push_str(quote(alloc, name.text())?.as_str())?;
    }
    Ok(Text(text))
}
