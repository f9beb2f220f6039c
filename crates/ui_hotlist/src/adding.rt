//! A folder is added.
ghost use Rattle.std.specs.Prelude.{◌≡◌, ◌==◌, IfOk};
ghost use Rattle.std.specs.List.{list_any};
ghost use Rattle.hotlist.specs.HotLists.{AreOneLine, HotList, AnEntry, NoMore, before};
ghost use Rattle.hotlist.specs.ListViews.{list_in};
ghost use Rattle.hotlist.specs.Places.{followed_by};
ghost use Rattle.ui_hotlist.specs.HotlistFiles.{IsReadBack, addition_of, with_entry, with_folder};

use crate::act::{Addition, HotlistRefusal};
use crate::printing::file_of;
use hotlist::{HotEditError, HotItem, Hotlist};
use mc_text::{NoMemory, Path, Text};
use std::alloc::Global;
use std::convert::AsStr;

/// Adds a folder at the end of a list, outside all groups; its label and its path are its text. The list is
/// that of the file, and is let go of: what comes of it is the file that is to be saved.
pub fn add_folder(alloc: Global, list: Hotlist, folder: &Path) -> Result<Addition, NoMemory>
    ensures addition { IfOk result (λ addition. addition ≡ addition_of folder.now (list_in list)) }
    ensures read_back { AreOneLine (list_in list)
        → IfOk result (λ addition. IsReadBack addition (with_folder folder.now (list_in list))) }
{
    let text = folder.text(alloc)?;
    if has_newline(text.as_str()) {
        return Ok(Addition::Refused(HotlistRefusal::BadName));
    }
    let grown = with_entry(alloc, list, text)?;
    match file_of(alloc, &grown)? {
        None => Ok(Addition::Refused(HotlistRefusal::TooLarge)),
        Some(bytes) => Ok(Addition::Saves(bytes)),
    }
}

/// The list with an entry more at its end, whose label and path are this text.
fn with_entry(alloc: Global, list: Hotlist, text: Text) -> Result<Hotlist, NoMemory>
    ensures { IfOk result (λ grown. list_in grown ≡ with_entry text (list_in list)) }
{
    let mut grown = list;
    let label = text.copy(alloc)?;
    match grown.add(&[], entry_of(label, text)) {
        Ok(()) => Ok(grown),
        Err(HotEditError::Memory) => Err(NoMemory),
        Err(_) => unreachable!(),
    }
}

fn entry_of(label: Text, path: Text) -> HotItem
    ensures { (others : HotList) → before result others ≡ AnEntry label path others }
{
    HotItem::Entry { label, path }
}

/// Whether a text has a newline.
fn has_newline(text: &str) -> bool
    ensures { result ≡ list_any (λ byte. byte == 10) text.now }
{
    text.as_bytes().iter().any(|byte| *byte == b'\n')
}
