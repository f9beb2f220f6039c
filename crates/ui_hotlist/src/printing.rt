//! The file that is to be saved.
ghost use Rattle.std.specs.Prelude.{◌≡◌, IfOk, IfSome, nat_le, length};
ghost use Rattle.hotlist.specs.HotFiles.{IsHotlist};
ghost use Rattle.hotlist.specs.HotLists.{AreOneLine};
ghost use Rattle.hotlist.specs.ListViews.{list_in};
ghost use Rattle.ui_hotlist.specs.HotlistFiles.{file_of};

use hotlist::{Hotlist, print_hotlist};
use mc_text::{Bytes, NoMemory};
use std::alloc::Global;

/// The most bytes of a hotlist's file that is read.
const MOST_BYTES: usize = 1_048_576;

/// The file of a list, unless it has more bytes than are read of it.
pub fn file_of(alloc: Global, list: &Hotlist) -> Result<Option<Bytes>, NoMemory>
    ensures file { IfOk result (λ file. file ≡ file_of (list_in list.now)) }
    ensures read_back { IfOk result (λ file. IfSome file
        (λ bytes. AreOneLine (list_in list.now) → IsHotlist bytes (list_in list.now))) }
{
    let bytes = print_hotlist(alloc, list)?;
    if bytes.0.len() <= MOST_BYTES {
        return Ok(Some(bytes));
    }
    Ok(None)
}
