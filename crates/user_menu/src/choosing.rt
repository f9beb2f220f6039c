//! What is shown of entries, by how each of them stands.
ghost use Rattle.std.specs.Prelude.{◌≡◌, IfOk, OnOk, unwrap_or};
ghost use Rattle.user_menu.specs.ShownEntries.{chosen_entries, with_standing};

use crate::menu::Shown;
use mc_text::{NoMemory, Places};
use std::alloc::Global;

/// How an entry stands: it is hidden, or shown, or shown and may be the default.
#[derive(Clone, Copy, Drop)]
pub enum Standing {
    Hidden,
    Shown,
    Default,
}

/// What is shown of entries: the numbers of those that aren't hidden, and the first that may be the default.
pub fn chosen(alloc: Global, standings: &[Standing]) -> Result<Shown, NoMemory>
    ensures { IfOk result (λ shown. shown ≡ chosen_entries standings.now) }
{
    let mut shown = Shown {
        entries: Places(Vec::new(alloc)),
        default: None,
    };
    for (place, standing) in standings.iter().enumerate() {
        take_standing(&mut shown, place, *standing)?;
    }
    Ok(shown)
}

/// Takes the entry at a place.
fn take_standing(shown: &mut Shown, place: usize, standing: Standing) -> Result<(), NoMemory>
    ensures { OnOk result (shown.new ≡ with_standing shown.old place standing) }
{
    match standing {
        Standing::Hidden => Ok(()),
        Standing::Shown => {
            shown.entries.0.push(place)?;
            Ok(())
        }
        Standing::Default => {
            shown.entries.0.push(place)?;
            shown.default = Some(first_of(shown.default, place));
            Ok(())
        }
    }
}

/// The first default so far, or else this place.
fn first_of(so_far: Option<usize>, place: usize) -> usize
    ensures { result ≡ unwrap_or so_far place }
{
    match so_far {
        Some(first) => first,
        None => place,
    }
}
