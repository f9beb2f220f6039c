//! Keeping some names of a list.
ghost use Rattle.std.specs.Prelude.{◌≡◌, ◌++◌, ◌∷◌, [], OnOk, if◌then◌else◌};

use mc_text::{Name, Names, NoMemory};
use std::alloc::Global;

/// Puts the name at the end of the kept ones, where it is to be kept.
pub fn keep_if(alloc: Global, keeps: bool, kept: &mut Names, name: &Name) -> Result<(), NoMemory>
    ensures { OnOk result (kept.new ≡ kept.old ++ (if keeps then name.now ∷ [] else [])) }
{
    if keeps {
        kept.push(name.copy(alloc)?)?;
    }
    Ok(())
}
