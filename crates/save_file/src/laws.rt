//! Laws of a save and of what a crash leaves of it, which hold by those of `laws_crash`. The functions do
//! nothing: their contracts are laws of the definitions in `specs/`.
ghost use Rattle.save_file.specs.SaveLaws.{BarrierLaw, BeganLaw, ChunkLaw, CleanedLaw};
ghost use Rattle.save_file.specs.SaveLaws.{PlacedLaw, RefusedLaw, WholeLaw};

/// The part is made beside the target, empty.
pub fn what_the_making_of_the_part_keeps()
    ensures { BeganLaw }
{}

/// Each chunk adds the next bytes to it.
pub fn what_a_chunk_adds()
    ensures { ChunkLaw }
{}

/// Placed, the file has all the bytes and its mode, and both are on the disk.
pub fn what_placing_makes_of_the_target()
    ensures { PlacedLaw }
{}

/// A call that is refused leaves each path where it led.
pub fn what_a_refused_call_keeps()
    ensures { RefusedLaw }
{}

/// A part that isn't placed goes.
pub fn what_the_removal_of_the_part_keeps()
    ensures { CleanedLaw }
{}

/// After the folder's sync no crash takes the file away.
pub fn what_the_sync_of_the_folder_settles()
    ensures { BarrierLaw }
{}

/// At each moment a crash leaves at the target what stood there, or the whole file.
pub fn what_a_crash_leaves_at_the_target()
    ensures { WholeLaw }
{}
