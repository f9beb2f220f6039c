//! What a crash leaves of a thing that is carried to another mount, while others work. The function does
//! nothing: its contract is a law of the definitions in `specs/`.
#![tactic(auto)]

ghost use Rattle.laws_carry.specs.Carried.{CarriedLaw};

/// A thing that is carried to another mount is whole at its source or at its target, whatever others do.
pub fn what_is_carried_stays_whole()
    ensures { CarriedLaw }
{}
