//! A law of carryings. The function does nothing: its contract is a law of the definitions in `specs/`.
ghost use Rattle.carry_job.specs.Orders.{OrderLaw};

/// A source is removed only once its copy stands at the target, and the folder there was synced since.
pub fn what_comes_before_a_removal()
    ensures { OrderLaw }
{}
