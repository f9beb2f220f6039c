//! What the devices have in common that are reached by the runtime alone: the runtime, and a count of faults.
ghost use Rattle.std.specs.Prelude.{◌≡◌};

use crate::faults::Faults;
use std::marker::{Model, PhantomData};

/// The device `D` of the machine, as this runtime reaches it. Contracts see how often it has failed.
#[derive(Drop)]
pub struct Device<D, R> {
    pub(crate) rt: R,
    pub(crate) faults: Faults,
    of: PhantomData<D>,
}

impl<D, R> Model for Device<D, R> {
    ghost use Rattle.std.specs.Prelude.{ℕ};

    ghost Value = { ℕ };

    ghost view = { λ d. d.faults };
}

impl<D, R> Device<D, R> {
    /// The device that this runtime reaches. It takes no memory.
    pub fn new(rt: R) -> Device<D, R>
        ensures { result ≡ 0 }
    {
        Device {
            rt,
            faults: Faults::new(),
            of: PhantomData,
        }
    }
}
