// What C keeps of a hub.
ghost use Rattle.std.specs.Prelude.{◌≡◌, Some, None};
ghost use Rattle.pf_c.specs.Handle.{hub_of};

use crate::place::Place;
use pf_hub::Hub;
use std::alloc::Global;
use std::marker::Model;

/// A handle: a hub, or none where it is shut. C declares a struct of a pointer and a `bool`, makes it shut, and hands
/// it to the calls alone.
///
/// A contract sees the two fields, of which `hub_of` reads the hub.
#[repr(C)]
#[derive(Drop)]
pub struct SagHub {
    pub(crate) place: Place,
    pub(crate) is_open: bool,
}

impl Model for SagHub {
    ghost use Rattle.pf_c.specs.Handle.{Handle};
    ghost use Rattle.pf_c.specs.Kept.{IsRight};

    ghost Value = { Handle };

    ghost view = { λ h. record { place = h.place; is_open = h.is_open } };

    ghost invariant = { λ h. IsRight h.is_open h.place.at };

    ghost inverse = { λ h. record { place = h.place; is_open = h.is_open } };
}

impl SagHub {
    /// A handle of a hub that stands on the heap.
    pub(crate) fn of(hub: Box<Hub<Global>>) -> SagHub
        ensures { hub_of result ≡ Some hub.value }
    {
        SagHub {
            place: Place::of(hub),
            is_open: true,
        }
    }

    /// A handle of none.
    pub(crate) fn shut(alloc: Global) -> SagHub
        ensures { hub_of result ≡ None }
    {
        SagHub {
            place: Place::shut(alloc),
            is_open: false,
        }
    }
}
