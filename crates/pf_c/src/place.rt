// A hub's place on the heap, as C keeps it: a pointer that only the functions here turn into a hub.
ghost use Rattle.std.specs.Prelude.{◌≡◌};
ghost use Rattle.pf_c.specs.Rows.{Held};

use crate::parts::Parts;
use pf_hub::Hub;
use std::alloc::Global;
use std::marker::Model;

/// Something that C has a pointer to, and never reads: a type of no meaning, since one that holds a hub doesn't cross
/// to C.
#[repr(C)]
pub struct Opaque {
    byte: u8,
}

/// Where a hub stands: a pointer, null where there is none.
#[repr(C)]
#[derive(Drop)]
pub struct Place {
    pub(crate) at: *mut Opaque,
    alloc: Global,

    /// The hub that stands there, as its contracts see it.
    pub ghost held: { Held },
}

impl Model for Place {
    ghost use Rattle.pf_c.specs.Kept.{kept};

    ghost also_owns = { λ p. kept p.alloc p.at p.held };
}

unsafe impl Send for Place {}

impl Place {
    ghost use Rattle.std.specs.Borrow.{sem};
    ghost use Rattle.pf_c.specs.Lent.{LendsHeld};
    ghost use Rattle.pf_c.specs.Kept.{IsOpen, IsShut};

    /// The place of a hub that stands on the heap.
    pub(crate) fn of(value: Box<Hub<Global>>) -> Place
        ensures open { IsOpen result.at }
        ensures held { result.held ≡ value.value }
    {
        Place::of_parts(Parts::of(value))
    }

    /// The hub that stands there, to be freed.
    pub(crate) fn into_box(self) -> Box<Hub<Global>>
        requires { IsOpen self.at }
        ensures { result.value ≡ self.held }
    {
        self.into_parts().into_box()
    }

    /// A place where nothing stands.
    pub(crate) fn shut(alloc: Global) -> Place
        ensures { IsShut result.at }
    {
        Place {
            at: std::ptr::null_mut(),
            alloc,
        }
    }

    fn of_parts(parts: Parts<Hub<Global>, Global>) -> Place
        ensures { IsOpen result.at × (result.held ≡ parts.value) }
    {
        let Parts { ptr, alloc } = parts;
        Place {
            at: ptr as *mut Opaque,
            alloc,
        }
    }

    fn into_parts(self) -> Parts<Hub<Global>, Global>
        requires { IsOpen self.at }
        ensures { result.value ≡ self.held }
    {
        let Place { at, alloc } = self;
        Parts {
            ptr: at as *mut Hub<Global>,
            alloc,
        }
    }

    /// The hub that stands there.
    #[inline(always)]
    pub(crate) fn hub(&mut self) -> &mut Hub<Global>
        requires { IsOpen self.old.at }
        ensures* writes_back { sem 𝓛 (LendsHeld self.entry result) }
        ensures value { result.now ≡ self.old.held }
    {
        unsafe { &mut *(self.at as *mut Hub<Global>) }
    }
}
