//! A hub comes and goes.
ghost use Rattle.std.specs.Prelude.{◌≡◌, None};
ghost use Rattle.pf_c.specs.Handle.{hub_of};
ghost use Rattle.pf_c.specs.Opened.{Opening};

use crate::handle::SagHub;
use crate::opening::{SagLimits, opened};
use crate::told::refused;
use pf_base::Errno;
use std::alloc::Global;

/// A hub of so many frames, with a namespace of each of these limits. 0; or -EBUSY where the handle is open, -EINVAL
/// where there can be no such hub, or that memory was wanted, and then the handle is as it was.
#[unsafe(no_mangle)]
pub extern "C" fn sag_open(
    alloc: Global,
    frames: u32,
    limits: &[SagLimits],
    out: &mut SagHub,
) -> i64
    ensures { Opening (hub_of out.old) (hub_of out.new) frames limits.now result }
{
    if out.is_open {
        return refused(Errno::EBUSY);
    }
    match opened(alloc, frames, limits) {
        Ok(hub) => {
            *out = SagHub::of(hub);
            0
        }
        Err(fault) => fault.code(),
    }
}

/// The hub goes, and all that its namespaces hold. A shut handle stays as it is.
#[unsafe(no_mangle)]
pub extern "C" fn sag_free(alloc: Global, h: &mut SagHub)
    ensures { hub_of h.new ≡ None }
{
    if h.is_open {
        let old = std::mem::replace(h, SagHub::shut(alloc));
        drop(old.place.into_box());
    }
}
