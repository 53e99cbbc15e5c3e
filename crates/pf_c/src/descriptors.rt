//! Steps on descriptors.
ghost use Rattle.std.specs.Prelude.{true};
ghost use Rattle.pf_base.specs.declared.step.Step.TheVariants as steps;
ghost use Rattle.pf_c.specs.Handle.{hub_of};
ghost use Rattle.pf_c.specs.Told.{Told};

use crate::handle::SagHub;
use crate::told::told;
use pf_base::Step;

/// close(2).
#[unsafe(no_mangle)]
pub extern "C" fn sag_close(h: &mut SagHub, ns: u32, pid: u32, fd: u32) -> i64
    ensures { Told (hub_of h.old) (hub_of h.new) ns (steps.Close pid fd) true result }
{
    told(h, ns, &Step::Close { pid, fd })
}

/// dup(2).
#[unsafe(no_mangle)]
pub extern "C" fn sag_dup(h: &mut SagHub, ns: u32, pid: u32, fd: u32) -> i64
    ensures { Told (hub_of h.old) (hub_of h.new) ns (steps.Dup pid fd) true result }
{
    told(h, ns, &Step::Dup { pid, fd })
}

/// fcntl(2), F_SETFL with O_NONBLOCK or without.
#[unsafe(no_mangle)]
pub extern "C" fn sag_set_nonblock(h: &mut SagHub, ns: u32, pid: u32, fd: u32, on: bool) -> i64
    ensures { Told (hub_of h.old) (hub_of h.new) ns (steps.SetNonblock pid fd on) true result }
{
    told(h, ns, &Step::SetNonblock { pid, fd, on })
}
