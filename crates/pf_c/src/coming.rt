//! Namespaces come and go.
ghost use Rattle.std.specs.Prelude.{◌≡◌};
ghost use Rattle.pf_c.specs.Coming.{Admission, AdmissionOf, Retirement, ToldRetirement};
ghost use Rattle.pf_c.specs.Coming.{code_of_admission, code_of_retirement};
ghost use Rattle.pf_c.specs.Handle.{hub_of};
ghost use Rattle.pf_c.specs.Opened.{config_in};

use crate::handle::SagHub;
use crate::opening::SagLimits;
use crate::told::{NO_MEMORY, NO_NAMESPACE, refused};
use pf_base::{AdmitFault, Config, Errno, RetireFault};
use pf_hub::Hub;
use std::alloc::Global;

// What C is told of an admission.
fn code_of_admission(answer: &Result<u32, AdmitFault>) -> i64
    ensures { result ≡ code_of_admission answer.now }
{
    match answer {
        Ok(number) => i64::from(*number),
        Err(AdmitFault::NoRoom { slack: _ }) => refused(Errno::ENOMEM),
        Err(AdmitFault::TooManyNamespaces) => refused(Errno::ENOSPC),
        Err(AdmitFault::NoMemory) => NO_MEMORY,
    }
}

// What C is told of a retirement.
fn code_of_retirement(answer: &Result<(), RetireFault>) -> i64
    ensures { result ≡ code_of_retirement answer.now }
{
    match answer {
        Ok(()) => 0,
        Err(RetireFault::NoSuchNamespace) => NO_NAMESPACE,
        Err(RetireFault::Alive { processes: _ }) => refused(Errno::EBUSY),
    }
}

// An admission to a hub.
fn admit_to(hub: &mut Hub<Global>, alloc: Global, limits: &SagLimits) -> i64
    ensures { AdmissionOf (config_in limits.now) hub.old hub.new alloc result }
{
    let Ok(config) = Config::new(limits.reserve, limits.soft, limits.hard, limits.max) else {
        return refused(Errno::EINVAL);
    };
    let answer = hub.admit(config, alloc);
    code_of_admission(&answer)
}

// A retirement from a hub.
fn retire_from(hub: &mut Hub<Global>, ns: u32) -> i64
    ensures { ToldRetirement hub.old hub.new ns result }
{
    let answer = hub.retire(ns);
    code_of_retirement(&answer)
}

/// A namespace of these limits is admitted, and its number is told: the least that was never given. Else
/// SAG_NONAMESPACE of a shut handle, -EINVAL for limits out of their ranges, -ENOSPC where too many live or were given
/// a number, -ENOMEM where too few frames are left to reserve, or that memory of the heap was wanted; and nothing has
/// changed.
#[unsafe(no_mangle)]
pub extern "C" fn sag_admit(alloc: Global, h: &mut SagHub, limits: &SagLimits) -> i64
    ensures { Admission (hub_of h.old) (hub_of h.new) limits.now alloc result }
{
    if !h.is_open {
        return NO_NAMESPACE;
    }
    admit_to(h.place.hub(), alloc, limits)
}

/// A namespace that has no process is retired. SAG_NONAMESPACE, or -EBUSY where it has one, and nothing has changed.
#[unsafe(no_mangle)]
pub extern "C" fn sag_retire(h: &mut SagHub, ns: u32) -> i64
    ensures { Retirement (hub_of h.old) (hub_of h.new) ns result }
{
    if !h.is_open {
        return NO_NAMESPACE;
    }
    retire_from(h.place.hub(), ns)
}
