//! Steps on processes.
ghost use Rattle.std.specs.Prelude.{true};
ghost use Rattle.std.specs.Option.{option_map};
ghost use Rattle.pf_base.specs.declared.step.Step.TheVariants as steps;
ghost use Rattle.pf_c.specs.Handle.{hub_of};
ghost use Rattle.pf_c.specs.Read.{Handed, Laid};
ghost use Rattle.pf_c.specs.Told.{Answered, IsAnswered, Told, has_none};

use crate::handle::SagHub;
use crate::told::{code_of_read, told, told_wanted};
use pf_base::{Answer, Errno, Groups, Step};
use pf_hub::Hub;
use std::alloc::Global;

/// A new process.
#[unsafe(no_mangle)]
pub extern "C" fn sag_spawn(
    alloc: Global,
    h: &mut SagHub,
    ns: u32,
    uid: u32,
    gid: u32,
    groups: &[u32],
    umask: u32,
) -> i64
    ensures { Told (hub_of h.old) (hub_of h.new) ns (steps.Spawn uid gid umask groups.now)
        (has_none groups.now) result }
{
    let Ok(groups) = Groups::from_slice(alloc, groups) else {
        return told_wanted(h, ns);
    };
    told(
        h,
        ns,
        &Step::Spawn {
            uid,
            gid,
            umask,
            groups,
        },
    )
}

/// The process ends.
#[unsafe(no_mangle)]
pub extern "C" fn sag_exit(h: &mut SagHub, ns: u32, pid: u32) -> i64
    ensures { Told (hub_of h.old) (hub_of h.new) ns (steps.Exit pid) true result }
{
    told(h, ns, &Step::Exit { pid })
}

/// fork(2).
#[unsafe(no_mangle)]
pub extern "C" fn sag_fork(h: &mut SagHub, ns: u32, pid: u32) -> i64
    ensures { Told (hub_of h.old) (hub_of h.new) ns (steps.Fork pid) true result }
{
    told(h, ns, &Step::Fork { pid })
}

// The call in which a namespace's process waits is tried again, if there is one of this number.
#[inline(always)]
fn resume_in(
    hub: &mut Hub<Global>,
    ns: u32,
    pid: u32,
    into: &mut [u8],
) -> Option<Result<Option<usize>, Errno>>
    ensures { Handed (λ reply. Answered hub.old hub.new ns (steps.Resume pid) true (option_map Answer.Done reply))
        result into.old into.new }
{
    if !hub.lives(ns) {
        return None;
    }
    Some(hub.resume_into(ns, pid, into))
}

// The same of a handle, where it is open.
#[inline(always)]
fn resume_of(
    h: &mut SagHub,
    ns: u32,
    pid: u32,
    into: &mut [u8],
) -> Option<Result<Option<usize>, Errno>>
    ensures { Handed (λ reply. IsAnswered (hub_of h.old) (hub_of h.new) ns (steps.Resume pid) true
        (option_map Answer.Done reply)) result into.old into.new }
{
    if !h.is_open {
        return None;
    }
    resume_in(h.place.hub(), ns, pid, into)
}

/// The call in which a process waits is tried again. The first bytes that a read hands out are laid into the buffer
/// from where they stand, as many as it has room for: the one that the read was given has room for all. Memory is never
/// wanted.
#[unsafe(no_mangle)]
pub extern "C" fn sag_resume(h: &mut SagHub, ns: u32, pid: u32, into: &mut [u8]) -> i64
    ensures { Laid (hub_of h.old) (hub_of h.new) ns (steps.Resume pid) result into.old into.new }
{
    let told = resume_of(h, ns, pid, into);
    code_of_read(&told)
}
