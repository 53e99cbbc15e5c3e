//! What a host asks of a hub without a step. Nothing changes.
ghost use Rattle.std.specs.Prelude.{◌≡◌};
ghost use Rattle.pf_c.specs.Handle.{hub_of};
ghost use Rattle.pf_c.specs.Queries.{lives_in, free_in, held_code, goes_on_in, IsNextIn};
ghost use Rattle.pf_c.specs.Queries.{readiness_in, code_of_readiness, ready_or};

use crate::handle::SagHub;
use crate::ready::SagReady;
use crate::told::{NO_NAMESPACE, refused};

/// Whether a namespace of this number lives: it is admitted, and not retired.
#[unsafe(no_mangle)]
pub extern "C" fn sag_lives(h: &mut SagHub, ns: u32) -> bool
    ensures told { result ≡ lives_in (hub_of h.old) ns }
    ensures same { hub_of h.new ≡ hub_of h.old }
{
    if !h.is_open {
        return false;
    }
    h.place.hub().lives(ns)
}

/// How many frames nobody holds; 0 of a shut handle.
#[unsafe(no_mangle)]
pub extern "C" fn sag_free_frames(h: &mut SagHub) -> u32
    ensures told { result ≡ free_in (hub_of h.old) }
    ensures same { hub_of h.new ≡ hub_of h.old }
{
    if !h.is_open {
        return 0;
    }
    h.place.hub().free()
}

/// How many frames a namespace holds, or SAG_NONAMESPACE.
#[unsafe(no_mangle)]
pub extern "C" fn sag_held(h: &mut SagHub, ns: u32) -> i64
    ensures told { result ≡ held_code (hub_of h.old) ns }
    ensures same { hub_of h.new ≡ hub_of h.old }
{
    if !h.is_open {
        return NO_NAMESPACE;
    }
    let hub = h.place.hub();
    if !hub.lives(ns) {
        return NO_NAMESPACE;
    }
    i64::from(hub.held(ns))
}

/// Whether the call in which a process waits comes further when it is tried again: its sag_resume is told something
/// else than SAG_PARKED, or more bytes of its write go in. False where it waits in no call, and where there is no such
/// process or namespace.
#[unsafe(no_mangle)]
pub extern "C" fn sag_can_go_on(h: &mut SagHub, ns: u32, pid: u32) -> bool
    ensures told { result ≡ goes_on_in (hub_of h.old) ns pid }
    ensures same { hub_of h.new ≡ hub_of h.old }
{
    if !h.is_open {
        return false;
    }
    let hub = h.place.hub();
    hub.lives(ns) && hub.can_go_on(ns, pid)
}

/// The least pid above `after` whose process can go on, 0 where there is none or no such namespace.
#[unsafe(no_mangle)]
pub extern "C" fn sag_next_to_go_on(h: &mut SagHub, ns: u32, after: u32) -> u32
    ensures told { IsNextIn (hub_of h.old) ns after result }
    ensures same { hub_of h.new ≡ hub_of h.old }
{
    if !h.is_open {
        return 0;
    }
    let hub = h.place.hub();
    if !hub.lives(ns) {
        return 0;
    }
    match hub.next_to_go_on(ns, after) {
        Some(pid) => pid,
        None => 0,
    }
}

/// What the pipe of a descriptor is ready for (poll(2)): into `out`. Else `out` is as it was: SAG_NONAMESPACE, or
/// -ESRCH, -EBUSY and -EBADF, as of a question for its capacity.
#[unsafe(no_mangle)]
pub extern "C" fn sag_readiness(
    h: &mut SagHub,
    ns: u32,
    pid: u32,
    fd: u32,
    out: &mut SagReady,
) -> i64
    ensures told { result ≡ code_of_readiness (readiness_in (hub_of h.old) ns pid fd) }
    ensures ready { out.new ≡ ready_or (readiness_in (hub_of h.old) ns pid fd) out.old }
    ensures same { hub_of h.new ≡ hub_of h.old }
{
    if !h.is_open {
        return NO_NAMESPACE;
    }
    let hub = h.place.hub();
    if !hub.lives(ns) {
        return NO_NAMESPACE;
    }
    match hub.readiness(ns, pid, fd) {
        Ok(ready) => {
            *out = SagReady {
                bytes: ready.bytes,
                room: ready.room,
                has_reader: ready.has_reader,
                has_writer: ready.has_writer,
            };
            0
        }
        Err(errno) => refused(errno),
    }
}
