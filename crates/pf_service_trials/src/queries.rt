//! What a host asks of a service's namespace besides its events: who can go on, and what an end of a pipe is ready for.

use crate::services::{Callers, Plain, no_answer, serve};
use pf_base::{BYTES_IN_PLACE, ByteString, Errno, Readiness, Step};
use pf_service::{NoGate, Seat, ServiceFault};
use pf_service_fixture::{BLUE, RED, Size, config_of, is_next, make, makes, spawn, with, write_by};
use std::alloc::{AllocError, Global};
use std::process::Abort;
use std::sync::Wait;
use std::sync::ledger::Ledger;
use std::test::Fail;

fn pipe() -> Step {
    Step::Pipe {
        pid: 1,
        nonblock: false,
    }
}

// A process with a pipe, and one that shares it. The first waits for a byte.
fn opening(alloc: Global) -> Result<Vec<Step>, AllocError> {
    let read = Step::Read {
        pid: 1,
        fd: 0,
        n: 1,
    };
    Ok(vec![in alloc; spawn(), pipe(), Step::Fork { pid: 1 }, read]?)
}

// An empty pipe of 16 slots that somebody reads and somebody writes.
const EMPTY: Readiness = Readiness {
    bytes: 0,
    room: 65_536,
    has_reader: true,
    has_writer: true,
};

// Whether the first process of a namespace waits on.
fn waits<C: Ledger, H: Ledger, R: Wait>(
    rt: &R,
    service: &Plain<C, H>,
    ns: u32,
) -> Result<bool, ServiceFault> {
    Ok(
        !service.can_go_on(rt, ns, 1)?
            && service.next_to_go_on(rt, ns, 0)? == None
            && service.readiness(rt, ns, 2, 0)? == Ok(EMPTY)
            && service.readiness(rt, ns, 2, 7)? == Err(Errno::EBADF),
    )
}

// Whether it can go on, and nobody behind it.
fn goes_on<C: Ledger, H: Ledger, R: Wait>(
    rt: &R,
    service: &Plain<C, H>,
    ns: u32,
) -> Result<bool, ServiceFault> {
    Ok(
        service.can_go_on(rt, ns, 1)?
            && service.next_to_go_on(rt, ns, 0)? == Some(1)
            && service.next_to_go_on(rt, ns, 1)? == None
            && matches!(
                service.readiness(rt, ns, 2, 0)?,
                Ok(Readiness { bytes: 1, .. })
            ),
    )
}

// Whether a namespace has no process.
fn is_empty<C: Ledger, H: Ledger, R: Wait>(
    rt: &R,
    service: &Plain<C, H>,
    ns: u32,
) -> Result<bool, ServiceFault> {
    Ok(
        !service.can_go_on(rt, ns, 1)?
            && service.next_to_go_on(rt, ns, 0)? == None
            && service.readiness(rt, ns, 2, 0)? == Err(Errno::ESRCH),
    )
}

// The seat of who makes a namespace's first process wait, and then, at one that has just come, writes the byte.
fn opened<C: Ledger, H: Ledger, R: Wait>(
    rt: &R,
    alloc: Global,
    service: &Plain<C, H>,
    ns: u32,
) -> Result<Option<Seat>, Fail> {
    let mut steps = opening(alloc)?;
    if ns > BLUE {
        steps.push(write_by(alloc, 2, 0x61, 1)?)?;
    }
    Ok(make(rt, service, service.seat(rt, ns)?, &steps))
}

// Nobody can go on, until the other process writes. Another namespace has no process then, and in one that has come
// somebody can go on before.
struct OneWaits;

impl Callers<NoGate> for OneWaits {
    fn work<C: Ledger, H: Ledger, R: Wait + Abort>(
        &self,
        rt: &R,
        alloc: Global,
        service: &Plain<C, H>,
    ) -> Result<Vec<Seat>, Fail> {
        let guest = service.admit(rt, config_of(16).ok_or("limits")?, alloc)?;
        let red = opened(rt, alloc, service, RED)?;
        let mut seats = with(Vec::new(alloc), red)?;
        assert!(rt; waits(rt, service, RED)? && is_empty(rt, service, guest)?);
        let theirs = opened(rt, alloc, service, guest)?;
        seats = with(seats, theirs)?;
        assert!(rt; waits(rt, service, RED)? && goes_on(rt, service, guest)?);
        let byte = write_by(alloc, 2, 0x61, 1)?;
        let seat = seats.first_mut().ok_or("no seat")?;
        assert!(rt; makes(rt, service, seat, &byte));
        assert!(rt; goes_on(rt, service, RED)? && is_empty(rt, service, BLUE)?);
        assert!(rt; no_answer(rt, service, 3, ServiceFault::NoSuchNamespace));
        // no question has used up a number
        assert!(rt; is_next(rt, alloc, service, 3));
        Ok(seats)
    }
}

#[test]
fn a_host_is_told_who_can_go_on(rt: HostRuntime) -> Result<(), Fail> {
    let size = Size {
        namespaces: 2,
        slack: 16,
    };
    serve(&rt, rt.alloc(), size, NoGate, &OneWaits)??;
    Ok(())
}

// Three processes with two pipes of a page each. The first waits for a byte of the one, the third for a byte of the
// other.
fn opening_two(alloc: Global) -> Result<Vec<Step>, AllocError> {
    let page = Step::SetSize {
        pid: 1,
        fd: 0,
        bytes: 4_096,
    };
    let ours = Step::Read {
        pid: 1,
        fd: 0,
        n: 1,
    };
    let theirs = Step::Read {
        pid: 3,
        fd: 2,
        n: 1,
    };
    let (child, other) = (Step::Fork { pid: 1 }, Step::Fork { pid: 1 });
    Ok(vec![in alloc; spawn(), pipe(), page, pipe(), child, other, ours, theirs]?)
}

// The second process writes a byte to the pipe behind this descriptor.
fn byte_to(fd: u32) -> Step {
    Step::Write {
        pid: 2,
        fd,
        payload: ByteString::in_place([0x61; BYTES_IN_PLACE], 1),
    }
}

// A pipe of a page, and one with that byte.
const EMPTY_PAGE: Readiness = Readiness {
    room: 4_096,
    ..EMPTY
};

const ONE_BYTE: Readiness = Readiness {
    bytes: 1,
    room: 4_095,
    ..EMPTY
};

// Whether the third process alone can go on, and each pipe is told of by its own descriptors.
fn third_goes_on<C: Ledger, H: Ledger, R: Wait>(
    rt: &R,
    service: &Plain<C, H>,
    ns: u32,
) -> Result<bool, ServiceFault> {
    Ok(
        !service.can_go_on(rt, ns, 1)?
            && !service.can_go_on(rt, ns, 2)?
            && service.can_go_on(rt, ns, 3)?
            && service.next_to_go_on(rt, ns, 0)? == Some(3)
            && service.next_to_go_on(rt, ns, 3)? == None
            && service.readiness(rt, ns, 2, 1)? == Ok(EMPTY_PAGE)
            && service.readiness(rt, ns, 2, 2)? == Ok(ONE_BYTE)
            && service.readiness(rt, ns, 2, 3)? == Ok(ONE_BYTE)
            && service.readiness(rt, ns, 1, 2)? == Err(Errno::EBUSY)
            && service.readiness(rt, ns, 4, 2)? == Err(Errno::ESRCH),
    )
}

// Whether the first and the third can, and nobody between.
fn two_go_on<C: Ledger, H: Ledger, R: Wait>(
    rt: &R,
    service: &Plain<C, H>,
    ns: u32,
) -> Result<bool, ServiceFault> {
    Ok(
        service.can_go_on(rt, ns, 1)?
            && !service.can_go_on(rt, ns, 2)?
            && service.can_go_on(rt, ns, 3)?
            && service.next_to_go_on(rt, ns, 0)? == Some(1)
            && service.next_to_go_on(rt, ns, 1)? == Some(3)
            && service.next_to_go_on(rt, ns, 3)? == None,
    )
}

// The first and the third process of a namespace, one that was there or one that has come, wait for what the second
// writes to the other pipe, and then to the one.
#[derive(Drop)]
struct TwoWait {
    ns: u32,
}

impl Callers<NoGate> for TwoWait {
    fn work<C: Ledger, H: Ledger, R: Wait + Abort>(
        &self,
        rt: &R,
        alloc: Global,
        service: &Plain<C, H>,
    ) -> Result<Vec<Seat>, Fail> {
        assert_eq!(rt;
            service.admit(rt, config_of(16).ok_or("limits")?, alloc)?,
            BLUE
        );
        let steps = opening_two(alloc)?;
        let seat = make(rt, service, service.seat(rt, self.ns)?, &steps);
        let mut seats = with(Vec::new(alloc), seat)?;
        let seat = seats.first_mut().ok_or("no seat")?;
        assert!(rt; makes(rt, service, seat, &byte_to(3)) && third_goes_on(rt, service, self.ns)?);
        assert!(rt; makes(rt, service, seat, &byte_to(1)) && two_go_on(rt, service, self.ns)?);
        Ok(seats)
    }
}

#[test]
fn a_host_is_told_of_each_process(rt: HostRuntime) -> Result<(), Fail> {
    let size = Size {
        namespaces: 1,
        slack: 16,
    };
    serve(&rt, rt.alloc(), size, NoGate, &TwoWait { ns: RED })??;
    serve(&rt, rt.alloc(), size, NoGate, &TwoWait { ns: BLUE })??;
    Ok(())
}

// Of one that is retired nothing is told, whether it was there from the start or came.
struct BothWent;

impl Callers<NoGate> for BothWent {
    fn work<C: Ledger, H: Ledger, R: Wait + Abort>(
        &self,
        rt: &R,
        alloc: Global,
        service: &Plain<C, H>,
    ) -> Result<Vec<Seat>, Fail> {
        let guest = service.admit(rt, config_of(16).ok_or("limits")?, alloc)?;
        service.retire(rt, RED)?;
        service.retire(rt, guest)?;
        assert!(rt; no_answer(rt, service, RED, ServiceFault::Gone));
        assert!(rt; no_answer(rt, service, guest, ServiceFault::Gone));
        assert!(rt; is_next(rt, alloc, service, 2));
        Ok(Vec::new(alloc))
    }
}

#[test]
fn nothing_is_told_of_one_that_went(rt: HostRuntime) -> Result<(), Fail> {
    let size = Size {
        namespaces: 1,
        slack: 16,
    };
    serve(&rt, rt.alloc(), size, NoGate, &BothWent)??;
    Ok(())
}
