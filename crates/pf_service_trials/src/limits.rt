//! A namespace that comes to a service has the limits that it was given: they are seen through what they refuse, and in
//! its transcript.

use crate::services::{Callers, Plain, replies_are, serve};
use pf_base::{Config, Errno, Reply, Step};
use pf_service::{NoGate, Seat};
use pf_service_fixture::{Size, make, spawn};
use std::alloc::{AllocError, Global};
use std::process::Abort;
use std::sync::Wait;
use std::sync::ledger::Ledger;
use std::test::Fail;

// 64 frames. A user's pipes have 40 pages, then those of a slot each; none above 33; and no pipe has more than 16
// pages.
fn narrow() -> Option<Config> {
    Config::new(64, 40, 33, 65_536).ok()
}

fn pipe() -> Step {
    Step::Pipe {
        pid: 1,
        nonblock: true,
    }
}

// A pipe doesn't grow above the most bytes of one. With the third pipe the soft limit would be passed, so it has one
// slot; with a fourth of one slot the hard limit would.
fn steps(alloc: Global) -> Result<Vec<Step>, AllocError> {
    let larger = Step::SetSize {
        pid: 1,
        fd: 0,
        bytes: 131_072,
    };
    let size = Step::GetSize { pid: 1, fd: 4 };
    Ok(vec![in alloc; spawn(), pipe(), larger, pipe(), pipe(), size, pipe()]?)
}

const TOLD: [Reply; 7] = [
    Reply::Pid(1),
    Reply::Fds(0, 1),
    Reply::Err(Errno::EPERM),
    Reply::Fds(2, 3),
    Reply::Fds(4, 5),
    Reply::Num(4_096),
    Reply::Err(Errno::ENFILE),
];

// One comes with these limits.
struct OneIsNarrow;

impl Callers<NoGate> for OneIsNarrow {
    fn work<C: Ledger, H: Ledger, R: Wait + Abort>(
        &self,
        rt: &R,
        alloc: Global,
        service: &Plain<C, H>,
    ) -> Result<Vec<Seat>, Fail> {
        let ns = service.admit(rt, narrow().ok_or("limits")?, alloc)?;
        let seat = make(rt, service, service.seat(rt, ns)?, &steps(alloc)?);
        let mut seats = Vec::new(alloc);
        seats.push(seat.ok_or("refused")?)?;
        Ok(seats)
    }
}

#[test]
fn who_comes_has_the_limits_that_it_was_given(rt: HostRuntime) -> Result<(), Fail> {
    let size = Size {
        namespaces: 1,
        slack: 64,
    };
    let transcripts = serve(&rt, rt.alloc(), size, NoGate, &OneIsNarrow)??;
    let each = transcripts.as_slice();
    assert_eq!(rt; each.len(), 2);
    assert_eq!(rt; Some(each[1].config()), narrow());
    replies_are(&rt, &each[1], &TOLD);
    Ok(())
}
