//! Steps of each kind at a service, by calls and by calls that may wait: its gate is told of each of them once, and of the
//! frames that they take alone, and none of them uses up a namespace's number.

use crate::gates::{Recorder, Told};
use crate::services::{Callers, serve};
use bitflags::Flags;
use pf_base::{ByteString, OpenFlags, Reply, Step};
use pf_service::{Seat, Service};
use pf_service_fixture::{
    Closed, RED, Size, config_of, is_next, place_of, seat_if, spawn, with, write,
};
use std::alloc::{AllocError, Global};
use std::process::Abort;
use std::sync::Wait;
use std::sync::atomic::AtomicU64;
use std::sync::ledger::Ledger;
use std::test::Fail;

fn pipe() -> Step {
    Step::Pipe {
        pid: 1,
        nonblock: false,
    }
}

// A process with two pipes has a child. A byte passes from the one to the other, and both bytes are read there.
fn passes_on(alloc: Global) -> Result<Vec<Step>, AllocError> {
    let tee = Step::Tee {
        pid: 1,
        source: 0,
        sink: 3,
        n: 9,
        nonblock: true,
    };
    let splice = Step::Splice {
        pid: 1,
        source: 0,
        sink: 3,
        n: 9,
        nonblock: true,
    };
    let read = Step::Read {
        pid: 1,
        fd: 2,
        n: 9,
    };
    let byte = write(alloc, 0x7A, 1)?;
    Ok(vec![in alloc;
        spawn(),
        pipe(),
        pipe(),
        Step::Fork { pid: 1 },
        byte,
        tee,
        splice,
        read,
    ]?)
}

// The child waits for a byte.
fn waits(alloc: Global) -> Result<Vec<Step>, AllocError> {
    let read = Step::Read {
        pid: 2,
        fd: 0,
        n: 9,
    };
    Ok(vec![in alloc; read]?)
}

// It has it, and exits; and the pipe has another descriptor for a while, and then one slot.
fn goes_on(alloc: Global) -> Result<Vec<Step>, AllocError> {
    let on = Step::SetNonblock {
        pid: 1,
        fd: 4,
        on: true,
    };
    let shrink = Step::SetSize {
        pid: 1,
        fd: 0,
        bytes: 4_096,
    };
    let byte = write(alloc, 0x7A, 1)?;
    let resume = Step::Resume { pid: 2 };
    let exit = Step::Exit { pid: 2 };
    let dup = Step::Dup { pid: 1, fd: 0 };
    let close = Step::Close { pid: 1, fd: 4 };
    let size = Step::GetSize { pid: 1, fd: 0 };
    Ok(vec![in alloc; byte, resume, exit, dup, on, close, shrink, size]?)
}

fn at_d(alloc: Global) -> Result<ByteString, AllocError> {
    ByteString::from_slice(alloc, b"/d")
}

fn at_f(alloc: Global) -> Result<ByteString, AllocError> {
    ByteString::from_slice(alloc, b"/d/f")
}

// The process makes a directory with a FIFO.
fn makes_files(alloc: Global) -> Result<Vec<Step>, AllocError> {
    let mkdir = Step::Mkdir {
        pid: 1,
        path: at_d(alloc)?,
        mode: 0o755,
    };
    let mkfifo = Step::Mkfifo {
        pid: 1,
        path: at_f(alloc)?,
        mode: 0o644,
    };
    let chmod = Step::Chmod {
        pid: 1,
        path: at_f(alloc)?,
        mode: 0o600,
    };
    let stat = Step::Stat {
        pid: 1,
        path: at_f(alloc)?,
    };
    let list = Step::List {
        pid: 1,
        path: at_d(alloc)?,
    };
    Ok(vec![in alloc; mkdir, mkfifo, chmod, stat, list]?)
}

// It opens the FIFO, takes both away, and exits.
fn goes(alloc: Global) -> Result<Vec<Step>, AllocError> {
    let open = Step::Open {
        pid: 1,
        path: at_f(alloc)?,
        flags: OpenFlags::from_bits_retain(3),
    };
    let unlink = Step::Unlink {
        pid: 1,
        path: at_f(alloc)?,
    };
    let rmdir = Step::Rmdir {
        pid: 1,
        path: at_d(alloc)?,
    };
    Ok(vec![in alloc; open, unlink, rmdir, Step::Exit { pid: 1 }]?)
}

// How many frames a step of these takes: each byte that is written finds its pipe empty.
fn frames_of(step: &Step) -> u64 {
    match step {
        Step::Write { .. } => 1,
        _ => 0,
    }
}

// What a gate was told until now: how many events, and how many frames.
#[derive(Clone, Copy)]
struct Counted {
    events: u64,
    frames: u64,
}

// Makes the steps in turn, until one is refused; what the gate is told of then, where none is, and it is told of each of
// them once, and of its frames.
fn are_told<R: Wait, C: Ledger, H: Ledger>(
    rt: &R,
    alloc: Global,
    service: &Service<Global, Recorder<'_>, C, H>,
    seat: &mut Seat,
    steps: &[Step],
    may_wait: bool,
    told: &Told,
    before: Counted,
) -> Option<Counted> {
    let Counted {
        mut events,
        mut frames,
    } = before;
    for step in steps {
        let place = place_of(rt, alloc, service, seat, step, may_wait)?;
        events = place.wrapping_add(1);
        frames = frames.wrapping_add(frames_of(step));
        if !told.is_of(events, frames) {
            return None;
        }
    }
    Some(Counted { events, frames })
}

// A tenant comes, and makes steps of each kind, by calls or, but for the one that waits, by calls that may wait.
#[derive(Drop)]
struct EachKind<'a> {
    told: &'a Told,
    may_wait: bool,
}

impl EachKind<'_> {
    // The same of steps that are made here and let go.
    fn part<R: Wait, C: Ledger, H: Ledger>(
        &self,
        rt: &R,
        alloc: Global,
        service: &Service<Global, Recorder<'_>, C, H>,
        seat: &mut Seat,
        steps: Result<Vec<Step>, AllocError>,
        may_wait: bool,
        before: Counted,
    ) -> Option<Counted> {
        let steps = steps.ok()?;
        let made = are_told(
            rt, alloc, service, seat, &steps, may_wait, self.told, before,
        );
        drop(steps);
        made
    }

    // Whether the gate is told of all of them so.
    fn is_told<R: Wait, C: Ledger, H: Ledger>(
        &self,
        rt: &R,
        alloc: Global,
        service: &Service<Global, Recorder<'_>, C, H>,
        seat: &mut Seat,
    ) -> Option<Counted> {
        let none = Counted {
            events: 0,
            frames: 0,
        };
        let all = self.may_wait;
        let made = self.part(rt, alloc, service, seat, passes_on(alloc), all, none)?;
        let made = self.part(rt, alloc, service, seat, waits(alloc), false, made)?;
        let made = self.part(rt, alloc, service, seat, goes_on(alloc), all, made)?;
        let made = self.part(rt, alloc, service, seat, makes_files(alloc), all, made)?;
        self.part(rt, alloc, service, seat, goes(alloc), all, made)
    }
}

impl<'a> Callers<Recorder<'a>> for EachKind<'_> {
    fn work<C: Ledger, H: Ledger, R: Wait + Abort>(
        &self,
        rt: &R,
        alloc: Global,
        service: &Service<Global, Recorder<'a>, C, H>,
    ) -> Result<Vec<Seat>, Fail> {
        assert_eq!(rt;
            service.admit(rt, config_of(40).ok_or("limits")?, alloc)?,
            RED
        );
        let mut seat = service.seat(rt, RED)?;
        let made = self.is_told(rt, alloc, service, &mut seat);
        let all = match made {
            Some(counted) => counted.events == 26 && counted.frames == 2,
            None => false,
        };
        assert!(rt; is_next(rt, alloc, service, 1));
        with(Vec::new(alloc), seat_if(all, seat))
    }
}

// A tenant is served so.
fn each_kind<R: Wait + Abort>(rt: &R, alloc: Global, may_wait: bool) -> Closed {
    let (red, blue) = (Told::new(), Told::new());
    let (inside, coming) = (AtomicU64::new(0), AtomicU64::new(1));
    let gate = Recorder {
        red: &red,
        blue: &blue,
        held: &inside,
        coming: &coming,
    };
    let callers = EachKind {
        told: &red,
        may_wait,
    };
    let size = Size {
        namespaces: 0,
        slack: 40,
    };
    let closed = serve(rt, alloc, size, gate, &callers);
    assert!(rt; red.is_of(26, 2) && blue.is_of(0, 0));
    closed
}

// Whether the step that waits alone is told so, and none is refused by the machine.
fn are_made(entries: &[(Step, Reply)]) -> bool {
    let mut parked = 0u32;
    for entry in entries {
        match &entry.1 {
            Reply::Err(_) => return false,
            Reply::Parked => parked = parked.saturating_add(1),
            _ => {}
        }
    }
    parked == 1
}

#[test]
fn no_kind_of_call_uses_up_a_number_or_tells_of_more(rt: HostRuntime) -> Result<(), Fail> {
    for may_wait in [false, true] {
        let transcripts = each_kind(&rt, rt.alloc(), may_wait)??;
        let transcript = transcripts.as_slice().first().ok_or("none")?;
        assert!(rt; are_made(transcript.entries()));
    }
    Ok(())
}
