//! A call that waits, and what wakes it: what another one writes that may wait too, what ends its process, resumes it
//! first, or lets it wait for something else, and many events that are of no use to it.

ghost use Rattle.pf_depot.specs.Blanks.{IsBlankOf};

use pf_base::{ByteString, Errno, Reply, RetireFault, Step};
use pf_service::{Gate, Seat, Service, Transcripts};
use pf_service_fixture::{
    RED, blank, both, closed, is_next, make, makes, namespaces, seat_if, service_of, spawn, with,
    write_by,
};
use std::alloc::{AllocError, Global};
use std::marker::Brand;
use std::process::Abort;
use std::sync::Wait;
use std::sync::atomic::{AtomicU64, Ordering};
use std::sync::ledger::{Blank, Ledger};
use std::test::Fail;
use std::thread;
use std::thread::{Threads, join};

// The most turns that a caller waits for another.
pub(crate) const TURNS: u64 = 10_000_000;

// How often a host asks while somebody waits, who has a turn between two questions.
const ASKED: u64 = 1_000;

// The most Resumes of those who wait beyond the fewest that there may be.
const MORE: u64 = 10;

// What a gate was told of a namespace.
#[derive(Drop)]
pub(crate) struct Count {
    // How many events, or the largest number where one was told that wasn't the next.
    events: AtomicU64,
    frames: AtomicU64,
}

impl Count {
    pub(crate) fn new() -> Count {
        Count {
            events: AtomicU64::new(0),
            frames: AtomicU64::new(0),
        }
    }

    fn add(&self, ns: u32, place: u64) {
        let before = self.events.load(Ordering::SeqCst);
        let after = if ns == RED && before == place {
            place.wrapping_add(1)
        } else {
            u64::MAX
        };
        self.events.store(after, Ordering::SeqCst);
    }

    fn is_at_least(&self, number: u64) -> bool {
        self.events.load(Ordering::SeqCst) >= number
    }

    // Whether it was each event of the namespace once, not many more than so many, and so many frames.
    fn is_of(&self, transcripts: &Transcripts, fewest: u64, frames: u64) -> bool {
        let events = self.events.load(Ordering::SeqCst);
        match transcripts.as_slice() {
            [one, _guest] => {
                one.entries().len() as u64 == events
                    && events <= fewest.saturating_add(MORE)
                    && self.frames.load(Ordering::SeqCst) == frames
            }
            _ => false,
        }
    }
}

// Counts what it is told.
#[derive(Drop)]
pub(crate) struct Counter<'a> {
    pub(crate) count: &'a Count,
}

impl Gate for Counter<'_> {
    ghost passed = { λ _ _ _. Unit {0} };

    ghost framed = { λ _ _. Unit {0} };

    fn pass(&self, ns: u32, place: u64) {
        self.count.add(ns, place);
    }

    fn frame(&self, ns: u32) {
        // one of another number is one too few
        let frames = if ns == RED { 1 } else { u64::MAX };
        self.count.frames.fetch_add(frames, Ordering::SeqCst);
    }
}

// Yields until so many events were told, or all these turns are used up; whether they were told. The last of the events
// holds its namespace's lock until it waits.
pub(crate) fn wait_for(count: &Count, number: u64, turns: u64) -> bool {
    for _ in 0..turns {
        if count.is_at_least(number) {
            return true;
        }
        thread::yield_now();
    }
    false
}

// Ends the test where so many events don't come, since somebody waits then whom nobody wakes.
fn watch<R: Abort>(rt: &R, count: &Count, number: u64) {
    assert!(rt; wait_for(count, number, 2 * TURNS));
}

// A process with a pipe, and one that shares it.
fn opening(alloc: Global) -> Result<Vec<Step>, AllocError> {
    let mut steps = Vec::with_capacity(alloc, 3)?;
    steps.push(spawn())?;
    steps.push(Step::Pipe {
        pid: 1,
        nonblock: false,
    })?;
    steps.push(Step::Fork { pid: 1 })?;
    Ok(steps)
}

// What a thread brings: its steps, and how many events are told before these. Only the last of them may wait. In turn:
// between each two of its steps who waits is woken, and waits again; and a host asks often before the last.
#[derive(Clone, Copy)]
struct Caller<'a> {
    alloc: Global,
    steps: &'a [Step],
    in_turn: bool,
    last: &'a Step,
    count: &'a Count,
    number: u64,
}

// Whether a host is told who can go on, what an end is ready for, and that a namespace with processes isn't retired.
fn is_told<R: Wait, C: Ledger, H: Ledger>(
    rt: &R,
    service: &Service<Global, Counter<'_>, C, H>,
) -> bool {
    service.can_go_on(rt, RED, 1).is_ok()
        && service.next_to_go_on(rt, RED, 0).is_ok()
        && service.readiness(rt, RED, 1, 0).is_ok()
        && service.retire(rt, RED) == Err(RetireFault::Alive { processes: 2 })
}

// The last reply to a step that may wait, where there is a receipt for each event.
fn last_reply<R: Wait, C: Ledger, H: Ledger>(
    rt: &R,
    alloc: Global,
    service: &Service<Global, Counter<'_>, C, H>,
    seat: &mut Seat,
    last: &Step,
) -> Option<Reply> {
    let kept = seat.events().len();
    let mut receipts = Vec::new(alloc);
    service.call_waiting(rt, seat, last, &mut receipts).ok()?;
    if seat.events().len().checked_sub(kept) != Some(receipts.len()) {
        return None;
    }
    Some(receipts.pop()?.reply)
}

// Makes the steps in turn, until one is refused, or who waits isn't woken by it; whether each is, and does.
fn makes_in_turn<R: Wait, C: Ledger, H: Ledger>(
    rt: &R,
    service: &Service<Global, Counter<'_>, C, H>,
    seat: &mut Seat,
    caller: Caller<'_>,
) -> bool {
    let mut told = caller.number;
    for step in caller.steps {
        // its own event, and the Resume of who waits
        told = told.saturating_add(2);
        if !makes(rt, service, seat, step) || !wait_for(caller.count, told, TURNS) {
            return false;
        }
    }
    true
}

// Whether a host is told all that often. It wakes nobody: who waits would make a Resume each time.
fn is_told_often<R: Wait, C: Ledger, H: Ledger>(
    rt: &R,
    service: &Service<Global, Counter<'_>, C, H>,
) -> bool {
    for _ in 0..ASKED {
        if !is_told(rt, service) {
            return false;
        }
        thread::yield_now();
    }
    true
}

// Makes a thread's steps but for the last. No seat comes back where one was refused.
fn make_first<R: Wait, C: Ledger, H: Ledger>(
    rt: &R,
    service: &Service<Global, Counter<'_>, C, H>,
    mut seat: Seat,
    caller: Caller<'_>,
) -> Option<Seat> {
    if !caller.in_turn {
        return make(rt, service, seat, caller.steps);
    }
    let all = makes_in_turn(rt, service, &mut seat, caller) && is_told_often(rt, service);
    seat_if(all, seat)
}

// A thread's part: its steps, once so many events were told, by a seat that it is given then. The seat comes back with
// the last reply.
fn call_last<R: Wait, C: Ledger, H: Ledger>(
    rt: &R,
    service: &Service<Global, Counter<'_>, C, H>,
    caller: Caller<'_>,
) -> Option<(Seat, Reply)> {
    // whoever waits by now is woken all the same behind what a host asks and is refused, and behind a seat that is
    // given
    if !wait_for(caller.count, caller.number, TURNS) || !is_told(rt, service) {
        return None;
    }
    let seat = service.seat(rt, RED).ok()?;
    let mut seat = make_first(rt, service, seat, caller)?;
    let reply = last_reply(rt, caller.alloc, service, &mut seat, caller.last)?;
    Some((seat, reply))
}

// What two threads do. The first makes a step that waits; the second, once that waits, steps that don't, in turn or
// not, and one that may. So many events are told until both are done, and no fewer; and so many frames, and no more.
#[derive(Clone, Copy)]
struct Steps<'a> {
    first: &'a Step,
    then: &'a [Step],
    in_turn: bool,
    last: &'a Step,
    events: u64,
    frames: u64,
}

// What both threads came to, where both did.
fn ends(
    alloc: Global,
    ours: Option<(Seat, Reply)>,
    theirs: Option<(Seat, Reply)>,
) -> Result<(Vec<Seat>, Reply, Reply), Fail> {
    let (ours, first) = ours.ok_or("refused")?;
    let (theirs, last) = theirs.ok_or("refused")?;
    let seats = both(alloc, Some(ours), Some(theirs))?;
    Ok((seats, first, last))
}

// The seats of both threads, and the last reply of each.
fn two_threads<C: Ledger + Send + Sync, H: Ledger + Send + Sync, R: Threads + Wait + Abort + Sync>(
    rt: &R,
    alloc: Global,
    service: &Service<Global, Counter<'_>, C, H>,
    count: &Count,
    ours: Caller<'_>,
    theirs: Caller<'_>,
    number: u64,
) -> Result<(Vec<Seat>, Reply, Reply), Fail> {
    let (ours, (theirs, ())) = join(
        rt,
        move || call_last(rt, service, ours),
        move || {
            join(
                rt,
                move || call_last(rt, service, theirs),
                move || watch(rt, count, number),
            )
        },
    );
    ends(alloc, ours, theirs)
}

// The seat of who makes a process with a pipe, and one that shares it.
pub(crate) fn opened<R: Wait, C: Ledger, H: Ledger>(
    rt: &R,
    alloc: Global,
    service: &Service<Global, Counter<'_>, C, H>,
) -> Result<Option<Seat>, Fail> {
    let steps = opening(alloc)?;
    Ok(make(rt, service, service.seat(rt, RED)?, &steps))
}

// All seats, and the last reply of each thread.
fn played<C: Ledger + Send + Sync, H: Ledger + Send + Sync, R: Threads + Wait + Abort + Sync>(
    rt: &R,
    alloc: Global,
    service: &Service<Global, Counter<'_>, C, H>,
    count: &Count,
    steps: Steps<'_>,
) -> Result<(Vec<Seat>, Reply, Reply), Fail> {
    let opened = opened(rt, alloc, service)?;
    let ours = Caller {
        alloc,
        steps: &[],
        in_turn: false,
        last: steps.first,
        count,
        number: 3,
    };
    let theirs = Caller {
        alloc,
        steps: steps.then,
        in_turn: steps.in_turn,
        last: steps.last,
        count,
        number: 4,
    };
    let (seats, first, last) = two_threads(rt, alloc, service, count, ours, theirs, steps.events)?;
    Ok((with(seats, opened)?, first, last))
}

// The last replies, where the gate was told of each event once, and of no other frames, and nobody has used up a
// number. The transcripts are let go.
fn replies_if(
    holds: bool,
    transcripts: Transcripts,
    replies: Option<(Reply, Reply)>,
) -> Result<(Reply, Reply), Fail> {
    drop(transcripts);
    if !holds {
        drop(replies);
        return Err(Fail::from("told otherwise"));
    }
    Ok(replies.ok_or("refused")?)
}

fn last_replies_named<
    C: Ledger + Send + Sync,
    H: Ledger + Send + Sync,
    R: Threads + Wait + Abort + Sync,
>(
    rt: &R,
    alloc: Global,
    count: &Count,
    steps: Steps<'_>,
    credits: Blank,
    held: Blank,
) -> Result<(Reply, Reply), Fail>
    requires blanks { IsBlankOf C.name C.parts credits × IsBlankOf H.name H.parts held }
{
    let service = service_of::<_, C, H>(alloc, namespaces(1), Counter { count }, credits, held)?;
    let (seats, replies) = match played(rt, alloc, &service, count, steps) {
        Ok((seats, first, last)) => (Ok(seats), Some((first, last))),
        Err(fail) => (Err(fail), None),
    };
    let next = is_next(rt, alloc, &service, 1);
    let transcripts = closed(service, seats)??;
    replies_if(
        next && count.is_of(&transcripts, steps.events, steps.frames),
        transcripts,
        replies,
    )
}

// The last reply of each of two threads, at a service that is closed with their seats.
fn last_replies<R: Threads + Wait + Abort + Sync>(
    rt: &R,
    alloc: Global,
    steps: Steps<'_>,
) -> Result<(Reply, Reply), Fail> {
    let count = Count::new();
    last_replies_named::<Brand, Brand, R>(rt, alloc, &count, steps, blank(), blank())
}

// Process 1 reads so many bytes.
pub(crate) fn reading(n: u64) -> Step {
    Step::Read { pid: 1, fd: 0, n }
}

pub(crate) const RESUME: Step = Step::Resume { pid: 1 };

const WAITS_NO_MORE: Reply = Reply::Err(Errno::EINVAL);

fn bytes(alloc: Global, bytes: &[u8]) -> Result<Reply, AllocError> {
    Ok(Reply::Bytes(ByteString::from_slice(alloc, bytes)?))
}

// A process waits for a page of bytes. Another, on a thread of its own, writes five more than the pipe has room for,
// and waits until that page was read.
#[test]
fn each_wakes_the_other(rt: HostRuntime) -> Result<(), Fail> {
    let alloc = rt.alloc();
    let steps = Steps {
        first: &reading(4_096),
        then: &[],
        in_turn: false,
        last: &write_by(alloc, 2, 0x61, 65_541)?,
        events: 7,
        frames: 17,
    };
    let page = ByteString::new(alloc, Vec::from_elem(alloc, 0x61, 4_096)?)?;
    let (ours, theirs) = last_replies(&rt, alloc, steps)?;
    assert_eq!(rt; ours, Reply::Bytes(page));
    assert_eq!(rt; theirs, Reply::Num(65_541));
    Ok(())
}

#[test]
fn who_waits_is_told_that_its_process_is_gone(rt: HostRuntime) -> Result<(), Fail> {
    let steps = Steps {
        first: &reading(1),
        then: &[],
        in_turn: false,
        last: &Step::Exit { pid: 1 },
        events: 6,
        frames: 0,
    };
    let (ours, theirs) = last_replies(&rt, rt.alloc(), steps)?;
    assert_eq!(rt; ours, Reply::Err(Errno::ESRCH));
    assert_eq!(rt; theirs, Reply::Num(0));
    Ok(())
}

// A byte comes for the process that waits, and both callers resume it: whoever does so first is told the byte.
#[test]
fn one_of_two_resumes_a_process_that_waits_no_more(rt: HostRuntime) -> Result<(), Fail> {
    let alloc = rt.alloc();
    let steps = Steps {
        first: &reading(1),
        then: &[write_by(alloc, 2, 0x61, 1)?],
        in_turn: false,
        last: &RESUME,
        events: 7,
        frames: 1,
    };
    let (ours, theirs) = last_replies(&rt, alloc, steps)?;
    let byte = bytes(alloc, b"a")?;
    let ours_is_first = ours == byte && theirs == WAITS_NO_MORE;
    assert!(rt; ours_is_first || (ours == WAITS_NO_MORE && theirs == byte));
    Ok(())
}

// The other caller takes the byte, and the process waits in another read since: then its caller is told what comes for
// that one. But it may have been first, or come between.
#[test]
fn a_process_may_wait_in_another_call_since(rt: HostRuntime) -> Result<(), Fail> {
    let alloc = rt.alloc();
    let steps = Steps {
        first: &reading(1),
        then: &[write_by(alloc, 2, 0x61, 1)?, RESUME, reading(1)],
        in_turn: false,
        last: &write_by(alloc, 2, 0x62, 1)?,
        events: 9,
        frames: 2,
    };
    let (ours, theirs) = last_replies(&rt, alloc, steps)?;
    let is_first = ours == bytes(alloc, b"a")? || ours == WAITS_NO_MORE;
    assert!(rt; is_first || ours == bytes(alloc, b"b")?);
    assert_eq!(rt; theirs, Reply::Num(1));
    Ok(())
}

// A Resume that moves nothing wakes nobody, and whoever waits is woken by what comes then.
#[test]
fn who_waits_is_woken_after_a_resume_that_moved_nothing(rt: HostRuntime) -> Result<(), Fail> {
    let alloc = rt.alloc();
    let steps = Steps {
        first: &reading(1),
        then: &[RESUME],
        in_turn: false,
        last: &write_by(alloc, 2, 0x61, 1)?,
        events: 7,
        frames: 1,
    };
    let (ours, theirs) = last_replies(&rt, alloc, steps)?;
    assert_eq!(rt; ours, bytes(alloc, b"a")?);
    assert_eq!(rt; theirs, Reply::Num(1));
    Ok(())
}

// A descriptor is made and closed, so many times.
fn dups_and_closes(alloc: Global, times: usize) -> Result<Vec<Step>, AllocError> {
    let mut steps = Vec::new(alloc);
    for _ in 0..times {
        steps.push(Step::Dup { pid: 2, fd: 0 })?;
        steps.push(Step::Close { pid: 2, fd: 2 })?;
    }
    Ok(steps)
}

// Two hundred events come that are of no use to who waits, each of which wakes it: it waits again, is left alone while
// a host asks, and is told of what comes then.
#[test]
fn who_is_woken_for_nothing_waits_on(rt: HostRuntime) -> Result<(), Fail> {
    let alloc = rt.alloc();
    let then = dups_and_closes(alloc, 100)?;
    let steps = Steps {
        first: &reading(1),
        then: &then,
        in_turn: true,
        last: &write_by(alloc, 2, 0x61, 1)?,
        events: 406,
        frames: 1,
    };
    let (ours, theirs) = last_replies(&rt, alloc, steps)?;
    assert_eq!(rt; ours, bytes(alloc, b"a")?);
    assert_eq!(rt; theirs, Reply::Num(1));
    Ok(())
}
