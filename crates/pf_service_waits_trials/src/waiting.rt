//! Calls that wait: what a reader is told once another thread has written, and that a waiter wakes nobody who can't go
//! on.

ghost use Rattle.pf_depot.specs.Blanks.{IsBlankOf};

use pf_base::{ByteString, Reply, Step};
use pf_service::{Gate, Receipt, Seat, Service, ServiceFault};
use pf_service_fixture::{
    Closed, RED, Size, blank, both, closed, config_of, make, namespaces, seat_if, service_of,
    spawn, with, write_by,
};
use std::alloc::{AllocError, Global};
use std::marker::Brand;
use std::process::Abort;
use std::sync::Wait;
use std::sync::atomic::{AtomicU64, Ordering};
use std::sync::ledger::{Blank, Ledger};
use std::test::Fail;
use std::thread;
use std::thread::{Threads, join};

// The most turns that the writer waits until the readers wait.
const TURNS: u64 = 10_000_000;

// The turns that it gives them besides.
const GIVEN: u64 = 1_000;

// How many events a gate was told of, or how many readers are done.
#[derive(Drop)]
struct Count {
    number: AtomicU64,
}

impl Count {
    fn new() -> Count {
        Count {
            number: AtomicU64::new(0),
        }
    }

    fn add(&self) {
        self.number.fetch_add(1, Ordering::SeqCst);
    }

    fn is_at_least(&self, number: u64) -> bool {
        self.number.load(Ordering::SeqCst) >= number
    }
}

// Counts what it is told.
#[derive(Drop)]
struct Counter<'a> {
    count: &'a Count,
}

impl Gate for Counter<'_> {
    ghost passed = { λ _ _ _. Unit {0} };

    ghost framed = { λ _ _. Unit {0} };

    fn pass(&self, ns: u32, place: u64) {
        let _ = (ns, place);
        self.count.add();
    }

    fn frame(&self, ns: u32) {
        let _ = ns;
    }
}

// Yields until so many are counted, or all these turns are used up; whether they are.
fn wait_for(count: &Count, number: u64, turns: u64) -> bool {
    for _ in 0..turns {
        if count.is_at_least(number) {
            return true;
        }
        thread::yield_now();
    }
    false
}

// Yields until so many events were told, and some turns more; whether they were told.
fn let_them_wait(events: &Count, number: u64) -> bool {
    let came = wait_for(events, number, TURNS);
    for _ in 0..GIVEN {
        thread::yield_now();
    }
    came
}

// Ends the test where so many readers aren't done in the end, since one of them waits then whom nobody wakes.
fn watch<R: Abort>(rt: &R, done: &Count, readers: u64) {
    assert!(rt; wait_for(done, readers, 2 * TURNS));
}

// A process with a pipe, and so many that share it.
fn opening(alloc: Global, others: usize) -> Result<Vec<Step>, AllocError> {
    let mut steps = Vec::new(alloc);
    steps.push(spawn())?;
    steps.push(Step::Pipe {
        pid: 1,
        nonblock: false,
    })?;
    for _ in 0..others {
        steps.push(Step::Fork { pid: 1 })?;
    }
    Ok(steps)
}

// The seat of who makes a process with a pipe, and so many that share it.
fn opened<R: Wait, C: Ledger, H: Ledger>(
    rt: &R,
    alloc: Global,
    service: &Service<Global, Counter<'_>, C, H>,
    others: usize,
) -> Result<Option<Seat>, Fail> {
    let steps = opening(alloc, others)?;
    Ok(make(rt, service, service.seat(rt, RED)?, &steps))
}

// The bytes that a process is told, which may wait for them. Where a growth was refused it goes on from there.
fn read_all<R: Wait, C: Ledger, H: Ledger>(
    rt: &R,
    alloc: Global,
    service: &Service<Global, Counter<'_>, C, H>,
    seat: &mut Seat,
    pid: u32,
    n: u64,
) -> Option<Reply> {
    let mut receipts: Vec<Receipt> = Vec::new(alloc);
    let read = Step::Read { pid, fd: 0, n };
    let mut told = service.call_waiting(rt, seat, &read, &mut receipts);
    if told == Err(ServiceFault::NoMemory) {
        let step = if receipts.is_empty() {
            read
        } else {
            Step::Resume { pid }
        };
        told = service.call_waiting(rt, seat, &step, &mut receipts);
    }
    last_of(
        told.is_ok() && receipts.len() == seat.events().len(),
        receipts,
    )
}

// The last reply, where something holds.
fn last_of(holds: bool, mut receipts: Vec<Receipt>) -> Option<Reply> {
    if !holds {
        return None;
    }
    Some(receipts.pop()?.reply)
}

// So many bytes 61.
fn bytes(alloc: Global, n: u64) -> Option<Reply> {
    let bytes = Vec::from_elem(alloc, 0x61, n as usize).ok()?;
    Some(Reply::Bytes(ByteString::new(alloc, bytes).ok()?))
}

// Whether both are there, and are one.
fn are_one(told: Option<Reply>, wanted: Option<Reply>) -> bool {
    told.is_some() && told == wanted
}

// A reader's thread: its seat comes back where it was told as many bytes 61 as it asked for.
fn reader<R: Wait, C: Ledger, H: Ledger>(
    rt: &R,
    alloc: Global,
    service: &Service<Global, Counter<'_>, C, H>,
    mut seat: Seat,
    pid: u32,
    n: u64,
    done: &Count,
) -> Option<Seat> {
    let told = read_all(rt, alloc, service, &mut seat, pid, n);
    done.add();
    seat_if(are_one(told, bytes(alloc, n)), seat)
}

// One write, of so many bytes 61.
fn writing(alloc: Global, pid: u32, count: usize) -> Result<Vec<Step>, AllocError> {
    let mut steps = Vec::with_capacity(alloc, 1)?;
    steps.push(write_by(alloc, pid, 0x61, count)?)?;
    Ok(steps)
}

// Whether a step isn't refused, but for a growth, and then not twice.
fn makes_again<R: Wait, C: Ledger, H: Ledger>(
    rt: &R,
    service: &Service<Global, Counter<'_>, C, H>,
    seat: &mut Seat,
    step: &Step,
) -> bool {
    match service.call(rt, seat, step) {
        Err(ServiceFault::NoMemory) => service.call(rt, seat, step).is_ok(),
        told => told.is_ok(),
    }
}

// Whether none of the steps, in turn, is.
fn makes_all_again<R: Wait, C: Ledger, H: Ledger>(
    rt: &R,
    service: &Service<Global, Counter<'_>, C, H>,
    seat: &mut Seat,
    steps: &[Step],
) -> bool {
    for step in steps {
        if !makes_again(rt, service, seat, step) {
            return false;
        }
    }
    true
}

// The writer's thread: it makes its steps once so many events were told. Its seat comes back where they were.
fn writer<R: Wait, C: Ledger, H: Ledger>(
    rt: &R,
    service: &Service<Global, Counter<'_>, C, H>,
    mut seat: Seat,
    steps: &[Step],
    number: u64,
    count: &Count,
) -> Option<Seat> {
    let came = let_them_wait(count, number);
    let all = makes_all_again(rt, service, &mut seat, steps);
    seat_if(came && all, seat)
}

// A process waits for five bytes, and another writes them on a thread of its own.
fn across_a_pipe<
    C: Ledger + Send + Sync,
    H: Ledger + Send + Sync,
    R: Threads + Wait + Abort + Sync,
>(
    rt: &R,
    alloc: Global,
    service: &Service<Global, Counter<'_>, C, H>,
    ours: Seat,
    theirs: Seat,
    steps: &[Step],
    done: &Count,
    count: &Count,
) -> Result<Vec<Seat>, Fail> {
    let (ours, theirs) = join(
        rt,
        move || reader(rt, alloc, service, ours, 1, 5, done),
        move || {
            let theirs = writer(rt, service, theirs, steps, 4, count);
            watch(rt, done, 1);
            theirs
        },
    );
    both(alloc, ours, theirs)
}

// The same at a service of nobody yet.
fn one_reader<C: Ledger + Send + Sync, H: Ledger + Send + Sync, R: Threads + Wait + Abort + Sync>(
    rt: &R,
    alloc: Global,
    service: &Service<Global, Counter<'_>, C, H>,
    count: &Count,
) -> Result<Vec<Seat>, Fail> {
    let first = opened(rt, alloc, service, 1)?;
    let steps = writing(alloc, 2, 5)?;
    let (ours, theirs) = (service.seat(rt, RED)?, service.seat(rt, RED)?);
    let done = Count::new();
    with(
        across_a_pipe(rt, alloc, service, ours, theirs, &steps, &done, count)?,
        first,
    )
}

fn pipe_between_two_named<
    C: Ledger + Send + Sync,
    H: Ledger + Send + Sync,
    R: Threads + Wait + Abort + Sync,
>(rt: &R, alloc: Global, count: &Count, credits: Blank, held: Blank) -> Closed
    requires blanks { IsBlankOf C.name C.parts credits × IsBlankOf H.name H.parts held }
{
    let service = service_of::<_, C, H>(alloc, namespaces(1), Counter { count }, credits, held)?;
    let seats = one_reader(rt, alloc, &service, count);
    closed(service, seats)
}

fn pipe_between_two<R: Threads + Wait + Abort + Sync>(
    rt: &R,
    alloc: Global,
    count: &Count,
) -> Closed {
    pipe_between_two_named::<Brand, Brand, R>(rt, alloc, count, blank(), blank())
}

#[test]
fn a_reader_waits_for_what_another_thread_writes(rt: HostRuntime) -> Result<(), Fail> {
    let count = Count::new();
    pipe_between_two(&rt, rt.alloc(), &count)??;
    Ok(())
}

// Two processes wait for a byte each, and a third writes both on a thread of its own.
fn two_readers<C: Ledger + Send + Sync, H: Ledger + Send + Sync, R: Threads + Wait + Abort + Sync>(
    rt: &R,
    alloc: Global,
    service: &Service<Global, Counter<'_>, C, H>,
    ours: Seat,
    theirs: Seat,
    third: Seat,
    steps: &[Step],
    done: &Count,
    count: &Count,
) -> Result<Vec<Seat>, Fail> {
    let (ours, (theirs, third)) = join(
        rt,
        move || reader(rt, alloc, service, ours, 1, 1, done),
        move || {
            join(
                rt,
                move || reader(rt, alloc, service, theirs, 2, 1, done),
                move || {
                    let third = writer(rt, service, third, steps, 6, count);
                    watch(rt, done, 2);
                    third
                },
            )
        },
    );
    with(both(alloc, ours, theirs)?, third)
}

// The same at a service of nobody yet, to which the namespace comes where it has none.
fn readers_and_writer<
    C: Ledger + Send + Sync,
    H: Ledger + Send + Sync,
    R: Threads + Wait + Abort + Sync,
>(
    rt: &R,
    alloc: Global,
    service: &Service<Global, Counter<'_>, C, H>,
    size: Size,
    count: &Count,
) -> Result<Vec<Seat>, Fail> {
    if size.namespaces == 0 {
        service.admit(rt, config_of(16).ok_or("limits")?, alloc)?;
    }
    let first = opened(rt, alloc, service, 2)?;
    let steps = writing(alloc, 3, 2)?;
    let (ours, theirs) = (service.seat(rt, RED)?, service.seat(rt, RED)?);
    let third = service.seat(rt, RED)?;
    let done = Count::new();
    with(
        two_readers(
            rt, alloc, service, ours, theirs, third, &steps, &done, count,
        )?,
        first,
    )
}

fn pipe_among_three_named<
    C: Ledger + Send + Sync,
    H: Ledger + Send + Sync,
    R: Threads + Wait + Abort + Sync,
>(rt: &R, alloc: Global, size: Size, count: &Count, credits: Blank, held: Blank) -> Closed
    requires blanks { IsBlankOf C.name C.parts credits × IsBlankOf H.name H.parts held }
{
    let service = service_of::<_, C, H>(alloc, size, Counter { count }, credits, held)?;
    let seats = readers_and_writer(rt, alloc, &service, size, count);
    closed(service, seats)
}

fn pipe_among_three<R: Threads + Wait + Abort + Sync>(
    rt: &R,
    alloc: Global,
    size: Size,
    count: &Count,
) -> Closed {
    pipe_among_three_named::<Brand, Brand, R>(rt, alloc, size, count, blank(), blank())
}

// How many events there are. Of them the two waiting reads, the write and the two bytes told may wake a waiter: so each
// reader is resumed at most five times.
fn events_among_three<R: Threads + Wait + Abort + Sync>(
    rt: &R,
    alloc: Global,
    size: Size,
) -> Result<usize, Fail> {
    let count = Count::new();
    let transcripts = pipe_among_three(rt, alloc, size, &count)??;
    Ok(
        transcripts
            .as_slice()
            .first()
            .ok_or("none")?
            .entries()
            .len(),
    )
}

#[test]
fn two_readers_wait_for_a_byte_each(rt: HostRuntime) -> Result<(), Fail> {
    assert!(rt; events_among_three(&rt, rt.alloc(), namespaces(1))? <= 4 + 2 + 1 + 10);
    Ok(())
}

#[test]
fn two_readers_wait_so_at_one_that_was_admitted(rt: HostRuntime) -> Result<(), Fail> {
    let size = Size {
        namespaces: 0,
        slack: 16,
    };
    assert!(rt; events_among_three(&rt, rt.alloc(), size)? <= 4 + 2 + 1 + 10);
    Ok(())
}
