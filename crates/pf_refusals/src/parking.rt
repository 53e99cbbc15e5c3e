//! Rows that a service plays, one of whose steps waits for the next one, which is made on a thread of its own.

ghost use Rattle.pf_depot.specs.Blanks.{IsBlankOf};

use crate::end::End;
use crate::row::Row;
use crate::scripts::blank;
use crate::served::{answer_at, close, service_of};
use crate::told::Told;
use pf_base::{Answer, EventAnswer, Step};
use pf_script::{Line, Script};
use pf_service::{Gate, Seat, Service, ServiceFault};
use std::alloc::Global;
use std::marker::Brand;
use std::sync::Wait;
use std::sync::atomic::{AtomicU64, Ordering};
use std::sync::ledger::{Blank, Ledger};
use std::thread;
use std::thread::{Threads, join};

/// The most turns that a thread waits for the other.
const TURNS: u64 = 1_000_000;

/// How many events a gate was told of, and whether both threads are there.
#[derive(Drop)]
struct Count {
    events: AtomicU64,
    begun: AtomicU64,
}

impl Count {
    fn new() -> Count {
        Count {
            events: AtomicU64::new(0),
            begun: AtomicU64::new(0),
        }
    }

    fn add(&self) {
        self.events.fetch_add(1, Ordering::SeqCst);
    }

    fn begin(&self) {
        self.begun.store(1, Ordering::SeqCst);
    }
}

/// Yields until a number is as large.
fn wait_for(number: &AtomicU64, least: u64) {
    for _ in 0..TURNS {
        if number.load(Ordering::SeqCst) >= least {
            return;
        }
        thread::yield_now();
    }
}

/// Counts what it is told.
#[derive(Drop)]
struct Counter<'a> {
    count: &'a Count,
}

impl Gate for Counter<'_> {
    ghost passed = { λ _ _ _. Unit {0} };

    ghost framed = { λ _ _. Unit {0} };

    fn pass(&self, ns: u32, place: u64) {
        let _ = (ns, place);
        self.count.add();
    }

    fn frame(&self, ns: u32) {
        let _ = ns;
    }
}

type Counted<'a, C, H> = Service<Global, Counter<'a>, C, H>;

/// What a thread brings: its seat, its step, and the count that both look at.
#[derive(Drop)]
struct Caller<'a> {
    alloc: Global,
    seat: Seat,
    step: &'a Step,
    count: &'a Count,
}

/// The thread that makes the step which waits. Where that was refused before the gate was told of it, the other one
/// goes on all the same. There is a receipt for each event of its seat.
fn wait<R: Wait, C: Ledger, H: Ledger>(
    rt: &R,
    service: &Counted<'_, C, H>,
    caller: Caller<'_>,
) -> Option<Seat> {
    let Caller {
        alloc,
        mut seat,
        step,
        count,
    } = caller;
    wait_for(&count.begun, 1);
    let mut receipts = Vec::new(alloc);
    let end = service.call_waiting(rt, &mut seat, step, &mut receipts);
    count.add();
    if receipts.len() != seat.events().len()
        || !matches!(end, Ok(()) | Err(ServiceFault::NoMemory))
    {
        return None;
    }
    Some(seat)
}

/// The other thread: it gives the sign, and makes its step once the gate was told of so many events. Who waits holds
/// the lock until it waits, so this step comes behind. Where it was refused it is made again.
fn let_go_on<R: Wait, C: Ledger, H: Ledger>(
    rt: &R,
    row: &Row<'_>,
    service: &Counted<'_, C, H>,
    caller: Caller<'_>,
    number: u64,
) -> Option<Seat> {
    let Caller {
        alloc,
        mut seat,
        step,
        count,
    } = caller;
    row.give_sign(alloc).ok()?;
    count.begin();
    wait_for(&count.events, number);
    let end = match service.call(rt, &mut seat, step) {
        Err(ServiceFault::NoMemory) => service.call(rt, &mut seat, step),
        end => end,
    };
    end.ok()?;
    Some(seat)
}

/// Takes a seat at the one namespace.
fn sit<R: Wait, C: Ledger, H: Ledger>(rt: &R, service: &Counted<'_, C, H>) -> Result<Seat, End> {
    match service.seat(rt, 0) {
        Ok(seat) => Ok(seat),
        Err(_) => Err(End::NoScript),
    }
}

/// Has a seat make steps, whose receipts have this place and those behind it.
fn call_each<R: Wait, C: Ledger, H: Ledger>(
    rt: &R,
    service: &Counted<'_, C, H>,
    seat: &mut Seat,
    lines: &[(u32, Line)],
    place: usize,
    told: &mut Told,
) -> Result<(), End> {
    let mut place = place;
    for (_, line) in lines {
        let Line::Step(step) = line else {
            return Err(End::NoScript);
        };
        let answer = answer_at(rt, service, seat, step, place)?;
        if matches!(&answer, EventAnswer::Answer(Answer::Done(_))) {
            place = place.saturating_add(1);
        }
        told.answers.push(answer)?;
    }
    Ok(())
}

/// Keeps a seat that came back, and adds the last reply that it was told. Where it keeps none its call was refused.
fn keep(
    alloc: Global,
    seat: Option<Seat>,
    seats: &mut Vec<Seat>,
    told: &mut Told,
) -> Result<(), End> {
    let Some(seat) = seat else {
        return Err(End::NoScript);
    };
    let answer = match seat.events().last() {
        Some(event) => Answer::Done(event.reply.copy(alloc)?),
        None => Answer::NoMemory,
    };
    told.answers.push(EventAnswer::Answer(answer))?;
    seats.push(seat)?;
    Ok(())
}

/// Has two seats make the step that waits and the next one, which come behind so many events. The requests of both are
/// counted.
fn make_two<R: Threads + Wait + Sync, C: Ledger + Send + Sync, H: Ledger + Send + Sync>(
    rt: &R,
    alloc: Global,
    row: &Row<'_>,
    service: &Counted<'_, C, H>,
    count: &Count,
    waiting: &Step,
    next: &Step,
    seats: &mut Vec<Seat>,
    told: &mut Told,
) -> Result<(), End> {
    let number = (told.answers.len() as u64).saturating_add(1);
    let ours = Caller {
        alloc,
        seat: sit(rt, service)?,
        step: waiting,
        count,
    };
    let theirs = Caller {
        alloc,
        seat: sit(rt, service)?,
        step: next,
        count,
    };
    let (ours, theirs) = join(
        rt,
        move || wait(rt, service, ours),
        move || let_go_on(rt, row, service, theirs, number),
    );
    let ended = row.give_sign(alloc);
    keep(alloc, ours, seats, told)?;
    keep(alloc, theirs, seats, told)?;
    ended
}

/// How many events seats keep.
fn count_events(seats: &[Seat]) -> usize {
    let mut events: usize = 0;
    for seat in seats {
        events = events.saturating_add(seat.events().len());
    }
    events
}

/// Has a service make a row's steps. Who waited makes those that come behind.
fn make<R: Threads + Wait + Sync, C: Ledger + Send + Sync, H: Ledger + Send + Sync>(
    rt: &R,
    alloc: Global,
    row: &Row<'_>,
    script: &Script,
    service: &Counted<'_, C, H>,
    count: &Count,
    seats: &mut Vec<Seat>,
    told: &mut Told,
) -> Result<(), End> {
    let lines = script.steps();
    let (before, rest) = lines.split_at(row.at.min(lines.len()));
    let [(_, Line::Step(waiting)), (_, Line::Step(next)), after @ ..] = rest else {
        return Err(End::NoScript);
    };
    seats.push(sit(rt, service)?)?;
    if let Some(first) = seats.first_mut() {
        call_each(rt, service, first, before, 0, told)?;
    }
    make_two(rt, alloc, row, service, count, waiting, next, seats, told)?;
    let place = count_events(seats);
    match seats.get_mut(1) {
        Some(ours) => call_each(rt, service, ours, after, place, told),
        None => Err(End::NoScript),
    }
}

fn play_over<R: Threads + Wait + Sync, C: Ledger + Send + Sync, H: Ledger + Send + Sync>(
    rt: &R,
    alloc: Global,
    row: &Row<'_>,
    script: &Script,
    told: &mut Told,
    count: &Count,
    credits: Blank,
    held: Blank,
) -> Result<(), End>
    requires blanks { IsBlankOf C.name C.parts credits × IsBlankOf H.name H.parts held }
{
    let service = service_of::<_, C, H>(alloc, row, script, Counter { count }, credits, held)?;
    let mut seats = Vec::new(alloc);
    let made = make(rt, alloc, row, script, &service, count, &mut seats, told);
    let closed = close(service, seats, told);
    made?;
    closed
}

/// Has a service play a script with a step that waits, and closes it.
pub(crate) fn play<R: Threads + Wait + Sync>(
    rt: &R,
    alloc: Global,
    row: &Row<'_>,
    script: &Script,
    told: &mut Told,
) -> Result<(), End> {
    let count = Count::new();
    play_over::<R, Brand, Brand>(rt, alloc, row, script, told, &count, blank(), blank())
}
