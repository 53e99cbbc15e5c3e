//! A host that polls while another's call waits: it takes a seat and resumes the process that waits, many times. That is of
//! no use to the call that waits, so it isn't woken, and makes no Resume.

ghost use Rattle.pf_depot.specs.Blanks.{IsBlankOf};

use crate::woken::{Count, Counter, RESUME, TURNS, opened, reading, wait_for};
use pf_base::Step;
use pf_service::{Seat, Service};
use pf_service_fixture::{
    Closed, RED, blank, closed, makes, namespaces, seat_if, service_of, with, write_by,
};
use std::alloc::Global;
use std::marker::Brand;
use std::sync::Wait;
use std::sync::ledger::{Blank, Ledger};
use std::test::Fail;
use std::thread;
use std::thread::{Threads, join};

// How often the host polls.
const POLLS: usize = 100;

// The turns that it gives behind each poll, to whoever was woken.
const GIVEN: u64 = 1_000;

// The events besides its Resumes: three before, the read, what is written, and the Resume that is told of it.
const OTHERS: usize = 6;

fn give() {
    for _ in 0..GIVEN {
        thread::yield_now();
    }
}

// The caller that waits. No seat comes back where its call is refused.
fn wait_there<R: Wait, C: Ledger, H: Ledger>(
    rt: &R,
    alloc: Global,
    service: &Service<Global, Counter<'_>, C, H>,
    mut seat: Seat,
    read: &Step,
) -> Option<Seat> {
    let mut receipts = Vec::new(alloc);
    let is_made = service
        .call_waiting(rt, &mut seat, read, &mut receipts)
        .is_ok();
    drop(receipts);
    seat_if(is_made, seat)
}

// One poll, with a seat of its own, and turns behind both.
fn poll<R: Wait, C: Ledger, H: Ledger>(
    rt: &R,
    service: &Service<Global, Counter<'_>, C, H>,
) -> Option<Seat> {
    let mut seat = service.seat(rt, RED).ok()?;
    give();
    let is_made = makes(rt, service, &mut seat, &RESUME);
    give();
    seat_if(is_made, seat)
}

// The host polls, once the read was told, which holds the lock until it waits. Its seats come back.
fn poll_often<R: Wait, C: Ledger, H: Ledger>(
    rt: &R,
    alloc: Global,
    service: &Service<Global, Counter<'_>, C, H>,
    count: &Count,
) -> Option<Vec<Seat>> {
    let mut seats = Vec::with_capacity(alloc, POLLS).ok()?;
    if !wait_for(count, 4, TURNS) {
        return None;
    }
    for _ in 0..POLLS {
        seats.push(poll(rt, service)?).ok()?;
    }
    Some(seats)
}

// It polls, and then writes a byte for the process that waits.
fn poll_and_write<R: Wait, C: Ledger, H: Ledger>(
    rt: &R,
    alloc: Global,
    service: &Service<Global, Counter<'_>, C, H>,
    count: &Count,
    write: &Step,
) -> Option<Vec<Seat>> {
    let mut seats = poll_often(rt, alloc, service, count)?;
    let is_made = makes(rt, service, seats.last_mut()?, write);
    if is_made { Some(seats) } else { None }
}

// Both, on a thread each.
fn wait_and_poll<C: Ledger + Send + Sync, H: Ledger + Send + Sync, R: Threads + Wait + Sync>(
    rt: &R,
    alloc: Global,
    service: &Service<Global, Counter<'_>, C, H>,
    count: &Count,
    seat: Seat,
    read: &Step,
    write: &Step,
) -> Result<Vec<Seat>, Fail> {
    let (waiter, polled) = join(
        rt,
        move || wait_there(rt, alloc, service, seat, read),
        move || poll_and_write(rt, alloc, service, count, write),
    );
    with(polled.ok_or("refused")?, waiter)
}

// The same at a service of nobody yet.
fn played<C: Ledger + Send + Sync, H: Ledger + Send + Sync, R: Threads + Wait + Sync>(
    rt: &R,
    alloc: Global,
    service: &Service<Global, Counter<'_>, C, H>,
    count: &Count,
) -> Result<Vec<Seat>, Fail> {
    let opened = opened(rt, alloc, service)?;
    let seat = service.seat(rt, RED)?;
    let (read, write) = (reading(1), write_by(alloc, 2, 0x61, 1)?);
    let seats = wait_and_poll(rt, alloc, service, count, seat, &read, &write)?;
    with(seats, opened)
}

fn polled_named<C: Ledger + Send + Sync, H: Ledger + Send + Sync, R: Threads + Wait + Sync>(
    rt: &R,
    alloc: Global,
    count: &Count,
    credits: Blank,
    held: Blank,
) -> Closed
    requires blanks { IsBlankOf C.name C.parts credits × IsBlankOf H.name H.parts held }
{
    let service = service_of::<_, C, H>(alloc, namespaces(1), Counter { count }, credits, held)?;
    let seats = played(rt, alloc, &service, count);
    closed(service, seats)
}

fn polled<R: Threads + Wait + Sync>(rt: &R, alloc: Global, count: &Count) -> Closed {
    polled_named::<Brand, Brand, R>(rt, alloc, count, blank(), blank())
}

// Each poll has its Resume, and whoever waited makes one, behind what was written. A wait may end for nothing, as a
// condition variable's contract says, so a few more are right; but not one for every other poll.
#[test]
fn whoever_waits_is_left_alone_by_a_host_that_polls(rt: HostRuntime) -> Result<(), Fail> {
    let count = Count::new();
    let transcripts = polled(&rt, rt.alloc(), &count)??;
    let entries = transcripts
        .as_slice()
        .first()
        .ok_or("none")?
        .entries()
        .len();
    assert!(rt; entries >= POLLS + OTHERS && entries < POLLS + OTHERS + POLLS / 2);
    Ok(())
}
