//! Callers on threads of their own: what they are told, and that their seats fit the transcripts.

ghost use Rattle.pf_depot.specs.Blanks.{IsBlankOf};

use crate::services::{
    Plain, all_of, all_of_parts, repeat, repeats, steps_of_blue, steps_of_red, told_alone,
};
use pf_base::Step;
use pf_service::{NoGate, Seat};
use pf_service_fixture::{BLUE, Closed, RED, blank, both, closed, make, namespaces, service_of};
use std::alloc::{AllocError, Global};
use std::marker::Brand;
use std::sync::Wait;
use std::sync::ledger::{Blank, Ledger};
use std::test::Fail;
use std::thread;
use std::thread::{Threads, join};

// A tenant on a thread each.
fn on_two_threads<C: Ledger + Send + Sync, H: Ledger + Send + Sync, R: Threads + Wait + Sync>(
    rt: &R,
    alloc: Global,
    service: &Plain<C, H>,
    red: Seat,
    blue: Seat,
    first: &[Step],
    second: &[Step],
) -> Result<Vec<Seat>, Fail> {
    let (red, blue) = join(
        rt,
        move || make(rt, service, red, first),
        move || make(rt, service, blue, second),
    );
    both(alloc, blue, red)
}

fn red_and_blue<C: Ledger + Send + Sync, H: Ledger + Send + Sync, R: Threads + Wait + Sync>(
    rt: &R,
    alloc: Global,
    service: &Plain<C, H>,
) -> Result<Vec<Seat>, Fail> {
    let (ours, theirs) = (steps_of_red(alloc)?, steps_of_blue(alloc)?);
    let (red, blue) = (service.seat(rt, RED)?, service.seat(rt, BLUE)?);
    on_two_threads(rt, alloc, service, red, blue, &ours, &theirs)
}

fn two_threads_named<C: Ledger + Send + Sync, H: Ledger + Send + Sync, R: Threads + Wait + Sync>(
    rt: &R,
    alloc: Global,
    credits: Blank,
    held: Blank,
) -> Closed
    requires blanks { IsBlankOf C.name C.parts credits × IsBlankOf H.name H.parts held }
{
    let service = service_of::<_, C, H>(alloc, namespaces(2), NoGate, credits, held)?;
    let seats = red_and_blue(rt, alloc, &service);
    closed(service, seats)
}

fn two_threads<R: Threads + Wait + Sync>(rt: &R, alloc: Global) -> Closed {
    two_threads_named::<Brand, Brand, R>(rt, alloc, blank(), blank())
}

#[test]
fn two_tenants_on_two_threads_are_told_what_they_are_told_alone(
    rt: HostRuntime,
) -> Result<(), Fail> {
    let alloc = rt.alloc();
    let transcripts = two_threads(&rt, alloc)??;
    told_alone(&rt, alloc, &transcripts)
}

// Two seats at each of four namespaces.
fn two_each<R: Wait, C: Ledger, H: Ledger>(
    rt: &R,
    alloc: Global,
    service: &Plain<C, H>,
) -> Result<Vec<Seat>, Fail> {
    let mut seats = Vec::with_capacity(alloc, 8)?;
    for n in 0..8u32 {
        seats.push(service.seat(rt, n / 2)?)?;
    }
    Ok(seats)
}

// Eight threads of 10,000 calls each, two at each of four namespaces.
fn on_eight_threads<C: Ledger + Send + Sync, H: Ledger + Send + Sync, R: Threads + Wait + Sync>(
    rt: &R,
    alloc: Global,
    service: &Plain<C, H>,
    seats: Vec<Seat>,
    steps: &[Step],
) -> Result<Vec<Seat>, Fail> {
    let back = thread::map_vec(
        rt,
        seats,
        &|seat: Seat| repeat(rt, service, seat, steps, 2_500),
    )?;
    all_of(alloc, back)
}

fn eight_callers<C: Ledger + Send + Sync, H: Ledger + Send + Sync, R: Threads + Wait + Sync>(
    rt: &R,
    alloc: Global,
    service: &Plain<C, H>,
) -> Result<Vec<Seat>, Fail> {
    let steps = steps_of_blue(alloc)?;
    let seats = two_each(rt, alloc, service)?;
    on_eight_threads(rt, alloc, service, seats, &steps)
}

fn eight_threads_named<C: Ledger + Send + Sync, H: Ledger + Send + Sync, R: Threads + Wait + Sync>(
    rt: &R,
    alloc: Global,
    credits: Blank,
    held: Blank,
) -> Closed
    requires blanks { IsBlankOf C.name C.parts credits × IsBlankOf H.name H.parts held }
{
    let service = service_of::<_, C, H>(alloc, namespaces(4), NoGate, credits, held)?;
    let seats = eight_callers(rt, alloc, &service);
    closed(service, seats)
}

fn eight_threads<R: Threads + Wait + Sync>(rt: &R, alloc: Global) -> Closed {
    eight_threads_named::<Brand, Brand, R>(rt, alloc, blank(), blank())
}

#[test]
fn eight_threads_agree_with_four_transcripts(rt: HostRuntime) -> Result<(), Fail> {
    let transcripts = eight_threads(&rt, rt.alloc())??;
    assert_eq!(rt; transcripts.as_slice().len(), 4);
    for transcript in transcripts.as_slice() {
        assert_eq!(rt; transcript.entries().len(), 20_000);
    }
    Ok(())
}

// Makes the steps in turn with each of these seats, many times, until one is refused; whether none is.
fn repeats_all<R: Wait, C: Ledger, H: Ledger>(
    rt: &R,
    service: &Plain<C, H>,
    seats: &mut [Seat],
    steps: &[Step],
) -> bool {
    for seat in seats {
        if !repeats(rt, service, seat, steps, 250) {
            return false;
        }
    }
    true
}

// The same with seats that come back where none is.
fn repeat_all<R: Wait, C: Ledger, H: Ledger>(
    rt: &R,
    service: &Plain<C, H>,
    mut seats: Vec<Seat>,
    steps: &[Step],
) -> Option<Vec<Seat>> {
    if repeats_all(rt, service, &mut seats, steps) {
        Some(seats)
    } else {
        None
    }
}

// A seat at each of eight namespaces, from this one on.
fn eight_seats<R: Wait, C: Ledger, H: Ledger>(
    rt: &R,
    alloc: Global,
    service: &Plain<C, H>,
    first: u8,
) -> Result<Vec<Seat>, Fail> {
    let mut seats = Vec::with_capacity(alloc, 8)?;
    let first = u32::from(first);
    for ns in first..first + 8 {
        seats.push(service.seat(rt, ns)?)?;
    }
    Ok(seats)
}

// The seats of 64 namespaces, eight at a time.
fn eight_times_eight_seats<R: Wait, C: Ledger, H: Ledger>(
    rt: &R,
    alloc: Global,
    service: &Plain<C, H>,
) -> Result<Vec<Vec<Seat>>, Fail> {
    let mut jobs = Vec::with_capacity(alloc, 8)?;
    for n in 0..8u8 {
        jobs.push(eight_seats(rt, alloc, service, 8 * n)?)?;
    }
    Ok(jobs)
}

fn steps_to_the_end(alloc: Global) -> Result<Vec<Step>, AllocError> {
    let mut steps = steps_of_blue(alloc)?;
    steps.push(Step::Exit { pid: 1 })?;
    Ok(steps)
}

// Eight threads of 10,000 calls each, at eight namespaces of their own each.
fn at_64_namespaces<C: Ledger + Send + Sync, H: Ledger + Send + Sync, R: Threads + Wait + Sync>(
    rt: &R,
    alloc: Global,
    service: &Plain<C, H>,
    jobs: Vec<Vec<Seat>>,
    steps: &[Step],
) -> Result<Vec<Seat>, Fail> {
    let back = thread::map_vec(
        rt,
        jobs,
        &|seats: Vec<Seat>| repeat_all(rt, service, seats, steps),
    )?;
    all_of_parts(alloc, back)
}

fn sixty_four_callers<C: Ledger + Send + Sync, H: Ledger + Send + Sync, R: Threads + Wait + Sync>(
    rt: &R,
    alloc: Global,
    service: &Plain<C, H>,
) -> Result<Vec<Seat>, Fail> {
    let steps = steps_to_the_end(alloc)?;
    let jobs = eight_times_eight_seats(rt, alloc, service)?;
    at_64_namespaces(rt, alloc, service, jobs, &steps)
}

fn eight_times_eight_named<
    C: Ledger + Send + Sync,
    H: Ledger + Send + Sync,
    R: Threads + Wait + Sync,
>(rt: &R, alloc: Global, credits: Blank, held: Blank) -> Closed
    requires blanks { IsBlankOf C.name C.parts credits × IsBlankOf H.name H.parts held }
{
    let service = service_of::<_, C, H>(alloc, namespaces(64), NoGate, credits, held)?;
    let seats = sixty_four_callers(rt, alloc, &service);
    closed(service, seats)
}

fn eight_times_eight<R: Threads + Wait + Sync>(rt: &R, alloc: Global) -> Closed {
    eight_times_eight_named::<Brand, Brand, R>(rt, alloc, blank(), blank())
}

#[test]
fn eight_threads_agree_with_64_transcripts(rt: HostRuntime) -> Result<(), Fail> {
    let transcripts = eight_times_eight(&rt, rt.alloc())??;
    assert_eq!(rt; transcripts.as_slice().len(), 64);
    for transcript in transcripts.as_slice() {
        assert_eq!(rt; transcript.entries().len(), 1_250);
    }
    Ok(())
}
