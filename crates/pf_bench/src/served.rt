//! Pairs of a write and a read through a service: by one caller, and by four on threads of their own.

ghost use Rattle.std.specs.Prelude.{◌≡◌};
ghost use Rattle.pf_base.specs.declared.TheConstants.{MAX_NAMESPACES};
ghost use Rattle.pf_depot.specs.Blanks.{IsBlankOf};

use crate::{BATCH, Pair, Shape, pipe, spawn};
use pf_base::{MAX_NAMESPACES, PAGE_SIZE, Reply, Step};
use pf_service::{NoGate, Seat, Service};
use std::alloc::{AllocError, Global};
use std::io;
use std::marker::Brand;
use std::sync::Wait;
use std::sync::ledger::{Blank, Ledger};
use std::thread::{self, Threads};
use std::time::Instant;

type Shared<C, H> = Service<Global, NoGate, C, H>;

/// How many callers there are on threads of their own, each at a namespace of its own.
const CALLERS: u32 = 4;

/// A namespace for each.
const SHAPE: Shape = Shape {
    namespaces: CALLERS,
    frames: 256,
};

/// How many pairs of each caller the fixed load has.
const FIXED_PAIRS: u32 = 250;

/// How many pairs of a caller are timed at most: a service keeps all that was said.
const MOST_PAIRS: u32 = 50_000;

/// How many pairs of a page of bytes are timed of a caller at most.
const MOST_PAGE_PAIRS: u32 = 5_000;

/// A ledger with a part for each namespace that there may be.
pub(crate) fn blank() -> Blank
    ensures { result.parts ≡ MAX_NAMESPACES }
{
    Blank::new(MAX_NAMESPACES as u64)
}

/// A service of this shape.
fn service<C: Ledger, H: Ledger>(
    alloc: Global,
    shape: Shape,
    credits: Blank,
    held: Blank,
) -> Option<Shared<C, H>>
    requires blanks { IsBlankOf C.name C.parts credits × IsBlankOf H.name H.parts held }
{
    let frames = shape.frames(alloc).ok()?;
    let configs = shape.configs(alloc).ok()?;
    Service::new(alloc, frames, configs, NoGate, credits, held).ok()
}

// A call's receipt, a seat and a service are dear to prove where one is let go at several ways out, or in a loop. So each
// is taken by a function that has one.

/// What a call is told, if it isn't refused.
#[inline(always)]
fn told<R: Wait, C: Ledger, H: Ledger>(
    rt: &R,
    service: &Shared<C, H>,
    seat: &mut Seat,
    step: &Step,
) -> Option<Reply> {
    Some(service.call(rt, seat, step).ok()?.reply)
}

/// Whether this is what a call was told.
#[inline(always)]
fn is(told: Option<Reply>, reply: Reply) -> bool {
    match told {
        Some(told) => told == reply,
        None => false,
    }
}

/// Whether a call was told these bytes.
#[inline(always)]
fn is_bytes(told: Option<Reply>, bytes: &[u8]) -> bool {
    match told {
        Some(Reply::Bytes(told)) => told.as_slice() == bytes,
        _ => false,
    }
}

/// Whether a namespace's first process with a pipe is made.
fn starts<R: Wait, C: Ledger, H: Ledger>(rt: &R, service: &Shared<C, H>, seat: &mut Seat) -> bool {
    is(told(rt, service, seat, &spawn()), Reply::Pid(1))
        && is(told(rt, service, seat, &pipe()), Reply::Fds(0, 1))
}

/// A seat at a namespace, whose first process has a pipe.
fn seat<R: Wait, C: Ledger, H: Ledger>(rt: &R, service: &Shared<C, H>, ns: u32) -> Option<Seat> {
    let mut seat = service.seat(rt, ns).ok()?;
    if starts(rt, service, &mut seat) {
        Some(seat)
    } else {
        None
    }
}

/// Whether a pair is answered right.
#[inline(always)]
fn plays_once<R: Wait, C: Ledger, H: Ledger>(
    rt: &R,
    service: &Shared<C, H>,
    seat: &mut Seat,
    pair: &Pair,
) -> bool {
    let size = pair.payload.len() as u64;
    is(told(rt, service, seat, &pair.write), Reply::Num(size))
        && is_bytes(told(rt, service, seat, &pair.read), &pair.payload)
}

/// Makes so many pairs, and says whether each was answered right.
fn plays<R: Wait, C: Ledger, H: Ledger>(
    rt: &R,
    service: &Shared<C, H>,
    seat: &mut Seat,
    pair: &Pair,
    pairs: u32,
) -> bool {
    for _ in 0..pairs {
        if !plays_once(rt, service, seat, pair) {
            return false;
        }
    }
    true
}

/// The same with a seat that comes back, but where an answer was wrong.
fn play<R: Wait, C: Ledger, H: Ledger>(
    rt: &R,
    service: &Shared<C, H>,
    mut seat: Seat,
    pair: &Pair,
    pairs: u32,
) -> Option<Seat> {
    if plays(rt, service, &mut seat, pair, pairs) {
        Some(seat)
    } else {
        None
    }
}

/// Whether seats at all namespaces are taken, one at each.
fn takes_seats<R: Wait, C: Ledger, H: Ledger>(
    rt: &R,
    service: &Shared<C, H>,
    seats: &mut Vec<Seat>,
) -> bool {
    for ns in 0..CALLERS {
        let Some(seat) = seat(rt, service, ns) else {
            return false;
        };
        if seats.push(seat).is_err() {
            return false;
        }
    }
    true
}

/// Seats at all namespaces, one at each.
fn seats<R: Wait, C: Ledger, H: Ledger>(
    rt: &R,
    alloc: Global,
    service: &Shared<C, H>,
) -> Option<Vec<Seat>> {
    let mut seats = Vec::with_capacity(alloc, CALLERS as usize).ok()?;
    if takes_seats(rt, service, &mut seats) {
        Some(seats)
    } else {
        None
    }
}

/// The seats that came back, if all did.
fn all_of(alloc: Global, back: Vec<Option<Seat>>) -> Option<Vec<Seat>> {
    let mut seats = Vec::with_capacity(alloc, CALLERS as usize).ok()?;
    for seat in back {
        seats.push(seat?).ok()?;
    }
    Some(seats)
}

/// Makes so many pairs with each seat, each on a thread of its own. No seats come back where an answer was wrong.
fn play_at_once<C: Ledger + Send + Sync, H: Ledger + Send + Sync, R: Threads + Wait + Sync>(
    rt: &R,
    alloc: Global,
    service: &Shared<C, H>,
    seats: Vec<Seat>,
    pair: &Pair,
    pairs: u32,
) -> Option<Vec<Seat>> {
    let back = thread::map_vec(
        rt,
        seats,
        &|seat: Seat| play(rt, service, seat, pair, pairs),
    );
    all_of(alloc, back.ok()?)
}

/// Makes so many pairs with a seat at each namespace.
fn played<C: Ledger + Send + Sync, H: Ledger + Send + Sync, R: Threads + Wait + Sync>(
    rt: &R,
    alloc: Global,
    service: &Shared<C, H>,
    pair: &Pair,
    pairs: u32,
) -> Option<Vec<Seat>> {
    let seats = seats(rt, alloc, service)?;
    play_at_once(rt, alloc, service, seats, pair, pairs)
}

/// Whether all seats came back, and agree with all transcripts.
fn agrees<C: Ledger, H: Ledger>(service: Shared<C, H>, seats: Option<Vec<Seat>>) -> bool {
    match seats {
        Some(seats) => service.close(seats).is_ok(),
        None => false,
    }
}

/// Whether the callers are told what is right, so many pairs each, and all seats agree with all transcripts.
fn all_agree<C: Ledger + Send + Sync, H: Ledger + Send + Sync, R: Threads + Wait + Sync>(
    rt: &R,
    alloc: Global,
    credits: Blank,
    held: Blank,
    pair: &Pair,
    pairs: u32,
) -> bool
    requires blanks { IsBlankOf C.name C.parts credits × IsBlankOf H.name H.parts held }
{
    let Some(service) = service::<C, H>(alloc, SHAPE, credits, held) else {
        return false;
    };
    let seats = played(rt, alloc, &service, pair, pairs);
    agrees(service, seats)
}

/// Plays a short fixed load, and says whether each answer was right.
pub(crate) fn play_fixed<R: Threads + Wait + Sync>(
    threads: &R,
    alloc: Global,
) -> Result<bool, AllocError> {
    let pair = Pair::new(alloc, 1)?;
    Ok(all_agree::<Brand, Brand, R>(threads, alloc, blank(), blank(), &pair, FIXED_PAIRS))
}

/// How many nanoseconds a pair of one caller takes: in the fastest batch, and in the mean of all batches, in which the
/// growth of what is kept counts too.
#[derive(Clone, Copy)]
struct Alone {
    least: u128,
    mean: u128,
}

/// Times one caller's pairs, if each answer was right.
fn time_alone<R: Wait, C: Ledger, H: Ledger>(
    rt: &HostRuntime,
    threads: &R,
    service: &Shared<C, H>,
    seat: &mut Seat,
    pair: &Pair,
    pairs: u32,
) -> io::Result<Option<Alone>> {
    let mut least = u128::MAX;
    let mut all: u128 = 0;
    let batches = (pairs / BATCH).max(1);
    for _ in 0..batches {
        let start = Instant::now(rt)?;
        if !plays(threads, service, seat, pair, BATCH) {
            return Ok(None);
        }
        let spent = start.elapsed(rt)?.as_nanos();
        least = least.min(spent);
        all = all.saturating_add(spent);
    }
    Ok(Some(Alone {
        least: least / u128::from(BATCH),
        mean: all / u128::from(BATCH) / u128::from(batches),
    }))
}

/// The same with the last of these seats.
fn time_last<R: Wait, C: Ledger, H: Ledger>(
    rt: &HostRuntime,
    threads: &R,
    service: &Shared<C, H>,
    seats: &mut [Seat],
    pair: &Pair,
    pairs: u32,
) -> io::Result<Option<Alone>> {
    match seats.last_mut() {
        Some(last) => time_alone(rt, threads, service, last, pair, pairs),
        None => Ok(None),
    }
}

/// How long a pair took, of one caller and of all at once, with the seats that made them.
#[derive(Drop)]
struct Timed {
    seats: Vec<Seat>,
    alone: Alone,
    at_once: u128,
}

/// Times so many pairs of all callers at once, if each answer was right, of whom one was timed alone.
fn time_at_once<C: Ledger + Send + Sync, H: Ledger + Send + Sync, R: Threads + Wait + Sync>(
    rt: &HostRuntime,
    threads: &R,
    service: &Shared<C, H>,
    seats: Vec<Seat>,
    alone: Alone,
    pair: &Pair,
    pairs: u32,
) -> io::Result<Option<Timed>> {
    let start = Instant::now(rt)?;
    let Some(seats) = play_at_once(threads, rt.alloc(), service, seats, pair, pairs) else {
        return Ok(None);
    };
    let at_once = start.elapsed(rt)?.as_nanos() / u128::from(pairs.max(1));
    Ok(Some(Timed {
        seats,
        alone,
        at_once,
    }))
}

/// Times so many pairs of one caller alone, and of all at once, if each answer was right.
fn time_seats<C: Ledger + Send + Sync, H: Ledger + Send + Sync, R: Threads + Wait + Sync>(
    rt: &HostRuntime,
    threads: &R,
    service: &Shared<C, H>,
    pair: &Pair,
    pairs: u32,
) -> io::Result<Option<Timed>> {
    let Some(mut seats) = seats(threads, rt.alloc(), service) else {
        return Ok(None);
    };
    let Some(alone) = time_last(rt, threads, service, &mut seats, pair, pairs)? else {
        return Ok(None);
    };
    time_at_once(rt, threads, service, seats, alone, pair, pairs)
}

/// How many nanoseconds the comparison at the end takes for each of so many pairs, if all seats agree with all transcripts.
fn time_close<C: Ledger, H: Ledger>(
    rt: &HostRuntime,
    service: Shared<C, H>,
    seats: Vec<Seat>,
    start: Instant,
    pairs: u32,
) -> io::Result<Option<u128>> {
    if service.close(seats).is_err() {
        return Ok(None);
    }
    Ok(Some(start.elapsed(rt)?.as_nanos() / u128::from(pairs.max(1))))
}

/// Closes a service, and prints what its callers' pairs of this size took, and the comparison at the end.
fn time_end<C: Ledger, H: Ledger>(
    rt: &HostRuntime,
    service: Shared<C, H>,
    timed: io::Result<Option<Timed>>,
    size: usize,
    pairs: u32,
) -> io::Result<bool> {
    let Some(timed) = timed? else {
        return Ok(false);
    };
    let start = Instant::now(rt)?;
    let Timed {
        seats,
        alone,
        at_once,
    } = timed;
    match time_close(rt, service, seats, start, pairs)? {
        Some(closed) => print(rt, size, alone, at_once, closed),
        None => Ok(false),
    }
}

/// Prints what pairs of this size took.
fn print(
    rt: &HostRuntime,
    size: usize,
    alone: Alone,
    at_once: u128,
    closed: u128,
) -> io::Result<bool> {
    let Alone { least, mean } = alone;
    println!(rt; "service {size} bytes: {least} ns a pair of one caller; {mean} in the mean")?;
    println!(rt;
        "service {size} bytes: {at_once} ns for a pair of each of {CALLERS} callers at once"
    )?;
    println!(rt; "service {size} bytes: {closed} ns to close for these and a pair of one caller")?;
    Ok(true)
}

/// Times so many of these pairs: of one caller alone, of all at once, and the comparison at the end.
fn time_this<C: Ledger + Send + Sync, H: Ledger + Send + Sync, R: Threads + Wait + Sync>(
    rt: &HostRuntime,
    threads: &R,
    credits: Blank,
    held: Blank,
    pair: &Pair,
    pairs: u32,
) -> io::Result<bool>
    requires blanks { IsBlankOf C.name C.parts credits × IsBlankOf H.name H.parts held }
{
    let Some(service) = service::<C, H>(rt.alloc(), SHAPE, credits, held) else {
        return Ok(false);
    };
    let timed = time_seats(rt, threads, &service, pair, pairs);
    time_end(rt, service, timed, pair.payload.len(), pairs)
}

/// Times so many pairs of one size, and says whether all was right.
fn time_size<R: Threads + Wait + Sync>(
    rt: &HostRuntime,
    threads: &R,
    size: usize,
    pairs: u32,
) -> io::Result<bool> {
    let pair = Pair::new(rt.alloc(), size)?;
    time_this::<Brand, Brand, R>(rt, threads, blank(), blank(), &pair, pairs)
}

/// Times so many pairs of a byte and of a page, and says whether all was right.
pub(crate) fn time<R: Threads + Wait + Sync>(
    rt: &HostRuntime,
    threads: &R,
    pairs: u32,
) -> io::Result<bool> {
    for size in [1, PAGE_SIZE] {
        let most = if size == 1 {
            MOST_PAIRS
        } else {
            MOST_PAGE_PAIRS
        };
        if !time_size(rt, threads, size, pairs.clamp(BATCH, most))? {
            return Ok(false);
        }
    }
    Ok(true)
}
