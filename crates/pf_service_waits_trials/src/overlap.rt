//! Two namespaces' events overlap: a gate holds one of the first namespace, before its step, before a frame that it
//! takes, or behind that and before the next, until the second namespace has taken a frame too, and a third has come and
//! gone. Which of the two is the first one the test says, and whether the events are made by calls or by calls that may
//! wait. With one lock around both, or with the depot's kept behind a frame, or held by who asks something of the first
//! namespace meanwhile, the turns would be used up.

ghost use Rattle.pf_depot.specs.Blanks.{IsBlankOf};

use pf_base::{ByteString, Reply, Step};
use pf_service::{Gate, Seat, Service};
use pf_service_fixture::{
    BLUE, Closed, RED, blank, both, closed, config_of, make, namespaces, place_of, seat_if,
    service_of, spawn, with, write,
};
use std::alloc::{AllocError, Global};
use std::marker::Brand;
use std::sync::Wait;
use std::sync::atomic::{AtomicU64, Ordering};
use std::sync::ledger::{Blank, Ledger};
use std::test::Fail;
use std::thread;
use std::thread::{Threads, join};

// The most turns that a thread waits for another.
const TURNS: u64 = 10_000_000;

// The turns that who asks is given, until it waits for a lock.
const GIVEN: u64 = 100;

// What the threads tell each other.
#[derive(Drop)]
struct Signals {
    // The first namespace, which is held, and the second.
    first: u32,
    second: u32,
    // Whether their events are made by calls that may wait, and where these put their receipts.
    may_wait: bool,
    alloc: Global,
    // Not 0: an event of the first namespace is held.
    held: AtomicU64,
    // Not 0: somebody is about to ask of the first namespace.
    asked: AtomicU64,
    // How many frames of the first namespace were told.
    frames: AtomicU64,
    // Not 0: the second namespace was answered.
    done: AtomicU64,
    // Not 0: one waited for all its turns.
    used_up: AtomicU64,
}

impl Signals {
    fn new(alloc: Global, first: u32, may_wait: bool) -> Signals {
        Signals {
            first,
            second: if first == RED { BLUE } else { RED },
            may_wait,
            alloc,
            held: AtomicU64::new(0),
            asked: AtomicU64::new(0),
            frames: AtomicU64::new(0),
            done: AtomicU64::new(0),
            used_up: AtomicU64::new(0),
        }
    }

    // Yields until a signal has come.
    fn wait_for(&self, signal: &AtomicU64) {
        for _ in 0..TURNS {
            if signal.load(Ordering::SeqCst) != 0 {
                return;
            }
            thread::yield_now();
        }
        self.used_up.store(1, Ordering::SeqCst);
    }

    // Gives turns to other threads.
    fn give(&self) {
        for _ in 0..GIVEN {
            thread::yield_now();
        }
    }

    // Holds the first event that comes here.
    fn hold(&self) {
        if self.held.swap(1, Ordering::SeqCst) == 0 {
            self.wait_for(&self.done);
        }
    }
}

// Where the first namespace is held: before its first step, or before a frame, by how many it has taken before.
#[derive(Clone, Copy, PartialEq, Eq)]
enum Held {
    AtItsStep,
    AtItsFrame(u64),
}

// Holds an event of the first namespace.
#[derive(Drop)]
struct Holder<'a> {
    held: Held,
    signals: &'a Signals,
}

impl Gate for Holder<'_> {
    ghost passed = { λ _ _ _. Unit {0} };

    ghost framed = { λ _ _. Unit {0} };

    fn pass(&self, ns: u32, place: u64) {
        let _ = place;
        if ns == self.signals.first && self.held == Held::AtItsStep {
            self.signals.hold();
        }
    }

    fn frame(&self, ns: u32) {
        if ns == self.signals.first {
            let before = self.signals.frames.fetch_add(1, Ordering::SeqCst);
            if self.held == Held::AtItsFrame(before) {
                self.signals.hold();
            }
        }
    }
}

// A process writes so many bytes to its pipe.
fn writing(alloc: Global, count: usize) -> Result<Vec<Step>, AllocError> {
    let mut steps = Vec::with_capacity(alloc, 3)?;
    steps.push(spawn())?;
    steps.push(Step::Pipe {
        pid: 1,
        nonblock: false,
    })?;
    steps.push(write(alloc, 0x61, count)?)?;
    Ok(steps)
}

// What is asked of a namespace.
#[derive(Clone, Copy)]
enum Asked {
    Nothing,
    CanGoOn,
    NextToGoOn,
    Readiness,
    Seat,
}

// Whether it is answered. For a seat one asks by itself.
fn is_answered<R: Wait, C: Ledger, H: Ledger>(
    rt: &R,
    service: &Service<Global, Holder<'_>, C, H>,
    ns: u32,
    asked: Asked,
) -> bool {
    match asked {
        Asked::CanGoOn => service.can_go_on(rt, ns, 1).is_ok(),
        Asked::NextToGoOn => service.next_to_go_on(rt, ns, 0).is_ok(),
        Asked::Readiness => service.readiness(rt, ns, 1, 0).is_ok(),
        Asked::Nothing | Asked::Seat => true,
    }
}

// Whether all are.
fn are_answered<R: Wait, C: Ledger, H: Ledger>(
    rt: &R,
    service: &Service<Global, Holder<'_>, C, H>,
    ns: u32,
) -> bool {
    is_answered(rt, service, ns, Asked::CanGoOn)
        && is_answered(rt, service, ns, Asked::NextToGoOn)
        && is_answered(rt, service, ns, Asked::Readiness)
}

// Makes the steps in turn, by calls or by calls that may wait, until one is refused; whether none is.
fn makes_each<R: Wait, C: Ledger, H: Ledger>(
    rt: &R,
    service: &Service<Global, Holder<'_>, C, H>,
    seat: &mut Seat,
    steps: &[Step],
    signals: &Signals,
) -> bool {
    for step in steps {
        if place_of(rt, signals.alloc, service, seat, step, signals.may_wait).is_none() {
            return false;
        }
    }
    true
}

// The same with a seat that comes back where none is.
fn make_each<R: Wait, C: Ledger, H: Ledger>(
    rt: &R,
    service: &Service<Global, Holder<'_>, C, H>,
    mut seat: Seat,
    steps: &[Step],
    signals: &Signals,
) -> Option<Seat> {
    let all = makes_each(rt, service, &mut seat, steps, signals);
    seat_if(all, seat)
}

// Whether a namespace comes that reserves no frame, and goes.
fn comes_and_goes<R: Wait, C: Ledger, H: Ledger>(
    rt: &R,
    alloc: Global,
    service: &Service<Global, Holder<'_>, C, H>,
) -> bool {
    let Some(config) = config_of(0) else {
        return false;
    };
    match service.admit(rt, config, alloc) {
        Ok(ns) => service.retire(rt, ns).is_ok(),
        Err(_) => false,
    }
}

// The first namespace. Behind the step at which it may be held, whoever waits for its lock has some turns.
fn make_held<R: Wait, C: Ledger, H: Ledger>(
    rt: &R,
    service: &Service<Global, Holder<'_>, C, H>,
    seat: Seat,
    steps: &[Step],
    signals: &Signals,
) -> Option<Seat> {
    let (first, others) = steps.split_at(steps.len().min(1));
    let seat = make_each(rt, service, seat, first, signals)?;
    signals.give();
    make_each(rt, service, seat, others, signals)
}

// The second namespace: it begins once the first is held, and who asks of that has had some turns. It asks of itself
// too, and a third one comes and goes.
fn make_beside<R: Wait, C: Ledger, H: Ledger>(
    rt: &R,
    service: &Service<Global, Holder<'_>, C, H>,
    steps: &[Step],
    signals: &Signals,
) -> Option<Seat> {
    signals.wait_for(&signals.asked);
    signals.give();
    let seat = service.seat(rt, signals.second).ok()?;
    let seat = make_each(rt, service, seat, steps, signals)?;
    let all = are_answered(rt, service, signals.second)
        && comes_and_goes(rt, signals.alloc, service);
    signals.done.store(1, Ordering::SeqCst);
    seat_if(all, seat)
}

// Who asks of the first namespace while that is held, and then takes a seat there: it waits for that one's lock, and
// holds nobody else.
fn ask<R: Wait, C: Ledger, H: Ledger>(
    rt: &R,
    service: &Service<Global, Holder<'_>, C, H>,
    asked: Asked,
    signals: &Signals,
) -> Option<Seat> {
    signals.wait_for(&signals.held);
    signals.asked.store(1, Ordering::SeqCst);
    if let Asked::Nothing = asked {
        signals.wait_for(&signals.done);
    }
    if !is_answered(rt, service, signals.first, asked) {
        return None;
    }
    service.seat(rt, signals.first).ok()
}

// A process reads the first of what it wrote.
fn reading(alloc: Global) -> Result<Vec<Step>, AllocError> {
    let mut steps = Vec::with_capacity(alloc, 1)?;
    steps.push(Step::Read {
        pid: 1,
        fd: 0,
        n: 9,
    })?;
    Ok(steps)
}

// Both namespaces write so many bytes on a thread each, while another asks of the first.
fn three_beside<C: Ledger + Send + Sync, H: Ledger + Send + Sync, R: Threads + Wait + Sync>(
    rt: &R,
    service: &Service<Global, Holder<'_>, C, H>,
    signals: &Signals,
    ours: Seat,
    asked: Asked,
    steps: &[Step],
) -> (Option<Seat>, Option<Seat>, Option<Seat>) {
    let (ours, (theirs, asker)) = join(
        rt,
        move || make_held(rt, service, ours, steps, signals),
        move || {
            join(
                rt,
                move || make_beside(rt, service, steps, signals),
                move || ask(rt, service, asked, signals),
            )
        },
    );
    (ours, theirs, asker)
}

// The same, and then another thread reads the first of what the first namespace wrote.
fn beside<C: Ledger + Send + Sync, H: Ledger + Send + Sync, R: Threads + Wait + Sync>(
    rt: &R,
    alloc: Global,
    service: &Service<Global, Holder<'_>, C, H>,
    signals: &Signals,
    ours: Seat,
    reader: Seat,
    asked: Asked,
    steps: &[Step],
    last: &[Step],
) -> Result<Vec<Seat>, Fail> {
    let (ours, theirs, asker) = three_beside(rt, service, signals, ours, asked, steps);
    let (reader, ()) = join(rt, move || make(rt, service, reader, last), || ());
    with(with(both(alloc, ours, theirs)?, asker)?, reader)
}

// The same at a service of nobody yet.
fn writers_and_reader<C: Ledger + Send + Sync, H: Ledger + Send + Sync, R: Threads + Wait + Sync>(
    rt: &R,
    alloc: Global,
    service: &Service<Global, Holder<'_>, C, H>,
    signals: &Signals,
    asked: Asked,
    count: usize,
) -> Result<Vec<Seat>, Fail> {
    let (steps, last) = (writing(alloc, count)?, reading(alloc)?);
    let first = signals.first;
    let (ours, reader) = (service.seat(rt, first)?, service.seat(rt, first)?);
    beside(
        rt, alloc, service, signals, ours, reader, asked, &steps, &last,
    )
}

fn both_beside_named<C: Ledger + Send + Sync, H: Ledger + Send + Sync, R: Threads + Wait + Sync>(
    rt: &R,
    alloc: Global,
    at: Held,
    signals: &Signals,
    asked: Asked,
    count: usize,
    credits: Blank,
    held: Blank,
) -> Closed
    requires blanks { IsBlankOf C.name C.parts credits × IsBlankOf H.name H.parts held }
{
    let service = service_of::<_, C, H>(
        alloc,
        namespaces(2),
        Holder { held: at, signals },
        credits,
        held,
    )?;
    let seats = writers_and_reader(rt, alloc, &service, signals, asked, count);
    closed(service, seats)
}

fn both_beside<R: Threads + Wait + Sync>(
    rt: &R,
    alloc: Global,
    at: Held,
    signals: &Signals,
    asked: Asked,
    count: usize,
) -> Closed {
    both_beside_named::<Brand, Brand, R>(rt, alloc, at, signals, asked, count, blank(), blank())
}

// Whether all went on beside each other, where each namespace writes so many bytes, and what the first wrote was read.
fn is_beside<R: Threads + Wait + Sync>(
    rt: &R,
    alloc: Global,
    first: u32,
    may_wait: bool,
    held: Held,
    asked: Asked,
    count: usize,
) -> Result<bool, Fail> {
    let signals = Signals::new(alloc, first, may_wait);
    let transcripts = both_beside(rt, alloc, held, &signals, asked, count)??;
    let each = transcripts.as_slice();
    let own = each.get(first as usize).ok_or("none")?.entries();
    let last = own.last().ok_or("none")?;
    let told = Reply::Bytes(ByteString::new(alloc, Vec::from_elem(alloc, 0x61, count.min(9))?)?);
    let waited = signals.used_up.load(Ordering::SeqCst) != 0;
    Ok(!waited && each.len() == 3 && own.len() == 4 && last.1 == told)
}

#[test]
fn an_event_held_before_its_step_holds_nobody_else(rt: HostRuntime) -> Result<(), Fail> {
    let (held, asked) = (Held::AtItsStep, Asked::Nothing);
    for (first, may_wait) in [(RED, false), (RED, true), (BLUE, false), (BLUE, true)] {
        assert!(rt; is_beside(&rt, rt.alloc(), first, may_wait, held, asked, 5)?);
    }
    Ok(())
}

#[test]
fn an_event_held_before_its_frame_holds_nobody_else(rt: HostRuntime) -> Result<(), Fail> {
    let (held, asked) = (Held::AtItsFrame(0), Asked::Nothing);
    for may_wait in [false, true] {
        assert!(rt; is_beside(&rt, rt.alloc(), RED, may_wait, held, asked, 5)?);
    }
    Ok(())
}

// A write of two pages has taken its first frame.
#[test]
fn an_event_held_behind_a_frame_holds_nobody_else(rt: HostRuntime) -> Result<(), Fail> {
    let (held, asked) = (Held::AtItsFrame(1), Asked::Nothing);
    for may_wait in [false, true] {
        assert!(rt; is_beside(&rt, rt.alloc(), RED, may_wait, held, asked, 8_192)?);
    }
    Ok(())
}

// The event that is held takes no frame. So it comes to its end, and the test too, also where who asks has the depot's
// lock.
#[test]
fn who_asks_of_one_that_is_held_holds_nobody_else(rt: HostRuntime) -> Result<(), Fail> {
    let each = [
        Asked::CanGoOn,
        Asked::NextToGoOn,
        Asked::Readiness,
        Asked::Seat,
    ];
    for asked in &each {
        assert!(rt; is_beside(&rt, rt.alloc(), RED, false, Held::AtItsStep, *asked, 5)?);
        assert!(rt; is_beside(&rt, rt.alloc(), BLUE, false, Held::AtItsStep, *asked, 5)?);
    }
    Ok(())
}
