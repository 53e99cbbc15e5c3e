//! A gate that remembers: it is told of each event once, with the event's numbers, in the order of the transcript, and
//! while the lock is held, and of each frame under its namespace's number, by a call and by one that may wait, also of
//! a namespace that was admitted. That a gate is told before the step is made is a condition of the step's own
//! (`Living::log`); that this is the service's gate, no clause says. That it is told of a frame before that is taken is
//! the way of a `GatedDepot`, and no clause either: a service's public calls don't show which frames are free.

ghost use Rattle.pf_depot.specs.Blanks.{IsBlankOf};

use crate::services::{Callers, no_answer, no_seat, serve, steps_of_blue, steps_of_red};
use pf_base::{AdmitFault, Step};
use pf_service::{Gate, Seat, Service, ServiceFault};
use pf_service_fixture::{
    BLUE, Closed, RED, Size, blank, both, closed, config_of, is_next, namespaces, place_of,
    seat_if, service_of, spawn,
};
use std::alloc::Global;
use std::marker::Brand;
use std::process::Abort;
use std::sync::Wait;
use std::sync::atomic::{AtomicU64, Ordering};
use std::sync::ledger::{Blank, Ledger};
use std::test::Fail;
use std::thread;
use std::thread::{Threads, join};

// The most turns that a thread waits for another.
const TURNS: u64 = 1_000_000;

// The turns that a gate gives to other threads while it is told of an event.
const GIVEN: u64 = 1_000;

// What a gate was told of a namespace.
#[derive(Drop)]
pub(crate) struct Told {
    // The place after the last one.
    next: AtomicU64,
    // How many events it is just told of.
    inside: AtomicU64,
    // How many frames.
    frames: AtomicU64,
    // Not 0: a place wasn't the next, or it was told of two events at once, or under another number.
    wrong: AtomicU64,
}

impl Told {
    pub(crate) fn new() -> Told {
        Told {
            next: AtomicU64::new(0),
            inside: AtomicU64::new(0),
            frames: AtomicU64::new(0),
            wrong: AtomicU64::new(0),
        }
    }

    // Whether it was so many events, one after the other.
    fn is(&self, events: u64) -> bool {
        self.next.load(Ordering::SeqCst) == events && self.wrong.load(Ordering::SeqCst) == 0
    }

    // Whether it was so many events, and so many frames.
    pub(crate) fn is_of(&self, events: u64, frames: u64) -> bool {
        self.is(events) && self.frames.load(Ordering::SeqCst) == frames
    }

    fn tell(&self, place: u64) {
        let others = self.inside.fetch_add(1, Ordering::SeqCst);
        let before = self.next.load(Ordering::SeqCst);
        for _ in 0..GIVEN {
            thread::yield_now();
        }
        let after = self.next.swap(place.wrapping_add(1), Ordering::SeqCst);
        if others != 0 || before != place || after != place {
            self.wrong.store(1, Ordering::SeqCst);
        }
        self.inside.fetch_sub(1, Ordering::SeqCst);
    }
}

// Remembers what it is told. Told of the first event, it waits until another caller is on its way.
#[derive(Drop)]
pub(crate) struct Recorder<'a> {
    pub(crate) red: &'a Told,
    pub(crate) blue: &'a Told,
    pub(crate) held: &'a AtomicU64,
    pub(crate) coming: &'a AtomicU64,
}

impl Recorder<'_> {
    // What it is told of a namespace. There are no others than these two.
    fn told_of(&self, ns: u32) -> &Told {
        if ns > BLUE {
            self.red.wrong.store(1, Ordering::SeqCst);
        }
        if ns == RED { self.red } else { self.blue }
    }
}

impl Gate for Recorder<'_> {
    ghost passed = { λ _ _ _. Unit {0} };

    ghost framed = { λ _ _. Unit {0} };

    fn pass(&self, ns: u32, place: u64) {
        let told = self.told_of(ns);
        if self.held.swap(1, Ordering::SeqCst) == 0 && !comes(self.coming) {
            told.wrong.store(1, Ordering::SeqCst);
        }
        told.tell(place);
    }

    fn frame(&self, ns: u32) {
        self.told_of(ns).frames.fetch_add(1, Ordering::SeqCst);
    }
}

// Yields until a signal has come; whether it has.
fn comes(signal: &AtomicU64) -> bool {
    for _ in 0..TURNS {
        if signal.load(Ordering::SeqCst) != 0 {
            return true;
        }
        thread::yield_now();
    }
    false
}

// Whether the gate was told last of the event at this place, where it is asked what it was told.
fn is_last(told: Option<&Told>, place: u64) -> bool {
    match told {
        Some(told) => told.is(place.wrapping_add(1)),
        None => true,
    }
}

// Makes the steps in turn, until one is refused; whether none is, and the gate is told of each of them once.
fn are_told<R: Wait, C: Ledger, H: Ledger>(
    rt: &R,
    alloc: Global,
    service: &Service<Global, Recorder<'_>, C, H>,
    seat: &mut Seat,
    steps: &[Step],
    may_wait: bool,
    told: Option<&Told>,
) -> bool {
    for step in steps {
        let Some(place) = place_of(rt, alloc, service, seat, step, may_wait) else {
            return false;
        };
        if !is_last(told, place) {
            return false;
        }
    }
    true
}

// The same with a seat that comes back where it is.
fn make_told<R: Wait, C: Ledger, H: Ledger>(
    rt: &R,
    alloc: Global,
    service: &Service<Global, Recorder<'_>, C, H>,
    mut seat: Seat,
    steps: &[Step],
    may_wait: bool,
    told: Option<&Told>,
) -> Option<Seat> {
    let all = are_told(rt, alloc, service, &mut seat, steps, may_wait, told);
    seat_if(all, seat)
}

// Whether both go, neither of whom goes twice, and one comes behind them whose number nobody has used up.
fn both_go<R: Wait, C: Ledger, H: Ledger>(
    rt: &R,
    alloc: Global,
    service: &Service<Global, Recorder<'_>, C, H>,
) -> bool {
    service.retire(rt, RED).is_ok()
        && service.retire(rt, BLUE).is_ok()
        && service.retire(rt, RED).is_err()
        && service.retire(rt, BLUE).is_err()
        && is_next(rt, alloc, service, 2)
}

// Whether an event is refused at a namespace that is retired, by a call and by one that may wait.
fn is_gone<R: Wait, C: Ledger, H: Ledger>(
    rt: &R,
    alloc: Global,
    service: &Service<Global, Recorder<'_>, C, H>,
    seat: &mut Seat,
) -> bool {
    let mut receipts = Vec::new(alloc);
    let called = service.call(rt, seat, &spawn()).err();
    let waited = service
        .call_waiting(rt, seat, &spawn(), &mut receipts)
        .err();
    drop(receipts);
    called == Some(ServiceFault::Gone) && waited == called
}

// Whether it is by each of these seats.
fn are_gone<R: Wait, C: Ledger, H: Ledger>(
    rt: &R,
    alloc: Global,
    service: &Service<Global, Recorder<'_>, C, H>,
    seats: &mut [Seat],
) -> bool {
    for seat in seats {
        if !is_gone(rt, alloc, service, seat) {
            return false;
        }
    }
    true
}

// Whether of a number there is no seat and no answer, for this reason.
fn gives_nothing<R: Wait, C: Ledger, H: Ledger>(
    rt: &R,
    service: &Service<Global, Recorder<'_>, C, H>,
    ns: u32,
    fault: ServiceFault,
) -> bool {
    no_seat(service.seat(rt, ns)) == Some(fault) && no_answer(rt, service, ns, fault)
}

// Whether one more has no room, and of its number, which nobody was given, there is no seat and no answer.
fn is_full<R: Wait, C: Ledger, H: Ledger>(
    rt: &R,
    alloc: Global,
    service: &Service<Global, Recorder<'_>, C, H>,
) -> bool {
    match config_of(1) {
        Some(config) => {
            service.admit(rt, config, alloc).err() == Some(AdmitFault::NoRoom { slack: 0 })
                && gives_nothing(rt, service, 2, ServiceFault::NoSuchNamespace)
        }
        None => false,
    }
}

// Two tenants in turn, the second of which is admitted. The gate is told of their events, by calls or by calls that may
// wait, and of their frames, of which each takes 16 at once. It isn't told of their going, nor of who comes behind
// them, nor of what is refused: an admission, a seat and a question of one that isn't there or is gone, and an event of
// one that is gone.
#[derive(Drop)]
struct ToldOnce<'a> {
    red: &'a Told,
    blue: &'a Told,
    may_wait: bool,
}

impl<'a> Callers<Recorder<'a>> for ToldOnce<'_> {
    fn work<C: Ledger, H: Ledger, R: Wait + Abort>(
        &self,
        rt: &R,
        alloc: Global,
        service: &Service<Global, Recorder<'a>, C, H>,
    ) -> Result<Vec<Seat>, Fail> {
        let config = config_of(16).ok_or("limits")?;
        assert_eq!(rt; service.admit(rt, config, alloc)?, BLUE);
        assert!(rt; is_full(rt, alloc, service));
        let (ours, theirs) = (service.seat(rt, RED)?, service.seat(rt, BLUE)?);
        let steps = steps_of_red(alloc)?;
        let told = Some(self.red);
        let ours = make_told(rt, alloc, service, ours, &steps, self.may_wait, told);
        assert!(rt; self.red.is_of(4, 16) && self.blue.is_of(0, 0));
        let told = Some(self.blue);
        let theirs = make_told(rt, alloc, service, theirs, &steps, self.may_wait, told);
        assert!(rt; self.red.is_of(4, 16) && self.blue.is_of(4, 16));
        assert!(rt; both_go(rt, alloc, service));
        assert!(rt; gives_nothing(rt, service, RED, ServiceFault::Gone));
        assert!(rt; gives_nothing(rt, service, BLUE, ServiceFault::Gone));
        assert!(rt; self.red.is_of(4, 16) && self.blue.is_of(4, 16));
        let mut seats = both(alloc, ours, theirs)?;
        assert!(rt; are_gone(rt, alloc, service, &mut seats));
        Ok(seats)
    }
}

// Two tenants are served so, of whom the second comes. At the end the gate isn't told of anything.
fn told_once<R: Wait + Abort>(rt: &R, alloc: Global, may_wait: bool) -> Closed {
    let (red, blue) = (Told::new(), Told::new());
    let (inside, coming) = (AtomicU64::new(0), AtomicU64::new(1));
    let gate = Recorder {
        red: &red,
        blue: &blue,
        held: &inside,
        coming: &coming,
    };
    let callers = ToldOnce {
        red: &red,
        blue: &blue,
        may_wait,
    };
    let size = Size {
        namespaces: 1,
        slack: 16,
    };
    let closed = serve(rt, alloc, size, gate, &callers);
    assert!(rt; red.is_of(4, 16) && blue.is_of(4, 16));
    closed
}

#[test]
fn a_gate_is_told_of_each_event_and_frame_once(rt: HostRuntime) -> Result<(), Fail> {
    let transcripts = told_once(&rt, rt.alloc(), false)??;
    assert_eq!(rt; transcripts.as_slice().len(), 3);
    Ok(())
}

#[test]
fn a_call_that_may_wait_tells_a_gate_of_them_too(rt: HostRuntime) -> Result<(), Fail> {
    let transcripts = told_once(&rt, rt.alloc(), true)??;
    assert_eq!(rt; transcripts.as_slice().len(), 3);
    Ok(())
}

// The second caller of a namespace: it calls once the gate is told of the first one's event.
fn make_behind<R: Wait, C: Ledger, H: Ledger>(
    rt: &R,
    alloc: Global,
    service: &Service<Global, Recorder<'_>, C, H>,
    seat: Seat,
    steps: &[Step],
    may_wait: bool,
    held: &AtomicU64,
    coming: &AtomicU64,
) -> Option<Seat> {
    if !comes(held) {
        return None;
    }
    coming.store(1, Ordering::SeqCst);
    make_told(rt, alloc, service, seat, steps, may_wait, None)
}

// Two callers of one namespace, on a thread each, the second while the gate is told of the first one's event.
fn one_after_the_other<C: Ledger + Send + Sync, H: Ledger + Send + Sync, R: Threads + Wait + Sync>(
    rt: &R,
    alloc: Global,
    service: &Service<Global, Recorder<'_>, C, H>,
    first: Seat,
    second: Seat,
    steps: &[Step],
    may_wait: bool,
    held: &AtomicU64,
    coming: &AtomicU64,
) -> Result<Vec<Seat>, Fail> {
    let (first, second) = join(
        rt,
        move || make_told(rt, alloc, service, first, steps, may_wait, None),
        move || make_behind(rt, alloc, service, second, steps, may_wait, held, coming),
    );
    both(alloc, first, second)
}

// The same at a service of nobody yet, to which the namespace comes where it has none.
fn first_and_second<C: Ledger + Send + Sync, H: Ledger + Send + Sync, R: Threads + Wait + Sync>(
    rt: &R,
    alloc: Global,
    service: &Service<Global, Recorder<'_>, C, H>,
    size: Size,
    may_wait: bool,
    held: &AtomicU64,
    coming: &AtomicU64,
) -> Result<Vec<Seat>, Fail> {
    let steps = steps_of_blue(alloc)?;
    if size.namespaces == 0 {
        service.admit(rt, config_of(16).ok_or("limits")?, alloc)?;
    }
    let (first, second) = (service.seat(rt, RED)?, service.seat(rt, RED)?);
    one_after_the_other(
        rt, alloc, service, first, second, &steps, may_wait, held, coming,
    )
}

fn two_callers_named<C: Ledger + Send + Sync, H: Ledger + Send + Sync, R: Threads + Wait + Sync>(
    rt: &R,
    alloc: Global,
    gate: Recorder<'_>,
    size: Size,
    may_wait: bool,
    first_in: &AtomicU64,
    second_comes: &AtomicU64,
    credits: Blank,
    held: Blank,
) -> Closed
    requires blanks { IsBlankOf C.name C.parts credits × IsBlankOf H.name H.parts held }
{
    let service = service_of::<_, C, H>(alloc, size, gate, credits, held)?;
    let seats = first_and_second(rt, alloc, &service, size, may_wait, first_in, second_comes);
    closed(service, seats)
}

fn two_callers<R: Threads + Wait + Sync>(
    rt: &R,
    alloc: Global,
    size: Size,
    may_wait: bool,
    told: &Told,
) -> Closed {
    let (inside, coming) = (AtomicU64::new(0), AtomicU64::new(0));
    let gate = Recorder {
        red: told,
        blue: told,
        held: &inside,
        coming: &coming,
    };
    two_callers_named::<Brand, Brand, R>(
        rt,
        alloc,
        gate,
        size,
        may_wait,
        &inside,
        &coming,
        blank(),
        blank(),
    )
}

// Whether the gate is told of the events of both one after the other, by calls or by calls that may wait.
fn is_held<R: Threads + Wait + Sync>(
    rt: &R,
    alloc: Global,
    size: Size,
    may_wait: bool,
) -> Result<bool, Fail> {
    let told = Told::new();
    let transcripts = two_callers(rt, alloc, size, may_wait, &told)??;
    let transcript = transcripts.as_slice().first().ok_or("none")?;
    Ok(transcript.entries().len() == 8 && told.is(8))
}

#[test]
fn a_gate_is_told_while_the_lock_is_held(rt: HostRuntime) -> Result<(), Fail> {
    let alloc = rt.alloc();
    assert!(rt; is_held(&rt, alloc, namespaces(1), false)?);
    assert!(rt; is_held(&rt, alloc, namespaces(1), true)?);
    Ok(())
}

#[test]
fn a_gate_is_told_so_of_one_that_was_admitted(rt: HostRuntime) -> Result<(), Fail> {
    let alloc = rt.alloc();
    let size = Size {
        namespaces: 0,
        slack: 16,
    };
    assert!(rt; is_held(&rt, alloc, size, false)?);
    assert!(rt; is_held(&rt, alloc, size, true)?);
    Ok(())
}
