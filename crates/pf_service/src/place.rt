ghost use Rattle.std.specs.Prelude.{◌≡◌, ◌<◌, [], ◌∷◌, ◌&&◌, false, true, nat_eq, length, All, IfOk, IfErr, OnOk, OnErr};
ghost use Rattle.pf_service.specs.Faults.{IsApplyFault};
ghost use Rattle.pf_service.specs.Log.{IsLogged};
ghost use Rattle.pf_service.specs.Said.{IsRefusedThere};
ghost use Rattle.pf_service.specs.Seats.{Gains, event_at};
ghost use Rattle.pf_service.specs.Tenants.{IsEvent, IsHappening, IsSameTenant, IsTenantFault, IsToldOfMore};
ghost use Rattle.pf_service.specs.Tenants.{became, is_idle_at};
ghost use Rattle.pf_service.specs.Told.{Told};
ghost use Rattle.pf_service.specs.Transcripts.{IsLone};
ghost use Rattle.pf_service.specs.declared.TheConstants.{MAX_ENTRIES};
ghost use Rattle.pf_service.specs.Woken.{is_parked_again, written_by, is_idle};

use crate::event::Event;
use crate::fault::ServiceFault;
use crate::living::Living;
use crate::logged::Logged;
use crate::receipt::Receipt;
use crate::seat::Seat;
use crate::seated::{Seated, Tenant};
use crate::spare::ReplyRoom;
use crate::transcript::Transcript;
use crate::waiters::{NextEvent, Waiters};
use crate::waiting::wait_at;
use pf_base::{Reply, RetireFault, Step};
use pf_depot::DepotBook;
use pf_worker::{Gate, Returns};
use std::alloc::{AllocError, Allocator, Global};
use std::marker::Model;
use std::sync::ledger::Ledger;
use std::sync::{Mutex, Wait};

mod queries;

/// A namespace of a service: its number, what lies behind its lock, and who waits there for its next event.
///
/// A contract sees the number and who waits: what lies behind the lock is known while it is held. This module and its
/// `queries` alone get at the lock: so an event reaches what lies there by `call` and `call_waiting` alone, which want
/// a seat of this number. Over any waiters, so that each call says what it asks of those of this place, and of no
/// others.
#[derive(Drop)]
pub(crate) struct Place<A: Allocator, C: Ledger, H: Ledger, W: Waiters = NextEvent> {
    ns: u32,
    seated: Mutex<Seated<A, C, H>>,
    next: W,
    // Keeps two places apart, so that no cache line has what the callers of two namespaces write.
    apart: [u64; 16],
}

impl<A: Allocator, C: Ledger, H: Ledger, W: Waiters> Model for Place<A, C, H, W> {
    ghost use Rattle.pf_service.specs.Places.{OnePlace};

    ghost Value = { OnePlace W };

    ghost view = { λ p. record { ns = p.ns; next = p.next } };
}

// How many bytes went in of the write that a Resume tries again; 0 for another step.
fn resumed_written<A: Allocator + Clone>(logged: &Logged<A>, step: &Step) -> u64
    ensures { result ≡ written_by logged.now.state step.now }
{
    match step {
        Step::Resume { pid } => logged.parked_written(*pid),
        _ => 0,
    }
}

// Whether a process that was tried again waits on, and has written as much as before.
fn is_idle(step: &Step, reply: &Reply, before: u64, after: u64) -> bool
    ensures { result ≡ (is_parked_again step.now reply.now && nat_eq after before) }
{
    match (step, reply) {
        (Step::Resume { pid: _ }, Reply::Parked) => after == before,
        _ => false,
    }
}

// What was made for an event isn't wanted, as its step wasn't made.
fn unwanted(asked: Step, room: ReplyRoom) -> ServiceFault
    ensures { result ≡ ServiceFault.NoMemory }
{
    drop(asked);
    drop(room);
    ServiceFault::NoMemory
}

// One event of a namespace, whose lock is held: the step is made, and the seat keeps it with its place and its reply.
//
// The gate is told directly before the step is made. All memory is taken before the step is made, and the transcript's
// end, the only reason why there is no next place, is looked at first of all.
fn kept_event<A: Allocator + Clone, R: Wait, G: Gate, C: Ledger, H: Ledger>(
    rt: &R,
    gate: &G,
    book: &Mutex<DepotBook<C, H>>,
    living: &mut Living<A, C, H>,
    seat: &mut Seat,
    step: &Step,
) -> Result<Receipt, ServiceFault>
    ensures place { IfOk result (λ r. (r.ns ≡ seat.old.ns)
        × (r.place ≡ length living.old.logged.transcript)) }
    ensures kept { IfOk result (λ r.
        Gains seat.old seat.new (event_at r.place step.now r.reply ∷ [])) }
    ensures room { OnOk result (length living.old.logged.transcript < MAX_ENTRIES) }
    ensures logged { IfOk result (λ r. IsLogged living.old.logged living.new.logged step.now r.reply) }
    ensures told { IfOk result (λ r. Told step.now r.place r.reply) }
    ensures passed { IfOk result (λ r. G.passed gate.now r.ns r.place) }
    ensures framed { IfOk result (λ r. living.old.logged.held < living.new.logged.held → G.framed gate.now r.ns) }
    ensures fault { IfErr result (IsApplyFault living.old.logged.transcript) }
    ensures refused { OnErr result (Gains seat.old seat.new []) }
    ensures unchanged { OnErr result (living.new.logged ≡ living.old.logged) }
{
    let ns = seat.ns();
    let Ok(place) = living.get_ref().place() else {
        return Err(ServiceFault::TranscriptFull);
    };
    if seat.reserve().is_err() {
        return Err(ServiceFault::NoMemory);
    }
    let alloc = living.get_ref().alloc();
    let Ok(asked) = step.copy(alloc) else {
        return Err(ServiceFault::NoMemory);
    };
    let bound = living.get_ref().reply_bound(step);
    let Ok(mut room) = living.take_room(bound) else {
        drop(asked);
        return Err(ServiceFault::NoMemory);
    };
    gate.pass(ns, place);
    let Ok(reply) = living.log(rt, gate, book, ns, step, bound) else {
        return Err(unwanted(asked, room));
    };
    let told = room.copy(alloc, &reply);
    living.keep_room(room);
    seat.keep(Event {
        place,
        step: asked,
        reply: told,
    });
    Ok(Receipt { ns, place, reply })
}

// One event of a namespace, whose lock is held: it is made and kept. Whether it is of no use to those who wait is told
// besides, as they are woken once its namespace lies behind the lock again.
fn event<A: Allocator + Clone, R: Wait, G: Gate, C: Ledger, H: Ledger>(
    rt: &R,
    gate: &G,
    book: &Mutex<DepotBook<C, H>>,
    living: &mut Living<A, C, H>,
    seat: &mut Seat,
    step: &Step,
    idle: &mut bool,
) -> Result<Receipt, ServiceFault>
    ensures place { IfOk result (λ r. (r.ns ≡ seat.old.ns)
        × (r.place ≡ length living.old.logged.transcript)) }
    ensures kept { IfOk result (λ r.
        Gains seat.old seat.new (event_at r.place step.now r.reply ∷ [])) }
    ensures room { OnOk result (length living.old.logged.transcript < MAX_ENTRIES) }
    ensures logged { IfOk result (λ r. IsLogged living.old.logged living.new.logged step.now r.reply) }
    ensures told { IfOk result (λ r. Told step.now r.place r.reply) }
    ensures passed { IfOk result (λ r. G.passed gate.now r.ns r.place) }
    ensures framed { IfOk result (λ r. living.old.logged.held < living.new.logged.held → G.framed gate.now r.ns) }
    ensures idle { IfOk result (λ r.
        idle.new ≡ is_idle living.old.logged.state living.new.logged.state step.now r.reply) }
    ensures fault { IfErr result (IsApplyFault living.old.logged.transcript) }
    ensures refused { OnErr result (Gains seat.old seat.new []) }
    ensures unchanged { OnErr result (living.new.logged ≡ living.old.logged) }
{
    let before = resumed_written(living.get_ref(), step);
    match kept_event(rt, gate, book, living, seat, step) {
        Ok(receipt) => {
            let after = resumed_written(living.get_ref(), step);
            *idle = is_idle(step, &receipt.reply, before, after);
            Ok(receipt)
        }
        Err(fault) => Err(fault),
    }
}

// Those who wait are woken, but for an event that is of no use to them: from then on nobody waits.
fn wake<A: Allocator, C: Ledger, H: Ledger, W: Waiters>(
    waiters: &W,
    seated: &mut Seated<A, C, H>,
    is_idle: bool,
)
    ensures woken { is_idle ≡ false → W.woken waiters.now A C H seated.old }
    ensures awaited { is_idle ≡ true → seated.new.is_awaited ≡ seated.old.is_awaited }
    ensures tenant { seated.new.tenant ≡ seated.old.tenant }
    ensures given { seated.new.given ≡ seated.old.given }
{
    if !is_idle {
        waiters.wake_all(seated);
        seated.is_awaited = false;
    }
}

/// One event of the namespace that lies behind a lock, where it lives: it is made and kept, and those who wait are
/// woken behind it, but for an event that is of no use to them. Who waits is known behind the lock: once they were
/// woken, nobody is known to wait. `Gone` where the namespace is retired, first of all, and nothing changes.
pub(crate) fn event_of<A: Allocator + Clone, R: Wait, G: Gate, C: Ledger, H: Ledger, W: Waiters>(
    rt: &R,
    gate: &G,
    book: &Mutex<DepotBook<C, H>>,
    seated: &mut Seated<A, C, H>,
    waiters: &W,
    seat: &mut Seat,
    step: &Step,
) -> Result<Receipt, ServiceFault>
    ensures event { IfOk result (λ r.
        IsEvent seated.old.tenant seated.new.tenant step.now r.place r.reply) }
    ensures kept { IfOk result (λ r.
        Gains seat.old seat.new (event_at r.place step.now r.reply ∷ [])) }
    ensures told { IfOk result (λ r. (r.ns ≡ seat.old.ns) × Told step.now r.place r.reply) }
    ensures passed { IfOk result (λ r. G.passed gate.now r.ns r.place) }
    ensures framed { IfOk result (λ r.
        IsToldOfMore (G.framed gate.now r.ns) seated.old.tenant seated.new.tenant) }
    ensures woken { IfOk result (λ r.
        is_idle_at seated.old.tenant seated.new.tenant step.now r.reply ≡ false
        → W.woken waiters.now A C H (became seated.old seated.new.tenant)) }
    ensures awaited { IfOk result (λ r.
        is_idle_at seated.old.tenant seated.new.tenant step.now r.reply ≡ true
        → seated.new.is_awaited ≡ seated.old.is_awaited) }
    ensures given { seated.new.given ≡ seated.old.given }
    ensures fault { IfErr result (IsTenantFault seated.old.tenant) }
    ensures refused { OnErr result (Gains seat.old seat.new []) }
    ensures unchanged { OnErr result (IsSameTenant seated.old.tenant seated.new.tenant) }
    ensures waiting { OnErr result (seated.new.is_awaited ≡ seated.old.is_awaited) }
{
    let Tenant::Living(living) = &mut seated.tenant else {
        return Err(ServiceFault::Gone);
    };
    let mut idle = false;
    match event(rt, gate, book, living, seat, step, &mut idle) {
        Ok(receipt) => {
            wake(waiters, seated, idle);
            Ok(receipt)
        }
        Err(fault) => Err(fault),
    }
}

// One event of a seat of the namespace that lies behind a lock. It happens to what lay there, or is refused because of
// that; those who wait there are woken behind it, but for an event that is of no use to them, and where the namespace
// then holds more frames, the gate was told.
fn call_at<A: Allocator + Clone, R: Wait, G: Gate, C: Ledger, H: Ledger, W: Waiters>(
    rt: &R,
    gate: &G,
    book: &Mutex<DepotBook<C, H>>,
    locked: &Mutex<Seated<A, C, H>>,
    waiters: &W,
    seat: &mut Seat,
    step: &Step,
) -> Result<Receipt, ServiceFault>
    ensures kept { IfOk result (λ r. Gains seat.old seat.new (event_at r.place step.now r.reply ∷ [])) }
    ensures told { IfOk result (λ r. (r.ns ≡ seat.old.ns) × Told step.now r.place r.reply) }
    ensures passed { IfOk result (λ r. G.passed gate.now r.ns r.place) }
    ensures happened { IfOk result (λ r. IsHappening (λ s. W.lay waiters.now A C H s)
        (λ s. W.woken waiters.now A C H s) (G.framed gate.now r.ns) step.now r.place r.reply) }
    ensures fault { IfErr result (IsRefusedThere (λ s. W.lay waiters.now A C H s)) }
    ensures refused { OnErr result (Gains seat.old seat.new []) }
{
    let mut seated = waiters.lock(rt, locked);
    event_of(rt, gate, book, &mut *seated, waiters, seat, step)
}

// What an event was told, as it is. A number is moved by itself: else a receipt is one piece on the whole way, and is
// copied at each level before its parts have arrived there.
#[inline(always)]
fn handed(told: Result<Receipt, ServiceFault>) -> Result<Receipt, ServiceFault>
    ensures { result ≡ told }
{
    match told {
        Ok(
            Receipt {
                ns,
                place,
                reply: Reply::Num(number),
            },
        ) => Ok(Receipt {
            ns,
            place,
            reply: Reply::Num(number),
        }),
        told => told,
    }
}

impl<A: Allocator + Clone, C: Ledger, H: Ledger, W: Waiters> Place<A, C, H, W> {
    ghost use Rattle.std.specs.Prelude.{List};
    ghost use Rattle.pf_service.specs.declared.TheConstants.{MAX_SEATS};
    ghost use Rattle.pf_service.specs.declared.event.Event.{Event as OneEvent};
    ghost use Rattle.pf_service.specs.Said.{IsSaid, IsWaitedFor};
    ghost use Rattle.pf_service.specs.Tenants.{IsGivenThere, IsNotGivenThere, IsNotRetiredThere, IsRetiredThere};
    ghost use Rattle.pf_service.specs.Waited.{AreParked, IsAnswered, IsWaited};

    /// The namespace of a number, and who waits there: nobody yet.
    pub(crate) fn new(ns: u32, seated: Seated<A, C, H>, next: W) -> Self
        ensures { result ≡ record { ns = ns; next = next } }
    {
        Place {
            ns,
            seated: Mutex::new(seated),
            next,
            apart: [0; 16],
        }
    }

    /// Its number.
    pub(crate) fn ns(&self) -> u32
        ensures { result ≡ self.now.ns }
    {
        self.ns
    }

    /// A seat, with the next number, where the namespace lives.
    pub(crate) fn seat<R: Wait>(&self, rt: &R, alloc: Global) -> Result<Seat, ServiceFault>
        ensures seat { IfOk result (λ s. (s.ns ≡ self.now.ns) × (s.number < MAX_SEATS) × (s.events ≡ [])) }
        ensures given { IfOk result (λ s. IsGivenThere (λ t. W.lay self.now.next A C H t) s.number) }
        ensures fault { IfErr result (IsNotGivenThere (λ s. W.lay self.now.next A C H s)) }
    {
        let number = self.next.lock(rt, &self.seated).give()?;
        Ok(Seat::new(alloc, self.ns, number))
    }

    /// One event of a seat of the namespace (`call_at`): those who wait at this place are woken behind it, but for an
    /// event that is of no use to them.
    pub(crate) fn call<R: Wait, G: Gate>(
        &self,
        rt: &R,
        gate: &G,
        book: &Mutex<DepotBook<C, H>>,
        seat: &mut Seat,
        step: &Step,
    ) -> Result<Receipt, ServiceFault>
        requires own { seat.old.ns ≡ self.now.ns }
        ensures kept { IfOk result (λ r. Gains seat.old seat.new (event_at r.place step.now r.reply ∷ [])) }
        ensures told { IfOk result (λ r. (r.ns ≡ seat.old.ns) × Told step.now r.place r.reply) }
        ensures passed { IfOk result (λ r. G.passed gate.now r.ns r.place) }
        ensures happened { IfOk result (λ r. IsHappening (λ s. W.lay self.now.next A C H s)
            (λ s. W.woken self.now.next A C H s) (G.framed gate.now r.ns) step.now r.place r.reply) }
        ensures fault { IfErr result (IsRefusedThere (λ s. W.lay self.now.next A C H s)) }
        ensures refused { OnErr result (Gains seat.old seat.new []) }
    {
        handed(call_at(rt, gate, book, &self.seated, &self.next, seat, step))
    }

    /// An event of a seat of the namespace, and, as long as its process waits, after each further event of the
    /// namespace a Resume of that process (`wait_at`). It waits at this place, and those who wait here are woken behind
    /// each, but for one that is of no use to them. The receipt of each is appended.
    ///
    /// A Resume is the machine's: a call that the process waits in since is resumed too.
    pub(crate) fn call_waiting<R: Wait, G: Gate>(
        &self,
        rt: &R,
        gate: &G,
        book: &Mutex<DepotBook<C, H>>,
        seat: &mut Seat,
        step: &Step,
        receipts: &mut Vec<Receipt>,
    ) -> Result<(), ServiceFault>
        requires own { seat.old.ns ≡ self.now.ns }
        ensures waited { (es : List OneEvent)
            × IsWaited (IsSaid (λ n p. G.passed gate.now n p) (λ n. G.framed gate.now n)
            (λ s. W.lay self.now.next A C H s) (λ s. W.woken self.now.next A C H s) seat.old.ns)
            step.now seat.old seat.new
            receipts.old.items receipts.new.items es
            × IsWaitedFor (λ s t. W.went_on self.now.next A C H s t) (λ s. W.lay self.now.next A C H s) es
            × OnOk result (IsAnswered es)
            × OnErr result (AreParked es) }
        ensures fault { IfErr result (IsRefusedThere (λ s. W.lay self.now.next A C H s)) }
    {
        wait_at(
            rt,
            gate,
            book,
            &self.seated,
            &self.next,
            seat,
            step,
            receipts,
        )
    }

    /// The namespace is retired, where it lives and has no process. All who wait at this place are woken.
    pub(crate) fn retire<R: Wait, D: Returns>(
        &self,
        rt: &R,
        way: &D,
        book: &Mutex<DepotBook<C, H>>,
    ) -> Result<(), RetireFault>
        ensures retired { OnOk result (IsRetiredThere (λ s. W.lay self.now.next A C H s)
            (λ s. W.woken self.now.next A C H s) (λ reserve stock. D.returned way.now self.now.ns reserve stock)) }
        ensures fault { IfErr result (IsNotRetiredThere (λ s. W.lay self.now.next A C H s)) }
    {
        let mut seated = self.next.lock(rt, &self.seated);
        seated.retire(rt, way, book, self.ns, &self.next)
    }

    /// What the namespace was asked and told, and how many seats it gave.
    pub(crate) fn into_parts(self) -> (Transcript, u32)
    where
        W: Drop,
        ensures alone { IsLone result.0 }
    {
        let Place {
            ns: _,
            seated,
            next,
            apart: _,
        } = self;
        drop(next);
        seated.into_inner().into_parts()
    }
}

/// What each of these namespaces was asked and told, and how many seats each gave.
pub(crate) fn parts_of<A: Allocator + Clone, C: Ledger, H: Ledger>(
    alloc: Global,
    places: Vec<Place<A, C, H>>,
) -> Result<(Vec<Transcript>, Vec<u32>), AllocError>
    ensures each { IfOk result (λ parts. length parts.0.items ≡ length places.items) }
    ensures all { IfOk result (λ parts. length parts.1.items ≡ length places.items) }
    ensures alone { IfOk result (λ parts. All IsLone parts.0.items) }
{
    let mut transcripts = Vec::with_capacity(alloc, places.len())?;
    let mut given = Vec::with_capacity(alloc, places.len())?;
    for place in places {
        let (transcript, number) = place.into_parts();
        transcripts.push_reserved(transcript);
        given.push_reserved(number);
    }
    Ok((transcripts, given))
}
