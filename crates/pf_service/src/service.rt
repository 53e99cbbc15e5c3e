ghost use Rattle.std.specs.Prelude.{◌≡◌, ◌≤◌, IfOk, length, map};
ghost use Rattle.std.specs.List.{range_with_len};
ghost use Rattle.pf_base.specs.declared.TheConstants.{MAX_NAMESPACES};
ghost use Rattle.pf_depot.specs.Blanks.{IsBlankOf};
ghost use Rattle.pf_hub.specs.Opening.{limits_of};
ghost use Rattle.pf_service.specs.Places.{numbers_of};

use crate::fault::{CloseFault, ServiceFault};
use crate::guests::Guests;
use crate::judge::compare;
use crate::locks::{Locks, OneEach};
use crate::opening::{admit_by, configs_of, places_of};
use crate::place::Place;
use crate::receipt::Receipt;
use crate::seat::Seat;
use crate::transcript::Transcripts;
use crate::unlocks::{ForGood, Unlocks};
use pf_base::{AdmitFault, Config, RetireFault, Step};
use pf_depot::DepotBook;
use pf_frame::{Frame, PoolFault};
use pf_hub::{first_fault, reserves_of};
use pf_worker::{Gate, Returns, ToTheDepot};
use std::alloc::{Allocator, Global};
use std::marker::Model;
use std::sync::ledger::{Blank, Ledger};
use std::sync::{Mutex, Wait};

mod queries;

/// Many namespaces behind a lock each, over a depot of frames behind a lock of its own.
///
/// Whoever calls has a seat at a namespace, which keeps what its caller asked and was told. At the end all seats are
/// compared with all transcripts. A contract sees the limits of the namespaces that the service began with: what lies behind
/// a lock is known while it is held, and at the end.
///
/// Namespaces come and go: 64 at a time, and each has a number of its own, of 1,024.
///
/// A namespace's lock is taken first, and the depot's inside of it, for a moment, where a step takes or gives back a frame.
/// `C` and `H` name the depot's two ledgers: the credits, and the frames that are held.
#[derive(Drop)]
pub struct Service<A: Allocator, G: Gate, C: Ledger, H: Ledger> {
    alloc: Global,
    configs: Vec<Config>,
    // Those that it began with.
    places: Vec<Place<A, C, H>>,
    // Those that came since.
    guests: Guests<A, C, H>,
    book: Mutex<DepotBook<C, H>>,
    gate: G,

    /// There is a place for each of the limits, and its number is that of the namespace.
    pub ghost numbered: { numbers_of places.items ≡ range_with_len 0 (length configs.items) },

    pub ghost few: { length configs.items ≤ MAX_NAMESPACES },
}

impl<A: Allocator, G: Gate, C: Ledger, H: Ledger> Model for Service<A, G, C, H> {
    ghost use Rattle.std.specs.Prelude.{List};
    ghost use Rattle.pf_base.specs.Limits.{Limits};

    ghost Value = { List Limits };

    ghost view = { λ s. s.configs.items };
}

impl<A: Allocator + Clone, G: Gate, C: Ledger, H: Ledger> Service<A, G, C, H> {
    ghost use Rattle.std.specs.Prelude.{ℕ, ◌<◌, ◌++◌, [], ◌∷◌, List, IfErr, IsOk, OnOk, OnErr, Err, None};
    ghost use Rattle.pf_base.specs.declared.TheConstants.{MAX_NUMBERS};
    ghost use Rattle.pf_frame.specs.Faults.{IsFault};
    ghost use Rattle.pf_service.specs.declared.event.Event.{Event as OneEvent};
    ghost use Rattle.pf_service.specs.Faults.{IsCallFault, IsAdmissionFault, IsRetirementFault};
    ghost use Rattle.pf_service.specs.Log.{AreLocked};
    ghost use Rattle.pf_service.specs.Judged.{IsClosed, IsClosedFault, IsUnlockedFault};
    ghost use Rattle.pf_hub.specs.Opening.{first_fault};
    ghost use Rattle.pf_service.specs.Seats.{AreGiven, Gains, event_at, IsSeatFault};
    ghost use Rattle.pf_service.specs.Told.{Told};
    ghost use Rattle.pf_service.specs.Waited.{IsWaited, IsAnswered, AreParked};
    ghost use Rattle.pf_service.specs.declared.TheConstants.{MAX_SEATS};

    /// A service of these frames, with a namespace of each of these limits: their numbers are their places. A namespace's
    /// files, and nothing else, stand in memory of the allocator beside its limits.
    ///
    /// Each ledger has a part for each namespace that there may be. The faults are those of `Hub::new`, in their order: the
    /// frames and limits are tested before want of memory is answered.
    pub fn new(
        alloc: Global,
        frames: Vec<Frame>,
        configs: Vec<(Config, A)>,
        gate: G,
        credits: Blank,
        held: Blank,
    ) -> Result<Self, PoolFault>
    where
        G: Drop,
        requires blanks { IsBlankOf C.name C.parts credits × IsBlankOf H.name H.parts held }
        ensures tested { IsOk result → first_fault (length frames.items) (limits_of configs.items) ≡ None }
        ensures limits { IfOk result (λ s. s ≡ limits_of configs.items) }
        ensures fault { IfErr result (IsFault (first_fault (length frames.items) (limits_of configs.items))) }
    {
        Service::new_by(alloc, &OneEach, frames, configs, gate, credits, held)
    }

    // The same by any way to the locks. Behind each one's lock lies a namespace of its limits, whose files stand in memory of
    // the allocator beside them.
    fn new_by<L: Locks>(
        alloc: Global,
        way: &L,
        frames: Vec<Frame>,
        configs: Vec<(Config, A)>,
        gate: G,
        credits: Blank,
        held: Blank,
    ) -> Result<Self, PoolFault>
    where
        G: Drop,
        requires blanks { IsBlankOf C.name C.parts credits × IsBlankOf H.name H.parts held }
        ensures tested { IsOk result → first_fault (length frames.items) (limits_of configs.items) ≡ None }
        ensures limits { IfOk result (λ s. s ≡ limits_of configs.items) }
        ensures locked { OnOk result (AreLocked (λ ns log. L.locked way.now ns A log) configs.items) }
        ensures fault { IfErr result (IsFault (first_fault (length frames.items) (limits_of configs.items))) }
    {
        if let Some(fault) = first_fault(frames.len(), &configs) {
            return Err(fault);
        }
        let Ok(kept) = configs_of(alloc, &configs) else {
            return Err(PoolFault::NoMemory);
        };
        let Ok(reserves) = reserves_of(alloc, &configs) else {
            return Err(PoolFault::NoMemory);
        };
        let Ok(guests) = Guests::new(alloc) else {
            return Err(PoolFault::NoMemory);
        };
        let (book, allotments) = DepotBook::open(alloc, frames, reserves, credits, held)?;
        let Ok(places) = places_of(alloc, way, configs, allotments) else {
            drop(guests);
            drop(book);
            return Err(PoolFault::NoMemory);
        };
        Ok(Service {
            alloc,
            configs: kept,
            places,
            guests,
            book: Mutex::new(book),
            gate,
        })
    }

    // The place of a namespace, whether it lives or is retired. The fault is that none has this number.
    fn place(&self, ns: u32) -> Result<&Place<A, C, H>, ServiceFault>
        ensures found { IfOk result (λ p. (p.now.ns ≡ ns) × (ns < MAX_NUMBERS)) }
        ensures missing { IfErr result (λ e. (e ≡ ServiceFault.NoSuchNamespace) × (length self.now ≤ ns)) }
        ensures past { MAX_NUMBERS ≤ ns → result ≡ Err ServiceFault.NoSuchNamespace }
    {
        if let Some(place) = self.places.get(ns as usize) {
            return Ok(place);
        }
        match self.guests.place(ns) {
            Some(place) => Ok(place),
            None => Err(ServiceFault::NoSuchNamespace),
        }
    }

    /// A namespace of these limits comes, with the least number that was never given. Its files, and nothing else, stand in
    /// memory of the allocator `tree`; its frames are reserved from now on, and no other namespace is told, or has, anything
    /// else for it.
    ///
    /// `TooManyNamespaces` where 64 live or 1,024 numbers are given; then `NoRoom` where the reservation is above the slack,
    /// the number of frames less the reservations of the living namespaces; then `NoMemory`, which may stand in place of
    /// each. At a fault nothing has changed. The depot's lock is held once, and no namespace's.
    pub fn admit<R: Wait>(&self, rt: &R, config: Config, tree: A) -> Result<u32, AdmitFault>
        ensures number { IfOk result (λ ns. ns < MAX_NUMBERS) }
        ensures fault { IfErr result (IsAdmissionFault config.reserve) }
    {
        let (book, guests) = (&self.book, &self.guests);
        let (ns, lodged) = admit_by(rt, self.alloc, &OneEach, book, guests, config, tree)?;
        drop(lodged);
        Ok(ns)
    }

    /// A namespace goes that has no process. Its reservation is others' from now on, and its number isn't given again. What it
    /// was asked and told stays until the service's end; a seat or an event there is `Gone`.
    ///
    /// `NoSuchNamespace` where none of this number lives, and else `Alive` where it has processes; then nothing has changed.
    /// It takes no memory. The namespace's lock is held, and inside of it once the depot's.
    pub fn retire<R: Wait>(&self, rt: &R, ns: u32) -> Result<(), RetireFault>
        ensures missing { MAX_NUMBERS ≤ ns → result ≡ Err RetireFault.NoSuchNamespace }
        ensures fault { IfErr result IsRetirementFault }
    {
        self.retire_by(rt, &ToTheDepot, ns)
    }

    // The same by any way to the depot.
    fn retire_by<R: Wait, D: Returns>(&self, rt: &R, way: &D, ns: u32) -> Result<(), RetireFault>
        ensures missing { MAX_NUMBERS ≤ ns → result ≡ Err RetireFault.NoSuchNamespace }
        ensures returned { OnOk result ((reserve : ℕ) × (stock : ℕ) × D.returned way.now ns reserve stock) }
        ensures fault { IfErr result IsRetirementFault }
    {
        match self.place(ns) {
            Ok(place) => place.retire(rt, way, &self.book),
            Err(_) => Err(RetireFault::NoSuchNamespace),
        }
    }

    /// A seat at a namespace, with the next number. It takes no memory.
    ///
    /// `NoSuchNamespace` where this number wasn't given, then `Gone` where its namespace is retired, and `TooManySeats` where
    /// it gave 4,096.
    pub fn seat<R: Wait>(&self, rt: &R, ns: u32) -> Result<Seat, ServiceFault>
        ensures seat { IfOk result (λ s. (s.ns ≡ ns) × (s.number < MAX_SEATS) × (s.events ≡ [])) }
        ensures missing { MAX_NUMBERS ≤ ns → result ≡ Err ServiceFault.NoSuchNamespace }
        ensures fault { IfErr result (IsSeatFault (length self.now) ns) }
    {
        self.place(ns)?.seat(rt, self.alloc)
    }

    /// One event of a seat's namespace: the step is made, and the seat keeps it with its place and its reply.
    ///
    /// The reply is the last that the lone machine gives on some steps of which this is the last, as many as the place
    /// says before it. `NoSuchNamespace` where the seat's namespace isn't there, as that of another service may be;
    /// then `Gone` where it is retired; then `TranscriptFull` where the namespace had 1,000,000 events; then `NoMemory`.
    /// Nothing is logged or changed by a refused event.
    pub fn call<R: Wait>(
        &self,
        rt: &R,
        seat: &mut Seat,
        step: &Step,
    ) -> Result<Receipt, ServiceFault>
        ensures kept { IfOk result (λ r. Gains seat.old seat.new (event_at r.place step.now r.reply ∷ [])) }
        ensures told { IfOk result (λ r. (r.ns ≡ seat.old.ns) × Told step.now r.place r.reply) }
        ensures passed { IfOk result (λ r. (gate : G) × G.passed gate r.ns r.place) }
        ensures missing { MAX_NUMBERS ≤ seat.old.ns → result ≡ Err ServiceFault.NoSuchNamespace }
        ensures fault { IfErr result (IsCallFault (length self.now) seat.old.ns) }
        ensures refused { OnErr result (Gains seat.old seat.new []) }
    {
        let place = self.place(seat.ns())?;
        place.call(rt, &self.gate, &self.book, seat, step)
    }

    /// An event of a seat's namespace, and, as long as the process waits, after further events of the namespace a Resume of
    /// that process. A receipt of each is appended.
    ///
    /// Each is an event as `call` makes one, with its faults in their order; at a fault the receipts so far stand, and the
    /// process may wait. A Resume is the machine's: it is EINVAL where the process waits no more, ESRCH where it is gone,
    /// and it tries a call again that the process waits in since.
    pub fn call_waiting<R: Wait>(
        &self,
        rt: &R,
        seat: &mut Seat,
        step: &Step,
        receipts: &mut Vec<Receipt>,
    ) -> Result<(), ServiceFault>
        ensures waited { (gate : G) × (es : List OneEvent)
            × IsWaited (λ s p r. Told s p r × G.passed gate seat.old.ns p) step.now seat.old seat.new
            receipts.old.items receipts.new.items es
            × OnOk result (IsAnswered es)
            × OnErr result (AreParked es) }
        ensures missing { MAX_NUMBERS ≤ seat.old.ns → result ≡ Err ServiceFault.NoSuchNamespace }
        ensures fault { IfErr result (IsCallFault (length self.now) seat.old.ns) }
    {
        let gate = &self.gate;
        let place = self.place(seat.ns())?;
        place.call_waiting(rt, gate, &self.book, seat, step, receipts)
    }

    /// Ends the service, and gives what each namespace was asked and told, where these seats fit that.
    ///
    /// There is a transcript for each number that was given, whether its namespace lives or is retired. At Ok each is a
    /// merge of what its namespace's seats keep, each event at its place and nothing else; its replies are the lone
    /// machine's on its steps, under the limits that the namespace was given, or where it was admitted, under the
    /// limits that it kept; and the seats of each namespace are those numbered from 0 up to some number, each once.
    /// Seats of another service are judged alike. At a fault, want of memory too, nothing is handed back: the service,
    /// its transcripts and the seats have gone.
    ///
    /// How many seats were given lies behind the locks, where no clause of this call sees it. That they are all here, and
    /// that each fault has its cause, is a promise of `compare`, to which this call hands what lay there.
    pub fn close(self, seats: Vec<Seat>) -> Result<Transcripts, CloseFault>
    where
        G: Drop,
        ensures closed { IfOk result (IsClosed self seats.items) }
        ensures fault { IfErr result (IsClosedFault self seats.items) }
    {
        self.close_by(&ForGood, seats)
    }

    // The same by any way to open the locks.
    fn close_by<W: Unlocks>(self, way: &W, seats: Vec<Seat>) -> Result<Transcripts, CloseFault>
    where
        G: Drop,
        ensures closed { IfOk result (IsClosed self seats.items) }
        ensures all { IfOk result (λ ts. (given : List ℕ) × W.lay way.now ts given × AreGiven given seats.items) }
        ensures fault { IfErr result (IsUnlockedFault (λ ts given. W.lay way.now ts given) self seats.items) }
    {
        let Service {
            alloc,
            configs,
            places,
            guests,
            book,
            gate,
        } = self;
        drop(book);
        drop(gate);
        let Ok((transcripts, given)) = way.unlock(alloc, places, guests) else {
            return Err(CloseFault::NoMemory);
        };
        compare(alloc, &configs, &transcripts, &given, &seats)?;
        Ok(Transcripts::new(transcripts))
    }
}
