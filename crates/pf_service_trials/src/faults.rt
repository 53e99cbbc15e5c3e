//! What a service refuses: namespaces, seats and events past their numbers, and seats that it didn't give; and how that
//! reads.

use crate::services::{Callers, CallersOfTwo, Plain, is_new, no_seat, refused, serve, serve_two};
use pf_base::{Errno, Reply, Step};
use pf_service::{CloseFault, Gate, MAX_SEATS, NoGate, Seat, Service, ServiceFault};
use pf_service_fixture::{BLUE, RED, Size, config_of, namespaces, place_of, spawn};
use std::alloc::Global;
use std::process::Abort;
use std::sync::Wait;
use std::sync::atomic::{AtomicU64, Ordering};
use std::sync::ledger::Ledger;
use std::test::Fail;

// Counts all that it is told.
#[derive(Drop)]
struct Tally<'a> {
    told: &'a AtomicU64,
}

impl Gate for Tally<'_> {
    ghost passed = { λ _ _ _. Unit {0} };

    ghost framed = { λ _ _. Unit {0} };

    fn pass(&self, ns: u32, place: u64) {
        let _ = (ns, place);
        self.told.fetch_add(1, Ordering::SeqCst);
    }

    fn frame(&self, ns: u32) {
        let _ = ns;
        self.told.fetch_add(1, Ordering::SeqCst);
    }
}

// Why something is refused, and how that reads.
const REFUSALS: [(ServiceFault, &str); 5] = [
    (ServiceFault::NoMemory, "out of memory"),
    (
        ServiceFault::TranscriptFull,
        "the transcript has 1000000 entries",
    ),
    (ServiceFault::NoSuchNamespace, "no such namespace"),
    (
        ServiceFault::TooManySeats,
        "the namespace has given 4096 seats",
    ),
    (ServiceFault::Gone, "the namespace is retired"),
];

// The same of an end.
const ENDS: [(CloseFault, &str); 3] = [
    (
        CloseFault::Disagree { ns: 7 },
        "namespace 7 disagrees with its seats",
    ),
    (
        CloseFault::SeatsMissing,
        "the seats are not those that were given",
    ),
    (CloseFault::NoMemory, "out of memory"),
];

#[test]
fn faults_have_their_texts(rt: HostRuntime) -> Result<(), Fail> {
    for (fault, text) in REFUSALS {
        assert_eq!(rt; fault.to_string(rt.alloc())?.as_str(), text);
    }
    for (fault, text) in ENDS {
        assert_eq!(rt; fault.to_string(rt.alloc())?.as_str(), text);
    }
    Ok(())
}

// A seat that isn't handed in.
struct SeatKeptBack;

impl Callers<NoGate> for SeatKeptBack {
    fn work<C: Ledger, H: Ledger, R: Wait + Abort>(
        &self,
        rt: &R,
        alloc: Global,
        service: &Plain<C, H>,
    ) -> Result<Vec<Seat>, Fail> {
        let none = no_seat(service.seat(rt, 2));
        assert_eq!(rt; none, Some(ServiceFault::NoSuchNamespace));
        assert!(rt; is_new(service.seat(rt, BLUE), BLUE, 0));
        Ok(Vec::new(alloc))
    }
}

#[test]
fn a_seat_kept_back_is_missing(rt: HostRuntime) -> Result<(), Fail> {
    let closed = serve(&rt, rt.alloc(), namespaces(2), NoGate, &SeatKeptBack)?;
    assert_eq!(rt; refused(closed), Some(CloseFault::SeatsMissing));
    Ok(())
}

// A seat of a service with more namespaces. The gate isn't told of what is refused.
struct ForeignSeat;

impl<'a> CallersOfTwo<Tally<'a>> for ForeignSeat {
    fn work<C: Ledger, H: Ledger, D: Ledger, L: Ledger, R: Wait + Abort>(
        &self,
        rt: &R,
        alloc: Global,
        larger: &Plain<C, H>,
        smaller: &Service<Global, Tally<'a>, D, L>,
    ) -> Result<Vec<Seat>, Fail> {
        let mut foreign = larger.seat(rt, BLUE)?;
        let exit = Step::Exit { pid: 9 };
        assert_eq!(rt;
            smaller.call(rt, &mut foreign, &exit).err(),
            Some(ServiceFault::NoSuchNamespace)
        );
        let mut receipts = Vec::new(alloc);
        assert_eq!(rt;
            smaller
                .call_waiting(rt, &mut foreign, &exit, &mut receipts)
                .err(),
            Some(ServiceFault::NoSuchNamespace)
        );
        assert_eq!(rt; (foreign.events().len(), receipts.len()), (0, 0));
        let mut seats = Vec::new(alloc);
        seats.push(foreign)?;
        Ok(seats)
    }
}

#[test]
fn a_seat_of_a_service_with_more_namespaces_is_refused(rt: HostRuntime) -> Result<(), Fail> {
    let (two, one) = (namespaces(2), namespaces(1));
    let told = AtomicU64::new(0);
    let gate = Tally { told: &told };
    let transcripts = serve_two(&rt, rt.alloc(), two, one, gate, &ForeignSeat)??;
    assert_eq!(rt; transcripts.as_slice().len(), 2);
    assert_eq!(rt; told.load(Ordering::SeqCst), 0);
    Ok(())
}

// A service is closed with the seat of another, at the same namespace.
#[derive(Drop)]
struct SeatOfAnother {
    ns: u32,
}

impl CallersOfTwo<NoGate> for SeatOfAnother {
    fn work<C: Ledger, H: Ledger, D: Ledger, L: Ledger, R: Wait + Abort>(
        &self,
        rt: &R,
        alloc: Global,
        first: &Plain<C, H>,
        second: &Plain<D, L>,
    ) -> Result<Vec<Seat>, Fail> {
        let mut own = first.seat(rt, self.ns)?;
        let other = second.seat(rt, self.ns)?;
        let receipt = first.call(rt, &mut own, &spawn())?;
        assert_eq!(rt;
            (receipt.ns, receipt.place, &receipt.reply),
            (self.ns, 0, &Reply::Pid(1))
        );
        let mut seats = Vec::new(alloc);
        seats.push(other)?;
        Ok(seats)
    }
}

#[test]
fn the_seats_of_another_service_disagree(rt: HostRuntime) -> Result<(), Fail> {
    let (first, second) = (namespaces(2), namespaces(2));
    for ns in [RED, BLUE] {
        let callers = SeatOfAnother { ns };
        let closed = serve_two(&rt, rt.alloc(), first, second, NoGate, &callers)?;
        assert_eq!(rt; refused(closed), Some(CloseFault::Disagree { ns }));
    }
    Ok(())
}

// As many seats as a namespace gives, whether it was there from the start or came, and one more.
#[derive(Drop)]
struct ManySeats {
    ns: u32,
}

impl Callers<NoGate> for ManySeats {
    fn work<C: Ledger, H: Ledger, R: Wait + Abort>(
        &self,
        rt: &R,
        alloc: Global,
        service: &Plain<C, H>,
    ) -> Result<Vec<Seat>, Fail> {
        assert_eq!(rt;
            service.admit(rt, config_of(16).ok_or("limits")?, alloc)?,
            2
        );
        for number in 0..MAX_SEATS {
            assert!(rt; is_new(service.seat(rt, self.ns), self.ns, number));
        }
        let full = no_seat(service.seat(rt, self.ns));
        assert_eq!(rt; full, Some(ServiceFault::TooManySeats));
        assert!(rt; is_new(service.seat(rt, RED), RED, 0));
        Ok(Vec::new(alloc))
    }
}

#[test]
fn a_namespace_gives_4096_seats(rt: HostRuntime) -> Result<(), Fail> {
    let size = Size {
        namespaces: 2,
        slack: 16,
    };
    for ns in [BLUE, 2] {
        let closed = serve(&rt, rt.alloc(), size, NoGate, &ManySeats { ns })?;
        assert_eq!(rt; refused(closed), Some(CloseFault::SeatsMissing));
    }
    Ok(())
}

// As many events as a transcript has, by calls and by calls that may wait in turn, and two more. The gate isn't told of
// these.
#[derive(Drop)]
struct FullTranscript<'a> {
    told: &'a AtomicU64,
}

// Makes a step as often as a transcript has entries, until one is refused; whether none is, and each stands at its
// place.
fn fills<C: Ledger, H: Ledger, R: Wait>(
    rt: &R,
    alloc: Global,
    service: &Service<Global, Tally<'_>, C, H>,
    seat: &mut Seat,
    step: &Step,
) -> bool {
    for place in 0..1_000_000u64 {
        if place_of(rt, alloc, service, seat, step, place % 2 == 1) != Some(place) {
            return false;
        }
    }
    true
}

impl<'a> Callers<Tally<'a>> for FullTranscript<'_> {
    fn work<C: Ledger, H: Ledger, R: Wait + Abort>(
        &self,
        rt: &R,
        alloc: Global,
        service: &Service<Global, Tally<'a>, C, H>,
    ) -> Result<Vec<Seat>, Fail> {
        let mut seat = service.seat(rt, RED)?;
        let exit = Step::Exit { pid: 9 };
        assert!(rt; fills(rt, alloc, service, &mut seat, &exit));
        assert_eq!(rt;
            service.call(rt, &mut seat, &exit).err(),
            Some(ServiceFault::TranscriptFull)
        );
        let mut receipts = Vec::new(alloc);
        assert_eq!(rt;
            service
                .call_waiting(rt, &mut seat, &exit, &mut receipts)
                .err(),
            Some(ServiceFault::TranscriptFull)
        );
        assert_eq!(rt; self.told.load(Ordering::SeqCst), 1_000_000);
        assert!(rt; receipts.is_empty());
        let last = seat.events().last().ok_or("none")?;
        assert_eq!(rt;
            (last.place, &last.reply),
            (999_999, &Reply::Err(Errno::ESRCH))
        );
        let mut seats = Vec::new(alloc);
        seats.push(seat)?;
        Ok(seats)
    }
}

#[test]
fn a_transcript_has_a_million_entries(rt: HostRuntime) -> Result<(), Fail> {
    let told = AtomicU64::new(0);
    let (gate, callers) = (Tally { told: &told }, FullTranscript { told: &told });
    let transcripts = serve(&rt, rt.alloc(), namespaces(1), gate, &callers)??;
    assert_eq!(rt; transcripts.as_slice().len(), 1);
    Ok(())
}
