//! Two tenants are told what each is told alone, also where memory is refused.

use crate::services::{Callers, Plain, serve, steps_of_blue, steps_of_red, told_alone};
use pf_base::Step;
use pf_service::{CloseFault, NoGate, Seat, ServiceFault};
use pf_service_fixture::{BLUE, RED, both, make, namespaces, seat_if};
use std::alloc::Global;
use std::process::Abort;
use std::sync::Wait;
use std::sync::ledger::Ledger;
use std::test::Fail;

// One tenant after the other.
struct InTurn;

impl Callers<NoGate> for InTurn {
    fn work<C: Ledger, H: Ledger, R: Wait + Abort>(
        &self,
        rt: &R,
        alloc: Global,
        service: &Plain<C, H>,
    ) -> Result<Vec<Seat>, Fail> {
        let (ours, theirs) = (steps_of_red(alloc)?, steps_of_blue(alloc)?);
        let (red, blue) = (service.seat(rt, RED)?, service.seat(rt, BLUE)?);
        let red = make(rt, service, red, &ours);
        let blue = make(rt, service, blue, &theirs);
        both(alloc, blue, red)
    }
}

#[test]
fn two_tenants_are_told_what_they_are_told_alone(rt: HostRuntime) -> Result<(), Fail> {
    let alloc = rt.alloc();
    let transcripts = serve(&rt, alloc, namespaces(2), NoGate, &InTurn)??;
    told_alone(&rt, alloc, &transcripts)
}

// Whether a step isn't refused. Where a growth is, it is made once more: it is to find all as it was.
fn makes_again<R: Wait, C: Ledger, H: Ledger>(
    rt: &R,
    service: &Plain<C, H>,
    seat: &mut Seat,
    step: &Step,
) -> bool {
    let kept = seat.events().len();
    match service.call(rt, seat, step) {
        Err(ServiceFault::NoMemory) if seat.events().len() == kept => {
            service.call(rt, seat, step).is_ok()
        }
        told => told.is_ok(),
    }
}

// Whether none of the steps, in turn, is.
fn makes_all_again<R: Wait, C: Ledger, H: Ledger>(
    rt: &R,
    service: &Plain<C, H>,
    seat: &mut Seat,
    steps: &[Step],
) -> bool {
    for step in steps {
        if !makes_again(rt, service, seat, step) {
            return false;
        }
    }
    true
}

// Makes the steps so. No seat comes back where one was refused.
fn make_again<R: Wait, C: Ledger, H: Ledger>(
    rt: &R,
    service: &Plain<C, H>,
    mut seat: Seat,
    steps: &[Step],
) -> Option<Seat> {
    let all = makes_all_again(rt, service, &mut seat, steps);
    seat_if(all, seat)
}

// The same, where a growth may be refused.
struct InTurnAgain;

impl Callers<NoGate> for InTurnAgain {
    fn work<C: Ledger, H: Ledger, R: Wait + Abort>(
        &self,
        rt: &R,
        alloc: Global,
        service: &Plain<C, H>,
    ) -> Result<Vec<Seat>, Fail> {
        let (ours, theirs) = (steps_of_red(alloc)?, steps_of_blue(alloc)?);
        let (red, blue) = (service.seat(rt, RED)?, service.seat(rt, BLUE)?);
        let red = make_again(rt, service, red, &ours);
        let blue = make_again(rt, service, blue, &theirs);
        both(alloc, red, blue)
    }
}

#[test]
fn a_refused_growth_changes_nothing(rt: HostRuntime) -> Result<(), Fail> {
    let alloc = rt.alloc();
    match serve(&rt, alloc, namespaces(2), NoGate, &InTurnAgain)? {
        Err(CloseFault::NoMemory) => Ok(()),
        told => told_alone(&rt, alloc, &told?),
    }
}
