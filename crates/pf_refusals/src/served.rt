//! Rows that a service plays: a caller at each namespace makes the steps, and in the end the service is closed.

ghost use Rattle.pf_depot.specs.Blanks.{IsBlankOf};

use crate::end::End;
use crate::host::{Host, make_all};
use crate::row::{Row, Way};
use crate::scripts::{blank, configs_of, frames_of};
use crate::told::{Told, retirement};
use pf_base::{Answer, Config, EventAnswer, MAX_NAMESPACES, Step};
use pf_script::Script;
use pf_service::{CloseFault, Gate, NoGate, Seat, Service, ServiceFault};
use std::alloc::Global;
use std::marker::Brand;
use std::sync::Wait;
use std::sync::ledger::{Blank, Ledger};

type Shared<C, H> = Service<Global, NoGate, C, H>;

/// A service of a row's namespaces over its frames.
pub(crate) fn service_of<G: Gate + Drop, C: Ledger, H: Ledger>(
    alloc: Global,
    row: &Row<'_>,
    script: &Script,
    gate: G,
    credits: Blank,
    held: Blank,
) -> Result<Service<Global, G, C, H>, End>
    requires blanks { IsBlankOf C.name C.parts credits × IsBlankOf H.name H.parts held }
{
    let frames = frames_of(alloc, script.frames())?;
    let configs = configs_of(alloc, row, script)?;
    Ok(Service::new(alloc, frames, configs, gate, credits, held)?)
}

/// The answer to a call whose receipt is to have this place. A refused call leaves its seat.
pub(crate) fn answer_at<R: Wait, G: Gate, C: Ledger, H: Ledger>(
    rt: &R,
    service: &Service<Global, G, C, H>,
    seat: &mut Seat,
    step: &Step,
    place: usize,
) -> Result<EventAnswer, End> {
    let kept = seat.events().len();
    match service.call(rt, seat, step) {
        Ok(receipt) if receipt.place == place as u64 => {
            Ok(EventAnswer::Answer(Answer::Done(receipt.reply)))
        }
        Err(fault) if seat.events().len() == kept => refusal(fault),
        _ => Err(End::NoScript),
    }
}

/// What a refused call is answered.
fn refusal(fault: ServiceFault) -> Result<EventAnswer, End> {
    match fault {
        ServiceFault::NoMemory => Ok(EventAnswer::Answer(Answer::NoMemory)),
        ServiceFault::Gone => Ok(EventAnswer::Gone),
        _ => Err(End::NoScript),
    }
}

/// The same by a call that may wait, for steps that needn't: there is a receipt for each event of the seat.
fn answer_after_wait<R: Wait, C: Ledger, H: Ledger>(
    rt: &R,
    alloc: Global,
    service: &Shared<C, H>,
    seat: &mut Seat,
    step: &Step,
) -> Result<EventAnswer, End> {
    let kept = seat.events().len();
    let mut receipts = Vec::new(alloc);
    let end = service.call_waiting(rt, seat, step, &mut receipts);
    if seat.events().len().saturating_sub(kept) != receipts.len() {
        return Err(End::NoScript);
    }
    match (end, receipts.pop()) {
        (Ok(()) | Err(ServiceFault::NoMemory), Some(receipt)) => {
            Ok(EventAnswer::Answer(Answer::Done(receipt.reply)))
        }
        (Err(fault), None) => refusal(fault),
        _ => Err(End::NoScript),
    }
}

/// A caller at each namespace, with the only seat there.
#[derive(Drop)]
struct Callers<'a, R: Wait, C: Ledger, H: Ledger> {
    rt: &'a R,
    alloc: Global,
    service: &'a Shared<C, H>,
    seats: &'a mut Vec<Seat>,
    waits: bool,
}

impl<R: Wait, C: Ledger, H: Ledger> Callers<'_, R, C, H> {
    /// Takes a seat at a namespace.
    fn sit(&mut self, ns: u32) -> Result<(), End> {
        match self.service.seat(self.rt, ns) {
            Ok(seat) => Ok(self.seats.push(seat)?),
            Err(ServiceFault::NoMemory) => Err(End::NoMemory),
            Err(_) => Err(End::NoScript),
        }
    }
}

impl<R: Wait, C: Ledger, H: Ledger> Host for Callers<'_, R, C, H> {
    fn make(&mut self, ns: u32, step: &Step) -> Result<EventAnswer, End> {
        let Some(seat) = self.seats.get_mut(ns as usize) else {
            return Err(End::NoScript);
        };
        if self.waits {
            return answer_after_wait(self.rt, self.alloc, self.service, seat, step);
        }
        let place = seat.events().len();
        answer_at(self.rt, self.service, seat, step, place)
    }

    fn comes(&mut self, config: Config) -> Result<EventAnswer, End> {
        match self.service.admit(self.rt, config, self.alloc) {
            Ok(ns) => {
                self.sit(ns)?;
                Ok(EventAnswer::Admitted(ns))
            }
            Err(fault) => Ok(EventAnswer::NotAdmitted(fault)),
        }
    }

    fn goes(&mut self, ns: u32) -> Result<EventAnswer, End> {
        Ok(retirement(self.service.retire(self.rt, ns)))
    }
}

/// Has callers of a service make a row's steps. There is room for the seats of those that come.
fn make<R: Wait, C: Ledger, H: Ledger>(
    rt: &R,
    alloc: Global,
    row: &Row<'_>,
    script: &Script,
    service: &Shared<C, H>,
    seats: &mut Vec<Seat>,
    told: &mut Told,
) -> Result<(), End> {
    let waits = row.way == Way::Waits;
    let residents = row.residents(script);
    seats.reserve(MAX_NAMESPACES)?;
    let mut callers = Callers {
        rt,
        alloc,
        service,
        seats,
        waits,
    };
    for ns in 0..residents {
        callers.sit(ns)?;
    }
    make_all(alloc, row, script, &mut callers, told)
}

/// Closes a service with all its seats.
pub(crate) fn close<G: Gate + Drop, C: Ledger, H: Ledger>(
    service: Service<Global, G, C, H>,
    seats: Vec<Seat>,
    told: &mut Told,
) -> Result<(), End> {
    match service.close(seats) {
        Ok(_) => Ok(()),
        Err(CloseFault::NoMemory) => {
            told.is_open = true;
            Ok(())
        }
        Err(_) => Err(End::NoScript),
    }
}

fn play_over<R: Wait, C: Ledger, H: Ledger>(
    rt: &R,
    alloc: Global,
    row: &Row<'_>,
    script: &Script,
    told: &mut Told,
    credits: Blank,
    held: Blank,
) -> Result<(), End>
    requires blanks { IsBlankOf C.name C.parts credits × IsBlankOf H.name H.parts held }
{
    let service = service_of::<_, C, H>(alloc, row, script, NoGate, credits, held)?;
    let mut seats = Vec::new(alloc);
    let made = make(rt, alloc, row, script, &service, &mut seats, told);
    let closed = close(service, seats, told);
    made?;
    closed
}

/// Has a service play a script, and closes it.
pub(crate) fn play<R: Wait>(
    rt: &R,
    alloc: Global,
    row: &Row<'_>,
    script: &Script,
    told: &mut Told,
) -> Result<(), End> {
    play_over::<R, Brand, Brand>(rt, alloc, row, script, told, blank(), blank())
}
