//! What the tests of a service stand on: a service of some namespaces, steps to make at it, and seats that come back.
//! It has no test, and nothing of the product: it is the fixture of `pf_service_trials` and of
//! `pf_service_waits_trials`, which are two, so that they are proved beside each other.
#![tactic(auto)]

ghost use Rattle.std.specs.Prelude.{◌≡◌};
ghost use Rattle.pf_base.specs.declared.TheConstants.{MAX_NAMESPACES};
ghost use Rattle.pf_depot.specs.Blanks.{IsBlankOf};

use pf_base::{ByteString, Config, Groups, MAX_NAMESPACES, Step};
use pf_frame::Frame;
use pf_service::{CloseFault, Gate, Receipt, Seat, Service, Transcripts};
use std::alloc::{AllocError, Global};
use std::sync::Wait;
use std::sync::ledger::{Blank, Ledger};
use std::test::Fail;

// What the frames hold before anyone writes to them.
const OLD: u8 = 0xA5;

/// The first tenant's namespace.
pub const RED: u32 = 0;

/// The second one's.
pub const BLUE: u32 = 1;

/// A ledger with a part for each namespace that there may be.
pub fn blank() -> Blank
    ensures { result.parts ≡ MAX_NAMESPACES }
{
    Blank::new(MAX_NAMESPACES as u64)
}

/// So many frames, each with something in it.
pub fn old_frames(alloc: Global, count: usize) -> Result<Vec<Frame>, AllocError> {
    let mut frames = Vec::with_capacity(alloc, count)?;
    for _ in 0..count {
        frames.push(Frame::filled(alloc, OLD)?)?;
    }
    Ok(frames)
}

/// How a service was closed, or why its callers gave up before.
pub type Closed = Result<Result<Transcripts, CloseFault>, Fail>;

/// How large a service is. Each namespace has 16 frames.
#[derive(Clone, Copy)]
pub struct Size {
    /// How many namespaces it begins with.
    pub namespaces: u8,
    /// How many frames nobody has reserved.
    pub slack: u8,
}

/// So many namespaces, and no frame besides.
pub fn namespaces(namespaces: u8) -> Size {
    Size {
        namespaces,
        slack: 0,
    }
}

/// Closes a service with the seats that its callers leave, and drops it where they gave up.
///
/// Whoever has a service and may end with it open must show how all of it is dropped, at each such end. That takes
/// longer to check than what any test says, so this function alone does, and those who have a service hand it on.
pub fn closed<G: Gate + Drop, C: Ledger, H: Ledger>(
    service: Service<Global, G, C, H>,
    seats: Result<Vec<Seat>, Fail>,
) -> Closed {
    match seats {
        Ok(seats) => Ok(service.close(seats)),
        Err(fail) => Err(fail),
    }
}

/// A service of this size.
pub fn service_of<G: Gate + Drop, C: Ledger, H: Ledger>(
    alloc: Global,
    size: Size,
    gate: G,
    credits: Blank,
    held: Blank,
) -> Result<Service<Global, G, C, H>, Fail>
    requires blanks { IsBlankOf C.name C.parts credits × IsBlankOf H.name H.parts held }
{
    let namespaces = usize::from(size.namespaces);
    let frames = old_frames(alloc, 16 * namespaces + usize::from(size.slack))?;
    let configs = configs_of(alloc, namespaces).ok_or("limits")?;
    match Service::new(alloc, frames, configs, gate, credits, held) {
        Ok(service) => Ok(service),
        Err(fault) => Err(Fail::from(fault)),
    }
}

/// Limits with this reservation.
pub fn config_of(reserve: u32) -> Option<Config> {
    Config::new(
        reserve,
        Config::DEFAULT_SOFT,
        Config::DEFAULT_HARD,
        Config::DEFAULT_MAX,
    )
    .ok()
}

// So many limits with 16 frames each.
fn configs_of(alloc: Global, namespaces: usize) -> Option<Vec<(Config, Global)>> {
    let config = config_of(16)?;
    let mut configs = Vec::with_capacity(alloc, namespaces).ok()?;
    for _ in 0..namespaces {
        configs.push((config, alloc)).ok()?;
    }
    Some(configs)
}

/// A process of user 5.
pub fn spawn() -> Step {
    Step::Spawn {
        uid: 5,
        gid: 5,
        umask: 18,
        groups: Groups::none(),
    }
}

/// The first process writes so many of a byte to its pipe.
pub fn write(alloc: Global, byte: u8, count: usize) -> Result<Step, AllocError> {
    write_by(alloc, 1, byte, count)
}

/// This process does.
pub fn write_by(alloc: Global, pid: u32, byte: u8, count: usize) -> Result<Step, AllocError> {
    Ok(Step::Write {
        pid,
        fd: 1,
        payload: ByteString::new(alloc, Vec::from_elem(alloc, byte, count)?)?,
    })
}

/// Whether a step isn't refused.
pub fn makes<R: Wait, G: Gate, C: Ledger, H: Ledger>(
    rt: &R,
    service: &Service<Global, G, C, H>,
    seat: &mut Seat,
    step: &Step,
) -> bool {
    service.call(rt, seat, step).is_ok()
}

/// Makes the steps in turn, until one is refused; whether none is.
pub fn makes_all<R: Wait, G: Gate, C: Ledger, H: Ledger>(
    rt: &R,
    service: &Service<Global, G, C, H>,
    seat: &mut Seat,
    steps: &[Step],
) -> bool {
    for step in steps {
        if !makes(rt, service, seat, step) {
            return false;
        }
    }
    true
}

// The place of the one receipt, where the call isn't refused.
fn one_place(is_made: bool, receipts: &[Receipt]) -> Option<u64> {
    match receipts {
        [receipt] if is_made => Some(receipt.place),
        _ => None,
    }
}

// The place of a step that isn't refused, by a call that may wait. It doesn't, and so has one receipt.
fn place_of_waiting<R: Wait, G: Gate, C: Ledger, H: Ledger>(
    rt: &R,
    alloc: Global,
    service: &Service<Global, G, C, H>,
    seat: &mut Seat,
    step: &Step,
) -> Option<u64> {
    let mut receipts = Vec::new(alloc);
    let is_made = service.call_waiting(rt, seat, step, &mut receipts).is_ok();
    let place = one_place(is_made, &receipts);
    drop(receipts);
    place
}

/// The place of a step that isn't refused, by a call, or by one that may wait.
pub fn place_of<R: Wait, G: Gate, C: Ledger, H: Ledger>(
    rt: &R,
    alloc: Global,
    service: &Service<Global, G, C, H>,
    seat: &mut Seat,
    step: &Step,
    may_wait: bool,
) -> Option<u64> {
    if may_wait {
        return place_of_waiting(rt, alloc, service, seat, step);
    }
    Some(service.call(rt, seat, step).ok()?.place)
}

/// Whether the next namespace that comes has this number, so nobody has used it up before. It reserves no frame.
pub fn is_next<R: Wait, G: Gate, C: Ledger, H: Ledger>(
    rt: &R,
    alloc: Global,
    service: &Service<Global, G, C, H>,
    ns: u32,
) -> bool {
    match config_of(0) {
        Some(config) => matches!(service.admit(rt, config, alloc), Ok(number) if number == ns),
        None => false,
    }
}

/// The seat, where something holds.
pub fn seat_if(holds: bool, seat: Seat) -> Option<Seat> {
    if holds { Some(seat) } else { None }
}

/// Makes the steps in turn. No seat comes back where one was refused.
pub fn make<R: Wait, G: Gate, C: Ledger, H: Ledger>(
    rt: &R,
    service: &Service<Global, G, C, H>,
    mut seat: Seat,
    steps: &[Step],
) -> Option<Seat> {
    let all = makes_all(rt, service, &mut seat, steps);
    seat_if(all, seat)
}

/// These two seats, where both came back.
pub fn both(alloc: Global, first: Option<Seat>, second: Option<Seat>) -> Result<Vec<Seat>, Fail> {
    let mut seats = Vec::with_capacity(alloc, 4)?;
    seats.push(first.ok_or("no seat")?)?;
    seats.push(second.ok_or("no seat")?)?;
    Ok(seats)
}

/// These seats and another, where it came back.
pub fn with(mut seats: Vec<Seat>, another: Option<Seat>) -> Result<Vec<Seat>, Fail> {
    seats.push(another.ok_or("no seat")?)?;
    Ok(seats)
}
