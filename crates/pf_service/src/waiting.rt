ghost use Rattle.std.specs.Prelude.{◌≡◌, ℕ, ◌↔◌, ◌<◌, ◌++◌, [], ◌∷◌, List, length, vec_capacity, false, true, IsTrue, IfOk, IfErr, OnOk, OnErr};
ghost use Rattle.pf_base.specs.declared.step.Reply.{Reply as OneReply};
ghost use Rattle.pf_base.specs.declared.step.Reply.TheVariants.{Parked};
ghost use Rattle.pf_service.specs.declared.event.Event.{Event as OneEvent};
ghost use Rattle.pf_service.specs.Faults.{IsApplyFault};
ghost use Rattle.pf_service.specs.Tenants.{IsEvent, IsSameTenant, IsTenantFault, IsToldOfMore, became, is_idle_at};
ghost use Rattle.pf_service.specs.Seats.{Gains};
ghost use Rattle.pf_service.specs.Said.{IsRefusedThere, IsSaid, IsWaitedFor};
ghost use Rattle.pf_service.specs.Told.{Told};
ghost use Rattle.pf_service.specs.Waited.{waiter, resume_of, IsTried, IsWaited, IsAnswered, AreParked};

use crate::fault::ServiceFault;
use crate::living::Living;
use crate::place::event_of;
use crate::receipt::Receipt;
use crate::seat::Seat;
use crate::seated::{Seated, Tenant};
use crate::waiters::Waiters;
use pf_base::{Reply, Step};
use pf_depot::DepotBook;
use pf_worker::Gate;
use std::alloc::Allocator;
use std::sync::ledger::Ledger;
use std::sync::{Mutex, Wait};

// The process of a step that may wait: 0, which is no process, for any other.
fn waiter(step: &Step) -> u32
    ensures { result ≡ waiter step.now }
{
    match step {
        Step::Read { pid, .. }
        | Step::Write { pid, .. }
        | Step::Tee { pid, .. }
        | Step::Splice { pid, .. }
        | Step::Open { pid, .. }
        | Step::Resume { pid } => *pid,
        _ => 0,
    }
}

// Makes room for a receipt. Where there is none, the transcript's end is looked at before want of memory is answered.
fn make_room<A: Allocator + Clone, C: Ledger, H: Ledger>(
    living: &Living<A, C, H>,
    receipts: &mut Vec<Receipt>,
) -> Result<(), ServiceFault>
    ensures room { OnOk result (length receipts.new.items < vec_capacity receipts.new) }
    ensures kept { receipts.new.items ≡ receipts.old.items }
    ensures fault { IfErr result (IsApplyFault living.now.logged.transcript) }
{
    if receipts.reserve(1).is_err() {
        living.get_ref().place()?;
        return Err(ServiceFault::NoMemory);
    }
    Ok(())
}

// One event under the lock, whose receipt is appended, where the namespace lives. Whether its process waits.
fn try_once<A: Allocator + Clone, R: Wait, G: Gate, C: Ledger, H: Ledger, W: Waiters>(
    rt: &R,
    gate: &G,
    book: &Mutex<DepotBook<C, H>>,
    seated: &mut Seated<A, C, H>,
    waiters: &W,
    seat: &mut Seat,
    step: &Step,
    receipts: &mut Vec<Receipt>,
) -> Result<bool, ServiceFault>
    ensures tried { IfOk result (λ waits. (place : ℕ) × (reply : OneReply)
        × IsTried (λ s p r. Told s p r × G.passed gate.now seat.old.ns p) step.now seat.old seat.new
        receipts.old.items receipts.new.items place reply
        × (IsTrue waits ↔ (reply ≡ Parked))
        × IsEvent seated.old.tenant seated.new.tenant step.now place reply
        × (is_idle_at seated.old.tenant seated.new.tenant step.now reply ≡ false
        → W.woken waiters.now A C H (became seated.old seated.new.tenant))
        × (is_idle_at seated.old.tenant seated.new.tenant step.now reply ≡ true
        → seated.new.is_awaited ≡ seated.old.is_awaited)) }
    ensures framed { OnOk result (IsToldOfMore (G.framed gate.now seat.old.ns)
        seated.old.tenant seated.new.tenant) }
    ensures given { seated.new.given ≡ seated.old.given }
    ensures unchanged { OnErr result (IsSameTenant seated.old.tenant seated.new.tenant) }
    ensures fault { IfErr result (IsTenantFault seated.old.tenant) }
    ensures seat { OnErr result (Gains seat.old seat.new []) }
    ensures receipts { OnErr result (receipts.new.items ≡ receipts.old.items) }
    ensures waiting { OnErr result (seated.new.is_awaited ≡ seated.old.is_awaited) }
{
    let Tenant::Living(living) = &seated.tenant else {
        return Err(ServiceFault::Gone);
    };
    make_room(living, receipts)?;
    match event_of(rt, gate, book, seated, waiters, seat, step) {
        Ok(receipt) => {
            let waits = receipt.reply.is_same(&Reply::Parked);
            receipts.push_reserved(receipt);
            Ok(waits)
        }
        Err(fault) => Err(fault),
    }
}

/// An event of a seat of the namespace that lies behind a lock, and, as long as its process waits, after each further
/// event of the namespace a Resume of that process. Each happens to what lay there, those who wait there are woken
/// behind it, but for an event that is of no use to them, and where the namespace then holds more frames, the gate was
/// told. Between two of them is one wait, which begins with what the first left there, and the second happens to what
/// lies there when it ends. It is given up only where an event is refused because of what lay there.
pub(crate) fn wait_at<A: Allocator + Clone, R: Wait, G: Gate, C: Ledger, H: Ledger, W: Waiters>(
    rt: &R,
    gate: &G,
    book: &Mutex<DepotBook<C, H>>,
    locked: &Mutex<Seated<A, C, H>>,
    waiters: &W,
    seat: &mut Seat,
    step: &Step,
    receipts: &mut Vec<Receipt>,
) -> Result<(), ServiceFault>
    ensures waited { (es : List OneEvent)
        × IsWaited (IsSaid (λ n p. G.passed gate.now n p) (λ n. G.framed gate.now n)
        (λ s. W.lay waiters.now A C H s) (λ s. W.woken waiters.now A C H s) seat.old.ns)
        step.now seat.old seat.new
        receipts.old.items receipts.new.items es
        × IsWaitedFor (λ s t. W.went_on waiters.now A C H s t) (λ s. W.lay waiters.now A C H s) es
        × OnOk result (IsAnswered es)
        × OnErr result (AreParked es) }
    ensures fault { IfErr result (IsRefusedThere (λ s. W.lay waiters.now A C H s)) }
{
    let pid = waiter(step);
    let mut seated = waiters.lock(rt, locked);
    let mut waits = try_once(rt, gate, book, &mut *seated, waiters, seat, step, receipts)?;
    for _ in rt.forever() {
        if !waits {
            return Ok(());
        }
        seated.is_awaited = true;
        seated = waiters.wait(rt, seated);
        waits = try_once(
            rt,
            gate,
            book,
            &mut *seated,
            waiters,
            seat,
            &Step::Resume { pid },
            receipts,
        )?;
    }
    unreachable!()
}
