//! Bytes of the host's, written from where they stand.

ghost use Rattle.std.specs.Prelude.{◌≡◌, ◌≢◌, ℕ, ◌+◌, ◌-◌, length, false};
ghost use Rattle.pf_machine.specs.Events.{IsDone};
ghost use Rattle.pf_machine.specs.Machine.{Answers, may_want_memory};
ghost use Rattle.pf_machine.specs.Numbered.{at};
ghost use Rattle.pf_depot.specs.Door.{IsCovered as IsCoveredBy};
ghost use Rattle.pf_depot.specs.Loans.{loans_live};
ghost use Rattle.pf_tables.specs.Owns.{Owns};
ghost use Rattle.pf_hub.specs.Covered.{IsCovered};
ghost use Rattle.pf_hub.specs.Stepped.{Moved, Stepped};
ghost use Rattle.pf_hub.specs.Tenants.{Lives, limits_at, state_at, frames_in};

use super::Hub;
use pf_base::{Answer, Step};
use pf_depot::{Lender, LoanDoor, Loans};
use pf_space::Placed;
use std::alloc::Allocator;

/// The step of a namespace that writes these bytes, through the door of its loans and of whoever lends them, as
/// `step_over` says of a step.
// It and `write_in` are inlined, as `step_over` is.
#[inline(always)]
pub fn write_over<A: Allocator + Clone, D: Lender>(
    placed: &mut Placed<A>,
    lender: &mut D,
    loans: &mut Loans,
    pid: u32,
    fd: u32,
    bytes: &[u8],
) -> Answer
    requires fact { D.fact lender.old }
    requires covered { IsCoveredBy (loans_live loans.old) (D.ready lender.old) (D.out lender.old) }
    requires owns { Owns (loans_live loans.old) placed.old.space }
    ensures fact { D.fact lender.new }
    ensures covered { IsCoveredBy (loans_live loans.new) (D.ready lender.new) (D.out lender.new) }
    ensures rest { D.rest lender.new ≡ D.rest lender.old }
    ensures reserved { (loans_live loans.new).reserved ≡ (loans_live loans.old).reserved }
    // what is held came from the lender, or went back
    ensures spare { D.ready lender.new + (loans_live loans.new).held
        ≡ D.ready lender.old + (loans_live loans.old).held }
    ensures owed { D.out lender.new - (loans_live loans.new).held
        ≡ D.out lender.old - (loans_live loans.old).held }
    ensures moved { Moved (loans_live loans.old) (loans_live loans.new) placed.old.space placed.new.space
        (Step.Write pid fd bytes.now) result }
    ensures allocator { placed.new.allocator ≡ placed.old.allocator }
    ensures unchanged { result ≡ Answer.NoMemory
        → (placed.new ≡ placed.old) × (lender.new ≡ lender.old) × (loans.new ≡ loans.old) }
{
    let mut door = LoanDoor::new(lender, loans);
    placed.write_from(&mut door, pid, fd, bytes)
}

impl<A: Allocator + Clone> Hub<A> {
    /// One step of one namespace that writes these bytes, which `step` wants as a `ByteString` (write(2)): its answer
    /// and what it leaves are those of `step` with a `Step::Write` of them. A copy of them is made only where the write
    /// waits.
    pub fn write_from(&mut self, ns: u32, pid: u32, fd: u32, bytes: &[u8]) -> Answer
        requires lives { Lives self.old.world ns }
        ensures number { length self.new.world.tenants ≡ length self.old.world.tenants }
        ensures lives { Lives self.new.world ns }
        ensures frames { frames_in self.new.world ≡ frames_in self.old.world }
        ensures limits { limits_at self.new.world ns ≡ limits_at self.old.world ns }
        // its answer and its state are the lone machine's, and nobody else is told, or has, anything else
        ensures answers { Answers (limits_at self.old.world ns) result
            (state_at self.old.world ns) (Step.Write pid fd bytes.now) (state_at self.new.world ns) }
        ensures others { (m : ℕ) → m ≢ ns → at self.new.world.tenants m ≡ at self.old.world.tenants m }
        // want of memory changes nothing, and comes of no write that needs none
        ensures unchanged { result ≡ Answer.NoMemory → self.new ≡ self.old }
        ensures succeeds { may_want_memory (limits_at self.old.world ns) (state_at self.old.world ns)
            (Step.Write pid fd bytes.now) ≡ false → IsDone result }
        ensures allocators { self.new.allocators ≡ self.old.allocators }
        ensures covered { IsCovered self.new.world }
    {
        self.write_in(ns, pid, fd, bytes)
    }

    // The same, as one fact.
    #[inline(always)]
    fn write_in(&mut self, ns: u32, pid: u32, fd: u32, bytes: &[u8]) -> Answer
        requires lives { Lives self.old.world ns }
        ensures stepped { Stepped self.old.world self.new.world ns (Step.Write pid fd bytes.now) result }
        ensures allocators { self.new.allocators ≡ self.old.allocators }
        ensures unchanged { result ≡ Answer.NoMemory → self.new ≡ self.old }
    {
        match &mut self.tenants[ns as usize] {
            Some(tenant) => tenant.write_from(&mut self.depot, pid, fd, bytes),
            None => unreachable!(),
        }
    }
}
