//! Calls that wait, tried again, with the bytes of a read in memory of the host's.

ghost use Rattle.std.specs.Prelude.{◌≡◌, ◌≢◌, ℕ, ◌+◌, ◌-◌, length};
ghost use Rattle.pf_machine.specs.Machine.{Answers};
ghost use Rattle.pf_machine.specs.Numbered.{at};
ghost use Rattle.pf_depot.specs.Door.{IsCovered as IsCoveredBy};
ghost use Rattle.pf_depot.specs.Loans.{loans_live};
ghost use Rattle.pf_tables.specs.Buffers.{Replied};
ghost use Rattle.pf_tables.specs.Owns.{Owns};
ghost use Rattle.pf_hub.specs.Covered.{IsCovered};
ghost use Rattle.pf_hub.specs.Stepped.{Moved, Stepped};
ghost use Rattle.pf_hub.specs.Tenants.{Lives, limits_at, state_at, frames_in};

use super::Hub;
use pf_base::{Answer, Errno, Step};
use pf_depot::{Lender, LoanDoor, Loans};
use pf_space::Placed;
use std::alloc::Allocator;

/// The step of a namespace that tries a call again, into this buffer, through the door of its loans and of whoever
/// lends them, as `step_over` says of a step. It takes no memory.
// It and `resume_in` are inlined, as `step_over` is.
#[inline(always)]
pub fn resume_over<A: Allocator + Clone, D: Lender>(
    placed: &mut Placed<A>,
    lender: &mut D,
    loans: &mut Loans,
    pid: u32,
    buffer: &mut [u8],
) -> Result<Option<usize>, Errno>
    requires fact { D.fact lender.old }
    requires covered { IsCoveredBy (loans_live loans.old) (D.ready lender.old) (D.out lender.old) }
    requires owns { Owns (loans_live loans.old) placed.old.space }
    ensures fact { D.fact lender.new }
    ensures covered { IsCoveredBy (loans_live loans.new) (D.ready lender.new) (D.out lender.new) }
    ensures rest { D.rest lender.new ≡ D.rest lender.old }
    ensures reserved { (loans_live loans.new).reserved ≡ (loans_live loans.old).reserved }
    // what is held came from the lender, or went back
    ensures spare { D.ready lender.new + (loans_live loans.new).held
        ≡ D.ready lender.old + (loans_live loans.old).held }
    ensures owed { D.out lender.new - (loans_live loans.new).held
        ≡ D.out lender.old - (loans_live loans.old).held }
    ensures moved { Replied (λ reply. Moved (loans_live loans.old) (loans_live loans.new)
        placed.old.space placed.new.space (Step.Resume pid) (Answer.Done reply)) result buffer.old buffer.new }
    ensures allocator { placed.new.allocator ≡ placed.old.allocator }
{
    let mut door = LoanDoor::new(lender, loans);
    placed.resume_into(&mut door, pid, buffer)
}

impl<A: Allocator + Clone> Hub<A> {
    /// One step of one namespace that tries the call again in which a process waits (this profile's own): what it
    /// leaves is what `step` leaves with a `Step::Resume`, and what it is told is the same number, the same wait and
    /// the same error. Of a read the number is how many bytes it hands out, at most as many as it asked for when it
    /// began to wait: the first of them lie at the buffer's front, as many as it has room for, and the others are lost.
    /// So it is given a buffer as long as that of the read. Of a read, a number above the buffer's length says that
    /// bytes were lost. It takes no memory, where `step` makes room for the bytes of a read.
    pub fn resume_into(
        &mut self,
        ns: u32,
        pid: u32,
        buffer: &mut [u8],
    ) -> Result<Option<usize>, Errno>
        requires lives { Lives self.old.world ns }
        ensures number { length self.new.world.tenants ≡ length self.old.world.tenants }
        ensures lives { Lives self.new.world ns }
        ensures frames { frames_in self.new.world ≡ frames_in self.old.world }
        ensures limits { limits_at self.new.world ns ≡ limits_at self.old.world ns }
        // its reply and its state are the lone machine's, and nobody else is told, or has, anything else. That reply is
        // told, with its first bytes at the buffer's front, and nothing else has changed in it
        ensures answers { Replied (λ reply. Answers (limits_at self.old.world ns) (Answer.Done reply)
            (state_at self.old.world ns) (Step.Resume pid) (state_at self.new.world ns))
            result buffer.old buffer.new }
        ensures others { (m : ℕ) → m ≢ ns → at self.new.world.tenants m ≡ at self.old.world.tenants m }
        ensures allocators { self.new.allocators ≡ self.old.allocators }
        ensures covered { IsCovered self.new.world }
    {
        self.resume_in(ns, pid, buffer)
    }

    // The same, as one fact.
    #[inline(always)]
    fn resume_in(&mut self, ns: u32, pid: u32, buffer: &mut [u8]) -> Result<Option<usize>, Errno>
        requires lives { Lives self.old.world ns }
        ensures stepped { Replied
            (λ reply. Stepped self.old.world self.new.world ns (Step.Resume pid) (Answer.Done reply))
            result buffer.old buffer.new }
        ensures allocators { self.new.allocators ≡ self.old.allocators }
    {
        match &mut self.tenants[ns as usize] {
            Some(tenant) => tenant.resume_into(&mut self.depot, pid, buffer),
            None => unreachable!(),
        }
    }
}
