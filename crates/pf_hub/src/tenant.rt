ghost use Rattle.std.specs.Prelude.{◌≡◌, ◌-◌, length};
ghost use Rattle.pf_depot.specs.Depot.{free_of, frames_of};
ghost use Rattle.pf_depot.specs.Door.{IsCovered};
ghost use Rattle.pf_depot.specs.Loans.{loans_live};
ghost use Rattle.pf_hub.specs.Stepped.{Lodges};
ghost use Rattle.pf_tables.specs.Buffers.{Lies, Replied, answer_in, number_in};
ghost use Rattle.pf_tables.specs.Owns.{Owns};

use crate::hub::{read_over, resume_over, step_over, write_over};
use pf_base::{Answer, Errno, Step};
use pf_depot::{Depot, Loans};
use pf_space::Placed;
use std::alloc::Allocator;

/// A namespace of a hub, as one value: the frames that it has on loan, and its own state beside the allocator of its
/// files.
///
/// It is what comes with an admission and goes with a retirement. What it means is its lone machine: its limits and
/// that machine's state, whose pipes hold the bytes of the frames that its windows name.
#[derive(Drop)]
pub struct Tenant<A: Allocator> {
    /// The frames that it holds, at their places, and the count of each.
    pub loans: Loans,
    /// Its own state, beside the allocator of its files: its pipes are rings of windows on these frames.
    pub placed: Placed<A>,
}

impl<A: Allocator + Clone> Tenant<A> {
    /// One step, over this depot.
    #[inline(always)]
    pub(crate) fn step(&mut self, depot: &mut Depot, step: &Step) -> Answer
        requires covered { IsCovered (loans_live self.old.loans) (free_of depot.old)
            (frames_of depot.old - free_of depot.old) }
        requires owns { Owns (loans_live self.old.loans) self.old.placed.space }
        ensures lodges { Lodges depot.old depot.new self.old self.new step.now result }
        ensures unchanged { result ≡ Answer.NoMemory → (self.new ≡ self.old) × (depot.new ≡ depot.old) }
    {
        step_over(&mut self.placed, depot, &mut self.loans, step)
    }

    /// The step that writes these bytes, likewise.
    #[inline(always)]
    pub(crate) fn write_from(
        &mut self,
        depot: &mut Depot,
        pid: u32,
        fd: u32,
        bytes: &[u8],
    ) -> Answer
        requires covered { IsCovered (loans_live self.old.loans) (free_of depot.old)
            (frames_of depot.old - free_of depot.old) }
        requires owns { Owns (loans_live self.old.loans) self.old.placed.space }
        ensures lodges { Lodges depot.old depot.new self.old self.new (Step.Write pid fd bytes.now) result }
        ensures unchanged { result ≡ Answer.NoMemory → (self.new ≡ self.old) × (depot.new ≡ depot.old) }
    {
        write_over(&mut self.placed, depot, &mut self.loans, pid, fd, bytes)
    }

    /// And the one that reads into this buffer.
    #[inline(always)]
    pub(crate) fn read_into(
        &mut self,
        depot: &mut Depot,
        pid: u32,
        fd: u32,
        buffer: &mut [u8],
    ) -> Result<Option<usize>, Errno>
        requires covered { IsCovered (loans_live self.old.loans) (free_of depot.old)
            (frames_of depot.old - free_of depot.old) }
        requires owns { Owns (loans_live self.old.loans) self.old.placed.space }
        ensures lodges { Lodges depot.old depot.new self.old self.new (Step.Read pid fd (length buffer.old))
            (answer_in buffer.new result) }
        ensures lies { Lies (number_in result) buffer.old buffer.new }
    {
        read_over(&mut self.placed, depot, &mut self.loans, pid, fd, buffer)
    }

    /// And the one that tries a call again, into this buffer.
    #[inline(always)]
    pub(crate) fn resume_into(
        &mut self,
        depot: &mut Depot,
        pid: u32,
        buffer: &mut [u8],
    ) -> Result<Option<usize>, Errno>
        requires covered { IsCovered (loans_live self.old.loans) (free_of depot.old)
            (frames_of depot.old - free_of depot.old) }
        requires owns { Owns (loans_live self.old.loans) self.old.placed.space }
        ensures lodges { Replied
            (λ reply. Lodges depot.old depot.new self.old self.new (Step.Resume pid) (Answer.Done reply))
            result buffer.old buffer.new }
    {
        resume_over(&mut self.placed, depot, &mut self.loans, pid, buffer)
    }
}
