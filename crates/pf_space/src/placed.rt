//! A namespace beside the allocator of its files, where a contract sees it.

use crate::space::Space;
use pf_base::{Answer, Config, Errno, Readiness, Step};
use pf_frame::Frames;
use std::alloc::{AllocError, Allocator, Global};

/// A namespace, and the allocator whose memory its files stand in. A contract sees both.
///
/// What a contract sees of a `Space`, of its tables and of its tree has no allocator: each is made with one value of a
/// type that it knows nothing of, and is never handed another, so its files can stand only where that value or a clone
/// of it puts them. Which value that was is told here, for all three. It is for the host to give an allocator whose
/// clones share its memory, as those of the global one and of a reference do.
#[derive(Drop)]
pub struct Placed<A: Allocator> {
    space: Space<A>,
    allocator: A,
}

impl<A: Allocator> Placed<A> {
    ghost use Rattle.std.specs.Prelude.{◌≡◌, ◌≤◌};
    ghost use Rattle.pf_machine.specs.Machine.{call_of};
    ghost use Rattle.pf_machine.specs.Processes.{alive};
    ghost use Rattle.pf_machine.specs.Replies.{most_of, written_in};
    ghost use Rattle.pf_tables.specs.Bounds.{Covers};
    ghost use Rattle.pf_tables.specs.Held.{HoldsNone};
    ghost use Rattle.pf_tables.specs.Queries.{GoesOn, GoesOnNext, IsReadiness};

    /// A number of bytes that the vector of a step's reply is no longer than, as `Space::reply_bound` says.
    pub fn reply_bound(&self, step: &Step) -> usize
        ensures covers { Covers self.now.space step.now result }
        ensures most { result ≤ most_of step.now }
    {
        self.space.reply_bound(step)
    }

    /// How many processes live, as `Space::processes` says.
    pub fn processes(&self) -> u32
        ensures number { result ≡ alive self.now.space.state }
        ensures none { result ≡ 0 → HoldsNone self.now.space }
    {
        self.space.processes()
    }

    /// How many bytes of its write went in before a process waited, as `Space::parked_written` says.
    pub fn parked_written(&self, pid: u32) -> u64
        ensures { result ≡ written_in (call_of self.now.space.state pid) }
    {
        self.space.parked_written(pid)
    }

    /// Whether the call in which a process waits comes further when it is tried again, as `Space::can_go_on` says.
    pub fn can_go_on(&self, pid: u32) -> bool
        ensures { GoesOn self.now.space pid result }
    {
        self.space.can_go_on(pid)
    }

    /// The next process that can go on, as `Space::next_to_go_on` says.
    pub fn next_to_go_on(&self, after: u32) -> Option<u32>
        ensures { GoesOnNext self.now.space after result }
    {
        self.space.next_to_go_on(after)
    }

    /// What a descriptor's pipe is ready for, as `Space::readiness` says.
    pub fn readiness(&self, pid: u32, fd: u32) -> Result<Readiness, Errno>
        ensures { IsReadiness self.now.space pid fd result }
    {
        self.space.readiness(pid, fd)
    }
}

impl<A: Allocator + Clone> Placed<A> {
    ghost use Rattle.std.specs.Prelude.{◌≡◌, length, IfOk, false};
    ghost use Rattle.pf_machine.specs.State.{opening};
    ghost use Rattle.pf_machine.specs.Machine.{Answers, may_want_memory};
    ghost use Rattle.pf_machine.specs.Events.{IsDone};
    ghost use Rattle.pf_tables.specs.Buffers.{Lies, Replied, answer_in, number_in};
    ghost use Rattle.pf_tables.specs.Meaning.{meaning};
    ghost use Rattle.pf_tables.specs.Owns.{Owns};
    ghost use Rattle.pf_tables.specs.Door.{Serves, HandsOn};

    /// A namespace at its opening state, with its files in memory of this allocator. They get clones of it.
    pub fn new(alloc: Global, allocator: A, config: Config) -> Result<Self, AllocError>
        ensures space { IfOk result (λ p. p.space ≡ record { limits = config; state = opening }) }
        ensures allocator { IfOk result (λ p. p.allocator ≡ allocator) }
    {
        let space = Space::new(alloc, allocator.clone()?, config)?;
        Ok(Placed { space, allocator })
    }

    /// One step, as `Space::step` says. The files stay with the same allocator.
    #[inline(always)]
    pub fn step<F: Frames>(&mut self, door: &mut F, step: &Step) -> Answer
        requires door { Serves F.Frames door.old self.old.space }
        ensures door { HandsOn F.Frames door.old door.new }
        ensures owns { Owns (F.live door.new) self.new.space }
        ensures limits { self.new.space.limits ≡ self.old.space.limits }
        ensures answers { Answers self.old.space.limits result (meaning (F.live door.old) self.old.space.state)
            step.now (meaning (F.live door.new) self.new.space.state) }
        ensures unchanged { result ≡ Answer.NoMemory → (self.new ≡ self.old) × (door.new ≡ door.old) }
        ensures succeeds { may_want_memory self.old.space.limits
            (meaning (F.live door.old) self.old.space.state) step.now ≡ false → IsDone result }
        ensures allocator { self.new.allocator ≡ self.old.allocator }
    {
        self.space.step(door, step)
    }

    /// The step that writes these bytes, as `Space::write_from` says. The files stay with the same allocator.
    #[inline(always)]
    pub fn write_from<F: Frames>(&mut self, door: &mut F, pid: u32, fd: u32, bytes: &[u8]) -> Answer
        requires door { Serves F.Frames door.old self.old.space }
        ensures door { HandsOn F.Frames door.old door.new }
        ensures owns { Owns (F.live door.new) self.new.space }
        ensures limits { self.new.space.limits ≡ self.old.space.limits }
        ensures answers { Answers self.old.space.limits result (meaning (F.live door.old) self.old.space.state)
            (Step.Write pid fd bytes.now) (meaning (F.live door.new) self.new.space.state) }
        ensures unchanged { result ≡ Answer.NoMemory → (self.new ≡ self.old) × (door.new ≡ door.old) }
        ensures succeeds { may_want_memory self.old.space.limits (meaning (F.live door.old) self.old.space.state)
            (Step.Write pid fd bytes.now) ≡ false → IsDone result }
        ensures allocator { self.new.allocator ≡ self.old.allocator }
    {
        self.space.write_from(door, pid, fd, bytes)
    }

    /// The step that reads into this buffer, as `Space::read_into` says. The files stay with the same allocator.
    #[inline(always)]
    pub fn read_into<F: Frames>(
        &mut self,
        door: &mut F,
        pid: u32,
        fd: u32,
        buffer: &mut [u8],
    ) -> Result<Option<usize>, Errno>
        requires door { Serves F.Frames door.old self.old.space }
        ensures door { HandsOn F.Frames door.old door.new }
        ensures owns { Owns (F.live door.new) self.new.space }
        ensures limits { self.new.space.limits ≡ self.old.space.limits }
        ensures answers { Answers self.old.space.limits (answer_in buffer.new result)
            (meaning (F.live door.old) self.old.space.state) (Step.Read pid fd (length buffer.old))
            (meaning (F.live door.new) self.new.space.state) }
        ensures lies { Lies (number_in result) buffer.old buffer.new }
        ensures allocator { self.new.allocator ≡ self.old.allocator }
    {
        self.space.read_into(door, pid, fd, buffer)
    }

    /// The step that tries a call again, into this buffer, as `Space::resume_into` says. The files stay with the same
    /// allocator.
    #[inline(always)]
    pub fn resume_into<F: Frames>(
        &mut self,
        door: &mut F,
        pid: u32,
        buffer: &mut [u8],
    ) -> Result<Option<usize>, Errno>
        requires door { Serves F.Frames door.old self.old.space }
        ensures door { HandsOn F.Frames door.old door.new }
        ensures owns { Owns (F.live door.new) self.new.space }
        ensures limits { self.new.space.limits ≡ self.old.space.limits }
        ensures answers { Replied
            (λ reply. Answers self.old.space.limits (Answer.Done reply)
            (meaning (F.live door.old) self.old.space.state) (Step.Resume pid)
            (meaning (F.live door.new) self.new.space.state)) result buffer.old buffer.new }
        ensures allocator { self.new.allocator ≡ self.old.allocator }
    {
        self.space.resume_into(door, pid, buffer)
    }
}
