//! Steps whose bytes stand in memory of the host's, as a hub has them (`Hub::write_from`, `read_into`, `resume_into`).
//! Each is a step as `Worker::step` makes one: it may wait for the depot's lock, and the gate is told of each frame
//! before it is taken: that is the way of a `GatedDepot`, and no clause of theirs. The depot is the one that the
//! worker's shares are of.

ghost use Rattle.std.specs.Prelude.{◌≡◌, ◌<◌, length, false};
ghost use Rattle.pf_machine.specs.Machine.{Answers, may_want_memory};
ghost use Rattle.pf_machine.specs.Events.{IsDone};
ghost use Rattle.pf_tables.specs.Buffers.{Lies, Replied, answer_in, number_in};
ghost use Rattle.pf_hub.specs.Covered.{IsRising};

use super::Worker;
use crate::gate::Gate;
use crate::gated::GatedDepot;
use pf_base::{Answer, Errno, Step};
use pf_depot::DepotBook;
use pf_hub::{read_over, resume_over, write_over};
use std::alloc::Allocator;
use std::sync::ledger::Ledger;
use std::sync::{Mutex, Wait};

impl<A: Allocator + Clone, C: Ledger, H: Ledger> Worker<A, C, H> {
    /// One step of its namespace that writes these bytes (write(2)): its answer and what it leaves are those of `step`
    /// with a `Step::Write` of them. A copy of them is made only where the write waits.
    pub fn write_from<R: Wait, G: Gate>(
        &mut self,
        rt: &R,
        book: &Mutex<DepotBook<C, H>>,
        gate: &G,
        pid: u32,
        fd: u32,
        bytes: &[u8],
    ) -> Answer
        ensures number { self.new.number ≡ self.old.number }
        ensures allocator { self.new.allocator ≡ self.old.allocator }
        ensures limits { self.new.tenant.limits ≡ self.old.tenant.limits }
        // its answer and its state are the lone machine's
        ensures answers { Answers self.old.tenant.limits result
            self.old.tenant.state (Step.Write pid fd bytes.now) self.new.tenant.state }
        // want of memory changes nothing, and comes of no write that needs none
        ensures unchanged { result ≡ Answer.NoMemory → self.new ≡ self.old }
        ensures succeeds { may_want_memory self.old.tenant.limits self.old.tenant.state (Step.Write pid fd bytes.now)
            ≡ false → IsDone result }
        ensures rising { IsRising self.new.tenant }
        // where it holds more frames than before, this gate was told of this namespace
        ensures framed { self.old.tenant.held < self.new.tenant.held → G.framed gate.now self.old.number }
    {
        let ns = self.number;
        let frames = self.loans.held();
        // bytes that go in may take frames
        let mut depot = GatedDepot::holding(
            rt,
            gate,
            ns,
            frames,
            book,
            &mut self.credits,
            &mut self.held,
            &mut self.stock,
        );
        write_over(
            &mut self.placed,
            &mut depot,
            &mut self.loans,
            pid,
            fd,
            bytes,
        )
    }

    /// One step of its namespace that reads into this buffer, as many bytes as it has room for (read(2)): what it
    /// leaves is what `step` leaves with a `Step::Read` of the buffer's length, and what it is told are the same bytes,
    /// the same wait and the same error. The bytes lie at the buffer's front, and their number is given out; none is
    /// where the read waits. It takes no memory.
    pub fn read_into<R: Wait, G: Gate>(
        &mut self,
        rt: &R,
        book: &Mutex<DepotBook<C, H>>,
        gate: &G,
        pid: u32,
        fd: u32,
        buffer: &mut [u8],
    ) -> Result<Option<usize>, Errno>
        ensures number { self.new.number ≡ self.old.number }
        ensures allocator { self.new.allocator ≡ self.old.allocator }
        ensures limits { self.new.tenant.limits ≡ self.old.tenant.limits }
        // its answer and its state are the lone machine's
        ensures answers { Answers self.old.tenant.limits (answer_in buffer.new result)
            self.old.tenant.state (Step.Read pid fd (length buffer.old)) self.new.tenant.state }
        // as many bytes lie at the buffer's front as it tells, and nothing else has changed in it
        ensures lies { Lies (number_in result) buffer.old buffer.new }
        ensures rising { IsRising self.new.tenant }
        // where it holds more frames than before, this gate was told of this namespace
        ensures framed { self.old.tenant.held < self.new.tenant.held → G.framed gate.now self.old.number }
    {
        let ns = self.number;
        let frames = self.loans.held();
        // bytes that go out give frames back
        let mut depot = GatedDepot::holding(
            rt,
            gate,
            ns,
            frames,
            book,
            &mut self.credits,
            &mut self.held,
            &mut self.stock,
        );
        read_over(
            &mut self.placed,
            &mut depot,
            &mut self.loans,
            pid,
            fd,
            buffer,
        )
    }

    /// One step of its namespace that tries the call again in which a process waits (this profile's own): what it
    /// leaves is what `step` leaves with a `Step::Resume`, and what it is told is the same number, the same wait and
    /// the same error. The first bytes that a read hands out lie at the buffer's front, as many as it has room for, and
    /// the others are lost, as `Hub::resume_into` says. It takes no memory.
    pub fn resume_into<R: Wait, G: Gate>(
        &mut self,
        rt: &R,
        book: &Mutex<DepotBook<C, H>>,
        gate: &G,
        pid: u32,
        buffer: &mut [u8],
    ) -> Result<Option<usize>, Errno>
        ensures number { self.new.number ≡ self.old.number }
        ensures allocator { self.new.allocator ≡ self.old.allocator }
        ensures limits { self.new.tenant.limits ≡ self.old.tenant.limits }
        // its reply and its state are the lone machine's. That reply is told, with its first bytes at the buffer's
        // front, and nothing else has changed in it
        ensures answers { Replied (λ reply. Answers self.old.tenant.limits (Answer.Done reply)
            self.old.tenant.state (Step.Resume pid) self.new.tenant.state) result buffer.old buffer.new }
        ensures rising { IsRising self.new.tenant }
        // where it holds more frames than before, this gate was told of this namespace
        ensures framed { self.old.tenant.held < self.new.tenant.held → G.framed gate.now self.old.number }
    {
        let ns = self.number;
        let frames = self.loans.held();
        // a write that goes on may take frames, and a read gives them back
        let mut depot = GatedDepot::holding(
            rt,
            gate,
            ns,
            frames,
            book,
            &mut self.credits,
            &mut self.held,
            &mut self.stock,
        );
        resume_over(&mut self.placed, &mut depot, &mut self.loans, pid, buffer)
    }
}
