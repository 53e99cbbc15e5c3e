//! What a host may ask of a worker besides its steps. A query changes nothing, waits for no lock, costs constant time for
//! each process that it looks at, and takes no memory.

ghost use Rattle.std.specs.Prelude.{◌≡◌};
ghost use Rattle.pf_machine.specs.Queries.{can_go_on, readiness, IsNext};

use super::Worker;
use pf_base::{Errno, Readiness};
use std::alloc::Allocator;
use std::sync::ledger::Ledger;

impl<A: Allocator, C: Ledger, H: Ledger> Worker<A, C, H> {
    /// Whether the call in which a process waits comes further when it is tried again, as `Space::can_go_on` says.
    pub fn can_go_on(&self, pid: u32) -> bool
        ensures { result ≡ can_go_on self.now.tenant.limits self.now.tenant.state pid }
    {
        self.placed.can_go_on(pid)
    }

    /// The least pid above `after` whose process can go on, if there is one. So a loop from 0 finds them all.
    pub fn next_to_go_on(&self, after: u32) -> Option<u32>
        ensures { IsNext self.now.tenant.limits self.now.tenant.state after result }
    {
        self.placed.next_to_go_on(after)
    }

    /// What the pipe is ready for that a process's descriptor names (poll(2)), as `Space::readiness` says.
    pub fn readiness(&self, pid: u32, fd: u32) -> Result<Readiness, Errno>
        ensures { result ≡ readiness self.now.tenant.state pid fd }
    {
        self.placed.readiness(pid, fd)
    }
}
