//! What a host may ask besides the steps (this profile's own): who can go on, and what an end is ready for. A query
//! changes nothing, costs constant time for each process that it looks at, and takes no memory.

ghost use Rattle.pf_tables.specs.Queries.{GoesOn, GoesOnNext, IsReadiness};

use super::Space;
use pf_base::{Errno, Readiness};
use std::alloc::Allocator;

impl<A: Allocator> Space<A> {
    /// Whether the call in which a process waits comes further when it is tried again: its Resume is told something
    /// else than Parked, or more bytes of its write go in. False where it waits in no call.
    pub fn can_go_on(&self, pid: u32) -> bool
        ensures { GoesOn self.now pid result }
    {
        self.tables.can_go_on(pid)
    }

    /// The least pid above `after` whose process can go on, if there is one. So a loop from 0 finds them all.
    pub fn next_to_go_on(&self, after: u32) -> Option<u32>
        ensures { GoesOnNext self.now after result }
    {
        self.tables.next_to_go_on(after)
    }

    /// What the pipe of a process's descriptor is ready for (poll(2)). The refusals are those of a question for its
    /// capacity: ESRCH, EBUSY, EBADF.
    pub fn readiness(&self, pid: u32, fd: u32) -> Result<Readiness, Errno>
        ensures { IsReadiness self.now pid fd result }
    {
        self.tables.readiness(pid, fd)
    }
}
