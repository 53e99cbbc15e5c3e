//! What is known of a reply before its step is made, of a write that waits, and of how many live: numbers, which take
//! no memory.

ghost use Rattle.std.specs.Prelude.{◌≡◌, ◌≤◌};
ghost use Rattle.pf_machine.specs.Machine.{call_of};
ghost use Rattle.pf_tables.specs.Bounds.{Covers};
ghost use Rattle.pf_machine.specs.Processes.{alive};
ghost use Rattle.pf_machine.specs.Replies.{most_of, written_in};
ghost use Rattle.pf_tables.specs.Held.{HoldsNone};

use super::Space;
use pf_base::Step;
use std::alloc::Allocator;

impl<A: Allocator> Space<A> {
    /// How many bytes of its write went in before a process waited; 0 where it waits in no write.
    pub fn parked_written(&self, pid: u32) -> u64
        ensures { result ≡ written_in (call_of self.now.state pid) }
    {
        self.tables.parked_written(pid)
    }

    /// How many processes live, also those that wait in a call. Where none does, no frame is this namespace's.
    pub fn processes(&self) -> u32
        ensures number { result ≡ alive self.now.state }
        ensures none { result ≡ 0 → HoldsNone self.now }
    {
        self.tables.processes()
    }

    /// A number of bytes that the vector of a step's reply is no longer than, in this state, to reserve memory for a
    /// copy of it. It costs constant time.
    ///
    /// A read's is what the pipe holds, up to what is asked for. A list's is 256 for each file but the root, and that
    /// of a read that waits what it asks for, up to all that 65,536 frames hold.
    pub fn reply_bound(&self, step: &Step) -> usize
        ensures covers { Covers self.now step.now result }
        ensures most { result ≤ most_of step.now }
    {
        match step {
            Step::Read { pid, fd, n } => self.tables.read_bound(*pid, *fd, *n),
            Step::List { pid: _, path: _ } => self.tables.list_bound(),
            Step::Resume { pid } => self.tables.resume_bound(*pid),
            _ => 0,
        }
    }
}
