//! What a host may ask besides the steps: who can go on, and what an end is ready for. A query changes nothing, costs
//! constant time for each process that it looks at, and takes no memory.

ghost use Rattle.pf_tables.specs.Queries.{GoesOn, GoesOnNext, IsReadiness};

use super::opens::others;
use super::{Tables, end, end_of};
use pf_base::{Errno, MAX_PROCESSES, MAX_WRITE, PIPE_BUF, Readiness, Side};
use pf_parked::Call;
use std::alloc::Allocator;

impl<A: Allocator> Tables<A> {
    /// Whether the call in which a process waits comes further when it is tried again: a Resume is told something else
    /// than Parked, or more bytes of a write go in. False where it waits in no call.
    pub fn can_go_on(&self, pid: u32) -> bool
        ensures { GoesOn self.now pid result }
    {
        let Ok(process) = self.processes.living(pid) else {
            return false;
        };
        match process.parked.as_ref() {
            None => false,
            Some(Call::Open { description, kept }) => {
                others(&self.descriptions, &self.pipes, *description) > *kept
            }
            Some(Call::Read { fd, n }) => {
                let Ok(end) = end_of(process, &self.descriptions, *fd, Some(Side::Read)) else {
                    return true;
                };
                let Some(pipe) = self.pipes.get(end.pipe) else {
                    return true;
                };
                pipe.read_goes_on(*n)
            }
            Some(Call::Write { fd, write }) => {
                let all = write.total() as usize;
                let left = (write.total() - write.written()) as usize;
                let Ok(end) = end_of(process, &self.descriptions, *fd, Some(Side::Write)) else {
                    return true;
                };
                let Some(pipe) = self.pipes.get(end.pipe) else {
                    return true;
                };
                if all > MAX_WRITE {
                    return true;
                }
                pipe.write_goes_on(all <= PIPE_BUF, left)
            }
            Some(
                Call::Cross {
                    crossing: _,
                    source,
                    sink,
                    n,
                },
            ) => {
                let Ok(from) = end_of(process, &self.descriptions, *source, Some(Side::Read)) else {
                    return true;
                };
                let Ok(to) = end_of(process, &self.descriptions, *sink, Some(Side::Write)) else {
                    return true;
                };
                if from.pipe.serial == to.pipe.serial {
                    return true;
                }
                let Some(source) = self.pipes.get(from.pipe) else {
                    return true;
                };
                let Some(sink) = self.pipes.get(to.pipe) else {
                    return true;
                };
                source.cross_goes_on(sink, *n)
            }
        }
    }

    /// The least pid above `after` whose process can go on, if there is one. It looks at those that wait in a call,
    /// each in constant time.
    pub fn next_to_go_on(&self, after: u32) -> Option<u32>
        ensures { GoesOnNext self.now after result }
    {
        // Who waits in no call can't go on.
        let mut i = self.processes.next_waiting(after as usize);
        while i < MAX_PROCESSES {
            let pid = i as u32 + 1;
            if self.can_go_on(pid) {
                return Some(pid);
            }
            i = self.processes.next_waiting(i + 1);
        }
        None
    }

    /// What the pipe of a process's descriptor is ready for (poll(2)).
    pub fn readiness(&self, pid: u32, fd: u32) -> Result<Readiness, Errno>
        ensures { IsReadiness self.now pid fd result }
    {
        let end = end(&self.processes, &self.descriptions, pid, fd, None)?;
        let Some(pipe) = self.pipes.get(end.pipe) else {
            return Err(Errno::EBADF);
        };
        Ok(Readiness {
            bytes: pipe.len() as u64,
            room: pipe.room() as u64,
            has_reader: pipe.readers() > 0,
            has_writer: pipe.writers() > 0,
        })
    }
}
