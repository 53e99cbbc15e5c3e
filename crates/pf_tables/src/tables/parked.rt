//! Calls that wait: a process parks in one, and is woken.

ghost use Rattle.std.specs.Prelude.{◌≡◌, None, Some, IsOk};
ghost use Rattle.std.specs.Option.{option_map};
ghost use Rattle.pf_machine.specs.Machine as machine;
ghost use Rattle.pf_machine.specs.State.{itself, ready, living};
ghost use Rattle.pf_machine.specs.Sweep.{sweep};
ghost use Rattle.pf_tables.specs.Rows.{call_of, made_by};
ghost use Rattle.pf_tables.specs.Tables.{Wakes, awoken, waits_in_open};
ghost use Rattle.pf_tables.specs.Told.{waits_in};

use super::Tables;
use pf_base::Errno;
use pf_fds::Key;
use pf_parked::Call;
use std::alloc::Allocator;

impl<A: Allocator> Tables<A> {
    /// A process that waits in no call waits in this one, which is no open. It takes no memory.
    pub fn park(&mut self, pid: u32, call: Call<Key>)
        requires ready { IsOk (ready self.old.state pid) }
        requires moving { made_by (Some call) ≡ None }
        ensures { self.new ≡ waits_in (Some (call_of call)) self.old pid }
    {
        self.processes.park(pid, call);
    }

    /// The transfer in which a process waits is over, and is given out. One that waits in an open goes on waiting, and
    /// nothing is given out: `resume_open` tries it again. ESRCH where no process lives, EINVAL where it waits in no
    /// call.
    pub fn wake(&mut self, pid: u32) -> Result<Option<Call<Key>>, Errno>
        ensures { Wakes self.old self.new pid result }
    {
        self.settled();
        if self.waits_in_open(pid)? {
            return Ok(None);
        }
        Ok(self.end_wait(pid))
    }

    // Whether the call in which a process waits is an open.
    fn waits_in_open(&self, pid: u32) -> Result<bool, Errno>
        ensures { result ≡ waits_in_open self.now.state pid }
    {
        match &self.processes.living(pid)?.parked {
            Some(Call::Open { .. }) => Ok(true),
            Some(_) => Ok(false),
            None => Err(Errno::EINVAL),
        }
    }

    /// The call in which a process waits is over, and is given out. A description that an open made gets the lowest
    /// free descriptor.
    pub(super) fn end_wait(&mut self, pid: u32) -> Option<Call<Key>>
        requires lives { IsOk (living self.old.state pid) }
        ensures call { option_map call_of result ≡ machine.call_of self.old.state pid }
        ensures namespace { self.new ≡ record self.old { state = awoken self.old.state pid } }
        ensures swept { self.new.state ≡ sweep itself self.new.state }
    {
        self.processes.wake(pid)
    }
}
