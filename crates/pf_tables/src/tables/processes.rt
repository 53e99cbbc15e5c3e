//! Processes: what makes one, and what lets one go.

ghost use Rattle.std.specs.Prelude.{◌≡◌, ◌-◌, ◌<◌, Err, IsOk, OnErr, length};
ghost use Rattle.pf_machine.specs.Processes.{alive, exit, fork, spawn};
ghost use Rattle.pf_machine.specs.State.{of_ready};
ghost use Rattle.pf_base.specs.declared.TheConstants.{MAX_DESCRIPTORS};
ghost use Rattle.pf_tables.specs.Held.{HoldsNone};
ghost use Rattle.pf_tables.specs.Rows.{AllFind, AreFew, named_once_more};
ghost use Rattle.pf_tables.specs.Tables.{Begins, IsBare, Makes, Says};

use super::{Description, Tables};
use crate::process_table::Process;
use pf_base::{Cred, Errno, Fault, Groups, MAX_DESCRIPTORS, MAX_PROCESSES, Reply};
use pf_fds::{Descriptions, FdTable};
use std::alloc::{Allocator, Global};

// Gives each description that descriptors name one name more for each of them. The names can be counted: so far there
// are at most those of MAX_PROCESSES processes, each with MAX_DESCRIPTORS descriptors and a parked open.
fn name_all(descriptions: &mut Descriptions<Description>, descriptors: &FdTable)
    requires wide { length descriptors.now ≡ MAX_DESCRIPTORS }
    requires stand { AllFind descriptors.now descriptions.old.items }
    requires few { AreFew descriptions.old.items }
    ensures { descriptions.new.items ≡ named_once_more descriptors.now descriptions.old.items }
{
    let mut fd = descriptors.next(0);
    while fd < MAX_DESCRIPTORS {
        // Most keys stand side by side: the next one is looked for only from a number that has none.
        if let Some(key) = descriptors.get(fd) {
            descriptions.name(key);
            fd += 1;
        } else {
            fd = descriptors.next(fd + 1);
        }
    }
}

impl<A: Allocator> Tables<A> {
    /// How many processes live, also those that wait in a call. Where none does, nobody can reach a pipe: so none is
    /// there, and no frame is this namespace's.
    pub fn processes(&self) -> u32
        ensures number { result ≡ alive self.now.state }
        ensures none { result ≡ 0 → HoldsNone self.now }
    {
        self.processes.alive()
    }

    /// Makes a process with these credentials and no descriptors, under the lowest free pid (the profile's own).
    pub(super) fn spawn(
        &mut self,
        alloc: Global,
        uid: u32,
        gid: u32,
        umask: u32,
        groups: &Groups,
    ) -> Result<Reply, Fault>
        ensures says { Says self.old self.new result
            (spawn self.old.state (record { uid = uid; gid = gid; groups = groups.now; umask = umask })) }
        // Memory is wanted where nothing else stands against it.
        ensures wanted { result ≡ Err Fault.NoMemory
            → IsOk (spawn self.old.state (record { uid = uid; gid = gid; groups = groups.now; umask = umask })) }
        ensures refused { OnErr result (self.new ≡ self.old) }
    {
        if !Cred::may_have(groups, umask) {
            return Err(Errno::EINVAL.into());
        }
        let i = self.processes.lowest();
        if i >= MAX_PROCESSES {
            return Err(Errno::EAGAIN.into());
        }
        let groups = groups.copy(alloc)?;
        let descriptors = FdTable::new(alloc)?;
        let process = Process {
            cred: Cred {
                uid,
                gid,
                groups,
                umask,
            },
            descriptors,
            parked: None,
        };
        self.processes.put(i, process);
        Ok(Reply::Pid(i as u32 + 1))
    }

    /// Makes a process with the credentials and the descriptors of another one, under the lowest free pid (fork(2)).
    pub(super) fn fork(&mut self, alloc: Global, pid: u32) -> Result<Reply, Fault>
        ensures says { Says self.old self.new result (of_ready self.old.state pid (λ p. fork self.old.state p)) }
        // Memory is wanted where nothing else stands against it.
        ensures wanted { let s = self.old.state in result ≡ Err Fault.NoMemory
            → IsOk (of_ready s pid (λ p. fork s p)) }
        ensures refused { OnErr result (self.new ≡ self.old) }
    {
        let parent = self.processes.ready(pid)?;
        let i = self.processes.lowest();
        if i >= MAX_PROCESSES {
            return Err(Errno::EAGAIN.into());
        }
        // What may be refused comes first. All descriptions are named before the child stands, which is put down with
        // all of its descriptors at once: so what is said of this call is said of one loop over counts.
        let cred = parent.cred.copy(alloc)?;
        let descriptors = parent.descriptors.copy(alloc)?;
        name_all(&mut self.descriptions, &descriptors);
        let child = Process {
            cred,
            descriptors,
            parked: None,
        };
        self.processes.put(i, child);
        Ok(Reply::Pid(i as u32 + 1))
    }

    /// An exit begins: its process waits in no call any more. Its descriptors go one by one, by `empty`, and then it
    /// does itself.
    pub fn begin_exit(&mut self, pid: u32) -> Result<(), Errno>
        ensures begins { Begins self.old self.new pid result }
        ensures refused { OnErr result (self.new ≡ self.old) }
    {
        self.processes.living(pid)?;
        self.end_wait(pid);
        Ok(())
    }

    /// Takes a process away that has no descriptor, and waits in no call: the end of an exit.
    pub fn end_exit(&mut self, pid: u32)
        requires some { 0 < pid }
        requires bare { IsBare self.old.state (pid - 1) MAX_DESCRIPTORS }
        ensures { Makes self.old self.new (exit self.old.state pid) (Reply.Num 0) }
    {
        self.processes.take(pid as usize - 1);
    }
}
