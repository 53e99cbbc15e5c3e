//! Files: the calls of `pf_walk` on the tree, for the process that makes them.

ghost use Rattle.std.specs.Prelude.{◌≡◌, Err, IsOk, OnErr, true, false};
ghost use Rattle.pf_machine.specs.Files.{make, unlink, rmdir, chmod, stat, list};
ghost use Rattle.pf_machine.specs.Paths.{has_dots};
ghost use Rattle.pf_machine.specs.State.{of_ready, ready};
ghost use Rattle.pf_tables.specs.Tables.{Says, made_reply};

use super::Tables;
use pf_base::{ByteString, Fault, Kind, Mode, Reply};
use std::alloc::{Allocator, Global};

// What a call is told that only was made.
fn made_reply(made: Result<(), Fault>) -> Result<Reply, Fault>
    ensures { result ≡ made_reply made }
{
    match made {
        Ok(()) => Ok(Reply::Num(0)),
        Err(fault) => Err(fault),
    }
}

// Each wants memory for a process that lives and waits in no call alone, where a name in the path is `.` or `..`, and
// else, but for stat, where nothing stands against the call.
impl<A: Allocator + Clone> Tables<A> {
    /// Makes a file of a process at a path (mkdir(), mkfifo()). `bits` is the mode asked for.
    pub(super) fn make_file(
        &mut self,
        alloc: Global,
        pid: u32,
        kind: Kind,
        path: &[u8],
        bits: u32,
    ) -> Result<Reply, Fault>
        ensures says { Says self.old self.new result
            (of_ready self.old.state pid (λ p. make kind self.old.state p path.now bits)) }
        ensures ready { result ≡ Err Fault.NoMemory → IsOk (ready self.old.state pid) }
        ensures wanted { result ≡ Err Fault.NoMemory → has_dots path.now ≡ false
            → IsOk (of_ready self.old.state pid (λ p. make kind self.old.state p path.now bits)) }
        ensures refused { OnErr result (self.new ≡ self.old) }
    {
        let cred = &self.processes.ready(pid)?.cred;
        let mode = Mode::new(bits)?;
        self.files
            .make(alloc, cred, path, kind, mode, self.files_made)?;
        self.files_made += 1;
        Ok(Reply::Num(0))
    }

    /// Takes a FIFO's name away (unlink()).
    pub(super) fn unlink(&mut self, alloc: Global, pid: u32, path: &[u8]) -> Result<Reply, Fault>
        ensures says { Says self.old self.new result
            (of_ready self.old.state pid (λ p. unlink self.old.state p path.now)) }
        ensures ready { result ≡ Err Fault.NoMemory → IsOk (ready self.old.state pid) }
        ensures wanted { result ≡ Err Fault.NoMemory → has_dots path.now ≡ false
            → IsOk (of_ready self.old.state pid (λ p. unlink self.old.state p path.now)) }
        ensures refused { OnErr result (self.new ≡ self.old) }
    {
        let cred = &self.processes.ready(pid)?.cred;
        made_reply(self.files.unlink(alloc, cred, path))
    }

    /// Takes a directory away that has no entries (rmdir()).
    pub(super) fn rmdir(&mut self, alloc: Global, pid: u32, path: &[u8]) -> Result<Reply, Fault>
        ensures says { Says self.old self.new result
            (of_ready self.old.state pid (λ p. rmdir self.old.state p path.now)) }
        ensures ready { result ≡ Err Fault.NoMemory → IsOk (ready self.old.state pid) }
        ensures wanted { result ≡ Err Fault.NoMemory → has_dots path.now ≡ false
            → IsOk (of_ready self.old.state pid (λ p. rmdir self.old.state p path.now)) }
        ensures refused { OnErr result (self.new ≡ self.old) }
    {
        let cred = &self.processes.ready(pid)?.cred;
        made_reply(self.files.rmdir(alloc, cred, path))
    }

    /// Gives a file another mode (chmod()). `bits` is the mode.
    pub(super) fn chmod(
        &mut self,
        alloc: Global,
        pid: u32,
        path: &[u8],
        bits: u32,
    ) -> Result<Reply, Fault>
        ensures says { Says self.old self.new result
            (of_ready self.old.state pid (λ p. chmod self.old.state p path.now bits)) }
        ensures ready { result ≡ Err Fault.NoMemory → IsOk (ready self.old.state pid) }
        ensures wanted { result ≡ Err Fault.NoMemory → has_dots path.now ≡ false
            → IsOk (of_ready self.old.state pid (λ p. chmod self.old.state p path.now bits)) }
        ensures refused { OnErr result (self.new ≡ self.old) }
    {
        let cred = &self.processes.ready(pid)?.cred;
        let mode = Mode::new(bits)?;
        made_reply(self.files.chmod(alloc, cred, path, mode))
    }

    /// What is known of a file (stat()).
    pub(super) fn stat(&self, alloc: Global, pid: u32, path: &[u8]) -> Result<Reply, Fault>
        ensures says { Says self.now self.now result
            (of_ready self.now.state pid (λ p. stat self.now.state p path.now)) }
        ensures ready { result ≡ Err Fault.NoMemory → IsOk (ready self.now.state pid) }
        ensures wanted { result ≡ Err Fault.NoMemory → has_dots path.now ≡ true }
    {
        let cred = &self.processes.ready(pid)?.cred;
        match pf_walk::stat(alloc, self.files.tree(), cred, path) {
            Ok(meta) => Ok(Reply::Meta(meta)),
            Err(fault) => Err(fault),
        }
    }

    /// The names in a directory, each with a slash behind it.
    pub(super) fn list(&self, alloc: Global, pid: u32, path: &[u8]) -> Result<Reply, Fault>
        ensures says { Says self.now self.now result
            (of_ready self.now.state pid (λ p. list self.now.state p path.now)) }
        ensures ready { result ≡ Err Fault.NoMemory → IsOk (ready self.now.state pid) }
        ensures wanted { result ≡ Err Fault.NoMemory → has_dots path.now ≡ false
            → IsOk (of_ready self.now.state pid (λ p. list self.now.state p path.now)) }
    {
        let cred = &self.processes.ready(pid)?.cred;
        match pf_walk::list(alloc, self.files.tree(), cred, path) {
            Ok(names) => Ok(Reply::Names(ByteString::new(alloc, names)?)),
            Err(fault) => Err(fault),
        }
    }
}
