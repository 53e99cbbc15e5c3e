//! The call of each kind of step that moves no bytes, lets nothing go and tries no call again.

ghost use Rattle.std.specs.Prelude.{◌≡◌, Err, OnErr};
ghost use Rattle.pf_tables.specs.Calls.{IsBooked, MayWant, own_of};
ghost use Rattle.pf_tables.specs.Tables.{Says};

use super::Tables;
use pf_base::{Fault, Kind, Reply, Step};
use std::alloc::{Allocator, Global};

impl<A: Allocator + Clone> Tables<A> {
    /// The call of such a step: it is made, or refused as the machine refuses it, or memory was wanted. It is none that
    /// reads, writes, tees, splices, closes, exits or resumes.
    // A call of its own: where it is inlined into a step, one that moves bytes has places for all these replies too.
    #[inline(never)]
    pub fn call(&mut self, alloc: Global, step: &Step) -> Result<Reply, Fault>
        requires booked { IsBooked step.now }
        ensures says { Says self.old self.new result (own_of self.old step.now) }
        ensures wants { result ≡ Err Fault.NoMemory → MayWant self.old step.now }
        ensures refused { OnErr result (self.new ≡ self.old) }
    {
        match step {
            Step::Spawn {
                uid,
                gid,
                umask,
                groups,
            } => self.spawn(alloc, *uid, *gid, *umask, groups),
            Step::Fork { pid } => self.fork(alloc, *pid),
            Step::Pipe { pid, nonblock } => self.pipe(alloc, *pid, *nonblock),
            Step::Dup { pid, fd } => self.dup(*pid, *fd),
            Step::SetNonblock { pid, fd, on } => self.set_nonblocking(*pid, *fd, *on),
            Step::SetSize { pid, fd, bytes } => self.set_size(alloc, *pid, *fd, *bytes),
            Step::GetSize { pid, fd } => self.size(*pid, *fd),
            Step::Mkdir { pid, path, mode } => {
                self.make_file(alloc, *pid, Kind::Directory, path.as_slice(), *mode)
            }
            Step::Mkfifo { pid, path, mode } => {
                self.make_file(alloc, *pid, Kind::Fifo, path.as_slice(), *mode)
            }
            Step::Unlink { pid, path } => self.unlink(alloc, *pid, path.as_slice()),
            Step::Rmdir { pid, path } => self.rmdir(alloc, *pid, path.as_slice()),
            Step::Chmod { pid, path, mode } => self.chmod(alloc, *pid, path.as_slice(), *mode),
            Step::Stat { pid, path } => self.stat(alloc, *pid, path.as_slice()),
            Step::List { pid, path } => self.list(alloc, *pid, path.as_slice()),
            Step::Open { pid, path, flags } => self.open(alloc, *pid, path.as_slice(), *flags),
            Step::Read { .. }
            | Step::Write { .. }
            | Step::Tee { .. }
            | Step::Splice { .. }
            | Step::Close { .. }
            | Step::Exit { .. }
            | Step::Resume { .. } => unreachable!(),
        }
    }
}
