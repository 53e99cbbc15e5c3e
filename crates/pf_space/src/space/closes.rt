//! What lets go: Close and Exit. A pipe that the tables hand out gives its frames back.

ghost use Rattle.std.specs.Prelude.{◌≡◌, ◌≢◌, ◌-◌, ◌<◌, [], Err, None, IfSome, is_some};
ghost use Rattle.pf_machine.specs.Machine.{call};
ghost use Rattle.pf_ring.specs.Windows.{Keeps, Stands};
ghost use Rattle.pf_tables.specs.Meaning.{meaning};
ghost use Rattle.pf_tables.specs.Tables.{descriptor, emptied};
ghost use Rattle.pf_tables.specs.Told.{Becomes, Told};
ghost use Rattle.pf_tables.specs.Door.{Serves, HandsOn};

use super::Space;
use pf_base::{Fault, MAX_DESCRIPTORS, Reply, Step};
use pf_frame::Frames;
use pf_pipe::Pipe;
use std::alloc::Allocator;

// Gives the frames of a pipe back that went, if one did.
// It and `empty` are inlined: an exit takes these steps for each of its descriptors, and a call costs a third of them.
#[inline(always)]
fn clear<F: Frames>(door: &mut F, gone: Option<Pipe>)
    requires fact { F.fact door.old }
    requires stands { IfSome gone (λ p. Stands (F.live door.old) p.ring.segments) }
    ensures door { HandsOn F.Frames door.old door.new }
    ensures keeps { IfSome gone (λ p. Keeps [] p.ring.segments [] (F.live door.old) (F.live door.new)) }
    ensures none { gone ≡ None → door.new ≡ door.old }
{
    if let Some(mut pipe) = gone {
        pipe.clear(door);
    }
}

impl<A: Allocator + Clone> Space<A> {
    /// Drops a process's descriptor (close(2)), and what nobody can reach any more.
    pub(super) fn close<F: Frames>(
        &mut self,
        door: &mut F,
        pid: u32,
        fd: u32,
    ) -> Result<Reply, Fault>
        requires door { Serves F.Frames door.old self.old }
        ensures door { HandsOn F.Frames door.old door.new }
        ensures told { Told (F.live door.old) (F.live door.new) self.old self.new result
            (call self.old.limits (meaning (F.live door.old) self.old.state) (Step.Close pid fd)) }
        ensures succeeds { result ≢ Err Fault.NoMemory }
    {
        let gone = self.tables.close(pid, fd)?;
        clear(door, gone);
        Ok(Reply::Num(0))
    }

    // Drops a descriptor of a process, if there is one, and what nobody can reach any more, and tells whether there was
    // one.
    #[inline(always)]
    fn empty<F: Frames>(&mut self, door: &mut F, pid: u32, fd: usize) -> bool
        requires door { Serves F.Frames door.old self.old }
        requires some { 0 < pid }
        ensures door { HandsOn F.Frames door.old door.new }
        ensures emptied { Becomes (F.live door.old) (F.live door.new) self.old self.new
            (emptied (meaning (F.live door.old) self.old.state) (pid - 1) fd) }
        ensures was_open { result ≡ is_some (descriptor self.old.state (pid - 1) fd) }
    {
        let gone = self.tables.empty(pid, fd);
        clear(door, gone.pipe);
        gone.was_open
    }

    /// Takes a process away, with its descriptors. What nobody can reach any more goes.
    pub(super) fn exit<F: Frames>(&mut self, door: &mut F, pid: u32) -> Result<Reply, Fault>
        requires door { Serves F.Frames door.old self.old }
        ensures door { HandsOn F.Frames door.old door.new }
        ensures told { Told (F.live door.old) (F.live door.new) self.old self.new result
            (call self.old.limits (meaning (F.live door.old) self.old.state) (Step.Exit pid)) }
        ensures succeeds { result ≢ Err Fault.NoMemory }
    {
        self.tables.begin_exit(pid)?;
        // It costs what is open: only from a number without a descriptor the next one is looked for.
        let mut fd = self.tables.next_descriptor(pid, 0);
        while fd < MAX_DESCRIPTORS {
            if self.empty(door, pid, fd) {
                fd += 1;
            } else {
                fd = self.tables.next_descriptor(pid, fd + 1);
            }
        }
        self.tables.end_exit(pid);
        Ok(Reply::Num(0))
    }
}
