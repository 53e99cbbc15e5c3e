//! Descriptors: what gives a description one name more, what sets its flag, and what drops a name. Where a
//! description's last name goes, so does its end of the pipe; where a pipe's last end goes, so does the pipe: its pages
//! are charged no more, and it is handed out, since its slots still have frames.

ghost use Rattle.std.specs.Prelude.{◌≡◌, ◌≢◌, ℕ, ◌-◌, ◌<◌, ◌≤◌, Err, None, IsSome, IfSome, OnErr, is_some, length};
ghost use Rattle.std.specs.Prelude.{slice_set};
ghost use Rattle.pf_base.specs.declared.TheConstants.{MAX_DESCRIPTORS};
ghost use Rattle.pf_machine.specs.Descriptors.{close, dup, set_nonblock};
ghost use Rattle.pf_machine.specs.Numbered.{at, one_if};
ghost use Rattle.pf_machine.specs.State.{itself, of_ready};
ghost use Rattle.pf_fds.specs.Registry.{find};
ghost use Rattle.pf_tables.specs.Rows.{key_at, with_fewer, left, gone, opens_at, opens_of, pipe_of, pipes_of, Tied};
ghost use Rattle.pf_tables.specs.Tables.{descriptor, emptied};
ghost use Rattle.pf_tables.specs.Tables.{Closes, Forgets, Leaves, Left, LetsGo, Says};

use super::{Description, Tables, key_of};
use crate::process_table::ProcessTable;
use pf_base::{Errno, Fault, MAX_DESCRIPTORS, Reply, Side};
use pf_fds::{Descriptions, Key, Registry};
use pf_pipe::Pipe;
use std::alloc::Allocator;
use std::collections::HashMap;

// Counts an end of a pipe no more.
fn uncount(pipe: &mut Pipe, end: Description)
    requires reads { one_if end.reads ≤ pipe.old.readers }
    requires writes { one_if end.writes ≤ pipe.old.writers }
    ensures { pipe.new ≡ with_fewer end pipe.old }
{
    if end.reads {
        pipe.drop_end(Side::Read);
    }
    if end.writes {
        pipe.drop_end(Side::Write);
    }
}

// Takes an end from its pipe. The pipe goes where that was its last, and is given out.
fn drop_end(pipes: &mut Registry<Pipe>, end: Description) -> Option<Pipe>
    requires stands { IsSome (find pipes.old.items end.pipe.slot end.pipe.serial) }
    requires counted { IfSome (find pipes.old.items end.pipe.slot end.pipe.serial)
        (λ p. (one_if end.reads ≤ p.readers) × (one_if end.writes ≤ p.writers)) }
    ensures items { IfSome (find pipes.old.items end.pipe.slot end.pipe.serial)
        (λ p. pipes.new.items ≡ slice_set pipes.old.items end.pipe.serial (left end p)) }
    ensures pipe { IfSome (find pipes.old.items end.pipe.slot end.pipe.serial) (λ p. result ≡ gone end p) }
{
    let pipe = pipes.value_mut(end.pipe);
    uncount(pipe, end);
    if pipe.is_open() {
        return None;
    }
    Some(pipes.remove(end.pipe))
}

/// What a close or an exit lets go with one number.
#[derive(Drop)]
pub struct LetGo {
    /// Whether there was a descriptor.
    pub was_open: bool,
    /// The pipe that went with it: its slots still have their frames.
    pub pipe: Option<Pipe>,
}

// Drops a descriptor of the process in a place, if there is one, and what nobody can reach any more. It tells whether
// there was one, and gives out a pipe that goes.
// It and `empty` are inlined: an exit takes these steps for each of its descriptors, and a call costs a third of them.
#[inline(always)]
fn let_go(
    processes: &mut ProcessTable,
    descriptions: &mut Descriptions<Description>,
    pipes: &mut Registry<Pipe>,
    i: usize,
    fd: usize,
) -> LetGo
    requires { Tied processes.old descriptions.old.items pipes.old.items }
    ensures left { Left processes.old descriptions.old.items pipes.old.items
        processes.new descriptions.new.items pipes.new.items i fd }
    ensures pipe { LetsGo pipe_of (pipes_of pipes.old.items) (pipes_of pipes.new.items) result.pipe }
    ensures opens { LetsGo opens_at (opens_of pipes.old.items) (opens_of pipes.new.items) result.pipe }
    ensures drawn { length descriptions.new.items ≡ length descriptions.old.items }
    ensures was_open { result.was_open ≡ is_some (key_at fd (at processes.old i)) }
{
    let Some(key) = processes.take_key(i, fd) else {
        return LetGo {
            was_open: false,
            pipe: None,
        };
    };
    let Some(end) = descriptions.unname(key) else {
        return LetGo {
            was_open: true,
            pipe: None,
        };
    };
    let pipe = drop_end(pipes, end);
    LetGo {
        was_open: true,
        pipe,
    }
}

// Takes the key of a pipe that goes out of those of the FIFOs, where it is a FIFO's.
fn forget(fifos: &mut HashMap<u64, Key>, file: Option<u64>)
    ensures { Forgets file fifos.old.entries fifos.new.entries }
{
    if let Some(file) = file {
        fifos.remove(&file);
    }
}

impl<A: Allocator> Tables<A> {
    /// Drops a descriptor of a process, if there is one, and what nobody can reach any more: Close does so, and Exit of
    /// each.
    #[inline(always)]
    pub fn empty(&mut self, pid: u32, fd: usize) -> LetGo
        requires some { 0 < pid }
        ensures leaves { Leaves self.old self.new (emptied self.old.state (pid - 1) fd) result.pipe }
        ensures was_open { result.was_open ≡ is_some (descriptor self.old.state (pid - 1) fd) }
    {
        let _ = &self.pages;
        let gone = let_go(
            &mut self.processes,
            &mut self.descriptions,
            &mut self.pipes,
            pid as usize - 1,
            fd,
        );
        if let Some(pipe) = &gone.pipe {
            self.pages.refund(pipe.owner(), pipe.slots() as u32);
            forget(&mut self.fifos, pipe.file());
        }
        gone
    }

    /// Gives the description that a process's descriptor names one name more, the lowest free descriptor (dup(2)).
    pub(super) fn dup(&mut self, pid: u32, fd: u32) -> Result<Reply, Fault>
        ensures says { Says self.old self.new result (of_ready self.old.state pid (λ p. dup self.old.state pid p fd)) }
        ensures refused { OnErr result (self.new ≡ self.old) }
        ensures succeeds { result ≢ Err Fault.NoMemory }
    {
        let key = key_of(&self.processes, pid, fd)?;
        let to = self.processes.ready(pid)?.descriptors.lowest();
        if to >= MAX_DESCRIPTORS {
            return Err(Errno::EMFILE.into());
        }
        self.descriptions.name(key);
        self.processes.give_key(pid, to, key);
        Ok(Reply::Num(to as u64))
    }

    /// Sets O_NONBLOCK of the description that a process's descriptor names, or takes it away (fcntl(2), F_SETFL).
    /// Whatever else names the description sees it.
    pub(super) fn set_nonblocking(&mut self, pid: u32, fd: u32, on: bool) -> Result<Reply, Fault>
        ensures says { Says self.old self.new result
            (of_ready self.old.state pid (λ p. set_nonblock itself self.old.state p fd on)) }
        ensures refused { OnErr result (self.new ≡ self.old) }
        ensures succeeds { result ≢ Err Fault.NoMemory }
    {
        let end = self
            .descriptions
            .value_mut(key_of(&self.processes, pid, fd)?);
        end.nonblocking = on;
        Ok(Reply::Num(0))
    }

    /// Drops a process's descriptor (close(2)), and what nobody can reach any more. A pipe that goes is handed out: its
    /// slots still have their frames.
    #[inline(always)]
    pub fn close(&mut self, pid: u32, fd: u32) -> Result<Option<Pipe>, Errno>
        ensures closes { Closes self.old self.new result
            (of_ready self.old.state pid (λ p. close self.old.state pid p fd)) }
        ensures refused { OnErr result (self.new ≡ self.old) }
    {
        key_of(&self.processes, pid, fd)?;
        let LetGo { was_open: _, pipe } = self.empty(pid, fd as usize);
        Ok(pipe)
    }

    /// The least descriptor from this one on that a process has, MAX_DESCRIPTORS where it has none.
    pub fn next_descriptor(&self, pid: u32, from: usize) -> usize
        requires some { 0 < pid }
        ensures most { result ≤ MAX_DESCRIPTORS }
        ensures above { from ≤ MAX_DESCRIPTORS → from ≤ result }
        ensures found { result < MAX_DESCRIPTORS → from ≤ result }
        ensures stands { result < MAX_DESCRIPTORS → IsSome (descriptor self.now.state (pid - 1) result) }
        ensures between { (fd : ℕ) → from ≤ fd → fd < result → descriptor self.now.state (pid - 1) fd ≡ None }
    {
        self.processes.next_key(pid as usize - 1, from)
    }
}
