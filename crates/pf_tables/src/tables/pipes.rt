//! Pipes: what makes one with its two ends, what tells its capacity, and what gives it another.

ghost use Rattle.std.specs.Prelude.{◌≡◌, ◌≢◌, ◌+◌, ◌-◌, ◌^◌, ◌<◌, ◌≤◌, Err, Some, None, IsOk, IfOk, OnErr};
ghost use Rattle.std.specs.Prelude.{length, [], ◌∷◌, ◌++◌, not, ◌&&◌, ◌||◌, nat_lt};
ghost use Rattle.pf_base.specs.Capacities.{new_capacity, told_as};
ghost use Rattle.pf_base.specs.Permissions.{is_privileged};
ghost use Rattle.pf_base.specs.declared.TheConstants.{MAX_DESCRIPTORS};
ghost use Rattle.pf_machine.specs.Pipes.{get_size, is_spent, pipe, set_size};
ghost use Rattle.pf_machine.specs.State.{itself, of_ready};
ghost use Rattle.pf_limits.specs.UserPages.{charged_to};
ghost use Rattle.pf_pipe.specs.Pipe.{unopened};
ghost use Rattle.pf_tables.specs.Tables.{Resizing, Says, two_free};

use super::{Description, Tables, end};
use pf_base::{
    Config, Cred, Errno, Fault, MAX_DESCRIPTORS, MAX_MADE, MAX_SIZE, PAGE_SIZE, Reply, Side,
    pages_for,
};
use pf_fds::{Descriptions, FdTable, Key, Registry};
use pf_limits::UserPages;
use pf_pipe::Pipe;
use std::alloc::{AllocError, Allocator, Global};

// The two lowest free descriptors, or why there are not two.
fn free_descriptors(descriptors: &FdTable) -> Result<(u32, u32), Errno>
    ensures found { result ≡ two_free descriptors.now }
    ensures within { IfOk result (λ free. (free.0 < MAX_DESCRIPTORS) × (free.1 < MAX_DESCRIPTORS)) }
{
    let first = descriptors.lowest();
    if first >= MAX_DESCRIPTORS {
        return Err(Errno::EMFILE);
    }
    let second = descriptors.next_lowest(first);
    if second >= MAX_DESCRIPTORS {
        return Err(Errno::EMFILE);
    }
    Ok((first as u32, second as u32))
}

// Whether one more pipe with its two descriptions would need a number above the last one that may be drawn.
fn is_spent(descriptions: &Descriptions<Description>, pipes: &Registry<Pipe>) -> bool
    ensures { result ≡ is_spent descriptions.now.items 2 || is_spent pipes.now.items 1 }
{
    descriptions.drawn() > MAX_MADE - 2 || pipes.drawn() > MAX_MADE - 1
}

// How many slots a new pipe gets that a process with these credentials makes, or why it gets none: what it is told
// where its user would pass a limit depends on its call.
pub(super) fn new_capacity(pages: &UserPages, cred: &Cred, limit: Errno) -> Result<u32, Errno>
    ensures found { result
        ≡ told_as limit (new_capacity pages.now.limits (is_privileged cred.now)
        (charged_to pages.now cred.now.uid) pages.now.total) }
    ensures room { IfOk result (λ slots. pages.now.total + slots ≤ pages.now.limits.reserve) }
{
    match pages.new_capacity(cred.uid, cred.is_privileged()) {
        Ok(slots) => Ok(slots),
        Err(fault) => Err(fault.errno(limit)),
    }
}

// Makes a description that has one name: the key that is given out.
pub(super) fn insert_named(descriptions: &mut Descriptions<Description>, end: Description) -> Key
    requires room { 0 < descriptions.old.room }
    requires unspent { length descriptions.old.items < 2 ^ 64 - 1 }
    ensures serial { result.serial ≡ length descriptions.old.items }
    ensures items { descriptions.new.items
        ≡ descriptions.old.items ++ Some (result.slot, record { value = end; names = 1 }) ∷ [] }
    ensures room { descriptions.new.room + 1 ≡ descriptions.old.room }
{
    let key = descriptions.insert_reserved(end);
    descriptions.name(key);
    key
}

// A pipe with nothing in it that has an end of each side.
fn two_ended(alloc: Global, slots: usize, owner: u32) -> Result<Pipe, AllocError>
    requires { slots < 2 ^ 32 }
    ensures { IfOk result (λ p. p ≡ record {
      ring = record { capacity = slots; segments = [] };
      owner = owner;
      readers = 1;
      writers = 1;
      opens = unopened None;
    }) }
{
    let mut pipe = Pipe::new(alloc, slots, owner, None)?;
    pipe.add_end(Side::Read);
    pipe.add_end(Side::Write);
    Ok(pipe)
}

// Whether a capacity in bytes is above pipe-max-size, for a caller that is held to it.
fn is_too_large(config: Config, privileged: bool, size: u64) -> bool
    ensures { result ≡ not privileged && nat_lt config.max size }
{
    !privileged && size > config.max() as u64
}

// Gives a pipe another number of slots, as far as its owner may have them and its slots in use allow.
fn resize(
    pages: &mut UserPages,
    pipe: &mut Pipe,
    alloc: Global,
    privileged: bool,
    slots: u32,
) -> Result<(), Fault>
    requires covered { pipe.old.ring.capacity ≤ charged_to pages.old pipe.old.owner }
    ensures { Resizing pages.old pages.new pipe.old pipe.new privileged slots result }
{
    let owner = pipe.owner();
    let from = pipe.slots() as u32;
    if slots <= from {
        pipe.set_size(alloc, slots as usize)?;
        pages.refund(owner, from - slots);
        return Ok(());
    }
    if let Err(fault) = pages.may_grow(owner, privileged, from, slots) {
        return Err(fault.errno(Errno::EPERM).into());
    }
    pages.charge(owner, slots - from)?;
    if pipe.set_size(alloc, slots as usize).is_err() {
        // It was memory that was refused: what is in use fits.
        pages.refund(owner, slots - from);
        return Err(Fault::NoMemory);
    }
    Ok(())
}

impl<A: Allocator> Tables<A> {
    /// Makes a pipe that has its two ends at the two lowest free descriptors of a process, which is charged with it
    /// (pipe(2)).
    pub(super) fn pipe(
        &mut self,
        alloc: Global,
        pid: u32,
        nonblocking: bool,
    ) -> Result<Reply, Fault>
        ensures says { let s = self.old.state in Says self.old self.new result
            (of_ready s pid (λ p. pipe (length s.descriptions) (length s.descriptions + 1) (length s.pipes)
            self.old.limits s pid p nonblocking)) }
        // Memory is wanted where nothing else stands against it.
        ensures wanted { let s = self.old.state in result ≡ Err Fault.NoMemory
            → IsOk (of_ready s pid (λ p. pipe (length s.descriptions) (length s.descriptions + 1) (length s.pipes)
            self.old.limits s pid p nonblocking)) }
        ensures refused { OnErr result (self.new ≡ self.old) }
    {
        let process = self.processes.ready(pid)?;
        let free = free_descriptors(&process.descriptors)?;
        if is_spent(&self.descriptions, &self.pipes) {
            return Err(Errno::ENFILE.into());
        }
        let owner = process.cred.uid;
        let slots = new_capacity(&self.pages, &process.cred, Errno::ENFILE)?;
        // What may be refused comes first.
        let pipe = two_ended(alloc, slots as usize, owner)?;
        self.descriptions.reserve(2)?;
        self.pipes.reserve(1)?;
        self.pages.charge(owner, slots)?;
        let pipe = self.pipes.insert_reserved(pipe);
        let reader = Description {
            pipe,
            reads: true,
            writes: false,
            nonblocking,
        };
        let writer = Description {
            reads: false,
            writes: true,
            ..reader
        };
        let reading = insert_named(&mut self.descriptions, reader);
        let writing = insert_named(&mut self.descriptions, writer);
        let (first, second) = (free.0 as usize, free.1 as usize);
        self.processes
            .give_keys(pid, first, reading, second, writing);
        Ok(Reply::Fds(free.0, free.1))
    }

    /// The capacity in bytes of the pipe that a process's descriptor names (fcntl(2), F_GETPIPE_SZ).
    pub(super) fn size(&self, pid: u32, fd: u32) -> Result<Reply, Fault>
        ensures says { Says self.now self.now result
            (of_ready self.now.state pid (λ p. get_size itself self.now.state p fd)) }
        ensures succeeds { result ≢ Err Fault.NoMemory }
    {
        let end = end(&self.processes, &self.descriptions, pid, fd, None)?;
        let Some(pipe) = self.pipes.get(end.pipe) else {
            return Err(Errno::EBADF.into());
        };
        Ok(Reply::Num(pipe.slots() as u64 * PAGE_SIZE as u64))
    }

    /// Gives the pipe that a process's descriptor names the capacity that holds so many bytes, and tells it in bytes
    /// (fcntl(2), F_SETPIPE_SZ). Its owner is charged with the pages by which it grows, and gets those back by which it
    /// shrinks.
    pub(super) fn set_size(
        &mut self,
        alloc: Global,
        pid: u32,
        fd: u32,
        bytes: u64,
    ) -> Result<Reply, Fault>
        ensures says { Says self.old self.new result
            (of_ready self.old.state pid (λ p. set_size itself self.old.limits self.old.state p fd bytes)) }
        // Memory is wanted where nothing else stands against it.
        ensures wanted { result ≡ Err Fault.NoMemory → IsOk (of_ready self.old.state pid
            (λ p. set_size itself self.old.limits self.old.state p fd bytes)) }
        ensures refused { OnErr result (self.new ≡ self.old) }
    {
        let end = end(&self.processes, &self.descriptions, pid, fd, None)?;
        let privileged = self.processes.ready(pid)?.cred.is_privileged();
        if bytes > MAX_SIZE {
            return Err(Errno::EINVAL.into());
        }
        let slots = pages_for(bytes);
        let size = slots * PAGE_SIZE as u64;
        if is_too_large(self.pages.config(), privileged, size) {
            return Err(Errno::EPERM.into());
        }
        let pipe = self.pipes.value_mut(end.pipe);
        resize(&mut self.pages, pipe, alloc, privileged, slots as u32)?;
        Ok(Reply::Num(size))
    }
}
