//! Opens of FIFOs (open(2), fifo(7)): a FIFO has a pipe while somebody has it open, which its first opener is charged
//! with.

ghost use Rattle.std.specs.Prelude.{◌≡◌, ◌+◌, ◌-◌, ◌^◌, ◌<◌, ◌≤◌, true, false, None, Some, Ok, Err, IsOk, IfOk, OnOk};
ghost use Rattle.std.specs.Prelude.{OnErr, length};
ghost use Rattle.pf_base.specs.declared.TheConstants.{MAX_DESCRIPTORS};
ghost use Rattle.pf_machine.specs.Opens.{has_flag, access_of, open_path};
ghost use Rattle.pf_machine.specs.Paths.{has_dots};
ghost use Rattle.pf_machine.specs.State.{itself, of_ready, ready};
ghost use Rattle.pf_tables.specs.Rows.{ready_in};
ghost use Rattle.pf_tables.specs.Opened.{access_seen, counted, IsFew, waits, before, other_opens, lacks_readers};
ghost use Rattle.pf_tables.specs.Opened.{others_at, end_of, readers_at, fifo_capacity, GetsPipe, HasFree};
ghost use Rattle.pf_tables.specs.Opened.{Describes, Reopens};
ghost use Rattle.pf_tables.specs.Tables.{Says, waits_in_open};

use super::pipes::{insert_named, new_capacity};
use super::{Description, Tables};
use crate::process_table::ProcessTable;
use bitflags::Flags;
use pf_base::{Cred, Errno, Fault, MAX_DESCRIPTORS, MAX_MADE, OpenFlags, Reply, Side};
use pf_fds::{Descriptions, Key, Registry};
use pf_limits::UserPages;
use pf_parked::Call;
use pf_pipe::Pipe;
use std::alloc::{Allocator, Global};
use std::collections::HashMap;

// How a FIFO is opened: for which sides, and whether with O_NONBLOCK.
#[derive(Clone, Copy)]
struct Access {
    reads: bool,
    writes: bool,
    nonblock: bool,
}

// Whether a bit of the flags is set.
fn is_set(flags: OpenFlags, bit: u32) -> bool
    requires { bit < 32 }
    ensures { result ≡ has_flag flags.0 bit }
{
    (flags.bits() >> bit) % 2 == 1
}

impl Access {
    // What the flags of an open ask for.
    fn new(flags: OpenFlags) -> Self
        ensures { access_seen result ≡ access_of flags.0 }
    {
        Access {
            reads: is_set(flags, 0),
            writes: is_set(flags, 1),
            nonblock: is_set(flags, 2),
        }
    }

    // How often the other side of a pipe was opened, where an open of it waits.
    fn before(self, pipe: &Pipe) -> Option<u64>
        ensures { result ≡ before self pipe.now }
    {
        if self.waits(pipe.readers(), pipe.writers()) {
            Some(other_opens(pipe, self.reads))
        } else {
            None
        }
    }

    // Whether nobody reads the pipe of a key, and it is opened for writing alone, with O_NONBLOCK.
    fn lacks_readers(self, pipes: &Registry<Pipe>, key: Option<Key>) -> bool
        ensures { result ≡ lacks_readers (access_seen self) (readers_at pipes.now.items key) }
    {
        self.writes && !self.reads && self.nonblock && readers(pipes, key) == 0
    }

    // The description that it makes of a pipe.
    fn end(self, pipe: Key) -> Description
        ensures { result ≡ end_of self pipe }
    {
        Description {
            pipe,
            reads: self.reads,
            writes: self.writes,
            nonblocking: self.nonblock,
        }
    }

    // Whether an open waits, where so many ends read the pipe and so many write it (fifo(7)).
    fn waits(self, readers: u64, writers: u64) -> bool
        ensures { result ≡ waits self readers writers }
    {
        let others = if self.reads { writers } else { readers };
        !self.nonblock && !(self.reads && self.writes) && others == 0
    }
}

// How often the other side of a pipe was opened than that which an end is for.
fn other_opens(pipe: &Pipe, reads: bool) -> u64
    ensures { result ≡ other_opens reads pipe.now }
{
    if reads {
        pipe.opens(Side::Write)
    } else {
        pipe.opens(Side::Read)
    }
}

// The same of the pipe that the description of a key is an end of, 0 where there is none.
pub(super) fn others(
    descriptions: &Descriptions<Description>,
    pipes: &Registry<Pipe>,
    key: Key,
) -> u64
    ensures { result ≡ others_at descriptions.now.items pipes.now.items key }
{
    let Some(end) = descriptions.get(key) else {
        return 0;
    };
    match pipes.get(end.pipe) {
        Some(pipe) => other_opens(pipe, end.reads),
        None => 0,
    }
}

// Counts the ends that an open makes.
fn count(pipe: &mut Pipe, access: Access)
    requires { IsFew pipe.old }
    ensures { pipe.new ≡ counted access pipe.old }
{
    if access.reads {
        pipe.open_end(Side::Read);
    }
    if access.writes {
        pipe.open_end(Side::Write);
    }
}

// How many ends read the pipe of a key, none where there is none.
fn readers(pipes: &Registry<Pipe>, key: Option<Key>) -> u64
    ensures { result ≡ readers_at pipes.now.items key }
{
    let Some(key) = key else {
        return 0;
    };
    match pipes.get(key) {
        Some(pipe) => pipe.readers(),
        None => 0,
    }
}

// How many slots a FIFO's pipe gets that a process with these credentials makes, or why it gets none.
fn fifo_capacity(pages: &UserPages, pipes: &Registry<Pipe>, cred: &Cred) -> Result<u32, Errno>
    ensures found { result ≡ fifo_capacity pages.now pipes.now.items cred.now }
    ensures room { IfOk result (λ slots. pages.now.total + slots ≤ pages.now.limits.reserve) }
{
    if pipes.drawn() > MAX_MADE - 1 {
        return Err(Errno::ENFILE);
    }
    new_capacity(pages, cred, Errno::ENOMEM)
}

// The pipe of a FIFO: the one at its key, or a new one, which its opener is charged with. There is room for a
// description besides. Where it fails, nothing has changed.
fn fifo(
    alloc: Global,
    pages: &mut UserPages,
    descriptions: &mut Descriptions<Description>,
    pipes: &mut Registry<Pipe>,
    fifos: &mut HashMap<u64, Key>,
    cred: &Cred,
    file: u64,
    key: Option<Key>,
) -> Result<Key, Fault>
    ensures gets { GetsPipe pages.old pages.new pipes.old.items pipes.new.items fifos.old.entries fifos.new.entries
        cred.now file result key }
    ensures drawn { descriptions.new.items ≡ descriptions.old.items }
    ensures room { OnOk result (0 < descriptions.new.room) }
    ensures wanted { result ≡ Err Fault.NoMemory → key ≡ None → IsOk (fifo_capacity pages.old pipes.old.items cred.now) }
{
    if let Some(key) = key {
        descriptions.reserve(1)?;
        return Ok(key);
    }
    let slots = fifo_capacity(pages, pipes, cred)?;
    // What may be refused comes first.
    let pipe = Pipe::new(alloc, slots as usize, cred.uid, Some(file))?;
    descriptions.reserve(1)?;
    pipes.reserve(1)?;
    fifos.reserve(1)?;
    pages.charge(cred.uid, slots)?;
    let key = pipes.insert_reserved(pipe);
    let Ok(_) = fifos.insert(file, key) else {
        unreachable!()
    };
    Ok(key)
}

// Makes the description that an open draws, with one name: a free descriptor, which is told, or the open itself where
// it waits.
fn describe(
    processes: &mut ProcessTable,
    descriptions: &mut Descriptions<Description>,
    pid: u32,
    fd: usize,
    end: Description,
    kept: Option<u64>,
) -> Reply
    requires ready { IsOk (ready_in processes.old pid) }
    requires spare { HasFree processes.old pid }
    requires fd_in { fd < MAX_DESCRIPTORS }
    requires room { 0 < descriptions.old.room }
    requires unspent { length descriptions.old.items < 2 ^ 64 - 1 }
    ensures { Describes processes.old processes.new descriptions.old.items descriptions.new.items
        pid fd end kept result }
{
    let description = insert_named(descriptions, end);
    if let Some(kept) = kept {
        processes.park(pid, Call::Open { description, kept });
        return Reply::Parked;
    }
    processes.give_key(pid, fd, description);
    Reply::Num(fd as u64)
}

impl<A: Allocator> Tables<A> {
    /// Opens the FIFO at a path for a process (open(2), fifo(7)): its lowest free descriptor names the description, or
    /// the process waits for the other side. A FIFO that nobody has open gets its pipe. The process is looked up
    /// once, and its place is found again where its descriptor is given; the FIFO's key is looked up once.
    pub(super) fn open(
        &mut self,
        alloc: Global,
        pid: u32,
        path: &[u8],
        flags: OpenFlags,
    ) -> Result<Reply, Fault>
        ensures says { let s = self.old.state in Says self.old self.new result
            (of_ready s pid (λ p. open_path itself (length s.descriptions) itself self.old.limits s pid p path.now
            (access_of flags.0))) }
        // Memory is wanted for a process that lives and waits in no call.
        ensures ready { result ≡ Err Fault.NoMemory → IsOk (ready self.old.state pid) }
        // And, where no name in the path is `.` or `..`, where nothing stands against the open.
        ensures wanted { let s = self.old.state in result ≡ Err Fault.NoMemory → has_dots path.now ≡ false
            → IsOk (of_ready s pid (λ p. open_path itself (length s.descriptions) itself self.old.limits s pid p path.now
            (access_of flags.0))) }
        ensures refused { OnErr result (self.new ≡ self.old) }
    {
        let access = Access::new(flags);
        let process = self.processes.ready(pid)?;
        let file = pf_walk::openable(
            alloc,
            self.files.tree(),
            &process.cred,
            path,
            access.reads,
            access.writes,
        )?;
        let fd = process.descriptors.lowest();
        if fd >= MAX_DESCRIPTORS {
            return Err(Errno::EMFILE.into());
        }
        let found = self.fifos.get(&file.number).copied();
        if access.lacks_readers(&self.pipes, found) {
            return Err(Errno::ENXIO.into());
        }
        if self.descriptions.drawn() == MAX_MADE {
            return Err(Errno::ENFILE.into());
        }
        let key = fifo(
            alloc,
            &mut self.pages,
            &mut self.descriptions,
            &mut self.pipes,
            &mut self.fifos,
            &process.cred,
            file.number,
            found,
        )?;
        let pipe = self.pipes.value_mut(key);
        let kept = access.before(pipe);
        count(pipe, access);
        let (processes, descriptions) = (&mut self.processes, &mut self.descriptions);
        Ok(describe(processes, descriptions, pid, fd, access.end(key), kept))
    }

    /// Tries the open again in which a process waits: its lowest free descriptor names the description, where the other
    /// side was opened since, also where it was closed again (fifo(7)). It takes no memory.
    pub fn resume_open(&mut self, pid: u32) -> Reply
        requires { waits_in_open self.old.state pid ≡ Ok true }
        ensures { Reopens self.old self.new pid result }
    {
        let Ok(process) = self.processes.living(pid) else {
            unreachable!()
        };
        let Some(Call::Open { description, kept }) = process.parked.as_ref() else {
            unreachable!()
        };
        if others(&self.descriptions, &self.pipes, *description) <= *kept {
            return Reply::Parked;
        }
        let fd = process.descriptors.lowest();
        self.end_wait(pid);
        Reply::Num(fd as u64)
    }
}
