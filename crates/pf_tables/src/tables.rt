//! What a namespace keeps: its limits, its processes with their descriptors, the open file descriptions, the pipes and
//! the files.
//!
//! A call that moves no bytes says what it does to the machine's state that the tables keep, with a ring in each pipe,
//! and hands out a pipe that goes, whose slots still have their frames. Whatever else is said of a call here is said of
//! the lone machine's state that they mean over the frames of a door.

ghost use Rattle.std.specs.Prelude.{◌≡◌, Some, None, IfOk};
ghost use Rattle.pf_tables.specs.Rows.{key_in, end_of_row, end_in};

mod bounds;
mod calls;
mod descriptors;
mod files;
mod opens;
mod parked;
mod pipes;
mod processes;
mod queries;
mod transfers;

use crate::file_tree::FileTree;
use crate::process_table::{Process, ProcessTable};
use pf_base::{Config, Errno, Side};
use pf_fds::{Descriptions, Key, Registry};
use pf_limits::UserPages;
use pf_pipe::Pipe;
use std::alloc::{AllocError, Allocator, Global};
use std::collections::HashMap;
use std::marker::Model;
pub use transfers::FirstWrite;

// An open file description: an end of a pipe.
#[derive(Clone, Copy)]
struct Description {
    pipe: Key,
    reads: bool,
    writes: bool,
    nonblocking: bool,
}

impl Description {
    ghost use Rattle.std.specs.Prelude.{◌≡◌};
    ghost use Rattle.pf_tables.specs.Rows.{has};

    // Whether it is for this side, where one is asked for.
    fn has(&self, side: Option<Side>) -> bool
        ensures { result ≡ has side self.now }
    {
        match side {
            Some(Side::Read) => self.reads,
            Some(Side::Write) => self.writes,
            None => true,
        }
    }
}

/// The tables of one namespace.
///
/// A contract sees its limits, and the lone machine's state with a ring in each pipe in place of its queue. What nobody
/// can reach goes at once, so the tables are swept at all times.
#[derive(Drop)]
pub struct Tables<A: Allocator> {
    // The limits, and the pages that each user and all together are charged with.
    pages: UserPages,
    processes: ProcessTable,
    descriptions: Descriptions<Description>,
    pipes: Registry<Pipe>,
    // The pipe of each FIFO that somebody has open, by the FIFO's number.
    fifos: HashMap<u64, Key>,
    // The files, which are all that stands in memory of A, and how many were ever made besides the root: the count
    // stands beside the tree, since a file's number must never come back.
    files: FileTree<A>,
    files_made: u64,
}

impl<A: Allocator> Model for Tables<A> {
    ghost use Rattle.pf_tables.specs.Meaning.{Namespace};

    ghost Value = { Namespace };

    ghost use Rattle.pf_tables.specs.Rows.{state_of, Whole};

    ghost view = { λ t. record {
      limits = t.pages.limits;
      state = state_of t.processes t.descriptions.items t.pipes.items t.files t.files_made;
    } };

    ghost invariant = { λ t. Whole t.pages t.fifos.entries t.processes t.descriptions.items t.pipes.items };
}

// The key at a process's descriptor.
fn key_of(processes: &ProcessTable, pid: u32, fd: u32) -> Result<Key, Errno>
    ensures { result ≡ key_in processes.now pid fd }
{
    match processes.ready(pid)?.descriptors.get(fd as usize) {
        Some(key) => Ok(key),
        None => Err(Errno::EBADF),
    }
}

// The description of the end that a descriptor of a process names, of this side where one is asked for.
fn end_of(
    process: &Process,
    descriptions: &Descriptions<Description>,
    fd: u32,
    side: Option<Side>,
) -> Result<Description, Errno>
    ensures { result ≡ end_of_row side process.now descriptions.now.items fd }
{
    let Some(key) = process.descriptors.get(fd as usize) else {
        return Err(Errno::EBADF);
    };
    let Some(description) = descriptions.get(key) else {
        return Err(Errno::EBADF);
    };
    if !description.has(side) {
        return Err(Errno::EBADF);
    }
    Ok(*description)
}

// The same of a process that waits in no call.
fn end(
    processes: &ProcessTable,
    descriptions: &Descriptions<Description>,
    pid: u32,
    fd: u32,
    side: Option<Side>,
) -> Result<Description, Errno>
    ensures { result ≡ end_in side processes.now descriptions.now.items pid fd }
{
    end_of(processes.ready(pid)?, descriptions, fd, side)
}

// The same, of an end that reads.
fn reading_end(
    processes: &ProcessTable,
    descriptions: &Descriptions<Description>,
    pid: u32,
    fd: u32,
) -> Result<Description, Errno>
    ensures { result ≡ end_in (Some Side.Read) processes.now descriptions.now.items pid fd }
{
    end(processes, descriptions, pid, fd, Some(Side::Read))
}

// Or of one that writes.
fn writing_end(
    processes: &ProcessTable,
    descriptions: &Descriptions<Description>,
    pid: u32,
    fd: u32,
) -> Result<Description, Errno>
    ensures { result ≡ end_in (Some Side.Write) processes.now descriptions.now.items pid fd }
{
    end(processes, descriptions, pid, fd, Some(Side::Write))
}

impl<A: Allocator> Tables<A> {
    ghost use Rattle.std.specs.Prelude.{◌≡◌, IfOk};
    ghost use Rattle.pf_machine.specs.State.{itself, opening};
    ghost use Rattle.pf_machine.specs.Sweep.{sweep};

    /// Nothing in them but the root directory.
    pub fn new(alloc: Global, tree: A, config: Config) -> Result<Self, AllocError>
        ensures { IfOk result (λ t. t ≡ record { limits = config; state = opening }) }
    {
        let processes = ProcessTable::new(alloc)?;
        Ok(Tables {
            pages: UserPages::new(alloc, &config),
            processes,
            descriptions: Descriptions::new(alloc),
            pipes: Registry::new(alloc),
            fifos: HashMap::new(alloc),
            files: FileTree::new(tree),
            files_made: 0,
        })
    }

    /// What nobody can reach is gone already.
    pub fn settled(&self)
        ensures { self.now.state ≡ sweep itself self.now.state }
    {
        // Whoever looks at a field knows the invariant.
        let _ = &self.pages;
    }
}
