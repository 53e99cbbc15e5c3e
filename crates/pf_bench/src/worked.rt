//! The same load through a worker, whose namespace has its thread to itself, beside a hub's.

ghost use Rattle.pf_depot.specs.Blanks.{IsBlankOf};

use crate::served::blank;
use crate::{Host, Shape, play_loads, starts, time_pairs};
use pf_base::{Answer, Step};
use pf_depot::DepotBook;
use pf_hub::Hub;
use pf_worker::{NoGate, Worker, open};
use std::alloc::{AllocError, Global};
use std::io;
use std::marker::Brand;
use std::sync::ledger::{Blank, Ledger};
use std::sync::{Mutex, Wait};

type Tenant<C, H> = Worker<Global, C, H>;

/// Namespace 0 as a worker, with the depot behind its lock.
#[derive(Drop)]
struct Worked<'a, R: Wait, C: Ledger, H: Ledger> {
    rt: &'a R,
    book: Mutex<DepotBook<C, H>>,
    worker: Tenant<C, H>,
}

impl<R: Wait, C: Ledger, H: Ledger> Host for Worked<'_, R, C, H> {
    fn step(&mut self, step: &Step) -> Answer {
        self.worker.step(self.rt, &self.book, &NoGate, step)
    }

    fn held(&self) -> u32 {
        self.worker.held()
    }
}

/// The first of these.
fn first_of<C: Ledger, H: Ledger>(workers: Vec<Tenant<C, H>>) -> Option<Tenant<C, H>> {
    workers.into_iter().next()
}

/// A depot of this shape, and namespace 0's worker.
fn opened<C: Ledger, H: Ledger>(
    alloc: Global,
    shape: Shape,
    credits: Blank,
    held: Blank,
) -> Option<(DepotBook<C, H>, Tenant<C, H>)>
    requires blanks { IsBlankOf C.name C.parts credits × IsBlankOf H.name H.parts held }
{
    let frames = shape.frames(alloc).ok()?;
    let configs = shape.configs(alloc).ok()?;
    let (book, workers) = open(alloc, frames, configs, credits, held).ok()?;
    let worker = first_of(workers)?;
    Some((book, worker))
}

/// Plays the fixed load, and says whether each answer was right.
fn plays<R: Wait, C: Ledger, H: Ledger>(
    rt: &R,
    alloc: Global,
    shape: Shape,
    credits: Blank,
    held: Blank,
) -> Result<bool, AllocError>
    requires blanks { IsBlankOf C.name C.parts credits × IsBlankOf H.name H.parts held }
{
    let Some((book, worker)) = opened::<C, H>(alloc, shape, credits, held) else {
        return Ok(false);
    };
    let mut worked = Worked {
        rt,
        book: Mutex::new(book),
        worker,
    };
    play_loads(alloc, &mut worked)
}

/// Plays the fixed load, and says whether each answer was right.
pub(crate) fn play_fixed<R: Wait>(rt: &R, alloc: Global, shape: Shape) -> Result<bool, AllocError> {
    plays::<R, Brand, Brand>(rt, alloc, shape, blank(), blank())
}

/// Times so many pairs of each size through a worker and through a hub, in turn.
fn time_beside<H: Host>(
    rt: &HostRuntime,
    worked: &mut H,
    hub: &mut Hub<Global>,
    pairs: u32,
) -> io::Result<bool> {
    Ok(starts(worked) && time_pairs(rt, "worker", worked, "through the hub", hub, pairs)?)
}

/// The same, with a worker of this shape.
fn times<R: Wait, C: Ledger, H: Ledger>(
    rt: &HostRuntime,
    threads: &R,
    shape: Shape,
    hub: &mut Hub<Global>,
    pairs: u32,
    credits: Blank,
    held: Blank,
) -> io::Result<bool>
    requires blanks { IsBlankOf C.name C.parts credits × IsBlankOf H.name H.parts held }
{
    let Some((book, worker)) = opened::<C, H>(rt.alloc(), shape, credits, held) else {
        return Ok(false);
    };
    let mut worked = Worked {
        rt: threads,
        book: Mutex::new(book),
        worker,
    };
    time_beside(rt, &mut worked, hub, pairs)
}

/// Times so many pairs of each size through a worker beside a hub of its shape, and says whether all was right.
pub(crate) fn time<R: Wait>(
    rt: &HostRuntime,
    threads: &R,
    shape: Shape,
    hub: &mut Hub<Global>,
    pairs: u32,
) -> io::Result<bool> {
    times::<R, Brand, Brand>(rt, threads, shape, hub, pairs, blank(), blank())
}
