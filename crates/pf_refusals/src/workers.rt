//! Rows that workers play: one for each namespace, over a depot that they share.

ghost use Rattle.pf_depot.specs.Blanks.{IsBlankOf};

use crate::end::End;
use crate::host::{Host, make_all};
use crate::row::Row;
use crate::scripts::{blank, configs_of, frames_of};
use crate::slices::{BySlices, Made, Slicing};
use crate::told::Told;
use pf_base::{Config, EventAnswer, Step};
use pf_depot::DepotBook;
use pf_script::Script;
use pf_worker::{NoGate, Worker, open};
use std::alloc::Global;
use std::marker::Brand;
use std::sync::ledger::{Blank, Ledger};
use std::sync::{Mutex, Wait};

type Team<C, H> = Vec<Worker<Global, C, H>>;

/// Workers, by number, that make steps one by one.
#[derive(Drop)]
struct Shift<'a, R: Wait, C: Ledger, H: Ledger> {
    rt: &'a R,
    alloc: Global,
    book: &'a Mutex<DepotBook<C, H>>,
    team: &'a mut Team<C, H>,
}

impl<R: Wait, C: Ledger, H: Ledger> Host for Shift<'_, R, C, H> {
    fn make(&mut self, ns: u32, step: &Step) -> Result<EventAnswer, End> {
        match self.team.get_mut(ns as usize) {
            Some(worker) => Ok(EventAnswer::Answer(worker.step(self.rt, self.book, &NoGate, step))),
            None => Err(End::NoScript),
        }
    }

    fn comes(&mut self, config: Config) -> Result<EventAnswer, End> {
        match Worker::admit(self.rt, self.alloc, self.book, config, self.alloc) {
            Ok(worker) => {
                let number = worker.number();
                self.team.push(worker)?;
                Ok(EventAnswer::Admitted(number))
            }
            Err(fault) => Ok(EventAnswer::NotAdmitted(fault)),
        }
    }

    // It came last of those that live.
    fn goes(&mut self, ns: u32) -> Result<EventAnswer, End> {
        let Some(worker) = self.team.pop() else {
            return Err(End::NoScript);
        };
        match worker.retire(self.rt, self.book) {
            Ok(()) => Ok(EventAnswer::Retired),
            Err((worker, fault)) => {
                self.team.push(worker)?;
                Ok(EventAnswer::NotRetired(fault))
            }
        }
    }
}

impl<R: Wait, C: Ledger, H: Ledger> Slicing for Shift<'_, R, C, H> {
    fn make_by_slices(&mut self, ns: u32, step: &Step, buffer: Option<&mut [u8]>) -> Option<Made> {
        let (rt, book) = (self.rt, self.book);
        let worker = self.team.get_mut(ns as usize)?;
        Some(match (step, buffer) {
            (Step::Write { pid, fd, payload }, _) => Made::Answer(worker.write_from(
                rt,
                book,
                &NoGate,
                *pid,
                *fd,
                payload.as_slice(),
            )),
            (Step::Read { pid, fd, n: _ }, Some(buffer)) => {
                Made::Read(worker.read_into(rt, book, &NoGate, *pid, *fd, buffer))
            }
            (Step::Resume { pid }, Some(buffer)) => {
                Made::Read(worker.resume_into(rt, book, &NoGate, *pid, buffer))
            }
            _ => Made::Answer(worker.step(rt, book, &NoGate, step)),
        })
    }
}

/// Has workers make a row's steps. There is room for those that come.
fn make<R: Wait, C: Ledger, H: Ledger>(
    rt: &R,
    alloc: Global,
    row: &Row<'_>,
    script: &Script,
    book: &Mutex<DepotBook<C, H>>,
    team: &mut Team<C, H>,
    told: &mut Told,
) -> Result<(), End> {
    team.reserve(2)?;
    let mut shift = Shift {
        rt,
        alloc,
        book,
        team,
    };
    if row.way.has_slices() {
        let mut shift = BySlices::new(alloc, row, &mut shift);
        return make_all(alloc, row, script, &mut shift, told);
    }
    make_all(alloc, row, script, &mut shift, told)
}

fn play_over<R: Wait, C: Ledger, H: Ledger>(
    rt: &R,
    alloc: Global,
    row: &Row<'_>,
    script: &Script,
    told: &mut Told,
    credits: Blank,
    held: Blank,
) -> Result<(), End>
    requires blanks { IsBlankOf C.name C.parts credits × IsBlankOf H.name H.parts held }
{
    let frames = frames_of(alloc, script.frames())?;
    let configs = configs_of(alloc, row, script)?;
    let (book, mut team) = open::<_, C, H>(alloc, frames, configs, credits, held)?;
    let book = Mutex::new(book);
    make(rt, alloc, row, script, &book, &mut team, told)
}

/// Has workers make the steps of a row's script one by one.
pub(crate) fn play<R: Wait>(
    rt: &R,
    alloc: Global,
    row: &Row<'_>,
    script: &Script,
    told: &mut Told,
) -> Result<(), End> {
    play_over::<R, Brand, Brand>(rt, alloc, row, script, told, blank(), blank())
}
