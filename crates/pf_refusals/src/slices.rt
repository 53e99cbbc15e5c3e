//! Steps that a hub or workers make by slices: each write is of bytes where they stand, and each read into memory of
//! the host's.

use crate::end::End;
use crate::host::Host;
use crate::row::Row;
use pf_base::{Answer, ByteString, Config, Errno, EventAnswer, Reply, Step};
use pf_hub::Hub;
use std::alloc::Global;

/// A process's read.
#[derive(Clone, Copy)]
struct Read {
    ns: u32,
    pid: u32,
    /// How many bytes it asks for.
    room: usize,
}

/// What is told of a step.
#[derive(Drop)]
pub(crate) enum Made {
    Answer(Answer),
    Read(Result<Option<usize>, Errno>),
}

/// Who makes steps by slices, where they move bytes to or from the host.
pub(crate) trait Slicing {
    /// Makes a step of a namespace, if it lives: a read, also one that is tried again, into the buffer that there is
    /// for it.
    fn make_by_slices(&mut self, ns: u32, step: &Step, buffer: Option<&mut [u8]>) -> Option<Made>;
}

/// Has it make steps one by one. No namespace comes or goes.
#[derive(Drop)]
pub(crate) struct BySlices<'a, S: Slicing> {
    alloc: Global,
    row: &'a Row<'a>,
    host: &'a mut S,
    made: usize,
    /// The last read that waits.
    waiting: Option<Read>,
}

impl<'a, S: Slicing> BySlices<'a, S> {
    /// It has made no step yet.
    pub(crate) fn new(alloc: Global, row: &'a Row<'a>, host: &'a mut S) -> Self {
        BySlices {
            alloc,
            row,
            host,
            made: 0,
            waiting: None,
        }
    }

    /// The read that a step makes, or tries again.
    fn read_of(&self, ns: u32, step: &Step) -> Option<Read> {
        match (step, self.waiting) {
            (Step::Read { pid, fd: _, n }, _) => Some(Read {
                ns,
                pid: *pid,
                room: *n as usize,
            }),
            (Step::Resume { pid }, Some(read)) => {
                if read.ns == ns && read.pid == *pid {
                    Some(read)
                } else {
                    None
                }
            }
            _ => None,
        }
    }
}

impl Slicing for Hub<Global> {
    fn make_by_slices(&mut self, ns: u32, step: &Step, buffer: Option<&mut [u8]>) -> Option<Made> {
        if !self.lives(ns) {
            return None;
        }
        Some(match (step, buffer) {
            (Step::Write { pid, fd, payload }, _) => Made::Answer(self.write_from(
                ns,
                *pid,
                *fd,
                payload.as_slice(),
            )),
            (Step::Read { pid, fd, n: _ }, Some(buffer)) => {
                Made::Read(self.read_into(ns, *pid, *fd, buffer))
            }
            (Step::Resume { pid }, Some(buffer)) => Made::Read(self.resume_into(ns, *pid, buffer)),
            _ => Made::Answer(self.step(ns, step)),
        })
    }
}

/// The buffer of a read, if a step is one: it has room for all that it asks for.
fn buffer_of(alloc: Global, read: Option<Read>) -> Result<Vec<u8>, End> {
    let room = match read {
        Some(read) => read.room,
        None => 0,
    };
    Ok(Vec::from_elem(alloc, 0, room)?)
}

/// The reply to a read into this buffer.
fn reply_of(
    alloc: Global,
    read: Result<Option<usize>, Errno>,
    buffer: &[u8],
) -> Result<Reply, End> {
    Ok(match read {
        Ok(Some(number)) => {
            let (bytes, _) = buffer.split_at(number.min(buffer.len()));
            Reply::Bytes(ByteString::from_slice(alloc, bytes)?)
        }
        Ok(None) => Reply::Parked,
        Err(errno) => Reply::Err(errno),
    })
}

impl<S: Slicing> Host for BySlices<'_, S> {
    fn make(&mut self, ns: u32, step: &Step) -> Result<EventAnswer, End> {
        let place = self.made;
        self.made = place.saturating_add(1);
        let read = self.read_of(ns, step);
        let mut buffer = buffer_of(self.alloc, read)?;
        let into = if read.is_some() {
            Some(buffer.as_mut_slice())
        } else {
            None
        };
        self.row.give_sign_within(self.alloc, place)?;
        let made = self.host.make_by_slices(ns, step, into);
        self.row.give_sign_within(self.alloc, place)?;
        Ok(match made {
            Some(Made::Answer(answer)) => EventAnswer::Answer(answer),
            Some(Made::Read(told)) => {
                self.waiting = if told == Ok(None) { read } else { None };
                EventAnswer::Answer(Answer::Done(reply_of(self.alloc, told, &buffer)?))
            }
            None => EventAnswer::Gone,
        })
    }

    fn comes(&mut self, _: Config) -> Result<EventAnswer, End> {
        Err(End::NoScript)
    }

    fn goes(&mut self, _: u32) -> Result<EventAnswer, End> {
        Err(End::NoScript)
    }
}
