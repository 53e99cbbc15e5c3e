//! What the transcripts of a service say, as far as it doesn't depend on the threads' order.

use crate::served::digest::Digest;
use pf_base::{Reply, Step};
use pf_service::Transcript;

/// How many processes the namespace has that two threads share.
const WRITER_AND_READER: u32 = 2;

/// All entries of a namespace that one thread calls, in their order.
pub(crate) fn add_all(transcript: &Transcript, told: &mut Digest) {
    let entries = transcript.entries();
    told.add(entries.len() as u64);
    for (step, reply) in entries {
        told.add_step(step);
        told.add_reply(reply);
    }
}

/// The entries of a namespace that two threads share: those of no process, then those of each process in their order.
///
/// How the entries of both lie among each other, and how often a call waits before it is answered, depends on the
/// threads' order: so each call goes in once, with what it is told in the end, and no Resume.
pub(crate) fn add_apart(transcript: &Transcript, told: &mut Digest) {
    for pid in 0..=WRITER_AND_READER {
        add_of(transcript.entries(), pid, told);
    }
}

fn add_of(entries: &[(Step, Reply)], pid: u32, told: &mut Digest) {
    for (step, reply) in entries {
        if maker(step) == pid {
            add_call(step, reply, told);
        }
    }
}

/// A call's step where it is no Resume, and its reply where it doesn't wait.
fn add_call(step: &Step, reply: &Reply, told: &mut Digest) {
    if !matches!(step, Step::Resume { .. }) {
        told.add_step(step);
    }
    if !matches!(reply, Reply::Parked) {
        told.add_reply(reply);
    }
}

/// The process that makes a step of those that are made here: 0, which is no process, where none does.
fn maker(step: &Step) -> u32 {
    match step {
        Step::Exit { pid }
        | Step::Fork { pid }
        | Step::Resume { pid }
        | Step::Pipe { pid, .. }
        | Step::Close { pid, .. }
        | Step::Dup { pid, .. }
        | Step::Read { pid, .. }
        | Step::Write { pid, .. } => *pid,
        _ => 0,
    }
}
