//! A host of one hub, which digests each reply.

use crate::digest::Digest;
use pf_base::{Answer, Config, Errno, Groups, Reply, Step};
use pf_frame::Frame;
use pf_hub::Hub;
use std::alloc::{AllocError, Global};

/// A hub with what its host was told so far.
#[derive(Drop)]
pub(crate) struct Host {
    pub(crate) hub: Hub<Global>,
    pub(crate) digest: Digest,
    steps: u64,
}

/// The limits of a tenant that reserves so many pages, with the allocator for its files.
pub(crate) fn limits(alloc: Global, reserve: u32) -> Option<(Config, Global)> {
    match Config::new(
        reserve,
        Config::DEFAULT_SOFT,
        Config::DEFAULT_HARD,
        Config::DEFAULT_MAX,
    ) {
        Ok(config) => Some((config, alloc)),
        Err(_) => None,
    }
}

/// So many frames, none of which is clear.
fn frames(alloc: Global, count: u32) -> Result<Vec<Frame>, AllocError> {
    let mut frames = Vec::with_capacity(alloc, count as usize)?;
    for _ in 0..count {
        frames.push(Frame::filled(alloc, 165)?)?;
    }
    Ok(frames)
}

/// The step by which a tenant's first process comes.
pub(crate) fn spawn(uid: u32, groups: Groups) -> Step {
    Step::Spawn {
        uid,
        gid: uid,
        umask: 0o022,
        groups,
    }
}

impl Host {
    /// A hub of so many tenants, each of which reserves so many pages, over all of these pages.
    pub(crate) fn new(
        alloc: Global,
        tenants: u32,
        reserve: u32,
    ) -> Result<Option<Host>, AllocError> {
        let mut configs = Vec::new(alloc);
        for _ in 0..tenants {
            let Some(config) = limits(alloc, reserve) else {
                return Ok(None);
            };
            configs.push(config)?;
        }
        let frames = frames(alloc, tenants.saturating_mul(reserve))?;
        match Hub::new(alloc, frames, configs) {
            Ok(hub) => Ok(Some(Host {
                hub,
                digest: Digest::new(),
                steps: 0,
            })),
            Err(_) => Ok(None),
        }
    }

    /// How many steps were made, and the digest.
    pub(crate) fn end(self) -> (u64, u64) {
        let told = (self.steps, self.digest.value());
        drop(self);
        told
    }

    /// Makes a step, and digests its reply. That there is no such tenant, or no memory, counts as an error.
    pub(crate) fn tell(&mut self, ns: u32, step: Step) -> Reply {
        let reply = self.reply(ns, &step);
        drop(step);
        reply
    }

    /// The same where no more is done with the reply.
    pub(crate) fn make(&mut self, ns: u32, step: Step) {
        drop(self.tell(ns, step));
    }

    /// Makes a step, and tells whether its call waits.
    pub(crate) fn waits(&mut self, ns: u32, step: Step) -> bool {
        let reply = self.tell(ns, step);
        let waits = matches!(&reply, Reply::Parked);
        drop(reply);
        waits
    }

    /// Makes a step, and tells whether it is refused.
    pub(crate) fn fails(&mut self, ns: u32, step: Step) -> bool {
        let reply = self.tell(ns, step);
        let fails = matches!(&reply, Reply::Err(_));
        drop(reply);
        fails
    }

    /// Makes a step, and gives the number that it is told.
    pub(crate) fn number(&mut self, ns: u32, step: Step) -> Option<u64> {
        let reply = self.tell(ns, step);
        let number = match &reply {
            Reply::Num(number) => Some(*number),
            _ => None,
        };
        drop(reply);
        number
    }

    // What a step is told, which is digested: ESRCH where its tenant doesn't live, and EAGAIN where memory was wanted.
    fn reply(&mut self, ns: u32, step: &Step) -> Reply {
        self.steps = self.steps.saturating_add(1);
        if !self.hub.lives(ns) {
            self.digest.add(8);
            return Reply::Err(Errno::ESRCH);
        }
        match self.hub.step(ns, step) {
            Answer::Done(reply) => {
                self.digest.add_reply(&reply);
                reply
            }
            Answer::NoMemory => {
                self.digest.add(9);
                Reply::Err(Errno::EAGAIN)
            }
        }
    }

    /// The next process of a tenant whose call would come further. The answer is digested, also that there is none.
    pub(crate) fn next_to_go_on(&mut self, ns: u32, after: u32) -> Option<u32> {
        if !self.hub.lives(ns) {
            self.digest.add(8);
            return None;
        }
        let next = self.hub.next_to_go_on(ns, after);
        self.digest.add_next(next);
        next
    }

    /// Asks what a descriptor is ready for, and digests the answer.
    pub(crate) fn ask_readiness(&mut self, ns: u32, pid: u32, fd: u32) {
        if !self.hub.lives(ns) {
            self.digest.add(8);
            return;
        }
        match self.hub.readiness(ns, pid, fd) {
            Ok(ready) => self.digest.add_readiness(ready),
            Err(error) => self.digest.add(100 + u64::from(error.code())),
        }
    }

    /// A pipe of a process, as its descriptors for reading and for writing.
    pub(crate) fn pipe(&mut self, ns: u32, pid: u32) -> (u32, u32) {
        let step = Step::Pipe {
            pid,
            nonblock: false,
        };
        let reply = self.tell(ns, step);
        let ends = match &reply {
            Reply::Fds(read, write) => (*read, *write),
            _ => (255, 255),
        };
        drop(reply);
        ends
    }

    /// A child of a process.
    pub(crate) fn fork(&mut self, ns: u32, pid: u32) -> u32 {
        let reply = self.tell(ns, Step::Fork { pid });
        let child = match &reply {
            Reply::Pid(child) => *child,
            _ => 0,
        };
        drop(reply);
        child
    }

    /// Another descriptor for what one names, which goes: as dup2() moves it.
    pub(crate) fn moved(&mut self, ns: u32, pid: u32, fd: u32) -> u32 {
        let to = match self.number(ns, Step::Dup { pid, fd }) {
            Some(to) if to < 256 => to as u32,
            _ => fd,
        };
        self.close(ns, pid, fd);
        to
    }

    pub(crate) fn close(&mut self, ns: u32, pid: u32, fd: u32) {
        self.make(ns, Step::Close { pid, fd });
    }

    pub(crate) fn exit(&mut self, ns: u32, pid: u32) {
        self.make(ns, Step::Exit { pid });
    }
}
