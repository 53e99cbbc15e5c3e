//! A tenant: the steps of a namespace by random numbers of its own, and a digest of what it is told.

use crate::steps::step;
use pf_base::{Answer, Kind, Reply};
use pf_hub::Hub;
use rand_pcg::Pcg32;
use std::alloc::{AllocError, Global};

/// What the digest is multiplied with for each number.
const PRIME: u64 = 0x0000_0100_0000_01B3;

/// A digest of numbers, in their order.
#[derive(Debug, Clone, Copy, PartialEq, Eq, Drop)]
struct Digest(u64);

impl Digest {
    fn add(&mut self, number: u64) {
        self.0 = (self.0 ^ number).wrapping_mul(PRIME);
    }

    fn add_bytes(&mut self, bytes: &[u8]) {
        self.add(bytes.len() as u64);
        for byte in bytes {
            self.add(u64::from(*byte));
        }
    }

    /// Each kind of reply begins with a number of its own.
    fn add_reply(&mut self, reply: &Reply) {
        match reply {
            Reply::Num(number) => {
                self.add(1);
                self.add(*number);
            }
            Reply::Pid(pid) => self.add(1_000 + u64::from(*pid)),
            Reply::Fds(read, write) => {
                self.add(2);
                self.add(u64::from(*read));
                self.add(u64::from(*write));
            }
            Reply::Bytes(bytes) => {
                self.add(3);
                self.add_bytes(bytes.as_slice());
            }
            Reply::Names(names) => {
                self.add(4);
                self.add_bytes(names.as_slice());
            }
            Reply::Meta(meta) => {
                self.add(if meta.kind == Kind::Directory { 5 } else { 6 });
                self.add(u64::from(meta.mode.bits()));
                self.add(u64::from(meta.uid));
                self.add(u64::from(meta.gid));
            }
            Reply::Parked => self.add(7),
            Reply::Err(error) => self.add(100 + u64::from(error.code())),
        }
    }
}

/// A namespace's tenant.
#[derive(Drop)]
pub(crate) struct Tenant {
    random: Pcg32,
    digest: Digest,
    /// How many steps it made.
    pub(crate) steps: u64,
    /// How many of them were told of want of memory.
    pub(crate) nomem: u64,
}

impl Tenant {
    /// The tenant of this number, at its beginning.
    pub(crate) fn new(seed: u64, number: u64) -> Tenant {
        Tenant {
            random: Pcg32::new(seed, number),
            digest: Digest(0),
            steps: 0,
            nomem: 0,
        }
    }

    /// Makes its next step in a hub's namespace, if there is one of this number.
    pub(crate) fn go_on(
        &mut self,
        alloc: Global,
        hub: &mut Hub<Global>,
        ns: u32,
    ) -> Result<(), AllocError> {
        let step = step(alloc, &mut self.random)?;
        if !hub.lives(ns) {
            return Ok(());
        }
        self.steps = self.steps.saturating_add(1);
        match hub.step(ns, &step) {
            Answer::Done(reply) => self.digest.add_reply(&reply),
            Answer::NoMemory => self.nomem = self.nomem.saturating_add(1),
        }
        Ok(())
    }

    /// Whether the other was told the same in as many steps.
    pub(crate) fn agrees(&self, other: &Tenant) -> bool {
        self.steps == other.steps && self.digest == other.digest
    }
}
