//! A digest of what a host is told.

use pf_base::{Kind, Readiness, Reply};

/// What each digest of these jobs is multiplied with for each number.
pub(crate) const FACTOR: u64 = 0x9E37_79B9_7F4A_7C15;

/// A digest of numbers, in their order.
#[derive(Debug, Clone, Copy, Drop)]
pub(crate) struct Digest(u64);

impl Digest {
    /// Of nothing.
    pub(crate) fn new() -> Digest {
        Digest(0)
    }

    /// The number that it comes to.
    pub(crate) fn value(&self) -> u64 {
        self.0
    }

    pub(crate) fn add(&mut self, number: u64) {
        self.0 = (self.0 ^ number).wrapping_mul(FACTOR).rotate_left(23);
    }

    /// Bytes by words, in four lanes, so that this costs little beside the call that gave them.
    pub(crate) fn add_bytes(&mut self, bytes: &[u8]) {
        self.add(bytes.len() as u64);
        let (words, rest) = bytes.as_chunks::<8>();
        let (fours, last) = words.as_chunks::<4>();
        let mut lanes: [u64; 4] = [1, 2, 3, 4];
        for four in fours {
            let [a, b, c, d] = lanes;
            lanes = [
                a.rotate_left(7).wrapping_add(u64::from_le_bytes(four[0])),
                b.rotate_left(7).wrapping_add(u64::from_le_bytes(four[1])),
                c.rotate_left(7).wrapping_add(u64::from_le_bytes(four[2])),
                d.rotate_left(7).wrapping_add(u64::from_le_bytes(four[3])),
            ];
        }
        for lane in lanes {
            self.add(lane);
        }
        for word in last {
            self.add(u64::from_le_bytes(*word));
        }
        for byte in rest {
            self.add(u64::from(*byte));
        }
    }

    /// Each kind of reply begins with a number of its own.
    pub(crate) fn add_reply(&mut self, reply: &Reply) {
        match reply {
            Reply::Num(number) => {
                self.add(1);
                self.add(*number);
            }
            Reply::Pid(pid) => self.add(1_000 + u64::from(*pid)),
            Reply::Fds(read, write) => {
                self.add(2);
                self.add(u64::from(*read));
                self.add(u64::from(*write));
            }
            Reply::Bytes(bytes) => {
                self.add(3);
                self.add_bytes(bytes.as_slice());
            }
            Reply::Names(names) => {
                self.add(4);
                self.add_bytes(names.as_slice());
            }
            Reply::Meta(meta) => {
                self.add(if meta.kind == Kind::Directory { 5 } else { 6 });
                self.add(u64::from(meta.mode.bits()));
                self.add(u64::from(meta.uid));
                self.add(u64::from(meta.gid));
            }
            Reply::Parked => self.add(7),
            Reply::Err(error) => self.add(100 + u64::from(error.code())),
        }
    }

    /// Who can go on next, if anybody can.
    pub(crate) fn add_next(&mut self, next: Option<u32>) {
        match next {
            Some(pid) => self.add(2_000 + u64::from(pid)),
            None => self.add(10),
        }
    }

    /// What a pipe is ready for: its bytes and its room, and who is at its other end.
    pub(crate) fn add_readiness(&mut self, ready: Readiness) {
        self.add(ready.bytes);
        self.add(ready.room);
        self.add(match (ready.has_reader, ready.has_writer) {
            (false, false) => 11,
            (false, true) => 12,
            (true, false) => 13,
            (true, true) => 14,
        });
    }
}
