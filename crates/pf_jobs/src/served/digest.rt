//! A digest of what is told. Bytes go into it by words of eight and by four words at once, so that it costs little
//! beside the calls.

use crate::digest::FACTOR;
use pf_base::{Kind, Reply, Step};
use pf_service::Receipt;

/// A digest of numbers, in their order.
#[derive(Clone, Copy, Drop)]
pub(crate) struct Digest(u64);

fn mixed(digest: u64, number: u64) -> u64 {
    (digest ^ number).wrapping_mul(FACTOR).rotate_left(29)
}

impl Digest {
    /// The digest of no number.
    pub(crate) fn new() -> Digest {
        Digest(FACTOR)
    }

    /// The digest as a number.
    pub(crate) fn number(self) -> u64 {
        self.0
    }

    /// One number more.
    pub(crate) fn add(&mut self, number: u64) {
        self.0 = mixed(self.0, number);
    }

    fn add_rows(&mut self, rows: &[[[u8; 8]; 4]]) {
        let mut lanes = [self.0, 1, 2, 3];
        for row in rows {
            lanes = [
                mixed(lanes[0], u64::from_le_bytes(row[0])),
                mixed(lanes[1], u64::from_le_bytes(row[1])),
                mixed(lanes[2], u64::from_le_bytes(row[2])),
                mixed(lanes[3], u64::from_le_bytes(row[3])),
            ];
        }
        self.0 = mixed(mixed(lanes[0], lanes[1]), mixed(lanes[2], lanes[3]));
    }

    fn add_words(&mut self, words: &[[u8; 8]]) {
        for word in words {
            self.add(u64::from_le_bytes(*word));
        }
    }

    fn add_bytes(&mut self, bytes: &[u8]) {
        self.add(bytes.len() as u64);
        let (words, rest) = bytes.as_chunks::<8>();
        let (rows, words) = words.as_chunks::<4>();
        if !rows.is_empty() {
            self.add_rows(rows);
        }
        self.add_words(words);
        let mut last = [0; 8];
        last[..rest.len()].copy_from_slice(rest);
        self.add(u64::from_le_bytes(last));
    }

    /// A reply: each kind begins with a number of its own.
    pub(crate) fn add_reply(&mut self, reply: &Reply) {
        match reply {
            Reply::Num(number) => {
                self.add(1);
                self.add(*number);
            }
            Reply::Pid(pid) => self.add(1_000 + u64::from(*pid)),
            Reply::Fds(read, write) => {
                self.add(2);
                self.add(u64::from(*read));
                self.add(u64::from(*write));
            }
            Reply::Bytes(bytes) => {
                self.add(3);
                self.add_bytes(bytes.as_slice());
            }
            Reply::Names(names) => {
                self.add(4);
                self.add_bytes(names.as_slice());
            }
            Reply::Meta(meta) => {
                self.add(if meta.kind == Kind::Directory { 5 } else { 6 });
                self.add(u64::from(meta.mode.bits()));
            }
            Reply::Parked => self.add(7),
            Reply::Err(error) => self.add(100 + u64::from(error.code())),
        }
    }

    /// A receipt: the namespace, the place and the reply.
    pub(crate) fn add_receipt(&mut self, receipt: &Receipt) {
        self.add(u64::from(receipt.ns));
        self.add(receipt.place);
        self.add_reply(&receipt.reply);
    }

    /// A step: each kind that is made here begins with a number of its own.
    pub(crate) fn add_step(&mut self, step: &Step) {
        match step {
            Step::Spawn {
                uid,
                gid,
                umask,
                groups,
            } => {
                self.add(20);
                self.add(u64::from(*uid));
                self.add(u64::from(*gid));
                self.add(u64::from(*umask));
                self.add(groups.as_slice().len() as u64);
            }
            Step::Exit { pid } => self.add_words_of(21, *pid, 0),
            Step::Fork { pid } => self.add_words_of(22, *pid, 0),
            Step::Resume { pid } => self.add_words_of(23, *pid, 0),
            Step::Pipe { pid, nonblock } => {
                self.add_words_of(if *nonblock { 24 } else { 25 }, *pid, 0);
            }
            Step::Close { pid, fd } => self.add_words_of(26, *pid, *fd),
            Step::Dup { pid, fd } => self.add_words_of(27, *pid, *fd),
            Step::Read { pid, fd, n } => {
                self.add_words_of(28, *pid, *fd);
                self.add(*n);
            }
            Step::Write { pid, fd, payload } => {
                self.add_words_of(29, *pid, *fd);
                self.add_bytes(payload.as_slice());
            }
            _ => self.add(30),
        }
    }

    fn add_words_of(&mut self, kind: u64, pid: u32, fd: u32) {
        self.add(kind);
        self.add(u64::from(pid));
        self.add(u64::from(fd));
    }
}
