//! A tenant's turns, as builds and shells make them, through whatever makes its steps.

use crate::random::below;
use crate::served::digest::Digest;
use crate::served::source::{Source, line};
use pf_base::{Groups, PAGE_SIZE, Step};
use pf_service::Receipt;
use rand_pcg::Pcg32;

/// How many bytes a pipe has room for.
const PIPE: u32 = 65_536;

/// How many turns a spell has.
const SPELL: u32 = 50;

/// What makes the steps of one namespace.
pub(crate) trait Caller {
    /// What is told, if the step is made.
    fn ask(&mut self, step: &Step) -> Option<Receipt>;
}

/// A tenant: the numbers that its turns follow, and a digest of what it is told.
///
/// Its first process has a pipe, and the second one, a fork of it, reads there too.
#[derive(Drop)]
pub(crate) struct Play {
    random: Pcg32,
    told: Digest,
}

impl Play {
    /// A tenant that was told nothing yet.
    pub(crate) fn new(random: Pcg32) -> Play {
        Play {
            random,
            told: Digest::new(),
        }
    }

    /// What it was told.
    pub(crate) fn told(&self) -> Digest {
        self.told
    }

    fn make<C: Caller>(&mut self, caller: &mut C, step: Step) -> Option<()> {
        self.told.add_receipt(&caller.ask(&step)?);
        Some(())
    }

    /// Two processes with a pipe, before any turn.
    pub(crate) fn open<C: Caller>(&mut self, caller: &mut C) -> Option<()> {
        self.make(caller, spawned())?;
        let (pid, nonblock) = (1, false);
        self.make(caller, Step::Pipe { pid, nonblock })?;
        self.make(caller, Step::Fork { pid })
    }

    /// The first process writes so many bytes.
    fn write<C: Caller>(
        &mut self,
        source: &Source,
        caller: &mut C,
        fd: u32,
        len: u32,
    ) -> Option<()> {
        let pid = 1;
        let payload = source.payload(&mut self.random, len).ok()?;
        self.make(caller, Step::Write { pid, fd, payload })
    }

    /// The second process reads, piece by piece, so many times.
    fn read<C: Caller>(&mut self, caller: &mut C, n: u32, times: u32) -> Option<()> {
        let (pid, fd, n) = (2, 0, u64::from(n));
        for _ in 0..times {
            self.make(caller, Step::Read { pid, fd, n })?;
        }
        Some(())
    }

    /// Bytes through the pipe: by one read that asks for as many or for more, or by up to four smaller ones.
    fn block<C: Caller>(&mut self, source: &Source, caller: &mut C, len: u32) -> Option<()> {
        self.write(source, caller, 1, len)?;
        match below(&mut self.random, 4) {
            0 => self.read(caller, len.div_ceil(4).max(1), 4.min(len)),
            1 => self.read(caller, PIPE, 1),
            _ => self.read(caller, len, 1),
        }
    }

    /// A read that waits until a line comes.
    fn waiting<C: Caller>(&mut self, source: &Source, caller: &mut C, len: u32) -> Option<()> {
        self.read(caller, PAGE_SIZE as u32, 1)?;
        self.write(source, caller, 1, len)?;
        self.make(caller, Step::Resume { pid: 2 })
    }

    /// A third process comes, closes an end that it doesn't need, and ends.
    fn process<C: Caller>(&mut self, caller: &mut C) -> Option<()> {
        self.make(caller, Step::Fork { pid: 1 })?;
        let (pid, fd) = (3, below(&mut self.random, 2));
        self.make(caller, Step::Close { pid, fd })?;
        self.make(caller, Step::Exit { pid })
    }

    /// A second pipe comes, one of its ends twice, brings a line, and goes.
    fn pipe<C: Caller>(&mut self, source: &Source, caller: &mut C, len: u32) -> Option<()> {
        let (pid, nonblock) = (1, true);
        self.make(caller, Step::Pipe { pid, nonblock })?;
        self.make(caller, Step::Dup { pid, fd: 2 })?;
        self.write(source, caller, 3, len)?;
        let (fd, n) = (4, PAGE_SIZE as u64);
        self.make(caller, Step::Read { pid, fd, n })?;
        for fd in 2..5 {
            self.make(caller, Step::Close { pid, fd })?;
        }
        Some(())
    }

    /// A turn of some kind.
    fn turn<C: Caller>(&mut self, source: &Source, caller: &mut C) -> Option<()> {
        let len = line(&mut self.random);
        match below(&mut self.random, 100) {
            0..=29 => self.block(source, caller, 1),
            30..=59 => self.block(source, caller, len),
            60..=69 => self.block(source, caller, 512),
            70..=79 => self.block(source, caller, PAGE_SIZE as u32),
            80..=89 => self.waiting(source, caller, len),
            90..=94 => self.process(caller),
            _ => self.pipe(source, caller, len),
        }
    }

    /// A spell of turns.
    pub(crate) fn spell<C: Caller>(&mut self, source: &Source, caller: &mut C) -> Option<()> {
        for _ in 0..SPELL {
            self.turn(source, caller)?;
        }
        Some(())
    }
}

/// The step by which a namespace's first process comes.
pub(crate) fn spawned() -> Step {
    Step::Spawn {
        uid: 5,
        gid: 5,
        umask: 0o022,
        groups: Groups::none(),
    }
}
