//! A service: three threads call it, each for its own tenants, with two seats at each; then two threads share a
//! namespace, where one reads what the other writes; and in the end all seats come back.
//!
//! All threads end. A tenant's calls are plain ones, which wait for no other caller. Of the two at the shared namespace
//! the writer waits only while its letter doesn't fit, and the reader only while the pipe is empty, so one of them can
//! go on; and whoever is done, or was refused a call, lets its process exit, so that the other's calls are answered at
//! once from then on. Where no thread can be made for the reader, the writer doesn't begin. An exit is an event too,
//! and where memory is refused it, the other waits on: only an event could wake it, and a namespace that has a process
//! isn't retired.

ghost use Rattle.std.specs.Prelude.{◌≡◌, ◌≤◌};
ghost use Rattle.pf_base.specs.declared.TheConstants.{MAX_NAMESPACES};

use crate::random::below;
use crate::served::digest::Digest;
use crate::served::play::{Caller, Play, spawned};
use crate::served::source::{Source, line};
use crate::served::{blank, configs, entries, frames};
use pf_base::{PAGE_SIZE, Step};
use pf_service::{NoGate, Receipt, Seat, Service, Transcripts};
use rand_pcg::Pcg32;
use std::alloc::Global;
use std::marker::Brand;
use std::sync::Wait;
use std::sync::ledger::{Blank, Ledger};
use std::thread::{self, Scope, Threads};

type Shared<C, H> = Service<Global, NoGate, C, H>;

/// How many threads call at once.
const THREADS: u32 = 3;

/// How many tenants each of them has.
const CREW: u32 = 4;

/// The namespace that two threads share, after all tenants'.
const POST: u32 = THREADS * CREW;

/// How many frames each namespace reserves: enough for two pipes.
const RESERVE: u32 = 32;

/// What is done with one service: its number and a seed make the input, and each tenant has so many spells; then so
/// many letters go from one of two threads to the other.
#[derive(Clone, Copy)]
pub(crate) struct Round {
    pub(crate) seed: u32,
    pub(crate) number: u32,
    pub(crate) spells: u32,
    pub(crate) letters: u32,
}

/// What makes a tenant's steps: its two callers, by turns.
#[derive(Drop)]
struct Asked<'a, R: Wait, C: Ledger, H: Ledger> {
    rt: &'a R,
    service: &'a Shared<C, H>,
    seats: (Seat, Seat),
    is_second: bool,
}

impl<R: Wait, C: Ledger, H: Ledger> Caller for Asked<'_, R, C, H> {
    fn ask(&mut self, step: &Step) -> Option<Receipt> {
        self.is_second = !self.is_second;
        let told = if self.is_second {
            self.service.call(self.rt, &mut self.seats.1, step)
        } else {
            self.service.call(self.rt, &mut self.seats.0, step)
        };
        told.ok()
    }
}

/// A tenant of the service, with its two seats.
#[derive(Drop)]
struct Tenant {
    play: Play,
    seats: (Seat, Seat),
}

/// The tenants of a thread.
type Crew = Vec<Tenant>;

/// What a thread needs besides its tenants.
#[derive(Drop)]
struct Stage<'a, R: Wait, C: Ledger, H: Ledger> {
    rt: &'a R,
    service: &'a Shared<C, H>,
    source: &'a Source,
    round: Round,
}

impl<'a, R: Wait, C: Ledger, H: Ledger> Stage<'a, R, C, H> {
    fn asked(&self, seats: (Seat, Seat)) -> Asked<'a, R, C, H> {
        Asked {
            rt: self.rt,
            service: self.service,
            seats,
            is_second: false,
        }
    }

    /// A tenant with its seats, and with its processes.
    fn tenant(&self, ns: u32) -> Option<Tenant> {
        let mut play = Play::new(self.random(ns));
        let first = self.service.seat(self.rt, ns).ok()?;
        let second = self.service.seat(self.rt, ns).ok()?;
        let mut caller = self.asked((first, second));
        play.open(&mut caller)?;
        let seats = caller.seats;
        Some(Tenant { play, seats })
    }

    /// One spell of a tenant.
    fn spell(&self, tenant: Tenant) -> Option<Tenant> {
        let Tenant { mut play, seats } = tenant;
        let mut caller = self.asked(seats);
        play.spell(self.source, &mut caller)?;
        let seats = caller.seats;
        Some(Tenant { play, seats })
    }

    /// One spell of each tenant of a thread.
    fn spell_each(&self, crew: Crew) -> Option<Crew> {
        let mut back = Vec::with_capacity(self.source.alloc(), CREW as usize).ok()?;
        for tenant in crew {
            back.push(self.spell(tenant)?).ok()?;
        }
        Some(back)
    }

    /// All spells of a thread's tenants.
    fn spells(&self, crew: Crew) -> Option<Crew> {
        let mut crew = crew;
        for _ in 0..self.round.spells {
            crew = self.spell_each(crew)?;
        }
        Some(crew)
    }

    /// The tenants of a thread, whose namespaces begin with this one.
    fn crew(&self, first: u32) -> Option<Crew> {
        let mut crew = Vec::with_capacity(self.source.alloc(), CREW as usize).ok()?;
        for ns in first..first.saturating_add(CREW) {
            crew.push(self.tenant(ns)?).ok()?;
        }
        Some(crew)
    }

    /// The tenants of each thread.
    fn crews(&self) -> Option<Vec<Crew>> {
        let mut crews = Vec::with_capacity(self.source.alloc(), THREADS as usize).ok()?;
        for thread in 0..THREADS {
            crews.push(self.crew(thread * CREW)?).ok()?;
        }
        Some(crews)
    }

    /// A plain call of the shared namespace, before two threads share it.
    fn call(&self, seat: &mut Seat, told: &mut Digest, step: Step) -> Option<()> {
        let receipt = self.service.call(self.rt, seat, &step).ok()?;
        told.add_receipt(&receipt);
        Some(())
    }

    /// The end of a process while two threads share the namespace: its place depends on their order.
    fn exit(&self, seat: &mut Seat, told: &mut Digest, pid: u32) -> Option<()> {
        let receipt = self.service.call(self.rt, seat, &Step::Exit { pid }).ok()?;
        told.add(u64::from(receipt.ns));
        told.add_reply(&receipt.reply);
        Some(())
    }

    /// Two processes at the shared namespace: the first one writes into a pipe from which the second one reads.
    fn post(&self, told: &mut Digest) -> Option<(Seat, Seat)> {
        let mut first = self.service.seat(self.rt, POST).ok()?;
        let second = self.service.seat(self.rt, POST).ok()?;
        let (pid, nonblock) = (1, false);
        self.call(&mut first, told, spawned())?;
        self.call(&mut first, told, Step::Pipe { pid, nonblock })?;
        self.call(&mut first, told, Step::Fork { pid })?;
        self.call(&mut first, told, Step::Close { pid: 1, fd: 0 })?;
        self.call(&mut first, told, Step::Close { pid: 2, fd: 1 })?;
        Some((first, second))
    }

    /// What a call is told in the end, which may wait for the other thread. The places depend on the threads' order.
    fn wait(
        &self,
        seat: &mut Seat,
        receipts: &mut Vec<Receipt>,
        told: &mut Digest,
        step: Step,
    ) -> Option<()> {
        self.service
            .call_waiting(self.rt, seat, &step, receipts)
            .ok()?;
        let last = receipts.pop()?;
        receipts.clear();
        told.add(u64::from(last.ns));
        told.add_reply(&last.reply);
        Some(())
    }

    /// Random numbers of the round, others for each place.
    fn random(&self, place: u32) -> Pcg32 {
        let number = (u64::from(self.round.number) + 1) * 100;
        Pcg32::new(u64::from(self.round.seed), number + u64::from(place))
    }

    /// Writes all letters.
    fn write_all(&self, seat: &mut Seat, told: &mut Digest) -> Option<()> {
        let (mut sizes, mut places) = (self.random(POST), self.random(POST + 1));
        let mut receipts = Vec::new(self.source.alloc());
        for _ in 0..self.round.letters {
            let (pid, fd) = (1, 1);
            let payload = self.source.payload(&mut places, letter(&mut sizes)).ok()?;
            self.wait(seat, &mut receipts, told, Step::Write { pid, fd, payload })?;
        }
        Some(())
    }

    /// Reads as many of the same sizes.
    fn read_all(&self, seat: &mut Seat, told: &mut Digest) -> Option<()> {
        let mut sizes = self.random(POST);
        let mut receipts = Vec::new(self.source.alloc());
        for _ in 0..self.round.letters {
            let (pid, fd, n) = (2, 0, u64::from(letter(&mut sizes)));
            self.wait(seat, &mut receipts, told, Step::Read { pid, fd, n })?;
        }
        Some(())
    }

    /// The writer's part. In the end its process exits, also where a call was refused: then the reader waits no more.
    fn send(&self, mut seat: Seat) -> Option<(Seat, Digest)> {
        let mut told = Digest::new();
        let written = self.write_all(&mut seat, &mut told);
        self.exit(&mut seat, &mut told, 1)?;
        written?;
        Some((seat, told))
    }

    /// The reader's part, in the same way.
    fn receive(&self, mut seat: Seat) -> Option<(Seat, Digest)> {
        let mut told = Digest::new();
        let read = self.read_all(&mut seat, &mut told);
        self.exit(&mut seat, &mut told, 2)?;
        read?;
        Some((seat, told))
    }
}

/// How many bytes a letter has: two of three are lines, and the others have a page at most, so none is cut.
fn letter(sizes: &mut Pcg32) -> u32 {
    match below(sizes, 3) {
        0 => 1 + below(sizes, PAGE_SIZE as u32),
        _ => line(sizes),
    }
}

/// A thread's part: all spells of each of its tenants.
fn play_crew<R: Wait, C: Ledger, H: Ledger>(
    rt: &R,
    service: &Shared<C, H>,
    source: &Source,
    round: Round,
    crew: Crew,
) -> Option<Crew> {
    let stage = Stage {
        rt,
        service,
        source,
        round,
    };
    stage.spells(crew)
}

/// All spells of all tenants, those of each thread on it.
fn play_at_once<C: Ledger + Send + Sync, H: Ledger + Send + Sync, R: Threads + Wait + Sync>(
    rt: &R,
    service: &Shared<C, H>,
    source: &Source,
    round: Round,
    crews: Vec<Crew>,
) -> Option<Vec<Crew>> {
    let back = thread::map_vec(
        rt,
        crews,
        &|crew: Crew| play_crew(rt, service, source, round, crew),
    );
    let mut crews = Vec::with_capacity(source.alloc(), THREADS as usize).ok()?;
    for crew in back.ok()? {
        crews.push(crew?).ok()?;
    }
    Some(crews)
}

/// What one of two threads at a namespace ends with: its seat, and what it was told.
type Ended = Option<(Seat, Digest)>;

/// Both parts at the shared namespace, the reader's on a thread of this scope. Where none can be made, neither begins.
fn post_beside<'s, E, C: Ledger + Send + Sync, H: Ledger + Send + Sync, R: Threads + Wait + Sync>(
    rt: &'s R,
    scope: &Scope<'s, E>,
    service: &'s Shared<C, H>,
    source: &'s Source,
    round: Round,
    seats: (Seat, Seat),
) -> Option<(Ended, Ended)> {
    let stage = Stage {
        rt,
        service,
        source,
        round,
    };
    let (first, second) = seats;
    let reader = scope.spawn(move || -> Ended {
        let stage = Stage {
            rt,
            service,
            source,
            round,
        };
        stage.receive(second)
    });
    let reader = reader.ok()?;
    let sent = stage.send(first);
    Some((sent, reader.join(rt)))
}

/// Two threads at one namespace, with a seat each.
fn post_at_once<C: Ledger + Send + Sync, H: Ledger + Send + Sync, R: Threads + Wait + Sync>(
    rt: &R,
    service: &Shared<C, H>,
    source: &Source,
    round: Round,
    seats: (Seat, Seat),
    told: &mut Digest,
) -> Option<(Seat, Seat)> {
    let (sent, received) = thread::scope(
        thread::scope_env(),
        rt,
        |scope| -> Option<(Ended, Ended)> { post_beside(rt, scope, service, source, round, seats) },
    )?;
    let (first, sent) = sent?;
    let (second, received) = received?;
    told.add(sent.number());
    told.add(received.number());
    Some((first, second))
}

/// The tenants give their seats back, and what they were told goes into the digest.
fn leave(crew: Crew, seats: &mut Vec<Seat>, told: &mut Digest) -> Option<()> {
    for Tenant {
        play,
        seats: (first, second),
    } in crew {
        told.add(play.told().number());
        seats.push(first).ok()?;
        seats.push(second).ok()?;
    }
    Some(())
}

/// All tenants' seats come back.
fn leave_all(alloc: Global, crews: Vec<Crew>, told: &mut Digest) -> Option<Vec<Seat>> {
    let mut seats = Vec::new(alloc);
    for crew in crews {
        leave(crew, &mut seats, told)?;
    }
    Some(seats)
}

/// What the transcripts say: the last one is that of the namespace that two threads share.
fn read(transcripts: &Transcripts, told: &mut Digest) {
    let (tenants, post) = transcripts
        .as_slice()
        .split_at((POST as usize).min(transcripts.as_slice().len()));
    for transcript in tenants {
        entries::add_all(transcript, told);
    }
    for transcript in post {
        entries::add_apart(transcript, told);
    }
}

/// All that is done with a service but for its end: all seats come back.
fn called<C: Ledger + Send + Sync, H: Ledger + Send + Sync, R: Threads + Wait + Sync>(
    rt: &R,
    service: &Shared<C, H>,
    source: &Source,
    round: Round,
    told: &mut Digest,
) -> Option<Vec<Seat>> {
    let stage = Stage {
        rt,
        service,
        source,
        round,
    };
    let crews = stage.crews()?;
    let post = stage.post(told)?;
    let crews = play_at_once(rt, service, source, round, crews)?;
    let (first, second) = post_at_once(rt, service, source, round, post, told)?;
    let mut seats = leave_all(source.alloc(), crews, told)?;
    seats.push(first).ok()?;
    seats.push(second).ok()?;
    Some(seats)
}

fn play_by_name<C: Ledger + Send + Sync, H: Ledger + Send + Sync, R: Threads + Wait + Sync>(
    rt: &R,
    source: &Source,
    round: Round,
    credits: Blank,
    held: Blank,
) -> Option<Digest>
    requires names { (credits.name ≡ C.name) × (held.name ≡ H.name) }
    requires cut { (credits.parts ≡ C.parts) × (held.parts ≡ H.parts) }
    requires parts { (MAX_NAMESPACES ≤ credits.parts) × (MAX_NAMESPACES ≤ held.parts) }
{
    let alloc = source.alloc();
    let frames = frames(alloc, (POST + 1) * RESERVE).ok()?;
    let configs = configs(alloc, POST + 1, RESERVE)?;
    let service = Shared::<C, H>::new(alloc, frames, configs, NoGate, credits, held).ok()?;
    let mut told = Digest::new();
    let seats = called(rt, &service, source, round, &mut told)?;
    read(&service.close(seats).ok()?, &mut told);
    Some(told)
}

/// What the callers of a service are told.
pub(crate) fn play<R: Threads + Wait + Sync>(
    rt: &R,
    source: &Source,
    round: Round,
) -> Option<Digest> {
    play_by_name::<Brand, Brand, R>(rt, source, round, blank(), blank())
}
