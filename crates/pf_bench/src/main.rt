//! Pairs of a write and a read through a hub, whose frames are on loan from a depot, tees and splices between two of its
//! pipes, and reads that wait; the same through the plain form, whose frames are one array; and pairs from the host's
//! slices and into them, through a worker, and through a service.
//! With no word, it plays a short fixed load through each and looks at each byte; with a number, it plays so many of each
//! size, and prints how long one takes.
#![tactic(auto)]

mod served;
mod sliced;
mod worked;

use pf_base::{Answer, ByteString, Config, Crossing, Groups, PAGE_SIZE, Reply, Step};
use pf_frame::Frame;
use pf_hub::Hub;
use pf_plain::Plain;
use std::alloc::{AllocError, Global};
use std::process::ExitCode;
use std::sync::Wait;
use std::thread::Threads;
use std::time::Instant;
use std::{env, io};

/// How many bytes the pairs write and read.
const SIZES: [usize; 5] = [1, 64, 512, PAGE_SIZE, 65_536];

/// How many bytes the tees, the splices and the waiting reads that are timed bring.
const TIMED_CROSSINGS: [usize; 2] = [1, 65_536];

/// How many pairs, tees or splices are timed together. The least of all these times counts: what else the machine
/// does only adds to them.
const BATCH: u32 = 100;

/// How many pairs of each size the fixed load has.
const FIXED_PAIRS: u32 = 1000;

/// How many tees of each size the fixed load has, how many splices, and how many reads that wait.
const FIXED_CROSSINGS: u32 = 100;

/// So many bytes, no page of them like the next.
fn payload(alloc: Global, size: usize) -> Result<Vec<u8>, AllocError> {
    let mut bytes = Vec::with_capacity(alloc, size)?;
    for place in 0..size {
        bytes.push((place % 251) as u8)?;
    }
    Ok(bytes)
}

/// A pair's two steps, for the first process's first pipe.
#[derive(Drop)]
struct Pair {
    payload: Vec<u8>,
    write: Step,
    read: Step,
}

impl Pair {
    fn new(alloc: Global, size: usize) -> Result<Pair, AllocError> {
        let payload = payload(alloc, size)?;
        let bytes = ByteString::from_slice(alloc, &payload)?;
        Ok(Pair {
            payload,
            write: Step::Write {
                pid: 1,
                fd: 1,
                payload: bytes,
            },
            read: Step::Read {
                pid: 1,
                fd: 0,
                n: size as u64,
            },
        })
    }
}

/// A tee or a splice of all that was written to the first process's first pipe to its second one, and the reads that
/// then empty both.
#[derive(Drop)]
struct Passage {
    payload: Vec<u8>,
    write: Step,
    cross: Step,
    reads: Vec<Step>,
}

impl Passage {
    fn new(alloc: Global, crossing: Crossing, size: usize) -> Result<Passage, AllocError> {
        let Pair {
            payload,
            write,
            read,
        } = Pair::new(alloc, size)?;
        let n = size as u64;
        let mut reads = Vec::new(alloc);
        reads.push(Step::Read { pid: 1, fd: 2, n })?;
        let cross = match crossing {
            Crossing::Tee => {
                reads.push(read)?;
                Step::Tee {
                    pid: 1,
                    source: 0,
                    sink: 3,
                    n,
                    nonblock: true,
                }
            }
            Crossing::Splice => Step::Splice {
                pid: 1,
                source: 0,
                sink: 3,
                n,
                nonblock: true,
            },
        };
        Ok(Passage {
            payload,
            write,
            cross,
            reads,
        })
    }
}

/// A read of the second process, which waits while the first pipe is empty, the write that brings its bytes, and its
/// resume.
#[derive(Drop)]
struct WaitingRead {
    pair: Pair,
    read: Step,
    resume: Step,
}

impl WaitingRead {
    fn new(alloc: Global, size: usize) -> Result<WaitingRead, AllocError> {
        Ok(WaitingRead {
            pair: Pair::new(alloc, size)?,
            read: Step::Read {
                pid: 2,
                fd: 0,
                n: size as u64,
            },
            resume: Step::Resume { pid: 2 },
        })
    }
}

/// Namespaces by number, whatever lends them their frames. What is timed and looked at is namespace 0.
trait Host {
    /// Its answer to one step of namespace 0, where there is one.
    fn step(&mut self, step: &Step) -> Answer;

    /// How many frames namespace 0 holds.
    fn held(&self) -> u32;
}

impl Host for Hub<Global> {
    fn step(&mut self, step: &Step) -> Answer {
        if !self.lives(0) {
            return Answer::NoMemory;
        }
        Hub::step(self, 0, step)
    }

    fn held(&self) -> u32 {
        Hub::held(self, 0)
    }
}

impl Host for Plain<Global> {
    fn step(&mut self, step: &Step) -> Answer {
        if !self.lives(0) {
            return Answer::NoMemory;
        }
        Plain::step(self, 0, step)
    }

    fn held(&self) -> u32 {
        Plain::held(self, 0)
    }
}

/// How many namespaces there are, and how many frames they share evenly.
#[derive(Clone, Copy)]
struct Shape {
    namespaces: u32,
    frames: u32,
}

impl Shape {
    /// So many frames, all zeros.
    fn frames(self, alloc: Global) -> Result<Vec<Frame>, AllocError> {
        let mut frames = Vec::new(alloc);
        for _ in 0..self.frames {
            frames.push(Frame::filled(alloc, 0)?)?;
        }
        Ok(frames)
    }

    /// So many limits, with the same reservation in each.
    fn configs(self, alloc: Global) -> Result<Vec<(Config, Global)>, AllocError> {
        let mut configs = Vec::new(alloc);
        let Some(reserve) = self.frames.checked_div(self.namespaces) else {
            return Ok(configs);
        };
        let Ok(config) = Config::new(
            reserve,
            Config::DEFAULT_SOFT,
            Config::DEFAULT_HARD,
            Config::DEFAULT_MAX,
        ) else {
            return Ok(configs);
        };
        for _ in 0..self.namespaces {
            configs.push((config, alloc))?;
        }
        Ok(configs)
    }

    /// A hub of this shape.
    fn hub(self, alloc: Global) -> Option<Hub<Global>> {
        let frames = self.frames(alloc).ok()?;
        let configs = self.configs(alloc).ok()?;
        Hub::new(alloc, frames, configs).ok()
    }

    /// The plain form of it.
    fn plain(self, alloc: Global) -> Option<Plain<Global>> {
        let frames = self.frames(alloc).ok()?;
        let configs = self.configs(alloc).ok()?;
        Plain::new(alloc, frames, configs).ok()
    }
}

/// What makes a process.
fn spawn() -> Step {
    Step::Spawn {
        uid: 5,
        gid: 5,
        umask: 0o022,
        groups: Groups::none(),
    }
}

/// What makes a pipe of the first process.
fn pipe() -> Step {
    Step::Pipe {
        pid: 1,
        nonblock: false,
    }
}

/// Whether a process with two pipes, and another that has them too, are made.
fn starts<H: Host>(host: &mut H) -> bool {
    host.step(&spawn()) == Answer::Done(Reply::Pid(1))
        && host.step(&pipe()) == Answer::Done(Reply::Fds(0, 1))
        && host.step(&pipe()) == Answer::Done(Reply::Fds(2, 3))
        && host.step(&Step::Fork { pid: 1 }) == Answer::Done(Reply::Pid(2))
}

/// Whether a step is answered by this number of bytes.
fn counts<H: Host>(host: &mut H, asked: &Step, number: usize) -> bool {
    host.step(asked) == Answer::Done(Reply::Num(number as u64))
}

/// What a step reads, if it is this number of bytes.
fn take<H: Host>(host: &mut H, read: &Step, number: usize) -> Option<ByteString> {
    let Answer::Done(Reply::Bytes(bytes)) = host.step(read) else {
        return None;
    };
    if bytes.as_slice().len() != number {
        return None;
    }
    Some(bytes)
}

// What may hold memory and is let go under a condition is dear to prove where it stands in a loop or beside other ways
// out. So these two take it, once for all.

/// The number that an answer counts.
#[inline(always)]
fn number_of(answer: Answer) -> Option<u64> {
    match answer {
        Answer::Done(Reply::Num(number)) => Some(number),
        _ => None,
    }
}

/// Whether there are bytes.
#[inline(always)]
fn is_some(bytes: Option<ByteString>) -> bool {
    bytes.is_some()
}

/// What a pair reads, if both its answers count as many bytes as it wrote.
fn play<H: Host>(host: &mut H, pair: &Pair) -> Option<ByteString> {
    let size = pair.payload.len();
    if number_of(host.step(&pair.write))? != size as u64 {
        return None;
    }
    take(host, &pair.read, size)
}

/// Whether a pair is answered right.
#[inline(always)]
fn plays<H: Host>(host: &mut H, pair: &Pair) -> bool {
    is_some(play(host, pair))
}

/// Whether a tee or a splice brings each byte to where it is to be, and the reads leave nothing.
fn brings_all<H: Host>(host: &mut H, passage: &Passage) -> bool {
    let size = passage.payload.len();
    if !counts(host, &passage.write, size) || !counts(host, &passage.cross, size) {
        return false;
    }
    for read in &passage.reads {
        let Some(bytes) = take(host, read, size) else {
            return false;
        };
        if bytes.as_slice() != passage.payload.as_slice() {
            return false;
        }
    }
    host.held() == 0
}

/// Whether a step is answered that its process waits.
fn parks<H: Host>(host: &mut H, asked: &Step) -> bool {
    host.step(asked) == Answer::Done(Reply::Parked)
}

/// What a read hands out that waited first, if the write counts as many bytes.
fn take_after_wait<H: Host>(host: &mut H, waiting: &WaitingRead) -> Option<ByteString> {
    let size = waiting.pair.payload.len();
    if !parks(host, &waiting.read) || !counts(host, &waiting.pair.write, size) {
        return None;
    }
    take(host, &waiting.resume, size)
}

/// Whether the fixed load's tees or splices of a size are all answered right.
fn play_crossings<H: Host>(host: &mut H, passage: &Passage) -> bool {
    for _ in 0..FIXED_CROSSINGS {
        if !brings_all(host, passage) {
            return false;
        }
    }
    true
}

/// Whether the fixed load's reads that wait are all answered right.
fn play_waits<H: Host>(host: &mut H, waiting: &WaitingRead) -> bool {
    for _ in 0..FIXED_CROSSINGS {
        let Some(bytes) = take_after_wait(host, waiting) else {
            return false;
        };
        if bytes.as_slice() != waiting.pair.payload.as_slice() {
            return false;
        }
    }
    true
}

/// Whether the fixed load's pairs of a size are all answered right.
fn play_pairs<H: Host>(host: &mut H, pair: &Pair) -> bool {
    for _ in 0..FIXED_PAIRS {
        let Some(bytes) = play(host, pair) else {
            return false;
        };
        if bytes.as_slice() != pair.payload.as_slice() {
            return false;
        }
    }
    true
}

/// Plays the fixed load of a size, and says whether each answer was right.
fn play_size<H: Host>(alloc: Global, host: &mut H, size: usize) -> Result<bool, AllocError> {
    Ok(
        play_pairs(host, &Pair::new(alloc, size)?)
            && play_crossings(host, &Passage::new(alloc, Crossing::Tee, size)?)
            && play_crossings(host, &Passage::new(alloc, Crossing::Splice, size)?)
            && play_waits(host, &WaitingRead::new(alloc, size)?),
    )
}

/// Starts, plays the fixed load, and says whether each answer was right.
fn play_loads<H: Host>(alloc: Global, host: &mut H) -> Result<bool, AllocError> {
    if !starts(host) {
        return Ok(false);
    }
    for size in SIZES {
        if !play_size(alloc, host, size)? {
            return Ok(false);
        }
    }
    Ok(true)
}

/// The same through a hub, and then pairs from slices and into them.
fn play_both_ways(alloc: Global, hub: &mut Hub<Global>) -> Result<bool, AllocError> {
    Ok(play_loads(alloc, hub)? && sliced::play_loads(alloc, hub)?)
}

// What owns a hub, its plain form, a worker or a service has one way out from then on: each drops it, which is dear to
// prove.

/// The fixed load through a hub.
fn play_hub(alloc: Global, shape: Shape) -> Result<bool, AllocError> {
    let Some(mut hub) = shape.hub(alloc) else {
        return Ok(false);
    };
    play_both_ways(alloc, &mut hub)
}

/// The same through the plain form of it.
fn play_plain(alloc: Global, shape: Shape) -> Result<bool, AllocError> {
    let Some(mut plain) = shape.plain(alloc) else {
        return Ok(false);
    };
    play_loads(alloc, &mut plain)
}

/// The same through a hub, from slices too, through its plain form and through a worker.
fn play_fixed<R: Wait>(rt: &R, alloc: Global) -> Result<bool, AllocError> {
    let shape = Shape {
        namespaces: 4,
        frames: 128,
    };
    Ok(
        play_hub(alloc, shape)?
            && play_plain(alloc, shape)?
            && worked::play_fixed(rt, alloc, shape)?,
    )
}

/// Whether a batch of pairs is answered right.
#[inline(always)]
fn plays_batch<H: Host>(host: &mut H, pair: &Pair) -> bool {
    for _ in 0..BATCH {
        if !plays(host, pair) {
            return false;
        }
    }
    true
}

/// How many nanoseconds this pair takes, if each answer was right.
fn time_this<H: Host>(
    rt: &HostRuntime,
    host: &mut H,
    pair: &Pair,
    pairs: u32,
) -> io::Result<Option<u128>> {
    let mut least = u128::MAX;
    for _ in 0..(pairs / BATCH).max(1) {
        let start = Instant::now(rt)?;
        if !plays_batch(host, pair) {
            return Ok(None);
        }
        least = least.min(start.elapsed(rt)?.as_nanos());
    }
    Ok(Some(least / u128::from(BATCH)))
}

/// How many nanoseconds a pair of this size takes, if each answer was right.
fn time_pair<H: Host>(
    rt: &HostRuntime,
    host: &mut H,
    size: usize,
    pairs: u32,
) -> io::Result<Option<u128>> {
    let pair = Pair::new(rt.alloc(), size)?;
    time_this(rt, host, &pair, pairs)
}

/// How many nanoseconds some calls took, and as many readings of the clock.
#[derive(Clone, Copy)]
struct Spent {
    calls: u128,
    clock: u128,
}

impl Spent {
    const NOTHING: Spent = Spent { calls: 0, clock: 0 };

    const ALL: Spent = Spent {
        calls: u128::MAX,
        clock: u128::MAX,
    };

    /// Adds a call that began then and is over now, and a reading of the clock.
    fn add(&mut self, rt: &HostRuntime, start: Instant) -> io::Result<()> {
        self.calls = self.calls.saturating_add(start.elapsed(rt)?.as_nanos());
        let start = Instant::now(rt)?;
        self.clock = self.clock.saturating_add(start.elapsed(rt)?.as_nanos());
        Ok(())
    }

    /// The least of both.
    fn least(self, other: Spent) -> Spent {
        Spent {
            calls: self.calls.min(other.calls),
            clock: self.clock.min(other.clock),
        }
    }

    /// How long a call of a batch took, the clock's own time taken off.
    fn each(self) -> u128 {
        self.calls.saturating_sub(self.clock) / u128::from(BATCH)
    }
}

/// Times so many tees or splices alone, if each answer was right.
fn time_batch<H: Host>(
    rt: &HostRuntime,
    host: &mut H,
    passage: &Passage,
) -> io::Result<Option<Spent>> {
    let size = passage.payload.len();
    let mut spent = Spent::NOTHING;
    for _ in 0..BATCH {
        if !counts(host, &passage.write, size) {
            return Ok(None);
        }
        let start = Instant::now(rt)?;
        let crossed = counts(host, &passage.cross, size);
        spent.add(rt, start)?;
        if !crossed {
            return Ok(None);
        }
        for read in &passage.reads {
            if !is_some(take(host, read, size)) {
                return Ok(None);
            }
        }
    }
    Ok(Some(spent))
}

/// How many nanoseconds a tee or a splice alone takes, the clock's own taken off, if each answer was right.
fn time_crossing<H: Host>(
    rt: &HostRuntime,
    host: &mut H,
    crossing: Crossing,
    size: usize,
    rounds: u32,
) -> io::Result<Option<u128>> {
    let passage = Passage::new(rt.alloc(), crossing, size)?;
    let mut least = Spent::ALL;
    for _ in 0..(rounds / BATCH).max(1) {
        let Some(spent) = time_batch(rt, host, &passage)? else {
            return Ok(None);
        };
        least = least.least(spent);
    }
    Ok(Some(least.each()))
}

/// Times so many reads that wait, and their resumes, without the writes between, if each answer was right.
fn time_waits<H: Host>(
    rt: &HostRuntime,
    host: &mut H,
    waiting: &WaitingRead,
) -> io::Result<Option<(Spent, Spent)>> {
    let size = waiting.pair.payload.len();
    let mut reads = Spent::NOTHING;
    let mut resumes = Spent::NOTHING;
    for _ in 0..BATCH {
        let start = Instant::now(rt)?;
        let parked = parks(host, &waiting.read);
        reads.add(rt, start)?;
        if !parked || !counts(host, &waiting.pair.write, size) {
            return Ok(None);
        }
        let start = Instant::now(rt)?;
        let taken = take(host, &waiting.resume, size);
        let added = resumes.add(rt, start);
        if !is_some(taken) {
            return Ok(None);
        }
        added?;
    }
    Ok(Some((reads, resumes)))
}

/// How many nanoseconds a read that waits takes alone, and its resume, if each answer was right.
fn time_wait<H: Host>(
    rt: &HostRuntime,
    host: &mut H,
    size: usize,
    rounds: u32,
) -> io::Result<Option<(u128, u128)>> {
    let waiting = WaitingRead::new(rt.alloc(), size)?;
    let mut read = Spent::ALL;
    let mut resume = Spent::ALL;
    for _ in 0..(rounds / BATCH).max(1) {
        let Some((reads, resumes)) = time_waits(rt, host, &waiting)? else {
            return Ok(None);
        };
        read = read.least(reads);
        resume = resume.least(resumes);
    }
    Ok(Some((read.each(), resume.each())))
}

/// Times so many pairs of each size through two hosts of these names, in turn.
fn time_pairs<G: Host, H: Host>(
    rt: &HostRuntime,
    name: &str,
    host: &mut G,
    beside: &str,
    other: &mut H,
    pairs: u32,
) -> io::Result<bool> {
    for size in SIZES {
        let Some(time) = time_pair(rt, host, size, pairs)? else {
            return Ok(false);
        };
        let Some(other_time) = time_pair(rt, other, size, pairs)? else {
            return Ok(false);
        };
        println!(rt; "{name} {size} bytes: {time} ns a pair; {beside}: {other_time}")?;
    }
    Ok(true)
}

/// Times so many tees, splices and waiting reads through one of them.
fn time_crossings<H: Host>(
    rt: &HostRuntime,
    host: &mut H,
    name: &str,
    rounds: u32,
) -> io::Result<bool> {
    for size in TIMED_CROSSINGS {
        let Some(tee) = time_crossing(rt, host, Crossing::Tee, size, rounds)? else {
            return Ok(false);
        };
        let Some(splice) = time_crossing(rt, host, Crossing::Splice, size, rounds)? else {
            return Ok(false);
        };
        let Some((read, resume)) = time_wait(rt, host, size, rounds)? else {
            return Ok(false);
        };
        println!(rt; "{name} {size} bytes: {tee} ns a tee, {splice} ns a splice")?;
        println!(rt; "{name} {size} bytes: {read} ns a read that waits, {resume} ns its resume")?;
    }
    Ok(true)
}

/// Times so many pairs through a hub and its plain form, and tees, splices and waiting reads through each.
fn time_both(
    rt: &HostRuntime,
    hub: &mut Hub<Global>,
    plain: &mut Plain<Global>,
    pairs: u32,
) -> io::Result<bool> {
    Ok(
        starts(plain)
            && time_pairs(rt, "hub", hub, "over an array", plain, pairs)?
            && time_crossings(rt, hub, "hub", pairs)?
            && time_crossings(rt, plain, "over an array", pairs)?,
    )
}

/// Times a hub that has started beside the plain form of its shape.
fn time_with_plain(
    rt: &HostRuntime,
    shape: Shape,
    hub: &mut Hub<Global>,
    pairs: u32,
) -> io::Result<bool> {
    let Some(mut plain) = shape.plain(rt.alloc()) else {
        return Ok(false);
    };
    time_both(rt, hub, &mut plain, pairs)
}

/// Times a hub beside its plain form and a worker.
fn time_hub<R: Wait>(
    rt: &HostRuntime,
    threads: &R,
    shape: Shape,
    hub: &mut Hub<Global>,
    pairs: u32,
) -> io::Result<bool> {
    let Shape { namespaces, frames } = shape;
    println!(rt; "{namespaces} namespaces, {frames} frames")?;
    Ok(
        starts(hub)
            && time_with_plain(rt, shape, hub, pairs)?
            && sliced::time(rt, hub, pairs)?
            && worked::time(rt, threads, shape, hub, pairs)?,
    )
}

/// Times so many pairs, tees, splices and waiting reads through both forms, and pairs through a worker, and says
/// whether each answer was right.
fn time<R: Wait>(rt: &HostRuntime, threads: &R, shape: Shape, pairs: u32) -> io::Result<bool> {
    let Some(mut hub) = shape.hub(rt.alloc()) else {
        return Ok(false);
    };
    time_hub(rt, threads, shape, &mut hub, pairs)
}

/// Plays what the command line asks for, and says whether each answer was right. `threads` is the same runtime, as what
/// may start threads and wait for them.
fn run<R: Threads + Wait + Sync>(rt: &HostRuntime, threads: &R) -> io::Result<bool> {
    let mut words = env::args(rt)?;
    let _program = words.next();
    let Some(word) = words.next() else {
        if !play_fixed(threads, rt.alloc())? {
            return Ok(false);
        }
        println!(rt;
            "played 5000 pairs, 500 tees, 500 splices and 500 waiting reads through each form and a worker"
        )?;
        println!(rt; "played 5000 pairs from slices and into them")?;
        if !served::play_fixed(threads, rt.alloc())? {
            return Ok(false);
        }
        println!(rt; "played 1000 pairs through a service, from four threads")?;
        return Ok(true);
    };
    let Ok(pairs) = word.parse::<u32>() else {
        println!(rt; "usage: pf_bench [PAIRS]")?;
        return Ok(true);
    };
    let few = Shape {
        namespaces: 2,
        frames: 64,
    };
    let many = Shape {
        namespaces: 64,
        frames: 65_536,
    };
    Ok(
        time(rt, threads, few, pairs)?
            && time(rt, threads, many, pairs)?
            && served::time(rt, threads, pairs)?,
    )
}

fn main(rt: HostRuntime) -> io::Result<ExitCode> {
    if run(&rt, &rt)? {
        return Ok(ExitCode::SUCCESS);
    }
    println!(&rt; "wrong answer")?;
    Ok(ExitCode::FAILURE)
}
