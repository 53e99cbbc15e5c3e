//! A host's event loop over 64 tenants by turns, each a build: a shell that forks pipelines of two to six processes,
//! which move a byte, a line, a block and now and then more, and wait for each other. Who can go on is asked for and
//! resumed. Tenants come and go.

use crate::host::{Host, limits, spawn};
use crate::random::{Store, below};
use pf_base::{BYTES_IN_PLACE, ByteString, Groups, Reply, Step};
use rand_pcg::Pcg32;
use std::alloc::{AllocError, Global};
use std::mem::replace;

/// How many tenants there are at once.
const TENANTS: u32 = 64;

/// How many pages each of them reserves.
const RESERVE: u32 = 160;

/// How many tenants a hub sees at most.
const MOST_TENANTS: u32 = 512;

/// No descriptor.
const NONE: u32 = 256;

/// A process of a pipeline, with where it reads and where it writes.
#[derive(Clone, Copy, Drop)]
struct Stage {
    pid: u32,
    input: u32,
    output: u32,
}

/// How far a tenant's build is.
#[derive(Clone, Copy, PartialEq, Eq)]
enum Phase {
    Begins,
    Starts,
    Flows(u32),
    Ends,
    IsOver,
}

/// A tenant's build.
#[derive(Drop)]
struct Build {
    ns: u32,
    random: Pcg32,
    phase: Phase,
    pipelines: u32,
    stages: Vec<Stage>,
}

/// How many bytes a write has.
fn size(random: &mut Pcg32) -> usize {
    let kind = below(random, 10_000);
    if kind < 1_000 {
        1
    } else if kind < 7_500 {
        20 + below(random, 181) as usize
    } else if kind < 9_960 {
        4_096
    } else if kind < 9_998 {
        65_536
    } else {
        1_048_576
    }
}

fn read(pid: u32, fd: u32) -> Step {
    Step::Read { pid, fd, n: 65_536 }
}

/// A shell gives back a token of its pipe.
fn token() -> Step {
    Step::Write {
        pid: 1,
        fd: 1,
        payload: ByteString::in_place([b'+'; BYTES_IN_PLACE], 1),
    }
}

impl Build {
    fn new(alloc: Global, ns: u32, seed: u64) -> Build {
        let mut random = Pcg32::new(seed, u64::from(ns));
        let pipelines = 1 + below(&mut random, 6);
        Build {
            ns,
            random,
            phase: Phase::Begins,
            pipelines,
            stages: Vec::new(alloc),
        }
    }

    /// The build is over, and its tenant goes. Another one comes in its place, where not yet so many have been there.
    fn change(&mut self, alloc: Global, host: &mut Host, seed: u64, tenants: u32) {
        if host.hub.retire(self.ns).is_err() {
            host.digest.add(15);
            return;
        }
        if host.hub.namespaces() as u32 >= tenants {
            return;
        }
        let Some((config, tree)) = limits(alloc, RESERVE) else {
            return;
        };
        let Ok(ns) = host.hub.admit(config, tree) else {
            host.digest.add(16);
            return;
        };
        host.digest.add(u64::from(ns));
        drop(replace(self, Build::new(alloc, ns, seed)));
    }

    /// Goes on by one phase.
    fn go_on(&mut self, alloc: Global, host: &mut Host, store: &Store) -> Result<(), AllocError> {
        match self.phase {
            Phase::Begins => {
                self.begin(host);
                Ok(())
            }
            Phase::Starts => self.start(host),
            Phase::Flows(0) => {
                self.phase = Phase::Ends;
                Ok(())
            }
            Phase::Flows(rounds) => {
                self.phase = Phase::Flows(rounds - 1);
                self.flow(alloc, host, store)
            }
            Phase::Ends => {
                self.end(host);
                Ok(())
            }
            Phase::IsOver => Ok(()),
        }
    }

    /// The shell, with a pipe of tokens, and processes of its own beside: few, and of some tenants many.
    fn begin(&mut self, host: &mut Host) {
        host.make(self.ns, spawn(1_000 + self.ns % 1_000, Groups::none()));
        let _ = host.pipe(self.ns, 1);
        for _ in 0..4 {
            host.make(self.ns, token());
        }
        let beside = if self.ns % 16 == 0 {
            60 + below(&mut self.random, 40)
        } else {
            below(&mut self.random, 8)
        };
        for _ in 0..beside {
            let _ = host.fork(self.ns, 1);
        }
        self.phase = Phase::Starts;
    }

    /// A pipeline: a pipe between each process and the next one. A child keeps the ends that it needs.
    fn start(&mut self, host: &mut Host) -> Result<(), AllocError> {
        host.make(
            self.ns,
            Step::Read {
                pid: 1,
                fd: 0,
                n: 1,
            },
        );
        let last = 1 + below(&mut self.random, 5);
        let mut before = NONE;
        for place in 0..=last {
            let (reading, writing) = if place < last {
                host.pipe(self.ns, 1)
            } else {
                (NONE, NONE)
            };
            let pid = host.fork(self.ns, 1);
            let mut stage = Stage {
                pid,
                input: NONE,
                output: NONE,
            };
            if place < last {
                host.close(self.ns, pid, reading);
                stage.output = host.moved(self.ns, pid, writing);
                host.close(self.ns, 1, writing);
            }
            if before != NONE {
                stage.input = host.moved(self.ns, pid, before);
                host.close(self.ns, 1, before);
            }
            before = reading;
            self.stages.push(stage)?;
        }
        for stage in &self.stages {
            if stage.input != NONE {
                host.make(self.ns, read(stage.pid, stage.input));
            }
        }
        self.phase = Phase::Flows(3 + below(&mut self.random, 14));
        Ok(())
    }

    /// The stage of a process.
    fn stage(&self, pid: u32) -> Option<Stage> {
        for stage in &self.stages {
            if stage.pid == pid {
                return Some(*stage);
            }
        }
        None
    }

    /// The first process writes; then whoever can go on does.
    fn flow(&mut self, alloc: Global, host: &mut Host, store: &Store) -> Result<(), AllocError> {
        let Some(first) = self.stages.as_slice().first().copied() else {
            return Ok(());
        };
        let size = size(&mut self.random);
        let payload = store.cut(alloc, &mut self.random, size)?;
        host.ask_readiness(self.ns, first.pid, first.output);
        host.make(
            self.ns,
            Step::Write {
                pid: first.pid,
                fd: first.output,
                payload,
            },
        );
        self.resume_all(host);
        Ok(())
    }

    /// Resumes whoever can go on, until nobody can. What a process has read it writes, and then it reads again.
    fn resume_all(&mut self, host: &mut Host) {
        for _ in 0..100_000 {
            let Some(pid) = host.next_to_go_on(self.ns, 0) else {
                return;
            };
            let reply = host.tell(self.ns, Step::Resume { pid });
            match self.stage(pid) {
                Some(stage) => self.follow(host, stage, reply),
                None => drop(reply),
            }
        }
    }

    /// What a process does after its call: at the end of its input it exits.
    fn follow(&self, host: &mut Host, stage: Stage, reply: Reply) {
        match reply {
            Reply::Bytes(bytes) => self.pass_on(host, stage, bytes),
            Reply::Num(_) if stage.input != NONE => {
                host.make(self.ns, read(stage.pid, stage.input));
            }
            _ => drop(reply),
        }
    }

    /// What a process has read goes to the next one.
    fn pass_on(&self, host: &mut Host, stage: Stage, bytes: ByteString) {
        if bytes.as_slice().is_empty() {
            drop(bytes);
            host.exit(self.ns, stage.pid);
            return;
        }
        if stage.output == NONE {
            drop(bytes);
        } else {
            let write = Step::Write {
                pid: stage.pid,
                fd: stage.output,
                payload: bytes,
            };
            if host.waits(self.ns, write) {
                return;
            }
        }
        host.make(self.ns, read(stage.pid, stage.input));
    }

    /// The first process exits, and with the end of its input each after it; the token goes back. After its last
    /// pipeline the tenant's processes exit.
    fn end(&mut self, host: &mut Host) {
        if let Some(first) = self.stages.as_slice().first().copied() {
            host.exit(self.ns, first.pid);
        }
        self.resume_all(host);
        self.stages.clear();
        host.make(self.ns, token());
        self.pipelines = self.pipelines.saturating_sub(1);
        self.phase = Phase::Starts;
        if self.pipelines == 0 {
            for pid in 1..=110 {
                if host.fails(self.ns, Step::Exit { pid }) {
                    break;
                }
            }
            self.phase = Phase::IsOver;
        }
    }
}

/// The builds of the tenants that a hub opens with.
fn all_begin(alloc: Global, seed: u64) -> Result<Vec<Build>, AllocError> {
    (0..TENANTS)
        .map(|ns| Build::new(alloc, ns, seed))
        .collect(alloc)
}

/// Each build goes on by one phase, by turns, and whoever is done is followed by another tenant, until so many have
/// been there.
fn play_builds(
    alloc: Global,
    host: &mut Host,
    seed: u64,
    store: &Store,
    builds: &mut [Build],
    tenants: u32,
) -> Result<(), AllocError> {
    let mut over: u32 = 0;
    for _ in 0..100_000 {
        if over >= TENANTS {
            break;
        }
        over = 0;
        for build in builds.iter_mut() {
            build.go_on(alloc, host, store)?;
            if build.phase == Phase::IsOver {
                build.change(alloc, host, seed, tenants);
            }
            if build.phase == Phase::IsOver {
                over = over.saturating_add(1);
            }
        }
    }
    Ok(())
}

/// Plays the builds of one hub.
fn play_tenants(
    alloc: Global,
    host: &mut Host,
    seed: u64,
    store: &Store,
    tenants: u32,
) -> Result<(), AllocError> {
    let mut builds = all_begin(alloc, seed)?;
    let played = play_builds(alloc, host, seed, store, &mut builds, tenants);
    drop(builds);
    played
}

/// The same over a hub of its own, and gives how many steps were made, and the digest.
fn play_hub(
    alloc: Global,
    seed: u64,
    store: &Store,
    tenants: u32,
) -> Result<Option<(u64, u64)>, AllocError> {
    let Some(mut host) = Host::new(alloc, TENANTS, RESERVE)? else {
        return Ok(None);
    };
    let played = play_tenants(alloc, &mut host, seed, store, tenants);
    let told = host.end();
    played?;
    Ok(Some(told))
}

/// Plays so many hubs one after the other, and gives how many steps were made, and the digest.
pub(crate) fn play(
    alloc: Global,
    seed: u64,
    hubs: u32,
    tenants: u32,
) -> Result<Option<(u64, u64)>, AllocError> {
    let mut random = Pcg32::new(seed, 1_000_000);
    let store = Store::new(alloc, &mut random)?;
    let mut steps: u64 = 0;
    let mut value: u64 = 0;
    for hub in 0..hubs {
        let part = seed.wrapping_mul(1_000).wrapping_add(u64::from(hub));
        let told = play_hub(alloc, part, &store, tenants.min(MOST_TENANTS))?;
        let Some((made, digest)) = told else {
            return Ok(None);
        };
        steps = steps.saturating_add(made);
        value = value.rotate_left(9) ^ digest;
    }
    Ok(Some((steps, value)))
}
