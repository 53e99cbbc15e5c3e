//! What is awkward for pipes: a payload of 1 MiB to a full pipe, which goes on page by page; pages of one byte and
//! pages that two pipes share, read and spliced in small pieces; fork and exit of a process with all descriptors; all
//! processes parked on one pipe; a read that asks for as much as can be asked for; a pool that is used up.

use crate::host::{Host, spawn};
use crate::random::{Store, below};
use pf_base::{ByteString, Groups, Step};
use rand_pcg::Pcg32;
use std::alloc::{AllocError, Global};

/// How many pages each of the two tenants reserves.
const RESERVE: u32 = 600;

const MIB: usize = 1_048_576;

fn write(pid: u32, fd: u32, payload: ByteString) -> Step {
    Step::Write { pid, fd, payload }
}

fn read(pid: u32, fd: u32, n: u64) -> Step {
    Step::Read { pid, fd, n }
}

/// From here on no call waits by this descriptor.
fn wait_no_more(host: &mut Host, ns: u32, pid: u32, fd: u32) {
    let on = true;
    host.make(ns, Step::SetNonblock { pid, fd, on });
}

/// Resumes whoever can go on, as often as somebody can, but so many times at most.
fn resume_all(host: &mut Host, ns: u32, most: u32) {
    let mut after = 0;
    for _ in 0..most {
        let Some(pid) = host.next_to_go_on(ns, after) else {
            if after == 0 {
                return;
            }
            after = 0;
            continue;
        };
        host.make(ns, Step::Resume { pid });
        after = pid;
    }
}

/// A writer waits with 1 MiB, and gets on as a reader makes room, a page or less at a time, until the reader waits.
fn drip(
    alloc: Global,
    host: &mut Host,
    random: &mut Pcg32,
    store: &Store,
) -> Result<(), AllocError> {
    let (reading, writing) = host.pipe(0, 1);
    let (writer, reader) = (host.fork(0, 1), host.fork(0, 1));
    let first = store.cut(alloc, random, 61_000)?;
    host.make(0, write(1, writing, first));
    let all = store.cut(alloc, random, MIB)?;
    host.make(0, write(writer, writing, all));
    for _ in 0..600 {
        let n = 1_024 + u64::from(below(random, 3_072));
        if host.waits(0, read(reader, reading, n)) {
            break;
        }
        host.make(0, Step::Resume { pid: writer });
    }
    host.exit(0, writer);
    host.exit(0, reader);
    host.close(0, 1, reading);
    host.close(0, 1, writing);
    Ok(())
}

/// Two pipes: bytes are teed and spliced from one to the other in small pieces, and read in other pieces.
fn cross(
    alloc: Global,
    host: &mut Host,
    random: &mut Pcg32,
    store: &Store,
) -> Result<(), AllocError> {
    let (reading, writing) = host.pipe(1, 1);
    wait_no_more(host, 1, 1, writing);
    let (other_reading, other_writing) = host.pipe(1, 1);
    host.make(
        1,
        Step::SetSize {
            pid: 1,
            fd: other_writing,
            bytes: 1_048_576,
        },
    );
    for _ in 0..24 {
        let size = 1 + below(random, 6_000) as usize;
        let payload = store.cut(alloc, random, size)?;
        host.make(1, write(1, writing, payload));
        for _ in 0..12 {
            let n = 1 + u64::from(below(random, 3));
            let (pid, source, sink, nonblock) = (1, reading, other_writing, true);
            let step = if below(random, 2) == 0 {
                Step::Tee {
                    pid,
                    source,
                    sink,
                    n,
                    nonblock,
                }
            } else {
                Step::Splice {
                    pid,
                    source,
                    sink,
                    n,
                    nonblock,
                }
            };
            host.make(1, step);
        }
        let n = u64::from(below(random, 5_000)) + 1;
        host.make(
            1,
            Step::Splice {
                pid: 1,
                source: reading,
                sink: other_writing,
                n,
                nonblock: true,
            },
        );
        host.ask_readiness(1, 1, other_reading);
        let most = u64::from(below(random, 200)) + 1;
        host.make(1, read(1, other_reading, most));
    }
    for fd in [reading, writing, other_reading, other_writing] {
        host.close(1, 1, fd);
    }
    Ok(())
}

/// A process with all descriptors forks, and its children exit.
fn crowd_of_descriptors(host: &mut Host, random: &mut Pcg32) {
    let parent = host.fork(0, 1);
    let (_, writing) = host.pipe(0, parent);
    for _ in 0..260 {
        if host.fails(
            0,
            Step::Dup {
                pid: parent,
                fd: writing,
            },
        ) {
            break;
        }
    }
    for _ in 0..4 {
        let child = host.fork(0, parent);
        for _ in 0..below(random, 40) {
            host.close(0, child, below(random, 256));
        }
        host.exit(0, child);
    }
    host.exit(0, parent);
}

/// As many processes as there can be wait on one pipe, and are served one by one.
fn crowd_of_readers(
    alloc: Global,
    host: &mut Host,
    random: &mut Pcg32,
    store: &Store,
) -> Result<(), AllocError> {
    let (reading, writing) = host.pipe(1, 1);
    let mut readers = Vec::new(alloc);
    for _ in 0..254 {
        let pid = host.fork(1, 1);
        if pid == 0 {
            break;
        }
        readers.push(pid)?;
        host.make(1, read(pid, reading, 1 + u64::from(below(random, 8))));
    }
    for _ in 0..40 {
        let size = 1 + below(random, 30) as usize;
        let payload = store.cut(alloc, random, size)?;
        host.make(1, write(1, writing, payload));
        resume_all(host, 1, 20);
        host.ask_readiness(1, 1, reading);
    }
    for pid in &readers {
        host.exit(1, *pid);
    }
    host.close(1, 1, reading);
    host.close(1, 1, writing);
    Ok(())
}

/// A read that asks for all that can be asked for waits, and gets little each time.
fn greedy(
    alloc: Global,
    host: &mut Host,
    random: &mut Pcg32,
    store: &Store,
) -> Result<(), AllocError> {
    let (reading, writing) = host.pipe(0, 1);
    let reader = host.fork(0, 1);
    for _ in 0..100 {
        host.make(0, read(reader, reading, u64::MAX));
        let size = 1 + below(random, 9_000) as usize;
        let payload = store.cut(alloc, random, size)?;
        host.make(0, write(1, writing, payload));
        resume_all(host, 0, 4);
    }
    host.exit(0, reader);
    host.close(0, 1, reading);
    host.close(0, 1, writing);
    Ok(())
}

/// Pipes until the reservation is used up, each of which is filled, in part or wholly; then they are grown and shrunk,
/// which most often is refused.
fn use_up(
    alloc: Global,
    host: &mut Host,
    random: &mut Pcg32,
    store: &Store,
) -> Result<(), AllocError> {
    let owner = host.fork(0, 1);
    let mut ends = Vec::new(alloc);
    for _ in 0..60 {
        let (reading, writing) = host.pipe(0, owner);
        if reading == 255 {
            break;
        }
        wait_no_more(host, 0, owner, writing);
        ends.push((reading, writing))?;
    }
    for (_, writing) in &ends {
        let size = 20_000 + below(random, 45_000) as usize;
        let payload = store.cut(alloc, random, size)?;
        host.make(0, write(owner, *writing, payload));
    }
    for (reading, writing) in &ends {
        for bytes in [131_072, 4_096, 65_536] {
            host.make(
                0,
                Step::SetSize {
                    pid: owner,
                    fd: *writing,
                    bytes,
                },
            );
        }
        host.make(
            0,
            read(owner, *reading, 1 + u64::from(below(random, 70_000))),
        );
    }
    host.exit(0, owner);
    Ok(())
}

/// A directory with as many names as there can be, listed after each 250th name that comes.
fn list(alloc: Global, host: &mut Host, random: &mut Pcg32, names: u32) -> Result<(), AllocError> {
    let first = below(random, 1_000_000);
    for place in 0..names {
        let path = format!(in alloc; "/{}", first.wrapping_add(place.wrapping_mul(7)))?;
        host.make(
            0,
            Step::Mkfifo {
                pid: 1,
                path: ByteString::from_slice(alloc, path.as_str().as_bytes())?,
                mode: 0o600,
            },
        );
        drop(path);
        if place % 250 == 0 {
            host.make(
                0,
                Step::List {
                    pid: 1,
                    path: ByteString::in_place([b'/'; 14], 1),
                },
            );
        }
    }
    Ok(())
}

/// Plays so many rounds of all of these over one hub.
fn play_rounds(
    alloc: Global,
    host: &mut Host,
    random: &mut Pcg32,
    store: &Store,
    rounds: u32,
) -> Result<(), AllocError> {
    for ns in 0..2 {
        host.make(ns, spawn(1_000, Groups::none()));
    }
    for _ in 0..rounds {
        drip(alloc, host, random, store)?;
        for _ in 0..8 {
            cross(alloc, host, random, store)?;
        }
        for _ in 0..4 {
            crowd_of_descriptors(host, random);
        }
        crowd_of_readers(alloc, host, random, store)?;
        greedy(alloc, host, random, store)?;
        use_up(alloc, host, random, store)?;
    }
    let names = if rounds > 1 { 10_000 } else { 300 };
    list(alloc, host, random, names)
}

/// The same over a hub of its own, and how many steps were made, and the digest.
fn play_hub(
    alloc: Global,
    random: &mut Pcg32,
    store: &Store,
    rounds: u32,
) -> Result<Option<(u64, u64)>, AllocError> {
    let Some(mut host) = Host::new(alloc, 2, RESERVE)? else {
        return Ok(None);
    };
    let played = play_rounds(alloc, &mut host, random, store, rounds);
    let told = host.end();
    played?;
    Ok(Some(told))
}

/// Plays so many hubs, each with so many rounds, and gives how many steps were made, and the digest.
pub(crate) fn play(
    alloc: Global,
    seed: u64,
    hubs: u32,
    rounds: u32,
) -> Result<Option<(u64, u64)>, AllocError> {
    let mut random = Pcg32::new(seed, 3_000_000);
    let store = Store::new(alloc, &mut random)?;
    let mut steps: u64 = 0;
    let mut value: u64 = 0;
    for _ in 0..hubs {
        let Some((made, digest)) = play_hub(alloc, &mut random, &store, rounds)? else {
            return Ok(None);
        };
        steps = steps.saturating_add(made);
        value = value.rotate_left(9) ^ digest;
    }
    Ok(Some((steps, value)))
}
