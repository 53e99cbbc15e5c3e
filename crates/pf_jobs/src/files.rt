//! Files as a sandbox has them: some directories of thousands of names, many of a few dozens, and one path of more than
//! a hundred directories. They are made, asked for, opened by both sides, listed and unlinked, in the order of their
//! names, backwards and mixed, by users of whom some may not, one of them in 32 groups.

use crate::host::{Host, spawn};
use crate::random::{Store, below, shuffled};
use bitflags::Flags;
use pf_base::{ByteString, Groups, OpenFlags, Step};
use rand_pcg::Pcg32;
use std::alloc::{AllocError, Global};

/// How many directories of a few dozens of names there are for each large one.
const SMALL: u32 = 40;

/// How many names a small directory has.
const FEW: u32 = 50;

/// How deep the deepest directory lies.
const DEEP: u32 = 110;

/// How many users there are: the processes 1 to 4, the first one privileged.
const USERS: u32 = 4;

/// Paths of directories and FIFOs.
#[derive(Drop)]
struct Paths {
    directories: Vec<ByteString>,
    fifos: Vec<ByteString>,
}

fn text(alloc: Global, text: String) -> Result<ByteString, AllocError> {
    ByteString::from_slice(alloc, text.as_str().as_bytes())
}

impl Paths {
    /// Large directories of so many names each, small ones between two and nine deep, and a deep one.
    fn new(alloc: Global, random: &mut Pcg32, many: u32) -> Result<Paths, AllocError> {
        let mut paths = Paths {
            directories: Vec::new(alloc),
            fifos: Vec::new(alloc),
        };
        let word = below(random, 1_000_000);
        for name in ["objects", "spool", "run"] {
            let home = format!(in alloc; "/{name}{word}")?;
            paths.add(alloc, random, &home, many)?;
        }
        for number in 0..SMALL {
            let mut home = format!(in alloc; "/source{}", number / 8)?;
            if number % 8 == 0 {
                paths.add(alloc, random, &home, 2)?;
            }
            for level in 0..=number % 8 {
                home = format!(in alloc; "{home}/module{number}_{level}")?;
                paths.add(
                    alloc,
                    random,
                    &home,
                    if level == number % 8 { FEW } else { 1 },
                )?;
            }
        }
        let mut home = String::new(alloc);
        for level in 0..DEEP {
            home = format!(in alloc; "{home}/d{}", level % 10)?;
            paths.add(alloc, random, &home, level / (DEEP - 1) * 20)?;
        }
        Ok(paths)
    }

    /// A directory and so many names in it.
    fn add(
        &mut self,
        alloc: Global,
        random: &mut Pcg32,
        home: &String,
        names: u32,
    ) -> Result<(), AllocError> {
        self.directories.push(text(alloc, home.clone()?)?)?;
        let first = below(random, 100_000);
        for place in 0..names {
            let number = first.wrapping_add(place);
            let path = match number % 4 {
                0 => format!(in alloc; "{home}/job-{number:06}.stdout")?,
                1 => format!(in alloc; "{home}/job-{number:06}.stderr")?,
                2 => format!(in alloc; "{home}/{number:x}")?,
                _ => format!(in alloc; "{home}/lock.{number}")?,
            };
            self.fifos.push(text(alloc, path)?)?;
        }
        Ok(())
    }
}

/// The users: root, one of the files' owner, one in 32 groups, and one that has no part in them.
fn begin(alloc: Global, host: &mut Host) -> Result<(), AllocError> {
    let mut ids = Vec::new(alloc);
    for id in 0..32 {
        ids.push(2_000 + id)?;
    }
    host.make(0, spawn(0, Groups::none()));
    host.make(0, spawn(1_000, Groups::none()));
    host.make(0, spawn(1_001, Groups::new(alloc, ids)?));
    host.make(0, spawn(1_002, Groups::none()));
    Ok(())
}

fn chmod(alloc: Global, pid: u32, path: &ByteString, mode: u32) -> Result<Step, AllocError> {
    Ok(Step::Chmod {
        pid,
        path: path.copy(alloc)?,
        mode,
    })
}

fn mkfifo(alloc: Global, pid: u32, path: &ByteString) -> Result<Step, AllocError> {
    Ok(Step::Mkfifo {
        pid,
        path: path.copy(alloc)?,
        mode: 0o660,
    })
}

fn unlink(alloc: Global, pid: u32, path: &ByteString) -> Result<Step, AllocError> {
    Ok(Step::Unlink {
        pid,
        path: path.copy(alloc)?,
    })
}

fn open(alloc: Global, pid: u32, path: &ByteString, flags: u32) -> Result<Step, AllocError> {
    Ok(Step::Open {
        pid,
        path: path.copy(alloc)?,
        flags: OpenFlags::from_bits_retain(flags),
    })
}

/// Makes all directories, which all may search and write to, and all FIFOs, in this order.
fn make(
    alloc: Global,
    host: &mut Host,
    random: &mut Pcg32,
    paths: &Paths,
    order: &[u32],
) -> Result<(), AllocError> {
    for directory in &paths.directories {
        let made = Step::Mkdir {
            pid: 1,
            path: directory.copy(alloc)?,
            mode: 0o755,
        };
        host.make(0, made);
        let mode = if below(random, 16) == 0 { 0o750 } else { 0o777 };
        host.make(0, chmod(alloc, 1, directory, mode)?);
    }
    for at in order {
        if let Some(path) = paths.fifos.as_slice().get(*at as usize) {
            let pid = if below(random, 8) == 0 { 1 } else { 2 };
            host.make(0, mkfifo(alloc, pid, path)?);
        }
    }
    Ok(())
}

/// Opens both sides of a FIFO, sends a line through, and closes them.
fn send(
    alloc: Global,
    host: &mut Host,
    random: &mut Pcg32,
    store: &Store,
    path: &ByteString,
) -> Result<(), AllocError> {
    let pid = 1 + below(random, USERS);
    let Some(reader) = host.number(0, open(alloc, pid, path, 5)?) else {
        return Ok(());
    };
    let reader = (reader % 256) as u32;
    if let Some(writer) = host.number(0, open(alloc, pid, path, 2)?) {
        let fd = (writer % 256) as u32;
        let size = 20 + below(random, 100) as usize;
        let payload = store.cut(alloc, random, size)?;
        host.make(0, Step::Write { pid, fd, payload });
        host.make(
            0,
            Step::Read {
                pid,
                fd: reader,
                n: 4_096,
            },
        );
        host.close(0, pid, fd);
    }
    host.close(0, pid, reader);
    Ok(())
}

/// A path at which nothing is.
fn missing(alloc: Global, path: &ByteString) -> Result<ByteString, AllocError> {
    let mut missing = Vec::from_slice(alloc, path.as_slice())?;
    missing.push(b'~')?;
    ByteString::new(alloc, missing)
}

/// One call or a few on a FIFO or a directory.
fn use_one(
    alloc: Global,
    host: &mut Host,
    random: &mut Pcg32,
    store: &Store,
    paths: &Paths,
) -> Result<(), AllocError> {
    let (fifos, directories) = (paths.fifos.as_slice(), paths.directories.as_slice());
    let many = fifos.len().min(1_000_000) as u32;
    let few = directories.len().min(1_000_000) as u32;
    if many == 0 || few == 0 {
        return Ok(());
    }
    let Some(path) = fifos.get(below(random, many) as usize) else {
        return Ok(());
    };
    let pid = 1 + below(random, USERS);
    match below(random, 100) {
        0..50 => {
            host.make(
                0,
                Step::Stat {
                    pid,
                    path: path.copy(alloc)?,
                },
            );
        }
        50..60 => {
            let mode = 0o600 + below(random, 64);
            host.make(0, chmod(alloc, pid, path, mode)?);
        }
        60..80 => send(alloc, host, random, store, path)?,
        80..84 => {
            // The three large ones come first: they are listed seldom.
            let at = if below(random, 40) == 0 || few < 4 {
                below(random, few)
            } else {
                below(random, few - 3).saturating_add(3)
            };
            if let Some(directory) = directories.get(at as usize) {
                host.make(
                    0,
                    Step::List {
                        pid,
                        path: directory.copy(alloc)?,
                    },
                );
            }
        }
        84..90 => {
            let path = missing(alloc, path)?;
            host.make(0, Step::Stat { pid, path });
        }
        _ => {
            host.make(0, unlink(alloc, 1 + pid % 2, path)?);
            host.make(0, mkfifo(alloc, 2, path)?);
        }
    }
    Ok(())
}

/// The places of all FIFOs: in the order in which they were named, backwards or mixed.
fn order(
    alloc: Global,
    random: &mut Pcg32,
    count: u32,
    which: u32,
) -> Result<Vec<u32>, AllocError> {
    if which % 3 == 2 {
        return shuffled(alloc, random, count);
    }
    let mut order = Vec::with_capacity(alloc, count as usize)?;
    for place in 0..count {
        order.push(if which % 3 == 0 {
            place
        } else {
            count - 1 - place
        })?;
    }
    Ok(order)
}

/// All paths of a tree are made in one order, used, and unlinked in another.
fn play_paths(
    alloc: Global,
    host: &mut Host,
    random: &mut Pcg32,
    store: &Store,
    paths: &Paths,
    tree: u32,
    scale: u32,
) -> Result<(), AllocError> {
    let count = paths.fifos.len().min(1_000_000) as u32;
    let first = order(alloc, random, count, tree)?;
    make(alloc, host, random, paths, first.as_slice())?;
    drop(first);
    for _ in 0..scale.saturating_mul(1_000) {
        use_one(alloc, host, random, store, paths)?;
    }
    for at in order(alloc, random, count, tree.wrapping_add(1))? {
        if let Some(path) = paths.fifos.as_slice().get(at as usize) {
            host.make(0, unlink(alloc, 1, path)?);
        }
    }
    Ok(())
}

/// The same by the users, over paths of its own.
fn play_tree(
    alloc: Global,
    host: &mut Host,
    random: &mut Pcg32,
    store: &Store,
    tree: u32,
    scale: u32,
) -> Result<(), AllocError> {
    begin(alloc, host)?;
    let paths = Paths::new(alloc, random, scale.saturating_mul(22))?;
    let played = play_paths(alloc, host, random, store, &paths, tree, scale);
    drop(paths);
    played
}

/// The same over a hub of its own, and how many steps were made, and the digest.
fn play_hub(
    alloc: Global,
    random: &mut Pcg32,
    store: &Store,
    tree: u32,
    scale: u32,
) -> Result<Option<(u64, u64)>, AllocError> {
    let Some(mut host) = Host::new(alloc, 1, 64)? else {
        return Ok(None);
    };
    let played = play_tree(alloc, &mut host, random, store, tree, scale);
    let told = host.end();
    played?;
    Ok(Some(told))
}

/// Plays so many trees, and gives how many steps were made, and the digest.
pub(crate) fn play(
    alloc: Global,
    seed: u64,
    trees: u32,
    scale: u32,
) -> Result<Option<(u64, u64)>, AllocError> {
    let mut random = Pcg32::new(seed, 2_000_000);
    let store = Store::new(alloc, &mut random)?;
    let mut steps: u64 = 0;
    let mut value: u64 = 0;
    for tree in 0..trees {
        let Some((made, digest)) = play_hub(alloc, &mut random, &store, tree, scale)? else {
            return Ok(None);
        };
        steps = steps.saturating_add(made);
        value = value.rotate_left(9) ^ digest;
    }
    Ok(Some((steps, value)))
}
