//! Steps by a generator of random numbers: of each kind, on few processes, descriptors and paths, so that they meet.

ghost use Rattle.std.specs.Prelude.{◌<◌};

use bitflags::Flags;
use pf_base::{ByteString, Groups, OpenFlags, Step};
use rand_core::utils::NextWord;
use rand_pcg::Pcg32;
use std::alloc::{AllocError, Global};

const PATHS: [&str; 16] = [
    "/",
    "/a",
    "/b",
    "/c",
    "/d",
    "/d/",
    "/d/a",
    "/d/b",
    "/d/../a",
    "/e/./f",
    "/e",
    "/e/f/",
    "//c",
    "..",
    "",
    "/a_name_of_more_bytes_than_lie_in_place",
];

const MODES: [u32; 8] = [0o777, 0o755, 0o700, 0o600, 0o666, 0o070, 0o007, 0o1000];

const COUNTS: [u64; 8] = [0, 1, 5, 100, 4_095, 4_096, 4_097, 70_000];

const SIZES: [u64; 8] = [
    0,
    4_096,
    4_097,
    8_192,
    65_536,
    131_072,
    1_048_577,
    2_147_483_649,
];

/// A number below this one.
fn below(random: &mut Pcg32, bound: u32) -> u32
    requires { 0 < bound }
    ensures { result < bound }
{
    random.next_word() % bound
}

/// A process: there are seldom more.
fn pid(random: &mut Pcg32) -> u32 {
    below(random, 8) + 1
}

fn fd(random: &mut Pcg32) -> u32 {
    below(random, 10)
}

fn flag(random: &mut Pcg32) -> bool {
    below(random, 2) == 1
}

fn mode(random: &mut Pcg32) -> u32 {
    MODES[below(random, 8) as usize]
}

fn count(random: &mut Pcg32) -> u64 {
    COUNTS[below(random, 8) as usize]
}

fn path(alloc: Global, random: &mut Pcg32) -> Result<ByteString, AllocError> {
    ByteString::from_slice(alloc, PATHS[below(random, 16) as usize].as_bytes())
}

fn payload(alloc: Global, random: &mut Pcg32) -> Result<ByteString, AllocError> {
    let byte = below(random, 256) as u8;
    ByteString::new(alloc, Vec::from_elem(alloc, byte, count(random) as usize)?)
}

/// A process comes, with another's descriptors or with none, or goes. So many go that all numbers up to 32 are seldom
/// taken, and none above them stays for ever.
fn process(alloc: Global, random: &mut Pcg32) -> Result<Step, AllocError> {
    Ok(match below(random, 8) {
        0 => Step::Spawn {
            uid: below(random, 3),
            gid: below(random, 3),
            groups: Groups::new(alloc, Vec::from_elem(alloc, 2, below(random, 6) as usize)?)?,
            umask: MODES[below(random, 7) as usize],
        },
        1 => Step::Fork { pid: pid(random) },
        _ => Step::Exit {
            pid: below(random, 32) + 1,
        },
    })
}

/// A step on descriptors, or on a pipe's size.
fn descriptor(random: &mut Pcg32) -> Step {
    let (pid, fd) = (pid(random), fd(random));
    match below(random, 7) {
        0 => Step::Pipe {
            pid,
            nonblock: flag(random),
        },
        1 => Step::Dup { pid, fd },
        2 | 3 => Step::Close { pid, fd },
        4 => Step::SetNonblock {
            pid,
            fd,
            on: flag(random),
        },
        5 => Step::SetSize {
            pid,
            fd,
            bytes: SIZES[below(random, 8) as usize],
        },
        _ => Step::GetSize { pid, fd },
    }
}

/// A transfer, or a Resume.
fn transfer(alloc: Global, random: &mut Pcg32) -> Result<Step, AllocError> {
    let (pid, fd, n) = (pid(random), fd(random), count(random));
    Ok(match below(random, 7) {
        0 | 1 => Step::Read { pid, fd, n },
        2 | 3 => Step::Write {
            pid,
            fd,
            payload: payload(alloc, random)?,
        },
        4 => Step::Tee {
            pid,
            source: fd,
            sink: below(random, 10),
            n,
            nonblock: flag(random),
        },
        5 => Step::Splice {
            pid,
            source: fd,
            sink: below(random, 10),
            n,
            nonblock: flag(random),
        },
        _ => Step::Resume { pid },
    })
}

/// A step on files.
fn file(alloc: Global, random: &mut Pcg32) -> Result<Step, AllocError> {
    let (pid, path) = (pid(random), path(alloc, random)?);
    Ok(match below(random, 9) {
        0 => Step::Mkdir {
            pid,
            path,
            mode: mode(random),
        },
        1 => Step::Mkfifo {
            pid,
            path,
            mode: mode(random),
        },
        2 => Step::Unlink { pid, path },
        3 => Step::Rmdir { pid, path },
        4 => Step::Chmod {
            pid,
            path,
            mode: mode(random),
        },
        5 => Step::Stat { pid, path },
        6 => Step::List { pid, path },
        _ => Step::Open {
            pid,
            path,
            flags: OpenFlags::from_bits_retain(below(random, 8)),
        },
    })
}

/// Some step.
pub(crate) fn step(alloc: Global, random: &mut Pcg32) -> Result<Step, AllocError> {
    match below(random, 10) {
        0 => process(alloc, random),
        1 | 2 => Ok(descriptor(random)),
        3 | 4 => file(alloc, random),
        _ => transfer(alloc, random),
    }
}
