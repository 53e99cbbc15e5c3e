//! The jobs that a host waits for, on inputs that a seed makes. Those of one hub: builds of many tenants by turns,
//! files as a sandbox has them, and what is awkward for pipes. Those of the replayer: long scripts, on one thread and on
//! a thread for each name. And that of a service, which several threads call. Each prints how much was played, and a
//! digest of what was told.
#![tactic(auto)]

mod awkward;
mod builds;
mod digest;
mod files;
mod host;
mod random;
mod replays;
mod served;

use crate::replays::Sums;
use std::process::ExitCode;
use std::sync::Wait;
use std::thread::Threads;
use std::{env, io};

/// What is played where no words say what, each with its seed.
const SMALL: [(&str, u32); 6] = [
    ("builds", 1),
    ("files", 1),
    ("awkward", 1),
    ("replay", 1),
    ("threads", 1),
    ("served", 52),
];

/// How much of a job is done.
#[derive(Clone, Copy, PartialEq, Eq)]
enum Extent {
    Whole,
    Small,
}

/// How a job ended.
#[derive(Clone, Copy, PartialEq, Eq)]
enum End {
    /// It was played, and what it came to is printed.
    Told,
    /// There is no such job, its seed is no number, or no hub was made for it.
    Unknown,
    /// A service refused a call.
    Refused,
}

/// Prints what a job of one hub came to: how many steps were made, and the digest.
fn print_steps(rt: &HostRuntime, job: &str, told: Option<(u64, u64)>) -> io::Result<End> {
    let Some((steps, value)) = told else {
        return Ok(End::Unknown);
    };
    println!(rt; "{job}: {steps} steps, {value:016x}")?;
    Ok(End::Told)
}

/// Prints what a job of the replayer came to.
fn print_bytes(rt: &HostRuntime, job: &str, sums: Sums) -> io::Result<End> {
    let Sums { bytes, value } = sums;
    println!(rt; "{job}: {bytes} bytes, {value:016x}")?;
    Ok(End::Told)
}

/// Plays the services, and prints what they came to.
fn tell_served<T: Threads + Wait + Sync>(
    rt: &HostRuntime,
    threads: &T,
    seed: u32,
    extent: Extent,
) -> io::Result<End> {
    let load = if extent == Extent::Whole {
        served::LONG
    } else {
        served::SHORT
    };
    let Some(told) = served::listen(threads, rt.alloc(), seed, load) else {
        return Ok(End::Refused);
    };
    println!(rt; "{} services told {:016x}", load.services, told.number())?;
    Ok(End::Told)
}

/// Plays a job, and prints what it came to. `threads` is what may start threads and wait for them: `main` hands the
/// runtime as both.
fn tell<T: Threads + Wait + Sync>(
    rt: &HostRuntime,
    threads: &T,
    job: &str,
    seed: u32,
    extent: Extent,
) -> io::Result<End> {
    let (alloc, wide) = (rt.alloc(), u64::from(seed));
    let is_whole = extent == Extent::Whole;
    let part = if is_whole { 1 } else { 400 };
    match job {
        "builds" => {
            let (hubs, tenants) = if is_whole { (24, 512) } else { (1, 70) };
            print_steps(rt, job, builds::play(alloc, wide, hubs, tenants)?)
        }
        "files" => {
            let (trees, scale) = if is_whole { (18, 100) } else { (1, 2) };
            print_steps(rt, job, files::play(alloc, wide, trees, scale)?)
        }
        "awkward" => {
            let (hubs, rounds) = if is_whole { (6, 80) } else { (1, 1) };
            print_steps(rt, job, awkward::play(alloc, wide, hubs, rounds)?)
        }
        "replay" => print_bytes(rt, job, replays::replayed(alloc, wide, part)?),
        "threads" => print_bytes(rt, job, replays::threaded(threads, alloc, wide, part)?),
        "served" => tell_served(rt, threads, seed, extent),
        _ => Ok(End::Unknown),
    }
}

/// Plays all jobs, each a small one, up to the first that isn't told.
fn tell_all<T: Threads + Wait + Sync>(rt: &HostRuntime, threads: &T) -> io::Result<End> {
    for (job, seed) in SMALL {
        let end = tell(rt, threads, job, seed, Extent::Small)?;
        if end != End::Told {
            return Ok(end);
        }
    }
    Ok(End::Told)
}

/// With fewer than two words all jobs are played, each a small one; with a job's name and a seed this job is.
fn run<T: Threads + Wait + Sync>(rt: &HostRuntime, threads: &T) -> io::Result<End> {
    let mut words = env::args(rt)?;
    let _program = words.next();
    let (Some(job), Some(seed)) = (words.next(), words.next()) else {
        return tell_all(rt, threads);
    };
    match seed.parse::<u32>() {
        Ok(seed) => tell(rt, threads, job.as_str(), seed, Extent::Whole),
        Err(_) => Ok(End::Unknown),
    }
}

fn main(rt: HostRuntime) -> io::Result<ExitCode> {
    match run(&rt, &rt)? {
        End::Told => return Ok(ExitCode::SUCCESS),
        End::Unknown => println!(&rt;
            "usage: pf_jobs [builds SEED | files SEED | awkward SEED | replay SEED | threads SEED | served SEED]"
        )?,
        End::Refused => println!(&rt; "a call was refused")?,
    }
    Ok(ExitCode::FAILURE)
}
