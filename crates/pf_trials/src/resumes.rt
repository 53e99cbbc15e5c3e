//! Calls that wait, tried again into a slice: each is told what a step of `Resume` is told, leaves the same, and has
//! the first bytes of its reply at the slice's front.

use crate::slices::{BEFORE, BY_SLICES, BY_STEPS, alike, opened, opens, written};
use pf_base::{Answer, Config, Errno, Reply, Step};
use pf_hub::Hub;
use std::alloc::{AllocError, Global};
use std::test::Fail;

// What a call that is tried again is told: a number, that it waits, or an error.
type Told = Result<Option<usize>, Errno>;

// Whether this was told of a step's answer.
fn is_said(told: Told, answer: &Answer) -> bool {
    match (told, answer) {
        (Ok(Some(number)), Answer::Done(Reply::Bytes(bytes))) => number == bytes.as_slice().len(),
        (Ok(Some(number)), Answer::Done(Reply::Num(count))) => number as u64 == *count,
        (Ok(None), Answer::Done(Reply::Parked)) => true,
        (Err(errno), Answer::Done(Reply::Err(refused))) => errno == *refused,
        _ => false,
    }
}

// Whether the first bytes of a step's answer lie at the slice's front, as many as it has room for, and it is as it was
// behind them.
fn is_laid(slice: &[u8], answer: &Answer) -> bool {
    let bytes = match answer {
        Answer::Done(Reply::Bytes(bytes)) => bytes.as_slice(),
        _ => &slice[..0],
    };
    let (front, behind) = slice.split_at(bytes.len().min(slice.len()));
    bytes.starts_with(front) && behind.iter().all(|byte| *byte == BEFORE)
}

// Whether the call of a process that waits, tried again by a step and into a slice with so much room, is told this.
fn resumes(
    alloc: Global,
    hub: &mut Hub<Global>,
    pid: u32,
    room: usize,
    told: Told,
) -> Result<bool, AllocError> {
    if !hub.lives(BY_STEPS) {
        return Ok(false);
    }
    let mut slice = Vec::from_elem(alloc, BEFORE, room)?;
    let step = Step::Resume { pid };
    let answer = hub.step(BY_STEPS, &step);
    drop(step);
    let both = hub.lives(BY_SLICES)
        && hub.resume_into(BY_SLICES, pid, &mut slice) == told
        && is_said(told, &answer)
        && is_laid(&slice, &answer);
    drop(answer);
    Ok(both)
}

// A read that waits.
fn read(pid: u32, n: u64) -> Step {
    Step::Read { pid, fd: 0, n }
}

// A read that waits for 6,000 bytes of 9,000, and then one of more than there are: into as much room as it asks for,
// and into room for 100 bytes, where the others are lost to both.
fn reads_go_on(alloc: Global, hub: &mut Hub<Global>) -> Result<bool, AllocError> {
    let all = alike(hub, &[read(1, 6_000)])
        && resumes(alloc, hub, 1, 6_000, Ok(None))?
        && alike(hub, &[written(alloc, 9_000)?])
        && resumes(alloc, hub, 1, 6_000, Ok(Some(6_000)))?
        && alike(hub, &[read(1, 6_000), read(1, 70_000)]);
    let first = all
        && alike(hub, &[written(alloc, 5_000)?])
        && resumes(alloc, hub, 1, 100, Ok(Some(5_000)))?;
    let none = first
        && alike(hub, &[read(1, 5)])
        && alike(hub, &[written(alloc, 20)?])
        && resumes(alloc, hub, 1, 0, Ok(Some(5)))?;
    Ok(none && alike(hub, &[read(1, 100)]))
}

// A write that waits, and then the end of file; and whoever waits in no call, or doesn't live.
fn others_go_on(alloc: Global, hub: &mut Hub<Global>) -> Result<bool, AllocError> {
    let close = |pid| Step::Close { pid, fd: 1 };
    let written = alike(hub, &[written(alloc, 70_000)?])
        && resumes(alloc, hub, 3, 9, Ok(None))?
        && alike(hub, &[read(1, 70_000)])
        && resumes(alloc, hub, 3, 9, Ok(Some(70_000)))?;
    let ended = written
        && alike(
            hub,
            &[
                read(1, 70_000),
                close(1),
                read(1, 7),
                close(2),
                close(3),
                Step::Exit { pid: 2 },
            ],
        )
        && resumes(alloc, hub, 1, 7, Ok(Some(0)))?;
    Ok(
        ended
            && resumes(alloc, hub, 3, 7, Err(Errno::EINVAL))?
            && resumes(alloc, hub, 2, 7, Err(Errno::ESRCH))?,
    )
}

#[test]
fn a_call_goes_on_into_a_slice_as_by_the_step(rt: HostRuntime) -> Result<(), Fail> {
    let limits = Config::new(
        32,
        Config::DEFAULT_SOFT,
        Config::DEFAULT_HARD,
        Config::DEFAULT_MAX,
    )?;
    let mut hub = opened(rt.alloc(), limits)?;
    assert!(rt; opens(&mut hub, 2));
    assert!(rt; reads_go_on(rt.alloc(), &mut hub) == Ok(true));
    assert!(rt; others_go_on(rt.alloc(), &mut hub) == Ok(true));
    drop(hub);
    Ok(())
}
