//! Writes of bytes that stand in a slice, and reads into one: each is told what the same call as a step is told, and
//! leaves the same.

use crate::scripts::{is, is_told, spawn};
use pf_base::{Answer, ByteString, Config, Errno, MAX_WRITE, Reply, Step};
use pf_frame::{Frame, PoolFault};
use pf_hub::Hub;
use std::alloc::{AllocError, Global};
use std::sync::Arc;
use std::test::Fail;

// One namespace writes and reads by steps, and the other one by slices.
pub(crate) const BY_STEPS: u32 = 0;

pub(crate) const BY_SLICES: u32 = 1;

// A byte more than a write may have.
const TOO_MANY: usize = 1_048_577;

// A write: the process and its descriptor, how many bytes, and what it is told: how many went in, that it waits, or an
// error.
type Write = (u32, u32, usize, Result<Option<u64>, Errno>);

// What goes in, then what is refused, and then what waits, with a part that goes in and with none: fewer bytes than are
// shared with a step's, and as many.
fn all_writes() -> [Write; 14] {
    [
        (1, 1, 0, Ok(Some(0))),
        (1, 1, 1, Ok(Some(1))),
        (1, 1, 14, Ok(Some(14))),
        (1, 1, 15, Ok(Some(15))),
        (2, 1, 4_096, Ok(Some(4_096))),
        (1, 1, TOO_MANY, Err(Errno::EINVAL)),
        (1, 0, TOO_MANY, Err(Errno::EBADF)),
        (1, 2, 5, Err(Errno::EBADF)),
        (6, 1, 5, Err(Errno::ESRCH)),
        (1, 1, 65_536, Ok(None)),
        (1, 1, 5, Err(Errno::EBUSY)),
        (2, 1, 5, Ok(None)),
        (4, 1, 131_071, Ok(None)),
        (5, 1, 131_072, Ok(None)),
    ]
}

// A read: the process and its descriptor, how many bytes its slice has room for, and what it is told: how many came,
// that it waits, or an error.
type Read = (u32, u32, usize, Result<Option<usize>, Errno>);

// Each place of a slice before a read.
pub(crate) const BEFORE: u8 = 253;

// Out of 65,000 bytes of two writes: parts of a page, over its end, a page, and more than there is. Then what is
// refused, and what waits.
fn all_reads() -> [Read; 16] {
    [
        (1, 0, 0, Ok(Some(0))),
        (1, 0, 1, Ok(Some(1))),
        (1, 0, 14, Ok(Some(14))),
        (1, 0, 15, Ok(Some(15))),
        (2, 0, 4_066, Ok(Some(4_066))),
        (1, 0, 4_096, Ok(Some(4_096))),
        (2, 0, 60_000, Ok(Some(56_808))),
        (2, 0, 0, Ok(Some(0))),
        (1, 1, 5, Err(Errno::EBADF)),
        (1, 4, 0, Err(Errno::EBADF)),
        (6, 0, 5, Err(Errno::ESRCH)),
        (1, 2, 5, Err(Errno::EAGAIN)),
        (1, 2, 0, Ok(Some(0))),
        (1, 0, 5, Ok(None)),
        (1, 0, 5, Err(Errno::EBUSY)),
        (2, 0, 70_000, Ok(None)),
    ]
}

// So many frames of zeros.
fn frames(alloc: Global, count: u32) -> Result<Vec<Frame>, AllocError> {
    let mut frames = Vec::new(alloc);
    for _ in 0..count {
        frames.push(Frame::filled(alloc, 0)?)?;
    }
    Ok(frames)
}

// A hub of the two namespaces.
pub(crate) fn opened(alloc: Global, limits: Config) -> Result<Hub<Global>, PoolFault> {
    let Ok(frames) = frames(alloc, 64) else {
        return Err(PoolFault::NoMemory);
    };
    let Ok(configs) = Vec::from_elem(alloc, (limits, alloc), 2) else {
        return Err(PoolFault::NoMemory);
    };
    Hub::new(alloc, frames, configs)
}

// Whether both namespaces are told the same of a step, and memory suffices.
fn is_alike(hub: &mut Hub<Global>, step: &Step) -> bool {
    if !hub.lives(BY_STEPS) {
        return false;
    }
    let told = hub.step(BY_STEPS, step);
    let alike = !matches!(&told, Answer::NoMemory) && is_told(hub, BY_SLICES, step, &told);
    drop(told);
    alike
}

// The same of these steps.
pub(crate) fn alike(hub: &mut Hub<Global>, steps: &[Step]) -> bool {
    for step in steps {
        if !is_alike(hub, step) {
            return false;
        }
    }
    true
}

// Whether both are told this of a write.
fn writes(
    alloc: Global,
    hub: &mut Hub<Global>,
    write: Write,
    all: &[u8],
) -> Result<bool, AllocError> {
    let (pid, fd, count, told) = write;
    let bytes = &all[..count.min(all.len())];
    let payload = ByteString::from_slice(alloc, bytes)?;
    let told = Answer::Done(match told {
        Ok(Some(number)) => Reply::Num(number),
        Ok(None) => Reply::Parked,
        Err(errno) => Reply::Err(errno),
    });
    let step = Step::Write { pid, fd, payload };
    let by_step = is_told(hub, BY_STEPS, &step, &told);
    drop(step);
    let both = by_step
        && hub.lives(BY_SLICES)
        && is(hub.write_from(BY_SLICES, pid, fd, bytes), &told);
    drop(told);
    Ok(both)
}

// The same of all.
fn writes_all(alloc: Global, hub: &mut Hub<Global>, all: &[u8]) -> Result<bool, AllocError> {
    for write in all_writes() {
        if !writes(alloc, hub, write, all)? {
            return Ok(false);
        }
    }
    Ok(true)
}

// Whether a read into a slice was told what a step's answer says, with the same bytes at the slice's front, and the
// slice is as it was behind them.
fn is_answered(read: Result<Option<usize>, Errno>, slice: &[u8], answer: &Answer) -> bool {
    let (number, reply) = match (read, answer) {
        (Ok(Some(number)), Answer::Done(Reply::Bytes(bytes))) => (number, bytes.as_slice()),
        (Ok(None), Answer::Done(Reply::Parked)) => (0, &slice[..0]),
        (Err(errno), Answer::Done(Reply::Err(told))) if errno == *told => (0, &slice[..0]),
        _ => return false,
    };
    let (front, behind) = slice.split_at(number.min(slice.len()));
    number == front.len() && front == reply && behind.iter().all(|byte| *byte == BEFORE)
}

// Whether both are told this of a read.
fn reads(alloc: Global, hub: &mut Hub<Global>, read: Read) -> Result<bool, AllocError> {
    let (pid, fd, count, told) = read;
    if !hub.lives(BY_STEPS) || !hub.lives(BY_SLICES) {
        return Ok(false);
    }
    let mut slice = Vec::from_elem(alloc, BEFORE, count)?;
    let step = Step::Read {
        pid,
        fd,
        n: count as u64,
    };
    let answer = hub.step(BY_STEPS, &step);
    drop(step);
    let both = hub.lives(BY_SLICES)
        && hub.read_into(BY_SLICES, pid, fd, &mut slice) == told
        && is_answered(told, &slice, &answer);
    drop(answer);
    Ok(both)
}

// The same of all.
fn reads_all(alloc: Global, hub: &mut Hub<Global>) -> Result<bool, AllocError> {
    for read in all_reads() {
        if !reads(alloc, hub, read)? {
            return Ok(false);
        }
    }
    Ok(true)
}

// Process 1 has a pipe, and so many children.
pub(crate) fn opens(hub: &mut Hub<Global>, children: u32) -> bool {
    let pipe = Step::Pipe {
        pid: 1,
        nonblock: false,
    };
    let mut all = alike(hub, &[spawn(), pipe]);
    for _ in 0..children {
        all = all && alike(hub, &[Step::Fork { pid: 1 }]);
    }
    all
}

// Whether the calls of two processes go on and their bytes come out alike, and then twice as many as a pipe has room
// for of each write that waits.
fn drains(hub: &mut Hub<Global>) -> bool {
    let read = || Step::Read {
        pid: 3,
        fd: 0,
        n: 100_000,
    };
    let resume = |pid| Step::Resume { pid };
    alike(hub, &[read(), resume(1), resume(2), read()])
        && alike(hub, &[resume(4), read(), resume(4), read()])
        && alike(hub, &[resume(5), read(), resume(5), read()])
}

// Whether all writes are told what stands there, and the bytes come out alike.
fn plays(alloc: Global, hub: &mut Hub<Global>) -> Result<bool, AllocError> {
    let all: Vec<u8> = (0..TOO_MANY).map(|i| (i % 251) as u8).collect(alloc)?;
    Ok(opens(hub, 4) && writes_all(alloc, hub, &all)? && drains(hub))
}

#[test]
fn a_write_from_a_slice_is_the_step(rt: HostRuntime) -> Result<(), Fail> {
    let limits = Config::new(
        32,
        Config::DEFAULT_SOFT,
        Config::DEFAULT_HARD,
        Config::DEFAULT_MAX,
    )?;
    let mut hub = opened(rt.alloc(), limits)?;
    assert!(rt; plays(rt.alloc(), &mut hub) == Ok(true));
    drop(hub);
    Ok(())
}

// Whether a step's bytes have no owner but the step.
fn is_alone(step: &Step) -> bool {
    matches!(step, Step::Write { payload, .. } if payload.share().is_some())
}

// Whether a write of these bytes by a process waits, and whether they then have no owner but the step that it was.
fn waits(hub: &mut Hub<Global>, pid: u32, bytes: Arc<Vec<u8>>) -> Option<bool> {
    let step = Step::Write {
        pid,
        fd: 1,
        payload: ByteString::from_arc(bytes),
    };
    let parks = is_told(hub, BY_STEPS, &step, &Answer::Done(Reply::Parked));
    let alone = is_alone(&step);
    drop(step);
    if parks { Some(alone) } else { None }
}

// How many sevens an answer has; none where it has other bytes.
fn count(answer: Answer) -> usize {
    match &answer {
        Answer::Done(Reply::Bytes(bytes)) if bytes.as_slice().iter().all(|byte| *byte == 7) => {
            bytes.as_slice().len()
        }
        _ => 0,
    }
}

// How many bytes a reader finds, all of them sevens, where those that wait go on by turns.
fn drained(hub: &mut Hub<Global>) -> usize {
    let mut found: usize = 0;
    for turn in 0..115u32 {
        let step = match turn % 5 {
            4 => Step::Read {
                pid: 5,
                fd: 0,
                n: 100_000,
            },
            waiting => Step::Resume { pid: waiting + 1 },
        };
        if hub.lives(BY_STEPS) {
            found = found.saturating_add(count(hub.step(BY_STEPS, &step)));
        }
        drop(step);
    }
    found
}

// So many sevens.
fn sevens(alloc: Global, count: usize) -> Result<Arc<Vec<u8>>, AllocError> {
    Ok(Arc::new(alloc, Vec::from_elem(alloc, 7, count)?)?)
}

// Whether what a write keeps that waits is its step's own, where the step alone has so many bytes, and else a copy:
// then who has them too finds itself their one owner again, and a step its own alone.
fn keeps(alloc: Global, hub: &mut Hub<Global>) -> Result<bool, AllocError> {
    let mut mine = sevens(alloc, 131_072)?;
    let theirs = Arc::try_clone(&mine)?;
    let copied = waits(hub, 1, theirs).is_some() && Arc::get_mut(&mut mine).is_some();
    drop(mine);
    let shared = waits(hub, 2, sevens(alloc, 131_072)?) == Some(false);
    let few = waits(hub, 3, sevens(alloc, 131_071)?) == Some(true);
    let most = waits(hub, 4, sevens(alloc, MAX_WRITE)?) == Some(false);
    Ok(copied && shared && few && most && drained(hub) == 393_215 + MAX_WRITE)
}

#[test]
fn a_write_that_waits_keeps_what_its_step_alone_has(rt: HostRuntime) -> Result<(), Fail> {
    let limits = Config::new(
        32,
        Config::DEFAULT_SOFT,
        Config::DEFAULT_HARD,
        Config::DEFAULT_MAX,
    )?;
    let mut hub = opened(rt.alloc(), limits)?;
    assert!(rt; opens(&mut hub, 4));
    assert!(rt; keeps(rt.alloc(), &mut hub) == Ok(true));
    drop(hub);
    Ok(())
}

// The write of so many bytes by the third process.
pub(crate) fn written(alloc: Global, count: usize) -> Result<Step, AllocError> {
    let bytes: Vec<u8> = (0..count).map(|i| (i % 251) as u8).collect(alloc)?;
    Ok(Step::Write {
        pid: 3,
        fd: 1,
        payload: ByteString::from_slice(alloc, &bytes)?,
    })
}

// Whether process 1 has two pipes, the second one without waiting, and two children.
fn opens_two(hub: &mut Hub<Global>) -> bool {
    let pipe = |nonblock| Step::Pipe { pid: 1, nonblock };
    let fork = || Step::Fork { pid: 1 };
    alike(hub, &[spawn(), pipe(false), pipe(true), fork(), fork()])
}

// Whether those that wait come to the same, and then all writers go.
fn ends(alloc: Global, hub: &mut Hub<Global>) -> Result<bool, AllocError> {
    let resume = |pid| Step::Resume { pid };
    let close = |pid| Step::Close { pid, fd: 1 };
    Ok(
        alike(hub, &[resume(1)])
            && alike(hub, &[written(alloc, 20)?])
            && alike(hub, &[resume(1), resume(2), close(1), close(2), close(3)]),
    )
}

// Whether all reads are told what stands there, and then those that wait come to the same, and there is nothing to read
// any more.
fn is_read(alloc: Global, hub: &mut Hub<Global>) -> Result<bool, AllocError> {
    Ok(
        opens_two(hub)
            && alike(hub, &[written(alloc, 9_000)?])
            && alike(hub, &[written(alloc, 56_000)?])
            && reads_all(alloc, hub)?
            && ends(alloc, hub)?
            && reads(alloc, hub, (2, 0, 5, Ok(Some(0))))?,
    )
}

#[test]
fn a_read_into_a_slice_is_the_step(rt: HostRuntime) -> Result<(), Fail> {
    let limits = Config::new(
        32,
        Config::DEFAULT_SOFT,
        Config::DEFAULT_HARD,
        Config::DEFAULT_MAX,
    )?;
    let mut hub = opened(rt.alloc(), limits)?;
    assert!(rt; is_read(rt.alloc(), &mut hub) == Ok(true));
    drop(hub);
    Ok(())
}
