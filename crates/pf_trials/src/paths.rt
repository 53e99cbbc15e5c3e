//! Paths that no script can write: the empty one, one with a byte 0, and the longest.

use crate::scripts::{is, is_told, spawn};
use pf_base::{Answer, ByteString, Config, Errno, Kind, Meta, Mode, Reply, Step};
use pf_hub::Hub;
use pf_plain::Plain;
use std::alloc::{AllocError, Global};
use std::test::Fail;

/// So many bytes of this kind, and with what error a process is told of the path; none where it is the root's.
const PATHS: [(usize, u8, Option<Errno>); 6] = [
    (0, b'a', Some(Errno::ENOENT)),
    (3, 0, Some(Errno::EINVAL)),
    (255, b'a', Some(Errno::ENOENT)),
    (256, b'a', Some(Errno::ENAMETOOLONG)),
    (1_023, b'/', None),
    (1_024, b'/', Some(Errno::ENAMETOOLONG)),
];

/// A namespace without frames.
fn configs(alloc: Global) -> Result<Vec<(Config, Global)>, Fail> {
    let config = Config::new(
        0,
        Config::DEFAULT_SOFT,
        Config::DEFAULT_HARD,
        Config::DEFAULT_MAX,
    )?;
    Ok(vec![in alloc; (config, alloc)]?)
}

/// Asks for a path of so many bytes of this kind.
fn stat(alloc: Global, count: usize, byte: u8) -> Result<Step, AllocError> {
    let path = ByteString::new(alloc, Vec::from_elem(alloc, byte, count)?)?;
    Ok(Step::Stat { pid: 1, path })
}

/// The answer with this error; without one that of the root.
fn answer(error: Option<Errno>) -> Result<Answer, Fail> {
    let root = Meta {
        kind: Kind::Directory,
        mode: Mode::new(0o777)?,
        uid: 0,
        gid: 0,
    };
    Ok(Answer::Done(match error {
        Some(error) => Reply::Err(error),
        None => Reply::Meta(root),
    }))
}

/// Whether both forms of a hub answer this to a step.
fn is_answered(
    hub: &mut Hub<Global>,
    plain: &mut Plain<Global>,
    step: &Step,
    answer: &Answer,
) -> bool {
    is_told(hub, 0, step, answer) && plain.lives(0) && is(plain.step(0, step), answer)
}

/// Whether both have a first process then.
fn begins(hub: &mut Hub<Global>, plain: &mut Plain<Global>) -> bool {
    is_answered(hub, plain, &spawn(), &Answer::Done(Reply::Pid(1)))
}

/// Whether both answer this to whoever asks for such a path.
fn is_found(
    alloc: Global,
    hub: &mut Hub<Global>,
    plain: &mut Plain<Global>,
    path: (usize, u8, Option<Errno>),
) -> Result<bool, Fail> {
    let (count, byte, error) = path;
    let answer = answer(error)?;
    let step = stat(alloc, count, byte)?;
    Ok(is_answered(hub, plain, &step, &answer))
}

/// Asks both for each path. Tells the first that is answered otherwise.
fn first_otherwise(
    alloc: Global,
    hub: &mut Hub<Global>,
    plain: &mut Plain<Global>,
) -> Result<Option<(usize, u8)>, Fail> {
    if !begins(hub, plain) {
        return Ok(Some((0, 0)));
    }
    for path in PATHS {
        if !is_found(alloc, hub, plain, path)? {
            return Ok(Some((path.0, path.1)));
        }
    }
    Ok(None)
}

#[test]
fn paths_that_no_script_can_write(rt: HostRuntime) -> Result<(), Fail> {
    let alloc = rt.alloc();
    let mut hub = Hub::new(alloc, Vec::new(alloc), configs(alloc)?)?;
    let mut plain = Plain::new(alloc, Vec::new(alloc), configs(alloc)?)?;
    assert!(rt; first_otherwise(alloc, &mut hub, &mut plain)?.is_none());
    Ok(())
}
