//! Two tenants on one thread.

use crate::trouble::Trouble;
use pf_base::{Answer, Config, Groups, Step};
use pf_frame::Frame;
use pf_hub::{Hub, RunFault};
use std::alloc::Global;

/// What a process of the first of two tenants is told that makes a pipe and reads of it.
pub(crate) fn hello(alloc: Global) -> Result<Result<Vec<Answer>, RunFault>, Trouble> {
    let mut frames = Vec::new(alloc); // the pool: 32 pages, with whatever bytes
    for _ in 0..32 {
        frames.push(Frame::filled(alloc, 0)?)?;
    }
    let config = Config::new(
        16,
        Config::DEFAULT_SOFT,
        Config::DEFAULT_HARD,
        Config::DEFAULT_MAX,
    )?;
    let configs = vec![in alloc; (config, alloc), (config, alloc)]?; // two tenants, 16 pages reserved for each
    let mut hub = Hub::new(alloc, frames, configs)?;
    let spawn = Step::Spawn {
        uid: 5,
        gid: 5,
        umask: 0o022,
        groups: Groups::none(),
    };
    let (pipe, read) = (
        Step::Pipe {
            pid: 1,
            nonblock: false,
        },
        Step::Read {
            pid: 1,
            fd: 0,
            n: 5,
        },
    );
    let events = vec![in alloc; (0, spawn), (0, pipe), (0, read)]?;
    let answers = hub.run(&events); // Ok: Done(Pid(1)), Done(Fds(0, 1)), Done(Parked)
    Ok(answers)
}
