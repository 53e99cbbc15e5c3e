//! A call that waits.

use crate::pool::{pages, reserve};
use crate::trouble::Trouble;
use pf_base::{Answer, ByteString, Groups, Step};
use pf_hub::Hub;
use std::alloc::Global;

/// What a reader is told whose pipe is empty, whether it can go on then, who can once bytes are there, and what it is told then.
pub(crate) fn waits(alloc: Global) -> Result<(Answer, bool, Option<u32>, Answer), Trouble> {
    let limits = vec![in alloc; (reserve(16)?, alloc)]?;
    let mut hub = Hub::new(alloc, pages(alloc, 16)?, limits)?;
    let red = 0;
    hub.step(
        red,
        &Step::Spawn {
            uid: 5,
            gid: 5,
            umask: 0o022,
            groups: Groups::none(),
        },
    );
    hub.step(
        red,
        &Step::Pipe {
            pid: 1,
            nonblock: false,
        },
    );
    hub.step(red, &Step::Fork { pid: 1 });
    let parked = hub.step(
        red,
        &Step::Read {
            pid: 1,
            fd: 0,
            n: 100,
        },
    );
    let early = hub.can_go_on(red, 1);
    let payload = ByteString::from_slice(alloc, b"hello")?;
    hub.step(
        red,
        &Step::Write {
            pid: 2,
            fd: 1,
            payload,
        },
    );
    let next = hub.next_to_go_on(red, 0);
    let told = hub.step(red, &Step::Resume { pid: 1 });
    Ok((parked, early, next, told))
}
