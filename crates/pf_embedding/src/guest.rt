//! A tenant that comes for a job, and goes when the job has ended.

use crate::pool::{pages, reserve};
use crate::trouble::Trouble;
use pf_base::{EventAnswer, Groups, Step};
use pf_hub::{Event, EventFault, Hub};
use std::alloc::Global;

/// What is told of a tenant that comes to a hub where nobody is, has a process, and goes once that has exited.
pub(crate) fn job(alloc: Global) -> Result<Result<Vec<EventAnswer>, EventFault>, Trouble> {
    let limits = reserve(16)?;
    let mut hub = Hub::new(alloc, pages(alloc, 16)?, Vec::new(alloc))?;
    let spawn = Step::Spawn {
        uid: 5,
        gid: 5,
        umask: 0o022,
        groups: Groups::none(),
    };
    let exit = Step::Exit { pid: 1 };
    let events = vec![in alloc;
        Event::Admit(limits, alloc), // its number is the next one, here 0
        Event::Step(0, spawn),
        Event::Step(0, exit),
        Event::Retire(0)
    ]?;
    let answers = hub.run_events(events); // Ok: Admitted(0), Answer(Done(Pid(1))), Answer(Done(Num(0))), Retired
    Ok(answers)
}
