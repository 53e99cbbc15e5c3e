//! Steps as the lines of a script, and their answers as its text.
//!
//! All tests here let a hub, a script or an answer go by a call, mostly `drop`: what goes at an exit, or where a
//! function ends, is proved there, part by part, which is dear.

use pf_base::{Answer, EventAnswer, Groups, Step};
use pf_hub::Hub;
use pf_script::{Collected, MemoryBytes, Script, print, read_script};
use std::alloc::Global;
use std::test::Fail;

// The script of these lines.
pub(crate) fn script_of(alloc: Global, lines: &str) -> Result<Script, Fail> {
    let mut reader = MemoryBytes::new(lines.as_bytes());
    Ok(read_script(alloc, &mut reader)?)
}

// Whether a script's lines have these answers, printed.
pub(crate) fn has_text(
    alloc: Global,
    script: &Script,
    answers: &[EventAnswer],
    text: &str,
) -> bool {
    let mut writer = Collected::new(alloc);
    script.steps().len() == answers.len()
        && print(&mut writer, script, answers, None).is_ok()
        && writer.as_slice() == text.as_bytes()
}

// Whether an answer is this one.
pub(crate) fn is(answer: Answer, told: &Answer) -> bool {
    answer == *told
}

// Whether a namespace lives and is told this of a step.
pub(crate) fn is_told(hub: &mut Hub<Global>, ns: u32, step: &Step, told: &Answer) -> bool {
    hub.lives(ns) && is(hub.step(ns, step), told)
}

// What makes the first process.
pub(crate) fn spawn() -> Step {
    Step::Spawn {
        uid: 5,
        gid: 5,
        umask: 0o022,
        groups: Groups::none(),
    }
}
