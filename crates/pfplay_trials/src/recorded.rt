//! Recorded programs: each script is played, and what it prints is compared with the text beside it. Then its tenant
//! moves: half of its steps are made on one hub, and the other half on another, with another neighbour and other bytes
//! in the frames, where its steps so far are played again first.

use crate::file;
use crate::moving::moved;
use pf_play::{Collected, MemoryBytes, Options, replay};
use std::alloc::Global;
use std::io;

/// The names of the recorded programs.
const RECORDED: [&str; 4] = ["make_j4", "git_clone", "parallel", "shell_coprocess"];

/// Whether a script prints this text.
fn plays(alloc: Global, script: &str, text: &str) -> bool {
    let mut reader = MemoryBytes::new(script.as_bytes());
    let mut writer = Collected::new(alloc);
    let options = Options {
        only: None,
        tree_heap: None,
        fill: 165,
    };
    replay(alloc, &mut reader, &mut writer, &options).is_ok()
        && writer.as_slice() == text.as_bytes()
}

/// Plays each, and moves it between hubs where the two behind it are its neighbours.
pub(crate) fn tell_recorded(rt: &HostRuntime) -> io::Result<()> {
    let alloc = rt.alloc();
    for (place, name) in RECORDED.iter().enumerate() {
        let (script, text) = (file(rt, name, "script")?, file(rt, name, "text")?);
        let verdict = if plays(alloc, script.as_str(), text.as_str()) {
            "prints its text"
        } else {
            "prints another text"
        };
        println!(rt; "{name}: {verdict}")?;
        let here = file(rt, RECORDED[(place + 1) % 4], "script")?;
        let there = file(rt, RECORDED[(place + 2) % 4], "script")?;
        match moved(
            alloc,
            [script.as_str(), here.as_str(), there.as_str()],
            text.as_str(),
        ) {
            Ok(steps) => println!(rt; "{name}: moved behind {steps} steps, prints its text")?,
            Err(trouble) => println!(rt; "{name}: {trouble}")?,
        }
    }
    Ok(())
}
