//! Scripts in a line each: a `;` stands for a line feed, and behind ` | ` comes what is told of the script, its refusal
//! or its text. Empty lines, and those that begin with `#` and a space, say nothing.

use crate::flaw::Flaw;
use pf_play::{Options, ReplayFault, replay};
use pf_script::{Collected, MemoryBytes, Reading, Source};
use std::alloc::{AllocError, Global};

/// What no text may depend on: the bytes that all frames hold at the start, and whether the files of each name stand in a
/// heap of so many bytes.
const WAYS: [(u8, Option<u32>); 4] = [(0, None), (165, None), (255, None), (165, Some(16_777_216))];

/// These lines, where a `;` stands for a line feed.
fn with_line_feeds(alloc: Global, lines: &str) -> Result<String, AllocError> {
    let mut text = String::new(alloc);
    for c in lines.chars() {
        text.push(if c == ';' { '\n' } else { c })?;
    }
    Ok(text)
}

/// Whether a script has this text, or is refused with it, and then nothing is written.
fn is_told<R: Source>(
    alloc: Global,
    reader: &mut R,
    way: (u8, Option<u32>),
    text: &str,
) -> Result<bool, AllocError> {
    let mut writer = Collected::new(alloc);
    let (fill, tree_heap) = way;
    let options = Options {
        only: None,
        tree_heap,
        fill,
    };
    match replay(alloc, reader, &mut writer, &options) {
        Ok(replayed) => Ok(replayed.nomem == 0 && writer.as_slice() == text.as_bytes()),
        Err(ReplayFault::Script(refusal)) => {
            Ok(writer.as_slice().is_empty() && refusal.to_string(alloc)?.as_str() == text)
        }
        Err(_) => Ok(false),
    }
}

/// The same in each way, read from memory and from a reader of std.
fn is_told_over_each(alloc: Global, script: &str, text: &str) -> Result<bool, AllocError> {
    let script = script.as_bytes();
    for way in WAYS {
        let is_told_of_memory = is_told(alloc, &mut MemoryBytes::new(script), way, text)?;
        if !is_told_of_memory || !is_told(alloc, &mut Reading::new(script), way, text)? {
            return Ok(false);
        }
    }
    Ok(true)
}

/// Judges the scripts of a file, and tells how many they are.
pub(crate) fn judge_file(alloc: Global, file: &str) -> Result<usize, Flaw> {
    let mut scripts = 0usize;
    for (number, row) in (1u64..).zip(file.split('\n')) {
        if row.is_empty() || row.starts_with("# ") {
            continue;
        }
        let Some((lines, told)) = row.rsplit_once(" | ") else {
            return Err(Flaw::NoRow(number));
        };
        let script = with_line_feeds(alloc, lines)?;
        let text = with_line_feeds(alloc, told)?;
        if !is_told_over_each(alloc, script.as_str(), text.as_str())? {
            return Err(Flaw::Verdict(number));
        }
        scripts = scripts.saturating_add(1);
    }
    Ok(scripts)
}
