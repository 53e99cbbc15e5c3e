//! A namespace that makes a thousand FIFOs in a heap of some bytes, also where its name is chosen: it is told of want
//! of memory, and then the FIFO isn't there; each other one is. In four times the bytes there is room for more than
//! twice as many.

use crate::texts::OPTIONS;
use crate::words::words_of;
use pf_play::{Collected, MemoryBytes, NoGate, Options, Status, obey, replay};
use std::alloc::{AllocError, Global};
use std::sync::Wait;
use std::test::Fail;
use std::thread::Threads;

/// How many FIFOs are made.
const FILES: usize = 1000;

/// The program's words in front of a heap's bytes.
const WORDS: [&[&str]; 2] = [
    &["pfplay", "--tree-heap"],
    &["pfplay", "--only", "red", "--tree-heap"],
];

/// The bytes.
const BYTES: [&str; 3] = ["1024", "4096", "16384"];

/// A process that makes them, and looks for each.
fn script(alloc: Global) -> Result<String, AllocError> {
    let mut script = String::from_str(alloc, "pool 1\nspace red 1\nred spawn 5 5 022\n")?;
    for number in 0..FILES {
        let lines = format!(in alloc; "red mkfifo 1 /f{number} 0666\nred stat 1 /f{number}\n")?;
        script.push_str(lines.as_str())?;
    }
    Ok(script)
}

/// What the program ends with.
fn played<T: Threads + Wait + Sync>(
    rt: &T,
    alloc: Global,
    writer: &mut Collected,
    script: &str,
    words: &[String],
) -> Status {
    let mut reader = MemoryBytes::new(script.as_bytes());
    obey(rt, alloc, words, &mut reader, writer, &NoGate)
}

/// An answer without the number of its line.
fn answer(line: &str) -> &str {
    line.split_once(": ").unwrap_or(("", "")).1
}

/// How many FIFOs are there, and for how many memory was wanted, where the answers are right.
fn counted(text: &str) -> Option<(usize, usize)> {
    let mut lines = text.split('\n');
    if lines.next() != Some("== red") || lines.next() != Some("1: pid 1") {
        return None;
    }
    let (mut made, mut refused) = (0usize, 0usize);
    for _ in 0..FILES {
        match (answer(lines.next()?), answer(lines.next()?)) {
            ("num 0", "meta fifo 0644 5 5") => made = made.saturating_add(1),
            ("nomem", "err ENOENT") => refused = refused.saturating_add(1),
            _ => return None,
        }
    }
    if lines.next() != Some("") || lines.next().is_some() {
        return None;
    }
    Some((made, refused))
}

/// How many FIFOs are there in the end, where there isn't room for all.
fn made<T: Threads + Wait + Sync>(
    rt: &T,
    alloc: Global,
    script: &str,
    words: &[String],
) -> Result<usize, Fail> {
    let mut writer = Collected::new(alloc);
    let status = played(rt, alloc, &mut writer, script, words);
    let text = String::from_utf8(Vec::from_slice(alloc, writer.as_slice())?)?;
    let (made, refused) = counted(text.as_str()).ok_or("told otherwise")?;
    if status as u8 != 3 || refused == 0 || made.saturating_add(refused) != FILES {
        return Ok(0);
    }
    Ok(made)
}

#[test]
fn a_heap_is_filled(rt: HostRuntime) -> Result<(), Fail> {
    let script = script(rt.alloc())?;
    for front in WORDS {
        let mut fewer: usize = 0;
        for bytes in BYTES {
            let mut words = words_of(rt.alloc(), front)?;
            words.push(String::from_str(rt.alloc(), bytes)?)?;
            let made = made(&rt, rt.alloc(), script.as_str(), &words)?;
            assert!(rt; made > fewer.saturating_mul(2), "{front:?} {bytes}");
            fewer = made;
        }
    }
    Ok(())
}

/// How many FIFOs are there in a heap of so many bytes, where no words are judged.
fn made_in(alloc: Global, script: &str, bytes: u32) -> Result<usize, Fail> {
    let options = Options {
        tree_heap: Some(bytes),
        ..OPTIONS
    };
    let mut reader = MemoryBytes::new(script.as_bytes());
    let mut writer = Collected::new(alloc);
    let end = replay(alloc, &mut reader, &mut writer, &options);
    let text = String::from_utf8(Vec::from_slice(alloc, writer.as_slice())?)?;
    let (made, _) = counted(text.as_str()).ok_or("told otherwise")?;
    if end.is_err() {
        return Ok(0);
    }
    Ok(made)
}

/// A replay that is called may have heaps of fewer bytes than the words may ask for.
#[test]
fn a_heap_has_fewer_bytes_than_words_may_ask_for(rt: HostRuntime) -> Result<(), Fail> {
    let script = script(rt.alloc())?;
    let few = made_in(rt.alloc(), script.as_str(), 512)?;
    let more = made_in(rt.alloc(), script.as_str(), 1_024)?;
    assert!(rt; few > 0 && few < more);
    Ok(())
}
