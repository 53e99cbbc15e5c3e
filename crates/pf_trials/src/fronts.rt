//! A script that is cut short, a writer that takes a front of its text, and names that no namespace has.

use crate::replay::{Full, OPTIONS, is_refused};
use pf_play::{Collected, MemoryBytes, Options, ReplayFault, replay};
use std::alloc::{AllocError, Global};
use std::process::Abort;
use std::test::Fail;

/// A script by its lines, each with the line of the text that it adds.
const HELLO: [(&str, &str); 10] = [
    ("pool 16\n", ""),
    ("space red 16\n", "== red\n"),
    ("red spawn 5 5 022\n", "1: pid 1\n"),
    ("red pipe 1\n", "2: fds 0 1\n"),
    ("red write 1 1 68656c6c6f\n", "3: num 5\n"),
    ("red read 1 0 3\n", "4: bytes 3 68656c\n"),
    ("red read 1 0 10\n", "5: bytes 2 6c6f\n"),
    ("red close 1 1\n", "6: num 0\n"),
    ("red read 1 0 10\n", "7: bytes 0 -\n"),
    ("red exit 1\n", "8: num 0\n"),
];

/// Its text.
const HELLO_TEXT: &[u8] = b"== red
1: pid 1
2: fds 0 1
3: num 5
4: bytes 3 68656c
5: bytes 2 6c6f
6: num 0
7: bytes 0 -
8: num 0
";

/// Whether a script has this text, and no step meets want of memory.
fn has_text(alloc: Global, script: &str, text: &str) -> bool {
    let mut writer = Collected::new(alloc);
    let result = replay(
        alloc,
        &mut MemoryBytes::new(script.as_bytes()),
        &mut writer,
        &OPTIONS,
    );
    matches!(result, Ok(replayed) if replayed.nomem == 0) && writer.as_slice() == text.as_bytes()
}

/// Whether each proper front of this line, behind a front of the script, is refused as line `number`.
fn is_cut_short(alloc: Global, front: &str, line: &str, number: u32) -> Result<bool, Fail> {
    let mut script = String::from_str(alloc, front)?;
    let refusal = format!(in alloc; "line {number}: cut short")?;
    for c in line.trim_end().chars() {
        script.push(c)?;
        if !is_refused(alloc, script.as_str(), refusal.as_str())? {
            return Ok(false);
        }
    }
    Ok(true)
}

/// A front of the script has its text, and with the next line cut short it is refused. Then that line is added, and its
/// text.
fn add_line(
    rt: &impl Abort,
    alloc: Global,
    script: &mut String,
    text: &mut String,
    number: u32,
    line: (&str, &str),
) -> Result<(), Fail> {
    let (line, told) = line;
    assert!(rt; has_text(alloc, script.as_str(), text.as_str()), "{script}");
    assert!(rt;
        is_cut_short(alloc, script.as_str(), line, number)?,
        "{line}"
    );
    script.push_str(line)?;
    text.push_str(told)?;
    Ok(())
}

#[test]
fn a_front_of_a_script(rt: HostRuntime) -> Result<(), Fail> {
    let alloc = rt.alloc();
    let mut script = String::new(alloc);
    let mut text = String::new(alloc);
    for (number, line) in (1..).zip(HELLO) {
        add_line(&rt, alloc, &mut script, &mut text, number, line)?;
    }
    assert!(rt; has_text(alloc, script.as_str(), text.as_str()));
    assert!(rt; text.as_bytes() == HELLO_TEXT);
    Ok(())
}

/// The whole script.
fn hello(alloc: Global) -> Result<String, AllocError> {
    let mut script = String::new(alloc);
    for (line, _) in HELLO {
        script.push_str(line)?;
    }
    Ok(script)
}

/// A writer that takes so many bytes takes as many of the text, and is not asked again.
fn assert_front(rt: &impl Abort, alloc: Global, script: &str, room: u32, fails: bool) {
    let mut reader = MemoryBytes::new(script.as_bytes());
    let mut writer = Full::new(HELLO_TEXT, room, fails);
    let result = replay(alloc, &mut reader, &mut writer, &OPTIONS);
    assert_eq!(rt; matches!(result, Err(ReplayFault::WriteFault)), room < 101);
    assert_eq!(rt; result.is_ok(), room == 101);
    assert_eq!(rt; writer.asked, if room < 101 { room + 1 } else { 101 });
    assert_eq!(rt; writer.strays, 0);
}

#[test]
fn a_writer_that_takes_a_front(rt: HostRuntime) -> Result<(), Fail> {
    let script = hello(rt.alloc())?;
    for room in 0..102 {
        for fails in [true, false] {
            assert_front(&rt, rt.alloc(), script.as_str(), room, fails);
        }
    }
    Ok(())
}

/// There is no text where this name is chosen.
fn assert_no_name(rt: &impl Abort, alloc: Global, script: &str, name: &str) {
    let options = Options {
        only: Some(name),
        tree_heap: None,
        fill: 165,
    };
    let mut reader = MemoryBytes::new(script.as_bytes());
    let mut writer = Collected::new(alloc);
    let result = replay(alloc, &mut reader, &mut writer, &options);
    assert!(rt; matches!(result, Err(ReplayFault::NoSuchName)), "{name}");
    assert!(rt; writer.as_slice().is_empty());
}

#[test]
fn a_name_that_no_namespace_has(rt: HostRuntime) {
    let script = "pool 32\nspace red 16\nspace blue 16\nred spawn 5 5 022\n";
    for name in ["green", "Red", "", "pool", "red "] {
        assert_no_name(&rt, rt.alloc(), script, name);
    }
}

/// A faulty script is refused for its line, whatever name is chosen.
#[test]
fn a_name_and_a_faulty_script(rt: HostRuntime) {
    let options = Options {
        only: Some("red"),
        tree_heap: None,
        fill: 165,
    };
    let mut writer = Collected::new(rt.alloc());
    let mut reader = MemoryBytes::new(b"pool 0\n");
    let result = replay(rt.alloc(), &mut reader, &mut writer, &options);
    assert!(rt; matches!(result, Err(ReplayFault::Script(_))));
}
