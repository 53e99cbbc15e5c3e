//! The program on words that ask for threads or heaps and on words that don't: the same text, and a gate that is told
//! of each step and frame or of none; and on words that aren't taken.

use crate::texts::Compared;
use pf_play::{Gate, MemoryBytes, obey};
use std::alloc::{AllocError, Global};
use std::sync::Wait;
use std::sync::atomic::{AtomicU64, Ordering};
use std::test::Fail;
use std::thread::Threads;

/// A gate that counts the steps and the frames that it is told of. The first namespace alone takes frames.
#[derive(Drop)]
struct Counter {
    steps: AtomicU64,
    frames: AtomicU64,
}

impl Gate for Counter {
    ghost passed = { λ _ _ _. Unit {0} };

    ghost framed = { λ _ _. Unit {0} };

    fn pass(&self, ns: u32, place: u64) {
        let _ = (ns, place);
        self.steps.fetch_add(1, Ordering::SeqCst);
    }

    fn frame(&self, ns: u32) {
        // one of another number is one too few
        let frames = if ns == 0 { 1 } else { u64::MAX };
        self.frames.fetch_add(frames, Ordering::SeqCst);
    }
}

const SCRIPT: &str = "pool 17
space red 16
space blue 1
red spawn 5 5 022
red pipe 1
red write 1 1 8192*61
blue spawn 5 5 022
";

const RED: &str = "== red
1: pid 1
2: fds 0 1
3: num 8192
";

const BOTH: &str = "== red
1: pid 1
2: fds 0 1
3: num 8192
== blue
1: pid 1
";

const ONE_THREAD: &str = "--tree-heap needs one thread
";

const TOO_SMALL: &str =
    "error: invalid value '1023' for '--tree-heap <BYTES>': 1023 is not in 1024..=16777216

For more information, try '--help'.
";

/// Words, the text, the status, and how many steps and frames the gate is told of.
const ROWS: [(&[&str], &str, u8, u64, u64); 8] = [
    (&["pfplay"], BOTH, 0, 0, 0),
    (&["pfplay", "--threads"], BOTH, 0, 4, 2),
    (&["pfplay", "--only", "red"], RED, 0, 0, 0),
    (&["pfplay", "--only", "red", "--threads"], RED, 0, 3, 2),
    (&["pfplay", "--tree-heap", "16777216"], BOTH, 0, 0, 0),
    (
        &["pfplay", "--tree-heap=1024", "--only", "red"],
        RED,
        0,
        0,
        0,
    ),
    (
        &["pfplay", "--tree-heap", "1023", "--threads"],
        TOO_SMALL,
        2,
        0,
        0,
    ),
    (
        &["pfplay", "--tree-heap", "4096", "--threads"],
        ONE_THREAD,
        2,
        0,
        0,
    ),
];

/// Words of a command line, by which a script is read in each way.
pub(crate) const WAYS: [&[&str]; 5] = [
    &["pfplay"],
    &["pfplay", "--threads"],
    &["pfplay", "--only", "red"],
    &["pfplay", "--only", "red", "--threads"],
    &["pfplay", "--tree-heap", "1024"],
];

/// These words of a command line.
pub(crate) fn words_of(alloc: Global, texts: &[&str]) -> Result<Vec<String>, AllocError> {
    let mut words = Vec::with_capacity(alloc, texts.len())?;
    for text in texts {
        words.push(String::from_str(alloc, text)?)?;
    }
    Ok(words)
}

/// The status, and how many steps and frames the gate is told of, where the text is this one.
fn told<T: Threads + Wait + Sync>(
    rt: &T,
    alloc: Global,
    words: &[String],
    text: &'static str,
) -> Option<(u8, u64, u64)> {
    let gate = Counter {
        steps: AtomicU64::new(0),
        frames: AtomicU64::new(0),
    };
    let mut reader = MemoryBytes::new(SCRIPT.as_bytes());
    let mut writer = Compared::new(text.as_bytes());
    let status = obey(rt, alloc, words, &mut reader, &mut writer, &gate);
    if !writer.is_whole() {
        return None;
    }
    let steps = gate.steps.load(Ordering::SeqCst);
    let frames = gate.frames.load(Ordering::SeqCst);
    Some((status as u8, steps, frames))
}

#[test]
fn threads_and_heaps_where_the_words_ask_for_them(rt: HostRuntime) -> Result<(), Fail> {
    for (texts, text, status, steps, frames) in ROWS {
        let words = words_of(rt.alloc(), texts)?;
        assert_eq!(rt;
            told(&rt, rt.alloc(), words.as_slice(), text),
            Some((status, steps, frames)),
            "{texts:?}"
        );
    }
    Ok(())
}
