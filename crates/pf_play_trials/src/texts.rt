//! Scripts of two namespaces with a thread for each: the text of one thread, also where growths are refused.

use pf_play::{
    Failed, Gate, MemoryBytes, NoGate, Options, ReplayFault, Replayed, Sink, replay_threads,
};
use std::alloc::Global;
use std::sync::Wait;
use std::test::Fail;
use std::thread::Threads;

pub(crate) const OPTIONS: Options<'static> = Options {
    only: None,
    tree_heap: None,
    fill: 165,
};

/// Compares what is written with a text, and takes no memory.
#[derive(Debug, Drop)]
pub(crate) struct Compared {
    text: &'static [u8],
    written: usize,
    strays: bool,
}

impl Compared {
    pub(crate) fn new(text: &'static [u8]) -> Self {
        Compared {
            text,
            written: 0,
            strays: false,
        }
    }

    /// Whether exactly the text was written.
    pub(crate) fn is_whole(&self) -> bool {
        self.written == self.text.len() && !self.strays
    }

    /// Whether nothing was written.
    pub(crate) fn is_empty(&self) -> bool {
        self.written == 0 && !self.strays
    }
}

impl Sink for Compared {
    ghost use Rattle.std.specs.Prelude.{None};

    ghost output = { λ _. record { contents = None; refusals = 0 } };

    fn write(&mut self, bytes: &[u8]) -> Result<usize, Failed> {
        let (_, rest) = self.text.split_at(self.written.min(self.text.len()));
        if !rest.starts_with(bytes) {
            self.strays = true;
        }
        self.written = self.written.saturating_add(bytes.len());
        Ok(bytes.len())
    }
}

/// What a replay with a thread for each namespace, or for the one whose name is chosen, ends with, and what was
/// written.
pub(crate) fn played_of<T: Threads + Wait + Sync, G: Gate + Sync>(
    rt: &T,
    alloc: Global,
    script: &'static str,
    text: &'static str,
    only: Option<&str>,
    gate: &G,
) -> (Result<Replayed, ReplayFault>, Compared) {
    let mut reader = MemoryBytes::new(script.as_bytes());
    let mut writer = Compared::new(text.as_bytes());
    let options = Options { only, ..OPTIONS };
    let end = replay_threads(rt, alloc, &mut reader, &mut writer, &options, gate);
    (end, writer)
}

/// The same where none is chosen.
pub(crate) fn played<T: Threads + Wait + Sync, G: Gate + Sync>(
    rt: &T,
    alloc: Global,
    script: &'static str,
    text: &'static str,
    gate: &G,
) -> (Result<Replayed, ReplayFault>, Compared) {
    played_of(rt, alloc, script, text, None, gate)
}

/// Whether the whole text came, and no step wanted memory.
fn is_whole(end: Result<Replayed, ReplayFault>, writer: &Compared) -> bool {
    matches!(end, Ok(replayed) if replayed.nomem == 0) && writer.is_whole()
}

/// Whether memory was wanted: by steps, or else before anything was written.
fn wants_memory(end: Result<Replayed, ReplayFault>, writer: &Compared) -> bool {
    match end {
        Ok(replayed) => replayed.nomem > 0,
        Err(ReplayFault::NoMemory) => writer.is_empty(),
        Err(_) => false,
    }
}

/// Whether the whole text comes. Where memory was wanted it is to come the next time, since one growth is refused at
/// most: with ample memory both times are alike, and a replay that wants some isn't let through.
fn is_told<T: Threads + Wait + Sync>(
    rt: &T,
    alloc: Global,
    script: &'static str,
    text: &'static str,
) -> bool {
    let (end, writer) = played(rt, alloc, script, text, &NoGate);
    if is_whole(end, &writer) {
        return true;
    }
    let (again, rest) = played(rt, alloc, script, text, &NoGate);
    wants_memory(end, &writer) && is_whole(again, &rest)
}

/// Frames that another namespace wrote to tell nothing.
const FILLED: &str = "pool 32
space red 16
space blue 16
red spawn 5 5 022
red pipe 1
red write 1 1 65536*61
red exit 1
blue spawn 5 5 022
blue pipe 1
blue write 1 1 7a
blue read 1 0 100
";

const FILLED_TEXT: &str = "== red
1: pid 1
2: fds 0 1
3: num 65536
4: num 0
== blue
1: pid 1
2: fds 0 1
3: num 1
4: bytes 1 7a
";

/// A namespace keeps its reservation, whatever another asks for.
const RESERVED: &str = "pool 17
space red 16
space blue 1
red spawn 5 5 022
red pipe 1
blue spawn 5 5 022
red write 1 1 65536*61
blue pipe 1
red pipe 1
blue getsize 1 0
blue write 1 1 4096*62
blue read 1 0 2
";

const RESERVED_TEXT: &str = "== red
1: pid 1
2: fds 0 1
3: num 65536
4: err ENFILE
== blue
1: pid 1
2: fds 0 1
3: num 4096
4: num 4096
5: bytes 2 6262
";

#[test]
fn a_text_is_that_of_one_thread(rt: HostRuntime) -> Result<(), Fail> {
    for (script, text) in [(FILLED, FILLED_TEXT), (RESERVED, RESERVED_TEXT)] {
        assert!(rt; is_told(&rt, rt.alloc(), script, text), "{script}");
    }
    Ok(())
}
