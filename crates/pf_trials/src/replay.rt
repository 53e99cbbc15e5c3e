//! The replayer over readers and writers that fail, long inputs, and scripts that are refused.

use pf_base::MAX_NAMESPACES;
use pf_play::{
    Collected, Failed, INPUT_LIMIT, MemoryBytes, Options, Reading, ReplayFault, Replayed, Sink,
    Source, Writing, frames_of, replay,
};
use pf_script::{Cause, Refusal, ScriptFault};
use std::alloc::{AllocError, Global};
use std::io::{self, ErrorKind, Read};
use std::test::Fail;

pub(crate) const OPTIONS: Options<'static> = Options {
    only: None,
    tree_heap: None,
    fill: 165,
};

/// Gives these bytes and then line feeds, a byte at a time, and fails at one read. Whoever asks it once more finds the
/// end.
#[derive(Debug, Drop)]
struct Breaking {
    front: &'static [u8],
    fails_at: u32,
    asked: u32,
    failures: u64,
}

impl Source for Breaking {
    ghost use Rattle.std.specs.Prelude.{None};

    ghost input = { λ r. record { remaining = None; failures = r.failures } };

    fn read(&mut self, buffer: &mut [u8]) -> Result<usize, Failed> {
        self.asked = self.asked.saturating_add(1);
        if self.asked == self.fails_at {
            self.failures = self.failures.saturating_add(1);
            return Err(Failed);
        }
        if self.asked > self.fails_at || buffer.is_empty() {
            return Ok(0);
        }
        let (byte, rest) = self.front.split_first().unwrap_or((&b'\n', b""));
        buffer[0] = *byte;
        self.front = rest;
        Ok(1)
    }
}

/// Gives lines of comment as long as what it is asked for, but for its first byte and the last ones of the lines, as
/// far as it has bytes left.
#[derive(Debug, Drop)]
struct Comments {
    first: u8,
    last: u8,
    left: usize,
}

impl Source for Comments {
    ghost use Rattle.std.specs.Prelude.{None};

    ghost input = { λ _. record { remaining = None; failures = 0 } };

    fn read(&mut self, buffer: &mut [u8]) -> Result<usize, Failed> {
        let n = self.left.min(buffer.len());
        let (front, _) = buffer.split_at_mut(n);
        front.fill(b'#');
        if let [first, .., last] = front {
            *first = self.first;
            *last = self.last;
        }
        self.first = b'#';
        self.left -= n;
        Ok(n)
    }
}

/// Takes some bytes, one at a time, and then refuses once: it fails, or takes none. Whoever asks it once more finds
/// that it takes all. It counts the strays: those that it takes and this text doesn't have at their place.
#[derive(Debug, Drop)]
pub(crate) struct Full {
    text: &'static [u8],
    room: u32,
    fails: bool,
    pub(crate) asked: u32,
    pub(crate) strays: u32,
    refusals: u64,
}

impl Full {
    pub(crate) fn new(text: &'static [u8], room: u32, fails: bool) -> Self {
        Full {
            text,
            room,
            fails,
            asked: 0,
            strays: 0,
            refusals: 0,
        }
    }
}

impl Sink for Full {
    ghost use Rattle.std.specs.Prelude.{None};

    ghost output = { λ w. record { contents = None; refusals = w.refusals } };

    fn write(&mut self, bytes: &[u8]) -> Result<usize, Failed> {
        let expected = self.text.get(self.asked as usize);
        self.asked = self.asked.saturating_add(1);
        if bytes.is_empty() {
            return Ok(0);
        }
        if self.asked <= self.room {
            self.strays = self
                .strays
                .saturating_add(u32::from(bytes.first() != expected));
            return Ok(1);
        }
        if self.asked - self.room > 1 {
            return Ok(bytes.len());
        }
        self.refusals = self.refusals.saturating_add(1);
        if self.fails { Err(Failed) } else { Ok(0) }
    }
}

/// A reader of std that gives some bytes a read, and fails at one read. Whoever asks it once more finds the end.
#[derive(Debug, Drop)]
struct Stopping<'a> {
    rest: &'a [u8],
    fails_at: u32,
    asked: u32,
}

impl<'a> Read for Stopping<'a> {
    fn read(&mut self, buffer: &mut [u8]) -> io::Result<usize> {
        self.asked = self.asked.saturating_add(1);
        if self.asked == self.fails_at {
            return Err(io::Error::from(ErrorKind::Interrupted));
        }
        if self.asked > self.fails_at {
            return Ok(0);
        }
        let n = self.rest.len().min(buffer.len()).min(1000);
        let (front, back) = self.rest.split_at(n);
        let (room, _) = buffer.split_at_mut(n);
        room.copy_from_slice(front);
        self.rest = back;
        Ok(n)
    }
}

/// Whether a script is refused with this text, and nothing is written.
pub(crate) fn is_refused(alloc: Global, script: &str, text: &str) -> Result<bool, Fail> {
    let mut reader = MemoryBytes::new(script.as_bytes());
    let mut writer = Collected::new(alloc);
    let Err(ReplayFault::Script(refusal)) = replay(alloc, &mut reader, &mut writer, &OPTIONS) else {
        return Ok(false);
    };
    Ok(writer.as_slice().is_empty() && refusal.to_string(alloc)?.as_str() == text)
}

/// A script of one namespace too many.
fn one_too_many(alloc: Global) -> Result<String, AllocError> {
    let mut script = String::from_str(alloc, "pool 65536\n")?;
    for i in 0..MAX_NAMESPACES {
        script.push_str(format!(in alloc; "space n{i} 1\n")?.as_str())?;
    }
    script.push_str("space last x\n")?;
    Ok(script)
}

#[test]
fn too_many_namespaces(rt: HostRuntime) -> Result<(), Fail> {
    let script = one_too_many(rt.alloc())?;
    let text = format!(in rt.alloc(); "line {}: too many namespaces", MAX_NAMESPACES + 2)?;
    assert!(rt; is_refused(rt.alloc(), script.as_str(), text.as_str())?);
    Ok(())
}

/// One line of this length behind `#`, whether a line feed ends it, and what is told.
const LONG_LINES: [(usize, bool, &str); 4] = [
    (2_200_000, true, "accepted"),
    (2_200_001, true, "line 1: too long"),
    (2_200_000, false, "line 1: cut short"),
    (2_200_001, false, "line 1: too long"),
];

/// What is told of a script of one line.
fn verdict_of(alloc: Global, count: usize, is_ended: bool) -> Result<String, Fail> {
    let mut script = vec![in alloc; b'#'; count]?;
    if is_ended {
        script.push(b'\n')?;
    }
    let mut reader = MemoryBytes::new(script.as_slice());
    let mut writer = Collected::new(alloc);
    match replay(alloc, &mut reader, &mut writer, &OPTIONS) {
        Err(fault) => Ok(fault.to_string(alloc)?),
        Ok(replayed) if replayed.nomem == 0 => Ok(String::from_str(alloc, "accepted")?),
        Ok(_) => Ok(String::from_str(alloc, "no memory")?),
    }
}

#[test]
fn long_lines(rt: HostRuntime) -> Result<(), Fail> {
    for (count, is_ended, told) in LONG_LINES {
        let verdict = verdict_of(rt.alloc(), count, is_ended)?;
        assert_eq!(rt; verdict.as_str(), told, "{count}");
    }
    Ok(())
}

/// What comes before the line feeds, and which read fails. The last script would be refused at its end for its first
/// line.
const BREAKS: [(&[u8], u32); 4] = [(b"", 1), (b"", 2), (b"", 70_000), (b"foo\n", 5)];

#[test]
fn readers_that_fail(rt: HostRuntime) -> Result<(), Fail> {
    let alloc = rt.alloc();
    for (front, fails_at) in BREAKS {
        let mut reader = Breaking {
            front,
            fails_at,
            asked: 0,
            failures: 0,
        };
        let mut writer = Collected::new(alloc);
        let result = replay(alloc, &mut reader, &mut writer, &OPTIONS);
        assert!(rt; matches!(result, Err(ReplayFault::ReadFault)));
        assert_eq!(rt; reader.asked, fails_at);
        assert!(rt; writer.as_slice().is_empty());
    }
    Ok(())
}

/// What a replay of so many bytes of comment answers, whose first byte is this one, and whose lines end with that one,
/// and how many it left.
fn replay_comments(
    alloc: Global,
    first: u8,
    last: u8,
    left: usize,
) -> (Result<Replayed, ReplayFault>, usize) {
    let mut reader = Comments { first, last, left };
    let mut writer = Collected::new(alloc);
    let result = replay(alloc, &mut reader, &mut writer, &OPTIONS);
    (result, reader.left)
}

#[test]
fn the_longest_input(rt: HostRuntime) {
    let (result, left) = replay_comments(rt.alloc(), b'#', b'\n', INPUT_LIMIT);
    assert!(rt; result.is_ok());
    assert_eq!(rt; left, 0);
}

#[test]
fn a_byte_more_than_the_longest_input(rt: HostRuntime) {
    let (result, left) = replay_comments(rt.alloc(), b'x', b'\n', INPUT_LIMIT + 1);
    assert!(rt; matches!(result, Err(ReplayFault::ReadFault)));
    assert_eq!(rt; left, 0);
}

/// A line that never ends is no line that is too long.
#[test]
fn a_reader_without_end(rt: HostRuntime) {
    let (result, _) = replay_comments(rt.alloc(), b'#', b'#', usize::MAX);
    assert!(rt; matches!(result, Err(ReplayFault::ReadFault)));
}

/// Why a run ended before its end, and how that reads.
const FAULTS: [(ReplayFault, &str); 5] = [
    (ReplayFault::NoMemory, "no memory"),
    (ReplayFault::ReadFault, "read fault"),
    (ReplayFault::WriteFault, "write fault"),
    (ReplayFault::NoSuchName, "no such name"),
    (
        ReplayFault::NeedsOneThread,
        "admit and retire need one thread",
    ),
];

/// The same of a script that isn't read.
const UNREAD: [(ScriptFault, &str); 3] = [
    (
        ScriptFault::Refused(Refusal {
            line: 3,
            cause: Cause::CutShort,
        }),
        "line 3: cut short",
    ),
    (ScriptFault::NoMemory, "no memory"),
    (ScriptFault::ReadFault, "read fault"),
];

#[test]
fn faults_have_their_texts(rt: HostRuntime) -> Result<(), Fail> {
    for (fault, text) in FAULTS {
        assert_eq!(rt; fault.to_string(rt.alloc())?.as_str(), text);
    }
    for (fault, text) in UNREAD {
        assert_eq!(rt; fault.to_string(rt.alloc())?.as_str(), text);
    }
    Ok(())
}

/// As many bytes as a write may have, all in digits.
#[test]
fn the_longest_data(rt: HostRuntime) -> Result<(), Fail> {
    let alloc = rt.alloc();
    let mut digits = String::new(alloc);
    for _ in 0..1_048_576 {
        digits.push_str("61")?;
    }
    let mut script = String::from_str(alloc, "pool 256\nspace a 256\na spawn 0 0 022\n")?;
    script.push_str("a pipe 1\na setsize 1 0 1048576\na write 1 1 ")?;
    script.push_str(digits.as_str())?;
    script.push_str("\na read 1 0 1048576\n")?;
    let mut text = String::from_str(alloc, "== a\n1: pid 1\n2: fds 0 1\n3: num 1048576\n")?;
    text.push_str("4: num 1048576\n5: bytes 1048576 ")?;
    text.push_str(digits.as_str())?;
    text.push('\n')?;
    let mut reader = MemoryBytes::new(script.as_bytes());
    let mut writer = Collected::new(alloc);
    let result = replay(alloc, &mut reader, &mut writer, &OPTIONS);
    assert!(rt; matches!(result, Ok(replayed) if replayed.nomem == 0));
    assert!(rt; writer.as_slice() == text.as_bytes());
    Ok(())
}

/// How many bytes are taken, and whether the next write fails or takes none.
const ROOMS: [(u32, bool); 4] = [(0, true), (0, false), (3, true), (3, false)];

#[test]
fn writers_that_fail(rt: HostRuntime) -> Result<(), Fail> {
    let alloc = rt.alloc();
    for (room, fails) in ROOMS {
        let mut reader = MemoryBytes::new(b"pool 4\nspace a 1\n");
        let mut writer = Full::new(b"== a\n", room, fails);
        let result = replay(alloc, &mut reader, &mut writer, &OPTIONS);
        assert!(rt; matches!(result, Err(ReplayFault::WriteFault)));
        assert_eq!(rt; (writer.asked, writer.strays), (room + 1, 0));
    }
    Ok(())
}

/// Which read fails, and how many are asked for.
const STOPS: [(u32, u32); 4] = [(1, 1), (2, 2), (100, 100), (2000, 1_802)];

#[test]
fn readers_of_std(rt: HostRuntime) -> Result<(), Fail> {
    let alloc = rt.alloc();
    let mut script = String::from_str(alloc, "pool 4\nspace a 1\n")?;
    let mut whole = String::from_str(alloc, "== a\n")?;
    for number in 1..=200_000 {
        script.push_str("a exit 1\n")?;
        whole.push_str(format!(in alloc; "{number}: err ESRCH\n")?.as_str())?;
    }
    for (fails_at, asked) in STOPS {
        let mut stopping = Stopping {
            rest: script.as_bytes(),
            fails_at,
            asked: 0,
        };
        let mut text = Vec::new(alloc);
        let result = replay(
            alloc,
            &mut Reading::new(&mut stopping),
            &mut Writing::new(&mut text),
            &OPTIONS,
        );
        let is_whole = asked < fails_at;
        assert_eq!(rt; matches!(result, Err(ReplayFault::ReadFault)), !is_whole);
        assert_eq!(rt; result.is_ok(), is_whole);
        assert_eq!(rt; stopping.asked, asked);
        assert!(rt;
            text.as_slice()
                == if is_whole {
                    whole.as_bytes()
                } else {
                    b"".as_slice()
                }
        );
    }
    Ok(())
}

#[test]
fn writers_of_std(rt: HostRuntime) -> Result<(), Fail> {
    let alloc = rt.alloc();
    for room in 0..6 {
        let mut text = *b"......";
        let (front, _) = text.split_at_mut(room);
        let mut reader = Reading::new(b"pool 4\nspace a 1\n".as_slice());
        let result = replay(alloc, &mut reader, &mut Writing::new(front), &OPTIONS);
        assert_eq!(rt; matches!(result, Err(ReplayFault::WriteFault)), room < 5);
        assert_eq!(rt; result.is_ok(), room == 5);
        assert!(rt; text[..room] == b"== a\n"[..room]);
    }
    Ok(())
}

#[test]
fn frames_hold_the_fill(rt: HostRuntime) -> Result<(), Fail> {
    let alloc = rt.alloc();
    for fill in [0, 165, 255] {
        let frames = frames_of(alloc, 3, fill)?;
        assert_eq!(rt; frames.len(), 3);
        for frame in &frames {
            assert!(rt; frame.view(0, 4096).iter().all(|byte| *byte == fill));
        }
    }
    Ok(())
}

/// More bytes than the replayer asks a reader for at once.
const MANY: usize = 200_000;

#[test]
fn memory_gives_all_at_once(rt: HostRuntime) -> Result<(), Fail> {
    let bytes = Vec::from_elem(rt.alloc(), b'a', MANY)?;
    let mut buffer = Vec::from_elem(rt.alloc(), 0u8, MANY + 1)?;
    let mut reader = MemoryBytes::new(bytes.as_slice());
    assert!(rt; matches!(reader.read(&mut buffer), Ok(MANY)));
    assert!(rt; buffer.starts_with(bytes.as_slice()));
    assert!(rt; matches!(reader.read(&mut buffer), Ok(0)));
    Ok(())
}

#[test]
fn memory_takes_all_at_once(rt: HostRuntime) -> Result<(), Fail> {
    let bytes = Vec::from_elem(rt.alloc(), b'a', MANY)?;
    let mut writer = Collected::new(rt.alloc());
    assert!(rt; matches!(writer.write(bytes.as_slice()), Ok(MANY)));
    assert!(rt; writer.as_slice() == bytes.as_slice());
    Ok(())
}
