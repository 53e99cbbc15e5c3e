//! A long script is read, and its text is written, in large pieces, whatever the words of a command line ask for: each
//! call of a reader or of a writer may be one of the system.

use crate::texts::OPTIONS;
use crate::words::{WAYS, words_of};
use pf_play::{Failed, NoGate, Reading, Sink, Source, Writing, obey, replay};
use std::alloc::{AllocError, Global};
use std::io::{self, Read, Write};
use std::sync::Wait;
use std::test::Fail;
use std::thread::Threads;

/// How many steps the script has.
const STEPS: usize = 20_000;

/// The least bytes of a read, and of a write, but for the last: their buffers have room for few more.
const READ: usize = 60_000;

const WRITTEN: usize = 8_000;

/// Gives as many bytes as there is room for, and counts how often it is asked.
#[derive(Debug, Drop)]
struct Giving<'a> {
    rest: &'a [u8],
    asked: usize,
}

impl Source for Giving<'_> {
    ghost use Rattle.std.specs.Prelude.{None};

    ghost input = { λ _. record { remaining = None; failures = 0 } };

    fn read(&mut self, buffer: &mut [u8]) -> Result<usize, Failed> {
        self.asked = self.asked.saturating_add(1);
        let n = self.rest.len().min(buffer.len());
        let (front, back) = self.rest.split_at(n);
        let (room, _) = buffer.split_at_mut(n);
        room.copy_from_slice(front);
        self.rest = back;
        Ok(n)
    }
}

/// The same of std.
#[derive(Debug, Drop)]
struct GivingOfStd<'a> {
    rest: &'a [u8],
    asked: usize,
}

impl Read for GivingOfStd<'_> {
    fn read(&mut self, buffer: &mut [u8]) -> io::Result<usize> {
        self.asked = self.asked.saturating_add(1);
        let n = self.rest.len().min(buffer.len());
        let (front, back) = self.rest.split_at(n);
        let (room, _) = buffer.split_at_mut(n);
        room.copy_from_slice(front);
        self.rest = back;
        Ok(n)
    }
}

/// Takes all bytes, and counts them and how often it is asked.
#[derive(Debug, Drop)]
struct Taking {
    taken: usize,
    asked: usize,
}

impl Sink for Taking {
    ghost use Rattle.std.specs.Prelude.{None};

    ghost output = { λ _. record { contents = None; refusals = 0 } };

    fn write(&mut self, bytes: &[u8]) -> Result<usize, Failed> {
        self.asked = self.asked.saturating_add(1);
        self.taken = self.taken.saturating_add(bytes.len());
        Ok(bytes.len())
    }
}

/// The same of std.
#[derive(Debug, Drop)]
struct TakingOfStd {
    taken: usize,
    asked: usize,
}

impl Write for TakingOfStd {
    fn write(&mut self, bytes: &[u8]) -> io::Result<usize> {
        self.asked = self.asked.saturating_add(1);
        self.taken = self.taken.saturating_add(bytes.len());
        Ok(bytes.len())
    }

    fn flush(&mut self) -> io::Result<()> {
        Ok(())
    }
}

/// Steps of a process that isn't there.
fn script(alloc: Global) -> Result<String, AllocError> {
    let mut script = String::from_str(alloc, "pool 1\nspace red 1\n")?;
    for _ in 0..STEPS {
        script.push_str("red exit 7\n")?;
    }
    Ok(script)
}

/// How often a reader and a writer are asked, how many bytes are written, and what the program ends with.
fn asked<T: Threads + Wait + Sync>(
    rt: &T,
    alloc: Global,
    words: &[String],
    script: &str,
) -> (usize, usize, usize, u8) {
    let mut reader = Giving {
        rest: script.as_bytes(),
        asked: 0,
    };
    let mut writer = Taking { taken: 0, asked: 0 };
    let status = obey(rt, alloc, words, &mut reader, &mut writer, &NoGate);
    (reader.asked, writer.asked, writer.taken, status as u8)
}

#[test]
fn few_pieces_are_read_and_written(rt: HostRuntime) -> Result<(), Fail> {
    let script = script(rt.alloc())?;
    for texts in WAYS {
        let words = words_of(rt.alloc(), texts)?;
        let (reads, writes, taken, status) = asked(&rt, rt.alloc(), &words, script.as_str());
        assert_eq!(rt; status, 0, "{texts:?}");
        // the last of the reads finds the end
        assert!(rt; reads <= script.len() / READ + 2, "{texts:?}");
        assert!(rt;
            taken > 10 * STEPS && writes <= taken / WRITTEN + 1,
            "{texts:?}"
        );
    }
    Ok(())
}

/// A help is written at once, and nothing is read for it.
#[test]
fn a_help_is_one_piece(rt: HostRuntime) -> Result<(), Fail> {
    let words = words_of(rt.alloc(), &["pfplay", "--help"])?;
    let (reads, writes, taken, status) = asked(&rt, rt.alloc(), &words, "");
    assert_eq!(rt; (reads, writes, status), (0, 1, 2));
    assert!(rt; taken > 1_000);
    Ok(())
}

/// Those of std are asked no more often.
#[test]
fn few_pieces_are_read_and_written_by_std(rt: HostRuntime) -> Result<(), Fail> {
    let script = script(rt.alloc())?;
    let mut giving = GivingOfStd {
        rest: script.as_bytes(),
        asked: 0,
    };
    let mut taking = TakingOfStd { taken: 0, asked: 0 };
    let end = replay(
        rt.alloc(),
        &mut Reading::new(&mut giving),
        &mut Writing::new(&mut taking),
        &OPTIONS,
    );
    assert!(rt; end.is_ok());
    assert!(rt; giving.asked <= script.len() / READ + 2);
    assert!(rt;
        taking.taken > 10 * STEPS && taking.asked <= (taking.taken / WRITTEN).saturating_add(1)
    );
    Ok(())
}
