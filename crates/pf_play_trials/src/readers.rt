//! Readers that give a byte at a time and stop once, at each byte of a script, and then go on as if nothing had been.
//! One that fails is a read fault, whatever the failure is called, and nothing is written; where one gives none, the
//! input is over. Neither is asked again, whatever the words of a command line ask for. A reader that claims more bytes
//! than there was room for keeps no contract of a reader.

use crate::hello::{SCRIPT, TEXT};
use crate::texts::OPTIONS;
use crate::words::{WAYS, words_of};
use pf_play::{Collected, Failed, NoGate, Reading, ReplayFault, Source, obey, replay};
use std::alloc::{AllocError, Global};
use std::io::{self, ErrorKind, Read};
use std::sync::Wait;
use std::test::Fail;
use std::thread::Threads;

/// How a reader stops.
#[derive(Debug, Clone, Copy, PartialEq, Eq)]
enum Stop {
    /// It fails.
    Fails,
    /// It gives no byte.
    GivesNone,
}

/// Gives a byte at a time, stops once before one of them, and goes on where it is asked again.
#[derive(Debug, Drop)]
struct Stopping {
    rest: &'static [u8],
    stop: Stop,
    stops_at: usize,
    asked: usize,
    failures: u64,
}

impl Stopping {
    fn new(stop: Stop, stops_at: usize) -> Self {
        Stopping {
            rest: SCRIPT.as_bytes(),
            stop,
            stops_at,
            asked: 0,
            failures: 0,
        }
    }
}

impl Source for Stopping {
    ghost use Rattle.std.specs.Prelude.{None};

    ghost input = { λ r. record { remaining = None; failures = r.failures } };

    fn read(&mut self, buffer: &mut [u8]) -> Result<usize, Failed> {
        let place = self.asked;
        self.asked = self.asked.saturating_add(1);
        if place == self.stops_at {
            return match self.stop {
                Stop::Fails => {
                    self.failures = self.failures.saturating_add(1);
                    Err(Failed)
                }
                Stop::GivesNone => Ok(0),
            };
        }
        match self.rest.split_first() {
            Some((byte, rest)) if !buffer.is_empty() => {
                buffer[0] = *byte;
                self.rest = rest;
                Ok(1)
            }
            _ => Ok(0),
        }
    }
}

/// A reader of std that gives a byte at a time, fails once before one of them, by an interruption or otherwise, and goes
/// on where it is asked again.
#[derive(Debug, Drop)]
struct Failing {
    rest: &'static [u8],
    kind: ErrorKind,
    stops_at: usize,
    asked: usize,
}

impl Read for Failing {
    fn read(&mut self, buffer: &mut [u8]) -> io::Result<usize> {
        let place = self.asked;
        self.asked = self.asked.saturating_add(1);
        if place == self.stops_at {
            return Err(io::Error::from(self.kind));
        }
        match self.rest.split_first() {
            Some((byte, rest)) if !buffer.is_empty() => {
                buffer[0] = *byte;
                self.rest = rest;
                Ok(1)
            }
            _ => Ok(0),
        }
    }
}

/// What is told of the script's first bytes: the first lines of its text, or that its last line is cut short.
fn told(alloc: Global, front: &str) -> Result<String, AllocError> {
    let lines = front.split('\n').count();
    if !front.is_empty() && !front.ends_with('\n') {
        return format!(in alloc; "line {lines}: cut short");
    }
    let mut text = String::new(alloc);
    // The line of the pool tells nothing, and what stands behind the last line feed is no line.
    for line in TEXT.split('\n').take(lines.saturating_sub(2)) {
        text.push_str(line)?;
        text.push('\n')?;
    }
    Ok(text)
}

/// What is told of the script by a reader that gives none before this byte: its text, or why there is none.
fn told_by_reader(alloc: Global, stops_at: usize) -> Result<String, Fail> {
    let mut reader = Stopping::new(Stop::GivesNone, stops_at);
    let mut writer = Collected::new(alloc);
    let end = replay(alloc, &mut reader, &mut writer, &OPTIONS);
    if reader.asked != stops_at.saturating_add(1) {
        return Ok(String::from_str(alloc, "asked again")?);
    }
    match end {
        Ok(_) => Ok(String::from_utf8(Vec::from_slice(alloc, writer.as_slice())?)?),
        Err(fault) => Ok(fault.to_string(alloc)?),
    }
}

#[test]
fn a_reader_that_gives_none_at_each_byte(rt: HostRuntime) -> Result<(), Fail> {
    for stops_at in 0..=SCRIPT.len() {
        let front = SCRIPT.get(..stops_at).ok_or("no front")?;
        let wanted = told(rt.alloc(), front)?;
        let given = told_by_reader(rt.alloc(), stops_at)?;
        assert_eq!(rt; given.as_str(), wanted.as_str(), "{stops_at}");
    }
    Ok(())
}

#[test]
fn a_reader_that_fails_at_each_byte(rt: HostRuntime) -> Result<(), Fail> {
    for stops_at in 0..=SCRIPT.len() {
        let mut reader = Stopping::new(Stop::Fails, stops_at);
        let mut writer = Collected::new(rt.alloc());
        let end = replay(rt.alloc(), &mut reader, &mut writer, &OPTIONS);
        assert!(rt; matches!(end, Err(ReplayFault::ReadFault)), "{stops_at}");
        assert_eq!(rt; reader.asked, stops_at.saturating_add(1));
        assert!(rt; writer.as_slice().is_empty());
    }
    Ok(())
}

/// What failures of std are called.
const KINDS: [ErrorKind; 3] = [
    ErrorKind::Interrupted,
    ErrorKind::WouldBlock,
    ErrorKind::TimedOut,
];

#[test]
fn a_reader_of_std_that_fails_at_each_byte(rt: HostRuntime) -> Result<(), Fail> {
    for kind in KINDS {
        for stops_at in 0..=SCRIPT.len() {
            let mut failing = Failing {
                rest: SCRIPT.as_bytes(),
                kind,
                stops_at,
                asked: 0,
            };
            let mut writer = Collected::new(rt.alloc());
            let mut reader = Reading::new(&mut failing);
            let end = replay(rt.alloc(), &mut reader, &mut writer, &OPTIONS);
            assert!(rt; matches!(end, Err(ReplayFault::ReadFault)), "{stops_at}");
            assert_eq!(rt; failing.asked, stops_at.saturating_add(1));
            assert!(rt; writer.as_slice().is_empty());
        }
    }
    Ok(())
}

/// How often the program asks a reader that stops before this byte, and what it ends with.
fn asked<T: Threads + Wait + Sync>(
    rt: &T,
    alloc: Global,
    words: &[String],
    stop: Stop,
    stops_at: usize,
) -> (usize, u8) {
    let mut reader = Stopping::new(stop, stops_at);
    let mut writer = Collected::new(alloc);
    let status = obey(rt, alloc, words, &mut reader, &mut writer, &NoGate);
    (reader.asked, status as u8)
}

#[test]
fn no_words_have_a_reader_asked_again(rt: HostRuntime) -> Result<(), Fail> {
    for texts in WAYS {
        let words = words_of(rt.alloc(), texts)?;
        for stops_at in 0..=SCRIPT.len() {
            let times = stops_at.saturating_add(1);
            let (ended, _) = asked(&rt, rt.alloc(), &words, Stop::GivesNone, stops_at);
            assert_eq!(rt; ended, times, "{texts:?}");
            let failed = asked(&rt, rt.alloc(), &words, Stop::Fails, stops_at);
            assert_eq!(rt; failed, (times, 4), "{texts:?}");
        }
    }
    Ok(())
}
