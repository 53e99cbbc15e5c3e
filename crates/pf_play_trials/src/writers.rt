//! Writers of std that take a few bytes at a time and stop once, at each byte of a text, and then go on as if nothing
//! had been: it is a write fault, whatever the failure is called, exactly the bytes before it were taken, and the
//! writer isn't asked again.

use crate::hello::{SCRIPT, TEXT};
use crate::texts::OPTIONS;
use pf_play::{MemoryBytes, ReplayFault, Writing, replay};
use std::io::{self, ErrorKind, Write};
use std::test::Fail;

/// Takes so many bytes, a few at a time, and then stops once: it fails, or takes none. It counts the strays:
/// bytes that it takes and the text doesn't have at their place, and calls that give it none.
#[derive(Debug, Drop)]
struct Stopping {
    room: usize,
    at_once: usize,
    failure: Option<ErrorKind>,
    taken: usize,
    strays: usize,
    asked_again: bool,
}

impl Stopping {
    /// Stops, and goes on where it is asked again.
    fn stop(&mut self) -> io::Result<()> {
        self.room = usize::MAX;
        match self.failure {
            Some(kind) => Err(io::Error::from(kind)),
            None => Ok(()),
        }
    }
}

impl Write for Stopping {
    fn write(&mut self, bytes: &[u8]) -> io::Result<usize> {
        if bytes.is_empty() {
            self.strays = self.strays.saturating_add(1);
            return Ok(0);
        }
        self.asked_again = self.room == usize::MAX;
        if self.taken >= self.room {
            self.stop()?;
            return Ok(0);
        }
        let count = bytes.len().min(self.at_once).min(self.room - self.taken);
        let (front, _) = bytes.split_at(count);
        let (_, wanted) = TEXT.as_bytes().split_at(self.taken.min(TEXT.len()));
        if !wanted.starts_with(front) {
            self.strays = self.strays.saturating_add(1);
        }
        self.taken = self.taken.saturating_add(count);
        Ok(count)
    }

    fn flush(&mut self) -> io::Result<()> {
        self.strays = self.strays.saturating_add(1);
        Ok(())
    }
}

/// What its failure is called, where it fails.
const FAILURES: [Option<ErrorKind>; 4] = [
    Some(ErrorKind::Interrupted),
    Some(ErrorKind::WouldBlock),
    Some(ErrorKind::TimedOut),
    None,
];

#[test]
fn a_writer_that_stops_at_each_byte(rt: HostRuntime) -> Result<(), Fail> {
    for room in 0..TEXT.len() {
        for failure in FAILURES {
            let mut stopping = Stopping {
                room,
                at_once: 3,
                failure,
                taken: 0,
                strays: 0,
                asked_again: false,
            };
            let mut reader = MemoryBytes::new(SCRIPT.as_bytes());
            let mut writer = Writing::new(&mut stopping);
            let end = replay(rt.alloc(), &mut reader, &mut writer, &OPTIONS);
            assert!(rt; matches!(end, Err(ReplayFault::WriteFault)), "{room}");
            assert_eq!(rt; (stopping.taken, stopping.strays), (room, 0));
            assert!(rt; !stopping.asked_again);
        }
    }
    Ok(())
}
