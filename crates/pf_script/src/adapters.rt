ghost use Rattle.std.specs.Prelude.{◌≡◌};

use crate::port::{Failed, Sink, Source};
use std::io;

/// A `Source` over any reader of std. An error of whatever kind is a failure.
#[derive(Debug, Drop)]
pub struct Reading<R> {
    reader: R,
    failures: u64,
}

impl<R: io::Read> Reading<R> {
    /// Reads from here on what `reader` gives.
    pub fn new(reader: R) -> Self
        ensures { result ≡ record { reader = reader; failures = 0 } }
    {
        Reading {
            reader,
            failures: 0,
        }
    }
}

impl<R: io::Read> Source for Reading<R> {
    ghost input = { λ r. record { remaining = R.remaining r.reader; failures = r.failures } };

    fn read(&mut self, buffer: &mut [u8]) -> Result<usize, Failed> {
        match self.reader.read(buffer) {
            Ok(n) => Ok(n),
            Err(_) => {
                self.failures = self.failures.saturating_add(1);
                Err(Failed)
            }
        }
    }
}

/// A `Sink` over any writer of std. An error of whatever kind is a failure, and to take none of some bytes is one too.
#[derive(Debug, Drop)]
pub struct Writing<W> {
    writer: W,
    refusals: u64,
}

impl<W: io::Write> Writing<W> {
    /// Writes to `writer` from here on.
    pub fn new(writer: W) -> Self
        ensures { result ≡ record { writer = writer; refusals = 0 } }
    {
        Writing {
            writer,
            refusals: 0,
        }
    }
}

impl<W: io::Write> Sink for Writing<W> {
    ghost output = { λ w. record { contents = W.contents w.writer; refusals = w.refusals } };

    fn write(&mut self, bytes: &[u8]) -> Result<usize, Failed> {
        match self.writer.write(bytes) {
            Ok(n) => {
                if n == 0 && !bytes.is_empty() {
                    self.refusals = self.refusals.saturating_add(1);
                }
                Ok(n)
            }
            Err(_) => {
                self.refusals = self.refusals.saturating_add(1);
                Err(Failed)
            }
        }
    }
}
