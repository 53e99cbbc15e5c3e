ghost use Rattle.std.specs.Prelude.{◌≡◌, []};

use crate::port::{Failed, Sink, Source};
use std::alloc::Global;

/// A `Source` over bytes in memory. No read of it fails.
#[derive(Debug, Drop)]
pub struct MemoryBytes<'a> {
    rest: &'a [u8],
}

impl<'a> MemoryBytes<'a> {
    /// Gives these bytes.
    pub fn new(bytes: &'a [u8]) -> Self
        ensures { result.rest ≡ bytes.entry }
    {
        MemoryBytes { rest: bytes }
    }
}

impl<'a> Source for MemoryBytes<'a> {
    ghost use Rattle.std.specs.Prelude.{Some};

    ghost input = { λ r. record { remaining = Some r.rest.now; failures = 0 } };

    fn read(&mut self, buffer: &mut [u8]) -> Result<usize, Failed> {
        let n = self.rest.len().min(buffer.len());
        let (front, back) = self.rest.split_at(n);
        let (room, _) = buffer.split_at_mut(n);
        room.copy_from_slice(front);
        self.rest = back;
        Ok(n)
    }
}

/// A `Sink` that keeps what it is given in memory. A write of it fails where memory is wanted.
#[derive(Debug, Drop)]
pub struct Collected {
    bytes: Vec<u8>,
    refusals: u64,
}

impl Collected {
    /// Nothing so far.
    pub fn new(alloc: Global) -> Self
        ensures empty { result.bytes.items ≡ [] }
        ensures sound { result.refusals ≡ 0 }
    {
        Collected {
            bytes: Vec::new(alloc),
            refusals: 0,
        }
    }

    /// What was written.
    pub fn as_slice(&self) -> &[u8]
        ensures { result.now ≡ self.now.bytes.items }
    {
        self.bytes.as_slice()
    }
}

impl Sink for Collected {
    ghost use Rattle.std.specs.Prelude.{Some};

    ghost output = { λ w. record { contents = Some w.bytes.items; refusals = w.refusals } };

    fn write(&mut self, bytes: &[u8]) -> Result<usize, Failed> {
        if self.bytes.extend_from_slice(bytes).is_err() {
            self.refusals = self.refusals.saturating_add(1);
            return Err(Failed);
        }
        if bytes.is_empty() {
            return Ok(0);
        }
        Ok(bytes.len())
    }
}
