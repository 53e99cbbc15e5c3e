ghost use Rattle.std.specs.Prelude.{◌≡◌, ℕ, ◌+◌, ◌≤◌, length, drop};

use pf_base::ByteString;
use std::marker::Model;

/// A write of which some bytes went in, or none yet. Each call takes constant time and no memory.
///
/// A contract sees all bytes of the write, and how many of them went in.
// All bytes are kept, as the machine's definition has it: the rest is never moved.
#[derive(Debug, PartialEq, Eq, Drop)]
pub struct UnfinishedWrite {
    bytes: ByteString,
    written: usize,
}

impl Model for UnfinishedWrite {
    ghost use Rattle.std.specs.Prelude.{◌≤◌, length};
    ghost use Rattle.pf_parked.specs.UnfinishedWrite.{UnfinishedWrite as Seen};

    ghost Value = { Seen };

    ghost view = { λ w. record { bytes = w.bytes; written = w.written } };

    ghost invariant = { λ w. w.written ≤ length w.bytes };

    ghost inverse = { λ w. record { bytes = w.bytes; written = w.written } };
}

impl UnfinishedWrite {
    /// A write of these bytes, of which none went in yet.
    pub fn new(bytes: ByteString) -> Self
        ensures bytes { result.bytes ≡ bytes }
        ensures written { result.written ≡ 0 }
    {
        UnfinishedWrite { bytes, written: 0 }
    }

    /// How many bytes the whole write has.
    pub fn total(&self) -> u64
        ensures { result ≡ length self.now.bytes }
    {
        self.bytes.as_slice().len() as u64
    }

    /// How many of them went in.
    pub fn written(&self) -> u64
        ensures written { result ≡ self.now.written }
        ensures most { result ≤ length self.now.bytes }
    {
        self.written as u64
    }

    /// All its bytes.
    pub fn bytes(&self) -> &[u8]
        ensures { result.now ≡ self.now.bytes }
    {
        self.bytes.as_slice()
    }

    /// The bytes that are left.
    pub fn rest(&self) -> &[u8]
        ensures { result.now ≡ drop self.now.written self.now.bytes }
    {
        &self.bytes.as_slice()[self.written..]
    }

    /// Notes that the next `n` bytes went in.
    pub fn advance(&mut self, n: u64)
        requires { self.old.written + n ≤ length self.old.bytes }
        ensures { self.new ≡ record self.old { written = self.old.written + n } }
    {
        prove!(n <= self.total() - self.written());
        self.written += n as usize;
    }
}
