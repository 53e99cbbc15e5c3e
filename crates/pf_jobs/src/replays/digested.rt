//! A sink that digests what it is given, however it is cut into pieces.

use crate::digest::FACTOR;
use pf_play::{Failed, Sink};
use std::alloc::{AllocError, Global};

/// So many bytes are digested at once.
const AT_ONCE: usize = 65_536;

/// A digest of all bytes that were written, and their number.
#[derive(Drop)]
pub(crate) struct Digested {
    kept: Vec<u8>,
    value: u64,
    bytes: u64,
    refusals: u64,
}

/// Goes on with a digest by a number.
fn mixed(value: u64, number: u64) -> u64 {
    (value ^ number).wrapping_mul(FACTOR).rotate_left(23)
}

/// Goes on with a digest by bytes: by words, in four lanes, so that this costs little beside their making.
fn mixed_bytes(value: u64, bytes: &[u8]) -> u64 {
    let (words, rest) = bytes.as_chunks::<8>();
    let (fours, last) = words.as_chunks::<4>();
    let mut lanes: [u64; 4] = [1, 2, 3, 4];
    for four in fours {
        let [a, b, c, d] = lanes;
        lanes = [
            a.rotate_left(7).wrapping_add(u64::from_le_bytes(four[0])),
            b.rotate_left(7).wrapping_add(u64::from_le_bytes(four[1])),
            c.rotate_left(7).wrapping_add(u64::from_le_bytes(four[2])),
            d.rotate_left(7).wrapping_add(u64::from_le_bytes(four[3])),
        ];
    }
    let mut value = value;
    for lane in lanes {
        value = mixed(value, lane);
    }
    for word in last {
        value = mixed(value, u64::from_le_bytes(*word));
    }
    for byte in rest {
        value = mixed(value, u64::from(*byte));
    }
    value
}

impl Digested {
    ghost use Rattle.std.specs.Prelude.{◌≡◌};

    pub(crate) fn new(alloc: Global) -> Result<Digested, AllocError> {
        Ok(Digested {
            kept: Vec::with_capacity(alloc, AT_ONCE)?,
            value: 0,
            bytes: 0,
            refusals: 0,
        })
    }

    fn digest_kept(&mut self)
        ensures { self.new.refusals ≡ self.old.refusals }
    {
        self.value = mixed_bytes(self.value, self.kept.as_slice());
        self.bytes = self.bytes.saturating_add(self.kept.len() as u64);
        self.kept.clear();
    }

    /// How many bytes were written, and their digest.
    pub(crate) fn told(mut self) -> (u64, u64) {
        self.digest_kept();
        (self.bytes, self.value)
    }
}

impl Sink for Digested {
    ghost use Rattle.std.specs.Prelude.{None};

    ghost output = { λ w. record { contents = None; refusals = w.refusals } };

    fn write(&mut self, bytes: &[u8]) -> Result<usize, Failed> {
        let n = AT_ONCE.saturating_sub(self.kept.len()).min(bytes.len());
        let (front, _) = bytes.split_at(n);
        if self.kept.extend_from_slice(front).is_err() {
            self.refusals = self.refusals.saturating_add(1);
            return Err(Failed);
        }
        if self.kept.len() >= AT_ONCE {
            self.digest_kept();
        }
        if n == 0 && !bytes.is_empty() {
            self.refusals = self.refusals.saturating_add(1);
        }
        Ok(n)
    }
}
