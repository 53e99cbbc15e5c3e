//! Numbers and bytes by a generator, all from one seed.

ghost use Rattle.std.specs.Prelude.{◌<◌};

use pf_base::ByteString;
use rand_core::utils::NextWord;
use rand_pcg::Pcg32;
use std::alloc::{AllocError, Global};

/// How many bytes payloads are cut from.
const STORE: usize = 2_097_152;

/// A number below this one.
pub(crate) fn below(random: &mut Pcg32, bound: u32) -> u32
    requires { 0 < bound }
    ensures { result < bound }
{
    random.next_word() % bound
}

/// Random bytes, from which payloads are cut.
#[derive(Drop)]
pub(crate) struct Store {
    bytes: Vec<u8>,
}

impl Store {
    pub(crate) fn new(alloc: Global, random: &mut Pcg32) -> Result<Store, AllocError> {
        let mut bytes = Vec::with_capacity(alloc, STORE)?;
        for _ in 0..STORE / 4 {
            for byte in random.next_word().to_le_bytes() {
                bytes.push(byte)?;
            }
        }
        Ok(Store { bytes })
    }

    /// So many bytes from some place on.
    pub(crate) fn cut(
        &self,
        alloc: Global,
        random: &mut Pcg32,
        size: usize,
    ) -> Result<ByteString, AllocError> {
        let start = below(random, 1_048_576) as usize;
        let end = start.saturating_add(size);
        match self.bytes.as_slice().get(start..end) {
            Some(bytes) => ByteString::from_slice(alloc, bytes),
            None => ByteString::from_slice(alloc, b"?"),
        }
    }
}

/// The numbers from 0 on, so many, in an order of the generator's.
pub(crate) fn shuffled(
    alloc: Global,
    random: &mut Pcg32,
    count: u32,
) -> Result<Vec<u32>, AllocError> {
    let mut order = Vec::with_capacity(alloc, count as usize)?;
    for number in 0..count {
        order.push(number)?;
    }
    for done in 1..count {
        let left = count - done;
        let at = below(random, left) as usize;
        let last = left as usize;
        if at < order.len() && last < order.len() {
            order.as_mut_slice().swap(at, last);
        }
    }
    Ok(order)
}
