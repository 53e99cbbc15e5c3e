//! Random numbers and bytes, of which payloads are cut.

use crate::random::below;
use pf_base::{ByteString, PAGE_SIZE};
use rand_core::utils::NextWord;
use rand_pcg::Pcg32;
use std::alloc::{AllocError, Global};

/// How many words of random bytes there are.
const WORDS: u32 = 131_072;

/// How many bytes a line has: from 20 to 200.
pub(crate) fn line(random: &mut Pcg32) -> u32 {
    20 + below(random, 181)
}

/// Random bytes, made once: a payload is a piece of them that begins anywhere, so seldom two are the same.
#[derive(Drop)]
pub(crate) struct Source {
    alloc: Global,
    bytes: Vec<u8>,
}

impl Source {
    /// The bytes of a seed.
    pub(crate) fn new(alloc: Global, seed: u32) -> Result<Source, AllocError> {
        let mut random = Pcg32::new(u64::from(seed), 0);
        let mut bytes = Vec::with_capacity(alloc, WORDS as usize * 4)?;
        for _ in 0..WORDS {
            bytes.extend_from_slice(&random.next_word().to_le_bytes())?;
        }
        Ok(Source { alloc, bytes })
    }

    /// Where the payloads' memory is.
    pub(crate) fn alloc(&self) -> Global {
        self.alloc
    }

    /// So many bytes, at most a page, from a random place.
    pub(crate) fn payload(&self, random: &mut Pcg32, len: u32) -> Result<ByteString, AllocError> {
        let start = below(random, WORDS * 4 - PAGE_SIZE as u32) as usize;
        let len = (len as usize).min(PAGE_SIZE);
        match self.bytes.get(start..start + len) {
            Some(bytes) => ByteString::from_slice(self.alloc, bytes),
            None => ByteString::from_slice(self.alloc, &[]),
        }
    }
}
