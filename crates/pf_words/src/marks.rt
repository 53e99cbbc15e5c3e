//! The places of a byte in a short text, all at once: a bit is set for each.
ghost use Rattle.std.specs.Prelude.{◌≡◌, ◌≤◌, ◌<◌, length};
ghost use Rattle.memchr.specs.Find.{IsFirstByte, is_byte};
ghost use Rattle.pf_words.specs.Marks.{marks};
ghost use Rattle.pf_words.specs.declared.marks.TheConstants.{MARKED};

use memchr::memchr;
use std::simd::prelude::*;

/// How many bytes are compared at once.
const LANES: usize = 16;

/// How many bytes a text has at most whose places are marked.
pub const MARKED: usize = 32;

/// Marks the places of `byte` among 16 bytes.
#[inline(always)]
fn marks_of(byte: u8, block: u8x16) -> u64
    ensures { result ≡ marks byte block }
{
    block.simd_eq(u8x16::splat(byte)).to_bitmask()
}

/// Marks the places of `byte` in less than 16 bytes: there are none among the zeros behind these.
fn marks_in_few(byte: u8, text: &[u8]) -> u64
    requires some { 0 < byte }
    requires few { length text.now < LANES }
    ensures { result ≡ marks byte text.now }
{
    let mut block = [0; LANES];
    block[..text.len()].copy_from_slice(text);
    marks_of(byte, u8x16::from_array(block))
}

/// Marks the places of `byte`, which isn't zero: bit k is for the byte at k.
#[inline(always)]
pub fn marks_in(byte: u8, text: &[u8]) -> u64
    requires some { 0 < byte }
    requires short { length text.now ≤ MARKED }
    ensures { result ≡ marks byte text.now }
{
    if text.len() < LANES {
        return marks_in_few(byte, text);
    }
    let front = marks_of(byte, u8x16::from_slice(text));
    // The last 16 bytes begin with some of the first: their marks are shifted out.
    let start = text.len() - LANES;
    let back = marks_of(byte, u8x16::from_slice(&text[start..])) >> (LANES - start);
    front + (back << LANES)
}

/// The place of the first byte equal to `byte`, which isn't zero and is mostly near.
#[inline(always)]
pub fn find_near(byte: u8, text: &[u8]) -> Option<usize>
    requires { 0 < byte }
    ensures { IsFirstByte (is_byte byte) text.now result }
{
    if text.len() >= MARKED {
        let (near, _) = text.split_at(MARKED);
        let marks = marks_in(byte, near);
        if marks != 0 {
            return Some(marks.trailing_zeros() as usize);
        }
    }
    memchr(byte, text)
}
