//! Where a path's slashes are, and how many they are, so that room for its names is asked for at once.

ghost use Rattle.std.specs.Prelude.{◌≡◌, ◌<◌, length, map, nat_eq};
ghost use Rattle.std.specs.List.{count_by, position_or_len};
ghost use Rattle.std.specs.Simd.Lanes.{mask_l};

use std::simd::prelude::*;

/// How many bytes are looked at at once.
const LANES: usize = 16;

// Marks the slashes among 16 bytes: bit k is for the byte at k.
#[inline(always)]
fn marks_of(block: u8x16) -> u64
    ensures { result ≡ mask_l (map (λ b. nat_eq b 47) block) }
{
    block.simd_eq(u8x16::splat(b'/')).to_bitmask()
}

// How many of 16 bytes are slashes.
#[inline(always)]
fn slashes_among(block: u8x16) -> usize
    ensures { result ≡ count_by (λ b. nat_eq b 47) block }
{
    marks_of(block).count_ones() as usize
}

// How many of fewer than 16 bytes are slashes: there is none among the zeros behind these.
fn slashes_in_few(text: &[u8]) -> usize
    requires { length text.now < LANES }
    ensures { result ≡ count_by (λ b. nat_eq b 47) text.now }
{
    let mut block = [0; LANES];
    block[..text.len()].copy_from_slice(text);
    slashes_among(u8x16::from_array(block))
}

/// How many bytes of a text are slashes.
pub(crate) fn slashes(text: &[u8]) -> usize
    ensures { result ≡ count_by (λ b. nat_eq b 47) text.now }
{
    let mut count = 0;
    let mut rest = text;
    while rest.len() >= LANES {
        let (block, behind) = rest.split_at(LANES);
        count += slashes_among(u8x16::from_slice(block));
        rest = behind;
    }
    count + slashes_in_few(rest)
}

/// How many bytes of a text stand before its first slash: all of them where it has none.
#[inline(always)]
pub(crate) fn before_slash(text: &[u8]) -> usize
    ensures { result ≡ position_or_len (λ b. nat_eq b 47) text.now }
{
    if text.len() >= LANES {
        let marks = marks_of(u8x16::from_slice(text));
        if marks != 0 {
            return marks.trailing_zeros() as usize;
        }
    }
    for k in 0..text.len() {
        if text[k] == b'/' {
            return k;
        }
    }
    text.len()
}
