//! The hexadecimal digits of bytes in blocks: those of 16 bytes are made at once.
ghost use Rattle.std.specs.Prelude.{◌≡◌, ◌<◌, ◌*◌, length, map, take, slice_index};
ghost use Rattle.std.specs.Simd.Lanes.{Each1};
ghost use Rattle.hex.specs.Hex.{encode_lower, lower_digits};
ghost use Rattle.pf_script.specs.declared.digits.TheConstants.{BYTES};

use std::simd::prelude::*;

/// How many bytes a block has.
pub const BYTES: usize = 16;

/// How many digits they have.
pub const DIGITS: usize = 32;

/// The digits of numbers below 16.
#[inline(always)]
fn digits_of(values: u8x16) -> u8x16
    requires { Each1 (λ x. x < 16) values }
    ensures { result ≡ map (λ x. slice_index lower_digits x) values }
{
    values.simd_lt(u8x16::splat(10)).select(
        values + u8x16::splat(b'0'),
        values + u8x16::splat(b'a' - 10),
    )
}

/// The digits of a block of bytes, in lower case.
#[inline(always)]
pub fn block_digits(bytes: &[u8]) -> [u8; DIGITS]
    requires { length bytes.now ≡ BYTES }
    ensures { result ≡ encode_lower bytes.now }
{
    let block = u8x16::from_slice(bytes);
    let highs = digits_of(block >> u8x16::splat(4));
    let lows = digits_of(block & u8x16::splat(15));
    let digits: u8x32 = highs.shuffle(
        lows,
        [
            0, 16, 1, 17, 2, 18, 3, 19, 4, 20, 5, 21, 6, 22, 7, 23, 8, 24, 9, 25, 10, 26, 11, 27,
            12, 28, 13, 29, 14, 30, 15, 31,
        ],
    );
    digits.to_array()
}

/// The digits of fewer bytes stand in front: the others are those of zeros.
#[inline(always)]
pub fn last_block_digits(bytes: &[u8]) -> [u8; DIGITS]
    requires { length bytes.now < BYTES }
    ensures { take (2 * length bytes.now) result ≡ encode_lower bytes.now }
{
    let mut block = [0; BYTES];
    block[..bytes.len()].copy_from_slice(bytes);
    block_digits(&block)
}
