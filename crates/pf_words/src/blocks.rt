//! Hexadecimal digits in blocks: 32 digits, which stand for 16 bytes, are read at once.
ghost use Rattle.std.specs.Prelude.{◌≡◌, ◌<◌, ◌%◌, ◌/◌, length, map, take, option_map};
ghost use Rattle.hex.specs.Hex.{decode_of};
ghost use Rattle.pf_words.specs.Words.{decoded};
ghost use Rattle.pf_words.specs.Blocks.{value_or_none};
ghost use Rattle.pf_words.specs.declared.blocks.TheConstants.{DIGITS};

use std::simd::prelude::*;

/// How many bytes the digits of a block stand for.
const BYTES: usize = 16;

/// How many digits a block has.
pub const DIGITS: usize = 32;

/// What stands for the value of a byte that is no digit: more than any digit's.
const NONE: u8 = 255;

/// The value of each digit, and `NONE` in place of each byte that is none.
#[inline(always)]
fn values_of(digits: u8x16) -> u8x16
    ensures { result ≡ map value_or_none digits }
{
    let from_zero = digits - u8x16::splat(b'0');
    // A small letter has one bit that its capital lacks.
    let from_a = (digits | u8x16::splat(0x20)) - u8x16::splat(b'a');
    let of_letter = from_a
        .simd_lt(u8x16::splat(6))
        .select(from_a + u8x16::splat(10), u8x16::splat(NONE));
    from_zero
        .simd_lt(u8x16::splat(10))
        .select(from_zero, of_letter)
}

/// The bytes that a block's digits stand for in pairs, none where one of them is no digit.
#[inline(always)]
pub fn block_of(text: &[u8]) -> Option<[u8; BYTES]>
    requires { length text.now ≡ DIGITS }
    ensures { result ≡ decoded (decode_of text.now) }
{
    let front = u8x16::from_slice(text);
    let back = u8x16::from_slice(&text[BYTES..]);
    let highs = values_of(front.shuffle(
        back,
        [0, 2, 4, 6, 8, 10, 12, 14, 16, 18, 20, 22, 24, 26, 28, 30],
    ));
    let lows = values_of(front.shuffle(
        back,
        [1, 3, 5, 7, 9, 11, 13, 15, 17, 19, 21, 23, 25, 27, 29, 31],
    ));
    if (highs | lows).simd_gt(u8x16::splat(15)).to_bitmask() == 0 {
        Some((highs * u8x16::splat(16) + lows).to_array())
    } else {
        None
    }
}

/// The same of fewer digits, whose bytes stand in front: the others are those of zeros.
pub fn last_block_of(text: &[u8]) -> Option<[u8; BYTES]>
    requires short { length text.now < DIGITS }
    requires even { length text.now % 2 ≡ 0 }
    ensures { option_map (λ bytes. take (length text.now / 2) bytes) result ≡ decoded (decode_of text.now) }
{
    let mut digits = [b'0'; DIGITS];
    digits[..text.len()].copy_from_slice(text);
    block_of(&digits)
}
