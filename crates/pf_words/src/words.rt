ghost use Rattle.std.specs.Prelude.{◌≡◌, ◌≤◌, ◌*◌, ◌∷◌, [], Some, None, Ok, length, map, not};
ghost use Rattle.std.specs.List.{list_all};
ghost use Rattle.pf_words.specs.Words.{digit, digits, number, positive, octal, numbers_of, decoded, hex_bytes, hex_byte, repeated, bytes_of_parts, pieces_of, is_letter, is_name_byte, begins_with_letter, is_kept_word, is_name, is_canonical};
ghost use Rattle.pf_words.specs.Arguments.{or_cause, bytes_at};
ghost use Rattle.pf_words.specs.Faults.{Gives};
ghost use Rattle.pf_base.specs.declared.TheConstants.{BYTES_IN_PLACE};
ghost use Rattle.hex.specs.Hex.{decode_of};

use crate::blocks::{DIGITS, block_of, last_block_of};
use crate::cause::Cause;
use crate::cut::cut_at;
use crate::fault::LineFault;
use memchr::memchr;
use pf_base::{BYTES_IN_PLACE, ByteString, Groups};
use std::alloc::Global;

/// The most times that a byte may be repeated.
const MOST_REPEATED: u64 = 2_097_152;

/// The value of a digit of a base up to ten.
fn digit_of(base: u8, c: u8) -> Option<u8>
    requires { base ≤ 10 }
    ensures { result ≡ digit base c }
{
    if 48 <= c && c < 48 + base {
        Some(c - 48)
    } else {
        None
    }
}

/// The number that digits stand for, at most `most`.
fn digits_of(base: u8, most: u64, word: &[u8]) -> Option<u64>
    requires low { 1 ≤ base }
    requires high { base ≤ 10 }
    ensures { result ≡ digits base most word.now }
{
    let mut value: u64 = 0;
    for c in word {
        let Some(digit) = digit_of(base, *c) else {
            return None;
        };
        let next = u128::from(value) * u128::from(base) + u128::from(digit);
        if next > u128::from(most) {
            return None;
        }
        value = next as u64;
    }
    Some(value)
}

/// The number that one decimal digit stands for, at most `most`.
#[tactic(auto, unfolding(crate::specs::Words::digits_from))]
fn one_digit_of(most: u64, c: u8) -> Option<u64>
    ensures { result ≡ digits 10 most (c ∷ []) }
{
    let n = u64::from(digit_of(10, c)?);
    if n <= most { Some(n) } else { None }
}

/// Whether there are digits, and no zero at the front of others.
fn is_canonical_word(word: &[u8]) -> bool
    ensures { result ≡ is_canonical word.now }
{
    match word {
        [] => false,
        [_] => true,
        [first, _, ..] => *first != b'0',
    }
}

/// A decimal number from 0 to `most`, without leading zeros.
pub fn number_of(most: u64, word: &[u8]) -> Option<u64>
    ensures { result ≡ number most word.now }
{
    // Most numbers have one digit.
    if let [c] = word {
        return one_digit_of(most, *c);
    }
    if is_canonical_word(word) {
        digits_of(10, most, word)
    } else {
        None
    }
}

/// One to five octal digits, at most 07777.
pub fn octal_of(word: &[u8]) -> Option<u64>
    ensures { result ≡ octal word.now }
{
    if 1 <= word.len() && word.len() <= 5 {
        digits_of(8, 0o7777, word)
    } else {
        None
    }
}

/// Numbers of 32 bits with commas between them.
pub fn groups_of(alloc: Global, word: &[u8]) -> Result<Groups, LineFault>
    ensures { Gives result (or_cause (numbers_of word.now) Cause.BadNumber) }
{
    let mut numbers = Vec::new(alloc);
    let mut rest = word;
    while let Some(k) = memchr(b',', rest) {
        let (piece, after) = cut_at(rest, k);
        let Some(number) = number_of(0xffff_ffff, piece) else {
            return Err(LineFault::Refused(Cause::BadNumber));
        };
        numbers.push(number as u32)?;
        rest = after;
    }
    let Some(number) = number_of(0xffff_ffff, rest) else {
        return Err(LineFault::Refused(Cause::BadNumber));
    };
    numbers.push(number as u32)?;
    Ok(Groups::new(alloc, numbers)?)
}

/// A decimal number from 1 to `most`, without leading zeros.
fn positive_of(most: u64, word: &[u8]) -> Option<u64>
    ensures { result ≡ positive most word.now }
{
    let n = number_of(most, word)?;
    if n == 0 { None } else { Some(n) }
}

// Hexadecimal digits in pairs, of so few bytes that they are kept in place.
fn few_hex_of(word: &[u8]) -> Result<ByteString, LineFault>
    requires { length word.now ≤ 2 * BYTES_IN_PLACE }
    ensures { Gives result (or_cause (decoded (decode_of word.now)) Cause.BadData) }
{
    let mut bytes = [0; BYTES_IN_PLACE];
    let count = word.len() / 2;
    match hex::decode_to_slice(word, &mut bytes[..count]) {
        Ok(()) => Ok(ByteString::in_place(bytes, count)),
        Err(_) => Err(LineFault::Refused(Cause::BadData)),
    }
}

// Hexadecimal digits in pairs, of many bytes: whole blocks are read at once, and what is left behind them as a block
// that is filled up with zeros.
fn many_hex_of(alloc: Global, word: &[u8]) -> Result<ByteString, LineFault>
    ensures { Gives result (or_cause (decoded (decode_of word.now)) Cause.BadData) }
{
    if word.len() % 2 != 0 {
        return Err(LineFault::Refused(Cause::BadData));
    }
    let mut bytes = Vec::with_capacity(alloc, word.len() / 2)?;
    let mut rest = word;
    while rest.len() >= DIGITS {
        let (block, behind) = rest.split_at(DIGITS);
        let Some(decoded) = block_of(block) else {
            return Err(LineFault::Refused(Cause::BadData));
        };
        bytes.extend_from_slice(&decoded)?;
        rest = behind;
    }
    let Some(last) = last_block_of(rest) else {
        return Err(LineFault::Refused(Cause::BadData));
    };
    bytes.extend_from_slice(&last[..rest.len() / 2])?;
    Ok(ByteString::new(alloc, bytes)?)
}

/// Hexadecimal digits in pairs, at least one.
fn hex_of(alloc: Global, word: &[u8]) -> Result<ByteString, LineFault>
    ensures { Gives result (or_cause (hex_bytes word.now) Cause.BadData) }
{
    if word.is_empty() {
        return Err(LineFault::Refused(Cause::BadData));
    }
    if word.len() <= 2 * BYTES_IN_PLACE {
        return few_hex_of(word);
    }
    many_hex_of(alloc, word)
}

/// The byte of two hexadecimal digits.
fn hex_byte_of(word: &[u8]) -> Option<u8>
    ensures { result ≡ hex_byte word.now }
{
    let mut byte = [0u8; 1];
    match hex::decode_to_slice(word, &mut byte) {
        Ok(()) => Some(byte[0]),
        Err(_) => None,
    }
}

/// The byte of two hexadecimal digits so many times. It is written out once, with no copy.
#[tactic(auto, using(crate::proofs::Data::repeated_in_place))]
fn repeated_of(alloc: Global, count: &[u8], pair: &[u8]) -> Result<ByteString, LineFault>
    ensures { Gives result (or_cause (repeated count.now pair.now) Cause.BadData) }
{
    let Some(count) = positive_of(MOST_REPEATED, count) else {
        return Err(LineFault::Refused(Cause::BadData));
    };
    let Some(byte) = hex_byte_of(pair) else {
        return Err(LineFault::Refused(Cause::BadData));
    };
    if count as usize <= BYTES_IN_PLACE {
        return Ok(ByteString::in_place([byte; BYTES_IN_PLACE], count as usize));
    }
    let bytes = vec![in alloc; byte; count as usize]?;
    Ok(ByteString::new(alloc, bytes)?)
}

/// Hexadecimal digits, or a byte's with a star and how often it stands before them.
fn parts_of(alloc: Global, word: &[u8]) -> Result<ByteString, LineFault>
    ensures { Gives result (or_cause (bytes_of_parts (pieces_of 42 word.now)) Cause.BadData) }
{
    let Some(k) = memchr(b'*', word) else {
        return hex_of(alloc, word);
    };
    let (count, pair) = cut_at(word, k);
    match memchr(b'*', pair) {
        None => repeated_of(alloc, count, pair),
        Some(_) => Err(LineFault::Refused(Cause::BadData)),
    }
}

/// `-` for no byte, or bytes in hexadecimal digits, or one such byte that is repeated.
pub fn data_of(alloc: Global, word: &[u8]) -> Result<ByteString, LineFault>
    ensures { Gives result (bytes_at word.now) }
{
    if word == b"-".as_slice() {
        return Ok(ByteString::in_place([0; BYTES_IN_PLACE], 0));
    }
    parts_of(alloc, word)
}

fn is_letter_byte(c: u8) -> bool
    ensures { result ≡ is_letter c }
{
    97 <= c && c <= 122
}

fn is_byte_of_name(c: u8) -> bool
    ensures { result ≡ is_name_byte c }
{
    is_letter_byte(c) || ((48 <= c && c <= 57) || c == b'_')
}

fn starts_with_letter(word: &[u8]) -> bool
    ensures { result ≡ begins_with_letter word.now }
{
    match word {
        [] => false,
        [first, ..] => is_letter_byte(*first),
    }
}

fn has_name_bytes(word: &[u8]) -> bool
    ensures { result ≡ list_all is_name_byte word.now }
{
    word.iter().all(|c| is_byte_of_name(*c))
}

/// Whether a word begins a line of another kind.
fn is_reserved(word: &[u8]) -> bool
    ensures { result ≡ is_kept_word word.now }
{
    word == b"pool".as_slice()
        || word == b"space".as_slice()
        || word == b"admit".as_slice()
        || word == b"retire".as_slice()
}

/// Whether a word may name a namespace.
pub fn is_name_word(word: &[u8]) -> bool
    ensures { result ≡ is_name word.now }
{
    if !starts_with_letter(word) {
        return false;
    }
    if word.len() > 32 {
        return false;
    }
    if !has_name_bytes(word) {
        return false;
    }
    !is_reserved(word)
}
