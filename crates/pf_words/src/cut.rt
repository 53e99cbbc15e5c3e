ghost use Rattle.std.specs.Prelude.{◌≡◌, ◌+◌, ◌<◌, length, take, drop, map, OnOk};
ghost use Rattle.memchr.specs.Find.{IsFirstByte, is_byte};
ghost use Rattle.pf_words.specs.Words.{pieces_of};

use memchr::memchr;
use std::alloc::AllocError;

/// What stands before the byte at `k`, and what behind it.
pub fn cut_at(text: &[u8], k: usize) -> (&[u8], &[u8])
    requires { k < length text.now }
    ensures front { result.0.now ≡ take k text.now }
    ensures back { result.1.now ≡ drop (k + 1) text.now }
    ensures shorter { length result.1.now < length text.now }
{
    let (front, _) = text.split_at(k);
    let (_, back) = text.split_at(k + 1);
    (front, back)
}

/// How many bytes a piece mostly has at most.
const NEAR: usize = 16;

/// The place of the first byte equal to `cut`, which is mostly near: so the first bytes are looked at one by one.
#[inline(always)]
fn find(cut: u8, text: &[u8]) -> Option<usize>
    ensures { IsFirstByte (is_byte cut) text.now result }
{
    for k in 0..text.len().min(NEAR) {
        if text[k] == cut {
            return Some(k);
        }
    }
    if text.len() <= NEAR {
        return None;
    }
    memchr(cut, text)
}

/// The pieces between the bytes equal to `cut`, of which there is at least one, in place of what `found` had. They
/// are parts of `text`.
pub fn cut_into<'a>(found: &mut Vec<&'a [u8]>, cut: u8, text: &'a [u8]) -> Result<(), AllocError>
    ensures { OnOk result (map (λ w. w.now) found.new.items ≡ pieces_of cut text.now) }
{
    found.clear();
    let mut rest = text;
    while let Some(k) = find(cut, rest) {
        let (piece, after) = cut_at(rest, k);
        found.push(piece)?;
        rest = after;
    }
    found.push(rest)?;
    Ok(())
}
