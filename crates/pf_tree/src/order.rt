//! The order of names.

ghost use Rattle.std.specs.Prelude.{◌≡◌, ◌+◌, ◌<◌, ◌≤◌, ℕ, length, slice_index};
ghost use Rattle.pf_machine.specs.FileMap.{name_cmp};
ghost use Rattle.pf_tree.specs.Words.{word_at};

use std::cmp::Ordering;

/// How many bytes of a name are compared at once.
const WORD: usize = 8;

// Eight bytes of a name as a number, the first byte the greatest: so numbers are in the order of the bytes.
fn word(name: &[u8], at: usize) -> u64
    requires inside { at + 8 ≤ length name.now }
    ensures value { result ≡ word_at name.now at }
    ensures bytes { (k : ℕ) → slice_index name.now k < 256 }
{
    u64::from_be_bytes([
        name[at],
        name[at + 1],
        name[at + 2],
        name[at + 3],
        name[at + 4],
        name[at + 5],
        name[at + 6],
        name[at + 7],
    ])
}

/// The order of two names by bytes. Where both have eight bytes or more, their first eight are compared as one number, and
/// up to sixteen so are the last eight, which may overlap them: those before are the same then.
pub(crate) fn compare(a: &[u8], b: &[u8]) -> Ordering
    ensures { result ≡ name_cmp a.now b.now }
{
    let both = a.len().min(b.len());
    if both < WORD {
        return a.cmp(b);
    }
    let (x, y) = (word(a, 0), word(b, 0));
    if x != y {
        return x.cmp(&y);
    }
    if both > 2 * WORD {
        return a.cmp(b);
    }
    let (x, y) = (word(a, both - WORD), word(b, both - WORD));
    if x != y {
        return x.cmp(&y);
    }
    a.len().cmp(&b.len())
}
