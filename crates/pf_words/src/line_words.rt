//! The words of a line, and whether each of them has a byte.
ghost use Rattle.std.specs.Prelude.{◌≡◌, ◌≤◌, true, not, length, map, IfOk, OnOk};
ghost use Rattle.std.specs.List.{list_any};
ghost use Rattle.pf_words.specs.Words.{words_of};
ghost use Rattle.pf_words.specs.Marks.{is_no_word};
ghost use Rattle.pf_words.specs.declared.marks.TheConstants.{MARKED};

use crate::cut::{cut_at, cut_into};
use crate::marks::{MARKED, marks_in};
use std::alloc::AllocError;

// Whether one of these has no byte.
fn has_empty(words: &[&[u8]]) -> bool
    ensures { result ≡ list_any is_no_word (map (λ w. w.now) words.now) }
{
    for word in words {
        if word.is_empty() {
            return true;
        }
    }
    false
}

// The words of a short line, if each has a byte: its spaces are all marked first. It stops at a word without one.
fn cut_short_line<'a>(words: &mut Vec<&'a [u8]>, line: &'a [u8]) -> Result<bool, AllocError>
    requires { length line.now ≤ MARKED }
    ensures words { IfOk result (λ full. full ≡ true → map (λ w. w.now) words.new.items ≡ words_of line.now) }
    ensures full { IfOk result (λ full. full ≡ not (list_any is_no_word (words_of line.now))) }
{
    words.clear();
    let mut rest = line;
    // Those of `rest`.
    let mut spaces = marks_in(b' ', line);
    while spaces != 0 {
        let k = spaces.trailing_zeros() as usize;
        if k == 0 {
            return Ok(false);
        }
        let (word, after) = cut_at(rest, k);
        words.push(word)?;
        rest = after;
        spaces >>= k + 1;
    }
    if rest.is_empty() {
        return Ok(false);
    }
    words.push(rest)?;
    Ok(true)
}

/// Puts the words of a line in place of what `words` had, and says whether each of them has a byte. They are parts of
/// `line`. They are all put before it is said that one has none: where memory for them is wanted, that is the fault.
pub fn cut_line<'a>(words: &mut Vec<&'a [u8]>, line: &'a [u8]) -> Result<bool, AllocError>
    ensures words { OnOk result (map (λ w. w.now) words.new.items ≡ words_of line.now) }
    ensures full { IfOk result (λ full. full ≡ not (list_any is_no_word (words_of line.now))) }
{
    if line.len() <= MARKED && cut_short_line(words, line)? {
        return Ok(true);
    }
    cut_into(words, b' ', line)?;
    Ok(!has_empty(words.as_slice()))
}
