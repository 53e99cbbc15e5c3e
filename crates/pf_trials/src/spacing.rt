//! Lines of a script with a word that has no byte, on both sides of the length up to which a line's spaces are marked
//! at once: all their words are put, as those of a line that is taken.

use pf_script::Script;
use std::alloc::{AllocError, Global};
use std::test::Fail;

/// What stands before and behind the word that fills a line up: the empty word is the first, the last or another.
const LINES: [(&str, &str); 3] = [(" ", " b c d e"), ("", " b c d e "), ("", " b c d  e")];

/// How many bytes the lines have.
const LENGTHS: [usize; 5] = [10, 31, 32, 33, 40];

/// A line of so many bytes.
fn line(alloc: Global, front: &str, back: &str, length: usize) -> Result<String, AllocError> {
    let mut line = String::from_str(alloc, front)?;
    for _ in front.len()..length.saturating_sub(back.len()) {
        line.push('a')?;
    }
    line.push_str(back)?;
    Ok(line)
}

/// Whether these are all words of a line.
fn are_all(words: &[&[u8]], line: &str) -> bool {
    let mut put = words.iter();
    for word in line.split(' ') {
        if put.next() != Some(&word.as_bytes()) {
            return false;
        }
    }
    put.next().is_none()
}

/// Whether a line isn't taken, and all its words are put.
fn has_its_words(alloc: Global, line: &str) -> Result<bool, AllocError> {
    let mut script = Script::blank(alloc)?;
    let mut words = Vec::new(alloc);
    let is_taken = script.line(alloc, &mut words, line.as_bytes()).is_ok();
    drop(script);
    Ok(!is_taken && are_all(&words, line))
}

#[test]
fn a_line_with_an_empty_word_has_its_words(rt: HostRuntime) -> Result<(), Fail> {
    for (front, back) in LINES {
        for length in LENGTHS {
            let line = line(rt.alloc(), front, back, length)?;
            assert_eq!(rt; line.len(), length);
            assert!(rt; has_its_words(rt.alloc(), line.as_str())?, "{line}");
        }
    }
    Ok(())
}
