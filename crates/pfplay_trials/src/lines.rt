//! The lines of a file. Empty ones, and those that begin with `#`, say nothing. Those between a line `N times` and a
//! line `end` stand N times: a word `{K+S}` in them is K in the first round, and S more in each further one; `{K-S}` is
//! S less in each, `{K}` stands for `{K+1}`, and an `x` before the K makes two hexadecimal digits of the number.

use crate::flaw::Flaw;
use std::alloc::Global;

/// A line, by its number in the file.
#[derive(Drop)]
pub(crate) struct Line {
    pub(crate) number: u64,
    pub(crate) text: String,
}

/// The number that the inside of braces stands for in a round.
fn number_at(braced: &str, round: u32) -> Option<u32> {
    if let Some((first, step)) = braced.split_once('-') {
        let way = step.parse::<u32>().ok()?.saturating_mul(round);
        return Some(first.parse::<u32>().ok()?.saturating_sub(way));
    }
    let (first, step) = braced.split_once('+').unwrap_or((braced, "1"));
    let way = step.parse::<u32>().ok()?.saturating_mul(round);
    Some(first.parse::<u32>().ok()?.saturating_add(way))
}

/// Pushes what the inside of braces stands for in a round.
fn push_braced(text: &mut String, braced: &str, line: &Line, round: u32) -> Result<(), Flaw> {
    let alloc = *text.allocator();
    let (braced, is_hex) = match braced.strip_prefix('x') {
        Some(rest) => (rest, true),
        None => (braced, false),
    };
    let Some(number) = number_at(braced, round) else {
        return Err(Flaw::NoRow(line.number));
    };
    let digits = if is_hex {
        format!(in alloc; "{number:02x}")?
    } else {
        format!(in alloc; "{number}")?
    };
    text.push_str(digits.as_str())?;
    Ok(())
}

/// A line as it stands in a round.
fn in_round(alloc: Global, line: &Line, round: u32) -> Result<Line, Flaw> {
    let mut text = String::new(alloc);
    for part in line.text.as_str().split('{') {
        match part.split_once('}') {
            Some((braced, rest)) => {
                push_braced(&mut text, braced, line, round)?;
                text.push_str(rest)?;
            }
            None => text.push_str(part)?,
        }
    }
    Ok(Line {
        number: line.number,
        text,
    })
}

/// Pushes each of these lines so many times.
fn push_rounds(lines: &mut Vec<Line>, block: &[Line], rounds: u32) -> Result<(), Flaw> {
    let alloc = *lines.allocator();
    for round in 0..rounds {
        for line in block {
            lines.push(in_round(alloc, line, round)?)?;
        }
    }
    Ok(())
}

/// The lines that say something, each as often as it stands.
pub(crate) fn lines_of(alloc: Global, file: &str) -> Result<Vec<Line>, Flaw> {
    let mut lines = Vec::new(alloc);
    let mut rounds = None;
    let mut block = Vec::new(alloc);
    for (number, line) in (1u64..).zip(file.split('\n')) {
        if line.is_empty() || line.starts_with('#') {
            continue;
        }
        if let Some(count) = line.strip_suffix(" times") {
            rounds = count.parse::<u32>().ok();
        } else if line == "end" {
            push_rounds(&mut lines, &block, rounds.unwrap_or(0))?;
            rounds = None;
            block.clear();
        } else {
            let text = String::from_str(alloc, line)?;
            let line = Line { number, text };
            match rounds {
                Some(_) => block.push(line)?,
                None => lines.push(in_round(alloc, &line, 0)?)?,
            }
        }
    }
    match block.first() {
        Some(line) => Err(Flaw::NoRow(line.number)),
        None => Ok(lines),
    }
}
