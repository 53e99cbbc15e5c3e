//! Lines of a script that are refused, for most causes that there are: whoever goes on behind one has the script without
//! it.

use crate::scripts::script_of;
use pf_script::Script;
use std::alloc::{AllocError, Global};
use std::test::Fail;

/// Lines, and whether each is taken.
const LINES: [(&str, bool); 30] = [
    ("space a 1", false),
    ("pool x", false),
    ("pool 4", true),
    ("pool 4", false),
    ("space a 5", false),
    ("space a x", false),
    ("space a 1 2 3 65537", false),
    ("space A 1", false),
    ("space a 1", true),
    ("space a 1", false),
    ("space b 4", false),
    ("space b 3", true),
    ("a jump 1", false),
    ("a  exit 1", false),
    ("a exit x", false),
    ("a exit 1", true),
    ("a exit 1 1", false),
    ("a write 1 1 61x", false),
    ("a mkdir 1 /a_directory_of_many_bytes 8", false),
    ("a open 1 /a_directory_of_many_bytes q", false),
    ("c exit 1", false),
    ("space c 0", false),
    ("admit c x", false),
    ("admit b 1", false),
    ("admit c 1", true),
    ("admit c 1", false),
    ("retire d", false),
    ("retire c c", false),
    ("retire c", true),
    ("b fork 1", true),
];

/// Whether each line is taken or not as it is to be. Those that are taken are the text.
fn are_judged(alloc: Global, script: &mut Script, text: &mut String) -> Result<bool, AllocError> {
    let mut words = Vec::new(alloc);
    for (line, is_taken) in LINES {
        if script.line(alloc, &mut words, line.as_bytes()).is_ok() != is_taken {
            return Ok(false);
        }
        if is_taken {
            text.push_str(line)?;
            text.push('\n')?;
        }
    }
    Ok(true)
}

/// Whether two scripts say the same.
fn are_same(one: &Script, other: &Script) -> bool {
    if one.frames() != other.frames()
        || one.opening() != other.opening()
        || one.count_spaces() != other.count_spaces()
        || one.steps() != other.steps()
    {
        return false;
    }
    for ns in 0..one.count_spaces().min(other.count_spaces()) {
        if one.name(ns) != other.name(ns)
            || one.config(ns) != other.config(ns)
            || one.places(ns) != other.places(ns)
        {
            return false;
        }
    }
    true
}

/// Whether a script that has all lines is the one of those that are taken.
fn is_theirs(alloc: Global, script: &mut Script) -> Result<bool, Fail> {
    let mut text = String::new(alloc);
    if !are_judged(alloc, script, &mut text)? {
        return Ok(false);
    }
    let other = script_of(alloc, text.as_str())?;
    let same = are_same(script, &other);
    drop(other);
    Ok(same)
}

#[test]
fn a_line_that_is_refused_changes_nothing(rt: HostRuntime) -> Result<(), Fail> {
    let mut script = Script::blank(rt.alloc())?;
    let told = is_theirs(rt.alloc(), &mut script);
    assert!(rt; script.steps().len() == 4 && script.count_spaces() == 3);
    drop(script);
    assert!(rt; told?);
    Ok(())
}
