ghost use Rattle.pf_script.specs.Script.{FirstFaultDecides};

use pf_words::Cause;
use std::error::Error;
use std::fmt;
use std::fmt::{Display, Formatter};

/// The first faulty line of a script, counted from 1, and the first fault in it.
#[derive(Clone, Copy, Debug, PartialEq, Eq)]
pub struct Refusal {
    /// The line's number, the first is 1.
    pub line: u64,
    /// What is wrong with it.
    pub cause: Cause,
}

impl Display for Refusal {
    ghost use Rattle.std.specs.Prelude.{Some};
    ghost use Rattle.pf_script.specs.Notices.{refusal_text};

    ghost output = { λ refusal. Some (refusal_text refusal) };

    fn fmt<W: fmt::Write>(&self, f: &mut Formatter<W>) -> fmt::Result {
        let line = self.line;
        let cause = self.cause;
        write!(f, "line {line}: {cause}")
    }
}

impl Error for Refusal {}

/// The first faulty line decides what a script is refused for, whatever stands behind it. This function
/// computes nothing: its contract is the law.
pub fn first_fault_decides()
    ensures { FirstFaultDecides }
{}
