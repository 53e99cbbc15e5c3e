ghost use Rattle.std.specs.Prelude.{◌≡◌, ◌+◌, ◌≤◌, ◌<◌, ◌^◌, length, is_some, None, IfOk};
ghost use Rattle.pf_script.specs.Script.{blank};
ghost use Rattle.pf_script.specs.Judged.{told, Judges, IsOneLine};
ghost use Rattle.pf_script.specs.Faults.{Reads};

use crate::fault::ScriptFault;
use crate::refusal::Refusal;
use crate::script::Script;
use pf_words::{LineFault, cut_at, find_near};
use std::alloc::{AllocError, Global};

/// Judges a script's lines one after another, until one is faulty.
#[derive(Debug, Drop)]
pub struct Judge {
    script: Script,
    // The next line's, from 1.
    number: u64,
    // The first fault.
    refusal: Option<Refusal>,
}

impl Judge {
    /// Before the first line.
    pub fn new(alloc: Global) -> Result<Self, AllocError>
        ensures { IfOk result (λ j. j ≡ record { script = blank; number = 1; refusal = None }) }
    {
        Ok(Judge {
            script: Script::blank(alloc)?,
            number: 1,
            refusal: None,
        })
    }

    /// Whether a line was faulty.
    pub fn has_refused(&self) -> bool
        ensures { result ≡ is_some self.now.refusal }
    {
        self.refusal.is_some()
    }

    /// Judges the lines that end in `text`, and hands back what stands behind the last of them, or nothing where one
    /// is faulty.
    pub fn take<'a>(&mut self, alloc: Global, text: &'a [u8]) -> Result<&'a [u8], AllocError>
        requires sound { self.old.refusal ≡ None }
        requires few { self.old.number + length text.now < 2 ^ 64 }
        ensures judged { IfOk result (λ rest. Judges self.old text.now self.new rest.now) }
        ensures one_line { IfOk result (λ rest. IsOneLine rest.now) }
        ensures counted { IfOk result (λ rest.
            self.new.number + length rest.now ≤ self.old.number + length text.now) }
    {
        let mut words = Vec::new(alloc);
        let mut rest = text;
        while let Some(k) = find_near(b'\n', rest) {
            let (line, after) = cut_at(rest, k);
            match self.script.line(alloc, &mut words, line) {
                Ok(()) => {}
                Err(LineFault::NoMemory) => return Err(AllocError),
                Err(LineFault::Refused(cause)) => {
                    self.refusal = Some(Refusal {
                        line: self.number,
                        cause,
                    });
                    return Ok(&[]);
                }
            }
            self.number += 1;
            rest = after;
        }
        Ok(rest)
    }

    /// The script, where no line feed stands in what is left.
    pub fn end(self, rest: &[u8]) -> Result<Script, ScriptFault>
        requires { IsOneLine rest.now }
        ensures { Reads result (told self rest.now) }
    {
        if let Some(refusal) = self.refusal {
            return Err(ScriptFault::Refused(refusal));
        }
        if let Err(fault) = self.script.rest(rest) {
            return Err(ScriptFault::at(self.number, fault));
        }
        Ok(self.script)
    }
}
