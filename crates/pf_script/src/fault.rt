ghost use Rattle.std.specs.Prelude.{◌≡◌};
ghost use Rattle.pf_script.specs.Faults.{at_line};

use crate::refusal::Refusal;
use pf_words::LineFault;
use std::alloc::AllocError;
use thiserror::Error;

/// Why a script isn't read.
#[derive(Debug, Clone, Copy, Error)]
pub enum ScriptFault {
    /// A line is faulty: this is the first, after the whole input was read.
    #[error("{0}")]
    Refused(Refusal),
    /// A growth of memory was refused.
    #[error("no memory")]
    NoMemory,
    /// The reader failed, or gave one byte more than `INPUT_LIMIT`.
    #[error("read fault")]
    ReadFault,
}

impl ScriptFault {
    /// The fault of the line with this number.
    pub fn at(line: u64, fault: LineFault) -> ScriptFault
        ensures { result ≡ at_line line fault }
    {
        match fault {
            LineFault::NoMemory => ScriptFault::NoMemory,
            LineFault::Refused(cause) => ScriptFault::Refused(Refusal { line, cause }),
        }
    }
}

impl From<AllocError> for ScriptFault {
    ghost use Rattle.pf_script.specs.declared.fault.ScriptFault.TheVariants.{NoMemory};

    ghost from_gives = { λ _ e. e ≡ NoMemory };

    fn from(_: AllocError) -> Self {
        ScriptFault::NoMemory
    }
}
