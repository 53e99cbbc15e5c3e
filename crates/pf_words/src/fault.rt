ghost use Rattle.std.specs.Prelude.{◌≡◌};

use crate::cause::Cause;
use std::alloc::{AllocError, AllocFailed};

/// Why a line isn't taken.
#[derive(Debug, Clone, Copy)]
pub enum LineFault {
    /// A growth of memory was refused.
    NoMemory,
    /// The line is faulty.
    Refused(Cause),
}

impl From<AllocError> for LineFault {
    ghost use Rattle.pf_words.specs.declared.fault.LineFault.TheVariants.{NoMemory};

    ghost from_gives = { λ _ e. e ≡ NoMemory };

    fn from(_: AllocError) -> Self {
        LineFault::NoMemory
    }
}

impl<T: Drop> From<AllocFailed<T>> for LineFault {
    ghost use Rattle.pf_words.specs.declared.fault.LineFault.TheVariants.{NoMemory};

    ghost from_gives = { λ _ e. e ≡ NoMemory };

    fn from(_: AllocFailed<T>) -> Self {
        LineFault::NoMemory
    }
}
