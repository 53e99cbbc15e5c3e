ghost use Rattle.std.specs.Prelude.{◌≡◌};

use crate::errno::Errno;
use std::alloc::AllocError;

/// Why a call gives no reply of its own.
#[derive(Clone, Copy, Debug, PartialEq, Eq)]
pub enum Fault {
    /// It is refused: the process is told this error.
    Errno(Errno),
    /// A growth of memory was refused.
    NoMemory,
}

impl From<Errno> for Fault {
    ghost use Rattle.pf_base.specs.declared.fault.Fault.TheVariants.{Errno};

    ghost from_gives = { λ e f. f ≡ Errno e };

    fn from(e: Errno) -> Self {
        Fault::Errno(e)
    }
}

impl From<AllocError> for Fault {
    ghost use Rattle.pf_base.specs.declared.fault.Fault.TheVariants.{NoMemory};

    ghost from_gives = { λ _ f. f ≡ NoMemory };

    fn from(_: AllocError) -> Self {
        Fault::NoMemory
    }
}
