use pf_frame::PoolFault;
use pf_script::ScriptFault;
use std::alloc::{AllocError, AllocFailed};
use thiserror::Error;

/// Why a row has no text, or what came behind it.
#[derive(Debug, Drop, Error)]
pub(crate) enum End {
    /// Memory was refused outside a step.
    #[error("no memory")]
    NoMemory,
    /// Memory was refused at the end of a service.
    #[error("not closed")]
    NotClosed,
    /// The row's script can't be played.
    #[error("no script")]
    NoScript,
}

impl From<AllocError> for End {
    fn from(_: AllocError) -> Self {
        End::NoMemory
    }
}

impl<T: Drop> From<AllocFailed<T>> for End {
    fn from(_: AllocFailed<T>) -> Self {
        End::NoMemory
    }
}

impl From<ScriptFault> for End {
    fn from(fault: ScriptFault) -> Self {
        match fault {
            ScriptFault::NoMemory => End::NoMemory,
            _ => End::NoScript,
        }
    }
}

impl From<PoolFault> for End {
    fn from(fault: PoolFault) -> Self {
        match fault {
            PoolFault::NoMemory => End::NoMemory,
            _ => End::NoScript,
        }
    }
}
