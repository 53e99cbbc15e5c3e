use pf_frame::PoolFault;
use pf_script::ScriptFault;
use std::alloc::{AllocError, AllocFailed};
use thiserror::Error;

/// What keeps a recorded program from being told its text.
#[derive(Debug, Drop, Error)]
pub(crate) enum Trouble {
    /// A growth of memory was refused outside a step.
    #[error("no memory")]
    NoMemory,
    /// A script is refused.
    #[error("a script that is refused: {0}")]
    Refused(ScriptFault),
    /// No hub can be opened for two scripts.
    #[error("no hub: {0}")]
    NoHub(PoolFault),
    /// A script has a step of a namespace that isn't there.
    #[error("a step of no namespace")]
    NoNamespace,
    /// A line of a script is no step.
    #[error("a line that is no step")]
    NoStep,
    /// A step that is played again on another hub, by its place from 0, is answered otherwise there.
    #[error("step {0} is answered otherwise on another hub")]
    Otherwise(usize),
    /// Another text is printed.
    #[error("prints another text")]
    Text,
}

impl From<AllocError> for Trouble {
    fn from(_: AllocError) -> Self {
        Trouble::NoMemory
    }
}

impl<T: Drop> From<AllocFailed<T>> for Trouble {
    fn from(_: AllocFailed<T>) -> Self {
        Trouble::NoMemory
    }
}
