use pf_frame::PoolFault;
use pf_script::ScriptFault;
use std::alloc::{AllocError, AllocFailed};
use thiserror::Error;

/// What keeps a file from being as it says.
#[derive(Debug, Drop, Error)]
pub(crate) enum Flaw {
    /// A growth of memory was refused outside a step.
    #[error("no memory")]
    NoMemory,
    /// A line is none that a file may have.
    #[error("line {0}: no row")]
    NoRow(u64),
    /// The script of the table that begins at a line is refused.
    #[error("line {0}: a script that is refused: {1}")]
    Refused(u64, ScriptFault),
    /// The namespaces of the table that begins at a line can't be opened.
    #[error("line {0}: no namespaces: {1}")]
    NoHost(u64, PoolFault),
    /// The script of the table that begins at a line has another number of steps than the table has answers.
    #[error("line {0}: {1} steps have {2} answers")]
    Steps(u64, usize, usize),
    /// A step is answered otherwise: the first letters of its answer.
    #[error("line {0}: answered: {1}")]
    Answer(u64, String),
    /// Behind a step a namespace holds another number of frames.
    #[error("line {0}: namespace {1} holds {2} frames")]
    Held(u64, u32, u32),
    /// Behind a step another number of frames is free.
    #[error("line {0}: {1} frames are free")]
    Free(u64, u32),
    /// The replayer writes another text of the script of the table that begins at a line.
    #[error("line {0}: another text is written over frames of {1}")]
    Text(u64, u8),
    /// Something else is told of the script in a line.
    #[error("line {0}: something else is told")]
    Verdict(u64),
}

impl From<AllocError> for Flaw {
    fn from(_: AllocError) -> Self {
        Flaw::NoMemory
    }
}

impl<T: Drop> From<AllocFailed<T>> for Flaw {
    fn from(_: AllocFailed<T>) -> Self {
        Flaw::NoMemory
    }
}
