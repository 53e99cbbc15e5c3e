use pf_base::ConfigFault;
use pf_frame::PoolFault;
use std::alloc::{AllocError, AllocFailed};
use std::io;
use thiserror::Error;

/// What keeps a host from its tenants.
#[derive(Debug, Drop, Error)]
pub(crate) enum Trouble {
    /// A growth of memory was refused.
    #[error("no memory")]
    NoMemory,
    /// A tenant's limits are out of their ranges.
    #[error("limits that can't be: {0}")]
    Limits(#[from] ConfigFault),
    /// The tenants can't have what they reserve.
    #[error("no hub: {0}")]
    NoHub(#[from] PoolFault),
    /// Standard output failed.
    #[error("no output: {0}")]
    Output(#[from] io::Error),
}

impl From<AllocError> for Trouble {
    fn from(_: AllocError) -> Self {
        Trouble::NoMemory
    }
}

impl<T: Drop> From<AllocFailed<T>> for Trouble {
    fn from(_: AllocFailed<T>) -> Self {
        Trouble::NoMemory
    }
}
