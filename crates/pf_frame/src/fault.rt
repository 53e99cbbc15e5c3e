ghost use Rattle.std.specs.Prelude.{◌≡◌, ◌≤◌, length, sum};
ghost use Rattle.pf_frame.specs.Faults.{fault_of};

use pf_base::{MAX_FRAMES, MAX_NAMESPACES};
use thiserror::Error;

/// Why frames can't be shared out under some reservations. The first that applies is given, in this order.
#[derive(Clone, Copy, Debug, PartialEq, Eq, Error)]
pub enum PoolFault {
    /// There are more than 64 reservations.
    #[error("there are more than 64 reservations")]
    TooManyNamespaces,
    /// There are more than 65,536 frames.
    #[error("there are more than 65536 frames")]
    TooManyFrames,
    /// The reservations' sum is above the number of frames.
    #[error("{sum} frames are reserved, of {frames}")]
    ReservesExceed {
        /// The sum of the reservations.
        sum: u64,
        /// How many frames there are.
        frames: u32,
    },
    /// Memory has run out.
    #[error("out of memory")]
    NoMemory,
}

// The sum of the reservations.
fn sum_of(reserves: &[u32]) -> u64
    requires { length reserves.now ≤ 64 }
    ensures { result ≡ sum reserves.now }
{
    reserves.iter().map(|reserve| u64::from(*reserve)).sum()
}

impl PoolFault {
    /// The first test that so many frames and these reservations fail. It takes no memory, and a pool and a depot make
    /// it before they ask for any.
    pub fn first(frames: usize, reserves: &[u32]) -> Option<PoolFault>
        ensures { result ≡ fault_of frames reserves.now }
    {
        if reserves.len() > MAX_NAMESPACES {
            return Some(PoolFault::TooManyNamespaces);
        }
        if frames > MAX_FRAMES {
            return Some(PoolFault::TooManyFrames);
        }
        let sum = sum_of(reserves);
        let frames = frames as u32;
        if sum > u64::from(frames) {
            return Some(PoolFault::ReservesExceed { sum, frames });
        }
        None
    }
}
