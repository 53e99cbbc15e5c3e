//! The capacities of pipes: how many pages hold so many bytes, and why so many pages are refused.

ghost use Rattle.std.specs.Prelude.{◌≡◌};
ghost use Rattle.pf_base.specs.Capacities.{errno_of, IsLeastPower, pages_for};

use crate::PAGE_SIZE;
use crate::errno::Errno;
use thiserror::Error;

/// Why a pipe may not have so many pages (pipe(7), "/proc files"). What a process is told depends on its call (ENFILE,
/// ENOMEM or EPERM) besides.
#[derive(Clone, Copy, Debug, PartialEq, Eq, Error)]
pub enum LimitFault {
    /// Its owner's pages would pass pipe-user-pages-hard.
    #[error("the pages of the user would pass its hard limit")]
    Hard,
    /// The pages of all pipes would pass the namespace's reservation (this profile's choice).
    #[error("the pages of all pipes would pass the reservation")]
    Reserve,
    /// Its owner's pages would pass pipe-user-pages-soft.
    #[error("the pages of the user would pass its soft limit")]
    Soft,
}

impl LimitFault {
    /// What a process is told: ENFILE where the reservation has no room (this profile's choice), and where a limit of a
    /// user's would be passed, the error that its call has for that.
    pub fn errno(self, limit: Errno) -> Errno
        ensures { result ≡ errno_of limit self }
    {
        match self {
            LimitFault::Reserve => Errno::ENFILE,
            LimitFault::Hard | LimitFault::Soft => limit,
        }
    }
}

/// The capacity in pages that is set where so many bytes are asked for (fcntl(2), F_SETPIPE_SZ): the least power of two
/// of pages that holds them, and for 0 bytes one page. At most 2^52 pages.
pub fn pages_for(bytes: u64) -> u64
    ensures number { result ≡ pages_for bytes }
    ensures least { IsLeastPower bytes result }
{
    bytes.div_ceil(PAGE_SIZE as u64).next_power_of_two()
}
