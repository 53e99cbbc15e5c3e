use std::alloc::AllocError;
use thiserror::Error;

/// Why a service refused a seat, an event or a question. What was refused has changed nothing, and nothing was logged
/// of it; of a `call_waiting` the events before it stand.
#[derive(Clone, Copy, Debug, PartialEq, Eq, Error)]
pub enum ServiceFault {
    /// A growth of memory was refused.
    #[error("out of memory")]
    NoMemory,
    /// The namespace's transcript has 1,000,000 entries.
    #[error("the transcript has 1000000 entries")]
    TranscriptFull,
    /// There is no namespace of this number.
    #[error("no such namespace")]
    NoSuchNamespace,
    /// The namespace has given 4,096 seats.
    #[error("the namespace has given 4096 seats")]
    TooManySeats,
    /// The namespace is retired.
    #[error("the namespace is retired")]
    Gone,
}

impl From<AllocError> for ServiceFault {
    ghost use Rattle.std.specs.Prelude.{◌≡◌};
    ghost use Rattle.pf_service.specs.declared.fault.ServiceFault.TheVariants.{NoMemory};

    ghost from_gives = { λ _ e. e ≡ NoMemory };

    fn from(_: AllocError) -> Self {
        ServiceFault::NoMemory
    }
}

/// Why a service's end was refused. The seats are looked at first, and then the namespaces in turn; want of memory may
/// stand in place of each. The service, its transcripts and the seats have gone.
#[derive(Clone, Copy, Debug, PartialEq, Eq, Error)]
pub enum CloseFault {
    /// The first namespace that has other limits than it was given, or whose transcript isn't what its seats keep. Of a
    /// namespace that was admitted no limits are compared.
    #[error("namespace {ns} disagrees with its seats")]
    Disagree {
        /// The namespace.
        ns: u32,
    },
    /// The seats aren't those that were given, each once.
    #[error("the seats are not those that were given")]
    SeatsMissing,
    /// A growth of memory was refused.
    #[error("out of memory")]
    NoMemory,
}

impl From<AllocError> for CloseFault {
    ghost use Rattle.std.specs.Prelude.{◌≡◌};
    ghost use Rattle.pf_service.specs.declared.fault.CloseFault.TheVariants.{NoMemory};

    ghost from_gives = { λ _ e. e ≡ NoMemory };

    fn from(_: AllocError) -> Self {
        CloseFault::NoMemory
    }
}
