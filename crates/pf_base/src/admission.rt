use crate::step::Answer;
use thiserror::Error;

/// Why a namespace isn't admitted. Nothing has changed. That there are too many is told before that there is no room,
/// and want of memory may stand in place of each.
#[derive(Clone, Copy, Debug, PartialEq, Eq, Error)]
pub enum AdmitFault {
    /// Its reservation is above the slack: the number of frames less the reservations of the living namespaces.
    #[error("the reservation is above the {slack} frames that nobody has reserved")]
    NoRoom {
        /// The slack, in frames.
        slack: u32,
    },
    /// 64 namespaces live, or 1,024 numbers are given.
    #[error("there are 64 namespaces, or 1024 numbers are given")]
    TooManyNamespaces,
    /// Memory has run out.
    #[error("out of memory")]
    NoMemory,
}

/// Why a namespace isn't retired. Nothing has changed. The first that applies is told, in this order.
#[derive(Clone, Copy, Debug, PartialEq, Eq, Error)]
pub enum RetireFault {
    /// No namespace lives under this number: it was never given, or its namespace is retired.
    #[error("no namespace lives under this number")]
    NoSuchNamespace,
    /// It has processes.
    #[error("the namespace has {processes} processes")]
    Alive {
        /// How many: at least 1.
        processes: u32,
    },
}

/// What an event is answered: a step of a namespace, an admission of one, or a retirement of one.
#[derive(Debug, PartialEq, Eq, Drop)]
pub enum EventAnswer {
    /// The step's answer: its namespace lives.
    Answer(Answer),
    /// The step's namespace doesn't live: it isn't admitted yet, or is retired. Nothing has changed.
    Gone,
    /// The namespace is admitted, and lives from here on under this number: the least that was never given.
    Admitted(u32),
    /// The namespace isn't admitted, and no number is given. Nothing has changed.
    NotAdmitted(AdmitFault),
    /// The namespace is retired: it had no process. Its frames and its reservation are free for others, and its number
    /// isn't given again.
    Retired,
    /// The namespace isn't retired. Nothing has changed.
    NotRetired(RetireFault),
}
