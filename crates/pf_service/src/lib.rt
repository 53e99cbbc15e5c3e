//! Namespaces behind a lock each, which come and go, over a depot behind a lock of its own: seats that keep what their
//! callers were told, calls that wait, and at the end a comparison of all seats with all transcripts.
#![tactic(auto)]

mod asked;
pub mod event;
pub mod fault;
pub mod given;
mod guests;
pub mod judge;
mod living;
mod locks;
pub mod logged;
pub mod merge;
mod opening;
mod place;
pub mod receipt;
mod retired;
pub mod seat;
mod seated;
pub mod service;
mod spare;
pub mod transcript;
mod unlocks;
mod waiters;
mod waiting;

pub use event::Event;
pub use fault::{CloseFault, ServiceFault};
pub use judge::compare;
pub use logged::Logged;
pub use pf_worker::{Gate, NoGate};
pub use receipt::Receipt;
pub use seat::Seat;
pub use service::Service;
pub use transcript::{Transcript, Transcripts};

/// The most entries of a transcript.
pub const MAX_ENTRIES: usize = 1_000_000;

/// The most seats of a namespace.
pub const MAX_SEATS: u32 = 4_096;
