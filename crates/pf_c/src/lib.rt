//! The service for programs in C: a static library, of which `include/sagthrey.h` is the header.
//!
//! Each kind of step has a function, which makes it in one namespace. It is told 0 or more as the system call is, the
//! error's number with its sign turned, or one of three codes: the call waits, memory of the heap was wanted, there is
//! no such namespace. A shut handle has no namespace. The other functions make no step: they open and free a hub, let a
//! namespace come or go, and answer what a host asks.
#![tactic(auto)]

mod coming;
mod descriptors;
mod files;
mod handle;
mod hubs;
mod meta;
mod opening;
mod parts;
mod pipes;
mod place;
mod processes;
mod queries;
mod ready;
mod told;

pub use handle::SagHub;
pub use meta::SagMeta;
pub use opening::{OpenFault, SagLimits};
pub use place::{Opaque, Place};
pub use ready::SagReady;
