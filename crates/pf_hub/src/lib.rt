//! Many namespaces over one pool, and the isolation theorem.
#![tactic(auto)]

pub mod hub;
pub mod laws;
pub mod parts;
pub mod tenant;

pub use hub::events::{Event, EventFault};
pub use hub::{
    Hub, RunFault, first_fault, read_over, reserves_of, resume_over, step_over, write_over,
};
pub use parts::HubParts;
pub use tenant::Tenant;
