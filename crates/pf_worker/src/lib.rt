//! A namespace that has its thread to itself, over a depot that others share.
#![tactic(auto)]

pub mod gate;
pub mod gated;
pub mod returns;
pub mod worker;

pub use gate::{Gate, NoGate};
pub use gated::GatedDepot;
pub use returns::{Returns, ToTheDepot};
pub use worker::{Worker, open};
