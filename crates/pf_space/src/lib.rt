//! One namespace: its processes, their descriptors, its pipes and its files, over any door to frames.
#![tactic(auto)]

pub mod placed;
pub mod space;

/// The laws of the lone machine's definitions. `pf_space::laws::stream` speaks of every run: of what goes through its
/// pipes, and of what the replies say of it.
pub use pf_laws as laws;
pub use placed::Placed;
pub use space::Space;
