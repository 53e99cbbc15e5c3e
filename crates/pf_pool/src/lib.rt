//! One pool of frames for many namespaces: each has a reservation, and a door to its own frames alone.
#![tactic(auto)]

pub mod door;
pub mod pool;

pub use door::Door;
pub use pf_frame::PoolFault;
pub use pool::FramePool;
