//! Frames, the pages of all pipes, and the door through which a namespace gets its own.
#![tactic(auto)]

pub mod fault;
pub mod frame;
pub mod frames;
pub mod own;
pub mod table;

pub use fault::PoolFault;
pub use frame::Frame;
pub use frames::{FrameNo, Frames};
pub use own::OwnFrames;
pub use table::FrameTable;
