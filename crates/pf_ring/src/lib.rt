//! A pipe's content: a ring of slots, each a window on a frame, which together are a queue of segments.
#![tactic(auto)]

mod receive;
pub mod ring;
mod windows;

pub use ring::{SlotRing, Window};
