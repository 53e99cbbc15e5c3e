//! A namespace's directories and FIFOs as a tree in memory of any allocator, which contracts see as the finite map from
//! paths to files.
#![tactic(auto)]

pub mod node;
mod order;
pub mod tree;

pub use node::Node;
pub use tree::Tree;
