//! What a namespace keeps, the steps that move no bytes, and the small changes that the others are made of: processes
//! with their descriptors, open file descriptions, pipes over any door to frames, files, and the pages that are charged.
#![tactic(auto)]

mod file_tree;
mod process_table;
pub mod tables;

pub use pf_fds::Key;
pub use tables::{FirstWrite, Tables};
