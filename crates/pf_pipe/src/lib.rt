//! A pipe: a ring of slots, the user that its pages are charged to, and how many ends read and write it.
#![tactic(auto)]

pub mod pipe;

pub use pipe::Pipe;
