//! What the calls on files do and refuse: paths, permissions and changes over a tree of any allocator.
//!
//! Each call answers what `specs/FileCalls` and `specs/Opens` of `pf_machine` say of the tree's map of files, with the
//! refusals in their order, and changes nothing where it refuses or finds no memory.
#![tactic(auto)]

pub mod calls;
pub mod resolution;
mod slashes;
mod walk;
pub mod words;

pub use calls::{chmod, list, make, openable, rmdir, stat, unlink};
pub use resolution::{Last, Purpose, Resolved, resolve};
pub use words::{Words, split};
