//! The plain form of a hub: namespaces over one array of counted frames, for examples and figures beside the hub's own.
#![tactic(auto)]

pub mod plain;

pub use plain::Plain;
