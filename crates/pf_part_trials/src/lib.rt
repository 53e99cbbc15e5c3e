//! Tests of the crates below a namespace, each through its public calls.
//! Nothing stands here but tests, so that those crates are proved once and not a second time with them.
#![tactic(auto)]

#[cfg(test)]
mod base;
#[cfg(test)]
mod fds;
#[cfg(test)]
mod frame;
#[cfg(test)]
mod limits;
#[cfg(test)]
mod parked;
#[cfg(test)]
mod pipe;
#[cfg(test)]
mod pool;
#[cfg(test)]
mod tree;
#[cfg(test)]
mod walk;
