//! Tests of workers through their public calls: two tenants, each on a thread of its own, over a depot that they share,
//! tenants that come and go, and one whose frame stands in its stock. Nothing stands here but tests, so that `pf_worker`
//! is proved once and not a second time with them.
#![tactic(auto)]

#[cfg(test)]
mod beside;
#[cfg(test)]
mod jobs;
#[cfg(test)]
mod slices;
#[cfg(test)]
mod stock;
#[cfg(test)]
mod tenants;
#[cfg(test)]
mod watch;
