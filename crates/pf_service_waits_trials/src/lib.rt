//! Tests of a service, through public calls: calls that wait and what wakes them, and events of two namespaces that
//! overlap.
//! Nothing stands here but tests, so that `pf_service` is proved once and not a second time with them.
#![tactic(auto)]

#[cfg(test)]
mod overlap;
#[cfg(test)]
mod polls;
#[cfg(test)]
mod waiting;
#[cfg(test)]
mod woken;
