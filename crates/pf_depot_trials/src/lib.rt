//! Tests of frames on loan, through public calls: a depot of one's own, one that is shared behind a lock, and tenants
//! on threads of their own. Nothing stands here but tests, so that `pf_depot` is proved once and not a second time with
//! them.
#![tactic(auto)]

#[cfg(test)]
mod borrowing;
#[cfg(test)]
mod guest;
#[cfg(test)]
mod guests;
#[cfg(test)]
mod own;
#[cfg(test)]
mod passing;
#[cfg(test)]
mod shared;
#[cfg(test)]
mod tenant;
#[cfg(test)]
mod threads;
