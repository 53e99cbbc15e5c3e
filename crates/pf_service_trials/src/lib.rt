//! Tests of a service, through public calls: two tenants, callers on threads of their own, gates, namespaces that come
//! and go, and all that is refused.
//! Nothing stands here but tests, so that `pf_service` is proved once and not a second time with them.
#![tactic(auto)]

#[cfg(test)]
mod arenas;
#[cfg(test)]
mod faults;
#[cfg(test)]
mod gates;
#[cfg(test)]
mod guests;
#[cfg(test)]
mod kinds;
#[cfg(test)]
mod limits;
#[cfg(test)]
mod logged;
#[cfg(test)]
mod queries;
#[cfg(test)]
mod services;
#[cfg(test)]
mod tenants;
#[cfg(test)]
mod threads;
