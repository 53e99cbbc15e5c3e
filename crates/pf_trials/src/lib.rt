//! Worked examples through public calls that no table of script lines can say: a namespace alone over frames of its
//! own, memory that is refused, namespaces that come to a hub and go, and readers and writers that fail. The tables are
//! data of `pfplay_trials`.
//! Nothing stands here but tests, so that the crates below are proved once and not a second time with them.
#![tactic(auto)]

#[cfg(test)]
mod files;
#[cfg(test)]
mod fronts;
#[cfg(test)]
mod guests;
#[cfg(test)]
mod hubs;
#[cfg(test)]
mod paths;
#[cfg(test)]
mod refused;
#[cfg(test)]
mod replay;
#[cfg(test)]
mod resumes;
#[cfg(test)]
mod scripts;
#[cfg(test)]
mod slices;
#[cfg(test)]
mod spaces;
#[cfg(test)]
mod spacing;
