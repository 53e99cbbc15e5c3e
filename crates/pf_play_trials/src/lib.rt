//! Tests of the replayer through its public calls: with a thread for each namespace, by the words of a command line,
//! and in hostile use, by readers and writers that stop at each byte of a script and of its text, a namespace that
//! fills its heap for files, and a gate that holds 63 namespaces. Nothing stands here but tests, so that `pf_play` is
//! proved once and not a second time with them.
#![tactic(auto)]

#[cfg(test)]
mod crowd;
#[cfg(test)]
mod gates;
#[cfg(test)]
mod heaps;
#[cfg(test)]
mod hello;
#[cfg(test)]
mod patience;
#[cfg(test)]
mod pieces;
#[cfg(test)]
mod readers;
#[cfg(test)]
mod texts;
#[cfg(test)]
mod words;
#[cfg(test)]
mod writers;
