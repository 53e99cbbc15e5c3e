//! What callers of a service wait for: three threads call it, each for tenants of its own; then two threads share a
//! namespace, where each waits for the other; and at its end all seats are compared with all transcripts.
//!
//! What each call is told in the end goes into one number, and what the transcripts say, which doesn't depend on the
//! threads' order: only how often a call waits does, and how the entries of two threads lie in one transcript.

mod digest;
mod entries;
mod play;
mod service;
mod source;

ghost use Rattle.std.specs.Prelude.{◌≡◌};
ghost use Rattle.pf_base.specs.declared.TheConstants.{MAX_NAMESPACES};

use crate::served::digest::Digest;
use crate::served::service::Round;
use crate::served::source::Source;
use pf_base::{Config, MAX_NAMESPACES};
use pf_frame::Frame;
use std::alloc::{AllocError, Global};
use std::sync::Wait;
use std::sync::ledger::Blank;
use std::thread::Threads;

/// How much is played: how many services come one after the other, and what is done with each.
#[derive(Clone, Copy)]
pub(crate) struct Load {
    pub(crate) services: u32,
    spells: u32,
    letters: u32,
}

/// What is played where no words say what.
pub(crate) const SHORT: Load = Load {
    services: 2,
    spells: 2,
    letters: 100,
};

/// What is played with a seed.
pub(crate) const LONG: Load = Load {
    services: 12,
    spells: 100,
    letters: 4_000,
};

/// A ledger with a part for each namespace that there may be.
fn blank() -> Blank
    ensures { result.parts ≡ MAX_NAMESPACES }
{
    Blank::new(MAX_NAMESPACES as u64)
}

/// So many frames.
fn frames(alloc: Global, number: u32) -> Result<Vec<Frame>, AllocError> {
    let mut frames = Vec::with_capacity(alloc, number as usize)?;
    for _ in 0..number {
        frames.push(Frame::filled(alloc, 0)?)?;
    }
    Ok(frames)
}

/// The limits of so many namespaces, each with the allocator of its files.
fn configs(alloc: Global, number: u32, reserve: u32) -> Option<Vec<(Config, Global)>> {
    let mut configs = Vec::with_capacity(alloc, number as usize).ok()?;
    for _ in 0..number {
        let config = Config::new(
            reserve,
            Config::DEFAULT_SOFT,
            Config::DEFAULT_HARD,
            Config::DEFAULT_MAX,
        );
        configs.push((config.ok()?, alloc)).ok()?;
    }
    Some(configs)
}

/// What all were told, if all was answered.
pub(crate) fn listen<R: Threads + Wait + Sync>(
    threads: &R,
    alloc: Global,
    seed: u32,
    load: Load,
) -> Option<Digest> {
    let source = Source::new(alloc, seed).ok()?;
    let mut all = Digest::new();
    for number in 0..load.services {
        let round = Round {
            seed,
            number,
            spells: load.spells,
            letters: load.letters,
        };
        all.add(service::play(threads, &source, round)?.number());
    }
    Some(all)
}
