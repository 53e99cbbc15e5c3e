//! Pairs whose bytes come from the host's own memory and go into it: `Hub::write_from` and `Hub::read_into`, beside the
//! same pairs by steps, and the two copies that such a pair can't do without.

use crate::{BATCH, FIXED_PAIRS, SIZES, payload, time_pair};
use pf_base::{Answer, Reply};
use pf_hub::Hub;
use std::alloc::{AllocError, Global};
use std::io;
use std::time::Instant;

/// Whether a pair through the first process's first pipe counts as many bytes, twice.
fn play(hub: &mut Hub<Global>, bytes: &[u8], buffer: &mut [u8]) -> bool {
    if !hub.lives(0) {
        return false;
    }
    let Answer::Done(Reply::Num(written)) = hub.write_from(0, 1, 1, bytes) else {
        return false;
    };
    if written != bytes.len() as u64 {
        return false;
    }
    hub.read_into(0, 1, 0, buffer) == Ok(Some(bytes.len()))
}

/// Whether the fixed load's pairs of a size are all answered right.
fn play_size(alloc: Global, hub: &mut Hub<Global>, size: usize) -> Result<bool, AllocError> {
    let bytes = payload(alloc, size)?;
    let mut buffer = vec![in alloc; 0; size]?;
    for _ in 0..FIXED_PAIRS {
        buffer.fill(0);
        if !play(hub, &bytes, &mut buffer) || buffer.as_slice() != bytes.as_slice() {
            return Ok(false);
        }
    }
    Ok(true)
}

/// Plays the fixed load through a hub that has started, and says whether each answer was right.
pub(crate) fn play_loads(alloc: Global, hub: &mut Hub<Global>) -> Result<bool, AllocError> {
    for size in SIZES {
        if !play_size(alloc, hub, size)? {
            return Ok(false);
        }
    }
    Ok(true)
}

/// Whether a batch of pairs counts as many bytes.
#[inline(always)]
fn plays_batch(hub: &mut Hub<Global>, bytes: &[u8], buffer: &mut [u8]) -> bool {
    for _ in 0..BATCH {
        if !play(hub, bytes, buffer) {
            return false;
        }
    }
    true
}

/// How many nanoseconds a pair takes, if each answer was right.
fn time_slices(
    rt: &HostRuntime,
    hub: &mut Hub<Global>,
    bytes: &[u8],
    buffer: &mut [u8],
    pairs: u32,
) -> io::Result<Option<u128>> {
    let mut least = u128::MAX;
    for _ in 0..(pairs / BATCH).max(1) {
        let start = Instant::now(rt)?;
        if !plays_batch(hub, bytes, buffer) {
            return Ok(None);
        }
        least = least.min(start.elapsed(rt)?.as_nanos());
    }
    Ok(Some(least / u128::from(BATCH)))
}

/// Copies bytes twice, as a pair does, if all three places are as long.
fn copy_twice(bytes: &[u8], between: &mut [u8], buffer: &mut [u8]) -> bool {
    if between.len() != bytes.len() || buffer.len() != bytes.len() {
        return false;
    }
    between.copy_from_slice(bytes);
    buffer.copy_from_slice(between);
    true
}

/// How many nanoseconds two copies of as many bytes take.
fn time_copies(
    rt: &HostRuntime,
    bytes: &[u8],
    between: &mut [u8],
    buffer: &mut [u8],
    pairs: u32,
) -> io::Result<Option<u128>> {
    let mut least = u128::MAX;
    for _ in 0..(pairs / BATCH).max(1) {
        let start = Instant::now(rt)?;
        for _ in 0..BATCH {
            if !copy_twice(bytes, between, buffer) {
                return Ok(None);
            }
        }
        least = least.min(start.elapsed(rt)?.as_nanos());
    }
    Ok(Some(least / u128::from(BATCH)))
}

/// How many nanoseconds a pair takes, if each answer was right, and how many two copies of as many bytes.
fn time_size(
    rt: &HostRuntime,
    hub: &mut Hub<Global>,
    size: usize,
    pairs: u32,
) -> io::Result<Option<(u128, u128)>> {
    let bytes = payload(rt.alloc(), size)?;
    let mut between = vec![in rt.alloc(); 0; size]?;
    let mut buffer = vec![in rt.alloc(); 0; size]?;
    let Some(time) = time_slices(rt, hub, &bytes, &mut buffer, pairs)? else {
        return Ok(None);
    };
    buffer.fill(0);
    let Some(copies) = time_copies(rt, &bytes, &mut between, &mut buffer, pairs)? else {
        return Ok(None);
    };
    // The last copies are looked at, so that these can't be left out of the program.
    if between.as_slice() != bytes.as_slice() || buffer.as_slice() != bytes.as_slice() {
        return Ok(None);
    }
    Ok(Some((time, copies)))
}

/// Times so many pairs of each size from slices and into them, by steps, and as many copies, through a hub that has
/// started.
pub(crate) fn time(rt: &HostRuntime, hub: &mut Hub<Global>, pairs: u32) -> io::Result<bool> {
    for size in SIZES {
        let Some((time, copies)) = time_size(rt, hub, size, pairs)? else {
            return Ok(false);
        };
        let Some(steps) = time_pair(rt, hub, size, pairs)? else {
            return Ok(false);
        };
        println!(rt;
            "slices {size} bytes: {time} ns a pair; by steps: {steps}; two copies: {copies}"
        )?;
    }
    Ok(true)
}
