//! The pages of all tenants, and a tenant's limits.

use crate::trouble::Trouble;
use pf_base::Config;
use pf_frame::Frame;
use std::alloc::{AllocError, Global};

/// So many pages.
pub(crate) fn pages(alloc: Global, count: usize) -> Result<Vec<Frame>, AllocError> {
    let mut frames = Vec::with_capacity(alloc, count)?;
    for _ in 0..count {
        frames.push(Frame::filled(alloc, 0)?)?;
    }
    Ok(frames)
}

/// A tenant's limits: so many pages are reserved for it, and the rest is as pipe(7) has it.
pub(crate) fn reserve(pages: u32) -> Result<Config, Trouble> {
    let limits = Config::new(
        pages,
        Config::DEFAULT_SOFT,
        Config::DEFAULT_HARD,
        Config::DEFAULT_MAX,
    )?;
    Ok(limits)
}
