//! The two forms of a hub: over a depot that lends its frames, and over one array. Each table is played over both.

use pf_base::{Answer, Config, Step};
use pf_frame::{Frame, PoolFault};
use pf_hub::Hub;
use pf_plain::Plain;
use std::alloc::{AllocError, Global};

/// Namespaces by number, whatever lends them their frames.
pub(crate) trait Host: Drop {
    /// Namespaces of these limits over these frames: their numbers are their places.
    fn opened(
        alloc: Global,
        frames: Vec<Frame>,
        configs: Vec<(Config, Global)>,
    ) -> Result<Self, PoolFault>;

    /// The answer to a step of a namespace, if there is one of this number.
    fn step_of(&mut self, ns: u32, step: &Step) -> Option<Answer>;

    /// How many frames a namespace holds.
    fn held_by(&self, ns: u32) -> u32;

    /// How many frames no namespace holds, where this form counts them.
    fn free_frames(&self) -> Option<u32>;
}

impl Host for Hub<Global> {
    fn opened(
        alloc: Global,
        frames: Vec<Frame>,
        configs: Vec<(Config, Global)>,
    ) -> Result<Self, PoolFault> {
        Hub::new(alloc, frames, configs)
    }

    fn step_of(&mut self, ns: u32, step: &Step) -> Option<Answer> {
        if !self.lives(ns) {
            return None;
        }
        Some(self.step(ns, step))
    }

    fn held_by(&self, ns: u32) -> u32 {
        self.held(ns)
    }

    fn free_frames(&self) -> Option<u32> {
        Some(self.free())
    }
}

impl Host for Plain<Global> {
    fn opened(
        alloc: Global,
        frames: Vec<Frame>,
        configs: Vec<(Config, Global)>,
    ) -> Result<Self, PoolFault> {
        Plain::new(alloc, frames, configs)
    }

    fn step_of(&mut self, ns: u32, step: &Step) -> Option<Answer> {
        if !self.lives(ns) {
            return None;
        }
        Some(self.step(ns, step))
    }

    fn held_by(&self, ns: u32) -> u32 {
        self.held(ns)
    }

    fn free_frames(&self) -> Option<u32> {
        None
    }
}

/// Frames that each hold this byte throughout, or, with none, each another.
pub(crate) fn frames(
    alloc: Global,
    count: usize,
    fill: Option<u8>,
) -> Result<Vec<Frame>, AllocError> {
    let mut frames = Vec::new(alloc);
    for i in 0..count {
        frames.push(Frame::filled(alloc, fill.unwrap_or((i % 256) as u8))?)?;
    }
    Ok(frames)
}
