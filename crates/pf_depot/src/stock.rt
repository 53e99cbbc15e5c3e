use pf_frame::Frame;
use std::alloc::{AllocError, Global};
use std::marker::Model;

/// The most frames of a stock: as many as a new pipe has slots.
pub const MOST_STOCKED: usize = 16;

/// A few frames that a namespace has of a shared depot and doesn't use now, so that it takes its next ones without a lock.
///
/// A contract sees how many they are.
#[derive(Drop)]
pub struct Stock {
    frames: Vec<Frame>,
}

impl Model for Stock {
    ghost use Rattle.std.specs.Prelude.{ℕ, ◌≤◌, length, vec_capacity};
    ghost use Rattle.pf_depot.specs.declared.stock.TheConstants.{MOST_STOCKED};

    ghost Value = { ℕ };

    ghost view = { λ s. length s.frames.items };

    ghost invariant = { λ s. (length s.frames.items ≤ MOST_STOCKED) × (MOST_STOCKED ≤ vec_capacity s.frames) };
}

impl Stock {
    ghost use Rattle.std.specs.Prelude.{◌≡◌, ◌+◌, ◌<◌, ◌≤◌, ◌↔◌, length, IfOk, IfSome, IsTrue, IsSome, None};
    ghost use Rattle.pf_depot.specs.declared.stock.TheConstants.{MOST_STOCKED};

    /// No frame, and room for as many as there may be: no later call takes memory.
    pub fn new(alloc: Global) -> Result<Stock, AllocError>
        ensures { IfOk result (λ stock. stock ≡ 0) }
    {
        let frames = Vec::with_capacity(alloc, MOST_STOCKED)?;
        Ok(Stock { frames })
    }

    /// How many there are.
    pub fn len(&self) -> u32
        ensures number { result ≡ self.now }
        ensures most { self.now ≤ MOST_STOCKED }
    {
        self.frames.len() as u32
    }

    /// Whether there may be one more.
    pub(crate) fn has_room(&self) -> bool
        ensures { IsTrue result ↔ (self.now < MOST_STOCKED) }
    {
        self.frames.len() < MOST_STOCKED
    }

    /// One of them, if there is any.
    pub(crate) fn pop(&mut self) -> Option<Frame>
        ensures found { IfSome result (λ _. self.new + 1 ≡ self.old) }
        ensures none { result ≡ None → (self.new ≡ self.old) × (self.old ≡ 0) }
    {
        self.frames.pop()
    }

    /// One more.
    pub(crate) fn push(&mut self, frame: Frame)
        requires { self.old < MOST_STOCKED }
        ensures { self.new ≡ self.old + 1 }
    {
        self.frames.push_reserved(frame);
    }

    /// All of them.
    pub(crate) fn into_frames(self) -> Vec<Frame>
        ensures { length result.items ≡ self }
    {
        self.frames
    }
}
