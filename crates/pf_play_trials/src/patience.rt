//! How long a gate holds a step for what another thread is to tell it.

use std::sync::atomic::{AtomicU64, Ordering};
use std::thread;

/// The most turns that a step is held.
const TURNS: u64 = 1_000_000;

/// Whether some step was held for all its turns.
#[derive(Drop)]
pub(crate) struct Patience {
    /// Not 0: one was.
    used_up: AtomicU64,
}

impl Patience {
    pub(crate) fn new() -> Patience {
        Patience {
            used_up: AtomicU64::new(0),
        }
    }

    /// Waits until so many were told.
    pub(crate) fn wait_for(&self, told: &AtomicU64, number: u64) {
        for _ in 0..TURNS {
            if told.load(Ordering::SeqCst) >= number {
                return;
            }
            thread::yield_now();
        }
        self.used_up.store(1, Ordering::SeqCst);
    }

    /// Whether each step was let go before its turns were over.
    pub(crate) fn is_left(&self) -> bool {
        self.used_up.load(Ordering::SeqCst) == 0
    }
}
