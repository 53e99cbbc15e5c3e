//! A gate that counts the frames which it is told of, and holds the second tenant before one of its own until the first has
//! done.

use pf_worker::Gate;
use std::sync::atomic::{AtomicU64, Ordering};
use std::thread;

pub(crate) const RED: u32 = 0;

// The most turns that a tenant waits for the other.
const TURNS: u64 = 1_000_000;

// What a gate was told.
#[derive(Drop)]
pub(crate) struct Watch {
    // How many frames the first tenant took.
    red: AtomicU64,
    // How many the second took.
    blue: AtomicU64,
    // How many frames the second has taken where it is held.
    taken: u64,
    // Not 0: the second tenant is held.
    held: AtomicU64,
    // Not 0: the first tenant has made its steps.
    done: AtomicU64,
    // How many steps it was told of. A worker tells of none: whoever has it make one does.
    steps: AtomicU64,
    // Not 0: one waited for all its turns.
    used_up: AtomicU64,
}

impl Watch {
    // The second tenant is held before its first frame.
    pub(crate) fn new() -> Watch {
        Watch::behind(0)
    }

    // The second tenant is held once it has taken so many frames, and before the next. Where it has taken one, the first
    // tenant takes none before.
    pub(crate) fn behind(taken: u64) -> Watch {
        Watch {
            red: AtomicU64::new(0),
            blue: AtomicU64::new(0),
            taken,
            held: AtomicU64::new(0),
            done: AtomicU64::new(0),
            steps: AtomicU64::new(0),
            used_up: AtomicU64::new(0),
        }
    }

    // Waits until the second tenant is held.
    pub(crate) fn wait_for_second(&self) {
        self.wait_for(&self.held);
    }

    // The first tenant has made its steps.
    pub(crate) fn end(&self) {
        self.done.store(1, Ordering::SeqCst);
    }

    // Whether it was told of so many frames of each, and of no step, and nobody waited for nothing.
    pub(crate) fn is_told(&self, red: u64, blue: u64) -> bool {
        self.red.load(Ordering::SeqCst) == red
            && self.blue.load(Ordering::SeqCst) == blue
            && self.steps.load(Ordering::SeqCst) == 0
            && self.used_up.load(Ordering::SeqCst) == 0
    }

    // Waits until this was told.
    pub(crate) fn wait_for(&self, told: &AtomicU64) {
        for _ in 0..TURNS {
            if told.load(Ordering::SeqCst) != 0 {
                return;
            }
            thread::yield_now();
        }
        self.used_up.store(1, Ordering::SeqCst);
    }
}

impl Gate for Watch {
    ghost passed = { λ _ _ _. Unit {0} };

    ghost framed = { λ _ _. Unit {0} };

    fn pass(&self, ns: u32, place: u64) {
        let _ = (ns, place);
        self.steps.fetch_add(1, Ordering::SeqCst);
    }

    fn frame(&self, ns: u32) {
        if ns == RED {
            if self.taken != 0 {
                self.wait_for(&self.held);
            }
            self.red.fetch_add(1, Ordering::SeqCst);
        } else {
            if self.blue.load(Ordering::SeqCst) == self.taken {
                self.held.store(1, Ordering::SeqCst);
                self.wait_for(&self.done);
            }
            self.blue.fetch_add(1, Ordering::SeqCst);
        }
    }
}
