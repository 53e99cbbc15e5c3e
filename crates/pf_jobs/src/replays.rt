//! Long scripts that a seed makes, replayed from memory: short lines of one name and of 64 by turns, also of one of the
//! 64 alone, long lines, a build's processes, and files with a heap of each tenant's own; and some of them with a
//! thread for each name. Each comes to how many bytes the texts had and a digest of them.

mod digested;
mod scripts;

use crate::replays::digested::Digested;
use crate::replays::scripts::{Shape, Text};
use pf_play::{MemoryBytes, NoGate, Options, replay, replay_threads};
use std::alloc::{AllocError, Global};
use std::sync::Wait;
use std::thread::Threads;

/// What is played, and how.
#[derive(Clone, Copy)]
struct Part {
    shape: Shape,
    names: u32,
    kilobytes: usize,
    only: Option<&'static str>,
    tree_heap: Option<u32>,
}

fn all_of(shape: Shape, names: u32, kilobytes: usize) -> Part {
    Part {
        shape,
        names,
        kilobytes,
        only: None,
        tree_heap: None,
    }
}

/// What one thread plays.
fn for_one_thread() -> [Part; 6] {
    [
        all_of(Shape::Short, 1, 24_000),
        all_of(Shape::Short, 64, 24_000),
        Part {
            shape: Shape::Short,
            names: 64,
            kilobytes: 12_000,
            only: Some("tenant7"),
            tree_heap: None,
        },
        all_of(Shape::Long, 1, 64_000),
        all_of(Shape::Processes, 4, 12_000),
        Part {
            shape: Shape::Files,
            names: 2,
            kilobytes: 8_000,
            only: None,
            tree_heap: Some(1_048_576),
        },
    ]
}

/// What a thread for each name plays.
fn for_many_threads() -> [Part; 4] {
    [
        all_of(Shape::Short, 4, 24_000),
        all_of(Shape::Short, 64, 12_000),
        all_of(Shape::Long, 4, 24_000),
        all_of(Shape::Processes, 4, 12_000),
    ]
}

/// What the texts come to.
#[derive(Clone, Copy, Debug)]
pub(crate) struct Sums {
    pub(crate) bytes: u64,
    pub(crate) value: u64,
}

impl Part {
    /// Its script, as one of so many parts of the whole.
    fn script(
        &self,
        alloc: Global,
        seed: u64,
        place: u64,
        part: usize,
    ) -> Result<Vec<u8>, AllocError> {
        let text = Text::new(alloc, seed, place)?;
        text.script(
            self.shape,
            self.names,
            self.kilobytes.saturating_mul(1_000) / part.max(1),
        )
    }

    fn options(&self) -> Options<'static> {
        Options {
            only: self.only,
            tree_heap: self.tree_heap,
            fill: 165,
        }
    }
}

impl Sums {
    /// Adds a text's. A replay that failed counts as an empty text.
    fn add(&mut self, written: Digested, is_played: bool) {
        let (bytes, value) = written.told();
        self.bytes = self.bytes.saturating_add(bytes);
        self.value = self.value.rotate_left(9) ^ value ^ u64::from(is_played);
    }
}

/// Replays scripts one after the other, each as one of so many parts of the whole.
pub(crate) fn replayed(alloc: Global, seed: u64, part: usize) -> Result<Sums, AllocError> {
    let mut sums = Sums { bytes: 0, value: 0 };
    for (place, played) in (0..).zip(for_one_thread()) {
        let script = played.script(alloc, seed, place, part)?;
        let mut reader = MemoryBytes::new(script.as_slice());
        let mut writer = Digested::new(alloc)?;
        let ended = replay(alloc, &mut reader, &mut writer, &played.options());
        sums.add(writer, ended.is_ok());
    }
    Ok(sums)
}

/// The same with a thread for each name.
pub(crate) fn threaded<T: Threads + Wait + Sync>(
    rt: &T,
    alloc: Global,
    seed: u64,
    part: usize,
) -> Result<Sums, AllocError> {
    let mut sums = Sums { bytes: 0, value: 0 };
    for (place, played) in (100..).zip(for_many_threads()) {
        let script = played.script(alloc, seed, place, part)?;
        let mut reader = MemoryBytes::new(script.as_slice());
        let mut writer = Digested::new(alloc)?;
        let options = Options {
            only: None,
            tree_heap: None,
            fill: 165,
        };
        let ended = replay_threads(rt, alloc, &mut reader, &mut writer, &options, &NoGate);
        sums.add(writer, ended.is_ok());
    }
    Ok(sums)
}
