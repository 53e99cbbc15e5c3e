//! The memory that the process has, as the system tells it, and whether it stays.

use std::{fs, io};

/// By such a part of the first measure it may be more later: it grows and shrinks with the processes, pipes and files
/// that there are.
const PART: u64 = 16;

/// What was measured, in pages of 4,096 bytes.
#[derive(Drop)]
pub(crate) struct Memory {
    first: u64,
    most: u64,
    is_known: bool,
}

impl Memory {
    /// Nothing yet.
    pub(crate) fn new() -> Memory {
        Memory {
            first: 0,
            most: 0,
            is_known: true,
        }
    }

    /// Measures it once more, and tells it.
    pub(crate) fn measure(&mut self, rt: &HostRuntime) -> io::Result<u64> {
        let text = fs::read_to_string(rt, "/proc/self/statm")?;
        let word = text.as_str().split(' ').nth(1).unwrap_or("");
        let pages = word.parse::<u64>().unwrap_or(0);
        if self.most == 0 {
            self.first = pages;
        }
        self.most = self.most.max(pages);
        self.is_known = self.is_known && pages > 0;
        Ok(pages)
    }

    /// Whether it was known each time, and never by more than that part above what it was the first time.
    pub(crate) fn is_flat(&self) -> bool {
        self.is_known && self.most.saturating_sub(self.first) <= self.first / PART
    }
}
