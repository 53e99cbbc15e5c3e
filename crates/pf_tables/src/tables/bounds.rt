//! What is known of a reply before its step is made, and of a write that waits: numbers, which take no memory.

ghost use Rattle.std.specs.Prelude.{◌≡◌, ℕ, ◌+◌, ◌*◌, ◌≤◌, List};
ghost use Rattle.pf_machine.specs.Machine.{call_of};
ghost use Rattle.pf_base.specs.declared.step.Step.TheVariants.{Read, Resume, List as Lists};
ghost use Rattle.pf_tables.specs.Bounds.{Covers};
ghost use Rattle.pf_base.specs.declared.TheConstants.{MAX_FILES, MAX_NAME};
ghost use Rattle.pf_machine.specs.Replies.{most_of, written_in};

use super::{Tables, reading_end};
use pf_base::{MAX_FRAMES, PAGE_SIZE};
use pf_parked::Call;
use std::alloc::Allocator;

// All bytes that the frames of the largest reservation hold.
const MOST_BYTES: usize = MAX_FRAMES * PAGE_SIZE;

impl<A: Allocator> Tables<A> {
    /// How many bytes of its write went in before a process waited; 0 where it waits in no write.
    pub fn parked_written(&self, pid: u32) -> u64
        ensures { result ≡ written_in (call_of self.now.state pid) }
    {
        match self.processes.call(pid) {
            Some(Call::Write { fd: _, write }) => write.written(),
            Some(_) => 0,
            None => 0,
        }
    }

    /// How many bytes a read of at most n hands out at most: what the pipe holds, up to n.
    pub fn read_bound(&self, pid: u32, fd: u32, n: u64) -> usize
        ensures covers { Covers self.now (Read pid fd n) result }
        ensures most { result ≤ n }
    {
        let Ok(end) = reading_end(&self.processes, &self.descriptions, pid, fd) else {
            return 0;
        };
        let Some(pipe) = self.pipes.get(end.pipe) else {
            return 0;
        };
        pipe.len().min(n as usize)
    }

    /// How many bytes a list of names hands out at most, whoever asks for whichever: the longest name and a slash for
    /// each file but the root.
    pub fn list_bound(&self) -> usize
        ensures covers { (pid : ℕ) (path : List ℕ) → Covers self.now (Lists pid path) result }
        ensures most { result ≤ MAX_FILES * (MAX_NAME + 1) }
    {
        self.files.list_bound()
    }

    /// How many bytes the call hands out at most in which a process waits, tried again: none but a read's, what it asks
    /// for or what all frames hold.
    pub fn resume_bound(&self, pid: u32) -> usize
        ensures covers { Covers self.now (Resume pid) result }
        ensures most { result ≤ most_of (Resume pid) }
    {
        // The reservation is within all frames.
        let _most = self.pages.config().reserve();
        match self.processes.call(pid) {
            Some(Call::Read { fd: _, n }) => MOST_BYTES.min(*n as usize),
            Some(_) => 0,
            None => 0,
        }
    }
}
