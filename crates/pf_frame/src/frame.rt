ghost use Rattle.std.specs.Prelude.{◌≡◌, ℕ, ◌+◌, ◌≤◌, length, take, drop, replicate, IfOk, MatchResult};
ghost use Rattle.pf_base.specs.declared.TheConstants.{PAGE_SIZE};
ghost use Rattle.pf_frame.specs.Bytes.{filled};

use pf_base::PAGE_SIZE;
use std::alloc::{AllocError, Global};

/// One page of bytes, on the heap: moving a frame moves a pointer, and never its bytes.
// It has no Model: with one, a vector of frames would be a list of lists, and nothing would say that each is a whole page.
#[derive(Drop)]
pub struct Frame {
    bytes: Vec<u8>,

    /// A frame is a whole page.
    pub ghost whole: { length bytes.items ≡ PAGE_SIZE },
}

impl Frame {
    ghost use Rattle.pf_frame.specs.Pages.{page_of};

    /// A frame of these bytes, with no allocation.
    pub fn new(bytes: Vec<u8>) -> Frame
        requires { length bytes.items ≡ PAGE_SIZE }
        ensures { page_of result ≡ bytes.items }
    {
        Frame { bytes }
    }

    /// A frame that holds one byte throughout.
    pub fn filled(alloc: Global, byte: u8) -> Result<Frame, AllocError>
        ensures { IfOk result (λ frame. page_of frame ≡ replicate PAGE_SIZE byte) }
    {
        let bytes = Vec::from_elem(alloc, byte, PAGE_SIZE)?;
        Ok(Frame { bytes })
    }

    /// Sets bytes from the place `at` on.
    pub fn fill(&mut self, at: usize, bytes: &[u8])
        requires { at + length bytes.now ≤ PAGE_SIZE }
        ensures { page_of self.new ≡ filled at bytes.now (page_of self.old) }
    {
        self.bytes[at..at + bytes.len()].copy_from_slice(bytes);
    }

    /// `len` bytes from the place `from` on.
    pub fn view(&self, from: usize, len: usize) -> &[u8]
        requires { from + len ≤ PAGE_SIZE }
        ensures { result.now ≡ take len (drop from (page_of self.now)) }
    {
        &self.bytes[from..from + len]
    }
}
