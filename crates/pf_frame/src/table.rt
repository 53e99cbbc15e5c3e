ghost use Rattle.std.specs.Prelude.{◌≡◌, ℕ, ◌+◌, ◌<◌, ◌≤◌, ◌^◌, length, take, drop, replicate, map, sum, slice_index, slice_index_or, slice_set, [], ◌-◌, IfOk, vec_capacity, vec_len};
ghost use Rattle.pf_base.specs.declared.TheConstants.{MAX_FRAMES, PAGE_SIZE};
ghost use Rattle.pf_frame.specs.Bytes.{filled};
ghost use Rattle.pf_frame.specs.Pages.{page_of};
ghost use Rattle.pf_frame.specs.Counted.{positives, IsTable};

use crate::frame::Frame;
use crate::frames::FrameNo;
use std::alloc::{AllocError, Global};

/// Frames by their numbers, each with its count: how many slots name it.
///
/// The frames whose count is 0 are vacant, and their numbers lie on a stack. So one is found in constant time.
#[derive(Drop)]
pub struct FrameTable {
    frames: Vec<Frame>,
    counts: Vec<u32>,
    vacant: Vec<FrameNo>,

    /// The stack has each frame whose count is 0 once, and no other.
    pub ghost kept: { IsTable counts.items vacant.items (length frames.items) (vec_capacity vacant) },
}

impl FrameTable {
    /// These frames, each with the count 0.
    pub fn new(alloc: Global, frames: Vec<Frame>) -> Result<FrameTable, AllocError>
        requires { length frames.items ≤ MAX_FRAMES }
        ensures frames { IfOk result (λ table. table.frames.items ≡ frames.items) }
        ensures counts { IfOk result (λ table. table.counts.items ≡ replicate (length frames.items) 0) }
    {
        let counts = Vec::from_elem(alloc, 0u32, frames.len())?;
        let mut vacant = Vec::with_capacity(alloc, frames.len())?;
        for no in 0..frames.len() as u32 {
            vacant.push_reserved(no);
        }
        Ok(FrameTable {
            frames,
            counts,
            vacant,
        })
    }

    /// How many frames are vacant.
    pub fn vacant(&self) -> u32
        ensures { result + positives self.now.counts.items ≡ length self.now.counts.items }
    {
        self.vacant.len() as u32
    }

    /// The count of a frame, 0 where there is none of this number.
    pub fn count(&self, no: FrameNo) -> u32
        ensures { result ≡ slice_index self.now.counts.items no }
    {
        match self.counts.get(no as usize) {
            Some(count) => *count,
            None => 0,
        }
    }

    /// Gives a vacant frame the count 1.
    pub fn take(&mut self) -> FrameNo
        requires { positives self.old.counts.items < length self.old.counts.items }
        ensures within { result < length self.old.counts.items }
        ensures vacant { slice_index self.old.counts.items result ≡ 0 }
        ensures counts { self.new.counts.items ≡ slice_set self.old.counts.items result 1 }
        ensures frames { self.new.frames.items ≡ self.old.frames.items }
    {
        let no = self.vacant.pop().unwrap();
        self.counts[no as usize] = 1;
        no
    }

    /// Makes the count of a frame one higher, which is above 0 and below 2^32 - 1.
    pub fn share(&mut self, no: FrameNo)
        requires is_live { 0 < slice_index self.old.counts.items no }
        requires few { slice_index self.old.counts.items no + 1 < 2 ^ 32 }
        ensures counts { self.new.counts.items
            ≡ slice_set self.old.counts.items no (slice_index self.old.counts.items no + 1) }
        ensures frames { self.new.frames.items ≡ self.old.frames.items }
    {
        self.counts[no as usize] += 1;
    }

    /// Makes the count of a frame one lower; at 0 it is vacant.
    pub fn release(&mut self, no: FrameNo)
        requires { 0 < slice_index self.old.counts.items no }
        ensures counts { self.new.counts.items
            ≡ slice_set self.old.counts.items no (slice_index self.old.counts.items no - 1) }
        ensures frames { self.new.frames.items ≡ self.old.frames.items }
    {
        let count = self.counts[no as usize] - 1;
        self.counts[no as usize] = count;
        if count == 0 {
            self.vacant.push_reserved(no);
        }
    }

    /// Sets bytes of a frame from the place `at` on.
    pub fn fill(&mut self, no: FrameNo, at: usize, bytes: &[u8])
        requires exists { no < length self.old.counts.items }
        requires within { at + length bytes.now ≤ PAGE_SIZE }
        ensures counts { self.new.counts.items ≡ self.old.counts.items }
        ensures pages { map page_of self.new.frames.items ≡ slice_set (map page_of self.old.frames.items) no
            (filled at bytes.now (slice_index_or (map page_of self.old.frames.items) no [])) }
    {
        self.frames[no as usize].fill(at, bytes);
    }

    /// `len` bytes of a frame from the place `from` on.
    pub fn view(&self, no: FrameNo, from: usize, len: usize) -> &[u8]
        requires exists { no < length self.now.counts.items }
        requires within { from + len ≤ PAGE_SIZE }
        ensures { result.now
            ≡ take len (drop from (slice_index_or (map page_of self.now.frames.items) no [])) }
    {
        self.frames[no as usize].view(from, len)
    }
}
