ghost use Rattle.std.specs.Prelude.{◌≡◌, ℕ, ◌+◌, ◌<◌, ◌≤◌, ◌^◌, length, take, drop};
ghost use Rattle.pf_base.specs.declared.TheConstants.{PAGE_SIZE};
ghost use Rattle.pf_frame.specs.Live.{Live, Takes, Shares, Releases, Fills, IsSound, Census};

/// The number of a frame, as its door gives it. Two doors may give one number to two frames.
pub type FrameNo = u32;

/// One namespace's door to its frames.
///
/// A frame is live with its bytes and a count: how many slots name it. Each call changes its own frame alone. No call
/// takes memory, and each takes constant time, besides the time to copy the bytes of a `fill`, and what it waits for a
/// lock or a gate.
///
/// `take` makes a frame live with count 1, `share` counts one more slot and `release` one less. So `share`, `release`,
/// `fill` and `view` may find a count above 1: then a `release` frees nothing, and a `fill` is seen by every slot that
/// names the frame. Whoever fills a frame that is shared sees to it that no other slot shows the bytes that change.
///
/// A door has besides a fact, which is a condition of each call and kept by each, and a part that none of its
/// calls changes (as another namespace's frames): what a call says of it is one equation of before and after, so
/// it is reflexive and holds over any number of calls. Whoever works over any door hands both on.
pub trait Frames {
    /// What the door sees: the live frames and the reservation.
    ghost live: { Self → Live };

    /// A condition of each call, kept by each.
    ghost fact: { Self → Type 0 };

    /// What no call of this door changes.
    ghost Rest: { Type 0 };

    ghost rest: { Self → Rest };

    /// How many more frames may be taken: the reservation less the live frames.
    fn credits(&self) -> u32
        requires { fact self.now }
        ensures { result + (live self.now).held ≡ (live self.now).reserved };

    /// Makes a frame live that was not, with count 1 and whatever bytes it has.
    fn take(&mut self) -> FrameNo
        requires fact { fact self.old }
        requires credit { (live self.old).held < (live self.old).reserved }
        ensures fact { fact self.new }
        ensures rest { rest self.new ≡ rest self.old }
        ensures takes { Takes (live self.old) (live self.new) result };

    /// Makes the count of a live frame one higher, which is below 2^32 - 1: one more slot names it.
    fn share(&mut self, no: FrameNo)
        requires fact { fact self.old }
        requires is_live { 0 < (live self.old).count no }
        requires few { (live self.old).count no + 1 < 2 ^ 32 }
        ensures fact { fact self.new }
        ensures rest { rest self.new ≡ rest self.old }
        ensures shares { Shares (live self.old) (live self.new) no };

    /// Makes the count of a live frame one lower. At 0 it is live no more, and its credit is back.
    fn release(&mut self, no: FrameNo)
        requires fact { fact self.old }
        requires is_live { 0 < (live self.old).count no }
        ensures fact { fact self.new }
        ensures rest { rest self.new ≡ rest self.old }
        ensures releases { Releases (live self.old) (live self.new) no };

    /// Sets bytes of a live frame, from the place `at` on.
    fn fill(&mut self, no: FrameNo, at: usize, bytes: &[u8])
        requires fact { fact self.old }
        requires is_live { 0 < (live self.old).count no }
        requires within { at + length bytes.now ≤ PAGE_SIZE }
        ensures fact { fact self.new }
        ensures rest { rest self.new ≡ rest self.old }
        ensures fills { Fills (live self.old) (live self.new) no at bytes.now };

    /// `len` bytes of a live frame, from the place `from` on.
    fn view(&self, no: FrameNo, from: usize, len: usize) -> &[u8]
        requires fact { fact self.now }
        requires is_live { 0 < (live self.now).count no }
        requires within { from + len ≤ PAGE_SIZE }
        ensures { result.now ≡ take len (drop from ((live self.now).bytes no)) };

    /// What is true of the live frames at all times.
    ghost sound: { (f : Self) → fact f → IsSound (live f) };

    /// `held` is the number of the live frames.
    ghost census: { (f : Self) → fact f → Census (live f) };
}
