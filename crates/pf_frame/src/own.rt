ghost use Rattle.std.specs.Prelude.{◌≡◌, ℕ, ◌≤◌, length, IfOk};
ghost use Rattle.pf_base.specs.declared.TheConstants.{MAX_FRAMES};
ghost use Rattle.pf_frame.specs.Live.{IsIdle};

use crate::frame::Frame;
use crate::frames::{FrameNo, Frames};
use crate::table::FrameTable;
use std::alloc::{AllocError, Global};

/// Frames that one namespace has for itself: each that isn't live is a credit.
#[derive(Drop)]
pub struct OwnFrames {
    table: FrameTable,
}

impl OwnFrames {
    ghost use Rattle.pf_frame.specs.Own.{own_live};

    /// These frames, none of them live.
    pub fn new(alloc: Global, frames: Vec<Frame>) -> Result<OwnFrames, AllocError>
        requires { length frames.items ≤ MAX_FRAMES }
        ensures { IfOk result (λ own. IsIdle (length frames.items) (own_live own)) }
    {
        let table = FrameTable::new(alloc, frames)?;
        Ok(OwnFrames { table })
    }
}

impl Frames for OwnFrames {
    ghost use Rattle.pf_frame.specs.Own.{own_live};
    ghost use Rattle.pf_frame.specs.Sound.{own_sound, own_census};

    ghost live = { own_live };

    ghost fact = { λ f. Unit {0} };

    ghost Rest = { ℕ };

    ghost rest = { λ f. 0 };

    fn credits(&self) -> u32 {
        self.table.vacant()
    }

    fn take(&mut self) -> FrameNo {
        self.table.take()
    }

    fn share(&mut self, no: FrameNo) {
        self.table.share(no);
    }

    fn release(&mut self, no: FrameNo) {
        self.table.release(no);
    }

    fn fill(&mut self, no: FrameNo, at: usize, bytes: &[u8]) {
        self.table.fill(no, at, bytes);
    }

    fn view(&self, no: FrameNo, from: usize, len: usize) -> &[u8] {
        self.table.view(no, from, len)
    }

    ghost sound = { λ f fact. own_sound f };

    ghost census = { λ f fact. own_census f };
}
