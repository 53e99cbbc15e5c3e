ghost use Rattle.std.specs.Prelude.{◌<◌};

use crate::pool::FramePool;
use pf_frame::{FrameNo, Frames};

/// A namespace's door to its frames of a pool.
#[derive(Drop)]
pub struct Door<'a> {
    pub(crate) pool: &'a mut FramePool,
    pub(crate) ns: u32,
}

impl Frames for Door<'_> {
    ghost use Rattle.pf_pool.specs.Pool.{pool_live, DoorRest, namespaces_of, pool_rest};
    ghost use Rattle.pf_pool.specs.PoolSound.{pool_sound, pool_census};

    ghost live = { λ d. pool_live d.pool.now d.ns };

    ghost fact = { λ d. d.ns < namespaces_of d.pool.now };

    ghost Rest = { DoorRest };

    ghost rest = { λ d. record { name = d.pool.ghost_name; ns = d.ns; pool = pool_rest d.pool.now d.ns } };

    fn credits(&self) -> u32 {
        self.pool.credits_of(self.ns)
    }

    fn take(&mut self) -> FrameNo {
        self.pool.take_for(self.ns)
    }

    fn share(&mut self, no: FrameNo) {
        self.pool.share_of(self.ns, no);
    }

    fn release(&mut self, no: FrameNo) {
        self.pool.release_of(self.ns, no);
    }

    fn fill(&mut self, no: FrameNo, at: usize, bytes: &[u8]) {
        self.pool.fill_of(self.ns, no, at, bytes);
    }

    fn view(&self, no: FrameNo, from: usize, len: usize) -> &[u8] {
        self.pool.view_of(self.ns, no, from, len)
    }

    ghost sound = { λ d fact. pool_sound d.pool.now d.ns };

    ghost census = { λ d fact. pool_census d.pool.now d.ns };
}
