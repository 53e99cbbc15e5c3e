ghost use Rattle.std.specs.Prelude.{◌≡◌, ℕ, ◌+◌, ◌-◌, ◌<◌, ◌≤◌, ◌^◌, length, sum, slice_index, slice_set};
ghost use Rattle.pf_pool.specs.Owned.{IsPool};

use crate::door::Door;
use pf_frame::{Frame, FrameNo, FrameTable, PoolFault};
use std::alloc::{AllocError, Global};

/// The frames of many namespaces, each with a reservation.
///
/// A live frame belongs to one namespace; any other may go to whoever has a credit. Since the reservations' sum is
/// no more than the number of frames, a credit always finds one.
///
/// A frame is charged once to its namespace, however many slots name it, and until none does. The counts of one
/// namespace never show in another: that is what `rest` says of each call below.
#[derive(Drop)]
pub struct FramePool {
    table: FrameTable,
    owners: Vec<u32>,
    reserves: Vec<u32>,
    held: Vec<u32>,

    /// What each namespace holds is the number of its live frames, and within its reservation.
    pub ghost kept: { IsPool owners.items table.counts.items reserves.items held.items },
}

impl FramePool {
    ghost use Rattle.std.specs.Prelude.{MatchResult, take, drop, IfOk};
    ghost use Rattle.pf_base.specs.declared.TheConstants.{MAX_FRAMES, PAGE_SIZE};
    ghost use Rattle.pf_frame.specs.Live.{Takes, Shares, Releases, Fills};
    ghost use Rattle.pf_frame.specs.Faults.{fault_of, IsFault};
    ghost use Rattle.pf_pool.specs.Pool.{pool_live, pool_rest, IsFresh, frames_of, namespaces_of, all_held};

    /// A pool of these frames for as many namespaces as there are reservations, by their places. No frame is live.
    pub fn new(
        alloc: Global,
        frames: Vec<Frame>,
        reserves: Vec<u32>,
    ) -> Result<FramePool, PoolFault>
        ensures { MatchResult result
            (λ pool. (fault_of (length frames.items) reserves.items ≡ None)
            × IsFresh pool (length frames.items) reserves.items)
            (λ fault. IsFault (fault_of (length frames.items) reserves.items) fault) }
    {
        if let Some(fault) = PoolFault::first(frames.len(), &reserves) {
            return Err(fault);
        }
        match FramePool::within(alloc, frames, reserves) {
            Ok(pool) => Ok(pool),
            Err(_) => Err(PoolFault::NoMemory),
        }
    }

    // A pool of enough frames.
    fn within(
        alloc: Global,
        frames: Vec<Frame>,
        reserves: Vec<u32>,
    ) -> Result<FramePool, AllocError>
        requires frames { length frames.items ≤ MAX_FRAMES }
        requires reserved { sum reserves.items ≤ length frames.items }
        ensures { IfOk result (λ pool. IsFresh pool (length frames.items) reserves.items) }
    {
        let owners = Vec::from_elem(alloc, 0u32, frames.len())?;
        let held = Vec::from_elem(alloc, 0u32, reserves.len())?;
        let table = FrameTable::new(alloc, frames)?;
        Ok(FramePool {
            table,
            owners,
            reserves,
            held,
        })
    }

    /// The door of a namespace.
    pub fn door(&mut self, ns: u32) -> Door<'_>
        requires { ns < namespaces_of self.old }
        ensures same { result.pool.ghost_name ≡ self.entry.ghost_name }
        ensures ns { result.ns ≡ ns }
        ensures pool { result.pool.now ≡ self.old }
    {
        Door { pool: self, ns }
    }

    /// How many frames are not live: with what all namespaces hold, these are all frames.
    pub fn free(&self) -> u32
        ensures all { result + all_held self.now ≡ frames_of self.now }
        ensures each { (ns : ℕ) → slice_index self.now.held.items ns ≡ (pool_live self.now ns).held }
    {
        self.table.vacant()
    }

    /// How many frames a namespace holds, 0 where there is none of this number.
    pub fn held(&self, ns: u32) -> u32
        ensures { result ≡ (pool_live self.now ns).held }
    {
        match self.held.get(ns as usize) {
            Some(held) => *held,
            None => 0,
        }
    }

    /// How many slots name a frame, 0 where it is not live.
    ///
    /// A count above 1 is of a frame that several slots name, all of its one namespace: a release then frees nothing.
    pub fn count(&self, no: FrameNo) -> u32
        ensures live { (ns : ℕ) → 0 < (pool_live self.now ns).count no
            → result ≡ (pool_live self.now ns).count no }
        ensures idle { ((ns : ℕ) → (pool_live self.now ns).count no ≡ 0) → result ≡ 0 }
    {
        self.table.count(no)
    }

    /// How many more frames a namespace may take.
    pub(crate) fn credits_of(&self, ns: u32) -> u32
        requires { ns < namespaces_of self.now }
        ensures { result + (pool_live self.now ns).held ≡ (pool_live self.now ns).reserved }
    {
        self.reserves[ns as usize] - self.held[ns as usize]
    }

    /// Gives a namespace that has a credit a frame that was not live.
    pub(crate) fn take_for(&mut self, ns: u32) -> FrameNo
        requires exists { ns < namespaces_of self.old }
        requires credit { (pool_live self.old ns).held < (pool_live self.old ns).reserved }
        ensures takes { Takes (pool_live self.old ns) (pool_live self.new ns) result }
        ensures rest { pool_rest self.new ns ≡ pool_rest self.old ns }
    {
        let no = self.table.take();
        self.owners[no as usize] = ns;
        self.held[ns as usize] += 1;
        no
    }

    /// Counts one more slot that names a namespace's frame. It charges nothing: the frame is held once.
    pub(crate) fn share_of(&mut self, ns: u32, no: FrameNo)
        requires exists { ns < namespaces_of self.old }
        requires is_live { 0 < (pool_live self.old ns).count no }
        requires few { (pool_live self.old ns).count no + 1 < 2 ^ 32 }
        ensures shares { Shares (pool_live self.old ns) (pool_live self.new ns) no }
        ensures rest { pool_rest self.new ns ≡ pool_rest self.old ns }
    {
        self.table.share(no);
    }

    /// Takes one count from a namespace's frame. At a count above 1 this frees nothing, and the frame stays charged.
    pub(crate) fn release_of(&mut self, ns: u32, no: FrameNo)
        requires exists { ns < namespaces_of self.old }
        requires is_live { 0 < (pool_live self.old ns).count no }
        ensures releases { Releases (pool_live self.old ns) (pool_live self.new ns) no }
        ensures rest { pool_rest self.new ns ≡ pool_rest self.old ns }
    {
        self.table.release(no);
        if self.table.count(no) == 0 {
            self.held[ns as usize] -= 1;
        }
    }

    /// Sets bytes of a namespace's frame. That it is that namespace's is for the contract alone to say.
    pub(crate) fn fill_of(&mut self, ns: u32, no: FrameNo, at: usize, bytes: &[u8])
        requires is_live { 0 < (pool_live self.old ns).count no }
        requires within { at + length bytes.now ≤ PAGE_SIZE }
        ensures fills { Fills (pool_live self.old ns) (pool_live self.new ns) no at bytes.now }
        ensures rest { pool_rest self.new ns ≡ pool_rest self.old ns }
    {
        self.table.fill(no, at, bytes);
    }

    /// Bytes of a namespace's frame. That it is that namespace's is for the contract alone to say.
    pub(crate) fn view_of(&self, ns: u32, no: FrameNo, from: usize, len: usize) -> &[u8]
        requires is_live { 0 < (pool_live self.now ns).count no }
        requires within { from + len ≤ PAGE_SIZE }
        ensures { result.now ≡ take len (drop from ((pool_live self.now ns).bytes no)) }
    {
        self.table.view(no, from, len)
    }
}
