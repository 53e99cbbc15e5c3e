ghost use Rattle.std.specs.Prelude.{◌≡◌, ℕ, length, vec_capacity, IfOk, replicate, None};
ghost use Rattle.pf_frame.specs.Counted.{IsTable};
ghost use Rattle.pf_depot.specs.Places.{AreLent};

use pf_frame::{Frame, FrameNo};
use std::alloc::{AllocError, Global};

/// The frames that one namespace has on loan, each with its count: how many slots name it.
///
/// A frame lies at a place, and its number is the place's: two namespaces may give one number to two frames. The
/// places stand from the start, as many as the reservation. A vacant one is a credit, and the numbers of the vacant
/// ones lie on a stack, so one is found in constant time.
#[derive(Drop)]
pub struct Loans {
    places: Vec<Option<Frame>>,
    counts: Vec<u32>,
    vacant: Vec<FrameNo>,

    /// The stack has each place whose count is 0 once, and no other.
    pub ghost kept: { IsTable counts.items vacant.items (length places.items) (vec_capacity vacant) },

    /// A place has a frame exactly where its count is above 0.
    pub ghost lent: { AreLent counts.items places.items },
}

// Places with no frame.
fn vacant_places(alloc: Global, count: usize) -> Result<Vec<Option<Frame>>, AllocError>
    ensures { IfOk result (λ places. places.items ≡ replicate count None) }
{
    let mut places = Vec::with_capacity(alloc, count)?;
    for _ in 0..count {
        places.push_reserved(None);
    }
    Ok(places)
}

impl Loans {
    ghost use Rattle.std.specs.Prelude.{◌≡◌, ℕ, ◌+◌, ◌<◌, ◌≤◌, ◌^◌, length, take, drop, IfOk};
    ghost use Rattle.pf_base.specs.declared.TheConstants.{MAX_RESERVE, PAGE_SIZE};
    ghost use Rattle.pf_frame.specs.Live.{Takes, Shares, Releases, Fills, IsIdle};
    ghost use Rattle.pf_frame.specs.Pages.{page_of};
    ghost use Rattle.pf_depot.specs.Loans.{loans_live};

    /// So many places, all of them vacant.
    pub(crate) fn new(alloc: Global, reserve: u32) -> Result<Loans, AllocError>
        requires { reserve ≤ MAX_RESERVE }
        ensures { IfOk result (λ loans. IsIdle reserve (loans_live loans)) }
    {
        let places = vacant_places(alloc, reserve as usize)?;
        let counts = Vec::from_elem(alloc, 0u32, reserve as usize)?;
        let mut vacant = Vec::with_capacity(alloc, reserve as usize)?;
        for no in 0..reserve {
            vacant.push_reserved(no);
        }
        Ok(Loans {
            places,
            counts,
            vacant,
        })
    }

    /// How many frames are on loan. A frame is counted once, however many slots name it.
    pub fn held(&self) -> u32
        ensures { result ≡ (loans_live self.now).held }
    {
        (self.counts.len() - self.vacant.len()) as u32
    }

    /// How many more frames may be taken.
    pub(crate) fn credits(&self) -> u32
        ensures { result + (loans_live self.now).held ≡ (loans_live self.now).reserved }
    {
        self.vacant.len() as u32
    }

    /// How many slots name the frame at a place, 0 where there is none.
    pub(crate) fn count(&self, no: FrameNo) -> u32
        ensures { result ≡ (loans_live self.now).count no }
    {
        match self.counts.get(no as usize) {
            Some(count) => *count,
            None => 0,
        }
    }

    /// Puts a frame at a vacant place, with count 1.
    pub(crate) fn receive(&mut self, frame: Frame) -> FrameNo
        requires { (loans_live self.old).held < (loans_live self.old).reserved }
        ensures takes { Takes (loans_live self.old) (loans_live self.new) result }
        ensures moved { (loans_live self.new).bytes result ≡ page_of frame }
    {
        let no = self.vacant.pop().unwrap();
        self.counts[no as usize] = 1;
        self.places[no as usize] = Some(frame);
        no
    }

    /// Gives up the frame at a place, whose count is 1.
    pub(crate) fn hand_back(&mut self, no: FrameNo) -> Frame
        requires { (loans_live self.old).count no ≡ 1 }
        ensures gives { Releases (loans_live self.old) (loans_live self.new) no }
        ensures moved { page_of result ≡ (loans_live self.old).bytes no }
    {
        self.counts[no as usize] = 0;
        self.vacant.push_reserved(no);
        self.places[no as usize].take().unwrap()
    }

    /// Makes the count of a frame one higher, which is below 2^32 - 1.
    pub(crate) fn raise(&mut self, no: FrameNo)
        requires is_live { 0 < (loans_live self.old).count no }
        requires few { (loans_live self.old).count no + 1 < 2 ^ 32 }
        ensures { Shares (loans_live self.old) (loans_live self.new) no }
    {
        self.counts[no as usize] += 1;
    }

    /// Makes the count of a frame one lower, which is above 1: no frame goes back.
    pub(crate) fn lower(&mut self, no: FrameNo)
        requires { 1 < (loans_live self.old).count no }
        ensures { Releases (loans_live self.old) (loans_live self.new) no }
    {
        self.counts[no as usize] -= 1;
    }

    /// Sets bytes of a frame from the place `at` on.
    pub(crate) fn fill(&mut self, no: FrameNo, at: usize, bytes: &[u8])
        requires is_live { 0 < (loans_live self.old).count no }
        requires within { at + length bytes.now ≤ PAGE_SIZE }
        ensures { Fills (loans_live self.old) (loans_live self.new) no at bytes.now }
    {
        if let Some(frame) = &mut self.places[no as usize] {
            frame.fill(at, bytes);
        }
    }

    /// `len` bytes of a frame from the place `from` on.
    pub(crate) fn view(&self, no: FrameNo, from: usize, len: usize) -> &[u8]
        requires is_live { 0 < (loans_live self.now).count no }
        requires within { from + len ≤ PAGE_SIZE }
        ensures { result.now ≡ take len (drop from ((loans_live self.now).bytes no)) }
    {
        match &self.places[no as usize] {
            Some(frame) => frame.view(from, len),
            None => unreachable!(),
        }
    }
}
