ghost use Rattle.std.specs.Prelude.{◌≡◌, ℕ, ◌+◌, ◌≤◌, length, sum, vec_capacity, IfOk};
ghost use Rattle.pf_base.specs.declared.TheConstants.{MAX_FRAMES};
ghost use Rattle.pf_depot.specs.AllLoans.{AreIdle};

use crate::lender::Lender;
use crate::loans::Loans;
use crate::stock::Stock;
use pf_base::AdmitFault;
use pf_frame::{Frame, FrameNo, PoolFault};
use std::alloc::{AllocError, Global};

/// The frames that no namespace has on loan, with a place for each that may come back.
///
/// A frame is lent by moving it, so at any time it is here, at one place of one namespace's loans, or in a namespace's
/// stock, where it counts as on loan.
///
/// Its slack is how many frames no living namespace has reserved. A namespace that comes has its reservation from the
/// slack, and one that goes leaves its reservation there.
#[derive(Drop)]
pub struct Depot {
    alloc: Global,
    free: Vec<Frame>,
    // How many frames there are, free and on loan.
    all: u32,
    // How many of them are reserved by nobody.
    slack: u32,

    /// No more frames are free than there are.
    pub ghost within: { length free.items ≤ all },

    /// Each frame has its place.
    pub ghost room: { all ≤ vec_capacity free },

    /// There are not too many frames.
    pub ghost few: { all ≤ MAX_FRAMES },

    /// The slack is a number of them.
    pub ghost spare: { slack ≤ all },
}

// Loans for each of these reservations, all vacant.
fn loans_of(alloc: Global, reserves: &[u32]) -> Result<Vec<Loans>, AllocError>
    requires { sum reserves.now ≤ MAX_FRAMES }
    ensures { IfOk result (λ loans. AreIdle loans.items reserves.now) }
{
    let mut loans = Vec::with_capacity(alloc, reserves.len())?;
    for reserve in reserves {
        loans.push_reserved(Loans::new(alloc, *reserve)?);
    }
    Ok(loans)
}

// The sum of some reservations.
fn sum_of(reserves: &[u32]) -> u32
    requires { sum reserves.now ≤ MAX_FRAMES }
    ensures { result ≡ sum reserves.now }
{
    reserves.iter().sum()
}

impl Depot {
    ghost use Rattle.std.specs.Prelude.{◌≡◌, length, MatchResult, None};
    ghost use Rattle.pf_frame.specs.Faults.{fault_of, IsFault};
    ghost use Rattle.pf_frame.specs.Live.{IsIdle};
    ghost use Rattle.pf_depot.specs.Admission.{room_fault, IsAdmitFault};
    ghost use Rattle.pf_depot.specs.AllLoans.{held_of, reserved_of};
    ghost use Rattle.pf_depot.specs.Depot.{free_of, frames_of, slack_of, IsFresh, SetsAside};
    ghost use Rattle.pf_depot.specs.Loans.{loans_live};

    /// A depot of these frames, all of them free, and loans for as many namespaces as there are reservations, by their
    /// places. The frames keep the bytes that they have. The faults are those of `PoolFault`, in its order; at one the
    /// frames are dropped.
    pub fn new(
        alloc: Global,
        frames: Vec<Frame>,
        reserves: Vec<u32>,
    ) -> Result<(Depot, Vec<Loans>), PoolFault>
        ensures { MatchResult result
            (λ made. (fault_of (length frames.items) reserves.items ≡ None)
            × IsFresh made.0 made.1.items frames.items reserves.items)
            (λ fault. IsFault (fault_of (length frames.items) reserves.items) fault) }
    {
        if let Some(fault) = PoolFault::first(frames.len(), &reserves) {
            return Err(fault);
        }
        let all = frames.len() as u32;
        let slack = all - sum_of(&reserves);
        match loans_of(alloc, &reserves) {
            Ok(loans) => {
                let depot = Depot {
                    alloc,
                    free: frames,
                    all,
                    slack,
                };
                Ok((depot, loans))
            }
            Err(_) => Err(PoolFault::NoMemory),
        }
    }

    /// How many frames are free. The others are on loan.
    pub fn free(&self) -> u32
        ensures { result ≡ free_of self.now }
    {
        self.free.len() as u32
    }

    /// The slack: how many frames no living namespace has reserved, whether they are free or not.
    pub fn slack(&self) -> u32
        ensures { result ≡ slack_of self.now }
    {
        self.slack
    }

    /// Loans for one namespace more, all of them vacant, with its reservation out of the slack. No frame moves.
    ///
    /// `NoRoom` exactly where the reservation is above the slack, else `NoMemory`; then nothing has changed.
    pub fn admit(&mut self, reserve: u32) -> Result<Loans, AdmitFault>
        ensures { MatchResult result
            (λ loans. (room_fault (slack_of self.old) reserve ≡ None)
            × SetsAside self.old self.new reserve
            × IsIdle reserve (loans_live loans))
            (λ fault. (self.new ≡ self.old)
            × IsAdmitFault (room_fault (slack_of self.old) reserve) fault) }
    {
        if reserve > self.slack {
            return Err(AdmitFault::NoRoom { slack: self.slack });
        }
        let Ok(loans) = Loans::new(self.alloc, reserve) else {
            return Err(AdmitFault::NoMemory);
        };
        self.slack -= reserve;
        Ok(loans)
    }

    /// Takes the loans of a namespace that goes, all of them vacant: its reservation is in the slack again. No frame
    /// moves.
    ///
    /// For each frame of the slack and of the reservation there is a free one.
    pub fn retire(&mut self, loans: Loans)
        requires none { held_of loans ≡ 0 }
        requires room { slack_of self.old + reserved_of loans ≤ free_of self.old }
        ensures { SetsAside self.new self.old (reserved_of loans) }
    {
        self.slack += loans.credits();
    }

    /// Moves the frames of a stock back, each of which was on loan.
    pub(crate) fn unstock(&mut self, stock: Stock)
        requires { free_of self.old + stock ≤ frames_of self.old }
        ensures free { free_of self.new ≡ free_of self.old + stock }
        ensures frames { frames_of self.new ≡ frames_of self.old }
        ensures slack { slack_of self.new ≡ slack_of self.old }
    {
        for frame in stock.into_frames() {
            self.free.push_reserved(frame);
        }
    }
}

impl Lender for Depot {
    ghost use Rattle.std.specs.Prelude.{ℕ, ◌-◌};
    ghost use Rattle.pf_depot.specs.Depot.{free_of, frames_of, slack_of, DepotRest};

    ghost ready = { free_of };

    ghost out = { λ d. frames_of d - free_of d };

    ghost fact = { λ d. Unit {0} };

    ghost Rest = { DepotRest };

    ghost rest = { λ d. record { frames = frames_of d; slack = slack_of d } };

    fn take(&mut self, loans: &mut Loans) -> FrameNo {
        let frame = self.free.pop().unwrap();
        loans.receive(frame)
    }

    fn give(&mut self, loans: &mut Loans, no: FrameNo) {
        self.free.push_reserved(loans.hand_back(no));
    }
}
