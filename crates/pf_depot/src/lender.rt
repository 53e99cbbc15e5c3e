ghost use Rattle.std.specs.Prelude.{◌≡◌, ℕ, ◌+◌, ◌<◌};
ghost use Rattle.pf_frame.specs.Live.{Takes, Releases};
ghost use Rattle.pf_depot.specs.Loans.{loans_live};

use crate::loans::Loans;
use pf_frame::FrameNo;

/// Where the frames on loan come from, and where they go back to. A frame is moved, and never copied.
///
/// No call takes memory, and each takes constant time, beside what it waits for a lock or a gate. A lender has besides
/// a fact, which is a condition of each call and kept by each, and a part that no call changes: what a call says of it
/// is one equation of before and after, so it holds over any number of calls.
pub trait Lender {
    /// How many frames it is sure to give.
    ghost ready: { Self → ℕ };

    /// How many frames it can take back.
    ghost out: { Self → ℕ };

    /// A condition of each call, kept by each.
    ghost fact: { Self → Type 0 };

    /// What no call changes.
    ghost Rest: { Type 0 };

    ghost rest: { Self → Rest };

    /// Moves a frame to a vacant place of the loans, where it is live with count 1 and whatever bytes it has.
    fn take(&mut self, loans: &mut Loans) -> FrameNo
        requires fact { fact self.old }
        requires ready { 0 < ready self.old }
        requires credit { (loans_live loans.old).held < (loans_live loans.old).reserved }
        ensures fact { fact self.new }
        ensures rest { rest self.new ≡ rest self.old }
        ensures ready { ready self.new + 1 ≡ ready self.old }
        ensures out { out self.new ≡ out self.old + 1 }
        ensures takes { Takes (loans_live loans.old) (loans_live loans.new) result };

    /// Moves a frame of count 1 back from the loans: its place is vacant again.
    fn give(&mut self, loans: &mut Loans, no: FrameNo)
        requires fact { fact self.old }
        requires out { 0 < out self.old }
        requires single { (loans_live loans.old).count no ≡ 1 }
        ensures fact { fact self.new }
        ensures rest { rest self.new ≡ rest self.old }
        ensures ready { ready self.new ≡ ready self.old + 1 }
        ensures out { out self.new + 1 ≡ out self.old }
        ensures gives { Releases (loans_live loans.old) (loans_live loans.new) no };
}
