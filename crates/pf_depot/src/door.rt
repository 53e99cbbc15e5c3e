ghost use Rattle.std.specs.Prelude.{◌≡◌, ℕ, ◌+◌, ◌-◌};

use crate::lender::Lender;
use crate::loans::Loans;
use pf_frame::{FrameNo, Frames};

/// A namespace's door to its frames on loan, and to whoever lends them.
///
/// Its fact is the lender's, and that the lender is sure to give as many frames as the namespace has credits and can
/// take back as many as it holds. Only a `take`, and a `release` at count 1, reach the lender.
#[derive(Drop)]
pub struct LoanDoor<'a, D: Lender> {
    lender: &'a mut D,
    loans: &'a mut Loans,
}

impl<'a, D: Lender> LoanDoor<'a, D> {
    /// The door over a lender and the loans of one namespace.
    pub fn new(lender: &'a mut D, loans: &'a mut Loans) -> LoanDoor<'a, D>
        ensures lender_name { result.lender.ghost_name ≡ lender.entry.ghost_name }
        ensures loans_name { result.loans.ghost_name ≡ loans.entry.ghost_name }
        ensures lender { result.lender.now ≡ lender.old }
        ensures loans { result.loans.now ≡ loans.old }
    {
        LoanDoor { lender, loans }
    }
}

impl<D: Lender> Frames for LoanDoor<'_, D> {
    ghost use Rattle.pf_depot.specs.Loans.{loans_live};
    ghost use Rattle.pf_depot.specs.Lent.{loans_sound, loans_census};
    ghost use Rattle.pf_depot.specs.Door.{LoanRest, IsCovered};

    ghost live = { λ d. loans_live d.loans.now };

    ghost fact = { λ d. D.fact d.lender.now
        × IsCovered (loans_live d.loans.now) (D.ready d.lender.now) (D.out d.lender.now) };

    ghost Rest = { LoanRest D.Rest };

    ghost rest = { λ d. record {
      lender_name = d.lender.ghost_name;
      loans_name = d.loans.ghost_name;
      reserved = (loans_live d.loans.now).reserved;
      spare = D.ready d.lender.now + (loans_live d.loans.now).held;
      owed = D.out d.lender.now - (loans_live d.loans.now).held;
      lender = D.rest d.lender.now;
    } };

    fn credits(&self) -> u32 {
        self.loans.credits()
    }

    fn take(&mut self) -> FrameNo {
        self.lender.take(self.loans)
    }

    fn share(&mut self, no: FrameNo) {
        self.loans.raise(no);
    }

    fn release(&mut self, no: FrameNo) {
        if self.loans.count(no) == 1 {
            self.lender.give(self.loans, no);
        } else {
            self.loans.lower(no);
        }
    }

    fn fill(&mut self, no: FrameNo, at: usize, bytes: &[u8]) {
        self.loans.fill(no, at, bytes);
    }

    fn view(&self, no: FrameNo, from: usize, len: usize) -> &[u8] {
        self.loans.view(no, from, len)
    }

    ghost sound = { λ d fact. loans_sound d.loans.now };

    ghost census = { λ d fact. loans_census d.loans.now };
}
