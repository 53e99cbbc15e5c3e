ghost use Rattle.std.specs.Prelude.{◌≡◌};

use crate::book::DepotBook;
use crate::lender::Lender;
use crate::loans::Loans;
use pf_frame::FrameNo;
use std::sync::ledger::{Ledger, Share};
use std::sync::{Mutex, Wait};

/// One namespace's way to a depot that others use too. It is sure to give a frame for each of the namespace's credits,
/// and can take back as many as the namespace holds.
///
/// A take and a give are one holding of the depot's lock each. A call may wait for the lock, and is over before another
/// namespace gets it.
#[derive(Drop)]
pub struct SharedDepot<'a, R, C: Ledger, H: Ledger> {
    rt: &'a R,
    book: &'a Mutex<DepotBook<C, H>>,
    credits: &'a mut Share<C>,
    held: &'a mut Share<H>,
}

impl<'a, R, C: Ledger, H: Ledger> SharedDepot<'a, R, C, H> {
    /// The way of the namespace that has these shares.
    pub fn new(
        rt: &'a R,
        book: &'a Mutex<DepotBook<C, H>>,
        credits: &'a mut Share<C>,
        held: &'a mut Share<H>,
    ) -> SharedDepot<'a, R, C, H>
        ensures credits_name { result.credits.ghost_name ≡ credits.entry.ghost_name }
        ensures held_name { result.held.ghost_name ≡ held.entry.ghost_name }
        ensures credits { result.credits.now ≡ credits.old }
        ensures held { result.held.now ≡ held.old }
    {
        SharedDepot {
            rt,
            book,
            credits,
            held,
        }
    }
}

impl<R: Wait, C: Ledger, H: Ledger> Lender for SharedDepot<'_, R, C, H> {
    ghost use Rattle.std.specs.Prelude.{◌<◌};
    ghost use Rattle.pf_depot.specs.Shared.{SharedRest};

    ghost ready = { λ s. s.credits.now.amount };

    ghost out = { λ s. s.held.now.amount };

    ghost fact = { λ s. (0 < s.credits.now.parts) × (0 < s.held.now.parts) };

    ghost Rest = { SharedRest };

    ghost rest = { λ s. record {
      credits_name = s.credits.ghost_name;
      held_name = s.held.ghost_name;
      credits_parts = s.credits.now.parts;
      held_parts = s.held.now.parts;
    } };

    fn take(&mut self, loans: &mut Loans) -> FrameNo {
        self.book.lock(self.rt).take(self.credits, self.held, loans)
    }

    fn give(&mut self, loans: &mut Loans, no: FrameNo) {
        self.book
            .lock(self.rt)
            .give(self.credits, self.held, loans, no);
    }
}
