ghost use Rattle.std.specs.Prelude.{◌≡◌};

use crate::book::DepotBook;
use crate::lender::Lender;
use crate::loans::Loans;
use crate::stock::Stock;
use pf_frame::FrameNo;
use std::sync::ledger::{Ledger, Share};
use std::sync::{Mutex, Wait};

/// One namespace's way to a depot that others use too, by way of a stock of its own: a take is from the stock where that has
/// a frame, a give goes to the stock where that has room, and only the others hold the depot's lock, once each. Such a call
/// may wait for it.
///
/// What is in the stock counts as held at the depot. So the namespace is sure of a frame for each of its credits there and
/// for each frame of its stock, and can give back as many as it holds beside that.
#[derive(Drop)]
pub struct StockedDepot<'a, R, C: Ledger, H: Ledger> {
    rt: &'a R,
    book: &'a Mutex<DepotBook<C, H>>,
    credits: &'a mut Share<C>,
    held: &'a mut Share<H>,
    stock: &'a mut Stock,
}

impl<'a, R, C: Ledger, H: Ledger> StockedDepot<'a, R, C, H> {
    /// The way of the namespace that has these shares and this stock.
    pub fn new(
        rt: &'a R,
        book: &'a Mutex<DepotBook<C, H>>,
        credits: &'a mut Share<C>,
        held: &'a mut Share<H>,
        stock: &'a mut Stock,
    ) -> StockedDepot<'a, R, C, H>
        ensures credits_name { result.credits.ghost_name ≡ credits.entry.ghost_name }
        ensures held_name { result.held.ghost_name ≡ held.entry.ghost_name }
        ensures stock_name { result.stock.ghost_name ≡ stock.entry.ghost_name }
        ensures credits { result.credits.now ≡ credits.old }
        ensures held { result.held.now ≡ held.old }
        ensures stock { result.stock.now ≡ stock.old }
    {
        StockedDepot {
            rt,
            book,
            credits,
            held,
            stock,
        }
    }
}

impl<R: Wait, C: Ledger, H: Ledger> Lender for StockedDepot<'_, R, C, H> {
    ghost use Rattle.std.specs.Prelude.{◌+◌, ◌-◌, ◌<◌, ◌≤◌};
    ghost use Rattle.pf_depot.specs.Stocked.{StockedRest};

    ghost ready = { λ s. s.credits.now.amount + s.stock.now };

    ghost out = { λ s. s.held.now.amount - s.stock.now };

    ghost fact = { λ s. (0 < s.credits.now.parts) × (0 < s.held.now.parts)
        × (s.stock.now ≤ s.held.now.amount) };

    ghost Rest = { StockedRest };

    ghost rest = { λ s. record {
      credits_name = s.credits.ghost_name;
      held_name = s.held.ghost_name;
      stock_name = s.stock.ghost_name;
      credits_parts = s.credits.now.parts;
      held_parts = s.held.now.parts;
    } };

    fn take(&mut self, loans: &mut Loans) -> FrameNo {
        match self.stock.pop() {
            Some(frame) => loans.receive(frame),
            None => self.book.lock(self.rt).take(self.credits, self.held, loans),
        }
    }

    fn give(&mut self, loans: &mut Loans, no: FrameNo) {
        if self.stock.has_room() {
            self.stock.push(loans.hand_back(no));
        } else {
            self.book
                .lock(self.rt)
                .give(self.credits, self.held, loans, no);
        }
    }
}
