ghost use Rattle.std.specs.Prelude.{◌≡◌, ◌+◌, ◌<◌};
ghost use Rattle.pf_depot.specs.AllLoans.{held_of, reserved_of};

use crate::loans::Loans;
use crate::stock::Stock;
use std::sync::ledger::{Ledger, Share};

/// All that a namespace has at a shared depot, which goes.
///
/// It is given back by `DepotBook::retire`, and in no other way: it isn't `Drop`, so whoever has it can't let it go, and
/// nobody but the depot takes it apart. A ledger has one book, so there is one depot that can take it.
pub struct Leaving<C: Ledger, H: Ledger> {
    pub(crate) loans: Loans,
    pub(crate) credits: Share<C>,
    pub(crate) held: Share<H>,
    pub(crate) stock: Stock,

    /// Its loans hold no frame.
    pub ghost none: { held_of loans ≡ 0 },

    /// For each frame that it may take there is a credit or a frame of its stock.
    pub ghost unspent: { credits.amount + stock ≡ reserved_of loans },

    /// It holds the frames of its stock.
    pub ghost stocked: { held.amount ≡ stock },

    /// Both shares have a part of their ledger.
    pub ghost parts: { (0 < credits.parts) × (0 < held.parts) },
}

impl<C: Ledger, H: Ledger> Leaving<C, H> {
    /// A namespace's loans, its shares, and its stock, as it goes.
    pub fn new(loans: Loans, credits: Share<C>, held: Share<H>, stock: Stock) -> Self
        requires none { held_of loans ≡ 0 }
        requires unspent { credits.amount + stock ≡ reserved_of loans }
        requires stocked { held.amount ≡ stock }
        requires parts { (0 < credits.parts) × (0 < held.parts) }
        ensures loans { result.loans ≡ loans }
        ensures credits { result.credits ≡ credits }
        ensures held { result.held ≡ held }
        ensures stock { result.stock ≡ stock }
    {
        Leaving {
            loans,
            credits,
            held,
            stock,
        }
    }
}
