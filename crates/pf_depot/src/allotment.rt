ghost use Rattle.std.specs.Prelude.{◌≡◌, ◌+◌, ◌<◌};
ghost use Rattle.pf_frame.specs.Live.{IsIdle};
ghost use Rattle.pf_depot.specs.AllLoans.{reserved_of, held_of};
ghost use Rattle.pf_depot.specs.Loans.{loans_live};

use crate::loans::Loans;
use std::sync::ledger::{Book, Ledger, Share};

/// What a namespace begins with at a shared depot: its loans, which hold no frame, and its shares of the two ledgers.
#[derive(Drop)]
pub struct Allotment<C: Ledger, H: Ledger> {
    /// Its frames on loan: none yet.
    pub loans: Loans,
    /// Its credits.
    pub credits: Share<C>,
    /// How many frames it holds.
    pub held: Share<H>,

    /// All places of the loans are vacant.
    pub ghost idle: { IsIdle (reserved_of loans) (loans_live loans) },

    /// There is a credit for each of them.
    pub ghost reserved: { credits.amount ≡ reserved_of loans },

    /// It holds no frame.
    pub ghost none: { held.amount ≡ 0 },

    /// Both shares have a part of their ledger, so each can grow.
    pub ghost parts: { (0 < credits.parts) × (0 < held.parts) },
}

impl<C: Ledger, H: Ledger> Allotment<C, H> {
    /// Deals a part of each ledger to the holder of these loans, and as many credits as they have places.
    pub(crate) fn deal(
        loans: Loans,
        book: &mut Book<C>,
        credits: &mut Share<C>,
        held: &mut Share<H>,
    ) -> Allotment<C, H>
        requires none { held_of loans ≡ 0 }
        requires unspent { credits.old.amount ≡ 0 }
        requires unlent { held.old.amount ≡ 0 }
        requires parts { (0 < credits.old.parts) × (0 < held.old.parts) }
        ensures loans { result.loans ≡ loans }
        ensures booked { book.new.total ≡ book.old.total + reserved_of loans }
        ensures credits { (credits.new.amount ≡ 0) × (credits.new.parts + 1 ≡ credits.old.parts) }
        ensures held { (held.new.amount ≡ 0) × (held.new.parts + 1 ≡ held.old.parts) }
    {
        let mut own = credits.split_off(1, 0);
        book.add(&mut own, u64::from(loans.credits()));
        Allotment {
            loans,
            credits: own,
            held: held.split_off(1, 0),
        }
    }
}
