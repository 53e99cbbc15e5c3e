//! A namespace at a shared depot, with what it keeps while others use the depot too.

ghost use Rattle.std.specs.Prelude.{◌≡◌, ◌+◌, ◌<◌};
ghost use Rattle.pf_depot.specs.AllLoans.{held_of, reserved_of};

use crate::borrowing::borrow_from;
use pf_depot::{Allotment, DepotBook, Loans, SharedDepot};
use std::sync::ledger::{Ledger, Share};
use std::sync::{Mutex, Wait};

// What a namespace's lock would keep: its loans, and the shares that say how many frames it may take and holds.
#[derive(Drop)]
pub(crate) struct Tenant<C: Ledger, H: Ledger> {
    loans: Loans,
    credits: Share<C>,
    held: Share<H>,

    // a credit for each place that is vacant
    pub(crate) ghost unspent: { credits.amount + held_of loans ≡ reserved_of loans },

    // what it holds is what is on loan to it
    pub(crate) ghost lent: { held.amount ≡ held_of loans },

    // both shares can grow
    pub(crate) ghost parts: { (0 < credits.parts) × (0 < held.parts) },
}

impl<C: Ledger, H: Ledger> Tenant<C, H> {
    pub(crate) fn new(allotment: Allotment<C, H>) -> Tenant<C, H> {
        let Allotment {
            loans,
            credits,
            held,
        } = allotment;
        Tenant {
            loans,
            credits,
            held,
        }
    }

    pub(crate) fn held(&self) -> u32 {
        self.loans.held()
    }

    // Takes two frames, writes to both, and keeps them or gives them back. Says whether they showed what was written.
    pub(crate) fn borrow<R: Wait>(
        &mut self,
        rt: &R,
        book: &Mutex<DepotBook<C, H>>,
        byte: u8,
        is_kept: bool,
    ) -> bool {
        let Tenant {
            loans,
            credits,
            held,
        } = self;
        let mut way = SharedDepot::new(rt, book, credits, held);
        borrow_from(&mut way, loans, byte, is_kept)
    }
}
