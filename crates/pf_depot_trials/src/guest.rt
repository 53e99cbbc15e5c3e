//! A namespace that comes to a shared depot and goes, with a stock of frames.

ghost use Rattle.std.specs.Prelude.{◌≡◌, ◌+◌, ◌<◌};
ghost use Rattle.pf_depot.specs.AllLoans.{held_of, reserved_of};

use crate::borrowing::borrow_from;
use pf_base::AdmitFault;
use pf_depot::{Allotment, DepotBook, Leaving, Loans, Stock, StockedDepot};
use std::alloc::Global;
use std::sync::ledger::{Ledger, Share};
use std::sync::{Mutex, Wait};

// What a namespace's lock would keep: its loans, its shares, and its stock.
#[derive(Drop)]
pub(crate) struct Guest<C: Ledger, H: Ledger> {
    loans: Loans,
    credits: Share<C>,
    held: Share<H>,
    stock: Stock,

    // for each place that is vacant a credit, or a frame in stock
    pub(crate) ghost unspent: { credits.amount + stock + held_of loans ≡ reserved_of loans },

    // what it holds is what is on loan to it and in stock
    pub(crate) ghost lent: { held.amount ≡ held_of loans + stock },

    // both shares can grow
    pub(crate) ghost parts: { (0 < credits.parts) × (0 < held.parts) },
}

impl<C: Ledger, H: Ledger> Guest<C, H> {
    fn new(allotment: Allotment<C, H>, stock: Stock) -> Guest<C, H>
        requires { stock ≡ 0 }
    {
        let Allotment {
            loans,
            credits,
            held,
        } = allotment;
        Guest {
            loans,
            credits,
            held,
            stock,
        }
    }

    // One that comes, and its number.
    pub(crate) fn admit<R: Wait>(
        rt: &R,
        alloc: Global,
        book: &Mutex<DepotBook<C, H>>,
        reserve: u32,
    ) -> Result<(u32, Guest<C, H>), AdmitFault> {
        let Ok(stock) = Stock::new(alloc) else {
            return Err(AdmitFault::NoMemory);
        };
        let (number, allotment) = book.lock(rt).admit(reserve)?;
        Ok((number, Guest::new(allotment, stock)))
    }

    // It goes, where it holds no frame but those in stock. Says whether it does.
    pub(crate) fn retire<R: Wait>(self, rt: &R, book: &Mutex<DepotBook<C, H>>) -> bool {
        let Guest {
            loans,
            credits,
            held,
            stock,
        } = self;
        if loans.held() != 0 {
            return false;
        }
        book.lock(rt)
            .retire(Leaving::new(loans, credits, held, stock));
        true
    }

    // Takes two frames, writes to both, and gives them back: to its stock, while that has room. Says whether they
    // showed what was written.
    pub(crate) fn borrow<R: Wait>(
        &mut self,
        rt: &R,
        book: &Mutex<DepotBook<C, H>>,
        byte: u8,
    ) -> bool {
        let Guest {
            loans,
            credits,
            held,
            stock,
        } = self;
        let mut way = StockedDepot::new(rt, book, credits, held, stock);
        borrow_from(&mut way, loans, byte, false)
    }
}
