ghost use Rattle.std.specs.Prelude.{ℕ};
ghost use Rattle.pf_depot.specs.AllLoans.{reserved_of};

use pf_depot::{DepotBook, Leaving};
use std::sync::ledger::Ledger;
use std::sync::{Mutex, Wait};

/// How a namespace that goes gives back what it has at a depot.
///
/// That all was given back is a fact which nobody but `give_back` gives: a contract over any way can't see what the fact
/// is. So whoever asks for the fact asks for a call. And what is handed over can't be let go, but given back to the depot
/// alone (`Leaving`): that is what a call of the way that there is comes to.
pub trait Returns {
    /// The namespace of this number gave back all that it had: a reservation of so many frames, and so many in stock.
    ghost returned: { Self → ℕ → ℕ → ℕ → Type 0 };

    /// Gives back all that the namespace of this number has, which goes (`DepotBook::retire`). The depot's lock is held once.
    fn give_back<R: Wait, C: Ledger, H: Ledger>(
        &self,
        rt: &R,
        book: &Mutex<DepotBook<C, H>>,
        ns: u32,
        leaving: Leaving<C, H>,
    )
        ensures { returned self.now ns (reserved_of leaving.loans) leaving.stock };
}

/// The way that there is.
#[derive(Clone, Copy, Debug, PartialEq, Eq)]
pub struct ToTheDepot;

impl Returns for ToTheDepot {
    ghost returned = { λ _ _ _ _. Unit {0} };

    fn give_back<R: Wait, C: Ledger, H: Ledger>(
        &self,
        rt: &R,
        book: &Mutex<DepotBook<C, H>>,
        ns: u32,
        leaving: Leaving<C, H>,
    ) {
        let _ = ns;
        book.lock(rt).retire(leaving);
    }
}
