ghost use Rattle.std.specs.Prelude.{◌≡◌, ◌+◌, ◌<◌};
ghost use Rattle.pf_frame.specs.Live.{Takes};
ghost use Rattle.pf_depot.specs.Loans.{loans_live};

use crate::gate::Gate;
use pf_depot::{DepotBook, Lender, Loans, Stock, StockedDepot};
use pf_frame::FrameNo;
use std::sync::ledger::{Ledger, Share};
use std::sync::{Mutex, Wait};

/// A namespace's way to a shared depot, of which a gate is told: before each frame that the namespace takes, while the
/// depot's lock isn't held.
///
/// But for that it is the `StockedDepot` of the same shares and the same stock. It knows besides how many frames the
/// namespace held at first: where it holds more, this gate was told of this namespace.
#[derive(Drop)]
pub struct GatedDepot<'a, R: Wait, G: Gate, C: Ledger, H: Ledger> {
    rt: &'a R,
    gate: &'a G,
    ns: u32,
    // How many frames the namespace held at first.
    begun: u32,
    book: &'a Mutex<DepotBook<C, H>>,
    credits: &'a mut Share<C>,
    held: &'a mut Share<H>,
    stock: &'a mut Stock,
}

impl<'a, R: Wait, G: Gate, C: Ledger, H: Ledger> GatedDepot<'a, R, G, C, H> {
    /// The way of the namespace of this number, which holds so many frames now, and has these shares and this stock.
    pub fn holding(
        rt: &'a R,
        gate: &'a G,
        ns: u32,
        frames: u32,
        book: &'a Mutex<DepotBook<C, H>>,
        credits: &'a mut Share<C>,
        held: &'a mut Share<H>,
        stock: &'a mut Stock,
    ) -> GatedDepot<'a, R, G, C, H>
        ensures gate { result.gate.now ≡ gate.entry.now }
        ensures ns { result.ns ≡ ns }
        ensures begun { result.begun ≡ frames }
        ensures credits_name { result.credits.ghost_name ≡ credits.entry.ghost_name }
        ensures held_name { result.held.ghost_name ≡ held.entry.ghost_name }
        ensures stock_name { result.stock.ghost_name ≡ stock.entry.ghost_name }
        ensures credits { result.credits.now ≡ credits.old }
        ensures held { result.held.now ≡ held.old }
        ensures stock { result.stock.now ≡ stock.old }
    {
        GatedDepot {
            rt,
            gate,
            ns,
            begun: frames,
            book,
            credits,
            held,
            stock,
        }
    }
}

// The lender's take, of which the gate was told.
fn take_told<G: Gate, D: Lender>(gate: &G, ns: u32, lender: &mut D, loans: &mut Loans) -> FrameNo
    requires told { G.framed gate.now ns }
    requires fact { D.fact lender.old }
    requires ready { 0 < D.ready lender.old }
    requires credit { (loans_live loans.old).held < (loans_live loans.old).reserved }
    ensures fact { D.fact lender.new }
    ensures rest { D.rest lender.new ≡ D.rest lender.old }
    ensures ready { D.ready lender.new + 1 ≡ D.ready lender.old }
    ensures out { D.out lender.new ≡ D.out lender.old + 1 }
    ensures takes { Takes (loans_live loans.old) (loans_live loans.new) result }
{
    let _ = gate;
    let _ = ns;
    lender.take(loans)
}

impl<R: Wait, G: Gate, C: Ledger, H: Ledger> Lender for GatedDepot<'_, R, G, C, H> {
    ghost use Rattle.std.specs.Prelude.{◌+◌, ◌-◌, ◌<◌, ◌≤◌};
    ghost use Rattle.pf_worker.specs.Gated.{GatedRest, IsToldOfMore};

    ghost ready = { λ s. s.credits.now.amount + s.stock.now };

    ghost out = { λ s. s.held.now.amount - s.stock.now };

    ghost fact = { λ s. (0 < s.credits.now.parts) × (0 < s.held.now.parts)
        × (s.stock.now ≤ s.held.now.amount)
        × IsToldOfMore (G.framed s.gate.now s.ns) s.begun (s.held.now.amount - s.stock.now) };

    ghost Rest = { GatedRest G };

    ghost rest = { λ s. record {
      gate = s.gate.now;
      ns = s.ns;
      begun = s.begun;
      credits_name = s.credits.ghost_name;
      held_name = s.held.ghost_name;
      stock_name = s.stock.ghost_name;
      credits_parts = s.credits.now.parts;
      held_parts = s.held.now.parts;
    } };

    fn take(&mut self, loans: &mut Loans) -> FrameNo {
        self.gate.frame(self.ns);
        let mut depot = StockedDepot::new(self.rt, self.book, self.credits, self.held, self.stock);
        take_told(self.gate, self.ns, &mut depot, loans)
    }

    fn give(&mut self, loans: &mut Loans, no: FrameNo) {
        StockedDepot::new(self.rt, self.book, self.credits, self.held, self.stock).give(loans, no);
    }
}
