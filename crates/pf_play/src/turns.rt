//! A worker's steps in turn, of each of which a gate is told.

ghost use Rattle.std.specs.Prelude.{◌≡◌, ◌+◌, ◌<◌, ℕ, false};
ghost use Rattle.pf_hub.specs.Covered.{IsRising};
ghost use Rattle.pf_machine.specs.Events.{IsDone};
ghost use Rattle.pf_machine.specs.Machine.{Answers, may_want_memory};

use pf_base::{Answer, Step};
use pf_depot::DepotBook;
use pf_worker::{Gate, Worker};
use std::alloc::Global;
use std::sync::ledger::Ledger;
use std::sync::{Mutex, Wait};

/// How the steps of namespaces are made in turn: a gate is told of each before it is made, and not before the one in front of
/// it was answered.
///
/// That the gate was told, and that a step was answered, are facts which nobody but these calls give: a contract over any
/// turns can't see what they are.
pub(crate) trait Turns {
    /// The gate was told of a step of this namespace, at this place among the namespace's own.
    ghost passed: { Self → ℕ → ℕ → Type 0 };

    /// It was told that this namespace takes a frame.
    ghost framed: { Self → ℕ → Type 0 };

    /// The step of this namespace at this place was answered.
    ghost answered: { Self → ℕ → ℕ → Type 0 };

    /// The gate is told of a step: of the first, or of the one after a step that was answered.
    fn pass(&self, ns: u32, place: u64)
        requires turn { (before : ℕ) → place ≡ before + 1 → answered self.now ns before }
        ensures { passed self.now ns place };

    /// A worker's step is made, of which the gate was told. It is told of each frame before it is taken: that is the
    /// way of `pf_worker`'s `GatedDepot`, and no clause of this step's.
    fn step<R: Wait, C: Ledger, H: Ledger>(
        &self,
        rt: &R,
        book: &Mutex<DepotBook<C, H>>,
        place: u64,
        worker: &mut Worker<Global, C, H>,
        step: &Step,
    ) -> Answer
        requires told { passed self.now worker.old.number place }
        ensures answered { answered self.now worker.old.number place }
        ensures number { worker.new.number ≡ worker.old.number }
        ensures limits { worker.new.tenant.limits ≡ worker.old.tenant.limits }
        ensures answers { Answers worker.old.tenant.limits result
            worker.old.tenant.state step.now worker.new.tenant.state }
        ensures succeeds { may_want_memory worker.old.tenant.limits worker.old.tenant.state step.now ≡ false
            → IsDone result }
        ensures rising { IsRising worker.new.tenant }
        // where it holds more frames than before, the gate was told of this namespace
        ensures framed { worker.old.tenant.held < worker.new.tenant.held → framed self.now worker.old.number };
}

/// The turns of which this gate is told.
#[derive(Clone, Copy)]
pub(crate) struct TurnsOf<'a, G: Gate> {
    pub(crate) gate: &'a G,
}

impl<G: Gate> Turns for TurnsOf<'_, G> {
    ghost passed = { λ turns. G.passed turns.gate.now };

    ghost framed = { λ turns. G.framed turns.gate.now };

    ghost answered = { λ _ _ _. Unit {0} };

    fn pass(&self, ns: u32, place: u64) {
        self.gate.pass(ns, place);
    }

    fn step<R: Wait, C: Ledger, H: Ledger>(
        &self,
        rt: &R,
        book: &Mutex<DepotBook<C, H>>,
        place: u64,
        worker: &mut Worker<Global, C, H>,
        step: &Step,
    ) -> Answer {
        let _ = place;
        worker.step(rt, book, self.gate, step)
    }
}
