ghost use Rattle.std.specs.Prelude.{◌≡◌, ℕ};
ghost use Rattle.pf_service.specs.Log.{Log};

use crate::living::Living;
use crate::place::Place;
use crate::seated::Seated;
use crate::waiters::NextEvent;
use std::alloc::Allocator;
use std::sync::ledger::Ledger;

/// How a namespace that begins comes to lie behind a lock.
///
/// What lies there is a fact which nobody but `lock` gives: a contract over any way can't see what the fact is. So whoever
/// asks for the fact, of a number and a namespace, asks that this very one was put there. As it is moved there, with its part
/// of the depot, and only a `Place` gets at its lock, it lies behind no other one. That the place which is kept is this one,
/// and no later one of its number, is no part of the fact.
pub(crate) trait Locks {
    /// Behind the lock of the namespace with this number lies one that is so.
    ghost locked: { Self → ℕ → (Z : Type 0) → Log Z → Type 0 };

    /// Puts it there.
    fn lock<A: Allocator + Clone, C: Ledger, H: Ledger>(
        &self,
        ns: u32,
        living: Living<A, C, H>,
    ) -> Place<A, C, H>
        ensures number { result.ns ≡ ns }
        ensures locked { locked self.now ns A living.logged };
}

/// The way that there is: a lock for each.
#[derive(Clone, Copy)]
pub(crate) struct OneEach;

impl Locks for OneEach {
    ghost locked = { λ _ _ _ _. Unit {0} };

    fn lock<A: Allocator + Clone, C: Ledger, H: Ledger>(
        &self,
        ns: u32,
        living: Living<A, C, H>,
    ) -> Place<A, C, H> {
        Place::new(ns, Seated::new(living), NextEvent::new())
    }
}
