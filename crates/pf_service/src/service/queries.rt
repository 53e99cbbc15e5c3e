//! What a host may ask of a service's namespace besides its events. A query changes nothing and isn't logged, and it takes no
//! memory. It takes the namespace's lock, so what it says may be otherwise as soon as it is told.

ghost use Rattle.std.specs.Prelude.{◌≡◌, ◌≤◌, length, IfOk, IfErr, Err};
ghost use Rattle.pf_base.specs.declared.TheConstants.{MAX_NUMBERS};
ghost use Rattle.pf_machine.specs.Queries.{can_go_on, readiness, IsNext};
ghost use Rattle.pf_service.specs.Faults.{IsQueryFault};
ghost use Rattle.pf_service.specs.Told.{IsAfterSome};

use super::Service;
use crate::fault::ServiceFault;
use pf_base::{Errno, Readiness};
use pf_worker::Gate;
use std::alloc::Allocator;
use std::sync::Wait;
use std::sync::ledger::Ledger;

impl<A: Allocator + Clone, G: Gate, C: Ledger, H: Ledger> Service<A, G, C, H> {
    /// Whether the call in which a process of a namespace waits comes further when it is tried again, as `Space::can_go_on`
    /// says.
    ///
    /// `NoSuchNamespace` where this number wasn't given, and `Gone` where its namespace is retired.
    pub fn can_go_on<R: Wait>(&self, rt: &R, ns: u32, pid: u32) -> Result<bool, ServiceFault>
        ensures answer { IfOk result (λ b. IsAfterSome (λ limits state. b ≡ can_go_on limits state pid)) }
        ensures missing { MAX_NUMBERS ≤ ns → result ≡ Err ServiceFault.NoSuchNamespace }
        ensures fault { IfErr result (IsQueryFault (length self.now) ns) }
    {
        self.place(ns)?.can_go_on(rt, pid)
    }

    /// The least pid above `after` whose process can go on in a namespace, if there is one. So a loop from 0 finds them all.
    /// The faults are those of `can_go_on`.
    pub fn next_to_go_on<R: Wait>(
        &self,
        rt: &R,
        ns: u32,
        after: u32,
    ) -> Result<Option<u32>, ServiceFault>
        ensures answer { IfOk result (λ next. IsAfterSome (λ limits state. IsNext limits state after next)) }
        ensures missing { MAX_NUMBERS ≤ ns → result ≡ Err ServiceFault.NoSuchNamespace }
        ensures fault { IfErr result (IsQueryFault (length self.now) ns) }
    {
        self.place(ns)?.next_to_go_on(rt, after)
    }

    /// What the pipe is ready for that a descriptor of a namespace's process names (poll(2)), as `Space::readiness` says.
    /// The faults are those of `can_go_on`.
    pub fn readiness<R: Wait>(
        &self,
        rt: &R,
        ns: u32,
        pid: u32,
        fd: u32,
    ) -> Result<Result<Readiness, Errno>, ServiceFault>
        ensures answer { IfOk result (λ told. IsAfterSome (λ limits state. told ≡ readiness state pid fd)) }
        ensures missing { MAX_NUMBERS ≤ ns → result ≡ Err ServiceFault.NoSuchNamespace }
        ensures fault { IfErr result (IsQueryFault (length self.now) ns) }
    {
        self.place(ns)?.readiness(rt, pid, fd)
    }
}
