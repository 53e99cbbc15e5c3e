//! What is asked of a namespace, but for its events: each query takes the namespace's own lock.

ghost use Rattle.std.specs.Prelude.{◌≡◌, IfOk, IfErr};
ghost use Rattle.pf_machine.specs.Queries.{can_go_on, readiness, IsNext};
ghost use Rattle.pf_service.specs.Asked.{IsGoneThere, IsOfOneThere};
ghost use Rattle.pf_service.specs.Told.{IsAfterSome};

use super::Place;
use crate::asked::{can_go_on_at, next_to_go_on_at, readiness_at};
use crate::fault::ServiceFault;
use crate::waiters::Waiters;
use pf_base::{Errno, Readiness};
use std::alloc::Allocator;
use std::sync::Wait;
use std::sync::ledger::Ledger;

impl<A: Allocator + Clone, C: Ledger, H: Ledger, W: Waiters> Place<A, C, H, W> {
    /// Whether the call in which a process waits comes further when it is tried again (`can_go_on_at`). `Gone` where the
    /// namespace is retired.
    pub(crate) fn can_go_on<R: Wait>(&self, rt: &R, pid: u32) -> Result<bool, ServiceFault>
        ensures answer { IfOk result (λ b. IsOfOneThere (λ s. W.lay self.now.next A C H s)
            (λ log. b ≡ can_go_on log.limits log.state pid)) }
        ensures after { IfOk result (λ b. IsAfterSome (λ limits state. b ≡ can_go_on limits state pid)) }
        ensures fault { IfErr result (IsGoneThere (λ s. W.lay self.now.next A C H s)) }
    {
        can_go_on_at(rt, &self.seated, &self.next, pid)
    }

    /// The least pid above `after` whose process can go on, if there is one (`next_to_go_on_at`).
    pub(crate) fn next_to_go_on<R: Wait>(
        &self,
        rt: &R,
        after: u32,
    ) -> Result<Option<u32>, ServiceFault>
        ensures answer { IfOk result (λ next. IsOfOneThere (λ s. W.lay self.now.next A C H s)
            (λ log. IsNext log.limits log.state after next)) }
        ensures after { IfOk result (λ next. IsAfterSome (λ limits state. IsNext limits state after next)) }
        ensures fault { IfErr result (IsGoneThere (λ s. W.lay self.now.next A C H s)) }
    {
        next_to_go_on_at(rt, &self.seated, &self.next, after)
    }

    /// What the pipe is ready for that a process's descriptor names (`readiness_at`).
    pub(crate) fn readiness<R: Wait>(
        &self,
        rt: &R,
        pid: u32,
        fd: u32,
    ) -> Result<Result<Readiness, Errno>, ServiceFault>
        ensures answer { IfOk result (λ told. IsOfOneThere (λ s. W.lay self.now.next A C H s)
            (λ log. told ≡ readiness log.state pid fd)) }
        ensures after { IfOk result (λ told. IsAfterSome (λ limits state. told ≡ readiness state pid fd)) }
        ensures fault { IfErr result (IsGoneThere (λ s. W.lay self.now.next A C H s)) }
    {
        readiness_at(rt, &self.seated, &self.next, pid, fd)
    }
}
