//! What is asked of the namespace that lies behind a lock, but for its events. The lock is taken for it, and what is told is
//! true of what lay there then.

ghost use Rattle.std.specs.Prelude.{◌≡◌, IfOk, IfErr};
ghost use Rattle.pf_machine.specs.Queries.{can_go_on, readiness, IsNext};
ghost use Rattle.pf_service.specs.Asked.{IsGoneThere, IsOfOneThere};
ghost use Rattle.pf_service.specs.Told.{IsAfterSome};

use crate::fault::ServiceFault;
use crate::seated::Seated;
use crate::waiters::Waiters;
use pf_base::{Errno, Readiness};
use std::alloc::Allocator;
use std::sync::ledger::Ledger;
use std::sync::{Mutex, Wait};

/// Whether the call in which a process waits comes further when it is tried again. `Gone` where the namespace is retired.
pub(crate) fn can_go_on_at<A: Allocator + Clone, R: Wait, C: Ledger, H: Ledger, W: Waiters>(
    rt: &R,
    locked: &Mutex<Seated<A, C, H>>,
    waiters: &W,
    pid: u32,
) -> Result<bool, ServiceFault>
    ensures answer { IfOk result (λ b. IsOfOneThere (λ s. W.lay waiters.now A C H s)
        (λ log. b ≡ can_go_on log.limits log.state pid)) }
    ensures after { IfOk result (λ b. IsAfterSome (λ limits state. b ≡ can_go_on limits state pid)) }
    ensures fault { IfErr result (IsGoneThere (λ s. W.lay waiters.now A C H s)) }
{
    let seated = waiters.lock(rt, locked);
    let logged = seated.get_ref()?;
    Ok(logged.can_go_on(pid))
}

/// The least pid above `after` whose process can go on, if there is one. `Gone` where the namespace is retired.
pub(crate) fn next_to_go_on_at<A: Allocator + Clone, R: Wait, C: Ledger, H: Ledger, W: Waiters>(
    rt: &R,
    locked: &Mutex<Seated<A, C, H>>,
    waiters: &W,
    after: u32,
) -> Result<Option<u32>, ServiceFault>
    ensures answer { IfOk result (λ next. IsOfOneThere (λ s. W.lay waiters.now A C H s)
        (λ log. IsNext log.limits log.state after next)) }
    ensures after { IfOk result (λ next. IsAfterSome (λ limits state. IsNext limits state after next)) }
    ensures fault { IfErr result (IsGoneThere (λ s. W.lay waiters.now A C H s)) }
{
    let seated = waiters.lock(rt, locked);
    let logged = seated.get_ref()?;
    Ok(logged.next_to_go_on(after))
}

/// What the pipe is ready for that a process's descriptor names. `Gone` where the namespace is retired.
pub(crate) fn readiness_at<A: Allocator + Clone, R: Wait, C: Ledger, H: Ledger, W: Waiters>(
    rt: &R,
    locked: &Mutex<Seated<A, C, H>>,
    waiters: &W,
    pid: u32,
    fd: u32,
) -> Result<Result<Readiness, Errno>, ServiceFault>
    ensures answer { IfOk result (λ told. IsOfOneThere (λ s. W.lay waiters.now A C H s)
        (λ log. told ≡ readiness log.state pid fd)) }
    ensures after { IfOk result (λ told. IsAfterSome (λ limits state. told ≡ readiness state pid fd)) }
    ensures fault { IfErr result (IsGoneThere (λ s. W.lay waiters.now A C H s)) }
{
    let seated = waiters.lock(rt, locked);
    let logged = seated.get_ref()?;
    Ok(logged.readiness(pid, fd))
}
