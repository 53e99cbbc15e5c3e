ghost use Rattle.std.specs.Prelude.{◌≡◌, ◌+◌, ◌<◌, ◌≤◌, false, true};

use crate::MAX_SEATS;
use crate::fault::ServiceFault;
use crate::living::Living;
use crate::logged::Logged;
use crate::retired::Retired;
use crate::transcript::Transcript;
use crate::waiters::Waiters;
use pf_base::RetireFault;
use pf_depot::DepotBook;
use pf_worker::Returns;
use std::alloc::Allocator;
use std::mem;
use std::sync::ledger::Ledger;
use std::sync::{Mutex, Wait};

/// A namespace that lives, or what stays of one that is retired.
#[derive(Drop)]
pub(crate) enum Tenant<L> {
    Living(L),
    Retired(Retired),
}

/// What lies behind a namespace's lock: the namespace, how many seats it gave, and whether anybody may wait for its next
/// event.
#[derive(Drop)]
pub(crate) struct Seated<A: Allocator, C: Ledger, H: Ledger> {
    pub(crate) tenant: Tenant<Living<A, C, H>>,
    given: u32,
    pub(crate) is_awaited: bool,
}

// What stays of a namespace takes its place.
fn put<L: Drop>(tenant: &mut Tenant<L>, stays: Retired)
    ensures { tenant.new ≡ Tenant.Retired stays }
{
    *tenant = Tenant::Retired(stays);
}

impl<A: Allocator + Clone, C: Ledger, H: Ledger> Seated<A, C, H> {
    ghost use Rattle.std.specs.Prelude.{IfOk, IfErr, OnOk, OnErr};
    ghost use Rattle.pf_service.specs.Tenants.{Lives, IsGiveFault, IsGoneFault, IsLivingAt, IsRetirement};
    ghost use Rattle.pf_service.specs.Tenants.{IsRetireFault, IsReturned, became_awaited, transcript_of};
    ghost use Rattle.pf_service.specs.Transcripts.{IsLone};
    ghost use Rattle.pf_service.specs.declared.TheConstants.{MAX_SEATS};

    /// A namespace that gave no seat yet, and for which nobody waits.
    pub(crate) fn new(living: Living<A, C, H>) -> Self
        ensures lives { result.tenant ≡ Tenant.Living living }
        ensures none { result.given ≡ 0 }
        ensures alone { result.is_awaited ≡ false }
    {
        Seated {
            tenant: Tenant::Living(living),
            given: 0,
            is_awaited: false,
        }
    }

    /// The namespace, where it lives, to look at.
    pub(crate) fn get_ref(&self) -> Result<&Logged<A>, ServiceFault>
        ensures living { IfOk result (λ l. IsLivingAt self.now.tenant l.now) }
        ensures fault { IfErr result (IsGoneFault self.now.tenant) }
    {
        match &self.tenant {
            Tenant::Living(living) => Ok(living.get_ref()),
            Tenant::Retired(_) => Err(ServiceFault::Gone),
        }
    }

    /// The number of one more seat, where the namespace lives.
    pub(crate) fn give(&mut self) -> Result<u32, ServiceFault>
        ensures lives { OnOk result (Lives self.old.tenant) }
        ensures number { IfOk result (λ number. (number ≡ self.old.given) × (self.new.given ≡ number + 1)) }
        ensures room { OnOk result (self.old.given < MAX_SEATS) }
        ensures fault { IfErr result (IsGiveFault self.old.tenant self.old.given) }
        ensures unchanged { OnErr result (self.new.given ≡ self.old.given) }
        ensures tenant { self.new.tenant ≡ self.old.tenant }
        ensures awaited { self.new.is_awaited ≡ self.old.is_awaited }
    {
        if let Tenant::Retired(_) = &self.tenant {
            return Err(ServiceFault::Gone);
        }
        let number = self.given;
        if number >= MAX_SEATS {
            return Err(ServiceFault::TooManySeats);
        }
        self.given = number + 1;
        Ok(number)
    }

    /// The namespace, of this number, is retired, where it lives and has no process: what it has at the depot goes back
    /// there, and what it was asked and told stays. Those who wait are woken, whether or not anybody is known to: it is
    /// the last that they could be woken for.
    ///
    /// It takes no memory, and holds the depot's lock once.
    pub(crate) fn retire<R: Wait, D: Returns, W: Waiters>(
        &mut self,
        rt: &R,
        way: &D,
        book: &Mutex<DepotBook<C, H>>,
        ns: u32,
        waiters: &W,
    ) -> Result<(), RetireFault>
        ensures retired { OnOk result (IsRetirement self.old.tenant self.new.tenant) }
        ensures returned { OnOk result (IsReturned (λ reserve stock. D.returned way.now ns reserve stock) self.old.tenant) }
        ensures woken { OnOk result (W.woken waiters.now A C H (became_awaited self.old self.new.tenant)) }
        ensures fault { IfErr result (IsRetireFault self.old.tenant) }
        ensures unchanged { OnErr result (self.new.tenant ≡ self.old.tenant) }
        ensures given { self.new.given ≡ self.old.given }
        ensures awaited { OnErr result (self.new.is_awaited ≡ self.old.is_awaited) }
        ensures known { OnOk result (self.new.is_awaited ≡ true) }
    {
        let Tenant::Living(living) = &self.tenant else {
            return Err(RetireFault::NoSuchNamespace);
        };
        let processes = living.get_ref().processes();
        if processes > 0 {
            return Err(RetireFault::Alive { processes });
        }
        let nothing = Tenant::Retired(living.get_ref().nothing());
        let Tenant::Living(living) = mem::replace(&mut self.tenant, nothing) else {
            unreachable!()
        };
        put(&mut self.tenant, living.retire(rt, way, book, ns));
        self.is_awaited = true;
        waiters.wake_all(self);
        Ok(())
    }

    /// What the namespace was asked and told, and how many seats it gave.
    pub(crate) fn into_parts(self) -> (Transcript, u32)
        ensures transcript { result.0 ≡ transcript_of self.tenant }
        ensures alone { IsLone result.0 }
        ensures given { result.1 ≡ self.given }
    {
        let Seated {
            tenant,
            given,
            is_awaited: _,
        } = self;
        let transcript = match tenant {
            Tenant::Living(living) => living.into_transcript(),
            Tenant::Retired(retired) => retired.into_transcript(),
        };
        (transcript, given)
    }
}
