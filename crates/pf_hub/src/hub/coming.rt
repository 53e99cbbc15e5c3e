//! Namespaces that come and go.

ghost use Rattle.std.specs.Prelude.{◌≡◌, ◌≤◌, length, MatchResult};
ghost use Rattle.pf_depot.specs.Admission.{admit_fault};
ghost use Rattle.pf_depot.specs.Depot.{slack_of};
ghost use Rattle.pf_hub.specs.Coming.{Adds, AddsNothing};
ghost use Rattle.pf_hub.specs.Covered.{IsCovered};
ghost use Rattle.pf_hub.specs.Events.{IsAdmitted, IsNotAdmitted, IsRetired, IsNotRetired};

use super::{Hub, find};
use crate::tenant::Tenant;
use pf_base::{AdmitFault, Config, MAX_NAMESPACES, MAX_NUMBERS, RetireFault};
use pf_depot::Depot;
use pf_space::Placed;
use std::alloc::{Allocator, Global};

// The first test that one namespace more fails, where so many live, so many numbers are given, and this is the slack.
fn first_test(living: u32, given: usize, slack: u32, reserve: u32) -> Option<AdmitFault>
    ensures { result ≡ admit_fault living given slack reserve }
{
    if living as usize >= MAX_NAMESPACES || given >= MAX_NUMBERS {
        return Some(AdmitFault::TooManyNamespaces);
    }
    if reserve > slack {
        return Some(AdmitFault::NoRoom { slack });
    }
    None
}

// Puts a tenant of these limits at the end, at its opening state, with its reservation out of the depot's slack. Where
// memory is refused, nothing has changed: all of it is had before the slack is touched.
fn add<A: Allocator + Clone>(
    alloc: Global,
    depot: &mut Depot,
    tenants: &mut Vec<Option<Tenant<A>>>,
    config: Config,
    allocator: A,
) -> Result<(), AdmitFault>
    requires { config.reserve ≤ slack_of depot.old }
    ensures { MatchResult result
        (λ _. Adds depot.old depot.new tenants.old.items tenants.new.items config allocator)
        (AddsNothing depot.old depot.new tenants.old.items tenants.new.items) }
{
    let Ok(placed) = Placed::new(alloc, allocator, config) else {
        return Err(AdmitFault::NoMemory);
    };
    if tenants.reserve(1).is_err() {
        return Err(AdmitFault::NoMemory);
    }
    let Ok(loans) = depot.admit(config.reserve()) else {
        return Err(AdmitFault::NoMemory);
    };
    tenants.push_reserved(Some(Tenant { loans, placed }));
    Ok(())
}

impl<A: Allocator + Clone> Hub<A> {
    /// Admits a namespace of these limits, at its opening state, and tells its number: the least that was never given.
    /// Its files, and nothing else, stand in memory of the allocator.
    ///
    /// `TooManyNamespaces` exactly where 64 live or 1,024 numbers are given; then `NoRoom` exactly where the
    /// reservation is above the slack, the frames that nobody who lives has reserved; then `NoMemory`. At a fault
    /// nothing has changed, and the allocator is dropped.
    pub fn admit(&mut self, config: Config, allocator: A) -> Result<u32, AdmitFault>
        ensures admitted { MatchResult result (IsAdmitted self.old self.new config allocator)
            (IsNotAdmitted self.old self.new config) }
        ensures covered { IsCovered self.new.world }
    {
        let number = self.tenants.len();
        let slack = self.depot.slack();
        if let Some(fault) = first_test(self.living, number, slack, config.reserve()) {
            return Err(fault);
        }
        add(
            self.alloc,
            &mut self.depot,
            &mut self.tenants,
            config,
            allocator,
        )?;
        self.living += 1;
        Ok(number as u32)
    }

    /// Retires a namespace that has no process, and so no pipe, and holds no frame. What it had reserved is slack
    /// again, the memory of its files goes back, and its number isn't given again. It takes no memory.
    ///
    /// `NoSuchNamespace` exactly where none of this number lives, then `Alive` exactly where it has processes. At a
    /// fault nothing has changed.
    pub fn retire(&mut self, ns: u32) -> Result<(), RetireFault>
        ensures retired { MatchResult result (λ _. IsRetired self.old self.new ns) (IsNotRetired self.old self.new ns) }
        ensures covered { IsCovered self.new.world }
    {
        let Some(tenant) = find(&self.tenants, ns) else {
            return Err(RetireFault::NoSuchNamespace);
        };
        let processes = tenant.placed.processes();
        if processes > 0 {
            return Err(RetireFault::Alive { processes });
        }
        let Some(
            Tenant {
                loans,
                placed: _placed,
            },
        ) = self.tenants[ns as usize].take()
        else {
            unreachable!()
        };
        self.depot.retire(loans);
        self.living -= 1;
        Ok(())
    }
}
