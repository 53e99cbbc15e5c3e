ghost use Rattle.std.specs.Prelude.{◌≡◌, ◌<◌, ◌≤◌, length, map, IfOk, IfErr, OnOk, MatchResult, None};
ghost use Rattle.std.specs.List.{range_with_len};
ghost use Rattle.pf_base.specs.declared.TheConstants.{MAX_NUMBERS};
ghost use Rattle.pf_depot.specs.Admission.{admit_fault, IsAdmitFault};
ghost use Rattle.pf_depot.specs.AllLoans.{reserved_of};
ghost use Rattle.pf_depot.specs.Book.{Admits};
ghost use Rattle.pf_hub.specs.Opening.{limits_of};
ghost use Rattle.pf_machine.specs.State.{opening};
ghost use Rattle.pf_service.specs.Faults.{IsAdmissionFault};
ghost use Rattle.pf_service.specs.Lodged.{IsLodged};
ghost use Rattle.pf_service.specs.Log.{new_log, AreLocked};
ghost use Rattle.pf_service.specs.Places.{numbers_of};

use crate::guests::{Guests, Lodged};
use crate::living::Living;
use crate::locks::Locks;
use crate::place::Place;
use pf_base::{AdmitFault, Config};
use pf_depot::{Allotment, DepotBook, Stock};
use pf_space::Placed;
use std::alloc::{AllocError, Allocator, Global};
use std::sync::ledger::Ledger;
use std::sync::{Mutex, Wait};

/// The limits alone.
pub(crate) fn configs_of<A: Allocator>(
    alloc: Global,
    configs: &[(Config, A)],
) -> Result<Vec<Config>, AllocError>
    ensures { IfOk result (λ cs. cs.items ≡ limits_of configs.now) }
{
    configs.iter().map(|config| config.0).collect(alloc)
}

/// A namespace at its opening state, and a stock with no frame: what it has beside its part of a depot. Its files stand in
/// memory of the allocator `tree`.
pub(crate) fn furnished<A: Allocator + Clone>(
    alloc: Global,
    tree: A,
    config: Config,
) -> Result<(Placed<A>, Stock), AllocError>
    ensures space { IfOk result (λ made. made.0.space ≡ record { limits = config; state = opening }) }
    ensures allocator { IfOk result (λ made. made.0.allocator ≡ tree) }
    ensures stock { IfOk result (λ made. made.1 ≡ 0) }
{
    let placed = Placed::new(alloc, tree, config)?;
    let stock = Stock::new(alloc)?;
    Ok((placed, stock))
}

/// What is done under the depot's lock where a namespace comes: its number there, and the namespace with what it begins
/// with at the depot. The fault is the depot's, and at a fault nothing has changed.
pub(crate) fn admitted<A: Allocator + Clone, C: Ledger, H: Ledger>(
    alloc: Global,
    book: &mut DepotBook<C, H>,
    config: Config,
    placed: Placed<A>,
    stock: Stock,
) -> Result<(u32, Living<A, C, H>), AdmitFault>
    requires opening { placed.space ≡ record { limits = config; state = opening } }
    requires none { stock ≡ 0 }
    ensures { MatchResult result
        (λ made. (admit_fault book.old.living book.old.given book.old.slack config.reserve ≡ None)
        × Admits book.old book.new config.reserve
        × (made.0 ≡ book.old.given)
        × (made.1.logged ≡ new_log config placed.allocator))
        (λ fault. (book.new ≡ book.old)
        × IsAdmitFault (admit_fault book.old.living book.old.given book.old.slack config.reserve) fault) }
{
    match book.admit(config.reserve()) {
        Ok((ns, allotment)) => Ok((ns, Living::new(alloc, placed, stock, config, allotment))),
        Err(fault) => {
            drop(placed);
            drop(stock);
            Err(fault)
        }
    }
}

/// A namespace comes, by any way to the locks, and moves in among the guests: what shows it is given with its number. Behind
/// its lock lies a namespace of these limits, whose files stand in memory of the allocator `tree`.
///
/// The depot's lock is held once. All memory but that of the loans is had before.
pub(crate) fn admit_by<'a, A: Allocator + Clone, C: Ledger, H: Ledger, R: Wait, L: Locks>(
    rt: &R,
    alloc: Global,
    way: &L,
    book: &Mutex<DepotBook<C, H>>,
    guests: &'a Guests<A, C, H>,
    config: Config,
    tree: A,
) -> Result<(u32, Lodged<'a, A, C, H>), AdmitFault>
    ensures number { IfOk result (λ made. made.0 < MAX_NUMBERS) }
    ensures locked { IfOk result (λ made. L.locked way.now made.0 A (new_log config tree)) }
    ensures lodged { IfOk result (λ made.
        IsLodged guests.now.rooms.items made.0 made.1.of made.1.value.value) }
    ensures fault { IfErr result (IsAdmissionFault config.reserve) }
{
    let Ok((placed, stock)) = furnished(alloc, tree, config) else {
        return Err(AdmitFault::NoMemory);
    };
    let Ok(room) = Box::new(alloc, None) else {
        return Err(AdmitFault::NoMemory);
    };
    let (ns, living) = admitted(alloc, &mut *book.lock(rt), config, placed, stock)?;
    let place = way.lock(ns, living);
    // The depot gives a number once.
    let Ok(lodged) = guests.admit(rt, room, place) else {
        return Err(AdmitFault::TooManyNamespaces);
    };
    Ok((ns, lodged))
}

/// The namespaces of some limits, by their numbers, each with what it begins with at the depot. Behind each one's lock lies a
/// namespace of its limits, whose files stand in memory of the allocator beside them.
pub(crate) fn places_of<A: Allocator + Clone, C: Ledger, H: Ledger, L: Locks>(
    alloc: Global,
    way: &L,
    configs: Vec<(Config, A)>,
    allotments: Vec<Allotment<C, H>>,
) -> Result<Vec<Place<A, C, H>>, AllocError>
    requires reserved { map (λ a. reserved_of a.loans) allotments.items
        ≡ map (λ e. e.0.reserve) configs.items }
    requires few { length configs.items ≤ 64 }
    ensures numbered { IfOk result (λ ps. numbers_of ps.items ≡ range_with_len 0 (length configs.items)) }
    ensures locked { OnOk result (AreLocked (λ ns log. L.locked way.now ns A log) configs.items) }
{
    let mut places = Vec::with_capacity(alloc, configs.len())?;
    let mut allotments = allotments.into_iter();
    for (config, tree) in configs {
        let Some(allotment) = allotments.next() else {
            unreachable!()
        };
        let ns = places.len() as u32;
        let (placed, stock) = furnished(alloc, tree, config)?;
        let living = Living::new(alloc, placed, stock, config, allotment);
        places.push_reserved(way.lock(ns, living));
    }
    Ok(places)
}
