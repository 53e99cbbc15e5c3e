//! A depot behind a lock: how it opens, and what is free while its frames are on loan.

ghost use Rattle.std.specs.Prelude.{◌≡◌};
ghost use Rattle.pf_base.specs.declared.TheConstants.{MAX_NAMESPACES};
ghost use Rattle.pf_depot.specs.Blanks.{IsBlankOf};

use crate::borrowing::old_frames;
use crate::tenant::Tenant;
use pf_base::MAX_NAMESPACES;
use pf_depot::{Allotment, DepotBook, PoolFault};
use std::alloc::Global;
use std::marker::Brand;
use std::sync::ledger::{Blank, Ledger};
use std::sync::{Mutex, Wait};
use std::test::Fail;

type Opened<C, H> = Result<(DepotBook<C, H>, Vec<Allotment<C, H>>), PoolFault>;

// A part of a ledger for each namespace that there may be.
pub(crate) fn blank() -> Blank
    ensures { result.parts ≡ MAX_NAMESPACES }
{
    Blank::new(MAX_NAMESPACES as u64)
}

// A shared depot of so many frames, with these reservations.
pub(crate) fn opened<C: Ledger, H: Ledger>(
    alloc: Global,
    count: usize,
    reserves: &[u32],
    credits: Blank,
    held: Blank,
) -> Opened<C, H>
    requires blanks { IsBlankOf C.name C.parts credits × IsBlankOf H.name H.parts held }
{
    let Ok(frames) = old_frames(alloc, count) else {
        return Err(PoolFault::NoMemory);
    };
    let Ok(reserves) = Vec::from_slice(alloc, reserves) else {
        return Err(PoolFault::NoMemory);
    };
    DepotBook::open(alloc, frames, reserves, credits, held)
}

// The number of the next one that comes, which reserves no frame; or none that there is.
fn next_of<C: Ledger, H: Ledger, R: Wait>(rt: &R, book: &Mutex<DepotBook<C, H>>) -> u32 {
    match book.lock(rt).admit(0) {
        Ok((number, allotment)) => {
            drop(allotment);
            number
        }
        Err(_) => u32::MAX,
    }
}

// How many frames of a shared depot of five are free once it is open, once the first of its two namespaces has given
// back two, once it keeps two, once it was refused two more, and once the other keeps two; and the number of the next
// one that comes then.
fn free_of_five<C: Ledger, H: Ledger, R: Wait>(
    rt: &R,
    alloc: Global,
    credits: Blank,
    held: Blank,
) -> Result<Option<[u32; 6]>, PoolFault>
    requires blanks { IsBlankOf C.name C.parts credits × IsBlankOf H.name H.parts held }
{
    let (book, mut allotments) = opened::<C, H>(alloc, 5, &[2, 2], credits, held)?;
    let all = book.free();
    let book = Mutex::new(book);
    let Some(mut second) = allotments.pop().map(Tenant::new) else {
        return Ok(None);
    };
    let Some(mut first) = allotments.pop().map(Tenant::new) else {
        return Ok(None);
    };
    let given_back = first.borrow(rt, &book, 1, false);
    let after = book.lock(rt).free();
    let kept = first.borrow(rt, &book, 2, true);
    let one_keeps = book.lock(rt).free();
    let refused = !first.borrow(rt, &book, 3, true);
    let still = book.lock(rt).free();
    let kept = kept && second.borrow(rt, &book, 4, true);
    let both_keep = book.lock(rt).free();
    let next = next_of(rt, &book);
    if given_back && kept && refused {
        Ok(Some([all, after, one_keeps, still, both_keep, next]))
    } else {
        Ok(None)
    }
}

fn free_of_five_by_name<R: Wait>(rt: &R, alloc: Global) -> Result<Option<[u32; 6]>, PoolFault> {
    free_of_five::<Brand, Brand, R>(rt, alloc, blank(), blank())
}

#[test]
fn what_is_free_goes_down_and_up(rt: HostRuntime) -> Result<(), Fail> {
    let alloc = rt.alloc();
    let told = match free_of_five_by_name(&rt, alloc) {
        // where a growth is refused nothing is left of the depot, and it can be opened once more
        Err(PoolFault::NoMemory) => free_of_five_by_name(&rt, alloc),
        told => told,
    };
    assert_eq!(rt; told?, Some([5, 5, 3, 3, 1, 2]));
    Ok(())
}
