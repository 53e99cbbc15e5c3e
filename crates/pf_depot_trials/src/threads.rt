//! Tenants of a shared depot on threads of their own.

ghost use Rattle.pf_depot.specs.Blanks.{IsBlankOf};

use crate::shared::{blank, opened};
use crate::tenant::Tenant;
use pf_depot::{DepotBook, PoolFault};
use std::alloc::Global;
use std::marker::Brand;
use std::sync::ledger::{Blank, Ledger};
use std::sync::{Mutex, Wait};
use std::test::Fail;
use std::thread::{Threads, join};

const ROUNDS: u32 = 5_000;

// Takes two frames and gives them back, many times. No tenant comes back where one wasn't there, or showed another byte.
fn borrow_often<R: Wait, C: Ledger, H: Ledger>(
    rt: &R,
    book: &Mutex<DepotBook<C, H>>,
    tenant: Tenant<C, H>,
    byte: u8,
) -> Option<Tenant<C, H>> {
    let mut tenant = tenant;
    for _ in 0..ROUNDS {
        if !tenant.borrow(rt, book, byte, false) {
            return None;
        }
    }
    Some(tenant)
}

// Two tenants of two frames each, on a thread each, over a depot of four frames. Says how many are free in the end, and
// how many each tenant holds.
fn on_two_threads<C: Ledger + Send + Sync, H: Ledger + Send + Sync, R: Threads + Wait + Sync>(
    rt: &R,
    alloc: Global,
    credits: Blank,
    held: Blank,
) -> Result<Option<[u32; 3]>, PoolFault>
    requires blanks { IsBlankOf C.name C.parts credits × IsBlankOf H.name H.parts held }
{
    let (book, mut allotments) = opened::<C, H>(alloc, 4, &[2, 2], credits, held)?;
    let book = Mutex::new(book);
    let Some(blue) = allotments.pop().map(Tenant::new) else {
        return Ok(None);
    };
    let Some(red) = allotments.pop().map(Tenant::new) else {
        return Ok(None);
    };
    let shared = &book;
    let (red, blue) = join(
        rt,
        move || borrow_often(rt, shared, red, 0x61),
        move || borrow_often(rt, shared, blue, 0x7A),
    );
    let Some(red) = red else {
        return Ok(None);
    };
    let Some(blue) = blue else {
        return Ok(None);
    };
    Ok(Some([book.lock(rt).free(), red.held(), blue.held()]))
}

fn two_threads_by_name<R: Threads + Wait + Sync>(
    rt: &R,
    alloc: Global,
) -> Result<Option<[u32; 3]>, PoolFault> {
    on_two_threads::<Brand, Brand, R>(rt, alloc, blank(), blank())
}

#[test]
fn two_tenants_on_two_threads_find_their_frames(rt: HostRuntime) -> Result<(), Fail> {
    let told = two_threads_by_name(&rt, rt.alloc())?;
    assert_eq!(rt; told, Some([4, 0, 0]));
    Ok(())
}
