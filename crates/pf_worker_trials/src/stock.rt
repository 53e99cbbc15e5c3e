//! A tenant whose frame stands in its stock: it has that, puts it back, and makes steps of each kind, while somebody
//! else holds the depot's lock.

ghost use Rattle.pf_depot.specs.Blanks.{IsBlankOf};

use crate::beside::{Tenant, blank, does};
use crate::jobs::{admit, bare};
use crate::slices::{are_refused, passes};
use crate::tenants::{Row, asks, begins, begins_two, each_kind, put_in_slices};
use crate::watch::Watch;
use pf_depot::DepotBook;
use std::alloc::Global;
use std::marker::Brand;
use std::sync::atomic::{AtomicU64, Ordering};
use std::sync::ledger::{Blank, Ledger};
use std::sync::{Mutex, Wait};
use std::test::Fail;
use std::thread::{Threads, join};

// What the two threads tell each other, and what the gate is told.
#[derive(Drop)]
struct Meeting {
    watch: Watch,
    // Not 0: the depot's lock is held.
    locked: AtomicU64,
    // Not 0: the tenant has made its steps.
    done: AtomicU64,
}

impl Meeting {
    fn new() -> Meeting {
        Meeting {
            watch: Watch::new(),
            locked: AtomicU64::new(0),
            done: AtomicU64::new(0),
        }
    }
}

// The tenant, a frame of which stands in its stock: as long as the depot's lock is held, its steps are made, and a write
// from a slice, whose bytes are read; and calls on slices are refused.
fn play<R: Wait, C: Ledger, H: Ledger>(
    rt: &R,
    book: &Mutex<DepotBook<C, H>>,
    meeting: &Meeting,
    mut worker: Tenant<C, H>,
    asks: &[Row],
) -> bool {
    let watch = &meeting.watch;
    watch.wait_for(&meeting.locked);
    let right = does(rt, book, watch, &mut worker, asks)
        && passes(rt, book, watch, &mut worker)
        && are_refused(rt, book, watch, &mut worker);
    meeting.done.store(1, Ordering::SeqCst);
    drop(worker);
    right
}

// The other one holds the depot's lock meanwhile, and says how many frames are free then.
fn hold<R: Wait, C: Ledger, H: Ledger>(
    rt: &R,
    book: &Mutex<DepotBook<C, H>>,
    meeting: &Meeting,
) -> u32 {
    let book = book.lock(rt);
    meeting.locked.store(1, Ordering::SeqCst);
    meeting.watch.wait_for(&meeting.done);
    book.free()
}

// Both, on a thread each.
fn play_and_hold<C: Ledger + Send + Sync, H: Ledger + Send + Sync, R: Threads + Wait + Sync>(
    rt: &R,
    book: &Mutex<DepotBook<C, H>>,
    meeting: &Meeting,
    worker: Tenant<C, H>,
    asks: &[Row],
) -> (bool, u32) {
    join(
        rt,
        move || play(rt, book, meeting, worker, asks),
        move || hold(rt, book, meeting),
    )
}

// The same at a depot of so many frames that nobody has used, where the tenant has reserved so many of them: its first
// write takes a frame of the depot, which the read behind that leaves in its stock.
fn while_held<C: Ledger + Send + Sync, H: Ledger + Send + Sync, R: Threads + Wait + Sync>(
    rt: &R,
    alloc: Global,
    credits: Blank,
    held: Blank,
    meeting: &Meeting,
    frames: [u32; 2],
    begins: &[Row],
    asks: &[Row],
) -> Option<(bool, u32)>
    requires blanks { IsBlankOf C.name C.parts credits × IsBlankOf H.name H.parts held }
{
    let book = Mutex::new(bare::<C, H>(alloc, frames[0], credits, held)?);
    let mut worker = admit(rt, alloc, &book, frames[1]).ok()?;
    let watch = &meeting.watch;
    let begun = does(rt, &book, watch, &mut worker, begins)
        && does(rt, &book, watch, &mut worker, asks);
    let (right, free) = play_and_hold(rt, &book, meeting, worker, asks);
    // Nobody else was admitted: the next one has the number behind the tenant's.
    let next = admit(rt, alloc, &book, 0);
    let alone = match &next {
        Ok(tenant) => tenant.number() == 1,
        Err(_) => false,
    };
    drop(next);
    drop(book);
    Some((begun && right && alone, free))
}

fn while_held_by_name<R: Threads + Wait + Sync>(
    rt: &R,
    alloc: Global,
    meeting: &Meeting,
    frames: [u32; 2],
    begins: &[Row],
    asks: &[Row],
) -> Option<(bool, u32)> {
    while_held::<Brand, Brand, R>(rt, alloc, blank(), blank(), meeting, frames, begins, asks)
}

// The gate is told of a frame that stands in stock as of one that the depot gives.
#[test]
fn a_frame_in_stock_is_had_while_the_depots_lock_is_held(rt: HostRuntime) -> Result<(), Fail> {
    let (begins, asks) = (begins(), asks());
    let meeting = Meeting::new();
    let told = while_held_by_name(&rt, rt.alloc(), &meeting, [2, 1], &begins, &asks);
    assert_eq!(rt; told, Some((true, 1)));
    assert!(rt; meeting.watch.is_told(3, 0));
    Ok(())
}

// Each kind of step. Seven frames are taken in front of it, seven while the lock is held, and one by a write from a
// slice. Two of them are in stock in the end.
#[test]
fn no_kind_of_step_takes_the_depots_lock_for_nothing(rt: HostRuntime) -> Result<(), Fail> {
    let alloc = rt.alloc();
    let (begins, asks) = (begins_two(), each_kind(alloc)?);
    let meeting = Meeting::new();
    let told = while_held_by_name(&rt, alloc, &meeting, [35, 34], &begins, asks.as_slice());
    assert_eq!(rt; told, Some((true, 33)));
    assert!(rt; meeting.watch.is_told(15, 0));
    Ok(())
}

// The same, where what is written and what a Resume is told stand in slices.
#[test]
fn no_call_on_a_slice_takes_the_depots_lock_for_nothing(rt: HostRuntime) -> Result<(), Fail> {
    let alloc = rt.alloc();
    let (begins, mut asks) = (begins_two(), each_kind(alloc)?);
    put_in_slices(&mut asks);
    let meeting = Meeting::new();
    let told = while_held_by_name(&rt, alloc, &meeting, [35, 34], &begins, asks.as_slice());
    assert_eq!(rt; told, Some((true, 33)));
    assert!(rt; meeting.watch.is_told(15, 0));
    Ok(())
}
