//! Two tenants beside each other: what each is told, the frames that both take, and how many are free in the end.

ghost use Rattle.std.specs.Prelude.{◌≡◌};
ghost use Rattle.pf_base.specs.declared.TheConstants.{MAX_NAMESPACES};
ghost use Rattle.pf_depot.specs.Blanks.{IsBlankOf};

use crate::slices::is_told_in_slice;
use crate::tenants::{Row, asks_for_more, fills_and_exits, fills_and_stays, has_one_page};
use crate::watch::Watch;
use pf_base::{Answer, Config, MAX_NAMESPACES, Reply};
use pf_depot::DepotBook;
use pf_frame::Frame;
use pf_worker::{Gate, Worker, open};
use std::alloc::{AllocError, Global};
use std::marker::Brand;
use std::sync::ledger::{Blank, Ledger};
use std::sync::{Mutex, Wait};
use std::test::Fail;
use std::thread::{Threads, join};

// What the frames hold before anyone writes to them.
const OLD: u8 = 0xA5;

pub(crate) type Tenant<C, H> = Worker<Global, C, H>;

// A ledger with a part for each namespace that there may be.
pub(crate) fn blank() -> Blank
    ensures { result.parts ≡ MAX_NAMESPACES }
{
    Blank::new(MAX_NAMESPACES as u64)
}

pub(crate) fn old_frames(alloc: Global, count: u32) -> Result<Vec<Frame>, AllocError> {
    let mut frames = Vec::with_capacity(alloc, count as usize)?;
    for _ in 0..count {
        frames.push(Frame::filled(alloc, OLD)?)?;
    }
    Ok(frames)
}

// The limits of a namespace with this reservation.
pub(crate) fn config(reserve: u32) -> Option<Config> {
    let config = Config::new(
        reserve,
        Config::DEFAULT_SOFT,
        Config::DEFAULT_HARD,
        Config::DEFAULT_MAX,
    );
    config.ok()
}

// Those of two namespaces, each with the allocator of its files.
fn configs(alloc: Global, reserves: [u32; 2]) -> Option<Vec<(Config, Global)>> {
    let mut configs = Vec::with_capacity(alloc, 2).ok()?;
    for reserve in reserves {
        configs.push((config(reserve)?, alloc)).ok()?;
    }
    Some(configs)
}

// Whether an answer is what is wanted. It is let go here, as a tenant is by `drop`: what goes at several ways out of a
// function is dear to prove.
pub(crate) fn is(answer: Answer, told: &Reply) -> bool {
    match &answer {
        Answer::Done(reply) => reply == told,
        Answer::NoMemory => false,
    }
}

// Whether a step is told what is wanted. Where a growth is refused it is made once more: it is to find all as it was.
fn is_told<R: Wait, G: Gate, C: Ledger, H: Ledger>(
    rt: &R,
    book: &Mutex<DepotBook<C, H>>,
    gate: &G,
    worker: &mut Tenant<C, H>,
    row: &Row,
) -> bool {
    let mut answer = worker.step(rt, book, gate, &row.step);
    if matches!(&answer, Answer::NoMemory) {
        drop(answer);
        answer = worker.step(rt, book, gate, &row.step);
    }
    is(answer, &row.told)
}

// Makes a tenant's steps in turn. Says whether each was told what is wanted.
pub(crate) fn does<R: Wait, G: Gate, C: Ledger, H: Ledger>(
    rt: &R,
    book: &Mutex<DepotBook<C, H>>,
    gate: &G,
    worker: &mut Tenant<C, H>,
    rows: &[Row],
) -> bool {
    for row in rows {
        let right = if row.in_slice {
            is_told_in_slice(rt, book, gate, worker, row)
        } else {
            is_told(rt, book, gate, worker, row)
        };
        if !right {
            return false;
        }
    }
    true
}

// The same, and how many frames the tenant holds in the end.
fn play<R: Wait, G: Gate, C: Ledger, H: Ledger>(
    rt: &R,
    book: &Mutex<DepotBook<C, H>>,
    gate: &G,
    mut worker: Tenant<C, H>,
    rows: &[Row],
) -> Option<u32> {
    let right = does(rt, book, gate, &mut worker, rows);
    let held = worker.held();
    drop(worker);
    if right { Some(held) } else { None }
}

// The first tenant. How many frames it holds in the end, and how many are free then, while the second is held: the gate
// lets that go once it is told of the end.
fn play_first<R: Wait, C: Ledger, H: Ledger>(
    rt: &R,
    book: &Mutex<DepotBook<C, H>>,
    watch: &Watch,
    worker: Tenant<C, H>,
    rows: &[Row],
) -> Option<[u32; 2]> {
    let held = play(rt, book, watch, worker, rows);
    watch.wait_for_second();
    let free = book.lock(rt).free();
    watch.end();
    Some([held?, free])
}

// Both tenants, on a thread each.
fn play_both<C: Ledger + Send + Sync, H: Ledger + Send + Sync, R: Threads + Wait + Sync>(
    rt: &R,
    book: &Mutex<DepotBook<C, H>>,
    watch: &Watch,
    red: Tenant<C, H>,
    blue: Tenant<C, H>,
    red_rows: &[Row],
    blue_rows: &[Row],
) -> (Option<[u32; 2]>, Option<u32>) {
    join(
        rt,
        move || play_first(rt, book, watch, red, red_rows),
        move || play(rt, book, watch, blue, blue_rows),
    )
}

type Opened<C, H> = (DepotBook<C, H>, Tenant<C, H>, Tenant<C, H>);

// A depot of as many frames as two tenants reserve, and both.
fn opened<C: Ledger, H: Ledger>(
    alloc: Global,
    reserves: [u32; 2],
    credits: Blank,
    held: Blank,
) -> Option<Opened<C, H>>
    requires blanks { IsBlankOf C.name C.parts credits × IsBlankOf H.name H.parts held }
{
    let frames = old_frames(alloc, reserves[0].checked_add(reserves[1])?).ok()?;
    let configs = configs(alloc, reserves)?;
    let (book, mut workers) = open(alloc, frames, configs, credits, held).ok()?;
    let blue = workers.pop()?;
    let red = workers.pop()?;
    Some((book, red, blue))
}

// What the first holds in the end, beside how many frames are free while the second is held; what the second holds, and
// how many are free in the end.
type Held = (Option<[u32; 2]>, Option<u32>, u32);

// Two tenants beside each other. Nothing, where a growth was refused before they began.
fn beside<C: Ledger + Send + Sync, H: Ledger + Send + Sync, R: Threads + Wait + Sync>(
    rt: &R,
    alloc: Global,
    credits: Blank,
    held: Blank,
    watch: &Watch,
    reserves: [u32; 2],
    red_rows: &[Row],
    blue_rows: &[Row],
) -> Option<Held>
    requires blanks { IsBlankOf C.name C.parts credits × IsBlankOf H.name H.parts held }
{
    let (book, red, blue) = opened::<C, H>(alloc, reserves, credits, held)?;
    let book = Mutex::new(book);
    let (red, blue) = play_both(rt, &book, watch, red, blue, red_rows, blue_rows);
    let free = book.lock(rt).free();
    Some((red, blue, free))
}

pub(crate) fn beside_by_name<R: Threads + Wait + Sync>(
    rt: &R,
    alloc: Global,
    watch: &Watch,
    reserves: [u32; 2],
    red: &[Row],
    blue: &[Row],
) -> Option<Held> {
    beside::<Brand, Brand, R>(rt, alloc, blank(), blank(), watch, reserves, red, blue)
}

// The first tenant gives back 32 frames, of which 16 stay in its stock. The second takes one of the other 16, which the
// first has filled: it is shown nothing of that, and has it in its own stock in the end. As long as the second is held
// it is free: the gate is told of it before it is taken.
#[test]
fn a_frame_passes_from_one_tenant_to_the_other(rt: HostRuntime) -> Result<(), Fail> {
    let alloc = rt.alloc();
    let (red, blue) = (fills_and_exits(alloc)?, asks_for_more());
    let watch = Watch::new();
    let held = beside_by_name(
        &rt,
        alloc,
        &watch,
        [32, 16],
        red.as_slice(),
        blue.as_slice(),
    );
    assert_eq!(rt; held, Some((Some([0, 32]), Some(0), 31)));
    assert!(rt; watch.is_told(32, 1));
    Ok(())
}

// The second tenant finds its one frame, though the first holds all that it may hold. It is free as long as the second
// is held before it.
#[test]
fn a_frame_is_there_for_each_credit(rt: HostRuntime) -> Result<(), Fail> {
    let alloc = rt.alloc();
    let (red, blue) = (fills_and_stays(alloc)?, has_one_page(alloc)?);
    let watch = Watch::new();
    let held = beside_by_name(&rt, alloc, &watch, [16, 1], red.as_slice(), blue.as_slice());
    assert_eq!(rt; held, Some((Some([16, 1]), Some(1), 0)));
    assert!(rt; watch.is_told(16, 1));
    Ok(())
}

// The second tenant is held within a write, behind the first of its 16 frames: the first one takes its frame meanwhile.
// The other 15 are free until the second goes on.
#[test]
fn a_step_held_behind_a_frame_holds_nobody_else(rt: HostRuntime) -> Result<(), Fail> {
    let alloc = rt.alloc();
    let (red, blue) = (has_one_page(alloc)?, fills_and_stays(alloc)?);
    let watch = Watch::behind(1);
    let held = beside_by_name(&rt, alloc, &watch, [1, 16], red.as_slice(), blue.as_slice());
    assert_eq!(rt; held, Some((Some([1, 15]), Some(16), 0)));
    assert!(rt; watch.is_told(1, 16));
    Ok(())
}
