//! Tenants that come for a job and go when it has ended: one that still has a process, more than there is room for, as
//! many as there are numbers, and on two threads by turns.

ghost use Rattle.pf_depot.specs.Blanks.{IsBlankOf};

use crate::beside::{Tenant, blank, config, does, old_frames};
use crate::tenants::{Row, asks_for_more, fills_and_exits, works};
use pf_base::{AdmitFault, Config, MAX_NAMESPACES, RetireFault};
use pf_depot::DepotBook;
use pf_worker::{NoGate, Worker, open};
use std::alloc::Global;
use std::collections::VecDeque;
use std::marker::Brand;
use std::sync::ledger::{Blank, Ledger};
use std::sync::{Mutex, Wait};
use std::test::Fail;
use std::thread::{Threads, join};

const TOO_MANY: Option<AdmitFault> = Some(AdmitFault::TooManyNamespaces);

// A depot of so many frames, and no tenant yet.
pub(crate) fn bare<C: Ledger, H: Ledger>(
    alloc: Global,
    frames: u32,
    credits: Blank,
    held: Blank,
) -> Option<DepotBook<C, H>>
    requires blanks { IsBlankOf C.name C.parts credits × IsBlankOf H.name H.parts held }
{
    let frames = old_frames(alloc, frames).ok()?;
    let none: Vec<(Config, Global)> = Vec::new(alloc);
    let (book, _) = open::<Global, C, H>(alloc, frames, none, credits, held).ok()?;
    Some(book)
}

// A tenant with this reservation, or why there is none. Where a growth is refused it is asked for once more.
pub(crate) fn admit<R: Wait, C: Ledger, H: Ledger>(
    rt: &R,
    alloc: Global,
    book: &Mutex<DepotBook<C, H>>,
    reserve: u32,
) -> Result<Tenant<C, H>, AdmitFault> {
    let Some(config) = config(reserve) else {
        return Err(AdmitFault::NoMemory);
    };
    let admitted = Worker::admit(rt, alloc, book, config, alloc);
    let Err(AdmitFault::NoMemory) = &admitted else {
        return admitted;
    };
    drop(admitted);
    Worker::admit(rt, alloc, book, config, alloc)
}

// Whether a tenant goes.
fn goes<R: Wait, C: Ledger, H: Ledger>(
    rt: &R,
    book: &Mutex<DepotBook<C, H>>,
    tenant: Tenant<C, H>,
) -> bool {
    tenant.retire(rt, book).is_ok()
}

// Whether a tenant does its job, and goes.
fn does_and_goes<R: Wait, C: Ledger, H: Ledger>(
    rt: &R,
    book: &Mutex<DepotBook<C, H>>,
    mut tenant: Tenant<C, H>,
    rows: &[Row],
) -> bool {
    let right = does(rt, book, &NoGate, &mut tenant, rows);
    goes(rt, book, tenant) && right
}

// What a tenant with a process is told that is to go, and another that is to come before it has gone; how many frames
// are free while it holds 32, and once it has gone.
type Left = (RetireFault, Option<AdmitFault>, [u32; 2]);

// A tenant that has filled its frames and is to go while it has a process stays, and another one is to come. Then its
// process exits, and it goes. Nothing, where it didn't stay or was told anything else.
fn stays_and_goes<R: Wait, C: Ledger, H: Ledger>(
    rt: &R,
    alloc: Global,
    book: &Mutex<DepotBook<C, H>>,
    tenant: Tenant<C, H>,
    exits: &[Row],
) -> Option<Left> {
    let (tenant, alive) = tenant.retire(rt, book).err()?;
    let refused = admit(rt, alloc, book, 2).err();
    let full = book.lock(rt).free();
    let gone = does_and_goes(rt, book, tenant, exits);
    let back = book.lock(rt).free();
    if gone {
        Some((alive, refused, [full, back]))
    } else {
        None
    }
}

// A tenant with all frames: whether it is told what is wanted.
fn asks_alone<R: Wait, C: Ledger, H: Ledger>(
    rt: &R,
    alloc: Global,
    book: &Mutex<DepotBook<C, H>>,
    rows: &[Row],
) -> bool {
    let Ok(mut tenant) = admit(rt, alloc, book, 33) else {
        return false;
    };
    // Its number is the next one: who was refused, or gave frames back, took none.
    let right = tenant.number() == 1 && does(rt, book, &NoGate, &mut tenant, rows);
    drop(tenant);
    right
}

// A tenant fills 32 frames of 33 and is to go, and another one is to come. The first one's process exits, and it goes.
// Then another comes that reserves all frames, and is shown nothing but its own bytes.
fn leaves<R: Wait, C: Ledger, H: Ledger>(
    rt: &R,
    alloc: Global,
    book: &Mutex<DepotBook<C, H>>,
    fills: &[Row],
    exits: &[Row],
    asks: &[Row],
) -> Option<Left> {
    let mut red = admit(rt, alloc, book, 32).ok()?;
    let right = does(rt, book, &NoGate, &mut red, fills);
    let left = stays_and_goes(rt, alloc, book, red, exits)?;
    if right && asks_alone(rt, alloc, book, asks) {
        Some(left)
    } else {
        None
    }
}

// The same at a depot that nobody has used.
fn one_leaves<C: Ledger, H: Ledger, R: Wait>(
    rt: &R,
    alloc: Global,
    credits: Blank,
    held: Blank,
    fills: &[Row],
    exits: &[Row],
    asks: &[Row],
) -> Option<Left>
    requires blanks { IsBlankOf C.name C.parts credits × IsBlankOf H.name H.parts held }
{
    let book = Mutex::new(bare::<C, H>(alloc, 33, credits, held)?);
    let left = leaves(rt, alloc, &book, fills, exits, asks);
    drop(book);
    left
}

fn one_leaves_by_name<R: Wait>(
    rt: &R,
    alloc: Global,
    fills: &[Row],
    exits: &[Row],
    asks: &[Row],
) -> Option<Left> {
    one_leaves::<Brand, Brand, R>(rt, alloc, blank(), blank(), fills, exits, asks)
}

#[test]
fn one_goes_when_its_process_has_exited(rt: HostRuntime) -> Result<(), Fail> {
    let alloc = rt.alloc();
    let (job, asks) = (fills_and_exits(alloc)?, asks_for_more());
    let (fills, exits) = job.as_slice().split_at(5);
    let left = one_leaves_by_name(&rt, alloc, fills, exits, asks.as_slice());
    let no_room = Some(AdmitFault::NoRoom { slack: 1 });
    assert_eq!(rt;
        left,
        Some((RetireFault::Alive { processes: 1 }, no_room, [1, 33]))
    );
    Ok(())
}

// What a tenant is told that is to come with so many frames, and whether one with fewer comes then, under this number.
fn fits<R: Wait, C: Ledger, H: Ledger>(
    rt: &R,
    alloc: Global,
    book: &Mutex<DepotBook<C, H>>,
    reserves: [u32; 2],
    number: u32,
) -> (Option<AdmitFault>, Option<Tenant<C, H>>) {
    let refused = admit(rt, alloc, book, reserves[0]).err();
    match admit(rt, alloc, book, reserves[1]) {
        Ok(tenant) if tenant.number() == number => (refused, Some(tenant)),
        Ok(tenant) => {
            drop(tenant);
            (refused, None)
        }
        Err(_) => (refused, None),
    }
}

// What two are told that ask for more of 700 frames than is left, and whether one comes behind each.
fn asks_for_too_many<C: Ledger, H: Ledger, R: Wait>(
    rt: &R,
    alloc: Global,
    credits: Blank,
    held: Blank,
) -> Option<[(Option<AdmitFault>, bool); 2]>
    requires blanks { IsBlankOf C.name C.parts credits × IsBlankOf H.name H.parts held }
{
    let book = Mutex::new(bare::<C, H>(alloc, 700, credits, held)?);
    let (first, red) = fits(rt, alloc, &book, [701, 600], 0);
    let (second, blue) = fits(rt, alloc, &book, [128, 100], 1);
    let came = [red.is_some(), blue.is_some()];
    drop(red);
    drop(blue);
    drop(book);
    Some([(first, came[0]), (second, came[1])])
}

fn asks_for_too_many_by_name<R: Wait>(
    rt: &R,
    alloc: Global,
) -> Option<[(Option<AdmitFault>, bool); 2]> {
    asks_for_too_many::<Brand, Brand, R>(rt, alloc, blank(), blank())
}

#[test]
fn no_room_is_told_with_what_is_left(rt: HostRuntime) -> Result<(), Fail> {
    let told = asks_for_too_many_by_name(&rt, rt.alloc());
    let all = Some(AdmitFault::NoRoom { slack: 700 });
    let rest = Some(AdmitFault::NoRoom { slack: 100 });
    assert_eq!(rt; told, Some([(all, true), (rest, true)]));
    Ok(())
}

// A tenant comes and does its job. Nothing, where it doesn't get this number or is told anything else.
fn comes<R: Wait, C: Ledger, H: Ledger>(
    rt: &R,
    alloc: Global,
    book: &Mutex<DepotBook<C, H>>,
    number: u32,
    rows: &[Row],
) -> Option<Tenant<C, H>> {
    let mut tenant = admit(rt, alloc, book, 1).ok()?;
    if tenant.number() == number && does(rt, book, &NoGate, &mut tenant, rows) {
        Some(tenant)
    } else {
        drop(tenant);
        None
    }
}

// Whether the oldest of those that live goes.
fn oldest_goes<R: Wait, C: Ledger, H: Ledger>(
    rt: &R,
    book: &Mutex<DepotBook<C, H>>,
    living: &mut VecDeque<Tenant<C, H>>,
) -> bool {
    match living.pop_front() {
        Some(tenant) => goes(rt, book, tenant),
        None => false,
    }
}

// Whether the tenants of these numbers come one after the other, where 64 live the oldest going first.
fn come_and_go<R: Wait, C: Ledger, H: Ledger>(
    rt: &R,
    alloc: Global,
    book: &Mutex<DepotBook<C, H>>,
    living: &mut VecDeque<Tenant<C, H>>,
    numbers: [u32; 2],
    rows: &[Row],
) -> bool {
    for number in numbers[0]..numbers[1] {
        if living.len() == MAX_NAMESPACES && !oldest_goes(rt, book, living) {
            return false;
        }
        let Some(tenant) = comes(rt, alloc, book, number, rows) else {
            return false;
        };
        if living.push_back(tenant).is_err() {
            return false;
        }
    }
    true
}

// Whether all that are left go.
fn all_go<R: Wait, C: Ledger, H: Ledger>(
    rt: &R,
    book: &Mutex<DepotBook<C, H>>,
    living: &mut VecDeque<Tenant<C, H>>,
) -> bool {
    for _ in 0..living.len() {
        if !oldest_goes(rt, book, living) {
            return false;
        }
    }
    true
}

// What the 65th is told that comes while 64 live, and who comes when all 1,024 numbers are given and nobody lives; and
// how many frames are free then.
type Counted = ([Option<AdmitFault>; 2], u32);

// 1,024 tenants of one frame each come and go over 64 frames.
fn counts<R: Wait, C: Ledger, H: Ledger>(
    rt: &R,
    alloc: Global,
    book: &Mutex<DepotBook<C, H>>,
    living: &mut VecDeque<Tenant<C, H>>,
    rows: &[Row],
) -> Option<Counted> {
    let first = come_and_go(rt, alloc, book, living, [0, 64], rows);
    let too_many = admit(rt, alloc, book, 0).err();
    let all = first
        && come_and_go(rt, alloc, book, living, [64, 1_024], rows)
        && all_go(rt, book, living);
    let spent = admit(rt, alloc, book, 0).err();
    let free = book.lock(rt).free();
    if all {
        Some(([too_many, spent], free))
    } else {
        None
    }
}

// The same at a depot that nobody has used.
fn all_numbers<C: Ledger, H: Ledger, R: Wait>(
    rt: &R,
    alloc: Global,
    credits: Blank,
    held: Blank,
    rows: &[Row],
) -> Option<Counted>
    requires blanks { IsBlankOf C.name C.parts credits × IsBlankOf H.name H.parts held }
{
    let book = Mutex::new(bare::<C, H>(alloc, 64, credits, held)?);
    let mut living = VecDeque::new(alloc);
    let counted = counts(rt, alloc, &book, &mut living, rows);
    drop(living);
    drop(book);
    counted
}

fn all_numbers_by_name<R: Wait>(rt: &R, alloc: Global, rows: &[Row]) -> Option<Counted> {
    all_numbers::<Brand, Brand, R>(rt, alloc, blank(), blank(), rows)
}

#[test]
fn a_thousand_come_and_go_over_64_places(rt: HostRuntime) -> Result<(), Fail> {
    let alloc = rt.alloc();
    let job = works();
    let counted = all_numbers_by_name(&rt, alloc, job.as_slice());
    assert_eq!(rt; counted, Some(([TOO_MANY, TOO_MANY], 64)));
    Ok(())
}

// How often a tenant comes, does its job and goes on one of two threads.
const TURNS: u32 = 200;

// Whether a tenant comes, does its job and goes.
fn comes_and_goes<R: Wait, C: Ledger, H: Ledger>(
    rt: &R,
    alloc: Global,
    book: &Mutex<DepotBook<C, H>>,
    rows: &[Row],
) -> bool {
    match admit(rt, alloc, book, 1) {
        Ok(tenant) => does_and_goes(rt, book, tenant, rows),
        Err(_) => false,
    }
}

// How many of them did.
fn by_turns<R: Wait, C: Ledger, H: Ledger>(
    rt: &R,
    alloc: Global,
    book: &Mutex<DepotBook<C, H>>,
    rows: &[Row],
) -> u32 {
    for done in 0..TURNS {
        if !comes_and_goes(rt, alloc, book, rows) {
            return done;
        }
    }
    TURNS
}

// On each of two threads tenants of one frame come and go, over two frames. How many did their job, and how many frames
// are free in the end.
fn on_two_threads<C: Ledger + Send + Sync, H: Ledger + Send + Sync, R: Threads + Wait + Sync>(
    rt: &R,
    alloc: Global,
    credits: Blank,
    held: Blank,
    rows: &[Row],
) -> Option<[u32; 3]>
    requires blanks { IsBlankOf C.name C.parts credits × IsBlankOf H.name H.parts held }
{
    let book = Mutex::new(bare::<C, H>(alloc, 2, credits, held)?);
    let shared = &book;
    let (red, blue) = join(
        rt,
        move || by_turns(rt, alloc, shared, rows),
        move || by_turns(rt, alloc, shared, rows),
    );
    let free = book.lock(rt).free();
    drop(book);
    Some([red, blue, free])
}

fn two_threads_by_name<R: Threads + Wait + Sync>(
    rt: &R,
    alloc: Global,
    rows: &[Row],
) -> Option<[u32; 3]> {
    on_two_threads::<Brand, Brand, R>(rt, alloc, blank(), blank(), rows)
}

#[test]
fn tenants_come_and_go_on_two_threads(rt: HostRuntime) -> Result<(), Fail> {
    let alloc = rt.alloc();
    let job = works();
    let done = two_threads_by_name(&rt, alloc, job.as_slice());
    assert_eq!(rt; done, Some([TURNS, TURNS, 2]));
    Ok(())
}
