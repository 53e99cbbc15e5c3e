//! A worker whose steps have their bytes in slices: what they are told, what lies there then, and when a gate is told of
//! the frames that they take.

ghost use Rattle.pf_depot.specs.Blanks.{IsBlankOf};

use crate::beside::{Tenant, beside_by_name, blank, config, does, is, old_frames};
use crate::tenants::{Row, begins, has_one_page, put_in_slices, waits_for_a_page};
use crate::watch::Watch;
use pf_base::{Answer, Errno, MAX_NAMESPACES, Reply, Step};
use pf_depot::DepotBook;
use pf_worker::{Gate, open};
use std::alloc::Global;
use std::marker::Brand;
use std::sync::ledger::{Blank, Ledger};
use std::sync::{Mutex, Wait};
use std::test::Fail;

// What a call that hands out bytes is told, as the answer of its step.
fn answer(told: Result<Option<usize>, Errno>) -> Answer {
    Answer::Done(match told {
        Ok(Some(count)) => Reply::Num(count as u64),
        Ok(None) => Reply::Parked,
        Err(errno) => Reply::Err(errno),
    })
}

// Makes a step with its bytes in a slice, or one that has none.
fn step_in_slice<R: Wait, G: Gate, C: Ledger, H: Ledger>(
    rt: &R,
    book: &Mutex<DepotBook<C, H>>,
    gate: &G,
    worker: &mut Tenant<C, H>,
    step: &Step,
) -> Answer {
    match step {
        Step::Write { pid, fd, payload } => worker.write_from(
            rt,
            book,
            gate,
            *pid,
            *fd,
            payload.as_slice(),
        ),
        Step::Resume { pid } => {
            let mut buffer = *b"....";
            answer(worker.resume_into(rt, book, gate, *pid, &mut buffer))
        }
        _ => worker.step(rt, book, gate, step),
    }
}

// Whether an answer is what is wanted of a row whose bytes stand in a slice: of bytes that go there the number is told.
fn is_right(answer: Answer, row: &Row) -> bool {
    match (&row.step, &row.told) {
        (Step::Resume { .. }, Reply::Bytes(bytes)) => {
            is(answer, &Reply::Num(bytes.as_slice().len() as u64))
        }
        _ => is(answer, &row.told),
    }
}

// Whether a step with its bytes in a slice is told what is wanted. Where a growth is refused it is made once more.
pub(crate) fn is_told_in_slice<R: Wait, G: Gate, C: Ledger, H: Ledger>(
    rt: &R,
    book: &Mutex<DepotBook<C, H>>,
    gate: &G,
    worker: &mut Tenant<C, H>,
    row: &Row,
) -> bool {
    let mut answer = step_in_slice(rt, book, gate, worker, &row.step);
    if matches!(&answer, Answer::NoMemory) {
        drop(answer);
        answer = step_in_slice(rt, book, gate, worker, &row.step);
    }
    is_right(answer, row)
}

// Whether a read that waits has its first bytes in a slice, once they are there, and another one all that are left. One
// frame is taken, by the write.
pub(crate) fn passes<R: Wait, G: Gate, C: Ledger, H: Ledger>(
    rt: &R,
    book: &Mutex<DepotBook<C, H>>,
    gate: &G,
    worker: &mut Tenant<C, H>,
) -> bool {
    let mut few = *b"....";
    let mut many = *b"..........";
    let parks = worker.read_into(rt, book, gate, 1, 0, &mut many) == Ok(None);
    let waits = worker.resume_into(rt, book, gate, 1, &mut few) == Ok(None);
    let hello = worker.write_from(rt, book, gate, 2, 1, b"hello, world");
    let hello = is(hello, &Reply::Num(12));
    let comes = worker.resume_into(rt, book, gate, 1, &mut few) == Ok(Some(10));
    let rest = worker.read_into(rt, book, gate, 1, 0, &mut many) == Ok(Some(2));
    parks && waits && hello && comes && rest && few == *b"hell" && many == *b"ld........"
}

// Whether calls on slices are refused where there is no such descriptor, and where no call waits.
pub(crate) fn are_refused<R: Wait, G: Gate, C: Ledger, H: Ledger>(
    rt: &R,
    book: &Mutex<DepotBook<C, H>>,
    gate: &G,
    worker: &mut Tenant<C, H>,
) -> bool {
    let mut buffer = *b"....";
    let reads = worker.read_into(rt, book, gate, 1, 9, &mut buffer) == Err(Errno::EBADF);
    let writes = worker.write_from(rt, book, gate, 1, 9, b"x");
    let writes = is(writes, &Reply::Err(Errno::EBADF));
    let resumes = worker.resume_into(rt, book, gate, 1, &mut buffer) == Err(Errno::EINVAL);
    reads && writes && resumes && buffer == *b"...."
}

// Whether a worker of its own is told so.
fn is_passed<C: Ledger, H: Ledger, R: Wait>(
    rt: &R,
    alloc: Global,
    credits: Blank,
    held: Blank,
    watch: &Watch,
    rows: &[Row],
) -> Option<bool>
    requires blanks { IsBlankOf C.name C.parts credits × IsBlankOf H.name H.parts held }
{
    let frames = old_frames(alloc, 16).ok()?;
    let mut configs = Vec::with_capacity(alloc, 1).ok()?;
    configs.push((config(16)?, alloc)).ok()?;
    let (book, mut workers) = open::<Global, C, H>(alloc, frames, configs, credits, held).ok()?;
    let book = Mutex::new(book);
    let passed = match workers.first_mut() {
        Some(worker) => { does(rt, &book, watch, worker, rows) && passes(rt, &book, watch, worker) }
        None => false,
    };
    drop(workers);
    drop(book);
    Some(passed)
}

fn is_passed_by_name<R: Wait>(rt: &R, alloc: Global, watch: &Watch, rows: &[Row]) -> Option<bool> {
    is_passed::<Brand, Brand, R>(rt, alloc, blank(), blank(), watch, rows)
}

#[test]
fn bytes_of_slices_pass_through_a_worker(rt: HostRuntime) -> Result<(), Fail> {
    let rows = begins();
    let watch = Watch::new();
    assert_eq!(rt;
        is_passed_by_name(&rt, rt.alloc(), &watch, &rows),
        Some(true)
    );
    assert!(rt; watch.is_told(1, 0));
    Ok(())
}

// The second tenant fills a page from a slice, and a write of its own that waited goes into another page. It is held
// before the first of these frames, and then before the other: as long as it is held, that frame is free.
#[test]
fn slices_are_held_before_each_frame(rt: HostRuntime) -> Result<(), Fail> {
    let alloc = rt.alloc();
    let (mut red, mut blue) = (has_one_page(alloc)?, waits_for_a_page(alloc)?);
    put_in_slices(&mut red);
    put_in_slices(&mut blue);
    for (taken, free) in [(0, 2), (1, 1)] {
        let watch = Watch::behind(taken);
        let held = beside_by_name(&rt, alloc, &watch, [1, 2], &red, &blue);
        assert_eq!(rt; held, Some((Some([1, free]), Some(2), 0)));
        assert!(rt; watch.is_told(1, 2));
    }
    Ok(())
}
