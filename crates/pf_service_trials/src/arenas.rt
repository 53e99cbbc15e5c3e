//! Namespaces whose files stand in arenas, of which one is full: who has that one can make no file, and nobody else
//! feels it. And a gate that looks at an arena: it is told of an event before a file is made there.

ghost use Rattle.pf_depot.specs.Blanks.{IsBlankOf};

use bumpalo::Bump;
use pf_base::{ByteString, Config, Reply, Step};
use pf_service::{Gate, NoGate, Service, ServiceFault};
use pf_service_fixture::{BLUE, RED, blank, config_of, old_frames, spawn};
use std::alloc::{AllocError, Allocator, Global};
use std::marker::Brand;
use std::sync::Wait;
use std::sync::atomic::{AtomicU64, Ordering};
use std::sync::ledger::{Blank, Ledger};
use std::test::Fail;

fn mkfifo(alloc: Global) -> Result<Step, AllocError> {
    Ok(Step::Mkfifo {
        pid: 1,
        path: ByteString::from_slice(alloc, b"/f")?,
        mode: 438,
    })
}

// Whether a namespace's process can make a file.
fn makes_a_file<A: Allocator + Copy, G: Gate, C: Ledger, H: Ledger, R: Wait>(
    rt: &R,
    alloc: Global,
    service: &Service<A, G, C, H>,
    ns: u32,
) -> Result<bool, Fail> {
    let mut seat = service.seat(rt, ns)?;
    service.call(rt, &mut seat, &spawn())?;
    match service.call(rt, &mut seat, &mkfifo(alloc)?) {
        Ok(receipt) => Ok(receipt.reply == Reply::Num(0)),
        Err(ServiceFault::NoMemory) => Ok(false),
        Err(fault) => Err(Fail::from(fault)),
    }
}

// Which of four can: the two that are there from the start, and two that come, with the same arenas in the same order.
fn who_makes_files<A: Allocator + Copy, C: Ledger, H: Ledger, R: Wait>(
    rt: &R,
    alloc: Global,
    service: &Service<A, NoGate, C, H>,
    red: A,
    blue: A,
) -> Result<[bool; 4], Fail> {
    let config = config_of(1).ok_or("limits")?;
    let first = service.admit(rt, config, red)?;
    let second = service.admit(rt, config, blue)?;
    Ok([
        makes_a_file(rt, alloc, service, RED)?,
        makes_a_file(rt, alloc, service, BLUE)?,
        makes_a_file(rt, alloc, service, first)?,
        makes_a_file(rt, alloc, service, second)?,
    ])
}

// The limits of two namespaces, of a frame each, beside these arenas.
fn configs_in<A: Allocator + Copy>(alloc: Global, red: A, blue: A) -> Option<Vec<(Config, A)>> {
    let config = config_of(1)?;
    let mut configs = Vec::with_capacity(alloc, 2).ok()?;
    configs.push_reserved((config, red));
    configs.push_reserved((config, blue));
    Some(configs)
}

// A service of these two, and two frames besides.
fn service_in<A: Allocator + Copy, G: Gate + Drop, C: Ledger, H: Ledger>(
    alloc: Global,
    red: A,
    blue: A,
    gate: G,
    credits: Blank,
    held: Blank,
) -> Result<Service<A, G, C, H>, Fail>
    requires blanks { IsBlankOf C.name C.parts credits × IsBlankOf H.name H.parts held }
{
    let frames = old_frames(alloc, 4)?;
    let configs = configs_in(alloc, red, blue).ok_or("limits")?;
    match Service::new(alloc, frames, configs, gate, credits, held) {
        Ok(service) => Ok(service),
        Err(fault) => Err(Fail::from(fault)),
    }
}

// Which of the four can make a file, where the files stand in these arenas. The service is closed without its seats,
// whatever that answers.
fn played_named<A: Allocator + Copy, C: Ledger, H: Ledger, R: Wait>(
    rt: &R,
    alloc: Global,
    red: A,
    blue: A,
    credits: Blank,
    held: Blank,
) -> Result<[bool; 4], Fail>
    requires blanks { IsBlankOf C.name C.parts credits × IsBlankOf H.name H.parts held }
{
    let service = service_in::<A, NoGate, C, H>(alloc, red, blue, NoGate, credits, held)?;
    let made = who_makes_files(rt, alloc, &service, red, blue);
    drop(service.close(Vec::new(alloc)));
    made
}

fn played<A: Allocator + Copy, R: Wait>(
    rt: &R,
    alloc: Global,
    red: A,
    blue: A,
) -> Result<[bool; 4], Fail> {
    played_named::<A, Brand, Brand, R>(rt, alloc, red, blue, blank(), blank())
}

#[test]
fn each_has_the_arena_that_it_was_given(rt: HostRuntime) -> Result<(), Fail> {
    let alloc = rt.alloc();
    let (full, free) = (Bump::new(alloc), Bump::new(alloc));
    full.set_allocation_limit(Some(0));
    let made = played(&rt, alloc, &full, &free)?;
    assert_eq!(rt; made, [false, true, false, true]);
    let made = played(&rt, alloc, &free, &full)?;
    assert_eq!(rt; made, [true, false, true, false]);
    Ok(())
}

// Looks, as it is told of an event, at how many bytes the arena of the namespace's files has asked for, and keeps what
// it saw at the second one.
#[derive(Drop)]
struct Looks<'a> {
    arena: &'a Bump,
    bytes: &'a AtomicU64,
}

impl Gate for Looks<'_> {
    ghost passed = { λ _ _ _. Unit {0} };

    ghost framed = { λ _ _. Unit {0} };

    fn pass(&self, ns: u32, place: u64) {
        let _ = ns;
        if place == 1 {
            let bytes = self.arena.allocated_bytes();
            self.bytes.store(bytes as u64, Ordering::SeqCst);
        }
    }

    fn frame(&self, ns: u32) {
        let _ = ns;
    }
}

// Whether the first namespace can make a file in an arena at which a gate looks. The service is closed without its
// seats.
fn looked_named<C: Ledger, H: Ledger, R: Wait>(
    rt: &R,
    alloc: Global,
    arena: &Bump,
    gate: Looks<'_>,
    credits: Blank,
    held: Blank,
) -> Result<bool, Fail>
    requires blanks { IsBlankOf C.name C.parts credits × IsBlankOf H.name H.parts held }
{
    let service = service_in::<_, _, C, H>(alloc, arena, arena, gate, credits, held)?;
    let made = makes_a_file(rt, alloc, &service, RED);
    drop(service.close(Vec::new(alloc)));
    made
}

fn looked<R: Wait>(rt: &R, alloc: Global, arena: &Bump, gate: Looks<'_>) -> Result<bool, Fail> {
    looked_named::<Brand, Brand, R>(rt, alloc, arena, gate, blank(), blank())
}

// The second event is a Mkfifo, the first that asks the arena for anything.
#[test]
fn a_gate_is_told_before_a_file_is_made(rt: HostRuntime) -> Result<(), Fail> {
    let alloc = rt.alloc();
    let (arena, bytes) = (Bump::new(alloc), AtomicU64::new(u64::MAX));
    let gate = Looks {
        arena: &arena,
        bytes: &bytes,
    };
    let made = looked(&rt, alloc, &arena, gate)?;
    assert!(rt; made);
    assert_eq!(rt; bytes.load(Ordering::SeqCst), 0);
    assert!(rt; arena.allocated_bytes() > 0);
    Ok(())
}
