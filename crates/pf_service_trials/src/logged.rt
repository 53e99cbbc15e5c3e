//! A namespace with its transcript over a depot of its own, and no lock: each event is told what the lone machine
//! tells, and stands with that at the transcript's end.

ghost use Rattle.std.specs.Prelude.{◌≡◌, ◌+◌, ◌≤◌, IfSome};
ghost use Rattle.pf_depot.specs.Depot.{free_of};
ghost use Rattle.pf_service.specs.Log.{new_log};

use pf_base::{BYTES_IN_PLACE, ByteString, Config, Reply, Step};
use pf_depot::{Depot, Lender};
use pf_service::{Logged, ServiceFault};
use pf_service_fixture::{config_of, old_frames, spawn};
use std::alloc::Global;
use std::test::Fail;

// A depot of 16 frames, of which nobody has reserved any.
fn depot_of(alloc: Global) -> Option<Depot> {
    let frames = old_frames(alloc, 16).ok()?;
    let Ok((depot, loans)) = Depot::new(alloc, frames, Vec::new(alloc)) else {
        return None;
    };
    drop(loans);
    Some(depot)
}

// A namespace of these limits at a depot that has a free frame for each that it reserves.
fn logged_at(alloc: Global, depot: &mut Depot, config: Config) -> Option<Logged<Global>>
    ensures opened { IfSome result (λ l. l ≡ new_log config alloc) }
    ensures ready { IfSome result (λ _. config.reserve ≤ free_of depot.new) }
{
    let Ok(loans) = depot.admit(config.reserve()) else {
        return None;
    };
    if depot.free() < config.reserve() {
        drop(loans);
        return None;
    }
    match Logged::new(alloc, alloc, config, loans) {
        Ok(logged) => Some(logged),
        Err(_) => None,
    }
}

// Whether an event is told this. What it is told is let go here.
fn is(told: Result<Reply, ServiceFault>, reply: &Reply) -> bool {
    match &told {
        Ok(told) => told.is_same(reply),
        Err(_) => false,
    }
}

// Whether the last entry is this one.
fn ends_with(entries: &[(Step, Reply)], step: &Step, reply: &Reply) -> bool {
    match entries.last() {
        Some(entry) => entry.0.is_same(step) && entry.1.is_same(reply),
        None => false,
    }
}

// One event: whether it is told this, and stands with it at the transcript's end.
fn logs<D: Lender>(lender: &mut D, logged: &mut Logged<Global>, step: Step, reply: Reply) -> bool
    requires fact { D.fact lender.old }
    requires ready { logged.old.limits.reserve ≤ D.ready lender.old + logged.old.held }
    requires out { logged.old.held ≤ D.out lender.old }
    ensures fact { D.fact lender.new }
    ensures limits { logged.new.limits ≡ logged.old.limits }
    ensures ready { D.ready lender.new + logged.new.held ≡ D.ready lender.old + logged.old.held }
    ensures out { logged.new.held ≤ D.out lender.new }
{
    let told = logged.apply(lender, &step);
    let is_told = is(told, &reply);
    let is_last = ends_with(logged.entries(), &step, &reply);
    drop(step);
    drop(reply);
    is_told && is_last
}

// A process writes a byte into a pipe: whether each of the three events stands there.
fn logs_a_write<D: Lender>(lender: &mut D, logged: &mut Logged<Global>) -> bool
    requires fact { D.fact lender.old }
    requires ready { logged.old.limits.reserve ≤ D.ready lender.old + logged.old.held }
    requires out { logged.old.held ≤ D.out lender.old }
{
    let pipe = Step::Pipe {
        pid: 1,
        nonblock: false,
    };
    let write = Step::Write {
        pid: 1,
        fd: 1,
        payload: ByteString::in_place([0x61; BYTES_IN_PLACE], 1),
    };
    let spawned = logs(lender, logged, spawn(), Reply::Pid(1));
    let piped = logs(lender, logged, pipe, Reply::Fds(0, 1));
    let written = logs(lender, logged, write, Reply::Num(1));
    spawned && piped && written
}

// Whether these events stand there, how many there are then, and how many processes.
fn played(alloc: Global, depot: &mut Depot, config: Config) -> Option<(bool, usize, u32)> {
    let Some(mut logged) = logged_at(alloc, depot, config) else {
        return None;
    };
    let right = logs_a_write(depot, &mut logged);
    let seen = (right, logged.entries().len(), logged.processes());
    drop(logged);
    Some(seen)
}

#[test]
fn an_event_stands_at_the_end_of_a_transcript(rt: HostRuntime) -> Result<(), Fail> {
    let alloc = rt.alloc();
    let config = config_of(16).ok_or("limits")?;
    let mut depot = depot_of(alloc).ok_or("depot")?;
    let seen = played(alloc, &mut depot, config);
    let free = depot.free();
    drop(depot);
    assert_eq!(rt; seen, Some((true, 3, 1)));
    assert_eq!(rt; free, 15);
    Ok(())
}
