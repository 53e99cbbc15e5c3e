//! Namespaces that come to a hub and go: what each event is answered, what an admitted one sees of the frames of one
//! that is retired, and how many may come.

use crate::scripts::{is_told, spawn};
use pf_base::{AdmitFault, Answer, ByteString, Config, EventAnswer, Reply, RetireFault, Step};
use pf_frame::{Frame, PoolFault};
use pf_hub::{Event, Hub};
use std::alloc::{AllocError, Global};
use std::test::Fail;

// How many may live at once, and how many numbers are ever given.
const PLACES: u32 = 64;

const NUMBERS: u32 = 1_024;

const TOO_MANY: Result<u32, AdmitFault> = Err(AdmitFault::TooManyNamespaces);

const NOBODY: Result<(), RetireFault> = Err(RetireFault::NoSuchNamespace);

// What a namespace asks for, and what it is to be told.
type Row = (Step, Answer);

fn no_room(slack: u32) -> Result<u32, AdmitFault> {
    Err(AdmitFault::NoRoom { slack })
}

fn alive(processes: u32) -> Result<(), RetireFault> {
    Err(RetireFault::Alive { processes })
}

// Limits of so many frames.
fn reserving(reserve: u32) -> Result<Config, Fail> {
    Ok(Config::new(
        reserve,
        Config::DEFAULT_SOFT,
        Config::DEFAULT_HARD,
        Config::DEFAULT_MAX,
    )?)
}

// So many frames of zeros.
fn frames(alloc: Global, count: u32) -> Result<Vec<Frame>, AllocError> {
    let mut frames = Vec::new(alloc);
    for _ in 0..count {
        frames.push(Frame::filled(alloc, 0)?)?;
    }
    Ok(frames)
}

// A hub of so many frames, with so many namespaces of these limits. What owns a hub has one way out from then on: each
// drops it, which is dear to prove.
fn opened(alloc: Global, lent: u32, count: u32, limits: Config) -> Result<Hub<Global>, PoolFault> {
    let Ok(frames) = frames(alloc, lent) else {
        return Err(PoolFault::NoMemory);
    };
    let Ok(configs) = Vec::from_elem(alloc, (limits, alloc), count as usize) else {
        return Err(PoolFault::NoMemory);
    };
    Hub::new(alloc, frames, configs)
}

// Whether a namespace lives and is told what it is to be told.
fn does(hub: &mut Hub<Global>, ns: u32, rows: &[Row]) -> bool {
    for (step, answer) in rows {
        if !is_told(hub, ns, step, answer) {
            return false;
        }
    }
    true
}

// Whether a namespace's process exits, and it is retired.
fn goes(hub: &mut Hub<Global>, ns: u32, exits: &[Row]) -> bool {
    does(hub, ns, exits) && hub.retire(ns) == Ok(())
}

fn done(reply: Reply) -> Answer {
    Answer::Done(reply)
}

// A process with a pipe, which puts so many bytes into it.
fn writes(alloc: Global, count: usize) -> Result<Vec<Row>, AllocError> {
    let payload = ByteString::new(alloc, Vec::from_elem(alloc, 7u8, count)?)?;
    let pipe = Step::Pipe {
        pid: 1,
        nonblock: false,
    };
    let write = Step::Write {
        pid: 1,
        fd: 1,
        payload,
    };
    let rows = vec![in alloc;
        (spawn(), done(Reply::Pid(1))),
        (pipe, done(Reply::Fds(0, 1))),
        (write, done(Reply::Num(count as u64))),
    ]?;
    Ok(rows)
}

// The first process reads up to 100 bytes, and there is one.
fn reads_one(alloc: Global) -> Result<Row, AllocError> {
    let read = Step::Read {
        pid: 1,
        fd: 0,
        n: 100,
    };
    Ok((
        read,
        done(Reply::Bytes(ByteString::from_slice(alloc, &[7])?)),
    ))
}

// The first process makes a FIFO.
fn makes_file(alloc: Global) -> Result<Row, AllocError> {
    let path = ByteString::from_slice(alloc, b"/f")?;
    let make = Step::Mkfifo {
        pid: 1,
        path,
        mode: 0o600,
    };
    Ok((make, done(Reply::Num(0))))
}

fn exits() -> [Row; 1] {
    [(Step::Exit { pid: 1 }, done(Reply::Num(0)))]
}

// Red has 16 of 17 frames. One frame is left for others until red is retired, whose 16 are for grey then.
fn comings(alloc: Global) -> Result<Vec<Event<Global>>, Fail> {
    let (one, two, sixteen) = (reserving(1)?, reserving(2)?, reserving(16)?);
    let events = vec![in alloc;
        Event::Step(0, spawn()),
        Event::Admit(two, alloc),
        Event::Admit(one, alloc),
        Event::Step(0, Step::Exit { pid: 1 }),
        Event::Retire(0),
        Event::Admit(sixteen, alloc),
        Event::Step(1, spawn()),
        Event::Retire(1),
        Event::Step(0, spawn()),
        Event::Step(3, spawn()),
    ]?;
    Ok(events)
}

fn answers_to_comings(alloc: Global) -> Result<Vec<EventAnswer>, AllocError> {
    let answers = vec![in alloc;
        EventAnswer::Answer(done(Reply::Pid(1))),
        EventAnswer::NotAdmitted(AdmitFault::NoRoom { slack: 1 }),
        EventAnswer::Admitted(1),
        EventAnswer::Answer(done(Reply::Num(0))),
        EventAnswer::Retired,
        EventAnswer::Admitted(2),
        EventAnswer::Answer(done(Reply::Pid(1))),
        EventAnswer::NotRetired(RetireFault::Alive { processes: 1 }),
        EventAnswer::Gone,
        EventAnswer::Gone,
    ]?;
    Ok(answers)
}

// Whether these events are answered so.
fn answers(hub: &mut Hub<Global>, events: Vec<Event<Global>>, wanted: &[EventAnswer]) -> bool {
    match hub.run_events(events) {
        Ok(told) => told.as_slice() == wanted,
        Err(_) => false,
    }
}

#[test]
fn a_reservation_is_free_when_its_namespace_is_retired(rt: HostRuntime) -> Result<(), Fail> {
    let alloc = rt.alloc();
    let (events, wanted) = (comings(alloc)?, answers_to_comings(alloc)?);
    let sixteen = reserving(16)?;
    let mut hub = opened(alloc, 17, 1, sixteen)?;
    assert!(rt; answers(&mut hub, events, &wanted));
    assert!(rt; hub.living() == 2 && hub.namespaces() == 3 && hub.free() == 17);
    assert!(rt; !hub.lives(0) && hub.lives(1) && hub.lives(2) && !hub.lives(3));
    Ok(())
}

#[test]
fn an_admitted_namespace_sees_no_byte_of_a_retired_one(rt: HostRuntime) -> Result<(), Fail> {
    let alloc = rt.alloc();
    let (fills, mut asks) = (writes(alloc, 4_096)?, writes(alloc, 1)?);
    asks.push(reads_one(alloc)?)?;
    let one = reserving(1)?;
    let mut hub = opened(alloc, 1, 1, one)?;
    assert!(rt; does(&mut hub, 0, &fills) && hub.held(0) == 1 && hub.free() == 0);
    assert!(rt; goes(&mut hub, 0, &exits()) && hub.held(0) == 0 && hub.free() == 1);
    assert!(rt; hub.admit(one, alloc) == Ok(1));
    assert!(rt; does(&mut hub, 1, &asks));
    Ok(())
}

// Whether namespaces of these limits are admitted until no more may live, the first under the number 1.
fn admits(alloc: Global, hub: &mut Hub<Global>, limits: Config) -> bool {
    for ns in 1..PLACES {
        if hub.admit(limits, alloc) != Ok(ns) {
            return false;
        }
    }
    true
}

// Whether the first namespace has a process and a child of it.
fn two_live(hub: &mut Hub<Global>) -> bool {
    let fork = (Step::Fork { pid: 1 }, done(Reply::Pid(2)));
    does(hub, 0, &[(spawn(), done(Reply::Pid(1))), fork])
}

#[test]
fn faults_of_those_who_come_and_go_are_told_in_order(rt: HostRuntime) -> Result<(), Fail> {
    let alloc = rt.alloc();
    let (none, one) = (reserving(0)?, reserving(1)?);
    let (two, three) = (reserving(2)?, reserving(3)?);
    let mut hub = opened(alloc, 3, 1, one)?;
    assert!(rt; hub.admit(three, alloc) == no_room(2));
    assert!(rt; two_live(&mut hub) && hub.retire(0) == alive(2) && hub.retire(1) == NOBODY);
    assert!(rt; admits(alloc, &mut hub, none) && hub.admit(three, alloc) == TOO_MANY);
    assert!(rt; hub.retire(1) == Ok(()) && hub.retire(1) == NOBODY);
    assert!(rt; hub.admit(three, alloc) == no_room(2) && hub.admit(two, alloc) == Ok(PLACES));
    drop(hub);
    Ok(())
}

// Whether all that a hub opens with are told what they are to be told.
fn all_do(hub: &mut Hub<Global>, rows: &[Row]) -> bool {
    for ns in 0..PLACES {
        if !does(hub, ns, rows) {
            return false;
        }
    }
    true
}

// Whether, for each number that is left, the one that came first goes, and another takes its frame.
fn all_change(
    alloc: Global,
    hub: &mut Hub<Global>,
    limits: Config,
    rows: &[Row],
    exits: &[Row],
) -> bool {
    for ns in PLACES..NUMBERS {
        if !goes(hub, ns - PLACES, exits) || hub.admit(limits, alloc) != Ok(ns) {
            return false;
        }
        if !does(hub, ns, rows) || hub.free() != 0 {
            return false;
        }
    }
    true
}

// Whether the last ones go.
fn all_go(hub: &mut Hub<Global>, exits: &[Row]) -> bool {
    for ns in NUMBERS - PLACES..NUMBERS {
        if !goes(hub, ns, exits) {
            return false;
        }
    }
    true
}

#[test]
fn numbers_come_to_an_end(rt: HostRuntime) -> Result<(), Fail> {
    let alloc = rt.alloc();
    let mut stays = writes(alloc, 1)?;
    stays.push(makes_file(alloc)?)?;
    let (none, one) = (reserving(0)?, reserving(1)?);
    let mut hub = opened(alloc, PLACES, PLACES, one)?;
    assert!(rt; all_do(&mut hub, &stays) && hub.free() == 0 && hub.living() == PLACES);
    assert!(rt; all_change(alloc, &mut hub, one, &stays, &exits()));
    assert!(rt; all_go(&mut hub, &exits()) && hub.free() == PLACES && hub.living() == 0);
    assert!(rt; hub.admit(none, alloc) == TOO_MANY && hub.namespaces() == 1_024);
    Ok(())
}
