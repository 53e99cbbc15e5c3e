//! How a hub is opened, how it runs events, and which bounds of replies it tells.

use crate::scripts::{has_text, script_of, spawn};
use pf_base::{Answer, ByteString, Config, EventAnswer, Reply, Step};
use pf_frame::{Frame, PoolFault};
use pf_hub::{Hub, RunFault};
use pf_script::{Line, Script};
use std::alloc::{AllocError, Global};
use std::test::Fail;

const RED: u32 = 0;

const BLUE: u32 = 1;

// A process with a pipe in each of two namespaces.
const PIPES: &str = "pool 32
space red 16
space blue 16
red spawn 5 5 022
red pipe 1 n
blue spawn 5 5 022
blue pipe 1 n
";

const PIPES_TEXT: &str = "== red
1: pid 1
2: fds 0 1
== blue
1: pid 1
2: fds 0 1
";

// So many frames of zeros.
fn frames(alloc: Global, count: usize) -> Result<Vec<Frame>, AllocError> {
    let mut frames = Vec::new(alloc);
    for _ in 0..count {
        frames.push(Frame::filled(alloc, 0)?)?;
    }
    Ok(frames)
}

// A hub with a namespace of each of these reservations.
fn open(alloc: Global, frames: Vec<Frame>, reserves: &[u32]) -> Result<Hub<Global>, PoolFault> {
    let mut configs = Vec::new(alloc);
    for reserve in reserves {
        let Ok(config) = Config::new(
            *reserve,
            Config::DEFAULT_SOFT,
            Config::DEFAULT_HARD,
            Config::DEFAULT_MAX,
        ) else {
            return Err(PoolFault::NoMemory);
        };
        if configs.push((config, alloc)).is_err() {
            return Err(PoolFault::NoMemory);
        }
    }
    Hub::new(alloc, frames, configs)
}

fn held(hub: &Hub<Global>) -> (u32, u32, u32) {
    (hub.held(RED), hub.held(BLUE), hub.free())
}

// Whether a script's steps are made and take no frame. Their answers are put to the others.
fn makes_all(
    hub: &mut Hub<Global>,
    script: &Script,
    answers: &mut Vec<EventAnswer>,
) -> Result<bool, AllocError> {
    for (ns, line) in script.steps() {
        let Line::Step(step) = line else {
            return Ok(false);
        };
        if !hub.lives(*ns) {
            return Ok(false);
        }
        answers.push(EventAnswer::Answer(hub.step(*ns, step)))?;
        if held(hub) != (0, 0, 32) {
            return Ok(false);
        }
    }
    Ok(true)
}

// Plays a script whose steps take no frame, and says whether it has this text.
fn plays(alloc: Global, hub: &mut Hub<Global>, lines: &str, text: &str) -> Result<bool, Fail> {
    let script = script_of(alloc, lines)?;
    let mut answers = Vec::new(alloc);
    let made = makes_all(hub, &script, &mut answers);
    let plays = made == Ok(true) && has_text(alloc, &script, &answers, text);
    drop((script, answers));
    Ok(plays)
}

// Copies of a script's steps.
fn steps_of(alloc: Global, script: &Script) -> Result<Vec<(u32, Step)>, AllocError> {
    let mut steps = Vec::new(alloc);
    for (ns, line) in script.steps() {
        if let Line::Step(step) = line {
            steps.push((*ns, step.copy(alloc)?))?;
        }
    }
    Ok(steps)
}

// These answers as those to events.
fn as_events(alloc: Global, answers: Vec<Answer>) -> Result<Vec<EventAnswer>, AllocError> {
    answers
        .into_iter()
        .map(|answer| EventAnswer::Answer(answer))
        .collect(alloc)
}

// What a hub tells of a script's steps as it runs them, or nothing where it stops.
fn told(
    alloc: Global,
    hub: &mut Hub<Global>,
    script: &Script,
) -> Result<Vec<EventAnswer>, AllocError> {
    let steps = steps_of(alloc, script)?;
    let told = hub.run(&steps);
    drop(steps);
    match told {
        Ok(answers) => as_events(alloc, answers),
        Err(_) => Ok(Vec::new(alloc)),
    }
}

// Runs a script's steps, and says whether it has this text.
fn runs(alloc: Global, hub: &mut Hub<Global>, lines: &str, text: &str) -> Result<bool, Fail> {
    let script = script_of(alloc, lines)?;
    let runs = match told(alloc, hub, &script) {
        Ok(answers) => has_text(alloc, &script, &answers, text),
        Err(AllocError) => false,
    };
    drop(script);
    Ok(runs)
}

// How many frames, which reservations, and why there is no hub of both.
const REFUSED: [(usize, &[u32], PoolFault); 3] = [
    (0, &[1; 65], PoolFault::TooManyNamespaces),
    (65_537, &[1], PoolFault::TooManyFrames),
    (
        32,
        &[16, 17],
        PoolFault::ReservesExceed {
            sum: 33,
            frames: 32,
        },
    ),
];

#[test]
fn faults_come_in_order(rt: HostRuntime) -> Result<(), Fail> {
    let alloc = rt.alloc();
    for (count, reserves, fault) in REFUSED {
        let told = open(alloc, frames(alloc, count)?, reserves).err();
        assert!(rt; told == Some(fault), "{fault}");
    }
    Ok(())
}

const RUN: &str = "pool 32
space red 16
space blue 16
red spawn 5 5 022
red pipe 1 n
blue spawn 5 5 022
red write 1 1 61616161616161616161
";

const RUN_TEXT: &str = "== red
1: pid 1
2: fds 0 1
3: num 10
== blue
1: pid 1
";

#[test]
fn runs_answer_in_order(rt: HostRuntime) -> Result<(), Fail> {
    let mut hub = open(rt.alloc(), frames(rt.alloc(), 32)?, &[16, 16])?;
    let runs = runs(rt.alloc(), &mut hub, RUN, RUN_TEXT);
    assert!(rt; held(&hub) == (1, 0, 31));
    drop(hub);
    assert!(rt; runs?);
    Ok(())
}

// A process's pipe holds 20 bytes, of which a child of it waits to read 7. Other children of it wait in an open, in a
// write to a full pipe, in a splice and in a tee. There are two FIFOs.
const WAITS: &str = "pool 18
space red 18
red spawn 5 5 022
red pipe 1
red pipe 1
red fork 1
red fork 1
red fork 1
red fork 1
red fork 1
red mkfifo 1 /f 0600
red mkfifo 1 /g 0600
red read 2 0 7
red open 3 /f r
red write 1 3 4096*61
red write 4 3 61
red splice 5 0 3 9
red tee 6 0 3 9
red write 1 1 20*61
";

const WAITS_TEXT: &str = "== red
1: pid 1
2: fds 0 1
3: fds 2 3
4: pid 2
5: pid 3
6: pid 4
7: pid 5
8: pid 6
9: num 0
10: num 0
11: parked
12: parked
13: num 4096
14: parked
15: parked
16: parked
17: num 20
";

// Steps behind these: reads of more and of less than there is, of the end that is written, by a process that waits and
// by none; a list; a Resume of each child, and of a process that waits for nothing; and an exit.
const ASKS: &str = "pool 18
space red 18
red read 1 0 1000000000000
red read 1 0 5
red read 1 1 5
red read 2 0 5
red read 9 0 5
red list 1 /
red resume 2
red resume 3
red resume 4
red resume 5
red resume 6
red resume 1
red exit 1
";

// How many bytes the reply to each may have: of the names those of two files.
const BOUNDS: [usize; 13] = [20, 5, 0, 0, 0, 512, 7, 0, 0, 0, 0, 0, 0];

// How many bytes the replies to a script's steps may have, as a hub tells it.
fn bounds(alloc: Global, hub: &Hub<Global>, script: &Script) -> Result<Vec<usize>, AllocError> {
    let mut bounds = Vec::new(alloc);
    for (ns, line) in script.steps() {
        if let Line::Step(step) = line {
            if hub.lives(*ns) {
                bounds.push(hub.reply_bound(*ns, step))?;
            }
        }
    }
    Ok(bounds)
}

// Whether a hub with a namespace of 18 frames tells these bounds.
fn tells_bounds(alloc: Global, hub: &mut Hub<Global>) -> Result<bool, Fail> {
    let waits = runs(alloc, hub, WAITS, WAITS_TEXT)?;
    let script = script_of(alloc, ASKS)?;
    let told = bounds(alloc, hub, &script);
    drop(script);
    let tells = match &told {
        Ok(all) => all.as_slice() == BOUNDS.as_slice(),
        Err(AllocError) => false,
    };
    drop(told);
    Ok(waits && tells)
}

#[test]
fn bounds_of_replies(rt: HostRuntime) -> Result<(), Fail> {
    let alloc = rt.alloc();
    let mut hub = open(alloc, frames(alloc, 18)?, &[18])?;
    let tells = tells_bounds(alloc, &mut hub);
    drop(hub);
    assert!(rt; tells?);
    Ok(())
}

// Writes of 15 bytes, of a page, of many, and of more than one block of digits; behind each a read of as many or of more.
const READS: &str = "pool 64
space red 64
red spawn 5 5 022
red pipe 1
red setsize 1 0 262144
red write 1 1 616161616161616161616161616161
red read 1 0 15
red write 1 1 4096*61
red read 1 0 5000
red write 1 1 200000*61
red read 1 0 1000000
red write 1 1 6161616161616161616161616161616161616161
red read 1 0 20
";

// How many bytes there are, if they stand in memory of their own that has room for just these.
fn exact(bytes: &ByteString) -> usize {
    match bytes.share() {
        Some(_) => bytes.as_slice().len(),
        None => 0,
    }
}

// So many are those of a script's writes.
fn written_exactly(script: &Script) -> usize {
    let mut sum: usize = 0;
    for (_, line) in script.steps() {
        if let Line::Step(Step::Write { payload, .. }) = line {
            sum = sum.saturating_add(exact(payload));
        }
    }
    sum
}

// So many are those of the replies to its steps.
fn read_exactly(hub: &mut Hub<Global>, script: &Script) -> usize {
    let mut sum: usize = 0;
    for (ns, line) in script.steps() {
        if let Line::Step(step) = line {
            if hub.lives(*ns) {
                let answer = hub.step(*ns, step);
                if let Answer::Done(Reply::Bytes(bytes)) = &answer {
                    sum = sum.saturating_add(exact(bytes));
                }
                drop(answer);
            }
        }
    }
    sum
}

const READ: usize = 15 + 4_096 + 200_000 + 20;

#[test]
fn data_has_memory_for_just_its_bytes(rt: HostRuntime) -> Result<(), Fail> {
    let script = script_of(rt.alloc(), READS)?;
    let sum = written_exactly(&script);
    drop(script);
    assert_eq!(rt; sum, READ);
    Ok(())
}

#[test]
fn a_reply_has_memory_for_just_its_bytes(rt: HostRuntime) -> Result<(), Fail> {
    let script = script_of(rt.alloc(), READS)?;
    let mut hub = open(rt.alloc(), frames(rt.alloc(), 64)?, &[64])?;
    let sum = read_exactly(&mut hub, &script);
    drop((hub, script));
    assert_eq!(rt; sum, READ);
    Ok(())
}

// Which of two events names no namespace, where the second one does.
fn stray(alloc: Global, hub: &mut Hub<Global>) -> Result<Option<usize>, AllocError> {
    let events = vec![in alloc; (RED, spawn()), (2, spawn())]?;
    match hub.run(&events) {
        Err(RunFault::NoSuchNamespace { at }) => Ok(Some(at)),
        _ => Ok(None),
    }
}

#[test]
fn no_step_is_made_where_an_event_names_no_namespace(rt: HostRuntime) -> Result<(), Fail> {
    let mut hub = open(rt.alloc(), frames(rt.alloc(), 32)?, &[16, 16])?;
    assert!(rt; stray(rt.alloc(), &mut hub) == Ok(Some(1)));
    assert!(rt; held(&hub) == (0, 0, 32) && hub.held(2) == 0);
    // The first process of the namespace is still to come.
    let plays = plays(rt.alloc(), &mut hub, PIPES, PIPES_TEXT);
    drop(hub);
    assert!(rt; plays?);
    Ok(())
}
