//! Worked examples in a namespace that is alone over frames of its own, each with how many of them it holds after each
//! step. Where an allocation is made to fail, the step that wanted it is asked for again.

ghost use Rattle.pf_frame.specs.Own.{own_live};
ghost use Rattle.pf_tables.specs.Owns.{Owns};

use crate::scripts::{has_text, is, script_of};
use pf_base::{Answer, BYTES_IN_PLACE, ByteString, Config, EventAnswer, Reply, Step};
use pf_frame::{Frames, OwnFrames};
use pf_play::frames_of;
use pf_script::{Line, Script};
use pf_space::{Space, laws};
use std::alloc::Global;
use std::process::Abort;
use std::test::Fail;

// A script of one namespace, its text, and how many frames are held after each step.
struct Example {
    script: &'static str,
    text: &'static str,
    held: &'static [u32],
}

const HELLO: Example = Example {
    script: "pool 16
space red 16
red spawn 5 5 022
red pipe 1 n
red write 1 1 68656c6c6f
red read 1 0 3
red read 1 0 10
red close 1 1
red read 1 0 10
red exit 1
",
    text: "== red
1: pid 1
2: fds 0 1
3: num 5
4: bytes 3 68656c
5: bytes 2 6c6f
6: num 0
7: bytes 0 -
8: num 0
",
    held: &[0, 0, 1, 1, 0, 0, 0, 0],
};

const NO_READER: Example = Example {
    script: "pool 64
space red 64
red spawn 5 5 022
red pipe 1 n
red close 1 0
red write 1 1 61
red write 1 1 -
",
    text: "== red
1: pid 1
2: fds 0 1
3: num 0
4: err EPIPE
5: num 0
",
    held: &[0, 0, 0, 0, 0],
};

// A process with groups and descriptors comes twice, and each time has what its parent has.
const CHILD: Example = Example {
    script: "pool 16
space red 16
red spawn 5 6 022 7,8,9
red pipe 1 n
red fork 1
red fork 2
red exit 2
red write 3 1 78
red read 1 0 9
red fork 2
red fork 3
",
    text: "== red
1: pid 1
2: fds 0 1
3: pid 2
4: pid 3
5: num 0
6: num 1
7: bytes 1 78
8: err ESRCH
9: pid 2
",
    held: &[0, 0, 0, 0, 0, 1, 0, 0, 0],
};

// A ring grows and shrinks.
const CAPACITY: Example = Example {
    script: "pool 32
space red 32
red spawn 5 5 022
red pipe 1 n
red write 1 1 68656c6c6f
red setsize 1 0 131072
red getsize 1 1
red setsize 1 1 0
red getsize 1 0
red read 1 0 10
",
    text: "== red
1: pid 1
2: fds 0 1
3: num 5
4: num 131072
5: num 131072
6: num 4096
7: num 4096
8: bytes 5 68656c6c6f
",
    held: &[0, 0, 1, 1, 1, 1, 1, 0],
};

// Whether a descriptor may write. It takes no memory, and changes nothing.
fn may_write(space: &mut Space<Global>, frames: &mut OwnFrames, pid: u32, fd: u32) -> bool
    requires owns { Owns (own_live frames.old) space.old }
    ensures owns { Owns (own_live frames.new) space.new }
{
    let payload = ByteString::in_place([0; BYTES_IN_PLACE], 0);
    let nothing = Step::Write { pid, fd, payload };
    let answer = space.step(frames, &nothing);
    drop(nothing);
    is(answer, &Answer::Done(Reply::Num(0)))
}

// Which of the first descriptors of the first two processes may write, and how many frames could still be taken.
fn probed(space: &mut Space<Global>, frames: &mut OwnFrames) -> ([bool; 12], u32)
    requires owns { Owns (own_live frames.old) space.old }
    ensures owns { Owns (own_live frames.new) space.new }
{
    let mut open = [false; 12];
    for i in 0..12usize {
        open[i] = may_write(space, frames, i as u32 / 6 + 1, i as u32 % 6);
    }
    (open, frames.credits())
}

// A step's answer. Where memory is refused, nothing has changed, and the step is asked for again.
fn answered(
    rt: &impl Abort,
    space: &mut Space<Global>,
    frames: &mut OwnFrames,
    step: &Step,
) -> Answer
    requires owns { Owns (own_live frames.old) space.old }
    ensures owns { Owns (own_live frames.new) space.new }
{
    let before = probed(space, frames);
    match space.step(frames, step) {
        Answer::NoMemory => {
            assert!(rt; probed(space, frames) == before);
            space.step(frames, step)
        }
        answer => answer,
    }
}

// Makes an example's steps: each leaves so many frames held.
fn answer_all(
    rt: &impl Abort,
    space: &mut Space<Global>,
    frames: &mut OwnFrames,
    script: &Script,
    held: &[u32],
    answers: &mut Vec<EventAnswer>,
) -> Result<(), Fail>
    requires owns { Owns (own_live frames.old) space.old }
{
    let all = frames.credits();
    for ((_, line), held) in script.steps().iter().zip(held) {
        if let Line::Step(step) = line {
            answers.push(EventAnswer::Answer(answered(rt, space, frames, step)))?;
        }
        assert!(rt; frames.credits() == all.saturating_sub(*held));
    }
    Ok(())
}

// Plays an example in a namespace that is alone, over frames that hold this byte throughout.
fn play(rt: &impl Abort, alloc: Global, example: &Example, fill: u8) -> Result<(), Fail> {
    let script = script_of(alloc, example.script)?;
    let told = play_over(rt, alloc, &script, example, fill);
    drop(script);
    told
}

fn play_over(
    rt: &impl Abort,
    alloc: Global,
    script: &Script,
    example: &Example,
    fill: u8,
) -> Result<(), Fail> {
    assert!(rt; script.count_spaces() == 1 && script.steps().len() == example.held.len());
    let config = script.config(0);
    let mut frames = OwnFrames::new(alloc, frames_of(alloc, config.reserve(), fill)?)?;
    let mut space = Space::new(alloc, alloc, config)?;
    let mut answers = Vec::new(alloc);
    let told = answer_all(
        rt,
        &mut space,
        &mut frames,
        script,
        example.held,
        &mut answers,
    );
    assert!(rt; told.is_err() || has_text(alloc, script, &answers, example.text));
    drop(answers);
    drop(space);
    drop(frames);
    told
}

// A namespace's crate hands on the law of its streams, which computes nothing.
#[test]
fn law_of_streams_is_handed_on(rt: HostRuntime) -> Result<(), Fail> {
    let config = Config::new(
        16,
        Config::DEFAULT_SOFT,
        Config::DEFAULT_HARD,
        Config::DEFAULT_MAX,
    )?;
    laws::stream(&config, &[Step::Exit { pid: 1 }]);
    Ok(())
}

#[test]
fn bytes_over_each_fill(rt: HostRuntime) -> Result<(), Fail> {
    for fill in [0, 165, 255] {
        play(&rt, rt.alloc(), &HELLO, fill)?;
        play(&rt, rt.alloc(), &NO_READER, fill)?;
    }
    Ok(())
}

#[test]
fn a_ring_grows_and_shrinks(rt: HostRuntime) -> Result<(), Fail> {
    play(&rt, rt.alloc(), &CAPACITY, 165)
}

#[test]
fn a_child_has_what_its_parent_has(rt: HostRuntime) -> Result<(), Fail> {
    play(&rt, rt.alloc(), &CHILD, 165)
}
