//! Files whose tree stands in memory of its own, in an arena that is as good as full: each of the tree's growths
//! is refused in turn. Where an allocation is refused, nothing has changed, and the step is asked for again.

ghost use Rattle.pf_frame.specs.Own.{own_live};
ghost use Rattle.pf_tables.specs.Owns.{Owns};

use crate::scripts::{has_text, script_of};
use bumpalo::Bump;
use pf_base::{Answer, Config, EventAnswer, Step};
use pf_frame::OwnFrames;
use pf_script::{Line, Script};
use pf_space::Space;
use std::alloc::{AllocError, Allocator, Global};
use std::process::Abort;
use std::test::Fail;

// What one process asks for, in turn.
const SCRIPT: &str = "pool 1
space red 1
red spawn 5 6 022
red list 1 /
red mkdir 1 /d 0777
red mkfifo 1 /d/b 0666
red mkfifo 1 /d/a 0666
red mkfifo 1 /d/a 0666
red mkdir 1 /d/e/ 0777
red mkfifo 1 /d/e/./../c 0666
red mkfifo 1 /d/n/f 0666
red list 1 /d
red stat 1 /d/../d/b
red stat 1 /d/e
";

const TEXT: &str = "== red
1: pid 1
2: names 0
3: num 0
4: num 0
5: num 0
6: err EEXIST
7: num 0
8: num 0
9: err ENOENT
10: names 4 a b c e
11: meta fifo 0644 5 6
12: meta dir 0755 5 6
";

// What shows the files as they are.
const PROBES: &str = "pool 1
space red 1
red list 1 /
red list 1 /d
red list 1 /d/e
red stat 1 /d
red stat 1 /d/a
red stat 1 /d/b
red stat 1 /d/c
";

// The answers to the steps that show the files.
fn seen<A: Allocator + Clone>(
    alloc: Global,
    probes: &Script,
    space: &mut Space<A>,
    frames: &mut OwnFrames,
) -> Result<Vec<Answer>, AllocError>
    requires owns { Owns (own_live frames.old) space.old }
    ensures owns { Owns (own_live frames.new) space.new }
{
    let mut answers = Vec::new(alloc);
    for (_, line) in probes.steps() {
        if let Line::Step(step) = line {
            answers.push(space.step(frames, step))?;
        }
    }
    Ok(answers)
}

// Leaves so many bytes of an arena's chunk, and none behind it.
fn leave(bump: &Bump, filler: &[u8], spare: usize) -> Result<(), AllocError> {
    let left = bump.chunk_capacity().saturating_sub(spare);
    if let Some(bytes) = filler.get(..left) {
        bump.try_alloc_slice_copy(bytes)?;
    }
    bump.set_allocation_limit(Some(0));
    Ok(())
}

// Whether the files are shown as they were.
fn is_unchanged<A: Allocator + Clone>(
    alloc: Global,
    probes: &Script,
    space: &mut Space<A>,
    frames: &mut OwnFrames,
    before: &[Answer],
) -> Result<bool, AllocError>
    requires owns { Owns (own_live frames.old) space.old }
    ensures owns { Owns (own_live frames.new) space.new }
{
    let now = seen(alloc, probes, space, frames)?;
    Ok(now.as_slice() == before)
}

// Makes a step, and puts its answer to the others. Tells whether memory was refused: then nothing has changed, and the
// step is asked for again; an arena, if the files stand in one, has all its memory then.
fn makes<A: Allocator + Clone>(
    rt: &impl Abort,
    alloc: Global,
    arena: Option<&Bump>,
    probes: &Script,
    space: &mut Space<A>,
    frames: &mut OwnFrames,
    step: &Step,
    answers: &mut Vec<EventAnswer>,
) -> Result<bool, Fail>
    requires owns { Owns (own_live frames.old) space.old }
    ensures owns { Owns (own_live frames.new) space.new }
{
    let before = seen(alloc, probes, space, frames)?;
    let answer = space.step(frames, step);
    let is_refused = matches!(&answer, Answer::NoMemory);
    if !is_refused {
        drop(before);
        answers.push(EventAnswer::Answer(answer))?;
        return Ok(is_refused);
    }
    let is_unchanged = is_unchanged(alloc, probes, space, frames, &before);
    drop((before, answer));
    assert!(rt; is_unchanged?);
    if let Some(bump) = arena {
        bump.set_allocation_limit(None);
    }
    answers.push(EventAnswer::Answer(space.step(frames, step)))?;
    Ok(is_refused)
}

// Makes all steps of a script, and tells how often memory was refused.
fn makes_all<A: Allocator + Clone>(
    rt: &impl Abort,
    alloc: Global,
    arena: Option<&Bump>,
    script: &Script,
    probes: &Script,
    space: &mut Space<A>,
    frames: &mut OwnFrames,
    answers: &mut Vec<EventAnswer>,
) -> Result<u32, Fail>
    requires owns { Owns (own_live frames.old) space.old }
{
    let mut refusals: u32 = 0;
    for (_, line) in script.steps() {
        if let Line::Step(step) = line {
            let is_refused = makes(rt, alloc, arena, probes, space, frames, step, answers)?;
            refusals = refusals.saturating_add(u32::from(is_refused));
        }
    }
    Ok(refusals)
}

// The same in a namespace whose tree stands in memory of this allocator. It has the text.
fn play_over<A: Allocator + Clone>(
    rt: &impl Abort,
    alloc: Global,
    tree: A,
    arena: Option<&Bump>,
    script: &Script,
    probes: &Script,
) -> Result<u32, Fail> {
    let config = Config::new(
        0,
        Config::DEFAULT_SOFT,
        Config::DEFAULT_HARD,
        Config::DEFAULT_MAX,
    )?;
    let mut frames = OwnFrames::new(alloc, Vec::new(alloc))?;
    let mut space = Space::new(alloc, tree, config)?;
    let mut answers = Vec::new(alloc);
    let refusals = makes_all(
        rt,
        alloc,
        arena,
        script,
        probes,
        &mut space,
        &mut frames,
        &mut answers,
    );
    drop(space);
    drop(frames);
    assert!(rt; refusals.is_err() || has_text(alloc, script, &answers, TEXT));
    drop(answers);
    refusals
}

// The same with the script, behind what shows the files.
fn play_shown<A: Allocator + Clone>(
    rt: &impl Abort,
    alloc: Global,
    tree: A,
    arena: Option<&Bump>,
    probes: &Script,
) -> Result<u32, Fail> {
    let script = script_of(alloc, SCRIPT)?;
    let refusals = play_over(rt, alloc, tree, arena, &script, probes);
    drop(script);
    refusals
}

#[test]
fn files_under_global(rt: HostRuntime) -> Result<(), Fail> {
    let alloc = rt.alloc();
    let probes = script_of(alloc, PROBES)?;
    let refusals = play_shown(&rt, alloc, alloc, None, &probes);
    drop(probes);
    refusals?;
    Ok(())
}

// How often memory is refused with so many bytes of an arena.
fn refusals_of(rt: &impl Abort, alloc: Global, probes: &Script, spare: usize) -> Result<u32, Fail> {
    let bump = Bump::try_with_capacity(alloc, 2000)?;
    leave(&bump, &Vec::from_elem(alloc, 0, 4096)?, spare)?;
    play_shown(rt, alloc, &bump, Some(&bump), probes)
}

// The same with what shows the files.
fn refusals(rt: &impl Abort, alloc: Global, spare: usize) -> Result<u32, Fail> {
    let probes = script_of(alloc, PROBES)?;
    let refusals = refusals_of(rt, alloc, &probes, spare);
    drop(probes);
    refusals
}

// With ever more bytes a later growth is the first that is refused; with enough of them none is.
#[test]
fn files_in_a_full_arena(rt: HostRuntime) -> Result<(), Fail> {
    let mut told = Vec::new(rt.alloc());
    for spare in 0..200 {
        told.push(refusals(&rt, rt.alloc(), 8 * spare)?)?;
    }
    assert!(rt; (told.first(), told.last()) == (Some(&1), Some(&0)));
    Ok(())
}
