//! Rows that a namespace plays alone, over frames of its own.

ghost use Rattle.pf_frame.specs.Own.{own_live};
ghost use Rattle.pf_tables.specs.Owns.{Owns};

use crate::end::End;
use crate::row::Row;
use crate::scripts::frames_of;
use crate::told::Told;
use pf_base::EventAnswer;
use pf_frame::OwnFrames;
use pf_script::{Line, Script};
use pf_space::Space;
use std::alloc::Global;

/// Has a namespace make one step after the other.
fn make_all(
    alloc: Global,
    row: &Row<'_>,
    script: &Script,
    space: &mut Space<Global>,
    frames: &mut OwnFrames,
    told: &mut Told,
) -> Result<(), End>
    requires owns { Owns (own_live frames.old) space.old }
{
    for (place, (_, line)) in script.steps().iter().enumerate() {
        let Line::Step(step) = line else {
            return Err(End::NoScript);
        };
        row.give_sign_at(alloc, place)?;
        let answer = space.step(frames, step);
        row.give_sign_at(alloc, place)?;
        told.answers.push(EventAnswer::Answer(answer))?;
    }
    Ok(())
}

/// Has a script's one namespace make its steps.
pub(crate) fn play(
    alloc: Global,
    row: &Row<'_>,
    script: &Script,
    told: &mut Told,
) -> Result<(), End> {
    if script.count_spaces() != 1 {
        return Err(End::NoScript);
    }
    let config = script.config(0);
    let mut frames = OwnFrames::new(alloc, frames_of(alloc, config.reserve())?)?;
    let mut space = Space::new(alloc, alloc, config)?;
    make_all(alloc, row, script, &mut space, &mut frames, told)
}
