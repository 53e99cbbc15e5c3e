//! A tenant that moves to another hub: its steps so far are played again there.

use crate::house::House;
use crate::trouble::Trouble;
use pf_base::EventAnswer;
use pf_script::{Collected, Line, MemoryBytes, Script, print, read_script};
use std::alloc::Global;

/// What the frames hold at the start where the tenant begins, and where it goes on.
const FILLS: [u8; 2] = [165, 90];

/// The script of this text.
fn script_of(alloc: Global, text: &str) -> Result<Script, Trouble> {
    read_script(alloc, &mut MemoryBytes::new(text.as_bytes())).map_err(Trouble::Refused)
}

/// Makes these steps of the tenant, and pushes what it is told.
fn make(
    house: &mut House<'_>,
    steps: &[(u32, Line)],
    told: &mut Vec<EventAnswer>,
) -> Result<(), Trouble> {
    for (_, line) in steps {
        told.push(house.tell(line)?)?;
    }
    Ok(())
}

/// Makes these steps of the tenant, which was told this elsewhere: it is told the same here.
fn make_again(
    house: &mut House<'_>,
    steps: &[(u32, Line)],
    told: &[EventAnswer],
) -> Result<(), Trouble> {
    for (place, ((_, line), answer)) in steps.iter().zip(told).enumerate() {
        if house.tell(line)? != *answer {
            return Err(Trouble::Otherwise(place));
        }
    }
    Ok(())
}

/// Goes on with the rest of the steps on a hub whose neighbour has left its bytes in the frames.
fn go_on(
    house: &mut House<'_>,
    first: &[(u32, Line)],
    rest: &[(u32, Line)],
    told: &mut Vec<EventAnswer>,
) -> Result<(), Trouble> {
    house.load_whole()?;
    make_again(house, first, told)?;
    make(house, rest, told)
}

/// The first half of a script's steps, and the rest.
fn halves(script: &Script) -> (&[(u32, Line)], &[(u32, Line)]) {
    let steps = script.steps();
    steps.split_at(steps.len() / 2)
}

/// Makes the first half of a tenant's steps on one hub. What owns a hub has one way out here: each drops it, which is
/// dear to prove.
fn make_here(
    alloc: Global,
    script: &Script,
    neighbour: &Script,
    told: &mut Vec<EventAnswer>,
) -> Result<(), Trouble> {
    let mut house = House::behind(alloc, script, neighbour, FILLS[0])?;
    make(&mut house, halves(script).0, told)
}

/// Makes the rest of them on another hub.
fn make_there(
    alloc: Global,
    script: &Script,
    neighbour: &Script,
    told: &mut Vec<EventAnswer>,
) -> Result<(), Trouble> {
    let mut house = House::before(alloc, script, neighbour, FILLS[1])?;
    let (first, rest) = halves(script);
    go_on(&mut house, first, rest, told)
}

/// Whether these answers to a script's steps are printed as this text.
fn is_printed(alloc: Global, script: &Script, told: &[EventAnswer], text: &str) -> bool {
    if script.steps().len() != told.len() {
        return false;
    }
    let mut writer = Collected::new(alloc);
    print(&mut writer, script, told, None).is_ok() && writer.as_slice() == text.as_bytes()
}

/// Moves the tenant of the first script in the middle, between hubs where the other two scripts are its neighbours, and
/// looks whether it is told this text. Behind how many steps it moved.
fn move_tenant(alloc: Global, scripts: &[Script], text: &str) -> Result<usize, Trouble> {
    let [script, here, there] = scripts else {
        return Err(Trouble::NoNamespace);
    };
    let mut told = Vec::new(alloc);
    make_here(alloc, script, here, &mut told)?;
    make_there(alloc, script, there, &mut told)?;
    if is_printed(alloc, script, &told, text) {
        Ok(script.steps().len() / 2)
    } else {
        Err(Trouble::Text)
    }
}

/// The same of the texts of the scripts.
pub(crate) fn moved(alloc: Global, texts: [&str; 3], text: &str) -> Result<usize, Trouble> {
    let mut scripts = Vec::new(alloc);
    for script in texts {
        scripts.push(script_of(alloc, script)?)?;
    }
    move_tenant(alloc, &scripts, text)
}
