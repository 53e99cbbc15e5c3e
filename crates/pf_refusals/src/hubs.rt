//! Rows that a hub plays.

use crate::end::End;
use crate::host::{Host, first_of, make_all};
use crate::row::{Row, Way};
use crate::scripts::{configs_of, frames_of};
use crate::slices::BySlices;
use crate::told::{Told, admission, retirement};
use pf_base::{AdmitFault, Answer, Config, EventAnswer, Step};
use pf_hub::{Event, EventFault, Hub, RunFault};
use pf_script::{Line, Script};
use std::alloc::Global;

/// A hub that makes steps one by one.
#[derive(Drop)]
struct Single<'a> {
    alloc: Global,
    hub: &'a mut Hub<Global>,
}

impl Host for Single<'_> {
    fn make(&mut self, ns: u32, step: &Step) -> Result<EventAnswer, End> {
        if !self.hub.lives(ns) {
            return Ok(EventAnswer::Gone);
        }
        Ok(EventAnswer::Answer(self.hub.step(ns, step)))
    }

    fn comes(&mut self, config: Config) -> Result<EventAnswer, End> {
        Ok(admission(self.hub.admit(config, self.alloc)))
    }

    fn goes(&mut self, ns: u32) -> Result<EventAnswer, End> {
        Ok(retirement(self.hub.retire(ns)))
    }
}

/// Copies of a script's steps.
fn steps_of(alloc: Global, script: &Script) -> Result<Vec<(u32, Step)>, End> {
    let mut steps = Vec::new(alloc);
    for (ns, line) in script.steps() {
        let Line::Step(step) = line else {
            return Err(End::NoScript);
        };
        steps.push((*ns, step.copy(alloc)?))?;
    }
    Ok(steps)
}

/// Has a hub make all steps at once. Where it stops, those that have no answer count as refused.
fn run_all(
    alloc: Global,
    script: &Script,
    hub: &mut Hub<Global>,
    told: &mut Told,
) -> Result<(), End> {
    let steps = steps_of(alloc, script)?;
    let answers = match hub.run(&steps) {
        Ok(answers) | Err(RunFault::NoMemory { answers }) => answers,
        Err(RunFault::NoSuchNamespace { .. }) => return Err(End::NoScript),
    };
    for answer in answers {
        told.answers.push(EventAnswer::Answer(answer))?;
    }
    for _ in told.answers.len()..steps.len() {
        told.answers.push(EventAnswer::Answer(Answer::NoMemory))?;
    }
    Ok(())
}

/// Adds steps to a list of events.
fn add_steps(
    alloc: Global,
    lines: &[(u32, Line)],
    events: &mut Vec<Event<Global>>,
) -> Result<(), End> {
    for (ns, line) in lines {
        let Line::Step(step) = line else {
            return Err(End::NoScript);
        };
        events.push(Event::Step(*ns, step.copy(alloc)?))?;
    }
    Ok(())
}

/// Adds what happens in a row with this guest, which comes in front of the step of this place.
fn add_all(
    alloc: Global,
    lines: &[(u32, Line)],
    comes: usize,
    guest: (u32, Config),
    events: &mut Vec<Event<Global>>,
) -> Result<(), End> {
    let (before, after) = lines.split_at(comes.min(lines.len()));
    let (ns, config) = guest;
    add_steps(alloc, before, events)?;
    events.push(Event::Admit(config, alloc))?;
    events.push(Event::Admit(config, alloc))?;
    add_steps(alloc, after, events)?;
    events.push(Event::Retire(ns))?;
    events.push(Event::Admit(config, alloc))?;
    Ok(())
}

/// Adds what an event was told.
fn add_answer(answer: EventAnswer, told: &mut Told) -> Result<(), End> {
    match answer {
        EventAnswer::Answer(_) => told.answers.push(answer)?,
        EventAnswer::Gone => return Err(End::NoScript),
        coming => told.comings.push(coming)?,
    }
    Ok(())
}

/// Adds what so many events were told, of which the guest's are the ones at this place, the next, and the last two.
/// Those that have no answer count as refused.
fn add_answers(
    answers: Vec<EventAnswer>,
    events: usize,
    comes: usize,
    told: &mut Told,
) -> Result<(), End> {
    let answered = answers.len();
    for answer in answers {
        add_answer(answer, told)?;
    }
    for place in answered..events {
        let is_guests = place == comes || place == comes.saturating_add(1);
        if is_guests || events.saturating_sub(place) <= 2 {
            told.comings
                .push(EventAnswer::NotAdmitted(AdmitFault::NoMemory))?;
        } else {
            told.answers.push(EventAnswer::Answer(Answer::NoMemory))?;
        }
    }
    Ok(())
}

/// Has a hub make all steps at once, and a guest come and go among them. The requests of that are counted, and none
/// before.
fn run_events(
    alloc: Global,
    row: &Row<'_>,
    script: &Script,
    hub: &mut Hub<Global>,
    told: &mut Told,
) -> Result<(), End> {
    let Some(guest) = row.guest(script) else {
        return Err(End::NoScript);
    };
    let comes = first_of(script.steps(), guest.0);
    let mut events = Vec::new(alloc);
    add_all(alloc, script.steps(), comes, guest, &mut events)?;
    let count = events.len();
    let begun = row.give_sign(alloc);
    let end = hub.run_events(events);
    let ended = row.give_sign(alloc);
    match end {
        Ok(answers) | Err(EventFault::NoMemory { answers }) => {
            add_answers(answers, count, comes, told)?;
        }
    }
    begun?;
    ended
}

/// Has a hub make the steps of a row's script.
fn make(
    alloc: Global,
    row: &Row<'_>,
    script: &Script,
    hub: &mut Hub<Global>,
    told: &mut Told,
) -> Result<(), End> {
    match row.way {
        Way::Run => run_all(alloc, script, hub, told),
        Way::Slices => make_all(
            alloc,
            row,
            script,
            &mut BySlices::new(alloc, row, hub),
            told,
        ),
        Way::GuestEvents => run_events(alloc, row, script, hub, told),
        _ => make_all(alloc, row, script, &mut Single { alloc, hub }, told),
    }
}

/// Has a hub of a row's namespaces make its steps. What owns a hub hands it on, with one way out: each drops it, which
/// is dear to prove.
pub(crate) fn play(
    alloc: Global,
    row: &Row<'_>,
    script: &Script,
    told: &mut Told,
) -> Result<(), End> {
    let frames = frames_of(alloc, script.frames())?;
    let configs = configs_of(alloc, row, script)?;
    let mut hub = Hub::new(alloc, frames, configs)?;
    make(alloc, row, script, &mut hub, told)
}
