//! Whoever does what a script's lines say one by one, and what they are told by it.

use crate::end::End;
use crate::row::Row;
use crate::told::Told;
use pf_base::{Config, EventAnswer, RetireFault, Step};
use pf_script::{Line, Script};
use std::alloc::Global;

/// Has namespaces, and makes their steps.
pub(crate) trait Host {
    /// Makes a step of the namespace of this number, if it lives.
    fn make(&mut self, ns: u32, step: &Step) -> Result<EventAnswer, End>;

    /// A namespace of these limits comes.
    fn comes(&mut self, config: Config) -> Result<EventAnswer, End>;

    /// The namespace of this number goes.
    fn goes(&mut self, ns: u32) -> Result<EventAnswer, End>;
}

/// Has a namespace come that a line admits. Its number is kept, if it has one.
fn come<H: Host>(
    host: &mut H,
    script: &Script,
    ns: u32,
    told: &mut Told,
) -> Result<EventAnswer, End> {
    if ns as usize >= script.count_spaces() {
        return Err(End::NoScript);
    }
    let answer = host.comes(script.config(ns as usize))?;
    told.numbers.push(match answer {
        EventAnswer::Admitted(number) => Some(number),
        _ => None,
    })?;
    Ok(answer)
}

/// Has a host do what a line of this namespace says.
fn make_one<H: Host>(
    host: &mut H,
    script: &Script,
    ns: u32,
    line: &Line,
    told: &mut Told,
) -> Result<EventAnswer, End> {
    let number = told.number_of(script, ns);
    match (line, number) {
        (Line::Step(step), Some(number)) => host.make(number, step),
        (Line::Step(_), None) => Ok(EventAnswer::Gone),
        (Line::Admit, _) => come(host, script, ns, told),
        (Line::Retire, Some(number)) => host.goes(number),
        (Line::Retire, None) => Ok(EventAnswer::NotRetired(RetireFault::NoSuchNamespace)),
    }
}

/// Has a host do what lines of a row's script say.
fn make_each<H: Host>(
    alloc: Global,
    row: &Row<'_>,
    script: &Script,
    host: &mut H,
    lines: &[(u32, Line)],
    told: &mut Told,
) -> Result<(), End> {
    for (ns, line) in lines {
        let place = told.answers.len();
        let write = row.write_of(alloc, line)?;
        let line = write.as_ref().unwrap_or(line);
        row.give_sign_at(alloc, place)?;
        let answer = make_one(host, script, *ns, line, told);
        row.give_sign_at(alloc, place)?;
        told.answers.push(answer?)?;
    }
    Ok(())
}

/// Has a guest of these limits come, make its steps and those of others, and go. Each time, another one comes behind
/// it: that one is told whether there is room, and which number is the next.
fn have_guest<H: Host>(
    alloc: Global,
    row: &Row<'_>,
    script: &Script,
    host: &mut H,
    guest: (u32, Config),
    lines: &[(u32, Line)],
    told: &mut Told,
) -> Result<(), End> {
    let (ns, config) = guest;
    row.give_sign_of(alloc, Row::COMES)?;
    let comes = host.comes(config);
    row.give_sign_of(alloc, Row::COMES)?;
    told.comings.push(comes?)?;
    told.comings.push(host.comes(config)?)?;
    make_each(alloc, row, script, host, lines, told)?;
    row.give_sign_of(alloc, Row::GOES)?;
    let goes = host.goes(ns);
    row.give_sign_of(alloc, Row::GOES)?;
    told.comings.push(goes?)?;
    told.comings.push(host.comes(config)?)?;
    Ok(())
}

/// The place of a namespace's first line, or behind all where it has none.
pub(crate) fn first_of(lines: &[(u32, Line)], ns: u32) -> usize {
    for (place, event) in lines.iter().enumerate() {
        if event.0 == ns {
            return place;
        }
    }
    lines.len()
}

/// Has a host do what the lines of a row's script say. A guest comes before its first step, and goes behind the last
/// one of all.
pub(crate) fn make_all<H: Host>(
    alloc: Global,
    row: &Row<'_>,
    script: &Script,
    host: &mut H,
    told: &mut Told,
) -> Result<(), End> {
    let lines = script.steps();
    let Some(guest) = row.guest(script) else {
        return make_each(alloc, row, script, host, lines, told);
    };
    let (before, after) = lines.split_at(first_of(lines, guest.0).min(lines.len()));
    make_each(alloc, row, script, host, before, told)?;
    have_guest(alloc, row, script, host, guest, after, told)
}
