//! Scripts that are played in each way that a namespace's steps can be made, while one request for memory is refused.
//! Nothing is refused here: `sweep`, at the root of the repository, plays each row with a hook that refuses one request
//! more in turn, and judges what is told. A sign tells the hook which requests are meant. With no words the program
//! plays all rows of its files as they stand, and with a word those of the file that it names.
#![tactic(auto)]

mod alone;
mod end;
mod host;
mod hubs;
mod parking;
mod row;
mod scripts;
mod served;
mod slices;
mod told;
mod workers;

use crate::end::End;
use crate::row::{Row, Way};
use crate::told::Told;
use pf_script::{Script, Writing, print};
use std::alloc::Global;
use std::sync::Wait;
use std::thread::Threads;
use std::{env, fs, io};

/// The files that are played where no word names another.
const FILES: [&str; 9] = [
    "growing.rows",
    "steady.rows",
    "copied.rows",
    "quiet.rows",
    "keeping.rows",
    "whole.rows",
    "coming.rows",
    "going.rows",
    "parking.rows",
];

/// Plays a row's script in its way. The sign is given before all that these ways ask for, where they don't give it
/// beside a step.
fn play<R: Threads + Wait + Sync>(
    rt: &R,
    alloc: Global,
    row: &Row<'_>,
    script: &Script,
    told: &mut Told,
) -> Result<(), End> {
    if matches!(row.way, Way::Run | Way::Calls | Way::Waits) {
        row.give_sign(alloc)?;
    }
    match row.way {
        Way::Space => alone::play(alloc, row, script, told),
        Way::Steps
        | Way::Spare
        | Way::Owned
        | Way::Slices
        | Way::Run
        | Way::GuestSteps
        | Way::GuestEvents => hubs::play(alloc, row, script, told),
        Way::Workers | Way::WorkerSlices | Way::GuestWorkers => {
            workers::play(rt, alloc, row, script, told)
        }
        Way::Calls | Way::Event | Way::Waits | Way::GuestCalls => served::play(
            rt, alloc, row, script, told,
        ),
        Way::Parks => parking::play(rt, alloc, row, script, told),
    }
}

/// Writes what a script's steps are told.
fn write_told(rt: &HostRuntime, script: &Script, told: &Told) -> Result<(), End> {
    let mut writer = Writing::new(io::writer(rt));
    if script.steps().len() != told.answers.len()
        || print(&mut writer, script, &told.answers, None).is_err()
    {
        return Err(End::NoScript);
    }
    for coming in &told.comings {
        if println!(rt; "guest: {coming:?}").is_err() {
            return Err(End::NoScript);
        }
    }
    if told.is_open {
        return Err(End::NotClosed);
    }
    Ok(())
}

/// Plays a script, and writes its text.
fn play_script<R: Threads + Wait + Sync>(
    rt: &HostRuntime,
    shared: &R,
    row: &Row<'_>,
    script: &Script,
    told: &mut Told,
) -> Result<(), End> {
    play(shared, rt.alloc(), row, script, told)?;
    write_told(rt, script, told)
}

/// Plays a row, and writes its text. What owns a script or what was told hands it on, with one way out.
fn play_row<R: Threads + Wait + Sync>(
    rt: &HostRuntime,
    shared: &R,
    row: &Row<'_>,
) -> Result<(), End> {
    let script = row.read(rt.alloc())?;
    let mut told = Told::new(rt.alloc());
    play_script(rt, shared, row, &script, &mut told)
}

/// Plays the row of these lines, between a line that says which it is and one that says how it ended. `shared` is the
/// same runtime, as what may wait.
fn play_lines<R: Threads + Wait + Sync>(
    rt: &HostRuntime,
    shared: &R,
    lines: &str,
) -> io::Result<()> {
    let Some(row) = Row::of(lines) else {
        return println!(rt; "no row");
    };
    println!(rt; "== {}", row.head)?;
    match play_row(rt, shared, &row) {
        Ok(()) => println!(rt; "end: told"),
        Err(end) => println!(rt; "end: {end}"),
    }
}

/// Plays a file's rows: an empty line stands behind each.
fn play_file<R: Threads + Wait + Sync>(rt: &HostRuntime, shared: &R, name: &str) -> io::Result<()> {
    let file = fs::read_to_string(rt, name)?;
    let mut lines = String::new(rt.alloc());
    for line in file.as_str().split('\n') {
        if !line.is_empty() {
            lines.push_str(line)?;
            lines.push('\n')?;
        } else if !lines.is_empty() {
            play_lines(rt, shared, lines.as_str())?;
            lines.clear();
        }
    }
    Ok(())
}

fn main(rt: HostRuntime) -> io::Result<()> {
    let mut words = env::args(&rt)?;
    let _program = words.next();
    if let Some(name) = words.next() {
        return play_file(&rt, &rt, name.as_str());
    }
    for name in FILES {
        play_file(&rt, &rt, name)?;
    }
    Ok(())
}
