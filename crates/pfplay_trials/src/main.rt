//! The trials of `data`: tables of steps with their answers, which are played in each way, scripts with what is told of
//! them, and recorded programs. A line says of each file how much it has, where all is as it says, or else what isn't.
#![tactic(auto)]

mod flaw;
mod hosts;
mod house;
mod judge;
mod lines;
mod moving;
mod player;
mod recorded;
mod table;
mod trouble;

use crate::judge::judge_file;
use crate::player::play_file;
use crate::recorded::tell_recorded;
use std::{fs, io};

/// The files of tables.
const TABLES: [&str; 12] = [
    "pipes",
    "sharing",
    "transfers",
    "rings",
    "parked",
    "waiting",
    "opens",
    "paths",
    "sizes",
    "limits",
    "tenants",
    "processes",
];

/// The files of scripts in a line each.
const SCRIPTS: [&str; 3] = ["openings", "steps", "guests"];

/// The text of the file with this name and ending.
fn file(rt: &HostRuntime, name: &str, ending: &str) -> io::Result<String> {
    fs::read_to_string(rt, format!(in rt.alloc(); "{name}.{ending}")?.as_str())
}

fn tell_tables(rt: &HostRuntime) -> io::Result<()> {
    for name in TABLES {
        match play_file(rt.alloc(), file(rt, name, "tables")?.as_str()) {
            Ok((tables, steps)) => println!(rt; "{name}: {tables} tables of {steps} steps")?,
            Err(flaw) => println!(rt; "{name}: {flaw}")?,
        }
    }
    Ok(())
}

fn tell_scripts(rt: &HostRuntime) -> io::Result<()> {
    for name in SCRIPTS {
        match judge_file(rt.alloc(), file(rt, name, "scripts")?.as_str()) {
            Ok(scripts) => println!(rt; "{name}: {scripts} scripts")?,
            Err(flaw) => println!(rt; "{name}: {flaw}")?,
        }
    }
    Ok(())
}

fn main(rt: HostRuntime) -> io::Result<()> {
    tell_tables(&rt)?;
    tell_scripts(&rt)?;
    tell_recorded(&rt)
}
