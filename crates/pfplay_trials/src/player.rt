//! The player of tables: each is played step by step over both forms of a hub, its frames counted, and whole by the
//! replayer, whose text is compared.

use crate::flaw::Flaw;
use crate::hosts::{Host, frames};
use crate::table::{Event, Table, name_of, tables_of};
use pf_base::{Answer, EventAnswer};
use pf_hub::Hub;
use pf_plain::Plain;
use pf_play::{Options, replay};
use pf_script::{Collected, Line, MemoryBytes, Reading, Script, Writing, print, read_script};
use std::alloc::{AllocError, Global};

/// The bytes that all frames hold at the start, which no answer may depend on.
const FILLS: [u8; 3] = [0, 165, 255];

/// What the replayer's frames hold at the start, and the bytes of the heaps for the files.
const WAYS: [(u8, Option<u32>); 4] = [(0, None), (165, None), (255, None), (165, Some(16_777_216))];

/// How many letters of an answer are shown.
const SHOWN: usize = 60;

/// The script of this text, which the table that begins at a line has.
fn script_of(alloc: Global, number: u64, text: &str) -> Result<Script, Flaw> {
    let mut reader = MemoryBytes::new(text.as_bytes());
    read_script(alloc, &mut reader).map_err(|fault| Flaw::Refused(number, fault))
}

/// The namespaces of a script over its frames, which hold this byte throughout, or, with none, each another.
fn opened<H: Host>(
    alloc: Global,
    number: u64,
    script: &Script,
    fill: Option<u8>,
) -> Result<H, Flaw> {
    let frames = frames(alloc, script.frames() as usize, fill)?;
    let mut configs = Vec::new(alloc);
    for config in &script.configs(alloc)? {
        configs.push((*config, alloc))?;
    }
    H::opened(alloc, frames, configs).map_err(|fault| Flaw::NoHost(number, fault))
}

/// The text of an answer to the one step of a script.
fn text_of(alloc: Global, script: &Script, answer: Answer) -> Result<Vec<u8>, AllocError> {
    let answers = vec![in alloc; EventAnswer::Answer(answer)]?;
    let mut writer = Collected::new(alloc);
    if script.steps().len() != answers.len()
        || print(&mut writer, script, &answers, None).is_err()
    {
        return Err(AllocError);
    }
    let told = writer.as_slice().strip_prefix(b"== red\n1: ".as_slice());
    Vec::from_slice(alloc, told.unwrap_or(b"").trim_ascii_end())
}

/// That a step is answered otherwise.
fn otherwise(alloc: Global, event: &Event, answer: &[u8]) -> Result<(), Flaw> {
    let shown = answer.get(..SHOWN).unwrap_or(answer);
    let mut text = String::new(alloc);
    for byte in shown {
        text.push(char::from(*byte))?;
    }
    Err(Flaw::Answer(event.number, text))
}

/// Looks whether each namespace holds so many frames, and all others are free.
fn count_frames<H: Host>(host: &H, event: &Event, frames: u32, held: &[u32]) -> Result<(), Flaw> {
    let mut rest = frames;
    for (ns, count) in (0..).zip(held) {
        let given = host.held_by(ns);
        if given != *count {
            return Err(Flaw::Held(event.number, ns, given));
        }
        rest = rest.saturating_sub(*count);
    }
    let free = host.free_frames().unwrap_or(rest);
    if free != rest {
        return Err(Flaw::Free(event.number, free));
    }
    Ok(())
}

/// Makes a step: it has its answer. `one` is a script of one step.
fn make_step<H: Host>(
    alloc: Global,
    one: &Script,
    host: &mut H,
    line: &(u32, Line),
    event: &Event,
) -> Result<(), Flaw> {
    let (ns, Line::Step(step)) = line else {
        return Err(Flaw::NoRow(event.number));
    };
    let Some(answer) = host.step_of(*ns, step) else {
        return Err(Flaw::NoRow(event.number));
    };
    let answer = text_of(alloc, one, answer)?;
    if answer.as_slice() == event.told.as_str().as_bytes() {
        Ok(())
    } else {
        otherwise(alloc, event, &answer)
    }
}

/// Makes a table's steps: each has its answer, and leaves its namespace so many frames, and each other as many as it
/// had.
fn make_steps<H: Host>(
    alloc: Global,
    one: &Script,
    script: &Script,
    table: &Table,
    host: &mut H,
) -> Result<(), Flaw> {
    let mut held = vec![in alloc; 0u32; script.count_spaces()]?;
    for (line, event) in script.steps().iter().zip(&table.events) {
        make_step(alloc, one, host, line, event)?;
        if let Some(count) = held.get_mut(line.0 as usize) {
            *count = event.held;
        }
        count_frames(host, event, script.frames(), &held)?;
    }
    Ok(())
}

/// Plays a table's script step by step: it has as many answers as steps.
fn play_script<H: Host>(
    alloc: Global,
    one: &Script,
    script: &Script,
    table: &Table,
    fill: Option<u8>,
) -> Result<(), Flaw> {
    let (steps, answers) = (script.steps().len(), table.events.len());
    if steps != answers {
        return Err(Flaw::Steps(table.number, steps, answers));
    }
    let mut host = opened::<H>(alloc, table.number, script, fill)?;
    make_steps(alloc, one, script, table, &mut host)
}

/// Plays a table step by step over frames of each kind. What owns a script hands it on and has one way out: each way out
/// drops it, which is dear to prove.
fn play_over_each<H: Host>(alloc: Global, one: &Script, table: &Table) -> Result<(), Flaw> {
    let script = script_of(alloc, table.number, table.script()?.as_str())?;
    play_with_fills::<H>(alloc, one, &script, table)
}

fn play_with_fills<H: Host>(
    alloc: Global,
    one: &Script,
    script: &Script,
    table: &Table,
) -> Result<(), Flaw> {
    for fill in FILLS {
        play_script::<H>(alloc, one, script, table, Some(fill))?;
    }
    play_script::<H>(alloc, one, script, table, None)
}

/// Whether the replayer writes this text, and no step meets want of memory. The script is read from memory, and from
/// a reader of std to a writer of std.
fn is_written(alloc: Global, script: &str, options: &Options<'_>, text: &str) -> bool {
    let mut reader = MemoryBytes::new(script.as_bytes());
    let mut writer = Collected::new(alloc);
    let result = replay(alloc, &mut reader, &mut writer, options);
    if !matches!(result, Ok(replayed) if replayed.nomem == 0) {
        return false;
    }
    let mut written = Vec::new(alloc);
    let mut reader = Reading::new(script.as_bytes());
    let result = replay(alloc, &mut reader, &mut Writing::new(&mut written), options);
    if !matches!(result, Ok(replayed) if replayed.nomem == 0) {
        return false;
    }
    writer.as_slice() == text.as_bytes() && written.as_slice() == text.as_bytes()
}

/// Has the replayer write a table's text, or with a name that namespace's section, over frames of each kind, and with heaps
/// for the files.
fn write(alloc: Global, table: &Table, only: Option<&str>) -> Result<(), Flaw> {
    let (script, text) = (table.script()?, table.text(only)?);
    for (fill, tree_heap) in WAYS {
        let options = Options {
            only,
            tree_heap,
            fill,
        };
        if !is_written(alloc, script.as_str(), &options, text.as_str()) {
            return Err(Flaw::Text(table.number, fill));
        }
    }
    Ok(())
}

/// Plays a table in each way.
fn play_table(alloc: Global, one: &Script, table: &Table) -> Result<(), Flaw> {
    play_over_each::<Hub<Global>>(alloc, one, table)?;
    play_over_each::<Plain<Global>>(alloc, one, table)?;
    write(alloc, table, None)
}

/// Plays the steps of a table's first two namespaces and of its last one, each alone: it is told the same, and holds as
/// many frames. Its section is the same too where its name is chosen.
fn play_alone(alloc: Global, one: &Script, table: &Table) -> Result<(), Flaw> {
    let rest = table.spaces.get(2..).unwrap_or(&[]).last();
    for space in table.spaces.iter().take(2).chain(rest) {
        play_table(alloc, one, &table.alone(space.as_str())?)?;
        write(alloc, table, Some(name_of(space.as_str())))?;
    }
    Ok(())
}

/// Plays these tables, and tells how many steps they have.
fn play_tables(alloc: Global, one: &Script, tables: &[Table]) -> Result<usize, Flaw> {
    let mut steps = 0usize;
    for table in tables {
        play_table(alloc, one, table)?;
        if table.spaces.len() > 1 {
            play_alone(alloc, one, table)?;
        }
        steps = steps.saturating_add(table.events.len());
    }
    Ok(steps)
}

/// Plays the tables of a file, and tells how many they are, and how many steps they have.
pub(crate) fn play_file(alloc: Global, file: &str) -> Result<(usize, usize), Flaw> {
    let one = script_of(alloc, 0, "pool 1\nspace red 1\nred exit 1\n")?;
    let tables = tables_of(alloc, file)?;
    let steps = play_tables(alloc, &one, &tables)?;
    Ok((tables.len(), steps))
}
