//! Tables. A table has the lines of a script's pool and namespaces, and then a row for each step: the namespace's name,
//! the step, its answer, and the number of frames that its namespace holds then, between bars. A row without a name is
//! of the first namespace.
//!
//! A word `COUNT*HH` of an answer stands for so many times these two digits, and a `+` in any word joins two parts of
//! it, each digits or of this kind. A step `both` stands for four in turn: a tee and a splice of its words, each
//! without and with the flag `n`.

use crate::flaw::Flaw;
use crate::lines::{Line, lines_of};
use std::alloc::{AllocError, Global};

/// What the four steps are that `both` stands for, before and behind the words.
const BOTH: [(&str, &str); 4] = [("tee", ""), ("tee", " n"), ("splice", ""), ("splice", " n")];

/// A step of the namespace with this name, with what is expected after it.
#[derive(Drop)]
pub(crate) struct Event {
    /// The number of its line in the file.
    pub(crate) number: u64,
    pub(crate) name: String,
    pub(crate) line: String,
    pub(crate) told: String,
    pub(crate) held: u32,
}

/// A script: the lines of its pool and its namespaces, and its steps, each with what is expected after it.
#[derive(Drop)]
pub(crate) struct Table {
    /// The number of its first line in the file.
    pub(crate) number: u64,
    pub(crate) pool: String,
    pub(crate) spaces: Vec<String>,
    pub(crate) events: Vec<Event>,
}

/// The name in a namespace's line.
pub(crate) fn name_of(space: &str) -> &str {
    space.split(' ').nth(1).unwrap_or("")
}

/// A word's bytes written out as hexadecimal pairs.
fn push_word(text: &mut String, alloc: Global, word: &str) -> Result<(), AllocError> {
    for part in word.split('+') {
        match part.split_once('*') {
            Some((count, digits)) => {
                let count = count.parse::<usize>().unwrap_or(0);
                text.push_str(digits.repeat(alloc, count)?.as_str())?;
            }
            None => text.push_str(part)?,
        }
    }
    Ok(())
}

/// Words with one space between two of them, each written out.
fn written_out(alloc: Global, words: &str) -> Result<String, AllocError> {
    let mut text = String::new(alloc);
    let mut is_first = true;
    for word in words.split(' ') {
        if !is_first {
            text.push(' ')?;
        }
        is_first = false;
        push_word(&mut text, alloc, word)?;
    }
    Ok(text)
}

impl Table {
    /// A script of this pool without a namespace.
    fn new(alloc: Global, number: u64, pool: &str) -> Result<Self, AllocError> {
        Ok(Table {
            number,
            pool: String::from_str(alloc, pool)?,
            spaces: Vec::new(alloc),
            events: Vec::new(alloc),
        })
    }

    /// The allocator of all that it has.
    pub(crate) fn alloc(&self) -> Global {
        *self.events.allocator()
    }

    /// Has a step behind the others.
    fn push(&mut self, event: (u64, &str, &str), told: &str, held: u32) -> Result<(), AllocError> {
        let alloc = self.alloc();
        let (number, name, line) = event;
        let line = if line.contains('+') {
            written_out(alloc, line)?
        } else {
            String::from_str(alloc, line)?
        };
        self.events.push(Event {
            number,
            name: String::from_str(alloc, name)?,
            line,
            told: written_out(alloc, told)?,
            held,
        })?;
        Ok(())
    }

    /// Has the steps of a row of this namespace behind the others.
    fn push_steps(&mut self, number: u64, name: &str, row: &str) -> Result<(), Flaw> {
        let alloc = self.alloc();
        let mut columns = row.split('|');
        let line = columns.next().unwrap_or("").trim();
        let told = columns.next().unwrap_or("").trim();
        let held = columns.next().unwrap_or("").trim();
        let held = held.parse::<u32>().map_err(|_| Flaw::NoRow(number))?;
        if columns.next().is_some() {
            return Err(Flaw::NoRow(number));
        }
        let Some(words) = line.strip_prefix("both") else {
            self.push((number, name, line), told, held)?;
            return Ok(());
        };
        for (verb, flag) in BOTH {
            let line = format!(in alloc; "{verb}{words}{flag}")?;
            self.push((number, name, line.as_str()), told, held)?;
        }
        Ok(())
    }

    /// Has what a line says behind the rest.
    fn push_line(&mut self, number: u64, line: &str) -> Result<(), Flaw> {
        let alloc = self.alloc();
        if line.starts_with("space ") {
            self.spaces.push(String::from_str(alloc, line)?)?;
            return Ok(());
        }
        match line.split_once('|') {
            Some((name, row)) if row.split('|').count() == 3 => {
                self.push_steps(number, name.trim(), row)
            }
            _ => {
                let first = match self.spaces.first() {
                    Some(space) => String::from_str(alloc, name_of(space.as_str()))?,
                    None => return Err(Flaw::NoRow(number)),
                };
                self.push_steps(number, first.as_str(), line)
            }
        }
    }

    /// The steps of one namespace alone, over as many frames as it reserves.
    pub(crate) fn alone(&self, space: &str) -> Result<Table, Flaw> {
        let alloc = self.alloc();
        let reserve = space.split(' ').nth(2).unwrap_or("");
        let pool = format!(in alloc; "pool {reserve}")?;
        let mut table = Table::new(alloc, self.number, pool.as_str())?;
        table.spaces.push(String::from_str(alloc, space)?)?;
        for event in &self.events {
            let (name, line) = (event.name.as_str(), event.line.as_str());
            if name == name_of(space) {
                let told = event.told.as_str();
                table.push((event.number, name, line), told, event.held)?;
            }
        }
        Ok(table)
    }

    /// The whole script.
    pub(crate) fn script(&self) -> Result<String, AllocError> {
        let alloc = self.alloc();
        let pool = self.pool.as_str();
        let mut script = format!(in alloc; "{pool}\n")?;
        for space in &self.spaces {
            script.push_str(space.as_str())?;
            script.push('\n')?;
        }
        for event in &self.events {
            script.push_str(event.name.as_str())?;
            script.push(' ')?;
            script.push_str(event.line.as_str())?;
            script.push('\n')?;
        }
        Ok(script)
    }

    /// Pushes the section of the namespace with this name.
    fn push_section(&self, text: &mut String, name: &str) -> Result<(), AllocError> {
        let alloc = self.alloc();
        text.push_str(format!(in alloc; "== {name}\n")?.as_str())?;
        let mut number: u64 = 0;
        for event in &self.events {
            if event.name.as_str() == name {
                number = number.saturating_add(1);
                text.push_str(format!(in alloc; "{number}: ")?.as_str())?;
                text.push_str(event.told.as_str())?;
                text.push('\n')?;
            }
        }
        Ok(())
    }

    /// The text of the script, or with a name the section of its namespace.
    pub(crate) fn text(&self, only: Option<&str>) -> Result<String, AllocError> {
        let mut text = String::new(self.alloc());
        for space in &self.spaces {
            let name = name_of(space.as_str());
            if only.unwrap_or(name) == name {
                self.push_section(&mut text, name)?;
            }
        }
        Ok(text)
    }
}

/// Has what a line says behind the rest of the last table, or begins another one.
fn push_to_last(tables: &mut Vec<Table>, line: &Line) -> Result<(), Flaw> {
    let alloc = *tables.allocator();
    let text = line.text.as_str();
    if text.starts_with("pool ") {
        tables.push(Table::new(alloc, line.number, text)?)?;
        return Ok(());
    }
    match tables.last_mut() {
        Some(table) => table.push_line(line.number, text),
        None => Err(Flaw::NoRow(line.number)),
    }
}

/// The tables of a file: each begins with the line of its pool.
pub(crate) fn tables_of(alloc: Global, file: &str) -> Result<Vec<Table>, Flaw> {
    let mut tables = Vec::new(alloc);
    for line in &lines_of(alloc, file)? {
        push_to_last(&mut tables, line)?;
    }
    Ok(tables)
}
