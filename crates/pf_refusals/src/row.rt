//! Rows. Each begins with a line of three words: how its steps are made, a number, and a name. The lines of a script
//! come behind it. Where the steps are made one by one the number is a step's place, from 0; of a row with a guest it
//! is 0 for its coming and 1 for its going; of one whose step waits it is that step's place.

use crate::end::End;
use pf_base::{ByteString, Config, Step};
use pf_script::{Line, MemoryBytes, Script, read_script};
use std::alloc::Global;

/// So many bytes are asked for as a sign to whoever counts the requests for memory: before those that are to be
/// counted, and behind them.
const SIGN: usize = 7_777_777;

/// How a row's steps are made.
#[derive(Clone, Copy, PartialEq, Eq)]
pub(crate) enum Way {
    /// In a namespace that is alone over frames of its own, one by one.
    Space,
    /// By a hub, one by one.
    Steps,
    /// So too, but the bytes of each write stand in memory that has room for one more.
    Spare,
    /// So too, but the bytes of each write have another owner.
    Owned,
    /// So too, but each write is of the bytes of a slice, and each read into one.
    Slices,
    /// By a hub, all at once.
    Run,
    /// By a worker for each namespace, one by one.
    Workers,
    /// So too, but each write is of the bytes of a slice, and each read into one.
    WorkerSlices,
    /// By a service, one by one.
    Calls,
    /// So too, but the requests of one step are counted, and not those of all.
    Event,
    /// By a service, by calls that may wait.
    Waits,
    /// By a service, where one of them waits for the next, which is made on a thread of its own.
    Parks,
    /// By a hub, one by one. Here, and below, the last namespace is a guest: it comes before its first step, and goes
    /// behind the last one of all.
    GuestSteps,
    /// By a hub, all at once, with a guest.
    GuestEvents,
    /// By a worker for each namespace, with a guest.
    GuestWorkers,
    /// By a service, with a guest.
    GuestCalls,
}

impl Way {
    fn of(word: &str) -> Option<Way> {
        match word {
            "space" => Some(Way::Space),
            "steps" => Some(Way::Steps),
            "spare" => Some(Way::Spare),
            "owned" => Some(Way::Owned),
            "slices" => Some(Way::Slices),
            "run" => Some(Way::Run),
            "workers" => Some(Way::Workers),
            "worker_slices" => Some(Way::WorkerSlices),
            "calls" => Some(Way::Calls),
            "event" => Some(Way::Event),
            "waits" => Some(Way::Waits),
            "parks" => Some(Way::Parks),
            "guest_steps" => Some(Way::GuestSteps),
            "guest_events" => Some(Way::GuestEvents),
            "guest_workers" => Some(Way::GuestWorkers),
            "guest_calls" => Some(Way::GuestCalls),
            _ => None,
        }
    }

    /// Whether the requests of one step are counted, and the sign is given beside it.
    fn counts_a_step(self) -> bool {
        matches!(
            self,
            Way::Space | Way::Steps | Way::Spare | Way::Owned | Way::Workers | Way::Event
        )
    }

    /// Whether the bytes that steps move to and from the host stand in slices.
    pub(crate) fn has_slices(self) -> bool {
        matches!(self, Way::Slices | Way::WorkerSlices)
    }

    fn has_guest(self) -> bool {
        matches!(
            self,
            Way::GuestSteps | Way::GuestEvents | Way::GuestWorkers | Way::GuestCalls
        )
    }
}

/// A row.
#[derive(Clone, Copy)]
pub(crate) struct Row<'a> {
    /// Its first line.
    pub(crate) head: &'a str,
    pub(crate) way: Way,
    pub(crate) at: usize,
    pub(crate) script: &'a str,
}

impl Row<'_> {
    /// The number of a row whose guest's coming is counted.
    pub(crate) const COMES: usize = 0;

    /// The number of a row whose guest's going is counted.
    pub(crate) const GOES: usize = 1;

    pub(crate) fn of(lines: &str) -> Option<Row<'_>> {
        let (head, script) = lines.split_once('\n')?;
        let mut words = head.split(' ');
        let way = Way::of(words.next()?)?;
        let at = words.next()?.parse::<usize>().ok()?;
        Some(Row {
            head,
            way,
            at,
            script,
        })
    }

    /// Gives the sign. What was asked for is used, so that no compiler leaves it out.
    pub(crate) fn give_sign(&self, alloc: Global) -> Result<(), End> {
        let mut copy = Vec::with_capacity(alloc, SIGN)?;
        copy.extend_from_slice(self.head.as_bytes())?;
        if copy.as_slice() != self.head.as_bytes() {
            return Err(End::NoScript);
        }
        Ok(())
    }

    /// Gives the sign if it is to be beside the step of this place.
    pub(crate) fn give_sign_at(&self, alloc: Global, place: usize) -> Result<(), End> {
        if place == self.at && self.way.counts_a_step() {
            self.give_sign(alloc)?;
        }
        Ok(())
    }

    /// The same where a slice serves the step: the sign is beside what the host makes of it, and neither the slice nor
    /// the reply that is made of it is counted.
    pub(crate) fn give_sign_within(&self, alloc: Global, place: usize) -> Result<(), End> {
        if place == self.at && self.way.has_slices() {
            self.give_sign(alloc)?;
        }
        Ok(())
    }

    /// Gives the sign if it is to be beside the guest's coming, or its going.
    pub(crate) fn give_sign_of(&self, alloc: Global, part: usize) -> Result<(), End> {
        if part == self.at && self.way.has_guest() {
            self.give_sign(alloc)?;
        }
        Ok(())
    }

    /// The bytes of a write as this row has them, where that isn't as the script has them.
    fn payload_of(&self, alloc: Global, payload: &ByteString) -> Result<Option<ByteString>, End> {
        match self.way {
            Way::Spare => {
                let mut bytes = Vec::with_capacity(
                    alloc,
                    payload.as_slice().len().saturating_add(1),
                )?;
                bytes.extend_from_slice(payload.as_slice())?;
                Ok(Some(ByteString::new(alloc, bytes)?))
            }
            Way::Owned => Ok(Some(payload.copy(alloc)?)),
            _ => Ok(None),
        }
    }

    /// A script's write with its bytes as this row has them.
    pub(crate) fn write_of(&self, alloc: Global, line: &Line) -> Result<Option<Line>, End> {
        let Line::Step(Step::Write { pid, fd, payload }) = line else {
            return Ok(None);
        };
        let Some(payload) = self.payload_of(alloc, payload)? else {
            return Ok(None);
        };
        Ok(Some(Line::Step(Step::Write {
            pid: *pid,
            fd: *fd,
            payload,
        })))
    }

    /// How many of a script's namespaces are there from the start.
    pub(crate) fn residents(&self, script: &Script) -> u32 {
        // (there are at most 64 in all)
        let opening = script.opening().min(script.count_spaces()) as u32;
        opening.saturating_sub(u32::from(self.way.has_guest()))
    }

    /// The number and the limits of its guest, if it has one.
    pub(crate) fn guest(&self, script: &Script) -> Option<(u32, Config)> {
        let ns = self.residents(script);
        if !self.way.has_guest() || ns as usize >= script.count_spaces() {
            return None;
        }
        Some((ns, script.config(ns as usize)))
    }

    /// Its script.
    pub(crate) fn read(&self, alloc: Global) -> Result<Script, End> {
        let mut reader = MemoryBytes::new(self.script.as_bytes());
        Ok(read_script(alloc, &mut reader)?)
    }
}
