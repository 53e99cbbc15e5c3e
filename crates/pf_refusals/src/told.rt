//! What a row's lines are told.

use pf_base::{AdmitFault, EventAnswer, RetireFault};
use pf_script::Script;
use std::alloc::Global;

/// The answers to a row's lines, in their order.
#[derive(Drop)]
pub(crate) struct Told {
    pub(crate) answers: Vec<EventAnswer>,
    /// The numbers of those that its lines admit, in their order; none of one that isn't admitted.
    pub(crate) numbers: Vec<Option<u32>>,
    /// Of a row with a guest: what is told of it as it comes, of another behind it, of it as it goes, and again of
    /// another.
    pub(crate) comings: Vec<EventAnswer>,
    /// Whether the end was refused.
    pub(crate) is_open: bool,
}

impl Told {
    /// Nothing yet.
    pub(crate) fn new(alloc: Global) -> Told {
        Told {
            answers: Vec::new(alloc),
            numbers: Vec::new(alloc),
            comings: Vec::new(alloc),
            is_open: false,
        }
    }

    /// The number of the namespace that has this place in a script, if it has one. Those of the space lines have the
    /// first numbers, a guest among them.
    pub(crate) fn number_of(&self, script: &Script, place: u32) -> Option<u32> {
        match (place as usize).checked_sub(script.opening()) {
            None => Some(place),
            Some(later) => *self.numbers.get(later)?,
        }
    }
}

/// What an admission is answered.
pub(crate) fn admission(end: Result<u32, AdmitFault>) -> EventAnswer {
    match end {
        Ok(number) => EventAnswer::Admitted(number),
        Err(fault) => EventAnswer::NotAdmitted(fault),
    }
}

/// What a retirement is answered.
pub(crate) fn retirement(end: Result<(), RetireFault>) -> EventAnswer {
    match end {
        Ok(()) => EventAnswer::Retired,
        Err(fault) => EventAnswer::NotRetired(fault),
    }
}
