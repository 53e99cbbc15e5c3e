//! Lists of events: steps, admissions and retirements in turn.

ghost use Rattle.std.specs.Prelude.{◌≡◌, IfOk, IfErr};
ghost use Rattle.pf_hub.specs.Covered.{IsCovered};
ghost use Rattle.pf_hub.specs.Events.{event_of, allocators_by, RanEvents, IsEventFault};
ghost use Rattle.pf_hub.specs.Tenants.{house_of};
ghost use Rattle.pf_machine.specs.Houses.{Happens, Stepping};

use super::Hub;
use pf_base::{Config, EventAnswer, Step};
use std::alloc::Allocator;

/// What happens to a hub.
#[derive(Drop)]
pub enum Event<A: Allocator> {
    /// A step of the namespace of this number, if it lives.
    Step(u32, Step),
    /// The admission of a namespace of these limits, whose files stand in memory of the allocator.
    Admit(Config, A),
    /// The retirement of the namespace of this number.
    Retire(u32),
}

/// Why a run of events ended early.
#[derive(Debug, Drop)]
pub enum EventFault {
    /// Memory for the answers was refused. The events answered so far stand.
    NoMemory { answers: Vec<EventAnswer> },
}

impl<A: Allocator + Clone> Hub<A> {
    /// Events in turn, each with its answer: a step of a namespace that doesn't live is answered `Gone`.
    ///
    /// Each namespace is told, from its admission to its retirement, what its lone machine is told on its own steps
    /// alone.
    pub fn run_events(&mut self, events: Vec<Event<A>>) -> Result<Vec<EventAnswer>, EventFault>
        ensures ran { IfOk result (λ answers. RanEvents self.old events.items answers.items self.new) }
        ensures fault { IfErr result (IsEventFault self.old events.items self.new) }
    {
        let alloc = self.alloc;
        let Ok(mut answers) = Vec::with_capacity(alloc, events.len()) else {
            return Err(EventFault::NoMemory {
                answers: Vec::new(alloc),
            });
        };
        for event in events {
            let answer = self.happen(event);
            answers.push_reserved(answer);
        }
        Ok(answers)
    }

    // One event.
    fn happen(&mut self, event: Event<A>) -> EventAnswer
        ensures happens { Happens (house_of self.old.world) (event_of event) result (house_of self.new.world) }
        ensures allocators { self.new.allocators ≡ allocators_by event result self.old.allocators }
        ensures covered { IsCovered self.new.world }
    {
        match event {
            Event::Step(ns, step) => self.step_if_living(ns, &step),
            Event::Admit(config, allocator) => match self.admit(config, allocator) {
                Ok(number) => EventAnswer::Admitted(number),
                Err(fault) => EventAnswer::NotAdmitted(fault),
            },
            Event::Retire(ns) => match self.retire(ns) {
                Ok(()) => EventAnswer::Retired,
                Err(fault) => EventAnswer::NotRetired(fault),
            },
        }
    }

    // A step of a namespace, if it lives.
    fn step_if_living(&mut self, ns: u32, step: &Step) -> EventAnswer
        ensures happens { Happens (house_of self.old.world) (Stepping ns step.now) result (house_of self.new.world) }
        ensures allocators { self.new.allocators ≡ self.old.allocators }
        ensures covered { IsCovered self.new.world }
    {
        if self.lives(ns) {
            EventAnswer::Answer(self.step_in(ns, step))
        } else {
            EventAnswer::Gone
        }
    }
}
