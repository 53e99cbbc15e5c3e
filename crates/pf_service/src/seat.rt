ghost use Rattle.std.specs.Prelude.{◌≡◌, ℕ, ◌+◌, ◌-◌, ◌<◌, ◌≤◌, ◌++◌, [], ◌∷◌, length, OnOk};
ghost use Rattle.pf_service.specs.Seats.{Gains};

use crate::event::Event;
use std::alloc::{AllocError, Global};
use std::marker::Model;

/// A caller's place at a namespace of a service, which keeps what the caller asked and was told.
///
/// A service gives it, and wants it back at its end. A contract sees its namespace, its number among the namespace's
/// seats, its events, and how many further ones it has room for.
pub struct Seat {
    ns: u32,
    number: u32,
    events: Vec<Event>,
}

// Written, and not derived: so whoever lets a seat go calls it, and needn't prove once more how each part of it goes.
impl Drop for Seat {
    fn drop(self) {
        let Seat {
            ns: _,
            number: _,
            events,
        } = self;
        drop(events);
    }
}

impl Model for Seat {
    ghost use Rattle.std.specs.Prelude.{◌-◌, length, vec_capacity};
    ghost use Rattle.pf_service.specs.Seats.{OneSeat};

    ghost Value = { OneSeat };

    ghost view = { λ s. record {
      ns = s.ns;
      number = s.number;
      events = s.events.items;
      spare = vec_capacity s.events - length s.events.items;
    } };
}

impl Seat {
    /// A seat with no event yet, and with no allocation.
    pub(crate) fn new(alloc: Global, ns: u32, number: u32) -> Self
        ensures ns { result.ns ≡ ns }
        ensures number { result.number ≡ number }
        ensures events { result.events ≡ [] }
    {
        Seat {
            ns,
            number,
            events: Vec::new(alloc),
        }
    }

    /// Its namespace.
    pub fn ns(&self) -> u32
        ensures { result ≡ self.now.ns }
    {
        self.ns
    }

    /// Which of its namespace's seats it is, counted from 0.
    pub fn number(&self) -> u32
        ensures { result ≡ self.now.number }
    {
        self.number
    }

    /// Its events, in the order in which its caller was answered.
    pub fn events(&self) -> &[Event]
        ensures { result.now ≡ self.now.events }
    {
        self.events.as_slice()
    }

    /// Makes room for one event more.
    pub(crate) fn reserve(&mut self) -> Result<(), AllocError>
        ensures room { OnOk result (0 < self.new.spare) }
        ensures kept { Gains self.old self.new [] }
    {
        self.events.reserve(1)
    }

    /// One event more. It takes no memory.
    pub(crate) fn keep(&mut self, event: Event)
        requires { 0 < self.old.spare }
        ensures { Gains self.old self.new (event ∷ []) }
    {
        self.events.push_reserved(event);
    }
}
