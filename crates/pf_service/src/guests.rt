ghost use Rattle.std.specs.Prelude.{◌≡◌, ◌+◌, ◌<◌, ◌≤◌, length, IfOk, IfErr, IfSome, Some};
ghost use Rattle.std.specs.List.{range_with_len};
ghost use Rattle.pf_base.specs.declared.TheConstants.{MAX_NUMBERS};
ghost use Rattle.pf_service.specs.Lodged.{IsLodged, IsOfRoom};
ghost use Rattle.pf_service.specs.Places.{numbers_of};

use crate::place::Place;
use pf_base::MAX_NUMBERS;
use std::alloc::{AllocError, Allocator, Global};
use std::sync::ledger::Ledger;
use std::sync::{OnceLock, OnceToken, Wait};

/// Memory for the place of a namespace that is admitted, made before it has its number, so that none is wanted afterwards.
pub(crate) type Room<A, C, H> = Box<Option<Place<A, C, H>>>;

/// What shows that a room is filled, and with what.
pub(crate) type Lodged<'a, A, C, H> = OnceToken<'a, Room<A, C, H>>;

/// The namespaces that come to a service: a room for each number that there may be, which is filled once, and from then on is
/// found without a lock.
///
/// The numbers of those that a service begins with aren't given again, so their rooms stay empty.
#[derive(Drop)]
pub(crate) struct Guests<A: Allocator, C: Ledger, H: Ledger> {
    rooms: Vec<OnceLock<Room<A, C, H>>>,

    /// There is one for each number.
    pub ghost all: { length rooms.items ≡ MAX_NUMBERS },
}

// So many empty rooms.
fn rooms_of<A: Allocator, C: Ledger, H: Ledger>(
    alloc: Global,
    number: usize,
) -> Result<Vec<OnceLock<Room<A, C, H>>>, AllocError>
    ensures { IfOk result (λ rooms. length rooms.items ≡ number) }
{
    let mut rooms = Vec::with_capacity(alloc, number)?;
    for _ in 0..number {
        rooms.push_reserved(OnceLock::new());
    }
    Ok(rooms)
}

impl<A: Allocator + Clone, C: Ledger, H: Ledger> Guests<A, C, H> {
    /// Nobody came yet.
    pub(crate) fn new(alloc: Global) -> Result<Self, AllocError> {
        let rooms = rooms_of(alloc, MAX_NUMBERS)?;
        Ok(Guests { rooms })
    }

    /// The place of a namespace that was admitted. What its room holds is known by its type alone, so its number is looked at.
    pub(crate) fn place(&self, ns: u32) -> Option<&Place<A, C, H>>
        ensures { IfSome result (λ p. (p.now.ns ≡ ns) × (ns < MAX_NUMBERS)) }
    {
        let room = self.rooms.get(ns as usize)?;
        let place = room.get()?.as_ref().as_ref()?;
        if place.ns() != ns {
            return None;
        }
        Some(place)
    }

    /// A namespace moves in where its number is, and what shows it is given. The number was given once, so nobody was there:
    /// else what shows that somebody was, and the namespace in its room.
    pub(crate) fn admit<R: Wait>(
        &self,
        rt: &R,
        room: Room<A, C, H>,
        place: Place<A, C, H>,
    ) -> Result<Lodged<'_, A, C, H>, (Lodged<'_, A, C, H>, Room<A, C, H>)>
        requires { place.ns < MAX_NUMBERS }
        ensures lodged { IfOk result (λ t. IsLodged self.now.rooms.items place.ns t.of t.value.value) }
        ensures taken { IfErr result (λ e. IsOfRoom self.now.rooms.items place.ns e.0.of × (e.1.value ≡ Some place)) }
    {
        let ns = place.ns();
        let mut room = room;
        drop(Box::replace(&mut room, Some(place)));
        self.rooms[ns as usize].try_insert(rt, room)
    }

    // The place of a namespace that was admitted moves out.
    fn leave(&mut self, ns: usize) -> Option<Place<A, C, H>>
        requires { ns < MAX_NUMBERS }
        ensures { IfSome result (λ p. p.ns ≡ ns) }
    {
        let place = Box::into_inner(self.rooms[ns].take()?)?;
        if place.ns() as usize != ns {
            return None;
        }
        Some(place)
    }

    /// These places, and after them those of the numbers that follow, as far as somebody came.
    pub(crate) fn after(
        self,
        places: Vec<Place<A, C, H>>,
    ) -> Result<Vec<Place<A, C, H>>, AllocError>
        requires numbered { numbers_of places.items ≡ range_with_len 0 (length places.items) }
        requires few { length places.items ≤ MAX_NUMBERS }
        ensures numbered { IfOk result (λ all. numbers_of all.items ≡ range_with_len 0 (length all.items)) }
        ensures few { IfOk result (λ all. length all.items ≤ MAX_NUMBERS) }
        ensures first { IfOk result (λ all. length places.items ≤ length all.items) }
    {
        let mut guests = self;
        let mut places = places;
        for ns in places.len()..MAX_NUMBERS {
            let Some(place) = guests.leave(ns) else {
                return Ok(places);
            };
            places.push(place)?;
        }
        Ok(places)
    }
}
