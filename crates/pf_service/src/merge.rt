ghost use Rattle.std.specs.Prelude.{◌≡◌, ℕ, ◌+◌, ◌<◌, ◌≤◌, ◌++◌, [], ◌∷◌, List, length, slice_index_or, true, false, IfOk};
ghost use Rattle.std.specs.Bool.{OnTrue, OnFalse, MatchBool};
ghost use Rattle.pf_service.specs.Marks.{IsMarked};
ghost use Rattle.pf_service.specs.Merge.{at, stands, Rises, IsMerge};
ghost use Rattle.pf_service.specs.Seats.{lists_of};
ghost use Rattle.pf_service.specs.declared.event.Event.{Event as OneEvent};

use crate::event::{Event, is_same};
use crate::seat::Seat;
use pf_base::{Reply, Step};
use std::alloc::{AllocError, Global};

// Marks an event's place, if the event stands there and the place wasn't marked.
fn mark(entries: &[(Step, Reply)], marks: &mut Vec<bool>, event: &Event) -> bool
    requires { length marks.old.items ≡ length entries.now }
    ensures number { length marks.new.items ≡ length marks.old.items }
    ensures within { OnTrue result (event.now.place < length entries.now) }
    ensures marked { OnTrue result ((done : List OneEvent) →
        IsMarked entries.now marks.old.items done →
        IsMarked entries.now marks.new.items (done ++ event.now ∷ [])) }
    ensures refused { OnFalse result ((done rest : List OneEvent) →
        IsMarked entries.now marks.old.items done →
        at event.now.place (done ++ event.now ∷ rest) ≡ stands entries.now event.now.place → ⊥) }
{
    let Ok(place) = usize::try_from(event.place) else {
        return false;
    };
    let Some(entry) = entries.get(place) else {
        return false;
    };
    if marks[place] || !is_same(entry, event) {
        return false;
    }
    marks[place] = true;
    true
}

// Marks the places of a seat's events, if they rise, and each event stands there, and none was marked.
fn mark_all(entries: &[(Step, Reply)], marks: &mut Vec<bool>, events: &[Event]) -> bool
    requires { length marks.old.items ≡ length entries.now }
    ensures number { length marks.new.items ≡ length marks.old.items }
    ensures marked { OnTrue result ((done : List OneEvent) →
        IsMarked entries.now marks.old.items done →
        IsMarked entries.now marks.new.items (done ++ events.now)) }
    ensures rises { OnTrue result (Rises events.now) }
    ensures refused { OnFalse result ((done rest : List OneEvent) →
        IsMarked entries.now marks.old.items done → Rises events.now →
        ((i : ℕ) → at i (done ++ events.now ++ rest) ≡ stands entries.now i) → ⊥) }
{
    let mut least = 0;
    for event in events {
        if event.place < least || !mark(entries, marks, event) {
            return false;
        }
        least = event.place + 1;
    }
    true
}

/// Whether all are marked.
pub(crate) fn all_marked(marks: &[bool]) -> bool
    ensures all { OnTrue result ((i : ℕ) → i < length marks.now → slice_index_or marks.now i false ≡ true) }
    ensures not { OnFalse result ((i : ℕ) × (i < length marks.now)
        × (slice_index_or marks.now i false ≡ false)) }
{
    for mark in marks {
        if !*mark {
            return false;
        }
    }
    true
}

/// Whether the entries of a transcript are a merge of what the seats of a namespace keep. It looks at each entry and
/// each event once.
pub(crate) fn is_merge(
    alloc: Global,
    entries: &[(Step, Reply)],
    seats: &[Seat],
    ns: u32,
) -> Result<bool, AllocError>
    ensures { IfOk result (λ b. MatchBool b (IsMerge entries.now (lists_of ns seats.now))
        (IsMerge entries.now (lists_of ns seats.now) → ⊥)) }
{
    let mut marks = vec![in alloc; false; entries.len()]?;
    for seat in seats {
        if seat.ns() == ns && !mark_all(entries, &mut marks, seat.events()) {
            return Ok(false);
        }
    }
    Ok(all_marked(&marks))
}
