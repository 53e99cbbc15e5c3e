ghost use Rattle.std.specs.Prelude.{◌≡◌, ℕ, ◌+◌, ◌<◌, ◌≤◌, length, slice_index_or, true, false, IfOk};
ghost use Rattle.std.specs.Bool.{OnTrue, OnFalse, MatchBool};
ghost use Rattle.pf_base.specs.declared.TheConstants.{MAX_NUMBERS};
ghost use Rattle.pf_service.specs.Seats.{IsGiven, AreGiven};

use crate::merge::all_marked;
use crate::seat::Seat;
use std::alloc::{AllocError, Global};

// Whether a namespace's seats among these are those numbered from 0 up, each once.
fn is_given(alloc: Global, seats: &[Seat], ns: u32, given: u32) -> Result<bool, AllocError>
    ensures { IfOk result (λ b. MatchBool b (IsGiven ns given seats.now) (IsGiven ns given seats.now → ⊥)) }
{
    let mut marks = vec![in alloc; false; given as usize]?;
    for seat in seats {
        if seat.ns() == ns {
            let number = seat.number() as usize;
            if number >= marks.len() || marks[number] {
                return Ok(false);
            }
            marks[number] = true;
        }
    }
    Ok(all_marked(&marks))
}

/// Whether these are all seats that were given, each once.
pub(crate) fn are_given(alloc: Global, seats: &[Seat], given: &[u32]) -> Result<bool, AllocError>
    requires { length given.now ≤ MAX_NUMBERS }
    ensures { IfOk result (λ b. MatchBool b (AreGiven given.now seats.now)
        (AreGiven given.now seats.now → ⊥)) }
{
    for seat in seats {
        if seat.ns() as usize >= given.len() {
            return Ok(false);
        }
    }
    for ns in 0..given.len() {
        if !is_given(alloc, seats, ns as u32, given[ns])? {
            return Ok(false);
        }
    }
    Ok(true)
}
