ghost use Rattle.std.specs.Prelude.{◌≡◌, ℕ, ◌≤◌, List, length, All, IfOk};
ghost use Rattle.std.specs.List.{range_with_len};
ghost use Rattle.pf_base.specs.declared.TheConstants.{MAX_NUMBERS};
ghost use Rattle.pf_service.specs.Places.{numbers_of};
ghost use Rattle.pf_service.specs.Transcripts.{OneTranscript, IsLone};

use crate::guests::Guests;
use crate::place::{Place, parts_of};
use crate::transcript::Transcript;
use std::alloc::{AllocError, Allocator, Global};
use std::sync::ledger::Ledger;

/// How the locks of all namespaces are opened for good, at a service's end.
///
/// What lay behind them is a fact which nobody but `unlock` gives: a contract over any way can't see what the fact is.
/// So whoever asks for the fact, of some transcripts and some numbers, asks that just these lay there.
pub(crate) trait Unlocks {
    /// Behind the locks lay these transcripts, of namespaces that gave so many seats each.
    ghost lay: { Self → List OneTranscript → List ℕ → Type 0 };

    /// What each namespace was asked and told, and how many seats it gave: those of these places, and then the guests.
    fn unlock<A: Allocator + Clone, C: Ledger, H: Ledger>(
        &self,
        alloc: Global,
        places: Vec<Place<A, C, H>>,
        guests: Guests<A, C, H>,
    ) -> Result<(Vec<Transcript>, Vec<u32>), AllocError>
        requires numbered { numbers_of places.items ≡ range_with_len 0 (length places.items) }
        requires few { length places.items ≤ MAX_NUMBERS }
        ensures lay { IfOk result (λ parts. lay self.now parts.0.items parts.1.items) }
        ensures each { IfOk result (λ parts. length parts.0.items ≡ length parts.1.items) }
        ensures few { IfOk result (λ parts. length parts.1.items ≤ MAX_NUMBERS) }
        ensures alone { IfOk result (λ parts. All IsLone parts.0.items) };
}

/// The way that there is.
#[derive(Clone, Copy)]
pub(crate) struct ForGood;

impl Unlocks for ForGood {
    ghost lay = { λ _ _ _. Unit {0} };

    fn unlock<A: Allocator + Clone, C: Ledger, H: Ledger>(
        &self,
        alloc: Global,
        places: Vec<Place<A, C, H>>,
        guests: Guests<A, C, H>,
    ) -> Result<(Vec<Transcript>, Vec<u32>), AllocError> {
        let places = guests.after(places)?;
        let (transcripts, given) = parts_of(alloc, places)?;
        Ok((transcripts, given))
    }
}
