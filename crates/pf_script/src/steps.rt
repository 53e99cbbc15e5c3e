ghost use Rattle.std.specs.Prelude.{◌≡◌, ◌++◌, ◌∷◌, [], ℕ, ◌<◌, length, nat_eq, slice_index_or, IfOk, OnOk, OnErr, if◌then◌else◌};
ghost use Rattle.std.specs.List.{All};
ghost use Rattle.std.specs.declared.vec.Vec.{Vec};
ghost use Rattle.std.specs.declared.alloc.Global.{Global};
ghost use Rattle.pf_script.specs.Places.{places_of};

use crate::line::Line;
use pf_base::MAX_NAMESPACES;
use std::alloc::{AllocError, Global};
use std::marker::Model;

/// What the lines behind a script's space lines say, each with its namespace's number, below 64, and for each namespace
/// the places of its lines. A contract sees the list of the lines.
#[derive(Debug, Drop)]
pub struct Steps {
    all: Vec<(u32, Line)>,
    // For each number of a namespace the places of its steps in `all`.
    places: Vec<Vec<u32>>,
}

impl Model for Steps {
    ghost use Rattle.std.specs.Prelude.{List, ℕ};
    ghost use Rattle.pf_script.specs.declared.line.Line.{Line};
    ghost use Rattle.pf_script.specs.Places.{AreKept};

    ghost Value = { List (ℕ × Line) };

    ghost view = { λ s. s.all.items };

    ghost invariant = { λ s. AreKept s.all.items s.places.items };
}

/// No place for any number.
fn no_places(alloc: Global) -> Result<Vec<Vec<u32>>, AllocError>
    ensures many { IfOk result (λ places. length places.items ≡ 64) }
    ensures none { IfOk result (λ places. All (λ v. v.items ≡ []) places.items) }
{
    let mut places = Vec::with_capacity(alloc, MAX_NAMESPACES)?;
    for _ in 0..MAX_NAMESPACES {
        places.push_reserved(Vec::new(alloc));
    }
    Ok(places)
}

/// Puts a place behind those of a number.
fn note(places: &mut Vec<Vec<u32>>, number: usize, place: u32) -> Result<(), AllocError>
    requires { number < length places.old.items }
    ensures many { length places.new.items ≡ length places.old.items }
    ensures noted { OnOk result ((n : ℕ) (d : Vec ℕ Global) → n < length places.old.items →
        (slice_index_or places.new.items n d).items ≡ (if nat_eq number n
        then (slice_index_or places.old.items n d).items ++ place ∷ []
        else (slice_index_or places.old.items n d).items)) }
    ensures unchanged { OnErr result ((n : ℕ) (d : Vec ℕ Global) → n < length places.old.items →
        (slice_index_or places.new.items n d).items ≡ (slice_index_or places.old.items n d).items) }
{
    places[number].push(place)?;
    Ok(())
}

impl Steps {
    /// No lines.
    pub fn new(alloc: Global) -> Result<Self, AllocError>
        ensures { IfOk result (λ s. s ≡ []) }
    {
        let all = Vec::new(alloc);
        let places = no_places(alloc)?;
        Ok(Steps { all, places })
    }

    /// All lines.
    pub fn as_slice(&self) -> &[(u32, Line)]
        ensures { result.now ≡ self.now }
    {
        self.all.as_slice()
    }

    /// The places of the lines of the namespace with this number.
    pub fn places(&self, ns: usize) -> &[u32]
        requires { ns < 64 }
        ensures { result.now ≡ places_of self.now ns }
    {
        self.places[ns].as_slice()
    }

    /// Puts a line behind the others, unless memory is wanted, as it is for more than 2^32 lines.
    #[inline(always)]
    pub fn push(&mut self, ns: u32, line: Line) -> Result<(), AllocError>
        requires { ns < 64 }
        ensures pushed { OnOk result (self.new ≡ self.old ++ (ns, line) ∷ []) }
        ensures unchanged { OnErr result (self.new ≡ self.old) }
    {
        let Ok(place) = u32::try_from(self.all.len()) else {
            return Err(AllocError);
        };
        self.all.reserve(1)?;
        note(&mut self.places, ns as usize, place)?;
        self.all.push_reserved((ns, line));
        Ok(())
    }
}
