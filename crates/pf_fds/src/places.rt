ghost use Rattle.std.specs.Prelude.{◌≡◌, ℕ, ◌-◌, ◌<◌, ◌≤◌, List, Option, Some, None, IsSome, IfOk, option_copied, ◌++◌, length, replicate, vec_len, vec_capacity};
ghost use Rattle.std.specs.Borrow.{sem};
ghost use Rattle.pf_machine.specs.Numbered.{at, put_at, clear_at, first_free, sum_of};
ghost use Rattle.pf_machine.specs.State.{vacant};
ghost use Rattle.pf_fds.specs.declared.places.TheConstants.{PLACES};

use crate::marks::Marks;
use std::alloc::{AllocError, Global};
use std::marker::Model;

/// How many places there are.
pub const PLACES: usize = 256;

/// Places with the numbers from 0 to 255, each with a value or with none. Each call takes constant time, and none but
/// `new` and `copy` takes memory.
///
/// A contract sees what stands at each number.
#[derive(Drop)]
pub struct Places<T> {
    // What stands at the first numbers, up to the highest that ever had a value: most tables use few of their numbers, so
    // no place is written, copied or dropped before it is used. There is room for all from the start.
    values: Vec<Option<T>>,
    // The numbers that have a value, as bits: the lowest free one, and the next that is taken, are found without a walk
    // over all places.
    taken: Marks,
}

impl<T> Model for Places<T> {
    ghost use Rattle.std.specs.Prelude.{List, Option, vec_capacity};
    ghost use Rattle.std.specs.Coded.{coded_list, coded_option};

    ghost Value = { List (Option T) };

    ghost coded = { coded_list (coded_option T.code) };

    ghost use Rattle.pf_fds.specs.Taken.{padded, AreWritten};

    ghost view = { λ p. padded p.values.items };

    ghost invariant = { λ p. AreWritten p.taken p.values.items (vec_capacity p.values) };
}

// Writes that nothing stands at each number below this one that isn't written yet.
fn write_below<T>(values: &mut Vec<Option<T>>, n: usize)
    requires room { n ≤ vec_capacity values.old }
    ensures items { values.new.items
        ≡ values.old.items ++ replicate (n - length values.old.items) None }
    ensures capacity { vec_capacity values.new ≡ vec_capacity values.old }
{
    while values.len() < n {
        values.push_reserved(None);
    }
}

impl<T> Places<T> {
    ghost use Rattle.pf_fds.specs.Lends.{lends_place};

    /// No place has a value.
    pub fn new(alloc: Global) -> Result<Self, AllocError>
        ensures { IfOk result (λ p. p ≡ vacant PLACES) }
    {
        let values = Vec::with_capacity(alloc, PLACES)?;
        Ok(Places {
            values,
            taken: Marks::new(),
        })
    }

    /// The same values again.
    pub fn copy(&self, alloc: Global) -> Result<Self, AllocError>
    where
        T: Copy,
        ensures { IfOk result (λ p. p ≡ self.now) }
    {
        let mut values = Vec::with_capacity(alloc, PLACES)?;
        values.extend_from_slice(&self.values)?;
        Ok(Places {
            values,
            taken: self.taken,
        })
    }

    /// The value at a number.
    pub fn get(&self, n: usize) -> Option<&T>
        ensures { option_copied result ≡ at self.now n }
    {
        match self.values.get(n) {
            Some(Some(value)) => Some(value),
            _ => None,
        }
    }

    /// The value at a number, for writing.
    pub fn value_mut(&mut self, n: usize) -> &mut T
        requires stands { IsSome (at self.old n) }
        ensures* writes_back { sem 𝓛 (lends_place T.row self.entry n result) }
        ensures value { at self.old n ≡ Some result.now }
    {
        match &mut self.values[n] {
            Some(value) => value,
            None => unreachable!(),
        }
    }

    /// Puts a value at a number, in place of what was there.
    pub fn put(&mut self, n: usize, value: T)
    where
        T: Drop,
        requires { n < PLACES }
        ensures { self.new ≡ put_at self.old n value }
    {
        self.taken.mark(n);
        if n < self.values.len() {
            self.values[n] = Some(value);
            return;
        }
        write_below(&mut self.values, n);
        self.values.push_reserved(Some(value));
    }

    /// Takes the value at a number away.
    pub fn take(&mut self, n: usize) -> Option<T>
        ensures value { result ≡ at self.old n }
        ensures places { self.new ≡ clear_at self.old n }
    {
        if n >= self.values.len() {
            return None;
        }
        self.taken.unmark(n);
        self.values[n].take()
    }

    /// The lowest number that has no value, `PLACES` where all have one.
    pub fn lowest(&self) -> usize
        ensures lowest { result ≡ first_free self.now }
        ensures most { result ≤ PLACES }
    {
        self.taken.lowest()
    }

    /// The lowest number that has no value but for this one.
    pub fn next_lowest(&self, but: usize) -> usize
        requires { but < PLACES }
        ensures lowest { (x : T) → result ≡ first_free (put_at self.now but x) }
        ensures most { result ≤ PLACES }
    {
        let mut taken = self.taken;
        taken.mark(but);
        taken.lowest()
    }

    /// The least number from this one on that has a value, `PLACES` where none has.
    pub fn next(&self, from: usize) -> usize
        ensures most { result ≤ PLACES }
        ensures above { result < PLACES → from ≤ result }
        ensures stands { result < PLACES → IsSome (at self.now result) }
        ensures between { (n : ℕ) → from ≤ n → n < result → at self.now n ≡ None }
    {
        self.taken.next(from)
    }

    /// How many numbers have a value.
    pub fn count(&self) -> usize
        ensures number { result ≡ sum_of (λ (value : T). 1) self.now }
        ensures most { result ≤ PLACES }
    {
        self.taken.count()
    }
}
