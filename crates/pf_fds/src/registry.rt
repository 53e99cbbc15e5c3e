ghost use Rattle.std.specs.Prelude.{◌≡◌, ℕ, ◌+◌, ◌-◌, ◌^◌, ◌<◌, ◌≤◌, List, [], ◌∷◌, ◌++◌, length, Some, None, IsSome, IsOk, OnOk, OnErr, IfOk, IfErr, option_copied};
ghost use Rattle.std.specs.Option.{option_copied_mut};
ghost use Rattle.std.specs.Borrow.{sem};
ghost use Rattle.pf_machine.specs.Numbered.{put_at, clear_at};
ghost use Rattle.pf_fds.specs.Registry.{find, IsInsertFault};

use slab::Slab;
use std::alloc::{AllocError, Global};
use std::marker::Model;

/// A value's number, and the slot where the registry keeps it.
///
/// Only the registry that made a key has anything under it.
#[derive(Clone, Copy, Debug, PartialEq, Eq)]
pub struct Key {
    pub slot: usize,
    pub serial: u64,
}

/// Why a value was not inserted. It is handed back, and nothing changed.
#[derive(Debug, Drop)]
pub enum InsertFault<T> {
    /// Every number is drawn. The last one is 2^64 - 2, since how many are drawn is told in 64 bits: it comes exactly
    /// where 2^64 - 1 are drawn.
    Spent(T),
    /// Memory has run out.
    NoMemory(T),
}

// A value with its number.
#[derive(Drop)]
struct Entry<T> {
    serial: u64,
    value: T,
}

/// Values by number. The numbers are drawn in order, from 0 on, and each only once; each call takes constant time,
/// besides one that takes memory and moves the values there.
///
/// A contract sees what stands at each number that was ever drawn, with its slot, how many more values are sure to
/// fit with no allocation, and the key whose value was taken out and can be put back.
#[derive(Drop)]
pub struct Registry<T> {
    slab: Slab<Entry<T>>,
    drawn: u64,
    // How many more values are sure to fit. It is kept, and isn't the slab's capacity less its values: the slab's contract
    // doesn't say that a refused growth keeps the capacity.
    room: usize,
    // The key whose value was taken out, while its slot is the slab's next: `put_back` asks for that very key, or one that
    // was removed long ago could be given a value again.
    out: Option<Key>,
}

impl<T> Model for Registry<T> {
    ghost use Rattle.pf_fds.specs.Registry.{Registry as Seen, registry_code};

    ghost Value = { Seen T };

    ghost coded = { registry_code T.code };

    ghost use Rattle.pf_fds.specs.Slots.{by_number, IsKept};

    ghost view = { λ r. record { items = by_number r.drawn r.slab.slots; room = r.room; out = r.out } };

    ghost invariant = { λ r. IsKept r.slab r.drawn r.room r.out };
}

impl<T> Registry<T> {
    ghost use Rattle.pf_fds.specs.Lends.{lends_value, lends_found};

    /// No value, and no allocation.
    pub fn new(alloc: Global) -> Self
        ensures items { result.items ≡ [] }
        ensures room { result.room ≡ 0 }
        ensures out { result.out ≡ None }
    {
        Registry {
            slab: Slab::new(alloc),
            drawn: 0,
            room: 0,
            out: None,
        }
    }

    /// How many numbers were drawn, which is the next number.
    pub fn drawn(&self) -> u64
        ensures { result ≡ length self.now.items }
    {
        self.drawn
    }

    /// Makes room for more values, so that as many inserts take no memory.
    pub fn reserve(&mut self, more: usize) -> Result<(), AllocError>
        // Only the room changes. It grows where it has to, and stays where memory is wanted.
        ensures room { OnOk result (more ≤ self.new.room) }
        ensures least { self.old.room ≤ self.new.room }
        ensures rest { self.new ≡ record self.old { room = self.new.room } }
        ensures refused { OnErr result (self.new ≡ self.old) }

        // Where there is room, no memory is wanted.
        ensures succeeds { more ≤ self.old.room → IsOk result }
        ensures had_room { more ≤ self.old.room → self.new ≡ self.old }
    {
        if more > self.room {
            self.slab.reserve(more)?;
            self.room = self.slab.capacity() - self.slab.len();
        }
        Ok(())
    }

    /// Stores a value under the next number, or hands it back.
    pub fn insert(&mut self, value: T) -> Result<Key, InsertFault<T>>
        ensures serial { IfOk result (λ key. key.serial ≡ length self.old.items) }
        ensures items { IfOk result (λ key. self.new.items ≡ self.old.items ++ Some (key.slot, value) ∷ []) }
        ensures room { OnOk result (0 < self.old.room → self.new.room + 1 ≡ self.old.room) }
        ensures out { OnOk result (self.new.out ≡ None) }
        ensures unspent { OnOk result (length self.old.items < 2 ^ 64 - 1) }

        // It refuses where every number is drawn, or where there was no room and memory is wanted.
        ensures refused { OnErr result (self.new ≡ self.old) }
        ensures fault { IfErr result (λ fault. IsInsertFault self.old value fault) }
    {
        if self.drawn() == u64::MAX {
            return Err(InsertFault::Spent(value));
        }
        match self.reserve(1) {
            Ok(()) => Ok(self.insert_reserved(value)),
            Err(_) => Err(InsertFault::NoMemory(value)),
        }
    }

    /// Stores a value under the next number. It takes no memory.
    pub fn insert_reserved(&mut self, value: T) -> Key
        requires room { 0 < self.old.room }
        requires unspent { length self.old.items < 2 ^ 64 - 1 }
        ensures serial { result.serial ≡ length self.old.items }
        ensures items { self.new.items ≡ self.old.items ++ Some (result.slot, value) ∷ [] }
        ensures room { self.new.room + 1 ≡ self.old.room }
        ensures out { self.new.out ≡ None }
    {
        let serial = self.drawn;
        let slot = self.slab.insert_reserved(Entry { serial, value });
        self.drawn += 1;
        self.room -= 1;
        self.out = None;
        Key { slot, serial }
    }

    /// The value of a key, if it was not removed.
    pub fn get(&self, key: Key) -> Option<&T>
        ensures { option_copied result ≡ find self.now.items key.slot key.serial }
    {
        let Some(entry) = self.slab.get(key.slot) else {
            return None;
        };
        if entry.serial != key.serial {
            return None;
        }
        Some(&entry.value)
    }

    /// The value of a key, if it was not removed, for writing.
    pub fn get_mut(&mut self, key: Key) -> Option<&mut T>
        ensures* writes_back { sem 𝓛 (lends_found T.row self.entry key.slot key.serial result) }
        ensures value { option_copied_mut result ≡ find self.old.items key.slot key.serial }
    {
        if self.get(key).is_some() {
            Some(self.value_mut(key))
        } else {
            None
        }
    }

    /// The value of a key, for writing.
    pub fn value_mut(&mut self, key: Key) -> &mut T
        requires stands { IsSome (find self.old.items key.slot key.serial) }
        ensures* writes_back { sem 𝓛 (lends_value T.row self.entry key.slot key.serial result) }
        ensures value { find self.old.items key.slot key.serial ≡ Some result.now }
    {
        let entry = &mut self.slab[key.slot];
        &mut entry.value
    }

    /// Removes the value of a key. Its number is never drawn again.
    pub fn remove(&mut self, key: Key) -> T
        requires stands { IsSome (find self.old.items key.slot key.serial) }
        ensures value { find self.old.items key.slot key.serial ≡ Some result }
        ensures items { self.new.items ≡ clear_at self.old.items key.serial }
        ensures room { self.new.room ≡ self.old.room + 1 }
        ensures out { self.new.out ≡ None }
    {
        let value = self.take_out(key);
        self.out = None;
        value
    }

    /// Takes the value of a key out, to be worked on beside another value of the registry: `put_back` puts it under
    /// the same key again, if there were only calls of `get`, `get_mut` and `value_mut` in between.
    pub fn take_out(&mut self, key: Key) -> T
        requires stands { IsSome (find self.old.items key.slot key.serial) }
        ensures value { find self.old.items key.slot key.serial ≡ Some result }
        ensures items { self.new.items ≡ clear_at self.old.items key.serial }
        ensures room { self.new.room ≡ self.old.room + 1 }
        ensures out { self.new.out ≡ Some key }
    {
        let Entry { serial: _, value } = self.slab.remove(key.slot);
        self.room += 1;
        self.out = Some(key);
        value
    }

    /// Puts a value under the key whose value was taken out, in the same slot. It takes no memory.
    pub fn put_back(&mut self, key: Key, value: T)
        requires out { self.old.out ≡ Some key }
        ensures items { self.new.items ≡ put_at self.old.items key.serial (key.slot, value) }
        ensures room { self.new.room + 1 ≡ self.old.room }
        ensures out { self.new.out ≡ None }
    {
        let Key { slot: _, serial } = key;
        self.slab.insert_reserved(Entry { serial, value });
        self.room -= 1;
        self.out = None;
    }
}
