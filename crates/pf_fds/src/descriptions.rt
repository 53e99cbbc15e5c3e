ghost use Rattle.std.specs.Prelude.{◌≡◌, ℕ, ◌+◌, ◌-◌, ◌^◌, ◌<◌, ◌≤◌, List, [], ◌∷◌, ◌++◌, length, Some, None, IsSome, IsOk, OnOk, OnErr, OnSome, IfSome, IfNone, option_copied};
ghost use Rattle.std.specs.Option.{option_map};
ghost use Rattle.std.specs.Borrow.{sem};
ghost use Rattle.pf_machine.specs.Numbered.{at, change_at, clear_at};
ghost use Rattle.pf_fds.specs.Registry.{find};
ghost use Rattle.pf_fds.specs.Descriptions.{value_of, names_of, one_more, one_less};

use crate::registry::{Key, Registry};
use std::alloc::{AllocError, Global};
use std::marker::Model;

/// A value, and how many names it has.
#[derive(Drop)]
pub struct Named<T> {
    pub value: T,
    pub names: u32,
}

/// Values by number, each with a count of its names, as open file descriptions are named by descriptors. A value goes
/// with its last name. Each call takes constant time, besides one that takes memory and moves the values there.
///
/// A contract sees what stands at each number that was ever drawn, with its slot and its count, and how many more
/// values are sure to fit with no allocation.
#[derive(Drop)]
pub struct Descriptions<T> {
    registry: Registry<Named<T>>,
}

impl<T> Model for Descriptions<T> {
    ghost use Rattle.pf_fds.specs.Descriptions.{Descriptions as Seen, descriptions_code};

    ghost Value = { Seen T };

    ghost coded = { descriptions_code T.code };

    ghost view = { λ d. record { items = d.registry.items; room = d.registry.room } };
}

impl<T> Descriptions<T> {
    ghost use Rattle.pf_fds.specs.LendsDescription.{lends_description};

    /// No value, and no allocation.
    pub fn new(alloc: Global) -> Self
        ensures items { result.items ≡ [] }
        ensures room { result.room ≡ 0 }
    {
        Descriptions {
            registry: Registry::new(alloc),
        }
    }

    /// How many numbers were drawn, which is the next number.
    pub fn drawn(&self) -> u64
        ensures { result ≡ length self.now.items }
    {
        self.registry.drawn()
    }

    /// Makes room for more values, so that as many inserts take no memory.
    pub fn reserve(&mut self, more: usize) -> Result<(), AllocError>
        // Only the room changes. It grows where it has to, and stays where memory is wanted.
        ensures room { OnOk result (more ≤ self.new.room) }
        ensures least { self.old.room ≤ self.new.room }
        ensures rest { self.new ≡ record self.old { room = self.new.room } }
        ensures refused { OnErr result (self.new ≡ self.old) }

        // Where there is room, no memory is wanted.
        ensures succeeds { more ≤ self.old.room → IsOk result }
        ensures had_room { more ≤ self.old.room → self.new ≡ self.old }
    {
        self.registry.reserve(more)
    }

    /// Stores a value under the next number, with no name. It takes no memory.
    pub fn insert_reserved(&mut self, value: T) -> Key
        requires room { 0 < self.old.room }
        requires unspent { length self.old.items < 2 ^ 64 - 1 }
        ensures serial { result.serial ≡ length self.old.items }
        ensures items { self.new.items
            ≡ self.old.items ++ Some (result.slot, record { value = value; names = 0 }) ∷ [] }
        ensures room { self.new.room + 1 ≡ self.old.room }
    {
        self.registry.insert_reserved(Named { value, names: 0 })
    }

    /// The value of a key, if it still has a number.
    pub fn get(&self, key: Key) -> Option<&T>
        ensures { option_copied result ≡ option_map value_of (find self.now.items key.slot key.serial) }
    {
        match self.registry.get(key) {
            Some(named) => Some(&named.value),
            None => None,
        }
    }

    /// The value of a key, for writing. Its count stays.
    pub fn value_mut(&mut self, key: Key) -> &mut T
        requires stands { IsSome (find self.old.items key.slot key.serial) }
        ensures* writes_back { sem 𝓛 (lends_description T.row self.entry key.serial result) }
        ensures value { option_map value_of (find self.old.items key.slot key.serial) ≡ Some result.now }
    {
        let named = self.registry.value_mut(key);
        &mut named.value
    }

    /// How many names the value of a key has, 0 where the key finds nothing.
    pub fn names(&self, key: Key) -> u32
        ensures { result ≡ names_of (find self.now.items key.slot key.serial) }
    {
        match self.registry.get(key) {
            Some(named) => named.names,
            None => 0,
        }
    }

    /// Gives the value of a key one name more.
    pub fn name(&mut self, key: Key)
        requires stands { IsSome (find self.old.items key.slot key.serial) }
        requires below { names_of (find self.old.items key.slot key.serial) < 2 ^ 32 - 1 }
        ensures items { self.new.items ≡ change_at one_more self.old.items key.serial }
        ensures room { self.new.room ≡ self.old.room }
    {
        let named = self.registry.value_mut(key);
        named.names += 1;
    }

    /// Takes one name from the value of a key. The value goes with its last name, and is handed out then.
    pub fn unname(&mut self, key: Key) -> Option<T>
        requires named { 0 < names_of (find self.old.items key.slot key.serial) }

        // That was its last name: its number is free, and there is room for one more.
        ensures last { IfSome result
            (λ value. at self.old.items key.serial ≡ Some (key.slot, record { value = value; names = 1 })) }
        ensures gone { OnSome result (self.new.items ≡ clear_at self.old.items key.serial) }
        ensures freed { OnSome result (self.new.room ≡ self.old.room + 1) }

        // It has other names, and one less.
        ensures more { IfNone result (1 < names_of (find self.old.items key.slot key.serial)) }
        ensures items { IfNone result (self.new.items ≡ change_at one_less self.old.items key.serial) }
        ensures room { IfNone result (self.new.room ≡ self.old.room) }
    {
        let named = self.registry.value_mut(key);
        if named.names > 1 {
            named.names -= 1;
            return None;
        }
        let Named { value, names: _ } = self.registry.remove(key);
        Some(value)
    }
}
