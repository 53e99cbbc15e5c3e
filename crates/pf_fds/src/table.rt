ghost use Rattle.std.specs.Prelude.{◌≡◌, ℕ, ◌<◌, ◌≤◌, List, Option, Some, None, IsSome, IfOk};
ghost use Rattle.pf_machine.specs.Numbered.{at, put_at, clear_at, first_free};
ghost use Rattle.pf_machine.specs.State.{vacant};
ghost use Rattle.pf_base.specs.declared.TheConstants.{MAX_DESCRIPTORS};
ghost use Rattle.pf_fds.specs.declared.registry.Key.{Key as SeenKey};

use crate::places::Places;
use crate::registry::Key;
use std::alloc::{AllocError, Global};
use std::marker::Model;

/// A process's descriptors: at each number from 0 to 255 the key of an open file description, or none. Each call takes
/// constant time and no memory, besides `new` and `copy`.
///
/// A contract sees the key at each number.
#[derive(Drop)]
pub struct FdTable {
    keys: Places<Key>,
}

impl Model for FdTable {
    ghost use Rattle.std.specs.Prelude.{List, Option};
    ghost use Rattle.pf_fds.specs.declared.registry.Key.{Key as SeenKey};

    ghost Value = { List (Option SeenKey) };

    ghost view = { λ t. t.keys };
}

impl FdTable {
    /// No descriptor.
    pub fn new(alloc: Global) -> Result<FdTable, AllocError>
        ensures { IfOk result (λ table. table ≡ vacant MAX_DESCRIPTORS) }
    {
        let keys = Places::new(alloc)?;
        Ok(FdTable { keys })
    }

    /// The same descriptors again.
    pub fn copy(&self, alloc: Global) -> Result<FdTable, AllocError>
        ensures { IfOk result (λ table. table ≡ self.now) }
    {
        let keys = self.keys.copy(alloc)?;
        Ok(FdTable { keys })
    }

    /// The key at a descriptor.
    pub fn get(&self, fd: usize) -> Option<Key>
        ensures { result ≡ at self.now fd }
    {
        self.keys.get(fd).copied()
    }

    /// Sets a descriptor, in place of what was there.
    pub fn set(&mut self, fd: usize, key: Key)
        requires { fd < MAX_DESCRIPTORS }
        ensures { self.new ≡ put_at self.old fd key }
    {
        self.keys.put(fd, key);
    }

    /// Takes the key at a descriptor out.
    pub fn clear(&mut self, fd: usize) -> Option<Key>
        ensures key { result ≡ at self.old fd }
        ensures descriptors { self.new ≡ clear_at self.old fd }
    {
        self.keys.take(fd)
    }

    /// The lowest free descriptor, `MAX_DESCRIPTORS` where there is none.
    pub fn lowest(&self) -> usize
        ensures lowest { result ≡ first_free self.now }
        ensures most { result ≤ MAX_DESCRIPTORS }
    {
        self.keys.lowest()
    }

    /// The lowest free descriptor but for this one, `MAX_DESCRIPTORS` where there is none.
    pub fn next_lowest(&self, but: usize) -> usize
        requires { but < MAX_DESCRIPTORS }
        ensures lowest { (key : SeenKey) → result ≡ first_free (put_at self.now but key) }
        ensures most { result ≤ MAX_DESCRIPTORS }
    {
        self.keys.next_lowest(but)
    }

    /// The least descriptor from this one on that has a key, `MAX_DESCRIPTORS` where none has.
    pub fn next(&self, from: usize) -> usize
        ensures most { result ≤ MAX_DESCRIPTORS }
        ensures above { result < MAX_DESCRIPTORS → from ≤ result }
        ensures stands { result < MAX_DESCRIPTORS → IsSome (at self.now result) }
        ensures between { (fd : ℕ) → from ≤ fd → fd < result → at self.now fd ≡ None }
    {
        self.keys.next(from)
    }
}
