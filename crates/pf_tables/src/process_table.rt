//! The processes of a namespace, each with the call in which it waits.

ghost use Rattle.std.specs.Prelude.{◌≡◌, ℕ, ◌-◌, ◌<◌, ◌≤◌, true, false, None, Some, Ok, Err, IfOk, IsOk, IsSome};
ghost use Rattle.std.specs.Prelude.{MatchResult, option_copied, slice_set};
ghost use Rattle.pf_machine.specs.Numbered.{at, put_at, clear_at, change_at, first_free, sum_of};
ghost use Rattle.pf_machine.specs.State.{vacant};
ghost use Rattle.pf_base.specs.declared.TheConstants.{MAX_DESCRIPTORS, MAX_PROCESSES};
ghost use Rattle.pf_tables.specs.Rows.{process_at, process_in, ready_in, call_in, woken, HasSpare, MayWait, waits};
ghost use Rattle.pf_tables.specs.Rows.{key_at, with_key, with_keys, without_key, with_call};

use pf_base::{Cred, Errno, MAX_DESCRIPTORS};
use pf_fds::{FdTable, Key, Marks, Places};
use pf_parked::Call;
use std::alloc::{AllocError, Global};
use std::marker::Model;

/// A process: its credentials, at each of its 256 descriptors the key of an open file description, and the call that it
/// waits in.
#[derive(Drop)]
pub struct Process {
    pub cred: Cred,
    pub descriptors: FdTable,
    pub parked: Option<Call<Key>>,
}

/// Up to 256 processes by pid, from 1. Each call takes constant time, and none but `new` takes memory.
///
/// A contract sees the process of each pid, that of pid 1 first.
#[derive(Drop)]
pub struct ProcessTable {
    // The process of a pid is in the place before it.
    places: Places<Process>,
    // The places of those that wait in a call, as bits: who asks which of them can go on looks at no other.
    waiting: Marks,
}

impl Model for ProcessTable {
    ghost use Rattle.pf_tables.specs.Rows.{ProcessRows, IsWatched};

    ghost Value = { ProcessRows };

    ghost view = { λ t. t.places };

    ghost invariant = { λ t. IsWatched t.waiting t.places };
}

impl ProcessTable {
    /// No process lives.
    pub fn new(alloc: Global) -> Result<Self, AllocError>
        ensures { IfOk result (λ table. table ≡ vacant MAX_PROCESSES) }
    {
        let places = Places::new(alloc)?;
        let waiting = Marks::new();
        Ok(ProcessTable { places, waiting })
    }

    /// The process of a pid, where it lives, also where it waits in a call. No other place of the code says that there
    /// is none.
    pub fn living(&self, pid: u32) -> Result<&Process, Errno>
        ensures { MatchResult result (λ p. process_in self.now pid ≡ Ok p.now)
            (λ e. process_in self.now pid ≡ Err e) }
    {
        if pid == 0 {
            return Err(Errno::ESRCH);
        }
        match self.places.get(pid as usize - 1) {
            Some(process) => Ok(process),
            None => Err(Errno::ESRCH),
        }
    }

    /// The process of a pid, where it lives and waits in no call.
    pub fn ready(&self, pid: u32) -> Result<&Process, Errno>
        ensures { MatchResult result (λ p. ready_in self.now pid ≡ Ok p.now) (λ e. ready_in self.now pid ≡ Err e) }
    {
        let process = self.living(pid)?;
        if process.parked.is_some() {
            return Err(Errno::EBUSY);
        }
        Ok(process)
    }

    /// How many processes live, also those that wait in a call.
    pub fn alive(&self) -> u32
        ensures { result ≡ sum_of (λ p. 1) self.now }
    {
        self.places.count() as u32
    }

    /// The least place from this one on whose process waits in a call, `MAX_PROCESSES` where none does.
    pub fn next_waiting(&self, from: usize) -> usize
        ensures most { result ≤ MAX_PROCESSES }
        ensures above { result < MAX_PROCESSES → from ≤ result }
        ensures stands { result < MAX_PROCESSES → waits (at self.now result) ≡ true }
        ensures between { (i : ℕ) → from ≤ i → i < result → waits (at self.now i) ≡ false }
    {
        // Whoever looks at a field knows the invariant: just those are marked whose processes wait.
        let _ = &self.places;
        self.waiting.next(from)
    }

    /// The call in which a process waits, if it lives and waits.
    pub fn call(&self, pid: u32) -> Option<&Call<Key>>
        ensures { option_copied result ≡ call_in self.now pid }
    {
        match self.living(pid) {
            Ok(process) => process.parked.as_ref(),
            Err(_) => None,
        }
    }

    /// A process that waits in no call waits in this one.
    pub fn park(&mut self, pid: u32, call: Call<Key>)
        requires ready { IsOk (ready_in self.old pid) }
        requires may { MayWait call (process_at self.old pid) }
        ensures { self.new ≡ change_at (with_call (Some call)) self.old (pid - 1) }
    {
        let i = pid as usize - 1;
        self.places.value_mut(i).parked = Some(call);
        self.waiting.mark(i);
    }

    /// The call in which a process waits is over, and is given out. A description that an open made gets the lowest
    /// free descriptor.
    pub fn wake(&mut self, pid: u32) -> Option<Call<Key>>
        requires { IsOk (process_in self.old pid) }
        ensures call { result ≡ call_in self.old pid }
        ensures rows { self.new ≡ change_at woken self.old (pid - 1) }
        // There is one.
        ensures spare { HasSpare self.old pid }
    {
        let i = pid as usize - 1;
        let process = self.places.value_mut(i);
        let call = process.parked.take()?;
        self.waiting.unmark(i);
        if let Call::Open {
            description,
            kept: _,
        } = &call
        {
            let fd = process.descriptors.lowest();
            process.descriptors.set(fd, *description);
        }
        Some(call)
    }

    /// The lowest place where no process is, `MAX_PROCESSES` where there is one in each.
    pub fn lowest(&self) -> usize
        ensures lowest { result ≡ first_free self.now }
        ensures most { result ≤ MAX_PROCESSES }
    {
        self.places.lowest()
    }

    /// Puts a process that waits in no call into a place where none is.
    pub fn put(&mut self, i: usize, process: Process)
        requires within { i < MAX_PROCESSES }
        requires free { at self.old i ≡ None }
        requires awake { process.parked ≡ None }
        ensures { self.new ≡ put_at self.old i process }
    {
        self.places.put(i, process);
    }

    /// Takes the process of a place away, with its call.
    pub fn take(&mut self, i: usize)
        requires { i < MAX_PROCESSES }
        ensures { self.new ≡ clear_at self.old i }
    {
        self.places.take(i);
        self.waiting.unmark(i);
    }

    /// The least descriptor from this one on that the process in a place has, `MAX_DESCRIPTORS` where it has none.
    pub fn next_key(&self, i: usize, from: usize) -> usize
        ensures most { result ≤ MAX_DESCRIPTORS }
        ensures above { result < MAX_DESCRIPTORS → from ≤ result }
        ensures stands { result < MAX_DESCRIPTORS → IsSome (key_at result (at self.now i)) }
        ensures between { (fd : ℕ) → from ≤ fd → fd < result → key_at fd (at self.now i) ≡ None }
    {
        match self.places.get(i) {
            Some(process) => process.descriptors.next(from),
            None => MAX_DESCRIPTORS,
        }
    }

    /// Empties a descriptor of the process in a place, and gives out the key that was there.
    pub fn take_key(&mut self, i: usize, fd: usize) -> Option<Key>
        ensures key { result ≡ key_at fd (at self.old i) }
        ensures rows { self.new ≡ slice_set self.old i (without_key fd (at self.old i)) }
    {
        if self.places.get(i).is_none() {
            return None;
        }
        self.places.value_mut(i).descriptors.clear(fd)
    }

    /// Puts a key at a descriptor of a process that waits in no call.
    pub fn give_key(&mut self, pid: u32, fd: usize, key: Key)
        requires ready { IsOk (ready_in self.old pid) }
        requires fd_in { fd < MAX_DESCRIPTORS }
        ensures { self.new ≡ change_at (with_key fd key) self.old (pid - 1) }
    {
        let process = self.places.value_mut(pid as usize - 1);
        process.descriptors.set(fd, key);
    }

    /// Puts keys at two descriptors of a process that waits in no call.
    pub fn give_keys(
        &mut self,
        pid: u32,
        first: usize,
        first_key: Key,
        second: usize,
        second_key: Key,
    )
        requires ready { IsOk (ready_in self.old pid) }
        requires first_in { first < MAX_DESCRIPTORS }
        requires second_in { second < MAX_DESCRIPTORS }
        ensures { self.new
            ≡ slice_set self.old (pid - 1)
            (with_keys first first_key second second_key (at self.old (pid - 1))) }
    {
        let process = self.places.value_mut(pid as usize - 1);
        process.descriptors.set(first, first_key);
        process.descriptors.set(second, second_key);
    }
}
