ghost use Rattle.std.specs.Prelude.{◌≡◌, ℕ, ◌-◌, ◌<◌, ◌≤◌, List, Option, None, IfOk, OnSome, option_copied};
ghost use Rattle.pf_machine.specs.Numbered.{at, put_at};
ghost use Rattle.pf_machine.specs.State.{vacant};
ghost use Rattle.pf_base.specs.declared.TheConstants.{MAX_PROCESSES};
ghost use Rattle.pf_parked.specs.Parked.{call_at, without_call};

use crate::call::Call;
use pf_base::MAX_PROCESSES;
use std::alloc::{AllocError, Global};
use std::marker::Model;

/// The calls in which the processes of a namespace wait: at most one for each pid from 1 to 256. Each call of the table
/// takes constant time, and none but `new` takes memory.
///
/// A contract sees the call of each process, that of pid 1 first. What names a description is a parameter: the table
/// doesn't know how one is found.
#[derive(Drop)]
pub struct ParkedTable<D> {
    calls: Vec<Option<Call<D>>>,
}

impl<D> Model for ParkedTable<D> {
    ghost use Rattle.std.specs.Prelude.{◌≡◌, List, Option, length};
    ghost use Rattle.std.specs.Coded.{coded_list, coded_option};
    ghost use Rattle.pf_base.specs.declared.TheConstants.{MAX_PROCESSES};
    ghost use Rattle.pf_parked.specs.declared.call.Call.{Call as Seen};
    ghost use Rattle.pf_parked.specs.Call.{call_code};

    ghost Value = { List (Option (Seen D)) };

    ghost coded = { coded_list (coded_option (call_code D.code)) };

    ghost view = { λ t. t.calls.items };

    ghost invariant = { λ t. length t.calls.items ≡ MAX_PROCESSES };
}

impl<D> ParkedTable<D> {
    /// No process waits.
    pub fn new(alloc: Global) -> Result<Self, AllocError>
        ensures { IfOk result (λ table. table ≡ vacant MAX_PROCESSES) }
    {
        let mut calls = Vec::with_capacity(alloc, MAX_PROCESSES)?;
        for n in 0..MAX_PROCESSES {
            calls.push_reserved(None);
        }
        Ok(ParkedTable { calls })
    }

    /// The call in which a process waits.
    pub fn get(&self, pid: u32) -> Option<&Call<D>>
        ensures call { option_copied result ≡ call_at self.now pid }
        ensures from { OnSome result (0 < pid) }
        ensures to { OnSome result (pid ≤ MAX_PROCESSES) }
    {
        if pid == 0 {
            return None;
        }
        match self.calls.get(pid as usize - 1) {
            Some(Some(call)) => Some(call),
            _ => None,
        }
    }

    /// A process waits in this call from now on. It takes no memory.
    pub fn park(&mut self, pid: u32, call: Call<D>)
    where
        D: Drop,
        requires from { 0 < pid }
        requires to { pid ≤ MAX_PROCESSES }
        requires free { call_at self.old pid ≡ None }
        ensures { self.new ≡ put_at self.old (pid - 1) call }
    {
        self.calls[pid as usize - 1] = Some(call);
    }

    /// A process waits no more: takes its call out, if it has one.
    pub fn remove(&mut self, pid: u32) -> Option<Call<D>>
        ensures call { result ≡ call_at self.old pid }
        ensures calls { self.new ≡ without_call self.old pid }

        // So it may park again.
        ensures from { OnSome result (0 < pid) }
        ensures to { OnSome result (pid ≤ MAX_PROCESSES) }
        ensures free { call_at self.new pid ≡ None }
    {
        if pid == 0 {
            return None;
        }
        match self.calls.get_mut(pid as usize - 1) {
            Some(call) => call.take(),
            None => None,
        }
    }
}
