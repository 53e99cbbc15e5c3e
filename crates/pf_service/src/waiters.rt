ghost use Rattle.std.specs.Prelude.{IsTrue};
ghost use Rattle.pf_service.specs.declared.seated.Seated.{Seated as OneSeated};

use crate::seated::Seated;
use std::alloc::Allocator;
use std::sync::ledger::Ledger;
use std::sync::{Condvar, Mutex, MutexGuard, Wait};

/// Who waits for a namespace's next event, and how the namespace's lock is taken, and let go to wait.
///
/// That all were woken is a fact which nobody but `wake_all` gives, of what it is lent; what lay behind the lock when it
/// was taken is one which nobody but `lock` and `wait` give; and what lay there when a wait began, and what when it
/// ended, is one which `wait` alone gives: a contract over any waiters can't see what these facts are. So whoever asks
/// for them asks for calls, with just what lay there, and with what has become of that: nobody has it before the event.
/// That whoever was woken goes on, no contract says.
pub(crate) trait Waiters {
    /// With this behind the lock, all who waited were woken, where anybody did.
    ghost woken: { Self → (A C H : Type 0) → OneSeated A C H → Type 0 };

    /// This lay behind the lock.
    ghost lay: { Self → (A C H : Type 0) → OneSeated A C H → Type 0 };

    /// Whoever waited where the first lay behind the lock went on where the second lay there.
    ghost went_on: { Self → (A C H : Type 0) → OneSeated A C H → OneSeated A C H → Type 0 };

    /// Wakes all who wait, where anybody does: that stands behind the lock, beside what they are woken for.
    fn wake_all<A: Allocator, C: Ledger, H: Ledger>(&self, seated: &Seated<A, C, H>)
        ensures { woken self.now A C H seated.now };

    /// Takes the lock.
    fn lock<'a, A: Allocator, C: Ledger, H: Ledger, R: Wait>(
        &self,
        rt: &R,
        seated: &'a Mutex<Seated<A, C, H>>,
    ) -> MutexGuard<'a, Seated<A, C, H>>
        ensures { lay self.now A C H result.value };

    /// Lets the lock go until the next event, and takes it again. That somebody waits stands behind the lock, where whoever
    /// makes the event finds it.
    fn wait<'a, A: Allocator, C: Ledger, H: Ledger, R: Wait>(
        &self,
        rt: &R,
        seated: MutexGuard<'a, Seated<A, C, H>>,
    ) -> MutexGuard<'a, Seated<A, C, H>>
        requires { IsTrue seated.value.is_awaited }
        ensures lay { lay self.now A C H result.value }
        ensures went_on { went_on self.now A C H seated.entry.value result.value };
}

/// A namespace's next event, as those see it who wait for it.
#[derive(Drop)]
pub(crate) struct NextEvent {
    came: Condvar,
}

impl NextEvent {
    /// Nobody waits for it yet.
    pub(crate) fn new() -> Self {
        NextEvent {
            came: Condvar::new(),
        }
    }
}

impl Waiters for NextEvent {
    ghost woken = { λ _ _ _ _ _. Unit {0} };

    ghost lay = { λ _ _ _ _ _. Unit {0} };

    ghost went_on = { λ _ _ _ _ _ _. Unit {0} };

    // A notification writes to memory that all callers of the namespace share.
    fn wake_all<A: Allocator, C: Ledger, H: Ledger>(&self, seated: &Seated<A, C, H>) {
        if seated.is_awaited {
            self.came.notify_all();
        }
    }

    fn lock<'a, A: Allocator, C: Ledger, H: Ledger, R: Wait>(
        &self,
        rt: &R,
        seated: &'a Mutex<Seated<A, C, H>>,
    ) -> MutexGuard<'a, Seated<A, C, H>> {
        seated.lock(rt)
    }

    fn wait<'a, A: Allocator, C: Ledger, H: Ledger, R: Wait>(
        &self,
        rt: &R,
        seated: MutexGuard<'a, Seated<A, C, H>>,
    ) -> MutexGuard<'a, Seated<A, C, H>> {
        self.came.wait(rt, seated)
    }
}
