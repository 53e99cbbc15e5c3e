ghost use Rattle.std.specs.Prelude.{◌≡◌, ◌+◌, ◌<◌, ◌≤◌, [], length, IsOk, OnOk, OnErr};
ghost use Rattle.pf_base.specs.Capacities.{passes, slots_for, new_capacity, may_grow};
ghost use Rattle.pf_limits.specs.UserPages.{charged_to, Charges, IsEach};

use pf_base::{Config, DEFAULT_SLOTS, LEAST_SLOTS, LimitFault};
use std::alloc::{AllocError, Global};
use std::collections::HashMap;
use std::marker::Model;

/// The pages that each user of a namespace is charged with, and those of all together, beside the namespace's limits
/// (pipe(7), "/proc files"). A pipe is charged to the user that made it, for as long as it lives, with its capacity in
/// pages. Each call takes constant time, besides a charge that takes memory and moves the users there.
///
/// Privileged callers are held to the reservation alone. The same uid in two namespaces is two users (this profile's
/// choice), so each namespace has counters of its own.
///
/// A contract sees the limits, a list of users with their pages, and the pages of all. A user with nothing charged takes
/// no place.
#[derive(Drop)]
pub struct UserPages {
    config: Config,
    // The users that are charged with a page at least.
    users: HashMap<u32, u32>,
    // The pages that all users are charged with.
    total: u32,
}

impl Model for UserPages {
    ghost use Rattle.pf_limits.specs.UserPages.{UserPages as Seen, IsKept};

    ghost Value = { Seen };

    ghost view = { λ p. record { limits = p.config; users = p.users.entries; total = p.total } };

    ghost invariant = { λ p. IsKept p.config.reserve p.users.entries p.total };
}

// Whether so many pages pass a limit of a user's.
fn passes(privileged: bool, limit: u32, pages: u64) -> bool
    ensures { result ≡ passes privileged limit pages }
{
    !privileged && limit != 0 && pages > limit as u64
}

impl UserPages {
    /// Nobody is charged with a page, and no allocation is made. The limits are those of a namespace.
    pub fn new(alloc: Global, config: &Config) -> Self
        ensures { result ≡ record { limits = config.now; users = []; total = 0 } }
    {
        // Whoever asks for the reservation knows its range.
        let _ = config.reserve();
        UserPages {
            config: *config,
            users: HashMap::new(alloc),
            total: 0,
        }
    }

    /// The namespace's limits.
    pub fn config(&self) -> Config
        ensures { result ≡ self.now.limits }
    {
        self.config
    }

    /// The pages that a user is charged with, 0 for one that has none.
    pub fn charged(&self, uid: u32) -> u32
        ensures number { result ≡ charged_to self.now uid }
        ensures most { result ≤ self.now.total }
    {
        self.users.get(&uid).copied().unwrap_or(0)
    }

    /// The pages that all users are charged with. They are within the reservation.
    pub fn total(&self) -> u32
        ensures number { result ≡ self.now.total }
        ensures most { result ≤ self.now.limits.reserve }
    {
        self.total
    }

    /// How many users are charged with a page at least. Each of them is one place, and there is none besides.
    pub fn users(&self) -> usize
        ensures number { result ≡ length self.now.users }
        ensures each { IsEach self.now.users }
    {
        self.users.len()
    }

    // How many slots a new pipe gets, where nothing refuses it.
    fn slots_for(&self, uid: u32, privileged: bool) -> u32
        ensures { result ≡ slots_for self.now.limits privileged (charged_to self.now uid) self.now.total }
    {
        let reserve = self.config.reserve();
        let charged = (self.charged(uid) + DEFAULT_SLOTS) as u64;
        if passes(privileged, self.config.soft(), charged) || self.total + DEFAULT_SLOTS > reserve {
            return LEAST_SLOTS;
        }
        DEFAULT_SLOTS
    }

    /// The slots of a new pipe that a user makes, or why it may not make one: 16 slots, or 1 where with 16 more pages an
    /// unprivileged user would pass its soft limit (pipe(7), "/proc/sys/fs/pipe-user-pages-soft"; that it is 1 is this
    /// profile's choice), or all users together the reservation (this profile's choice).
    ///
    /// Hard: with these slots an unprivileged user would pass its hard limit (pipe(7),
    /// "/proc/sys/fs/pipe-user-pages-hard"). Reserve: else, all users together would pass the reservation, whoever asks.
    pub fn new_capacity(&self, uid: u32, privileged: bool) -> Result<u32, LimitFault>
        ensures { result
            ≡ new_capacity self.now.limits privileged (charged_to self.now uid) self.now.total }
    {
        let reserve = self.config.reserve();
        let slots = self.slots_for(uid, privileged);
        let charged = (self.charged(uid) + slots) as u64;
        if passes(privileged, self.config.hard(), charged) {
            return Err(LimitFault::Hard);
        }
        if self.total + slots > reserve {
            return Err(LimitFault::Reserve);
        }
        Ok(slots)
    }

    /// Whether a pipe may grow from `from` pages, with which its owner is charged, to `to` pages. It is the caller that
    /// is privileged or not, and the owner's pages that count (fcntl(2), F_SETPIPE_SZ; pipe(7), "/proc files").
    ///
    /// Soft and Hard: for an unprivileged caller the owner would pass its soft limit, or else its hard one. Reserve:
    /// else, all users together would pass the reservation, whoever asks (this profile's choice).
    pub fn may_grow(
        &self,
        owner: u32,
        privileged: bool,
        from: u32,
        to: u32,
    ) -> Result<(), LimitFault>
        requires { from ≤ charged_to self.now owner }
        ensures { result
            ≡ may_grow self.now.limits privileged (charged_to self.now owner) self.now.total from to }
    {
        let grown = (self.charged(owner) - from) as u64 + to as u64;
        if passes(privileged, self.config.soft(), grown) {
            return Err(LimitFault::Soft);
        }
        if passes(privileged, self.config.hard(), grown) {
            return Err(LimitFault::Hard);
        }
        if (self.total - from) as u64 + to as u64 > self.config.reserve() as u64 {
            return Err(LimitFault::Reserve);
        }
        Ok(())
    }

    /// Charges a user with so many pages more: those of a pipe that it made, or by which a pipe of its own grew. No
    /// limit of the user's is tested. Memory is wanted only for a user with nothing charged, and where it is refused
    /// nothing has changed.
    pub fn charge(&mut self, uid: u32, pages: u32) -> Result<(), AllocError>
        requires { self.old.total + pages ≤ self.old.limits.reserve }
        ensures charged { OnOk result (Charges self.old self.new uid pages) }
        ensures refused { OnErr result (self.new ≡ self.old) }

        // It succeeds where no user is new.
        ensures known { 0 < charged_to self.old uid → IsOk result }
        ensures nothing { pages ≡ 0 → IsOk result }
    {
        if pages == 0 {
            return Ok(());
        }
        let charged = self.charged(uid) + pages;
        self.users.insert(uid, charged)?;
        self.total += pages;
        Ok(())
    }

    /// Takes so many pages back from a user: those of a pipe of its own that went, or by which one shrank. It never
    /// wants memory, and a user with nothing left goes.
    pub fn refund(&mut self, uid: u32, pages: u32)
        requires { pages ≤ charged_to self.old uid }
        // The charge, undone.
        ensures { Charges self.new self.old uid pages }
    {
        let left = self.charged(uid) - pages;
        self.total -= pages;
        if left == 0 {
            self.users.remove(&uid);
            return;
        }
        let Some(charged) = self.users.get_mut(&uid) else {
            unreachable!()
        };
        *charged = left;
    }
}
