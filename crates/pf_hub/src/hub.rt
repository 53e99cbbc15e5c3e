ghost use Rattle.std.specs.Prelude.{◌≡◌, ◌+◌, ◌-◌, ◌≤◌, length, map, sum, option_copied, IfOk};
ghost use Rattle.pf_machine.specs.Numbered.{at};
ghost use Rattle.pf_hub.specs.Opening.{new_lodgers, limits_of, first_fault};
ghost use Rattle.pf_depot.specs.Door.{IsCovered as IsCoveredBy};
ghost use Rattle.pf_depot.specs.Loans.{loans_live};
ghost use Rattle.pf_hub.specs.Stepped.{Moved};
ghost use Rattle.pf_tables.specs.Owns.{Owns};

use crate::parts::HubParts;
use crate::tenant::Tenant;
use pf_base::{Answer, Config, Errno, MAX_FRAMES, MAX_NAMESPACES, Readiness, Step};
use pf_depot::{Depot, Lender, LoanDoor, Loans};
use pf_frame::{Frame, PoolFault};
use pf_space::Placed;
use std::alloc::{AllocError, Allocator, Global};
use std::marker::Model;

mod coming;
pub mod events;
mod reads;
mod resumes;
mod transfers;

pub use reads::read_over;
pub use resumes::resume_over;
pub use transfers::write_over;

/// Many namespaces over one pool of frames: a depot has the free ones, and each namespace the others on loan, as a
/// value of its own.
///
/// A namespace lives from its admission to its retirement. Those that a hub opens with have the first numbers; no
/// number is given twice.
///
/// A contract sees, for each number given, the namespace's limits, the state of the lone machine that it is in, and
/// how many frames it holds, or that it is retired; how many frames nobody holds; and the allocator whose memory each
/// living namespace's files stand in.
pub struct Hub<A: Allocator> {
    alloc: Global,
    depot: Depot,
    // By number; nothing where a namespace is retired.
    tenants: Vec<Option<Tenant<A>>>,
    // How many there are.
    living: u32,
}

// Written, and not derived: so a crate above calls it, and needn't prove once more how each part of a hub goes.
impl<A: Allocator> Drop for Hub<A> {
    fn drop(self) {
        let Hub {
            alloc: _,
            depot,
            tenants,
            living: _,
        } = self;
        drop(depot);
        drop(tenants);
    }
}

impl<A: Allocator> Model for Hub<A> {
    ghost use Rattle.pf_hub.specs.Tenants.{Housed};

    ghost Value = { Housed A };

    ghost use Rattle.pf_hub.specs.Shared.{housed, IsShared};

    ghost view = { λ h. housed h.depot h.tenants.items };

    ghost invariant = { λ h. IsShared h.depot h.tenants.items h.living };
}

/// Why a run of events ended early.
#[derive(Debug, Drop)]
pub enum RunFault {
    /// The event at this place, counted from 0, is the first that names no namespace that lives. No step was made.
    NoSuchNamespace { at: usize },
    /// Memory for the answers was refused. The steps answered so far stand.
    NoMemory { answers: Vec<Answer> },
}

// The sum of the reservations of some limits.
fn sum_of<A: Allocator>(configs: &[(Config, A)]) -> u64
    requires { length configs.now ≤ 64 }
    ensures { result ≡ sum (map (λ e. e.0.reserve) configs.now) }
{
    configs
        .iter()
        .map(|config| u64::from(config.0.reserve()))
        .sum()
}

/// The first test that so many frames and these limits fail. It takes no memory, so none is wanted before it.
pub fn first_fault<A: Allocator>(frames: usize, configs: &[(Config, A)]) -> Option<PoolFault>
    ensures { result ≡ first_fault frames (limits_of configs.now) }
{
    if configs.len() > MAX_NAMESPACES {
        return Some(PoolFault::TooManyNamespaces);
    }
    if frames > MAX_FRAMES {
        return Some(PoolFault::TooManyFrames);
    }
    let sum = sum_of(configs);
    let frames = frames as u32;
    if sum > u64::from(frames) {
        return Some(PoolFault::ReservesExceed { sum, frames });
    }
    None
}

/// The reservations of some limits. The fault is want of memory.
pub fn reserves_of<A: Allocator>(
    alloc: Global,
    configs: &[(Config, A)],
) -> Result<Vec<u32>, AllocError>
    ensures { IfOk result (λ v. v.items ≡ map (λ e. e.0.reserve) configs.now) }
{
    configs
        .iter()
        .map(|config| config.0.reserve())
        .collect(alloc)
}

// The tenants of some limits, each at its opening state, with its files in memory of the allocator beside them, and
// with its own loans.
fn tenants_of<A: Allocator + Clone>(
    alloc: Global,
    configs: Vec<(Config, A)>,
    loans: Vec<Loans>,
) -> Result<Vec<Option<Tenant<A>>>, AllocError>
    requires { length loans.items ≡ length configs.items }
    ensures { IfOk result (λ v. v.items ≡ new_lodgers configs.items loans.items) }
{
    let mut tenants = Vec::with_capacity(alloc, configs.len())?;
    let mut each = loans.into_iter();
    for (config, allocator) in configs {
        let Some(own) = each.next() else {
            unreachable!()
        };
        let placed = Placed::new(alloc, allocator, config)?;
        tenants.push_reserved(Some(Tenant { loans: own, placed }));
    }
    Ok(tenants)
}

// The tenant of a number, where one lives.
fn find<A: Allocator>(tenants: &[Option<Tenant<A>>], ns: u32) -> Option<&Tenant<A>>
    ensures { option_copied result ≡ at tenants.now ns }
{
    match tenants.get(ns as usize) {
        Some(Some(tenant)) => Some(tenant),
        _ => None,
    }
}

/// A step of a namespace, through the door of its loans and of whoever lends them.
///
/// The lender is sure to give a frame for each of the namespace's credits, and can take back as many as it holds; so
/// it is afterwards.
// It and `step_in` are inlined, or each answer is copied once more on its way out.
#[inline(always)]
pub fn step_over<A: Allocator + Clone, D: Lender>(
    placed: &mut Placed<A>,
    lender: &mut D,
    loans: &mut Loans,
    step: &Step,
) -> Answer
    requires fact { D.fact lender.old }
    requires covered { IsCoveredBy (loans_live loans.old) (D.ready lender.old) (D.out lender.old) }
    requires owns { Owns (loans_live loans.old) placed.old.space }
    ensures fact { D.fact lender.new }
    ensures covered { IsCoveredBy (loans_live loans.new) (D.ready lender.new) (D.out lender.new) }
    ensures rest { D.rest lender.new ≡ D.rest lender.old }
    ensures reserved { (loans_live loans.new).reserved ≡ (loans_live loans.old).reserved }
    // what is held came from the lender, or went back
    ensures spare { D.ready lender.new + (loans_live loans.new).held
        ≡ D.ready lender.old + (loans_live loans.old).held }
    ensures owed { D.out lender.new - (loans_live loans.new).held
        ≡ D.out lender.old - (loans_live loans.old).held }
    ensures moved { Moved (loans_live loans.old) (loans_live loans.new) placed.old.space placed.new.space
        step.now result }
    ensures allocator { placed.new.allocator ≡ placed.old.allocator }
    ensures unchanged { result ≡ Answer.NoMemory
        → (placed.new ≡ placed.old) × (lender.new ≡ lender.old) × (loans.new ≡ loans.old) }
{
    let mut door = LoanDoor::new(lender, loans);
    placed.step(&mut door, step)
}

impl<A: Allocator + Clone> Hub<A> {
    ghost use Rattle.std.specs.Prelude.{◌≡◌, ◌≢◌, ℕ, ◌≤◌, length, IfOk, IfErr, IsOk, None, false};
    ghost use Rattle.pf_base.specs.declared.TheConstants.{MAX_NAMESPACES, MAX_NUMBERS};
    ghost use Rattle.pf_machine.specs.Machine.{Answers, may_want_memory, step_of};
    ghost use Rattle.pf_machine.specs.Events.{IsDone};
    ghost use Rattle.pf_machine.specs.Houses.{number_living};
    ghost use Rattle.pf_machine.specs.Numbered.{at};
    ghost use Rattle.pf_frame.specs.Faults.{IsFault};
    ghost use Rattle.pf_machine.specs.Replies.{reply_length, most_of};
    ghost use Rattle.pf_machine.specs.Queries.{can_go_on, readiness, IsNext};
    ghost use Rattle.pf_hub.specs.Tenants.{Lives, is_living, limits_at, state_at, held_at, frames_in, house_of};
    ghost use Rattle.pf_hub.specs.Covered.{IsCovered};
    ghost use Rattle.pf_hub.specs.Opening.{new_hub, limits_of, new_allocators, first_fault};
    ghost use Rattle.pf_hub.specs.Owners.{AreOwned};
    ghost use Rattle.pf_hub.specs.Shared.{allocators_in};
    ghost use Rattle.pf_hub.specs.Stepped.{Stepped};
    ghost use Rattle.pf_hub.specs.Isolation.{Ran, first_missing, IsRunFault, AreAlone};

    /// A hub of these frames, with a namespace of each of these limits: their numbers are their places. A namespace's
    /// files, and nothing else, stand in memory of the allocator beside its limits.
    ///
    /// The frames keep the bytes that they have; no read of a pipe shows them. The faults are those of `PoolFault`, in
    /// its order: the frames and limits are tested before any memory is asked for. At a fault the frames and the
    /// allocators are dropped.
    pub fn new(
        alloc: Global,
        frames: Vec<Frame>,
        configs: Vec<(Config, A)>,
    ) -> Result<Self, PoolFault>
        ensures tested { IsOk result → first_fault (length frames.items) (limits_of configs.items) ≡ None }
        ensures opened { IfOk result
            (λ hub. hub.world ≡ new_hub (limits_of configs.items) (length frames.items)) }
        ensures allocators { IfOk result (λ hub. hub.allocators ≡ new_allocators configs.items) }
        ensures covered { IfOk result (λ hub. IsCovered hub.world) }
        // the first test that fails, and want of memory only where none does
        ensures fault { IfErr result (IsFault (first_fault (length frames.items) (limits_of configs.items))) }
    {
        if let Some(fault) = first_fault(frames.len(), &configs) {
            return Err(fault);
        }
        match Hub::within(alloc, frames, configs) {
            Ok(hub) => Ok(hub),
            Err(_) => Err(PoolFault::NoMemory),
        }
    }

    // The hub of frames and limits that pass each test.
    fn within(
        alloc: Global,
        frames: Vec<Frame>,
        configs: Vec<(Config, A)>,
    ) -> Result<Self, AllocError>
        requires { first_fault (length frames.items) (limits_of configs.items) ≡ None }
        ensures opened { IfOk result
            (λ hub. hub.world ≡ new_hub (limits_of configs.items) (length frames.items)) }
        ensures allocators { IfOk result (λ hub. hub.allocators ≡ new_allocators configs.items) }
        ensures covered { IfOk result (λ hub. IsCovered hub.world) }
    {
        let reserves = reserves_of(alloc, &configs)?;
        let Ok((depot, loans)) = Depot::new(alloc, frames, reserves) else {
            return Err(AllocError);
        };
        let living = configs.len() as u32;
        let tenants = tenants_of(alloc, configs, loans)?;
        Ok(Hub {
            alloc,
            depot,
            tenants,
            living,
        })
    }

    /// How many frames a namespace holds, 0 where none of this number lives.
    pub fn held(&self, ns: u32) -> u32
        ensures { result ≡ held_at self.now.world ns }
    {
        match find(&self.tenants, ns) {
            Some(tenant) => tenant.loans.held(),
            None => 0,
        }
    }

    /// How many frames nobody holds.
    pub fn free(&self) -> u32
        ensures { result ≡ self.now.world.free }
    {
        self.depot.free()
    }

    /// What the hub is made of, as it stands. Nothing is computed, and nothing is copied.
    ///
    /// Its clause is what carries the isolation: each frame is free in the depot or lies at one place of one namespace,
    /// its owner; its count there is the number of the owner's windows on it; and each window holds the bytes of its
    /// segment, in its owner's queue.
    pub fn parts(&self) -> HubParts<'_, A>
        ensures owned { AreOwned self.now.world result.depot.now result.tenants.now }
        ensures allocators { allocators_in result.tenants.now ≡ self.now.allocators }
    {
        HubParts {
            depot: &self.depot,
            tenants: &self.tenants,
        }
    }

    /// One step of one namespace. No other namespace is told, or has, anything else for it.
    pub fn step(&mut self, ns: u32, step: &Step) -> Answer
        requires lives { Lives self.old.world ns }
        ensures number { length self.new.world.tenants ≡ length self.old.world.tenants }
        ensures lives { Lives self.new.world ns }
        ensures frames { frames_in self.new.world ≡ frames_in self.old.world }
        ensures limits { limits_at self.new.world ns ≡ limits_at self.old.world ns }
        // its answer and its state are the lone machine's, and nobody else is told, or has, anything else
        ensures answers { Answers (limits_at self.old.world ns) result
            (state_at self.old.world ns) step.now (state_at self.new.world ns) }
        ensures others { (m : ℕ) → m ≢ ns → at self.new.world.tenants m ≡ at self.old.world.tenants m }
        // want of memory changes nothing, and comes of no step that needs none
        ensures unchanged { result ≡ Answer.NoMemory → self.new ≡ self.old }
        ensures succeeds { may_want_memory (limits_at self.old.world ns) (state_at self.old.world ns) step.now ≡ false
            → IsDone result }
        ensures allocators { self.new.allocators ≡ self.old.allocators }
        ensures covered { IsCovered self.new.world }
    {
        self.step_in(ns, step)
    }

    // The same, as one fact.
    #[inline(always)]
    fn step_in(&mut self, ns: u32, step: &Step) -> Answer
        requires lives { Lives self.old.world ns }
        ensures stepped { Stepped self.old.world self.new.world ns step.now result }
        ensures allocators { self.new.allocators ≡ self.old.allocators }
        ensures unchanged { result ≡ Answer.NoMemory → self.new ≡ self.old }
    {
        match &mut self.tenants[ns as usize] {
            Some(tenant) => tenant.step(&mut self.depot, step),
            None => unreachable!(),
        }
    }

    /// A number of bytes that the vector of the reply to a namespace's step is no longer than, as `Space::reply_bound`
    /// says.
    pub fn reply_bound(&self, ns: u32, step: &Step) -> usize
        requires lives { Lives self.now.world ns }
        ensures covers { reply_length
            (step_of (limits_at self.now.world ns) (state_at self.now.world ns) step.now).reply ≤ result }
        ensures most { result ≤ most_of step.now }
    {
        match find(&self.tenants, ns) {
            Some(tenant) => tenant.placed.reply_bound(step),
            None => unreachable!(),
        }
    }

    /// Whether the call in which a process of a namespace waits comes further when it is tried again, as `Space::can_go_on`
    /// says.
    pub fn can_go_on(&self, ns: u32, pid: u32) -> bool
        requires lives { Lives self.now.world ns }
        ensures { result ≡ can_go_on (limits_at self.now.world ns) (state_at self.now.world ns) pid }
    {
        match find(&self.tenants, ns) {
            Some(tenant) => tenant.placed.can_go_on(pid),
            None => unreachable!(),
        }
    }

    /// The least pid above `after` whose process can go on in a namespace, if there is one. So a loop from 0 finds them all.
    pub fn next_to_go_on(&self, ns: u32, after: u32) -> Option<u32>
        requires lives { Lives self.now.world ns }
        ensures { IsNext (limits_at self.now.world ns) (state_at self.now.world ns) after result }
    {
        match find(&self.tenants, ns) {
            Some(tenant) => tenant.placed.next_to_go_on(after),
            None => unreachable!(),
        }
    }

    /// What the pipe is ready for that a descriptor of a namespace's process names (poll(2)), as `Space::readiness` says.
    pub fn readiness(&self, ns: u32, pid: u32, fd: u32) -> Result<Readiness, Errno>
        requires lives { Lives self.now.world ns }
        ensures { result ≡ readiness (state_at self.now.world ns) pid fd }
    {
        match find(&self.tenants, ns) {
            Some(tenant) => tenant.placed.readiness(pid, fd),
            None => unreachable!(),
        }
    }

    /// Whether a namespace of this number lives: it is admitted, and not retired.
    pub fn lives(&self, ns: u32) -> bool
        ensures living { result ≡ is_living self.now.world ns }
        // and what carries the isolation holds, as of every hub
        ensures covered { IsCovered self.now.world }
    {
        find(&self.tenants, ns).is_some()
    }

    /// How many numbers of namespaces are given: the next one that is admitted gets this.
    pub fn namespaces(&self) -> usize
        ensures given { result ≡ length self.now.world.tenants }
        ensures most { result ≤ MAX_NUMBERS }
    {
        self.tenants.len()
    }

    /// How many namespaces live.
    pub fn living(&self) -> u32
        ensures living { result ≡ number_living (house_of self.now.world) }
        ensures most { result ≤ MAX_NAMESPACES }
    {
        self.living
    }

    // The place of the first event that names no namespace that lives.
    fn missing(&self, events: &[(u32, Step)]) -> Option<usize>
        ensures { result ≡ first_missing self.now.world events.now }
    {
        events.iter().position(|event| !self.lives(event.0))
    }

    /// Steps in turn. Each is of a namespace that lives.
    pub fn run(&mut self, events: &[(u32, Step)]) -> Result<Vec<Answer>, RunFault>
        ensures lives { IsOk result → first_missing self.old.world events.now ≡ None }
        ensures ran { IfOk result (λ answers. Ran self.old.world events.now answers.items self.new.world) }
        ensures alone { IfOk result (λ answers. AreAlone self.old.world events.now answers.items) }
        ensures fault { IfErr result (IsRunFault self.old.world events.now self.new.world) }
        ensures allocators { self.new.allocators ≡ self.old.allocators }
        ensures covered { IsCovered self.new.world }
    {
        let alloc = self.alloc;
        if let Some(at) = self.missing(events) {
            return Err(RunFault::NoSuchNamespace { at });
        }
        let Ok(mut answers) = Vec::with_capacity(alloc, events.len()) else {
            return Err(RunFault::NoMemory {
                answers: Vec::new(alloc),
            });
        };
        for event in events {
            let answer = self.step_in(event.0, &event.1);
            answers.push_reserved(answer);
        }
        Ok(answers)
    }
}
