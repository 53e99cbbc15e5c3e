ghost use Rattle.std.specs.Prelude.{◌≡◌, length, map, IfOk};
ghost use Rattle.pf_hub.specs.Opening.{new_space};

use pf_base::{Answer, Config, Step};
use pf_frame::{Frame, PoolFault};
use pf_hub::reserves_of;
use pf_pool::FramePool;
use pf_space::Space;
use std::alloc::{AllocError, Allocator, Global};
use std::marker::Model;

/// Many namespaces over one array of frames, each with a door to its own.
///
/// A contract sees of it what it sees of a hub's world, and a step has the same promise. It doesn't see the allocators.
#[derive(Drop)]
pub struct Plain<A: Allocator> {
    pool: FramePool,
    spaces: Vec<Space<A>>,
}

impl<A: Allocator> Model for Plain<A> {
    ghost use Rattle.pf_hub.specs.Tenants.{Tenants};
    ghost use Rattle.pf_plain.specs.Plain.{plain_of, IsPlain};

    ghost Value = { Tenants };

    ghost view = { λ p. plain_of p.pool p.spaces.items };

    ghost invariant = { λ p. IsPlain p.pool p.spaces.items };
}

// The namespaces of some limits, each at its opening state, with its files in memory of its own allocator.
fn spaces_of<A: Allocator + Clone>(
    alloc: Global,
    configs: Vec<(Config, A)>,
) -> Result<Vec<Space<A>>, AllocError>
    ensures { IfOk result (λ v. v.items ≡ map (λ e. new_space e.0) configs.items) }
{
    let mut spaces = Vec::with_capacity(alloc, configs.len())?;
    for (config, tree) in configs {
        let space = Space::new(alloc, tree, config)?;
        spaces.push_reserved(space);
    }
    Ok(spaces)
}

impl<A: Allocator + Clone> Plain<A> {
    ghost use Rattle.std.specs.Prelude.{◌≡◌, ◌≢◌, ◌⊎◌, ℕ, ◌<◌, length, IfOk, IfErr, Some, false};
    ghost use Rattle.pf_machine.specs.Machine.{Answers, may_want_memory};
    ghost use Rattle.pf_machine.specs.Events.{IsDone};
    ghost use Rattle.pf_frame.specs.declared.fault.PoolFault.TheVariants.{NoMemory};
    ghost use Rattle.pf_machine.specs.Numbered.{at};
    ghost use Rattle.pf_hub.specs.Tenants.{Lives, is_living, limits_at, state_at, held_at, frames_in};
    ghost use Rattle.pf_hub.specs.Covered.{IsCovered};
    ghost use Rattle.pf_hub.specs.Opening.{new_hub, limits_of, first_fault};
    ghost use Rattle.pf_hub.specs.Stepped.{Stepped};

    /// Namespaces of these limits over these frames: their numbers are their places. Memory may be wanted before the
    /// frames and limits are tested.
    pub fn new(
        alloc: Global,
        frames: Vec<Frame>,
        configs: Vec<(Config, A)>,
    ) -> Result<Self, PoolFault>
        ensures opened { IfOk result (λ p. p ≡ new_hub (limits_of configs.items) (length frames.items)) }
        ensures covered { IfOk result IsCovered }
        ensures fault { IfErr result (λ fault. (fault ≡ NoMemory)
            ⊎ (first_fault (length frames.items) (limits_of configs.items) ≡ Some fault)) }
    {
        let Ok(reserves) = reserves_of(alloc, &configs) else {
            return Err(PoolFault::NoMemory);
        };
        let pool = FramePool::new(alloc, frames, reserves)?;
        match spaces_of(alloc, configs) {
            Ok(spaces) => Ok(Plain { pool, spaces }),
            Err(_) => Err(PoolFault::NoMemory),
        }
    }

    /// How many namespaces there are.
    pub fn namespaces(&self) -> usize
        ensures { result ≡ length self.now.tenants }
    {
        self.spaces.len()
    }

    /// Whether there is a namespace of this number: each that there is lives.
    pub fn lives(&self, ns: u32) -> bool
        ensures { result ≡ is_living self.now ns }
    {
        (ns as usize) < self.spaces.len()
    }

    /// How many frames a namespace holds, 0 where there is none of this number.
    pub fn held(&self, ns: u32) -> u32
        ensures { result ≡ held_at self.now ns }
    {
        self.pool.held(ns)
    }

    /// One step of one namespace, as a hub makes it.
    pub fn step(&mut self, ns: u32, step: &Step) -> Answer
        requires lives { Lives self.old ns }
        ensures number { length self.new.tenants ≡ length self.old.tenants }
        ensures lives { Lives self.new ns }
        ensures frames { frames_in self.new ≡ frames_in self.old }
        ensures limits { limits_at self.new ns ≡ limits_at self.old ns }
        ensures answers { Answers (limits_at self.old ns) result
            (state_at self.old ns) step.now (state_at self.new ns) }
        ensures others { (m : ℕ) → m ≢ ns → at self.new.tenants m ≡ at self.old.tenants m }
        ensures unchanged { result ≡ Answer.NoMemory → self.new ≡ self.old }
        ensures succeeds { may_want_memory (limits_at self.old ns) (state_at self.old ns) step.now ≡ false
            → IsDone result }
        ensures covered { IsCovered self.new }
    {
        self.step_in(ns, step)
    }

    // The same, as one fact, inlined as a hub's is.
    #[inline(always)]
    fn step_in(&mut self, ns: u32, step: &Step) -> Answer
        requires lives { Lives self.old ns }
        ensures stepped { Stepped self.old self.new ns step.now result }
        ensures unchanged { result ≡ Answer.NoMemory → self.new ≡ self.old }
    {
        let mut door = self.pool.door(ns);
        self.spaces[ns as usize].step(&mut door, step)
    }
}
