//! A soak: 64 namespaces over one pool make random steps in turn, and in the end each is compared with a lone run of
//! its own steps, and the frames are counted. With no words it is a short fixed load; with a number, of so many steps;
//! a second number is the seed. Each million steps the memory that the process has is told, and how long they took;
//! after the first million it is to stay flat.
#![tactic(auto)]

mod memory;
mod steps;
mod tenant;

use crate::memory::Memory;
use crate::tenant::Tenant;
use pf_base::Config;
use pf_frame::Frame;
use pf_hub::Hub;
use rand_core::utils::NextWord;
use rand_pcg::Pcg32;
use std::alloc::{AllocError, Global};
use std::process::ExitCode;
use std::time::Instant;
use std::{env, io};

const NAMESPACES: u32 = 64;

/// How many frames each namespace reserves.
const RESERVE: u32 = 64;

/// How many steps the fixed load has.
const FIXED_STEPS: u64 = 20_000;

const FIXED_SEED: u64 = 39;

/// After as many steps the memory is told and judged.
const MILLION: u64 = 1_000_000;

/// A hub of so many namespaces, whose frames hold this byte throughout.
fn opened(alloc: Global, namespaces: u32, fill: u8) -> Result<Option<Hub<Global>>, AllocError> {
    let Ok(config) = Config::new(
        RESERVE,
        Config::DEFAULT_SOFT,
        Config::DEFAULT_HARD,
        Config::DEFAULT_MAX,
    ) else {
        return Ok(None);
    };
    let mut configs = Vec::new(alloc);
    for _ in 0..namespaces {
        configs.push((config, alloc))?;
    }
    let mut frames = Vec::new(alloc);
    for _ in 0..namespaces.min(NAMESPACES) * RESERVE {
        frames.push(Frame::filled(alloc, fill)?)?;
    }
    Ok(Hub::new(alloc, frames, configs).ok())
}

/// Makes so many steps, each of a random tenant.
fn soak(
    alloc: Global,
    hub: &mut Hub<Global>,
    order: &mut Pcg32,
    tenants: &mut [Tenant],
    steps: u64,
) -> Result<(), AllocError> {
    for _ in 0..steps {
        let ns = order.next_word() % NAMESPACES;
        if let Some(tenant) = tenants.get_mut(ns as usize) {
            tenant.go_on(alloc, hub, ns)?;
        }
    }
    Ok(())
}

/// Makes so many steps, and tells of each million. Whether the memory was flat.
fn soak_told(
    rt: &HostRuntime,
    hub: &mut Hub<Global>,
    order: &mut Pcg32,
    tenants: &mut [Tenant],
    steps: u64,
) -> io::Result<bool> {
    let mut memory = Memory::new();
    for millions in 1..=steps / MILLION {
        let start = Instant::now(rt)?;
        soak(rt.alloc(), hub, order, tenants, MILLION)?;
        let milliseconds = start.elapsed(rt)?.as_millis();
        let (pages, free) = (memory.measure(rt)?, hub.free());
        println!(rt;
            "{millions} million steps: {pages} pages of memory, {free} frames free, {milliseconds} ms"
        )?;
    }
    soak(rt.alloc(), hub, order, tenants, steps % MILLION)?;
    Ok(memory.is_flat())
}

/// How many frames are free or held by a namespace, none of which holds more than it reserves.
fn count_frames(hub: &Hub<Global>) -> Option<u32> {
    let mut frames = hub.free();
    for ns in 0..NAMESPACES {
        if hub.held(ns) > RESERVE {
            return None;
        }
        frames = frames.saturating_add(hub.held(ns));
    }
    Some(frames)
}

/// How many steps of all tenants were told of want of memory.
fn count_nomem(tenants: &[Tenant]) -> u64 {
    let mut nomem: u64 = 0;
    for tenant in tenants {
        nomem = nomem.saturating_add(tenant.nomem);
    }
    nomem
}

/// Makes as many steps of a tenant again, in a hub without others and over other frames.
fn alone(
    alloc: Global,
    hub: &mut Hub<Global>,
    seed: u64,
    number: u64,
    steps: u64,
) -> Result<Tenant, AllocError> {
    let mut tenant = Tenant::new(seed, number);
    for _ in 0..steps {
        tenant.go_on(alloc, hub, 0)?;
    }
    Ok(tenant)
}

/// How many tenants are told the same alone.
fn count_agreeing(alloc: Global, seed: u64, tenants: &[Tenant]) -> Result<u32, AllocError> {
    let mut agreeing: u32 = 0;
    for (number, tenant) in (0..).zip(tenants) {
        if let Some(mut hub) = opened(alloc, 1, 0)? {
            let again = alone(alloc, &mut hub, seed, number, tenant.steps)?;
            agreeing = agreeing.saturating_add(u32::from(again.agrees(tenant)));
        }
    }
    Ok(agreeing)
}

/// Whether a soak ends as it is to.
fn run(rt: &HostRuntime, steps: u64, seed: u64) -> io::Result<bool> {
    let mut tenants = Vec::new(rt.alloc());
    for number in 0..u64::from(NAMESPACES) {
        tenants.push(Tenant::new(seed, number))?;
    }
    let Some(mut hub) = opened(rt.alloc(), NAMESPACES, 165)? else {
        return Ok(false);
    };
    let mut order = Pcg32::new(seed, u64::from(NAMESPACES));
    let is_flat = soak_told(rt, &mut hub, &mut order, &mut tenants, steps)?;
    let Some(frames) = count_frames(&hub) else {
        return Ok(false);
    };
    let nomem = count_nomem(&tenants);
    let agreeing = count_agreeing(rt.alloc(), seed, &tenants)?;
    println!(rt; "{steps} steps, {nomem} of them in want of memory")?;
    println!(rt; "{frames} frames, free or held")?;
    println!(rt; "{agreeing} namespaces are told the same alone")?;
    if !is_flat {
        println!(rt; "memory grew after the first million steps")?;
    }
    Ok(is_flat && frames == NAMESPACES * RESERVE && nomem == 0 && agreeing == NAMESPACES)
}

fn main(rt: HostRuntime) -> io::Result<ExitCode> {
    let mut words = env::args(&rt)?;
    let _program = words.next();
    let steps = words.next().map(|word| word.parse::<u64>().ok());
    let seed = words.next().map(|word| word.parse::<u64>().ok());
    let (Some(steps), Some(seed)) = (
        steps.unwrap_or(Some(FIXED_STEPS)),
        seed.unwrap_or(Some(FIXED_SEED)),
    ) else {
        println!(&rt; "usage: pf_soak [STEPS [SEED]]")?;
        return Ok(ExitCode::FAILURE);
    };
    if run(&rt, steps, seed)? {
        return Ok(ExitCode::SUCCESS);
    }
    println!(&rt; "wrong")?;
    Ok(ExitCode::FAILURE)
}
