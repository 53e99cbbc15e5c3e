// A hub is opened for C.
ghost use Rattle.std.specs.Prelude.{◌≡◌, ◌≤◌, map, length, sum, true, is_none, IfOk, MatchResult};
ghost use Rattle.std.specs.List.{list_all};
ghost use Rattle.pf_c.specs.Opened.{limits_in, is_limits, can_open, fault_of_opening, code_of_fault, Opens};
ghost use Rattle.pf_hub.specs.Opening.{limits_of, new_hub, first_fault};

use crate::told::{NO_MEMORY, refused};
use pf_base::{Config, Errno, MAX_FRAMES, MAX_NAMESPACES};
use pf_frame::Frame;
use pf_hub::Hub;
use std::alloc::{AllocError, Global};

/// The limits of a namespace, as C gives them: frames that are reserved for it, pipe-user-pages-soft and -hard in
/// pages (0 is no limit), and pipe-max-size in bytes.
#[repr(C)]
#[derive(Drop)]
pub struct SagLimits {
    pub reserve: u32,
    pub soft: u32,
    pub hard: u32,
    pub max: u32,
}

/// Why no hub was opened.
#[derive(Drop)]
pub enum OpenFault {
    /// No hub can have these frames and limits.
    Invalid,
    /// Memory of the heap was wanted.
    NoMemory,
}

impl OpenFault {
    /// What C is told of it.
    pub(crate) fn code(&self) -> i64
        ensures { result ≡ code_of_fault self.now }
    {
        match self {
            OpenFault::Invalid => refused(Errno::EINVAL),
            OpenFault::NoMemory => NO_MEMORY,
        }
    }
}

// So many frames.
fn frames_of(alloc: Global, count: u32) -> Result<Vec<Frame>, AllocError>
    ensures { IfOk result (λ frames. length frames.items ≡ count) }
{
    let mut frames = Vec::with_capacity(alloc, count as usize)?;
    for _ in 0..count {
        frames.push_reserved(Frame::filled(alloc, 0)?);
    }
    Ok(frames)
}

// Whether a namespace can have these limits.
fn is_limits(limits: &SagLimits) -> bool
    ensures { result ≡ is_limits limits.now }
{
    Config::new(limits.reserve, limits.soft, limits.hard, limits.max).is_ok()
}

// The sum of the reservations.
fn reserved(limits: &[SagLimits]) -> u64
    requires { length limits.now ≤ 64 }
    ensures { result ≡ sum (map (λ l. l.reserve) limits.now) }
{
    limits.iter().map(|limit| u64::from(limit.reserve)).sum()
}

// Whether a hub can have so many frames, and keep for each namespace what it reserves.
fn can_reserve(frames: u32, limits: &[SagLimits]) -> bool
    ensures { result ≡ is_none (first_fault frames (map limits_in limits.now)) }
{
    if limits.len() > MAX_NAMESPACES || frames as usize > MAX_FRAMES {
        return false;
    }
    if reserved(limits) > u64::from(frames) {
        return false;
    }
    true
}

// Whether a namespace can have each of these limits.
fn are_limits(limits: &[SagLimits]) -> bool
    ensures { result ≡ list_all is_limits limits.now }
{
    limits.iter().all(|limit| is_limits(limit))
}

// Whether there can be a hub of so many frames with these limits. It takes no memory.
fn can_open(frames: u32, limits: &[SagLimits]) -> bool
    ensures { result ≡ can_open frames limits.now }
{
    can_reserve(frames, limits) && are_limits(limits)
}

// The limits, each with an allocator for its namespace's files. The fault is want of memory.
fn configs_of(alloc: Global, limits: &[SagLimits]) -> Result<Vec<(Config, Global)>, AllocError>
    requires { list_all is_limits limits.now ≡ true }
    ensures { IfOk result (λ v. limits_of v.items ≡ map limits_in limits.now) }
{
    let mut configs = Vec::with_capacity(alloc, limits.len())?;
    for limit in limits {
        let Ok(config) = Config::new(limit.reserve, limit.soft, limit.hard, limit.max) else {
            unreachable!()
        };
        configs.push_reserved((config, alloc));
    }
    Ok(configs)
}

// The hub of frames and limits that can be.
fn within(alloc: Global, frames: u32, limits: &[SagLimits]) -> Result<Box<Hub<Global>>, AllocError>
    requires { can_open frames limits.now ≡ true }
    ensures { IfOk result (λ b. b.value.world ≡ new_hub (map limits_in limits.now) frames) }
{
    let configs = configs_of(alloc, limits)?;
    let frames = frames_of(alloc, frames)?;
    let Ok(hub) = Hub::new(alloc, frames, configs) else {
        return Err(AllocError);
    };
    Ok(Box::new(alloc, hub)?)
}

/// A hub of so many frames, with a namespace of each of these limits. They are tested before any memory is asked for.
pub(crate) fn opened(
    alloc: Global,
    frames: u32,
    limits: &[SagLimits],
) -> Result<Box<Hub<Global>>, OpenFault>
    ensures { MatchResult result (λ b. Opens b.value frames limits.now)
        (λ fault. fault ≡ fault_of_opening frames limits.now) }
{
    if !can_open(frames, limits) {
        return Err(OpenFault::Invalid);
    }
    match within(alloc, frames, limits) {
        Ok(hub) => Ok(hub),
        Err(_) => Err(OpenFault::NoMemory),
    }
}
