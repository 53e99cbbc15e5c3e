ghost use Rattle.std.specs.Prelude.{◌≡◌, ℕ, ◌<◌, ◌≤◌, ◌↔◌, length, slice_get, IsTrue, IfOk, IfErr, OnOk, Some};
ghost use Rattle.std.specs.Bool.{MatchBool};
ghost use Rattle.pf_base.specs.declared.TheConstants.{MAX_NUMBERS};
ghost use Rattle.pf_service.specs.Judged.{HasLimits, Fits, Agrees, IsCause};
ghost use Rattle.pf_service.specs.Seats.{AreGiven};

use crate::fault::CloseFault;
use crate::given::are_given;
use crate::merge::is_merge;
use crate::seat::Seat;
use crate::transcript::Transcript;
use pf_base::Config;
use std::alloc::{AllocError, Global};

fn is_same_config(a: &Config, b: &Config) -> bool
    ensures { IsTrue result ↔ (a.now ≡ b.now) }
{
    a == b
}

// Whether a namespace was given the limits of its transcript, if it was given any.
fn has_limits(configs: &[Config], transcript: &Transcript, ns: u32) -> bool
    ensures { IsTrue result ↔ HasLimits configs.now ns transcript.now.limits }
{
    match configs.get(ns as usize) {
        Some(config) => is_same_config(config, &transcript.config()),
        None => true,
    }
}

// Whether a namespace was given the limits of its transcript, if it was given any, and this is a merge of what its seats
// keep.
fn fits(
    alloc: Global,
    configs: &[Config],
    transcript: &Transcript,
    seats: &[Seat],
    ns: u32,
) -> Result<bool, AllocError>
    ensures { IfOk result (λ b. MatchBool b (Fits configs.now transcript.now seats.now ns)
        (Fits configs.now transcript.now seats.now ns → ⊥)) }
{
    if !has_limits(configs, transcript, ns) {
        return Ok(false);
    }
    is_merge(alloc, transcript.entries(), seats, ns)
}

/// Whether all seats fit all transcripts, of namespaces of which the first were given these limits, and which gave so
/// many seats each; or the first cause why they don't, or that memory was wanted.
///
/// It takes time in proportion to the entries, to the events of all seats, and to the seats times the namespaces.
pub fn compare(
    alloc: Global,
    configs: &[Config],
    transcripts: &[Transcript],
    given: &[u32],
    seats: &[Seat],
) -> Result<(), CloseFault>
    requires few { length given.now ≤ MAX_NUMBERS }
    requires each { length transcripts.now ≡ length given.now }
    ensures given { OnOk result (AreGiven given.now seats.now) }
    ensures agree { OnOk result ((n : ℕ) → Agrees configs.now transcripts.now seats.now n) }
    ensures cause { IfErr result (IsCause configs.now transcripts.now given.now seats.now) }
{
    if !are_given(alloc, seats, given)? {
        return Err(CloseFault::SeatsMissing);
    }
    for ns in 0..transcripts.len() {
        if !fits(alloc, configs, &transcripts[ns], seats, ns as u32)? {
            return Err(CloseFault::Disagree { ns: ns as u32 });
        }
    }
    if transcripts.len() < configs.len() {
        return Err(CloseFault::Disagree {
            ns: transcripts.len() as u32,
        });
    }
    Ok(())
}
