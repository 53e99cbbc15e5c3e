//! What all ways have in common: the frames of a row's script, the limits of its namespaces, and blank ledgers.

ghost use Rattle.std.specs.Prelude.{◌≡◌, IfOk, length};
ghost use Rattle.pf_base.specs.declared.TheConstants.{MAX_NAMESPACES};

use crate::end::End;
use crate::row::Row;
use pf_base::{Config, MAX_NAMESPACES};
use pf_frame::Frame;
use pf_script::Script;
use std::alloc::{AllocError, Global};
use std::sync::ledger::Blank;

/// So many frames of 165 throughout.
pub(crate) fn frames_of(alloc: Global, count: u32) -> Result<Vec<Frame>, AllocError>
    ensures { IfOk result (λ frames. length frames.items ≡ count) }
{
    let mut frames = Vec::with_capacity(alloc, count as usize)?;
    for _ in 0..count {
        frames.push_reserved(Frame::filled(alloc, 165)?);
    }
    Ok(frames)
}

/// The limits of the namespaces that are there from the start, whose files are all in the global allocator's memory.
pub(crate) fn configs_of(
    alloc: Global,
    row: &Row<'_>,
    script: &Script,
) -> Result<Vec<(Config, Global)>, End> {
    let mut configs = Vec::new(alloc);
    let residents = row.residents(script) as usize;
    for config in script.configs(alloc)?.iter().take(residents) {
        configs.push((*config, alloc))?;
    }
    Ok(configs)
}

/// A ledger with a part for each namespace that there may be.
pub(crate) fn blank() -> Blank
    ensures { result.parts ≡ MAX_NAMESPACES }
{
    Blank::new(MAX_NAMESPACES as u64)
}
