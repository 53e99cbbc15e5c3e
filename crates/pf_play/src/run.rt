ghost use Rattle.std.specs.Prelude.{◌≡◌, ℕ, List, Option, false, IfOk, IfErr, OnErr, option_copied};
ghost use Rattle.pf_base.specs.declared.admission.EventAnswer.{EventAnswer};
ghost use Rattle.pf_play.specs.Answered.{Holds};
ghost use Rattle.pf_play.specs.Played.{IsChosen};
ghost use Rattle.pf_play.specs.Plays.{nomem_of};
ghost use Rattle.pf_play.specs.Replays.{IsReplayed, IsFault, Names, NamesNone};
ghost use Rattle.pf_script.specs.Faults.{IsRead};
ghost use Rattle.pf_script.specs.Ports.{Input, IsWritten, IsCut};
ghost use Rattle.pf_script.specs.Text.{text};

use crate::answered::Answered;
use crate::engine::{Options, frames_of, play};
use pf_script::{Refusal, Script, ScriptFault, Sink, Source, WriteFault, read_script};
use std::alloc::{AllocError, Global};
use thiserror::Error;

/// What a run met.
#[derive(Debug, Clone, Copy, Drop)]
pub struct Replayed {
    /// How many lines, steps and admissions, were answered that memory was wanted. Each may want it, in the state that
    /// it met.
    pub nomem: u64,
}

/// Why a run ended before its end.
#[derive(Debug, Clone, Copy, Error)]
pub enum ReplayFault {
    /// The script was refused, after the whole of it was read. Nothing was written.
    #[error("{0}")]
    Script(Refusal),
    /// A growth of memory was refused outside of the lines. A thread that can't be started counts as one. Nothing was
    /// written.
    #[error("no memory")]
    NoMemory,
    /// The reader failed, or gave one byte more than `INPUT_LIMIT`. Nothing was written.
    #[error("read fault")]
    ReadFault,
    /// The writer failed, or took none of some bytes. A front of the text was written.
    #[error("write fault")]
    WriteFault,
    /// The script is accepted, and no namespace of it has the name that was chosen. Nothing was written.
    #[error("no such name")]
    NoSuchName,
    /// The script is accepted, but one of its lines admits or retires a namespace, and threads were asked for. Nothing was
    /// written.
    #[error("admit and retire need one thread")]
    NeedsOneThread,
}

impl From<ScriptFault> for ReplayFault {
    ghost use Rattle.pf_play.specs.Replays.{of_script};

    ghost from_gives = { λ fault e. e ≡ of_script fault };

    fn from(fault: ScriptFault) -> Self {
        match fault {
            ScriptFault::NoMemory => ReplayFault::NoMemory,
            ScriptFault::ReadFault => ReplayFault::ReadFault,
            ScriptFault::Refused(refusal) => ReplayFault::Script(refusal),
        }
    }
}

impl From<AllocError> for ReplayFault {
    ghost use Rattle.pf_play.specs.declared.run.ReplayFault.TheVariants.{NoMemory};

    ghost from_gives = { λ _ e. e ≡ NoMemory };

    fn from(_: AllocError) -> Self {
        ReplayFault::NoMemory
    }
}

impl From<WriteFault> for ReplayFault {
    ghost use Rattle.pf_play.specs.declared.run.ReplayFault.TheVariants as faults;

    ghost from_gives = { λ _ e. e ≡ faults.WriteFault };

    fn from(_: WriteFault) -> Self {
        ReplayFault::WriteFault
    }
}

/// No namespace has the name that was chosen.
#[derive(Debug, Clone, Copy)]
pub struct NoName;

/// The number of the namespace with the name that is chosen, if one is.
pub fn chosen(script: &Script, name: Option<&str>) -> Result<Option<u32>, NoName>
    ensures names { IfOk result (Names script.now (option_copied name.entry)) }
    ensures exists { IfOk result (IsChosen script.now) }
    ensures none { OnErr result (NamesNone script.now (option_copied name.entry)) }
{
    let Some(name) = name else {
        return Ok(None);
    };
    match script.place(name.as_bytes()) {
        Some(ns) => Ok(Some(ns)),
        None => Err(NoName),
    }
}

/// Prints the answers of a run, and tells how many of them say that memory was wanted.
pub fn print_answers<W: Sink>(
    writer: &mut W,
    script: &Script,
    answered: &Answered,
) -> Result<Replayed, ReplayFault>
    requires { (only : Option ℕ) × (answers : List EventAnswer) × Holds script.now answered.now only answers }
    ensures written { (only : Option ℕ) (answers : List EventAnswer) → Holds script.now answered.now only answers →
        IfOk result (λ r. IsWritten (W.output writer.old) (W.output writer.new) (text script.now answers only)
        × (r.nomem ≡ nomem_of answers)) }
    ensures cut { (only : Option ℕ) (answers : List EventAnswer) → Holds script.now answered.now only answers →
        IfErr result (λ fault. (fault ≡ ReplayFault.WriteFault)
        × IsCut (W.output writer.old) (W.output writer.new) (text script.now answers only)) }
{
    let nomem = answered.count_nomem(script);
    answered.print(writer, script)?;
    Ok(Replayed { nomem })
}

/// What `replay` does with a script that was read.
fn replay_script<W: Sink>(
    alloc: Global,
    writer: &mut W,
    script: &Script,
    options: &Options<'_>,
) -> Result<Replayed, ReplayFault>
    ensures played { (input : Input) (rest : Input) → IsRead input rest script.now → IfOk result
        (λ r. IsReplayed false input rest (W.output writer.old) (W.output writer.new)
        (option_copied options.now.only) r.nomem) }
    ensures fault { (input : Input) (rest : Input) → IsRead input rest script.now → IfErr result
        (IsFault false input rest (W.output writer.old) (W.output writer.new) (option_copied options.now.only)) }
{
    let Ok(only) = chosen(script, options.only) else {
        return Err(ReplayFault::NoSuchName);
    };
    let frames = frames_of(alloc, script.frames(), options.fill)?;
    let played = play(alloc, script, only, options.tree_heap, frames)?;
    let end = print_answers(writer, script, &played.answered);
    drop(played);
    end
}

/// Reads a script to its end, runs its lines, and writes the text of the answers. With one name chosen its lines are run
/// alone, over all of the script's frames, and its section alone is written. With heaps for the files each name that is
/// run has one of its own.
///
/// All faults but `WriteFault` come before the writer is asked for anything. A read or a write fault comes with the
/// first call that fails, and nothing is asked after it.
pub fn replay<R: Source, W: Sink>(
    alloc: Global,
    reader: &mut R,
    writer: &mut W,
    options: &Options<'_>,
) -> Result<Replayed, ReplayFault>
    ensures played { IfOk result (λ r. IsReplayed false (R.input reader.old) (R.input reader.new)
        (W.output writer.old) (W.output writer.new) (option_copied options.now.only) r.nomem) }
    ensures fault { IfErr result (IsFault false (R.input reader.old) (R.input reader.new)
        (W.output writer.old) (W.output writer.new) (option_copied options.now.only)) }
{
    let script = read_script(alloc, reader)?;
    let end = replay_script(alloc, writer, &script, options);
    drop(script);
    end
}
