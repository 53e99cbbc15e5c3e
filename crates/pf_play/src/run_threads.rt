ghost use Rattle.std.specs.Prelude.{◌≡◌, true, None, IfOk, IfErr, IsOk, option_copied};
ghost use Rattle.pf_play.specs.Replays.{IsReplayed, IsFault};
ghost use Rattle.pf_play.specs.Workers.{IsGated, IsFramedText};
ghost use Rattle.pf_script.specs.Faults.{IsRead};
ghost use Rattle.pf_script.specs.Ports.{Input};

use crate::engine::{Options, comes_and_goes, frames_of};
use crate::run::{ReplayFault, Replayed, chosen, print_answers};
use crate::threads::play_threads;
use pf_script::{Script, Sink, Source, read_script};
use pf_worker::Gate;
use std::alloc::Global;
use std::sync::Wait;
use std::thread::Threads;

/// What `replay_threads` does with a script that was read.
fn replay_script_threads<T: Threads + Wait + Sync, W: Sink, G: Gate + Sync>(
    rt: &T,
    alloc: Global,
    writer: &mut W,
    script: &Script,
    options: &Options<'_>,
    gate: &G,
) -> Result<Replayed, ReplayFault>
    ensures played { (input : Input) (rest : Input) → IsRead input rest script.now → IfOk result
        (λ r. IsReplayed true input rest (W.output writer.old) (W.output writer.new)
        (option_copied options.now.only) r.nomem) }
    ensures fault { (input : Input) (rest : Input) → IsRead input rest script.now → IfErr result
        (IsFault true input rest (W.output writer.old) (W.output writer.new) (option_copied options.now.only)) }
    ensures passed { (input : Input) (rest : Input) → IsRead input rest script.now → IsOk result
        → IsGated (G.passed gate.now) input rest (option_copied options.now.only) }
    ensures framed { (input : Input) (rest : Input) → IsRead input rest script.now → IsOk result
        → IsFramedText (G.framed gate.now) input rest (W.output writer.old) (W.output writer.new)
        (option_copied options.now.only) }
{
    if comes_and_goes(script) {
        return Err(ReplayFault::NeedsOneThread);
    }
    let Ok(only) = chosen(script, options.only) else {
        return Err(ReplayFault::NoSuchName);
    };
    let frames = frames_of(alloc, script.frames(), options.fill)?;
    let answered = play_threads(rt, alloc, script, only, frames, gate)?;
    let end = print_answers(writer, script, &answered);
    drop(answered);
    end
}

/// A `replay` with a thread for each namespace, over a depot that they share: the text is that of `replay`, whatever the
/// order in which the threads come to run. With one name chosen there is a thread for it alone.
///
/// The gate is told of each step just before it is made, with the namespace's number in the script and the step's place
/// among the namespace's own, while no lock is held; and of each frame before it is taken: that is the way of
/// `pf_worker`'s `GatedDepot`, and no clause of this call's. A thread that can't be started counts as a growth of
/// memory that was refused. The files stand in the global allocator's memory: a heap of `Options::tree_heap` is for one
/// thread.
///
/// A script that admits or retires a namespace needs one thread: it is refused before the chosen name is looked for.
pub fn replay_threads<T: Threads + Wait + Sync, R: Source, W: Sink, G: Gate + Sync>(
    rt: &T,
    alloc: Global,
    reader: &mut R,
    writer: &mut W,
    options: &Options<'_>,
    gate: &G,
) -> Result<Replayed, ReplayFault>
    requires { options.now.tree_heap ≡ None }
    ensures played { IfOk result (λ r. IsReplayed true (R.input reader.old) (R.input reader.new)
        (W.output writer.old) (W.output writer.new) (option_copied options.now.only) r.nomem) }
    ensures fault { IfErr result (IsFault true (R.input reader.old) (R.input reader.new)
        (W.output writer.old) (W.output writer.new) (option_copied options.now.only)) }
    ensures passed { IsOk result → IsGated (G.passed gate.now) (R.input reader.old) (R.input reader.new)
        (option_copied options.now.only) }
    ensures framed { IsOk result → IsFramedText (G.framed gate.now) (R.input reader.old) (R.input reader.new)
        (W.output writer.old) (W.output writer.new) (option_copied options.now.only) }
{
    let script = read_script(alloc, reader)?;
    let end = replay_script_threads(rt, alloc, writer, &script, options, gate);
    drop(script);
    end
}
