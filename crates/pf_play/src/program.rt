ghost use Rattle.std.specs.Prelude.{◌≡◌, ◌≢◌, ◌⊎◌, ◌&&◌, true, false, None, Err, is_some, map, option_copied, string_bytes};
ghost use Rattle.std.specs.Process.{exit_status};
ghost use Rattle.clap.specs.Words.{kind_of};
ghost use Rattle.clap.specs.declared.error.kind.ErrorKind.TheVariants as kinds;
ghost use Rattle.pf_script.specs.Notices.{notice_line};
ghost use Rattle.pf_play.specs.CommandLine.{name_in, wants_threads};
ghost use Rattle.pf_play.specs.Program.{code_of, status_of, words_of, Obeys, IsRun};
ghost use Rattle.pf_play.specs.Program.{IsTold, IsToldLine, IsUsage, IsNoMemory, IsGatedIfDone, one_thread_line};

use crate::command_line::{Asked, options_of};
use crate::run::{ReplayFault, Replayed, replay};
use crate::run_threads::replay_threads;
use clap::Error;
use clap::error::ErrorKind;
use pf_script::{Notice, Reading, Sink, Source, Writing, print_notice, write_out};
use pf_worker::{Gate, NoGate};
use std::alloc::Global;
use std::process::ExitCode;
use std::rt::Env;
use std::sync::Wait;
use std::thread::Threads;
use std::{env, io};

/// What is told where a word of the command line is no text.
const NO_TEXT: &str = "error: a word of the command line isn't UTF-8\n";

/// What is told where threads are asked for and the script admits or retires a namespace.
const NEEDS_ONE: &str = "admit and retire need one thread\n";

/// What is told where threads are asked for and heaps for the files.
const ONE_THREAD: &str = "--tree-heap needs one thread\n";

/// What the process ends with.
#[derive(Debug, Clone, Copy)]
pub enum Status {
    /// All is done, and no line met want of memory.
    Done = 0,
    /// The script is refused.
    Refused = 1,
    /// The words of the command line aren't taken, they ask for help or for what threads can't have, no namespace has the
    /// name that they choose, or the script needs one thread and they ask for more.
    Usage = 2,
    /// Memory was wanted, by a step, by an admission or outside of the lines.
    NoMemory = 3,
    /// A read or a write failed.
    Fault = 4,
}

impl Status {
    /// This status as the process's.
    pub fn exit_code(self) -> ExitCode
        ensures { exit_status result ≡ code_of self }
    {
        ExitCode::from(self as u8)
    }
}

/// Writes this text, after which the status is this one, or that of a write fault.
fn tell_text<W: Sink>(writer: &mut W, text: &str, status: Status) -> Status
    ensures { IsTold (W.output writer.old) (W.output writer.new) text.now status result }
{
    match write_out(writer, text.as_bytes()) {
        Ok(()) => status,
        Err(_) => Status::Fault,
    }
}

/// Prints a line that says why there is no text, after which the status is this one, or that of a write fault.
fn tell<W: Sink>(writer: &mut W, notice: &Notice<'_>, status: Status) -> Status
    ensures { IsTold (W.output writer.old) (W.output writer.new) (notice_line notice.now) status result }
{
    match print_notice(writer, notice) {
        Ok(()) => status,
        Err(_) => Status::Fault,
    }
}

/// Prints that memory was wanted.
fn tell_no_memory<W: Sink>(writer: &mut W) -> Status
    ensures { IsNoMemory (W.output writer.old) (W.output writer.new) result }
{
    tell(writer, &Notice::NoMemory, Status::NoMemory)
}

/// Prints why the words aren't taken, or the help that they ask for.
fn tell_usage<W: Sink>(alloc: Global, writer: &mut W, error: Error) -> Status
    ensures { ((kind_of error ≢ kinds.OutOfMemory) × IsUsage (W.output writer.old) (W.output writer.new) result)
        ⊎ IsNoMemory (W.output writer.old) (W.output writer.new) result }
{
    if matches!(error.kind(), ErrorKind::OutOfMemory) {
        return tell_no_memory(writer);
    }
    match format!(in alloc; "{error}") {
        Ok(text) => tell_text(writer, text.as_str(), Status::Usage),
        Err(_) => tell_no_memory(writer),
    }
}

/// Prints what is told of a run that failed, this name being chosen or none.
fn tell_fault<W: Sink>(writer: &mut W, only: Option<&str>, fault: ReplayFault) -> Status
    ensures { IsToldLine (W.output writer.old) (W.output writer.new)
        (words_of (option_copied only.entry) (Err fault)) (status_of (Err fault)) result }
{
    match fault {
        ReplayFault::Script(refusal) => tell(writer, &Notice::Refused(refusal), Status::Refused),
        ReplayFault::NoSuchName => {
            let name = only.unwrap_or("");
            tell(writer, &Notice::NoNamespace(name), Status::Usage)
        }
        ReplayFault::NeedsOneThread => tell_text(writer, NEEDS_ONE, Status::Usage),
        ReplayFault::NoMemory => tell_no_memory(writer),
        ReplayFault::ReadFault => tell(writer, &Notice::ReadFault, Status::Fault),
        ReplayFault::WriteFault => Status::Fault,
    }
}

/// Prints what is told of a run's end, this name being chosen or none: nothing beside the text where there is one.
fn tell_end<W: Sink>(
    writer: &mut W,
    only: Option<&str>,
    end: Result<Replayed, ReplayFault>,
) -> Status
    ensures { IsToldLine (W.output writer.old) (W.output writer.new)
        (words_of (option_copied only.entry) end) (status_of end) result }
{
    match end {
        Ok(replayed) if replayed.nomem > 0 => Status::NoMemory,
        Ok(_) => Status::Done,
        Err(fault) => tell_fault(writer, only, fault),
    }
}

/// Runs the script that the reader has, and prints its text or why there is none.
fn play_input<R: Source, W: Sink>(
    alloc: Global,
    reader: &mut R,
    writer: &mut W,
    asked: &Asked<'_>,
) -> Status
    requires { asked.now.threads ≡ false }
    ensures { IsRun false (R.input reader.old) (R.input reader.new) (W.output writer.old) (W.output writer.new)
        (option_copied asked.now.options.only) result }
{
    let end = replay(alloc, reader, writer, &asked.options);
    tell_end(writer, asked.options.only, end)
}

/// The same with a thread for each namespace, and with a gate that is told of each step.
fn play_input_threads<T: Threads + Wait + Sync, R: Source, W: Sink, G: Gate + Sync>(
    rt: &T,
    alloc: Global,
    reader: &mut R,
    writer: &mut W,
    asked: &Asked<'_>,
    gate: &G,
) -> Status
    requires threads { asked.now.threads ≡ true }
    requires no_heap { asked.now.options.tree_heap ≡ None }
    ensures run { IsRun true (R.input reader.old) (R.input reader.new) (W.output writer.old) (W.output writer.new)
        (option_copied asked.now.options.only) result }
    ensures gated { IsGatedIfDone (G.passed gate.now) (R.input reader.old) (R.input reader.new)
        (option_copied asked.now.options.only) result }
{
    let end = replay_threads(rt, alloc, reader, writer, &asked.options, gate);
    tell_end(writer, asked.options.only, end)
}

/// Does what words ask for that are taken.
fn do_asked<T: Threads + Wait + Sync, R: Source, W: Sink, G: Gate + Sync>(
    rt: &T,
    alloc: Global,
    reader: &mut R,
    writer: &mut W,
    asked: &Asked<'_>,
    gate: &G,
) -> Status
    ensures run { asked.now.threads && is_some asked.now.options.tree_heap ≡ false →
        IsRun asked.now.threads (R.input reader.old) (R.input reader.new) (W.output writer.old) (W.output writer.new)
        (option_copied asked.now.options.only) result }
    ensures one_thread { asked.now.threads && is_some asked.now.options.tree_heap ≡ true →
        (R.input reader.new ≡ R.input reader.old)
        × IsTold (W.output writer.old) (W.output writer.new) one_thread_line Status.Usage result }
    ensures gated { asked.now.threads ≡ true → IsGatedIfDone (G.passed gate.now)
        (R.input reader.old) (R.input reader.new) (option_copied asked.now.options.only) result }
{
    if !asked.threads {
        return play_input(alloc, reader, writer, asked);
    }
    if asked.options.tree_heap.is_some() {
        return tell_text(writer, ONE_THREAD, Status::Usage);
    }
    play_input_threads(rt, alloc, reader, writer, asked, gate)
}

/// Judges the words of the command line, of which the first is the program's name, and then does what they say. What is
/// written is the same with threads and without where no memory is wanted, but for a script that admits or retires a
/// namespace: that needs one thread. The gate is told of each step where threads are asked for, and of none else. A
/// heap for the files is for one thread.
pub fn obey<T: Threads + Wait + Sync, R: Source, W: Sink, G: Gate + Sync>(
    rt: &T,
    alloc: Global,
    words: &[String],
    reader: &mut R,
    writer: &mut W,
    gate: &G,
) -> Status
    ensures obeys { Obeys (map string_bytes words.now) (R.input reader.old) (R.input reader.new)
        (W.output writer.old) (W.output writer.new) result }
    ensures gated { wants_threads (map string_bytes words.now) ≡ true → IsGatedIfDone (G.passed gate.now)
        (R.input reader.old) (R.input reader.new) (name_in (map string_bytes words.now)) result }
{
    match options_of(alloc, words) {
        Ok(asked) => do_asked(rt, alloc, reader, writer, &asked, gate),
        Err(error) => tell_usage(alloc, writer, error),
    }
}

/// Prints why the words of the command line can't be had: one of them is no text, or memory was wanted.
fn tell_no_words<W: Sink>(writer: &mut W, error: &io::Error) -> Status
    ensures { IsUsage (W.output writer.old) (W.output writer.new) result
        ⊎ IsNoMemory (W.output writer.old) (W.output writer.new) result }
{
    if matches!(error.kind(), io::ErrorKind::OutOfMemory) {
        return tell_no_memory(writer);
    }
    tell_text(writer, NO_TEXT, Status::Usage)
}

/// The words of the command line.
fn words<T: Env + AllocGlobal>(rt: &T) -> io::Result<Vec<String>> {
    let words = env::args(rt)?.collect(rt.alloc())?;
    Ok(words)
}

/// The whole program `pfplay`: the words of the command line are judged, the script on standard input is run, and the
/// text goes to standard output. With `--threads` each namespace is run on a thread of its own. With `--only NAME` the
/// lines of that namespace are run alone, and its section is the text. With `--tree-heap BYTES` each namespace's files
/// have a heap of their own. The process ends with 0 where all is done, 1 where the script is refused, 2 for usage, for
/// a name that no namespace has and for what needs one thread, 3 where memory was wanted, and 4 where reading or
/// writing failed.
pub fn run_program<T: Threads + Wait + Sync + Env + Input + Print + AllocGlobal>(
    rt: &T,
) -> ExitCode {
    let mut reader = Reading::new(rt.reader());
    let mut writer = Writing::new(io::writer(rt));
    let status = match words(rt) {
        Ok(words) => obey(
            rt,
            rt.alloc(),
            words.as_slice(),
            &mut reader,
            &mut writer,
            &NoGate,
        ),
        Err(error) => tell_no_words(&mut writer, &error),
    };
    status.exit_code()
}
