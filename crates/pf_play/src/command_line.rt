ghost use Rattle.std.specs.Prelude.{◌≡◌, IfOk, false, map, option_copied, string_bytes};
ghost use Rattle.clap.specs.Words.{FailsBy, app_of, rule_of};
ghost use Rattle.pf_play.specs.CommandLine.{only_rule, threads_rule, tree_heap_rule, pfplay};
ghost use Rattle.pf_play.specs.CommandLine.{is_true, name_in, tree_heap_in, wants_threads, refusals};

use crate::engine::{LEAST_TREE_HEAP, MOST_TREE_HEAP, Options};
use clap::builder::ValueParser;
use clap::{Arg, ArgAction, Command, Error};
use std::alloc::{AllocError, Global};

/// The byte that every frame holds at the start.
const FILL: u8 = 165;

/// What `--help` says.
const ABOUT: &str = "Runs a script of pipe calls from standard input and prints each call's answer";

/// What it says of `--threads`.
const ABOUT_THREADS: &str =
    "Runs each namespace on a thread of its own, with the same text; admit and retire need one thread";

/// What it says of `--only`.
const ABOUT_ONLY: &str = "Runs this namespace's lines alone, and prints its section";

/// What it says of `--tree-heap`.
const ABOUT_TREE_HEAP: &str =
    "Keeps each namespace's files in a heap of its own, of 1024 to 16777216 bytes; it needs one thread";

/// The end of what `--help` says: the lines of a script, and a script.
const SCRIPT: &str = "Lines of a script:
  pool FRAMES
  space NAME RESERVE [SOFT [HARD [MAX]]]
  NAME spawn UID GID UMASK [GROUP,GROUP,..]
  NAME fork PID              NAME exit PID
  NAME mkdir PID PATH MODE   NAME mkfifo PID PATH MODE
  NAME unlink PID PATH       NAME rmdir PID PATH
  NAME chmod PID PATH MODE   NAME stat PID PATH
  NAME list PID PATH         NAME open PID PATH FLAGS
  NAME pipe PID [n]          NAME dup PID FD
  NAME close PID FD          NAME read PID FD LEN
  NAME write PID FD DATA     NAME tee PID IN OUT LEN [n]
  NAME splice PID IN OUT LEN [n]
  NAME setsize PID FD BYTES  NAME getsize PID FD
  NAME nonblock PID FD on|off
  NAME resume PID
  admit NAME RESERVE [SOFT [HARD [MAX]]]
  retire NAME

UMASK and MODE are octal: a umask at most 0777, a mode at most 01777, where 01000 is the sticky bit.
FLAGS are r, w or rw, with n behind them for O_NONBLOCK.
DATA is hexadecimal, or COUNT*HH for a byte COUNT times, or - for none.

Example:
  printf 'pool 16\\nspace red 16\\nred spawn 5 5 022\\nred pipe 1\\n' | pfplay";

/// What the words of the command line ask for.
#[derive(Debug, Clone, Copy)]
pub struct Asked<'a> {
    /// How the script is to be run.
    pub options: Options<'a>,
    /// Whether each namespace is to have a thread of its own.
    pub threads: bool,
}

/// The option `--threads`.
fn threads<'a>(alloc: Global) -> Arg<'a>
    ensures rule { rule_of result ≡ threads_rule }
    ensures own { result.global ≡ false }
{
    Arg::new(alloc, "threads")
        .long("threads")
        .action(ArgAction::SetTrue)
        .help(ABOUT_THREADS)
}

/// The option `--only NAME`.
fn only<'a>(alloc: Global) -> Arg<'a>
    ensures rule { rule_of result ≡ only_rule }
    ensures own { result.global ≡ false }
{
    Arg::new(alloc, "only")
        .long("only")
        .value_name("NAME")
        .help(ABOUT_ONLY)
}

/// The option `--tree-heap BYTES`.
fn tree_heap<'a>(alloc: Global) -> Arg<'a>
    ensures rule { rule_of result ≡ tree_heap_rule }
    ensures own { result.global ≡ false }
{
    let bytes = ValueParser::unsigned(LEAST_TREE_HEAP as u64, MOST_TREE_HEAP as u64);
    Arg::new(alloc, "tree-heap")
        .long("tree-heap")
        .value_name("BYTES")
        .value_parser(bytes)
        .help(ABOUT_TREE_HEAP)
}

/// What the words of the command line may be.
fn command<'a>(alloc: Global) -> Result<Command<'a>, AllocError>
    ensures { IfOk result (λ command. app_of command ≡ pfplay) }
{
    Command::new(alloc, "pfplay")
        .about(ABOUT)
        .after_help(SCRIPT)
        .arg(threads(alloc))?
        .arg(only(alloc))?
        .arg(tree_heap(alloc))?
        .bin_name("pfplay")
}

/// Whether an option without a value is used: `true` is then kept of it.
fn is_used(kept: Option<&str>) -> bool
    ensures { result ≡ is_true (option_copied kept.entry) }
{
    match kept {
        Some(text) => text == "true",
        None => false,
    }
}

/// What the words of the command line ask for. The first of them is the program's name. An error says why they aren't
/// taken, or is the help that they ask for, or is of kind `OutOfMemory`.
pub fn options_of<'a>(alloc: Global, words: &'a [String]) -> Result<Asked<'a>, Error>
    ensures only { IfOk result (λ asked.
        option_copied asked.options.only ≡ name_in (map string_bytes words.entry.now)) }
    ensures tree_heap { IfOk result (λ asked.
        asked.options.tree_heap ≡ tree_heap_in (map string_bytes words.entry.now)) }
    ensures fill { IfOk result (λ asked. asked.options.fill ≡ 165) }
    ensures threads { IfOk result (λ asked. asked.threads ≡ wants_threads (map string_bytes words.entry.now)) }
    ensures refusals { FailsBy (refusals (map string_bytes words.entry.now)) result }
{
    let command = command(alloc)?;
    let matches = command.try_get_matches_from(words)?;
    let options = Options {
        only: matches.get_str("only"),
        tree_heap: matches.get_one::<u32>("tree-heap"),
        fill: FILL,
    };
    let threads = is_used(matches.get_str("threads"));
    Ok(Asked { options, threads })
}
