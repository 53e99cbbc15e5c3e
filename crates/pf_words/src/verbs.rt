ghost use Rattle.std.specs.Prelude.{◌≡◌, map, option_copied};
ghost use Rattle.pf_words.specs.Verbs;
ghost use Rattle.pf_words.specs.Faults.{Gives};

use crate::arguments::{
    Crossing, Descriptor, Moded, Named, Sized, bits, crossing_of, descriptor_of, flag, groups,
    moded_of, named_of, number_32, open_flags, path_of, pid_of, sized_of, switch,
};
use crate::cause::Cause;
use crate::fault::LineFault;
use crate::words::data_of;
use pf_base::Step;
use std::alloc::Global;

// Verbs whose words no other verb has

#[tactic(auto, unfolding(crate::specs::Verbs::spawn_with))]
fn spawn_with(
    alloc: Global,
    uid: &[u8],
    gid: &[u8],
    umask: &[u8],
    group_word: Option<&[u8]>,
) -> Result<Step, LineFault>
    ensures { Gives result (Verbs.spawn_with uid.now gid.now umask.now (option_copied group_word.entry)) }
{
    let uid = number_32(uid)?;
    let gid = number_32(gid)?;
    let umask = bits(umask)?;
    let groups = groups(alloc, group_word)?;
    Ok(Step::Spawn {
        uid,
        gid,
        umask,
        groups,
    })
}

/// spawn UID GID UMASK [GROUP,GROUP,..].
#[tactic(auto, unfolding(crate::specs::Verbs::spawn_of))]
fn spawn_of(alloc: Global, words: &[&[u8]]) -> Result<Step, LineFault>
    ensures { Gives result (Verbs.spawn_of (map (λ w. w.now) words.now)) }
{
    match words {
        [uid, gid, umask] => spawn_with(alloc, uid, gid, umask, None),
        [uid, gid, umask, groups] => spawn_with(alloc, uid, gid, umask, Some(groups)),
        _ => Err(LineFault::Refused(Cause::WrongWords)),
    }
}

#[tactic(auto, unfolding(crate::specs::Verbs::pipe_with))]
fn pipe_with(pid: &[u8], flag_word: Option<&[u8]>) -> Result<Step, LineFault>
    ensures { Gives result (Verbs.pipe_with pid.now (option_copied flag_word.entry)) }
{
    let pid = number_32(pid)?;
    let nonblock = flag(flag_word)?;
    Ok(Step::Pipe { pid, nonblock })
}

/// pipe PID [n].
#[tactic(auto, unfolding(crate::specs::Verbs::pipe_of))]
fn pipe_of(words: &[&[u8]]) -> Result<Step, LineFault>
    ensures { Gives result (Verbs.pipe_of (map (λ w. w.now) words.now)) }
{
    match words {
        [pid] => pipe_with(pid, None),
        [pid, flag] => pipe_with(pid, Some(flag)),
        _ => Err(LineFault::Refused(Cause::WrongWords)),
    }
}

#[tactic(auto, unfolding(crate::specs::Verbs::nonblock_with))]
fn nonblock_with(pid: &[u8], fd: &[u8], word: &[u8]) -> Result<Step, LineFault>
    ensures { Gives result (Verbs.nonblock_with pid.now fd.now word.now) }
{
    let pid = number_32(pid)?;
    let fd = number_32(fd)?;
    let on = switch(word)?;
    Ok(Step::SetNonblock { pid, fd, on })
}

/// nonblock PID FD on|off.
#[tactic(auto, unfolding(crate::specs::Verbs::nonblock_of))]
fn nonblock_of(words: &[&[u8]]) -> Result<Step, LineFault>
    ensures { Gives result (Verbs.nonblock_of (map (λ w. w.now) words.now)) }
{
    match words {
        [pid, fd, word] => nonblock_with(pid, fd, word),
        _ => Err(LineFault::Refused(Cause::WrongWords)),
    }
}

#[tactic(auto, unfolding(crate::specs::Verbs::write_with))]
fn write_with(alloc: Global, pid: &[u8], fd: &[u8], word: &[u8]) -> Result<Step, LineFault>
    ensures { Gives result (Verbs.write_with pid.now fd.now word.now) }
{
    let pid = number_32(pid)?;
    let fd = number_32(fd)?;
    let payload = data_of(alloc, word)?;
    Ok(Step::Write { pid, fd, payload })
}

/// write PID FD DATA.
#[tactic(auto, unfolding(crate::specs::Verbs::write_of))]
fn write_of(alloc: Global, words: &[&[u8]]) -> Result<Step, LineFault>
    ensures { Gives result (Verbs.write_of (map (λ w. w.now) words.now)) }
{
    match words {
        [pid, fd, word] => write_with(alloc, pid, fd, word),
        _ => Err(LineFault::Refused(Cause::WrongWords)),
    }
}

#[tactic(auto, unfolding(crate::specs::Verbs::open_with))]
fn open_with(alloc: Global, pid: &[u8], path: &[u8], word: &[u8]) -> Result<Step, LineFault>
    ensures { Gives result (Verbs.open_with pid.now path.now word.now) }
{
    let pid = number_32(pid)?;
    let flags = open_flags(word)?;
    let path = path_of(alloc, path)?;
    Ok(Step::Open { pid, path, flags })
}

/// open PID PATH FLAGS.
#[tactic(auto, unfolding(crate::specs::Verbs::open_of))]
fn open_of(alloc: Global, words: &[&[u8]]) -> Result<Step, LineFault>
    ensures { Gives result (Verbs.open_of (map (λ w. w.now) words.now)) }
{
    match words {
        [pid, path, word] => open_with(alloc, pid, path, word),
        _ => Err(LineFault::Refused(Cause::WrongWords)),
    }
}

// The table of verbs: an arm has a verb's word, how the words behind it are read, and the step. It is in groups, one
// after the other.

/// The call on a file that a verb and its words stand for.
#[tactic(auto, unfolding(crate::specs::Verbs::file_call))]
fn file_call(alloc: Global, verb: &[u8], words: &[&[u8]]) -> Result<Step, LineFault>
    ensures { Gives result (Verbs.file_call verb.now (map (λ w. w.now) words.now)) }
{
    if verb == b"mkdir".as_slice() {
        let Moded { pid, path, mode } = moded_of(alloc, words)?;
        Ok(Step::Mkdir { pid, path, mode })
    } else if verb == b"mkfifo".as_slice() {
        let Moded { pid, path, mode } = moded_of(alloc, words)?;
        Ok(Step::Mkfifo { pid, path, mode })
    } else if verb == b"chmod".as_slice() {
        let Moded { pid, path, mode } = moded_of(alloc, words)?;
        Ok(Step::Chmod { pid, path, mode })
    } else if verb == b"unlink".as_slice() {
        let Named { pid, path } = named_of(alloc, words)?;
        Ok(Step::Unlink { pid, path })
    } else if verb == b"rmdir".as_slice() {
        let Named { pid, path } = named_of(alloc, words)?;
        Ok(Step::Rmdir { pid, path })
    } else if verb == b"stat".as_slice() {
        let Named { pid, path } = named_of(alloc, words)?;
        Ok(Step::Stat { pid, path })
    } else if verb == b"list".as_slice() {
        let Named { pid, path } = named_of(alloc, words)?;
        Ok(Step::List { pid, path })
    } else if verb == b"open".as_slice() {
        open_of(alloc, words)
    } else {
        Err(LineFault::Refused(Cause::UnknownVerb))
    }
}

/// The call of a process, or one on a file.
#[tactic(auto, unfolding(crate::specs::Verbs::process_call))]
fn process_call(alloc: Global, verb: &[u8], words: &[&[u8]]) -> Result<Step, LineFault>
    ensures { Gives result (Verbs.process_call verb.now (map (λ w. w.now) words.now)) }
{
    if verb == b"spawn".as_slice() {
        spawn_of(alloc, words)
    } else if verb == b"fork".as_slice() {
        let pid = pid_of(words)?;
        Ok(Step::Fork { pid })
    } else if verb == b"exit".as_slice() {
        let pid = pid_of(words)?;
        Ok(Step::Exit { pid })
    } else if verb == b"resume".as_slice() {
        let pid = pid_of(words)?;
        Ok(Step::Resume { pid })
    } else {
        file_call(alloc, verb, words)
    }
}

/// The call on two pipes, or one of another kind.
#[tactic(auto, unfolding(crate::specs::Verbs::crossing_call))]
fn crossing_call(alloc: Global, verb: &[u8], words: &[&[u8]]) -> Result<Step, LineFault>
    ensures { Gives result (Verbs.crossing_call verb.now (map (λ w. w.now) words.now)) }
{
    if verb == b"tee".as_slice() {
        let Crossing {
            pid,
            source,
            sink,
            n,
            nonblock,
        } = crossing_of(words)?;
        Ok(Step::Tee {
            pid,
            source,
            sink,
            n,
            nonblock,
        })
    } else if verb == b"splice".as_slice() {
        let Crossing {
            pid,
            source,
            sink,
            n,
            nonblock,
        } = crossing_of(words)?;
        Ok(Step::Splice {
            pid,
            source,
            sink,
            n,
            nonblock,
        })
    } else {
        process_call(alloc, verb, words)
    }
}

/// The call that a verb and its words stand for.
#[tactic(auto, unfolding(crate::specs::Verbs::call_of))]
fn call_of(alloc: Global, verb: &[u8], words: &[&[u8]]) -> Result<Step, LineFault>
    ensures { Gives result (Verbs.call_of verb.now (map (λ w. w.now) words.now)) }
{
    if verb == b"write".as_slice() {
        write_of(alloc, words)
    } else if verb == b"read".as_slice() {
        let Sized { pid, fd, n } = sized_of(words)?;
        Ok(Step::Read { pid, fd, n })
    } else if verb == b"pipe".as_slice() {
        pipe_of(words)
    } else if verb == b"close".as_slice() {
        let Descriptor { pid, fd } = descriptor_of(words)?;
        Ok(Step::Close { pid, fd })
    } else if verb == b"dup".as_slice() {
        let Descriptor { pid, fd } = descriptor_of(words)?;
        Ok(Step::Dup { pid, fd })
    } else if verb == b"setsize".as_slice() {
        let Sized { pid, fd, n: bytes } = sized_of(words)?;
        Ok(Step::SetSize { pid, fd, bytes })
    } else if verb == b"getsize".as_slice() {
        let Descriptor { pid, fd } = descriptor_of(words)?;
        Ok(Step::GetSize { pid, fd })
    } else if verb == b"nonblock".as_slice() {
        nonblock_of(words)
    } else {
        crossing_call(alloc, verb, words)
    }
}

/// The call that the words behind a namespace's name stand for.
#[tactic(auto, unfolding(crate::specs::Verbs::step_words))]
pub fn step_of(alloc: Global, words: &[&[u8]]) -> Result<Step, LineFault>
    ensures { Gives result (Verbs.step_words (map (λ w. w.now) words.now)) }
{
    match words {
        [] => Err(LineFault::Refused(Cause::WrongWords)),
        [verb, rest @ ..] => call_of(alloc, verb, rest),
    }
}
