ghost use Rattle.std.specs.Prelude.{◌≡◌, ◌≢◌, map, option_copied, Err};
ghost use Rattle.pf_words.specs.Arguments as shapes;
ghost use Rattle.pf_words.specs.Arguments.{number_at, u32_at, u64_at, octal_at, groups_at, flag_at, switch_at, flags_at};
ghost use Rattle.pf_words.specs.Faults.{Gives};
ghost use Rattle.pf_words.specs.declared.fault.LineFault.TheVariants as faults;

use crate::cause::Cause;
use crate::fault::LineFault;
use crate::words::{groups_of, number_of, octal_of};
use bitflags::Flags;
use pf_base::{ByteString, Groups, OpenFlags};
use std::alloc::Global;

/// A number of 32 bits, at most `most`.
pub fn small_number(most: u32, word: &[u8]) -> Result<u32, LineFault>
    ensures read { Gives result (number_at most word.now) }
    ensures none { result ≢ Err faults.NoMemory }
{
    match number_of(u64::from(most), word) {
        Some(n) => Ok(n as u32),
        None => Err(LineFault::Refused(Cause::BadNumber)),
    }
}

/// A number of 32 bits.
pub fn number_32(word: &[u8]) -> Result<u32, LineFault>
    ensures read { Gives result (u32_at word.now) }
    ensures none { result ≢ Err faults.NoMemory }
{
    small_number(0xffff_ffff, word)
}

/// A number of 64 bits.
pub fn number_64(word: &[u8]) -> Result<u64, LineFault>
    ensures read { Gives result (u64_at word.now) }
    ensures none { result ≢ Err faults.NoMemory }
{
    match number_of(u64::MAX, word) {
        Some(n) => Ok(n),
        None => Err(LineFault::Refused(Cause::BadNumber)),
    }
}

/// A mode or a umask.
pub fn bits(word: &[u8]) -> Result<u32, LineFault>
    ensures read { Gives result (octal_at word.now) }
    ensures none { result ≢ Err faults.NoMemory }
{
    match octal_of(word) {
        Some(n) => Ok(n as u32),
        None => Err(LineFault::Refused(Cause::BadNumber)),
    }
}

/// Supplementary group ids, none where the word is left out.
pub fn groups(alloc: Global, word: Option<&[u8]>) -> Result<Groups, LineFault>
    ensures { Gives result (groups_at (option_copied word.entry)) }
{
    match word {
        None => Ok(Groups::none()),
        Some(word) => groups_of(alloc, word),
    }
}

/// Whether the last word, `n`, is there.
pub fn flag(word: Option<&[u8]>) -> Result<bool, LineFault>
    ensures read { Gives result (flag_at (option_copied word.entry)) }
    ensures none { result ≢ Err faults.NoMemory }
{
    match word {
        None => Ok(false),
        Some(word) => {
            if word == b"n".as_slice() {
                Ok(true)
            } else {
                Err(LineFault::Refused(Cause::BadFlags))
            }
        }
    }
}

/// `on` or `off`.
pub fn switch(word: &[u8]) -> Result<bool, LineFault>
    ensures read { Gives result (switch_at word.now) }
    ensures none { result ≢ Err faults.NoMemory }
{
    if word == b"on".as_slice() {
        Ok(true)
    } else if word == b"off".as_slice() {
        Ok(false)
    } else {
        Err(LineFault::Refused(Cause::BadFlags))
    }
}

/// How a FIFO is opened: `r`, `w` or `rw`, and `n` behind these for O_NONBLOCK.
pub fn open_flags(word: &[u8]) -> Result<OpenFlags, LineFault>
    ensures read { Gives result (flags_at word.now) }
    ensures none { result ≢ Err faults.NoMemory }
{
    if word == b"r".as_slice() {
        Ok(OpenFlags::READ)
    } else if word == b"w".as_slice() {
        Ok(OpenFlags::WRITE)
    } else if word == b"rw".as_slice() {
        Ok(OpenFlags::READ.union(OpenFlags::WRITE))
    } else if word == b"rn".as_slice() {
        Ok(OpenFlags::READ.union(OpenFlags::NONBLOCK))
    } else if word == b"wn".as_slice() {
        Ok(OpenFlags::WRITE.union(OpenFlags::NONBLOCK))
    } else if word == b"rwn".as_slice() {
        Ok(
            OpenFlags::READ
                .union(OpenFlags::WRITE)
                .union(OpenFlags::NONBLOCK),
        )
    } else {
        Err(LineFault::Refused(Cause::BadFlags))
    }
}

/// The word as a path.
pub fn path_of(alloc: Global, word: &[u8]) -> Result<ByteString, LineFault>
    ensures { Gives result (Ok word.now) }
{
    Ok(ByteString::from_slice(alloc, word)?)
}

/// A process's descriptor.
#[derive(Debug, Clone, Copy)]
pub struct Descriptor {
    pub pid: u32,
    pub fd: u32,
}

/// A process's descriptor and a number of 64 bits.
#[derive(Debug, Clone, Copy)]
pub struct Sized {
    pub pid: u32,
    pub fd: u32,
    pub n: u64,
}

/// Two descriptors of a process, a number of 64 bits, and whether it is not to wait.
#[derive(Debug, Clone, Copy)]
pub struct Crossing {
    pub pid: u32,
    pub source: u32,
    pub sink: u32,
    pub n: u64,
    pub nonblock: bool,
}

/// A file that a process names. Any word is a path.
#[derive(Debug, Drop)]
pub struct Named {
    pub pid: u32,
    pub path: ByteString,
}

/// A file that a process names, and a mode.
#[derive(Debug, Drop)]
pub struct Moded {
    pub pid: u32,
    pub path: ByteString,
    pub mode: u32,
}

/// PID.
#[tactic(auto, unfolding(crate::specs::Arguments::pid_of))]
pub fn pid_of(words: &[&[u8]]) -> Result<u32, LineFault>
    ensures read { Gives result (shapes.pid_of (map (λ w. w.now) words.now)) }
    ensures none { result ≢ Err faults.NoMemory }
{
    match words {
        [pid] => number_32(pid),
        _ => Err(LineFault::Refused(Cause::WrongWords)),
    }
}

#[tactic(auto, unfolding(crate::specs::Arguments::descriptor_with))]
fn descriptor_with(pid: &[u8], fd: &[u8]) -> Result<Descriptor, LineFault>
    ensures read { Gives result (shapes.descriptor_with pid.now fd.now) }
    ensures none { result ≢ Err faults.NoMemory }
{
    let pid = number_32(pid)?;
    let fd = number_32(fd)?;
    Ok(Descriptor { pid, fd })
}

/// PID FD.
#[tactic(auto, unfolding(crate::specs::Arguments::descriptor_of))]
pub fn descriptor_of(words: &[&[u8]]) -> Result<Descriptor, LineFault>
    ensures read { Gives result (shapes.descriptor_of (map (λ w. w.now) words.now)) }
    ensures none { result ≢ Err faults.NoMemory }
{
    match words {
        [pid, fd] => descriptor_with(pid, fd),
        _ => Err(LineFault::Refused(Cause::WrongWords)),
    }
}

#[inline(always)]
#[tactic(auto, unfolding(crate::specs::Arguments::sized_with))]
fn sized_with(pid: &[u8], fd: &[u8], len: &[u8]) -> Result<Sized, LineFault>
    ensures read { Gives result (shapes.sized_with pid.now fd.now len.now) }
    ensures none { result ≢ Err faults.NoMemory }
{
    let pid = number_32(pid)?;
    let fd = number_32(fd)?;
    let n = number_64(len)?;
    Ok(Sized { pid, fd, n })
}

/// PID FD LEN.
#[inline(always)]
#[tactic(auto, unfolding(crate::specs::Arguments::sized_of))]
pub fn sized_of(words: &[&[u8]]) -> Result<Sized, LineFault>
    ensures read { Gives result (shapes.sized_of (map (λ w. w.now) words.now)) }
    ensures none { result ≢ Err faults.NoMemory }
{
    match words {
        [pid, fd, len] => sized_with(pid, fd, len),
        _ => Err(LineFault::Refused(Cause::WrongWords)),
    }
}

#[tactic(auto, unfolding(crate::specs::Arguments::crossing_with))]
fn crossing_with(
    pid: &[u8],
    source: &[u8],
    sink: &[u8],
    len: &[u8],
    flag_word: Option<&[u8]>,
) -> Result<Crossing, LineFault>
    ensures read { Gives result
        (shapes.crossing_with pid.now source.now sink.now len.now (option_copied flag_word.entry)) }
    ensures none { result ≢ Err faults.NoMemory }
{
    let pid = number_32(pid)?;
    let source = number_32(source)?;
    let sink = number_32(sink)?;
    let n = number_64(len)?;
    let nonblock = flag(flag_word)?;
    Ok(Crossing {
        pid,
        source,
        sink,
        n,
        nonblock,
    })
}

/// PID IN OUT LEN [n].
#[tactic(auto, unfolding(crate::specs::Arguments::crossing_of))]
pub fn crossing_of(words: &[&[u8]]) -> Result<Crossing, LineFault>
    ensures read { Gives result (shapes.crossing_of (map (λ w. w.now) words.now)) }
    ensures none { result ≢ Err faults.NoMemory }
{
    match words {
        [pid, source, sink, len] => crossing_with(pid, source, sink, len, None),
        [pid, source, sink, len, flag] => crossing_with(pid, source, sink, len, Some(flag)),
        _ => Err(LineFault::Refused(Cause::WrongWords)),
    }
}

#[tactic(auto, unfolding(crate::specs::Arguments::named_with))]
fn named_with(alloc: Global, pid: &[u8], path: &[u8]) -> Result<Named, LineFault>
    ensures { Gives result (shapes.named_with pid.now path.now) }
{
    let pid = number_32(pid)?;
    let path = path_of(alloc, path)?;
    Ok(Named { pid, path })
}

/// PID PATH.
#[tactic(auto, unfolding(crate::specs::Arguments::named_of))]
pub fn named_of(alloc: Global, words: &[&[u8]]) -> Result<Named, LineFault>
    ensures { Gives result (shapes.named_of (map (λ w. w.now) words.now)) }
{
    match words {
        [pid, path] => named_with(alloc, pid, path),
        _ => Err(LineFault::Refused(Cause::WrongWords)),
    }
}

#[tactic(auto, unfolding(crate::specs::Arguments::moded_with))]
fn moded_with(alloc: Global, pid: &[u8], path: &[u8], mode: &[u8]) -> Result<Moded, LineFault>
    ensures { Gives result (shapes.moded_with pid.now path.now mode.now) }
{
    let pid = number_32(pid)?;
    let mode = bits(mode)?;
    let path = path_of(alloc, path)?;
    Ok(Moded { pid, path, mode })
}

/// PID PATH MODE.
#[tactic(auto, unfolding(crate::specs::Arguments::moded_of))]
pub fn moded_of(alloc: Global, words: &[&[u8]]) -> Result<Moded, LineFault>
    ensures { Gives result (shapes.moded_of (map (λ w. w.now) words.now)) }
{
    match words {
        [pid, path, mode] => moded_with(alloc, pid, path, mode),
        _ => Err(LineFault::Refused(Cause::WrongWords)),
    }
}
