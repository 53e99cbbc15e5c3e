//! Steps on pipes.
ghost use Rattle.std.specs.Prelude.{◌≡◌, Bool, true, length};
ghost use Rattle.pf_base.specs.declared.step.Step.TheVariants as steps;
ghost use Rattle.pf_c.specs.Handle.{hub_of};
ghost use Rattle.pf_c.specs.Read.{Laid, answer_of_read, number_of_read};
ghost use Rattle.pf_c.specs.Told.{Answered, IsAnswered, Told, Paired, fds_of, fds_or};
ghost use Rattle.pf_tables.specs.Buffers.{Lies};

use crate::handle::SagHub;
use crate::told::{answer_of, code_of, code_of_read, told};
use pf_base::{Answer, Errno, Reply, Step};
use pf_hub::Hub;
use std::alloc::Global;

// The descriptors of an answer, the one for reading first.
fn fds_of(answer: &Option<Answer>) -> Option<(u32, u32)>
    ensures { result ≡ fds_of answer.now }
{
    match answer {
        Some(Answer::Done(Reply::Fds(reading, writing))) => Some((*reading, *writing)),
        _ => None,
    }
}

// The descriptors of an answer are put into the host's pair, where it has any.
#[inline(always)]
fn pair(fds: &mut [u32; 2], answer: &Option<Answer>)
    ensures { fds.new ≡ fds_or (fds_of answer.now) fds.old }
{
    if let Some((reading, writing)) = fds_of(answer) {
        *fds = [reading, writing];
    }
}

/// pipe2(2).
#[unsafe(no_mangle)]
pub extern "C" fn sag_pipe(
    h: &mut SagHub,
    ns: u32,
    pid: u32,
    nonblock: bool,
    fds: &mut [u32; 2],
) -> i64
    ensures { Paired (hub_of h.old) (hub_of h.new) ns (steps.Pipe pid nonblock) result fds.old fds.new }
{
    let answer = answer_of(h, ns, &Step::Pipe { pid, nonblock });
    pair(fds, &answer);
    code_of(&answer)
}

// A read of a namespace's process into a buffer, if there is one of this number.
#[inline(always)]
fn read_in(
    hub: &mut Hub<Global>,
    ns: u32,
    pid: u32,
    fd: u32,
    into: &mut [u8],
) -> Option<Result<Option<usize>, Errno>>
    ensures answered { (fits : Bool) → Answered hub.old hub.new ns (steps.Read pid fd (length into.old)) fits
        (answer_of_read into.new result) }
    ensures lies { Lies (number_of_read result) into.old into.new }
{
    if !hub.lives(ns) {
        return None;
    }
    Some(hub.read_into(ns, pid, fd, into))
}

// The same of a handle, where it is open.
#[inline(always)]
fn read_of(
    h: &mut SagHub,
    ns: u32,
    pid: u32,
    fd: u32,
    into: &mut [u8],
) -> Option<Result<Option<usize>, Errno>>
    ensures answered { (fits : Bool) → IsAnswered (hub_of h.old) (hub_of h.new) ns
        (steps.Read pid fd (length into.old)) fits (answer_of_read into.new result) }
    ensures lies { Lies (number_of_read result) into.old into.new }
{
    if !h.is_open {
        return None;
    }
    read_in(h.place.hub(), ns, pid, fd, into)
}

/// read(2). The bytes are laid into the buffer from where they stand, and memory is never wanted.
#[unsafe(no_mangle)]
pub extern "C" fn sag_read(h: &mut SagHub, ns: u32, pid: u32, fd: u32, into: &mut [u8]) -> i64
    ensures { Laid (hub_of h.old) (hub_of h.new) ns (steps.Read pid fd (length into.old)) result into.old into.new }
{
    let read = read_of(h, ns, pid, fd, into);
    code_of_read(&read)
}

// A write of a namespace's process, if there is one of this number.
#[inline(always)]
fn write_in(hub: &mut Hub<Global>, ns: u32, pid: u32, fd: u32, bytes: &[u8]) -> Option<Answer>
    ensures { (fits : Bool) → Answered hub.old hub.new ns (steps.Write pid fd bytes.now) fits result }
{
    if !hub.lives(ns) {
        return None;
    }
    Some(hub.write_from(ns, pid, fd, bytes))
}

// The same of a handle, where it is open.
#[inline(always)]
fn write_of(h: &mut SagHub, ns: u32, pid: u32, fd: u32, bytes: &[u8]) -> Option<Answer>
    ensures { (fits : Bool) → IsAnswered (hub_of h.old) (hub_of h.new) ns (steps.Write pid fd bytes.now) fits
        result }
{
    if !h.is_open {
        return None;
    }
    write_in(h.place.hub(), ns, pid, fd, bytes)
}

/// write(2). The bytes are copied only where the write waits.
#[unsafe(no_mangle)]
pub extern "C" fn sag_write(
    alloc: Global,
    h: &mut SagHub,
    ns: u32,
    pid: u32,
    fd: u32,
    bytes: &[u8],
) -> i64
    ensures { Told (hub_of h.old) (hub_of h.new) ns (steps.Write pid fd bytes.now) true result }
{
    // A namespace has an allocator of its own for that copy.
    let _alloc = alloc;
    let answer = write_of(h, ns, pid, fd, bytes);
    code_of(&answer)
}

/// tee(2).
#[unsafe(no_mangle)]
pub extern "C" fn sag_tee(
    h: &mut SagHub,
    ns: u32,
    pid: u32,
    source: u32,
    sink: u32,
    n: u64,
    nonblock: bool,
) -> i64
    ensures { Told (hub_of h.old) (hub_of h.new) ns (steps.Tee pid source sink n nonblock) true result }
{
    told(
        h,
        ns,
        &Step::Tee {
            pid,
            source,
            sink,
            n,
            nonblock,
        },
    )
}

/// splice(2), from one pipe to another.
#[unsafe(no_mangle)]
pub extern "C" fn sag_splice(
    h: &mut SagHub,
    ns: u32,
    pid: u32,
    source: u32,
    sink: u32,
    n: u64,
    nonblock: bool,
) -> i64
    ensures { Told (hub_of h.old) (hub_of h.new) ns (steps.Splice pid source sink n nonblock) true result }
{
    told(
        h,
        ns,
        &Step::Splice {
            pid,
            source,
            sink,
            n,
            nonblock,
        },
    )
}

/// fcntl(2), F_SETPIPE_SZ.
#[unsafe(no_mangle)]
pub extern "C" fn sag_set_pipe_size(h: &mut SagHub, ns: u32, pid: u32, fd: u32, bytes: u64) -> i64
    ensures { Told (hub_of h.old) (hub_of h.new) ns (steps.SetSize pid fd bytes) true result }
{
    told(h, ns, &Step::SetSize { pid, fd, bytes })
}

/// fcntl(2), F_GETPIPE_SZ.
#[unsafe(no_mangle)]
pub extern "C" fn sag_pipe_size(h: &mut SagHub, ns: u32, pid: u32, fd: u32) -> i64
    ensures { Told (hub_of h.old) (hub_of h.new) ns (steps.GetSize pid fd) true result }
{
    told(h, ns, &Step::GetSize { pid, fd })
}
