// Steps on a hub that C has, and the numbers that C is told.
ghost use Rattle.std.specs.Prelude.{◌≡◌, Bool, ◌≤◌, length, min, take, false, MatchOption};
ghost use Rattle.pf_c.specs.Codes.{number, refused, code_of_reply, code_of_answer};
ghost use Rattle.pf_base.specs.declared.step.Step.{Step};
ghost use Rattle.pf_c.specs.Handle.{hub_of};
ghost use Rattle.pf_c.specs.Read.{code_of_read};
ghost use Rattle.pf_c.specs.Rows.{Held};
ghost use Rattle.pf_c.specs.Told.{Answered, IsAnswered, Told, Needs, bytes_of, fits_in_place, flags_of};
ghost use Rattle.pf_frame.specs.Bytes.{filled};

use crate::handle::SagHub;
use bitflags::Flags;
use pf_base::{Answer, ByteString, Errno, OpenFlags, Reply, Step};
use pf_hub::Hub;
use std::alloc::Global;

/// The call waits.
pub const PARKED: i64 = -1000;

/// Memory of the heap was wanted, and nothing has changed.
pub const NO_MEMORY: i64 = -1001;

/// There is no such namespace.
pub const NO_NAMESPACE: i64 = -1002;

// A number, as far as C's type goes.
fn number(n: u64) -> i64
    ensures { result ≡ number n }
{
    if n > 9_223_372_036_854_775_807 {
        return i64::MAX;
    }
    n as i64
}

/// An error's number with its sign turned.
pub(crate) fn refused(errno: Errno) -> i64
    ensures { result ≡ refused errno }
{
    -i64::from(errno.code())
}

// What C is told of a reply.
fn code_of_reply(reply: &Reply) -> i64
    ensures { result ≡ code_of_reply reply.now }
{
    match reply {
        Reply::Num(n) => number(*n),
        Reply::Pid(pid) => i64::from(*pid),
        Reply::Fds(_, _) => 0,
        Reply::Bytes(bytes) => number(bytes.as_slice().len() as u64),
        Reply::Names(names) => number(names.as_slice().len() as u64),
        Reply::Meta(_) => 0,
        Reply::Parked => PARKED,
        Reply::Err(errno) => refused(*errno),
    }
}

/// What C is told of an answer.
pub(crate) fn code_of(answer: &Option<Answer>) -> i64
    ensures { result ≡ code_of_answer answer.now }
{
    match answer {
        Some(Answer::Done(reply)) => code_of_reply(reply),
        Some(Answer::NoMemory) => NO_MEMORY,
        None => NO_NAMESPACE,
    }
}

/// What C is told of a read into its buffer, or of a call that is tried again: its number. Of a read it is how many
/// bytes it hands out; of one that waited the buffer may have room for fewer.
pub(crate) fn code_of_read(read: &Option<Result<Option<usize>, Errno>>) -> i64
    ensures { result ≡ code_of_read read.now }
{
    match read {
        Some(Ok(Some(count))) => number(*count as u64),
        Some(Ok(None)) => PARKED,
        Some(Err(errno)) => refused(*errno),
        None => NO_NAMESPACE,
    }
}

// A step of a namespace, if there is one of this number.
#[inline(always)]
fn step_in(hub: &mut Hub<Global>, ns: u32, step: &Step) -> Option<Answer>
    ensures { (fits : Bool) → Answered hub.old hub.new ns step.now fits result }
{
    if !hub.lives(ns) {
        return None;
    }
    Some(hub.step(ns, step))
}

/// The same of a handle, where it is open.
#[inline(always)]
pub(crate) fn answer_of(h: &mut SagHub, ns: u32, step: &Step) -> Option<Answer>
    ensures { (fits : Bool) → IsAnswered (hub_of h.old) (hub_of h.new) ns step.now fits result }
{
    if !h.is_open {
        return None;
    }
    step_in(h.place.hub(), ns, step)
}

/// The same, and what C is told.
#[inline(always)]
pub(crate) fn told(h: &mut SagHub, ns: u32, step: &Step) -> i64
    ensures { (fits : Bool) → Told (hub_of h.old) (hub_of h.new) ns step.now fits result }
{
    let answer = answer_of(h, ns, step);
    code_of(&answer)
}

/// A copy of the host's bytes: memory of the heap is wanted where they are too many to be kept in place.
#[inline(always)]
pub(crate) fn copied(alloc: Global, bytes: &[u8]) -> Option<ByteString>
    ensures { MatchOption result (fits_in_place bytes.now ≡ false) (λ copy. copy ≡ bytes.now) }
{
    match ByteString::from_slice(alloc, bytes) {
        Ok(copy) => Some(copy),
        Err(_) => None,
    }
}

/// The answer where that copy isn't had: memory was wanted, or there is no such namespace.
pub(crate) fn wanted(h: &mut SagHub, ns: u32) -> Option<Answer>
    ensures { (step : Step) (fits : Bool) → ((hub : Held) → Needs hub ns step fits)
        → IsAnswered (hub_of h.old) (hub_of h.new) ns step fits result }
{
    if !h.is_open {
        return None;
    }
    if h.place.hub().lives(ns) {
        return Some(Answer::NoMemory);
    }
    None
}

/// The same, and what C is told.
pub(crate) fn told_wanted(h: &mut SagHub, ns: u32) -> i64
    ensures { (step : Step) (fits : Bool) → ((hub : Held) → Needs hub ns step fits)
        → Told (hub_of h.old) (hub_of h.new) ns step fits result }
{
    let answer = wanted(h, ns);
    code_of(&answer)
}

// Bytes are laid into the front of a buffer.
#[inline(always)]
fn lay(into: &mut [u8], bytes: &[u8])
    requires { length bytes.now ≤ length into.old }
    ensures { into.new ≡ filled 0 bytes.now into.old }
{
    into[..bytes.len()].copy_from_slice(bytes);
}

// The bytes of an answer.
#[inline(always)]
fn bytes_of(answer: &Option<Answer>) -> &[u8]
    ensures { result.now ≡ bytes_of answer.now }
{
    match answer {
        Some(Answer::Done(Reply::Bytes(bytes))) => bytes.as_slice(),
        Some(Answer::Done(Reply::Names(names))) => names.as_slice(),
        _ => &[],
    }
}

/// The first bytes of an answer are laid into a buffer, as many as it has room for.
#[inline(always)]
pub(crate) fn fill(into: &mut [u8], answer: &Option<Answer>)
    ensures { into.new ≡ filled 0 (take (min (length (bytes_of answer.now)) (length into.old)) (bytes_of answer.now))
        into.old }
{
    let bytes = bytes_of(answer);
    let count = bytes.len().min(into.len());
    lay(into, &bytes[..count]);
}

/// How a FIFO is opened, as C says it.
pub(crate) fn open_flags(bits: u32) -> OpenFlags
    ensures { result ≡ flags_of bits }
{
    OpenFlags::from_bits_retain(bits)
}
