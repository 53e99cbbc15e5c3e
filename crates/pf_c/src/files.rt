//! Steps on files. A path is bytes of the host's.
ghost use Rattle.pf_base.specs.declared.step.Step.TheVariants as steps;
ghost use Rattle.pf_c.specs.Files.{Stated};
ghost use Rattle.pf_c.specs.Handle.{hub_of};
ghost use Rattle.pf_c.specs.Told.{IsAnswered, Told, Filled, fits_in_place, flags_of};

use crate::handle::SagHub;
use crate::meta::{SagMeta, meta_of};
use crate::told::{answer_of, code_of, copied, fill, open_flags, told, told_wanted, wanted};
use pf_base::{Answer, Step};
use std::alloc::Global;

/// mkdir(2).
#[unsafe(no_mangle)]
pub extern "C" fn sag_mkdir(
    alloc: Global,
    h: &mut SagHub,
    ns: u32,
    pid: u32,
    path: &[u8],
    mode: u32,
) -> i64
    ensures { Told (hub_of h.old) (hub_of h.new) ns (steps.Mkdir pid path.now mode) (fits_in_place path.now) result }
{
    let Some(path) = copied(alloc, path) else {
        return told_wanted(h, ns);
    };
    told(h, ns, &Step::Mkdir { pid, path, mode })
}

/// mkfifo(3).
#[unsafe(no_mangle)]
pub extern "C" fn sag_mkfifo(
    alloc: Global,
    h: &mut SagHub,
    ns: u32,
    pid: u32,
    path: &[u8],
    mode: u32,
) -> i64
    ensures { Told (hub_of h.old) (hub_of h.new) ns (steps.Mkfifo pid path.now mode) (fits_in_place path.now) result }
{
    let Some(path) = copied(alloc, path) else {
        return told_wanted(h, ns);
    };
    told(h, ns, &Step::Mkfifo { pid, path, mode })
}

/// open(2) of a FIFO: 1 for reading, 2 for writing, 4 for O_NONBLOCK.
#[unsafe(no_mangle)]
pub extern "C" fn sag_open_path(
    alloc: Global,
    h: &mut SagHub,
    ns: u32,
    pid: u32,
    path: &[u8],
    flags: u32,
) -> i64
    ensures { Told (hub_of h.old) (hub_of h.new) ns (steps.Open pid path.now (flags_of flags))
        (fits_in_place path.now) result }
{
    let Some(path) = copied(alloc, path) else {
        return told_wanted(h, ns);
    };
    let flags = open_flags(flags);
    told(h, ns, &Step::Open { pid, path, flags })
}

/// unlink(2).
#[unsafe(no_mangle)]
pub extern "C" fn sag_unlink(alloc: Global, h: &mut SagHub, ns: u32, pid: u32, path: &[u8]) -> i64
    ensures { Told (hub_of h.old) (hub_of h.new) ns (steps.Unlink pid path.now) (fits_in_place path.now) result }
{
    let Some(path) = copied(alloc, path) else {
        return told_wanted(h, ns);
    };
    told(h, ns, &Step::Unlink { pid, path })
}

/// rmdir(2).
#[unsafe(no_mangle)]
pub extern "C" fn sag_rmdir(alloc: Global, h: &mut SagHub, ns: u32, pid: u32, path: &[u8]) -> i64
    ensures { Told (hub_of h.old) (hub_of h.new) ns (steps.Rmdir pid path.now) (fits_in_place path.now) result }
{
    let Some(path) = copied(alloc, path) else {
        return told_wanted(h, ns);
    };
    told(h, ns, &Step::Rmdir { pid, path })
}

/// chmod(2).
#[unsafe(no_mangle)]
pub extern "C" fn sag_chmod(
    alloc: Global,
    h: &mut SagHub,
    ns: u32,
    pid: u32,
    path: &[u8],
    mode: u32,
) -> i64
    ensures { Told (hub_of h.old) (hub_of h.new) ns (steps.Chmod pid path.now mode) (fits_in_place path.now) result }
{
    let Some(path) = copied(alloc, path) else {
        return told_wanted(h, ns);
    };
    told(h, ns, &Step::Chmod { pid, path, mode })
}

// The answer to a Stat.
fn stated(alloc: Global, h: &mut SagHub, ns: u32, pid: u32, path: &[u8]) -> Option<Answer>
    ensures { IsAnswered (hub_of h.old) (hub_of h.new) ns (steps.Stat pid path.now) (fits_in_place path.now) result }
{
    let Some(path) = copied(alloc, path) else {
        return wanted(h, ns);
    };
    answer_of(h, ns, &Step::Stat { pid, path })
}

// The answer to a List.
fn listed(alloc: Global, h: &mut SagHub, ns: u32, pid: u32, path: &[u8]) -> Option<Answer>
    ensures { IsAnswered (hub_of h.old) (hub_of h.new) ns (steps.List pid path.now) (fits_in_place path.now) result }
{
    let Some(path) = copied(alloc, path) else {
        return wanted(h, ns);
    };
    answer_of(h, ns, &Step::List { pid, path })
}

/// stat(2): what is known of a file goes into the host's record, which stays as it is where the call is refused.
#[unsafe(no_mangle)]
pub extern "C" fn sag_stat(
    alloc: Global,
    h: &mut SagHub,
    ns: u32,
    pid: u32,
    path: &[u8],
    out: &mut SagMeta,
) -> i64
    ensures { Stated (hub_of h.old) (hub_of h.new) ns (steps.Stat pid path.now) (fits_in_place path.now) result
        out.old out.new }
{
    let answer = stated(alloc, h, ns, pid, path);
    if let Some(meta) = meta_of(&answer) {
        *out = meta;
    }
    code_of(&answer)
}

/// The names in a directory, each with a slash behind it: how many bytes they are, of which the first go into the
/// buffer, as many as it has room for.
#[unsafe(no_mangle)]
pub extern "C" fn sag_list(
    alloc: Global,
    h: &mut SagHub,
    ns: u32,
    pid: u32,
    path: &[u8],
    into: &mut [u8],
) -> i64
    ensures { Filled (hub_of h.old) (hub_of h.new) ns (steps.List pid path.now) (fits_in_place path.now) result
        into.old into.new }
{
    let answer = listed(alloc, h, ns, pid, path);
    fill(into, &answer);
    code_of(&answer)
}
