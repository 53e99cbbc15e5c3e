use bitflags::Flags;
use pf_base::{
    AdmitFault, Answer, BYTES_IN_PLACE, ByteRoom, ByteString, Config, ConfigFault, Cred, Errno,
    Fault, Groups, Kind, LimitFault, Meta, Mode, OpenFlags, Progress, Reply, RetireFault, Side,
    Step, pages_for,
};
use std::alloc::{AllocError, Global};
use std::fmt::Display;
use std::sync::Arc;
use std::test::Fail;

// A reservation, pipe-max-size, and why they are refused.
const REFUSED: [(u32, u32, ConfigFault); 5] = [
    (65_537, 1_048_576, ConfigFault::ReserveTooLarge),
    (65_537, 0, ConfigFault::ReserveTooLarge),
    (65_536, 65_535, ConfigFault::BadMax),
    (0, 536_870_912, ConfigFault::BadMax),
    (16, 65_537, ConfigFault::BadMax),
];

#[test]
fn config_tests_the_reservation_first(rt: HostRuntime) {
    for (reserve, max, want) in REFUSED {
        let fault = Config::new(reserve, 0, 0, max).err();
        assert!(rt; fault == Some(want), "{reserve} {max}");
    }
}

// A reservation and pipe-max-size.
const TAKEN: [(u32, u32); 3] = [(0, 65_536), (65_536, 268_435_456), (16, 1_048_576)];

#[test]
fn config_keeps_its_numbers(rt: HostRuntime) {
    for (reserve, max) in TAKEN {
        let read = Config::new(reserve, 17, 18, max).map(|c| (
            c.reserve(),
            c.soft(),
            c.hard(),
            c.max(),
        ));
        assert_eq!(rt; read, Ok((reserve, 17, 18, max)));
    }
}

const ERRORS: [(Errno, u32, &str, &str); 19] = [
    (Errno::EPERM, 1, "EPERM", "operation not permitted"),
    (Errno::ENOENT, 2, "ENOENT", "no such file or directory"),
    (Errno::ESRCH, 3, "ESRCH", "no such process"),
    (Errno::ENXIO, 6, "ENXIO", "no such device or address"),
    (Errno::EBADF, 9, "EBADF", "bad file descriptor"),
    (
        Errno::EAGAIN,
        11,
        "EAGAIN",
        "resource temporarily unavailable",
    ),
    (Errno::ENOMEM, 12, "ENOMEM", "cannot allocate memory"),
    (Errno::EACCES, 13, "EACCES", "permission denied"),
    (Errno::EBUSY, 16, "EBUSY", "device or resource busy"),
    (Errno::EEXIST, 17, "EEXIST", "file exists"),
    (Errno::ENOTDIR, 20, "ENOTDIR", "not a directory"),
    (Errno::EISDIR, 21, "EISDIR", "is a directory"),
    (Errno::EINVAL, 22, "EINVAL", "invalid argument"),
    (Errno::ENFILE, 23, "ENFILE", "too many open files in system"),
    (Errno::EMFILE, 24, "EMFILE", "too many open files"),
    (Errno::ENOSPC, 28, "ENOSPC", "no space left on device"),
    (Errno::EPIPE, 32, "EPIPE", "broken pipe"),
    (
        Errno::ENAMETOOLONG,
        36,
        "ENAMETOOLONG",
        "file name too long",
    ),
    (Errno::ENOTEMPTY, 39, "ENOTEMPTY", "directory not empty"),
];

// Whether this is the text of a value.
fn reads<T: Display>(alloc: Global, value: &T, text: &str) -> Result<bool, AllocError> {
    Ok(format!(in alloc; "{value}")?.as_str() == text)
}

// Whether an error has this number, this name and this text.
fn is_row(alloc: Global, row: &(Errno, u32, &str, &str)) -> Result<bool, AllocError> {
    let (error, code, name, text) = row;
    Ok(error.code() == *code && error.name() == *name && reads(alloc, error, text)?)
}

#[test]
fn errors_have_their_numbers_and_texts(rt: HostRuntime) -> Result<(), Fail> {
    for row in &ERRORS {
        assert!(rt; is_row(rt.alloc(), row)?, "{}", row.2);
    }
    Ok(())
}

#[test]
fn refusals_have_their_texts(rt: HostRuntime) -> Result<(), Fail> {
    let alloc = rt.alloc();
    let text = "the reservation is above 65536 frames";
    assert!(rt; reads(alloc, &ConfigFault::ReserveTooLarge, text)?);
    let text = "pipe-max-size is no power of two from 65536 to 268435456";
    assert!(rt; reads(alloc, &ConfigFault::BadMax, text)?);
    let text = "the reservation is above the 7 frames that nobody has reserved";
    assert!(rt; reads(alloc, &AdmitFault::NoRoom { slack: 7 }, text)?);
    let text = "there are 64 namespaces, or 1024 numbers are given";
    assert!(rt; reads(alloc, &AdmitFault::TooManyNamespaces, text)?);
    assert!(rt; reads(alloc, &AdmitFault::NoMemory, "out of memory")?);
    let text = "no namespace lives under this number";
    assert!(rt; reads(alloc, &RetireFault::NoSuchNamespace, text)?);
    let text = "the namespace has 2 processes";
    assert!(rt; reads(alloc, &RetireFault::Alive { processes: 2 }, text)?);
    Ok(())
}

#[test]
fn texts_have_their_numbers(rt: HostRuntime) -> Result<(), Fail> {
    let alloc = rt.alloc();
    let text = "the reservation is above the 65536 frames that nobody has reserved";
    assert!(rt; reads(alloc, &AdmitFault::NoRoom { slack: 65_536 }, text)?);
    let text = "the namespace has 256 processes";
    assert!(rt; reads(alloc, &RetireFault::Alive { processes: 256 }, text)?);
    Ok(())
}

#[test]
fn bytes_are_shown_each(rt: HostRuntime) -> Result<(), Fail> {
    let alloc = rt.alloc();
    let shown = format!(in alloc; "{:?}", bytes(alloc, b"0123456789abcdef")?)?;
    let text = "ByteString([48, 49, 50, 51, 52, 53, 54, 55, 56, 57, 97, 98, 99, 100, 101, 102])";
    assert!(rt; shown.as_str() == text);
    Ok(())
}

fn bytes(alloc: Global, bytes: &[u8]) -> Result<ByteString, AllocError> {
    ByteString::from_slice(alloc, bytes)
}

#[test]
fn bytes_come_back(rt: HostRuntime) -> Result<(), Fail> {
    let hel = bytes(rt.alloc(), b"hel")?;
    assert!(rt; hel.as_slice() == b"hel".as_slice());
    assert!(rt; hel == ByteString::new(rt.alloc(), Vec::from_slice(rt.alloc(), b"hel")?)?);
    assert!(rt; hel != bytes(rt.alloc(), b"hels")?);
    Ok(())
}

// As many bytes as are kept in place, and one more.
const EDGE: &[u8] = b"0123456789abcd";

const BEYOND: &[u8] = b"0123456789abcde";

#[test]
fn bytes_come_back_at_the_edge_of_the_place(rt: HostRuntime) -> Result<(), Fail> {
    let alloc = rt.alloc();
    assert!(rt; EDGE.len() == BYTES_IN_PLACE);
    for text in [b"".as_slice(), EDGE, BEYOND] {
        assert!(rt; text.len() <= 4096);
        let copied = ByteString::from_slice(alloc, text)?;
        assert!(rt; copied.as_slice() == text);
        assert!(rt; copied.copy(alloc)? == copied);
        assert!(rt; ByteString::new(alloc, Vec::from_slice(alloc, text)?)? == copied);
        assert!(rt; ByteRoom::new(alloc, text.len())?.fill(alloc, &copied) == copied);
        assert!(rt; ByteRoom::new(alloc, 4096)?.fill(alloc, &copied) == copied);
    }
    assert!(rt; bytes(alloc, EDGE)? != bytes(alloc, BEYOND)?);
    Ok(())
}

// So many bytes, in memory that has room for so many more.
fn roomy(alloc: Global, count: usize, spare: usize) -> Result<ByteString, AllocError> {
    let mut bytes = Vec::with_capacity(alloc, count.saturating_add(spare))?;
    for _ in 0..count {
        bytes.push(7)?;
    }
    ByteString::new(alloc, bytes)
}

// How many bytes, how much room beyond them, and whether they are shared with one owner more.
const SHARED: [(usize, usize, bool); 6] = [
    (15, 0, true),
    (15, 1, false),
    (4_096, 0, true),
    (4_096, 1, false),
    (14, 0, false),
    (0, 0, false),
];

#[test]
fn bytes_are_shared_that_have_no_room_to_spare(rt: HostRuntime) -> Result<(), Fail> {
    for (count, spare, want) in SHARED {
        let bytes = roomy(rt.alloc(), count, spare)?;
        let shared = bytes.share();
        assert!(rt; shared.is_some() == want, "{count} {spare}");
        assert!(rt;
            shared.is_none_or(|shared| shared == bytes),
            "{count} {spare}"
        );
    }
    Ok(())
}

#[test]
fn bytes_are_shared_that_have_one_owner(rt: HostRuntime) -> Result<(), Fail> {
    let mut mine = Arc::new(rt.alloc(), Vec::from_slice(rt.alloc(), BEYOND)?)?;
    let bytes = ByteString::from_arc(Arc::try_clone(&mine)?);
    assert!(rt; bytes.share().is_none());
    drop(bytes);
    assert!(rt; Arc::get_mut(&mut mine).is_some());
    let bytes = ByteString::from_arc(mine);
    let room = ByteRoom::new(rt.alloc(), bytes.as_slice().len())?;
    let filled = room.fill(rt.alloc(), &bytes);
    assert!(rt; bytes.share().is_none() && filled.share().is_none());
    drop(filled);
    let shared = bytes.share();
    assert!(rt; shared.is_some() && bytes.share().is_none());
    drop(shared);
    assert!(rt; bytes.share().is_some());
    Ok(())
}

// Whether the bytes of a write have their memory alone.
fn written_alone(step: &Step) -> Option<bool> {
    match step {
        Step::Write { payload, .. } => Some(payload.share().is_some()),
        _ => None,
    }
}

// Whether the bytes of an answer have their memory alone.
fn told_alone(reply: &Reply) -> Option<bool> {
    match reply {
        Reply::Bytes(bytes) => Some(bytes.share().is_some()),
        _ => None,
    }
}

// Whether a copy of a write has its bytes in the same memory, for as long as it lives.
fn step_shares(alloc: Global, step: &Step) -> Result<bool, AllocError> {
    let copy = step.copy(alloc)?;
    let both = (written_alone(step), written_alone(&copy));
    drop(copy);
    Ok(both == (Some(false), Some(false)) && written_alone(step) == Some(true))
}

// Whether a copy of bytes that were read does.
fn reply_shares(alloc: Global, reply: &Reply) -> Result<bool, AllocError> {
    let copy = reply.copy(alloc)?;
    let both = (told_alone(reply), told_alone(&copy));
    drop(copy);
    Ok(both == (Some(false), Some(false)) && told_alone(reply) == Some(true))
}

#[test]
fn copies_share_their_memory(rt: HostRuntime) -> Result<(), Fail> {
    for count in [15, 4_096, 200_000] {
        let step = Step::Write {
            pid: 2,
            fd: 1,
            payload: roomy(rt.alloc(), count, 0)?,
        };
        assert!(rt; step_shares(rt.alloc(), &step)?, "{count}");
        let reply = Reply::Bytes(roomy(rt.alloc(), count, 0)?);
        assert!(rt; reply_shares(rt.alloc(), &reply)?, "{count}");
    }
    Ok(())
}

// How many groups, a umask, and whether they are valid.
const CREDENTIALS: [(usize, u32, bool); 3] = [
    (32, 0o777, true),
    (33, 0o777, false),
    (0, 0o1000, false),
];

#[test]
fn credentials_have_at_most_32_groups(rt: HostRuntime) -> Result<(), Fail> {
    for (count, umask, want) in CREDENTIALS {
        let cred = Cred {
            uid: 5,
            gid: 5,
            groups: Groups::new(rt.alloc(), vec![in rt.alloc(); 7; count]?)?,
            umask,
        };
        assert!(rt; cred.is_valid() == want, "{count} {umask}");
        assert!(rt; cred.copy(rt.alloc())? == cred);
    }
    Ok(())
}

fn is_same<T: PartialEq + Drop>(left: T, right: T) -> bool {
    left == right
}

// The answer to a read of one byte.
fn read(alloc: Global) -> Result<Answer, AllocError> {
    Ok(Answer::Done(Reply::Bytes(bytes(alloc, b"h")?)))
}

#[test]
fn answers_compare_by_value(rt: HostRuntime) -> Result<(), Fail> {
    assert!(rt; is_same(read(rt.alloc())?, read(rt.alloc())?));
    assert!(rt; !is_same(read(rt.alloc())?, Answer::Done(Reply::Num(1))));
    assert!(rt; !is_same(Answer::Done(Reply::Err(Errno::EPIPE)), Answer::NoMemory));
    assert!(rt; !is_same(Step::Exit { pid: 1 }, Step::Exit { pid: 2 }));
    Ok(())
}

#[test]
fn faults_come_by_themselves(rt: HostRuntime) {
    fn refused() -> Result<(), Fault> {
        Err(Errno::EPIPE)?
    }
    fn wanting(wanted: Result<(), AllocError>) -> Result<(), Fault> {
        Ok(wanted?)
    }
    assert_eq!(rt; refused(), Err(Fault::Errno(Errno::EPIPE)));
    assert_eq!(rt; wanting(Err(AllocError)), Err(Fault::NoMemory));
    assert!(rt; Fault::Errno(Errno::ENOMEM) != Fault::NoMemory);
}

#[test]
fn progress_compares_by_value(rt: HostRuntime) {
    assert!(rt; Progress::Moved(0) != Progress::WouldBlock);
    assert_eq!(rt; Progress::Moved(3), Progress::Moved(3));
    assert!(rt; Side::Read != Side::Write);
}

const PAGES: [(u64, u64); 7] = [
    (0, 1),
    (4_096, 1),
    (4_097, 2),
    (12_288, 4),
    (1_048_577, 512),
    (2_147_483_648, 524_288),
    (u64::MAX, 1 << 52),
];

#[test]
fn bytes_have_their_pages(rt: HostRuntime) {
    for (bytes, pages) in PAGES {
        assert!(rt; pages_for(bytes) == pages, "{bytes}");
    }
}

// A limit that would be passed, what its call has for the user's limits, and what is told.
const LIMITS: [(LimitFault, Errno, Errno); 3] = [
    (LimitFault::Soft, Errno::EPERM, Errno::EPERM),
    (LimitFault::Hard, Errno::ENOMEM, Errno::ENOMEM),
    (LimitFault::Reserve, Errno::EPERM, Errno::ENFILE),
];

#[test]
fn limits_are_told_by_their_call(rt: HostRuntime) -> Result<(), Fail> {
    for (fault, of_call, told) in LIMITS {
        assert!(rt; fault.errno(of_call) == told, "{fault}");
    }
    let text = "the pages of the user would pass its soft limit";
    assert!(rt; reads(rt.alloc(), &LimitFault::Soft, text)?);
    let text = "the pages of the user would pass its hard limit";
    assert!(rt; reads(rt.alloc(), &LimitFault::Hard, text)?);
    let text = "the pages of all pipes would pass the reservation";
    assert!(rt; reads(rt.alloc(), &LimitFault::Reserve, text)?);
    Ok(())
}

// Bits, and whether READ, WRITE and NONBLOCK are among them.
const FLAGS: [(u32, bool, bool, bool); 6] = [
    (0, false, false, false),
    (1, true, false, false),
    (2, false, true, false),
    (5, true, false, true),
    (7, true, true, true),
    (4_294_967_288, false, false, false),
];

#[test]
fn open_flags_are_three_bits(rt: HostRuntime) {
    for (bits, reads, writes, nonblock) in FLAGS {
        let flags = OpenFlags::from_bits_retain(bits);
        assert!(rt; flags.bits() == bits);
        assert!(rt; flags.contains(OpenFlags::READ) == reads, "{bits}");
        assert!(rt; flags.contains(OpenFlags::WRITE) == writes, "{bits}");
        assert!(rt; flags.contains(OpenFlags::NONBLOCK) == nonblock, "{bits}");
    }
}

// Whether the copy of a step is that step.
fn is_copied(alloc: Global, step: Step) -> Result<bool, AllocError> {
    let copy = step.copy(alloc)?;
    Ok(copy == step)
}

// Whether the copies of steps on what a process has are these steps.
fn are_calls_copied(alloc: Global) -> Result<bool, AllocError> {
    let (pid, fd, nonblock) = (3, 1, true);
    let (source, sink, n) = (4, 5, 6);
    let bytes = 8_192;
    Ok(
        is_copied(alloc, Step::Exit { pid })?
            && is_copied(alloc, Step::Pipe { pid, nonblock })?
            && is_copied(alloc, Step::Close { pid, fd })?
            && is_copied(alloc, Step::Read { pid, fd, n })?
            && is_copied(
                alloc,
                Step::Tee {
                    pid,
                    source,
                    sink,
                    n,
                    nonblock,
                },
            )?
            && is_copied(alloc, Step::SetSize { pid, fd, bytes })?
            && is_copied(alloc, Step::GetSize { pid, fd })?
            && is_copied(alloc, Step::Fork { pid })?
            && is_copied(alloc, Step::Dup { pid, fd })?
            && is_copied(alloc, Step::SetNonblock { pid, fd, on: true })?
            && is_copied(
                alloc,
                Step::Splice {
                    pid,
                    source,
                    sink,
                    n,
                    nonblock,
                },
            )?
            && is_copied(alloc, Step::Resume { pid })?,
    )
}

// Whether the copies of steps on a file of this name are these steps.
fn are_calls_on_files_copied(alloc: Global, name: &[u8]) -> Result<bool, AllocError> {
    let (pid, mode) = (3, 0o755);
    let flags = OpenFlags::from_bits_retain(6);
    let path = || bytes(alloc, name);
    Ok(
        is_copied(
            alloc,
            Step::Mkdir {
                pid,
                path: path()?,
                mode,
            },
        )? && is_copied(
            alloc,
            Step::Mkfifo {
                pid,
                path: path()?,
                mode,
            },
        )? && is_copied(
            alloc,
            Step::Open {
                pid,
                path: path()?,
                flags,
            },
        )? && is_copied(alloc, Step::Unlink { pid, path: path()? })?
            && is_copied(alloc, Step::Rmdir { pid, path: path()? })?
            && is_copied(
                alloc,
                Step::Chmod {
                    pid,
                    path: path()?,
                    mode,
                },
            )?
            && is_copied(alloc, Step::Stat { pid, path: path()? })?
            && is_copied(alloc, Step::List { pid, path: path()? })?,
    )
}

// Each kind of step, with bytes that are kept in place and with others, with no group and with some.
#[test]
fn copied_steps_are_the_same(rt: HostRuntime) -> Result<(), Fail> {
    assert!(rt; are_calls_copied(rt.alloc())?);
    for (name, groups) in [(EDGE, 0), (BEYOND, 3)] {
        assert!(rt; are_calls_on_files_copied(rt.alloc(), name)?);
        let write = Step::Write {
            pid: 2,
            fd: 1,
            payload: bytes(rt.alloc(), name)?,
        };
        assert!(rt; is_copied(rt.alloc(), write)?);
        let spawn = Step::Spawn {
            uid: 5,
            gid: 6,
            umask: 0o022,
            groups: Groups::new(rt.alloc(), vec![in rt.alloc(); 7; groups]?)?,
        };
        assert!(rt; is_copied(rt.alloc(), spawn)?);
    }
    Ok(())
}

// Whether the copy of a reply is that reply.
fn is_reply_copied(alloc: Global, reply: Reply) -> Result<bool, AllocError> {
    let copy = reply.copy(alloc)?;
    Ok(copy == reply)
}

// Each kind of reply, with bytes that are kept in place and with others.
#[test]
fn copied_replies_are_the_same(rt: HostRuntime) -> Result<(), Fail> {
    let alloc = rt.alloc();
    for text in [EDGE, BEYOND] {
        assert!(rt; is_reply_copied(alloc, Reply::Bytes(bytes(alloc, text)?))?);
        assert!(rt; is_reply_copied(alloc, Reply::Names(bytes(alloc, text)?))?);
    }
    let meta = Meta {
        kind: Kind::Fifo,
        mode: Mode::new(0o640)?,
        uid: 5,
        gid: 6,
    };
    assert!(rt; is_reply_copied(alloc, Reply::Meta(meta))?);
    assert!(rt; is_reply_copied(alloc, Reply::Num(7))?);
    assert!(rt; is_reply_copied(alloc, Reply::Pid(2))?);
    assert!(rt; is_reply_copied(alloc, Reply::Fds(3, 4))?);
    assert!(rt; is_reply_copied(alloc, Reply::Parked)?);
    assert!(rt; is_reply_copied(alloc, Reply::Err(Errno::ENXIO))?);
    Ok(())
}
