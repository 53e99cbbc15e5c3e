ghost use Rattle.std.specs.Prelude.{◌≡◌, IfOk};

use crate::bytes::ByteString;
use crate::cred::Groups;
use crate::errno::Errno;
use crate::meta::Meta;
use crate::open_flags::OpenFlags;
use std::alloc::{AllocError, Global};

/// A call of one process of a namespace. `pid`s count from 1, descriptors (`fd`) from 0. What refuses each, in the
/// order of the tests, stands in docs/SPECIFICATION.md.
#[derive(Debug, PartialEq, Eq, Drop)]
pub enum Step {
    /// A new process with these credentials and no descriptor.
    Spawn {
        uid: u32,
        gid: u32,
        umask: u32,
        groups: Groups,
    },
    /// The process ends, also one that waits in a call, and with it that call and its descriptors.
    Exit {
        pid: u32,
    },
    /// A new pipe with a descriptor for each end (pipe(2)).
    Pipe {
        pid: u32,
        nonblock: bool,
    },
    /// A descriptor goes (close(2)).
    Close {
        pid: u32,
        fd: u32,
    },
    /// At most `n` bytes out of a pipe (read(2)).
    Read {
        pid: u32,
        fd: u32,
        n: u64,
    },
    /// Bytes into a pipe (write(2)).
    Write {
        pid: u32,
        fd: u32,
        payload: ByteString,
    },
    /// At most `n` bytes of one pipe copied to the end of another (tee(2)). `source` and `sink` are descriptors.
    Tee {
        pid: u32,
        source: u32,
        sink: u32,
        n: u64,
        nonblock: bool,
    },
    /// A pipe gets another capacity: the least power of two of pages that holds so many bytes, and at least one page
    /// (fcntl(2), F_SETPIPE_SZ).
    SetSize {
        pid: u32,
        fd: u32,
        bytes: u64,
    },
    /// A pipe's capacity in bytes (fcntl(2), F_GETPIPE_SZ).
    GetSize {
        pid: u32,
        fd: u32,
    },
    /// A new process with the same credentials and the same descriptors, which name the same open file descriptions
    /// (fork(2)).
    Fork {
        pid: u32,
    },
    /// The lowest free descriptor names the open file description that another one names (dup(2)).
    Dup {
        pid: u32,
        fd: u32,
    },
    /// O_NONBLOCK of the open file description that a descriptor names is set or taken away, and with it of each
    /// descriptor that names it, in whichever process (fcntl(2), F_SETFL).
    SetNonblock {
        pid: u32,
        fd: u32,
        on: bool,
    },
    /// At most `n` bytes of one pipe moved to the end of another (splice(2)). `source` and `sink` are descriptors.
    Splice {
        pid: u32,
        source: u32,
        sink: u32,
        n: u64,
        nonblock: bool,
    },

    // Files. A path is any bytes; a mode counts its bits as `Mode` does.
    /// A new directory (mkdir()).
    Mkdir {
        pid: u32,
        path: ByteString,
        mode: u32,
    },
    /// A new FIFO (mkfifo()).
    Mkfifo {
        pid: u32,
        path: ByteString,
        mode: u32,
    },
    /// A FIFO is opened, and gets a descriptor (open(2), fifo(7)).
    Open {
        pid: u32,
        path: ByteString,
        flags: OpenFlags,
    },
    /// A FIFO's name goes (unlink()).
    Unlink {
        pid: u32,
        path: ByteString,
    },
    /// A directory goes that has no entries (rmdir()).
    Rmdir {
        pid: u32,
        path: ByteString,
    },
    /// A file gets another mode (chmod()).
    Chmod {
        pid: u32,
        path: ByteString,
        mode: u32,
    },
    /// What is known of a file (stat()).
    Stat {
        pid: u32,
        path: ByteString,
    },
    /// The names in a directory (this profile's own).
    List {
        pid: u32,
        path: ByteString,
    },

    /// The call in which a process waits is tried again (this profile's own).
    Resume {
        pid: u32,
    },
}

impl Step {
    ghost use Rattle.std.specs.Prelude.{◌≡◌, ◌↔◌, IfOk, IsOk, IsTrue};
    ghost use Rattle.pf_base.specs.Copies.{is_bare};

    /// Whether it is the same step.
    pub fn is_same(&self, other: &Step) -> bool
        ensures { IsTrue result ↔ (self.now ≡ other.now) }
    {
        self == other
    }

    /// The same step again. Memory is wanted only by a kind that has bytes, a path or groups.
    pub fn copy(&self, alloc: Global) -> Result<Step, AllocError>
        ensures same { IfOk result (λ step. step ≡ self.now) }
        ensures bare { IsTrue (is_bare self.now) → IsOk result }
    {
        match self {
            Step::Spawn {
                uid,
                gid,
                umask,
                groups,
            } => Ok(Step::Spawn {
                uid: *uid,
                gid: *gid,
                umask: *umask,
                groups: groups.copy(alloc)?,
            }),
            Step::Exit { pid } => Ok(Step::Exit { pid: *pid }),
            Step::Pipe { pid, nonblock } => Ok(Step::Pipe {
                pid: *pid,
                nonblock: *nonblock,
            }),
            Step::Close { pid, fd } => Ok(Step::Close { pid: *pid, fd: *fd }),
            Step::Read { pid, fd, n } => Ok(Step::Read {
                pid: *pid,
                fd: *fd,
                n: *n,
            }),
            Step::Write { pid, fd, payload } => Ok(Step::Write {
                pid: *pid,
                fd: *fd,
                payload: payload.copy(alloc)?,
            }),
            Step::Tee {
                pid,
                source,
                sink,
                n,
                nonblock,
            } => Ok(Step::Tee {
                pid: *pid,
                source: *source,
                sink: *sink,
                n: *n,
                nonblock: *nonblock,
            }),
            Step::SetSize { pid, fd, bytes } => Ok(Step::SetSize {
                pid: *pid,
                fd: *fd,
                bytes: *bytes,
            }),
            Step::GetSize { pid, fd } => Ok(Step::GetSize { pid: *pid, fd: *fd }),
            Step::Fork { pid } => Ok(Step::Fork { pid: *pid }),
            Step::Dup { pid, fd } => Ok(Step::Dup { pid: *pid, fd: *fd }),
            Step::SetNonblock { pid, fd, on } => Ok(Step::SetNonblock {
                pid: *pid,
                fd: *fd,
                on: *on,
            }),
            Step::Splice {
                pid,
                source,
                sink,
                n,
                nonblock,
            } => Ok(Step::Splice {
                pid: *pid,
                source: *source,
                sink: *sink,
                n: *n,
                nonblock: *nonblock,
            }),
            Step::Mkdir { pid, path, mode } => Ok(Step::Mkdir {
                pid: *pid,
                path: path.copy(alloc)?,
                mode: *mode,
            }),
            Step::Mkfifo { pid, path, mode } => Ok(Step::Mkfifo {
                pid: *pid,
                path: path.copy(alloc)?,
                mode: *mode,
            }),
            Step::Open { pid, path, flags } => Ok(Step::Open {
                pid: *pid,
                path: path.copy(alloc)?,
                flags: *flags,
            }),
            Step::Unlink { pid, path } => Ok(Step::Unlink {
                pid: *pid,
                path: path.copy(alloc)?,
            }),
            Step::Rmdir { pid, path } => Ok(Step::Rmdir {
                pid: *pid,
                path: path.copy(alloc)?,
            }),
            Step::Chmod { pid, path, mode } => Ok(Step::Chmod {
                pid: *pid,
                path: path.copy(alloc)?,
                mode: *mode,
            }),
            Step::Stat { pid, path } => Ok(Step::Stat {
                pid: *pid,
                path: path.copy(alloc)?,
            }),
            Step::List { pid, path } => Ok(Step::List {
                pid: *pid,
                path: path.copy(alloc)?,
            }),
            Step::Resume { pid } => Ok(Step::Resume { pid: *pid }),
        }
    }
}

/// What a process is told.
#[derive(Debug, PartialEq, Eq, Drop)]
pub enum Reply {
    /// A number: of bytes, or 0 for a call that only succeeds.
    Num(u64),
    /// The new process's pid.
    Pid(u32),
    /// The descriptors of a new pipe: for reading, for writing.
    Fds(u32, u32),
    /// The bytes that were read.
    Bytes(ByteString),
    /// The names in a directory, by bytes, without `.` and `..`: each with a slash behind it.
    Names(ByteString),
    /// What is known of a file.
    Meta(Meta),
    /// The call waits: its process may be resumed, or exit.
    Parked,
    /// The call was refused.
    Err(Errno),
}

impl Reply {
    ghost use Rattle.std.specs.Prelude.{◌≡◌, ◌↔◌, IfOk, IsOk, IsTrue};
    ghost use Rattle.pf_base.specs.Copies.{is_bare_reply};

    /// Whether it is the same reply.
    pub fn is_same(&self, other: &Reply) -> bool
        ensures { IsTrue result ↔ (self.now ≡ other.now) }
    {
        *self == *other
    }

    /// The same reply again. Memory is wanted only by a kind that has bytes or names.
    pub fn copy(&self, alloc: Global) -> Result<Reply, AllocError>
        ensures same { IfOk result (λ reply. reply ≡ self.now) }
        ensures bare { IsTrue (is_bare_reply self.now) → IsOk result }
    {
        match self {
            Reply::Num(number) => Ok(Reply::Num(*number)),
            Reply::Pid(pid) => Ok(Reply::Pid(*pid)),
            Reply::Fds(reading, writing) => Ok(Reply::Fds(*reading, *writing)),
            Reply::Bytes(bytes) => Ok(Reply::Bytes(bytes.copy(alloc)?)),
            Reply::Names(names) => Ok(Reply::Names(names.copy(alloc)?)),
            Reply::Meta(meta) => Ok(Reply::Meta(*meta)),
            Reply::Parked => Ok(Reply::Parked),
            Reply::Err(errno) => Ok(Reply::Err(*errno)),
        }
    }
}

/// What a step is answered.
#[derive(Debug, PartialEq, Eq, Drop)]
pub enum Answer {
    /// The step was made, and this is its reply.
    Done(Reply),
    /// A growth of memory was refused. Nothing has changed.
    NoMemory,
}
