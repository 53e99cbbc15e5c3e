ghost use Rattle.std.specs.Prelude.{◌≡◌};

use thiserror::Error;

/// Why a step was refused: the error names of POSIX.1-2017 `<errno.h>` that this service answers.
#[derive(Clone, Copy, Debug, PartialEq, Eq, Hash, Error)]
pub enum Errno {
    #[error("operation not permitted")]
    EPERM,
    #[error("no such file or directory")]
    ENOENT,
    #[error("no such process")]
    ESRCH,
    #[error("no such device or address")]
    ENXIO,
    #[error("bad file descriptor")]
    EBADF,
    #[error("resource temporarily unavailable")]
    EAGAIN,
    #[error("cannot allocate memory")]
    ENOMEM,
    #[error("permission denied")]
    EACCES,
    #[error("device or resource busy")]
    EBUSY,
    #[error("file exists")]
    EEXIST,
    #[error("not a directory")]
    ENOTDIR,
    #[error("is a directory")]
    EISDIR,
    #[error("invalid argument")]
    EINVAL,
    #[error("too many open files in system")]
    ENFILE,
    #[error("too many open files")]
    EMFILE,
    #[error("no space left on device")]
    ENOSPC,
    #[error("broken pipe")]
    EPIPE,
    #[error("file name too long")]
    ENAMETOOLONG,
    #[error("directory not empty")]
    ENOTEMPTY,
}

impl Errno {
    ghost use Rattle.std.specs.Prelude.{◌≡◌};
    ghost use Rattle.pf_base.specs.Errors.{code_of, name_of};

    /// The number that Linux gives the error (errno(3)).
    pub fn code(self) -> u32
        ensures { result ≡ code_of self }
    {
        match self {
            Errno::EPERM => 1,
            Errno::ENOENT => 2,
            Errno::ESRCH => 3,
            Errno::ENXIO => 6,
            Errno::EBADF => 9,
            Errno::EAGAIN => 11,
            Errno::ENOMEM => 12,
            Errno::EACCES => 13,
            Errno::EBUSY => 16,
            Errno::EEXIST => 17,
            Errno::ENOTDIR => 20,
            Errno::EISDIR => 21,
            Errno::EINVAL => 22,
            Errno::ENFILE => 23,
            Errno::EMFILE => 24,
            Errno::ENOSPC => 28,
            Errno::EPIPE => 32,
            Errno::ENAMETOOLONG => 36,
            Errno::ENOTEMPTY => 39,
        }
    }

    /// The error's name in `<errno.h>`.
    pub fn name(self) -> &'static str
        ensures { result.now ≡ name_of self }
    {
        match self {
            Errno::EPERM => "EPERM",
            Errno::ENOENT => "ENOENT",
            Errno::ESRCH => "ESRCH",
            Errno::ENXIO => "ENXIO",
            Errno::EBADF => "EBADF",
            Errno::EAGAIN => "EAGAIN",
            Errno::ENOMEM => "ENOMEM",
            Errno::EACCES => "EACCES",
            Errno::EBUSY => "EBUSY",
            Errno::EEXIST => "EEXIST",
            Errno::ENOTDIR => "ENOTDIR",
            Errno::EISDIR => "EISDIR",
            Errno::EINVAL => "EINVAL",
            Errno::ENFILE => "ENFILE",
            Errno::EMFILE => "EMFILE",
            Errno::ENOSPC => "ENOSPC",
            Errno::EPIPE => "EPIPE",
            Errno::ENAMETOOLONG => "ENAMETOOLONG",
            Errno::ENOTEMPTY => "ENOTEMPTY",
        }
    }
}
