/// What the pipe of an end is ready for, as poll(2) and FIONREAD of ioctl(2) tell it. An end that reads is readable
/// (POLLIN) where there are bytes, and hung up (POLLHUP) where nobody writes the pipe, also of a FIFO that
/// nobody has opened for writing yet (poll(2) wants one that was closed). One that writes is writable (POLLOUT) where
/// there is room for a write of `PIPE_BUF` bytes, and in error (POLLERR) where nobody reads it.
#[derive(Clone, Copy, Debug, PartialEq, Eq)]
pub struct Readiness {
    /// How many bytes there are to read.
    pub bytes: u64,
    /// How many bytes there is room for: a write of at most so many that isn't refused goes in whole at once.
    pub room: u64,
    /// Whether some description reads the pipe.
    pub has_reader: bool,
    /// Whether some description writes it.
    pub has_writer: bool,
}
