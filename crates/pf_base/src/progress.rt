/// How far a transfer came (pipe(7), "I/O on pipes and FIFOs").
#[derive(Clone, Copy, Debug, PartialEq, Eq)]
pub enum Progress {
    /// So many bytes went: 0 where none were asked for.
    Moved(u64),
    /// None can go now: the pipe is empty, or has no room for them.
    WouldBlock,
    /// None can come any more: the pipe is empty and nobody writes it.
    EndOfFile,
    /// Nobody reads the pipe that they would go to.
    NoReader,
}

/// What an end of a pipe is for.
#[derive(Clone, Copy, Debug, PartialEq, Eq)]
pub enum Side {
    /// Bytes come out of it.
    Read,
    /// Bytes go into it.
    Write,
}

/// How bytes come from one pipe to another.
#[derive(Clone, Copy, Debug, PartialEq, Eq)]
pub enum Crossing {
    /// A copy of them comes, and they stay (tee(2)).
    Tee,
    /// They come themselves, and are gone from where they were (splice(2)).
    Splice,
}
