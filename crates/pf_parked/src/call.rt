use crate::unfinished::UnfinishedWrite;
use pf_base::Crossing;

/// A call in which a process waits, with the fields of its step: the process's descriptors can't change meanwhile.
///
/// `D` is what names an open file description.
#[derive(Debug, PartialEq, Eq, Drop)]
pub enum Call<D> {
    /// An open of a FIFO for one side (fifo(7)). Its description stands already, and `kept` is how often the other
    /// side had been opened by then.
    Open {
        description: D,
        kept: u64,
    },
    /// A read of at most `n` bytes (read(2)).
    Read {
        fd: u32,
        n: u64,
    },
    /// A write (write(2)).
    Write {
        fd: u32,
        write: UnfinishedWrite,
    },
    /// At most `n` bytes from one pipe to another (tee(2), splice(2)). `source` and `sink` are descriptors.
    Cross {
        crossing: Crossing,
        source: u32,
        sink: u32,
        n: u64,
    },
}
