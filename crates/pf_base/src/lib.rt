//! The types that every crate speaks of, and, in `specs/`, the definitions that they are compared with.
#![tactic(auto)]

pub mod admission;
pub mod bytes;
pub mod capacity;
pub mod config;
pub mod cred;
pub mod errno;
pub mod fault;
pub mod meta;
pub mod open_flags;
pub mod permissions;
pub mod progress;
pub mod readiness;
pub mod step;

pub use admission::{AdmitFault, EventAnswer, RetireFault};
pub use bytes::{ByteRoom, ByteString};
pub use capacity::{LimitFault, pages_for};
pub use config::{Config, ConfigFault};
pub use cred::{Cred, Groups};
pub use errno::Errno;
pub use fault::Fault;
pub use meta::{File, Kind, Meta, Mode};
pub use open_flags::OpenFlags;
pub use permissions::{Class, Want, may, may_remove};
pub use progress::{Crossing, Progress, Side};
pub use readiness::Readiness;
pub use step::{Answer, Reply, Step};

/// The size of a page in bytes (pipe(7), "Pipe capacity"): what one slot of a pipe holds.
pub const PAGE_SIZE: usize = 4096;

/// A write of at most this many bytes is whole (pipe(7), "PIPE_BUF").
pub const PIPE_BUF: usize = 4096;

/// How many bytes a `ByteString` keeps in place, without memory of the heap.
pub const BYTES_IN_PLACE: usize = 14;

/// How many namespaces there may be at once (this profile's limit).
pub const MAX_NAMESPACES: usize = 64;

/// How many numbers of namespaces may ever be given (this profile's limit): 0 to 1,023, in rising order, each once.
pub const MAX_NUMBERS: usize = 1_024;

/// How many frames a pool may have (this profile's limit).
pub const MAX_FRAMES: usize = 65_536;

/// The largest reservation of a namespace, in frames (this profile's limit).
pub const MAX_RESERVE: u32 = 65_536;

/// The least pipe-max-size, in bytes (this profile's limit).
pub const LEAST_PIPE_MAX_SIZE: u32 = 65_536;

/// The largest pipe-max-size, in bytes (this profile's limit).
pub const MAX_PIPE_MAX_SIZE: u32 = 268_435_456;

/// How many processes a namespace may have at once (this profile's limit): pids are 1 to 256.
pub const MAX_PROCESSES: usize = 256;

/// How many descriptors a process may have at once (this profile's limit): 0 to 255.
pub const MAX_DESCRIPTORS: usize = 256;

/// How many supplementary groups a process may have (this profile's limit).
pub const MAX_GROUPS: usize = 32;

/// The largest umask: the nine permission bits (POSIX.1-2017, umask()).
pub const MAX_UMASK: u32 = 0o777;

/// All permissions for all: the nine permission bits S_IRWXU, S_IRWXG and S_IRWXO (POSIX.1-2017, `<sys/stat.h>`).
pub const ALL_PERMISSIONS: u32 = 0o777;

/// The largest mode: the nine permission bits and S_ISVTX, the sticky bit. The set-user-ID and set-group-ID bits aren't
/// kept.
pub const MAX_MODE: u32 = 0o1777;

/// The most bytes of a name: {NAME_MAX}.
pub const MAX_NAME: usize = 255;

/// The most bytes of a path, all its slashes counted: {PATH_MAX} is 1,024, with a byte 0 behind the path.
pub const MAX_PATH: usize = 1_023;

/// The most files of a namespace at once, the root not counted (this profile's limit).
pub const MAX_FILES: usize = 10_000;

/// How many files, pipes and open file descriptions each a namespace may ever make (this profile's limit).
pub const MAX_MADE: u64 = u64::MAX;

/// The longest write in bytes (this profile's limit).
pub const MAX_WRITE: usize = 1_048_576;

/// The largest capacity in bytes that may be asked for (this profile's limit).
pub const MAX_SIZE: u64 = 2_147_483_648;

/// The slots of a new pipe where no limit makes it smaller (pipe(7), "Pipe capacity").
pub const DEFAULT_SLOTS: u32 = 16;

/// The slots of a new pipe where a limit makes it smaller (this profile's choice).
pub const LEAST_SLOTS: u32 = 1;
