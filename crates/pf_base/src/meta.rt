ghost use Rattle.std.specs.Prelude.{◌≡◌, ◌≤◌};
ghost use Rattle.pf_base.specs.Permissions.{mode_of, masked, grants, is_sticky};
ghost use Rattle.pf_base.specs.declared.TheConstants.{MAX_MODE};

use crate::errno::Errno;
use crate::permissions::{Class, Want};
use crate::{ALL_PERMISSIONS, MAX_MODE};
use std::marker::Model;

/// What a file is.
#[derive(Clone, Copy, Debug, PartialEq, Eq)]
pub enum Kind {
    Fifo,
    Directory,
}

/// The mode of a file (POSIX.1-2017, `<sys/stat.h>`): its permission bits, read, write and search for its owner, its group
/// and all others; and the sticky bit S_ISVTX. A contract sees their number, which is at most 01777.
#[derive(Clone, Copy, Debug, PartialEq, Eq)]
pub struct Mode {
    bits: u32,
}

impl Model for Mode {
    ghost use Rattle.std.specs.Prelude.{ℕ, ◌≤◌};
    ghost use Rattle.pf_base.specs.declared.TheConstants.{MAX_MODE};

    ghost Value = { ℕ };

    ghost view = { λ m. m.bits };

    ghost invariant = { λ m. m.bits ≤ MAX_MODE };

    ghost inverse = { λ n. record { bits = n } };
}

impl Mode {
    /// The largest mode: the sticky bit, and all permissions for all. The set-user-ID and set-group-ID bits aren't kept.
    pub const MOST: u32 = MAX_MODE;

    /// The mode of these bits; EINVAL where there are others than the permission bits and the sticky bit.
    pub fn new(bits: u32) -> Result<Self, Errno>
        ensures { result ≡ mode_of bits }
    {
        if bits > Self::MOST {
            return Err(Errno::EINVAL);
        }
        Ok(Mode { bits })
    }

    /// The bits, at most 01777.
    pub fn bits(self) -> u32
        ensures value { result ≡ self }
        ensures most { result ≤ MAX_MODE }
    {
        self.bits
    }

    /// The mode of a file that is made with this mode by a process with that umask (POSIX.1-2017, umask()), which has
    /// permission bits alone.
    pub fn without(self, umask: u32) -> Self
        ensures { result ≡ masked self umask }
    {
        Mode {
            bits: self.bits & !umask,
        }
    }

    /// Whether a class has a permission.
    pub fn grants(self, class: Class, want: Want) -> bool
        ensures { result ≡ grants self class want }
    {
        let place = class.shift() + want.shift();
        (self.bits >> place) & 1 == 1
    }

    /// Whether the sticky bit is set: of a directory, the restricted deletion flag (POSIX.1-2017, `<sys/stat.h>`, S_ISVTX).
    /// On a FIFO it is kept and has no effect (this profile's choice).
    pub fn is_sticky(self) -> bool
        ensures { result ≡ is_sticky self }
    {
        (self.bits >> 9) & 1 == 1
    }
}

/// What stat() tells of a file.
#[derive(Clone, Copy, Debug, PartialEq, Eq)]
pub struct Meta {
    pub kind: Kind,
    pub mode: Mode,
    pub uid: u32,
    pub gid: u32,
}

/// A file: what is known of it, and its number, which no other file of its namespace has or ever had.
#[derive(Clone, Copy, Debug, PartialEq, Eq)]
pub struct File {
    pub meta: Meta,
    pub number: u64,
}

impl File {
    ghost use Rattle.pf_base.specs.Root.{root};

    /// A namespace's root directory, which all may read, change and search, of the uid 0 and the gid 0 (this profile's
    /// choice).
    pub fn root() -> Self
        ensures { result ≡ root }
    {
        let meta = Meta {
            kind: Kind::Directory,
            mode: Mode {
                bits: ALL_PERMISSIONS,
            },
            uid: 0,
            gid: 0,
        };
        File { meta, number: 0 }
    }
}
