//! Who may do what with a file.

ghost use Rattle.std.specs.Prelude.{◌≡◌};
ghost use Rattle.pf_base.specs.Permissions.{allows, class_of, class_shift, may_remove, want_shift};

use crate::cred::Cred;
use crate::meta::Meta;

/// What a process wants to do with a file.
#[derive(Clone, Copy, Debug, PartialEq, Eq)]
pub enum Want {
    Read,
    Write,
    /// To look a name up in a directory: what `x` is there.
    Search,
}

impl Want {
    /// The place of its bit among a class's three.
    pub fn shift(self) -> u32
        ensures { result ≡ want_shift self }
    {
        match self {
            Want::Read => 2,
            Want::Write => 1,
            Want::Search => 0,
        }
    }
}

/// The classes of processes that a mode tells apart (POSIX.1-2017, 3.175 "File Group Class", 3.177 "File Other Class",
/// 3.178 "File Owner Class").
#[derive(Clone, Copy, Debug, PartialEq, Eq)]
pub enum Class {
    Owner,
    Group,
    Other,
}

impl Class {
    /// The place of its lowest bit in a mode.
    pub fn shift(self) -> u32
        ensures { result ≡ class_shift self }
    {
        match self {
            Class::Owner => 6,
            Class::Group => 3,
            Class::Other => 0,
        }
    }

    /// The class whose bits alone decide for a process and a file.
    pub fn of(cred: &Cred, meta: &Meta) -> Self
        ensures { result ≡ class_of cred.now meta.now }
    {
        if cred.uid == meta.uid {
            Class::Owner
        } else if cred.gid == meta.gid || cred.groups.as_slice().contains(&meta.gid) {
            Class::Group
        } else {
            Class::Other
        }
    }
}

/// Whether a process may do that with a file (POSIX.1-2017, 4.5 "File Access Permissions"): the uid 0 may, and of others
/// the one class decides that the process is in.
pub fn may(cred: &Cred, meta: &Meta, want: Want) -> bool
    ensures { result ≡ allows cred.now meta.now want }
{
    cred.uid == 0 || meta.mode.grants(Class::of(cred, meta), want)
}

/// Whether a process that may write a directory may take a file out of it (POSIX.1-2017, 4.3 "Directory Protection"): of a
/// directory with the sticky bit only the uid 0, the file's owner and the directory's owner may.
pub fn may_remove(cred: &Cred, dir: &Meta, file: &Meta) -> bool
    ensures { result ≡ may_remove cred.now dir.now file.now }
{
    !dir.mode.is_sticky() || cred.uid == 0 || cred.uid == file.uid || cred.uid == dir.uid
}
