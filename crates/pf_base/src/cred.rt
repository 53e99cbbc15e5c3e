ghost use Rattle.std.specs.Prelude.{◌≡◌, [], nat_eq, IfOk, IsOk};
ghost use Rattle.std.specs.Cmp.Lexicographic.{pointwise, nat_list_eq_equiv};
ghost use Rattle.std.specs.Cmp.{partial_equiv_from_equiv};

use crate::{MAX_GROUPS, MAX_UMASK};
use std::alloc::{AllocError, Global};
use std::marker::Model;

/// Supplementary group ids. A contract sees the list of them.
#[derive(Debug, Drop)]
pub struct Groups {
    // Few processes have any, and a box keeps a step small.
    ids: Option<Box<Vec<u32>>>,
}

impl Model for Groups {
    ghost use Rattle.std.specs.Prelude.{List, ℕ};
    ghost use Rattle.pf_base.specs.Kept.{kept_ids};

    ghost Value = { List ℕ };

    ghost view = { λ g. kept_ids g.ids };
}

impl Groups {
    /// No groups, with no allocation.
    pub fn none() -> Self
        ensures { result ≡ [] }
    {
        Groups { ids: None }
    }

    /// These groups. Memory is wanted only where there are any.
    pub fn new(alloc: Global, ids: Vec<u32>) -> Result<Self, AllocError>
        ensures ids { IfOk result (λ groups. groups ≡ ids.items) }
        ensures none { ids.items ≡ [] → IsOk result }
    {
        if ids.is_empty() {
            return Ok(Groups::none());
        }
        Ok(Groups {
            ids: Some(Box::new(alloc, ids)?),
        })
    }

    /// A copy of these group ids. Memory is wanted only where there are any.
    pub fn from_slice(alloc: Global, ids: &[u32]) -> Result<Self, AllocError>
        ensures ids { IfOk result (λ groups. groups ≡ ids.now) }
        ensures none { ids.now ≡ [] → IsOk result }
    {
        match ids {
            [] => Ok(Groups::none()),
            _ => Groups::new(alloc, Vec::from_slice(alloc, ids)?),
        }
    }

    /// The group ids.
    pub fn as_slice(&self) -> &[u32]
        ensures { result.now ≡ self.now }
    {
        match &self.ids {
            None => &[],
            Some(ids) => ids.as_slice(),
        }
    }

    /// The same groups again. Memory is wanted only where there are any.
    pub fn copy(&self, alloc: Global) -> Result<Groups, AllocError>
        ensures ids { IfOk result (λ groups. groups ≡ self.now) }
        ensures none { self.now ≡ [] → IsOk result }
    {
        Groups::from_slice(alloc, self.as_slice())
    }
}

impl PartialEq for Groups {
    ghost eq = { pointwise nat_eq };

    ghost laws = { partial_equiv_from_equiv nat_list_eq_equiv };

    fn eq(&self, other: &Groups) -> bool {
        self.as_slice() == other.as_slice()
    }
}

impl Eq for Groups {
    ghost laws = { nat_list_eq_equiv };
}

/// A process's credentials (POSIX.1-2017, 4.5 "File Access Permissions").
///
/// A value may hold more groups or a larger umask than a process may have: the step that makes a process tests them
/// by `is_valid`.
#[derive(Debug, PartialEq, Eq, Drop)]
pub struct Cred {
    /// The user id.
    pub uid: u32,
    /// The group id.
    pub gid: u32,
    /// The supplementary group ids, at most `MAX_GROUPS`.
    pub groups: Groups,
    /// The file mode creation mask (umask(2)), at most `MAX_UMASK`.
    pub umask: u32,
}

impl Cred {
    ghost use Rattle.std.specs.Prelude.{◌≡◌, IfOk};
    ghost use Rattle.pf_base.specs.Credentials.{is_valid};
    ghost use Rattle.pf_base.specs.Permissions.{is_privileged};

    /// The same credentials again.
    pub fn copy(&self, alloc: Global) -> Result<Cred, AllocError>
        ensures { IfOk result (λ cred. cred ≡ self.now) }
    {
        let groups = self.groups.copy(alloc)?;
        Ok(Cred {
            uid: self.uid,
            gid: self.gid,
            groups,
            umask: self.umask,
        })
    }

    /// Whether a process may have these groups and this umask: permission bits alone, and not too many groups. A Spawn
    /// with others is refused with EINVAL. Neither the uid nor the gid is judged.
    pub fn may_have(groups: &Groups, umask: u32) -> bool
        ensures { result ≡ is_valid (record { uid = 0; gid = 0; groups = groups.now; umask = umask }) }
    {
        umask <= MAX_UMASK && groups.as_slice().len() <= MAX_GROUPS
    }

    /// Whether neither the page limits of users nor pipe-max-size hold for these credentials, and all access is
    /// granted: those of uid 0 (this profile's choice).
    pub fn is_privileged(&self) -> bool
        ensures { result ≡ is_privileged self.now }
    {
        self.uid == 0
    }

    /// Whether a process may have these credentials.
    pub fn is_valid(&self) -> bool
        ensures { result ≡ is_valid self.now }
    {
        Cred::may_have(&self.groups, self.umask)
    }
}
