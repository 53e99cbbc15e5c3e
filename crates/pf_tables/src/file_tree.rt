//! The files of a namespace, within this profile's limits.

ghost use Rattle.std.specs.Prelude.{◌≡◌, ℕ, ◌+◌, ◌*◌, ◌<◌, ◌≤◌, ◌^◌, Err, false, List, length, IfOk, IsOk};
ghost use Rattle.pf_machine.specs.FileMap.{Path, root_alone, names_below, listed};
ghost use Rattle.pf_machine.specs.FileCalls.{make, unlink, rmdir, chmod};
ghost use Rattle.pf_machine.specs.Paths.{has_dots};
ghost use Rattle.pf_base.specs.declared.TheConstants.{MAX_FILES, MAX_NAME};
ghost use Rattle.pf_walk.specs.Told.{Changed};

use pf_base::{Cred, Fault, File, Kind, MAX_NAME, Mode};
use pf_tree::Tree;
use std::alloc::{Allocator, Global};
use std::marker::Model;

/// The tree of a namespace's files. It is changed by the calls of `pf_walk` alone, so it has at most 10,000 files
/// besides the root, with names of at most 255 bytes.
///
/// A contract sees the finite map from paths to files.
#[derive(Drop)]
pub struct FileTree<A: Allocator> {
    tree: Tree<A>,
}

impl<A: Allocator> Model for FileTree<A> {
    ghost use Rattle.pf_machine.specs.FileMap.{Files};

    ghost Value = { Files };

    ghost use Rattle.pf_machine.specs.FileLimits.{IsWithin};

    ghost view = { λ t. t.tree };

    ghost invariant = { λ t. IsWithin t.tree };
}

impl<A: Allocator> FileTree<A> {
    /// The root alone. It takes no memory.
    pub fn new(alloc: A) -> Self
        ensures { result ≡ root_alone }
    {
        FileTree {
            tree: Tree::new(alloc, File::root()),
        }
    }

    /// The tree, to walk.
    pub fn tree(&self) -> &Tree<A>
        ensures { result.now ≡ self.now }
    {
        &self.tree
    }

    /// A number of bytes that no list of names is longer than: a name of the most bytes with a slash for each file but
    /// the root. It costs constant time.
    pub fn list_bound(&self) -> usize
        ensures covers { (path : Path) → length (listed (names_below path self.now)) ≤ result }
        ensures most { result ≤ MAX_FILES * (MAX_NAME + 1) }
    {
        let _root = self.tree.root();
        (self.tree.count() - 1) * (MAX_NAME + 1)
    }

    /// `pf_walk::unlink` on them.
    pub fn unlink(&mut self, alloc: Global, cred: &Cred, path: &[u8]) -> Result<(), Fault>
        ensures changed { Changed result self.old self.new (unlink self.old cred.now path.now) }
        ensures wanted { result ≡ Err Fault.NoMemory → has_dots path.now ≡ false
            → IsOk (unlink self.old cred.now path.now) }
    {
        pf_walk::unlink(alloc, &mut self.tree, cred, path)
    }

    /// `pf_walk::rmdir` on them.
    pub fn rmdir(&mut self, alloc: Global, cred: &Cred, path: &[u8]) -> Result<(), Fault>
        ensures changed { Changed result self.old self.new (rmdir self.old cred.now path.now) }
        ensures wanted { result ≡ Err Fault.NoMemory → has_dots path.now ≡ false
            → IsOk (rmdir self.old cred.now path.now) }
    {
        pf_walk::rmdir(alloc, &mut self.tree, cred, path)
    }

    /// `pf_walk::chmod` on them.
    pub fn chmod(
        &mut self,
        alloc: Global,
        cred: &Cred,
        path: &[u8],
        mode: Mode,
    ) -> Result<(), Fault>
        ensures changed { Changed result self.old self.new (chmod self.old cred.now path.now mode) }
        ensures wanted { result ≡ Err Fault.NoMemory → has_dots path.now ≡ false
            → IsOk (chmod self.old cred.now path.now mode) }
    {
        pf_walk::chmod(alloc, &mut self.tree, cred, path, mode)
    }
}

impl<A: Allocator + Clone> FileTree<A> {
    /// `pf_walk::make` on them.
    pub fn make(
        &mut self,
        alloc: Global,
        cred: &Cred,
        path: &[u8],
        kind: Kind,
        mode: Mode,
        made: u64,
    ) -> Result<(), Fault>
        ensures changed { Changed result self.old self.new (make kind self.old made cred.now path.now mode) }
        ensures wanted { result ≡ Err Fault.NoMemory → has_dots path.now ≡ false
            → IsOk (make kind self.old made cred.now path.now mode) }
        ensures numbered { IfOk result (λ _. made + 1 < 2 ^ 64) }
    {
        pf_walk::make(alloc, &mut self.tree, cred, path, kind, mode, made)
    }
}
