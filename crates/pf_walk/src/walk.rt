//! A walk down a tree and up again, a component at a time.

ghost use Rattle.std.specs.Prelude.{◌≡◌, [], ◌∷◌, ◌++◌, IfOk, OnOk, IsTrue, true};
ghost use Rattle.pf_base.specs.Permissions.{grants};
ghost use Rattle.pf_base.specs.declared.permissions.Class.{Class};
ghost use Rattle.pf_base.specs.declared.permissions.Want.TheVariants.{Search};
ghost use Rattle.pf_machine.specs.FileMap.{is_directory};
ghost use Rattle.pf_machine.specs.Paths.{permitted, stepped};
ghost use Rattle.pf_tree.specs.Subtrees.{subtree, path_of};
ghost use Rattle.pf_walk.specs.Told.{Told};
ghost use Rattle.pf_walk.specs.Walks.{Stands};

use pf_base::{Class, Cred, Errno, Fault, File, Kind, Mode, Want, may};
use pf_tree::Node;
use std::alloc::{AllocError, Allocator, Global};

/// How far a walk has come: the names that lead from the root to where it stands, and the node at each of them, so that
/// `..` goes back without another look from the root.
#[derive(Drop)]
pub(crate) struct Walk<'t, 'p, A: Allocator> {
    root: &'t Node<A>,
    names: Vec<&'p [u8]>,
    nodes: Vec<&'t Node<A>>,
}

/// Whether a file is a directory.
pub(crate) fn is_directory(file: &File) -> bool
    ensures { result ≡ is_directory file.now }
{
    match file.meta.kind {
        Kind::Fifo => false,
        Kind::Directory => true,
    }
}

// Whether a mode lets each class search, as most directories' modes do: then no class and no group has to be looked for.
fn lets_all_search(mode: Mode) -> bool
    ensures { IsTrue result → (class : Class) → grants mode class Search ≡ true }
{
    mode.grants(Class::Owner, Want::Search)
        && mode.grants(Class::Group, Want::Search)
        && mode.grants(Class::Other, Want::Search)
}

/// Whether a walk may go on from a file: ENOTDIR where it is no directory, EACCES where it may not be searched
/// (POSIX.1-2017, 4.13).
pub(crate) fn search(cred: &Cred, file: &File) -> Result<(), Errno>
    ensures { result ≡ permitted cred.now file.now }
{
    match file.meta.kind {
        Kind::Fifo => Err(Errno::ENOTDIR),
        Kind::Directory => {
            if lets_all_search(file.meta.mode) || may(cred, &file.meta, Want::Search) {
                Ok(())
            } else {
                Err(Errno::EACCES)
            }
        }
    }
}

/// Puts one more at the end.
pub(crate) fn append<T: Drop>(items: &mut Vec<T>, item: T) -> Result<(), AllocError>
    ensures { OnOk result (items.new.items ≡ items.old.items ++ item ∷ []) }
{
    items.push(item)?;
    Ok(())
}

impl<'t, 'p, A: Allocator> Walk<'t, 'p, A> {
    /// A walk that stands at the root.
    pub fn new(alloc: Global, root: &'t Node<A>) -> Self
        ensures root { result.root.now ≡ root.now }
        ensures names { result.names.items ≡ [] }
        ensures stands { Stands result.root.now result.names.items result.nodes.items }
    {
        Walk {
            root,
            names: Vec::new(alloc),
            nodes: Vec::new(alloc),
        }
    }

    /// The node at which it stands.
    pub fn here(&self) -> &'t Node<A>
        requires stands { Stands self.now.root.now self.now.names.items self.now.nodes.items }
        ensures { result.now ≡ subtree (path_of self.now.names.items) self.now.root.now }
    {
        match self.nodes.as_slice().split_last() {
            Some((node, _)) => node,
            None => self.root,
        }
    }

    /// One component further: `.` stays, and `..` goes to the parent, from the root to the root.
    pub fn step(&mut self, cred: &Cred, name: &'p [u8]) -> Result<(), Fault>
        requires stands { Stands self.old.root.now self.old.names.items self.old.nodes.items }
        ensures told { Told (λ _. path_of self.new.names.items) result
            (stepped self.old.root.now cred.now (path_of self.old.names.items) name.now) }
        ensures stands { OnOk result (Stands self.new.root.now self.new.names.items self.new.nodes.items) }
        ensures root { self.new.root.now ≡ self.old.root.now }
    {
        let here = self.here();
        search(cred, &here.file())?;
        if name == b".".as_slice() {
            return Ok(());
        }
        if name == b"..".as_slice() {
            let parents = self.names.as_slice().len().saturating_sub(1);
            self.names.truncate(parents);
            self.nodes.truncate(parents);
            return Ok(());
        }
        let Some(node) = here.child(name) else {
            return Err(Fault::Errno(Errno::ENOENT));
        };
        append(&mut self.names, name)?;
        append(&mut self.nodes, node)?;
        Ok(())
    }

    /// The names that lead to where it stands.
    pub fn into_path(self) -> Vec<&'p [u8]>
        ensures { result.items ≡ self.entry.names.items }
    {
        self.names
    }
}
