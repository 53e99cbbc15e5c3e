//! The whole tree: what a namespace knows of its files.

ghost use Rattle.std.specs.Prelude.{◌≡◌, ◌≢◌, ◌<◌, ◌^◌, ◌+◌, [], ◌∷◌, length, Some, None, IsTrue, IsSome, IfSome, IfOk, if◌then◌else◌, is_ok};
ghost use Rattle.std.specs.List.{FoldsTo};
ghost use Rattle.pf_machine.specs.FileMap.{find, front, is_directory, IsDirectory, IsFileMap, insert, remove, set_mode, names_below, listed};
ghost use Rattle.pf_machine.specs.Paths.{is_nonempty};
ghost use Rattle.pf_tree.specs.Subtrees.{path_of};
ghost use Rattle.pf_tree.specs.Visits.{Visits, visits};

use crate::node::Node;
use pf_base::{File, Meta, Mode};
use std::alloc::{AllocError, Allocator};
use std::marker::Model;

/// Directories and FIFOs under a root directory, in memory of any allocator. A contract sees the finite map from paths to
/// files.
///
/// A call with a path costs what its names and the widths of their directories cost, and recursion goes no deeper than
/// the path: names are found by halves. `for_each_depth_first` goes to each file.
#[derive(Drop)]
pub struct Tree<A: Allocator> {
    root: Node<A>,
    count: usize,
}

impl<A: Allocator> Model for Tree<A> {
    ghost use Rattle.std.specs.Prelude.{◌≡◌, ◌<◌, ◌^◌, length};
    ghost use Rattle.pf_machine.specs.FileMap.{Files, IsFileMap};

    ghost Value = { Files };

    ghost view = { λ t. t.root };

    ghost invariant = { λ t. IsFileMap t.root × (t.count ≡ length t.root) × (t.count < 2 ^ 64) };
}

impl<A: Allocator> Tree<A> {
    /// The root alone. It takes no memory.
    pub fn new(alloc: A, root: File) -> Self
        requires directory { IsTrue (is_directory root) }
        ensures value { result ≡ ([], root) ∷ [] }
        ensures map { IsFileMap result }
    {
        Tree {
            root: Node::new(alloc, root),
            count: 1,
        }
    }

    /// The root, to go down from.
    pub fn root(&self) -> &Node<A>
        ensures value { result.now ≡ self.now }
        ensures map { IsFileMap self.now }
    {
        &self.root
    }

    /// How many files there are, the root among them.
    pub fn count(&self) -> usize
        ensures { result ≡ length self.now }
    {
        self.count
    }

    /// The file at a path.
    pub fn find(&self, path: &[&[u8]]) -> Option<File>
        ensures { result ≡ find (path_of path.now) self.now }
    {
        self.root.find(path)
    }

    /// The names in a directory, by bytes, each with a slash behind it, in a vector of their own.
    pub fn names<B: Allocator>(&self, alloc: B, path: &[&[u8]]) -> Result<Vec<u8, B>, AllocError>
        requires directory { IsDirectory (find (path_of path.now) self.now) }
        ensures { IfOk result (λ names. names.items ≡ listed (names_below (path_of path.now) self.now)) }
    {
        let Some(node) = self.root.node_at(path) else {
            unreachable!()
        };
        node.names(alloc)
    }

    /// Whether a directory has names.
    pub fn has_names(&self, path: &[&[u8]]) -> bool
        requires directory { IsDirectory (find (path_of path.now) self.now) }
        ensures { result ≡ is_nonempty (names_below (path_of path.now) self.now) }
    {
        let Some(node) = self.root.node_at(path) else {
            unreachable!()
        };
        node.has_names()
    }

    /// Takes a file away that is not the root. A directory may have no entries.
    pub fn remove(&mut self, path: &[&[u8]])
        requires below { 0 < length path.now }
        requires present { IsSome (find (path_of path.now) self.old) }
        requires empty { IsDirectory (find (path_of path.now) self.old)
            → names_below (path_of path.now) self.old ≡ [] }
        ensures value { self.new ≡ remove (path_of path.now) self.old }
        ensures map { IsFileMap self.new }
    {
        self.root.remove(path);
        self.count -= 1;
    }

    /// Gives a file another mode.
    pub fn set_mode(&mut self, path: &[&[u8]], mode: Mode)
        requires present { IsSome (find (path_of path.now) self.old) }
        ensures value { self.new ≡ set_mode (path_of path.now) mode self.old }
        ensures map { IsFileMap self.new }
    {
        self.root.set_mode(path, mode);
    }

    /// Calls a function on each file once, with its depth, its name and what is known of it: a directory before its entries,
    /// and these by the bytes of their names. The root comes first, at depth 0, with an empty name.
    pub fn for_each_depth_first<F: FnMut(usize, &[u8], &Meta)>(&self, f: &mut F)
        requires callable { F.IsAlwaysCallable f.old }
        ensures { FoldsTo (Visits F.step) f.old (visits 0 [] self.now) f.new }
    {
        self.root.for_each_depth_first(0, b"", f);
    }
}

impl<A: Allocator + Clone> Tree<A> {
    /// Adds a file with nothing below it. All memory is taken before the first change: a growth that is refused changes
    /// nothing.
    pub fn insert(&mut self, path: &[&[u8]], file: File) -> Result<(), AllocError>
        requires room { length self.old + 1 < 2 ^ 64 }
        requires absent { find (path_of path.now) self.old ≡ None }
        requires parent { IsDirectory (find (front (path_of path.now)) self.old) }
        ensures value { self.new
            ≡ (if is_ok result then insert (path_of path.now) file self.old else self.old) }
        ensures map { IsFileMap self.new }
    {
        self.root.insert(path, file)?;
        self.count += 1;
        Ok(())
    }
}
