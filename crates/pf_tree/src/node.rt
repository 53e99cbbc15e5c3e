//! One file of a tree with what stands below it. Every call with a path goes down it, a level at a time.

ghost use Rattle.std.specs.Prelude.{◌≡◌, ◌<◌, ◌≤◌, ◌^◌, ◌+◌, [], ◌∷◌, ◌++◌, length, Some, None, IsSome, IfSome, IfNone, IfOk, OnOk, if◌then◌else◌, is_ok};
ghost use Rattle.std.specs.List.{FoldsTo};
ghost use Rattle.pf_machine.specs.FileMap.{Files, Path, find, front, IsDirectory, insert, remove, set_mode, names_below, listed};
ghost use Rattle.pf_machine.specs.Paths.{is_nonempty};
ghost use Rattle.pf_tree.specs.Local.{IsLocal};
ghost use Rattle.pf_tree.specs.Node.{Rises};
ghost use Rattle.pf_tree.specs.Place.{IsPlace};
ghost use Rattle.pf_tree.specs.Subtrees.{under, subtree, path_of};
ghost use Rattle.pf_tree.specs.Visits.{Visits, visits};

use crate::order::compare;
use pf_base::{File, Kind, Meta, Mode};
use std::alloc::{AllocError, Allocator};
use std::marker::Model;

/// A file of a tree, with what stands below it. A contract sees the files from here on, each at its path from here: the
/// node's own is at the empty path.
#[cycle(files)]
#[derive(Drop)]
pub struct Node<A: Allocator> {
    mode: Mode,
    uid: u32,
    gid: u32,
    number: u64,
    body: Body<A>,
}

// What tells a FIFO from a directory, whose entries rise by name. Each entry stands in a box with its file, so that the
// vector has one pointer for it: where an entry comes or goes among thousands, those behind it move, and little is moved.
#[cycle(files)]
#[derive(Drop)]
enum Body<A: Allocator> {
    Fifo,
    Directory(Vec<Box<Entry<A>, A>, A>),
}

// A directory entry (POSIX.1-2017, 3.130): a name with its file.
#[cycle(files)]
#[derive(Drop)]
struct Entry<A: Allocator> {
    name: Vec<u8, A>,
    node: Node<A>,
}

impl<A: Allocator> Model for Node<A> {
    ghost use Rattle.pf_machine.specs.FileMap.{Files};

    ghost Value = { Files };

    ghost use Rattle.pf_tree.specs.Node.{files_of, IsSorted};

    ghost view = { λ a. files_of a };

    ghost invariant = { λ a. IsSorted a.body };

    ghost use Rattle.std.specs.Prelude.{length};

    ghost size = { length };

    ghost use Rattle.pf_tree.specs.NodeFalls.{falls};

    ghost size_decreases = { λ a h. falls A.Allocator a.mode a.uid a.gid a.number a.body };
}

// Where a name stands among entries, or where it would stand: by halves.
fn locate<A: Allocator>(entries: &[Box<Entry<A>, A>], name: &[u8]) -> Result<usize, usize>
    requires rises { Rises entries.now }
    ensures { IsPlace name.now entries.now result }
{
    entries.binary_search_by(|entry| compare(entry.name.as_slice(), name))
}

impl<A: Allocator> Node<A> {
    /// A file with nothing below it. It takes no memory.
    pub fn new(alloc: A, file: File) -> Self
        ensures { result ≡ ([], file) ∷ [] }
    {
        let Meta {
            kind,
            mode,
            uid,
            gid,
        } = file.meta;
        let body = match kind {
            Kind::Fifo => Body::Fifo,
            Kind::Directory => Body::Directory(Vec::new(alloc)),
        };
        Node {
            mode,
            uid,
            gid,
            number: file.number,
            body,
        }
    }

    /// The file itself.
    pub fn file(&self) -> File
        ensures { find [] self.now ≡ Some result }
    {
        let kind = match self.body {
            Body::Fifo => Kind::Fifo,
            Body::Directory(_) => Kind::Directory,
        };
        File {
            meta: Meta {
                kind,
                mode: self.mode,
                uid: self.uid,
                gid: self.gid,
            },
            number: self.number,
        }
    }

    /// What stands under a name right below, if there is a file of that name.
    pub fn child(&self, name: &[u8]) -> Option<&Node<A>>
        ensures found { IfSome result (λ c. c.now ≡ under name.now self.now) }
        ensures file { IfSome result (λ c. IsSome (find [] c.now)) }
        ensures absent { IfNone result (under name.now self.now ≡ []) }
    {
        match &self.body {
            Body::Fifo => None,
            Body::Directory(entries) => match locate(entries.as_slice(), name) {
                Ok(at) => {
                    let entry = &entries[at];
                    Some(&entry.node)
                }
                Err(_) => None,
            },
        }
    }

    /// What stands at a path from here, if there is a file.
    pub fn node_at(&self, path: &[&[u8]]) -> Option<&Node<A>>
        ensures found { IfSome result (λ c. c.now ≡ subtree (path_of path.now) self.now) }
        ensures absent { IfNone result (find (path_of path.now) self.now ≡ None) }
    {
        let mut node = self;
        for name in path {
            let Some(next) = node.child(name) else {
                return None;
            };
            node = next;
        }
        Some(node)
    }

    /// The file at a path from here.
    pub fn find(&self, path: &[&[u8]]) -> Option<File>
        ensures { result ≡ find (path_of path.now) self.now }
    {
        let node = self.node_at(path)?;
        Some(node.file())
    }

    /// The names right below, by bytes, each with a slash behind it, in a vector of their own. A FIFO has none.
    pub fn names<B: Allocator>(&self, alloc: B) -> Result<Vec<u8, B>, AllocError>
        ensures { IfOk result (λ names. names.items ≡ listed (names_below [] self.now)) }
    {
        let mut names = Vec::new(alloc);
        let Body::Directory(entries) = &self.body else {
            return Ok(names);
        };
        for entry in entries {
            names.extend_from_slice(entry.name.as_slice())?;
            names.push(b'/')?;
        }
        Ok(names)
    }

    /// Whether there are names right below.
    pub fn has_names(&self) -> bool
        ensures { result ≡ is_nonempty (names_below [] self.now) }
    {
        match &self.body {
            Body::Fifo => false,
            Body::Directory(entries) => !entries.as_slice().is_empty(),
        }
    }

    /// Takes the file at a path away. A directory may have no entries.
    pub fn remove(&mut self, path: &[&[u8]])
        requires below { 0 < length path.now }
        requires present { IsSome (find (path_of path.now) self.old) }
        requires empty { IsDirectory (find (path_of path.now) self.old)
            → names_below (path_of path.now) self.old ≡ [] }
        ensures { self.new ≡ remove (path_of path.now) self.old }
    {
        let Some((name, parent)) = path.split_last() else {
            unreachable!()
        };
        let removal = Removal { name: *name };
        self.change(parent, &removal);
    }

    /// Gives the file at a path another mode.
    pub fn set_mode(&mut self, path: &[&[u8]], mode: Mode)
        requires present { IsSome (find (path_of path.now) self.old) }
        ensures { self.new ≡ set_mode (path_of path.now) mode self.old }
    {
        let new_mode = NewMode { mode };
        self.change(path, &new_mode);
    }

    // Makes a change at the end of a path from here. It stands there if anything stands there or below.
    fn change<C: Change<A>>(&mut self, path: &[&[u8]], change: &C) -> C::Answer
        requires local { (answer : C.Answer) → IsLocal (C.made change.now answer) }
        requires there { 0 < length (subtree (path_of path.now) self.old) }
        requires fit { C.IsFit change.now (subtree (path_of path.now) self.old) }
        ensures { self.new ≡ C.made change.now result (path_of path.now) self.old }
    {
        let Some((name, rest)) = path.split_first() else {
            return change.make(self);
        };
        let Body::Directory(entries) = &mut self.body else {
            unreachable!()
        };
        let Ok(at) = locate(entries.as_slice(), name) else {
            unreachable!()
        };
        let entry = &mut entries[at];
        let node = &mut entry.node;
        let answer = node.change(rest, change);
        // Whatever was changed is a node, which has a file of its own.
        let _ = &node.mode;
        answer
    }

    /// Calls a function on this file, under a depth and a name of the caller's, and then on all below it, a directory before
    /// its entries and these by the bytes of their names, each a level deeper.
    pub fn for_each_depth_first<F: FnMut(usize, &[u8], &Meta)>(
        &self,
        depth: usize,
        name: &[u8],
        f: &mut F,
    )
        requires callable { F.IsAlwaysCallable f.old }
        requires shallow { depth + length self.now < 2 ^ 64 }
        ensures callable { F.IsAlwaysCallable f.new }
        ensures visits { FoldsTo (Visits F.step) f.old (visits depth name.now self.now) f.new }
    {
        let file = self.file();
        f(depth, name, &file.meta);
        let Body::Directory(entries) = &self.body else {
            return;
        };
        for entry in entries {
            let entry: &Entry<A> = entry;
            entry
                .node
                .for_each_depth_first(depth + 1, entry.name.as_slice(), f);
        }
    }
}

impl<A: Allocator + Clone> Entry<A> {
    // A file with nothing below it, under a name. It stays out of line: its caller may be inlined into the walk of a change,
    // which goes down a path by calling itself, and would take this function's part of the stack at each level.
    #[inline(never)]
    fn new(alloc: &A, name: &[u8], file: File) -> Result<Box<Entry<A>, A>, AllocError>
        ensures name { IfOk result (λ e. e.value.name.items ≡ name.now) }
        ensures file { IfOk result (λ e. e.value.node ≡ ([], file) ∷ []) }
    {
        let name = Vec::from_slice(alloc.clone()?, name)?;
        let node = Node::new(alloc.clone()?, file);
        let entry = Box::new(alloc.clone()?, Entry { name, node })?;
        Ok(entry)
    }
}

impl<A: Allocator + Clone> Node<A> {
    /// Adds a file with nothing below it at a path from here. All memory is taken before the first change: a growth that is
    /// refused changes nothing.
    pub fn insert(&mut self, path: &[&[u8]], file: File) -> Result<(), AllocError>
        requires absent { find (path_of path.now) self.old ≡ None }
        requires parent { IsDirectory (find (front (path_of path.now)) self.old) }
        ensures { self.new ≡ (if is_ok result then insert (path_of path.now) file self.old else self.old) }
    {
        let Some((name, parent)) = path.split_last() else {
            unreachable!()
        };
        let insertion = Insertion { name: *name, file };
        self.change(parent, &insertion)
    }
}

// A change of the node that a path leads to. A contract sees what it makes of the files of a directory on the way, with the
// rest of the path from there.
trait Change<A: Allocator> {
    type Answer;

    // What the node's own files must be.
    ghost IsFit: { Self → Files → Type 0 };

    ghost made: { Self → Self.Answer → Path → Files → Files };

    fn make(&self, node: &mut Node<A>) -> Self::Answer
        requires { IsFit self.now node.old }
        ensures { node.new ≡ made self.now result [] node.old };
}

// A file with nothing below it comes into the directory.
#[derive(Drop)]
struct Insertion<'a> {
    name: &'a [u8],
    file: File,
}

impl<A: Allocator + Clone> Change<A> for Insertion<'_> {
    type Answer = Result<(), AllocError>;

    ghost IsFit = { λ c s. (find (c.name.now ∷ []) s ≡ None) × IsDirectory (find [] s) };

    ghost made = { λ c answer p s. if is_ok answer then insert (p ++ c.name.now ∷ []) c.file s else s };

    fn make(&self, node: &mut Node<A>) -> Result<(), AllocError> {
        let Body::Directory(entries) = &mut node.body else {
            unreachable!()
        };
        let Err(at) = locate(entries.as_slice(), self.name) else {
            unreachable!()
        };
        let entry = Entry::new(entries.allocator(), self.name, self.file)?;
        entries.insert(at, entry)?;
        Ok(())
    }
}

// A file goes out of the directory: a FIFO, or a directory that has no entries.
#[derive(Drop)]
struct Removal<'a> {
    name: &'a [u8],
}

impl<A: Allocator> Change<A> for Removal<'_> {
    type Answer = ();

    ghost IsFit = { λ c s. IsSome (find (c.name.now ∷ []) s)
        × (IsDirectory (find (c.name.now ∷ []) s) → names_below (c.name.now ∷ []) s ≡ []) };

    ghost made = { λ c answer p s. remove (p ++ c.name.now ∷ []) s };

    fn make(&self, node: &mut Node<A>) {
        let Body::Directory(entries) = &mut node.body else {
            unreachable!()
        };
        let Ok(at) = locate(entries.as_slice(), self.name) else {
            unreachable!()
        };
        let entry = entries.remove(at);
        // What goes is a node: where it has no names it has no entries.
        let gone = &entry.node;
        let _ = &gone.mode;
    }
}

// The file gets another mode.
#[derive(Drop)]
struct NewMode {
    mode: Mode,
}

impl<A: Allocator> Change<A> for NewMode {
    type Answer = ();

    ghost IsFit = { λ c s. Unit {0} };

    ghost made = { λ c answer p s. set_mode p c.mode s };

    fn make(&self, node: &mut Node<A>) {
        node.mode = self.mode;
    }
}
