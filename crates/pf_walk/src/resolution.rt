//! Where a path leads (POSIX.1-2017, 4.13 "Pathname Resolution"). Relative and absolute paths both begin at the root.

ghost use Rattle.std.specs.Prelude.{◌≡◌, [], Some, None, IfSome, IfOk, IfErr, IsOk, Ok, Err, IsTrue, true, false};
ghost use Rattle.std.specs.List.{list_any};
ghost use Rattle.pf_machine.specs.FileMap.{front, find, is_directory};
ghost use Rattle.pf_machine.specs.Paths.{components, has_dots, is_component, is_dotted, reach, last_of, target, target_of, entry_of, entry, words_of};
ghost use Rattle.pf_tree.specs.Subtrees.{path_of, subtree};
ghost use Rattle.pf_walk.specs.Told.{Told};
ghost use Rattle.pf_walk.specs.Resolutions.{words, way, resolved, found, target_arrived, node_resolved, resolution, arrived, last};
ghost use Rattle.pf_walk.specs.declared.resolution.Purpose.TheVariants.{Entry};
ghost use Rattle.pf_walk.specs.Walks.{file_at, Stops, Leads, Follows, Parts, IsParent};

use crate::slashes::before_slash;
use crate::walk::{Walk, is_directory, search};
use crate::words::{Way, Words, has_slash, is_dotted, judge, split};
use pf_base::{Cred, Errno, Fault, File};
use pf_tree::{Node, Tree};
use std::alloc::{Allocator, Global};

/// What a path is resolved for.
#[derive(Clone, Copy, Debug, PartialEq, Eq)]
pub enum Purpose {
    /// The file itself, as chmod() and stat() want it: every component is walked.
    Target,
    /// An entry of a directory, as mkdir(), mkfifo(), unlink() and rmdir() want it: every component but the last is
    /// walked.
    Entry,
}

/// What a path names last, below the directory that it is resolved to.
#[derive(Clone, Copy, Debug, PartialEq, Eq)]
pub enum Last<'a> {
    /// The path has no component, or all of them are walked.
    Nothing,
    /// `.`, the directory itself.
    Dot,
    /// `..`, its parent.
    DotDot,
    /// The name of an entry, which may or may not be there: 1 to 255 bytes.
    Name(&'a [u8]),
}

/// What a path is resolved to.
#[derive(Debug, Drop)]
pub struct Resolved<'a> {
    /// The names that lead from the root to the file, without `.` and `..`; none for the root.
    pub path: Vec<&'a [u8]>,
    /// The file: the target, or the directory of an entry.
    pub file: File,
    /// What the path names below the file.
    pub last: Last<'a>,
    /// Whether the path ends in a slash behind a component.
    pub slash: bool,
}

// What a path names last.
fn last_of<'a>(names: &[&'a [u8]]) -> Last<'a>
    ensures { last result ≡ last_of (path_of names.now) }
{
    match names.split_last() {
        None => Last::Nothing,
        Some((name, _)) => {
            if *name == b".".as_slice() {
                Last::Dot
            } else if *name == b"..".as_slice() {
                Last::DotDot
            } else {
                Last::Name(name)
            }
        }
    }
}

// The names but for the last.
fn but_last<'a>(mut names: Vec<&'a [u8]>) -> Vec<&'a [u8]>
    ensures { path_of result.items ≡ front (path_of names.entry.items) }
{
    let parents = names.as_slice().len().saturating_sub(1);
    names.truncate(parents);
    names
}

// Where names lead from the root: the path arrived at, the file there, and the node that has what stands below it.
#[derive(Drop)]
pub(crate) struct Arrival<'t, 'a, A: Allocator> {
    path: Vec<&'a [u8]>,
    file: File,
    node: &'t Node<A>,
}

/// A target: its node and its file, the way to it, and whether a slash stands behind its name.
#[derive(Drop)]
pub(crate) struct Found<'t, 'a, A: Allocator> {
    pub node: &'t Node<A>,
    pub file: File,
    pub way: Way<'a>,
    pub slash: bool,
}

// The node that a name leads to, one that is not `.` or `..`; an empty one leads nowhere else.
fn below<'t, A: Allocator>(
    node: &'t Node<A>,
    cred: &Cred,
    name: &[u8],
) -> Result<&'t Node<A>, Errno>
    requires plain { is_dotted name.now ≡ false }
    ensures refused { IfErr result (Stops node.now cred.now name.now) }
    ensures goes { IfOk result (λ d. Leads node.now cred.now name.now d.now) }
{
    if name.is_empty() {
        return Ok(node);
    }
    search(cred, &node.file())?;
    match node.child(name) {
        Some(next) => Ok(next),
        None => Err(Errno::ENOENT),
    }
}

// The node that a path leads to from the root, whose names are cut as it goes, or none where one is `.` or `..`.
fn find_plain<'t, A: Allocator>(
    root: &'t Node<A>,
    cred: &Cred,
    path: &[u8],
) -> Result<Option<&'t Node<A>>, Errno>
    ensures refused { IfErr result (λ e. reach root.now cred.now [] (components path.now) ≡ Err e) }
    ensures dots { IfOk result (λ found. found ≡ None → list_any is_dotted (components path.now) ≡ true) }
    ensures reached { IfOk result (λ found. IfSome found (λ n.
        (reach root.now cred.now [] (components path.now) ≡ Ok (components path.now))
        × (n.now ≡ subtree (components path.now) root.now))) }
{
    let mut node = root;
    let mut rest = path;
    loop {
        let (name, behind) = rest.split_at(before_slash(rest));
        if is_dotted(name) {
            return Ok(None);
        }
        node = below(node, cred, name)?;
        let Some((_, after)) = behind.split_first() else {
            return Ok(Some(node));
        };
        rest = after;
    }
}

// One piece further, with the last name kept back: the node that the kept one leads to, and the piece in its place; an
// empty piece leads nowhere.
fn onward<'t, 'a, A: Allocator>(
    node: &'t Node<A>,
    cred: &Cred,
    last: &'a [u8],
    name: &'a [u8],
) -> Result<(&'t Node<A>, &'a [u8]), Errno>
    requires plain { is_dotted last.now ≡ false }
    requires next { is_dotted name.now ≡ false }
    ensures refused { IfErr result (λ e. (is_component name.now ≡ true) × Stops node.now cred.now last.now e) }
    ensures goes { IfOk result (λ r. Follows node.now cred.now last.now name.now r.0.now r.1.now) }
{
    if name.is_empty() {
        return Ok((node, last));
    }
    let next = below(node, cred, last)?;
    Ok((next, name))
}

// The node of the directory that a path's last name is in, and that name, which is empty where there is none; or
// nothing where a name is `.` or `..`.
fn find_parent<'t, 'a, A: Allocator>(
    root: &'t Node<A>,
    cred: &Cred,
    path: &'a [u8],
) -> Result<Option<(&'t Node<A>, &'a [u8])>, Errno>
    ensures refused { IfErr result (λ e. reach root.now cred.now [] (front (components path.now)) ≡ Err e) }
    ensures dots { IfOk result (λ found. found ≡ None → list_any is_dotted (components path.now) ≡ true) }
    ensures reached { IfOk result (λ found. IfSome found (λ r. Parts root.now cred.now path.now r.0.now r.1.now)) }
{
    let mut node = root;
    let mut last: &[u8] = &[];
    let mut rest = path;
    loop {
        let (name, behind) = rest.split_at(before_slash(rest));
        if is_dotted(name) {
            return Ok(None);
        }
        (node, last) = onward(node, cred, last, name)?;
        let Some((_, after)) = behind.split_first() else {
            return Ok(Some((node, last)));
        };
        rest = after;
    }
}

// Where names lead from the root.
fn wander<'t, 'a, A: Allocator>(
    alloc: Global,
    root: &'t Node<A>,
    cred: &Cred,
    names: &[&'a [u8]],
) -> Result<Arrival<'t, 'a, A>, Fault>
    ensures told { Told arrived result (file_at root.now (reach root.now cred.now [] (path_of names.now))) }
    ensures found { IfOk result (λ r. find (path_of r.path.items) root.now ≡ Some r.file) }
    ensures node { IfOk result (λ r. r.node.now ≡ subtree (path_of r.path.items) root.now) }
{
    let mut walk = Walk::new(alloc, root);
    for name in names {
        walk.step(cred, name)?;
    }
    let node = walk.here();
    let file = node.file();
    Ok(Arrival {
        path: walk.into_path(),
        file,
        node,
    })
}

// The target of a path that is cut, and whether a slash stands behind it.
fn target<'t, 'a, A: Allocator>(
    alloc: Global,
    tree: &'t Tree<A>,
    cred: &Cred,
    cut: Words<'a>,
) -> Result<(Arrival<'t, 'a, A>, bool), Fault>
    ensures told { Told target_arrived result (target_of tree.now cred.now (words cut.entry)) }
    ensures found { IfOk result (λ r. find (path_of r.0.path.items) tree.now ≡ Some r.0.file) }
    ensures node { IfOk result (λ r. r.0.node.now ≡ subtree (path_of r.0.path.items) tree.now) }
{
    let Words { names, slash } = cut;
    let arrival = wander(alloc, tree.root(), cred, names.as_slice())?;
    if slash && !is_directory(&arrival.file) {
        return Err(Fault::Errno(Errno::ENOTDIR));
    }
    Ok((arrival, slash))
}

// The directory of an entry, whose path is cut, and the entry's name; and the directory's node.
fn entry<'t, 'a, A: Allocator>(
    alloc: Global,
    tree: &'t Tree<A>,
    cred: &Cred,
    cut: Words<'a>,
) -> Result<(Resolved<'a>, &'t Node<A>), Fault>
    ensures told { Told node_resolved result (entry_of tree.now cred.now (words cut.entry)) }
    ensures found { IfOk result (λ r. find (path_of r.0.path.items) tree.now ≡ Some r.0.file) }
    ensures directory { IfOk result (λ r. IsTrue (is_directory r.0.file)) }
    ensures node { IfOk result (λ r. r.1.now ≡ subtree (path_of r.0.path.items) tree.now) }
{
    let Words { names, slash } = cut;
    let last = last_of(names.as_slice());
    let parents = but_last(names);
    let Arrival { path, file, node } = wander(alloc, tree.root(), cred, parents.as_slice())?;
    search(cred, &file)?;
    let resolved = Resolved {
        path,
        file,
        last,
        slash,
    };
    Ok((resolved, node))
}

// The target of a path, by the way on which the names are kept.
fn kept_target<'t, 'a, A: Allocator>(
    alloc: Global,
    tree: &'t Tree<A>,
    cred: &Cred,
    path: &'a [u8],
) -> Result<Found<'t, 'a, A>, Fault>
    ensures told { Told found result (target tree.now cred.now path.now) }
    ensures found { IfOk result (λ f. find (way f.way) tree.now ≡ Some f.file) }
    ensures node { IfOk result (λ f. f.node.now ≡ subtree (way f.way) tree.now) }
{
    let (Arrival { path, file, node }, slash) = target(alloc, tree, cred, split(alloc, path)?)?;
    Ok(Found {
        node,
        file,
        way: Way::Kept(path),
        slash,
    })
}

// The target of a path, by the way that wants no memory; or nothing where a name is `.` or `..`.
fn plain_target<'t, 'a, A: Allocator>(
    tree: &'t Tree<A>,
    cred: &Cred,
    path: &'a [u8],
) -> Result<Option<Found<'t, 'a, A>>, Errno>
    ensures refused { IfErr result (λ e. target tree.now cred.now path.now ≡ Err e) }
    ensures dots { IfOk result (λ o. o ≡ None → has_dots path.now ≡ true) }
    ensures reached { IfOk result (λ o. IfSome o (λ f. target tree.now cred.now path.now ≡ Ok (found f))) }
    ensures found { IfOk result (λ o. IfSome o (λ f. find (way f.way) tree.now ≡ Some f.file)) }
    ensures node { IfOk result (λ o. IfSome o (λ f. f.node.now ≡ subtree (way f.way) tree.now)) }
{
    judge(path)?;
    let Some(node) = find_plain(tree.root(), cred, path)? else {
        return Ok(None);
    };
    let file = node.file();
    let slash = has_slash(path);
    if slash && !is_directory(&file) {
        return Err(Errno::ENOTDIR);
    }
    Ok(Some(Found {
        node,
        file,
        way: Way::Plain(path),
        slash,
    }))
}

/// What `resolve` says of a target, with its node. Memory is wanted only where a name is `.` or `..`.
pub(crate) fn find_target<'t, 'a, A: Allocator>(
    alloc: Global,
    tree: &'t Tree<A>,
    cred: &Cred,
    path: &'a [u8],
) -> Result<Found<'t, 'a, A>, Fault>
    ensures told { Told found result (target tree.now cred.now path.now) }
    ensures wanted { result ≡ Err Fault.NoMemory → has_dots path.now ≡ true }
    ensures found { IfOk result (λ f. find (way f.way) tree.now ≡ Some f.file) }
    ensures node { IfOk result (λ f. f.node.now ≡ subtree (way f.way) tree.now) }
{
    match plain_target(tree, cred, path)? {
        Some(found) => Ok(found),
        None => kept_target(alloc, tree, cred, path),
    }
}

/// The node of the directory that an entry is in, and the entry's name, which is empty where the path has none, by the
/// way that wants no memory; or nothing where a name is `.` or `..`.
pub(crate) fn plain_entry<'t, 'a, A: Allocator>(
    tree: &'t Tree<A>,
    cred: &Cred,
    path: &'a [u8],
) -> Result<Option<(&'t Node<A>, &'a [u8])>, Errno>
    ensures refused { IfErr result (λ e. entry tree.now cred.now path.now ≡ Err e) }
    ensures dots { IfOk result (λ o. o ≡ None → has_dots path.now ≡ true) }
    ensures reached { IfOk result (λ o. IfSome o (λ r. IsParent tree.now cred.now path.now r.0.now r.1.now)) }
{
    judge(path)?;
    let Some((node, name)) = find_parent(tree.root(), cred, path)? else {
        return Ok(None);
    };
    search(cred, &node.file())?;
    Ok(Some((node, name)))
}

/// What `resolve` says of an entry, and the node of the directory that it is in, which has what stands below it.
pub(crate) fn resolve_entry<'t, 'a, A: Allocator>(
    alloc: Global,
    tree: &'t Tree<A>,
    cred: &Cred,
    path: &'a [u8],
) -> Result<(Resolved<'a>, &'t Node<A>), Fault>
    ensures told { Told node_resolved result (entry tree.now cred.now path.now) }
    ensures found { IfOk result (λ r. find (path_of r.0.path.items) tree.now ≡ Some r.0.file) }
    ensures directory { IfOk result (λ r. IsTrue (is_directory r.0.file)) }
    ensures wanted { result ≡ Err Fault.NoMemory → IsOk (words_of path.now) }
    ensures node { IfOk result (λ r. r.1.now ≡ subtree (path_of r.0.path.items) tree.now) }
{
    let cut = split(alloc, path)?;
    entry(alloc, tree, cred, cut)
}

/// Where a path leads, over the tree's files, for a process with these credentials (POSIX.1-2017, 4.13 "Pathname
/// Resolution").
///
/// What `split` refuses comes first. Then the refusals come in the order of the components: ENOTDIR below a file that is
/// no directory, EACCES where the directory may not be searched, ENOENT where it has no entry of the name. A target is
/// refused with ENOTDIR where a slash stands behind it and it is no directory; no search is asked on it. The directory
/// of an entry is to be a directory, else ENOTDIR, that may be searched, else EACCES. `NoMemory` comes behind
/// what `split` refuses, where the names and the way through the tree find none.
pub fn resolve<'a, A: Allocator>(
    alloc: Global,
    tree: &Tree<A>,
    cred: &Cred,
    path: &'a [u8],
    purpose: Purpose,
) -> Result<Resolved<'a>, Fault>
    ensures told { Told resolved result (resolution purpose tree.now cred.now path.now) }
    ensures found { IfOk result (λ r. find (path_of r.path.items) tree.now ≡ Some r.file) }
    ensures wanted { result ≡ Err Fault.NoMemory → IsOk (words_of path.now) }
    ensures directory { purpose ≡ Entry → IfOk result (λ r. IsTrue (is_directory r.file)) }
{
    match purpose {
        Purpose::Target => {
            let words = split(alloc, path)?;
            let (
                Arrival {
                    path,
                    file,
                    node: _,
                },
                slash,
            ) = target(alloc, tree, cred, words)?;
            Ok(Resolved {
                path,
                file,
                last: Last::Nothing,
                slash,
            })
        }
        Purpose::Entry => {
            let (resolved, _) = resolve_entry(alloc, tree, cred, path)?;
            Ok(resolved)
        }
    }
}
