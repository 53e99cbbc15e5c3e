//! The calls on files. Each walks the path, with the refusals of `resolve`, then refuses in the order of its definition,
//! then makes its one change. A refusal, and want of memory, leaves the files as they were.
//!
//! A path is walked by its bytes, and its names are put in a vector only where nothing stands against the call, to tell
//! the tree the way. So `NoMemory` comes of no call that is refused, and of `stat` and `openable` never: it comes of the
//! others for these names, of `make` for the tree's entry, and of `list` for the vector that it tells. But where a name is
//! `.` or `..`, by which the walk may turn back, the names are kept from the start, and it may come of any call.

ghost use Rattle.std.specs.Prelude.{◌≡◌, ◌<◌, ◌+◌, ◌^◌, [], ◌∷◌, None, IfSome, Ok, Err, true, false, length, IfOk, IfErr, IsOk};
ghost use Rattle.pf_machine.specs.FileMap.{find, front, names_below, IsDirectory};
ghost use Rattle.pf_machine.specs.Opens.{openable};
ghost use Rattle.pf_machine.specs.Paths.{has_dots, is_nonempty};
ghost use Rattle.pf_machine.specs.FileCalls.{place, permitted_change, permitted_removal, is_fifo, make, unlink, rmdir, chmod, stat, list};
ghost use Rattle.pf_tree.specs.Subtrees.{under};
ghost use Rattle.pf_walk.specs.Told.{Told, Changed};
ghost use Rattle.pf_walk.specs.Resolutions.{way, placed};
ghost use Rattle.pf_walk.specs.Walks.{IsPlace};

use crate::resolution::{Last, Resolved, find_target, plain_entry, resolve_entry};
use crate::walk::{append, is_directory};
use crate::words::{Way, has_slash};
use pf_base::{
    Cred, Errno, Fault, File, Kind, MAX_FILES, MAX_MADE, Meta, Mode, Want, may, may_remove,
};
use pf_tree::{Node, Tree};
use std::alloc::{Allocator, Global};

// An entry: the way to it, its directory, whether the path ends in a slash, the file, where there is one, and whether
// names stand below that.
#[derive(Drop)]
pub(crate) struct Place<'a> {
    way: Way<'a>,
    directory: File,
    slash: bool,
    file: Option<File>,
    full: bool,
}

// A call's errors for the root, for `.` and for `..` in place of an entry's name.
#[derive(Clone, Copy)]
pub(crate) struct Unnamed {
    root: Errno,
    dot: Errno,
    dot_dot: Errno,
}

// The file under a name right below, if there is one, and whether names stand below that.
fn entry_of<A: Allocator>(node: &Node<A>, name: &[u8]) -> (Option<File>, bool)
    ensures file { result.0 ≡ find (name.now ∷ []) node.now }
    ensures full { result.1 ≡ is_nonempty (names_below [] (under name.now node.now)) }
{
    match node.child(name) {
        None => (None, false),
        Some(entry) => (Some(entry.file()), entry.has_names()),
    }
}

// The place of an entry, by the way that wants no memory; or nothing where a name is `.` or `..`.
fn plain_place<'a, A: Allocator>(
    tree: &Tree<A>,
    cred: &Cred,
    path: &'a [u8],
    unnamed: Unnamed,
) -> Result<Option<Place<'a>>, Errno>
    ensures refused { IfErr result (λ e.
        place unnamed.root unnamed.dot unnamed.dot_dot tree.now cred.now path.now ≡ Err e) }
    ensures dots { IfOk result (λ o. o ≡ None → has_dots path.now ≡ true) }
    ensures reached { IfOk result (λ o. IfSome o (λ l.
        place unnamed.root unnamed.dot unnamed.dot_dot tree.now cred.now path.now ≡ Ok (placed l))) }
    ensures place { IfOk result (λ o. IfSome o (IsPlace tree.now)) }
{
    let Some((node, name)) = plain_entry(tree, cred, path)? else {
        return Ok(None);
    };
    if name.is_empty() {
        return Err(unnamed.root);
    }
    let (file, full) = entry_of(node, name);
    Ok(Some(Place {
        way: Way::Plain(path),
        directory: node.file(),
        slash: has_slash(path),
        file,
        full,
    }))
}

// The place of an entry, by the way on which the names are kept.
fn kept_place<'a, A: Allocator>(
    alloc: Global,
    tree: &Tree<A>,
    cred: &Cred,
    path: &'a [u8],
    unnamed: Unnamed,
) -> Result<Place<'a>, Fault>
    ensures told { Told placed result
        (place unnamed.root unnamed.dot unnamed.dot_dot tree.now cred.now path.now) }
    ensures place { IfOk result (IsPlace tree.now) }
{
    let (resolved, node) = resolve_entry(alloc, tree, cred, path)?;
    let Resolved {
        path: mut names,
        file: directory,
        last,
        slash,
    } = resolved;
    match last {
        Last::Nothing => Err(Fault::Errno(unnamed.root)),
        Last::Dot => Err(Fault::Errno(unnamed.dot)),
        Last::DotDot => Err(Fault::Errno(unnamed.dot_dot)),
        Last::Name(name) => {
            let (file, full) = entry_of(node, name);
            append(&mut names, name)?;
            Ok(Place {
                way: Way::Kept(names),
                directory,
                slash,
                file,
                full,
            })
        }
    }
}

// The place of an entry. Memory is wanted only where a name is `.` or `..`.
fn find_place<'a, A: Allocator>(
    alloc: Global,
    tree: &Tree<A>,
    cred: &Cred,
    path: &'a [u8],
    unnamed: Unnamed,
) -> Result<Place<'a>, Fault>
    ensures told { Told placed result
        (place unnamed.root unnamed.dot unnamed.dot_dot tree.now cred.now path.now) }
    ensures wanted { result ≡ Err Fault.NoMemory → has_dots path.now ≡ true }
    ensures place { IfOk result (IsPlace tree.now) }
{
    match plain_place(tree, cred, path, unnamed)? {
        Some(place) => Ok(place),
        None => kept_place(alloc, tree, cred, path, unnamed),
    }
}

// Whether a file of this kind is a FIFO.
fn is_fifo(kind: Kind) -> bool
    ensures { result ≡ is_fifo kind }
{
    match kind {
        Kind::Fifo => true,
        Kind::Directory => false,
    }
}

// Whether a process may make or take entries of a directory.
fn may_change(cred: &Cred, directory: &File) -> Result<(), Errno>
    ensures { result ≡ permitted_change cred.now directory.now }
{
    if may(cred, &directory.meta, Want::Write) {
        Ok(())
    } else {
        Err(Errno::EACCES)
    }
}

// Whether a process may take a file's entry out of a directory.
fn may_take(cred: &Cred, directory: &File, file: &File) -> Result<(), Errno>
    ensures { result ≡ permitted_removal cred.now directory.now file.now }
{
    may_change(cred, directory)?;
    if may_remove(cred, &directory.meta, &file.meta) {
        Ok(())
    } else {
        Err(Errno::EPERM)
    }
}

/// mkdir() and mkfifo() of POSIX.1-2017: a new file with the process's uid and gid, with the mode that its umask leaves,
/// and the number behind those of the `made` files that its namespace ever made.
///
/// After what `resolve` refuses: EEXIST where the path is the root or ends in `.` or `..`, or where there is an entry;
/// ENOENT for a FIFO behind whose name stands a slash; EACCES without write permission on the directory; ENOSPC with
/// 10,000 files besides the root, or 2^64 - 1 ever made.
pub fn make<A: Allocator + Clone>(
    alloc: Global,
    tree: &mut Tree<A>,
    cred: &Cred,
    path: &[u8],
    kind: Kind,
    mode: Mode,
    made: u64,
) -> Result<(), Fault>
    ensures changed { Changed result tree.old tree.new (make kind tree.old made cred.now path.now mode) }
    ensures wanted { result ≡ Err Fault.NoMemory → has_dots path.now ≡ false
        → IsOk (make kind tree.old made cred.now path.now mode) }
    // There is a number for it.
    ensures numbered { IfOk result (λ _. made + 1 < 2 ^ 64) }
{
    let unnamed = Unnamed {
        root: Errno::EEXIST,
        dot: Errno::EEXIST,
        dot_dot: Errno::EEXIST,
    };
    let place = find_place(alloc, tree, cred, path, unnamed)?;
    if place.file.is_some() {
        return Err(Fault::Errno(Errno::EEXIST));
    }
    if is_fifo(kind) && place.slash {
        return Err(Fault::Errno(Errno::ENOENT));
    }
    may_change(cred, &place.directory)?;
    if tree.count() > MAX_FILES || made == MAX_MADE {
        return Err(Fault::Errno(Errno::ENOSPC));
    }
    let meta = Meta {
        kind,
        mode: mode.without(cred.umask),
        uid: cred.uid,
        gid: cred.gid,
    };
    let file = File {
        meta,
        number: made + 1,
    };
    let names = place.way.names(alloc)?;
    tree.insert(names.as_slice(), file)?;
    Ok(())
}

/// unlink() of POSIX.1-2017: a FIFO's entry goes.
///
/// After what `resolve` refuses: EPERM for the root, `.` and `..`; ENOENT where there is no entry; ENOTDIR for a FIFO
/// behind whose name stands a slash; EACCES without write permission on the directory; EPERM where the directory has the
/// sticky bit and `may_remove` is false; EPERM for a directory.
pub fn unlink<A: Allocator>(
    alloc: Global,
    tree: &mut Tree<A>,
    cred: &Cred,
    path: &[u8],
) -> Result<(), Fault>
    ensures changed { Changed result tree.old tree.new (unlink tree.old cred.now path.now) }
    ensures wanted { result ≡ Err Fault.NoMemory → has_dots path.now ≡ false
        → IsOk (unlink tree.old cred.now path.now) }
{
    let unnamed = Unnamed {
        root: Errno::EPERM,
        dot: Errno::EPERM,
        dot_dot: Errno::EPERM,
    };
    let place = find_place(alloc, tree, cred, path, unnamed)?;
    let Some(file) = &place.file else {
        return Err(Fault::Errno(Errno::ENOENT));
    };
    if place.slash && !is_directory(file) {
        return Err(Fault::Errno(Errno::ENOTDIR));
    }
    may_take(cred, &place.directory, file)?;
    if is_directory(file) {
        return Err(Fault::Errno(Errno::EPERM));
    }
    let names = place.way.names(alloc)?;
    tree.remove(names.as_slice());
    Ok(())
}

/// rmdir() of POSIX.1-2017: a directory without entries goes.
///
/// After what `resolve` refuses: EBUSY for the root; EINVAL for `.`, and for `..` (this profile's own); ENOENT where there
/// is no entry; ENOTDIR for a FIFO; EACCES without write permission on the directory that it stands in; EPERM where that
/// directory has the sticky bit and `may_remove` is false; ENOTEMPTY where it has entries.
pub fn rmdir<A: Allocator>(
    alloc: Global,
    tree: &mut Tree<A>,
    cred: &Cred,
    path: &[u8],
) -> Result<(), Fault>
    ensures changed { Changed result tree.old tree.new (rmdir tree.old cred.now path.now) }
    ensures wanted { result ≡ Err Fault.NoMemory → has_dots path.now ≡ false
        → IsOk (rmdir tree.old cred.now path.now) }
{
    let unnamed = Unnamed {
        root: Errno::EBUSY,
        dot: Errno::EINVAL,
        dot_dot: Errno::EINVAL,
    };
    let place = find_place(alloc, tree, cred, path, unnamed)?;
    let Some(file) = &place.file else {
        return Err(Fault::Errno(Errno::ENOENT));
    };
    if !is_directory(file) {
        return Err(Fault::Errno(Errno::ENOTDIR));
    }
    may_take(cred, &place.directory, file)?;
    if place.full {
        return Err(Fault::Errno(Errno::ENOTEMPTY));
    }
    let names = place.way.names(alloc)?;
    tree.remove(names.as_slice());
    Ok(())
}

/// chmod() of POSIX.1-2017: a file gets another mode, as it is given: no umask counts. After what `resolve` refuses, EPERM
/// for all but its owner and the uid 0.
pub fn chmod<A: Allocator>(
    alloc: Global,
    tree: &mut Tree<A>,
    cred: &Cred,
    path: &[u8],
    mode: Mode,
) -> Result<(), Fault>
    ensures changed { Changed result tree.old tree.new (chmod tree.old cred.now path.now mode) }
    ensures wanted { result ≡ Err Fault.NoMemory → has_dots path.now ≡ false
        → IsOk (chmod tree.old cred.now path.now mode) }
{
    let target = find_target(alloc, tree, cred, path)?;
    if cred.uid != 0 && cred.uid != target.file.meta.uid {
        return Err(Fault::Errno(Errno::EPERM));
    }
    let names = target.way.names(alloc)?;
    tree.set_mode(names.as_slice(), mode);
    Ok(())
}

/// stat() of POSIX.1-2017: what is known of a file. It asks no permission on the file itself, and refuses what `resolve`
/// does.
pub fn stat<A: Allocator>(
    alloc: Global,
    tree: &Tree<A>,
    cred: &Cred,
    path: &[u8],
) -> Result<Meta, Fault>
    ensures told { Told (λ meta. meta) result (stat tree.now cred.now path.now) }
    ensures wanted { result ≡ Err Fault.NoMemory → has_dots path.now ≡ true }
{
    let target = find_target(alloc, tree, cred, path)?;
    Ok(target.file.meta)
}

/// The names in a directory, by bytes, without `.` and `..`, each with a slash behind it, in a vector of their own (this
/// profile's own call). After what `resolve` refuses: ENOTDIR for a FIFO; EACCES without read permission on the
/// directory.
pub fn list<A: Allocator>(
    alloc: Global,
    tree: &Tree<A>,
    cred: &Cred,
    path: &[u8],
) -> Result<Vec<u8>, Fault>
    ensures told { Told (λ names. names.items) result (list tree.now cred.now path.now) }
    ensures wanted { result ≡ Err Fault.NoMemory → has_dots path.now ≡ false
        → IsOk (list tree.now cred.now path.now) }
{
    let target = find_target(alloc, tree, cred, path)?;
    if !is_directory(&target.file) {
        return Err(Fault::Errno(Errno::ENOTDIR));
    }
    if !may(cred, &target.file.meta, Want::Read) {
        return Err(Fault::Errno(Errno::EACCES));
    }
    let names = target.node.names(alloc)?;
    Ok(names)
}

/// The FIFO that open() opens, for reading, for writing or for both. EINVAL for neither; then what `resolve` refuses;
/// then EISDIR for a directory (this profile's own, for every access) and EACCES where its mode doesn't allow it.
pub fn openable<A: Allocator>(
    alloc: Global,
    tree: &Tree<A>,
    cred: &Cred,
    path: &[u8],
    reads: bool,
    writes: bool,
) -> Result<File, Fault>
    ensures told { Told (λ file. file) result (openable tree.now cred.now path.now
        (record { reads = reads; writes = writes; nonblock = false })) }
    ensures wanted { result ≡ Err Fault.NoMemory → has_dots path.now ≡ true }
{
    if !reads && !writes {
        return Err(Fault::Errno(Errno::EINVAL));
    }
    let target = find_target(alloc, tree, cred, path)?;
    if is_directory(&target.file) {
        return Err(Fault::Errno(Errno::EISDIR));
    }
    let meta = &target.file.meta;
    if reads && !may(cred, meta, Want::Read) || writes && !may(cred, meta, Want::Write) {
        return Err(Fault::Errno(Errno::EACCES));
    }
    Ok(target.file)
}
