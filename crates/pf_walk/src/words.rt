//! Paths as bytes: the names between their slashes.

ghost use Rattle.std.specs.Prelude.{◌≡◌, ◌+◌, ◌≤◌, ◌++◌, [], ◌∷◌, Ok, Err, IfOk, IfErr, IsOk, ◌&&◌, filter, length, nat_lt, vec_capacity};
ghost use Rattle.std.specs.List.{list_any};
ghost use Rattle.pf_base.specs.declared.TheConstants.{MAX_NAME};
ghost use Rattle.pf_machine.specs.Paths.{components, is_component, is_dotted, is_nonempty, words_of, ends_in_slash};
ghost use Rattle.pf_tree.specs.Subtrees.{path_of};
ghost use Rattle.pf_walk.specs.Told.{Told};
ghost use Rattle.pf_walk.specs.Resolutions.{words, way};
ghost use Rattle.pf_walk.specs.Room.{room_for_names};

use crate::slashes::{before_slash, slashes};
use pf_base::{Errno, Fault, MAX_NAME, MAX_PATH};
use std::alloc::{AllocError, Global};

/// A path, cut at its slashes. Slashes that meet are as one.
#[derive(Debug, Drop)]
pub struct Words<'a> {
    /// The components in their order, as parts of the path's bytes: each has 1 to 255 bytes, none of them a slash.
    pub names: Vec<&'a [u8]>,
    /// Whether a slash stands behind the last component. `/` has none, and ends in no slash.
    pub slash: bool,
}

// How many names a path has at most: none where it has slashes alone, and else one more than slashes.
fn most_names(path: &[u8]) -> usize
    ensures enough { length (components path.now) ≤ result }
    ensures room { result ≡ room_for_names path.now }
{
    let slashes = slashes(path);
    if slashes == path.len() {
        return 0;
    }
    slashes + 1
}

// Puts a name, for which there is room, behind those before it, unless it is empty.
fn keep<'a>(names: &mut Vec<&'a [u8]>, name: &'a [u8])
    requires { length names.old.items + length (filter is_component (name.now ∷ [])) ≤ vec_capacity names.old }
    ensures names { path_of names.new.items ≡ path_of names.old.items ++ filter is_component (name.now ∷ []) }
    ensures room { vec_capacity names.new ≡ vec_capacity names.old }
{
    if !name.is_empty() {
        names.push_reserved(name);
    }
}

// What lies between slashes, but for nothing.
fn components(alloc: Global, path: &[u8]) -> Result<Vec<&[u8]>, AllocError>
    ensures names { IfOk result (λ names. path_of names.items ≡ components path.now) }
    ensures room { IfOk result (λ names. vec_capacity names ≡ room_for_names path.now) }
{
    // Room for all of them is asked for at once, and for no more.
    let mut names = Vec::with_capacity(alloc, most_names(path))?;
    let mut rest = path;
    loop {
        let (name, behind) = rest.split_at(before_slash(rest));
        keep(&mut names, name);
        let Some((_, after)) = behind.split_first() else {
            return Ok(names);
        };
        rest = after;
    }
}

// Whether a name in the path has more bytes than a name may have.
fn has_long_name(path: &[u8]) -> bool
    ensures { result ≡ list_any (λ n. nat_lt MAX_NAME (length n)) (components path.now) }
{
    let mut rest = path;
    loop {
        let (name, behind) = rest.split_at(before_slash(rest));
        if name.len() > MAX_NAME {
            return true;
        }
        let Some((_, after)) = behind.split_first() else {
            return false;
        };
        rest = after;
    }
}

/// Whether a name is `.` or `..`.
pub(crate) fn is_dotted(name: &[u8]) -> bool
    ensures { result ≡ is_dotted name.now }
{
    name == b".".as_slice() || name == b"..".as_slice()
}

// Whether the last byte is a slash.
fn ends_in_slash(path: &[u8]) -> bool
    ensures { result ≡ ends_in_slash path.now }
{
    match path.split_last() {
        None => false,
        Some((last, _)) => *last == b'/',
    }
}

// Whether a path has a name: a byte that is no slash.
fn has_name(path: &[u8]) -> bool
    ensures { result ≡ is_nonempty (components path.now) }
{
    slashes(path) < path.len()
}

/// Whether a slash stands behind a path's last name.
pub(crate) fn has_slash(path: &[u8]) -> bool
    ensures { result ≡ (ends_in_slash path.now && is_nonempty (components path.now)) }
{
    ends_in_slash(path) && has_name(path)
}

/// What is refused of a path before a walk, in the order that `split` has.
pub(crate) fn judge(path: &[u8]) -> Result<(), Errno>
    ensures refused { IfErr result (λ e. words_of path.now ≡ Err e) }
    ensures passed { IfOk result (λ _. words_of path.now ≡ Ok (record {
      names = components path.now;
      slash = ends_in_slash path.now && is_nonempty (components path.now);
    })) }
{
    if path.contains(&0) {
        return Err(Errno::EINVAL);
    }
    if path.is_empty() {
        return Err(Errno::ENOENT);
    }
    // a path with no more bytes than a name may have has no longer name
    if path.len() > MAX_PATH || path.len() > MAX_NAME && has_long_name(path) {
        return Err(Errno::ENAMETOOLONG);
    }
    Ok(())
}

/// Cuts a path at its slashes, after what is refused before a walk, in this order: EINVAL for a byte 0 (this profile's
/// own), ENOENT for an empty path, and ENAMETOOLONG for more than 1,023 bytes or a component of more than 255
/// (POSIX.1-2017, 4.13 "Pathname Resolution"). Then `NoMemory` comes where the vector of names finds none.
pub fn split(alloc: Global, path: &[u8]) -> Result<Words<'_>, Fault>
    ensures told { Told words result (words_of path.now) }
    ensures wanted { result ≡ Err Fault.NoMemory → IsOk (words_of path.now) }
{
    judge(path)?;
    let names = components(alloc, path)?;
    let slash = has_slash(path);
    Ok(Words { names, slash })
}

/// The names that lead from the root to a file: those of a path without `.` and `..`, which is cut only where the tree
/// is told its way, or those that a walk kept.
#[derive(Drop)]
pub(crate) enum Way<'a> {
    Plain(&'a [u8]),
    Kept(Vec<&'a [u8]>),
}

impl<'a> Way<'a> {
    /// The names, in a vector.
    pub fn names(self, alloc: Global) -> Result<Vec<&'a [u8]>, AllocError>
        ensures { IfOk result (λ names. path_of names.items ≡ way self.entry) }
    {
        match self {
            Way::Plain(path) => components(alloc, path),
            Way::Kept(names) => Ok(names),
        }
    }
}
