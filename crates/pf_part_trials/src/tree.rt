//! The tree under Global, and under an arena and a heap that stand outside it, as the calls on files build it.

use crate::walk::{Call, Desk};
use bumpalo::Bump;
use linked_list_allocator::LocalHeap;
use pf_base::{Class, Fault, Kind, Meta, Mode, Want};
use pf_tree::Tree;
use std::alloc::{AllocError, Allocator, Global};
use std::test::Fail;

// What a walk through a tree meets: a line for each file, with its depth, its name, its kind, and whether others may
// read it.
fn walked<A: Allocator>(tree: &Tree<A>, alloc: Global) -> Result<Vec<u8>, AllocError> {
    let mut lines = Vec::new(alloc);
    let mut refused = false;
    tree.for_each_depth_first(&mut |depth: usize, name: &[u8], meta: &Meta| {
        let level = *b"0123456789".get(depth).unwrap_or(&b'+');
        let kind = match meta.kind {
            Kind::Fifo => b'|',
            Kind::Directory => b'/',
        };
        let read = if meta.mode.grants(Class::Other, Want::Read) {
            b'r'
        } else {
            b'-'
        };
        refused = refused
            || lines.extend_from_slice(&[level, b' ']).is_err()
            || lines.extend_from_slice(name).is_err()
            || lines.extend_from_slice(&[kind, read, b'\n']).is_err();
    });
    if refused { Err(AllocError) } else { Ok(lines) }
}

// The names in a directory, as the tree itself tells them; none where there is no directory.
fn names_told<A: Allocator>(
    tree: &Tree<A>,
    alloc: Global,
    path: &[&[u8]],
) -> Result<Vec<u8>, AllocError> {
    let Some(file) = tree.find(path) else {
        return Ok(Vec::new(alloc));
    };
    match file.meta.kind {
        Kind::Directory => tree.names(alloc, path),
        Kind::Fifo => Ok(Vec::new(alloc)),
    }
}

// Three directories, of which one is in another, and three FIFOs.
const BUILT: [(Call, &[u8]); 6] = [
    (Call::Mkdir, b"b"),
    (Call::Mkdir, b"a"),
    (Call::Mkdir, b"b/x"),
    (Call::Mkfifo, b"ab"),
    (Call::Mkfifo, b"b/y"),
    (Call::Mkfifo, b"b/x/z"),
];

// Their root, and two of them.
const DIRECTORIES: [&[&[u8]]; 3] = [&[], &[b"b"], &[b"b", b"x"]];

// What shuts them to others, and takes one away.
const CHANGED: [(Call, &[u8]); 4] = [
    (Call::Chmod, b"ab"),
    (Call::Chmod, b"b/x/z"),
    (Call::Chmod, b"b/x"),
    (Call::Unlink, b"b/y"),
];

// What is told of a tree before and behind its changes, at a desk whose root is empty. A FIFO has no names.
fn told_at<A: Allocator + Clone>(
    desk: &mut Desk<A>,
    text: Global,
    open: Mode,
    shut: Mode,
) -> Result<Vec<u8>, Fail> {
    for (call, path) in BUILT {
        desk.call(call, path, open);
    }
    let mut lines = desk.list(b"/")?;
    lines.extend_from_slice(desk.list(b"b")?.as_slice())?;
    for path in DIRECTORIES {
        lines.extend_from_slice(names_told(&desk.tree, text, path)?.as_slice())?;
    }
    let fifo = desk.tree.root().child(b"ab").ok_or("no file")?;
    lines.extend_from_slice(fifo.names(text)?.as_slice())?;
    for (call, path) in CHANGED {
        desk.call(call, path, shut);
    }
    lines.extend_from_slice(walked(&desk.tree, text)?.as_slice())?;
    Ok(lines)
}

// The same, at a desk of its own.
fn told<A: Allocator + Clone>(alloc: A, text: Global) -> Result<Vec<u8>, Fail> {
    let (open, shut) = (Mode::new(0o777)?, Mode::new(0o640)?);
    let mut desk = Desk::new(alloc, text, open, 5);
    told_at(&mut desk, text, open, shut)
}

const TOLD: &[u8] = b"a/ab/b/x/y/a/ab/b/x/y/z/0 /r\n1 a/r\n1 ab|-\n1 b/r\n2 x/-\n3 z|-\n";

#[test]
fn a_tree_under_global(rt: HostRuntime) -> Result<(), Fail> {
    assert!(rt; told(rt.alloc(), rt.alloc())?.as_slice() == TOLD);
    Ok(())
}

#[test]
fn a_tree_under_an_arena(rt: HostRuntime) -> Result<(), Fail> {
    let bump = Bump::new(rt.alloc());
    assert!(rt; told(&bump, rt.alloc())?.as_slice() == TOLD);
    Ok(())
}

#[test]
fn a_tree_under_a_heap(rt: HostRuntime) -> Result<(), Fail> {
    let heap = LocalHeap::new(rt.alloc(), 4_096)?;
    assert!(rt; told(&heap, rt.alloc())?.as_slice() == TOLD);
    Ok(())
}

// Makes FIFOs with ever longer names until a growth is refused. Tells whether the tree was then as before, and whether
// the FIFO is made once there is memory.
fn refused_at(
    desk: &mut Desk<&Bump>,
    bump: &Bump,
    text: Global,
    mode: Mode,
) -> Result<(bool, bool), AllocError> {
    let name = [b'n'; 200];
    for length in 1..200 {
        let before = walked(&desk.tree, text)?;
        if desk.attempt(Call::Mkfifo, &name[..length], mode) == Some(Fault::NoMemory) {
            let same = walked(&desk.tree, text)?.as_slice() == before.as_slice();
            bump.set_allocation_limit(None);
            let told = desk.attempt(Call::Mkfifo, &name[..length], mode);
            return Ok((same, told.is_none()));
        }
    }
    Ok((false, false))
}

// The same, at a desk of its own.
fn until_refused(bump: &Bump, text: Global, mode: Mode) -> Result<(bool, bool), AllocError> {
    let mut desk = Desk::new(bump, text, mode, 5);
    refused_at(&mut desk, bump, text, mode)
}

#[test]
fn a_refused_growth_changes_nothing(rt: HostRuntime) -> Result<(), Fail> {
    let mode = Mode::new(0o777)?;
    for limit in [0, 1_000, 4_000] {
        let bump = Bump::new(rt.alloc());
        bump.set_allocation_limit(Some(limit));
        assert!(rt; until_refused(&bump, rt.alloc(), mode)? == (true, true));
    }
    Ok(())
}

// Builds files in a heap until a growth is refused. How many stand then, and whether the refused one left the tree as it
// was.
fn built_at(
    desk: &mut Desk<&LocalHeap>,
    text: Global,
    mode: Mode,
) -> Result<(usize, bool), AllocError> {
    for (made, (call, path)) in BUILT.into_iter().enumerate() {
        let before = walked(&desk.tree, text)?;
        if desk.attempt(call, path, mode) == Some(Fault::NoMemory) {
            let same = walked(&desk.tree, text)?.as_slice() == before.as_slice();
            return Ok((made, same));
        }
    }
    Ok((BUILT.len(), true))
}

// The same, at a desk of its own.
fn built_in(heap: &LocalHeap, text: Global, mode: Mode) -> Result<(usize, bool), AllocError> {
    let mut desk = Desk::new(heap, text, mode, 5);
    built_at(&mut desk, text, mode)
}

// Each heap has room for the least block more than the one before, so each request of these calls is the first that is
// refused in one of them.
#[test]
fn each_request_of_a_heap_is_refused_in_turn(rt: HostRuntime) -> Result<(), Fail> {
    let mode = Mode::new(0o777)?;
    let mut refused = [false; BUILT.len()];
    let mut whole = 0usize;
    for units in 1..128 {
        let heap = LocalHeap::new(rt.alloc(), 16 * units)?;
        let (made, same) = built_in(&heap, rt.alloc(), mode)?;
        assert!(rt; same);
        match refused.get_mut(made) {
            Some(seen) => *seen = true,
            None => whole = whole.saturating_add(1),
        }
    }
    assert!(rt; refused == [true; BUILT.len()] && whole > 0);
    Ok(())
}

// The names of FIFOs that fill a heap.
const LETTERS: &[u8] = b"abcdefghijklmnopqrstuvwxyz";

// Makes FIFOs of one letter until a growth is refused. How many are made, and whether the refused one left the tree as it
// was.
fn filled(
    desk: &mut Desk<&LocalHeap>,
    text: Global,
    mode: Mode,
) -> Result<(usize, bool), AllocError> {
    for (made, letter) in LETTERS.iter().enumerate() {
        let before = walked(&desk.tree, text)?;
        if desk.attempt(Call::Mkfifo, &[*letter], mode) == Some(Fault::NoMemory) {
            let same = walked(&desk.tree, text)?.as_slice() == before.as_slice();
            return Ok((made, same));
        }
    }
    Ok((LETTERS.len(), false))
}

// Takes so many of them away.
fn emptied(desk: &mut Desk<&LocalHeap>, count: usize, mode: Mode) {
    for letter in LETTERS.iter().take(count) {
        desk.call(Call::Unlink, &[*letter], mode);
    }
}

// Fills a heap, empties it, and fills it once more.
fn filled_twice(
    heap: &LocalHeap,
    text: Global,
    mode: Mode,
) -> Result<((usize, bool), (usize, bool)), AllocError> {
    let mut desk = Desk::new(heap, text, mode, 5);
    let first = filled(&mut desk, text, mode)?;
    emptied(&mut desk, first.0, mode);
    let second = filled(&mut desk, text, mode)?;
    Ok((first, second))
}

#[test]
fn a_heap_that_was_freed_into_is_filled_again(rt: HostRuntime) -> Result<(), Fail> {
    let heap = LocalHeap::new(rt.alloc(), 1_024)?;
    let (first, second) = filled_twice(&heap, rt.alloc(), Mode::new(0o777)?)?;
    assert!(rt; first.1 && second.1);
    assert!(rt; first.0 > 0 && second.0 >= first.0);
    Ok(())
}

// Makes directories, each but the first in the one before: the number of the deepest, and its depth.
fn deepened(
    desk: &mut Desk<Global>,
    alloc: Global,
    mode: Mode,
    levels: usize,
) -> Result<(u64, usize), Fail> {
    let mut path = Vec::new(alloc);
    for level in 0..levels {
        if level > 0 {
            path.push(b'/')?;
        }
        path.push(b'd')?;
        desk.call(Call::Mkdir, &path, mode);
    }
    let mut deepest = 0;
    desk.tree.for_each_depth_first(&mut |depth: usize, _: &[u8], _: &Meta| deepest = deepest.max(
        depth,
    ));
    let (number, _) = desk.number(&path)?;
    Ok((number, deepest))
}

// The same, in a tree of its own.
fn deep(alloc: Global, mode: Mode, levels: usize) -> Result<(u64, usize), Fail> {
    let mut desk = Desk::new(alloc, alloc, mode, 5);
    deepened(&mut desk, alloc, mode, levels)
}

#[test]
fn a_tree_may_be_512_deep(rt: HostRuntime) -> Result<(), Fail> {
    let told = deep(rt.alloc(), Mode::new(0o777)?, 512)?;
    assert!(rt; told == (512, 512));
    Ok(())
}
