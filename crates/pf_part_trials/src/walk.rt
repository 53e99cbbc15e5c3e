//! The rows of refusals, call by call, as tables over one tree; and trees, paths and names as large as they may be.

use bumpalo::Bump;
use pf_base::{Cred, Errno, Fault, File, Groups, Kind, Meta, Mode};
use pf_tree::Tree;
use pf_walk::{Last, Purpose, chmod, list, make, resolve, rmdir, split, stat, unlink};
use std::alloc::{AllocError, Allocator, Global};
use std::process::Abort;
use std::test::Fail;

fn user(uid: u32) -> Cred {
    Cred {
        uid,
        gid: uid,
        groups: Groups::none(),
        umask: 0o022,
    }
}

// A root that all may change.
fn rooted<A: Allocator>(alloc: A, mode: Mode) -> Tree<A> {
    let meta = Meta {
        kind: Kind::Directory,
        mode,
        uid: 0,
        gid: 0,
    };
    Tree::new(alloc, File { meta, number: 0 })
}

#[derive(Clone, Copy, Debug)]
pub(crate) enum Call {
    Mkdir,
    Mkfifo,
    Unlink,
    Rmdir,
    Chmod,
    Stat,
    List,
}

// A tree, and the user who calls. Where a growth is refused each call is made once more: it is to find the files as they were.
#[derive(Drop)]
pub(crate) struct Desk<A: Allocator> {
    pub(crate) tree: Tree<A>,
    text: Global,
    cred: Cred,
    made: u64,
}

impl<A: Allocator + Clone> Desk<A> {
    pub(crate) fn new(alloc: A, text: Global, root: Mode, uid: u32) -> Self {
        Desk {
            tree: rooted(alloc, root),
            text,
            cred: user(uid),
            made: 0,
        }
    }

    // What a call is told, with this mode where it takes one.
    pub(crate) fn call(&mut self, call: Call, path: &[u8], mode: Mode) -> Option<Fault> {
        match self.attempt(call, path, mode) {
            Some(Fault::NoMemory) => self.attempt(call, path, mode),
            told => told,
        }
    }

    // The same, once.
    pub(crate) fn attempt(&mut self, call: Call, path: &[u8], mode: Mode) -> Option<Fault> {
        match call {
            Call::Mkdir => self.make(path, Kind::Directory, mode).err(),
            Call::Mkfifo => self.make(path, Kind::Fifo, mode).err(),
            Call::Unlink => unlink(self.text, &mut self.tree, &self.cred, path).err(),
            Call::Rmdir => rmdir(self.text, &mut self.tree, &self.cred, path).err(),
            Call::Chmod => chmod(self.text, &mut self.tree, &self.cred, path, mode).err(),
            Call::Stat => stat(self.text, &self.tree, &self.cred, path).err(),
            Call::List => list(self.text, &self.tree, &self.cred, path).err(),
        }
    }

    fn make(&mut self, path: &[u8], kind: Kind, mode: Mode) -> Result<(), Fault> {
        make(
            self.text,
            &mut self.tree,
            &self.cred,
            path,
            kind,
            mode,
            self.made,
        )?;
        self.made = self.made.saturating_add(1);
        Ok(())
    }

    // What is known of a file.
    fn stat(&self, path: &[u8]) -> Result<Meta, Fault> {
        match stat(self.text, &self.tree, &self.cred, path) {
            Err(Fault::NoMemory) => stat(self.text, &self.tree, &self.cred, path),
            told => told,
        }
    }

    // The names in a directory.
    pub(crate) fn list(&self, path: &[u8]) -> Result<Vec<u8>, Fault> {
        match list(self.text, &self.tree, &self.cred, path) {
            Err(Fault::NoMemory) => list(self.text, &self.tree, &self.cred, path),
            told => told,
        }
    }

    // The number of a file, and how many names lead to it.
    pub(crate) fn number(&self, path: &[u8]) -> Result<(u64, usize), Fault> {
        let told = match resolve(self.text, &self.tree, &self.cred, path, Purpose::Target) {
            Err(Fault::NoMemory) => {
                resolve(self.text, &self.tree, &self.cred, path, Purpose::Target)?
            }
            told => told?,
        };
        Ok((told.file.number, told.path.len()))
    }
}

// What the user 5 makes: the FIFO /f; /d, which others may not change, with a full directory and a FIFO; /s, which others may
// neither read nor search; /w, which all may change, with a full directory, an empty one and a FIFO.
const FILES: [(Call, &[u8]); 12] = [
    (Call::Mkfifo, b"/f"),
    (Call::Mkdir, b"/d"),
    (Call::Mkdir, b"/d/e"),
    (Call::Mkfifo, b"/d/e/f"),
    (Call::Mkfifo, b"/d/f"),
    (Call::Mkdir, b"/s"),
    (Call::Mkdir, b"/s/x"),
    (Call::Mkdir, b"/w"),
    (Call::Mkdir, b"/w/full"),
    (Call::Mkfifo, b"/w/full/f"),
    (Call::Mkdir, b"/w/empty"),
    (Call::Mkfifo, b"/w/f"),
];

// Those files, with the user 7 to call.
fn filled<A: Allocator + Clone>(alloc: A, text: Global, open: Mode, shut: Mode) -> Desk<A> {
    let mut desk = Desk::new(alloc, text, open, 5);
    for (call, path) in FILES {
        desk.call(call, path, open);
    }
    desk.call(Call::Chmod, b"/w", open);
    desk.call(Call::Chmod, b"/s", shut);
    desk.cred = user(7);
    desk
}

// What the user 7 is told, call by call, with the mode 0777.
const ROWS: [(Call, &[u8], Option<Errno>); 56] = [
    // before the walk
    (Call::Stat, b"", Some(Errno::ENOENT)),
    (Call::Stat, b"/f/x\0", Some(Errno::EINVAL)),
    // the walk: a directory, then search, then the entry
    (Call::Stat, b"/n", Some(Errno::ENOENT)),
    (Call::Stat, b"/f/x", Some(Errno::ENOTDIR)),
    (Call::Stat, b"/f/.", Some(Errno::ENOTDIR)),
    (Call::Stat, b"/f/..", Some(Errno::ENOTDIR)),
    (Call::Stat, b"/s/x", Some(Errno::EACCES)),
    (Call::Stat, b"/s/n", Some(Errno::EACCES)),
    (Call::Stat, b"/s/..", Some(Errno::EACCES)),
    (Call::Stat, b"/s/", None),
    (Call::Stat, b"/../../f", None),
    (Call::Stat, b"//d/.././d//f", None),
    (Call::Stat, b"d/f", None),
    (Call::Stat, b"/", None),
    // targets
    (Call::Stat, b"/f/", Some(Errno::ENOTDIR)),
    (Call::Chmod, b"/f/", Some(Errno::ENOTDIR)),
    (Call::Chmod, b"/n", Some(Errno::ENOENT)),
    (Call::Chmod, b"/f", Some(Errno::EPERM)),
    (Call::List, b"/f/", Some(Errno::ENOTDIR)),
    (Call::List, b"/f", Some(Errno::ENOTDIR)),
    (Call::List, b"/s", Some(Errno::EACCES)),
    (Call::List, b"/d", None),
    // the root, `.` and `..` in place of an entry's name
    (Call::Mkdir, b"/", Some(Errno::EEXIST)),
    (Call::Mkfifo, b"//", Some(Errno::EEXIST)),
    (Call::Unlink, b"/", Some(Errno::EPERM)),
    (Call::Rmdir, b"/", Some(Errno::EBUSY)),
    (Call::Mkdir, b"/d/.", Some(Errno::EEXIST)),
    (Call::Mkfifo, b"/d/..", Some(Errno::EEXIST)),
    (Call::Unlink, b"/d/.", Some(Errno::EPERM)),
    (Call::Rmdir, b"/d/.", Some(Errno::EINVAL)),
    (Call::Rmdir, b"/d/..", Some(Errno::EINVAL)),
    (Call::Mkdir, b"/f/.", Some(Errno::ENOTDIR)),
    (Call::Unlink, b"/f/..", Some(Errno::ENOTDIR)),
    (Call::Rmdir, b"/s/.", Some(Errno::EACCES)),
    // making: each refusal where the later ones hold too
    (Call::Mkdir, b"/d/f", Some(Errno::EEXIST)),
    (Call::Mkfifo, b"/d/f/", Some(Errno::EEXIST)),
    (Call::Mkfifo, b"/d/n/", Some(Errno::ENOENT)),
    (Call::Mkdir, b"/d/n/", Some(Errno::EACCES)),
    (Call::Mkdir, b"/n/n", Some(Errno::ENOENT)),
    // taking away: the same
    (Call::Unlink, b"/d/n/", Some(Errno::ENOENT)),
    (Call::Unlink, b"/d/f/", Some(Errno::ENOTDIR)),
    (Call::Unlink, b"/d/e", Some(Errno::EACCES)),
    (Call::Unlink, b"/w/full", Some(Errno::EPERM)),
    (Call::Rmdir, b"/d/n", Some(Errno::ENOENT)),
    (Call::Rmdir, b"/d/f", Some(Errno::ENOTDIR)),
    (Call::Rmdir, b"/d/e", Some(Errno::EACCES)),
    (Call::Rmdir, b"/w/full/", Some(Errno::ENOTEMPTY)),
    // what is done
    (Call::Mkdir, b"/w/n/", None),
    (Call::Rmdir, b"/w/n/", None),
    (Call::Mkfifo, b"/w/n", None),
    (Call::Unlink, b"/w/n", None),
    (Call::Rmdir, b"/w/empty", None),
    (Call::Stat, b"/w/empty", Some(Errno::ENOENT)),
    (Call::Unlink, b"/w/full/../f", None),
    (Call::Unlink, b"/w/f", Some(Errno::ENOENT)),
    (Call::List, b"/w/", None),
];

// A root that the user 7 may neither read nor search: that comes before what a call says of the root.
const ROOT: [(Call, &[u8], Option<Errno>); 8] = [
    (Call::Mkdir, b"/", Some(Errno::EACCES)),
    (Call::Mkfifo, b"/", Some(Errno::EACCES)),
    (Call::Unlink, b"/", Some(Errno::EACCES)),
    (Call::Rmdir, b"/", Some(Errno::EACCES)),
    (Call::Chmod, b"/", Some(Errno::EPERM)),
    (Call::List, b"/", Some(Errno::EACCES)),
    (Call::Stat, b"/.", Some(Errno::EACCES)),
    (Call::Stat, b"/", None),
];

// The first row that is told otherwise, and what is told there.
fn first_otherwise<A: Allocator + Clone>(
    desk: &mut Desk<A>,
    rows: &[(Call, &[u8], Option<Errno>)],
    open: Mode,
) -> Option<(usize, Option<Fault>)> {
    for (row, (call, path, want)) in rows.iter().enumerate() {
        let told = desk.call(*call, path, open);
        if told != want.map(|error| Fault::Errno(error)) {
            return Some((row, told));
        }
    }
    None
}

// Stops at the first row that is told otherwise.
fn assert_rows<A: Allocator + Clone>(
    rt: &impl Abort,
    desk: &mut Desk<A>,
    rows: &[(Call, &[u8], Option<Errno>)],
    open: Mode,
) {
    if let Some((row, told)) = first_otherwise(desk, rows, open) {
        panic!(rt; "row {row} is told {told:?}");
    }
}

// The names in the root and in /w. (A desk is owned where there is one way out: its drop is proved at each.)
fn names<A: Allocator + Clone>(desk: &Desk<A>) -> Result<Vec<u8>, Fail> {
    let mut names = desk.list(b"/")?;
    names.extend_from_slice(desk.list(b"/w")?.as_slice())?;
    Ok(names)
}

// Plays all rows, and gives the names that are then in the root and in /w.
fn names_after_rows<A: Allocator + Clone>(
    rt: &impl Abort,
    alloc: A,
    text: Global,
) -> Result<Vec<u8>, Fail> {
    let (open, shut) = (Mode::new(0o777)?, Mode::new(0o700)?);
    let mut desk = filled(alloc, text, open, shut);
    assert_rows(rt, &mut desk, &ROWS, open);
    names(&desk)
}

const NAMES: &[u8] = b"d/f/s/w/full/";

#[test]
fn each_row_is_refused_in_its_order(rt: HostRuntime) -> Result<(), Fail> {
    assert!(rt; names_after_rows(&rt, rt.alloc(), rt.alloc())?.as_slice() == NAMES);
    Ok(())
}

#[test]
fn each_row_is_refused_in_its_order_under_an_arena(rt: HostRuntime) -> Result<(), Fail> {
    let bump = Bump::new(rt.alloc());
    assert!(rt; names_after_rows(&rt, &bump, rt.alloc())?.as_slice() == NAMES);
    Ok(())
}

#[test]
fn a_shut_root_is_told_of_first(rt: HostRuntime) -> Result<(), Fail> {
    let (open, shut) = (Mode::new(0o777)?, Mode::new(0o700)?);
    let mut desk = Desk::new(rt.alloc(), rt.alloc(), shut, 7);
    assert_rows(&rt, &mut desk, &ROOT, open);
    Ok(())
}

// The FIFO /d/f is the user 5's, who may change its mode.
fn assert_makers<A: Allocator + Clone>(
    rt: &impl Abort,
    desk: &mut Desk<A>,
    open: Mode,
) -> Result<(), Fail> {
    let made = desk.stat(b"/d/f")?;
    let made = (made.kind, made.mode.bits(), made.uid, made.gid);
    assert!(rt; made == (Kind::Fifo, 0o755, 5, 5));
    desk.cred = user(5);
    assert!(rt; desk.call(Call::Chmod, b"/d/f", open).is_none());
    assert!(rt; desk.stat(b"/d/f")?.mode.bits() == 0o777);
    assert!(rt; desk.number(b"/w/../d/./f")? == (5, 2));
    Ok(())
}

#[test]
fn a_file_is_its_makers_with_the_mode_that_the_umask_leaves(rt: HostRuntime) -> Result<(), Fail> {
    let (open, shut) = (Mode::new(0o777)?, Mode::new(0o700)?);
    let mut desk = filled(rt.alloc(), rt.alloc(), open, shut);
    assert_makers(&rt, &mut desk, open)
}

// Where the entry that a path names is sought: the number of its directory, and how many names lead there; what the path
// names in it, and whether a slash stands behind that.
fn entry<'a>(desk: &Desk<Global>, path: &'a [u8]) -> Result<(u64, usize, Last<'a>, bool), Fault> {
    let told = resolve(desk.text, &desk.tree, &desk.cred, path, Purpose::Entry)?;
    Ok((told.file.number, told.path.len(), told.last, told.slash))
}

#[test]
fn an_entry_is_sought_in_its_directory(rt: HostRuntime) -> Result<(), Fail> {
    let (open, shut) = (Mode::new(0o777)?, Mode::new(0o700)?);
    let desk = filled(rt.alloc(), rt.alloc(), open, shut);
    assert!(rt; entry(&desk, b"/w/../d/n/")? == (2, 1, Last::Name(b"n"), true));
    assert!(rt; entry(&desk, b"/d/e/..")? == (3, 2, Last::DotDot, false));
    assert!(rt; entry(&desk, b"/d/.")? == (2, 1, Last::Dot, false));
    assert!(rt; entry(&desk, b"/")? == (0, 0, Last::Nothing, false));
    Ok(())
}

// How many directories are made, each but the first in the one before.
const LEVELS: usize = 200;

// A path through all of them with a dot in front of each name, and this behind it.
fn dotted(alloc: Global, last: &[u8]) -> Result<Vec<u8>, AllocError> {
    let mut path = Vec::new(alloc);
    for _ in 0..LEVELS {
        path.extend_from_slice(b"./d/")?;
    }
    path.extend_from_slice(last)?;
    Ok(path)
}

// What is done in the last of them.
const AT_THE_END: [(Call, &[u8]); 8] = [
    (Call::Mkdir, b"n"),
    (Call::Stat, b"n/.."),
    (Call::Chmod, b"n"),
    (Call::List, b"n"),
    (Call::Rmdir, b"n"),
    (Call::Mkfifo, b"f"),
    (Call::Stat, b"f"),
    (Call::Unlink, b"f"),
];

// Makes the directories.
fn builds_down(desk: &mut Desk<Global>, alloc: Global, mode: Mode) -> Result<(), AllocError> {
    let mut path = Vec::new(alloc);
    for _ in 0..LEVELS {
        path.extend_from_slice(b"d/")?;
        desk.call(Call::Mkdir, &path, mode);
    }
    Ok(())
}

// Does all that by the dotted path; what of it is refused first.
fn first_refused(
    desk: &mut Desk<Global>,
    alloc: Global,
    mode: Mode,
) -> Result<Option<Call>, AllocError> {
    for (call, last) in AT_THE_END {
        let path = dotted(alloc, last)?;
        if desk.call(call, &path, mode).is_some() {
            return Ok(Some(call));
        }
    }
    Ok(None)
}

#[test]
fn a_path_with_dots_may_be_long(rt: HostRuntime) -> Result<(), Fail> {
    let (alloc, open) = (rt.alloc(), Mode::new(0o777)?);
    let mut desk = Desk::new(alloc, alloc, open, 5);
    builds_down(&mut desk, alloc, open)?;
    assert!(rt; first_refused(&mut desk, alloc, open)?.is_none());
    let path = dotted(alloc, b"n")?;
    assert!(rt; entry(&desk, &path)? == (200, LEVELS, Last::Name(b"n"), false));
    let path = dotted(alloc, b".")?;
    assert!(rt; desk.number(&path)? == (200, LEVELS));
    Ok(())
}

// A path's components, counted, and whether a slash stands behind them.
fn cut(text: Global, path: &[u8]) -> Result<(usize, bool), Fault> {
    let words = match split(text, path) {
        Err(Fault::NoMemory) => split(text, path)?,
        told => told?,
    };
    Ok((words.names.len(), words.slash))
}

#[test]
fn names_and_paths_have_their_longest(rt: HostRuntime) -> Result<(), Fail> {
    let too_long = Some(Errno::ENAMETOOLONG);
    let name = [b'n'; 256];
    let slashes = [b'/'; 1_024];
    // before the walk, which would meet the FIFO f
    let mut below = [b'n'; 258];
    below[0] = b'f';
    below[1] = b'/';
    let rows = [
        (Call::Mkfifo, &name[..255], None),
        (Call::Mkfifo, &name[..], too_long),
        (Call::Stat, &slashes[..1_023], None),
        (Call::Stat, &slashes[..], too_long),
        (Call::Mkfifo, b"f", None),
        (Call::Stat, &below[..], too_long),
    ];
    let open = Mode::new(0o777)?;
    let mut desk = Desk::new(rt.alloc(), rt.alloc(), open, 5);
    assert_rows(&rt, &mut desk, &rows, open);
    Ok(())
}

#[test]
fn a_path_is_cut_at_its_slashes(rt: HostRuntime) -> Result<(), Fail> {
    assert!(rt; cut(rt.alloc(), b"//a/b/")? == (2, true));
    assert!(rt; cut(rt.alloc(), b"/")? == (0, false));
    Ok(())
}

// What the user 5 is told of a directory that there is no memory for, and of the same once there is, and its number and
// names.
fn made_at_last(
    bump: &Bump,
    text: Global,
    open: Mode,
) -> ([Option<Fault>; 3], Result<(u64, usize), Fault>) {
    let mut desk = Desk::new(bump, text, open, 5);
    let wanted = desk.call(Call::Mkdir, b"/d", open);
    let sought = desk.call(Call::Stat, b"/d", open);
    bump.set_allocation_limit(None);
    let made = desk.call(Call::Mkdir, b"/d", open);
    ([wanted, sought, made], desk.number(b"/d"))
}

#[test]
fn want_of_memory_changes_nothing(rt: HostRuntime) -> Result<(), Fail> {
    let bump = Bump::new(rt.alloc());
    bump.set_allocation_limit(Some(0));
    let (told, number) = made_at_last(&bump, rt.alloc(), Mode::new(0o777)?);
    assert!(rt;
        told == [
            Some(Fault::NoMemory),
            Some(Fault::Errno(Errno::ENOENT)),
            None
        ]
    );
    assert!(rt; number? == (1, 1));
    Ok(())
}
