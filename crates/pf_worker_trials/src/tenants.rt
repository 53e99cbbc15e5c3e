//! What two tenants ask, and what each of them is told alone.

use bitflags::Flags;
use pf_base::{BYTES_IN_PLACE, ByteString, Errno, Groups, OpenFlags, Reply, Step};
use std::alloc::{AllocError, Global};

/// A step, what it is told, and whether its bytes stand in a slice.
#[derive(Drop)]
pub(crate) struct Row {
    pub(crate) step: Step,
    pub(crate) told: Reply,
    pub(crate) in_slice: bool,
}

impl Row {
    fn new(step: Step, told: Reply) -> Row {
        Row {
            step,
            told,
            in_slice: false,
        }
    }
}

/// The same steps with their bytes in slices.
pub(crate) fn put_in_slices(rows: &mut [Row]) {
    for row in rows {
        row.in_slice = true;
    }
}

// A new process of this number.
fn spawn_of(pid: u32) -> Row {
    let step = Step::Spawn {
        uid: 5,
        gid: 5,
        umask: 18,
        groups: Groups::none(),
    };
    Row::new(step, Reply::Pid(pid))
}

fn spawn() -> Row {
    spawn_of(1)
}

fn pipe(told: Reply) -> Row {
    let step = Step::Pipe {
        pid: 1,
        nonblock: false,
    };
    Row::new(step, told)
}

// So many bytes are written.
fn write(alloc: Global, fd: u32, byte: u8, count: usize) -> Result<Row, AllocError> {
    let payload = ByteString::new(alloc, Vec::from_elem(alloc, byte, count)?)?;
    let step = Step::Write {
        pid: 1,
        fd,
        payload,
    };
    Ok(Row::new(step, Reply::Num(count as u64)))
}

// A byte 7a.
fn one() -> ByteString {
    ByteString::in_place([0x7A; BYTES_IN_PLACE], 1)
}

// It is written.
fn write_one() -> Row {
    let step = Step::Write {
        pid: 1,
        fd: 1,
        payload: one(),
    };
    Row::new(step, Reply::Num(1))
}

fn read(n: u64, bytes: ByteString) -> Row {
    let step = Step::Read { pid: 1, fd: 0, n };
    Row::new(step, Reply::Bytes(bytes))
}

fn fork() -> Row {
    Row::new(Step::Fork { pid: 1 }, Reply::Pid(2))
}

fn exit() -> Row {
    Row::new(Step::Exit { pid: 1 }, Reply::Num(0))
}

/// A process makes a pipe, and a child of it has that too.
pub(crate) fn begins() -> [Row; 3] {
    [spawn(), pipe(Reply::Fds(0, 1)), fork()]
}

/// A process fills two pipes with bytes 61, and exits: it gives back twice as many frames as are kept in stock.
pub(crate) fn fills_and_exits(alloc: Global) -> Result<[Row; 6], AllocError> {
    let first = write(alloc, 1, 0x61, 65_536)?;
    let second = write(alloc, 3, 0x61, 65_536)?;
    Ok([
        spawn(),
        pipe(Reply::Fds(0, 1)),
        first,
        pipe(Reply::Fds(2, 3)),
        second,
        exit(),
    ])
}

/// A process makes a file and a pipe, writes a byte, and asks for a hundred; it exits, and its file is left.
pub(crate) fn works() -> [Row; 6] {
    let file = Step::Mkfifo {
        pid: 1,
        path: ByteString::in_place(*b"/f            ", 2),
        mode: 0o644,
    };
    let file = Row::new(file, Reply::Num(0));
    let pipe = pipe(Reply::Fds(0, 1));
    [spawn(), file, pipe, write_one(), read(100, one()), exit()]
}

/// A process that has a pipe writes a byte 7a, and asks for a hundred.
pub(crate) fn asks() -> [Row; 2] {
    [write_one(), read(100, one())]
}

/// Another makes a pipe before.
pub(crate) fn asks_for_more() -> [Row; 4] {
    let pipe = pipe(Reply::Fds(0, 1));
    [spawn(), pipe, write_one(), read(100, one())]
}

/// A process fills its pipe, all pages of its namespace, and is refused another pipe.
pub(crate) fn fills_and_stays(alloc: Global) -> Result<[Row; 4], AllocError> {
    let write = write(alloc, 1, 0x61, 65_536)?;
    let refused = pipe(Reply::Err(Errno::ENFILE));
    Ok([spawn(), pipe(Reply::Fds(0, 1)), write, refused])
}

/// Another, of a namespace with one page, fills it.
pub(crate) fn has_one_page(alloc: Global) -> Result<[Row; 5], AllocError> {
    let write = write(alloc, 1, 0x62, 4096)?;
    let size = Row::new(Step::GetSize { pid: 1, fd: 0 }, Reply::Num(4096));
    let read = read(2, ByteString::in_place([0x62; BYTES_IN_PLACE], 2));
    Ok([spawn(), pipe(Reply::Fds(0, 1)), size, write, read])
}

/// A process of a namespace with two pages fills its pipe of one, and waits to write a byte more. A child of it gives the
/// pipe another page, and the byte goes there.
pub(crate) fn waits_for_a_page(alloc: Global) -> Result<[Row; 7], AllocError> {
    let write = write(alloc, 1, 0x61, 4096)?;
    let mut waits = write_one();
    waits.told = Reply::Parked;
    let grow = Step::SetSize {
        pid: 2,
        fd: 1,
        bytes: 8192,
    };
    let grow = Row::new(grow, Reply::Num(8192));
    let goes_on = Row::new(Step::Resume { pid: 1 }, Reply::Num(1));
    let pipe = pipe(Reply::Fds(0, 1));
    Ok([spawn(), pipe, fork(), write, waits, grow, goes_on])
}

/// A process makes two pipes, and a child of it has these too.
pub(crate) fn begins_two() -> [Row; 4] {
    let second = pipe(Reply::Fds(2, 3));
    [spawn(), pipe(Reply::Fds(0, 1)), second, fork()]
}

fn at_d() -> ByteString {
    ByteString::in_place(*b"/d            ", 2)
}

fn at_f() -> ByteString {
    ByteString::in_place(*b"/d/f          ", 4)
}

// Bytes pass from a pipe to another and are read, and a read of the child waits, is tried again, and goes on.
fn passes_on() -> [Row; 10] {
    let tee = Step::Tee {
        pid: 1,
        source: 0,
        sink: 3,
        n: 9,
        nonblock: true,
    };
    let splice = Step::Splice {
        pid: 1,
        source: 0,
        sink: 3,
        n: 9,
        nonblock: true,
    };
    let both = Step::Read {
        pid: 1,
        fd: 2,
        n: 100,
    };
    let waits = Step::Read {
        pid: 2,
        fd: 0,
        n: 9,
    };
    let busy = Step::Read {
        pid: 2,
        fd: 0,
        n: 9,
    };
    let bytes = ByteString::in_place([0x7A; BYTES_IN_PLACE], 2);
    [
        write_one(),
        Row::new(tee, Reply::Num(1)),
        Row::new(splice, Reply::Num(1)),
        Row::new(both, Reply::Bytes(bytes)),
        Row::new(waits, Reply::Parked),
        Row::new(Step::Resume { pid: 2 }, Reply::Parked),
        Row::new(busy, Reply::Err(Errno::EBUSY)),
        write_one(),
        Row::new(Step::Resume { pid: 2 }, Reply::Bytes(one())),
        Row::new(Step::Exit { pid: 9 }, Reply::Err(Errno::ESRCH)),
    ]
}

// Process 3 comes, has a child that exits, and a pipe of one page.
fn comes() -> [Row; 9] {
    let pipe = Step::Pipe {
        pid: 3,
        nonblock: true,
    };
    let same = Step::SetSize {
        pid: 3,
        fd: 0,
        bytes: 4096,
    };
    let on = Step::SetNonblock {
        pid: 3,
        fd: 2,
        on: true,
    };
    [
        spawn_of(3),
        Row::new(Step::Fork { pid: 3 }, Reply::Pid(4)),
        Row::new(Step::Exit { pid: 4 }, Reply::Num(0)),
        Row::new(pipe, Reply::Fds(0, 1)),
        Row::new(Step::GetSize { pid: 3, fd: 0 }, Reply::Num(4096)),
        Row::new(same, Reply::Num(4096)),
        Row::new(Step::Dup { pid: 3, fd: 0 }, Reply::Num(2)),
        Row::new(on, Reply::Num(0)),
        Row::new(Step::Close { pid: 3, fd: 2 }, Reply::Num(0)),
    ]
}

// It makes a directory with a FIFO, which it opens, takes both away, and exits.
fn makes_files_and_goes() -> [Row; 10] {
    let mkdir = Step::Mkdir {
        pid: 3,
        path: at_d(),
        mode: 0o755,
    };
    let mkfifo = Step::Mkfifo {
        pid: 3,
        path: at_f(),
        mode: 0o644,
    };
    let chmod = Step::Chmod {
        pid: 3,
        path: at_f(),
        mode: 0o600,
    };
    let stat = Step::Stat {
        pid: 3,
        path: ByteString::in_place(*b"/n            ", 2),
    };
    let list = Step::List {
        pid: 3,
        path: at_d(),
    };
    let names = ByteString::in_place(*b"f/            ", 2);
    let open = Step::Open {
        pid: 3,
        path: at_f(),
        flags: OpenFlags::from_bits_retain(3),
    };
    let unlink = Step::Unlink {
        pid: 3,
        path: at_f(),
    };
    let rmdir = Step::Rmdir {
        pid: 3,
        path: at_d(),
    };
    [
        Row::new(mkdir, Reply::Num(0)),
        Row::new(mkfifo, Reply::Num(0)),
        Row::new(chmod, Reply::Num(0)),
        Row::new(stat, Reply::Err(Errno::ENOENT)),
        Row::new(list, Reply::Names(names)),
        Row::new(open, Reply::Num(2)),
        Row::new(Step::Close { pid: 3, fd: 2 }, Reply::Num(0)),
        Row::new(unlink, Reply::Num(0)),
        Row::new(rmdir, Reply::Num(0)),
        Row::new(Step::Exit { pid: 3 }, Reply::Num(0)),
    ]
}

// The child writes a byte.
fn child_writes() -> Row {
    let step = Step::Write {
        pid: 2,
        fd: 1,
        payload: one(),
    };
    Row::new(step, Reply::Num(1))
}

// The first process goes on, and is told this.
fn goes_on(told: u64) -> Row {
    Row::new(Step::Resume { pid: 1 }, Reply::Num(told))
}

// A tee waits and goes on, and so does a splice; and what they passed on is read.
fn passes_on_later() -> [Row; 8] {
    let tee = Step::Tee {
        pid: 1,
        source: 0,
        sink: 3,
        n: 9,
        nonblock: false,
    };
    let splice = Step::Splice {
        pid: 1,
        source: 0,
        sink: 3,
        n: 9,
        nonblock: false,
    };
    let both = Step::Read {
        pid: 1,
        fd: 2,
        n: 100,
    };
    let bytes = ByteString::in_place([0x7A; BYTES_IN_PLACE], 2);
    [
        Row::new(tee, Reply::Parked),
        child_writes(),
        goes_on(1),
        read(100, one()),
        Row::new(splice, Reply::Parked),
        child_writes(),
        goes_on(1),
        Row::new(both, Reply::Bytes(bytes)),
    ]
}

fn at_top() -> ByteString {
    ByteString::in_place(*b"/f            ", 2)
}

// An open waits and goes on.
fn opens_later() -> [Row; 7] {
    let mkfifo = Step::Mkfifo {
        pid: 1,
        path: at_top(),
        mode: 0o644,
    };
    let reads = Step::Open {
        pid: 1,
        path: at_top(),
        flags: OpenFlags::from_bits_retain(1),
    };
    let writes = Step::Open {
        pid: 2,
        path: at_top(),
        flags: OpenFlags::from_bits_retain(2),
    };
    let unlink = Step::Unlink {
        pid: 1,
        path: at_top(),
    };
    [
        Row::new(mkfifo, Reply::Num(0)),
        Row::new(reads, Reply::Parked),
        Row::new(writes, Reply::Num(4)),
        goes_on(4),
        Row::new(Step::Close { pid: 1, fd: 4 }, Reply::Num(0)),
        Row::new(Step::Close { pid: 2, fd: 4 }, Reply::Num(0)),
        Row::new(unlink, Reply::Num(0)),
    ]
}

// Process 3 comes, fills a pipe of one page, waits to write a byte more, and goes on once its child has given the pipe
// another page. Both exit.
fn writes_later(alloc: Global) -> Result<[Row; 9], AllocError> {
    let pipe = Step::Pipe {
        pid: 3,
        nonblock: false,
    };
    let page = Step::Write {
        pid: 3,
        fd: 1,
        payload: ByteString::new(alloc, Vec::from_elem(alloc, 0x61, 4096)?)?,
    };
    let byte = Step::Write {
        pid: 3,
        fd: 1,
        payload: one(),
    };
    let grow = Step::SetSize {
        pid: 4,
        fd: 1,
        bytes: 8192,
    };
    Ok([
        spawn_of(3),
        Row::new(pipe, Reply::Fds(0, 1)),
        Row::new(Step::Fork { pid: 3 }, Reply::Pid(4)),
        Row::new(page, Reply::Num(4096)),
        Row::new(byte, Reply::Parked),
        Row::new(grow, Reply::Num(8192)),
        Row::new(Step::Resume { pid: 3 }, Reply::Num(1)),
        Row::new(Step::Exit { pid: 4 }, Reply::Num(0)),
        Row::new(Step::Exit { pid: 3 }, Reply::Num(0)),
    ])
}

// So many bytes 7a.
fn many(alloc: Global, count: usize) -> Result<ByteString, AllocError> {
    ByteString::new(alloc, Vec::from_elem(alloc, 0x7A, count)?)
}

// Process 3 writes so many.
fn writes_many(alloc: Global, count: usize) -> Result<Row, AllocError> {
    let step = Step::Write {
        pid: 3,
        fd: 1,
        payload: many(alloc, count)?,
    };
    Ok(Row::new(step, Reply::Num(count as u64)))
}

// It makes a pipe of one page.
fn makes_pipe(told: Reply) -> Row {
    let step = Step::Pipe {
        pid: 3,
        nonblock: true,
    };
    Row::new(step, told)
}

fn closes(fd: u32) -> Row {
    Row::new(Step::Close { pid: 3, fd }, Reply::Num(0))
}

// Process 3 comes with two pipes. What it writes tops up a page, more bytes are read than stand in place, a part of a
// slot passes on, and both pipes go with bytes. One frame is taken.
fn moves_many(alloc: Global) -> Result<[Row; 13], AllocError> {
    let read = Step::Read {
        pid: 3,
        fd: 0,
        n: 16,
    };
    let splice = Step::Splice {
        pid: 3,
        source: 0,
        sink: 3,
        n: 9,
        nonblock: true,
    };
    Ok([
        spawn_of(3),
        makes_pipe(Reply::Fds(0, 1)),
        makes_pipe(Reply::Fds(2, 3)),
        writes_many(alloc, 10)?,
        writes_many(alloc, 10)?,
        Row::new(read, Reply::Bytes(many(alloc, 16)?)),
        writes_many(alloc, 12)?,
        Row::new(splice, Reply::Num(9)),
        closes(1),
        closes(0),
        closes(3),
        closes(2),
        Row::new(Step::Exit { pid: 3 }, Reply::Num(0)),
    ])
}

/// Steps of each kind, by the processes of `begins_two` and others that come and go; each call that may wait does so, and
/// is resumed. They leave all as it was. Seven of them take a frame each, and two of these are held at once.
pub(crate) fn each_kind(alloc: Global) -> Result<Vec<Row>, AllocError> {
    let mut rows = Vec::with_capacity(alloc, 66)?;
    rows.extend(passes_on())?;
    rows.extend(comes())?;
    rows.extend(makes_files_and_goes())?;
    rows.extend(passes_on_later())?;
    rows.extend(opens_later())?;
    rows.extend(writes_later(alloc)?)?;
    rows.extend(moves_many(alloc)?)?;
    Ok(rows)
}
