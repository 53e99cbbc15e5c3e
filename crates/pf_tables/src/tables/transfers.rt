//! Bytes into pipes, out of them and between them: one look-up for each end, and one borrow of the pipe that is found.
//! Where there are two, one is taken out for as long.

ghost use Rattle.std.specs.Prelude.{◌≡◌, ◌≤◌, Err, IfOk, IfSome, IsOk, None, drop, length};
ghost use Rattle.pf_base.specs.declared.TheConstants.{BYTES_IN_PLACE};
ghost use Rattle.pf_machine.specs.Calls.{Reading, Writing, Bringing};
ghost use Rattle.pf_ring.specs.Door.{Affords};
ghost use Rattle.pf_tables.specs.Buffers.{HasReadInto, HasReadTruncated};
ghost use Rattle.pf_tables.specs.Door.{Serves, HandsOn};
ghost use Rattle.pf_tables.specs.Meaning.{meaning};
ghost use Rattle.pf_tables.specs.Told.{attempted, is_nonblocking_at, HandsMany, HasRead, HasCrossed, PutShort, Wrote};
ghost use Rattle.pf_tables.specs.Told.{WroteFirst};

use super::{Tables, end, reading_end, writing_end};
use pf_base::{ByteString, Crossing, Errno, Fault, MAX_WRITE, PIPE_BUF, Progress};
use pf_frame::Frames;
use pf_parked::UnfinishedWrite;
use pf_pipe::Pipe;
use std::alloc::{AllocError, Allocator, Global};

/// What a read came to: how far, and the bytes.
#[derive(Debug, Drop)]
pub struct Taken {
    /// How far it came.
    pub progress: Progress,
    /// The bytes that were taken.
    pub bytes: ByteString,
}

/// What the first try of a write came to.
#[derive(Debug, Drop)]
pub enum FirstWrite {
    /// It came to its end: all its bytes went in, or nobody reads them.
    Ended(Progress),
    /// So far, and it is not to wait (O_NONBLOCK).
    Short(Progress),
    /// It waits with what is left.
    Waits(UnfinishedWrite),
}

/// From so many bytes on, a write that waits shares those of its step, where its host can't tell. By default the C
/// library may ask the kernel for memory of this size (mallopt(3), M_MMAP_THRESHOLD), which then comes page by page: of
/// 1 MiB that costs more than the bytes.
const SHARED_FROM: usize = 131_072;

// What a write that waits keeps: a step's own bytes, where they are many and the step alone has them, and else a copy.
// So no spare capacity of the host's stays for as long as the write waits.
fn kept(alloc: Global, bytes: &[u8], payload: Option<&ByteString>) -> Result<ByteString, AllocError>
    requires { IfSome payload (λ p. p.now ≡ bytes.now) }
    ensures bytes { IfOk result (λ kept. kept ≡ bytes.now) }
    ensures in_place { length bytes.now ≤ BYTES_IN_PLACE → IsOk result }
{
    if let Some(payload) = payload
        && bytes.len() >= SHARED_FROM
        && let Some(shared) = payload.share()
    {
        return Ok(shared);
    }
    ByteString::from_slice(alloc, bytes)
}

// The first try of a write that a pipe has no room for, where somebody reads it: as many bytes go in as do now.
// Kept apart: a write that goes in at once doesn't come here.
#[inline(never)]
fn write_short<F: Frames>(
    alloc: Global,
    door: &mut F,
    pipe: &mut Pipe,
    bytes: &[u8],
    payload: Option<&ByteString>,
    nonblocking: bool,
) -> Result<FirstWrite, Fault>
    requires payload { IfSome payload (λ p. p.now ≡ bytes.now) }
    requires door { Affords F.Frames door.old pipe.old.ring.capacity pipe.old.ring.segments }
    ensures door { HandsOn F.Frames door.old door.new }
    ensures put { PutShort F.live door.old door.new pipe.old pipe.new bytes.now nonblocking result }
{
    let whole = bytes.len() <= PIPE_BUF;
    if nonblocking {
        return Ok(FirstWrite::Short(pipe.write_now(door, bytes, whole)));
    }
    // What may be refused comes first.
    let mut write = UnfinishedWrite::new(kept(alloc, bytes, payload)?);
    if let Progress::Moved(n) = pipe.write_now(door, bytes, whole) {
        write.advance(n);
    }
    Ok(FirstWrite::Waits(write))
}

impl<A: Allocator> Tables<A> {
    /// Whether the description that a process's descriptor names has O_NONBLOCK; false where it names none.
    pub fn is_nonblocking(&self, pid: u32, fd: u32) -> bool
        ensures { result ≡ is_nonblocking_at self.now.state pid fd }
    {
        match end(&self.processes, &self.descriptions, pid, fd, None) {
            Ok(end) => end.nonblocking,
            Err(_) => false,
        }
    }

    /// Tries a write for the first time, with one look-up of its end. Where it would wait, as many bytes go in as do now;
    /// and it waits with what is left, where the description lets it. It takes memory for a copy of more bytes than a
    /// reply holds without it that have to wait, and what may be refused comes first. A payload is those bytes too: many
    /// that wait are shared with it.
    #[inline(always)]
    pub fn write<F: Frames>(
        &mut self,
        alloc: Global,
        door: &mut F,
        pid: u32,
        fd: u32,
        bytes: &[u8],
        payload: Option<&ByteString>,
    ) -> Result<FirstWrite, Fault>
        requires payload { IfSome payload (λ p. p.now ≡ bytes.now) }
        requires door { Serves F.Frames door.old self.old }
        ensures door { HandsOn F.Frames door.old door.new }
        // It came as far as the machine's write, or is refused as that is, or memory was wanted, where the machine's would
        // wait. Where no byte went in, nothing has changed.
        ensures wrote { WroteFirst F.live door.old door.new self.old self.new pid fd bytes.now result }
    {
        let end = writing_end(&self.processes, &self.descriptions, pid, fd)?;
        if bytes.len() > MAX_WRITE {
            return Err(Errno::EINVAL.into());
        }
        let pipe = self.pipes.value_mut(end.pipe);
        if pipe.readers() > 0 && pipe.room() < bytes.len() {
            return write_short(alloc, door, pipe, bytes, payload, end.nonblocking);
        }
        Ok(FirstWrite::Ended(pipe.write_now(door, bytes, bytes.len() <= PIPE_BUF)))
    }

    /// Puts what is left of a write at the end of the pipe that a process's descriptor writes, as many bytes as go in
    /// now; so many went in before.
    // Kept apart: a write that goes in at once doesn't come here.
    #[inline(never)]
    pub fn write_now<F: Frames>(
        &mut self,
        door: &mut F,
        pid: u32,
        fd: u32,
        bytes: &[u8],
        written: usize,
    ) -> Result<Progress, Errno>
        requires written { written ≤ length bytes.now }
        requires door { Serves F.Frames door.old self.old }
        ensures door { HandsOn F.Frames door.old door.new }
        // It came as far as the machine's write, or is refused as that is. Where no byte went in, nothing has changed.
        ensures wrote { Wrote F.live door.old door.new self.old self.new pid (Writing fd bytes.now written)
            (drop written bytes.now) result }
    {
        let sink = writing_end(&self.processes, &self.descriptions, pid, fd)?;
        if bytes.len() > MAX_WRITE {
            return Err(Errno::EINVAL);
        }
        let whole = bytes.len() <= PIPE_BUF;
        let pipe = self.pipes.value_mut(sink.pipe);
        Ok(pipe.write_now(door, &bytes[written..], whole))
    }

    /// Takes at most n bytes from the front of the pipe that a process's descriptor reads. What memory they need is
    /// made first, at its exact size.
    #[inline(always)]
    pub fn read_now<F: Frames>(
        &mut self,
        alloc: Global,
        door: &mut F,
        pid: u32,
        fd: u32,
        n: u64,
    ) -> Result<Taken, Fault>
        requires door { Serves F.Frames door.old self.old }
        ensures door { HandsOn F.Frames door.old door.new }
        // It came as far as the machine's read, or is refused as that is, or memory was wanted, where the machine's
        // hands out more bytes than a reply holds without it. Where no byte came out, nothing has changed.
        ensures read { HasRead F.live door.old door.new self.old self.new pid (Reading fd n) result }
        ensures many { result ≡ Err Fault.NoMemory
            → HandsMany (attempted (meaning (F.live door.old) self.old.state) pid (Reading fd n)) }
    {
        let end = reading_end(&self.processes, &self.descriptions, pid, fd)?;
        let pipe = self.pipes.value_mut(end.pipe);
        let (progress, bytes) = pipe.read_bytes(alloc, door, n as usize)?;
        Ok(Taken { progress, bytes })
    }

    /// Takes bytes from the front of the pipe that a process's descriptor reads, as many as this buffer has room for.
    /// They lie at its front. It takes no memory.
    #[inline(always)]
    pub fn read_into<F: Frames>(
        &mut self,
        door: &mut F,
        pid: u32,
        fd: u32,
        buffer: &mut [u8],
    ) -> Result<Progress, Errno>
        requires door { Serves F.Frames door.old self.old }
        ensures door { HandsOn F.Frames door.old door.new }
        // It came as far as the machine's read, or is refused as that is. Where no byte came out, nothing has changed.
        ensures read { HasReadInto F.live door.old door.new self.old self.new pid fd buffer.old buffer.new result }
    {
        let source = reading_end(&self.processes, &self.descriptions, pid, fd)?;
        let pipe = self.pipes.value_mut(source.pipe);
        Ok(pipe.read_now(door, buffer))
    }

    /// Takes at most n bytes from the front of the pipe that a process's descriptor reads. The first of them go into
    /// this buffer, as many as it has room for, and the others are lost. It takes no memory.
    #[inline(always)]
    pub fn read_truncated<F: Frames>(
        &mut self,
        door: &mut F,
        pid: u32,
        fd: u32,
        n: u64,
        buffer: &mut [u8],
    ) -> Result<Progress, Errno>
        requires door { Serves F.Frames door.old self.old }
        ensures door { HandsOn F.Frames door.old door.new }
        // It came as far as the machine's read, or is refused as that is. Where no byte came out, nothing has changed.
        ensures read { HasReadTruncated F.live door.old door.new self.old self.new pid (Reading fd n) buffer.old
            buffer.new result }
    {
        let source = reading_end(&self.processes, &self.descriptions, pid, fd)?;
        let pipe = self.pipes.value_mut(source.pipe);
        Ok(pipe.read_truncated(door, n as usize, buffer))
    }

    /// Brings at most n bytes from the front of the pipe that one descriptor of a process reads to the end of the pipe
    /// that another one writes: a copy of them, or the bytes themselves.
    // A tee and a splice differ in what the source holds afterwards, and in nothing else. No count of a frame passes 32
    // bits: a frame is named by at most as many slots as all pipes have, which are within the reservation, at most
    // 65,536. Inlined, it makes a write and a read slower by a third.
    #[inline(never)]
    pub fn cross_now<F: Frames>(
        &mut self,
        door: &mut F,
        crossing: Crossing,
        pid: u32,
        source: u32,
        sink: u32,
        n: u64,
    ) -> Result<Progress, Errno>
        requires door { Serves F.Frames door.old self.old }
        ensures door { HandsOn F.Frames door.old door.new }
        // It came as far as the machine's, or is refused as that is. Where no byte came, nothing has changed.
        ensures crossed { HasCrossed F.live door.old door.new self.old self.new pid (Bringing crossing source sink n)
            result }
        // No frame is taken or freed.
        ensures takes { (F.live door.new).held ≡ (F.live door.old).held }
    {
        let from = reading_end(&self.processes, &self.descriptions, pid, source)?;
        let to = writing_end(&self.processes, &self.descriptions, pid, sink)?;
        if from.pipe.serial == to.pipe.serial {
            return Err(Errno::EINVAL);
        }
        // All slots together are within the reservation, which is far below the end of a count.
        let _most = self.pages.config().reserve();
        let mut taken = self.pipes.take_out(to.pipe);
        let pipe = self.pipes.value_mut(from.pipe);
        let progress = pipe.cross_now(door, crossing, &mut taken, n as usize);
        self.pipes.put_back(to.pipe, taken);
        Ok(progress)
    }
}
