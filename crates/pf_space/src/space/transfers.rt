//! Bytes into pipes, out of them and between them: write(2), read(2), tee(2) and splice(2), as pipe(7) says of
//! O_NONBLOCK. A call that would wait parks, or is told EAGAIN where the step or a description says nonblocking.

ghost use Rattle.std.specs.Prelude.{◌≡◌, ◌≢◌, ◌≤◌, length, Err, IfSome, not, ◌&&◌, ◌||◌, false, true};
ghost use Rattle.pf_machine.specs.Calls.{Reading, Writing, Bringing};
ghost use Rattle.pf_machine.specs.Machine.{Answers, call, may_want_memory};
ghost use Rattle.pf_machine.specs.Events.{IsDone};
ghost use Rattle.pf_tables.specs.Buffers.{Lies, answer_in, number_in, told_in};
ghost use Rattle.pf_tables.specs.Meaning.{meaning, occupied, AreEmpty};
ghost use Rattle.pf_tables.specs.Owns.{Owns};
ghost use Rattle.pf_tables.specs.Told.{Told, attempted, tried_call, is_nonblocking_at, write_ended, HandsMany};
ghost use Rattle.pf_tables.specs.Door.{Serves, HandsOn};

use super::Space;
use pf_base::{Answer, ByteString, Crossing, Errno, Fault, Progress, Reply, Step};
use pf_frame::Frames;
use pf_parked::{Call, UnfinishedWrite};
use pf_tables::FirstWrite;
use std::alloc::Allocator;

// What a write is told that came to its end at once.
fn write_ended(progress: Progress) -> Result<Reply, Fault>
    ensures { result ≡ write_ended progress }
{
    match progress {
        Progress::Moved(n) => Ok(Reply::Num(n)),
        _ => Err(Errno::EPIPE.into()),
    }
}

// A step and its resume share `read_on` and `cross`. They are inlined in both, or a reply goes through memory at each
// call above them: a write and a read of a byte through a hub then take 1.7 times as long.
impl<A: Allocator + Clone> Space<A> {
    /// The step that writes these bytes into the pipe that a process's descriptor names (write(2)): its answer and what
    /// it leaves are those of `step` with a `Step::Write` of them. A copy of them is made only where the write waits.
    #[inline(always)]
    #[tactic(auto, using(crate::proofs::Steps::none_live))]
    pub fn write_from<F: Frames>(&mut self, door: &mut F, pid: u32, fd: u32, bytes: &[u8]) -> Answer
        requires door { Serves F.Frames door.old self.old }
        // The door is left as it is to be, and the live frames are those of this namespace.
        ensures door { HandsOn F.Frames door.old door.new }
        ensures owns { Owns (F.live door.new) self.new }

        // The step is the lone machine's, or want of memory, which has changed nothing.
        ensures limits { self.new.limits ≡ self.old.limits }
        ensures answers { Answers self.old.limits result (meaning (F.live door.old) self.old.state)
            (Step.Write pid fd bytes.now) (meaning (F.live door.new) self.new.state) }
        ensures unchanged { result ≡ Answer.NoMemory → (self.new ≡ self.old) × (door.new ≡ door.old) }
        ensures succeeds { may_want_memory self.old.limits (meaning (F.live door.old) self.old.state)
            (Step.Write pid fd bytes.now) ≡ false → IsDone result }

        // No more frames are live than slots in use, and none only where no pipe has a byte.
        ensures spread { (F.live door.new).held ≤ occupied self.new.state }
        ensures none { (F.live door.new).held ≡ 0 → AreEmpty (F.live door.new) self.new.state }
    {
        self.tables.settled();
        match self.write(door, pid, fd, bytes, None) {
            Ok(reply) => Answer::Done(reply),
            Err(Fault::Errno(errno)) => Answer::Done(Reply::Err(errno)),
            Err(Fault::NoMemory) => Answer::NoMemory,
        }
    }

    /// The step that reads out of the pipe that a process's descriptor names (read(2)), as many bytes as this buffer
    /// has room for: what it leaves is what `step` leaves with a `Step::Read` of the buffer's length, and what it is
    /// told are the same bytes, the same wait and the same error. The bytes lie at the buffer's front, and their
    /// number is given out; none is where the read waits. It takes no memory.
    #[inline(always)]
    #[tactic(auto, using(crate::proofs::Steps::none_live))]
    pub fn read_into<F: Frames>(
        &mut self,
        door: &mut F,
        pid: u32,
        fd: u32,
        buffer: &mut [u8],
    ) -> Result<Option<usize>, Errno>
        requires door { Serves F.Frames door.old self.old }
        // The door is left as it is to be, and the live frames are those of this namespace.
        ensures door { HandsOn F.Frames door.old door.new }
        ensures owns { Owns (F.live door.new) self.new }

        // The step is the lone machine's, with the bytes of its reply at the buffer's front, and nothing else there.
        ensures limits { self.new.limits ≡ self.old.limits }
        ensures answers { Answers self.old.limits (answer_in buffer.new result)
            (meaning (F.live door.old) self.old.state) (Step.Read pid fd (length buffer.old))
            (meaning (F.live door.new) self.new.state) }
        ensures lies { Lies (number_in result) buffer.old buffer.new }

        // No more frames are live than slots in use, and none only where no pipe has a byte.
        ensures spread { (F.live door.new).held ≤ occupied self.new.state }
        ensures none { (F.live door.new).held ≡ 0 → AreEmpty (F.live door.new) self.new.state }
    {
        self.tables.settled();
        self.fill(door, pid, fd, buffer)
    }

    // Reads what there is into a buffer, and waits where it has to and the description isn't nonblocking.
    #[inline(always)]
    fn fill<F: Frames>(
        &mut self,
        door: &mut F,
        pid: u32,
        fd: u32,
        buffer: &mut [u8],
    ) -> Result<Option<usize>, Errno>
        requires door { Serves F.Frames door.old self.old }
        ensures door { HandsOn F.Frames door.old door.new }
        ensures told { let s = meaning (F.live door.old) self.old.state in
            Told (F.live door.old) (F.live door.new) self.old self.new (told_in buffer.new result)
            (tried_call s pid (is_nonblocking_at self.old.state pid fd) (Reading fd (length buffer.old))) }
        ensures lies { Lies (number_in result) buffer.old buffer.new }
    {
        let n = buffer.len() as u64;
        match self.tables.read_into(door, pid, fd, buffer)? {
            Progress::Moved(number) => return Ok(Some(number as usize)),
            Progress::EndOfFile | Progress::NoReader => return Ok(Some(0)),
            Progress::WouldBlock => {}
        }
        if self.tables.is_nonblocking(pid, fd) {
            return Err(Errno::EAGAIN);
        }
        self.tables.park(pid, Call::Read { fd, n });
        Ok(None)
    }

    /// Writes bytes into the pipe that a process's descriptor names (write(2)): those of a slice, or of a step's
    /// payload, which it may share where it waits.
    pub(super) fn write<F: Frames>(
        &mut self,
        door: &mut F,
        pid: u32,
        fd: u32,
        bytes: &[u8],
        payload: Option<&ByteString>,
    ) -> Result<Reply, Fault>
        requires payload { IfSome payload (λ p. p.now ≡ bytes.now) }
        requires door { Serves F.Frames door.old self.old }
        ensures door { HandsOn F.Frames door.old door.new }
        ensures told { Told (F.live door.old) (F.live door.new) self.old self.new result
            (call self.old.limits (meaning (F.live door.old) self.old.state) (Step.Write pid fd bytes.now)) }
        // Memory is wanted where the step may want it, and then nothing has changed.
        ensures unchanged { result ≡ Err Fault.NoMemory → (self.new ≡ self.old) × (door.new ≡ door.old) }
        ensures wants { result ≡ Err Fault.NoMemory
            → may_want_memory self.old.limits (meaning (F.live door.old) self.old.state)
            (Step.Write pid fd bytes.now) ≡ true }
    {
        match self
            .tables
            .write(self.alloc, door, pid, fd, bytes, payload)?
        {
            FirstWrite::Ended(progress) => write_ended(progress),
            FirstWrite::Short(Progress::Moved(n)) => Ok(Reply::Num(n)),
            FirstWrite::Short(_) => Err(Errno::EAGAIN.into()),
            FirstWrite::Waits(write) => {
                self.tables.park(pid, Call::Write { fd, write });
                Ok(Reply::Parked)
            }
        }
    }

    /// Goes on with a write, which waits where it has to.
    #[inline(always)]
    pub(super) fn write_on<F: Frames>(
        &mut self,
        door: &mut F,
        pid: u32,
        fd: u32,
        mut write: UnfinishedWrite,
    ) -> Result<Reply, Fault>
        requires door { Serves F.Frames door.old self.old }
        ensures door { HandsOn F.Frames door.old door.new }
        ensures told { Told (F.live door.old) (F.live door.new) self.old self.new result
            (tried_call (meaning (F.live door.old) self.old.state) pid false
            (Writing fd write.bytes write.written)) }
        ensures succeeds { result ≢ Err Fault.NoMemory }
    {
        let written = write.written();
        match self
            .tables
            .write_now(door, pid, fd, write.bytes(), written as usize)?
        {
            Progress::Moved(n) => {
                if written + n == write.total() {
                    return Ok(Reply::Num(write.total()));
                }
                write.advance(n);
            }
            Progress::NoReader => {
                if written == 0 {
                    return Err(Errno::EPIPE.into());
                }
                return Ok(Reply::Num(written));
            }
            Progress::WouldBlock | Progress::EndOfFile => {}
        }
        self.tables.park(pid, Call::Write { fd, write });
        Ok(Reply::Parked)
    }

    /// Reads at most n bytes out of the pipe that a process's descriptor names (read(2)).
    pub(super) fn read<F: Frames>(
        &mut self,
        door: &mut F,
        pid: u32,
        fd: u32,
        n: u64,
    ) -> Result<Reply, Fault>
        requires door { Serves F.Frames door.old self.old }
        ensures door { HandsOn F.Frames door.old door.new }
        ensures told { Told (F.live door.old) (F.live door.new) self.old self.new result
            (call self.old.limits (meaning (F.live door.old) self.old.state) (Step.Read pid fd n)) }
        // Memory is wanted where the step may want it, and then nothing has changed.
        ensures unchanged { result ≡ Err Fault.NoMemory → (self.new ≡ self.old) × (door.new ≡ door.old) }
        ensures wants { result ≡ Err Fault.NoMemory
            → may_want_memory self.old.limits (meaning (F.live door.old) self.old.state) (Step.Read pid fd n) ≡ true }
    {
        self.read_on(door, pid, fd, n, false)
    }

    /// Reads what there is, and waits where it has to; where it isn't tried again, a nonblocking description doesn't
    /// wait.
    #[inline(always)]
    pub(super) fn read_on<F: Frames>(
        &mut self,
        door: &mut F,
        pid: u32,
        fd: u32,
        n: u64,
        again: bool,
    ) -> Result<Reply, Fault>
        requires door { Serves F.Frames door.old self.old }
        ensures door { HandsOn F.Frames door.old door.new }
        ensures told { let s = meaning (F.live door.old) self.old.state in
            Told (F.live door.old) (F.live door.new) self.old self.new result
            (tried_call s pid (not again && is_nonblocking_at self.old.state pid fd) (Reading fd n)) }
        // Memory is wanted for more bytes than a reply holds without it, and then nothing has changed.
        ensures unchanged { result ≡ Err Fault.NoMemory → (self.new ≡ self.old) × (door.new ≡ door.old) }
        ensures many { result ≡ Err Fault.NoMemory
            → HandsMany (attempted (meaning (F.live door.old) self.old.state) pid (Reading fd n)) }
    {
        let taken = self.tables.read_now(self.alloc, door, pid, fd, n)?;
        match taken.progress {
            Progress::WouldBlock => {}
            _ => return Ok(Reply::Bytes(taken.bytes)),
        }
        if !again && self.tables.is_nonblocking(pid, fd) {
            return Err(Errno::EAGAIN.into());
        }
        self.tables.park(pid, Call::Read { fd, n });
        Ok(Reply::Parked)
    }

    // Whether a tee or splice that would wait is told EAGAIN.
    fn mustnt_wait(&self, pid: u32, source: u32, sink: u32, flag: bool, again: bool) -> bool
        ensures { let s = self.now.state in
            let asked = flag || (is_nonblocking_at s pid source || is_nonblocking_at s pid sink) in
            result ≡ (not again && asked) }
    {
        if again {
            return false;
        }
        flag || self.tables.is_nonblocking(pid, source) || self.tables.is_nonblocking(pid, sink)
    }

    /// Brings at most n bytes from the pipe that one descriptor of a process names to the pipe that another one names:
    /// a copy of them (tee(2)), or the bytes themselves (splice(2)). It waits where it has to; where it isn't tried
    /// again, it doesn't wait with the flag, or where one of the two descriptions is nonblocking.
    #[inline(always)]
    pub(super) fn cross<F: Frames>(
        &mut self,
        door: &mut F,
        crossing: Crossing,
        pid: u32,
        source: u32,
        sink: u32,
        n: u64,
        flag: bool,
        again: bool,
    ) -> Result<Reply, Fault>
        requires door { Serves F.Frames door.old self.old }
        ensures door { HandsOn F.Frames door.old door.new }
        ensures told { let kept = self.old.state in
            let asked = flag || (is_nonblocking_at kept pid source || is_nonblocking_at kept pid sink) in
            Told (F.live door.old) (F.live door.new) self.old self.new result
            (tried_call (meaning (F.live door.old) kept) pid (not again && asked) (Bringing crossing source sink n)) }
        ensures succeeds { result ≢ Err Fault.NoMemory }
    {
        match self.tables.cross_now(door, crossing, pid, source, sink, n)? {
            Progress::Moved(number) => return Ok(Reply::Num(number)),
            Progress::EndOfFile => return Ok(Reply::Num(0)),
            Progress::NoReader => return Err(Errno::EPIPE.into()),
            Progress::WouldBlock => {}
        }
        if self.mustnt_wait(pid, source, sink, flag, again) {
            return Err(Errno::EAGAIN.into());
        }
        let call = Call::Cross {
            crossing,
            source,
            sink,
            n,
        };
        self.tables.park(pid, call);
        Ok(Reply::Parked)
    }
}
