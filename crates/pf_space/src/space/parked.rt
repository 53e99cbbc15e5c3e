//! Calls that wait, tried again (this profile's own).

ghost use Rattle.std.specs.Prelude.{◌≡◌, ◌≢◌, ◌≤◌, Some, None, Ok, Err, true, false};
ghost use Rattle.pf_machine.specs.Machine.{Answers, call, hands_out, may_want_memory};
ghost use Rattle.pf_tables.specs.Buffers.{Replied, number_told};
ghost use Rattle.pf_tables.specs.Door.{Serves, HandsOn};
ghost use Rattle.pf_tables.specs.Meaning.{Namespace, meaning, occupied, AreEmpty};
ghost use Rattle.pf_tables.specs.Owns.{Owns};
ghost use Rattle.pf_tables.specs.Rows.{call_of, made_by};
ghost use Rattle.pf_tables.specs.Tables.{Woken};
ghost use Rattle.pf_tables.specs.Told.{Told, ended};

use super::Space;
use pf_base::{Answer, Errno, Fault, Progress, Reply, Step};
use pf_frame::Frames;
use pf_parked::Call;
use pf_tables::Key;
use std::alloc::Allocator;

// A call that is refused is over too: that is its reply.
fn over(answer: Result<Reply, Fault>) -> Reply
    requires { answer ≢ Err Fault.NoMemory }
    ensures { Ok result ≡ ended answer }
{
    match answer {
        Ok(reply) => reply,
        Err(Fault::Errno(errno)) => Reply::Err(errno),
        Err(Fault::NoMemory) => unreachable!(),
    }
}

// What a reply is told as that has no bytes, or whose bytes go another way.
fn number_told(reply: Reply) -> Result<Option<usize>, Errno>
    ensures { result ≡ number_told reply }
{
    match reply {
        Reply::Num(number) => Ok(Some(number as usize)),
        Reply::Bytes(bytes) => Ok(Some(bytes.as_slice().len())),
        Reply::Err(errno) => Err(errno),
        _ => Ok(None),
    }
}

impl<A: Allocator + Clone> Space<A> {
    /// The step that tries the call again in which a process waits (this profile's own): what it leaves is what `step`
    /// leaves with a `Step::Resume`, and what it is told is the same number, the same wait and the same error. Of a
    /// read the number is how many bytes it hands out, at most as many as it asked for when it began to wait: the first
    /// of them lie at the buffer's front, as many as it has room for, and the others are lost. It takes no memory.
    #[tactic(auto, using(crate::proofs::Steps::none_live))]
    pub fn resume_into<F: Frames>(
        &mut self,
        door: &mut F,
        pid: u32,
        buffer: &mut [u8],
    ) -> Result<Option<usize>, Errno>
        requires door { Serves F.Frames door.old self.old }
        // The door is left as it is to be, and the live frames are those of this namespace.
        ensures door { HandsOn F.Frames door.old door.new }
        ensures owns { Owns (F.live door.new) self.new }

        // The step is the lone machine's, with the first bytes of its reply at the buffer's front, and nothing else
        // there.
        ensures limits { self.new.limits ≡ self.old.limits }
        ensures answers { Replied
            (λ reply. Answers self.old.limits (Answer.Done reply) (meaning (F.live door.old) self.old.state)
            (Step.Resume pid) (meaning (F.live door.new) self.new.state)) result buffer.old buffer.new }

        // No more frames are live than slots in use, and none only where no pipe has a byte.
        ensures spread { (F.live door.new).held ≤ occupied self.new.state }
        ensures none { (F.live door.new).held ≡ 0 → AreEmpty (F.live door.new) self.new.state }
    {
        self.tables.settled();
        match self.tables.wake(pid)? {
            Some(Call::Read { fd, n }) => self.fill_again(door, pid, fd, n, buffer),
            Some(call) => number_told(self.go_on(door, pid, call)),
            None => number_told(self.tables.resume_open(pid)),
        }
    }

    // Goes on with a read that waited, into this buffer. What it promises is said of each namespace whose process was
    // woken for it.
    fn fill_again<F: Frames>(
        &mut self,
        door: &mut F,
        pid: u32,
        fd: u32,
        n: u64,
        buffer: &mut [u8],
    ) -> Result<Option<usize>, Errno>
        requires door { Serves F.Frames door.old self.old }
        ensures door { HandsOn F.Frames door.old door.new }
        ensures owns { Owns (F.live door.new) self.new }
        ensures limits { self.new.limits ≡ self.old.limits }
        ensures answers { (before : Namespace) → Woken before self.old pid (Call.Read fd n) → Replied
            (λ reply. Answers before.limits (Answer.Done reply) (meaning (F.live door.old) before.state)
            (Step.Resume pid) (meaning (F.live door.new) self.new.state)) result buffer.old buffer.new }
    {
        match self.tables.read_truncated(door, pid, fd, n, buffer)? {
            Progress::Moved(number) => return Ok(Some(number as usize)),
            Progress::EndOfFile | Progress::NoReader => return Ok(Some(0)),
            Progress::WouldBlock => {}
        }
        let call = Call::Read { fd, n };
        self.tables.park(pid, call);
        Ok(None)
    }

    // Goes on with a write, a tee or a splice that waited. Its promise too is said of each namespace whose process was
    // woken for it.
    fn go_on<F: Frames>(&mut self, door: &mut F, pid: u32, waited: Call<Key>) -> Reply
        requires door { Serves F.Frames door.old self.old }
        requires moves { made_by (Some waited) ≡ None }
        requires quiet { hands_out (Some (call_of waited)) ≡ false }
        ensures door { HandsOn F.Frames door.old door.new }
        ensures told { (before : Namespace) → Woken before self.old pid waited
            → Told (F.live door.old) (F.live door.new) before self.new (Ok result)
            (call before.limits (meaning (F.live door.old) before.state) (Step.Resume pid)) }
    {
        match waited {
            Call::Write { fd, write } => over(self.write_on(door, pid, fd, write)),
            Call::Cross {
                crossing,
                source,
                sink,
                n,
            } => over(self.cross(door, crossing, pid, source, sink, n, false, true)),
            Call::Read { .. } | Call::Open { .. } => unreachable!(),
        }
    }

    /// Tries the call in which a process waits again.
    pub(super) fn resume<F: Frames>(&mut self, door: &mut F, pid: u32) -> Result<Reply, Fault>
        requires door { Serves F.Frames door.old self.old }
        ensures door { HandsOn F.Frames door.old door.new }
        ensures told { Told (F.live door.old) (F.live door.new) self.old self.new result
            (call self.old.limits (meaning (F.live door.old) self.old.state) (Step.Resume pid)) }
        // Memory is wanted where the step may want it, for a read alone, and then nothing has changed.
        ensures unchanged { result ≡ Err Fault.NoMemory → (self.new ≡ self.old) × (door.new ≡ door.old) }
        ensures wants { result ≡ Err Fault.NoMemory
            → may_want_memory self.old.limits (meaning (F.live door.old) self.old.state) (Step.Resume pid) ≡ true }
    {
        match self.tables.wake(pid)? {
            Some(Call::Read { fd, n }) => match self.read_on(door, pid, fd, n, true) {
                Err(Fault::NoMemory) => {
                    self.tables.park(pid, Call::Read { fd, n });
                    Err(Fault::NoMemory)
                }
                Err(Fault::Errno(errno)) => Ok(Reply::Err(errno)),
                Ok(reply) => Ok(reply),
            },
            Some(call) => Ok(self.go_on(door, pid, call)),
            None => Ok(self.tables.resume_open(pid)),
        }
    }
}
