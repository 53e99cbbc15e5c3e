ghost use Rattle.std.specs.Prelude.{◌≡◌, ◌≢◌, ◌+◌, ◌-◌, ◌<◌, ◌≤◌, ◌^◌, [], ◌++◌, length, drop, min, nat_eq, nat_lt, if◌then◌else◌, vec_len, vec_capacity, IfOk, IfSome, IfNone, OnErr, Err};
ghost use Rattle.pf_machine.specs.Progress.{moved, portion, read_now, write_now, cross_now};
ghost use Rattle.pf_base.specs.declared.TheConstants.{BYTES_IN_PLACE};
ghost use Rattle.pf_base.specs.declared.progress.Crossing.TheVariants.{Tee, Splice};
ghost use Rattle.pf_base.specs.declared.progress.Progress.TheVariants.{WouldBlock, EndOfFile};
ghost use Rattle.pf_machine.specs.Queue.{room_of, bytes_of, taken};
ghost use Rattle.pf_machine.specs.Queries.{read_goes_on, write_goes_on, cross_goes_on};
ghost use Rattle.pf_frame.specs.Live.{Live, IsSound};
ghost use Rattle.pf_ring.specs.Calls.{Appends, Empties, SameFrames};
ghost use Rattle.pf_ring.specs.Door.{Holds, HoldsBoth, Affords, Leaves};
ghost use Rattle.pf_ring.specs.Laid.{laid};
ghost use Rattle.pf_ring.specs.Ring.{queue_of};
ghost use Rattle.pf_ring.specs.Windows.{Stands, SameBytes, bytes_in};
ghost use Rattle.pf_pipe.specs.Pipe.{ends, with_ends, opens_for, opened_for, unopened, Passes, Crosses, Stops, Goes, Resizes};

use pf_base::{BYTES_IN_PLACE, ByteString, Crossing, Errno, Fault, Progress, Side};
use pf_frame::Frames;
use pf_ring::SlotRing;
use std::alloc::{AllocError, Global};
use std::marker::Model;
use std::sync::Arc;

// How many bytes went.
fn moved(progress: Progress) -> usize
    requires { moved progress < 2 ^ 64 }
    ensures { result ≡ moved progress }
{
    match progress {
        Progress::Moved(number) => number as usize,
        _ => 0,
    }
}

/// A pipe (pipe(7)): a ring of slots, the user that its pages are charged to, and how many ends read and write it. That of
/// a FIFO has the FIFO's number too, and how often it was opened for each side (fifo(7)).
///
/// It holds no bytes: they stand in the frames of the door that each call is handed, which is always the same. It is
/// cleared before it ends, or its frames stay live.
#[derive(Drop)]
pub struct Pipe {
    ring: SlotRing,
    owner: u32,
    readers: u64,
    writers: u64,
    file: Option<u64>,
    read_opens: u64,
    write_opens: u64,
}

impl Model for Pipe {
    ghost use Rattle.pf_pipe.specs.Pipe.{CountedPipe};

    ghost Value = { CountedPipe };

    ghost view = { λ p. record {
      ring = p.ring;
      owner = p.owner;
      readers = p.readers;
      writers = p.writers;
      opens = record { file = p.file; read = p.read_opens; write = p.write_opens };
    } };
}

impl Pipe {
    /// An empty pipe of so many slots that nothing reads or writes yet, of the FIFO with this number or of none. Of the
    /// later calls only `set_size` and `read_bytes` take memory.
    pub fn new(
        alloc: Global,
        slots: usize,
        owner: u32,
        file: Option<u64>,
    ) -> Result<Pipe, AllocError>
        requires { slots < 2 ^ 32 }
        ensures { IfOk result (λ p. p ≡ record {
          ring = record { capacity = slots; segments = [] };
          owner = owner;
          readers = 0;
          writers = 0;
          opens = unopened file;
        }) }
    {
        let ring = SlotRing::new(alloc, slots)?;
        Ok(Pipe {
            ring,
            owner,
            readers: 0,
            writers: 0,
            file,
            read_opens: 0,
            write_opens: 0,
        })
    }

    /// How many slots there are: its capacity in pages.
    pub fn slots(&self) -> usize
        ensures number { result ≡ self.now.ring.capacity }
        ensures most { result < 2 ^ 32 }
    {
        self.ring.slots()
    }

    /// How many slots are in use.
    pub fn used(&self) -> usize
        ensures number { result ≡ length self.now.ring.segments }
        ensures most { result ≤ self.now.ring.capacity }
    {
        self.ring.used()
    }

    /// How many bytes there are to read.
    pub fn len(&self) -> usize
        ensures number { result ≡ bytes_in self.now.ring.segments }
        ensures bytes { (f : Live) → IsSound f → Stands f self.now.ring.segments
            → result ≡ length (bytes_of (queue_of f self.now.ring)) }
    {
        self.ring.len()
    }

    /// How many bytes may be written: those that the last slot still takes, and a page for each free slot.
    pub fn room(&self) -> usize
        ensures { (f : Live) → result ≡ room_of (queue_of f self.now.ring) }
    {
        self.ring.room()
    }

    /// Whether a read of at most `most` bytes that waits would go on.
    pub fn read_goes_on(&self, most: u64) -> bool
        ensures { (f : Live) → IsSound f → Stands f self.now.ring.segments
            → result ≡ read_goes_on (queue_of f self.now.ring) self.now.writers most }
    {
        most == 0 || self.ring.len() > 0 || self.writers == 0
    }

    /// Whether a write that waits would go on, of which so many bytes are left, and which is to stay whole or not.
    pub fn write_goes_on(&self, whole: bool, left: usize) -> bool
        ensures { (f : Live) → result ≡ write_goes_on (queue_of f self.now.ring) self.now.readers whole left }
    {
        left == 0 || self.readers == 0 || portion(whole, left, self.ring.room()) > 0
    }

    /// Whether a tee or a splice that waits, of at most `most` bytes from this pipe to `sink`, would go on.
    pub fn cross_goes_on(&self, sink: &Pipe, most: u64) -> bool
        ensures { (f : Live) → IsSound f → Stands f self.now.ring.segments
            → result ≡ cross_goes_on (queue_of f self.now.ring) (queue_of f sink.now.ring)
            self.now.writers sink.now.readers most }
    {
        if most == 0 || sink.readers == 0 {
            return true;
        }
        if self.ring.len() == 0 {
            return self.writers == 0;
        }
        sink.ring.used() < sink.ring.slots()
    }

    /// The user that its pages are charged to.
    pub fn owner(&self) -> u32
        ensures { result ≡ self.now.owner }
    {
        self.owner
    }

    /// How many ends read it.
    pub fn readers(&self) -> u64
        ensures { result ≡ self.now.readers }
    {
        self.readers
    }

    /// How many ends write it.
    pub fn writers(&self) -> u64
        ensures { result ≡ self.now.writers }
    {
        self.writers
    }

    /// The number of its FIFO, if it has one.
    pub fn file(&self) -> Option<u64>
        ensures { result ≡ self.now.opens.file }
    {
        self.file
    }

    /// How often its FIFO was opened for a side.
    pub fn opens(&self, side: Side) -> u64
        ensures { result ≡ opens_for side self.now }
    {
        match side {
            Side::Read => self.read_opens,
            Side::Write => self.write_opens,
        }
    }

    /// Whether any end is left: a pipe with none is gone (POSIX.1-2017, close()).
    pub fn is_open(&self) -> bool
        ensures { result ≡ nat_lt 0 (self.now.readers + self.now.writers) }
    {
        self.readers > 0 || self.writers > 0
    }

    /// Counts an end more of this side.
    pub fn add_end(&mut self, side: Side)
        requires { ends side self.old < 2 ^ 64 - 1 }
        ensures { self.new ≡ with_ends side (ends side self.old + 1) self.old }
    {
        match side {
            Side::Read => self.readers += 1,
            Side::Write => self.writers += 1,
        }
    }

    /// Counts an end more of this side, which opened the FIFO.
    pub fn open_end(&mut self, side: Side)
        requires count { ends side self.old < 2 ^ 64 - 1 }
        requires opens { opens_for side self.old < 2 ^ 64 - 1 }
        ensures { self.new ≡ opened_for side (with_ends side (ends side self.old + 1) self.old) }
    {
        self.add_end(side);
        match side {
            Side::Read => self.read_opens += 1,
            Side::Write => self.write_opens += 1,
        }
    }

    /// Counts an end less of this side.
    pub fn drop_end(&mut self, side: Side)
        requires { 0 < ends side self.old }
        ensures { self.new ≡ with_ends side (ends side self.old - 1) self.old }
    {
        match side {
            Side::Read => self.readers -= 1,
            Side::Write => self.writers -= 1,
        }
    }

    /// Gives the pipe another number of slots (fcntl(2), F_SETPIPE_SZ). EBUSY where more are in use. It costs no more than
    /// the slots in use, and copies no byte.
    pub fn set_size(&mut self, alloc: Global, slots: usize) -> Result<(), Fault>
        requires { slots < 2 ^ 32 }
        ensures resizes { Resizes self.old self.new slots result }
        // Memory is wanted where the number changes.
        ensures succeeds { slots ≡ self.old.ring.capacity → result ≢ Err Fault.NoMemory }
    {
        if self.used() > slots {
            return Err(Errno::EBUSY.into());
        }
        self.ring.resized(alloc, slots)?;
        Ok(())
    }

    /// Writes what goes in now (write(2)): as many of the bytes as there is room for, or all or none of them where they
    /// are to stay whole. It takes no frame beyond the pipe's free slots.
    // It and `read_onto` are inlined into the step, as what they call is.
    #[inline(always)]
    pub fn write_now<F: Frames>(&mut self, door: &mut F, bytes: &[u8], whole: bool) -> Progress
        requires door { Affords F.Frames door.old self.old.ring.capacity self.old.ring.segments }
        ensures door { Leaves F.Frames door.old door.new
            (Appends self.old.ring.segments self.new.ring.segments (moved result)) }
        ensures passes { Passes self.old self.new (F.live door.old) (F.live door.new) result
            (write_now (queue_of (F.live door.old) self.old.ring) self.old.readers whole bytes.now) }
        // Where no byte goes nothing is touched.
        ensures untouched { moved result ≡ 0 → (self.new ≡ self.old) × (door.new ≡ door.old) }
    {
        if bytes.is_empty() {
            return Progress::Moved(0);
        }
        if self.readers == 0 {
            return Progress::NoReader;
        }
        let number = portion(whole, bytes.len(), self.ring.room());
        if number == 0 {
            return Progress::WouldBlock;
        }
        self.ring.append(door, &bytes[..number]);
        Progress::Moved(number as u64)
    }

    /// Reads what there is now into a buffer (read(2)), as many bytes as it has room for.
    pub fn read_now<F: Frames>(&mut self, door: &mut F, buffer: &mut [u8]) -> Progress
        requires door { Holds F.Frames door.old self.old.ring.segments }
        ensures door { Leaves F.Frames door.old door.new SameBytes }
        ensures passes { Passes self.old self.new (F.live door.old) (F.live door.new) result
            (read_now (queue_of (F.live door.old) self.old.ring) self.old.writers (length buffer.old)) }
        ensures bytes { let number = moved result in
            buffer.new ≡ taken (queue_of (F.live door.old) self.old.ring) number ++ drop number buffer.old }
        // Where no byte comes out nothing is touched.
        ensures untouched { moved result ≡ 0 → (self.new ≡ self.old) × (door.new ≡ door.old) }
    {
        if buffer.is_empty() {
            return Progress::Moved(0);
        }
        if self.len() == 0 {
            return self.empty_told();
        }
        let number = self.ring.take_into(door, buffer);
        Progress::Moved(number as u64)
    }

    /// Reads what there is now, but at most so many bytes (read(2)). The first of them go into the buffer, as many as
    /// it has room for, and the others are lost, as recv(2) has it with MSG_TRUNC.
    pub fn read_truncated<F: Frames>(
        &mut self,
        door: &mut F,
        limit: usize,
        buffer: &mut [u8],
    ) -> Progress
        requires door { Holds F.Frames door.old self.old.ring.segments }
        ensures door { Leaves F.Frames door.old door.new SameBytes }
        ensures passes { Passes self.old self.new (F.live door.old) (F.live door.new) result
            (read_now (queue_of (F.live door.old) self.old.ring) self.old.writers limit) }
        ensures bytes { buffer.new
            ≡ laid (taken (queue_of (F.live door.old) self.old.ring) (moved result)) buffer.old }
        // Where no byte comes out nothing is touched.
        ensures untouched { moved result ≡ 0 → (self.new ≡ self.old) × (door.new ≡ door.old) }
    {
        if limit == 0 {
            return Progress::Moved(0);
        }
        if self.len() == 0 {
            return self.empty_told();
        }
        let number = self.ring.take_truncated(door, limit, buffer);
        Progress::Moved(number as u64)
    }

    /// Reads what there is now onto the end of a vector that has room for it (read(2)), but at most so many bytes.
    #[inline(always)]
    pub fn read_onto<F: Frames>(&mut self, door: &mut F, most: usize, out: &mut Vec<u8>) -> Progress
        requires door { Holds F.Frames door.old self.old.ring.segments }
        requires room { vec_len out.old + min most (bytes_in self.old.ring.segments) ≤ vec_capacity out.old }
        ensures door { Leaves F.Frames door.old door.new SameBytes }
        ensures passes { Passes self.old self.new (F.live door.old) (F.live door.new) result
            (read_now (queue_of (F.live door.old) self.old.ring) self.old.writers most) }
        ensures bytes { out.new.items
            ≡ out.old.items ++ taken (queue_of (F.live door.old) self.old.ring) (moved result) }
        // Where no byte comes out nothing is touched.
        ensures untouched { moved result ≡ 0
            → (self.new ≡ self.old) × (door.new ≡ door.old) × (out.new ≡ out.old) }
    {
        if most == 0 {
            return Progress::Moved(0);
        }
        if self.len() == 0 {
            return self.empty_told();
        }
        let number = self.ring.take_onto(door, most, out);
        Progress::Moved(number as u64)
    }

    /// Reads what there is now, but at most so many bytes (read(2)). What memory they need is made first, at its exact size.
    #[inline(always)]
    pub fn read_bytes<F: Frames>(
        &mut self,
        alloc: Global,
        door: &mut F,
        most: usize,
    ) -> Result<(Progress, ByteString), AllocError>
        requires door { Holds F.Frames door.old self.old.ring.segments }
        ensures door { Leaves F.Frames door.old door.new SameBytes }
        ensures passes { IfOk result (λ r. Passes self.old self.new (F.live door.old) (F.live door.new) r.0
            (read_now (queue_of (F.live door.old) self.old.ring) self.old.writers most)) }
        ensures bytes { IfOk result (λ r. r.1 ≡ taken (queue_of (F.live door.old) self.old.ring) (moved r.0)) }
        // Where no byte comes out nothing is touched.
        ensures untouched { IfOk result (λ r. moved r.0 ≡ 0 → (self.new ≡ self.old) × (door.new ≡ door.old)) }
        ensures refused { OnErr result ((self.new ≡ self.old) × (door.new ≡ door.old)) }
        // Memory is wanted only for more bytes than a reply holds without it.
        ensures many { OnErr result (BYTES_IN_PLACE < min (bytes_in self.old.ring.segments) most) }
    {
        let number = self.len().min(most);
        if number <= BYTES_IN_PLACE {
            let mut bytes = [0; BYTES_IN_PLACE];
            let progress = self.read_now(door, &mut bytes[..most.min(BYTES_IN_PLACE)]);
            return Ok((progress, ByteString::in_place(bytes, moved(progress))));
        }
        let mut bytes = Arc::new(alloc, Vec::with_capacity(alloc, number)?)?;
        // Nobody else has them yet.
        let Some(room) = Arc::get_mut(&mut bytes) else {
            return Err(AllocError);
        };
        let progress = self.read_onto(door, most, room);
        Ok((progress, ByteString::from_arc(bytes)))
    }

    /// Puts a copy of the first bytes into another pipe (tee(2)): at most `n`, and at most as many slots as are free
    /// there, at least a byte where it moves any. No byte is copied: each slot that is put names a frame once more.
    pub fn tee_now<F: Frames>(&self, door: &mut F, sink: &mut Pipe, n: usize) -> Progress
        requires door { HoldsBoth F.Frames door.old self.now.ring.segments sink.old.ring.segments
            sink.old.ring.capacity }
        ensures door { Leaves F.Frames door.old door.new SameFrames }
        ensures crosses { let source = queue_of (F.live door.old) self.now.ring in
            let queue = queue_of (F.live door.old) sink.old.ring in
            Crosses self.now self.now sink.old sink.new (F.live door.old) (F.live door.new) result
            (cross_now Tee source queue self.now.writers sink.old.readers n) }
        // Where no byte goes nothing is touched.
        ensures untouched { moved result ≡ 0 → (sink.new ≡ sink.old) × (door.new ≡ door.old) }
    {
        if let Some(progress) = self.stopped(sink, n) {
            return progress;
        }
        let number = self.ring.tee_into(door, &mut sink.ring, n);
        Progress::Moved(number as u64)
    }

    /// Moves the first bytes into another pipe (splice(2)): as many as `tee_now` puts there. No byte is copied: each
    /// slot whose bytes all go goes itself, and one that is cut has its frame named once more.
    pub fn splice_now<F: Frames>(&mut self, door: &mut F, sink: &mut Pipe, n: usize) -> Progress
        requires door { HoldsBoth F.Frames door.old self.old.ring.segments sink.old.ring.segments
            sink.old.ring.capacity }
        ensures door { Leaves F.Frames door.old door.new SameFrames }
        ensures crosses { let source = queue_of (F.live door.old) self.old.ring in
            let queue = queue_of (F.live door.old) sink.old.ring in
            Crosses self.old self.new sink.old sink.new (F.live door.old) (F.live door.new) result
            (cross_now Splice source queue self.old.writers sink.old.readers n) }
        // Where no byte goes nothing is touched.
        ensures untouched { moved result ≡ 0
            → (self.new ≡ self.old) × (sink.new ≡ sink.old) × (door.new ≡ door.old) }
    {
        if let Some(progress) = self.stopped(sink, n) {
            return progress;
        }
        let number = self.ring.splice_into(door, &mut sink.ring, n);
        Progress::Moved(number as u64)
    }

    /// Brings the first bytes into another pipe, by `tee_now` or by `splice_now`.
    pub fn cross_now<F: Frames>(
        &mut self,
        door: &mut F,
        crossing: Crossing,
        sink: &mut Pipe,
        n: usize,
    ) -> Progress
        requires door { HoldsBoth F.Frames door.old self.old.ring.segments sink.old.ring.segments
            sink.old.ring.capacity }
        ensures door { Leaves F.Frames door.old door.new SameFrames }
        ensures crosses { let source = queue_of (F.live door.old) self.old.ring in
            let queue = queue_of (F.live door.old) sink.old.ring in
            Crosses self.old self.new sink.old sink.new (F.live door.old) (F.live door.new) result
            (cross_now crossing source queue self.old.writers sink.old.readers n) }
        // Where no byte goes nothing is touched.
        ensures untouched { moved result ≡ 0
            → (self.new ≡ self.old) × (sink.new ≡ sink.old) × (door.new ≡ door.old) }
    {
        match crossing {
            Crossing::Tee => self.tee_now(door, sink, n),
            Crossing::Splice => self.splice_now(door, sink, n),
        }
    }

    // Why no byte goes from this pipe to another now, if none does.
    fn stopped(&self, sink: &Pipe, n: usize) -> Option<Progress>
        ensures stops { IfSome result (λ progress. Stops self.now sink.now n progress) }
        ensures goes { IfNone result (Goes self.now sink.now n) }
    {
        if n == 0 {
            return Some(Progress::Moved(0));
        }
        if sink.readers == 0 {
            return Some(Progress::NoReader);
        }
        if self.len() == 0 {
            return Some(self.empty_told());
        }
        if sink.used() == sink.slots() {
            return Some(Progress::WouldBlock);
        }
        None
    }

    // What a read is told where there is nothing: the end of file once nobody writes.
    fn empty_told(&self) -> Progress
        ensures { result ≡ (if nat_eq self.now.writers 0 then EndOfFile else WouldBlock) }
    {
        if self.writers == 0 {
            Progress::EndOfFile
        } else {
            Progress::WouldBlock
        }
    }

    /// Empties all slots, and releases the frame of each. The ends stay counted.
    pub fn clear<F: Frames>(&mut self, door: &mut F)
        requires door { Holds F.Frames door.old self.old.ring.segments }
        ensures door { Leaves F.Frames door.old door.new (Empties self.old.ring.segments []) }
        ensures pipe { self.new
            ≡ record self.old { ring = record { capacity = self.old.ring.capacity; segments = [] } } }
    {
        self.ring.clear(door);
    }
}

/// How many of so many bytes go in where there is this room: all or none where they are to stay whole (pipe(7)).
fn portion(whole: bool, number: usize, room: usize) -> usize
    ensures { result ≡ portion whole number room }
{
    if whole && room < number {
        0
    } else {
        number.min(room)
    }
}
