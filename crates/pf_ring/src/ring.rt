ghost use Rattle.std.specs.Prelude.{◌≡◌, ◌+◌, ◌<◌, ◌≤◌, ◌^◌, [], ◌++◌, length, drop, min, vec_len, vec_capacity, IfOk, IsOk, OnOk, OnErr};
ghost use Rattle.pf_machine.specs.Queue.{room_of, bytes_of, put, taken, after_splice, with_capacity};
ghost use Rattle.pf_frame.specs.Live.{Live, IsSound};
ghost use Rattle.pf_ring.specs.Calls.{Appends, Empties, Tees, Splices, Shows, Gives, Gets};
ghost use Rattle.pf_ring.specs.Door.{Holds, HoldsBoth, Affords, Leaves};
ghost use Rattle.pf_ring.specs.Laid.{laid};
ghost use Rattle.pf_ring.specs.Ring.{segment_of, queue_of};
ghost use Rattle.pf_base.specs.declared.TheConstants.{PAGE_SIZE};
ghost use Rattle.pf_ring.specs.Windows.{Stands, bytes_in};

use crate::windows;
use pf_base::PAGE_SIZE;
use pf_frame::{FrameNo, Frames};
use std::alloc::{AllocError, Global};
use std::collections::VecDeque;
use std::marker::Model;

/// A slot: `len` bytes of a frame, from the place `from` on. One that grows ends where its frame is filled up to,
/// and may be written behind its end.
#[derive(Clone, Copy, Debug, PartialEq, Eq)]
pub struct Window {
    /// The frame that its bytes stand in.
    pub frame: FrameNo,

    /// Where they begin, in bytes from the frame's start.
    pub from: u32,

    /// How many they are: at least one.
    pub len: u32,

    /// Whether bytes may be written behind its end.
    pub grows: bool,
}

impl Window {
    /// How many bytes may be written behind its end: what is left of the page, if it grows.
    pub fn room(&self) -> usize
        ensures room { (f : Live) → result ≡ (segment_of f self.now).room }
        ensures most { result ≤ PAGE_SIZE }
    {
        if self.grows {
            PAGE_SIZE.saturating_sub(self.from as usize + self.len as usize)
        } else {
            0
        }
    }
}

/// A ring of slots. It holds no bytes: they stand in the frames of the door that each call is handed.
#[derive(Drop)]
pub struct SlotRing {
    slots: usize,
    bytes: usize,
    windows: VecDeque<Window>,
}

impl Model for SlotRing {
    ghost use Rattle.std.specs.Prelude.{◌≡◌, ◌<◌, ◌≤◌, ◌^◌};
    ghost use Rattle.std.specs.VecDeque.{deque_len, deque_capacity};
    ghost use Rattle.pf_ring.specs.Ring.{Ring};
    ghost use Rattle.pf_ring.specs.Windows.{bytes_in};

    ghost Value = { Ring };

    ghost view = { λ r. record { capacity = r.slots; segments = r.windows.items } };

    ghost invariant = { λ r. (deque_len r.windows ≤ r.slots) × (r.slots ≤ deque_capacity r.windows)
        × (r.slots < 2 ^ 32) × (r.bytes ≡ bytes_in r.windows.items) };
}

impl SlotRing {
    /// A ring of so many free slots: below 2^32, so that lengths and rooms in bytes fit a machine word. No later call
    /// takes memory but `resized`.
    pub fn new(alloc: Global, slots: usize) -> Result<Self, AllocError>
        requires { slots < 2 ^ 32 }
        ensures { IfOk result (λ r. r ≡ record { capacity = slots; segments = [] }) }
    {
        let windows = VecDeque::with_capacity(alloc, slots)?;
        Ok(SlotRing {
            slots,
            bytes: 0,
            windows,
        })
    }

    /// How many slots there are.
    pub fn slots(&self) -> usize
        ensures number { result ≡ self.now.capacity }
        ensures most { result < 2 ^ 32 }
    {
        self.slots
    }

    /// How many slots are in use.
    pub fn used(&self) -> usize
        ensures number { result ≡ length self.now.segments }
        ensures most { result ≤ self.now.capacity }
    {
        self.windows.len()
    }

    /// How many bytes there are to read.
    pub fn len(&self) -> usize
        ensures number { result ≡ bytes_in self.now.segments }
        ensures bytes { (f : Live) → IsSound f → Stands f self.now.segments
            → result ≡ length (bytes_of (queue_of f self.now)) }
    {
        self.bytes
    }

    /// How many bytes may be appended: those that the last slot still takes, and a page for each free slot.
    pub fn room(&self) -> usize
        ensures { (f : Live) → result ≡ room_of (queue_of f self.now) }
    {
        windows::last_window_room(&self.windows) + PAGE_SIZE * (self.slots - self.windows.len())
    }

    /// Puts bytes at the end: first behind the last slot, where it grows, and then in new slots, each on a frame that
    /// is taken for it (pipe(7)).
    // What a small write or read passes is inlined into the step: this and `take_onto`, and in `windows` what they call for
    // each window.
    #[inline(always)]
    pub fn append<F: Frames>(&mut self, door: &mut F, bytes: &[u8])
        requires door { Affords F.Frames door.old self.old.capacity self.old.segments }
        requires room { length bytes.now ≤ room_of (queue_of (F.live door.old) self.old) }
        ensures door { Leaves F.Frames door.old door.new
            (Appends self.old.segments self.new.segments (length bytes.now)) }
        ensures ring { Shows (F.live door.new) self.old self.new
            (put (queue_of (F.live door.old) self.old) bytes.now) }
    {
        windows::append(&mut self.windows, self.slots, door, bytes);
        self.bytes += bytes.len();
    }

    /// Moves bytes from the front into the buffer, as many as there are and as it has room for, and answers how many.
    /// The frame of a slot that is emptied is released.
    pub fn take_into<F: Frames>(&mut self, door: &mut F, buffer: &mut [u8]) -> usize
        requires door { Holds F.Frames door.old self.old.segments }
        ensures door { Leaves F.Frames door.old door.new (Empties self.old.segments self.new.segments) }
        ensures ring { Gives (F.live door.old) (F.live door.new) self.old self.new (length buffer.old) result }
        ensures bytes { buffer.new
            ≡ taken (queue_of (F.live door.old) self.old) (length buffer.old) ++ drop result buffer.old }
    {
        let number = self.len().min(buffer.len());
        windows::move_into(&mut self.windows, door, &mut buffer[..number]);
        self.bytes -= number;
        number
    }

    /// Takes bytes from the front, as many as there are but at most so many, and answers how many. The first of them go
    /// into the buffer, as many as it has room for, and the others are lost. The frame of a slot that is emptied is
    /// released.
    pub fn take_truncated<F: Frames>(
        &mut self,
        door: &mut F,
        most: usize,
        buffer: &mut [u8],
    ) -> usize
        requires door { Holds F.Frames door.old self.old.segments }
        ensures door { Leaves F.Frames door.old door.new (Empties self.old.segments self.new.segments) }
        ensures ring { Gives (F.live door.old) (F.live door.new) self.old self.new most result }
        ensures bytes { buffer.new ≡ laid (taken (queue_of (F.live door.old) self.old) most) buffer.old }
    {
        let number = self.len().min(most);
        let room = number.min(buffer.len());
        windows::move_truncated(&mut self.windows, door, number, &mut buffer[..room]);
        self.bytes -= number;
        number
    }

    /// Moves bytes from the front onto the end of a vector that has room for them, as many as there are but at most so
    /// many, and answers how many. The frame of a slot that is emptied is released.
    #[inline(always)]
    pub fn take_onto<F: Frames>(&mut self, door: &mut F, most: usize, out: &mut Vec<u8>) -> usize
        requires door { Holds F.Frames door.old self.old.segments }
        requires room { vec_len out.old + min most (bytes_in self.old.segments) ≤ vec_capacity out.old }
        ensures door { Leaves F.Frames door.old door.new (Empties self.old.segments self.new.segments) }
        ensures ring { Gives (F.live door.old) (F.live door.new) self.old self.new most result }
        ensures bytes { out.new.items ≡ out.old.items ++ taken (queue_of (F.live door.old) self.old) most }
    {
        let taken = self.len().min(most);
        windows::move_onto(&mut self.windows, door, taken, out);
        self.bytes -= taken;
        taken
    }

    /// Puts a copy of the first bytes at the end of another ring (tee(2)): at most `n` bytes, and at most as many slots
    /// as the other ring has free. Answers how many bytes they are.
    ///
    /// No byte is copied or looked at, and no frame is taken: each slot that is put names a frame of this ring once
    /// more, and never grows. It takes constant time for each.
    pub fn tee_into<F: Frames>(&self, door: &mut F, sink: &mut SlotRing, n: usize) -> usize
        requires door { HoldsBoth F.Frames door.old self.now.segments sink.old.segments sink.old.capacity }
        ensures door { Leaves F.Frames door.old door.new
            (Tees self.now.segments sink.old.segments sink.new.segments) }
        ensures sink { Gets (F.live door.old) (F.live door.new) self.now sink.old sink.new n result }
        ensures source { queue_of (F.live door.new) self.now ≡ queue_of (F.live door.old) self.now }
    {
        let number = windows::share(&self.windows, &mut sink.windows, sink.slots, door, n);
        sink.bytes += number;
        number
    }

    /// Moves the first bytes to the end of another ring (splice(2)): as many as `tee_into` puts there. Answers how many
    /// they are.
    ///
    /// No byte is copied or looked at, and no frame is taken or freed. A slot whose bytes all go goes itself, without its
    /// room; one that is cut keeps its room, and its frame is named once more. It takes constant time for each slot.
    pub fn splice_into<F: Frames>(&mut self, door: &mut F, sink: &mut SlotRing, n: usize) -> usize
        requires door { HoldsBoth F.Frames door.old self.old.segments sink.old.segments sink.old.capacity }
        ensures door { Leaves F.Frames door.old door.new
            (Splices self.old.segments self.new.segments sink.old.segments sink.new.segments) }
        ensures sink { Gets (F.live door.old) (F.live door.new) self.old sink.old sink.new n result }
        ensures source { Shows (F.live door.new) self.old self.new
            (after_splice (queue_of (F.live door.old) self.old) (queue_of (F.live door.old) sink.old) n) }
    {
        let moved = windows::shift(&mut self.windows, &mut sink.windows, sink.slots, door, n);
        self.bytes -= moved;
        sink.bytes += moved;
        moved
    }

    /// Gives the ring another number of slots (fcntl(2), F_SETPIPE_SZ): not fewer than are in use. What it holds stays,
    /// and so does the room of the last slot in use. It costs no more than the slots in use, and copies no byte.
    pub fn resized(&mut self, alloc: Global, slots: usize) -> Result<(), AllocError>
        requires fits { length self.old.segments ≤ slots }
        requires few { slots < 2 ^ 32 }
        ensures ring { OnOk result (self.new ≡ record { capacity = slots; segments = self.old.segments }) }
        ensures queue { OnOk result
            ((f : Live) → queue_of f self.new ≡ with_capacity slots (queue_of f self.old)) }
        // Memory is wanted where the number changes, and where it is refused nothing has changed.
        ensures refused { OnErr result (self.new ≡ self.old) }
        ensures succeeds { slots ≡ self.old.capacity → IsOk result }
    {
        if slots == self.slots {
            return Ok(());
        }
        let mut windows = VecDeque::with_capacity(alloc, slots)?;
        windows.append(&mut self.windows).unwrap();
        self.windows = windows;
        self.slots = slots;
        Ok(())
    }

    /// Empties all slots, and releases the frame of each.
    pub fn clear<F: Frames>(&mut self, door: &mut F)
        requires door { Holds F.Frames door.old self.old.segments }
        ensures door { Leaves F.Frames door.old door.new (Empties self.old.segments []) }
        ensures ring { self.new ≡ record { capacity = self.old.capacity; segments = [] } }
    {
        windows::clear(&mut self.windows, door);
        self.bytes = 0;
    }
}
