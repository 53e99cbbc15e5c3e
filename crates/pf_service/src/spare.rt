ghost use Rattle.std.specs.Prelude.{◌≡◌, ◌<◌, ◌≤◌, ◌⊎◌, length, IfOk, IsOk};
ghost use Rattle.pf_base.specs.declared.TheConstants.{BYTES_IN_PLACE, PAGE_SIZE};
ghost use Rattle.pf_machine.specs.Replies.{reply_length};
ghost use Rattle.pf_service.specs.Rooms.{IsLeftOf};

use pf_base::{BYTES_IN_PLACE, ByteRoom, ByteString, PAGE_SIZE, Reply};
use std::alloc::{AllocError, Global};
use std::marker::Model;
use std::mem;

/// Memory for the copy of a reply, made before an event's step, so that no want of memory comes after it.
///
/// A contract sees how many bytes it is enough for. It has memory for just as many where they aren't kept in place.
#[derive(Drop)]
pub(crate) struct ReplyRoom {
    most: usize,
    room: Option<ByteRoom>,
}

impl Model for ReplyRoom {
    ghost use Rattle.std.specs.Prelude.{ℕ};
    ghost use Rattle.pf_service.specs.Rooms.{IsRoomFor};

    ghost Value = { ℕ };

    ghost view = { λ r. r.most };

    ghost invariant = { λ r. IsRoomFor r.most r.room };
}

impl ReplyRoom {
    // Enough for no byte. It takes no memory.
    fn empty() -> Self
        ensures { result ≡ 0 }
    {
        ReplyRoom {
            most: 0,
            room: None,
        }
    }

    // Memory for at most this many bytes.
    fn new(alloc: Global, most: usize) -> Result<Self, AllocError>
        ensures { IfOk result (λ room. room ≡ most) }
    {
        let room = ByteRoom::new(alloc, most)?;
        Ok(ReplyRoom {
            most,
            room: Some(room),
        })
    }

    // The same bytes again. Where their own memory can't be shared, this memory is used up.
    fn fill(&mut self, alloc: Global, bytes: &ByteString) -> ByteString
        requires { length bytes.now ≤ self.old }
        ensures same { result ≡ bytes.now }
        ensures left { IsLeftOf self.old self.new }
    {
        if let Ok(copy) = bytes.copy(alloc) {
            return copy;
        }
        let ReplyRoom { most: _, room } = mem::replace(self, ReplyRoom::empty());
        match room {
            Some(room) => room.fill(alloc, bytes),
            None => ByteString::in_place([0; BYTES_IN_PLACE], 0),
        }
    }

    /// The same reply again. It takes no memory but this.
    pub(crate) fn copy(&mut self, alloc: Global, reply: &Reply) -> Reply
        requires { reply_length reply.now ≤ self.old }
        ensures same { result ≡ reply.now }
        ensures left { IsLeftOf self.old self.new }
    {
        match reply {
            Reply::Num(number) => Reply::Num(*number),
            Reply::Pid(pid) => Reply::Pid(*pid),
            Reply::Fds(reading, writing) => Reply::Fds(*reading, *writing),
            Reply::Bytes(bytes) => Reply::Bytes(self.fill(alloc, bytes)),
            Reply::Names(names) => Reply::Names(self.fill(alloc, names)),
            Reply::Meta(meta) => Reply::Meta(*meta),
            Reply::Parked => Reply::Parked,
            Reply::Err(errno) => Reply::Err(*errno),
        }
    }
}

/// What is kept of such memory from event to event, as long as the namespace lives: at most a page.
///
/// A copy shares its reply's memory where it can, and it nearly always can: then the memory that was made for it isn't
/// used, and serves the events that follow.
#[derive(Drop)]
pub(crate) struct Spare {
    kept: ReplyRoom,

    /// It is at most a page.
    pub ghost small: { kept ≤ PAGE_SIZE },
}

impl Spare {
    /// Nothing is kept yet. It takes no memory.
    pub(crate) fn new() -> Self {
        Spare {
            kept: ReplyRoom::empty(),
        }
    }

    /// Memory for at least so many bytes, for one event: what was kept, where they need some and that is enough, and else
    /// new memory for just as many.
    pub(crate) fn take(&mut self, alloc: Global, most: usize) -> Result<ReplyRoom, AllocError>
        ensures enough { IfOk result (λ room. most ≤ room) }
        ensures size { IfOk result (λ room. (room ≡ most) ⊎ (room ≡ self.old.kept)) }
        ensures left { IsLeftOf self.old.kept self.new.kept }
        ensures kept { BYTES_IN_PLACE < most → most ≤ self.old.kept → IsOk result }
    {
        if most > BYTES_IN_PLACE && most <= self.kept.most {
            return Ok(mem::replace(&mut self.kept, ReplyRoom::empty()));
        }
        ReplyRoom::new(alloc, most)
    }

    /// After an event: what is left of its memory is kept, where it is more than there is, and at most a page.
    pub(crate) fn keep(&mut self, left: ReplyRoom)
        ensures page { self.new.kept ≤ PAGE_SIZE }
        ensures kept { left ≤ PAGE_SIZE → left ≤ self.new.kept }
        ensures one { (self.new.kept ≡ self.old.kept) ⊎ (self.new.kept ≡ left) }
    {
        if left.most > self.kept.most && left.most <= PAGE_SIZE {
            self.kept = left;
        }
    }
}
