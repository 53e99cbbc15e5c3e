ghost use Rattle.std.specs.Prelude.{◌≡◌, ◌≤◌, nat_eq, length, take, vec_capacity, IfOk, IfSome, IsOk};
ghost use Rattle.std.specs.Cmp.Lexicographic.{pointwise, nat_list_eq_equiv};
ghost use Rattle.std.specs.Cmp.{partial_equiv_from_equiv};
ghost use Rattle.std.specs.Arc.{arc_value};
ghost use Rattle.pf_base.specs.declared.TheConstants.{BYTES_IN_PLACE};

use crate::BYTES_IN_PLACE;
use std::alloc::{AllocError, Global};
use std::fmt;
use std::marker::Model;
use std::sync::Arc;

// So the value takes 16 bytes: a step and a reply, of which there are many, stay small.
#[derive(Drop)]
enum Kept {
    // So many of these.
    InPlace(u8, [u8; BYTES_IN_PLACE]),
    // By all copies of them.
    Shared(Arc<Vec<u8>>),
    // By one alone, where no copy could be shared.
    OnHeap(Box<Vec<u8>>),
}

// The same bytes for one owner more, where they have no other and no memory beyond their own comes with them.
fn owned_twice(bytes: &Arc<Vec<u8>>) -> Option<Arc<Vec<u8>>>
    ensures bytes { IfSome result (λ twice. arc_value twice ≡ arc_value bytes.now) }
    ensures exact { IfSome result (λ twice. vec_capacity (arc_value twice) ≡ length (arc_value twice).items) }
{
    if Arc::strong_count(bytes) != 1 || bytes.capacity() != bytes.len() {
        return None;
    }
    Arc::try_clone(bytes).ok()
}

/// Bytes that a step carries or a reply gives: up to `BYTES_IN_PLACE` of them are kept in place, and take no memory of the
/// heap. A contract sees the list of them.
#[derive(Drop)]
pub struct ByteString {
    kept: Kept,
}

impl Model for ByteString {
    ghost use Rattle.std.specs.Prelude.{List, ℕ};
    ghost use Rattle.pf_base.specs.Kept.{kept_bytes, FitsInPlace};

    ghost Value = { List ℕ };

    ghost view = { λ b. kept_bytes b.kept };

    ghost invariant = { λ b. FitsInPlace b.kept };
}

impl ByteString {
    /// The first `len` of these bytes, with no allocation.
    pub fn in_place(bytes: [u8; BYTES_IN_PLACE], len: usize) -> Self
        requires { len ≤ BYTES_IN_PLACE }
        ensures { result ≡ take len bytes }
    {
        ByteString {
            kept: Kept::InPlace(len as u8, bytes),
        }
    }

    /// These bytes, with no allocation.
    pub fn from_arc(bytes: Arc<Vec<u8>>) -> Self
        ensures { result ≡ (arc_value bytes).items }
    {
        ByteString {
            kept: Kept::Shared(bytes),
        }
    }

    // A copy of bytes that are few enough to be kept in place.
    fn copied_in_place(bytes: &[u8]) -> Self
        requires { length bytes.now ≤ BYTES_IN_PLACE }
        ensures { result ≡ bytes.now }
    {
        let mut kept = [0; BYTES_IN_PLACE];
        kept[..bytes.len()].copy_from_slice(bytes);
        ByteString::in_place(kept, bytes.len())
    }

    /// These bytes. Memory is wanted only for more than `BYTES_IN_PLACE` of them.
    pub fn new(alloc: Global, bytes: Vec<u8>) -> Result<Self, AllocError>
        ensures bytes { IfOk result (λ string. string ≡ bytes.items) }
        ensures in_place { length bytes.items ≤ BYTES_IN_PLACE → IsOk result }
    {
        if bytes.len() <= BYTES_IN_PLACE {
            return Ok(ByteString::copied_in_place(bytes.as_slice()));
        }
        Ok(ByteString::from_arc(Arc::new(alloc, bytes)?))
    }

    /// A copy of these bytes. Memory is wanted only for more than `BYTES_IN_PLACE` of them.
    pub fn from_slice(alloc: Global, bytes: &[u8]) -> Result<Self, AllocError>
        ensures bytes { IfOk result (λ string. string ≡ bytes.now) }
        ensures in_place { length bytes.now ≤ BYTES_IN_PLACE → IsOk result }
    {
        if bytes.len() <= BYTES_IN_PLACE {
            return Ok(ByteString::copied_in_place(bytes));
        }
        let copied = Vec::from_slice(alloc, bytes)?;
        Ok(ByteString::from_arc(Arc::new(alloc, copied)?))
    }

    /// The bytes.
    pub fn as_slice(&self) -> &[u8]
        ensures { result.now ≡ self.now }
    {
        match &self.kept {
            Kept::InPlace(len, bytes) => &bytes[..*len as usize],
            Kept::Shared(bytes) => bytes.as_slice(),
            Kept::OnHeap(bytes) => bytes.as_slice(),
        }
    }

    /// The same bytes again, most often in the same memory.
    pub fn copy(&self, alloc: Global) -> Result<ByteString, AllocError>
        ensures { IfOk result (λ bytes. bytes ≡ self.now) }
    {
        match &self.kept {
            // As they stand, and not byte by byte: it is the copy of nearly each step and reply.
            Kept::InPlace(len, bytes) => Ok(ByteString {
                kept: Kept::InPlace(*len, *bytes),
            }),
            Kept::Shared(bytes) => Ok(ByteString::from_arc(Arc::try_clone(bytes)?)),
            Kept::OnHeap(bytes) => ByteString::from_slice(alloc, bytes.as_slice()),
        }
    }

    /// The same bytes again in the same memory, where whoever gave them can't tell it from a copy: they stand in memory
    /// of the heap that no other copy or `Arc` of them has a part in, and that has no room beyond them. None where that
    /// isn't so. It takes no memory.
    ///
    /// A copy by `copy` keeps what spare capacity there is for as long as it lives, and an owner of the `Arc` finds
    /// another one.
    pub fn share(&self) -> Option<ByteString>
        ensures { IfSome result (λ bytes. bytes ≡ self.now) }
    {
        match &self.kept {
            Kept::Shared(bytes) => Some(ByteString::from_arc(owned_twice(bytes)?)),
            Kept::InPlace(..) | Kept::OnHeap(_) => None,
        }
    }
}

impl PartialEq for ByteString {
    ghost eq = { pointwise nat_eq };

    ghost laws = { partial_equiv_from_equiv nat_list_eq_equiv };

    fn eq(&self, other: &ByteString) -> bool {
        self.as_slice() == other.as_slice()
    }
}

impl Eq for ByteString {
    ghost laws = { nat_list_eq_equiv };
}

impl fmt::Debug for ByteString {
    fn fmt<W: fmt::Write>(&self, f: &mut fmt::Formatter<W>) -> fmt::Result {
        f.debug_tuple("ByteString").field(&self.as_slice()).finish()
    }
}

/// Memory for bytes that come later, made before them, so that none is wanted once they are there.
///
/// A contract sees how many bytes it is enough for, and it has memory for just as many, or for none where they are kept in
/// place.
#[derive(Drop)]
pub struct ByteRoom {
    most: usize,
    memory: Option<Box<Vec<u8>>>,
}

impl Model for ByteRoom {
    ghost use Rattle.std.specs.Prelude.{ℕ};
    ghost use Rattle.pf_base.specs.Kept.{IsRoomFor};

    ghost Value = { ℕ };

    ghost view = { λ room. room.most };

    ghost invariant = { λ room. IsRoomFor room.most room.memory };
}

impl ByteRoom {
    /// Memory for at most this many bytes. None is wanted for up to `BYTES_IN_PLACE` of them.
    pub fn new(alloc: Global, most: usize) -> Result<Self, AllocError>
        ensures room { IfOk result (λ room. room ≡ most) }
        ensures in_place { most ≤ BYTES_IN_PLACE → IsOk result }
    {
        if most <= BYTES_IN_PLACE {
            return Ok(ByteRoom { most, memory: None });
        }
        let bytes = Vec::with_capacity(alloc, most)?;
        Ok(ByteRoom {
            most,
            memory: Some(Box::new(alloc, bytes)?),
        })
    }

    /// A copy of these bytes: as `copy` makes it where that finds memory, and else in this memory.
    pub fn fill(self, alloc: Global, bytes: &ByteString) -> ByteString
        requires { length bytes.now ≤ self }
        ensures { result ≡ bytes.now }
    {
        let ByteRoom { most: _, memory } = self;
        if let Ok(copy) = bytes.copy(alloc) {
            return copy;
        }
        let Some(mut memory) = memory else {
            return ByteString::copied_in_place(bytes.as_slice());
        };
        let Ok(()) = memory.extend_from_slice(bytes.as_slice()) else {
            unreachable!()
        };
        ByteString {
            kept: Kept::OnHeap(memory),
        }
    }
}
