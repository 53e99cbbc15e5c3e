//! What receives the bytes of a read, a part behind the other.

ghost use Rattle.std.specs.Prelude.{◌≡◌, ℕ, ◌+◌, ◌-◌, ◌<◌, ◌≤◌, List, ◌++◌, length, take, vec_len, vec_capacity};

/// What receives bytes. A place is how many it received before.
pub trait Receive {
    /// What no part changes.
    ghost Kept: { Type 0 };

    ghost kept: { Self → Kept };

    /// The bytes that it has at a place.
    ghost received: { Self → ℕ → List ℕ };

    /// How many more it has room for there.
    ghost room: { Self → ℕ → ℕ };

    /// Puts a part behind what it has at a place.
    fn receive(&mut self, place: usize, part: &[u8])
        requires some { 0 < length part.now }
        requires room { length part.now ≤ room self.old place }
        ensures kept { kept self.new ≡ kept self.old }
        ensures bytes { received self.new (place + length part.now) ≡ received self.old place ++ part.now }
        ensures room { room self.old place ≤ room self.new (place + length part.now) + length part.now };
}

// A vector that has room for all parts.
impl Receive for Vec<u8> {
    ghost Kept = { Unit {0} };

    ghost kept = { λ out. tt };

    ghost received = { λ out place. out.items };

    ghost room = { λ out place. vec_capacity out - vec_len out };

    #[inline(always)]
    fn receive(&mut self, place: usize, part: &[u8]) {
        let _ = place;
        self.extend_from_slice(part).unwrap();
    }
}

/// A buffer that is filled from its start.
#[derive(Drop)]
pub struct Laid<'a> {
    pub buffer: &'a mut [u8],
}

impl Receive for Laid<'_> {
    ghost Kept = { ℕ × ℕ };

    ghost kept = { λ out. (out.buffer.ghost_name, length out.buffer.now) };

    ghost received = { λ out place. take place out.buffer.now };

    ghost room = { λ out place. length out.buffer.now - place };

    #[inline(always)]
    fn receive(&mut self, place: usize, part: &[u8]) {
        self.buffer[place..place + part.len()].copy_from_slice(part);
    }
}
