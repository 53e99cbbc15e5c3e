ghost use Rattle.std.specs.Prelude.{◌≡◌, ◌+◌, ◌<◌, ◌^◌, decimal};

use arrayvec::ArrayVec;
use itoa::Buffer;
use std::marker::Model;

/// How many digits a number has at most.
const MOST_DIGITS: usize = 20;

/// A number that counts up, with its decimal digits: mostly one more changes the last of them alone. A contract sees the
/// number.
#[derive(Debug, Drop)]
pub struct Count {
    number: u64,
    digits: ArrayVec<u8, MOST_DIGITS>,
}

impl Model for Count {
    ghost use Rattle.std.specs.Prelude.{◌≡◌, ℕ, decimal};

    ghost Value = { ℕ };

    ghost view = { λ c. c.number };

    ghost invariant = { λ c. c.digits.items ≡ decimal c.number };
}

/// A number's decimal digits.
fn digits_of(number: u64) -> ArrayVec<u8, MOST_DIGITS>
    ensures { result.items ≡ decimal number }
{
    let mut digits = ArrayVec::new();
    let mut buffer = Buffer::new();
    digits
        .try_extend_from_slice(buffer.format(number).as_bytes())
        .unwrap();
    digits
}

impl Count {
    /// Zero.
    pub fn zero() -> Self
        ensures { result ≡ 0 }
    {
        Count {
            number: 0,
            digits: digits_of(0),
        }
    }

    /// Its decimal digits.
    #[inline(always)]
    pub fn digits(&self) -> &[u8]
        ensures { result.now ≡ decimal self.now }
    {
        self.digits.as_slice()
    }

    /// Counts one more.
    #[inline(always)]
    pub fn step(&mut self)
        requires { self.old + 1 < 2 ^ 64 }
        ensures { self.new ≡ self.old + 1 }
    {
        self.number += 1;
        match self.digits.pop() {
            Some(last) if last < b'9' => self.digits.push(last + 1),
            _ => self.digits = digits_of(self.number),
        }
    }
}
