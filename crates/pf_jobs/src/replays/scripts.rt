//! Scripts by a generator of random numbers, of the shapes that are played: short lines of one name or of many by
//! turns, long lines, a build's processes, and files.

ghost use Rattle.std.specs.Prelude.{◌<◌};

use crate::random::below;
use rand_core::utils::NextWord;
use rand_pcg::Pcg32;
use std::alloc::{AllocError, Global};

/// The digits of a byte's halves.
const DIGITS: [u8; 16] = *b"0123456789abcdef";

/// How many digits long payloads are cut from.
const STORE: usize = 1_048_576;

/// What a script says.
#[derive(Clone, Copy, Debug, PartialEq, Eq)]
pub(crate) enum Shape {
    /// Writes of 1 to 9 bytes, each read back.
    Short,
    /// Writes of a page, each read back.
    Long,
    /// Processes that fork, dup, close, write lines and exit, as a build's do.
    Processes,
    /// FIFOs that are made, asked for, listed and unlinked.
    Files,
}

/// A script in the making.
#[derive(Drop)]
pub(crate) struct Text {
    alloc: Global,
    random: Pcg32,
    bytes: Vec<u8>,
    // Random digits, from which payloads are cut.
    digits: Vec<u8>,
}

impl Text {
    pub(crate) fn new(alloc: Global, seed: u64, stream: u64) -> Result<Text, AllocError> {
        let mut random = Pcg32::new(seed, stream);
        let mut digits = Vec::with_capacity(alloc, STORE)?;
        for _ in 0..STORE / 4 {
            for byte in random.next_word().to_le_bytes() {
                digits.push(DIGITS[(byte % 16) as usize])?;
            }
        }
        Ok(Text {
            alloc,
            random,
            bytes: Vec::new(alloc),
            digits,
        })
    }

    fn below(&mut self, bound: u32) -> u32
        requires { 0 < bound }
        ensures { result < bound }
    {
        below(&mut self.random, bound)
    }

    fn put(&mut self, text: &str) -> Result<(), AllocError> {
        self.bytes.extend_from_slice(text.as_bytes())
    }

    /// A number in decimal digits.
    fn put_number(&mut self, number: u32) -> Result<(), AllocError> {
        let mut left = number;
        let mut kept = [0u8; 10];
        let mut first = 10;
        for at in 0..10 {
            let place = 9 - at;
            kept[place] = DIGITS[(left % 10) as usize];
            first = place;
            left /= 10;
            if left == 0 {
                break;
            }
        }
        if let Some(digits) = kept.as_slice().get(first..10) {
            self.bytes.extend_from_slice(digits)?;
        }
        Ok(())
    }

    /// So many random bytes, in digits.
    fn put_data(&mut self, count: usize) -> Result<(), AllocError> {
        let start = self.below(900_000) as usize;
        let end = start.saturating_add(count.saturating_mul(2));
        if let Some(digits) = self.digits.as_slice().get(start..end) {
            self.bytes.extend_from_slice(digits)?;
        }
        Ok(())
    }

    /// A line of a name: its words with a number between each two of them.
    fn line(&mut self, name: u32, words: &str, numbers: &[u32]) -> Result<(), AllocError> {
        self.put("tenant")?;
        self.put_number(name)?;
        self.put(words)?;
        for number in numbers {
            self.put(" ")?;
            self.put_number(*number)?;
        }
        Ok(())
    }

    fn end(&mut self) -> Result<(), AllocError> {
        self.put("\n")
    }

    fn whole(&mut self, name: u32, words: &str, numbers: &[u32]) -> Result<(), AllocError> {
        self.line(name, words, numbers)?;
        self.end()
    }

    /// The pool, the tenants, and of each the first process and its pipe.
    fn begin(&mut self, names: u32) -> Result<(), AllocError> {
        self.put("pool ")?;
        self.put_number(names.saturating_mul(64))?;
        self.end()?;
        for name in 0..names {
            self.put("space tenant")?;
            self.put_number(name)?;
            self.put(" 64\n")?;
        }
        for name in 0..names {
            self.line(name, " spawn 5 5 022\n", &[])?;
            self.whole(name, " pipe", &[1])?;
        }
        Ok(())
    }

    /// A write of so many bytes, and a read of them.
    fn pair(&mut self, name: u32, count: u32) -> Result<(), AllocError> {
        self.line(name, " write 1 1 ", &[])?;
        self.put_data(count as usize)?;
        self.end()?;
        self.whole(name, " read", &[1, 0, count])
    }

    /// A child that writes a line to its parent, which has some descriptors of its own besides.
    fn child(&mut self, name: u32) -> Result<(), AllocError> {
        self.whole(name, " fork", &[1])?;
        self.whole(name, " pipe", &[2])?;
        self.whole(name, " fork", &[2])?;
        self.whole(name, " close", &[2, 3])?;
        self.whole(name, " close", &[3, 2])?;
        self.whole(name, " dup", &[3, 3])?;
        self.whole(name, " close", &[3, 3])?;
        self.whole(name, " read", &[2, 2, 4_096])?;
        self.line(name, " write 3 2 ", &[])?;
        let count = 20 + self.below(60);
        self.put_data(count as usize)?;
        self.end()?;
        self.whole(name, " resume", &[2])?;
        self.whole(name, " exit", &[3])?;
        self.whole(name, " read", &[2, 2, 4_096])?;
        self.whole(name, " exit", &[2])
    }

    /// One of a few thousand FIFOs is made or unlinked, and asked for; seldom all are listed.
    fn file(&mut self, name: u32) -> Result<(), AllocError> {
        let number = self.below(2_000);
        let (word, mode) = match self.below(8) {
            0 | 1 | 2 => (" mkfifo 1 2f6a6f622d", true),
            3 => (" unlink 1 2f6a6f622d", false),
            _ => (" stat 1 2f6a6f622d", false),
        };
        self.line(name, word, &[])?;
        for place in [100, 10, 1] {
            let digit = number / place % 10;
            self.put("3")?;
            self.put_number(digit)?;
        }
        self.put(if mode { " 0660\n" } else { "\n" })?;
        if self.below(400) == 0 {
            self.line(name, " list 1 2f\n", &[])?;
        }
        Ok(())
    }

    /// A script of this shape and of so many names by turns, with at least so many bytes.
    pub(crate) fn script(
        mut self,
        shape: Shape,
        names: u32,
        bytes: usize,
    ) -> Result<Vec<u8>, AllocError> {
        self.bytes = Vec::with_capacity(self.alloc, bytes.saturating_add(65_536))?;
        self.begin(names)?;
        for _ in 0..bytes {
            if self.bytes.len() >= bytes {
                break;
            }
            for name in 0..names {
                match shape {
                    Shape::Short => {
                        let count = 1 + self.below(9);
                        self.pair(name, count)?;
                    }
                    Shape::Long => self.pair(name, 4_096)?,
                    Shape::Processes => self.child(name)?,
                    Shape::Files => self.file(name)?,
                }
            }
        }
        Ok(self.bytes)
    }
}
