ghost use Rattle.std.specs.Prelude.{◌≡◌, [], true, false, OnOk, OnErr};
ghost use Rattle.pf_script.specs.Puts.{Puts, EndsBy, FailsBy};

use crate::port::{Sink, WriteFault, write_out};
use arrayvec::ArrayVec;
use std::marker::Model;

/// How many bytes wait at most.
const ROOM: usize = 8192;

/// A buffer of fixed size in front of a writer. It takes no memory. After a write that was refused it takes nothing
/// on, and the writer isn't asked again.
///
/// A contract sees what waits, and whether a write was refused.
#[derive(Drop)]
pub struct Printer {
    waiting: ArrayVec<u8, ROOM>,
    failed: bool,
}

impl Model for Printer {
    ghost use Rattle.pf_script.specs.Puts.{Queued};

    ghost Value = { Queued };

    ghost view = { λ p. record { waiting = p.waiting.items; failed = p.failed } };
}

impl Printer {
    /// Nothing waits.
    pub fn new() -> Self
        ensures { result ≡ record { waiting = []; failed = false } }
    {
        Printer {
            waiting: ArrayVec::new(),
            failed: false,
        }
    }

    /// Whether a write was refused.
    pub fn has_failed(&self) -> bool
        ensures { result ≡ self.now.failed }
    {
        self.failed
    }

    /// Takes a text on: it waits, or is written.
    #[inline(always)]
    pub fn put<W: Sink>(&mut self, writer: &mut W, text: &[u8])
        ensures { Puts (W.output writer.old) self.old (W.output writer.new) self.new text.now }
    {
        if self.failed {
            return;
        }
        if self.waiting.try_extend_from_slice(text).is_err() {
            self.pass_and_put(writer, text);
        }
    }

    // The same where there is no room.
    fn pass_and_put<W: Sink>(&mut self, writer: &mut W, text: &[u8])
        requires { self.old.failed ≡ false }
        ensures { Puts (W.output writer.old) self.old (W.output writer.new) self.new text.now }
    {
        self.pass(writer);
        if !self.has_failed() {
            self.put_first(writer, text);
        }
    }

    // Writes what waits.
    fn pass<W: Sink>(&mut self, writer: &mut W)
        requires { self.old.failed ≡ false }
        ensures passed { Puts (W.output writer.old) self.old (W.output writer.new) self.new [] }
        ensures empty { self.new.failed ≡ false → self.new.waiting ≡ [] }
    {
        if write_out(writer, self.waiting.as_slice()).is_err() {
            self.failed = true;
        } else {
            self.waiting.clear();
        }
    }

    // Takes a text on where nothing waits.
    fn put_first<W: Sink>(&mut self, writer: &mut W, text: &[u8])
        requires sound { self.old.failed ≡ false }
        requires empty { self.old.waiting ≡ [] }
        ensures { Puts (W.output writer.old) self.old (W.output writer.new) self.new text.now }
    {
        if self.waiting.try_extend_from_slice(text).is_err() && write_out(writer, text).is_err() {
            self.failed = true;
        }
    }

    /// Writes what waits. It is an error where a write is refused, or was before.
    pub fn finish<W: Sink>(&self, writer: &mut W) -> Result<(), WriteFault>
        ensures written { OnOk result
            (EndsBy self.now.failed (W.output writer.old) self.now.waiting (W.output writer.new)) }
        ensures fault { OnErr result
            (FailsBy self.now.failed (W.output writer.old) self.now.waiting (W.output writer.new)) }
    {
        if self.failed {
            return Err(WriteFault);
        }
        write_out(writer, self.waiting.as_slice())
    }
}
