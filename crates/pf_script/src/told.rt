ghost use Rattle.std.specs.Prelude.{◌≡◌, decimal};
ghost use Rattle.pf_base.specs.declared.admission.EventAnswer.TheVariants as answers;
ghost use Rattle.pf_base.specs.declared.step.Answer.TheVariants.{Done};
ghost use Rattle.pf_script.specs.Puts.{Puts};
ghost use Rattle.pf_script.specs.Text.{event_text};
ghost use Rattle.pf_script.specs.Told.{wants_memory};

use crate::port::Sink;
use crate::printer::Printer;
use crate::text::{
    put_admission, put_bytes_read, put_error, put_fds, put_meta, put_names_read, put_num, put_pid,
    put_retirement,
};
use pf_base::{AdmitFault, Answer, ByteString, Errno, EventAnswer, Meta, Reply, RetireFault};
use std::marker::Model;

// An answer's kinds and its reply's in one, so that a value takes 24 bytes and not 40.
#[derive(Debug, Drop)]
enum Flat {
    Num(u64),
    Pid(u32),
    Fds(u32, u32),
    Bytes(ByteString),
    Names(ByteString),
    Meta(Meta),
    Parked,
    Err(Errno),
    NoMemory,
    Gone,
    Admitted(u32),
    NotAdmitted(AdmitFault),
    Retired,
    NotRetired(RetireFault),
}

/// An answer to a line, in little room: a run keeps one for each line. A contract sees the answer.
#[derive(Debug, Drop)]
pub struct Told {
    flat: Flat,
}

impl Model for Told {
    ghost use Rattle.pf_base.specs.declared.admission.EventAnswer.{EventAnswer};
    ghost use Rattle.pf_script.specs.Told.{answer_of};

    ghost Value = { EventAnswer };

    ghost view = { λ t. answer_of t.flat };
}

impl Told {
    /// This answer.
    #[inline(always)]
    pub fn new(answer: EventAnswer) -> Self
        ensures { result ≡ answer }
    {
        match answer {
            EventAnswer::Answer(Answer::Done(reply)) => Told::replied(reply),
            EventAnswer::Answer(Answer::NoMemory) => Told {
                flat: Flat::NoMemory,
            },
            EventAnswer::Gone => Told { flat: Flat::Gone },
            EventAnswer::Admitted(number) => Told {
                flat: Flat::Admitted(number),
            },
            EventAnswer::NotAdmitted(fault) => Told {
                flat: Flat::NotAdmitted(fault),
            },
            EventAnswer::Retired => Told {
                flat: Flat::Retired,
            },
            EventAnswer::NotRetired(fault) => Told {
                flat: Flat::NotRetired(fault),
            },
        }
    }

    // A step's reply.
    #[inline(always)]
    fn replied(reply: Reply) -> Self
        ensures { result ≡ answers.Answer (Done reply) }
    {
        let flat = match reply {
            Reply::Num(n) => Flat::Num(n),
            Reply::Pid(pid) => Flat::Pid(pid),
            Reply::Fds(read, write) => Flat::Fds(read, write),
            Reply::Bytes(bytes) => Flat::Bytes(bytes),
            Reply::Names(bytes) => Flat::Names(bytes),
            Reply::Meta(meta) => Flat::Meta(meta),
            Reply::Parked => Flat::Parked,
            Reply::Err(errno) => Flat::Err(errno),
        };
        Told { flat }
    }

    /// Whether it says that memory was wanted.
    pub fn wants_memory(&self) -> bool
        ensures { result ≡ wants_memory self.now }
    {
        matches!(
            self.flat,
            Flat::NoMemory | Flat::NotAdmitted(AdmitFault::NoMemory)
        )
    }
}

/// Puts an answer.
#[inline(always)]
pub fn put_told<W: Sink>(out: &mut Printer, writer: &mut W, told: &Told)
    ensures { Puts (W.output writer.old) out.old (W.output writer.new) out.new (event_text told.now) }
{
    match &told.flat {
        Flat::Num(n) => put_num(out, writer, *n),
        Flat::Pid(pid) => put_pid(out, writer, *pid),
        Flat::Fds(read, write) => put_fds(out, writer, *read, *write),
        Flat::Bytes(bytes) => put_bytes_read(out, writer, bytes),
        Flat::Names(bytes) => put_names_read(out, writer, bytes),
        Flat::Meta(meta) => put_meta(out, writer, meta),
        Flat::Parked => out.put(writer, b"parked"),
        Flat::Err(errno) => put_error(out, writer, *errno),
        Flat::NoMemory => out.put(writer, b"nomem"),
        Flat::Gone => out.put(writer, b"gone"),
        Flat::Admitted(_) => out.put(writer, b"admitted"),
        Flat::NotAdmitted(fault) => put_admission(out, writer, *fault),
        Flat::Retired => out.put(writer, b"retired"),
        Flat::NotRetired(fault) => put_retirement(out, writer, *fault),
    }
}
