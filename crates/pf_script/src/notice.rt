ghost use Rattle.std.specs.Prelude.{OnOk, OnErr};
ghost use Rattle.pf_script.specs.Ports.{IsWritten, IsCut};
ghost use Rattle.pf_script.specs.Puts.{Puts};
ghost use Rattle.pf_words.specs.Causes.{cause_text};
ghost use Rattle.pf_script.specs.Notices.{refusal_text, notice_text, notice_line};

use crate::port::{Sink, WriteFault};
use crate::printer::Printer;
use crate::refusal::Refusal;
use crate::text::put_number;
use pf_words::Cause;

/// Why there is no text, which a user is told in a line.
#[derive(Debug, Clone, Copy)]
pub enum Notice<'a> {
    /// The script is refused: `line K: CAUSE`.
    Refused(Refusal),
    /// No namespace of the script has this name: `no namespace NAME`.
    NoNamespace(&'a str),
    /// A growth of memory was refused: `no memory`.
    NoMemory,
    /// The script couldn't be read to its end: `read fault`.
    ReadFault,
}

/// Puts what is wrong with a line.
fn put_cause<W: Sink>(out: &mut Printer, writer: &mut W, cause: Cause)
    ensures { Puts (W.output writer.old) out.old (W.output writer.new) out.new (cause_text cause) }
{
    match cause {
        Cause::ReservationsExceed { sum, frames } => {
            out.put(writer, cause.words().as_bytes());
            out.put(writer, b" ");
            put_number(out, writer, sum);
            out.put(writer, b" exceed pool ");
            put_number(out, writer, u64::from(frames));
        }
        _ => out.put(writer, cause.words().as_bytes()),
    }
}

/// Puts which line is faulty, and what is wrong with it.
fn put_refusal<W: Sink>(out: &mut Printer, writer: &mut W, refusal: Refusal)
    ensures { Puts (W.output writer.old) out.old (W.output writer.new) out.new (refusal_text refusal) }
{
    out.put(writer, b"line ");
    put_number(out, writer, refusal.line);
    out.put(writer, b": ");
    put_cause(out, writer, refusal.cause);
}

/// Puts why there is no text.
fn put_notice<W: Sink>(out: &mut Printer, writer: &mut W, notice: &Notice<'_>)
    ensures { Puts (W.output writer.old) out.old (W.output writer.new) out.new (notice_text notice.now) }
{
    match notice {
        Notice::Refused(refusal) => put_refusal(out, writer, *refusal),
        Notice::NoNamespace(name) => {
            out.put(writer, b"no namespace ");
            out.put(writer, name.as_bytes());
        }
        Notice::NoMemory => out.put(writer, b"no memory"),
        Notice::ReadFault => out.put(writer, b"read fault"),
    }
}

/// Puts the whole line.
fn put_notice_line<W: Sink>(out: &mut Printer, writer: &mut W, notice: &Notice<'_>)
    ensures { Puts (W.output writer.old) out.old (W.output writer.new) out.new (notice_line notice.now) }
{
    put_notice(out, writer, notice);
    out.put(writer, b"\n");
}

/// Prints a line that says why there is no text. No memory is taken, and the writer isn't asked again after a write
/// that was refused.
pub fn print_notice<W: Sink>(writer: &mut W, notice: &Notice<'_>) -> Result<(), WriteFault>
    ensures written { OnOk result
        (IsWritten (W.output writer.old) (W.output writer.new) (notice_line notice.now)) }
    ensures cut { OnErr result (IsCut (W.output writer.old) (W.output writer.new) (notice_line notice.now)) }
{
    let mut out = Printer::new();
    put_notice_line(&mut out, writer, notice);
    out.finish(writer)
}
