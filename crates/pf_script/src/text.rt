ghost use Rattle.std.specs.Prelude.{◌≡◌, ◌≤◌, ◌<◌, [], decimal, length};
ghost use Rattle.pf_script.specs.Text.{hex_text, octal_text, kind_text, number_of_names, names_text, meta_text, reply_text, answer_text, event_text, header};
ghost use Rattle.pf_script.specs.Puts.{Puts};
ghost use Rattle.pf_base.specs.declared.admission.EventAnswer.TheVariants.{NotAdmitted, NotRetired};
ghost use Rattle.pf_base.specs.declared.step.Reply.TheVariants as replies;
ghost use Rattle.pf_script.specs.declared.text.TheConstants.{FEW, PIECE};
ghost use Rattle.hex.specs.Hex.{encode_lower};

use crate::digits::{BYTES, block_digits, last_block_digits};
use crate::port::Sink;
use crate::printer::Printer;
use arrayvec::ArrayVec;
use itoa::Buffer;
use memchr::memchr;
use pf_base::{
    AdmitFault, Answer, ByteString, Errno, EventAnswer, Kind, Meta, Mode, Reply, RetireFault,
};
use pf_words::cut_at;

/// How few bytes are turned into digits one by one.
const FEW: usize = 4;

/// How many bytes' digits are put at once.
const PIECE: usize = 64;

/// How many digits they have.
const PIECE_DIGITS: usize = 128;

/// Puts the digits of at most `PIECE` bytes, at once.
fn put_piece<W: Sink>(out: &mut Printer, writer: &mut W, bytes: &[u8])
    requires { length bytes.now ≤ PIECE }
    ensures { Puts (W.output writer.old) out.old (W.output writer.new) out.new (encode_lower bytes.now) }
{
    let mut digits: ArrayVec<u8, PIECE_DIGITS> = ArrayVec::new();
    let mut rest = bytes;
    while rest.len() >= BYTES {
        let (block, behind) = rest.split_at(BYTES);
        digits.try_extend_from_slice(&block_digits(block)).unwrap();
        rest = behind;
    }
    let last = last_block_digits(rest);
    digits
        .try_extend_from_slice(&last[..2 * rest.len()])
        .unwrap();
    out.put(writer, digits.as_slice());
}

/// Puts the digits of few bytes, one by one.
fn put_few<W: Sink>(out: &mut Printer, writer: &mut W, bytes: &[u8])
    requires { length bytes.now ≤ FEW }
    ensures { Puts (W.output writer.old) out.old (W.output writer.new) out.new (encode_lower bytes.now) }
{
    let mut digits = [0u8; 2 * FEW];
    let (room, _) = digits.split_at_mut(2 * bytes.len());
    match hex::encode_to_slice(bytes, room) {
        Ok(()) => out.put(writer, room),
        Err(_) => unreachable!(),
    }
}

/// Puts the digits of these bytes, in lower case.
fn put_digits<W: Sink>(out: &mut Printer, writer: &mut W, bytes: &[u8])
    ensures { Puts (W.output writer.old) out.old (W.output writer.new) out.new (encode_lower bytes.now) }
{
    if bytes.len() <= FEW {
        put_few(out, writer, bytes);
        return;
    }
    let mut rest = bytes;
    while rest.len() > PIECE {
        let (front, back) = rest.split_at(PIECE);
        put_piece(out, writer, front);
        rest = back;
    }
    put_piece(out, writer, rest)
}

/// Puts a number of one digit.
fn put_digit<W: Sink>(out: &mut Printer, writer: &mut W, n: u64)
    requires { n < 10 }
    ensures { Puts (W.output writer.old) out.old (W.output writer.new) out.new (decimal n) }
{
    out.put(writer, &[b'0' + n as u8]);
}

/// Puts a number of several digits.
fn put_large<W: Sink>(out: &mut Printer, writer: &mut W, n: u64)
    ensures { Puts (W.output writer.old) out.old (W.output writer.new) out.new (decimal n) }
{
    let mut buffer = Buffer::new();
    out.put(writer, buffer.format(n).as_bytes());
}

/// Puts a number in decimal.
#[inline(always)]
pub fn put_number<W: Sink>(out: &mut Printer, writer: &mut W, n: u64)
    ensures { Puts (W.output writer.old) out.old (W.output writer.new) out.new (decimal n) }
{
    // Most numbers have one digit.
    if n < 10 {
        put_digit(out, writer, n);
    } else {
        put_large(out, writer, n);
    }
}

/// Puts bytes in digits, or `-` for none.
fn put_bytes<W: Sink>(out: &mut Printer, writer: &mut W, bytes: &[u8])
    ensures { Puts (W.output writer.old) out.old (W.output writer.new) out.new (hex_text bytes.now) }
{
    match bytes {
        [] => out.put(writer, b"-"),
        [_, ..] => put_digits(out, writer, bytes),
    }
}

/// Puts each name after a space, where each has a slash behind it.
fn put_names<W: Sink>(out: &mut Printer, writer: &mut W, bytes: &[u8])
    ensures { Puts (W.output writer.old) out.old (W.output writer.new) out.new (names_text [] bytes.now) }
{
    let mut rest = bytes;
    while let Some(k) = memchr(b'/', rest) {
        let (name, after) = cut_at(rest, k);
        out.put(writer, b" ");
        out.put(writer, name);
        rest = after;
    }
}

/// How many names there are, where each has a slash behind it.
fn count_names(bytes: &[u8]) -> usize
    ensures { result ≡ number_of_names bytes.now }
{
    bytes.iter().filter(|byte| **byte == b'/').count()
}

/// Puts a mode in four octal digits.
fn put_mode<W: Sink>(out: &mut Printer, writer: &mut W, mode: Mode)
    ensures { Puts (W.output writer.old) out.old (W.output writer.new) out.new (octal_text mode) }
{
    let bits = mode.bits();
    let digits = [
        b'0' + (bits / 512 % 8) as u8,
        b'0' + (bits / 64 % 8) as u8,
        b'0' + (bits / 8 % 8) as u8,
        b'0' + (bits % 8) as u8,
    ];
    out.put(writer, &digits);
}

/// Puts the word for a kind of file.
fn put_kind<W: Sink>(out: &mut Printer, writer: &mut W, kind: Kind)
    ensures { Puts (W.output writer.old) out.old (W.output writer.new) out.new (kind_text kind) }
{
    match kind {
        Kind::Fifo => out.put(writer, b"fifo"),
        Kind::Directory => out.put(writer, b"dir"),
    }
}

/// Puts what is known of a file.
pub fn put_meta<W: Sink>(out: &mut Printer, writer: &mut W, meta: &Meta)
    ensures { Puts (W.output writer.old) out.old (W.output writer.new) out.new (meta_text meta.now) }
{
    out.put(writer, b"meta ");
    put_kind(out, writer, meta.kind);
    out.put(writer, b" ");
    put_mode(out, writer, meta.mode);
    out.put(writer, b" ");
    put_number(out, writer, u64::from(meta.uid));
    out.put(writer, b" ");
    put_number(out, writer, u64::from(meta.gid));
}

/// Puts a reply that is a number.
pub fn put_num<W: Sink>(out: &mut Printer, writer: &mut W, n: u64)
    ensures { Puts (W.output writer.old) out.old (W.output writer.new) out.new (reply_text (replies.Num n)) }
{
    out.put(writer, b"num ");
    put_number(out, writer, n);
}

/// Puts a reply that is a process.
pub fn put_pid<W: Sink>(out: &mut Printer, writer: &mut W, pid: u32)
    ensures { Puts (W.output writer.old) out.old (W.output writer.new) out.new (reply_text (replies.Pid pid)) }
{
    out.put(writer, b"pid ");
    put_number(out, writer, u64::from(pid));
}

/// Puts a reply that is a pipe's two descriptors.
pub fn put_fds<W: Sink>(out: &mut Printer, writer: &mut W, read: u32, write: u32)
    ensures { Puts (W.output writer.old) out.old (W.output writer.new) out.new (reply_text (replies.Fds read write)) }
{
    out.put(writer, b"fds ");
    put_number(out, writer, u64::from(read));
    out.put(writer, b" ");
    put_number(out, writer, u64::from(write));
}

/// Puts a reply that is what was read.
#[inline(always)]
pub fn put_bytes_read<W: Sink>(out: &mut Printer, writer: &mut W, bytes: &ByteString)
    ensures { Puts (W.output writer.old) out.old (W.output writer.new) out.new (reply_text (replies.Bytes bytes.now)) }
{
    let bytes = bytes.as_slice();
    out.put(writer, b"bytes ");
    put_number(out, writer, bytes.len() as u64);
    out.put(writer, b" ");
    put_bytes(out, writer, bytes);
}

/// Puts a reply that is the names in a directory.
pub fn put_names_read<W: Sink>(out: &mut Printer, writer: &mut W, bytes: &ByteString)
    ensures { Puts (W.output writer.old) out.old (W.output writer.new) out.new (reply_text (replies.Names bytes.now)) }
{
    let bytes = bytes.as_slice();
    out.put(writer, b"names ");
    put_number(out, writer, count_names(bytes) as u64);
    put_names(out, writer, bytes);
}

/// Puts a reply that is an error.
pub fn put_error<W: Sink>(out: &mut Printer, writer: &mut W, errno: Errno)
    ensures { Puts (W.output writer.old) out.old (W.output writer.new) out.new (reply_text (replies.Err errno)) }
{
    out.put(writer, b"err ");
    out.put(writer, errno.name().as_bytes());
}

fn put_reply<W: Sink>(out: &mut Printer, writer: &mut W, reply: &Reply)
    ensures { Puts (W.output writer.old) out.old (W.output writer.new) out.new (reply_text reply.now) }
{
    match reply {
        Reply::Num(n) => put_num(out, writer, *n),
        Reply::Pid(pid) => put_pid(out, writer, *pid),
        Reply::Fds(read, write) => put_fds(out, writer, *read, *write),
        Reply::Bytes(bytes) => put_bytes_read(out, writer, bytes),
        Reply::Names(bytes) => put_names_read(out, writer, bytes),
        Reply::Meta(meta) => put_meta(out, writer, meta),
        Reply::Parked => out.put(writer, b"parked"),
        Reply::Err(errno) => put_error(out, writer, *errno),
    }
}

fn put_answer<W: Sink>(out: &mut Printer, writer: &mut W, answer: &Answer)
    ensures { Puts (W.output writer.old) out.old (W.output writer.new) out.new (answer_text answer.now) }
{
    match answer {
        Answer::Done(reply) => put_reply(out, writer, reply),
        Answer::NoMemory => out.put(writer, b"nomem"),
    }
}

/// Puts why a namespace isn't admitted.
pub fn put_admission<W: Sink>(out: &mut Printer, writer: &mut W, fault: AdmitFault)
    ensures { Puts (W.output writer.old) out.old (W.output writer.new) out.new
        (event_text (NotAdmitted fault)) }
{
    match fault {
        AdmitFault::NoRoom { slack } => {
            out.put(writer, b"no room ");
            put_number(out, writer, u64::from(slack));
        }
        AdmitFault::TooManyNamespaces => out.put(writer, b"too many namespaces"),
        AdmitFault::NoMemory => out.put(writer, b"nomem"),
    }
}

/// Puts why a namespace isn't retired.
pub fn put_retirement<W: Sink>(out: &mut Printer, writer: &mut W, fault: RetireFault)
    ensures { Puts (W.output writer.old) out.old (W.output writer.new) out.new
        (event_text (NotRetired fault)) }
{
    match fault {
        RetireFault::NoSuchNamespace => out.put(writer, b"gone"),
        RetireFault::Alive { processes } => {
            out.put(writer, b"alive ");
            put_number(out, writer, u64::from(processes));
        }
    }
}

/// Puts an answer.
pub fn put_event<W: Sink>(out: &mut Printer, writer: &mut W, answer: &EventAnswer)
    ensures { Puts (W.output writer.old) out.old (W.output writer.new) out.new (event_text answer.now) }
{
    match answer {
        EventAnswer::Answer(answer) => put_answer(out, writer, answer),
        EventAnswer::Gone => out.put(writer, b"gone"),
        EventAnswer::Admitted(_) => out.put(writer, b"admitted"),
        EventAnswer::NotAdmitted(fault) => put_admission(out, writer, *fault),
        EventAnswer::Retired => out.put(writer, b"retired"),
        EventAnswer::NotRetired(fault) => put_retirement(out, writer, *fault),
    }
}

/// Puts a namespace's header.
pub fn put_header<W: Sink>(out: &mut Printer, writer: &mut W, name: &[u8])
    ensures { Puts (W.output writer.old) out.old (W.output writer.new) out.new (header name.now) }
{
    out.put(writer, b"== ");
    out.put(writer, name);
    out.put(writer, b"\n");
}
