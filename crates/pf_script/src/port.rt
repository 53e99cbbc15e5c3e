ghost use Rattle.std.specs.Prelude.{◌≡◌, ◌≤◌, ◌<◌, ◌+◌, length, drop, IfOk, OnOk, OnErr, vec_len};
ghost use Rattle.std.specs.Io.KnownBytes.{Consumes, Keeps, IsAtEnd};
ghost use Rattle.pf_script.specs.Ports.{one_more, IsWritten, IsCut};

use std::alloc::{AllocError, Global};

/// The most bytes that an input may have.
pub const INPUT_LIMIT: usize = 67_108_864;

/// How many bytes a reader is asked for at once.
pub const CHUNK: usize = 65_536;

/// A read or a write that failed.
#[derive(Debug, Clone, Copy, Drop)]
pub struct Failed;

/// What a script is read from. Unlike `std::io::Read` it tells a contract which reads failed.
pub trait Source {
    ghost use Rattle.std.specs.Io.KnownBytes.{ReadConsumes};
    ghost use Rattle.pf_script.specs.Ports.{Input, CountsRead};

    // The bytes that reads will give, where they are known, and how many reads failed.
    ghost input: { Self → Input };

    /// Reads some bytes into the front of `buffer`, none only at the end or where there is no room.
    fn read(&mut self, buffer: &mut [u8]) -> Result<usize, Failed>
        ensures bound { IfOk result (λ n. n ≤ length buffer.new) }
        ensures bytes { ReadConsumes (input self.old).remaining (input self.new).remaining result buffer.new }
        ensures failures { CountsRead (input self.old).failures (input self.new).failures result };
}

/// What a text is written to. Unlike `std::io::Write` it tells a contract which writes failed.
pub trait Sink {
    ghost use Rattle.std.specs.Io.KnownBytes.{WriteAppends};
    ghost use Rattle.pf_script.specs.Ports.{Output, CountsWrite};

    // The bytes that it holds, where they are known, and how many writes failed, or took none of some bytes.
    ghost output: { Self → Output };

    /// Takes some bytes from the front of `bytes`.
    fn write(&mut self, bytes: &[u8]) -> Result<usize, Failed>
        ensures bound { IfOk result (λ n. n ≤ length bytes.now) }
        ensures bytes { WriteAppends (output self.old).contents (output self.new).contents result bytes.now }
        ensures refusals { CountsWrite (output self.old).refusals (output self.new).refusals
            result bytes.now };
}

/// A write that failed, or took none of some bytes.
#[derive(Debug, Clone, Copy, Drop)]
pub struct WriteFault;

/// Room for what is read at once.
pub fn room(alloc: Global) -> Result<Vec<u8>, AllocError>
    ensures { IfOk result (λ v. vec_len v ≡ CHUNK) }
{
    vec![in alloc; 0u8; CHUNK]
}

/// What one read gives, none only at the end or where there is no room.
pub fn read_some<'a, R: Source>(reader: &mut R, buffer: &'a mut [u8]) -> Result<&'a [u8], Failed>
    ensures bound { IfOk result (λ piece. length piece.now ≤ length buffer.old) }
    ensures bytes { IfOk result (λ piece.
        Consumes (R.input reader.old).remaining (R.input reader.new).remaining piece.now) }
    ensures end { IfOk result (λ piece.
        length piece.now ≡ 0 → 0 < length buffer.old → IsAtEnd (R.input reader.new).remaining) }
    ensures kept { OnErr result (Keeps (R.input reader.old).remaining (R.input reader.new).remaining) }
    ensures sound { OnOk result ((R.input reader.new).failures ≡ (R.input reader.old).failures) }
    ensures failed { OnErr result ((R.input reader.new).failures ≡ one_more (R.input reader.old).failures) }
{
    let n = reader.read(buffer)?;
    let (piece, _) = buffer.split_at(n);
    Ok(piece)
}

/// What is behind the first `n` bytes.
fn after(bytes: &[u8], n: usize) -> &[u8]
    requires { n ≤ length bytes.now }
    ensures rest { result.now ≡ drop n bytes.now }
    ensures len { length result.now + n ≡ length bytes.now }
{
    let (_, rest) = bytes.split_at(n);
    rest
}

/// Writes all these bytes. The writer isn't asked again after a write that was refused.
pub fn write_out<W: Sink>(writer: &mut W, bytes: &[u8]) -> Result<(), WriteFault>
    ensures written { OnOk result (IsWritten (W.output writer.old) (W.output writer.new) bytes.now) }
    ensures cut { OnErr result (IsCut (W.output writer.old) (W.output writer.new) bytes.now) }
{
    let mut rest = bytes;
    while !rest.is_empty() {
        let Ok(n) = writer.write(rest) else {
            return Err(WriteFault);
        };
        if n == 0 {
            return Err(WriteFault);
        }
        rest = after(rest, n);
    }
    Ok(())
}
