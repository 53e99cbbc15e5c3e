ghost use Rattle.std.specs.Prelude.{◌≡◌, ◌+◌, ◌≤◌, ◌<◌, ◌^◌, ◌++◌, length, IfOk, IfErr, OnOk};
ghost use Rattle.pf_script.specs.Judged.{Judges, IsOneLine};
ghost use Rattle.pf_script.specs.Faults.{IsRead, IsScriptFault};

use crate::fault::ScriptFault;
use crate::judge::Judge;
use crate::port::{CHUNK, INPUT_LIMIT, Source, read_some, room};
use crate::script::Script;
use bumpalo::Bump;
use bumpalo::collections::into_bump_slice;
use memchr::memchr;
use std::alloc::{AllocError, Global};

/// Places two parts in an arena, one behind the other.
fn place<'a>(arena: &'a Bump, front: &[u8], back: &[u8]) -> Result<&'a [u8], AllocError>
    ensures { IfOk result (λ text. text.now ≡ front.now ++ back.now) }
{
    let mut text = Vec::with_capacity(arena, front.len() + back.len())?;
    text.extend_from_slice(front)?;
    text.extend_from_slice(back)?;
    Ok(into_bump_slice(text))
}

/// Takes on what one read gave. `rest` is what is known of a line that hasn't ended.
///
/// Lines that end in `piece` are placed in an arena, the first of them with its front, judged there, and given up.
fn take_piece(
    alloc: Global,
    judge: &mut Judge,
    rest: &mut Vec<u8>,
    piece: &[u8],
) -> Result<(), AllocError>
    requires one_line { IsOneLine rest.old.items }
    requires few { judge.old.number + length rest.old.items + length piece.now < 2 ^ 64 }
    ensures judged { OnOk result (Judges judge.old (rest.old.items ++ piece.now) judge.new rest.new.items) }
    ensures one_line { OnOk result (IsOneLine rest.new.items) }
    ensures counted { OnOk result (judge.new.number + length rest.new.items
        ≤ judge.old.number + length rest.old.items + length piece.now) }
{
    if judge.has_refused() {
        return Ok(());
    }
    let Some(_) = memchr(b'\n', piece) else {
        rest.extend_from_slice(piece)?;
        return Ok(());
    };
    let arena = Bump::new(alloc);
    let text = place(&arena, rest.as_slice(), piece)?;
    let after = judge.take(alloc, text)?;
    rest.clear();
    rest.extend_from_slice(after)
}

/// Reads a script to its end, whatever its lines say: the first faulty line is told then.
///
/// The reader isn't asked for more than `INPUT_LIMIT` bytes and one, nor again after a read that failed.
pub fn read_script<R: Source>(alloc: Global, reader: &mut R) -> Result<Script, ScriptFault>
    ensures read { IfOk result (IsRead (R.input reader.old) (R.input reader.new)) }
    ensures fault { IfErr result (IsScriptFault (R.input reader.old) (R.input reader.new)) }
{
    let mut judge = Judge::new(alloc)?;
    let mut chunk = room(alloc)?;
    let mut rest = Vec::new(alloc);
    let mut count = 0;
    // Each answer but the last has a byte.
    for _ in 0..=INPUT_LIMIT {
        let wanted = CHUNK.min(INPUT_LIMIT + 1 - count);
        let (buffer, _) = chunk.split_at_mut(wanted);
        let Ok(piece) = read_some(reader, buffer) else {
            return Err(ScriptFault::ReadFault);
        };
        if piece.is_empty() {
            return judge.end(rest.as_slice());
        }
        count += piece.len();
        if count > INPUT_LIMIT {
            return Err(ScriptFault::ReadFault);
        }
        take_piece(alloc, &mut judge, &mut rest, piece)?;
    }
    unreachable!()
}
