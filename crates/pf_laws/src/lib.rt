//! Laws of the lone machine's definitions: of queues and transfers, of events, and of whole runs. These functions compute
//! nothing: their contracts are the laws.
#![tactic(auto)]

ghost use Rattle.pf_laws.specs.Laws.{PutAdds, TakeParts, TeeCopies, TransfersMove, AmpleKeepsAll, FilesStay};
ghost use Rattle.pf_laws.specs.Standing.{EndsApart, NumbersApart, OneFifoEach, RefusalsChangeNothing, reached};
ghost use Rattle.pf_laws.specs.Streams.{StreamLaw};

use pf_base::{Config, Step};

/// A put that fits adds exactly its bytes at the end of a queue, and the room falls by their number.
pub fn put_adds()
    ensures { PutAdds }
{}

/// What a take gives and what it leaves are what the queue held. While a byte is left the room grows by a page for each
/// segment that was emptied; otherwise it is that of all slots.
pub fn take_parts()
    ensures { TakeParts }
{}

/// A tee copies a front of a queue, at most the bytes asked for, to the end of another; a splice takes it away too.
pub fn tee_copies()
    ensures { TeeCopies }
{}

/// No transfer loses a byte or makes one up, and a write that is to be whole is.
pub fn transfers_move()
    ensures { TransfersMove }
{}

/// Where memory sufficed for all steps of a namespace, all of them are kept.
pub fn ample_keeps_all()
    ensures { AmpleKeepsAll }
{}

/// The files are a map of files at all times: each has a directory at its path without the last name, and they stand in
/// the order of their paths. At the opening there is the root alone.
pub fn files_stay()
    ensures { FilesStay }
{}

/// Whatever a list of steps does from the opening state: what was taken from a pipe, followed by what it holds,
/// is what was given to it; what a write gives stands in its order, and what a write of at most `PIPE_BUF` bytes
/// gives is one piece or none. The replies say so: a read, or the Resume of one, is told exactly the bytes that it took
/// out of the pipe, a splice how many; and a write, a tee or a splice that is told a number, by its own step or by the
/// last Resume, has given so many bytes in all, and none where it is told an error.
pub fn stream(config: &Config, steps: &[Step])
    ensures { StreamLaw config.now steps.now }
{
    let _config = config;
    let _steps = steps;
}

/// Wherever a list of steps leads from the opening state, a FIFO has one pipe at most, and an open of the FIFO finds
/// it.
pub fn one_fifo_each(config: &Config, steps: &[Step])
    ensures { OneFifoEach (reached config.now steps.now) }
{
    let _config = config;
    let _steps = steps;
}

/// Wherever a list of steps leads from the opening state, no two paths have files of one number, and the number that
/// the next file gets is no file's and no pipe's: so a FIFO that is made again has a pipe of its own.
pub fn numbers_apart(config: &Config, steps: &[Step])
    ensures { NumbersApart (reached config.now steps.now) }
{
    let _config = config;
    let _steps = steps;
}

/// Wherever a list of steps leads from the opening state, who reads and who writes a pipe are the live descriptions
/// for that side that some descriptor names, and the opens for it that are parked.
pub fn ends_apart(config: &Config, steps: &[Step])
    ensures { EndsApart (reached config.now steps.now) }
{
    let _config = config;
    let _steps = steps;
}

/// Wherever a list of steps leads from the opening state, a next step that is told an error leaves the state exactly
/// as it was. One such error is no refusal: EPIPE, told to the Resume of a process that waits in a call. It is the
/// reply to that call, which is over then, and nothing else changes.
pub fn refusals_change_nothing(config: &Config, steps: &[Step])
    ensures { RefusalsChangeNothing config.now (reached config.now steps.now) }
{
    let _config = config;
    let _steps = steps;
}
