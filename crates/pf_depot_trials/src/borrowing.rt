//! Frames that are taken through a door, written to, looked at, and given back.

ghost use Rattle.std.specs.Prelude.{◌≡◌, ◌+◌, ◌-◌, length, IfOk};
ghost use Rattle.pf_depot.specs.Door.{IsCovered};
ghost use Rattle.pf_depot.specs.Loans.{loans_live};

use pf_depot::{Lender, LoanDoor, Loans};
use pf_frame::{Frame, Frames};
use std::alloc::{AllocError, Global};

// What the frames hold before anyone writes to them.
pub(crate) const OLD: u8 = 0xA5;

pub(crate) fn old_frames(alloc: Global, count: usize) -> Result<Vec<Frame>, AllocError>
    ensures { IfOk result (λ frames. length frames.items ≡ count) }
{
    let mut frames = Vec::with_capacity(alloc, count)?;
    for _ in 0..count {
        frames.push_reserved(Frame::filled(alloc, OLD)?);
    }
    Ok(frames)
}

// Takes two frames, if there are credits for them, writes to both, and keeps them or gives them back. Says whether they
// showed what was written, and elsewhere what they held from the start: no frame is cleared, nor another in its place.
fn borrow_two<F: Frames>(frames: &mut F, byte: u8, is_kept: bool) -> bool
    requires { F.fact frames.old }
    ensures fact { F.fact frames.new }
    ensures rest { F.rest frames.new ≡ F.rest frames.old }
{
    if frames.credits() < 2 {
        return false;
    }
    let first = frames.take();
    frames.fill(first, 100, &[byte; 3]);
    let right = frames.view(first, 100, 3) == [byte; 3].as_slice()
        && frames.view(first, 4_095, 1) == [OLD].as_slice();
    let second = frames.take();
    let right = right && frames.view(second, 4_095, 1) == [OLD].as_slice();
    frames.fill(second, 0, &[byte]);
    if !is_kept {
        frames.release(second);
        frames.release(first);
    }
    right
}

// The same over loans, by any lender.
pub(crate) fn borrow_from<D: Lender>(
    lender: &mut D,
    loans: &mut Loans,
    byte: u8,
    is_kept: bool,
) -> bool
    requires fact { D.fact lender.old }
    requires covered { IsCovered (loans_live loans.old) (D.ready lender.old) (D.out lender.old) }
    ensures fact { D.fact lender.new }
    ensures covered { IsCovered (loans_live loans.new) (D.ready lender.new) (D.out lender.new) }
    ensures rest { D.rest lender.new ≡ D.rest lender.old }
    ensures reserved { (loans_live loans.new).reserved ≡ (loans_live loans.old).reserved }
    ensures spare { D.ready lender.new + (loans_live loans.new).held
        ≡ D.ready lender.old + (loans_live loans.old).held }
    ensures owed { D.out lender.new - (loans_live loans.new).held
        ≡ D.out lender.old - (loans_live loans.old).held }
{
    let mut door = LoanDoor::new(lender, loans);
    borrow_two(&mut door, byte, is_kept)
}
