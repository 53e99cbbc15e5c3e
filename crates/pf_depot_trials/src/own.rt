//! A depot of one's own, and the loans of two namespaces.

ghost use Rattle.std.specs.Prelude.{◌≡◌, ◌+◌, ◌<◌, ◌≤◌, [], ◌∷◌};
ghost use Rattle.pf_frame.specs.Live.{IsIdle};
ghost use Rattle.pf_depot.specs.AllLoans.{AreIdle};
ghost use Rattle.pf_depot.specs.Door.{IsCovered};
ghost use Rattle.pf_depot.specs.Loans.{loans_live};

use crate::borrowing::{OLD, borrow_from, old_frames};
use pf_depot::{Depot, Lender, LoanDoor, Loans, PoolFault};
use pf_frame::{Frame, FrameNo, Frames};
use std::test::Fail;

// The loans of two namespaces with the same reservation.
fn pair(loans: Vec<Loans>, reserve: u32) -> (Loans, Loans)
    requires { AreIdle loans.items (reserve ∷ reserve ∷ []) }
    ensures first { IsIdle reserve (loans_live result.0) }
    ensures second { IsIdle reserve (loans_live result.1) }
{
    let mut loans = loans;
    let second = loans.pop().unwrap();
    let first = loans.pop().unwrap();
    (first, second)
}

#[test]
fn faults_come_in_order(rt: HostRuntime) -> Result<(), Fail> {
    let alloc = rt.alloc();
    let made = Depot::new(
        alloc,
        old_frames(alloc, 0)?,
        Vec::from_elem(alloc, 1u32, 65)?,
    );
    assert_eq!(rt; made.err(), Some(PoolFault::TooManyNamespaces));
    let made = Depot::new(
        alloc,
        old_frames(alloc, 65_537)?,
        Vec::from_elem(alloc, 1u32, 64)?,
    );
    assert_eq!(rt; made.err(), Some(PoolFault::TooManyFrames));
    let made = Depot::new(
        alloc,
        old_frames(alloc, 32)?,
        Vec::from_slice(alloc, &[16, 17])?,
    );
    assert_eq!(rt;
        made.err(),
        Some(PoolFault::ReservesExceed {
            sum: 33,
            frames: 32
        })
    );
    Ok(())
}

#[test]
fn frames_pass_between_tenants(rt: HostRuntime) -> Result<(), Fail> {
    let alloc = rt.alloc();
    let reserves = Vec::from_slice(alloc, &[2, 2])?;
    let (mut depot, loans) = Depot::new(alloc, old_frames(alloc, 4)?, reserves)?;
    let (mut first, mut second) = pair(loans, 2);
    for round in 0..100u8 {
        assert!(rt; borrow_from(&mut depot, &mut first, round, false));
        assert!(rt; borrow_from(&mut depot, &mut second, round, false));
    }
    assert_eq!(rt; depot.free(), 4);
    assert_eq!(rt; (first.held(), second.held()), (0, 0));
    Ok(())
}

// What a frame shows at its end.
fn shown<D: Lender>(lender: &mut D, loans: &mut Loans, no: FrameNo) -> u8
    requires fact { D.fact lender.old }
    requires covered { IsCovered (loans_live loans.old) (D.ready lender.old) (D.out lender.old) }
    requires is_live { 0 < (loans_live loans.old).count no }
    ensures lender { lender.new ≡ lender.old }
    ensures loans { loans.new ≡ loans.old }
{
    let door = LoanDoor::new(lender, loans);
    match door.view(no, 4095, 1).first() {
        Some(byte) => *byte,
        None => 0,
    }
}

// Lends a frame to each of two namespaces, and takes both back. Says what they showed.
fn lend_to_both<D: Lender>(lender: &mut D, first: &mut Loans, second: &mut Loans) -> (u8, u8)
    requires fact { D.fact lender.old }
    requires ready { 2 ≤ D.ready lender.old }
    requires first { IsIdle 1 (loans_live first.old) }
    requires second { IsIdle 1 (loans_live second.old) }
    ensures fact { D.fact lender.new }
    ensures ready { D.ready lender.new ≡ D.ready lender.old }
    ensures first { IsIdle 1 (loans_live first.new) }
    ensures second { IsIdle 1 (loans_live second.new) }
{
    let ours = lender.take(first);
    let theirs = lender.take(second);
    let bytes = (shown(lender, first, ours), shown(lender, second, theirs));
    lender.give(first, ours);
    lender.give(second, theirs);
    bytes
}

#[test]
fn every_frame_passes_through_every_tenant(rt: HostRuntime) -> Result<(), Fail> {
    let alloc = rt.alloc();
    let mut frames = Vec::with_capacity(alloc, 2)?;
    frames.push_reserved(Frame::filled(alloc, 1)?);
    frames.push_reserved(Frame::filled(alloc, 2)?);
    let reserves = Vec::from_slice(alloc, &[1, 1])?;
    let (mut depot, loans) = Depot::new(alloc, frames, reserves)?;
    let (mut first, mut second) = pair(loans, 1);
    let (ours, theirs) = lend_to_both(&mut depot, &mut first, &mut second);
    assert_eq!(rt; ours | theirs, 3);
    // each gets the frame that the other had
    let again = lend_to_both(&mut depot, &mut first, &mut second);
    assert_eq!(rt; again, (theirs, ours));
    assert_eq!(rt; depot.free(), 2);
    Ok(())
}

#[test]
fn a_shared_frame_is_held_until_its_last_release(rt: HostRuntime) -> Result<(), Fail> {
    let alloc = rt.alloc();
    let reserves = Vec::from_slice(alloc, &[2, 2])?;
    let (mut depot, loans) = Depot::new(alloc, old_frames(alloc, 4)?, reserves)?;
    let (mut first, mut second) = pair(loans, 2);
    let theirs = LoanDoor::new(&mut depot, &mut second).take();
    assert_eq!(rt; (second.held(), depot.free()), (1, 3));

    let mut door = LoanDoor::new(&mut depot, &mut first);
    assert_eq!(rt; door.credits(), 2);
    let ours = door.take();
    door.fill(ours, 1, &[7]);
    door.share(ours);
    assert_eq!(rt; door.credits(), 1);
    door.release(ours);
    assert_eq!(rt; door.view(ours, 0, 3), [OLD, 7, OLD].as_slice());
    assert_eq!(rt; (first.held(), depot.free()), (1, 2));
    LoanDoor::new(&mut depot, &mut first).release(ours);
    assert_eq!(rt; (first.held(), depot.free()), (0, 3));

    assert_eq!(rt; second.held(), 1);
    LoanDoor::new(&mut depot, &mut second).release(theirs);
    assert_eq!(rt; (second.held(), depot.free()), (0, 4));
    Ok(())
}
