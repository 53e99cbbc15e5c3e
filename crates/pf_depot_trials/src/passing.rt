//! Namespaces that come and go at a depot of one's own.

ghost use Rattle.std.specs.Prelude.{◌≡◌, IfSome};

use crate::borrowing::{borrow_from, old_frames};
use pf_base::AdmitFault;
use pf_depot::{Depot, LoanDoor};
use pf_frame::Frames;
use std::test::Fail;

const PAGE: usize = 4096;

#[test]
fn one_is_admitted_after_the_opening(rt: HostRuntime) -> Result<(), Fail> {
    let alloc = rt.alloc();
    let reserves = Vec::from_slice(alloc, &[2])?;
    let (mut depot, _) = Depot::new(alloc, old_frames(alloc, 4)?, reserves)?;
    assert_eq!(rt; (depot.free(), depot.slack()), (4, 2));
    let mut loans = depot.admit(2)?;
    assert_eq!(rt; (depot.free(), depot.slack(), loans.held()), (4, 0, 0));
    assert!(rt; borrow_from(&mut depot, &mut loans, 7, true));
    assert_eq!(rt; (depot.free(), depot.slack(), loans.held()), (2, 0, 2));
    Ok(())
}

#[test]
fn no_room_is_told_from_the_first_frame_above_the_slack(rt: HostRuntime) -> Result<(), Fail> {
    let alloc = rt.alloc();
    let reserves = Vec::from_slice(alloc, &[2])?;
    let (mut depot, _) = Depot::new(alloc, old_frames(alloc, 5)?, reserves)?;
    assert_eq!(rt; depot.admit(4).err(), Some(AdmitFault::NoRoom { slack: 3 }));
    assert_eq!(rt; (depot.free(), depot.slack()), (5, 3));
    let loans = depot.admit(3)?;
    assert_eq!(rt; depot.admit(1).err(), Some(AdmitFault::NoRoom { slack: 0 }));
    let none = depot.admit(0)?;
    depot.retire(loans);
    depot.retire(none);
    assert_eq!(rt; (depot.free(), depot.slack()), (5, 3));
    assert!(rt; depot.admit(3).is_ok());
    Ok(())
}

#[test]
fn a_thousand_come_and_go(rt: HostRuntime) -> Result<(), Fail> {
    let alloc = rt.alloc();
    let (mut depot, _) = Depot::new(alloc, old_frames(alloc, 3)?, Vec::new(alloc))?;
    for round in 0..1_024u32 {
        let mut loans = depot.admit(2)?;
        assert!(rt; borrow_from(&mut depot, &mut loans, (round % 256) as u8, false));
        assert!(rt; loans.held() == 0);
        depot.retire(loans);
    }
    assert_eq!(rt; (depot.free(), depot.slack()), (3, 3));
    Ok(())
}

// Takes a frame, fills all of it with one byte, and gives it back. Says whether it showed nothing else.
fn fill_whole<F: Frames>(frames: &mut F, byte: u8) -> bool
    requires { F.fact frames.old }
    ensures fact { F.fact frames.new }
    ensures rest { F.rest frames.new ≡ F.rest frames.old }
{
    if frames.credits() == 0 {
        return false;
    }
    let no = frames.take();
    frames.fill(no, 0, &[byte; PAGE]);
    let whole = frames.view(no, 0, PAGE) == [byte; PAGE].as_slice();
    frames.release(no);
    whole
}

// Takes a frame, whatever it holds, puts one byte there, and gives it back. Says what the byte's place showed.
fn put_one<F: Frames>(frames: &mut F, byte: u8) -> Option<u8>
    requires { F.fact frames.old }
    ensures fact { F.fact frames.new }
    ensures rest { F.rest frames.new ≡ F.rest frames.old }
    ensures shown { IfSome result (λ shown. shown ≡ byte) }
{
    if frames.credits() == 0 {
        return None;
    }
    let no = frames.take();
    frames.fill(no, 0, &[byte]);
    let shown = frames.view(no, 0, 1).first().copied();
    frames.release(no);
    shown
}

#[test]
fn who_comes_sees_its_own_bytes_in_a_frame_of_one_who_went(rt: HostRuntime) -> Result<(), Fail> {
    let alloc = rt.alloc();
    let (mut depot, _) = Depot::new(alloc, old_frames(alloc, 1)?, Vec::new(alloc))?;
    let mut red = depot.admit(1)?;
    assert!(rt; fill_whole(&mut LoanDoor::new(&mut depot, &mut red), 0x61));
    assert!(rt; red.held() == 0);
    depot.retire(red);
    let mut blue = depot.admit(1)?;
    assert_eq!(rt;
        put_one(&mut LoanDoor::new(&mut depot, &mut blue), 0x7A),
        Some(0x7A)
    );
    assert_eq!(rt; (depot.free(), blue.held()), (1, 0));
    Ok(())
}
