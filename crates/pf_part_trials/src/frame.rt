use pf_base::PAGE_SIZE;
use pf_frame::{Frame, Frames, OwnFrames};
use std::alloc::{AllocError, Global};
use std::test::Fail;

// What the frames hold before anyone writes to them.
const OLD: u8 = 0xA5;

// Two frames.
fn own_frames(alloc: Global) -> Result<OwnFrames, AllocError> {
    let frames = [Frame::filled(alloc, OLD)?, Frame::filled(alloc, OLD)?];
    OwnFrames::new(alloc, Vec::from_array(alloc, frames)?)
}

#[test]
fn frames_hold_their_bytes(rt: HostRuntime) -> Result<(), Fail> {
    let frame = Frame::filled(rt.alloc(), OLD)?;
    assert!(rt; frame.view(4094, 2) == [OLD, OLD].as_slice());
    let frame = Frame::new(Vec::from_elem(rt.alloc(), 3u8, PAGE_SIZE)?);
    assert!(rt; frame.view(0, 2) == [3, 3].as_slice());
    Ok(())
}

#[test]
fn own_frames_serve_their_namespace(rt: HostRuntime) -> Result<(), Fail> {
    let mut own = own_frames(rt.alloc())?;
    assert!(rt; own.credits() == 2);
    let no = own.take();
    own.fill(no, 1, &[7, 8]);
    assert!(rt; own.view(no, 0, 4) == [OLD, 7, 8, OLD].as_slice());
    assert!(rt; own.credits() == 1);
    let last = own.take();
    own.fill(last, 4095, &[9]);
    assert!(rt; own.view(last, 4093, 3) == [OLD, OLD, 9].as_slice());
    assert!(rt; own.credits() == 0);
    own.release(last);
    assert!(rt; own.credits() == 1);
    Ok(())
}

#[test]
fn a_shared_frame_stays_until_its_last_release(rt: HostRuntime) -> Result<(), Fail> {
    let mut own = own_frames(rt.alloc())?;
    assert!(rt; own.credits() == 2);
    let no = own.take();
    own.fill(no, 0, &[7]);
    own.share(no);
    assert!(rt; own.credits() == 1);
    own.release(no);
    assert!(rt; own.credits() == 1);
    own.fill(no, 1, &[8]);
    assert!(rt; own.view(no, 0, 3) == [7u8, 8, OLD].as_slice());
    own.release(no);
    assert!(rt; own.credits() == 2);
    Ok(())
}
