//! A pipe and a ring over frames of their own, and a window. What pipes do with their rings stands in the tables of
//! `pfplay_trials`.

use pf_base::{Progress, Side};
use pf_frame::{Frame, Frames, OwnFrames};
use pf_pipe::Pipe;
use pf_ring::{SlotRing, Window};
use std::test::Fail;

#[test]
fn a_window_has_room_behind_its_end(rt: HostRuntime) {
    for (grows, room) in [(true, 4080), (false, 0)] {
        let window = Window {
            frame: 0,
            from: 10,
            len: 6,
            grows,
        };
        assert!(rt; window.room() == room);
    }
}

#[test]
fn ends_are_counted_by_their_side(rt: HostRuntime) -> Result<(), Fail> {
    let mut pipe = Pipe::new(rt.alloc(), 1, 1000, None)?;
    assert!(rt; !pipe.is_open() && pipe.owner() == 1000);
    pipe.add_end(Side::Write);
    assert!(rt; (pipe.readers(), pipe.writers()) == (0, 1));
    pipe.add_end(Side::Read);
    pipe.add_end(Side::Read);
    assert!(rt; (pipe.readers(), pipe.writers()) == (2, 1));
    pipe.drop_end(Side::Read);
    pipe.drop_end(Side::Write);
    assert!(rt; (pipe.readers(), pipe.writers()) == (1, 0));
    assert!(rt; pipe.is_open());
    Ok(())
}

#[test]
fn a_pipe_by_itself(rt: HostRuntime) -> Result<(), Fail> {
    let mut frames = OwnFrames::new(
        rt.alloc(),
        Vec::from_array(rt.alloc(), [Frame::filled(rt.alloc(), 165)?])?,
    )?;
    let mut pipe = Pipe::new(rt.alloc(), 1, 1000, None)?;
    pipe.add_end(Side::Read);
    pipe.add_end(Side::Write);
    let mut buffer = *b"....";
    assert!(rt; pipe.read_now(&mut frames, &mut buffer) == Progress::WouldBlock);
    assert!(rt; frames.credits() == 1);
    let written = pipe.write_now(&mut frames, b"hello", true);
    assert!(rt; written == Progress::Moved(5));
    assert!(rt; (pipe.used(), pipe.len(), pipe.room()) == (1, 5, 4091));
    assert!(rt; frames.credits() == 0);
    Ok(())
}

#[test]
fn a_ring_by_itself(rt: HostRuntime) -> Result<(), Fail> {
    let mut frames = OwnFrames::new(
        rt.alloc(),
        Vec::from_array(rt.alloc(), [Frame::filled(rt.alloc(), 165)?])?,
    )?;
    let mut ring = SlotRing::new(rt.alloc(), 1)?;
    let mut buffer = *b"....";
    assert!(rt; ring.take_into(&mut frames, &mut buffer) == 0);
    assert!(rt; (ring.slots(), ring.used(), ring.room()) == (1, 0, 4096));
    Ok(())
}
