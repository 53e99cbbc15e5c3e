ghost use Rattle.std.specs.Prelude.{◌≡◌, length, IfOk, IfSome};
ghost use Rattle.pf_pool.specs.Pool.{namespaces_of, pool_live};

use pf_frame::{Frame, FrameNo, Frames, PoolFault};
use pf_pool::FramePool;
use std::alloc::{AllocError, Global};
use std::test::Fail;

// What the frames hold before anyone writes to them.
const OLD: u8 = 0xA5;

fn old_frames(alloc: Global, count: usize) -> Result<Vec<Frame>, AllocError> {
    let mut frames = Vec::with_capacity(alloc, count)?;
    for _ in 0..count {
        frames.push(Frame::filled(alloc, OLD)?)?;
    }
    Ok(frames)
}

// A pool of so many frames, with these reservations.
fn pool_of(alloc: Global, count: usize, reserves: &[u32]) -> Result<FramePool, PoolFault>
    ensures { IfOk result (λ pool. namespaces_of pool ≡ length reserves.now) }
{
    let Ok(frames) = old_frames(alloc, count) else {
        return Err(PoolFault::NoMemory);
    };
    let Ok(reserves) = Vec::from_slice(alloc, reserves) else {
        return Err(PoolFault::NoMemory);
    };
    FramePool::new(alloc, frames, reserves)
}

// How many frames, which reservations, and why there is no pool of both.
const REFUSED: [(usize, &[u32], PoolFault); 3] = [
    (0, &[1; 65], PoolFault::TooManyNamespaces),
    (65_537, &[1; 64], PoolFault::TooManyFrames),
    (
        32,
        &[16, 17],
        PoolFault::ReservesExceed {
            sum: 33,
            frames: 32,
        },
    ),
];

#[test]
fn pool_faults_come_in_order(rt: HostRuntime) {
    for (count, reserves, fault) in REFUSED {
        let told = pool_of(rt.alloc(), count, reserves).err();
        assert!(rt; told == Some(fault), "{fault}");
    }
}

// What is said of a refusal.
const TEXTS: [(PoolFault, &str); 5] = [
    (
        PoolFault::TooManyNamespaces,
        "there are more than 64 reservations",
    ),
    (PoolFault::TooManyFrames, "there are more than 65536 frames"),
    (
        PoolFault::ReservesExceed {
            sum: 33,
            frames: 32,
        },
        "33 frames are reserved, of 32",
    ),
    (
        PoolFault::ReservesExceed {
            sum: 65_537,
            frames: 0,
        },
        "65537 frames are reserved, of 0",
    ),
    (PoolFault::NoMemory, "out of memory"),
];

#[test]
fn pool_faults_have_their_texts(rt: HostRuntime) -> Result<(), Fail> {
    for (fault, text) in TEXTS {
        assert!(rt; format!(in rt.alloc(); "{fault}")?.as_str() == text);
    }
    Ok(())
}

// Takes two frames, if there are credits for them, writes to both, and gives them back. Says whether they showed
// what was written.
fn borrow_two<F: Frames>(frames: &mut F, byte: u8) -> bool
    requires { F.fact frames.old }
    ensures fact { F.fact frames.new }
    ensures rest { F.rest frames.new ≡ F.rest frames.old }
{
    if frames.credits() < 2 {
        return false;
    }
    let first = frames.take();
    frames.fill(first, 100, &[byte; 3]);
    let right = frames.view(first, 100, 3) == [byte; 3].as_slice();
    let second = frames.take();
    frames.fill(second, 0, &[byte]);
    frames.release(second);
    frames.release(first);
    right
}

// Each of two namespaces borrows two frames, in turn and many times. Says whether all showed what was written.
fn borrow_in_turn(pool: &mut FramePool) -> bool
    requires { namespaces_of pool.old ≡ 2 }
    ensures { namespaces_of pool.new ≡ 2 }
{
    for round in 0..100u8 {
        if !borrow_two(&mut pool.door(0), round) || !borrow_two(&mut pool.door(1), round) {
            return false;
        }
    }
    true
}

// Takes a frame, if there is a credit for it, and writes a byte to it.
fn take_one<F: Frames>(frames: &mut F, byte: u8) -> Option<FrameNo>
    requires { F.fact frames.old }
    ensures fact { F.fact frames.new }
    ensures rest { F.rest frames.new ≡ F.rest frames.old }
    ensures taken { IfSome result (λ no. (F.live frames.new).count no ≡ 1) }
{
    if frames.credits() == 0 {
        return None;
    }
    let no = frames.take();
    frames.fill(no, 1, &[byte]);
    Some(no)
}

// The second of two namespaces takes a frame. Tells how many more it may take, how often the frame is named, how many
// frames each namespace and one that there isn't hold, and how many are free.
fn one_taken(pool: &mut FramePool) -> Option<(u32, u32, [u32; 3], u32)>
    requires { namespaces_of pool.old ≡ 2 }
{
    let no = take_one(&mut pool.door(1), 7)?;
    let credits = pool.door(1).credits();
    let held = [pool.held(0), pool.held(1), pool.held(2)];
    Some((credits, pool.count(no), held, pool.free()))
}

#[test]
fn frames_pass_between_tenants(rt: HostRuntime) -> Result<(), Fail> {
    let mut pool = pool_of(rt.alloc(), 4, &[2, 2])?;
    assert!(rt; borrow_in_turn(&mut pool) && pool.free() == 4);
    assert!(rt; one_taken(&mut pool) == Some((1, 1, [0, 1, 0], 3)));
    Ok(())
}

// What a pool of two namespaces has charged to each, how many frames are free, and the counts of two frames.
fn charges(pool: &FramePool, ours: FrameNo, theirs: FrameNo) -> [u32; 5] {
    [
        pool.held(0),
        pool.held(1),
        pool.free(),
        pool.count(ours),
        pool.count(theirs),
    ]
}

// The first namespace takes another name for its frame, and lets it go, and then the frame. Tells the charges after
// each, and whether the frame still showed its bytes before it went.
fn share_and_release(pool: &mut FramePool, ours: FrameNo, theirs: FrameNo) -> ([[u32; 5]; 3], bool)
    requires namespaces { namespaces_of pool.old ≡ 2 }
    requires taken { (pool_live pool.old 0).count ours ≡ 1 }
{
    pool.door(0).share(ours);
    let shared = charges(pool, ours, theirs);
    pool.door(0).release(ours);
    let released = charges(pool, ours, theirs);
    let is_shown = pool.door(0).view(ours, 0, 3) == [OLD, 7, OLD].as_slice();
    pool.door(0).release(ours);
    ([shared, released, charges(pool, ours, theirs)], is_shown)
}

// Each of two namespaces takes a frame. Tells the charges then, and what `share_and_release` tells.
fn taken_and_shared(pool: &mut FramePool) -> Option<([u32; 5], [[u32; 5]; 3], bool)>
    requires { namespaces_of pool.old ≡ 2 }
{
    let theirs = take_one(&mut pool.door(1), 9)?;
    let ours = take_one(&mut pool.door(0), 7)?;
    let taken = charges(pool, ours, theirs);
    let (charged, is_shown) = share_and_release(pool, ours, theirs);
    Some((taken, charged, is_shown))
}

#[test]
fn a_frame_of_a_pool_is_held_until_its_last_release(rt: HostRuntime) -> Result<(), Fail> {
    let mut pool = pool_of(rt.alloc(), 4, &[2, 2])?;
    let credits = (pool.door(0).credits(), pool.door(1).credits());
    assert!(rt; credits == (2, 2));
    let taken = [1, 1, 2, 1, 1];
    let charged = [[1, 1, 2, 2, 1], [1, 1, 2, 1, 1], [0, 1, 3, 0, 1]];
    assert!(rt; taken_and_shared(&mut pool) == Some((taken, charged, true)));
    Ok(())
}
