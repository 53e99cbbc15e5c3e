use pf_base::Config;
use pf_limits::LimitFault::{Hard, Reserve, Soft};
use pf_limits::{LimitFault, UserPages};
use std::alloc::{AllocError, Global};
use std::process::Abort;
use std::test::Fail;

// The user that asks, and another one.
const USER: u32 = 5;

const OTHER: u32 = 6;

// The soft and the hard limit, the pages of the user and of the other, whether the user is privileged, and how many
// slots its new pipe gets.
const NEW_PIPES: [(u32, u32, u32, u32, bool, Result<u32, LimitFault>); 21] = [
    // The soft limit: one below, at its number, one above.
    (17, 0, 0, 0, false, Ok(16)),
    (17, 0, 1, 0, false, Ok(16)),
    (17, 0, 2, 0, false, Ok(1)),
    (17, 0, 2, 0, true, Ok(16)),
    (0, 0, 40, 0, false, Ok(16)),
    (17, 0, 1, 40, false, Ok(16)),
    // The hard limit, with 16 slots and with 1.
    (0, 17, 0, 0, false, Ok(16)),
    (0, 17, 1, 0, false, Ok(16)),
    (0, 17, 2, 0, false, Err(Hard)),
    (0, 17, 2, 0, true, Ok(16)),
    (17, 17, 16, 0, false, Ok(1)),
    (17, 17, 17, 0, false, Err(Hard)),
    // The reservation of 64 pages, with 16 slots and with 1.
    (0, 0, 0, 47, false, Ok(16)),
    (0, 0, 0, 48, false, Ok(16)),
    (0, 0, 0, 49, false, Ok(1)),
    (0, 0, 0, 49, true, Ok(1)),
    (0, 0, 0, 63, true, Ok(1)),
    (0, 0, 0, 64, false, Err(Reserve)),
    (0, 0, 0, 64, true, Err(Reserve)),
    // Both would be passed.
    (0, 1, 1, 63, false, Err(Hard)),
    (0, 1, 1, 63, true, Err(Reserve)),
];

// The soft and the hard limit, the pages of the other, whether the caller is privileged, how many pages the pipe is to
// have, and what is told.
const GROWTHS: [(u32, u32, u32, bool, u32, Result<(), LimitFault>); 16] = [
    // The owner has 9 pages, of which this pipe has 1. The soft limit: one below, at its number, one above.
    (17, 0, 0, false, 8, Ok(())),
    (17, 0, 0, false, 9, Ok(())),
    (17, 0, 0, false, 10, Err(Soft)),
    (17, 0, 0, true, 10, Ok(())),
    // The hard limit.
    (0, 17, 0, false, 8, Ok(())),
    (0, 17, 0, false, 9, Ok(())),
    (0, 17, 0, false, 10, Err(Hard)),
    (0, 17, 0, true, 10, Ok(())),
    // The reservation of 64 pages.
    (0, 0, 40, false, 15, Ok(())),
    (0, 0, 40, false, 16, Ok(())),
    (0, 0, 40, false, 17, Err(Reserve)),
    (0, 0, 40, true, 17, Err(Reserve)),
    // More than one would be passed.
    (17, 17, 0, false, 10, Err(Soft)),
    (17, 17, 0, false, 512, Err(Soft)),
    (0, 17, 0, false, 512, Err(Hard)),
    (17, 17, 0, true, u32::MAX, Err(Reserve)),
];

// The pages of a namespace of 64 frames, of which the user has some, and the other.
fn charged(
    rt: &impl Abort,
    alloc: Global,
    limits: (u32, u32),
    own: u32,
    others: u32,
) -> Result<UserPages, Fail> {
    let (soft, hard) = limits;
    let config = Config::new(64, soft, hard, Config::DEFAULT_MAX)?;
    let mut pages = UserPages::new(alloc, &config);
    assert!(rt; own <= 64 && others <= 64 - own && config.reserve() == 64);
    pages.charge(USER, own)?;
    assert!(rt; pages.total() == own);
    pages.charge(OTHER, others)?;
    Ok(pages)
}

#[test]
fn a_new_pipe_has_16_slots_or_1_or_is_refused(rt: HostRuntime) -> Result<(), Fail> {
    for row in &NEW_PIPES {
        let (soft, hard, own, others, privileged, want) = *row;
        let pages = charged(&rt, rt.alloc(), (soft, hard), own, others)?;
        assert!(rt; pages.new_capacity(USER, privileged) == want, "{row:?}");
    }
    Ok(())
}

#[test]
fn a_pipe_grows_as_far_as_its_owner_may(rt: HostRuntime) -> Result<(), Fail> {
    for row in &GROWTHS {
        let (soft, hard, others, privileged, to, want) = *row;
        let pages = charged(&rt, rt.alloc(), (soft, hard), 9, others)?;
        assert!(rt; pages.charged(USER) == 9);
        assert!(rt; pages.may_grow(USER, privileged, 1, to) == want, "{row:?}");
    }
    Ok(())
}

// Two pages for each of twenty users.
fn twenty(rt: &impl Abort, alloc: Global) -> Result<UserPages, Fail> {
    let config = Config::new(100, 0, 0, Config::DEFAULT_MAX)?;
    let mut pages = UserPages::new(alloc, &config);
    for uid in 0..20 {
        assert!(rt; pages.total() == 2 * uid && pages.config().reserve() == 100);
        if pages.charge(uid, 2).is_err() {
            // Nothing has changed.
            let left = (pages.users(), pages.total(), pages.charged(uid));
            assert!(rt; left == (uid as usize, 2 * uid, 0));
            return Err(AllocError.into());
        }
    }
    Ok(pages)
}

// How many users are charged, how many pages they have together, and how many the users 7, 8 and 100.
fn seen(pages: &UserPages) -> (usize, u32, [u32; 3]) {
    let each = [pages.charged(7), pages.charged(8), pages.charged(100)];
    (pages.users(), pages.total(), each)
}

#[test]
fn a_user_stays_as_long_as_it_is_charged(rt: HostRuntime) -> Result<(), Fail> {
    let mut pages = twenty(&rt, rt.alloc())?;
    pages.charge(100, 0)?;
    assert!(rt; seen(&pages) == (20, 40, [2, 2, 0]) && pages.charged(7) == 2);
    pages.refund(7, 1);
    assert!(rt; seen(&pages) == (20, 39, [1, 2, 0]) && pages.charged(7) == 1);
    pages.refund(7, 1);
    assert!(rt; seen(&pages) == (19, 38, [0, 2, 0]));
    pages.refund(7, 0);
    assert!(rt; seen(&pages) == (19, 38, [0, 2, 0]));
    Ok(())
}
