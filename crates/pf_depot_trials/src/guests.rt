//! Namespaces that come and go at a depot behind a lock.

ghost use Rattle.pf_depot.specs.Blanks.{IsBlankOf};

use crate::guest::Guest;
use crate::shared::{blank, opened};
use pf_base::AdmitFault;
use pf_depot::PoolFault;
use std::alloc::Global;
use std::marker::Brand;
use std::sync::ledger::{Blank, Ledger};
use std::sync::{Mutex, Wait};
use std::test::Fail;

const TOO_MANY: Option<AdmitFault> = Some(AdmitFault::TooManyNamespaces);

// What was told of three admissions that were refused; how many frames were free while the one that came kept 2 in
// stock, and once it had gone; and the number of the next.
type Told = ([Option<AdmitFault>; 3], [u32; 3]);

// One namespace from the opening on, of 2 of 5 frames. Then one beyond the slack, one with all of it, which uses 2
// frames and keeps them in stock, and one beyond again; and once that one has gone, another with all of it.
fn past_the_slack<C: Ledger, H: Ledger, R: Wait>(
    rt: &R,
    alloc: Global,
    credits: Blank,
    held: Blank,
) -> Result<Told, AdmitFault>
    requires blanks { IsBlankOf C.name C.parts credits × IsBlankOf H.name H.parts held }
{
    let Ok((book, _)) = opened::<C, H>(alloc, 5, &[2], credits, held) else {
        return Err(AdmitFault::NoMemory);
    };
    let book = Mutex::new(book);
    let above = Guest::admit(rt, alloc, &book, 4).err();
    let (_, mut blue) = Guest::admit(rt, alloc, &book, 3)?;
    let none = Guest::admit(rt, alloc, &book, 1).err();
    let shown = blue.borrow(rt, &book, 7);
    let stocked = book.lock(rt).free();
    let gone = blue.retire(rt, &book);
    let back = book.lock(rt).free();
    let (number, _grey) = Guest::admit(rt, alloc, &book, 3)?;
    let full = Guest::admit(rt, alloc, &book, 1).err();
    if !(shown && gone) {
        return Err(AdmitFault::NoMemory);
    }
    Ok(([above, none, full], [stocked, back, number]))
}

fn past_the_slack_by_name<R: Wait>(rt: &R, alloc: Global) -> Result<Told, AdmitFault> {
    past_the_slack::<Brand, Brand, R>(rt, alloc, blank(), blank())
}

#[test]
fn a_reservation_passes_from_the_slack_and_back(rt: HostRuntime) -> Result<(), Fail> {
    let (refused, numbers) = past_the_slack_by_name(&rt, rt.alloc())?;
    let wanted = [3, 0, 0].map(|slack| Some(AdmitFault::NoRoom { slack }));
    assert_eq!(rt; refused, wanted);
    assert_eq!(rt; numbers, [3, 5, 2]);
    Ok(())
}

// The number that the last of 1,024 guests gets which come and go one after the other, each using 2 of 3 frames; how
// many frames are free then; and what the next one is told.
fn all_numbers<C: Ledger, H: Ledger, R: Wait>(
    rt: &R,
    alloc: Global,
    credits: Blank,
    held: Blank,
) -> Result<(u32, u32, Option<AdmitFault>), AdmitFault>
    requires blanks { IsBlankOf C.name C.parts credits × IsBlankOf H.name H.parts held }
{
    let Ok((book, _)) = opened::<C, H>(alloc, 3, &[], credits, held) else {
        return Err(AdmitFault::NoMemory);
    };
    let book = Mutex::new(book);
    let mut last = 0;
    for round in 0..1_024u32 {
        let (number, mut guest) = Guest::admit(rt, alloc, &book, 2)?;
        let shown = guest.borrow(rt, &book, (round % 256) as u8);
        if !(shown && guest.retire(rt, &book)) {
            return Err(AdmitFault::NoMemory);
        }
        last = number;
    }
    let free = book.lock(rt).free();
    let refused = Guest::admit(rt, alloc, &book, 4).err();
    Ok((last, free, refused))
}

fn all_numbers_by_name<R: Wait>(
    rt: &R,
    alloc: Global,
) -> Result<(u32, u32, Option<AdmitFault>), AdmitFault> {
    all_numbers::<Brand, Brand, R>(rt, alloc, blank(), blank())
}

#[test]
fn a_number_is_given_once_and_there_are_1024(rt: HostRuntime) -> Result<(), Fail> {
    let told = all_numbers_by_name(&rt, rt.alloc())?;
    assert_eq!(rt; told, (1_023, 3, TOO_MANY));
    Ok(())
}

// What the 65th of some guests is told that stay, and the number that it gets once one of them has gone.
fn sixty_five<C: Ledger, H: Ledger, R: Wait>(
    rt: &R,
    alloc: Global,
    credits: Blank,
    held: Blank,
) -> Result<(Option<AdmitFault>, u32), AdmitFault>
    requires blanks { IsBlankOf C.name C.parts credits × IsBlankOf H.name H.parts held }
{
    let Ok((book, _)) = opened::<C, H>(alloc, 0, &[], credits, held) else {
        return Err(AdmitFault::NoMemory);
    };
    let book = Mutex::new(book);
    let Ok(mut guests) = Vec::with_capacity(alloc, 64) else {
        return Err(AdmitFault::NoMemory);
    };
    for _ in 0..64u32 {
        let (_, guest) = Guest::admit(rt, alloc, &book, 0)?;
        guests.push_reserved(guest);
    }
    // too many is told before no room
    let refused = Guest::admit(rt, alloc, &book, 1).err();
    let gone = match guests.pop() {
        Some(guest) => guest.retire(rt, &book),
        None => false,
    };
    let (number, _) = Guest::admit(rt, alloc, &book, 0)?;
    if !gone {
        return Err(AdmitFault::NoMemory);
    }
    Ok((refused, number))
}

fn sixty_five_by_name<R: Wait>(
    rt: &R,
    alloc: Global,
) -> Result<(Option<AdmitFault>, u32), AdmitFault> {
    sixty_five::<Brand, Brand, R>(rt, alloc, blank(), blank())
}

#[test]
fn sixty_four_live_at_once(rt: HostRuntime) -> Result<(), Fail> {
    let told = sixty_five_by_name(&rt, rt.alloc())?;
    assert_eq!(rt; told, (TOO_MANY, 64));
    Ok(())
}
