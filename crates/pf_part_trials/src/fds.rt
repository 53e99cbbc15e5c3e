use pf_fds::{Descriptions, FdTable, InsertFault, Key, Places, Registry};
use std::alloc::{AllocError, Global};
use std::test::Fail;

// A key outlives its value, whose slot gets another. Tells whether both had one slot, and whether the first key then
// finds something to change; the value that was taken out, and what each key finds; and how many keys were drawn.
fn one_slot_for_two(alloc: Global) -> Result<([bool; 2], [Option<u32>; 3], u64), AllocError> {
    let mut registry = Registry::new(alloc);
    registry.reserve(1)?;
    let first = registry.insert_reserved(10);
    let gone = registry.remove(first);
    registry.reserve(1)?;
    let second = registry.insert_reserved(20);
    let is_found = registry.get_mut(first).is_some();
    let found = [
        Some(gone),
        registry.get(first).copied(),
        registry.get(second).copied(),
    ];
    let slots = second.slot == first.slot;
    Ok(([slots, is_found], found, registry.drawn()))
}

#[test]
fn a_key_that_outlives_its_value_finds_nothing(rt: HostRuntime) -> Result<(), Fail> {
    let told = one_slot_for_two(rt.alloc())?;
    assert!(rt; told == ([true, false], [Some(10), None, Some(20)], 2));
    Ok(())
}

// A value is out while another is changed, and added to it. Tells what is found of both then and in the end, and the
// key of the next value.
fn two_in_hand(alloc: Global) -> Result<([Option<u32>; 3], Key), AllocError> {
    let mut registry = Registry::new(alloc);
    registry.reserve(3)?;
    let left = registry.insert_reserved(10);
    let right = registry.insert_reserved(20);
    let mut value = registry.take_out(left);
    let out = registry.get(left).copied();
    if let Some(other) = registry.get_mut(right) {
        *other += 1;
        value += *other;
    }
    registry.put_back(left, value);
    let found = [
        out,
        registry.get(left).copied(),
        registry.get(right).copied(),
    ];
    Ok((found, registry.insert_reserved(50)))
}

#[test]
fn two_values_are_in_hand_at_once(rt: HostRuntime) -> Result<(), Fail> {
    let (found, next) = two_in_hand(rt.alloc())?;
    assert!(rt; found == [None, Some(31), Some(21)]);
    assert!(rt; (next.serial, next.slot) == (2, 2));
    Ok(())
}

#[test]
fn what_is_refused_leaves_the_registry(rt: HostRuntime) -> Result<(), Fail> {
    let mut registry = Registry::new(rt.alloc());
    let first = match registry.insert(5_u32) {
        Ok(key) => key,
        Err(InsertFault::NoMemory(value) | InsertFault::Spent(value)) => {
            assert!(rt; (value, registry.drawn()) == (5, 0));
            return Err(AllocError.into());
        }
    };
    assert!(rt; registry.reserve(usize::MAX).is_err());
    assert!(rt; (first.serial, registry.get(first).copied()) == (0, Some(5)));
    registry.reserve(2)?;
    assert!(rt; registry.reserve(usize::MAX).is_err());
    let second = registry.insert_reserved(6);
    assert!(rt; (second.serial, registry.get(second).copied()) == (1, Some(6)));
    assert!(rt; registry.insert(7).is_ok() && registry.drawn() == 3);
    Ok(())
}

// Whether so many values are inserted, for none of which room was reserved, each under the next number, and found.
fn inserts(alloc: Global, count: u32) -> bool {
    let mut registry = Registry::new(alloc);
    for n in 0..count {
        let Ok(key) = registry.insert(n) else {
            return false;
        };
        if key.serial != u64::from(n) || registry.get(key).copied() != Some(n) {
            return false;
        }
    }
    registry.drawn() == u64::from(count)
}

#[test]
fn a_registry_grows_as_values_come(rt: HostRuntime) {
    assert!(rt; inserts(rt.alloc(), 10_000));
}

// How many names a key has, and its value.
type Seen = (u32, Option<u32>);

fn seen(descriptions: &Descriptions<u32>, key: Key) -> Seen {
    (descriptions.names(key), descriptions.get(key).copied())
}

// A description gets two names and another value, and loses both names; then there is another one. Tells what was
// seen of it new, with two names, with one, with none, and in the end, what each name that went handed out, both keys,
// and how many were drawn.
fn named_and_unnamed(
    alloc: Global,
) -> Result<([Seen; 5], [Option<u32>; 2], [Key; 2], u64), AllocError> {
    let mut descriptions = Descriptions::new(alloc);
    descriptions.reserve(2)?;
    let key = descriptions.insert_reserved(10);
    let new = seen(&descriptions, key);
    descriptions.name(key);
    descriptions.name(key);
    *descriptions.value_mut(key) = 11;
    let twice = seen(&descriptions, key);
    let first = descriptions.unname(key);
    let once = seen(&descriptions, key);
    let last = descriptions.unname(key);
    let gone = seen(&descriptions, key);
    let next = descriptions.insert_reserved(12);
    let seen = [new, twice, once, gone, seen(&descriptions, key)];
    Ok((seen, [first, last], [key, next], descriptions.drawn()))
}

#[test]
fn a_description_goes_with_its_last_name(rt: HostRuntime) -> Result<(), Fail> {
    let (seen, handed, [key, next], drawn) = named_and_unnamed(rt.alloc())?;
    let want = [
        (0, Some(10)),
        (2, Some(11)),
        (1, Some(11)),
        (0, None),
        (0, None),
    ];
    assert!(rt; seen == want);
    assert!(rt; handed == [None, Some(11)]);
    assert!(rt; (next.serial, next.slot, drawn) == (1, key.slot, 2));
    Ok(())
}

// A key at 0 and at 2, of which the first is cleared, beside a copy from before. Tells what was cleared at 0 and at 256,
// and of both tables what is found at four numbers, the lowest free one, and the lowest but for one.
fn copied_and_cleared(
    alloc: Global,
    key: Key,
) -> Result<([Option<Key>; 2], [[Option<Key>; 4]; 2], [usize; 4]), AllocError> {
    let mut table = FdTable::new(alloc)?;
    table.set(0, key);
    table.set(2, key);
    let copy = table.copy(alloc)?;
    let cleared = [table.clear(0), table.clear(256)];
    let found = [0, 1, 2, 256].map(|fd| table.get(fd));
    let copied = [0, 1, 2, 256].map(|fd| copy.get(fd));
    let lowest = [
        table.lowest(),
        table.next_lowest(0),
        copy.lowest(),
        copy.next_lowest(1),
    ];
    Ok((cleared, [found, copied], lowest))
}

#[test]
fn a_copied_table_is_a_table_of_its_own(rt: HostRuntime) -> Result<(), Fail> {
    let key = Key {
        slot: 3,
        serial: 70,
    };
    let (cleared, [found, copied], lowest) = copied_and_cleared(rt.alloc(), key)?;
    assert!(rt; cleared == [Some(key), None]);
    assert!(rt; found == [None, None, Some(key), None]);
    assert!(rt; copied == [Some(key), None, Some(key), None]);
    assert!(rt; lowest == [0, 1, 1, 3]);
    Ok(())
}

// Numbers that hold 1000 more than themselves, as many as there may be, and whether each was the lowest in its turn.
fn all_numbers(alloc: Global) -> Result<(Places<u32>, bool), AllocError> {
    let mut places = Places::new(alloc)?;
    let mut right = true;
    for n in 0..256 {
        right = right && places.lowest() == n;
        places.put(n, n as u32 + 1000);
    }
    Ok((places, right))
}

#[test]
fn the_lowest_number_is_found(rt: HostRuntime) -> Result<(), Fail> {
    let (mut places, right) = all_numbers(rt.alloc())?;
    assert!(rt; right && places.lowest() == 256);
    let taken = [places.take(200), places.take(64), places.take(63)];
    assert!(rt; taken == [Some(1200), Some(1064), Some(1063)]);
    assert!(rt; (places.lowest(), places.next_lowest(63)) == (63, 64));
    places.put(63, 7);
    assert!(rt; (places.lowest(), places.next_lowest(64)) == (64, 200));
    places.put(64, 8);
    assert!(rt; (places.lowest(), places.next_lowest(200)) == (200, 256));
    let found = [63, 200, 256].map(|n| places.get(n).copied());
    assert!(rt; found == [Some(7), None, None]);
    assert!(rt; places.take(200).is_none());
    Ok(())
}
