use pf_base::{ByteString, Crossing};
use pf_parked::{Call, ParkedTable, UnfinishedWrite};
use std::test::Fail;

#[test]
fn a_process_waits_in_one_call_and_then_in_another(rt: HostRuntime) -> Result<(), Fail> {
    let mut table = ParkedTable::new(rt.alloc())?;
    assert!(rt; table.get(7).is_none());
    table.park(
        7,
        Call::Open {
            description: 70_u32,
            kept: 2,
        },
    );
    let Some(Call::Open { description, kept }) = table.get(7) else {
        unreachable!(rt; "an open is parked");
    };
    assert!(rt; (*description, *kept) == (70, 2));
    assert!(rt; table.remove(7).is_some());
    assert!(rt; table.get(7).is_none());
    assert!(rt; table.remove(7).is_none());
    let crossing = Call::Cross {
        crossing: Crossing::Splice,
        source: 0,
        sink: 3,
        n: 1,
    };
    table.park(7, crossing);
    assert!(rt; matches!(table.get(7), Some(Call::Cross { sink: 3, .. })));
    Ok(())
}

// How many bytes a process waits for, if it is in a read of its descriptor 0.
fn waited_for(table: &ParkedTable<u32>, pid: u32) -> Option<u64> {
    match table.get(pid) {
        Some(Call::Read { fd: 0, n }) => Some(*n),
        _ => None,
    }
}

#[test]
fn only_pids_from_1_to_256_have_calls(rt: HostRuntime) -> Result<(), Fail> {
    let mut table = ParkedTable::new(rt.alloc())?;
    assert!(rt; table.get(1).is_none());
    table.park(1, Call::Read { fd: 0, n: 1 });
    assert!(rt; table.get(256).is_none());
    table.park(256, Call::Read { fd: 0, n: 256 });
    for pid in [0, 2, 255, 257, u32::MAX] {
        assert!(rt;
            table.get(pid).is_none() && table.remove(pid).is_none(),
            "{pid}"
        );
    }
    assert!(rt; waited_for(&table, 1) == Some(1));
    assert!(rt; waited_for(&table, 256) == Some(256));
    Ok(())
}

// Whether a write of five bytes has so many behind it, and this rest before it.
fn is_at(write: &UnfinishedWrite, written: u64, rest: &[u8]) -> bool {
    write.total() == 5 && write.written() == written && write.rest() == rest
}

#[test]
fn a_write_goes_on_with_its_rest(rt: HostRuntime) -> Result<(), Fail> {
    let mut table: ParkedTable<u32> = ParkedTable::new(rt.alloc())?;
    let mut write = UnfinishedWrite::new(ByteString::from_slice(rt.alloc(), b"hello")?);
    assert!(rt; is_at(&write, 0, b"hello"));
    write.advance(2);
    assert!(rt; table.get(1).is_none());
    table.park(1, Call::Write { fd: 4, write });
    let Some(Call::Write { fd: 4, mut write }) = table.remove(1) else {
        unreachable!(rt; "a write is parked");
    };
    assert!(rt; is_at(&write, 2, b"llo"));
    assert!(rt; write.written() + 3 <= write.total());
    write.advance(3);
    assert!(rt; is_at(&write, 5, b""));
    Ok(())
}
