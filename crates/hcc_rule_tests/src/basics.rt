//! What no clause says: that a shard is made where there is memory, that all its words are 0 where
//! it is closed unused (no clause speaks of its data words), and how a key's bytes are read.
use crate::any::AnyBytes;
use hcc_rule::{Geometry, Key, RuleTable};
use std::alloc::{AllocError, Global};
use std::process::Abort;

#[test]
fn a_new_shard_has_a_seat_for_each_client(rt: HostRuntime) -> Result<(), AllocError> {
    let small = Geometry {
        slots: 8,
        room: 2,
        clients: 3,
    };
    let (table, seats) = RuleTable::<AnyBytes, Global>::new(
        rt.alloc(),
        small,
        600,
        false,
        AnyBytes,
    )?;
    assert!(rt; table.geometry() == small);
    assert!(rt; seats.len() == 3);
    Ok(())
}

#[test]
fn a_shard_that_nobody_used_closes_with_words_of_zero(rt: HostRuntime) -> Result<(), AllocError> {
    let small = Geometry {
        slots: 8,
        room: 2,
        clients: 2,
    };
    let (table, mut seats) = RuleTable::<AnyBytes, Global>::new(
        rt.alloc(),
        small,
        600,
        false,
        AnyBytes,
    )?;
    let other = seats.remove(1);
    let mut seat = seats.remove(0);
    table.join(&mut seat, other);
    let closed = table.close(seat);
    // By the contracts alone.
    prove!(closed.occupancy() == 0);
    prove!(closed.standing() == 0);
    assert!(rt; closed.geometry() == small);
    for slot in 0..8 {
        assert!(rt; closed.meta(slot) == 0);
        assert!(rt; closed.displacement(slot) == 0);
        for index in 0..7 {
            assert!(rt; closed.data(slot, index) == 0);
        }
    }
    assert!(rt; closed.usage() == 0);
    assert!(rt; closed.hand() == 0);
    Ok(())
}

#[test]
fn a_key_is_read_with_its_highest_bytes_first(rt: HostRuntime) -> Result<(), AllocError> {
    let bytes = [0, 1, 2, 3, 4, 5, 6, 7, 8, 9, 10, 11, 12, 13, 14, 15];
    let key = Key {
        w0: 0x0001_0203_0405_0607,
        w1: 0x0809_0a0b_0c0d_0e0f,
    };
    assert!(rt; Key::from_bytes(bytes) == key);
    Ok(())
}
