//! Each kind of step of one client, in an order that makes sense, and the words that the steps
//! find. A meta word is `acquires + releases·2^30 + hit·2^60 + state·2^61`.
//!
//! A correction takes `2^29` uses, and has a test of its own. Splits and joins are among the tests
//! of two clients.
use super::hired::{bench, hired};
use super::inserts::{FIRST, SECOND, THIRD};
use super::worker::PAYLOAD_WORDS;
use std::alloc::AllocError;

/// Entries are shown by priority, and the reference that is kept becomes a use. Then the first one
/// is used more, and the clock counts it down. Exchanges come too late, and an acquire goes astray.
#[test]
fn a_word_tells_of_the_uses_of_its_entry(rt: HostRuntime) -> Result<(), AllocError> {
    let (table, mut seats) = bench(rt.alloc(), 1)?;
    let mut me = hired(&rt, &table, &mut seats);
    assert_eq!(rt; me.look(1), 0);
    let low = me.draft(FIRST, 200, 2, Some(7));
    assert_eq!(rt;
        me.pin(&rt, 1, low, None),
        [0xe000_0000_4000_0002, 0xe000_0000_8000_0002]
    );
    let high = me.draft(SECOND, 200, 3, Some(7));
    assert_eq!(rt;
        me.pin(&rt, 2, high, None),
        [0xe000_0000_8000_0003, 0xe000_0000_c000_0003]
    );
    let bottom = me.draft(THIRD, 200, 1, Some(7));
    assert_eq!(rt;
        me.pin(&rt, 3, bottom, None),
        [0xe000_0000_0000_0001, 0xe000_0000_4000_0001]
    );
    assert_eq!(rt; me.totals(), [600, 3, 0]);
    let word = 0xe000_0000_8000_0002;
    assert_eq!(rt;
        me.miss(&rt, 1, 1),
        [word, word, 0xe000_0000_8000_0003, word]
    );
    assert_eq!(rt;
        me.miss(&rt, 1, 3),
        [word, word, 0xe000_0000_8000_0005, word]
    );
    assert_eq!(rt;
        me.matched(&rt, 1, 2),
        [word, word, 0xe000_0000_8000_0004, 0xe000_0001_0000_0004]
    );
    assert_eq!(rt; me.visit(1), [0xe000_0001_0000_0004, word]);
    assert_eq!(rt; me.visit(1), [word, 0xe000_0000_4000_0001]);
    assert_eq!(rt; me.visit(1), [0xe000_0000_4000_0001, 0xe000_0000_0000_0000]);
    assert_eq!(rt; me.visit(1), [0xe000_0000_0000_0000, 0xe000_0000_0000_0000]);
    let used = 0xe000_0001_0000_0004;
    assert_eq!(rt; me.late(&rt, 2), [0xe000_0000_c000_0003, used, used, used]);
    let taken = 0x8000_0000_0000_0000;
    assert_eq!(rt; me.evict_astray(&rt, 3, THIRD), [taken, taken + 1, 0]);
    assert_eq!(rt; me.totals(), [400, 2, 0]);
    Ok(())
}

/// An entry is found and marked. A second one of its key lies in the next slot, and is erased. The
/// first one is evicted, and so is a third one, which was hidden while it was held.
#[test]
fn an_entry_is_found_hidden_and_freed(rt: HostRuntime) -> Result<(), AllocError> {
    let (table, mut seats) = bench(rt.alloc(), 1)?;
    let mut me = hired(&rt, &table, &mut seats);
    let low = me.draft(FIRST, 200, 2, None);
    assert_eq!(rt; me.insert(&rt, 1, low, None), [0, 0, 0]);
    let (words, data) = me.hit(&rt, 1);
    let word = 0xe000_0000_8000_0002;
    let marked = 0xf000_0000_c000_0003;
    assert_eq!(rt;
        words,
        [
            word,
            word,
            0xe000_0000_8000_0003,
            0xf000_0000_8000_0003,
            marked
        ]
    );
    assert_eq!(rt;
        data,
        [0, 1, 200, 0, 16, PAYLOAD_WORDS[0], PAYLOAD_WORDS[1]]
    );
    let next = me.draft(FIRST, 100, 2, None);
    assert_eq!(rt; me.insert(&rt, 2, next, Some(1)), [1, 200, 0]);
    assert_eq!(rt; me.count(1), 1);
    assert_eq!(rt; me.totals(), [300, 2, 0]);
    let hidden = 0xc000_0000_8000_0003;
    assert_eq!(rt;
        me.erase(&rt, 2, FIRST, Some(1)),
        [word, 0xe000_0000_8000_0003, hidden, 0, 100]
    );
    assert_eq!(rt; me.count(1), 0);
    assert_eq!(rt; me.totals(), [200, 1, 0]);
    assert_eq!(rt;
        me.evict(&rt, 1, FIRST, None),
        [marked, 0x8000_0000_0000_0000, 0, 200]
    );
    let pinned = me.draft(SECOND, 60, 2, Some(7));
    let gone = 0xc000_0000_8000_0002;
    assert_eq!(rt;
        me.pin_hidden(&rt, 2, pinned, None),
        [0xe000_0000_4000_0002, 0xc000_0000_4000_0002, gone]
    );
    assert_eq!(rt;
        me.evict(&rt, 2, SECOND, None),
        [gone, 0x8000_0000_0000_0000, 0, 60]
    );
    assert_eq!(rt; me.totals(), [0, 0, 0]);
    Ok(())
}

/// Words of an entry are found without a reference, while it is shown and once it is hidden.
#[test]
fn words_are_found_without_a_reference(rt: HostRuntime) -> Result<(), AllocError> {
    let (table, mut seats) = bench(rt.alloc(), 1)?;
    let mut me = hired(&rt, &table, &mut seats);
    let shown = me.draft(FIRST, 200, 2, None);
    assert_eq!(rt; me.insert(&rt, 1, shown, None), [0, 0, 0]);
    assert_eq!(rt; me.peek(1), [1, 16, PAYLOAD_WORDS[0], PAYLOAD_WORDS[1]]);
    let hidden = me.draft(SECOND, 60, 2, Some(7));
    me.pin_hidden(&rt, 2, hidden, None);
    assert_eq!(rt; me.peek(2), [2, 16, PAYLOAD_WORDS[0], PAYLOAD_WORDS[1]]);
    assert_eq!(rt; me.peek(1), [1, 16, PAYLOAD_WORDS[0], PAYLOAD_WORDS[1]]);
    Ok(())
}

/// An insertion is given up, an entry stands alone, and the hand is turned.
#[test]
fn amounts_come_and_go(rt: HostRuntime) -> Result<(), AllocError> {
    let (table, mut seats) = bench(rt.alloc(), 1)?;
    let mut me = hired(&rt, &table, &mut seats);
    assert_eq!(rt; me.give_up(&rt, 3, 50), [0, 0, 1, 0, 50, 1]);
    assert_eq!(rt; me.totals(), [0, 0, 0]);
    assert_eq!(rt; me.stand(70), [0, 70, 70, 0]);
    assert_eq!(rt; me.totals(), [0, 0, 0]);
    assert_eq!(rt; me.turn_twice(), [0, 4]);
    assert_eq!(rt; me.turn_twice(), [8, 12]);
    Ok(())
}
