//! Shards that begin with entries: their words before any step, and entries whose uses are near the
//! end of the counters.
ghost use Rattle.std.specs.Prelude.{◌≡◌, ◌+◌, ◌<◌, ◌≤◌, [], ◌∷◌, false, IfOk, length};
ghost use Rattle.hcc_core.specs.declared.limits.TheConstants.{MOST_USES};
ghost use Rattle.hcc_core.specs.declared.slot.Entry.{Entry};
ghost use Rattle.hcc_core.specs.Opening.{new_client};
ghost use Rattle.hcc_word.specs.Word.{is_counting};
ghost use Rattle.hcc_rule_tests.specs.Benches.{IsBench, IsReady, IsReadySeatAt};
ghost use Rattle.hcc_rule.specs.Callers.{geometry_of, plan_of};
ghost use Rattle.hcc_rule.specs.Beginnings.{AreSeatsAt, AreSeatsAtWith};
ghost use Rattle.hcc_rule.specs.Closing.{words_of};
ghost use Rattle.hcc_rule.specs.Images.{entries_in};
ghost use Rattle.hcc_rule.specs.Logs.{HasBegun};
ghost use Rattle.hcc_rule.specs.Seats.{view};
ghost use Rattle.hcc_rule.specs.ToldReferences.{record_of};
ghost use Rattle.hcc_rule.specs.Work.{Carries};

use super::inserts::FIRST;
use super::worker::{Bench, NAME, Worker};
use crate::any::AnyBytes;
use hcc_rule::{ClosedTable, Geometry, ImageEntry, RuleSeat, RuleTable, SlotAt};
use hcc_word::layout::{INVISIBLE, NEAR};
use hcc_word::{corrected, releases, state};
use std::alloc::{AllocError, Global};
use std::process::Abort;

/// What is left of a table where both clients end before any step: the words that it began with.
fn unused(table: Bench, mut seats: Vec<RuleSeat<AnyBytes>>) -> ClosedTable<Global>
    requires clients { (geometry_of table).clients ≡ 2 }
    requires count { length seats.items ≡ 2 }
    requires seats { AreSeatsAtWith table (entries_in (plan_of table).image) seats.items }
    ensures size { result.geometry ≡ geometry_of table }
    ensures words { HasBegun (plan_of table) (words_of result) }
{
    let second = seats.remove(1);
    let mut first = seats.remove(0);
    table.join(&mut first, second);
    table.close(first)
}

/// The words of a slot: its meta word, its displacement word and its data words.
fn slot_words(closed: &ClosedTable<Global>, slot: u32) -> [u64; 9]
    requires slot { slot < closed.now.geometry.slots }
    requires room { closed.now.geometry.room ≡ 2 }
{
    let mut words = [0; 9];
    words[0] = closed.meta(slot);
    words[1] = closed.displacement(slot);
    for index in 0..7 {
        words[2 + index] = closed.data(slot, index);
    }
    words
}

/// The sizes of the tables that nobody uses.
const SIZES: Geometry = Geometry {
    slots: 8,
    room: 2,
    clients: 2,
};

#[test]
fn an_empty_image_opens_a_new_shard(rt: HostRuntime) -> Result<(), AllocError> {
    let alloc = rt.alloc();
    let image = Vec::new(alloc);
    let (table, seats) = RuleTable::<AnyBytes, Global>::with_image(
        alloc, SIZES, 600, true, &image, AnyBytes,
    )?;
    let closed = unused(table, seats);
    for slot in 0..8 {
        assert_eq!(rt; slot_words(&closed, slot), [0; 9]);
    }
    let ledgers = [
        closed.usage(),
        closed.occupancy(),
        closed.standing(),
        closed.hand(),
    ];
    assert_eq!(rt; ledgers, [0; 4]);
    Ok(())
}

/// The words of a table with two entries of the first key. The one in slot 4 has three slots in its
/// trail, the most uses, the most charge and no byte.
const PAIR: [[u64; 9]; 8] = [
    [0; 9],
    [
        0xe000_0000_0000_0000,
        1,
        0,
        1,
        7,
        0,
        9,
        0x0807_0605_0403_0201,
        9,
    ],
    [0, 1, 0, 0, 0, 0, 0, 0, 0],
    [0, 1, 0, 0, 0, 0, 0, 0, 0],
    [0xe840_0301_2100_0c04, 0, 0, 1, 0xffff_ffff, 1, 0, 0, 0],
    [0; 9],
    [0; 9],
    [0; 9],
];

#[test]
fn two_entries_of_one_key_are_opened(rt: HostRuntime) -> Result<(), AllocError> {
    let alloc = rt.alloc();
    let mut image = Vec::new(alloc);
    image.push(ImageEntry {
        slot: 1,
        key: FIRST,
        value: vec![in alloc; 1, 2, 3, 4, 5, 6, 7, 8, 9]?,
        charge: 7,
        uses: 0,
    })?;
    image.push(ImageEntry {
        slot: 4,
        key: FIRST,
        value: Vec::new(alloc),
        charge: u32::MAX,
        uses: 553_651_204,
    })?;
    let (table, seats) = RuleTable::<AnyBytes, Global>::with_image(
        alloc, SIZES, 600, false, &image, AnyBytes,
    )?;
    let closed = unused(table, seats);
    // By the contracts alone.
    prove!(closed.usage() == 0x1_0000_0006);
    for slot in 0..8 {
        assert_eq!(rt; slot_words(&closed, slot), PAIR[slot as usize]);
    }
    let ledgers = [
        closed.usage(),
        closed.occupancy(),
        closed.standing(),
        closed.hand(),
    ];
    assert_eq!(rt; ledgers, [0x1_0000_0006, 2, 0, 0]);
    Ok(())
}

/// A table for so many clients that begins with an entry of the first key in slot 1, with these
/// uses. The seat of client 0 comes first, and then the others.
fn worn(
    alloc: Global,
    clients: u32,
    uses: u32,
) -> Result<(Bench, RuleSeat<AnyBytes>, Vec<RuleSeat<AnyBytes>>), AllocError>
    requires clients { (1 ≤ clients) × (clients ≤ 1024) }
    requires uses { uses ≤ MOST_USES }
    ensures bench { IfOk result (λ made. IsBench (plan_of made.0)) }
    ensures first { IfOk result (λ made. IsReadySeatAt made.0 0 1 made.1) }
    ensures rest { IfOk result (λ made. AreSeatsAt made.0 1 made.2.items) }
    ensures count { IfOk result (λ made. length made.2.items + 1 ≡ clients) }
{
    let sizes = Geometry {
        slots: 8,
        room: 2,
        clients,
    };
    let mut image = Vec::new(alloc);
    image.push(ImageEntry {
        slot: 1,
        key: FIRST,
        value: Vec::new(alloc),
        charge: 200,
        uses,
    })?;
    let (table, mut seats) = RuleTable::<AnyBytes, Global>::with_image(
        alloc, sizes, 600, false, &image, AnyBytes,
    )?;
    let first = seats.remove(0);
    Ok((table, first, seats))
}

impl Worker<'_> {
    /// Acquires the entry of slot 1, near the end of its counters. The word is that which the
    /// acquire found.
    fn hold(&mut self, rt: &impl Abort) -> u64
        requires ready { IsReady (view self.old.seat) }
        ensures same { (self.new.table ≡ self.old.table) × (self.new.client ≡ self.old.client)
            × (self.new.shown ≡ self.old.shown)
            × ((view self.new.seat).others ≡ (view self.old.seat).others) }
        ensures holds { (entry : Entry) × Carries new_client
            (record_of 1 1 NAME result entry ∷ []) (view self.new.seat) }
        ensures late { is_counting result ≡ false }
    {
        let data = self.table.data_of(1);
        let at = SlotAt { slot: 1, data };
        let seen = self.table.look_at(&mut self.seat, at);
        assert!(rt; state(seen) >= INVISIBLE, "slot 1 has no entry");
        let found = self.table.acquire_at(&mut self.seat, at, 1, NAME);
        assert!(rt; state(found) >= INVISIBLE, "slot 1 lost its entry");
        assert!(rt; releases(found) >= NEAR, "slot 1 is not near its end");
        found
    }

    /// Tries to correct the word that an acquire of one left of what it found, and gives the
    /// reference back. The words are those that both found.
    fn correct_late(&mut self, rt: &impl Abort, found: u64) -> [u64; 2]
        requires holds { (entry : Entry) × Carries new_client
            (record_of 1 1 NAME found entry ∷ []) (view self.old.seat) }
        requires late { is_counting found ≡ false }
        ensures same { (self.new.table ≡ self.old.table) × (self.new.client ≡ self.old.client)
            × (self.new.shown ≡ self.old.shown)
            × ((view self.new.seat).others ≡ (view self.old.seat).others) }
        ensures ready { IsReady (view self.new.seat) }
    {
        let old = found.wrapping_add(1);
        let new = corrected(old).expect(rt, "the counters can't be taken back");
        let met = self.table.correct(&mut self.seat, 1, NAME, old, new);
        let data = self.table.data_of(1);
        let at = SlotAt { slot: 1, data };
        [met, self.table.give_at(&mut self.seat, at, 1, NAME)]
    }
}

/// Uses with which an entry begins, and the words of a look-up that is near the end: those that its
/// acquire and its correction find, and those after the correction and after the give. The last row
/// has the most uses that an entry may begin with.
const NEAR_ROWS: [(u32, [u64; 4]); 2] = [
    (
        536_870_916,
        [
            0xe800_0001_2000_0004,
            0xe800_0001_2000_0005,
            0xe000_0001_0000_0005,
            0xe000_0001_0000_0004,
        ],
    ),
    (
        553_651_204,
        [
            0xe840_0301_2100_0c04,
            0xe840_0301_2100_0c05,
            0xe040_0301_0100_0c05,
            0xe040_0301_0100_0c04,
        ],
    ),
];

#[test]
fn counters_near_their_end_are_taken_back(rt: HostRuntime) -> Result<(), AllocError> {
    for (uses, words) in NEAR_ROWS {
        let (table, seat, _) = worn(rt.alloc(), 1, uses)?;
        let mut me = Worker {
            table: &table,
            seat,
            client: 0,
            shown: 1,
        };
        assert_eq!(rt; me.totals(), [200, 1, 0]);
        assert_eq!(rt; me.correct(&rt, 1), words);
    }
    Ok(())
}

/// Two clients acquire, and each correction comes too late: the first one after the other acquire,
/// the second one after the other give. So the counters stay where they are.
#[test]
fn corrections_that_lose_change_nothing(rt: HostRuntime) -> Result<(), AllocError> {
    let (table, seat, mut others) = worn(rt.alloc(), 2, 536_870_916)?;
    let mut first = Worker {
        table: &table,
        seat,
        client: 0,
        shown: 1,
    };
    let seat = others.remove(0);
    let mut second = Worker {
        table: &table,
        seat,
        client: 1,
        shown: 0,
    };
    let word = 0xe800_0001_2000_0004;
    for _ in 0..1_000 {
        let found = first.hold(&rt);
        let late = second.hold(&rt);
        assert_eq!(rt; [found, late], [word, word + 1]);
        assert_eq!(rt; first.correct_late(&rt, found), [word + 2, word + 2]);
        assert_eq!(rt; second.correct_late(&rt, late), [word + 1, word + 1]);
        assert!(rt; first.look(1) == word);
    }
    Ok(())
}
