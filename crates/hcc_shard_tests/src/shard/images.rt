//! Shards that begin with an image, and the images of closed ones.
use super::calls::{Answer, Call, plays};
use super::rows::{BOTTOM, FULL, LOW, PLACED, Row, of};
use super::visit::{Start, closes, comes_back, leaves, reopened};
use hcc_rule::{ImageEntry, Key};
use hcc_shard::ClosedShard;
use hcc_shard::ReopenError::{self, *};
use hcc_table::IfLast::Keep;
use hcc_table::Use::{NotUseful, Useful};
use std::alloc::{AllocError, Global};
use std::process::Abort;

/// An entry of an image: its slot, the words of its key, its charge, its uses and its value.
type Entry = (u32, u64, u64, u32, u32, &'static [u8]);

/// The image of these entries.
fn image_of(alloc: Global, entries: &[Entry]) -> Result<Vec<ImageEntry>, AllocError> {
    let mut image = Vec::new(alloc);
    for entry in entries {
        let (slot, w0, w1, charge, uses, bytes) = *entry;
        image.push(ImageEntry {
            slot,
            key: Key { w0, w1 },
            value: Vec::from_slice(alloc, bytes)?,
            charge,
            uses,
        })?;
    }
    Ok(image)
}

/// Sees that these are the entries of an image.
fn is_image(rt: &impl Abort, image: &[ImageEntry], entries: &[Entry]) {
    assert_eq!(rt; image.len(), entries.len());
    for index in 0..image.len() {
        let (slot, w0, w1, charge, uses, bytes) = entries[index];
        let entry = &image[index];
        assert_eq!(rt; entry.key, Key { w0, w1 });
        assert_eq!(rt;
            [entry.slot, entry.charge, entry.uses],
            [slot, charge, uses]
        );
        assert!(rt; entry.value.as_slice() == bytes, "another value");
    }
}

/// A shard that begins with an image, whose client makes calls. What is left of it.
fn row(
    rt: &impl Abort,
    alloc: Global,
    start: Start,
    image: &Vec<ImageEntry>,
    calls: &[(Call, Answer)],
) -> Result<ClosedShard<Global>, ReopenError> {
    let (shard, mut seats, sizes) = reopened(alloc, start, image)?;
    let mut me = comes_back(rt, alloc, &shard, sizes, &mut seats, image);
    plays(rt, &mut me, calls)?;
    let mut back = Vec::new(alloc);
    leaves(rt, me, &mut back)?;
    Ok(closes(rt, shard, sizes, back))
}

/// An entry near the end of its counters: the next look-up leaves them alone, and the one behind it
/// corrects them. The reference that it gets doesn't count, so its release gives it back.
const NEAR_ITS_END: Row = &[
    (Call::Totals, Answer::Totals([200, 1, 0])),
    (Call::Slot(1), Answer::Slot(0xe800_0000_e000_0003, 0)),
    (Call::Look(0, 1), Answer::At(1)),
    (Call::Slot(1), Answer::Slot(0xe800_0000_e000_0004, 0)),
    (Call::Release(1, Useful, Keep), Answer::Freed(false)),
    (Call::Slot(1), Answer::Slot(0xe800_0001_2000_0004, 0)),
    (Call::Look(0, 1), Answer::At(1)),
    (Call::Slot(1), Answer::Slot(0xe000_0001_0000_0005, 0)),
    (Call::Release(2, Useful, Keep), Answer::Freed(false)),
    (Call::Slot(1), Answer::Slot(0xe000_0001_0000_0004, 0)),
    (Call::Work, Answer::Did([2, 0, 0, 0, 0, 0, 1, 0])),
];

/// As many uses as 64 clients with 4,096 handles each can bring an entry to.
const WORN: Row = &[
    (Call::Slot(1), Answer::Slot(0xe801_0031_2004_00c4, 0)),
    (Call::Look(0, 1), Answer::At(1)),
    (Call::Slot(1), Answer::Slot(0xe001_0031_0004_00c5, 0)),
    (Call::Release(1, Useful, Keep), Answer::Freed(false)),
    (Call::Slot(1), Answer::Slot(0xe001_0031_0004_00c4, 0)),
];

/// The most uses that an entry may begin with.
const MOST_WORN: Row = &[
    (Call::Slot(1), Answer::Slot(0xe840_0301_2100_0c04, 0)),
    (Call::Look(0, 1), Answer::At(1)),
    (Call::Slot(1), Answer::Slot(0xe040_0301_0100_0c05, 0)),
    (Call::Release(1, Useful, Keep), Answer::Freed(false)),
    (Call::Slot(1), Answer::Slot(0xe040_0301_0100_0c04, 0)),
];

#[test]
fn counters_near_their_end_are_corrected(rt: HostRuntime) -> Result<(), ReopenError> {
    for (uses, calls) in [
        (536_870_915, NEAR_ITS_END),
        (537_133_252, WORN),
        (553_651_204, MOST_WORN),
    ] {
        let image = image_of(rt.alloc(), &[(1, 0, 1, 200, uses, &[])])?;
        row(&rt, rt.alloc(), of(600, false), &image, calls)?;
    }
    Ok(())
}

/// Entries of one key, where the second passed the slot of the first: both are there, the first is
/// found, and both are erased. The next serial is above those of the image.
const TWICE: Row = &[
    (Call::Slot(1), Answer::Slot(LOW, 1)),
    (Call::Slot(2), Answer::Slot(BOTTOM, 0)),
    (Call::Totals, Answer::Totals([30, 2, 0])),
    (Call::Look(0, 1), Answer::At(1)),
    (Call::Release(2, NotUseful, Keep), Answer::Freed(false)),
    (Call::Erase(0, 1), Answer::Hidden(2)),
    (Call::Slot(1), Answer::Slot(0, 0)),
    (Call::Totals, Answer::Totals([0, 0, 0])),
    (Call::Insert(0, 1, 10, 2, &[]), Answer::Placed),
];

#[test]
fn an_image_may_be_empty_or_have_a_key_twice(rt: HostRuntime) -> Result<(), ReopenError> {
    let image = image_of(rt.alloc(), &[])?;
    row(&rt, rt.alloc(), of(600, false), &image, PLACED)?;
    let image = image_of(rt.alloc(), &[(1, 0, 1, 10, 2, &[]), (2, 0, 1, 20, 1, &[])])?;
    let closed = row(&rt, rt.alloc(), of(600, false), &image, TWICE)?;
    is_image(&rt, &closed.image(rt.alloc())?, &[(1, 0, 1, 10, 2, &[])]);
    Ok(())
}

/// Entries of which the second has passed the slot of the first, and all were used.
const KEPT: &[Entry] = &[
    (1, 0, 1, 10, 2, &[0xaa]),
    (2, 0, 2, 30, 7, &[]),
    (4, 2, 1, 20, 3, &FULL),
];

/// The first one is marked, the second used.
const MARKED: Row = &[
    (Call::Totals, Answer::Totals([60, 3, 0])),
    (Call::Slot(1), Answer::Slot(LOW, 1)),
    (Call::Look(0, 1), Answer::At(1)),
    (Call::Release(3, NotUseful, Keep), Answer::Freed(false)),
    (Call::Slot(1), Answer::Slot(0xf000_0000_8000_0002, 1)),
    (Call::Look(0, 2), Answer::At(2)),
    (Call::Release(4, Useful, Keep), Answer::Freed(false)),
];

/// What is left of them.
const USED: &[Entry] = &[
    (1, 0, 1, 10, 2, &[0xaa]),
    (2, 0, 2, 30, 8, &[]),
    (4, 2, 1, 20, 3, &FULL),
];

/// A shard that is closed and opened again has the same entries but for what was used, and no
/// marks.
#[test]
fn a_closed_shard_is_opened_again(rt: HostRuntime) -> Result<(), ReopenError> {
    let mut start = of(60, true);
    start.marks = true;
    let image = image_of(rt.alloc(), KEPT)?;
    let closed = row(&rt, rt.alloc(), start, &image, MARKED)?;
    let image = closed.image(rt.alloc())?;
    is_image(&rt, &image, USED);
    let unused = [(Call::Slot(1), Answer::Slot(LOW, 1))];
    let again = row(&rt, rt.alloc(), start, &image, &unused)?;
    is_image(&rt, &again.image(rt.alloc())?, USED);
    Ok(())
}

/// Entries, a strict capacity if there is one, and why no shard begins with them.
type Judged = (&'static [Entry], Option<u32>, Option<ReopenError>);

/// Each limit, and one past it. Of two faults the first of the list is told, wherever they stand.
const JUDGED: &[Judged] = &[
    (&[(0, 0, 7, 1, 0, &[]), (7, 0, 7, 1, 0, &[])], None, None),
    (&[(8, 0, 1, 1, 0, &[])], None, Some(BadSlot)),
    (
        &[(3, 0, 1, 1, 0, &[]), (3, 0, 1, 1, 0, &[])],
        None,
        Some(BadSlot),
    ),
    (
        &[(3, 0, 1, 1, 0, &[]), (2, 0, 1, 1, 0, &[])],
        None,
        Some(BadSlot),
    ),
    (&[(0, 0, 1, 1, 0, &FULL)], None, None),
    (&[(0, 0, 1, 1, 0, &[0; 17])], None, Some(BadLength)),
    (&[(0, 0, 1, 1, 553_651_204, &[])], None, None),
    (&[(0, 0, 1, 1, 553_651_205, &[])], None, Some(BadUses)),
    (&[(0, 0, 1, 0, 0, &[])], None, Some(BadCharge)),
    (SIX, None, None),
    (SEVEN, None, Some(TooMany)),
    (
        &[(0, 0, 1, 60, 0, &[]), (1, 0, 1, 40, 0, &[])],
        Some(100),
        None,
    ),
    (
        &[(0, 0, 1, 60, 0, &[]), (1, 0, 1, 41, 0, &[])],
        Some(100),
        Some(TooLarge),
    ),
    (
        &[(0, 0, 1, 1, 0, &[0; 17]), (8, 0, 1, 1, 0, &[])],
        None,
        Some(BadSlot),
    ),
    (
        &[(0, 0, 1, 1, 553_651_205, &[]), (1, 0, 1, 1, 0, &[0; 17])],
        None,
        Some(BadLength),
    ),
    (
        &[(0, 0, 1, 0, 0, &[]), (1, 0, 1, 1, 553_651_205, &[])],
        None,
        Some(BadUses),
    ),
    (SEVEN_AND_FREE, None, Some(BadCharge)),
    (SEVEN, Some(6), Some(TooMany)),
];

const SIX: &[Entry] = &[
    (0, 0, 0, 1, 0, &[]),
    (1, 0, 1, 1, 0, &[]),
    (2, 0, 2, 1, 0, &[]),
    (3, 0, 3, 1, 0, &[]),
    (4, 0, 4, 1, 0, &[]),
    (5, 0, 5, 1, 0, &[]),
];

const SEVEN: &[Entry] = &[
    (0, 0, 0, 1, 0, &[]),
    (1, 0, 1, 1, 0, &[]),
    (2, 0, 2, 1, 0, &[]),
    (3, 0, 3, 1, 0, &[]),
    (4, 0, 4, 1, 0, &[]),
    (5, 0, 5, 1, 0, &[]),
    (6, 0, 6, 1, 0, &[]),
];

const SEVEN_AND_FREE: &[Entry] = &[
    (0, 0, 0, 1, 0, &[]),
    (1, 0, 1, 1, 0, &[]),
    (2, 0, 2, 1, 0, &[]),
    (3, 0, 3, 1, 0, &[]),
    (4, 0, 4, 1, 0, &[]),
    (5, 0, 5, 1, 0, &[]),
    (6, 0, 6, 0, 0, &[]),
];

#[test]
fn images_are_judged(rt: HostRuntime) -> Result<(), ReopenError> {
    for (entries, strict, wanted) in JUDGED {
        let image = image_of(rt.alloc(), entries)?;
        let start = of(strict.unwrap_or(600), strict.is_some());
        let refused = match reopened(rt.alloc(), start, &image) {
            Ok(_) => None,
            Err(OutOfMemory) => return Err(OutOfMemory),
            Err(why) => Some(why),
        };
        assert_eq!(rt; refused, *wanted);
    }
    Ok(())
}
