//! What the words of a shard say, and what a line of the player says of the same.
use hcc_word::layout::{CONSTRUCTION, EMPTY, VISIBLE};
use hcc_word::{acquires, hit, refs, releases, state};
use std::alloc::{AllocError, Global};
use std::process::Abort;

/// The words of a shard, as they were found.
#[derive(Clone, Copy)]
pub(super) struct Picture {
    /// Each slot's meta word and displacement word.
    pub(super) slots: [(u64, u64); 8],
    /// The usage, the occupancy, the standalone charges and the hand.
    pub(super) totals: [u64; 4],
}

impl Picture {
    /// Fails if a line of the player shows other slots or totals.
    pub(super) fn compare(
        &self,
        rt: &impl Abort,
        alloc: Global,
        line: &str,
    ) -> Result<(), AllocError> {
        let (_, world) = line.split_once(" : ").expect(rt, "no world");
        let (slots, totals) = world.split_once(" | ").expect(rt, "no totals");
        let mut printed = slots.split_whitespace();
        for (word, count) in self.slots {
            let slot = printed.next().expect(rt, "a slot is missing");
            let (slot, found) = (told(alloc, slot)?, decoded(alloc, word, count)?);
            assert_eq!(rt; slot, found, "{line}");
        }
        assert!(rt; printed.next().is_none(), "{line}");
        let [usage, occupancy, standing, hand] = self.totals;
        let found = format!(in alloc; "{usage} {occupancy} {standing} {hand}")?;
        assert_eq!(rt; totals, found.as_str(), "{line}");
        Ok(())
    }
}

/// What the meta word and the displacement word of a slot say.
fn decoded(alloc: Global, word: u64, count: u64) -> Result<String, AllocError> {
    let strays = acquires(word);
    match state(word) {
        EMPTY => format!(in alloc; "E+{strays}/{count}"),
        CONSTRUCTION => format!(in alloc; "B+{strays}/{count}"),
        state => {
            let initial = if state == VISIBLE { "S" } else { "H" };
            let (uses, weight) = (releases(word), refs(word));
            let mark = u8::from(hit(word));
            format!(in alloc; "{initial},u{uses},r{weight},h{mark}/{count}")
        }
    }
}

/// The same of a slot that is printed: without the owner of one under construction, without key,
/// stamp and charge, and with the weight of all references.
fn told(alloc: Global, slot: &str) -> Result<String, AllocError> {
    if let Some((entry, rest)) = slot.split_once(",u") {
        if let Some((uses, rest)) = rest.split_once(",r") {
            if let Some((references, rest)) = rest.split_once(",h") {
                let initial = if entry.starts_with('S') { "S" } else { "H" };
                let weight = weight_of(references);
                return format!(in alloc; "{initial},u{uses},r{weight},h{rest}");
            }
        }
    }
    match slot.split_once('+') {
        Some((owner, rest)) if owner.starts_with('B') => format!(in alloc; "B+{rest}"),
        _ => String::from_str(alloc, slot),
    }
}

/// What printed references weigh: each weight is one digit behind an x.
fn weight_of(references: &str) -> u32 {
    let (mut weight, mut behind) = (0u32, false);
    for byte in references.bytes() {
        if behind {
            weight = weight.saturating_add(u32::from(byte.saturating_sub(b'0')));
        }
        behind = byte == b'x';
    }
    weight
}
