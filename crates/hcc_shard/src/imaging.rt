//! The image of a closed shard.
ghost use Rattle.std.specs.Prelude.{◌≡◌, ℕ, ◌<◌, Bool, IfOk, None, false, true};
ghost use Rattle.std.specs.List.{list_any};
ghost use Rattle.hcc_rule.specs.Closing.{IsWithin, words_of};
ghost use Rattle.hcc_shard.specs.Imaged.{AreShown, ShownAt};
ghost use Rattle.hcc_shard.specs.Reopened.{is_long, is_rising, refusal_of};

use crate::entries::ClosedShard;
use hcc_rule::ImageEntry;
use hcc_word::layout::VISIBLE;
use hcc_word::{releases, state};
use std::alloc::{AllocError, Allocator, Global};

impl<A: Allocator> ClosedShard<A> {
    /// The visible entries that are left, in the order of their slots, each with its uses. Hidden
    /// entries and marks are left out. `reopen` refuses them for a shard of the same size only for
    /// memory, unless its capacity is strict and below the charges of all entries in sum; that of
    /// the closed shard isn't. Each value fits its key by the tag of the closed shard, as `close`
    /// says.
    ///
    /// It fails only if it can't allocate the list and each value. It costs a load for each slot,
    /// and for each entry five more and one for each eight bytes.
    pub fn image(&self, alloc: Global) -> Result<Vec<ImageEntry>, AllocError>
        ensures exact { IfOk result (λ image.
            AreShown self.now.table self.now.table.geometry.slots image.items) }
        ensures rising { IfOk result (λ image.
            is_rising 0 self.now.table.geometry.slots image.items ≡ true) }
        ensures short { IfOk result (λ image.
            list_any (is_long self.now.table.geometry.room) image.items ≡ false) }
        ensures taken { (capacity : ℕ) (strict : Bool)
            → IsWithin self.now.table.geometry capacity strict (words_of self.now.table)
            → IfOk result (λ image.
            refusal_of self.now.table.geometry capacity strict image.items ≡ None) }
    {
        let mut image = Vec::new(alloc);
        for slot in 0..self.geometry().slots {
            if let Some(entry) = self.shown(alloc, slot)? {
                image.push(entry)?;
            }
        }
        Ok(image)
    }

    /// The visible entry of a slot, if it has one.
    fn shown(&self, alloc: Global, slot: u32) -> Result<Option<ImageEntry>, AllocError>
        requires { slot < self.now.table.geometry.slots }
        ensures { IfOk result (λ found. ShownAt self.now.table slot found) }
    {
        let Some(entry) = self.entry(slot) else {
            return Ok(None);
        };
        if state(entry.word) != VISIBLE {
            return Ok(None);
        }
        let mut value = Vec::from_elem(alloc, 0u8, entry.len as usize)?;
        self.value(slot, value.as_mut_slice());
        Ok(Some(ImageEntry {
            slot,
            key: entry.key,
            value,
            charge: entry.charge as u32,
            uses: releases(entry.word),
        }))
    }
}
