//! What a cache of objects has left once it is closed.
ghost use Rattle.std.specs.Prelude.{◌≡◌, ◌+◌, ◌<◌, ◌≤◌, ◌∷◌, [], IfErr, IfNone, IfSome, IsOk, OnOk, length, option_map};
ghost use Rattle.hcc_cache.specs.declared.objects.Gone.{Gone};
ghost use Rattle.hcc_cache.specs.Left.{slots_at};
ghost use Rattle.hcc_cache.specs.ObjectsLeft.{AreWords, ObjectAt, left_at};

use crate::closed::Closed;
use crate::objects::{Gone, Object};

/// The objects that the table of a closed cache has left, which `next` hands out one by one.
///
/// It can't be dropped: it ends by `end`, once all are handed out.
pub struct ObjectsLeft {
    pub(crate) closed: Closed,
    /// The slot that `next` looks at first, and its shard.
    pub(crate) shard: usize,
    pub(crate) slot: u32,
    ghost words: { AreWords closed.shards.items },
    ghost within: { slot ≤ slots_at closed.shards.items shard },
}

impl ObjectsLeft {
    /// The next object, with the key of its insertion; none where all were handed out.
    ///
    /// It allocates nothing. It costs a load for each slot up to that of the next entry, and six
    /// for that.
    pub fn next(&mut self) -> Option<Gone>
        ensures some { IfSome result (λ gone. left_at self.old.closed self.old.shard self.old.slot
            ≡ (gone.key, gone.object) ∷ left_at self.new.closed self.new.shard self.new.slot) }
        ensures none { IfNone result ((left_at self.old.closed self.old.shard self.old.slot ≡ [])
            × (length self.new.closed.shards.items ≤ self.new.shard)) }
        ensures same { self.new.closed ≡ self.old.closed }
    {
        while self.shard < self.closed.shards() {
            if let Some(gone) = self.next_of_shard() {
                return Some(gone);
            }
            self.shard += 1;
            self.slot = 0;
        }
        None
    }

    /// The next object of the shard at which it is.
    fn next_of_shard(&mut self) -> Option<Gone>
        requires { self.old.shard < length self.old.closed.shards.items }
        ensures some { IfSome result (λ gone. left_at self.old.closed self.old.shard self.old.slot
            ≡ (gone.key, gone.object) ∷ left_at self.new.closed self.new.shard self.new.slot) }
        ensures none { IfNone result (left_at self.old.closed self.old.shard self.old.slot
            ≡ left_at self.new.closed (self.new.shard + 1) 0) }
        ensures same { (self.new.closed ≡ self.old.closed) × (self.new.shard ≡ self.old.shard) }
    {
        while self.slot < self.closed.slots(self.shard) {
            let slot = self.slot;
            self.slot += 1;
            if let Some(gone) = self.object(slot) {
                return Some(gone);
            }
        }
        None
    }

    /// The object of a slot's entry, if it has one.
    fn object(&self, slot: u32) -> Option<Gone>
        requires { slot < slots_at self.now.closed.shards.items self.now.shard }
        ensures { ObjectAt self.now.closed self.now.shard slot
            (option_map (λ (gone : Gone). (gone.key, gone.object)) result) }
    {
        let entry = self.closed.entry(self.shard, slot)?;
        let mut value = [0; 8];
        self.closed.value(self.shard, slot, &mut value);
        Some(Gone {
            key: entry.key,
            object: Object::of(u64::from_le_bytes(value)),
        })
    }

    /// Ends the walk, once `next` has said that none is left; else it is handed back.
    pub fn end(self) -> Result<(), ObjectsLeft>
        ensures ended { OnOk result (left_at self.closed self.shard self.slot ≡ []) }
        ensures past { length self.closed.shards.items ≤ self.shard → IsOk result }
        ensures left { IfErr result (λ left. left ≡ self) }
    {
        if self.shard < self.closed.shards() {
            return Err(self);
        }
        let ObjectsLeft {
            closed: _,
            shard: _,
            slot: _,
        } = self;
        Ok(())
    }
}
