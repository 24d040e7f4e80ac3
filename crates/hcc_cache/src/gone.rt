//! What a client's calls freed, in a cache of objects.
ghost use Rattle.std.specs.Prelude.{◌≡◌, ◌+◌, ◌-◌, ◌<◌, ◌≤◌, ◌∷◌, ◌++◌, [], IfNone, IfOk, IfSome, length, take};

use crate::seeded::Seeded;
use hcc_rule::{Key, Tag};
use hcc_table::{Freed, FreedList};
use std::alloc::{AllocError, Global};

/// The tag of a cache of objects: the value of an entry is one word, which stands for an object.
#[derive(Clone, Copy, Debug, PartialEq, Eq)]
pub struct Objects;

impl Tag for Objects {
    ghost use Rattle.std.specs.Prelude.{◌≡◌, length};

    ghost fits = { λ tag key value. length value ≡ 8 };
}

/// The entries that a client's calls freed and that it hasn't taken back yet, in order.
///
/// All its places are made when it is opened, so putting an entry there takes no memory.
#[derive(Drop)]
pub(crate) struct GoneList {
    places: Vec<Freed>,
    /// How many places are taken: the first ones.
    count: usize,
    /// How many may be taken by what calls free. The places beyond are for the client's own
    /// standalone entries.
    most: usize,
    ghost within: { count ≤ length places.items },
    ghost room: { most ≤ length places.items },
}

impl GoneList {
    /// An empty list, for so many entries that calls free and so many that stand alone.
    pub(crate) fn open(alloc: Global, most: u32, alone: u32) -> Result<GoneList, AllocError>
        ensures empty { IfOk result (λ list. list.count ≡ 0) }
        ensures most { IfOk result (λ list. list.most ≡ most) }
        ensures places { IfOk result (λ list. length list.places.items ≡ most + alone) }
    {
        let none = Freed {
            key: Key { w0: 0, w1: 0 },
            word: 0,
        };
        let places = Vec::from_elem(alloc, none, most as usize + alone as usize)?;
        Ok(GoneList {
            places,
            count: 0,
            most: most as usize,
        })
    }

    /// How many entries are on it.
    pub(crate) fn len(&self) -> usize
        ensures { result ≡ self.now.count }
    {
        self.count
    }

    /// How many places are left on it, for the client's own entries, too.
    pub(crate) fn places_left(&self) -> usize
        ensures { result ≡ length self.now.places.items - self.now.count }
    {
        self.places.len() - self.count
    }

    /// Puts an entry behind the others.
    pub(crate) fn add(&mut self, freed: Freed)
        requires { self.old.count < length self.old.places.items }
        ensures gone { take self.new.count self.new.places.items
            ≡ take self.old.count self.old.places.items ++ freed ∷ [] }
        ensures places { length self.new.places.items - self.new.count + 1
            ≡ length self.old.places.items - self.old.count }
        ensures most { self.new.most ≡ self.old.most }
        ensures count { self.new.count ≡ self.old.count + 1 }
    {
        self.places[self.count] = freed;
        self.count += 1;
    }

    /// Takes the newest entry off, if there is one.
    pub(crate) fn take(&mut self) -> Option<Freed>
        ensures some { IfSome result (λ freed. take self.old.count self.old.places.items
            ≡ take self.new.count self.new.places.items ++ freed ∷ []) }
        ensures none { IfNone result ((take self.old.count self.old.places.items ≡ [])
            × (self.new ≡ self.old)) }
        ensures places { IfSome result (λ freed. length self.new.places.items - self.new.count
            ≡ length self.old.places.items - self.old.count + 1) }
        ensures most { self.new.most ≡ self.old.most }
    {
        if self.count == 0 {
            return None;
        }
        self.count -= 1;
        Some(self.places[self.count])
    }
}

impl FreedList<Seeded<Objects>> for GoneList {
    ghost use Rattle.std.specs.Prelude.{Some, length, take};
    ghost use Rattle.hcc_table.specs.Lists.{Shelf};
    ghost use Rattle.hcc_cache.specs.Gone.{word_whole};

    ghost shelf = { λ list. Some (record {
      freed = take list.count list.places.items;
      most = list.most;
      places = length list.places.items;
    }) };

    ghost loads = { 1 };

    ghost whole = { λ list tag key value kept fits. word_whole value fits.right };

    #[inline(always)]
    fn is_kept(&self) -> bool {
        true
    }

    #[inline(always)]
    fn has_room(&self, entries: u32) -> bool {
        entries as usize <= self.most.saturating_sub(self.count)
    }

    fn put(&mut self, freed: Freed) {
        self.add(freed);
    }
}
