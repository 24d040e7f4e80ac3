//! Lists on which calls put the entries that they free.
ghost use Rattle.std.specs.Prelude.{◌≡◌, ◌∷◌, [], None, is_some, true};
ghost use Rattle.std.specs.Int.{from_bool};
ghost use Rattle.hcc_table.specs.Lists.{Puts, has_room};

use hcc_rule::{Key, Tag};

/// An entry that was freed, as a list of such has it: its key, and the first word of its value.
#[derive(Clone, Copy, Debug, PartialEq, Eq)]
pub struct Freed {
    pub key: Key,
    pub word: u64,
}

/// A list on which a call puts the entries that it frees, in order.
pub trait FreedList<T: Tag> {
    ghost use Rattle.std.specs.Prelude.{◌≡◌, ◌≤◌, ℕ, List, Option, is_some, length, true};
    ghost use Rattle.hcc_rule.specs.declared.key.Key.{Key};
    ghost use Rattle.hcc_table.specs.Lists.{Shelf};

    // What is on it, and how large it is; none where what is freed is let go.
    ghost shelf: { Self → Option Shelf };

    // How many loads it takes to put an entry there.
    ghost loads: { ℕ };

    /// Whether what is freed is put on it, and not let go.
    fn is_kept(&self) -> bool
        ensures kept { result ≡ is_some (shelf self.now) }
        ensures loads { loads ≡ from_bool result };

    /// Whether it has room for so many entries more.
    fn has_room(&self, entries: u32) -> bool
        ensures { result ≡ has_room entries (shelf self.now) };

    /// Puts an entry behind those that are on it.
    fn put(&mut self, freed: Freed)
        requires { has_room 1 (shelf self.old) ≡ true }
        ensures { Puts (freed ∷ []) (shelf self.old) (shelf self.new) };

    /// What is right for a key has a word.
    ghost whole: { (list : Self) (tag : T) (key : Key) (value : List ℕ)
        → is_some (shelf list) ≡ true → T.fits tag key value → 1 ≤ length value };
}

/// No list: what is freed is let go.
#[derive(Clone, Copy, Debug, PartialEq, Eq)]
pub struct NoList;

impl<T: Tag> FreedList<T> for NoList {
    ghost shelf = { λ list. None };

    ghost loads = { 0 };

    ghost whole = { λ list tag key value kept fits. absurd cc };

    #[inline(always)]
    fn is_kept(&self) -> bool {
        false
    }

    #[inline(always)]
    fn has_room(&self, _entries: u32) -> bool {
        true
    }

    #[inline(always)]
    fn put(&mut self, _freed: Freed) {}
}
