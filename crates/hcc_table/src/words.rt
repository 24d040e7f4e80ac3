//! What a meta word that was found says.
ghost use Rattle.std.specs.Prelude.{◌≡◌};
ghost use Rattle.hcc_word.specs.Word.{is_shareable, is_visible, is_counting};

use hcc_word::layout::{INVISIBLE, NEAR, VISIBLE};
use hcc_word::{releases, state};

/// Whether it is the word of an entry, visible or hidden.
pub(crate) fn has_entry(word: u64) -> bool
    ensures { result ≡ is_shareable word }
{
    state(word) >= INVISIBLE
}

/// Whether it is the word of an entry that look-ups find.
pub(crate) fn is_shown(word: u64) -> bool
    ensures { result ≡ is_visible word }
{
    state(word) == VISIBLE
}

/// Whether references that an acquire got there count, so that a release may be a use.
pub(crate) fn is_counting(word: u64) -> bool
    ensures { result ≡ is_counting word }
{
    releases(word) < NEAR
}
