//! Reads the words of lines.
ghost use Rattle.std.specs.Prelude.{◌≡◌, ◌<◌, length, map, IfOk};
ghost use Rattle.std.specs.List.{list_all};
ghost use Rattle.hcc_player.specs.Value.{GivesAs};
ghost use Rattle.hcc_player.specs.Words.{word_at, has_empty_word, words_of, is_plain, plain_words};

use crate::fault::{LineError, TextFault};
use crate::limits::MOST_LINE;
use std::alloc::{AllocError, Global};

/// The words of a line, given without its line feed. It allocates memory for the list of them.
#[tactic(auto, unfolding(crate::specs::Words::plain_words))]
pub fn plain_words<'a>(alloc: Global, line: &'a [u8]) -> Result<Vec<&'a [u8]>, LineError>
    ensures words { GivesAs (λ words. map (λ w. w.now) words.items) result (plain_words line.now) }
    ensures some { IfOk result (λ words. 0 < length words.items) }
{
    if line.len() > MOST_LINE {
        return Err(LineError::Fault(TextFault::TooLong));
    }
    if !is_plain_line(line) {
        return Err(LineError::Fault(TextFault::NotAscii));
    }
    let words = words_of(alloc, line)?;
    if words.is_empty() || has_empty_word(&words) {
        return Err(LineError::Fault(TextFault::BadWord));
    }
    Ok(words)
}

fn is_plain_line(line: &[u8]) -> bool
    ensures { result ≡ list_all is_plain line.now }
{
    line.iter().all(|byte| 32 <= *byte && *byte <= 126)
}

/// The words of a line, cut at each space.
fn words_of<'a>(alloc: Global, line: &'a [u8]) -> Result<Vec<&'a [u8]>, AllocError>
    ensures { IfOk result (λ words. map (λ w. w.now) words.items ≡ words_of line.now) }
{
    line.split(|byte| *byte == b' ').collect(alloc)
}

fn has_empty_word(words: &[&[u8]]) -> bool
    ensures { result ≡ has_empty_word (map (λ w. w.now) words.now) }
{
    for word in words {
        if word.is_empty() {
            return true;
        }
    }
    false
}

/// The word of this number, counted from 0.
#[tactic(auto, unfolding(crate::specs::Words::word_at))]
pub fn word<'a>(words: &[&'a [u8]], index: usize) -> &'a [u8]
    requires { index < length words.now }
    ensures { result.now ≡ word_at (map (λ w. w.now) words.now) index }
{
    words[index]
}
