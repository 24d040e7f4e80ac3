//! The grammar of traces of calls.
ghost use Rattle.std.specs.Prelude.{◌≡◌, ◌+◌, ◌<◌, map, true, false, length, IfOk};
ghost use Rattle.hcc_player.specs.RunLine.{run_line, run_words, known_line, held_line};
ghost use Rattle.hcc_player.specs.RunLine.{insert_line, pin_line, lookup_line, reref_line, release_line};
ghost use Rattle.hcc_player.specs.RunLine.{value_line, erase_line, totals_line, word_line, stats_line};
ghost use Rattle.hcc_player.specs.RunLine.{register_at, key_at, priority_of, choice_of, IsSound};
ghost use Rattle.hcc_player.specs.Value.{Gives};

use crate::fault::{LineError, TextFault};
use crate::grammar::Grammar;
use crate::limits::MOST_REGISTERS;
use crate::number::{charge, number, number_below};
use crate::run::bytes::Bytes;
use crate::run::call::{Call, RunLine};
use crate::value::value;
use crate::words::{plain_words, word};
use hcc_cache::{Config, Key, Priority};
use std::alloc::Global;

/// The grammar of traces for a cache of this size.
#[derive(Clone, Copy, Debug)]
pub(crate) struct Calls {
    pub(crate) config: Config,
}

impl Grammar for Calls {
    ghost use Rattle.hcc_player.specs.RunLine.{run_line};

    type Line = RunLine;

    ghost says = { λ grammar line. run_line grammar.config line };

    fn line(&self, alloc: Global, line: &[u8]) -> Result<RunLine, LineError> {
        run_line(alloc, &self.config, line)
    }
}

/// Reads a line, given without its line feed. It allocates memory for the words and for the value,
/// and gives back all but the value.
#[tactic(auto, unfolding(crate::specs::RunLine::run_line))]
pub(crate) fn run_line(alloc: Global, config: &Config, line: &[u8]) -> Result<RunLine, LineError>
    ensures says { Gives result (run_line config.now line.now) }
    ensures sound { IfOk result (IsSound config.now) }
{
    let words = plain_words(alloc, line)?;
    run_words(alloc, config, &words)
}

/// What a line's words say, by its letter.
#[tactic(auto, unfolding(crate::specs::RunLine::run_words))]
fn run_words(alloc: Global, config: &Config, words: &[&[u8]]) -> Result<RunLine, LineError>
    ensures says { Gives result (run_words config.now (map (λ w. w.now) words.now)) }
    ensures sound { IfOk result (IsSound config.now) }
{
    if words.len() < 2 {
        return Err(LineError::Fault(TextFault::BadWord));
    }
    let letter = word(words, 1);
    if letter == b"I".as_slice() {
        return insert_line(alloc, config, words);
    }
    if letter == b"P".as_slice() {
        return pin_line(alloc, config, words);
    }
    let line = known_line(config, letter, words)?;
    Ok(line)
}

/// What a line says that has no value.
#[tactic(auto, unfolding(crate::specs::RunLine::known_line))]
fn known_line(config: &Config, letter: &[u8], words: &[&[u8]]) -> Result<RunLine, TextFault>
    ensures says { result ≡ known_line config.now letter.now (map (λ w. w.now) words.now) }
    ensures sound { IfOk result (IsSound config.now) }
{
    if letter == b"E".as_slice() {
        return erase_line(config, words);
    }
    if letter == b"U".as_slice() {
        return totals_line(config, words);
    }
    if letter == b"W".as_slice() {
        return word_line(config, words);
    }
    if letter == b"S".as_slice() {
        return stats_line(config, words);
    }
    held_line(config, letter, words)
}

/// What a line says of what registers hold.
#[tactic(auto, unfolding(crate::specs::RunLine::held_line))]
fn held_line(config: &Config, letter: &[u8], words: &[&[u8]]) -> Result<RunLine, TextFault>
    ensures says { result ≡ held_line config.now letter.now (map (λ w. w.now) words.now) }
    ensures sound { IfOk result (IsSound config.now) }
{
    if letter == b"G".as_slice() {
        return lookup_line(config, words);
    }
    if letter == b"F".as_slice() {
        return reref_line(config, words);
    }
    if letter == b"R".as_slice() {
        return release_line(config, words);
    }
    if letter == b"V".as_slice() {
        return value_line(config, words);
    }
    Err(TextFault::BadWord)
}

#[tactic(auto, unfolding(crate::specs::RunLine::insert_line))]
fn insert_line(alloc: Global, config: &Config, words: &[&[u8]]) -> Result<RunLine, LineError>
    ensures says { Gives result (insert_line config.now (map (λ w. w.now) words.now)) }
    ensures sound { IfOk result (IsSound config.now) }
{
    if words.len() != 7 {
        return Err(LineError::Fault(TextFault::BadWord));
    }
    let client = number_below(config.clients, word(words, 0))?;
    let key = key_at(words, 2)?;
    let charge = charge(word(words, 4))?;
    let priority = priority(word(words, 5))?;
    let value = value(alloc, 8 * config.room as usize, word(words, 6))?;
    Ok(RunLine {
        client,
        call: Call::Insert {
            key,
            charge,
            priority,
            value: Bytes::from_vec(value),
        },
    })
}

#[tactic(auto, unfolding(crate::specs::RunLine::pin_line))]
fn pin_line(alloc: Global, config: &Config, words: &[&[u8]]) -> Result<RunLine, LineError>
    ensures says { Gives result (pin_line config.now (map (λ w. w.now) words.now)) }
    ensures sound { IfOk result (IsSound config.now) }
{
    if words.len() != 8 {
        return Err(LineError::Fault(TextFault::BadWord));
    }
    let client = number_below(config.clients, word(words, 0))?;
    let register = register_at(words, 2)?;
    let key = key_at(words, 3)?;
    let charge = charge(word(words, 5))?;
    let priority = priority(word(words, 6))?;
    let value = value(alloc, 8 * config.room as usize, word(words, 7))?;
    Ok(RunLine {
        client,
        call: Call::Pin {
            register,
            key,
            charge,
            priority,
            value: Bytes::from_vec(value),
        },
    })
}

#[tactic(auto, unfolding(crate::specs::RunLine::lookup_line))]
fn lookup_line(config: &Config, words: &[&[u8]]) -> Result<RunLine, TextFault>
    ensures says { result ≡ lookup_line config.now (map (λ w. w.now) words.now) }
    ensures sound { IfOk result (IsSound config.now) }
{
    if words.len() != 5 {
        return Err(TextFault::BadWord);
    }
    let client = number_below(config.clients, word(words, 0))?;
    let register = register_at(words, 2)?;
    let key = key_at(words, 3)?;
    Ok(RunLine {
        client,
        call: Call::Lookup { register, key },
    })
}

#[tactic(auto, unfolding(crate::specs::RunLine::reref_line))]
fn reref_line(config: &Config, words: &[&[u8]]) -> Result<RunLine, TextFault>
    ensures says { result ≡ reref_line config.now (map (λ w. w.now) words.now) }
    ensures sound { IfOk result (IsSound config.now) }
{
    if words.len() != 4 {
        return Err(TextFault::BadWord);
    }
    let client = number_below(config.clients, word(words, 0))?;
    let register = register_at(words, 2)?;
    let from = register_at(words, 3)?;
    Ok(RunLine {
        client,
        call: Call::Reref { register, from },
    })
}

#[tactic(auto, unfolding(crate::specs::RunLine::release_line))]
fn release_line(config: &Config, words: &[&[u8]]) -> Result<RunLine, TextFault>
    ensures says { result ≡ release_line config.now (map (λ w. w.now) words.now) }
    ensures sound { IfOk result (IsSound config.now) }
{
    if words.len() != 5 {
        return Err(TextFault::BadWord);
    }
    let client = number_below(config.clients, word(words, 0))?;
    let register = register_at(words, 2)?;
    let useful = choice(b"U", b"N", word(words, 3))?;
    let erase = choice(b"E", b"K", word(words, 4))?;
    Ok(RunLine {
        client,
        call: Call::Release {
            register,
            useful,
            erase,
        },
    })
}

#[tactic(auto, unfolding(crate::specs::RunLine::value_line))]
fn value_line(config: &Config, words: &[&[u8]]) -> Result<RunLine, TextFault>
    ensures says { result ≡ value_line config.now (map (λ w. w.now) words.now) }
    ensures sound { IfOk result (IsSound config.now) }
{
    if words.len() != 3 {
        return Err(TextFault::BadWord);
    }
    let client = number_below(config.clients, word(words, 0))?;
    let register = register_at(words, 2)?;
    Ok(RunLine {
        client,
        call: Call::Value { register },
    })
}

#[tactic(auto, unfolding(crate::specs::RunLine::erase_line))]
fn erase_line(config: &Config, words: &[&[u8]]) -> Result<RunLine, TextFault>
    ensures says { result ≡ erase_line config.now (map (λ w. w.now) words.now) }
    ensures sound { IfOk result (IsSound config.now) }
{
    if words.len() != 4 {
        return Err(TextFault::BadWord);
    }
    let client = number_below(config.clients, word(words, 0))?;
    let key = key_at(words, 2)?;
    Ok(RunLine {
        client,
        call: Call::Erase { key },
    })
}

#[tactic(auto, unfolding(crate::specs::RunLine::totals_line))]
fn totals_line(config: &Config, words: &[&[u8]]) -> Result<RunLine, TextFault>
    ensures says { result ≡ totals_line config.now (map (λ w. w.now) words.now) }
    ensures sound { IfOk result (IsSound config.now) }
{
    if words.len() != 2 {
        return Err(TextFault::BadWord);
    }
    let client = number_below(config.clients, word(words, 0))?;
    Ok(RunLine {
        client,
        call: Call::Totals,
    })
}

#[tactic(auto, unfolding(crate::specs::RunLine::word_line))]
fn word_line(config: &Config, words: &[&[u8]]) -> Result<RunLine, TextFault>
    ensures says { result ≡ word_line config.now (map (λ w. w.now) words.now) }
    ensures sound { IfOk result (IsSound config.now) }
{
    if words.len() != 4 {
        return Err(TextFault::BadWord);
    }
    let client = number_below(config.clients, word(words, 0))?;
    let shard = number_below(config.shards, word(words, 2))?;
    let slot = number_below(config.slots, word(words, 3))?;
    Ok(RunLine {
        client,
        call: Call::Word { shard, slot },
    })
}

#[tactic(auto, unfolding(crate::specs::RunLine::stats_line))]
fn stats_line(config: &Config, words: &[&[u8]]) -> Result<RunLine, TextFault>
    ensures says { result ≡ stats_line config.now (map (λ w. w.now) words.now) }
    ensures sound { IfOk result (IsSound config.now) }
{
    if words.len() != 2 {
        return Err(TextFault::BadWord);
    }
    let client = number_below(config.clients, word(words, 0))?;
    Ok(RunLine {
        client,
        call: Call::Stats,
    })
}

/// The register of the word of this number.
#[tactic(auto, unfolding(crate::specs::RunLine::register_at))]
fn register_at(words: &[&[u8]], index: usize) -> Result<u32, TextFault>
    requires { index < length words.now }
    ensures { result ≡ register_at (map (λ w. w.now) words.now) index }
{
    number_below(MOST_REGISTERS, word(words, index))
}

/// The key whose two words begin at the word of this number.
#[tactic(auto, unfolding(crate::specs::RunLine::key_at))]
fn key_at(words: &[&[u8]], index: usize) -> Result<Key, TextFault>
    requires { index + 1 < length words.now }
    ensures { result ≡ key_at (map (λ w. w.now) words.now) index }
{
    let w0 = number(word(words, index))?;
    let w1 = number(word(words, index + 1))?;
    Ok(Key { w0, w1 })
}

/// Reads a priority.
#[tactic(auto, unfolding(crate::specs::RunLine::priority_of))]
fn priority(word: &[u8]) -> Result<Priority, TextFault>
    ensures { result ≡ priority_of word.now }
{
    if word == b"H".as_slice() {
        return Ok(Priority::High);
    }
    if word == b"L".as_slice() {
        return Ok(Priority::Low);
    }
    if word == b"B".as_slice() {
        return Ok(Priority::Bottom);
    }
    Err(TextFault::BadChoice)
}

/// Reads one of two words: whether it is the first.
#[tactic(auto, unfolding(crate::specs::RunLine::choice_of))]
fn choice(first: &[u8], second: &[u8], word: &[u8]) -> Result<bool, TextFault>
    ensures { result ≡ choice_of first.now second.now word.now }
{
    if word == first {
        return Ok(true);
    }
    if word == second {
        return Ok(false);
    }
    Err(TextFault::BadChoice)
}
