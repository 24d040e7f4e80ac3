//! What the lines of a trace are answered.
ghost use Rattle.std.specs.Prelude.{◌≡◌, ◌++◌, OnOk, string_bytes};
ghost use Rattle.hcc_player.specs.RunAnswers.{answer_line, answer_text, error_text, freed_text, named};
ghost use Rattle.hcc_player.specs.RunAnswers.{searches_text, stats_text, totals_answer, tries_text};
ghost use Rattle.hcc_player.specs.RunAnswers.{word_answer};

use crate::print::{push_bytes, push_value};
use crate::run::bytes::Bytes;
use hcc_cache::{InsertError, Stats};
use std::alloc::AllocError;

/// What a line is answered.
#[derive(Drop)]
pub(crate) enum Answer {
    Placed,
    Dropped,
    Standalone,
    Refused(InsertError),
    /// The register to be filled holds a handle; no call was made.
    Busy,
    Hit,
    Miss,
    Held,
    Freed,
    Kept,
    /// The register to be read is empty; no call was made.
    Nothing,
    Value(Bytes),
    Erased(u32),
    Totals {
        usage: u64,
        pinned: u64,
        occupancy: u64,
    },
    Word {
        word: u64,
        displaced: u64,
    },
    Stats(Stats),
}

/// Writes an answer's line.
pub(crate) fn push_answer_line(out: &mut String, answer: &Answer) -> Result<(), AllocError>
    ensures { OnOk result
        (string_bytes out.new ≡ string_bytes out.old ++ answer_line answer.now) }
{
    push_answer(out, answer)?;
    out.push_str("\n")
}

/// Writes an answer.
#[tactic(auto, unfolding(crate::specs::RunAnswers::answer_text))]
fn push_answer(out: &mut String, answer: &Answer) -> Result<(), AllocError>
    ensures { OnOk result
        (string_bytes out.new ≡ string_bytes out.old ++ answer_text answer.now) }
{
    match answer {
        Answer::Placed => out.push_str("placed"),
        Answer::Dropped => out.push_str("dropped"),
        Answer::Standalone => out.push_str("standalone"),
        Answer::Refused(error) => push_error(out, *error),
        Answer::Busy => out.push_str("busy"),
        Answer::Hit => out.push_str("hit"),
        Answer::Miss => out.push_str("miss"),
        Answer::Held => out.push_str("held"),
        Answer::Freed => out.push_str("freed"),
        Answer::Kept => out.push_str("kept"),
        Answer::Nothing => out.push_str("none"),
        Answer::Value(value) => {
            out.push_str("value ")?;
            push_value(out, value.as_slice())
        }
        Answer::Erased(count) => write!(out, "erased {count}"),
        Answer::Totals {
            usage,
            pinned,
            occupancy,
        } => push_totals(out, *usage, *pinned, *occupancy),
        Answer::Word { word, displaced } => push_word(out, *word, *displaced),
        Answer::Stats(stats) => push_stats(out, *stats),
    }
}

#[tactic(auto, unfolding(crate::specs::RunAnswers::error_text))]
fn push_error(out: &mut String, error: InsertError) -> Result<(), AllocError>
    ensures { OnOk result
        (string_bytes out.new ≡ string_bytes out.old ++ error_text error) }
{
    match error {
        InsertError::HandlesFull => out.push_str("refused HandlesFull"),
        InsertError::Spent => out.push_str("refused Spent"),
        InsertError::TooLarge => out.push_str("refused TooLarge"),
        InsertError::CapacityFull => out.push_str("refused CapacityFull"),
        InsertError::OccupancyFull => out.push_str("refused OccupancyFull"),
    }
}

#[tactic(auto, unfolding(crate::specs::RunAnswers::totals_answer))]
fn push_totals(out: &mut String, usage: u64, pinned: u64, occupancy: u64) -> Result<(), AllocError>
    ensures { OnOk result (string_bytes out.new
        ≡ string_bytes out.old ++ totals_answer usage pinned occupancy) }
{
    push_named(out, "usage ", usage)?;
    push_named(out, " pinned ", pinned)?;
    push_named(out, " occupancy ", occupancy)
}

#[tactic(auto, unfolding(crate::specs::RunAnswers::word_answer))]
fn push_word(out: &mut String, word: u64, displaced: u64) -> Result<(), AllocError>
    ensures { OnOk result
        (string_bytes out.new ≡ string_bytes out.old ++ word_answer word displaced) }
{
    out.push_str("word ")?;
    push_bytes(out, &word.to_be_bytes())?;
    push_named(out, " displaced ", displaced)
}

fn push_stats(out: &mut String, stats: Stats) -> Result<(), AllocError>
    ensures { OnOk result
        (string_bytes out.new ≡ string_bytes out.old ++ stats_text stats) }
{
    push_searches(out, stats)?;
    push_freed(out, stats)?;
    push_tries(out, stats)
}

#[tactic(auto, unfolding(crate::specs::RunAnswers::searches_text))]
fn push_searches(out: &mut String, stats: Stats) -> Result<(), AllocError>
    ensures { OnOk result
        (string_bytes out.new ≡ string_bytes out.old ++ searches_text stats) }
{
    push_named(out, "stats probes ", stats.probes)?;
    push_named(out, " boosts ", stats.boosts)?;
    push_named(out, " evicted ", stats.evicted)
}

#[tactic(auto, unfolding(crate::specs::RunAnswers::freed_text))]
fn push_freed(out: &mut String, stats: Stats) -> Result<(), AllocError>
    ensures { OnOk result
        (string_bytes out.new ≡ string_bytes out.old ++ freed_text stats) }
{
    push_named(out, " hit ", stats.evicted_hit)?;
    push_named(out, " freed ", stats.freed)?;
    push_named(out, " turns ", stats.turns)
}

#[tactic(auto, unfolding(crate::specs::RunAnswers::tries_text))]
fn push_tries(out: &mut String, stats: Stats) -> Result<(), AllocError>
    ensures { OnOk result
        (string_bytes out.new ≡ string_bytes out.old ++ tries_text stats) }
{
    push_named(out, " corrections ", stats.corrections)?;
    push_named(out, " lost ", stats.lost)
}

/// Writes a name, and a number.
fn push_named(out: &mut String, name: &str, number: u64) -> Result<(), AllocError>
    ensures { OnOk result
        (string_bytes out.new ≡ string_bytes out.old ++ named name.now number) }
{
    out.push_str(name)?;
    write!(out, "{number}")
}
