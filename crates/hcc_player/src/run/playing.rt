//! Plays a judged trace: its lines in order, and then the end.
ghost use Rattle.std.specs.Prelude.{◌≡◌, ◌++◌, ◌<◌, ◌≤◌, ℕ, List, Ok, IfOk, OnOk, OnErr, IfErr};
ghost use Rattle.std.specs.Prelude.{IsOk, length, string_bytes};
ghost use Rattle.hcc_rule.specs.declared.key.Key.{Key};
ghost use Rattle.hcc_cache.specs.Configs.{checked};
ghost use Rattle.hcc_player.specs.Bytes.{Leaves, AppendsPart};
ghost use Rattle.hcc_player.specs.Play.{FailsToPlay};
ghost use Rattle.hcc_player.specs.PlayRun.{Answered, AnsweredPart, AreManned, PlaysAll};
ghost use Rattle.hcc_player.specs.PlayRun.{CanAllPlay, Ended, EndedPart, FitsIn, IsOfSize, Steps};
ghost use Rattle.hcc_player.specs.RunAnswers.{answer_line, IsPlayed, PutsIn};
ghost use Rattle.hcc_player.specs.RunLine.{run_line, IsSound, IsSoundCall};
ghost use Rattle.hcc_player.specs.Runs.{AreEmpty, ClosesAfter, Makes};
ghost use Rattle.hcc_player.specs.RunStates.{new_states};
ghost use Rattle.hcc_player.specs.TraceTag.{run_trace, said};

use crate::fault::{LineError, PlayError};
use crate::output::{flush, spill, write_out};
use crate::report::sums_text;
use crate::run::answer::{Answer, push_answer_line};
use crate::run::call::RunLine;
use crate::run::calls::{answer, let_go};
use crate::run::line::run_line;
use crate::run::registers::Registers;
use crate::run::tag::TraceTag;
use crate::script::next_line;
use crate::sums::sums_of;
use hcc_cache::laws::{
    law_erasures, law_kept_shown, law_lookups, law_matches, law_room, law_totals,
};
use hcc_cache::{Cache, Client, Closed, Config, Tag};
use std::alloc::{AllocError, Global};
use std::io::Write;

/// Plays a trace that was judged on a new cache, and writes all that it is answered.
pub(crate) fn play_text<W: Write>(
    alloc: Global,
    config: Config,
    text: &[u8],
    writer: &mut W,
) -> Result<(), PlayError>
    requires allowed { checked config ≡ Ok tt }
    requires good { IsOk (run_trace config text.now) }
    ensures ok { OnOk result (PlaysAll config (said (run_trace config text.now))
        (W.contents writer.old) (W.contents writer.new)) }
    ensures part { OnErr result ((out : List ℕ)
        × IsPlayed config (said (run_trace config text.now)) out
        × AppendsPart (W.contents writer.old) (W.contents writer.new) out) }
    ensures err { IfErr result FailsToPlay }
{
    law_lookups::<TraceTag<'_>>();
    law_erasures::<TraceTag<'_>>();
    law_totals::<TraceTag<'_>>();
    law_matches::<TraceTag<'_>>();
    law_room::<TraceTag<'_>>();
    law_kept_shown::<TraceTag<'_>>();
    let Ok((cache, clients)) = Cache::new(alloc, config, TraceTag { config, text }) else {
        return Err(PlayError::OutOfMemory);
    };
    let mut clients = clients;
    let mut registers = empty(alloc, clients.len())?;
    let mut pending = String::new(alloc);
    play_lines(
        alloc,
        config,
        text,
        &cache,
        &mut clients,
        &mut registers,
        &mut pending,
        writer,
    )?;
    finish(alloc, cache, clients, registers, &mut pending, writer)
}

/// Empty registers for so many clients.
fn empty(alloc: Global, count: usize) -> Result<Vec<Registers>, AllocError>
    ensures count { IfOk result (λ all. length all.items ≡ count) }
    ensures empty { IfOk result (λ all. AreEmpty all.items) }
{
    let mut all = Vec::with_capacity(alloc, count)?;
    while all.len() < count {
        all.push(Registers::new(alloc))?;
    }
    Ok(all)
}

/// Makes the calls of a trace in turn, and adds their answers' lines to the output.
fn play_lines<T: Tag, W: Write>(
    alloc: Global,
    config: Config,
    text: &[u8],
    cache: &Cache<T>,
    clients: &mut Vec<Client<T>>,
    registers: &mut Vec<Registers>,
    pending: &mut String,
    writer: &mut W,
) -> Result<(), PlayError>
    requires good { IsOk (run_trace config text.now) }
    requires size { IsOfSize config cache.now clients.old.items }
    requires fits { FitsIn T.fits cache.now (said (run_trace config text.now)) }
    requires manned { AreManned T.fits cache.now config new_states clients.old.items
        registers.old.items }
    ensures ok { OnOk result (Answered (T.fits cache.now.tag) T.fits cache.now config
        (said (run_trace config text.now)) clients.old.items clients.new.items
        registers.old.items registers.new.items (W.contents writer.old) (W.contents writer.new)
        (string_bytes pending.old) (string_bytes pending.new)) }
    ensures manned { OnOk result
        (CanAllPlay T.fits cache.now clients.new.items registers.new.items) }
    ensures count { length clients.new.items ≡ length clients.old.items }
    ensures part { OnErr result (AnsweredPart (T.fits cache.now.tag) config
        (said (run_trace config text.now))
        (W.contents writer.old) (W.contents writer.new) (string_bytes pending.old)) }
    ensures err { IfErr result FailsToPlay }
{
    let mut rest = text;
    while let Some((bytes, after)) = next_line(rest) {
        let line = judged_call(alloc, &config, bytes)?;
        let answer = answer_to(alloc, cache, clients, registers, line)?;
        tell(&answer, pending, writer)?;
        rest = after;
    }
    Ok(())
}

/// What a line says that was judged.
fn judged_call(alloc: Global, config: &Config, line: &[u8]) -> Result<RunLine, PlayError>
    requires { IsOk (run_line config.now line.now) }
    ensures ok { IfOk result (λ told. run_line config.now line.now ≡ Ok told) }
    ensures sound { IfOk result (IsSound config.now) }
    ensures err { IfErr result (λ error. error ≡ PlayError.OutOfMemory) }
{
    match run_line(alloc, config, line) {
        Ok(told) => Ok(told),
        Err(LineError::Fault(_)) => unreachable!(),
        Err(LineError::OutOfMemory) => Err(PlayError::OutOfMemory),
    }
}

/// Makes the call of a line, by its client.
fn answer_to<T: Tag>(
    alloc: Global,
    cache: &Cache<T>,
    clients: &mut Vec<Client<T>>,
    registers: &mut Vec<Registers>,
    line: RunLine,
) -> Result<Answer, AllocError>
    requires client { line.client < length clients.old.items }
    requires manned { CanAllPlay T.fits cache.now clients.old.items registers.old.items }
    requires sound { IsSoundCall cache.now.geometry.room (length cache.now.shards.items)
        cache.now.geometry.slots line.call }
    requires fits { (key : Key) (value : List ℕ) → PutsIn line.call key value
        → T.fits cache.now.tag key value }
    ensures steps { IfOk result (λ answer. Steps T.fits cache.now line answer
        clients.old.items clients.new.items registers.old.items registers.new.items) }
    ensures did { IfOk result (λ answer. Makes T.fits cache.now line answer
        clients.old.items clients.new.items registers.old.items registers.new.items) }
    ensures count { length clients.new.items ≡ length clients.old.items }
{
    let number = line.client as usize;
    answer(
        alloc,
        cache,
        &mut clients[number],
        &mut registers[number],
        line.call,
    )
}

/// Adds an answer's line to the output.
#[tactic(auto, using(crate::proofs::ByteLemmas::writes_nothing))]
fn tell<W: Write>(answer: &Answer, pending: &mut String, writer: &mut W) -> Result<(), PlayError>
    ensures ok { OnOk result (Leaves (W.contents writer.old) (W.contents writer.new)
        (string_bytes pending.old ++ answer_line answer.now) (string_bytes pending.new)) }
    ensures part { OnErr result (AppendsPart (W.contents writer.old) (W.contents writer.new)
        (string_bytes pending.old ++ answer_line answer.now)) }
    ensures err { IfErr result FailsToPlay }
{
    push_answer_line(pending, answer)?;
    spill(pending, writer)
}

/// Releases what is held, closes the cache, and writes the sums behind what is pending.
fn finish<T: Tag + Copy, W: Write>(
    alloc: Global,
    cache: Cache<T>,
    clients: Vec<Client<T>>,
    registers: Vec<Registers>,
    pending: &mut String,
    writer: &mut W,
) -> Result<(), PlayError>
    requires enough { cache.geometry.clients ≤ length clients.items }
    requires manned { CanAllPlay T.fits cache clients.items registers.items }
    ensures ok { OnOk result (Ended T.fits cache clients.items registers.items
        (W.contents writer.old) (W.contents writer.new) (string_bytes pending.old)) }
    ensures part { OnErr result (EndedPart (W.contents writer.old) (W.contents writer.new)
        (string_bytes pending.old)) }
    ensures err { IfErr result FailsToPlay }
{
    let sums = sums_of(&closed(cache, clients, registers));
    let report = sums_text(alloc, sums)?;
    pending.push_str(&report)?;
    write_out(writer, pending.as_bytes())?;
    flush(writer)
}

/// The cache closed, once all that is held was released: by client, and then by register.
fn closed<T: Tag + Copy>(
    cache: Cache<T>,
    mut clients: Vec<Client<T>>,
    registers: Vec<Registers>,
) -> Closed
    requires enough { cache.geometry.clients ≤ length clients.items }
    requires manned { CanAllPlay T.fits cache clients.items registers.items }
    ensures { ClosesAfter T.fits cache clients.items registers.items result }
{
    for number in 0..clients.len() {
        let_go(&cache, &mut clients[number], &registers[number]);
    }
    match cache.close(clients) {
        Ok(closed) => closed,
        Err(_) => unreachable!(),
    }
}
