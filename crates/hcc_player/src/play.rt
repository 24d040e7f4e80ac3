//! Plays a script from a reader to a writer.
ghost use Rattle.std.specs.Prelude.{◌≡◌, ◌++◌, ◌+◌, ◌⊎◌, IfOk, OnOk, OnErr, IfErr, IfSome, IsOk};
ghost use Rattle.std.specs.Prelude.{string_bytes};
ghost use Rattle.std.specs.Io.KnownBytes.{Appends, Keeps};
ghost use Rattle.hcc_core.specs.Steps.{outcome_of};
ghost use Rattle.hcc_core.specs.Opening.{CanOpen};
ghost use Rattle.hcc_core.specs.Runs.{after};
ghost use Rattle.hcc_player.specs.Bytes.{Leaves, AppendsPart, TakesAtMost};
ghost use Rattle.hcc_player.specs.Text.{answer_of, event_text};
ghost use Rattle.hcc_player.specs.Script.{lines_of};
ghost use Rattle.hcc_player.specs.Play.{events_in, played, script_text, EndsAt, FailsToPlay};
ghost use Rattle.hcc_player.specs.Play.{GiveEvents, IsScript, WritesLate};

use crate::fault::PlayError;
use crate::input::read_all;
use crate::limits::MOST_INPUT;
use crate::line::Events;
use crate::output::{flush, spill, write_out};
use crate::print::push_line;
use crate::script::{judge_all, judged_line, next_line};
use hcc_core::event::{CoreError, Event, Reply};
use hcc_core::setup::Setup;
use hcc_core::world::World;
use std::alloc::Global;
use std::io::{Read, Write};

/// Makes one step: what it answered, if memory was not refused.
fn answer(world: &mut World, event: Event) -> Result<Result<Reply, CoreError>, PlayError>
    ensures answer { IfOk result (λ answer. answer ≡ answer_of (outcome_of world.old event)) }
    ensures world { OnOk result (world.new ≡ after world.old event) }
    ensures err { IfErr result (λ error. error ≡ PlayError.OutOfMemory) }
{
    match world.step(event) {
        Ok(reply) => Ok(Ok(reply)),
        Err(CoreError::OutOfMemory) => Err(PlayError::OutOfMemory),
        Err(error) => Ok(Err(error)),
    }
}

/// Makes one step, and adds its line to the output.
#[tactic(auto, using(crate::proofs::ByteLemmas::writes_nothing))]
fn play_event<W: Write>(
    world: &mut World,
    event: Event,
    pending: &mut String,
    writer: &mut W,
) -> Result<(), PlayError>
    ensures world { OnOk result (world.new ≡ after world.old event) }
    ensures ok { OnOk result (Leaves (W.contents writer.old) (W.contents writer.new)
        (string_bytes pending.old ++ event_text world.old event) (string_bytes pending.new)) }
    ensures part { OnErr result (AppendsPart (W.contents writer.old) (W.contents writer.new)
        (string_bytes pending.old ++ event_text world.old event)) }
    ensures err { IfErr result FailsToPlay }
{
    let answer = answer(world, event)?;
    push_line(pending, &answer, world)?;
    spill(pending, writer)
}

/// Makes the steps of a script in turn, and adds their lines to the output.
fn play_lines<W: Write>(
    alloc: Global,
    text: &[u8],
    world: &mut World,
    pending: &mut String,
    writer: &mut W,
) -> Result<(), PlayError>
    requires { IsOk (events_in text.now) }
    ensures ok { OnOk result (Leaves (W.contents writer.old) (W.contents writer.new)
        (string_bytes pending.old ++ played world.old (events_in text.now))
        (string_bytes pending.new)) }
    ensures part { OnErr result (AppendsPart (W.contents writer.old) (W.contents writer.new)
        (string_bytes pending.old ++ played world.old (events_in text.now))) }
    ensures err { IfErr result FailsToPlay }
{
    let mut rest = text;
    while let Some((line, after)) = next_line(rest) {
        let event = judged_line(alloc, &Events, line)?;
        play_event(world, event, pending, writer)?;
        rest = after;
    }
    Ok(())
}

/// Plays a script in a world, and writes all that it gives.
fn play_text<W: Write>(
    alloc: Global,
    text: &[u8],
    world: &mut World,
    writer: &mut W,
) -> Result<(), PlayError>
    requires { IsOk (events_in text.now) }
    ensures ok { OnOk result (Appends (W.contents writer.old) (W.contents writer.new)
        (played world.old (events_in text.now))) }
    ensures part { OnErr result (AppendsPart (W.contents writer.old) (W.contents writer.new)
        (played world.old (events_in text.now))) }
    ensures err { IfErr result FailsToPlay }
{
    let mut pending = String::new(alloc);
    play_lines(alloc, text, world, &mut pending, writer)?;
    write_out(writer, pending.as_bytes())?;
    flush(writer)
}

/// Plays the script that a reader has left, in a new world of this setup, and writes a line for
/// each event: its answer, and the world behind it.
///
/// The whole text is read and judged before the first event is played. A text that is at fault is
/// refused by the first fault of its first line at fault, and one of more than 67,108,864 bytes
/// by `TooLarge`, at the first byte that is too many; nothing is written then. Where the writer
/// fails or memory is refused in the middle of a script, a front of the output is out. The writer
/// is flushed at the end.
///
/// The setup has 1 to 65,536 slots and 1 to 1,024 clients. It allocates memory for the text, for
/// the world and for a part of the output; its time is linear in the text except for the steps.
pub fn play_core<R: Read, W: Write>(
    alloc: Global,
    reader: &mut R,
    writer: &mut W,
    setup: Setup,
) -> Result<(), PlayError>
    requires { CanOpen setup }

    // What was read is a script, and its text is written.
    ensures written { OnOk result (IfSome (R.remaining reader.old) (λ text. IsScript text
        × Appends (W.contents writer.old) (W.contents writer.new) (script_text setup text))) }

    // Each line of it gives an event, and nothing stands behind the last line feed.
    ensures lines { OnOk result (IfSome (R.remaining reader.old)
        (λ text. GiveEvents (lines_of text))) }

    // Each error says what was wrong; a text at fault is refused by the first fault of its first
    // line at fault.
    ensures ends { IfErr result (λ error. IfSome (R.remaining reader.old) (EndsAt error)) }

    // Nothing is written where the text is at fault or was not read.
    ensures late { IfErr result (λ error.
        WritesLate error (W.contents writer.old) (W.contents writer.new)) }

    // Nothing is written unless the whole text is a script.
    ensures only { IfSome (R.remaining reader.old) (λ text. IsScript text
        ⊎ Keeps (W.contents writer.old) (W.contents writer.new)) }

    // Never is anything written but a front of the script's text.
    ensures part { OnErr result (IfSome (R.remaining reader.old) (λ text.
        AppendsPart (W.contents writer.old) (W.contents writer.new) (script_text setup text))) }

    // The reading ends with the first byte that is too many.
    ensures bounded { TakesAtMost (MOST_INPUT + 1)
        (R.remaining reader.old) (R.remaining reader.new) }
{
    let text = read_all(alloc, reader)?;
    judge_all(alloc, &Events, &text)?;
    let Ok(mut world) = World::opening(alloc, setup) else {
        return Err(PlayError::OutOfMemory);
    };
    play_text(alloc, &text, &mut world, writer)
}
