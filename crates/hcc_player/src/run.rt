//! Plays traces of calls on a cache, in order on one thread.
ghost use Rattle.std.specs.Prelude.{◌≡◌, ◌++◌, ◌+◌, ◌<◌, ◌⊎◌, Err, OnOk, OnErr, IfErr};
ghost use Rattle.std.specs.Prelude.{IfSome};
ghost use Rattle.hcc_player.specs.Bytes.{TakesAtMost};
ghost use Rattle.hcc_player.specs.Options.{config_check};
ghost use Rattle.hcc_player.specs.Play.{WritesLate};
ghost use Rattle.hcc_player.specs.PlayRun.{EndsRun, SayCalls, Writes, WritesFront};

use crate::fault::PlayError;
use crate::input::read_all;
use crate::limits::MOST_INPUT;
use crate::options::{Options, check_config};
use crate::run::line::Calls;
use crate::run::playing::play_text;
use crate::script::judge_all;
use std::alloc::Global;
use std::io::{Read, Write};

mod answer;
mod bytes;
mod call;
mod calls;
mod line;
mod playing;
mod registers;
mod tag;

/// Plays the trace of calls that a reader has left on a new cache, in order on one thread: writes
/// one line for each line of the trace, and at the end, once all handles that are still held were
/// released and the cache is closed, its sums as a line of JSON.
///
/// Sizes that [`hcc_cache::Config::check`] refuses are refused before anything is read; the block
/// size isn't looked at. The whole text is read and judged before the first call is made. A text
/// that is at fault is refused by the first fault of its first line at fault, and one of more than
/// 67,108,864 bytes by `TooLarge`; nothing is written then. Where the writer fails or memory is
/// refused in the middle of a trace, a front of an output is out. The writer is flushed at the end.
///
/// It allocates memory for the text, for the cache, for a part of the output, for the value of one
/// line, and for as many registers of each client as were full at once, and one. Its time is linear
/// in the text except for the calls, and for a look at each full register of a line's client.
pub fn play_run<R: Read, W: Write>(
    alloc: Global,
    reader: &mut R,
    writer: &mut W,
    options: &Options,
) -> Result<(), PlayError>
    // Sizes that are refused are reported before anything is read.
    ensures refused { IfErr (config_check options.now.config) (λ error. (result ≡ Err error)
        × (reader.new ≡ reader.old) × (writer.new ≡ writer.old)) }

    // What was read is a trace: its calls were made on one new cache, what they were answered is
    // written, and behind it the sums of that cache, closed. Of the totals that a line tells the
    // usage and what is pinned are at least the charges of what its client's registers hold, each
    // insertion counted once. What is left are entries that lines placed, no line twice; and with
    // what was taken they are as many as lines placed. With one client a look-up hits exactly where
    // the key is shown in the world that the client knows, an erasure counts what is shown of it,
    // and totals are exact.
    ensures written { OnOk result (IfSome (R.remaining reader.old) (Writes options.now.config
        (W.contents writer.old) (W.contents writer.new))) }

    // Each line of it says a call, and nothing stands behind the last line feed.
    ensures lines { OnOk result (IfSome (R.remaining reader.old)
        (SayCalls options.now.config)) }

    // Each error says what was wrong; a text at fault is refused by the first fault of its first
    // line at fault.
    ensures ends { IfErr result (λ error. IfSome (R.remaining reader.old)
        (EndsRun options.now.config error)) }

    // Nothing is written where the sizes are refused, or the text is at fault or was not read.
    ensures late { IfErr result (λ error.
        WritesLate error (W.contents writer.old) (W.contents writer.new)) }

    // Never is anything written but a front of what may be written for a trace.
    ensures part { OnErr result (IfSome (R.remaining reader.old) (WritesFront options.now.config
        (W.contents writer.old) (W.contents writer.new))) }

    // The reading ends with the first byte that is too many.
    ensures bounded { TakesAtMost (MOST_INPUT + 1)
        (R.remaining reader.old) (R.remaining reader.new) }
{
    check_config(&options.config)?;
    let text = read_all(alloc, reader)?;
    let grammar = Calls {
        config: options.config,
    };
    judge_all(alloc, &grammar, &text)?;
    play_text(alloc, options.config, &text, writer)
}
