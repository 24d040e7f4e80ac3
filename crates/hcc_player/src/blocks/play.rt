//! Plays a trace of block reads from a reader to a writer.
ghost use Rattle.std.specs.Prelude.{◌≡◌, ◌⊎◌, ◌+◌, ◌≤◌, Ok, Err, IfOk, OnOk, OnErr, IfErr, IfSome};
ghost use Rattle.std.specs.Prelude.{length, map, slice_index_or, string_bytes, []};
ghost use Rattle.std.specs.Io.KnownBytes.{Keeps};
ghost use Rattle.std.specs.List.{All};
ghost use Rattle.hcc_cache.specs.Closings.{AreBack, IsClosed};
ghost use Rattle.hcc_player.specs.BlocksLine.{block_line};
ghost use Rattle.hcc_player.specs.Bytes.{TakesAtMost};
ghost use Rattle.hcc_player.specs.Options.{options_check};
ghost use Rattle.hcc_player.specs.PlayBlocks.{ArePlayed, EndsBlocks, FailsToReport, IsReport};
ghost use Rattle.hcc_player.specs.PlayBlocks.{Writes, WritesAtEnd, WritesPart};
ghost use Rattle.hcc_player.specs.Reading.{IsReadOf};
ghost use Rattle.hcc_player.specs.Script.{lines_of, AllSay};
ghost use Rattle.hcc_player.specs.Work.{EachAt, IsIdle, IsSteady};

use super::crew::{apart, crew};
use super::deal::dealt;
use super::gate::Gate;
use super::line::{BlockRead, BlockReads};
use super::report::report_text;
use super::tally::ClientReport;
use super::worker::work_all;
use crate::fault::PlayError;
use crate::input::read_all;
use crate::limits::MOST_INPUT;
use crate::options::Options;
use crate::output::{flush, write_out};
use crate::script::judge_all;
use crate::sums::{Sums, sums_of};
use hcc_block::{BlockSource, FilesTag};
use hcc_cache::{Cache, Client, Closed, Tag};
use std::alloc::{AllocError, Global};
use std::io::{Read, Write};
use std::thread::Threads;

/// Plays the trace of block reads that a reader has left, over these files, and writes one line of
/// JSON: what is left of the cache, and for each client what its reads came to. Each client is a
/// worker on a thread of its own, with its own source of the files, and plays its own lines of the
/// trace, in order, between the gate's `before` and `after`. No worker waits for another.
///
/// Options that [`Options::check`] refuses are refused so, and nothing is read. The whole text is
/// read and judged before the first read. A text that is at fault is refused by the first fault of
/// its first line at fault, and one of more than 67,108,864 bytes by `TooLarge`, at the first byte
/// that is too many. Where a source fails, that read counts as a fault, and the worker goes on. The
/// report is written whole, at the end; where the writer fails, a front of it is out. The writer is
/// flushed at the end.
///
/// There is a source for each client, and its content are the files. It allocates memory for the
/// text, for the reads that it says, for the cache and for the report; its time is linear in the
/// text except for the reads.
pub fn play_blocks<
    R: Read,
    W: Write,
    S: BlockSource + Send + Drop,
    G: Gate + Sync,
    X: Threads + Sync,
>(
    alloc: Global,
    rt: &X,
    reader: &mut R,
    writer: &mut W,
    options: &Options,
    files: &[Vec<u8>],
    sources: Vec<S>,
    gate: &G,
) -> Result<(), PlayError>
    requires sources { length sources.items ≡ options.now.config.clients }
    requires content { All (λ source. S.content source ≡ map (λ file. file.items) files.now)
        sources.items }

    // Options are refused exactly where their check refuses them, and nothing is read or written
    // then.
    ensures refused { IfErr (options_check options.now) (λ error.
        (result ≡ Err error) × (reader.new ≡ reader.old) × (writer.new ≡ writer.old)) }

    // In every order of the threads' steps, what is written reports the reads of the text, which
    // were made on one new cache, and the sums of that cache, closed. What is left are blocks that
    // lines name, no line twice, and no more than misses that weren't faults.
    ensures written { OnOk result (IfSome (R.remaining reader.old)
        (Writes (map (λ file. file.items) files.now) options.now (IsSteady S.reliable sources.items)
        (W.contents writer.old) (W.contents writer.new))) }

    // Each line of it says a read, and nothing stands behind the last line feed.
    ensures lines { OnOk result (IfSome (R.remaining reader.old)
        (λ text. AllSay (block_line options.now.config.clients) (lines_of text))) }

    // Each error says what was wrong; a text at fault is refused by the first fault of its first
    // line at fault.
    ensures ends { IfErr result (λ error.
        IfSome (R.remaining reader.old) (EndsBlocks options.now error)) }

    // Nothing is written unless the writer fails, and then nothing but a front of such a report.
    ensures late { IfErr result (λ error.
        WritesAtEnd error (W.contents writer.old) (W.contents writer.new)) }
    ensures part { OnErr result (IfSome (R.remaining reader.old) (λ text.
        Keeps (W.contents writer.old) (W.contents writer.new)
        ⊎ WritesPart (map (λ file. file.items) files.now) options.now
        (IsSteady S.reliable sources.items) (W.contents writer.old) (W.contents writer.new)
        text)) }

    // The reading ends with the first byte that is too many.
    ensures bounded { TakesAtMost (MOST_INPUT + 1)
        (R.remaining reader.old) (R.remaining reader.new) }
{
    options.check()?;
    let text = read_all(alloc, reader)?;
    let report = report_of(alloc, rt, options, files, sources, &text, gate)?;
    write_out(writer, report.as_bytes())?;
    flush(writer)
}

/// The report of a text, or why there is none.
fn report_of<S: BlockSource + Send + Drop, G: Gate + Sync, X: Threads + Sync>(
    alloc: Global,
    rt: &X,
    options: &Options,
    files: &[Vec<u8>],
    sources: Vec<S>,
    text: &[u8],
    gate: &G,
) -> Result<String, PlayError>
    requires options { options_check options.now ≡ Ok tt }
    requires sources { length sources.items ≡ options.now.config.clients }
    requires content { All (λ source. S.content source ≡ map (λ file. file.items) files.now)
        sources.items }
    ensures report { IfOk result (λ report.
        IsReport (map (λ file. file.items) files.now) options.now
        (IsSteady S.reliable sources.items) text.now (string_bytes report)) }
    ensures lines { OnOk result
        (AllSay (block_line options.now.config.clients) (lines_of text.now)) }
    ensures err { IfErr result (λ error.
        FailsToReport options.now.config.clients error text.now) }
{
    let clients = options.config.clients;
    judge_all(alloc, &BlockReads { clients }, text)?;
    let reads = dealt(alloc, clients, text)?;
    let (sums, reports) = played(alloc, rt, options, files, sources, reads, gate)?;
    let report = report_text(alloc, sums, &reports)?;
    Ok(report)
}

/// Has each client play its reads on a thread of its own, and closes the cache.
fn played<S: BlockSource + Send + Drop, G: Gate + Sync, X: Threads + Sync>(
    alloc: Global,
    rt: &X,
    options: &Options,
    files: &[Vec<u8>],
    sources: Vec<S>,
    reads: Vec<Vec<BlockRead>>,
    gate: &G,
) -> Result<(Sums, Vec<ClientReport>), AllocError>
    requires options { options_check options.now ≡ Ok tt }
    requires sources { length sources.items ≡ options.now.config.clients }
    requires content { All (λ source. S.content source ≡ map (λ file. file.items) files.now)
        sources.items }
    requires reads { length reads.items ≡ options.now.config.clients }
    ensures report { IfOk result (λ played.
        ArePlayed (map (λ file. file.items) files.now) options.now.block
        options.now.config.clients (IsSteady S.reliable sources.items)
        (λ client. slice_index_or (map (λ list. list.items) reads.items) client [])
        played.0 played.1.items) }
    ensures on_cache { IfOk result (λ played.
        IsReadOf (map (λ file. file.items) files.now) options.now
        (λ client. slice_index_or (map (λ list. list.items) reads.items) client [])
        played.0 played.1.items) }
{
    let tag = FilesTag {
        files,
        block: options.block,
    };
    let Ok((cache, clients)) = Cache::new(alloc, options.config, tag) else {
        return Err(AllocError);
    };
    let workers = crew(alloc, clients, sources, reads, options.block)?;
    let done = work_all(rt, &cache, gate, workers)?;
    let (clients, reports) = apart(alloc, done)?;
    let closed = closed(cache, clients);
    Ok((sums_of(&closed), reports))
}

/// Closes a cache whose clients are all back, and hold nothing.
fn closed<T: Tag + Copy + Drop>(cache: Cache<T>, clients: Vec<Client<T>>) -> Closed
    requires back { cache.geometry.clients ≤ length clients.items }
    requires idle { EachAt (λ number client. IsIdle cache client) clients.items }
    ensures { AreBack cache clients.items × IsClosed T.fits cache clients.items result }
{
    match cache.close(clients) {
        Ok(closed) => closed,
        Err(_) => unreachable!(),
    }
}
