//! Plays rows of reads on new caches.
ghost use Rattle.std.specs.Prelude.{◌≡◌, ◌*◌, ◌<◌, ◌≤◌};
ghost use Rattle.hcc_cache.specs.Known.{Knows};
ghost use Rattle.hcc_cache_tests.specs.Staged.{AllKnown};
ghost use Rattle.hcc_block.specs.Blocks.{FitsBlocks};

use super::told::ToldSource;
use hcc_block::{BlockReader, BlockSource, FailingSource, FilesTag, MemorySource, ReadError};
use hcc_cache::{Cache, Client, Closed, Config};
use hcc_rule::Tag;
use std::alloc::{AllocError, Global};
use std::cell::Cell;
use std::process::Abort;
use std::test::Fail;

/// How many bytes a block has.
const BLOCK: u32 = 16;

/// A client, a file and a block by their numbers, and what reading it answers: its length and the
/// sum of its bytes.
pub(super) type Read = (usize, u32, u32, Result<(usize, u64), ReadError>);

/// Reads of the files of these lengths, of which one read of the source fails.
#[derive(Clone, Copy)]
pub(super) struct Row {
    pub(super) name: &'static str,
    pub(super) config: Config,
    pub(super) files: &'static [u32],
    /// How many reads of the source come before the one that fails.
    pub(super) fails: u64,
    pub(super) reads: &'static [Read],
    /// Hits, misses and failures of the source.
    pub(super) counts: [u64; 3],
    /// The charges of the entries that are left, and how many they are.
    pub(super) left: [u64; 2],
    /// What is left of the first block of a file: the word of slot 0, where keys have no seed.
    pub(super) word: u64,
}

/// The reads are made, and what they answer and leave is as wanted.
pub(super) fn plays(rt: &impl Abort, alloc: Global, row: &Row, seed: u64) -> Result<(), Fail> {
    let files = files_of(alloc, row.files)?;
    let tag = FilesTag {
        files: &files,
        block: BLOCK,
    };
    let config = Config { seed, ..row.config };
    let (cache, clients) = Cache::new(alloc, config, tag)?;
    assert!(rt; files.len() < 0x1_0000_0000 && cache.room() >= 16);
    let failures = Cell::new(0);
    let source = FailingSource::new(MemorySource::new(&files), row.fails);
    let mut reader = BlockReader::new(ToldSource::new(source, &failures), BLOCK);
    let clients = reads(rt, &cache, clients, &mut reader, row.reads);
    let counts = [reader.hits(), reader.misses(), failures.get()];
    assert_eq!(rt; counts, row.counts, "of {}", row.name);
    let Ok(closed) = cache.close(clients) else {
        panic!(rt; "{} isn't closed", row.name);
    };
    assert_eq!(rt;
        [closed.usage(), closed.occupied()],
        row.left,
        "of {}",
        row.name
    );
    assert_eq!(rt;
        [closed.slot_charges(), closed.slot_count()],
        row.left,
        "of {}",
        row.name
    );
    if seed == 0 {
        assert_eq!(rt; word_of(rt, &closed), row.word, "of {}", row.name);
    }
    Ok(())
}

/// Files of these lengths. Byte p of file f is p + f, modulo 256.
fn files_of(alloc: Global, lengths: &[u32]) -> Result<Vec<Vec<u8>>, AllocError> {
    let mut files = Vec::new(alloc);
    let mut first = 0u8;
    for length in lengths {
        let mut bytes = Vec::new(alloc);
        let mut byte = first;
        for _ in 0..*length {
            bytes.push(byte)?;
            byte = byte.wrapping_add(1);
        }
        files.push(bytes)?;
        first = first.wrapping_add(1);
    }
    Ok(files)
}

/// Makes the reads in order, and compares what they answer.
fn reads<S: BlockSource, T: Tag>(
    rt: &impl Abort,
    cache: &Cache<T>,
    mut clients: Vec<Client<T>>,
    reader: &mut BlockReader<S>,
    reads: &[Read],
) -> Vec<Client<T>>
    requires known { AllKnown cache.now clients.items }
    requires tag { FitsBlocks (T.fits cache.now.tag) (S.content reader.old.source)
        reader.old.block }
    requires block { reader.old.block ≤ 16 }
    requires room { reader.old.block ≤ 8 * cache.now.geometry.room }
    ensures { AllKnown cache.now result.items }
{
    for (number, file, index, wanted) in reads {
        assert!(rt; *number < clients.len(), "no such client");
        let mut buffer = [0; 16];
        let answer = reader.read(cache, &mut clients[*number], *file, *index, &mut buffer);
        assert_eq!(rt; told(rt, answer, &buffer), *wanted, "at {file} {index}");
    }
    clients
}

/// How long the block is that was read, and the sum of its bytes.
fn told(
    rt: &impl Abort,
    answer: Result<usize, ReadError>,
    buffer: &[u8],
) -> Result<(usize, u64), ReadError> {
    let count = answer?;
    assert!(rt; count <= buffer.len(), "the block is too long");
    let mut sum = 0u64;
    for byte in &buffer[..count] {
        sum = sum.wrapping_add(u64::from(*byte));
    }
    Ok((count, sum))
}

/// The word of the first slot that is left.
fn word_of(rt: &impl Abort, closed: &Closed) -> u64 {
    assert!(rt; closed.shards() > 0, "no shard is left");
    assert!(rt; closed.slots(0) > 0, "no slot is left");
    closed.word(0, 0)
}
