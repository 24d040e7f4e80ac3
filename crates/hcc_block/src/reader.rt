//! A reader of blocks, and what it counts.
ghost use Rattle.std.specs.Prelude.{◌≡◌, ◌≤◌};
ghost use Rattle.hcc_block.specs.Texts.{text_of};

use crate::source::BlockSource;
use thiserror::Error;

/// Reads blocks of a source through a cache, and counts how many the cache had.
#[derive(Drop)]
pub struct BlockReader<S> {
    pub(crate) source: S,
    pub(crate) block: u32,
    pub(crate) hits: u64,
    pub(crate) misses: u64,
    ghost some: { 1 ≤ block },
}

impl<S: BlockSource> BlockReader<S> {
    /// A reader of a source in blocks of so many bytes, at least 1, which has counted nothing. It
    /// allocates nothing.
    pub fn new(source: S, block: u32) -> Self
        requires { 1 ≤ block }
        ensures source { result.source ≡ source }
        ensures block { result.block ≡ block }
        ensures counts { (result.hits ≡ 0) × (result.misses ≡ 0) }
    {
        BlockReader {
            source,
            block,
            hits: 0,
            misses: 0,
        }
    }

    /// How many blocks the cache had, up to the greatest number. It costs a copy.
    pub fn hits(&self) -> u64
        ensures { result ≡ self.now.hits }
    {
        self.hits
    }

    /// How many blocks the cache didn't have, or couldn't look for, up to the greatest number. It
    /// costs a copy.
    pub fn misses(&self) -> u64
        ensures { result ≡ self.now.misses }
    {
        self.misses
    }
}

/// Why a block isn't read.
#[derive(Clone, Copy, Debug, PartialEq, Eq, Error)]
pub enum ReadError {
    /// The file is out of range, or the block lies at or past its end. It is judged before anything
    /// else: nothing is changed, and no step is made.
    #[error("NoSuchBlock")]
    NoSuchBlock,
    /// The source failed. Nothing is inserted, and the bytes of the buffer are open.
    #[error("SourceFault")]
    SourceFault,
}

impl ReadError {
    /// The refusal as a sentence.
    pub fn text(self) -> &'static str
        ensures { result.now ≡ text_of self }
    {
        match self {
            ReadError::NoSuchBlock => "there is no such file, or the block lies at or past its end",
            ReadError::SourceFault => "the source failed",
        }
    }
}
