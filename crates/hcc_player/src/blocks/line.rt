//! The lines of a trace of block reads.
ghost use Rattle.std.specs.Prelude.{◌≡◌, ◌<◌, IfOk, map};
ghost use Rattle.hcc_player.specs.BlocksLine.{block_line, block_read};
ghost use Rattle.hcc_player.specs.Value.{Gives};

use crate::fault::{LineError, TextFault};
use crate::grammar::Grammar;
use crate::number::{number_below, small_number};
use crate::words::{plain_words, word};
use std::alloc::Global;

/// A line of a trace: a client reads a block of a file, by their numbers.
#[derive(Clone, Copy, Debug, PartialEq, Eq)]
pub struct BlockRead {
    pub client: u32,
    pub file: u32,
    pub index: u32,
}

/// The grammar of a trace for so many clients: each line says a read.
#[derive(Clone, Copy, Debug)]
pub struct BlockReads {
    pub clients: u32,
}

impl Grammar for BlockReads {
    ghost use Rattle.hcc_player.specs.BlocksLine.{block_line};

    type Line = BlockRead;

    ghost says = { λ grammar line. block_line grammar.clients line };

    fn line(&self, alloc: Global, line: &[u8]) -> Result<BlockRead, LineError> {
        block_line(alloc, self.clients, line)
    }
}

/// Reads a line, given without its line feed.
fn block_line(alloc: Global, clients: u32, line: &[u8]) -> Result<BlockRead, LineError>
    ensures { Gives result (block_line clients line.now) }
{
    let words = plain_words(alloc, line)?;
    let read = block_read(clients, &words)?;
    Ok(read)
}

/// The read that words say: `client file index`.
#[tactic(auto, unfolding(crate::specs::BlocksLine::block_read))]
fn block_read(clients: u32, words: &[&[u8]]) -> Result<BlockRead, TextFault>
    ensures { result ≡ block_read clients (map (λ w. w.now) words.now) }
{
    if words.len() != 3 {
        return Err(TextFault::BadWord);
    }
    let client = number_below(clients, word(words, 0))?;
    let file = small_number(word(words, 1))?;
    let index = small_number(word(words, 2))?;
    Ok(BlockRead {
        client,
        file,
        index,
    })
}
