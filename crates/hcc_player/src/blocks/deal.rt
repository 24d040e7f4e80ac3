//! The reads of a trace are dealt to their clients.
ghost use Rattle.std.specs.Prelude.{◌≡◌, ◌<◌, [], Ok, IfOk, IfErr, IsOk, OnOk, length, map, replicate};
ghost use Rattle.hcc_player.specs.BlocksLine.{reads_in};
ghost use Rattle.hcc_player.specs.Deal.{deal_one, DealtOf};

use super::line::{BlockRead, BlockReads};
use crate::fault::PlayError;
use crate::script::{judged_line, next_line};
use std::alloc::{AllocError, Global};

/// The reads of each client, in order: each line of a text that was judged is dealt to its client,
/// in one pass. It allocates memory for all reads.
pub fn dealt(alloc: Global, clients: u32, text: &[u8]) -> Result<Vec<Vec<BlockRead>>, PlayError>
    requires { IsOk (reads_in clients text.now) }
    ensures dealt { IfOk result (λ lists.
        DealtOf clients (reads_in clients text.now) (map (λ list. list.items) lists.items)) }
    ensures err { IfErr result (λ error. error ≡ PlayError.OutOfMemory) }
{
    let grammar = BlockReads { clients };
    let mut lists = no_reads(alloc, clients)?;
    let mut rest = text;
    while let Some((line, after)) = next_line(rest) {
        let read = judged_line(alloc, &grammar, line)?;
        deal(&mut lists, read)?;
        rest = after;
    }
    Ok(lists)
}

/// A list for each client, with no reads yet.
fn no_reads(alloc: Global, clients: u32) -> Result<Vec<Vec<BlockRead>>, AllocError>
    ensures { IfOk result (λ lists. map (λ list. list.items) lists.items
        ≡ replicate clients []) }
{
    let mut lists = Vec::with_capacity(alloc, clients as usize)?;
    for _ in 0..clients {
        lists.push(Vec::new(alloc))?;
    }
    Ok(lists)
}

/// Deals one read to its client.
fn deal(lists: &mut [Vec<BlockRead>], read: BlockRead) -> Result<(), AllocError>
    requires { read.client < length lists.old }
    ensures { OnOk result (map (λ list. list.items) lists.new
        ≡ deal_one (map (λ list. list.items) lists.old) read) }
{
    lists[read.client as usize].push(read)?;
    Ok(())
}
