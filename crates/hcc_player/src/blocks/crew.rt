//! Makes a worker for each client, and takes workers apart when they have ended.
ghost use Rattle.std.specs.Prelude.{◌≡◌, ◌<◌, ◌≤◌, ◌∷◌, IfOk, length, map};
ghost use Rattle.std.specs.Vec.Iter.{into_iter_items};
ghost use Rattle.hcc_player.specs.Work.{EachAt, IsSetUp};

use super::line::BlockRead;
use super::tally::ClientReport;
use super::worker::{Done, Worker};
use crate::input::buffer;
use hcc_block::{BlockReader, BlockSource};
use hcc_cache::Client;
use std::alloc::{AllocError, Global};
use std::vec::IntoIter;

/// A worker for each client, with its source, its lines, and a reader in blocks of this size.
pub fn crew<T, S: BlockSource + Drop>(
    alloc: Global,
    clients: Vec<Client<T>>,
    sources: Vec<S>,
    lists: Vec<Vec<BlockRead>>,
    block: u32,
) -> Result<Vec<Worker<T, S>>, AllocError>
    requires sources { length sources.items ≡ length clients.items }
    requires lists { length lists.items ≡ length clients.items }
    requires block { 1 ≤ block }
    ensures count { IfOk result (λ workers. length workers.items ≡ length clients.items) }
    ensures set { IfOk result (λ workers.
        EachAt (IsSetUp clients.items sources.items (map (λ list. list.items) lists.items) block)
        workers.items) }
{
    let mut workers = Vec::with_capacity(alloc, clients.len())?;
    let mut clients = clients.into_iter();
    let mut sources = sources.into_iter();
    let mut lists = lists.into_iter();
    while let Some(client) = clients.next() {
        let source = taken(&mut sources);
        let lines = taken(&mut lists);
        workers.push(Worker {
            client,
            reader: BlockReader::new(source, block),
            lines,
            buffer: buffer(alloc, block as usize)?,
        })?;
    }
    Ok(workers)
}

/// The next of those that are left.
fn taken<X>(left: &mut IntoIter<X>) -> X
    requires { 0 < length (into_iter_items left.old) }
    ensures { into_iter_items left.old ≡ result ∷ into_iter_items left.new }
{
    left.next().unwrap()
}

/// The clients of workers that have ended, and what they report, in order.
pub fn apart<T>(
    alloc: Global,
    done: Vec<Done<T>>,
) -> Result<(Vec<Client<T>>, Vec<ClientReport>), AllocError>
    ensures clients { IfOk result (λ both. both.0.items ≡ map (λ d. d.client) done.items) }
    ensures reports { IfOk result (λ both. both.1.items ≡ map (λ d. d.report) done.items) }
{
    let mut clients = Vec::with_capacity(alloc, done.len())?;
    let mut reports = Vec::with_capacity(alloc, done.len())?;
    let mut done = done.into_iter();
    while let Some(Done { client, report }) = done.next() {
        clients.push(client)?;
        reports.push(report)?;
    }
    Ok((clients, reports))
}
