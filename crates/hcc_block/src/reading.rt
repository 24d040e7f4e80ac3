//! Reading blocks through the cache.
ghost use Rattle.std.specs.Prelude.{◌≡◌, ◌≢◌, ◌+◌, ◌*◌, ◌<◌, ◌≤◌, ◌++◌, Err, Some, None, IfSome, IfNone, OnOk, OnErr, IsOk, ℕ, List, length, drop};
ghost use Rattle.hcc_shard.specs.Inserted.{inserting};
ghost use Rattle.hcc_cache.specs.Calls.{KeepsAll, TakesAtMost};
ghost use Rattle.hcc_cache.specs.Clients.{held_by};
ghost use Rattle.hcc_cache.specs.Known.{Knows};
ghost use Rattle.hcc_block.specs.Blocks.{block_of, key_of, FitsBlocks};
ghost use Rattle.hcc_block.specs.Reads.{Answers, AsksOnce, Copies, CountsMiss, CountsRead, GoesThrough, Hands, HoldsSame, IsAt, IsRefused, Lacks, hitting};
ghost use Rattle.hcc_block.specs.Sources.{Fails};

use crate::reader::{BlockReader, ReadError};
use crate::source::{BlockSource, SourceFailed};
use crate::tag::key_of;
use hcc_cache::{Cache, Client, Priority};
use hcc_rule::{Key, Tag};

impl<S: BlockSource> BlockReader<S> {
    /// Reads a block to the front of the buffer, by the numbers of its file and of the block in it.
    /// It returns how many bytes it has; the rest of the buffer stays.
    ///
    /// A block that the cache has is copied out of it, and counts as a hit. Else, or where the
    /// cache refuses to look, it counts as a miss: it is read from the source, and inserted with
    /// its length as the charge. Where that is refused the answer is the same.
    ///
    /// What fits a key by the cache's tag is the block of the source that the key names, and
    /// nothing else. The block size is at most [`Cache::room`], and the buffer has room for a
    /// block. It allocates nothing. A hit costs a look-up, the reading of the value and a release;
    /// a miss a look-up, a read of the source and an insertion.
    pub fn read<T: Tag>(
        &mut self,
        cache: &Cache<T>,
        client: &mut Client<T>,
        file: u32,
        index: u32,
        buffer: &mut [u8],
    ) -> Result<usize, ReadError>
        requires known { Knows cache.now client.old }
        requires tag { FitsBlocks (T.fits cache.now.tag) (S.content self.old.source)
            self.old.block }
        requires block { self.old.block ≤ 8 * cache.now.geometry.room }
        requires room { self.old.block ≤ length buffer.old }

        // The block is answered, or that there is none, or a fault that the source counted.
        ensures answers { Answers result buffer.old buffer.new
            (block_of (S.content self.old.source) self.old.block file index)
            (S.failed self.old.source) (S.failed self.new.source) }
        ensures reliable { S.reliable self.old.source
            → S.reliable self.new.source × (result ≢ Err ReadError.SourceFault) }

        // Nothing changes where there is no such block, and nothing is inserted after a fault.
        ensures none { result ≡ Err ReadError.NoSuchBlock
            → (self.new ≡ self.old) × (client.new ≡ client.old) × (buffer.new ≡ buffer.old) }
        ensures fault { result ≡ Err ReadError.SourceFault
            → KeepsAll cache.now client.old client.new }

        // Each other read is a hit or a miss, and a miss where no look-up may be made.
        ensures counts { CountsRead result self.old self.new }
        ensures refused { IsRefused client.old → result ≢ Err ReadError.NoSuchBlock
            → CountsMiss self.old self.new }

        // A hit copied the entry of the block's key, and made the steps of a look-up, a copy and a
        // release at most; a miss found none, and inserted the block.
        ensures through { GoesThrough T.fits cache.now (key_of file index)
            (block_of (S.content self.old.source) self.old.block file index) result
            self.old self.new client.old client.new }

        // A hit didn't ask the source; a miss read the block from it once.
        ensures asks { AsksOnce S.reads file index
            (block_of (S.content self.old.source) self.old.block file index) result
            self.old self.new }

        // It reads the same blocks from then on, and the client holds what it held.
        ensures content { S.content self.new.source ≡ S.content self.old.source }
        ensures size { self.new.block ≡ self.old.block }
        ensures known { Knows cache.now client.new }
        ensures same { HoldsSame cache.now client.old client.new }
        ensures steps { TakesAtMost (7 * cache.now.geometry.slots
            + inserting cache.now.geometry.slots cache.now.geometry.room)
            client.old client.new }
    {
        let Some(place) = self.place(file, index) else {
            return Err(ReadError::NoSuchBlock);
        };
        if let Some(count) = copied(cache, client, key_of(file, index), buffer) {
            self.hits = self.hits.saturating_add(1);
            return Ok(count);
        }
        self.misses = self.misses.saturating_add(1);
        let count = place.count as usize;
        match self.fill(cache, client, file, index, place, &mut buffer[..count]) {
            Ok(()) => Ok(count),
            Err(SourceFailed) => Err(ReadError::SourceFault),
        }
    }

    /// Where a block lies, if there is one.
    #[tactic(auto, unfolding(crate::specs::Blocks::block_of))]
    fn place(&self, file: u32, index: u32) -> Option<Place>
        ensures some { IfSome result (λ place. (file < length (S.content self.now.source))
            × IsAt (S.content self.now.source) self.now.block file index place.from place.count) }
        ensures none { IfNone result
            (block_of (S.content self.now.source) self.now.block file index ≡ None) }
    {
        if file >= self.source.files() {
            return None;
        }
        let len = self.source.len(file);
        let from = u64::from(index) * u64::from(self.block);
        if from >= len {
            return None;
        }
        let count = (len - from).min(u64::from(self.block)) as u32;
        Some(Place { from, count })
    }

    /// Reads a block from the source, and inserts it.
    fn fill<T: Tag>(
        &mut self,
        cache: &Cache<T>,
        client: &mut Client<T>,
        file: u32,
        index: u32,
        place: Place,
        bytes: &mut [u8],
    ) -> Result<(), SourceFailed>
        requires known { Knows cache.now client.old }
        requires tag { FitsBlocks (T.fits cache.now.tag) (S.content self.old.source)
            self.old.block }
        requires file { file < length (S.content self.old.source) }
        requires place { IsAt (S.content self.old.source) self.old.block file index place.from
            place.count }
        requires len { length bytes.old ≡ place.count }
        requires room { place.count ≤ 8 * cache.now.geometry.room }
        ensures hands { OnOk result
            (Hands cache.now (key_of file index) T.fits bytes.new client.old client.new) }
        ensures ok { OnOk result
            (block_of (S.content self.old.source) self.old.block file index ≡ Some bytes.new) }
        ensures failed { OnErr result
            (Fails (S.failed self.old.source) (S.failed self.new.source)) }
        ensures nothing { OnErr result (client.new ≡ client.old) }
        ensures asks { S.reads self.old.source file place.from place.count result
            self.new.source }
        ensures content { S.content self.new.source ≡ S.content self.old.source }
        ensures reliable { S.reliable self.old.source
            → IsOk result × S.reliable self.new.source }
        ensures rest { self.new ≡ record self.old { source = self.new.source } }
        ensures known { Knows cache.now client.new }
        ensures same { HoldsSame cache.now client.old client.new }
        ensures steps { TakesAtMost
            (inserting cache.now.geometry.slots cache.now.geometry.room)
            client.old client.new }
    {
        self.source.read(file, place.from, bytes)?;
        let _ = cache.insert(
            client,
            key_of(file, index),
            bytes,
            place.count,
            Priority::Low,
        );
        Ok(())
    }
}

/// Where a block lies in its file: its first byte, and how many bytes it has.
#[derive(Clone, Copy, Debug)]
struct Place {
    from: u64,
    count: u32,
}

/// Copies the value of a key to the front of the buffer, and returns its length, where the cache
/// has one and may look.
fn copied<T: Tag>(
    cache: &Cache<T>,
    client: &mut Client<T>,
    key: Key,
    buffer: &mut [u8],
) -> Option<usize>
    requires known { Knows cache.now client.old }
    requires room { (value : List ℕ) → T.fits cache.now.tag key value
        → length value ≤ length buffer.old }
    ensures some { IfSome result (λ count. (value : List ℕ) × T.fits cache.now.tag key value
        × (count ≡ length value) × (buffer.new ≡ value ++ drop count buffer.old)) }
    ensures none { IfNone result (buffer.new ≡ buffer.old) }
    ensures looked { IfSome result (λ count.
        (held_by client.old < client.old.most) × (0 < client.old.left)) }
    ensures copies { IfSome result (λ count.
        Copies cache.now key T.fits client.old client.new) }
    ensures lacks { IfNone result (Lacks cache.now key T.fits client.old client.new) }
    ensures missed { IfNone result (KeepsAll cache.now client.old client.new) }
    ensures known { Knows cache.now client.new }
    ensures same { HoldsSame cache.now client.old client.new }
    ensures steps { IfSome result (λ count. TakesAtMost
        (hitting cache.now.geometry.slots count) client.old client.new) }
    ensures few { IfNone result
        (TakesAtMost (7 * cache.now.geometry.slots) client.old client.new) }
{
    let Ok(Some(handle)) = cache.lookup(client, key) else {
        return None;
    };
    let count = cache.read_value(client, handle, buffer);
    cache.release(client, handle, true, false);
    Some(count)
}
