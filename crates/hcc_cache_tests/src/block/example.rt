//! The example of this crate's README: a file that is read in blocks, twice over.

use hcc_block::{BlockReader, FilesTag, MemorySource};
use hcc_cache::{Cache, Config};
use std::test::Fail;

/// How many bytes a block has.
const BLOCK: u32 = 16;

/// 64 slots, each with room for a block, and keys under a seed.
const CONFIG: Config = Config {
    slots: 64,
    room: 2,
    clients: 1,
    handles: 4,
    shards: 1,
    capacity: 1_024,
    strict: true,
    marks: false,
    serials: 1_000_000,
    seed: 0x5eed,
};

#[test]
fn a_file_is_read_in_blocks(rt: HostRuntime) -> Result<(), Fail> {
    let text = b"A block has sixteen bytes, the last one may be shorter.";
    let mut files = Vec::with_capacity(rt.alloc(), 1)?;
    files.push(Vec::from_slice(rt.alloc(), text)?)?;
    let tag = FilesTag {
        files: &files,
        block: BLOCK,
    };
    let (cache, mut clients) = Cache::new(rt.alloc(), CONFIG, tag)?;
    assert!(rt; files.len() == 1 && clients.len() == 1 && cache.room() >= 16);
    let client = &mut clients[0];
    let mut reader = BlockReader::new(MemorySource::new(&files), BLOCK);
    let mut buffer = [0; 16];
    let first = reader.read(&cache, client, 0, 3, &mut buffer);
    assert_eq!(rt; first, Ok(7));
    assert!(rt; &buffer[..7] == b"horter.".as_slice());
    let again = reader.read(&cache, client, 0, 3, &mut buffer);
    assert_eq!(rt; again, Ok(7));
    assert_eq!(rt; [reader.hits(), reader.misses()], [1, 1]);
    Ok(())
}
