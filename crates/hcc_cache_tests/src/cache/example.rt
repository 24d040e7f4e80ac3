//! The example of this crate's README: clients on threads of their own read blocks through a cache.
ghost use Rattle.std.specs.Prelude.{◌≡◌, ℕ, Some, IfOk, IsSome, length, slice_get};
ghost use Rattle.std.specs.Thread.{IsSync};
ghost use Rattle.hcc_cache.specs.Clients.{held_of};
ghost use Rattle.hcc_cache.specs.Known.{Knows};

use hcc_cache::{AnyBytes, Cache, Client, Config, Handle, Key, Priority};
use std::alloc::AllocError;
use std::process::Abort;
use std::test::Fail;
use std::thread::{Threads, map_vec};

/// How many bytes a block has.
const BLOCK: usize = 4096;

/// Two shards of 1,024 slots, each with room for a block, and at most 4 MiB of blocks in all.
const CONFIG: Config = Config {
    slots: 1_024,
    room: 512,
    clients: 2,
    handles: 16,
    shards: 2,
    capacity: 4_194_304,
    strict: true,
    marks: false,
    serials: 1_000_000_000,
    seed: 0x5eed,
};

/// What stands in each byte of a block.
fn content(number: u64) -> u8 {
    (number % 251) as u8
}

/// Reads a block from where blocks come from.
fn load(number: u64, block: &mut [u8])
    ensures { length block.new ≡ length block.old }
{
    block.fill(content(number));
}

/// Copies a block of the same size by a handle, and gives that back. It returns whether it did.
fn take(
    cache: &Cache<AnyBytes>,
    client: &mut Client<AnyBytes>,
    handle: Handle,
    block: &mut [u8],
) -> bool
    requires known { Knows cache.now client.old }
    requires stands { IsSome (held_of cache.now client.old handle) }
    ensures known { Knows cache.now client.new }
    ensures length { length block.new ≡ length block.old }
{
    let whole = cache.value_len(client, handle) == block.len();
    if whole {
        cache.read_value(client, handle, block);
    }
    cache.release(client, handle, true, false);
    whole
}

/// Reads a block through the cache.
fn read(cache: &Cache<AnyBytes>, client: &mut Client<AnyBytes>, number: u64, block: &mut [u8])
    requires { Knows cache.now client.old }
    ensures known { Knows cache.now client.new }
    ensures length { length block.new ≡ length block.old }
{
    let key = Key { w0: 0, w1: number };
    if let Ok(Some(handle)) = cache.lookup(client, key) {
        if take(cache, client, handle, block) {
            return;
        }
    }
    load(number, block);
    if block.len() <= cache.room() {
        // A block that is refused or dropped is loaded again.
        let _ = cache.insert(client, key, block, BLOCK as u32, Priority::Low);
    }
}

/// A client reads the first hundred blocks, ten times over.
fn works(rt: &impl Abort, cache: &Cache<AnyBytes>, mut client: Client<AnyBytes>) -> Client<AnyBytes>
    requires { Knows cache.now client }
    ensures { Knows cache.now result }
{
    let mut block = [0; BLOCK];
    for round in 0..1_000u64 {
        let number = round % 100;
        read(cache, &mut client, number, &mut block);
        assert_eq!(rt; [block[0], block[BLOCK - 1]], [content(number); 2]);
    }
    client
}

/// Each client works on a thread of its own, and comes back.
fn all_work<R: Abort + Threads + Sync>(
    rt: &R,
    cache: &Cache<AnyBytes>,
    clients: Vec<Client<AnyBytes>>,
) -> Result<Vec<Client<AnyBytes>>, AllocError>
    requires { (k : ℕ) (client : _) → slice_get clients.items k ≡ Some client
        → Knows cache.now client }
    ensures { IfOk result (λ back. (k : ℕ) (client : _) → slice_get back.items k ≡ Some client
        → Knows cache.now client) }
{
    map_vec(
        rt,
        clients,
        &|client: Client<AnyBytes>| -> Client<AnyBytes>
            requires { IsSync R.row × Knows cache.now client }
            ensures { Knows cache.entry.now result }
        { works(rt, cache, client) },
    )
}

#[test]
fn two_threads_read_blocks(rt: HostRuntime) -> Result<(), Fail> {
    let (cache, clients) = Cache::new(rt.alloc(), CONFIG, AnyBytes)?;
    let clients = all_work(&rt, &cache, clients)?;
    match cache.close(clients) {
        Ok(closed) => {
            assert!(rt; closed.occupied() >= 100);
            assert!(rt; closed.usage() >= 409_600);
        }
        Err((why, _, _)) => panic!(rt; "{why}"),
    }
    Ok(())
}
