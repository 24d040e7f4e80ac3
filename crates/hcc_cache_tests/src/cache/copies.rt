//! Insertions that copy their value where it comes to stand alone.
ghost use Rattle.std.specs.Prelude.{◌≡◌};
ghost use Rattle.hcc_cache.specs.Known.{Knows};
ghost use Rattle.hcc_cache_tests.specs.Staged.{AllKnown};

use super::stage::{SMALL, Stage, Store, opened};
use hcc_cache::{AnyBytes, Client, CopyError, Handle, Inserted, Key, NewError, Priority};
use std::alloc::Global;
use std::process::Abort;

/// Inserts a value under the key of a number, with a handle.
fn pins(
    rt: &impl Abort,
    alloc: Global,
    cache: &Store,
    client: &mut Client<AnyBytes>,
    number: u64,
    value: &[u8],
) -> Result<(Handle, Inserted), CopyError>
    requires { Knows cache.now client.old }
    ensures { Knows cache.now client.new }
{
    assert!(rt; value.len() <= cache.room(), "the value is too long");
    let key = Key { w0: 0, w1: number };
    cache.insert_pinned_copy(alloc, client, key, value, 1, Priority::Low)
}

/// The client holds as many entries as there are places.
fn fills(rt: &impl Abort, alloc: Global, cache: &Store, client: &mut Client<AnyBytes>)
    requires { Knows cache.now client.old }
    ensures { Knows cache.now client.new }
{
    for number in 0..6u64 {
        let placed = pins(rt, alloc, cache, client, number, b"in the table");
        assert!(rt;
            matches!(placed, Ok((_, Inserted::Placed))),
            "it isn't placed"
        );
    }
    assert_eq!(rt; cache.usage(client), 6);
}

/// One more stands alone, and shows a copy. Where there is no memory for that, nothing is left of
/// it, but that a serial was used. Whether there was.
fn stands(rt: &impl Abort, alloc: Global, cache: &Store, client: &mut Client<AnyBytes>) -> bool
    requires { Knows cache.now client.old }
    ensures { Knows cache.now client.new }
{
    let before = client.serials_left();
    match pins(rt, alloc, cache, client, 6, b"alone") {
        Ok((handle, Inserted::Standalone)) => {
            shows(rt, cache, client, handle);
            true
        }
        Err(CopyError::OutOfMemory) => {
            assert!(rt; before > 0, "no serial was left");
            let left = (client.held(), client.serials_left(), cache.usage(client));
            assert_eq!(rt; left, (6, before - 1, 6));
            false
        }
        other => panic!(rt; "{other:?}"),
    }
}

/// The entry shows its value until it goes with its handle.
fn shows(rt: &impl Abort, cache: &Store, client: &mut Client<AnyBytes>, handle: Handle)
    requires { Knows cache.now client.old }
    ensures { Knows cache.now client.new }
{
    assert!(rt; client.holds(handle), "the handle isn't held");
    let mut bytes = [0xee; 16];
    let part = cache.read_part(client, handle, 0, &mut bytes);
    assert_eq!(rt; (part.given, part.length), (5, 5));
    assert_eq!(rt; &bytes[..6], b"alone\xee".as_slice());
    assert_eq!(rt; cache.usage(client), 7);
    assert!(rt; client.holds(handle), "the handle is gone");
    assert!(rt;
        cache.release(client, handle, false, false),
        "it is left with no handle"
    );
    assert_eq!(rt; cache.usage(client), 6);
}

/// The first client does both.
fn copies(rt: &impl Abort, alloc: Global, stage: &mut Stage) -> bool
    requires { AllKnown stage.old.cache stage.old.clients.items }
    ensures { stage.new.cache ≡ stage.old.cache }
{
    assert!(rt; stage.clients.len() > 0, "no client");
    let client = &mut stage.clients[0];
    fills(rt, alloc, &stage.cache, client);
    stands(rt, alloc, &stage.cache, client)
}

#[test]
fn a_copy_is_made_where_it_stands_alone(rt: HostRuntime) -> Result<(), NewError> {
    let mut stage = opened(rt.alloc(), SMALL, Vec::new(rt.alloc()))?;
    if copies(&rt, rt.alloc(), &mut stage) {
        Ok(())
    } else {
        Err(NewError::OutOfMemory)
    }
}
