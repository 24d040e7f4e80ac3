//! A cache with its clients, and handles by numbers, on which rows of calls are played.
ghost use Rattle.std.specs.Prelude.{◌≡◌, IfOk};
ghost use Rattle.hcc_cache.specs.Known.{Knows};
ghost use Rattle.hcc_cache_tests.specs.Staged.{AllKnown, IsSized};

use hcc_cache::{AnyBytes, Cache, Client, Closed, Config, Handle, NewError};
use std::alloc::Global;
use std::process::Abort;

/// A cache for tests.
pub(super) type Store = Cache<AnyBytes>;

/// A cache of one shard with 8 slots, and one client.
pub(crate) const SMALL: Config = Config {
    slots: 8,
    room: 2,
    clients: 1,
    handles: 8,
    shards: 1,
    capacity: 600,
    strict: false,
    marks: false,
    serials: 18_014_398_509_481_984,
    seed: 0,
};

/// How many handles have a number.
const MOST: usize = 64;

/// The numbered handles, and the values of the insertions with a handle that are to come, the next
/// one last: so that these take no memory.
#[derive(Drop)]
pub(super) struct Hand {
    handles: [Option<Handle>; 64],
    pub(super) values: Vec<Vec<u8>>,
}

impl Hand {
    /// No handles, and these values.
    pub(super) fn new(values: Vec<Vec<u8>>) -> Hand {
        Hand {
            handles: [None; 64],
            values,
        }
    }

    /// The handle of a number.
    pub(super) fn handle(&self, rt: &impl Abort, number: usize) -> Handle {
        assert!(rt; number < MOST, "no such number");
        self.handles[number].expect(rt, "no such handle")
    }

    /// Gives a handle a number.
    pub(super) fn keep(&mut self, rt: &impl Abort, number: usize, handle: Handle) {
        assert!(rt; number < MOST, "no such number");
        self.handles[number] = Some(handle);
    }

    /// The next value, which has to be this.
    pub(super) fn value(&mut self, rt: &impl Abort, bytes: &[u8]) -> Vec<u8> {
        let value = self.values.pop().expect(rt, "no value is left");
        assert!(rt; value.as_slice() == bytes, "another value was made");
        value
    }
}

/// A cache, how it was made, its clients, and what they have in hand.
#[derive(Drop)]
pub(super) struct Stage {
    pub(super) cache: Store,
    pub(super) config: Config,
    pub(super) clients: Vec<Client<AnyBytes>>,
    pub(super) hand: Hand,
    ghost sized: { IsSized cache config },
}

/// A new cache whose clients will insert these values.
pub(super) fn opened(alloc: Global, config: Config, values: Vec<Vec<u8>>) -> Result<Stage, NewError>
    ensures { IfOk result (λ stage. AllKnown stage.cache stage.clients.items) }
{
    let (cache, clients) = Cache::new(alloc, config, AnyBytes)?;
    Ok(Stage {
        cache,
        config,
        clients,
        hand: Hand::new(values),
    })
}

/// Closes the cache, once the clients let go of the handles that have numbers. The sums are those
/// of the slots.
pub(super) fn closes(rt: &impl Abort, stage: Stage) -> Closed
    requires { AllKnown stage.cache stage.clients.items }
{
    let Stage {
        cache,
        config: _,
        mut clients,
        hand,
    } = stage;
    for number in 0..clients.len() {
        assert!(rt; number < clients.len(), "a client is missing");
        lets_go(rt, &cache, &mut clients[number], &hand);
    }
    match cache.close(clients) {
        Ok(closed) => {
            assert_eq!(rt; closed.usage(), closed.slot_charges());
            assert_eq!(rt; closed.occupied(), closed.slot_count());
            closed
        }
        Err((why, _, _)) => panic!(rt; "the cache isn't closed: {why:?}"),
    }
}

/// A client lets go of the handles that it holds.
fn lets_go(rt: &impl Abort, cache: &Store, client: &mut Client<AnyBytes>, hand: &Hand)
    requires { Knows cache.now client.old }
    ensures { Knows cache.now client.new }
{
    for number in 0..MOST {
        if let Some(handle) = hand.handles[number] {
            if client.holds(handle) {
                cache.release(client, handle, false, false);
            }
        }
    }
    assert_eq!(rt; client.held(), 0, "a handle has no number");
}
