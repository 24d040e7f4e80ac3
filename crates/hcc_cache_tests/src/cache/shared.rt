//! Caches of several clients, one after another, and when they are closed.

ghost use Rattle.std.specs.Prelude.{◌≡◌, IfOk};
ghost use Rattle.hcc_cache_tests.specs.Staged.{AllKnown};

use super::calls::{Answer, Call, plays, values_of};
use super::stage::{SMALL, Stage, closes, opened};
use hcc_cache::Inserted::Placed;
use hcc_cache::Priority::Low;
use hcc_cache::{CloseError, Config};
use std::alloc::AllocError;
use std::process::Abort;
use std::test::Fail;

/// A step of a row.
type Step = (Call<'static>, Answer);

/// The first client evicts three entries, by a hand that all clients move.
const FIRST: [Step; 5] = [
    (Call::Insert(0, 0, 200, Low, &[]), Answer::Stored(Placed)),
    (Call::Insert(0, 1, 200, Low, &[]), Answer::Stored(Placed)),
    (Call::Insert(0, 2, 200, Low, &[]), Answer::Stored(Placed)),
    (Call::Insert(0, 3, 200, Low, &[]), Answer::Stored(Placed)),
    (Call::Did, Answer::Did([4, 0, 3, 0, 600, 5])),
];

/// The second begins where the first stopped.
const SECOND: [Step; 6] = [
    (Call::Insert(0, 4, 200, Low, &[]), Answer::Stored(Placed)),
    (Call::Insert(0, 5, 200, Low, &[]), Answer::Stored(Placed)),
    (Call::Insert(0, 6, 200, Low, &[]), Answer::Stored(Placed)),
    (Call::Totals, Answer::Totals(400, 2, 0)),
    (Call::Slot(0, 3), Answer::Slot(0xe000_0000_0000_0000, 0)),
    (Call::Did, Answer::Did([3, 0, 2, 0, 400, 5])),
];

#[test]
fn clients_share_the_hand(rt: HostRuntime) -> Result<(), Fail> {
    let two = Config {
        clients: 2,
        ..SMALL
    };
    let mut stage = opened(rt.alloc(), two, Vec::new(rt.alloc()))?;
    plays(&rt, &mut stage, 0, &FIRST);
    plays(&rt, &mut stage, 1, &SECOND);
    let closed = closes(&rt, stage);
    assert!(rt; closed.shards() > 0, "no shard is left");
    assert_eq!(rt; closed.hand(0), 40);
    assert_eq!(rt; [closed.usage(), closed.occupied()], [400, 2]);
    Ok(())
}

/// One client's entry is read, erased and kept by the other.
const SHOWS: [Step; 1] = [(Call::Insert(0, 1, 200, Low, &[7]), Answer::Stored(Placed))];

const HOLDS: [Step; 1] = [(Call::Look(0, 1, 0), Answer::Found)];

const LETS_GO: [Step; 1] = [(Call::Release(0, false, false), Answer::Freed(false))];

const HIDES: [Step; 3] = [
    (Call::Erase(0, 1), Answer::Hidden(1)),
    (Call::Totals, Answer::Totals(200, 1, 200)),
    (Call::Look(0, 1, 1), Answer::Missed),
];

const FREES: [Step; 2] = [
    (Call::Release(0, true, false), Answer::Freed(true)),
    (Call::Totals, Answer::Totals(0, 0, 0)),
];

#[test]
fn clients_share_entries(rt: HostRuntime) -> Result<(), Fail> {
    let two = Config {
        clients: 2,
        ..SMALL
    };
    let mut stage = opened(rt.alloc(), two, Vec::new(rt.alloc()))?;
    plays(&rt, &mut stage, 0, &SHOWS);
    plays(&rt, &mut stage, 1, &HOLDS);
    plays(&rt, &mut stage, 0, &HIDES);
    plays(&rt, &mut stage, 1, &FREES);
    closes(&rt, stage);
    Ok(())
}

/// The second client keeps a handle, and gives it back.
const KEEPS: [Step; 1] = [(Call::Pin(0, 1, 200, Low, &[], 0), Answer::Stored(Placed))];

const GIVES: [Step; 2] = [
    (Call::Release(0, false, false), Answer::Freed(false)),
    (Call::Has, Answer::Has(0, 18_014_398_509_481_983)),
];

/// A cache is closed once all its clients are back, and hold nothing. A refusal gives all back.
#[test]
fn closing_is_refused(rt: HostRuntime) -> Result<(), Fail> {
    let two = Config {
        clients: 2,
        ..SMALL
    };
    let values = values_of(rt.alloc(), &KEEPS)?;
    let mut stage = opened(rt.alloc(), two, values)?;
    plays(&rt, &mut stage, 1, &KEEPS);
    let stage = refused(&rt, stage, CloseError::HandlesOut { client: 1 });
    let mut stage = without_last(&rt, stage)?;
    plays(&rt, &mut stage, 1, &GIVES);
    let closed = closes(&rt, without_last(&rt, stage)?);
    assert_eq!(rt; [closed.usage(), closed.occupied()], [200, 1]);
    Ok(())
}

/// The cache isn't closed, for this reason. It comes back with its clients.
fn refused(rt: &impl Abort, stage: Stage, why: CloseError) -> Stage
    requires { AllKnown stage.cache stage.clients.items }
    ensures cache { result.cache ≡ stage.cache }
    ensures clients { result.clients ≡ stage.clients }
{
    match stage.cache.close(stage.clients) {
        Ok(_) => panic!(rt; "the cache was closed"),
        Err((told, cache, clients)) => {
            assert_eq!(rt; told, why);
            Stage {
                cache,
                config: stage.config,
                clients,
                hand: stage.hand,
            }
        }
    }
}

/// Without its last client, of two, it isn't closed, whether or not that one holds a handle.
fn without_last(rt: &impl Abort, mut stage: Stage) -> Result<Stage, AllocError>
    requires { AllKnown stage.cache stage.clients.items }
    ensures { IfOk result (λ stage. AllKnown stage.cache stage.clients.items) }
{
    let last = stage.clients.pop().expect(rt, "no client is left");
    let mut stage = refused(rt, stage, CloseError::Missing { have: 1, want: 2 });
    stage.clients.push(last)?;
    Ok(stage)
}

/// As many clients as there can be hold one entry, each by its one handle.
#[test]
fn the_most_clients(rt: HostRuntime) -> Result<(), Fail> {
    let most = Config {
        clients: 1_024,
        handles: 1,
        ..SMALL
    };
    let mut stage = opened(rt.alloc(), most, Vec::new(rt.alloc()))?;
    plays(&rt, &mut stage, 0, &SHOWS);
    let mut handles = Vec::with_capacity(rt.alloc(), 1_024)?;
    for number in 0..stage.clients.len() {
        plays(&rt, &mut stage, number, &HOLDS);
        handles.push(stage.hand.handle(&rt, 0))?;
    }
    assert_eq!(rt; handles.len(), 1_024);
    let all = [
        (Call::Slot(0, 1), Answer::Slot(0xe000_0000_8000_0402, 0)),
        (Call::Totals, Answer::Totals(200, 1, 200)),
    ];
    plays(&rt, &mut stage, 0, &all);
    for (number, handle) in (0..).zip(handles) {
        stage.hand.keep(&rt, 0, handle);
        plays(&rt, &mut stage, number, &LETS_GO);
    }
    let closed = closes(&rt, stage);
    assert_eq!(rt; [closed.usage(), closed.occupied()], [200, 1]);
    Ok(())
}

/// A cache of as many shards as there can be: each gets a key of its own, and tells it.
#[test]
fn the_most_shards(rt: HostRuntime) -> Result<(), Fail> {
    let most = Config {
        shards: 64,
        capacity: 64 * 600,
        ..SMALL
    };
    let mut stage = opened(rt.alloc(), most, Vec::new(rt.alloc()))?;
    for shard in 0..64u32 {
        let w0 = (shard as u64) << 32;
        let calls = [
            (Call::Insert(w0, 1, 200, Low, &[7]), Answer::Stored(Placed)),
            (Call::Slot(shard, 1), Answer::Slot(0xe000_0000_8000_0002, 0)),
            (Call::Look(w0, 1, 0), Answer::Found),
            (Call::Release(0, true, false), Answer::Freed(false)),
        ];
        plays(&rt, &mut stage, 0, &calls);
    }
    let all = [(Call::Totals, Answer::Totals(12_800, 64, 0))];
    plays(&rt, &mut stage, 0, &all);
    let closed = closes(&rt, stage);
    assert_eq!(rt; closed.shards(), 64);
    assert_eq!(rt; [closed.usage(), closed.occupied()], [12_800, 64]);
    Ok(())
}
