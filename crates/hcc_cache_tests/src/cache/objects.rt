//! Objects: what each call answers, and what is handed back.
ghost use Rattle.std.specs.Prelude.{◌≡◌, ◌≤◌, ◌∷◌, [], ℕ, Err, IfOk, Some, slice_get};
ghost use Rattle.hcc_cache.specs.Objects.{KnowsObjects};
ghost use Rattle.hcc_cache.specs.ObjectsClosed.{places_in};

use hcc_cache::{
    ClosingRoom, Handle, Key, NewError, Object, ObjectCache, ObjectClient, ObjectCloseError,
    ObjectConfig, ObjectError, ObjectNewError, ObjectsLeft, Placing, Priority, StaysOpen,
};
use std::alloc::{AllocError, Global};
use std::process::Abort;

/// A cache of one shard and one client, whose list takes four entries.
const SMALL: ObjectConfig = ObjectConfig {
    slots: 8,
    clients: 1,
    handles: 2,
    gone: 4,
    shards: 1,
    capacity: 600,
    strict: false,
    marks: false,
    serials: 1_000,
    seed: 7,
};

fn key(number: u64) -> Key {
    Key { w0: number, w1: 0 }
}

fn object(number: u16) -> Object {
    Object {
        address: 0x7fff_0000_0000 + 64 * number as u64,
        kind: number,
    }
}

/// A new cache, its client, and what its closing needs.
fn begins(
    rt: &impl Abort,
    alloc: Global,
) -> Result<(ObjectCache, ObjectClient, ClosingRoom), AllocError>
    ensures known { IfOk result (λ made. KnowsObjects made.0 made.1) }
    ensures room { IfOk result (λ made. made.0.cache.geometry.clients ≤ places_in made.2) }
{
    match ObjectCache::new(alloc, SMALL) {
        Ok((cache, mut clients, room)) => {
            let Some(me) = clients.pop() else {
                panic!(rt; "there is no client")
            };
            Ok((cache, me, room))
        }
        Err(ObjectNewError::Bad(NewError::OutOfMemory)) => Err(AllocError),
        Err(_) => panic!(rt; "no cache is made"),
    }
}

/// The newest object on the client's list.
fn taken(cache: &ObjectCache, client: &mut ObjectClient) -> Option<(Key, Object)>
    requires { KnowsObjects cache.now client.old }
    ensures { KnowsObjects cache.now client.new }
{
    match cache.take_gone(client) {
        Some(gone) => Some(gone.take()),
        None => None,
    }
}

/// Gives a handle back that the client holds.
fn gives_back(
    rt: &impl Abort,
    cache: &ObjectCache,
    client: &mut ObjectClient,
    handle: Handle,
) -> bool
    requires { KnowsObjects cache.now client.old }
    ensures { KnowsObjects cache.now client.new }
{
    assert!(rt; client.client().holds(handle), "the handle is gone");
    cache.release(client, handle, true, false)
}

fn is_shared<T: Sync>(_x: &T) {}

fn crosses<T: Send>(_x: &T) {}

/// Threads share a cache, and a client may go to another one. Nothing calls this: the compiler
/// judges it.
pub fn objects_cross(cache: &ObjectCache, client: &ObjectClient, room: &ClosingRoom) {
    is_shared(cache);
    crosses(cache);
    crosses(client);
    crosses(room);
}

/// An entry that was erased while it was held comes back with its last handle, and no earlier.
#[test]
fn an_object_comes_back_with_its_last_handle(rt: HostRuntime) -> Result<(), AllocError> {
    let (cache, mut me, _room) = begins(&rt, rt.alloc())?;
    let placed = cache.insert(&mut me, key(1), object(9), 10, Priority::Low);
    assert_eq!(rt; placed, Ok(Placing::Placed));
    let Ok(Some((handle, found))) = cache.lookup(&mut me, key(1)) else {
        panic!(rt; "the object isn't found")
    };
    assert_eq!(rt; found, object(9));
    assert_eq!(rt; cache.erase(&mut me, key(1)), 1);
    assert_eq!(rt; taken(&cache, &mut me), None);
    assert!(rt;
        gives_back(&rt, &cache, &mut me, handle),
        "nothing was freed"
    );
    assert_eq!(rt; taken(&cache, &mut me), Some((key(1), object(9))));
    assert_eq!(rt; taken(&cache, &mut me), None);
    Ok(())
}

/// Where the list is full an insertion makes no turn of the hand, and says so; with an empty one it
/// is placed.
#[test]
fn a_full_list_is_told_of(rt: HostRuntime) -> Result<(), AllocError> {
    let (cache, mut me, _room) = begins(&rt, rt.alloc())?;
    for number in 0u16..6 {
        let placed = cache.insert(
            &mut me,
            key(number as u64),
            object(number),
            1,
            Priority::Bottom,
        );
        assert_eq!(rt; placed, Ok(Placing::Placed));
    }
    assert_eq!(rt; cache.erase(&mut me, key(0)), 1);
    for number in 6u16..8 {
        let placed = cache.insert(
            &mut me,
            key(number as u64),
            object(number),
            1,
            Priority::Bottom,
        );
        let want = if number == 6 {
            Placing::Placed
        } else {
            Placing::Dropped { list_full: true }
        };
        assert_eq!(rt; placed, Ok(want));
    }
    assert_eq!(rt; taken(&cache, &mut me), Some((key(0), object(0))));
    let placed = cache.insert(&mut me, key(7), object(7), 1, Priority::Bottom);
    assert_eq!(rt; placed, Ok(Placing::Placed));
    Ok(())
}

/// A walk over the slots holds each visible entry once. One that was erased while the list was full
/// is freed by a walk once there is room.
#[test]
fn a_walk_holds_each_entry(rt: HostRuntime) -> Result<(), AllocError> {
    let (cache, mut me, _room) = begins(&rt, rt.alloc())?;
    for number in 0u16..5 {
        let placed = cache.insert(
            &mut me,
            key(number as u64),
            object(number),
            7,
            Priority::Low,
        );
        assert_eq!(rt; placed, Ok(Placing::Placed));
    }
    for number in 0u64..5 {
        assert_eq!(rt; cache.erase(&mut me, key(number)), 1);
    }
    assert_eq!(rt; walked(&rt, &cache, &mut me), 0);
    assert_eq!(rt; me.untaken(), 4);
    assert_eq!(rt; taken(&cache, &mut me), Some((key(3), object(3))));
    let placed = cache.insert(&mut me, key(9), object(9), 7, Priority::Low);
    assert_eq!(rt; placed, Ok(Placing::Placed));
    assert_eq!(rt; walked(&rt, &cache, &mut me), 9);
    assert_eq!(rt; taken(&cache, &mut me), Some((key(4), object(4))));
    assert_eq!(rt; cache.pin_at(&mut me, 1, 0), Ok(None));
    assert_eq!(rt; cache.pin_at(&mut me, 0, 8), Ok(None));
    Ok(())
}

/// The sum of the numbers of what a walk holds.
fn walked(rt: &impl Abort, cache: &ObjectCache, client: &mut ObjectClient) -> u64
    requires { KnowsObjects cache.now client.old }
    ensures { KnowsObjects cache.now client.new }
{
    let mut sum = 0u64;
    for slot in 0..SMALL.slots {
        sum = sum.wrapping_add(number_at(rt, cache, client, slot));
    }
    sum
}

/// The number of what a walk holds at a slot; 0 where it holds nothing.
fn number_at(rt: &impl Abort, cache: &ObjectCache, client: &mut ObjectClient, slot: u32) -> u64
    requires { KnowsObjects cache.now client.old }
    ensures { KnowsObjects cache.now client.new }
{
    let Ok(Some(held)) = cache.pin_at(client, 0, slot) else {
        return 0;
    };
    let number = held.object.kind;
    assert_eq!(rt; (held.key, held.charge), (key(number as u64), 7));
    assert_eq!(rt; held.object, object(number));
    assert!(rt;
        !gives_back(rt, cache, client, held.handle),
        "the entry is gone"
    );
    number as u64
}

/// Where no place is found an object stands alone until its last handle is released, and goes onto
/// the list then, which has a place for it; where none is left no such insertion is begun.
#[test]
fn an_object_that_stands_alone_comes_back(rt: HostRuntime) -> Result<(), AllocError> {
    let (cache, mut me, _room) = begins(&rt, rt.alloc())?;
    for number in 0u16..6 {
        let placed = cache.insert(
            &mut me,
            key(number as u64),
            object(number),
            1,
            Priority::Bottom,
        );
        assert_eq!(rt; placed, Ok(Placing::Placed));
    }
    assert_eq!(rt; cache.erase(&mut me, key(0)), 1);
    let placed = cache.insert(&mut me, key(6), object(6), 1, Priority::Bottom);
    assert_eq!(rt; placed, Ok(Placing::Placed));
    for number in 7u16..12 {
        let stood = cache.insert_pinned(&mut me, key(7), object(number), 1, Priority::Bottom);
        let Ok((handle, Placing::Standalone { list_full: true })) = stood else {
            panic!(rt; "it doesn't stand alone")
        };
        assert_eq!(rt; cache.lookup(&mut me, key(7)), Ok(None));
        assert!(rt; me.client().holds(handle), "the handle is gone");
        let Ok(more) = cache.reref(&mut me, handle) else {
            panic!(rt; "no handle more is given")
        };
        assert!(rt;
            !gives_back(&rt, &cache, &mut me, handle),
            "it went with a handle left"
        );
        assert!(rt;
            gives_back(&rt, &cache, &mut me, more),
            "it is left with no handle"
        );
    }
    let refused = cache.insert_pinned(&mut me, key(7), object(12), 1, Priority::Bottom);
    assert_eq!(rt; refused, Err(ObjectError::GoneFull));
    for number in [11, 10, 9, 8, 7] {
        assert_eq!(rt; taken(&cache, &mut me), Some((key(7), object(number))));
    }
    assert_eq!(rt; taken(&cache, &mut me), Some((key(0), object(0))));
    assert_eq!(rt; taken(&cache, &mut me), None);
    Ok(())
}

/// The one client of a cache, by itself.
fn alone(
    alloc: Global,
    cache: &ObjectCache,
    me: ObjectClient,
) -> Result<Vec<ObjectClient>, AllocError>
    requires { KnowsObjects cache.now me }
    ensures items { IfOk result (λ clients. clients.items ≡ me ∷ []) }
    ensures known { IfOk result (λ clients. (k : ℕ) (client : _)
        → slice_get clients.items k ≡ Some client → KnowsObjects cache.now client) }
{
    let mut clients = Vec::new(alloc);
    clients.push(me)?;
    Ok(clients)
}

/// Why a cache isn't closed, and what is handed back.
fn refused(rt: &impl Abort, closed: Result<ObjectsLeft, StaysOpen>) -> StaysOpen
    ensures { closed ≡ Err result }
{
    match closed {
        Ok(left) => stuck(rt, left),
        Err(open) => open,
    }
}

/// A walk that shouldn't be there.
fn stuck(rt: &impl Abort, left: ObjectsLeft) -> ! {
    panic!(rt; "a walk is left")
}

/// Why a cache isn't closed by its client.
fn stays_open(
    rt: &impl Abort,
    alloc: Global,
    cache: ObjectCache,
    me: ObjectClient,
    room: ClosingRoom,
) -> Result<(ObjectCloseError, ObjectCache, ObjectClient, ClosingRoom), AllocError>
    requires known { KnowsObjects cache me }
    requires room { cache.cache.geometry.clients ≤ places_in room }
    ensures known { IfOk result (λ made. KnowsObjects made.1 made.2) }
    ensures room { IfOk result (λ made. made.1.cache.geometry.clients ≤ places_in made.3) }
{
    let clients = alone(alloc, &cache, me)?;
    let open = refused(rt, cache.close(clients, room));
    let StaysOpen {
        why,
        cache,
        mut clients,
        room,
    } = open;
    let Some(me) = clients.pop() else {
        panic!(rt; "there is no client")
    };
    Ok((why, cache, me, room))
}

/// A cache is closed once nothing is held and nothing is on a list; its walk hands out the rest.
#[test]
fn what_is_left_is_handed_out(rt: HostRuntime) -> Result<(), AllocError> {
    let alloc = rt.alloc();
    let (cache, mut me, room) = begins(&rt, alloc)?;
    for number in 0u16..3 {
        let placed = cache.insert(
            &mut me,
            key(number as u64),
            object(number),
            1,
            Priority::High,
        );
        assert_eq!(rt; placed, Ok(Placing::Placed));
    }
    assert_eq!(rt; cache.erase(&mut me, key(1)), 1);
    let open = refused(&rt, cache.close(Vec::new(alloc), room));
    assert_eq!(rt; open.why, ObjectCloseError::Missing { have: 0, want: 1 });
    let StaysOpen { cache, room, .. } = open;
    let (why, cache, mut me, room) = stays_open(&rt, alloc, cache, me, room)?;
    assert_eq!(rt; why, ObjectCloseError::Untaken { client: 0 });
    let Ok(Some((handle, _))) = cache.lookup(&mut me, key(2)) else {
        panic!(rt; "the object isn't found")
    };
    let (why, cache, mut me, room) = stays_open(&rt, alloc, cache, me, room)?;
    assert_eq!(rt; why, ObjectCloseError::HandlesOut { client: 0 });
    assert!(rt;
        !gives_back(&rt, &cache, &mut me, handle),
        "the entry is gone"
    );
    assert_eq!(rt; taken(&cache, &mut me), Some((key(1), object(1))));
    let clients = alone(alloc, &cache, me)?;
    let mut left = match cache.close(clients, room) {
        Ok(left) => left,
        Err(_) => panic!(rt; "it isn't closed"),
    };
    let mut sum = 0;
    while let Some(gone) = left.next() {
        let (key, object) = gone.take();
        assert_eq!(rt; key.w0, object.kind as u64);
        sum = (1 + object.kind as u64).wrapping_add(sum);
    }
    assert_eq!(rt; sum, 4);
    match left.end() {
        Ok(()) => {}
        Err(left) => stuck(&rt, left),
    }
    Ok(())
}
