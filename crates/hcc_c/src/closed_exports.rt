//! A cache is closed so that C can read what is left of it. Each reading says by its status and its
//! outputs what is left behind the pointer, and changes nothing of it.
ghost use Rattle.std.specs.Prelude.{◌≡◌, None, Some, IfOk, IsOkUnless, OnErr, OnOk};
ghost use Rattle.hcc_rule.specs.declared.layout.TheConstants.{DISPLACEMENT, META};
ghost use Rattle.hcc_c.specs.Answers.{entry_or, given_or, length_copied, placed, status_of_copied, status_of_given, status_of_left};
ghost use Rattle.hcc_c.specs.Left.{ReadsLeft, TellsLeft, field_left, hand_left, totals_left};
ghost use Rattle.hcc_c.specs.Lending.{IsClosedThere};
ghost use Rattle.hcc_c.specs.Pools.{AreFit, EndsKept, IsWholePool, held_in};

use crate::answers::{told_copied, told_done, told_given, told_left, told_room};
use crate::closed::Left;
use crate::objects::{CacheObject, CachePlace, ClientPlace, ClosedObject, ClosedPlace, Loose};
use crate::refusal::Refusal;
use crate::shapes::{Entry, Totals};
use std::alloc::Global;

/// Gives a place for what is left of a cache.
#[unsafe(no_mangle)]
pub extern "C" fn ferretgold_raw_closed_open(alloc: Global, closed: &mut ClosedPlace) -> u32
    requires { closed.old.value ≡ None }
    ensures opens { (answer : _) × IsOkUnless answer Refusal.OutOfMemory
        × IfOk answer (λ left. left.value.closed ≡ None)
        × (result ≡ status_of_given answer) × (closed.new.value ≡ placed answer) }
{
    let answer = Left::open(alloc);
    told_room(answer, closed)
}

/// Ends the cache as `ferretgold_raw_close` does, and keeps what is left of it.
#[unsafe(no_mangle)]
pub extern "C" fn ferretgold_raw_close_keeping(
    alloc: Global,
    cache: CacheObject,
    clients: &mut [ClientPlace],
    closed: &mut ClosedObject,
    kept: &mut CachePlace,
) -> u32
    requires cache { IsWholePool cache.value }
    requires clients { AreFit cache.value (held_in clients.old) }
    requires kept { kept.old.value ≡ None }
    ensures there { IsClosedThere closed.old closed.new }
    ensures ends { (answer : _) × (left : _)
        × EndsKept answer cache.value left (held_in clients.old) (held_in clients.new)
        closed.old.value closed.new.value
        × (result ≡ status_of_given answer)
        × OnErr answer (kept.new.value ≡ Some left)
        × OnOk answer (kept.new.value ≡ None) }
{
    let mut cache = cache.cache(alloc);
    let answer = cache.close_keeping(alloc, clients, closed.left());
    if answer.is_err() {
        *kept = CachePlace::of(Loose::of(cache));
    }
    told_done(answer)
}

/// Frees what is left of a cache, which C has no more.
#[unsafe(no_mangle)]
pub extern "C" fn ferretgold_raw_closed_free(alloc: Global, closed: ClosedObject) {
    drop(closed.whole(alloc));
}

#[unsafe(no_mangle)]
pub extern "C" fn ferretgold_raw_closed_totals(
    closed: &mut ClosedObject,
    totals: &mut Totals,
) -> u32
    ensures there { IsClosedThere closed.old closed.new }
    ensures same { closed.new.value ≡ closed.old.value }
    ensures status { result ≡ status_of_given (totals_left closed.old.value.closed) }
    ensures totals { totals.new ≡ given_or (totals_left closed.old.value.closed) totals.old }
{
    let answer = closed.left().totals();
    told_given(answer, totals)
}

#[unsafe(no_mangle)]
pub extern "C" fn ferretgold_raw_closed_entry(
    closed: &mut ClosedObject,
    shard: u32,
    slot: u32,
    entry: &mut Entry,
) -> u32
    ensures there { IsClosedThere closed.old closed.new }
    ensures same { closed.new.value ≡ closed.old.value }
    ensures tells { (answer : _) × TellsLeft shard slot answer closed.old.value.closed
        × (result ≡ status_of_left answer) × (entry.new ≡ entry_or answer entry.old) }
{
    let answer = closed.left().entry(shard, slot);
    told_left(answer, entry)
}

#[unsafe(no_mangle)]
pub extern "C" fn ferretgold_raw_closed_value(
    closed: &mut ClosedObject,
    shard: u32,
    slot: u32,
    buffer: &mut [u8],
    length: &mut usize,
) -> u32
    ensures there { IsClosedThere closed.old closed.new }
    ensures same { closed.new.value ≡ closed.old.value }
    ensures reads { (answer : _)
        × ReadsLeft shard slot answer buffer.old buffer.new closed.old.value.closed
        × (result ≡ status_of_copied answer) × (length.new ≡ length_copied answer length.old) }
{
    let answer = closed.left().value(shard, slot, buffer);
    told_copied(answer, length)
}

#[unsafe(no_mangle)]
pub extern "C" fn ferretgold_raw_closed_word(
    closed: &mut ClosedObject,
    shard: u32,
    slot: u32,
    word: &mut u64,
) -> u32
    ensures there { IsClosedThere closed.old closed.new }
    ensures same { closed.new.value ≡ closed.old.value }
    ensures status { result ≡ status_of_given (field_left shard slot META closed.old.value.closed) }
    ensures word { word.new
        ≡ given_or (field_left shard slot META closed.old.value.closed) word.old }
{
    let answer = closed.left().word(shard, slot);
    told_given(answer, word)
}

#[unsafe(no_mangle)]
pub extern "C" fn ferretgold_raw_closed_displacement(
    closed: &mut ClosedObject,
    shard: u32,
    slot: u32,
    displacement: &mut u64,
) -> u32
    ensures there { IsClosedThere closed.old closed.new }
    ensures same { closed.new.value ≡ closed.old.value }
    ensures status { result
        ≡ status_of_given (field_left shard slot DISPLACEMENT closed.old.value.closed) }
    ensures displacement { displacement.new
        ≡ given_or (field_left shard slot DISPLACEMENT closed.old.value.closed) displacement.old }
{
    let answer = closed.left().displacement(shard, slot);
    told_given(answer, displacement)
}

#[unsafe(no_mangle)]
pub extern "C" fn ferretgold_raw_closed_hand(
    closed: &mut ClosedObject,
    shard: u32,
    hand: &mut u64,
) -> u32
    ensures there { IsClosedThere closed.old closed.new }
    ensures same { closed.new.value ≡ closed.old.value }
    ensures status { result ≡ status_of_given (hand_left shard closed.old.value.closed) }
    ensures hand { hand.new ≡ given_or (hand_left shard closed.old.value.closed) hand.old }
{
    let answer = closed.left().hand(shard);
    told_given(answer, hand)
}
