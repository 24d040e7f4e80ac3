//! Look-ups, and one reference more on what is held.
ghost use Rattle.std.specs.Prelude.{◌≡◌, ◌+◌, ◌<◌, ◌++◌, ◌∷◌, [], true, Some, IfSome, IfNone, length, option_map};
ghost use Rattle.hcc_core.specs.declared.limits.TheConstants.{MOST_HANDLES};
ghost use Rattle.hcc_rule.specs.declared.view.Record.{Record};
ghost use Rattle.hcc_rule.specs.Callers.{room_of, slots_of, IsSlotOf};
ghost use Rattle.hcc_rule.specs.Addresses.{address_of_meta};
ghost use Rattle.hcc_rule.specs.Seats.{view};
ghost use Rattle.hcc_rule.specs.Records.{record_in};
ghost use Rattle.hcc_rule.specs.Words.{payload_word};
ghost use Rattle.hcc_table.specs.Efforts.{Took};
ghost use Rattle.hcc_table.specs.Pins.{IsOf, IsPinned};
ghost use Rattle.hcc_table.specs.Searched.{IsFound, IsMissed, Searched};
ghost use Rattle.hcc_table.specs.Steps.{MakesAtMost, MakesFor, Marks};
ghost use Rattle.hcc_shard.specs.Callers.{AcquiresAt, SearchesAt};
ghost use Rattle.hcc_shard.specs.Counted.{SameEvictions};
ghost use Rattle.hcc_shard.specs.Seated.{IsNext, Rests};
ghost use Rattle.hcc_shard.specs.Stays.{AcquiresBy, SeeksAt};

use crate::seat::ShardSeat;
use crate::shard::Shard;
use hcc_rule::{Key, Tag};
use hcc_table::{Pin, again, find, read_word};
use std::alloc::Allocator;

impl<T: Tag, A: Allocator> Shard<T, A> {
    /// Looks for a visible entry of the key, and gives a reference on it, named by the serial that
    /// the call is handed: it is above the names that the client has, which holds fewer than 16,384
    /// references.
    ///
    /// Where it finds one, the client has one record more, behind its others: of an entry of this
    /// key, with a value that fits it, which the client hadn't seen dead. Where it finds none, it
    /// holds what it held, and has seen dead each entry of the key that it holds. In a shard that
    /// marks, the entry that it finds has the hit bit then; else no step marks. Each slot that was
    /// passed was found not visible, or with an entry of another key; a miss passed at least one,
    /// and ends where the displacement word of the last one is 0, or after all slots.
    ///
    /// It allocates nothing. Each probe costs a load and one of the displacement word, and where
    /// the slot is visible an add, a load of each half of the key that is compared, and a
    /// subtraction. A hit at the first probe is one load, one add and two loads.
    #[inline(always)]
    pub fn lookup(&self, seat: &mut ShardSeat<T>, key: Key, serial: u64) -> Option<Pin>
        requires seat { Rests self.now seat.old }
        requires serial { IsNext serial (view seat.old.seat) }
        requires few { length (view seat.old.seat).records < MOST_HANDLES }
        ensures seat { Rests self.now seat.new }
        ensures pin { IfSome result (λ pin. IsSlotOf self.now.table pin.slot
            × (pin.name ≡ serial)) }
        ensures found { IfSome result (λ pin. (r : Record)
            × IsFound T.fits (room_of self.now.table) pin.slot serial key
            (view seat.old.seat) (view seat.new.seat) r
            × IsOf pin r) }
        ensures missed { IfNone result (IsMissed key (view seat.old.seat) (view seat.new.seat)) }
        ensures searches { SearchesAt T.fits self.now key serial result seat.old seat.new }
        ensures marked { self.now.marks ≡ true → IfSome result (λ pin.
            Marks (address_of_meta self.now.table pin.slot) seat.old.seat seat.new.seat) }
        ensures effort { Took 1 (slots_of self.now.table) (slots_of self.now.table)
            seat.old.effort seat.new.effort }
        ensures counts { SameEvictions seat.old seat.new }
        ensures steps { MakesFor 7 0 (slots_of self.now.table) seat.old.effort seat.new.effort
            seat.old.seat seat.new.seat }
    {
        match find(
            &self.table,
            &mut seat.seat,
            key,
            serial,
            self.marks,
            &mut seat.effort,
        ) {
            Some(found) => Some(found.pin),
            None => None,
        }
    }

    /// The same, with the first eight bytes of the value, the lowest first, where it isn't empty.
    ///
    /// It costs a load more, of an address that is found once.
    #[inline(always)]
    pub fn lookup_word(&self, seat: &mut ShardSeat<T>, key: Key, serial: u64) -> Option<(Pin, u64)>
        requires seat { Rests self.now seat.old }
        requires serial { IsNext serial (view seat.old.seat) }
        requires few { length (view seat.old.seat).records < MOST_HANDLES }
        ensures seat { Rests self.now seat.new }
        ensures pin { IfSome result (λ got. IsSlotOf self.now.table got.0.slot
            × (got.0.name ≡ serial)) }
        ensures found { IfSome result (λ got. (r : Record)
            × IsFound T.fits (room_of self.now.table) got.0.slot serial key
            (view seat.old.seat) (view seat.new.seat) r
            × IsOf got.0 r
            × (0 < length r.entry.value → got.1 ≡ payload_word r.entry.value 0)) }
        ensures missed { IfNone result (IsMissed key (view seat.old.seat) (view seat.new.seat)) }
        ensures searches { (found : ShardSeat T)
            × SearchesAt T.fits self.now key serial (option_map (λ got. got.0) result)
            seat.old found × SeeksAt self.now found seat.new
            × (view seat.new.seat ≡ view found.seat) }
        ensures effort { Took 1 (slots_of self.now.table) (slots_of self.now.table)
            seat.old.effort seat.new.effort }
        ensures counts { SameEvictions seat.old seat.new }
        ensures steps { MakesFor 7 1 (slots_of self.now.table) seat.old.effort seat.new.effort
            seat.old.seat seat.new.seat }
    {
        match find(
            &self.table,
            &mut seat.seat,
            key,
            serial,
            self.marks,
            &mut seat.effort,
        ) {
            Some(found) => {
                let word = read_word(&self.table, &mut seat.seat, found, 0);
                Some((found.pin, word))
            }
            None => None,
        }
    }

    /// One reference more on the entry of a pin that the client holds, named by the serial that the
    /// call is handed: it is above the names that the client has, which holds fewer than 16,384
    /// references. It returns the pin of it.
    ///
    /// The record of it is behind the client's others, on the very same entry. It allocates
    /// nothing. It costs one atomic add, and a compare-exchange where the reference doesn't count.
    pub fn reref(&self, seat: &mut ShardSeat<T>, pin: Pin, serial: u64) -> Pin
        requires seat { Rests self.now seat.old }
        requires slot { IsSlotOf self.now.table pin.slot }
        requires holds { IsPinned pin (view seat.old.seat) }
        requires serial { IsNext serial (view seat.old.seat) }
        requires few { length (view seat.old.seat).records < MOST_HANDLES }
        ensures seat { Rests self.now seat.new }
        ensures view { Searched (view seat.old.seat) (view seat.new.seat) }
        ensures pin { (result.slot ≡ pin.slot) × (result.name ≡ serial) }
        ensures record { (r : Record)
            × ((view seat.new.seat).records ≡ (view seat.old.seat).records ++ r ∷ [])
            × IsOf result r × (r.name ≡ serial)
            × IfSome (record_in pin.name (view seat.old.seat).records) (λ q. r.entry ≡ q.entry) }
        ensures acquires { AcquiresAt self.now pin.slot result.counting seat.old seat.new }
        ensures by { AcquiresBy self.now pin.slot serial result.counting seat.old seat.new }
        ensures effort { Took 0 0 1 seat.old.effort seat.new.effort }
        ensures counts { SameEvictions seat.old seat.new }
        ensures steps { MakesAtMost 2 seat.old.seat seat.new.seat }
    {
        again(&self.table, &mut seat.seat, pin, serial, &mut seat.effort)
    }
}
