//! Handles that are given back.
ghost use Rattle.std.specs.Prelude.{◌≡◌, ◌+◌, ◌-◌, ◌*◌, ◌&&◌, true, false, IfNone, IfSome, Some};
ghost use Rattle.hcc_cache.specs.declared.holding.Kept.TheVariants.{Pinned, Standing};
ghost use Rattle.hcc_cache.specs.Alones.{LessAlone};
ghost use Rattle.hcc_cache.specs.Calls.{CountsAt, CountsBy, CountsNone, GivesBackIn, GivesUp, HandsAt, Releases, TakesAtMost};
ghost use Rattle.hcc_cache.specs.Clients.{hold_of, Holds, IsPinOf};
ghost use Rattle.hcc_cache.specs.Handles.{handle_of, HoldsNone};
ghost use Rattle.hcc_cache.specs.Known.{Knows};
ghost use Rattle.hcc_cache.specs.Stays.{ReleasesIn, ReleasesPin, Stays, StaysWhereStanding};
ghost use Rattle.hcc_table.specs.Lists.{has_room};
ghost use Rattle.hcc_table.specs.Steps.{freeing};

use crate::cache::Cache;
use crate::client::Client;
use crate::handle::{Handle, HandleParts};
use crate::holding::Hold;
use crate::seeded::Seeded;
use hcc_rule::Tag;
use hcc_table::{FreedList, IfLast, NoList, Pin, Use};

impl<T: Tag> Cache<T> {
    /// Gives a handle back: as a use of its entry where it is useful. Where it was the last
    /// reference on an entry that was erased, or `erase_if_last` asks for it, freeing the entry is
    /// tried once; a standalone entry goes with its last handle. It returns whether this call freed
    /// an entry.
    ///
    /// The handle is none that the client holds from then on, and no other changes. It refuses
    /// nothing and allocates nothing. It costs an atomic add or subtraction; where nobody holds the
    /// entry and it may go a compare-exchange, and where that wins what freeing the slot costs and
    /// two subtractions.
    pub fn release(
        &self,
        client: &mut Client<T>,
        handle: Handle,
        useful: bool,
        erase_if_last: bool,
    ) -> bool
        requires known { Knows self.now client.old }
        requires holds { Holds client.old handle }
        ensures known { Knows self.now client.new }
        ensures released { Releases self.now handle erase_if_last result client.old client.new }
        ensures gives { GivesUp self.now handle useful erase_if_last result
            client.old client.new }
        ensures by { ReleasesIn self.now handle useful erase_if_last result
            client.old client.new }
        ensures stays { result ≡ false → Stays self.now client.old client.new }
        ensures standing { StaysWhereStanding self.now handle client.old client.new }
        ensures counts { CountsBy handle client.old client.new }
        ensures steps { TakesAtMost (freeing self.now.geometry.slots + 3) client.old client.new }
    {
        let hold = client.hold(handle);
        self.release_hold(client, handle, hold, useful, erase_if_last)
    }

    /// The same by a handle's parts: none where the client holds no handle of these parts, and
    /// nothing is changed then.
    ///
    /// It allocates nothing. It costs a look at the handle's index, and what `release` costs.
    #[inline]
    pub fn try_release(
        &self,
        client: &mut Client<T>,
        parts: HandleParts,
        useful: bool,
        erase_if_last: bool,
    ) -> Option<bool>
        requires { Knows self.now client.old }
        ensures known { Knows self.now client.new }
        ensures none { IfNone result (HoldsNone client.old parts × (client.new ≡ client.old)) }
        ensures some { IfSome result (λ _. Holds client.old (handle_of parts)) }
        ensures released { IfSome result (λ freed. Releases self.now (handle_of parts)
            erase_if_last freed client.old client.new) }
        ensures gives { IfSome result (λ freed. GivesUp self.now (handle_of parts) useful
            erase_if_last freed client.old client.new) }
        ensures by { IfSome result (λ freed. ReleasesIn self.now (handle_of parts) useful
            erase_if_last freed client.old client.new) }
        ensures stays { ¬ (result ≡ Some true) → Stays self.now client.old client.new }
        ensures standing { StaysWhereStanding self.now (handle_of parts)
            client.old client.new }
        ensures counts { IfSome result (λ _. CountsBy (handle_of parts)
            client.old client.new) }
        ensures steps { TakesAtMost (freeing self.now.geometry.slots + 3) client.old client.new }
    {
        let handle = parts.handle();
        let hold = client.find(handle)?;
        Some(self.release_hold(client, handle, hold, useful, erase_if_last))
    }

    /// Gives a handle back of which the client keeps this.
    fn release_hold(
        &self,
        client: &mut Client<T>,
        handle: Handle,
        hold: Hold,
        useful: bool,
        erase_if_last: bool,
    ) -> bool
        requires known { Knows self.now client.old }
        requires held { hold_of client.old handle ≡ Some hold }
        ensures known { Knows self.now client.new }
        ensures released { Releases self.now handle erase_if_last result client.old client.new }
        ensures gives { GivesUp self.now handle useful erase_if_last result
            client.old client.new }
        ensures by { ReleasesIn self.now handle useful erase_if_last result
            client.old client.new }
        ensures stays { result ≡ false → Stays self.now client.old client.new }
        ensures standing { StaysWhereStanding self.now handle client.old client.new }
        ensures counts { CountsBy handle client.old client.new }
        ensures steps { TakesAtMost (freeing self.now.geometry.slots + 3) client.old client.new }
    {
        match hold.pin() {
            Ok(pin) => {
                let list = &mut NoList;
                self.release_pin(client, handle, hold, pin, useful, erase_if_last, list)
            }
            Err(index) => self.release_standing(client, handle, hold, index),
        }
    }

    /// The same, of an entry of the table, and puts what it frees on a list, where that has room;
    /// else it leaves the freeing to the clock.
    pub(crate) fn release_pin<L: FreedList<Seeded<T>>>(
        &self,
        client: &mut Client<T>,
        handle: Handle,
        hold: Hold,
        pin: Pin,
        useful: bool,
        erase_if_last: bool,
        list: &mut L,
    ) -> bool
        requires known { Knows self.now client.old }
        requires held { hold_of client.old handle ≡ Some hold }
        requires pinned { IsPinOf hold pin }
        ensures known { Knows self.now client.new }
        ensures released { Releases self.now handle erase_if_last result client.old client.new }
        ensures list { HandsAt self.now (L.shelf list.old) (L.shelf list.new) hold.shard
            client.old client.new }
        ensures gives { GivesBackIn self.now hold.shard pin.slot (has_room 1 (L.shelf list.old))
            (useful && pin.counting) erase_if_last result client.old client.new }
        ensures by { ReleasesPin self.now hold pin.slot (has_room 1 (L.shelf list.old))
            (useful && pin.counting) erase_if_last result client.old client.new }
        ensures stays { result ≡ false → Stays self.now client.old client.new }
        ensures counts { CountsAt hold.shard client.old client.new }
        ensures rest { client.new ≡ record client.old {
          seats = client.new.seats;
          handles = client.new.handles;
          held = client.old.held - 1;
        } }
        ensures steps { TakesAtMost (freeing self.now.geometry.slots + L.loads + 3)
            client.old client.new }
    {
        client.let_go(handle);
        let as_use = if useful { Use::Useful } else { Use::NotUseful };
        let last = if erase_if_last {
            IfLast::Erase
        } else {
            IfLast::Keep
        };
        let seat = &mut client.seats[hold.shard];
        self.shards[hold.shard].release(seat, pin, as_use, last, list)
    }

    /// The same, of a standalone entry.
    pub(crate) fn release_standing(
        &self,
        client: &mut Client<T>,
        handle: Handle,
        hold: Hold,
        index: usize,
    ) -> bool
        requires known { Knows self.now client.old }
        requires held { hold_of client.old handle ≡ Some hold }
        requires kept { hold.kept ≡ Standing index }
        ensures known { Knows self.now client.new }
        ensures released { (erase : _) → Releases self.now handle erase result
            client.old client.new }
        ensures alone { LessAlone index result client.old client.new }
        ensures stays { Stays self.now client.old client.new }
        ensures counts { CountsNone client.old client.new }
        ensures steps { TakesAtMost 2 client.old client.new }
    {
        client.let_go(handle);
        if client.alone[index].references > 1 {
            client.alone[index].references -= 1;
            return false;
        }
        let gone = client.alone.remove(index);
        let seat = &mut client.seats[hold.shard];
        self.shards[hold.shard].release_standalone(seat, gone.name, gone.charge);
        true
    }
}
