//! Parts of values that a client reads by its handles.
ghost use Rattle.std.specs.Prelude.{◌≡◌, ◌+◌, ◌-◌, Some, IfNone, IfSome, length, min};
ghost use Rattle.hcc_table.specs.Readings.{part_in, words_across};
ghost use Rattle.hcc_cache.specs.Calls.{Reads, TakesAtMost};
ghost use Rattle.hcc_cache.specs.Clients.{held_of, hold_of, Holds};
ghost use Rattle.hcc_cache.specs.Handles.{handle_of, HoldsNone};
ghost use Rattle.hcc_cache.specs.Known.{Knows};
ghost use Rattle.hcc_cache.specs.Stays.{Stays};

use crate::cache::Cache;
use crate::client::Client;
use crate::handle::{Handle, HandleParts};
use crate::holding::Hold;
use hcc_rule::Tag;
use hcc_shard::Part;

impl<T: Tag> Cache<T> {
    /// Copies bytes of the value of the entry that a handle is on, from an offset on, to the front
    /// of a buffer: as many as there are, and as it has room for. It returns how many these are,
    /// and how many the whole value has. The rest of the buffer stays; where the offset is at the
    /// value's end, or past it, all of it.
    ///
    /// It refuses nothing and allocates nothing. It costs a load for the length, and one for each
    /// word of eight bytes that has some of these; of a standalone entry a copy and no load.
    pub fn read_part(
        &self,
        client: &mut Client<T>,
        handle: Handle,
        offset: usize,
        buffer: &mut [u8],
    ) -> Part
        requires known { Knows self.now client.old }
        requires holds { Holds client.old handle }
        ensures known { Knows self.now client.new }
        ensures reads { Reads self.now client.old client.new }
        ensures stays { Stays self.now client.old client.new }
        ensures length { IfSome (held_of self.now client.old handle) (λ held.
            result.length ≡ length held.insertion.value) }
        ensures given { result.given ≡ min (result.length - offset) (length buffer.old) }
        ensures bytes { IfSome (held_of self.now client.old handle) (λ held.
            buffer.new ≡ part_in offset result.given held.insertion.value buffer.old) }
        ensures steps { TakesAtMost (words_across offset result.given + 1)
            client.old client.new }
    {
        let hold = client.hold(handle);
        self.part_of(client, handle, hold, offset, buffer)
    }

    /// The same by a handle's parts: none where the client holds no handle of these parts.
    pub fn try_read_part(
        &self,
        client: &mut Client<T>,
        parts: HandleParts,
        offset: usize,
        buffer: &mut [u8],
    ) -> Option<Part>
        requires { Knows self.now client.old }
        ensures known { Knows self.now client.new }
        ensures none { IfNone result (HoldsNone client.old parts × (client.new ≡ client.old)
            × (buffer.new ≡ buffer.old)) }
        ensures some { IfSome result (λ _. Holds client.old (handle_of parts)) }
        ensures reads { Reads self.now client.old client.new }
        ensures stays { Stays self.now client.old client.new }
        ensures read { IfSome result (λ part.
            (part.given ≡ min (part.length - offset) (length buffer.old))
            × IfSome (held_of self.now client.old (handle_of parts)) (λ held.
            (part.length ≡ length held.insertion.value)
            × (buffer.new ≡ part_in offset part.given held.insertion.value buffer.old))) }
        ensures steps { IfSome result (λ part.
            TakesAtMost (words_across offset part.given + 1) client.old client.new) }
    {
        let handle = parts.handle();
        let hold = client.find(handle)?;
        Some(self.part_of(client, handle, hold, offset, buffer))
    }

    /// The same, by what the client keeps of the handle.
    fn part_of(
        &self,
        client: &mut Client<T>,
        handle: Handle,
        hold: Hold,
        offset: usize,
        buffer: &mut [u8],
    ) -> Part
        requires known { Knows self.now client.old }
        requires held { hold_of client.old handle ≡ Some hold }
        ensures known { Knows self.now client.new }
        ensures reads { Reads self.now client.old client.new }
        ensures stays { Stays self.now client.old client.new }
        ensures length { IfSome (held_of self.now client.old handle) (λ held.
            result.length ≡ length held.insertion.value) }
        ensures given { result.given ≡ min (result.length - offset) (length buffer.old) }
        ensures bytes { IfSome (held_of self.now client.old handle) (λ held.
            buffer.new ≡ part_in offset result.given held.insertion.value buffer.old) }
        ensures steps { TakesAtMost (words_across offset result.given + 1)
            client.old client.new }
    {
        match hold.pin() {
            Ok(pin) => {
                let seat = &mut client.seats[hold.shard];
                self.shards[hold.shard].read_part(seat, pin, offset, buffer)
            }
            Err(index) => part_from(client.alone[index].value.bytes(), offset, buffer),
        }
    }
}

/// Copies bytes of a value in memory, from an offset on, to the front of a buffer.
fn part_from(value: &[u8], offset: usize, buffer: &mut [u8]) -> Part
    ensures length { result.length ≡ length value.now }
    ensures given { result.given ≡ min (length value.now - offset) (length buffer.old) }
    ensures bytes { buffer.new ≡ part_in offset result.given value.now buffer.old }
{
    let length = value.len();
    let given = length.saturating_sub(offset).min(buffer.len());
    if given > 0 {
        buffer[..given].copy_from_slice(&value[offset..offset + given]);
    }
    Part { given, length }
}
