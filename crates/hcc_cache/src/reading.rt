//! What a client reads by its handles.
ghost use Rattle.std.specs.Prelude.{◌≡◌, ◌+◌, ◌-◌, ◌<◌, ◌≤◌, ◌++◌, Some, IfErr, IfNone, IfOk, IfSome, length, drop};
ghost use Rattle.hcc_rule.specs.Words.{words_for};
ghost use Rattle.hcc_cache.specs.Alones.{AreAlone};
ghost use Rattle.hcc_cache.specs.Calls.{Reads, TakesAtMost};
ghost use Rattle.hcc_cache.specs.Clients.{held_of, hold_of, Holds};
ghost use Rattle.hcc_cache.specs.Handles.{handle_of, HoldsNone};
ghost use Rattle.hcc_cache.specs.Known.{Knows};
ghost use Rattle.hcc_cache.specs.Stays.{Stays};

use crate::cache::Cache;
use crate::client::Client;
use crate::handle::{Handle, HandleParts};
use crate::holding::Hold;
use hcc_rule::{Key, Tag};

impl<T: Tag> Cache<T> {
    /// The key of the entry that a handle is on, as its insertion gave it.
    ///
    /// It refuses nothing, allocates nothing and makes no atomic step. It costs a look at the
    /// handle's index.
    pub fn key(&self, client: &mut Client<T>, handle: Handle) -> Key
        requires known { Knows self.now client.old }
        requires holds { Holds client.old handle }
        ensures same { client.new ≡ client.old }
        ensures exact { IfSome (held_of self.now client.old handle) (λ held.
            result ≡ held.insertion.key) }
    {
        client.hold(handle).key
    }

    /// How many bytes the value has of the entry that a handle is on.
    ///
    /// It refuses nothing and allocates nothing. It costs one load; of a standalone entry none.
    pub fn value_len(&self, client: &mut Client<T>, handle: Handle) -> usize
        requires known { Knows self.now client.old }
        requires holds { Holds client.old handle }
        ensures known { Knows self.now client.new }
        ensures reads { Reads self.now client.old client.new }
        ensures stays { Stays self.now client.old client.new }
        ensures exact { IfSome (held_of self.now client.old handle) (λ held.
            result ≡ length held.insertion.value) }
        ensures steps { TakesAtMost 1 client.old client.new }
    {
        let hold = client.hold(handle);
        self.len_of(client, handle, hold)
    }

    /// Copies the value of the entry that a handle is on to the front of a buffer, which has room
    /// for it. It returns how many bytes it has. The rest of the buffer stays.
    ///
    /// It refuses nothing and allocates nothing. It costs a load for the length, and one for each
    /// eight bytes, the last ones too; of a standalone entry a copy and no load.
    pub fn read_value(&self, client: &mut Client<T>, handle: Handle, buffer: &mut [u8]) -> usize
        requires known { Knows self.now client.old }
        requires holds { Holds client.old handle }
        requires space { IfSome (held_of self.now client.old handle) (λ held.
            length held.insertion.value ≤ length buffer.old) }
        ensures known { Knows self.now client.new }
        ensures reads { Reads self.now client.old client.new }
        ensures stays { Stays self.now client.old client.new }
        ensures length { IfSome (held_of self.now client.old handle) (λ held.
            result ≡ length held.insertion.value) }
        ensures bytes { IfSome (held_of self.now client.old handle) (λ held.
            buffer.new ≡ held.insertion.value
            ++ drop (length held.insertion.value) buffer.old) }
        ensures steps { TakesAtMost (words_for result + 1) client.old client.new }
    {
        let hold = client.hold(handle);
        self.copy_of(client, handle, hold, buffer)
    }

    /// The same by a handle's parts, into any buffer: none where the client holds no handle of
    /// these parts. It returns how many bytes the value has, as an error where the buffer has
    /// fewer; then nothing is copied.
    ///
    /// It allocates nothing. It costs what `read_value` costs; where it copies nothing, one load.
    #[inline]
    pub fn try_read(
        &self,
        client: &mut Client<T>,
        parts: HandleParts,
        buffer: &mut [u8],
    ) -> Option<Result<usize, usize>>
        requires { Knows self.now client.old }
        ensures known { Knows self.now client.new }
        ensures none { IfNone result (HoldsNone client.old parts × (client.new ≡ client.old)
            × (buffer.new ≡ buffer.old)) }
        ensures some { IfSome result (λ _. Holds client.old (handle_of parts)) }
        ensures reads { Reads self.now client.old client.new }
        ensures stays { Stays self.now client.old client.new }
        ensures read { IfSome result (λ a. IfOk a (λ len.
            IfSome (held_of self.now client.old (handle_of parts)) (λ held.
            (len ≡ length held.insertion.value)
            × (buffer.new ≡ held.insertion.value ++ drop len buffer.old)))) }
        ensures short { IfSome result (λ a. IfErr a (λ len.
            IfSome (held_of self.now client.old (handle_of parts)) (λ held.
            len ≡ length held.insertion.value)
            × (length buffer.old < len) × (buffer.new ≡ buffer.old))) }
        ensures steps { IfSome result (λ a. IfOk a (λ len.
            TakesAtMost (words_for len + 1) client.old client.new)) }
        ensures few { IfSome result (λ a. IfErr a (λ len.
            TakesAtMost 1 client.old client.new)) }
    {
        let handle = parts.handle();
        let hold = client.find(handle)?;
        Some(self.try_copy(client, handle, hold, buffer))
    }

    /// How many bytes the value has, by what the client keeps of the handle.
    fn len_of(&self, client: &mut Client<T>, handle: Handle, hold: Hold) -> usize
        requires known { Knows self.now client.old }
        requires held { hold_of client.old handle ≡ Some hold }
        ensures known { Knows self.now client.new }
        ensures reads { Reads self.now client.old client.new }
        ensures stays { Stays self.now client.old client.new }
        ensures exact { IfSome (held_of self.now client.old handle) (λ held.
            result ≡ length held.insertion.value) }
        ensures rest { client.new ≡ record client.old { seats = client.new.seats } }
        ensures steps { TakesAtMost 1 client.old client.new }
    {
        match hold.pin() {
            Ok(pin) => {
                let seat = &mut client.seats[hold.shard];
                self.shards[hold.shard].value_len(seat, pin)
            }
            Err(index) => client.alone[index].value.bytes().len(),
        }
    }

    /// What is charged for the entry, by what the client keeps of the handle.
    pub(crate) fn charge_of(&self, client: &mut Client<T>, handle: Handle, hold: Hold) -> u64
        requires known { Knows self.now client.old }
        requires held { hold_of client.old handle ≡ Some hold }
        ensures known { Knows self.now client.new }
        ensures reads { Reads self.now client.old client.new }
        ensures stays { Stays self.now client.old client.new }
        ensures exact { IfSome (held_of self.now client.old handle) (λ held.
            result ≡ held.insertion.charge) }
        ensures standing { AreAlone client.old client.new }
        ensures steps { TakesAtMost 1 client.old client.new }
    {
        match hold.pin() {
            Ok(pin) => {
                let seat = &mut client.seats[hold.shard];
                self.shards[hold.shard].charge(seat, pin)
            }
            Err(index) => client.alone[index].charge as u64,
        }
    }

    /// Copies the value, by what the client keeps of the handle.
    fn copy_of(
        &self,
        client: &mut Client<T>,
        handle: Handle,
        hold: Hold,
        buffer: &mut [u8],
    ) -> usize
        requires known { Knows self.now client.old }
        requires held { hold_of client.old handle ≡ Some hold }
        requires space { IfSome (held_of self.now client.old handle) (λ held.
            length held.insertion.value ≤ length buffer.old) }
        ensures known { Knows self.now client.new }
        ensures reads { Reads self.now client.old client.new }
        ensures stays { Stays self.now client.old client.new }
        ensures length { IfSome (held_of self.now client.old handle) (λ held.
            result ≡ length held.insertion.value) }
        ensures bytes { IfSome (held_of self.now client.old handle) (λ held.
            buffer.new ≡ held.insertion.value
            ++ drop (length held.insertion.value) buffer.old) }
        ensures steps { TakesAtMost (words_for result + 1) client.old client.new }
    {
        match hold.pin() {
            Ok(pin) => {
                let seat = &mut client.seats[hold.shard];
                self.shards[hold.shard].read_value(seat, pin, buffer)
            }
            Err(index) => {
                let value = client.alone[index].value.bytes();
                buffer[..value.len()].copy_from_slice(value);
                value.len()
            }
        }
    }

    /// Copies the value into any buffer, by what the client keeps of the handle; where the buffer
    /// is too short it returns how many bytes the value has, as an error.
    fn try_copy(
        &self,
        client: &mut Client<T>,
        handle: Handle,
        hold: Hold,
        buffer: &mut [u8],
    ) -> Result<usize, usize>
        requires known { Knows self.now client.old }
        requires held { hold_of client.old handle ≡ Some hold }
        ensures known { Knows self.now client.new }
        ensures reads { Reads self.now client.old client.new }
        ensures stays { Stays self.now client.old client.new }
        ensures read { IfOk result (λ len. IfSome (held_of self.now client.old handle) (λ held.
            (len ≡ length held.insertion.value)
            × (buffer.new ≡ held.insertion.value ++ drop len buffer.old))) }
        ensures short { IfErr result (λ len. IfSome (held_of self.now client.old handle) (λ held.
            len ≡ length held.insertion.value)
            × (length buffer.old < len) × (buffer.new ≡ buffer.old)) }
        ensures steps { IfOk result (λ len.
            TakesAtMost (words_for len + 1) client.old client.new) }
        ensures few { IfErr result (λ _. TakesAtMost 1 client.old client.new) }
    {
        match hold.pin() {
            Ok(pin) => {
                let seat = &mut client.seats[hold.shard];
                self.shards[hold.shard].try_read(seat, pin, buffer)
            }
            Err(index) => {
                let value = client.alone[index].value.bytes();
                let len = value.len();
                if buffer.len() < len {
                    return Err(len);
                }
                buffer[..len].copy_from_slice(value);
                Ok(len)
            }
        }
    }
}
