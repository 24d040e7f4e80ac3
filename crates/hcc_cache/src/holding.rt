//! What a client keeps of its handles.
ghost use Rattle.std.specs.Prelude.{◌≡◌, ◌+◌, ◌-◌, ◌<◌, ◌≤◌, ◌^◌, ◌↔◌, Some, None, IfErr, IfOk, IsErrOf};
ghost use Rattle.std.specs.Int.{from_le_bytes};
ghost use mir.Syntax.{w64};
ghost use Rattle.slab.specs.Slab.{get, slab_len, HasRoomFor, Updates};
ghost use Rattle.hcc_cache.specs.declared.holding.Kept.TheVariants.{Standing};
ghost use Rattle.hcc_cache.specs.Alones.{bytes_of, IsObject};
ghost use Rattle.hcc_cache.specs.Calls.{capacities_of};
ghost use Rattle.hcc_cache.specs.Clients.{Holds, IsPinOf, hold_of};

use crate::client::Client;
use crate::errors::LookupError;
use crate::handle::Handle;
use hcc_rule::Key;
use hcc_table::Pin;
use std::alloc::Global;

/// What a client keeps of a handle.
#[derive(Clone, Copy, Debug, PartialEq, Eq)]
pub(crate) struct Hold {
    /// The handle's serial, which no other handle of the client had.
    pub(crate) serial: u64,
    /// The caller's key.
    pub(crate) key: Key,
    /// The number of the entry's shard.
    pub(crate) shard: usize,
    pub(crate) kept: Kept,
}

/// Where the entry of a handle is.
#[derive(Clone, Copy, Debug, PartialEq, Eq)]
pub(crate) enum Kept {
    /// In a slot of the shard. Its release may count as a use where it is counting.
    Pinned { slot: u32, counting: bool },
    /// It is the standalone entry of this index.
    Standing { index: usize },
}

impl Hold {
    /// The reference on an entry of the table; the index of a standalone entry as an error.
    #[inline(always)]
    pub(crate) fn pin(self) -> Result<Pin, usize>
        ensures pinned { IfOk result (IsPinOf self) }
        ensures standing { IfErr result (λ index. self.kept ≡ Standing index) }
    {
        match self.kept {
            Kept::Pinned { slot, counting } => Ok(Pin {
                name: self.serial,
                slot,
                counting,
            }),
            Kept::Standing { index } => Err(index),
        }
    }
}

/// A standalone entry, which no table has.
#[derive(Drop)]
pub(crate) struct Alone {
    /// The serial of its insertion.
    pub(crate) name: u64,
    pub(crate) charge: u32,
    /// How many handles there are on it.
    pub(crate) references: u32,
    pub(crate) value: Value,
}

/// The value of a standalone entry.
#[derive(Drop)]
pub(crate) enum Value {
    Bytes(Vec<u8>),
    /// Of an object: its word, the lowest byte first.
    Word([u8; 8]),
}

/// What an insertion gives that may come to stand alone.
pub(crate) trait Standing: Drop {
    ghost use Rattle.hcc_cache.specs.declared.holding.Value.{Value};
    ghost use Rattle.hcc_cache.specs.Alones.{bytes_of, IsObject};
    ghost use Rattle.std.specs.Prelude.{List, ℕ, IfOk, IfErr};

    // Its bytes, as an entry has them.
    ghost bytes: { Self → List ℕ };
    // What may stand alone in its place.
    ghost stands: { Self → Value → Type 0 };
    // Memory for that may be refused.
    ghost lacks: { Type 0 };

    fn as_bytes(&self) -> &[u8]
        ensures { result.now ≡ bytes self.now };

    // It is handed back where memory is refused.
    fn into_value(self) -> Result<Value, Self>
        ensures made { IfOk result (λ value. stands self value
            × (bytes_of value ≡ bytes self)) }
        ensures refused { IfErr result (λ back. lacks × (back ≡ self)) };
}

impl Standing for Vec<u8> {
    ghost use Rattle.hcc_cache.specs.declared.holding.Value.TheVariants.{Bytes};

    ghost bytes = { λ value. value.items };

    ghost stands = { λ value it. it ≡ Bytes value };

    ghost lacks = { ⊥ };

    #[inline(always)]
    fn as_bytes(&self) -> &[u8] {
        self
    }

    #[inline(always)]
    fn into_value(self) -> Result<Value, Vec<u8>> {
        Ok(Value::Bytes(self))
    }
}

impl Standing for [u8; 8] {
    ghost use Rattle.hcc_cache.specs.declared.holding.Value.TheVariants.{Word};

    ghost bytes = { λ word. word };

    ghost stands = { λ word it. it ≡ Word word };

    ghost lacks = { ⊥ };

    #[inline(always)]
    fn as_bytes(&self) -> &[u8] {
        self
    }

    #[inline(always)]
    fn into_value(self) -> Result<Value, [u8; 8]> {
        Ok(Value::Word(self))
    }
}

/// Bytes of the caller's, of which a copy stands alone.
#[derive(Drop)]
pub(crate) struct Lent<'a> {
    pub(crate) bytes: &'a [u8],
    pub(crate) alloc: Global,
}

impl Standing for Lent<'_> {
    ghost use Rattle.hcc_cache.specs.declared.holding.Value.TheVariants.{Bytes};

    ghost bytes = { λ lent. lent.bytes.now };

    ghost stands = { λ lent it. (copy : _) × (it ≡ Bytes copy) };

    ghost lacks = { Unit {0} };

    #[inline(always)]
    fn as_bytes(&self) -> &[u8] {
        self.bytes
    }

    fn into_value(self) -> Result<Value, Self> {
        match self.bytes.to_vec(self.alloc) {
            Ok(copy) => Ok(Value::Bytes(copy)),
            Err(_) => Err(self),
        }
    }
}

impl Value {
    /// Its bytes.
    pub(crate) fn bytes(&self) -> &[u8]
        ensures { result.now ≡ bytes_of self.now }
    {
        match self {
            Value::Bytes(value) => value,
            Value::Word(word) => word,
        }
    }

    /// The word of an object.
    pub(crate) fn word(&self) -> u64
        requires { IsObject self.now }
        ensures { result ≡ from_le_bytes w64 (bytes_of self.now) }
    {
        match self {
            Value::Bytes(_) => unreachable!(),
            Value::Word(word) => u64::from_le_bytes(*word),
        }
    }
}

impl<T> Client<T> {
    /// Whether one more handle may be given.
    pub(crate) fn may_hold(&self) -> Result<(), LookupError>
        ensures full { IsErrOf result LookupError.HandlesFull ↔ (self.now.most ≤ self.now.held) }
        ensures spent { IsErrOf result LookupError.Spent
            ↔ ((self.now.held < self.now.most) × (self.now.left ≡ 0)) }
        ensures free { IfOk result (λ _. (self.now.held < self.now.most) × (0 < self.now.left)) }
    {
        if self.held >= self.most {
            return Err(LookupError::HandlesFull);
        }
        if self.left == 0 {
            return Err(LookupError::Spent);
        }
        Ok(())
    }

    /// Gives a handle with the next serial, and keeps this of it.
    pub(crate) fn keep(&mut self, key: Key, shard: usize, kept: Kept) -> Handle
        requires room { HasRoomFor self.old.handles 1 }
        requires held { self.old.held < self.old.most }
        requires serial { (0 < self.old.left) × (self.old.used + self.old.left < 2 ^ 64) }
        ensures client { result.client ≡ self.old.number }
        ensures serial { result.serial ≡ self.old.used }
        ensures was_free { get self.old.handles result.index ≡ None }
        ensures kept { Updates self.old.handles self.new.handles result.index
            (Some (record { serial = self.old.used; key = key; shard = shard; kept = kept })) }
        ensures count { slab_len self.new.handles ≡ slab_len self.old.handles + 1 }
        ensures capacities { capacities_of self.new ≡ capacities_of self.old }
        ensures rest { self.new ≡ record self.old {
          handles = self.new.handles;
          held = self.old.held + 1;
          used = self.old.used + 1;
          left = self.old.left - 1;
        } }
    {
        let serial = self.used;
        let index = self.handles.insert_reserved(Hold {
            serial,
            key,
            shard,
            kept,
        });
        self.held += 1;
        self.used += 1;
        self.left -= 1;
        Handle {
            client: self.number,
            index,
            serial,
        }
    }

    /// What it keeps of a handle that it holds.
    pub(crate) fn hold(&self, handle: Handle) -> Hold
        requires { Holds self.now handle }
        ensures held { hold_of self.now handle ≡ Some result }
        ensures there { get self.now.handles handle.index ≡ Some result }
    {
        self.handles.at(handle.index)
    }

    /// Lets go of a handle that it holds, and returns what it kept of it.
    pub(crate) fn let_go(&mut self, handle: Handle) -> Hold
        requires holds { Holds self.old handle }
        requires some { 0 < self.old.held }
        ensures held { hold_of self.old handle ≡ Some result }
        ensures there { get self.old.handles handle.index ≡ Some result }
        ensures gone { Updates self.old.handles self.new.handles handle.index None }
        ensures count { slab_len self.new.handles + 1 ≡ slab_len self.old.handles }
        ensures capacities { capacities_of self.new ≡ capacities_of self.old }
        ensures rest { self.new ≡ record self.old {
          handles = self.new.handles;
          held = self.old.held - 1;
        } }
    {
        self.held -= 1;
        self.handles.remove(handle.index)
    }
}
