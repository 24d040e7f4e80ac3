//! Objects, and how a client is handed one back.
ghost use Rattle.std.specs.Prelude.{◌≡◌, ◌^◌, ◌<◌, ◌++◌, ◌∷◌, [], IfNone, IfSome};
ghost use Rattle.hcc_word.specs.declared.objects.TheConstants.{ADDRESS_BITS};
ghost use Rattle.hcc_cache.specs.Keys.{key_from};
ghost use Rattle.hcc_cache.specs.Objects.{KnowsObjects, gone_of, object_of, object_word};
ghost use Rattle.hcc_cache.specs.ObjectsClosed.{untaken_of};

use crate::client::Client;
use crate::gone::Objects;
use crate::object_cache::{ObjectCache, ObjectClient};
use crate::seeded::{SeededKey, key_from};
use hcc_rule::Key;
use hcc_table::Freed;
use hcc_word::{object_address, object_kind, packed_object};

/// What an entry stands for: something of the caller's, by where it lies and of which kind it is.
///
/// The cache never looks there. An address is below 2^48: systems that tag pointers above that
/// can't have them here.
#[derive(Clone, Copy, Debug, PartialEq, Eq)]
pub struct Object {
    pub address: u64,
    pub kind: u16,
}

impl Object {
    /// Its word, which a slot has as the entry's value.
    pub(crate) fn word(self) -> u64
        requires { self.address < 2 ^ ADDRESS_BITS }
        ensures exact { result ≡ object_word self }
        ensures undone { object_of result ≡ self }
    {
        packed_object(self.address, self.kind)
    }

    /// The object of a word.
    pub(crate) fn of(word: u64) -> Object
        ensures { result ≡ object_of word }
    {
        Object {
            address: object_address(word),
            kind: object_kind(word),
        }
    }
}

/// An object that is handed back: nobody holds a handle on its entry, and no call gives it again.
///
/// It can't be copied, and not be dropped either: a program that lets it go isn't compiled.
pub struct Gone {
    pub(crate) key: Key,
    pub(crate) object: Object,
}

impl Gone {
    /// The key of its insertion, and the object, which is the caller's again.
    pub fn take(self) -> (Key, Object)
        ensures { result ≡ (self.key, self.object) }
    {
        let Gone { key, object } = self;
        (key, object)
    }
}

impl ObjectClient {
    /// What its cache of bytes would know of it: its number, its handles, its counts.
    pub fn client(&self) -> &Client<Objects>
        ensures { result.now ≡ self.now.client }
    {
        &self.client
    }

    /// How many objects are on its list, to be taken. It costs a copy.
    pub fn untaken(&self) -> usize
        ensures { result ≡ untaken_of self.now }
    {
        self.gone.len()
    }
}

impl ObjectCache {
    /// Takes one object off the client's list, the newest, if there is one: its entry was freed by
    /// a call of this client, or stood alone and its last handle was released.
    ///
    /// It refuses nothing, allocates nothing and makes no atomic step. It costs a copy.
    pub fn take_gone(&self, client: &mut ObjectClient) -> Option<Gone>
        requires { KnowsObjects self.now client.old }
        ensures known { KnowsObjects self.now client.new }
        ensures some { IfSome result (λ gone. (freed : Freed)
            × (gone_of client.old ≡ gone_of client.new ++ freed ∷ [])
            × (gone.key ≡ key_from self.now.cache.seed freed.key)
            × (gone.object ≡ object_of freed.word)) }
        ensures none { IfNone result ((gone_of client.old ≡ []) × (client.new ≡ client.old)) }
        ensures same { client.new.client ≡ client.old.client }
    {
        let Freed { key, word } = client.gone.take()?;
        let seeded = SeededKey { in_shard: key };
        Some(Gone {
            key: key_from(client.client.seed, seeded),
            object: Object::of(word),
        })
    }
}
