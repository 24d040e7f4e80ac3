//! Why a call is refused. In each list the first that is due is returned.
ghost use Rattle.std.specs.Prelude.{◌≡◌};
ghost use Rattle.hcc_cache.specs.Texts.{new_text, lookup_text, insert_text, copy_text, object_text, object_new_text, close_text, object_close_text};

use thiserror::Error;

/// Why a cache isn't made.
#[derive(Clone, Copy, Debug, PartialEq, Eq, Error)]
pub enum NewError {
    /// The slots of a shard are no power of two from 8 to 65,536.
    #[error("BadSlots")]
    BadSlots,
    /// The payload words of a slot are not 1 to 512.
    #[error("BadRoom")]
    BadRoom,
    /// The clients are not 1 to 1,024.
    #[error("BadClients")]
    BadClients,
    /// The handles of a client are not 1 to 16,384.
    #[error("BadHandles")]
    BadHandles,
    /// The shards are no power of two from 1 to 64.
    #[error("BadShards")]
    BadShards,
    /// The capacity is above 2^40.
    #[error("BadCapacity")]
    BadCapacity,
    /// The serials of a client are not 1 to 2^54.
    #[error("BadSerials")]
    BadSerials,
    /// Memory was refused.
    #[error("OutOfMemory")]
    OutOfMemory,
}

impl NewError {
    /// The refusal as a sentence.
    pub fn text(self) -> &'static str
        ensures { result.now ≡ new_text self }
    {
        match self {
            NewError::BadSlots => "slots must be a power of two from 8 to 65,536",
            NewError::BadRoom => "room must be 1 to 512",
            NewError::BadClients => "clients must be 1 to 1,024",
            NewError::BadHandles => "handles must be 1 to 16,384",
            NewError::BadShards => "shards must be a power of two from 1 to 64",
            NewError::BadCapacity => "capacity must be at most 2^40",
            NewError::BadSerials => "serials must be 1 to 2^54",
            NewError::OutOfMemory => "an allocation failed",
        }
    }
}

/// Why a cache of objects isn't made.
#[derive(Clone, Copy, Debug, PartialEq, Eq, Error)]
pub enum ObjectNewError {
    /// As a cache of bytes of the same numbers isn't.
    #[error("{0}")]
    Bad(NewError),
    /// The places of a list for what calls free are not 4 to 65,536.
    #[error("BadGone")]
    BadGone,
}

impl ObjectNewError {
    /// The refusal as a sentence.
    pub fn text(self) -> &'static str
        ensures { result.now ≡ object_new_text self }
    {
        match self {
            ObjectNewError::Bad(why) => NewError::text(why),
            ObjectNewError::BadGone => "gone must be 4 to 65,536",
        }
    }
}

/// Why a handle isn't given. It is judged before anything else: nothing is changed, and no step is
/// made.
#[derive(Clone, Copy, Debug, PartialEq, Eq, Error)]
pub enum LookupError {
    /// The client holds as many handles as it may.
    #[error("HandlesFull")]
    HandlesFull,
    /// The client has used all its serials.
    #[error("Spent")]
    Spent,
}

impl LookupError {
    /// The refusal as a sentence.
    pub fn text(self) -> &'static str
        ensures { result.now ≡ lookup_text self }
    {
        match self {
            LookupError::HandlesFull => "the client holds as many handles as it may",
            LookupError::Spent => "the client has used all its serials",
        }
    }
}

/// Why nothing is inserted. After the first three nothing is changed. The last two come under
/// strict capacity only, and after evictions that stay made; a serial is used.
#[derive(Clone, Copy, Debug, PartialEq, Eq, Error)]
pub enum InsertError {
    /// The client holds as many handles as it may; only of insertions that give a handle.
    #[error("HandlesFull")]
    HandlesFull,
    /// The client has used all its serials.
    #[error("Spent")]
    Spent,
    /// The charge is above the capacity of a shard, which is strict.
    #[error("TooLarge")]
    TooLarge,
    /// Evictions freed too little of the charge.
    #[error("CapacityFull")]
    CapacityFull,
    /// The shard was full, and evictions freed no slot.
    #[error("OccupancyFull")]
    OccupancyFull,
}

impl InsertError {
    /// The refusal as a sentence.
    pub fn text(self) -> &'static str
        ensures { result.now ≡ insert_text self }
    {
        match self {
            InsertError::HandlesFull => "the client holds as many handles as it may",
            InsertError::Spent => "the client has used all its serials",
            InsertError::TooLarge => "the charge is above a shard's capacity",
            InsertError::CapacityFull => "evictions freed too little of the charge",
            InsertError::OccupancyFull => "evictions freed no slot",
        }
    }
}

/// Why nothing is inserted of a value that is copied where it stands alone.
#[derive(Clone, Copy, Debug, PartialEq, Eq, Error)]
pub enum CopyError {
    /// For a reason that other insertions have, too.
    #[error("{0}")]
    Refused(InsertError),
    /// Memory for the copy was refused, after all else was done: evictions stay made, a serial is
    /// used, and charge and place were given back.
    #[error("OutOfMemory")]
    OutOfMemory,
}

impl CopyError {
    /// The refusal as a sentence.
    pub fn text(self) -> &'static str
        ensures { result.now ≡ copy_text self }
    {
        match self {
            CopyError::Refused(why) => InsertError::text(why),
            CopyError::OutOfMemory => "an allocation failed",
        }
    }
}

/// Why an object isn't inserted: it stays the caller's. After all but the last two nothing is
/// changed. Those come under strict capacity only, and after evictions that stay made; a serial is
/// used. With `list_full` the client's list has no room for another turn of the hand, so that an
/// insertion with an empty list may free more.
#[derive(Clone, Copy, Debug, PartialEq, Eq, Error)]
pub enum ObjectError {
    /// The client holds as many handles as it may; only of insertions that give a handle.
    #[error("HandlesFull")]
    HandlesFull,
    /// The client has used all its serials.
    #[error("Spent")]
    Spent,
    /// What is on the client's list and its standalone entries fill the list's places; only of
    /// insertions that give a handle.
    #[error("GoneFull")]
    GoneFull,
    /// The address is 2^48 or above.
    #[error("TooHigh")]
    TooHigh,
    /// The charge is above the capacity of a shard, which is strict.
    #[error("TooLarge")]
    TooLarge,
    /// Evictions freed too little of the charge.
    #[error("CapacityFull")]
    CapacityFull { list_full: bool },
    /// The shard was full, and evictions freed no slot.
    #[error("OccupancyFull")]
    OccupancyFull { list_full: bool },
}

impl ObjectError {
    /// The refusal as a sentence.
    pub fn text(self) -> &'static str
        ensures { result.now ≡ object_text self }
    {
        match self {
            ObjectError::HandlesFull => "the client holds as many handles as it may",
            ObjectError::Spent => "the client has used all its serials",
            ObjectError::GoneFull => "the client's list of what is gone is full",
            ObjectError::TooHigh => "the object's address is 2^48 or above",
            ObjectError::TooLarge => "the charge is above a shard's capacity",
            ObjectError::CapacityFull { .. } => "evictions freed too little of the charge",
            ObjectError::OccupancyFull { .. } => "evictions freed no slot",
        }
    }
}

/// Why a cache isn't closed. Nothing is changed.
#[derive(Clone, Copy, Debug, PartialEq, Eq, Error)]
pub enum CloseError {
    /// Fewer clients came back than the cache has.
    #[error("{have} of {want} clients came back")]
    Missing { have: u32, want: u32 },
    /// A client holds a handle. Of those that do, it is the one with the least number.
    #[error("client {client} holds a handle")]
    HandlesOut { client: u32 },
}

impl CloseError {
    /// The refusal as a sentence without its numbers.
    pub fn text(self) -> &'static str
        ensures { result.now ≡ close_text self }
    {
        match self {
            CloseError::Missing { .. } => "clients of the cache are out",
            CloseError::HandlesOut { .. } => "a client holds handles",
        }
    }
}

/// Why a cache of objects isn't closed. Nothing is changed.
#[derive(Clone, Copy, Debug, PartialEq, Eq, Error)]
pub enum ObjectCloseError {
    /// Not as many clients came back as the cache has.
    #[error("{have} of {want} clients came back")]
    Missing { have: usize, want: usize },
    /// A client holds a handle. Of those that do, it is the one with the least number.
    #[error("client {client} holds a handle")]
    HandlesOut { client: u32 },
    /// Something is on a client's list. Of those of which it is so, it is the least number.
    #[error("client {client} hasn't taken all that is gone")]
    Untaken { client: u32 },
}

impl ObjectCloseError {
    /// The refusal as a sentence without its numbers.
    pub fn text(self) -> &'static str
        ensures { result.now ≡ object_close_text self }
    {
        match self {
            ObjectCloseError::Missing { .. } => "clients of the cache are out",
            ObjectCloseError::HandlesOut { .. } => "a client holds handles",
            ObjectCloseError::Untaken { .. } => "a client hasn't taken all that is gone",
        }
    }
}
