//! Why a call does nothing, and their numbers in C.
ghost use Rattle.std.specs.Prelude.{◌≡◌};
ghost use Rattle.hcc_c.specs.Refusals.{code_of, copying_of, inserted_code, inserting_object_of, inserting_of, looking_of, opening_objects_of, opening_of, placing_code, priority_of, unfit_of};

use crate::inserting::Unfit;
use hcc_cache::{
    CopyError, InsertError, Inserted, LookupError, NewError, ObjectError, ObjectNewError, Placing,
    Priority,
};

/// Why a call does nothing. The first that is due is returned.
#[derive(Clone, Copy, Debug, PartialEq, Eq)]
pub enum Refusal {
    /// The number is that of no handle that the client holds.
    NoHandle,
    /// The charge is 0.
    NoCharge,
    /// The value has more bytes than a slot has room for.
    TooLong,
    /// The buffer has fewer bytes than the value.
    TooShort,
    /// There is no such priority.
    BadPriority,
    /// There is no such shard, or no such slot.
    OutOfRange,
    HandlesFull,
    Spent,
    TooLarge,
    CapacityFull,
    OccupancyFull,
    OutOfMemory,
    BadSlots,
    BadRoom,
    BadClients,
    BadHandles,
    BadShards,
    BadCapacity,
    BadSerials,
    /// All clients of the cache are out.
    NoClient,
    /// The client is one of another cache.
    OtherCache,
    /// The client holds handles.
    HandlesOut,
    /// Clients of the cache are out.
    ClientsOut,
    /// What is on the client's list and its standalone entries fill the list's places.
    GoneFull,
    /// The object's address is 2^48 or above.
    TooHigh,
    BadGone,
    /// Objects that are to be handed back weren't all taken: of a client's list, or of what is left
    /// of a cache.
    Untaken,
    /// The kit's `Arc` doesn't say that nobody else has the cache, once all its clients are back.
    Shared,
}

impl Refusal {
    /// The number of it, as the header has it.
    pub fn code(self) -> u32
        ensures { result ≡ code_of self }
    {
        match self {
            Refusal::NoHandle => 17,
            Refusal::NoCharge => 18,
            Refusal::TooLong => 19,
            Refusal::TooShort => 20,
            Refusal::BadPriority => 21,
            Refusal::OutOfRange => 22,
            Refusal::HandlesFull => 23,
            Refusal::Spent => 24,
            Refusal::TooLarge => 25,
            Refusal::CapacityFull => 26,
            Refusal::OccupancyFull => 27,
            Refusal::OutOfMemory => 28,
            Refusal::BadSlots => 29,
            Refusal::BadRoom => 30,
            Refusal::BadClients => 31,
            Refusal::BadHandles => 32,
            Refusal::BadShards => 33,
            Refusal::BadCapacity => 34,
            Refusal::BadSerials => 35,
            Refusal::NoClient => 36,
            Refusal::OtherCache => 37,
            Refusal::HandlesOut => 38,
            Refusal::ClientsOut => 39,
            Refusal::GoneFull => 41,
            Refusal::TooHigh => 42,
            Refusal::BadGone => 43,
            Refusal::Untaken => 44,
            Refusal::Shared => 46,
        }
    }

    /// Why a cache isn't made.
    pub(crate) fn opening(why: NewError) -> Refusal
        ensures { result ≡ opening_of why }
    {
        match why {
            NewError::BadSlots => Refusal::BadSlots,
            NewError::BadRoom => Refusal::BadRoom,
            NewError::BadClients => Refusal::BadClients,
            NewError::BadHandles => Refusal::BadHandles,
            NewError::BadShards => Refusal::BadShards,
            NewError::BadCapacity => Refusal::BadCapacity,
            NewError::BadSerials => Refusal::BadSerials,
            NewError::OutOfMemory => Refusal::OutOfMemory,
        }
    }

    /// Why a cache of objects isn't made.
    pub(crate) fn opening_objects(why: ObjectNewError) -> Refusal
        ensures { result ≡ opening_objects_of why }
    {
        match why {
            ObjectNewError::Bad(why) => Refusal::opening(why),
            ObjectNewError::BadGone => Refusal::BadGone,
        }
    }

    /// Why a handle isn't given.
    pub(crate) fn looking(why: LookupError) -> Refusal
        ensures { result ≡ looking_of why }
    {
        match why {
            LookupError::HandlesFull => Refusal::HandlesFull,
            LookupError::Spent => Refusal::Spent,
        }
    }

    /// Why nothing is inserted.
    pub(crate) fn inserting(why: InsertError) -> Refusal
        ensures { result ≡ inserting_of why }
    {
        match why {
            InsertError::HandlesFull => Refusal::HandlesFull,
            InsertError::Spent => Refusal::Spent,
            InsertError::TooLarge => Refusal::TooLarge,
            InsertError::CapacityFull => Refusal::CapacityFull,
            InsertError::OccupancyFull => Refusal::OccupancyFull,
        }
    }

    /// Why nothing is inserted of a value that is copied where it stands alone.
    pub(crate) fn copying(why: CopyError) -> Refusal
        ensures { result ≡ copying_of why }
    {
        match why {
            CopyError::Refused(why) => Refusal::inserting(why),
            CopyError::OutOfMemory => Refusal::OutOfMemory,
        }
    }

    /// Why no object is inserted.
    pub(crate) fn inserting_object(why: ObjectError) -> Refusal
        ensures { result ≡ inserting_object_of why }
    {
        match why {
            ObjectError::HandlesFull => Refusal::HandlesFull,
            ObjectError::Spent => Refusal::Spent,
            ObjectError::GoneFull => Refusal::GoneFull,
            ObjectError::TooHigh => Refusal::TooHigh,
            ObjectError::TooLarge => Refusal::TooLarge,
            ObjectError::CapacityFull { .. } => Refusal::CapacityFull,
            ObjectError::OccupancyFull { .. } => Refusal::OccupancyFull,
        }
    }

    /// Why the cache isn't asked to insert a value.
    pub(crate) fn unfit(why: Unfit) -> Refusal
        ensures { result ≡ unfit_of why }
    {
        match why {
            Unfit::NoCharge => Refusal::NoCharge,
            Unfit::TooLong => Refusal::TooLong,
        }
    }
}

/// The priority of this number; none where there is none.
pub(crate) fn priority_of(number: u32) -> Option<Priority>
    ensures { result ≡ priority_of number }
{
    if number == 0 {
        Some(Priority::High)
    } else if number == 1 {
        Some(Priority::Low)
    } else if number == 2 {
        Some(Priority::Bottom)
    } else {
        None
    }
}

/// The number of what came of an insertion.
pub(crate) fn inserted_code(what: Inserted) -> u32
    ensures { result ≡ inserted_code what }
{
    match what {
        Inserted::Placed => 0,
        Inserted::Dropped => 1,
        Inserted::Standalone => 2,
    }
}

/// The number of what came of an insertion of an object: that of the same word of a cache of bytes.
pub(crate) fn placing_code(what: Placing) -> u32
    ensures { result ≡ placing_code what }
{
    match what {
        Placing::Placed => 0,
        Placing::Dropped { .. } => 1,
        Placing::Standalone { .. } => 2,
    }
}
