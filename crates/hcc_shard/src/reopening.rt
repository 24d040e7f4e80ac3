//! A shard that is opened with entries.
ghost use Rattle.std.specs.Prelude.{◌≡◌, ◌*◌, ◌^◌, ◌<◌, ◌≤◌, ◌⊎◌, Err, IfErr, IfOk, None, Some, length, not, true};
ghost use Rattle.std.specs.List.{list_any};
ghost use Rattle.hcc_core.specs.declared.limits.TheConstants.{MOST_SLOTS};
ghost use Rattle.hcc_rule.specs.declared.layout.TheConstants.{MOST_ROOM};
ghost use Rattle.hcc_rule.specs.Callers.{capacity_of, geometry_of, is_strict, plan_of};
ghost use Rattle.hcc_rule.specs.Images.{entries_in};
ghost use Rattle.hcc_rule.specs.ImageLimits.{charges_of};
ghost use Rattle.hcc_rule.specs.Seats.{IsPlanned};
ghost use Rattle.hcc_rule.specs.Views.{Each};
ghost use Rattle.hcc_shard.specs.declared.reopening.ReopenError.TheVariants.{OutOfMemory};
ghost use Rattle.hcc_shard.specs.Reopened.{AreFitting, HasBytes, HasTypes, IsSmall, is_free, is_long, is_rising, is_worn, refusal_of};
ghost use Rattle.hcc_shard.specs.Seated.{AreBegun};
ghost use Rattle.hcc_shard.specs.Stays.{BeganWithinLimits, KnowNoEvent};
ghost use Rattle.hcc_shard.specs.Texts.{text_of};

use crate::seat::ShardSeat;
use crate::shard::{Shard, numbered};
use hcc_core::limits::{MOST_USES, OCCUPANCY_PERCENT};
use hcc_rule::{Geometry, ImageEntry, RuleTable, Tag};
use std::alloc::{AllocError, Allocator};

/// Why a shard isn't opened with an image. Each is judged over all entries before the next one; the
/// first that is due is returned.
#[derive(Clone, Copy, Debug, PartialEq, Eq)]
pub enum ReopenError {
    /// An entry's slot is none of the shard's, or not above that of the entry before it.
    BadSlot,
    /// An entry's value has more than eight bytes for each payload word of a slot.
    BadLength,
    /// An entry has more uses than [`MOST_USES`](hcc_core::limits::MOST_USES), 553,651,204.
    BadUses,
    /// An entry has a charge of 0.
    BadCharge,
    /// The entries are more than 84 of a hundred slots.
    TooMany,
    /// The charges in sum are above the capacity, which is strict.
    TooLarge,
    /// Memory was refused.
    OutOfMemory,
}

impl ReopenError {
    /// The refusal as a sentence.
    pub fn text(self) -> &'static str
        ensures { result.now ≡ text_of self }
    {
        match self {
            ReopenError::BadSlot => {
                "an entry's slot is none of the shard's, or not above the one before it"
            }
            ReopenError::BadLength => "an entry's value is longer than a slot has room for",
            ReopenError::BadUses => "an entry has more than 553,651,204 uses",
            ReopenError::BadCharge => "an entry's charge is 0",
            ReopenError::TooMany => "the entries are more than 84 of 100 slots",
            ReopenError::TooLarge => "the charges in sum are above the capacity",
            ReopenError::OutOfMemory => "an allocation failed",
        }
    }
}

impl From<AllocError> for ReopenError {
    ghost from_gives = { λ _ e. e ≡ OutOfMemory };

    fn from(_error: AllocError) -> ReopenError {
        ReopenError::OutOfMemory
    }
}

impl<T: Tag, A: Allocator> Shard<T, A> {
    /// A shard with the entries of an image, and the seats of all its clients, in order of their
    /// numbers. Until a seat makes a step each entry is visible in its slot, with its uses, no
    /// references and no mark; usage, occupancy and displacements are the sums over the entries,
    /// and the hand is 0. Client 0 made them, in their order, under serials from 0 on: so the first
    /// serial that it may use here is their number. Beyond that each client is as in a new shard.
    ///
    /// The sizes and the capacity keep their limits, and each value is right for its key. It
    /// refuses an image as [`ReopenError`] says, whichever memory there is, and nothing remains
    /// then. It allocates memory for the words, twice for a time, and for the seats. It costs two
    /// stores for each word of the shard, for each entry a store for each of its words, an add for
    /// each slot of its trail and two more, and a load for each client.
    pub fn reopen(
        alloc: A,
        geometry: Geometry,
        capacity: u64,
        strict: bool,
        marks: bool,
        image: &Vec<ImageEntry>,
        tag: T,
    ) -> Result<(Shard<T, A>, Vec<ShardSeat<T>, A>), ReopenError>
    where
        A: Clone,
        T: Drop,
        requires planned { IsPlanned geometry capacity }
        requires fitting { AreFitting T.fits tag image.now.items }
        ensures size { IfOk result (λ made. geometry_of made.0.table ≡ geometry) }
        ensures capacity { IfOk result (λ made. (capacity_of made.0.table ≡ capacity)
            × (is_strict made.0.table ≡ strict)) }
        ensures marks { IfOk result (λ made. made.0.marks ≡ marks) }
        ensures tag { IfOk result (λ made. (plan_of made.0.table).tag ≡ tag) }
        ensures image { IfOk result (λ made.
            entries_in (plan_of made.0.table).image ≡ image.now.items) }
        ensures count { IfOk result (λ made. length made.1.items ≡ geometry.clients) }
        ensures seats { IfOk result (λ made. AreBegun made.0 image.now.items made.1.items) }
        ensures began { IfOk result (λ made. BeganWithinLimits made.0 T.fits) }
        ensures past { IfOk result (λ made. KnowNoEvent made.1.items) }
        ensures exact { (error : ReopenError)
            → refusal_of geometry capacity strict image.now.items ≡ Some error
            → result ≡ Err error }
        ensures refused { IfErr result (λ error.
            (refusal_of geometry capacity strict image.now.items ≡ Some error)
            ⊎ ((refusal_of geometry capacity strict image.now.items ≡ None)
            × (error ≡ OutOfMemory))) }
    {
        if let Some(error) = refusal(geometry, capacity, strict, image.as_slice()) {
            return Err(error);
        }
        let (table, seats) = RuleTable::with_image(
            alloc.clone()?,
            geometry,
            capacity,
            strict,
            image,
            tag,
        )?;
        let shard = Shard { table, marks };
        let seats = numbered(alloc, seats)?;
        Ok((shard, seats))
    }
}

/// Why no shard is opened with these entries, apart from memory.
fn refusal(
    geometry: Geometry,
    capacity: u64,
    strict: bool,
    image: &[ImageEntry],
) -> Option<ReopenError>
    requires slots { geometry.slots ≤ MOST_SLOTS }
    requires room { geometry.room ≤ MOST_ROOM }
    ensures refusal { result ≡ refusal_of geometry capacity strict image.now }
    ensures types { result ≡ None → Each HasTypes image.now }
{
    let limit = geometry.slots as u64 * OCCUPANCY_PERCENT / 100;
    if !are_rising(geometry.slots, image) {
        Some(ReopenError::BadSlot)
    } else if !are_short(geometry.room, image) {
        Some(ReopenError::BadLength)
    } else if is_any_worn(image) {
        Some(ReopenError::BadUses)
    } else if !are_charged(image) {
        Some(ReopenError::BadCharge)
    } else if image.len() as u64 > limit {
        Some(ReopenError::TooMany)
    } else if strict && charges_in(image) > capacity {
        Some(ReopenError::TooLarge)
    } else {
        None
    }
}

/// Whether each slot is one of so many, and above that of the entry before it.
fn are_rising(slots: u32, image: &[ImageEntry]) -> bool
    ensures { result ≡ is_rising 0 slots image.now }
{
    let mut low = 0;
    for entry in image {
        if entry.slot < low || slots <= entry.slot {
            return false;
        }
        low = entry.slot + 1;
    }
    true
}

/// Whether each value fits into this many payload words.
fn are_short(room: u32, image: &[ImageEntry]) -> bool
    requires { room ≤ MOST_ROOM }
    ensures exact { result ≡ not (list_any (is_long room) image.now) }
    ensures types { result ≡ true → Each HasBytes image.now }
{
    for entry in image {
        if !is_short(room, entry) {
            return false;
        }
    }
    true
}

/// Whether an entry's value fits into this many payload words.
fn is_short(room: u32, entry: &ImageEntry) -> bool
    requires { room ≤ MOST_ROOM }
    ensures exact { result ≡ not (is_long room entry.now) }
    ensures types { HasBytes entry.now }
{
    let value = entry.value.as_slice();
    value.len() <= 8 * room as usize
}

/// Whether an entry has more uses than it may begin with.
fn is_any_worn(image: &[ImageEntry]) -> bool
    ensures { result ≡ list_any is_worn image.now }
{
    image.iter().any(|entry| entry.uses as u64 > MOST_USES)
}

/// Whether each entry has a charge.
fn are_charged(image: &[ImageEntry]) -> bool
    ensures exact { result ≡ not (list_any is_free image.now) }
    ensures types { result ≡ true → Each IsSmall image.now }
{
    for entry in image {
        if entry.charge == 0 {
            return false;
        }
    }
    true
}

/// The charges of all entries.
fn charges_in(image: &[ImageEntry]) -> u64
    requires { length image.now ≤ MOST_SLOTS }
    ensures { result ≡ charges_of image.now }
{
    let mut sum = 0;
    for entry in image {
        sum += entry.charge as u64;
    }
    sum
}
