//! A shard.
ghost use Rattle.std.specs.Prelude.{◌≡◌, ◌≤◌, [], IfOk, length};
ghost use Rattle.hcc_core.specs.declared.limits.TheConstants.{MOST_CLIENTS};
ghost use Rattle.hcc_rule.specs.Callers.{capacity_of, geometry_of, is_strict, plan_of};
ghost use Rattle.hcc_rule.specs.Images.{entries_in};
ghost use Rattle.hcc_rule.specs.Seats.{IsPlanned};
ghost use Rattle.hcc_shard.specs.Seated.{AreNew, AreNumbered};
ghost use Rattle.hcc_shard.specs.Stays.{BeganWithinLimits, KnowNoEvent};

use crate::seat::ShardSeat;
use hcc_rule::{Geometry, RuleSeat, RuleTable, Tag};
use std::alloc::{AllocError, Allocator};

/// One shard of a cache: its words, and whether look-ups mark the entries that they find.
#[derive(Drop)]
pub struct Shard<T: Tag, A: Allocator> {
    pub(crate) table: RuleTable<T, A>,
    pub(crate) marks: bool,
}

impl<T: Tag, A: Allocator> Shard<T, A> {
    /// A shard with no entries, and the seats of all its clients, in order of their numbers. Each
    /// client has nothing in hand, its lists are empty and its counts 0. Until one makes a step all
    /// words but those of data are 0. Look-ups mark what they find where `marks` says so.
    ///
    /// The sizes and the capacity keep their limits. It allocates memory for the words, twice for a
    /// time, and for the seats, and is refused only if that is. It costs two stores for each word
    /// of the shard, and a load for each client.
    pub fn new(
        alloc: A,
        geometry: Geometry,
        capacity: u64,
        strict: bool,
        marks: bool,
        tag: T,
    ) -> Result<(Shard<T, A>, Vec<ShardSeat<T>, A>), AllocError>
    where
        A: Clone,
        T: Drop,
        requires { IsPlanned geometry capacity }
        ensures size { IfOk result (λ made. geometry_of made.0.table ≡ geometry) }
        ensures capacity { IfOk result (λ made. (capacity_of made.0.table ≡ capacity)
            × (is_strict made.0.table ≡ strict)) }
        ensures marks { IfOk result (λ made. made.0.marks ≡ marks) }
        ensures tag { IfOk result (λ made. (plan_of made.0.table).tag ≡ tag) }
        ensures image { IfOk result (λ made. entries_in (plan_of made.0.table).image ≡ []) }
        ensures count { IfOk result (λ made. length made.1.items ≡ geometry.clients) }
        ensures seats { IfOk result (λ made. AreNew made.0 0 made.1.items) }
        ensures began { IfOk result (λ made. BeganWithinLimits made.0 T.fits) }
        ensures past { IfOk result (λ made. KnowNoEvent made.1.items) }
    {
        let (table, seats) = RuleTable::new(alloc.clone()?, geometry, capacity, strict, tag)?;
        let shard = Shard { table, marks };
        let seats = numbered(alloc, seats)?;
        Ok((shard, seats))
    }
}

/// Seats of a shard's table, each with its client's number, from 0 on.
pub(crate) fn numbered<T, A: Allocator>(
    alloc: A,
    seats: Vec<RuleSeat<T>, A>,
) -> Result<Vec<ShardSeat<T>, A>, AllocError>
    requires { length seats.items ≤ MOST_CLIENTS }
    ensures { IfOk result (λ named. AreNumbered 0 seats.items named.items) }
{
    let mut named = Vec::new(alloc);
    let mut client = 0;
    for seat in seats {
        named.push(ShardSeat::new(seat, client))?;
        client += 1;
    }
    Ok(named)
}
