//! A new shard, and the seats of its clients.
ghost use Rattle.std.specs.Prelude.{◌≡◌, ◌+◌, ◌≤◌, [], IfOk, length};
ghost use Rattle.hcc_rule.specs.Acts.{past};
ghost use Rattle.hcc_rule.specs.Callers.{plan_of, geometry_of, capacity_of, is_strict, IsSeatAt};
ghost use Rattle.hcc_rule.specs.Beginnings.{AreSeatsAt, AreSeatsAtWith};
ghost use Rattle.hcc_rule.specs.Images.{entries_in};
ghost use Rattle.hcc_rule.specs.ImageLimits.{IsImageFor};
ghost use Rattle.hcc_rule.specs.Opening.{opening_view};
ghost use Rattle.hcc_rule.specs.Seats.{IsPlanned, moves, steps, view};

use crate::beginning::words_with;
use crate::geometry::Geometry;
use crate::image::ImageEntry;
use crate::key::Tag;
use crate::layout::SLOT_HEAD;
use crate::rule::Plan;
use crate::table::{RuleSeat, RuleTable};
use crate::words::Words;
use std::alloc::{AllocError, Allocator};
use std::snapshot::Snapshot;

impl<T: Tag, A: Allocator> RuleTable<T, A> {
    /// A shard with no entries, and the seats of all its clients, in order of their numbers. Each
    /// client has nothing in hand, its lists and counts are empty, and no seat has made a step.
    /// Until one does, the meta words, the displacement words and the ledger words are 0.
    ///
    /// The sizes and the capacity keep their limits. It allocates memory for the words, twice for a
    /// time, and for the seats. It costs two stores for each word, and a load for each client.
    pub fn new(
        alloc: A,
        geometry: Geometry,
        capacity: u64,
        strict: bool,
        tag: T,
    ) -> Result<(RuleTable<T, A>, Vec<RuleSeat<T>, A>), AllocError>
    where
        A: Clone,
        T: Drop,
        requires { IsPlanned geometry capacity }
        ensures size { IfOk result (λ made. geometry_of made.0 ≡ geometry) }
        ensures capacity { IfOk result (λ made. (capacity_of made.0 ≡ capacity)
            × (is_strict made.0 ≡ strict)) }
        ensures tag { IfOk result (λ made. (plan_of made.0).tag ≡ tag) }
        ensures image { IfOk result (λ made. entries_in (plan_of made.0).image ≡ []) }
        ensures count { IfOk result (λ made. length made.1.items ≡ geometry.clients) }
        ensures seats { IfOk result (λ made.
            AreSeatsAt made.0 0 made.1.items) }
    {
        let plan = Plan {
            geometry,
            capacity,
            strict,
            tag,
            image: None,
        };
        RuleTable::opened(alloc, plan, &[])
    }

    /// A shard with the entries of an image, and the seats of all its clients, in order of their
    /// numbers. Each entry is shown in its slot, with its uses, no references and no hit bit.
    /// Client 0 made them, in their order, under serials from 0 on. Beyond that each client is as
    /// in a new shard. Until a seat makes a step the words are only those of the entries.
    ///
    /// The sizes and the capacity keep their limits. Each slot of an entry is above that of the one
    /// before it, each value is right for its key and fits its slot, no charge is 0, and no entry
    /// has more uses than [`MOST_USES`](hcc_core::limits::MOST_USES). There are no more entries
    /// than 84 of a hundred slots, and under strict their charges in sum are within the capacity.
    ///
    /// It allocates memory for the words, twice for a time, and for the seats. It costs two stores
    /// for each word; for each entry a store for each of its words, an add for each slot of its
    /// trail and two adds more; and a load for each client.
    pub fn with_image(
        alloc: A,
        geometry: Geometry,
        capacity: u64,
        strict: bool,
        image: &Vec<ImageEntry>,
        tag: T,
    ) -> Result<(RuleTable<T, A>, Vec<RuleSeat<T>, A>), AllocError>
    where
        A: Clone,
        T: Drop,
        requires planned { IsPlanned geometry capacity }
        requires image { IsImageFor T.fits tag geometry capacity strict image.now.items }
        ensures size { IfOk result (λ made. geometry_of made.0 ≡ geometry) }
        ensures capacity { IfOk result (λ made. (capacity_of made.0 ≡ capacity)
            × (is_strict made.0 ≡ strict)) }
        ensures tag { IfOk result (λ made. (plan_of made.0).tag ≡ tag) }
        ensures image { IfOk result (λ made.
            entries_in (plan_of made.0).image ≡ image.now.items) }
        ensures count { IfOk result (λ made. length made.1.items ≡ geometry.clients) }
        ensures seats { IfOk result (λ made.
            AreSeatsAtWith made.0 image.now.items made.1.items) }
    {
        let plan = Plan {
            geometry,
            capacity,
            strict,
            tag,
            image: Some(Snapshot::of(image)),
        };
        RuleTable::opened(alloc, plan, image.as_slice())
    }

    /// The table of a plan, whose image has these entries, and its seats.
    fn opened(
        alloc: A,
        plan: Plan<T>,
        image: &[ImageEntry],
    ) -> Result<(RuleTable<T, A>, Vec<RuleSeat<T>, A>), AllocError>
    where
        A: Clone,
        T: Drop,
        requires planned { IsPlanned plan.geometry plan.capacity }
        requires entries { image.now ≡ entries_in plan.image }
        requires image { IsImageFor T.fits plan.tag plan.geometry plan.capacity plan.strict
            image.now }
        ensures plan { IfOk result (λ made. plan_of made.0 ≡ plan) }
        ensures size { IfOk result (λ made. geometry_of made.0 ≡ plan.geometry) }
        ensures capacity { IfOk result (λ made. (capacity_of made.0 ≡ plan.capacity)
            × (is_strict made.0 ≡ plan.strict)) }
        ensures count { IfOk result (λ made. length made.1.items ≡ plan.geometry.clients) }
        ensures seats { IfOk result (λ made.
            AreSeatsAtWith made.0 (entries_in plan.image) made.1.items) }
    {
        let (table, first) = RuleTable::begun(alloc.clone()?, plan, image)?;
        let seats = table.dealt(alloc, first)?;
        Ok((table, seats))
    }

    /// The table with the seat of client 0, which may start all others.
    fn begun(
        alloc: A,
        plan: Plan<T>,
        image: &[ImageEntry],
    ) -> Result<(RuleTable<T, A>, RuleSeat<T>), AllocError>
    where
        A: Clone,
        T: Drop,
        requires planned { IsPlanned plan.geometry plan.capacity }
        requires entries { image.now ≡ entries_in plan.image }
        requires image { IsImageFor T.fits plan.tag plan.geometry plan.capacity plan.strict
            image.now }
        ensures plan { IfOk result (λ made. plan_of made.0 ≡ plan) }
        ensures size { IfOk result (λ made. geometry_of made.0 ≡ plan.geometry) }
        ensures capacity { IfOk result (λ made. (capacity_of made.0 ≡ plan.capacity)
            × (is_strict made.0 ≡ plan.strict)) }
        ensures seat { IfOk result (λ made.
            IsSeatAt made.0 made.1) }
        ensures view { IfOk result (λ made. view made.1 ≡ opening_view (plan_of made.0)) }
        ensures steps { IfOk result (λ made. (steps made.1 ≡ []) × (moves made.1 ≡ 0)) }
        ensures past { IfOk result (λ made. past made.1 ≡ []) }
    {
        let (geometry, capacity, strict) = (plan.geometry, plan.capacity, plan.strict);
        let words = words_with(alloc.clone()?, geometry, image)?;
        let (words, seat) = Words::new(alloc, words.as_slice(), &plan)?;
        Ok((
            RuleTable {
                words,
                geometry,
                stride: geometry.room as usize + SLOT_HEAD,
                capacity,
                strict,
            },
            seat,
        ))
    }

    /// The seats of all clients, from that of client 0, which may start all others.
    fn dealt(&self, alloc: A, mut first: RuleSeat<T>) -> Result<Vec<RuleSeat<T>, A>, AllocError>
        requires seat { IsSeatAt self.now first }
        requires view { view first ≡ opening_view (plan_of self.now) }
        requires steps { (steps first ≡ []) × (moves first ≡ 0) }
        requires past { past first ≡ [] }
        ensures count { IfOk result (λ seats. length seats.items ≡ self.now.geometry.clients) }
        ensures seats { IfOk result (λ seats.
            AreSeatsAtWith self.now (entries_in (plan_of self.now).image) seats.items) }
    {
        let mut seats = Vec::new(alloc);
        for _ in 1..self.geometry.clients {
            seats.push(self.split(&mut first))?;
        }
        seats.insert(0, first)?;
        Ok(seats)
    }
}
