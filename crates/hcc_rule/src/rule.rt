//! The rule of a shard's table, and what the table is given once.
use crate::geometry::Geometry;
use crate::image::ImageEntry;
use crate::key::Tag;
use crate::view::Logged;
use atomic_table::TableRule;
use std::marker::PhantomData;
use std::snapshot::Snapshot;

/// What a shard is given once: its size, its rule of capacity, the tag of its values, and the
/// entries with which it begins, if any.
#[derive(Drop)]
pub struct Plan<T> {
    pub geometry: Geometry,
    pub capacity: u64,
    pub strict: bool,
    pub tag: T,
    /// Only for contracts: it takes no bytes.
    pub image: Option<Snapshot<Vec<ImageEntry>>>,
}

/// The rule: the words and the views show some lawful world, whatever steps the seats made.
pub struct ShardRule<T> {
    tag: PhantomData<T>,
}

impl<T: Tag> TableRule<(), Logged<T>, Plan<T>> for ShardRule<T> {
    ghost use Rattle.hcc_rule.specs.Logs.{HoldsLogged, first_logged};

    ghost holds = { HoldsLogged T.fits };

    ghost first = { first_logged };
}
