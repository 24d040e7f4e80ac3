//! The running rule of a shard: between any two atomic steps of any threads, its words and what
//! the threads know show a lawful world of the protocol core. One function stands for each kind of
//! step.
#![tactic(auto)]

mod addresses;
mod beginning;
mod closed;
mod closing;
mod geometry;
mod image;
mod key;
pub mod laws;
pub mod layout;
mod opening;
pub mod packing;
mod rule;
mod steps;
mod table;
mod view;
mod words;

pub use addresses::SlotAt;
pub use closed::ClosedTable;
pub use geometry::Geometry;
pub use image::ImageEntry;
pub use key::{Key, Tag};
pub use rule::{Plan, ShardRule};
pub use steps::Draft;
pub use table::{RuleSeat, RuleTable};
pub use view::{Atomic, Done, Logged, Made, Other, Record, View};
