//! A block cache that many threads share: its shards, its clients and their handles.
#![tactic(auto)]

mod cache;
mod client;
mod closed;
mod closing;
mod config;
mod drafting;
mod erasing;
mod errors;
mod following;
mod getting;
mod gone;
mod handle;
mod handle_table;
mod holding;
mod image;
mod inserting;
pub mod laws;
pub mod limits;
mod lookups;
mod object_cache;
mod object_calls;
mod object_closing;
mod object_following;
mod object_inserting;
mod object_opening;
mod object_reading;
mod object_walking;
mod objects;
mod objects_left;
mod opening;
mod parts;
mod priority;
mod reading;
mod releasing;
mod reopening;
mod seeded;
pub mod shared;
mod tags;
mod totals;
pub mod undisturbed;
mod walking;

pub use cache::Cache;
pub use client::Client;
pub use closed::Closed;
pub use closing::law_closed;
pub use config::Config;
pub use errors::{
    CloseError, CopyError, InsertError, LookupError, NewError, ObjectCloseError, ObjectError,
    ObjectNewError,
};
pub use following::{Witness, law_told};
pub use handle::{Handle, HandleParts};
pub use hcc_rule::{Key, Tag};
pub use hcc_shard::{ClosedEntry, Got, Part, Stats};
pub use image::{Saved, law_again, law_images, law_whole};
pub use inserting::Inserted;
pub use object_cache::{ClosingRoom, ObjectCache, ObjectClient};
pub use object_closing::StaysOpen;
pub use object_inserting::Placing;
pub use object_opening::ObjectConfig;
pub use object_walking::HeldObject;
pub use objects::{Gone, Object};
pub use objects_left::ObjectsLeft;
pub use priority::Priority;
pub use reopening::law_all_taken;
pub use tags::AnyBytes;
pub use walking::HeldEntry;
