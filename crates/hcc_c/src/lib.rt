//! The cache for engines in C, C++ and Rust: its calls by opaque pointers, and what a prover asks
//! of callers judged at run time.
//!
//! `include/ferretgold.h` says what each call means. The exports hand each object to a function
//! over plain values, whose contract says what the cache's says.
#![tactic(auto)]

mod answers;
mod cache_exports;
mod client_exports;
mod closed;
mod closed_exports;
mod handing;
mod handles;
mod image;
mod image_exports;
mod inserting;
mod kept_objects;
mod object_answers;
mod object_cache_exports;
mod object_client_exports;
mod object_handing;
mod object_handles;
mod object_holders;
mod object_inserting;
mod object_pool;
mod object_reading;
mod object_session;
mod object_shapes;
mod objects;
mod pool;
mod reading;
mod refusal;
mod reopening;
mod session;
mod shapes;
mod totals;

pub use object_holders::{
    KeptObjectsAt, KeptObjectsPlace, ObjectCacheAt, ObjectCachePlace, ObjectClientAt,
    ObjectClientPlace,
};
pub use object_shapes::{CHeldObject, CObject, CObjectConfig};
pub use objects::{
    CacheObject, CachePlace, ClientObject, ClientPlace, ClosedObject, ClosedPlace, ImageObject,
    ImagePlace, objects_cross,
};
pub use refusal::Refusal;
pub use shapes::{CConfig, CHandle, CHeldEntry, CPart, Counts, Entry, Key, Stats, Totals};
