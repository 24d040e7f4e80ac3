//! Blocks of files, read through the cache.
//!
//! A [`BlockSource`] is a list of files. A [`BlockReader`] reads their blocks, from the cache where
//! it has them and else from the source. Whatever the cache keeps, what is read is the file's
//! block.
#![tactic(auto)]

mod failing;
pub mod laws;
mod memory;
mod reader;
mod reading;
mod source;
mod tag;

pub use failing::FailingSource;
pub use memory::MemorySource;
pub use reader::{BlockReader, ReadError};
pub use source::{BlockSource, SourceFailed};
pub use tag::{FilesTag, key_of};
