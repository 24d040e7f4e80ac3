//! The tag and the keys of blocks.
ghost use Rattle.std.specs.Prelude.{◌≡◌};
ghost use Rattle.hcc_block.specs.Blocks.{key_of};

use hcc_rule::{Key, Tag};

/// The tag of a cache of blocks: it names the files, and the size of their blocks in bytes. A value
/// fits a key exactly if it is the block that the key names.
#[derive(Clone, Copy, Debug)]
pub struct FilesTag<'a> {
    pub files: &'a [Vec<u8>],
    pub block: u32,
}

impl<'a> Tag for FilesTag<'a> {
    ghost use Rattle.hcc_block.specs.Tags.{fits_files};

    ghost fits = { fits_files };
}

/// The key of a block of a file, by their numbers. It costs two shifts.
#[tactic(auto, unfolding(crate::specs::Blocks::key_of))]
pub fn key_of(file: u32, index: u32) -> Key
    ensures { result ≡ key_of file index }
{
    Key {
        w0: (u64::from(index) << 32) + u64::from(file),
        w1: (u64::from(file) << 32) + u64::from(index),
    }
}
