//! Entries that C gives one by one, for a cache to begin with.
ghost use Rattle.std.specs.Prelude.{◌≡◌, [], IfOk, IsOkUnless};
ghost use Rattle.hcc_c.specs.Images.{Adds, entries_of, entry_for};

use crate::refusal::Refusal;
use hcc_cache::{Key, Saved};
use std::alloc::Global;

/// Entries for a cache to begin with, in the hands of C.
#[derive(Drop)]
pub struct Image {
    pub(crate) entries: Vec<Saved>,
}

impl Image {
    /// One with no entries.
    pub fn open(alloc: Global) -> Result<Box<Image>, Refusal>
        ensures memory { IsOkUnless result Refusal.OutOfMemory }
        ensures empty { IfOk result (λ image. entries_of image.value ≡ []) }
    {
        let entries = Vec::new(alloc);
        match Box::new(alloc, Image { entries }) {
            Ok(image) => Ok(image),
            Err(_) => Err(Refusal::OutOfMemory),
        }
    }

    /// Adds an entry behind the others, with a copy of the value. It is refused only where memory
    /// is, and the entries are as before then.
    pub fn add(
        &mut self,
        alloc: Global,
        key: Key,
        value: &[u8],
        charge: u32,
        uses: u32,
    ) -> Result<(), Refusal>
        ensures { Adds (entry_for key value.now charge uses) result self.old self.new }
    {
        let Ok(value) = Vec::from_slice(alloc, value) else {
            return Err(Refusal::OutOfMemory);
        };
        let saved = Saved {
            key,
            value,
            charge,
            uses,
        };
        let Ok(()) = self.entries.push(saved) else {
            return Err(Refusal::OutOfMemory);
        };
        Ok(())
    }
}
