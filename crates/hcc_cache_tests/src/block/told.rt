//! A source whose failures are told while a reader has it.
ghost use Rattle.std.specs.Prelude.{◌≡◌};

use hcc_block::{BlockSource, SourceFailed};
use std::cell::Cell;

/// A source over another one. The cell has how many failures that one has counted.
#[derive(Drop)]
pub(super) struct ToldSource<'a, S> {
    source: S,
    failures: &'a Cell<u64>,
}

impl<'a, S: BlockSource> ToldSource<'a, S> {
    /// A source of the same files.
    pub(super) fn new(source: S, failures: &'a Cell<u64>) -> Self
        ensures { ⟦<ToldSource<'a, S> as BlockSource>⟧.content result ≡ S.content source }
    {
        failures.set(source.failures());
        ToldSource { source, failures }
    }
}

impl<'a, S: BlockSource> BlockSource for ToldSource<'a, S> {
    ghost content = { λ source. S.content source.source };

    ghost failed = { λ source. S.failed source.source };

    ghost reliable = { λ source. S.reliable source.source };

    ghost reads = { λ source file from count answer new.
        S.reads source.source file from count answer new.source };

    fn files(&self) -> u32 {
        self.source.files()
    }

    fn len(&self, file: u32) -> u64 {
        self.source.len(file)
    }

    fn read(&mut self, file: u32, from: u64, buffer: &mut [u8]) -> Result<(), SourceFailed> {
        let read = self.source.read(file, from, buffer);
        self.failures.set(self.source.failures());
        read
    }

    fn failures(&self) -> u64 {
        self.source.failures()
    }
}
