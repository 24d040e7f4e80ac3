//! A source that fails once.
ghost use Rattle.std.specs.Prelude.{◌≡◌, ◌≢◌, ◌+◌, ◌<◌, ◌≤◌, min, length, IsErr, IsOk, None, OnErr, OnOk, Some};
ghost use Rattle.hcc_block.specs.Sources.{after_read, bytes_at, failures_of, top, Fails, HasBytes};

use crate::source::{BlockSource, SourceFailed};

/// A source over another one, of which one read fails. All other reads are the other source's.
#[derive(Drop)]
pub struct FailingSource<S> {
    source: S,
    /// How many reads come before the one that fails; none once it has failed.
    before: Option<u64>,
}

impl<S: BlockSource> FailingSource<S> {
    /// A source of the same files that fails once, after so many reads. It allocates nothing.
    pub fn new(source: S, before: u64) -> Self
        ensures content { ⟦<FailingSource<S> as BlockSource>⟧.content result ≡ S.content source }
        ensures failed { ⟦<FailingSource<S> as BlockSource>⟧.failed result
            ≡ min (S.failed source) top }
        ensures source { result.source ≡ source }
        ensures before { result.before ≡ Some before }
    {
        FailingSource {
            source,
            before: Some(before),
        }
    }
}

impl<S: BlockSource> BlockSource for FailingSource<S> {
    ghost content = { λ source. S.content source.source };

    ghost failed = { λ source. min (S.failed source.source + failures_of source.before) top };

    ghost reliable = { λ source. (source.before ≡ None) × S.reliable source.source };

    // The read that is meant fails, and the other source isn't asked. Each other one is one read of
    // that source.
    ghost reads = { λ source file from count answer new. (new.before ≡ after_read source.before)
        × (source.before ≡ Some 0 → IsErr answer × (new.source ≡ source.source))
        × (source.before ≢ Some 0
        → S.reads source.source file from count answer new.source) };

    fn files(&self) -> u32 {
        self.source.files()
    }

    fn len(&self, file: u32) -> u64 {
        self.source.len(file)
    }

    fn read(&mut self, file: u32, from: u64, buffer: &mut [u8]) -> Result<(), SourceFailed>
        requires file { file < length (S.content self.old.source) }
        requires bytes { HasBytes (S.content self.old.source) file from (length buffer.old) }
        ensures read { OnOk result (bytes_at (S.content self.old.source) file from
            (length buffer.old) ≡ Some buffer.new) }
        ensures content { S.content self.new.source ≡ S.content self.old.source }
        ensures failed { OnErr result (Fails
            (min (S.failed self.old.source + failures_of self.old.before) top)
            (min (S.failed self.new.source + failures_of self.new.before) top)) }
        ensures grows { min (S.failed self.old.source + failures_of self.old.before) top
            ≤ min (S.failed self.new.source + failures_of self.new.before) top }
        ensures reliable { (self.old.before ≡ None) × S.reliable self.old.source
            → IsOk result × ((self.new.before ≡ None) × S.reliable self.new.source) }

        // The read that is meant fails, and reaches neither the other source nor the buffer.
        ensures meant { self.old.before ≡ Some 0 → IsErr result
            × (self.new.source ≡ self.old.source) × (buffer.new ≡ buffer.old) }

        // Each other one fails only where the other source does, and is nearer to it by one.
        ensures other { self.old.before ≢ Some 0
            → OnErr result (Fails (S.failed self.old.source) (S.failed self.new.source)) }
        ensures sound { self.old.before ≢ Some 0 → S.reliable self.old.source
            → IsOk result × S.reliable self.new.source }
        ensures before { self.new.before ≡ after_read self.old.before }
        ensures asks { self.old.before ≢ Some 0 → S.reads self.old.source file from
            (length buffer.old) result self.new.source }
    {
        match self.before {
            Some(0) => {
                self.before = None;
                Err(SourceFailed)
            }
            Some(before) => {
                self.before = Some(before - 1);
                self.source.read(file, from, buffer)
            }
            None => self.source.read(file, from, buffer),
        }
    }

    fn failures(&self) -> u64 {
        let own = if self.before.is_none() { 1 } else { 0 };
        self.source.failures().saturating_add(own)
    }
}
