//! Where blocks come from.
ghost use Rattle.std.specs.Prelude.{◌≡◌, ◌<◌, ◌≤◌, ℕ, List, Some, IsOk, IfSome, OnOk, OnErr, length, slice_get};
ghost use Rattle.hcc_block.specs.Sources.{bytes_at, Fails, HasBytes};

use thiserror::Error;

/// A source couldn't be read.
#[derive(Clone, Copy, Debug, PartialEq, Eq, Error)]
#[error("SourceFailed")]
pub struct SourceFailed;

/// A list of files whose content never changes. Reading them may fail.
///
/// Files are numbered from 0. They are fewer than 2^32, since their number is a `u32`.
pub trait BlockSource {
    ghost use Rattle.std.specs.Prelude.{ℕ, List, Result};
    ghost use Rattle.hcc_block.specs.declared.source.SourceFailed.{SourceFailed};

    // The bytes of each file.
    ghost content: { Self → List (List ℕ) };

    // How many failures it has counted, up to the greatest number of a `u64`.
    ghost failed: { Self → ℕ };

    // No read fails, now or later.
    ghost reliable: { Self → Type 0 };

    // What one read makes of it: of so many bytes of a file, from this one on, with this answer.
    // Where reading changes it this is exact, so that two reads aren't one.
    ghost reads: { Self → (file from count : ℕ) → Result (Unit {0}) SourceFailed → Self
        → Type 0 };

    /// How many files there are.
    fn files(&self) -> u32
        ensures { result ≡ length (content self.now) };

    /// How many bytes a file has.
    fn len(&self, file: u32) -> u64
        requires { file < length (content self.now) }
        ensures { IfSome (slice_get (content self.now) file) (λ bytes. result ≡ length bytes) };

    /// Fills the whole buffer with the bytes of a file from this one on, or fails. The file has
    /// these bytes. After a failure the bytes of the buffer are open, and the source may be read
    /// again.
    fn read(&mut self, file: u32, from: u64, buffer: &mut [u8]) -> Result<(), SourceFailed>
        requires file { file < length (content self.old) }
        requires bytes { HasBytes (content self.old) file from (length buffer.old) }
        ensures read { OnOk result (bytes_at (content self.old) file from (length buffer.old)
            ≡ Some buffer.new) }
        ensures content { content self.new ≡ content self.old }
        ensures failed { OnErr result (Fails (failed self.old) (failed self.new)) }
        ensures grows { failed self.old ≤ failed self.new }
        ensures reliable { reliable self.old → IsOk result × reliable self.new }
        ensures once { reads self.old file from (length buffer.old) result self.new };

    /// How many reads failed, up to the greatest number of a `u64`.
    fn failures(&self) -> u64
        ensures { result ≡ failed self.now };
}
