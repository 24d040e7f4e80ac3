//! Files in memory.
ghost use Rattle.std.specs.Prelude.{◌≡◌, ◌<◌, ◌^◌, length, map, IsOk};

use crate::source::{BlockSource, SourceFailed};

/// Files that are lent in memory. They never fail. A read costs a copy.
#[derive(Clone, Copy, Debug)]
pub struct MemorySource<'a> {
    files: &'a [Vec<u8>],
    ghost few: { length files.now < 2 ^ 32 },
}

impl<'a> MemorySource<'a> {
    /// A source of these files, which are fewer than 2^32. It allocates nothing.
    pub fn new(files: &'a [Vec<u8>]) -> Self
        requires { length files.now < 2 ^ 32 }
        ensures content { ⟦<MemorySource<'a> as BlockSource>⟧.content result
            ≡ map (λ file. file.items) files.now }
        ensures reliable { ⟦<MemorySource<'a> as BlockSource>⟧.reliable result }
    {
        MemorySource { files }
    }
}

impl<'a> BlockSource for MemorySource<'a> {
    ghost content = { λ source. map (λ file. file.items) source.files.now };

    ghost failed = { λ source. 0 };

    ghost reliable = { λ source. Unit {0} };

    ghost reads = { λ source file from count answer new. IsOk answer × (new ≡ source) };

    fn files(&self) -> u32 {
        self.files.len() as u32
    }

    fn len(&self, file: u32) -> u64 {
        self.files[file as usize].len() as u64
    }

    fn read(&mut self, file: u32, from: u64, buffer: &mut [u8]) -> Result<(), SourceFailed> {
        let bytes = self.files[file as usize].as_slice();
        let from = from as usize;
        buffer.copy_from_slice(&bytes[from..from + buffer.len()]);
        Ok(())
    }

    fn failures(&self) -> u64 {
        0
    }
}
