//! What a line of a text may say.
ghost use Rattle.hcc_player.specs.Value.{Gives};

use crate::fault::LineError;
use std::alloc::Global;

/// A grammar of lines.
pub(crate) trait Grammar {
    ghost use Rattle.std.specs.Prelude.{ℕ, List, Result};
    ghost use Rattle.hcc_player.specs.declared.fault.TextFault.{TextFault};

    /// What a line says.
    type Line: Drop;

    // What a line says that a line feed ends, or its first fault.
    ghost says: { Self → List ℕ → Result Self.Line TextFault };

    /// Reads a line, given without its line feed. It allocates memory for the words, and for what
    /// the line says.
    fn line(&self, alloc: Global, line: &[u8]) -> Result<Self::Line, LineError>
        ensures { Gives result (says self.now line.now) };
}
