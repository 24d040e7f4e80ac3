//! The key of an entry, and which values are right for it.
ghost use Rattle.std.specs.Prelude.{◌≡◌, take, drop};
ghost use Rattle.std.specs.Int.{from_be_bytes};
ghost use mir.Syntax.{w64};

/// A key of 16 bytes, as two words.
#[derive(Clone, Copy, Debug, PartialEq, Eq)]
pub struct Key {
    pub w0: u64,
    pub w1: u64,
}

impl Key {
    /// The key of these bytes: each half is read with its highest byte first.
    pub fn from_bytes(bytes: [u8; 16]) -> Key
        ensures word0 { result.w0 ≡ from_be_bytes w64 (take 8 bytes) }
        ensures word1 { result.w1 ≡ from_be_bytes w64 (drop 8 bytes) }
    {
        let [a, b, c, d, e, f, g, h, i, j, k, l, m, n, o, p] = bytes;
        Key {
            w0: u64::from_be_bytes([a, b, c, d, e, f, g, h]),
            w1: u64::from_be_bytes([i, j, k, l, m, n, o, p]),
        }
    }
}

/// Which values are right for a key, by a relation of contracts. Nothing tests it at run time.
pub trait Tag {
    ghost use Rattle.std.specs.Prelude.{ℕ, List};
    ghost use Rattle.hcc_rule.specs.declared.key.Key.{Key};

    // Of the tag, a key and a value's bytes.
    ghost fits: { Self → Key → List ℕ → Type 0 };
}
