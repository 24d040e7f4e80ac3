//! A value's bytes as words.
ghost use Rattle.std.specs.Prelude.{◌≡◌, ◌≤◌, drop, length, take};
ghost use Rattle.std.specs.Int.{from_le_bytes};
ghost use mir.Syntax.{w64};

/// The word of the eight bytes from an offset on, the first lowest, with 0 for those that lack: the
/// payload word of a value, where the offset is eight times its number. The offset is at most the
/// number of bytes.
///
/// It allocates nothing. It costs a load where there are eight bytes, and else a copy of those
/// left.
#[inline(always)]
pub fn word_at(value: &[u8], offset: usize) -> u64
    requires { offset ≤ length value.now }
    ensures { result ≡ from_le_bytes w64 (take 8 (drop offset value.now)) }
{
    let rest = &value[offset..];
    match rest.first_chunk::<8>() {
        Some(bytes) => u64::from_le_bytes(*bytes),
        None => short_word(rest),
    }
}

/// The word of at most eight bytes, the first lowest, with 0 for those that lack.
fn short_word(bytes: &[u8]) -> u64
    requires { length bytes.now ≤ 8 }
    ensures { result ≡ from_le_bytes w64 bytes.now }
{
    let mut whole = [0u8; 8];
    whole[..bytes.len()].copy_from_slice(bytes);
    u64::from_le_bytes(whole)
}
