//! Words that a client loaded, as the bytes that they are of.
ghost use Rattle.std.specs.Prelude.{◌≡◌, ℕ, ◌*◌, ◌<◌, ◌≤◌, List, length};
ghost use Rattle.hcc_rule.specs.Views.{Each};
ghost use Rattle.hcc_table.specs.Readings.{CopiesOut, HasWords};

use crate::optimistic::Got;
use crate::readings::put;

/// Puts a value that was loaded as words to the front of a buffer, where that has room for it. The
/// rest of the buffer stays as it is; where the buffer is shorter, all of it.
///
/// The value has `count` bytes, eight in each word, the lowest first; words behind it aren't read.
/// Words that aren't those of one value give bytes that nothing is told of. It refuses nothing and
/// allocates nothing. It costs a store for each word of the value.
#[inline(always)]
pub(crate) fn unpack(words: &[u64], count: usize, buffer: &mut [u8]) -> Got
    requires long { count ≤ 8 * length words.now }
    ensures copies { (value : List ℕ) → count ≡ length value → Each (λ b. b < 256) value
        → HasWords words.now value → CopiesOut result value buffer.old buffer.new }
{
    if buffer.len() < count {
        return Got::Short(count);
    }
    let whole = count / 8;
    for index in 0..whole {
        put(buffer, 8 * index, 8, words[index]);
    }
    let rest = count % 8;
    if rest > 0 {
        put(buffer, 8 * whole, rest, words[whole]);
    }
    Got::Hit(count)
}
