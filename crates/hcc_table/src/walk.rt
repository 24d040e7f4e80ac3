//! The probes of a key, one after the other.
ghost use Rattle.std.specs.Prelude.{◌≡◌, ◌+◌, ◌-◌, ◌%◌, ◌^◌, ◌≤◌, bit_and, bit_or};

use hcc_rule::Key;

/// A walk over the probes of a key: where it stands, by a mask of the table's slots, and how far it
/// steps.
#[derive(Clone, Copy, Debug, PartialEq, Eq)]
pub(crate) struct Walk {
    pub(crate) probe: u64,
    pub(crate) stride: u64,
    pub(crate) mask: u32,
}

impl Walk {
    /// A walk at a key's first probe in a table of so many slots.
    pub(crate) fn begin(key: Key, slots: u32) -> Walk
        requires { 1 ≤ slots }
        ensures probe { result.probe ≡ key.w1 }
        ensures stride { result.stride ≡ bit_or key.w0 1 }
        ensures mask { result.mask ≡ slots - 1 }
    {
        Walk {
            probe: key.w1,
            stride: key.w0 | 1,
            mask: slots - 1,
        }
    }

    /// The slot where it stands.
    pub(crate) fn slot(&self) -> u32
        ensures { result ≡ bit_and self.now.probe self.now.mask }
    {
        (self.probe & self.mask as u64) as u32
    }

    /// The walk at the next probe.
    pub(crate) fn next(&self) -> Walk
        ensures probe { result.probe ≡ (self.now.probe + self.now.stride) % 2 ^ 64 }
        ensures stride { result.stride ≡ self.now.stride }
        ensures mask { result.mask ≡ self.now.mask }
    {
        Walk {
            probe: self.probe.wrapping_add(self.stride),
            stride: self.stride,
            mask: self.mask,
        }
    }
}
