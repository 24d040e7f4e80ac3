//! Tags of values.

use hcc_rule::Tag;

/// The tag that every value fits, whatever its key.
#[derive(Clone, Copy, Debug, PartialEq, Eq)]
pub struct AnyBytes;

impl Tag for AnyBytes {
    ghost fits = { λ tag key value. Unit {0} };
}
