//! The tag of the tests.
use hcc_rule::Tag;

/// The tag that every value fits.
#[derive(Drop)]
pub(crate) struct AnyBytes;

impl Tag for AnyBytes {
    ghost fits = { λ tag key value. Unit {0} };
}
