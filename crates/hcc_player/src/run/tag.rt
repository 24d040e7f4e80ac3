//! The tag of a cache on which a trace is played.

use hcc_cache::{Config, Tag};

/// The tag names the trace: a value fits a key exactly if some line of the trace inserts it under
/// that key.
#[derive(Clone, Copy, Debug)]
pub(crate) struct TraceTag<'a> {
    pub(crate) config: Config,
    pub(crate) text: &'a [u8],
}

impl<'a> Tag for TraceTag<'a> {
    ghost use Rattle.hcc_player.specs.TraceTag.{fits_trace};

    ghost fits = { fits_trace };
}
