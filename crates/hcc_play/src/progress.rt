//! How far a long play is, shown on a terminal.

use hcc_player::blocks::Gate;
use std::sync::atomic::{AtomicU64, Ordering};

/// After so many reads it is shown how many there were.
const STEP: u64 = 1 << 20;

/// Counts the reads of all clients where standard error is a terminal, and shows there how many
/// there were after each 2^20 of them.
#[derive(Drop)]
pub struct Progress<'a, R> {
    rt: &'a R,
    shown: bool,
    reads: AtomicU64,
}

impl<'a, R: Eprint> Progress<'a, R> {
    pub fn new(rt: &'a R, shown: bool) -> Self {
        Progress {
            rt,
            shown,
            reads: AtomicU64::new(0),
        }
    }

    /// Ends the line that it wrote on, if it wrote one.
    pub fn end(&self) {
        if self.shown && self.reads.load(Ordering::SeqCst) >= STEP {
            let _ = self.rt.eprintln("");
        }
    }
}

impl<'a, R: Eprint> Gate for Progress<'a, R> {
    fn before(&self, _client: u32, _call: u64) {}

    fn after(&self, _client: u32, _call: u64) {
        if !self.shown {
            return;
        }
        let reads = self.reads.fetch_add(1, Ordering::SeqCst).wrapping_add(1);
        if reads % STEP == 0 {
            let _ = eprint!(self.rt; "\r{reads} reads");
        }
    }
}
