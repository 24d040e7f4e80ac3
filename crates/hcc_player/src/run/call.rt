//! What the lines of a trace ask for.

use crate::run::bytes::Bytes;
use hcc_cache::{Key, Priority};

/// A call of a client. Its registers are numbered from 0.
#[derive(Drop)]
pub(crate) enum Call {
    /// `c I k0 k1 t q v`: an insertion.
    Insert {
        key: Key,
        charge: u32,
        priority: Priority,
        value: Bytes,
    },
    /// `c P h k0 k1 t q v`: an insertion whose handle fills a register.
    Pin {
        register: u32,
        key: Key,
        charge: u32,
        priority: Priority,
        value: Bytes,
    },
    /// `c G h k0 k1`: a look-up into a register.
    Lookup {
        register: u32,
        key: Key,
    },
    /// `c F h g`: one handle more on what another register holds.
    Reref {
        register: u32,
        from: u32,
    },
    /// `c R h a b`: a release.
    Release {
        register: u32,
        useful: bool,
        erase: bool,
    },
    /// `c V h`: the value of a register's entry.
    Value {
        register: u32,
    },
    /// `c E k0 k1`: an erasure.
    Erase {
        key: Key,
    },
    /// `c U`: the three totals.
    Totals,
    /// `c W shard slot`: a slot's meta word and its displacement.
    Word {
        shard: u32,
        slot: u32,
    },
    /// `c S`: the client's stats.
    Stats,
}

/// A line of a trace of calls.
#[derive(Drop)]
pub(crate) struct RunLine {
    pub(crate) client: u32,
    pub(crate) call: Call,
}
