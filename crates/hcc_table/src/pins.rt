//! References that a client holds.
ghost use Rattle.std.specs.Prelude.{◌≡◌, ◌&&◌};
ghost use Rattle.hcc_table.specs.Pins.{erases, is_useful};

/// One reference that a client holds on an entry.
#[derive(Clone, Copy, Debug, PartialEq, Eq)]
pub struct Pin {
    // The widest field first, so that a pin has no gap within: it is copied faster.
    /// The name that the client gave to the reference.
    pub name: u64,
    /// Where the entry is.
    pub slot: u32,
    /// Whether the reference counts: its release may be a use.
    pub counting: bool,
}

/// A reference with the address of the first data word of its slot, by which the entry is read.
#[derive(Clone, Copy, Debug, PartialEq, Eq)]
pub struct PinAt {
    /// The reference.
    pub pin: Pin,
    /// The address, as `RuleTable::data_of` returns it.
    pub data: usize,
}

/// Whether the release of a reference is a use of its entry.
#[derive(Clone, Copy, Debug, PartialEq, Eq)]
pub enum Use {
    /// It is one, where the reference counts.
    Useful,
    /// It is none.
    NotUseful,
}

impl Use {
    /// A use where a release is useful, and else none. It costs a test.
    pub fn of(useful: bool) -> Use
        ensures { is_useful result ≡ useful }
    {
        if useful { Use::Useful } else { Use::NotUseful }
    }

    /// Whether the release of a reference, which counts or not, is a use.
    pub(crate) fn is_use(self, counting: bool) -> bool
        ensures { result ≡ (is_useful self && counting) }
    {
        match self {
            Use::Useful => counting,
            Use::NotUseful => false,
        }
    }
}

/// What becomes of a visible entry whose last reference is released.
#[derive(Clone, Copy, Debug, PartialEq, Eq)]
pub enum IfLast {
    /// It stays.
    Keep,
    /// It is freed.
    Erase,
}

impl IfLast {
    pub(crate) fn erases(self) -> bool
        ensures { result ≡ erases self }
    {
        match self {
            IfLast::Keep => false,
            IfLast::Erase => true,
        }
    }
}
