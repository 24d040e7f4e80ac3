//! Handles, and their parts.
ghost use Rattle.std.specs.Prelude.{◌≡◌};
ghost use Rattle.hcc_cache.specs.Handles.{handle_of, parts_of};

/// A reference that a client holds on an entry: the entry stays as it is until the handle is
/// released.
///
/// Only calls make handles. A handle is of use with the client that got it, and until that client
/// releases it: the client knows its own by their indices and their serials, and no serial comes
/// twice. A handle that was released, or that another client of this cache got, is none that the
/// client holds, and stays so; `holds` tests it by a few comparisons. Caches don't know each
/// other's handles apart.
#[derive(Clone, Copy, Debug, PartialEq, Eq)]
pub struct Handle {
    /// The number of its client.
    pub(crate) client: u32,
    /// Its index among what the client keeps of its handles.
    pub(crate) index: usize,
    /// The serial that the call used which gave it.
    pub(crate) serial: u64,
}

/// The parts of a handle, as they go through an interface that can't carry handles.
///
/// They may be any: a call that takes them judges whether they are those of a handle that the
/// client holds, which costs the look at the handle's index that the call makes in any case.
#[derive(Clone, Copy, Debug, PartialEq, Eq)]
pub struct HandleParts {
    /// The number of the handle's client.
    pub client: u32,
    /// Its index among what the client keeps of its handles.
    pub index: usize,
    /// The serial that the call used which gave it: no other handle of the client has it.
    pub serial: u64,
}

impl Handle {
    /// Its parts. It costs a copy.
    pub fn parts(self) -> HandleParts
        ensures { result ≡ parts_of self }
    {
        HandleParts {
            client: self.client,
            index: self.index,
            serial: self.serial,
        }
    }
}

impl HandleParts {
    /// The handle of these parts, which nobody may hold.
    pub(crate) fn handle(self) -> Handle
        ensures { result ≡ handle_of self }
    {
        let HandleParts {
            client,
            index,
            serial,
        } = self;
        Handle {
            client,
            index,
            serial,
        }
    }
}
