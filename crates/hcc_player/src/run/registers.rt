//! The registers of a client.
ghost use Rattle.std.specs.Prelude.{◌≡◌, ◌<◌, [], OnOk, length};
ghost use Rattle.std.specs.Vec.{vec_capacity};
ghost use Rattle.hcc_player.specs.Registers.{at, filled_with, filled_without};

use hcc_cache::Handle;
use std::alloc::{AllocError, Global};

/// A register that holds a handle.
#[derive(Clone, Copy)]
pub(crate) struct Filled {
    pub(crate) register: usize,
    pub(crate) handle: Handle,
}

/// The registers of a client that are full, in the order in which they were filled: 32 bytes each.
/// All others are empty.
#[derive(Drop)]
pub(crate) struct Registers {
    pub(crate) filled: Vec<Filled>,
}

impl Registers {
    /// Empty registers. It allocates nothing.
    pub(crate) fn new(alloc: Global) -> Self
        ensures { result.filled.items ≡ [] }
    {
        Registers {
            filled: Vec::new(alloc),
        }
    }

    /// What a register holds. It costs a look at each that is full.
    pub(crate) fn get(&self, register: usize) -> Option<Handle>
        ensures { result ≡ at self.now.filled.items register }
    {
        self.filled
            .iter()
            .find(|filled| filled.register == register)
            .map(|filled| filled.handle)
    }

    /// Takes the memory for one more to be filled.
    pub(crate) fn reserve(&mut self) -> Result<(), AllocError>
        ensures room { OnOk result (length self.new.filled.items < vec_capacity self.new.filled) }
        ensures same { self.new.filled.items ≡ self.old.filled.items }
    {
        self.filled.reserve(1)
    }

    /// Fills a register that is empty, for which there is memory.
    pub(crate) fn fill(&mut self, register: usize, handle: Handle)
        requires { length self.old.filled.items < vec_capacity self.old.filled }
        ensures { self.new.filled.items ≡ filled_with self.old.filled.items register handle }
    {
        match self.filled.push(Filled { register, handle }) {
            Ok(()) => {}
            Err(_) => unreachable!(),
        }
    }

    /// Empties a register. It costs a look at each that is full.
    pub(crate) fn empty(&mut self, register: usize)
        ensures { self.new.filled.items ≡ filled_without self.old.filled.items register }
    {
        self.filled.retain(|filled| filled.register != register);
    }
}
