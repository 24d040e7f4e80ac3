//! What C has of a cache of objects that was closed: the objects that its table had left.
ghost use Rattle.std.specs.Prelude.{◌≡◌, None, IfOk, IsOkUnless, OnErr, OnOk};
ghost use Rattle.hcc_c.specs.ObjectsKept.{EndsWalk, GivesNext};

use crate::refusal::Refusal;
use hcc_cache::{Key, Object, ObjectsLeft};
use std::alloc::Global;
use std::mem;

/// What is left of a cache of objects, in the hands of C: nothing until one is closed.
pub struct KeptObjects {
    pub(crate) left: Option<ObjectsLeft>,
}

impl Drop for KeptObjects {
    // What goes behind a pointer has to have one. What it still had would be lost to the program.
    fn drop(self) {
        let KeptObjects { left } = self;
        match left {
            Some(left) => let_go(left),
            None => {}
        }
    }
}

/// Walks over what is left of a cache, and lets the objects go.
fn let_go(mut left: ObjectsLeft) {
    while let Some(gone) = left.next() {
        let _ = gone.take();
    }
    match left.end() {
        Ok(()) => {}
        Err(_left) => unreachable!(),
    }
}

impl KeptObjects {
    /// One with nothing yet.
    pub fn open(alloc: Global) -> Result<Box<KeptObjects>, Refusal>
        ensures memory { IsOkUnless result Refusal.OutOfMemory }
        ensures empty { IfOk result (λ kept. kept.value.left ≡ None) }
    {
        match Box::new(alloc, KeptObjects { left: None }) {
            Ok(kept) => Ok(kept),
            Err(_) => Err(Refusal::OutOfMemory),
        }
    }

    /// The next object, with the key of its insertion; none where all were handed out. It costs
    /// what `next` of what is left of the cache does.
    pub fn next(&mut self) -> Option<(Key, Object)>
        ensures { GivesNext result self.old.left self.new.left }
    {
        let left = self.left.as_mut()?;
        let gone = left.next()?;
        Some(gone.take())
    }

    /// Ends the walk, once `next` has said that none is left. Else it is refused, and all stays.
    pub fn end(&mut self) -> Result<(), Refusal>
        ensures walk { EndsWalk result self.old.left }
        ensures ended { OnOk result (self.new.left ≡ None) }
        ensures refused { OnErr result (self.new ≡ self.old) }
    {
        let Some(left) = mem::replace(&mut self.left, None) else {
            return Ok(());
        };
        match left.end() {
            Ok(()) => Ok(()),
            Err(left) => {
                *self = KeptObjects { left: Some(left) };
                Err(Refusal::Untaken)
            }
        }
    }
}
