//! Addresses of a slot's words.
ghost use Rattle.std.specs.Prelude.{◌≡◌, ◌+◌, ◌<◌};
ghost use Rattle.hcc_rule.specs.declared.layout.TheConstants.{SLOT_HEAD, DATA, PAYLOAD};
ghost use Rattle.hcc_rule.specs.Callers.{id_of, IsSlotAt};
ghost use Rattle.hcc_rule.specs.Words.{field_at};

use crate::key::Tag;
use crate::layout::DATA;
use crate::table::RuleTable;
use std::alloc::Allocator;

/// A slot with the address of its first data word, from which the steps on it whose names end with
/// `_at` reckon: a caller of several of them multiplies once.
#[derive(Clone, Copy, Debug, PartialEq, Eq)]
pub struct SlotAt {
    /// The slot.
    pub slot: u32,
    /// The address, as `RuleTable::data_of` returns it.
    pub data: usize,
}

impl<T: Tag, A: Allocator> RuleTable<T, A> {
    /// The address of a slot's first data word, for a `SlotAt`. It costs a multiplication.
    #[inline(always)]
    pub fn data_of(&self, slot: u32) -> usize
        requires { slot < self.now.geometry.slots }
        ensures { result ≡ field_at self.now.geometry.room slot DATA }
    {
        self.address(slot, DATA)
    }

    /// The address of a slot's meta word or displacement word.
    #[inline(always)]
    pub(crate) fn head_address(&self, at: SlotAt, field: usize) -> usize
        requires at { IsSlotAt self.now at }
        requires head { field < DATA }
        ensures value { result ≡ field_at self.now.geometry.room at.slot field }
        ensures inside { result < (id_of self.now).words }
    {
        at.data - (DATA - field)
    }

    /// The address of a data word.
    #[inline(always)]
    pub(crate) fn data_address(&self, at: SlotAt, index: usize) -> usize
        requires at { IsSlotAt self.now at }
        requires within { index < PAYLOAD + self.now.geometry.room }
        ensures value { result ≡ field_at self.now.geometry.room at.slot (DATA + index) }
        ensures inside { result < (id_of self.now).words }
    {
        at.data + index
    }

    /// The address of a slot's word.
    #[inline(always)]
    pub(crate) fn address(&self, slot: u32, field: usize) -> usize
        requires { (slot < self.now.geometry.slots) × (field < self.now.geometry.room + SLOT_HEAD) }
        ensures value { result ≡ field_at self.now.geometry.room slot field }
        ensures inside { result < (id_of self.now).words }
    {
        slot as usize * self.stride + field
    }
}
