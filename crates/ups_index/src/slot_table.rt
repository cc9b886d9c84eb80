//! The slots of steps by their places. An empty slot takes no memory.

ghost use Rattle.std.specs.Prelude.{◌≡◌, ◌≤◌, ◌<◌, ◌+◌, ◌++◌, ◌∷◌, ◌^◌, [], None, Some, IsSome, OnOk, length, slice_index_or, slice_set};
ghost use Rattle.std.specs.Option.{option_map};
ghost use Rattle.ups_index.specs.Slots.{seen_step};

use crate::values::Values;
use std::alloc::{AllocError, Allocator};
use std::collections::HashMap;
use std::hash::{BuildHasherDefault, FoldHasher};
use std::marker::Model;
use ups_life::StepUid;

/// A step of the index, with its values.
#[derive(Drop)]
pub(crate) struct IndexedStep<A: Allocator + Copy> {
    pub step: StepUid,
    pub values: Values<A>,
}

/// The slots of steps, in order of creation. A slot keeps its place, and is empty once its step is removed. However many
/// steps were removed, the table takes the memory of those that are there.
///
/// A contract sees what is in each slot, and the number of further steps for which there is room.
pub(crate) struct SlotTable<A: Allocator + Copy> {
    /// The steps by their places.
    held: HashMap<u32, IndexedStep<A>, BuildHasherDefault<FoldHasher>, A>,
    /// The number of slots, empty ones too.
    len: usize,
}

impl<A: Allocator + Copy> Drop for SlotTable<A> {
    fn drop(self) {
        let SlotTable { held: _, len: _ } = self;
    }
}

impl<A: Allocator + Copy> Model for SlotTable<A> {
    ghost use Rattle.std.specs.HashMap.{spare};
    ghost use Rattle.ups_index.specs.Slots.{Slots, slots_from};

    ghost Value = { Slots };

    ghost view = { λ t. record { slots = slots_from t.held.entries 0 t.len; room = spare t.held } };
}

impl<A: Allocator + Copy> SlotTable<A> {
    /// Returns a table without slots. It takes no memory yet.
    pub(crate) fn new(alloc: A) -> SlotTable<A>
        ensures { result.slots ≡ [] }
    {
        SlotTable {
            held: HashMap::new(alloc),
            len: 0,
        }
    }

    /// Returns the number of slots, empty ones too.
    pub(crate) fn len(&self) -> usize
        ensures { result ≡ length self.now.slots }
    {
        self.len
    }

    /// Makes room for `more` further steps.
    ///
    /// Errors: if memory runs out. The slots stay the same.
    pub(crate) fn reserve(&mut self, more: usize) -> Result<(), AllocError>
        ensures slots { self.new.slots ≡ self.old.slots }
        ensures room { OnOk result (more ≤ self.new.room) }
    {
        self.held.reserve(more)
    }

    /// Returns the step in the slot at a place, or None if it is empty, or there is none.
    pub(crate) fn get(&self, place: u32) -> Option<&IndexedStep<A>>
        ensures { option_map (λ x. seen_step x.now) result ≡ slice_index_or self.now.slots place None }
    {
        if place as usize >= self.len {
            return None;
        }
        self.held.get(&place)
    }

    /// Appends a slot with a step. There is room for it, so it takes no memory.
    pub(crate) fn push(&mut self, indexed: IndexedStep<A>)
        requires room { 0 < self.old.room }
        requires few { length self.old.slots < 2 ^ 32 }
        ensures slots { self.new.slots ≡ self.old.slots ++ Some (seen_step indexed) ∷ [] }
        ensures room { self.old.room ≤ self.new.room + 1 }
    {
        let Ok(_) = self.held.insert(self.len as u32, indexed) else {
            unreachable!();
        };
        self.len += 1;
    }

    /// Replaces the step in the slot at a place, which has one. It takes no memory.
    pub(crate) fn replace(&mut self, place: u32, indexed: IndexedStep<A>)
        requires { IsSome (slice_index_or self.old.slots place None) }
        ensures slots { self.new.slots ≡ slice_set self.old.slots place (Some (seen_step indexed)) }
    {
        let Ok(_) = self.held.insert(place, indexed) else {
            unreachable!();
        };
    }

    /// Empties the slot at a place.
    pub(crate) fn empty(&mut self, place: u32)
        ensures slots { self.new.slots ≡ slice_set self.old.slots place None }
        ensures room { self.old.room ≤ self.new.room }
    {
        drop(self.held.remove(&place));
    }
}
