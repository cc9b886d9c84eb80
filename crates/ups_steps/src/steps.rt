//! The table of the held steps.

ghost use Rattle.std.specs.Prelude.{◌≡◌, ◌≤◌, ◌<◌, ◌+◌, ◌++◌, ◌∷◌, [], ◌^◌, not, ℕ, List, None, is_some, true, filter, length, IfOk, IsOk, OnOk};
ghost use Rattle.std.specs.List.{IsDistinct};
ghost use Rattle.std.specs.Map.{keys_of};
ghost use Rattle.std.specs.Map.Iter.{ShowsInOrder, deref_pair};
ghost use Rattle.std.specs.Option.{option_copied};
ghost use Rattle.std.specs.Str.{bytes_eq};
ghost use Rattle.ups_life.specs.Watching.{is_among};
ghost use Rattle.ups_keep.specs.Waits.{steps_of};
ghost use Rattle.ups_steps.specs.declared.held.HeldRow.{HeldRow as HeldOf};
ghost use Rattle.ups_steps.specs.Held.{held_at, final_of, put_held, attributes_held};

use crate::held::HeldRow;
use crate::iter::Iter;
use crate::parts::{Parts, make_parts, share_parts};
use crate::places::{Places, add, close_up, find, free_each, replace};
use indexmap::IndexMap;
use std::alloc::{AllocError, Allocator};
use std::marker::Model;
use ups_keep::Final;
use ups_life::StepUid;
use ups_rows::SharedRows;

/// The held steps, in order of creation, each under its UID. A removed step leaves its place free, so that none of the
/// others is moved; the free places are removed when they are more than half of all.
///
/// A contract sees the steps, and the number of further ones for which there is room. Only `reserve` makes room: the
/// other changes of the table need no memory, and can't fail.
#[derive(Drop)]
pub struct Steps<A: Allocator + Copy> {
    places: Places<A>,
    count: usize,
    parts: Parts<A>,
}

impl<A: Allocator + Copy> Model for Steps<A> {
    ghost use Rattle.indexmap.specs.IndexMap.{spare};
    ghost use Rattle.ups_steps.specs.Places.{held_in};
    ghost use Rattle.ups_steps.specs.Table.{StepsView, KeepsSteps};

    ghost Value = { StepsView A };

    ghost use Rattle.std.specs.Coded.{codes};
    ghost use Rattle.ups_dataset.specs.Code.{set_code};

    ghost coded = { Prim.hlevel (set_code, codes) };

    ghost view = { λ s. record { entries = held_in s.places.entries; spare = spare s.places } };

    ghost invariant = { λ s. KeepsSteps s.places.entries s.count s.parts.items };
}

impl<A: Allocator + Copy> Steps<A> {
    /// Returns a table in which no step is held. `reserve` makes room.
    pub fn new(alloc: A) -> Steps<A>
        ensures { result.entries ≡ [] }
    {
        Steps {
            places: IndexMap::new(alloc),
            count: 0,
            parts: Vec::new(alloc),
        }
    }

    /// Makes room for `more` further steps.
    ///
    /// # Errors
    ///
    /// If memory runs out, but never if there is that room already. The held steps stay the same, and there is no less
    /// room.
    pub fn reserve(&mut self, more: usize) -> Result<(), AllocError>
        ensures room { OnOk result (more ≤ self.new.spare) }
        ensures succeeds { more ≤ self.old.spare → IsOk result }
        ensures keeps { self.old.spare ≤ self.new.spare }
        ensures entries { self.new.entries ≡ self.old.entries }
    {
        self.places.reserve(more)
    }

    /// Returns the number of held steps.
    pub fn len(&self) -> usize
        ensures len { result ≡ length self.now.entries }
    {
        self.count
    }

    /// Returns the row and the holder of a step, or None if it is not held.
    pub fn get(&self, step: StepUid) -> Option<&HeldRow<A>>
        ensures { option_copied result ≡ held_at step self.now.entries }
    {
        find(&self.places, &step)
    }

    /// Returns the time at which the state of a step became final, or None if it is not final or the step is not held.
    pub fn final_at(&self, step: StepUid) -> Option<u64>
        ensures { result ≡ final_of (held_at step self.now.entries) }
    {
        match self.get(step) {
            Some(held) => held.row.get().final_at,
            None => None,
        }
    }

    /// Returns an iterator over the held steps, in order of creation. It walks the free places too, which are no more
    /// than half of all.
    pub fn iter(&self) -> Iter<'_, A>
        ensures rest { result ≡ self.now.entries }
        ensures runs { ShowsInOrder (deref_pair {K = List ℕ} {X = HeldOf A}) }
        ensures unique { IsDistinct bytes_eq (keys_of self.now.entries) }
        ensures fits { length self.now.entries < 2 ^ 63 }
    {
        Iter::over(&self.places)
    }

    /// Returns the UIDs of the held steps, in order of creation.
    ///
    /// # Errors
    ///
    /// If memory runs out.
    pub fn uids(&self, alloc: A) -> Result<Vec<StepUid, A>, AllocError>
        ensures uids { IfOk result (λ v. v.items ≡ keys_of self.now.entries) }
        ensures unique { IsDistinct bytes_eq (keys_of self.now.entries) }
    {
        self.iter().map(|(step, _)| *step).collect(alloc)
    }

    /// Returns the rows of the held steps, in order of creation, which the caller then shares. Nothing is copied, and the
    /// table stays the same: it keeps the parts of rows that this makes, each until one of its places changes.
    ///
    /// # Errors
    ///
    /// If memory runs out.
    pub fn rows(&mut self, alloc: A) -> Result<SharedRows<A>, AllocError>
        ensures rows { IfOk result (λ rows. rows ≡ attributes_held self.old.entries) }
        ensures same { self.new ≡ self.old }
    {
        let Steps { places, parts, .. } = self;
        let shared = share_parts(parts, places, alloc)?;
        Ok(SharedRows::of_parts(shared))
    }

    /// Makes some of the parts of rows that [`Steps::rows`] would have to make, so that a query finds them. The table stays
    /// the same. Returns whether a further call may find more of them.
    ///
    /// # Errors
    ///
    /// If memory runs out.
    pub fn prepare(&mut self, alloc: A) -> Result<bool, AllocError>
        ensures { self.new ≡ self.old }
    {
        let Steps { places, parts, .. } = self;
        make_parts(parts, places, alloc)
    }

    /// Appends a step that is not held. It uses the room of one step.
    pub fn push(&mut self, step: StepUid, held: HeldRow<A>)
        requires fresh { held_at step self.old.entries ≡ None }
        requires room { 0 < self.old.spare }
        ensures entries { self.new.entries ≡ self.old.entries ++ (step, held) ∷ [] }
        ensures spare { self.old.spare ≤ self.new.spare + 1 }
    {
        let Steps {
            places,
            count,
            parts,
        } = self;
        add(places, parts, step, held);
        *count += 1;
    }

    /// Replaces the row and the holder of a step.
    pub fn put(&mut self, step: StepUid, held: HeldRow<A>)
        requires { is_some (held_at step self.old.entries) ≡ true }
        ensures entries { self.new.entries ≡ put_held step held self.old.entries }
        ensures spare { self.new.spare ≡ self.old.spare }
    {
        replace(&mut self.places, &mut self.parts, step, held);
    }

    /// Removes each of these steps that is held.
    pub fn remove(&mut self, steps: &[Final])
        ensures entries { self.new.entries ≡ filter (λ e. not (is_among e.0 (steps_of steps.now))) self.old.entries }
        ensures spare { self.old.spare ≤ self.new.spare }
    {
        let Steps {
            places,
            count,
            parts,
        } = self;
        *count = free_each(places, parts, steps, *count);
        let free = places.len() - *count;
        if free > *count {
            close_up(places);
            parts.clear();
        }
    }
}
