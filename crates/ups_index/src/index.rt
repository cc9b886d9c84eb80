//! The index of the held steps.

ghost use Rattle.std.specs.Prelude.{◌≡◌, ◌≤◌, ◌<◌, ◌+◌, ◌++◌, [], ◌∷◌, false, length, IfOk, MatchOption, IsSome, IfSome, OnOk, pos};
ghost use Rattle.ups_match.specs.Class.{first_key, all};
ghost use Rattle.ups_index.specs.Indexed.{values_len, has_step, put_values, without_uid, indexed_class};
ghost use Rattle.ups_index.specs.Numbers.{low_number, high_number};
ghost use Rattle.ups_index.specs.Posts.{KeepsOthers, HasTexts, HasStart};

use crate::exchanging::{exchange_start, exchange_texts};
use crate::numbers::{moment_number, step_number, text_number};
use crate::posts::Posts;
use crate::slot_table::{IndexedStep, SlotTable};
use crate::slots::{look_up, place_of, put_start, put_texts, take_start, take_texts};
use crate::values::Values;
use std::alloc::{AllocError, Allocator};
use std::marker::Model;
use ups_life::StepUid;
use ups_match::{First, Keys};

/// The greatest number of steps that an index takes in its life: a place is a `u32`.
const MAX_PLACES: usize = 0x1_0000_0000;

/// An index of the held steps. It finds those that have the first indexed key of a query without going through all
/// others (PS3.4 section C.2.2.2), and keeps a copy of the indexed values of each step.
///
/// A contract sees the offset by which starts are read, the steps in order of creation, each with its values, and for
/// how many more values there is room. Only `reserve` makes room: other changes to the index take no memory, and cannot
/// fail.
pub struct Index<A: Allocator + Copy> {
    alloc: A,
    /// The offset of a start without one, in minutes east of UTC.
    offset: i16,
    /// The steps, each at a place that it keeps.
    slots: SlotTable<A>,
    /// The posts by the numbers of UIDs.
    steps: Posts<A>,
    /// The posts by the numbers of texts.
    texts: Posts<A>,
    /// The posts by the numbers of starts.
    starts: Posts<A>,
}

impl<A: Allocator + Copy> Drop for Index<A> {
    fn drop(self) {
        let Index {
            alloc: _,
            offset: _,
            slots: _,
            steps: _,
            texts: _,
            starts: _,
        } = self;
    }
}

impl<A: Allocator + Copy> Model for Index<A> {
    ghost use Rattle.ups_index.specs.Indexed.{Contents};

    ghost Value = { Contents };

    ghost use Rattle.ups_index.specs.Kept.{KeepsIndex, least_room};
    ghost use Rattle.ups_index.specs.Slots.{seen_slots};

    ghost view = { λ x. record { offset = x.offset; steps = seen_slots x.slots.slots; spare = least_room x.slots x.steps.room x.texts.room x.starts.room } };

    ghost invariant = { λ x. KeepsIndex x.slots.slots x.steps.posts x.texts.posts x.starts.posts };
}

/// Replaces the posts of the values of the step at a place by those of new values.
fn exchange_values<A: Allocator + Copy>(
    texts: &mut Posts<A>,
    starts: &mut Posts<A>,
    old: &Values<A>,
    new: &Values<A>,
    place: u32,
)
    requires texts { HasTexts old.now.texts place texts.old.posts }
    requires starts { HasStart old.now.start place starts.old.posts }
    requires text_room { length new.now.texts ≤ texts.old.room }
    requires start_room { 0 < starts.old.room }
    ensures texts { HasTexts new.now.texts place texts.new.posts }
    ensures keeps_texts { KeepsOthers place texts.old.posts texts.new.posts }
    ensures text_room { texts.old.room ≤ texts.new.room + length new.now.texts }
    ensures starts { HasStart new.now.start place starts.new.posts }
    ensures keeps_starts { KeepsOthers place starts.old.posts starts.new.posts }
    ensures start_room { starts.old.room ≤ starts.new.room + 1 }
{
    exchange_texts(texts, old.texts(), new.texts(), place);
    exchange_start(starts, old.start(), new.start(), place);
}

/// Removes the posts of the values of the step at a place.
fn take_values<A: Allocator + Copy>(
    texts: &mut Posts<A>,
    starts: &mut Posts<A>,
    values: &Values<A>,
    place: u32,
)
    ensures texts { KeepsOthers place texts.old.posts texts.new.posts }
    ensures text_room { texts.old.room ≤ texts.new.room }
    ensures starts { KeepsOthers place starts.old.posts starts.new.posts }
    ensures start_room { starts.old.room ≤ starts.new.room }
{
    take_texts(texts, values.texts(), place);
    take_start(starts, values.start(), place);
}

/// Returns the number from which on a start is in a range.
fn low_number(least: Option<i64>) -> u64
    ensures { result ≡ low_number least }
{
    match least {
        Some(moment) => moment_number(moment),
        None => 0,
    }
}

/// Returns the number up to which a start is in a range.
fn high_number(greatest: Option<i64>) -> u64
    ensures { result ≡ high_number greatest }
{
    match greatest {
        Some(moment) => moment_number(moment),
        None => u64::MAX,
    }
}

impl<A: Allocator + Copy> Index<A> {
    /// Returns an index without steps. `offset` is that of a start without one, in minutes east of UTC. It takes no
    /// memory yet.
    pub fn new(alloc: A, offset: i16) -> Index<A>
        ensures offset { result.offset ≡ offset }
        ensures steps { result.steps ≡ [] }
    {
        Index {
            alloc,
            offset,
            slots: SlotTable::new(alloc),
            steps: Posts::new(alloc),
            texts: Posts::new(alloc),
            starts: Posts::new(alloc),
        }
    }

    /// Makes room for the values of a step.
    ///
    /// # Errors
    ///
    /// If memory runs out, or the index has taken so many steps that fewer of its 4,294,967,296 places are left than
    /// the step has values. The steps are then as before.
    pub fn reserve(&mut self, values: &Values<A>) -> Result<(), AllocError>
        ensures offset { self.new.offset ≡ self.old.offset }
        ensures steps { self.new.steps ≡ self.old.steps }
        ensures room { OnOk result (values_len values.now ≤ self.new.spare) }
    {
        let Some(more) = values.texts().len().checked_add(1) else {
            return Err(AllocError);
        };
        self.make_room(more)
    }

    /// Makes room for `more` values.
    ///
    /// Errors: if memory runs out, or there would be too many steps. The steps are then as before.
    fn make_room(&mut self, more: usize) -> Result<(), AllocError>
        ensures offset { self.new.offset ≡ self.old.offset }
        ensures steps { self.new.steps ≡ self.old.steps }
        ensures room { OnOk result (more ≤ self.new.spare) }
    {
        let Index {
            slots,
            steps,
            texts,
            starts,
            ..
        } = self;
        if more > MAX_PLACES.saturating_sub(slots.len()) {
            return Err(AllocError);
        }
        slots.reserve(more)?;
        steps.reserve(more)?;
        texts.reserve(more)?;
        starts.reserve(more)
    }

    /// Adds a step after the others.
    fn add(&mut self, step: StepUid, values: Values<A>)
        requires room { values_len values ≤ self.old.spare }
        requires absent { has_step step self.old.steps ≡ false }
        ensures offset { self.new.offset ≡ self.old.offset }
        ensures steps { self.new.steps ≡ self.old.steps ++ (step, values) ∷ [] }
        ensures spare { self.old.spare ≤ self.new.spare + values_len values }
    {
        let Index {
            slots,
            steps,
            texts,
            starts,
            ..
        } = self;
        let place = slots.len() as u32;
        steps.put(step_number(step.as_bytes()), place);
        put_texts(texts, values.texts(), place);
        put_start(starts, values.start(), place);
        slots.push(IndexedStep { step, values });
    }

    /// Stores the values of a step in place of those that it has, or else after those of the other steps. There must be
    /// room for them.
    pub fn put(&mut self, step: StepUid, values: Values<A>)
        requires { values_len values ≤ self.old.spare }
        ensures offset { self.new.offset ≡ self.old.offset }
        ensures steps { self.new.steps ≡ put_values step values self.old.steps }
    {
        let Some(place) = place_of(&self.steps, &self.slots, step) else {
            self.add(step, values);
            return;
        };
        let Index {
            slots,
            texts,
            starts,
            ..
        } = self;
        let Some(indexed) = slots.get(place) else {
            unreachable!();
        };
        exchange_values(texts, starts, &indexed.values, &values, place);
        slots.replace(place, IndexedStep { step, values });
    }

    /// Removes a step from the index.
    pub fn remove(&mut self, step: StepUid)
        ensures offset { self.new.offset ≡ self.old.offset }
        ensures steps { self.new.steps ≡ without_uid step self.old.steps }
        ensures spare { self.old.spare ≤ self.new.spare }
    {
        let Index {
            slots,
            steps,
            texts,
            starts,
            ..
        } = self;
        let Some(place) = place_of(steps, slots, step) else {
            return;
        };
        let Some(indexed) = slots.get(place) else {
            unreachable!();
        };
        take_values(texts, starts, &indexed.values, place);
        steps.take(step_number(step.as_bytes()), place);
        slots.empty(place);
    }

    /// Returns the class of a query: the steps that have its first indexed key, each once, in order of creation. None if
    /// it has no indexed key: its class is every step then.
    ///
    /// # Errors
    ///
    /// If memory runs out.
    pub fn candidates(&self, keys: &Keys<A>) -> Result<Option<Vec<StepUid, A>>, AllocError>
        ensures { IfOk result (λ found. MatchOption found (first_key self.now.offset keys.now ≡ all) (λ steps. steps.items ≡ indexed_class (first_key self.now.offset keys.now) self.now.steps)) }
    {
        let first = keys.first(self.offset);
        match &first {
            First::Value(tag, text) => {
                let number = text_number(*tag, text);
                let found = look_up(self.alloc, &self.slots, &self.texts, number, number, &first)?;
                Ok(Some(found))
            }
            First::Start(span) => {
                let low = low_number(span.least);
                let high = high_number(span.greatest);
                let found = look_up(self.alloc, &self.slots, &self.starts, low, high, &first)?;
                Ok(Some(found))
            }
            First::All => Ok(None),
        }
    }
}
