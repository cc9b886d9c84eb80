//! The list of the final steps on which no peer has a deletion lock.

ghost use Rattle.std.specs.Prelude.{◌≡◌, ◌<◌, ◌≤◌, ◌+◌, ◌++◌, ℕ, [], true, false, length, IfOk, IsOk, OnOk, MatchOption, slice_index_or};
ghost use Rattle.std.specs.Fn.{CalledAt};
ghost use Rattle.std.specs.List.Retain.{IsFiltered};
ghost use Rattle.std.specs.VecDeque.{deque_len, deque_capacity};
ghost use Rattle.std.specs.List.Sorted.{IsNonDecreasingBy, IsPermutation};
ghost use Rattle.ups_keep.specs.Due.{DueView, inserted, without_final, due_until, later_than, is_same_final, is_any, NoneSame, moment_of};

use std::alloc::{AllocError, Allocator};
use std::collections::VecDeque;
use std::marker::Model;
use ups_life::StepUid;

/// The greatest number of steps that are merged one by one, each of which moves up to half of the list. More are sorted
/// together with it, which moves every step about as often as the length of the list has binary digits.
const MAX_INSERTED: usize = 16;

/// A step whose state is COMPLETED or CANCELED, and the time since when.
#[derive(Clone, Copy)]
pub struct Final {
    /// The time at which its state became final, in seconds since 1970-01-01 UTC.
    pub moment: u64,
    /// The UID of the step.
    pub step: StepUid,
}

/// The final steps on which no peer has a deletion lock (PS3.4 CC.2.3), in the order of the moments at which they
/// became final. A sweep removes the first of them; the retention time is the profile's own, and the caller computes up
/// to which moment it sweeps.
///
/// A contract sees this list, and the number of further steps for which there is room. Only `reserve` makes room:
/// adding and removing steps, a merge and a sweep need no memory, and can't fail.
#[derive(Drop)]
pub struct Due<A: Allocator + Copy> {
    steps: VecDeque<Final, A>,
}

impl<A: Allocator + Copy> Model for Due<A> {
    ghost use Rattle.std.specs.Prelude.{◌-◌};
    ghost use Rattle.std.specs.VecDeque.{deque_len, deque_capacity};
    ghost use Rattle.std.specs.List.Sorted.{IsNonDecreasingBy};
    ghost use Rattle.ups_keep.specs.Due.{DueView, moment_of};

    ghost Value = { DueView };

    ghost view = { λ d. record { steps = d.steps.items; spare = deque_capacity d.steps - deque_len d.steps } };

    ghost invariant = { λ d. IsNonDecreasingBy moment_of d.steps.items };
}

/// Returns the index after all steps that became final no later than a moment.
fn place_behind<A: Allocator + Copy>(steps: &VecDeque<Final, A>, moment: u64) -> usize
    requires { IsNonDecreasingBy moment_of steps.now.items }
    ensures within { result ≤ length steps.now.items }
    ensures before { (k : ℕ) → (d : Final) → k < result → (slice_index_or steps.now.items k d).moment ≤ moment }
    ensures after { (k : ℕ) → (d : Final) → result ≤ k → k < length steps.now.items → moment < (slice_index_or steps.now.items k d).moment }
{
    steps.partition_point(|step| step.moment <= moment)
}

/// Returns whether both are the same step, final since the same moment.
fn is_same(one: &Final, other: &Final) -> bool
    ensures { result ≡ is_same_final one.now other.now }
{
    one.moment == other.moment && one.step.as_bytes() == other.step.as_bytes()
}

/// Returns whether the first step became final no later than a moment.
fn is_any<A: Allocator + Copy>(steps: &VecDeque<Final, A>, moment: u64) -> bool
    ensures { result ≡ is_any moment steps.now.items }
{
    match steps.front() {
        Some(first) => first.moment <= moment,
        None => false,
    }
}

/// Removes the steps that became final no later than a moment. They come first, so the others aren't moved.
fn drop_up_to<A: Allocator + Copy>(steps: &mut VecDeque<Final, A>, moment: u64)
    requires { IsNonDecreasingBy moment_of steps.old.items }
    ensures steps { steps.new.items ≡ later_than moment steps.old.items }
    ensures sorted { IsNonDecreasingBy moment_of steps.new.items }
    ensures len { deque_len steps.new ≤ deque_len steps.old }
    ensures capacity { deque_capacity steps.new ≡ deque_capacity steps.old }
{
    while is_any(steps, moment) {
        steps.pop_front();
    }
}

/// Returns the steps that became final no later than a moment.
///
/// Errors: if memory runs out.
fn list_up_to<A: Allocator + Copy>(
    alloc: A,
    steps: &VecDeque<Final, A>,
    moment: u64,
) -> Result<Vec<Final, A>, AllocError>
    requires { IsNonDecreasingBy moment_of steps.now.items }
    ensures { IfOk result (λ v. v.items ≡ due_until moment steps.now.items) }
{
    let end = place_behind(steps, moment);
    steps.range(..end).copied().collect(alloc)
}

/// Returns the first index of a step with its moment, or None if the list doesn't contain it. Only the steps of that
/// moment are compared with it.
fn place_of<A: Allocator + Copy>(steps: &VecDeque<Final, A>, step: &Final) -> Option<usize>
    requires { IsNonDecreasingBy moment_of steps.now.items }
    ensures { MatchOption result (NoneSame step.now (length steps.now.items) steps.now.items) (λ k. (k < length steps.now.items) × NoneSame step.now k steps.now.items × ((d : Final) → is_same_final step.now (slice_index_or steps.now.items k d) ≡ true)) }
{
    let start = steps.partition_point(|other| other.moment < step.moment);
    for place in start..steps.len() {
        if is_same(step, &steps[place]) {
            return Some(place);
        }
        if steps[place].moment > step.moment {
            return None;
        }
    }
    None
}

/// Removes a step, if the list contains it with its moment.
fn take_from<A: Allocator + Copy>(steps: &mut VecDeque<Final, A>, step: &Final)
    requires { IsNonDecreasingBy moment_of steps.old.items }
    ensures steps { steps.new.items ≡ without_final step.now steps.old.items }
    ensures sorted { IsNonDecreasingBy moment_of steps.new.items }
    ensures len { deque_len steps.new ≤ deque_len steps.old }
    ensures capacity { deque_capacity steps.new ≡ deque_capacity steps.old }
{
    if let Some(place) = place_of(steps, step) {
        steps.remove(place);
    }
}

/// Inserts a step after those of no later moment. There is room for it.
fn insert_into<A: Allocator + Copy>(steps: &mut VecDeque<Final, A>, step: Final)
    requires order { IsNonDecreasingBy moment_of steps.old.items }
    requires room { deque_len steps.old < deque_capacity steps.old }
    ensures steps { steps.new.items ≡ inserted step steps.old.items }
    ensures sorted { IsNonDecreasingBy moment_of steps.new.items }
    ensures len { deque_len steps.new ≡ deque_len steps.old + 1 }
    ensures capacity { deque_capacity steps.old ≤ deque_capacity steps.new }
{
    let place = place_behind(steps, step.moment);
    let Ok(_) = steps.insert(place, step) else {
        unreachable!();
    };
}

/// Inserts steps one by one. There is room for them.
fn insert_each<A: Allocator + Copy>(steps: &mut VecDeque<Final, A>, more: &[Final])
    requires order { IsNonDecreasingBy moment_of steps.old.items }
    requires room { deque_len steps.old + length more.now ≤ deque_capacity steps.old }
    ensures steps { IsPermutation (steps.old.items ++ more.now) steps.new.items }
    ensures sorted { IsNonDecreasingBy moment_of steps.new.items }
    ensures len { deque_len steps.new ≡ deque_len steps.old + length more.now }
    ensures capacity { deque_capacity steps.old ≤ deque_capacity steps.new }
{
    for step in more {
        insert_into(steps, *step);
    }
}

/// Appends steps to the list, whatever their moments. There is room for them.
fn push_all<A: Allocator + Copy>(steps: &mut VecDeque<Final, A>, more: &[Final])
    requires { deque_len steps.old + length more.now ≤ deque_capacity steps.old }
    ensures steps { steps.new.items ≡ steps.old.items ++ more.now }
    ensures len { deque_len steps.new ≡ deque_len steps.old + length more.now }
    ensures capacity { deque_capacity steps.new ≡ deque_capacity steps.old }
{
    for step in more {
        steps.push_back_reserved(*step);
    }
}

/// Sorts the list by moment, in place: a sort that keeps the order of equal moments would take memory.
fn sort<A: Allocator + Copy>(steps: &mut VecDeque<Final, A>)
    ensures steps { IsPermutation steps.old.items steps.new.items }
    ensures sorted { IsNonDecreasingBy moment_of steps.new.items }
    ensures len { deque_len steps.new ≡ deque_len steps.old }
    ensures capacity { deque_capacity steps.new ≡ deque_capacity steps.old }
{
    steps
        .make_contiguous()
        .sort_unstable_by_key(|step| step.moment);
}

/// Merges steps into the list: a few one by one, many by sorting the whole. There is room for them.
fn merge_into<A: Allocator + Copy>(steps: &mut VecDeque<Final, A>, more: &[Final])
    requires order { IsNonDecreasingBy moment_of steps.old.items }
    requires room { deque_len steps.old + length more.now ≤ deque_capacity steps.old }
    ensures steps { IsPermutation (steps.old.items ++ more.now) steps.new.items }
    ensures sorted { IsNonDecreasingBy moment_of steps.new.items }
    ensures len { deque_len steps.new ≡ deque_len steps.old + length more.now }
    ensures capacity { deque_capacity steps.old ≤ deque_capacity steps.new }
{
    if more.len() <= MAX_INSERTED {
        insert_each(steps, more);
    } else {
        push_all(steps, more);
        sort(steps);
    }
}

impl<A: Allocator + Copy> Due<A> {
    /// Returns an empty list. `reserve` makes room.
    pub fn new(alloc: A) -> Due<A>
        ensures { result.steps ≡ [] }
    {
        Due {
            steps: VecDeque::new(alloc),
        }
    }

    /// Makes room for `more` further steps.
    ///
    /// # Errors
    ///
    /// If memory runs out, but never if there is that room already. The list stays the same, and there is no less room.
    pub fn reserve(&mut self, more: usize) -> Result<(), AllocError>
        ensures room { OnOk result (more ≤ self.new.spare) }
        ensures succeeds { more ≤ self.old.spare → IsOk result }
        ensures keeps { self.old.spare ≤ self.new.spare }
        ensures steps { self.new.steps ≡ self.old.steps }
    {
        self.steps.reserve(more)
    }

    /// Returns the number of further steps for which there is room.
    pub fn spare(&self) -> usize
        ensures { result ≡ self.now.spare }
    {
        self.steps.capacity() - self.steps.len()
    }

    /// Adds a step that has become final and that no peer locks, or whose last deletion lock has ended (PS3.4 CC.2.3).
    /// It comes after those of its moment, and uses the room of one step.
    pub fn add(&mut self, step: Final)
        requires room { 0 < self.old.spare }
        ensures steps { self.new.steps ≡ inserted step self.old.steps }
        ensures spare { self.old.spare ≤ self.new.spare + 1 }
    {
        insert_into(&mut self.steps, step);
    }

    /// Removes a step on which a peer has got a deletion lock (PS3.4 CC.2.3). If the list doesn't contain it with this
    /// moment, nothing changes.
    pub fn take(&mut self, step: &Final)
        ensures steps { self.new.steps ≡ without_final step.now self.old.steps }
        ensures spare { self.old.spare ≤ self.new.spare }
    {
        take_from(&mut self.steps, step);
    }

    /// Adds many steps at once, such as those whose last deletion locks end with all subscriptions of a peer (PS3.4
    /// CC.2.3). Each uses the room of one step.
    pub fn merge(&mut self, more: &[Final])
        requires room { length more.now ≤ self.old.spare }
        ensures steps { IsPermutation (self.old.steps ++ more.now) self.new.steps }
        ensures sorted { IsNonDecreasingBy moment_of self.new.steps }
        ensures spare { self.old.spare ≤ self.new.spare + length more.now }
    {
        merge_into(&mut self.steps, more);
    }

    /// Keeps the steps that pass a test, in their order, and removes the others, such as those on which a global
    /// subscription has put deletion locks (PS3.4 CC.2.3). It walks the list once.
    pub fn retain<F: FnMut(&Final) -> bool>(&mut self, keep: F)
        requires { F.IsAlwaysCallable keep }
        ensures steps { IsFiltered (CalledAt F.FnMut) keep self.old.steps self.new.steps }
        ensures spare { self.old.spare ≤ self.new.spare }
    {
        self.steps.retain(keep);
    }

    /// Returns whether a step became final no later than a moment, so that a sweep up to it would remove one. Only the
    /// first step is looked at.
    pub fn is_any(&self, moment: u64) -> bool
        ensures first { result ≡ is_any moment self.now.steps }
        ensures none { result ≡ false → due_until moment self.now.steps ≡ [] }
    {
        is_any(&self.steps, moment)
    }

    /// Returns the steps that became final no later than a moment, in the order of the list: those that a sweep up to
    /// it removes.
    ///
    /// # Errors
    ///
    /// If memory runs out.
    pub fn up_to(&self, alloc: A, moment: u64) -> Result<Vec<Final, A>, AllocError>
        ensures { IfOk result (λ v. v.items ≡ due_until moment self.now.steps) }
    {
        list_up_to(alloc, &self.steps, moment)
    }

    /// Removes the steps that became final no later than a moment, and keeps the others.
    pub fn sweep(&mut self, moment: u64)
        ensures steps { self.new.steps ≡ later_than moment self.old.steps }
        ensures spare { self.old.spare ≤ self.new.spare }
    {
        drop_up_to(&mut self.steps, moment);
    }
}
