//! The steps that a compact history keeps.

ghost use Rattle.std.specs.Prelude.{◌≡◌, ◌||◌, ℕ, List, length, IfOk, IfErr, OnOk};
ghost use Rattle.std.specs.Str.{bytes_eq};
ghost use Rattle.ups_match.specs.Uids.{has_uid};
ghost use Rattle.ups_life.specs.Watching.{is_among};
ghost use Rattle.ups_compact.specs.Compacting.{is_left, left};

use std::alloc::{AllocError, Allocator};
use std::collections::BTreeSet;
use std::marker::Model;
use ups_life::{Entry, Request, StepUid};

/// The steps that a compact history keeps, with their UIDs in order, so that one is found without going through all of
/// them. A contract sees the list of the steps.
pub struct KeptSteps<A: Allocator + Copy> {
    steps: Vec<StepUid, A>,
    uids: BTreeSet<Vec<u8, A>, A>,
}

impl<A: Allocator + Copy> Drop for KeptSteps<A> {
    fn drop(self) {
        let KeptSteps { steps: _, uids: _ } = self;
    }
}

impl<A: Allocator + Copy> Model for KeptSteps<A> {
    ghost use Rattle.std.specs.Prelude.{◌≡◌, ℕ, List};
    ghost use Rattle.ups_match.specs.Uids.{has_uid};
    ghost use Rattle.ups_life.specs.Watching.{is_among};

    ghost Value = { List (List ℕ) };

    ghost view = { λ k. k.steps.items };

    ghost invariant = { λ k. (uid : List ℕ) → has_uid k.uids uid ≡ is_among uid k.steps.items };
}

impl<A: Allocator + Copy> KeptSteps<A> {
    /// Returns the kept steps, as `Manager::held` lists them.
    ///
    /// # Errors
    ///
    /// If memory runs out.
    pub fn of(alloc: A, steps: Vec<StepUid, A>) -> Result<KeptSteps<A>, AllocError>
        ensures { IfOk result (λ kept. kept ≡ steps.items) }
    {
        let uids = uids_of(alloc, steps.as_slice())?;
        Ok(KeptSteps { steps, uids })
    }

    /// Returns whether a step is one of them.
    pub fn has(&self, step: StepUid) -> bool
        ensures { result ≡ is_among step self.now }
    {
        self.uids.contains(step.as_bytes())
    }

    /// Returns whether a request stays in a compact history: it names one of the steps, or none, and is neither an
    /// acknowledgment nor a sweep.
    pub fn is_left(&self, request: &Request<A>) -> bool
        ensures { result ≡ is_left self.now request.now }
    {
        match request {
            Request::Ack { .. } | Request::Sweep => false,
            _ => match request.named_step() {
                Some(step) => self.has(step),
                None => true,
            },
        }
    }

    /// Returns the number of these entries that stay in a compact history.
    pub fn count_left(&self, entries: &[Entry<A>]) -> usize
        ensures { result ≡ length (left self.now entries.now) }
    {
        entries
            .iter()
            .filter(|entry| self.is_left(&entry.request))
            .count()
    }
}

/// The steps that a compact history is to keep, whose UIDs are put in order a few at a time. A contract sees the list of
/// the steps.
#[derive(Drop)]
pub struct StepSorting<A: Allocator + Copy> {
    steps: Vec<StepUid, A>,
    uids: BTreeSet<Vec<u8, A>, A>,
    /// The number of steps, the first ones, whose UIDs are in order.
    sorted: usize,
}

impl<A: Allocator + Copy> Model for StepSorting<A> {
    ghost use Rattle.std.specs.Prelude.{ℕ, List};
    ghost use Rattle.ups_compact.specs.Sorting.{AreSorted};

    ghost Value = { List (List ℕ) };

    ghost view = { λ k. k.steps.items };

    ghost invariant = { λ k. AreSorted k.uids k.sorted k.steps.items };
}

impl<A: Allocator + Copy> StepSorting<A> {
    /// Returns the steps, as `Manager::held` lists them, of which no UID is put in order yet.
    pub fn new(alloc: A, steps: Vec<StepUid, A>) -> StepSorting<A>
        ensures { result ≡ steps.items }
    {
        StepSorting {
            steps,
            uids: BTreeSet::new(alloc),
            sorted: 0,
        }
    }

    /// Puts the UIDs of the next steps in order, at most `most`.
    ///
    /// # Errors
    ///
    /// If memory runs out.
    pub fn sort_on(self, alloc: A, most: usize) -> Result<StepSorting<A>, AllocError>
        ensures { IfOk result (λ next. next ≡ self) }
    {
        let StepSorting {
            steps,
            mut uids,
            sorted,
        } = self;
        let (_, rest) = steps.as_slice().split_at(sorted);
        let count = most.min(rest.len());
        put_uids(alloc, &mut uids, &rest[..count])?;
        let sorted = sorted + count;
        Ok(StepSorting {
            steps,
            uids,
            sorted,
        })
    }

    /// Returns the kept steps.
    ///
    /// # Errors
    ///
    /// The same steps, if not all UIDs are in order.
    pub fn finish(self) -> Result<KeptSteps<A>, StepSorting<A>>
        ensures kept { IfOk result (λ kept. kept ≡ self) }
        ensures same { IfErr result (λ same. same ≡ self) }
    {
        if self.sorted < self.steps.len() {
            return Err(self);
        }
        let StepSorting { steps, uids, .. } = self;
        Ok(KeptSteps { steps, uids })
    }
}

/// Returns the UIDs of steps, in order.
///
/// Errors: if memory runs out.
fn uids_of<A: Allocator + Copy>(
    alloc: A,
    steps: &[StepUid],
) -> Result<BTreeSet<Vec<u8, A>, A>, AllocError>
    ensures { IfOk result (λ uids. (uid : List ℕ) → has_uid uids uid ≡ is_among uid steps.now) }
{
    let mut uids = BTreeSet::new(alloc);
    put_uids(alloc, &mut uids, steps)?;
    Ok(uids)
}

/// Inserts the UIDs of steps that are not there yet.
///
/// Errors: if memory runs out.
fn put_uids<A: Allocator + Copy>(
    alloc: A,
    uids: &mut BTreeSet<Vec<u8, A>, A>,
    steps: &[StepUid],
) -> Result<(), AllocError>
    ensures { OnOk result ((uid : List ℕ) → has_uid uids.new uid ≡ (is_among uid steps.now || has_uid uids.old uid)) }
{
    for step in steps {
        put_uid(alloc, uids, step.as_bytes())?;
    }
    Ok(())
}

/// Inserts a UID if it is not there yet.
///
/// Errors: if memory runs out.
fn put_uid<A: Allocator + Copy>(
    alloc: A,
    uids: &mut BTreeSet<Vec<u8, A>, A>,
    uid: &[u8],
) -> Result<(), AllocError>
    ensures { OnOk result ((other : List ℕ) → has_uid uids.new other ≡ (bytes_eq uid.now other || has_uid uids.old other)) }
{
    if !uids.contains(uid) {
        uids.insert(Vec::from_slice(alloc, uid)?)?;
    }
    Ok(())
}
