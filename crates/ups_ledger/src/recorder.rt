//! The collection of records from a history.

ghost use Rattle.std.specs.Prelude.{◌≡◌, [], ◌∷◌, ◌++◌, map, take, drop, IfOk, OnOk};
ghost use Rattle.ups_journal.specs.Columns.{recorded};
ghost use Rattle.ups_ledger.specs.Keeping.{TakesDown};

use std::alloc::{AllocError, Allocator};
use ups_history::History;
use ups_journal::{Record, RecordingFault, record_of};
use ups_life::Entry;
use ups_service::Observer;

/// Collects the records of a history, starting at one of its entries.
#[derive(Drop)]
pub struct Recorder<A: Allocator + Copy> {
    alloc: A,
    from: usize,
    most: usize,
    records: Result<Vec<Record<A>, A>, RecordingFault>,
}

/// Returns the first entries, at most `most`.
fn part<A: Allocator + Copy>(entries: &[Entry<A>], most: usize) -> &[Entry<A>]
    ensures { result.now ≡ take most entries.now }
{
    if entries.len() <= most {
        return entries;
    }
    &entries[..most]
}

/// Returns the entries from the index `from` on, at most `most`.
fn part_from<A: Allocator + Copy>(entries: &[Entry<A>], from: usize, most: usize) -> &[Entry<A>]
    ensures { result.now ≡ take most (drop from entries.now) }
{
    if entries.len() <= from {
        return &[];
    }
    part(&entries[from..], most)
}

/// Adds a record.
///
/// Errors: lack of memory.
fn add_record<A: Allocator + Copy>(
    records: &mut Vec<Record<A>, A>,
    stored: Record<A>,
) -> Result<(), AllocError>
    ensures { OnOk result (records.new.items ≡ records.old.items ++ stored ∷ []) }
{
    records.push(stored)?;
    Ok(())
}

/// Returns the records of entries.
///
/// Errors: those of an entry that can't be recorded; Memory.
fn records_of<A: Allocator + Copy>(
    alloc: A,
    entries: &[Entry<A>],
) -> Result<Vec<Record<A>, A>, RecordingFault>
    ensures { IfOk result (λ v. v.items ≡ map recorded entries.now) }
{
    let mut records = Vec::with_capacity(alloc, entries.len())?;
    for entry in entries {
        let stored = record_of(alloc, entry)?;
        add_record(&mut records, stored)?;
    }
    Ok(records)
}

/// Returns the records of those entries of a history that stand at the index `from` and behind it, at most `most`.
///
/// Errors: Gone if one of them has left memory; those of an entry that can't be recorded; Memory.
fn records_from<A: Allocator + Copy>(
    alloc: A,
    history: &History<A>,
    from: usize,
    most: usize,
) -> Result<Vec<Record<A>, A>, RecordingFault>
    ensures { IfOk result (λ v. v.items ≡ map recorded (take most (drop from history.now.entries))) }
{
    match history.since(from) {
        Some(entries) => records_of(alloc, part(entries, most)),
        None => Err(RecordingFault::Gone),
    }
}

impl<A: Allocator + Copy> Recorder<A> {
    /// Returns a recorder of at most `most` records, starting at the entry `from`, with the memory of `alloc`.
    pub fn new(alloc: A, from: usize, most: usize) -> Recorder<A>
        ensures { (result.from ≡ from) × (result.most ≡ most) }
    {
        Recorder {
            alloc,
            from,
            most,
            records: Ok(Vec::new(alloc)),
        }
    }

    /// Returns the collected records.
    ///
    /// # Errors
    ///
    /// Gone if an entry has left memory; those of an entry that can't be recorded; Memory.
    pub fn into_records(self) -> Result<Vec<Record<A>, A>, RecordingFault>
        ensures { result ≡ self.records }
    {
        let Recorder { records, .. } = self;
        records
    }
}

/// Returns the records of those entries of a list that stand at the index `from` and behind it, at most `most`.
///
/// # Errors
///
/// Those of an entry that can't be recorded; Memory.
pub fn group_of<A: Allocator + Copy>(
    alloc: A,
    entries: &[Entry<A>],
    from: usize,
    most: usize,
) -> Result<Vec<Record<A>, A>, RecordingFault>
    ensures { IfOk result (λ group. group.items ≡ map recorded (take most (drop from entries.now))) }
{
    records_of(alloc, part_from(entries, from, most))
}

impl<A: Allocator + Copy> Observer<A> for Recorder<A> {
    ghost observed = { TakesDown };

    fn observe(&mut self, history: &History<A>)
        ensures { TakesDown self.old history.now.entries self.new }
    {
        self.records = records_from(self.alloc, history, self.from, self.most);
    }
}
