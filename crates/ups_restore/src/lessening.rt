//! The shifts between a history and its compaction, and the records that go on with it: their numbers of events are less.

ghost use Rattle.std.specs.Prelude.{◌≡◌, ◌-◌, ◌++◌, [], ◌∷◌, ℕ, List, All, length, map, take, drop, IfSome, IfOk, IfErr, OnOk};
ghost use Rattle.ups_life.specs.Events.{events};
ghost use Rattle.ups_life.specs.Steps.{past};
ghost use Rattle.ups_journal.specs.Columns.{recorded};
ghost use Rattle.ups_journal.specs.Writable.{IsWritableEntry};
ghost use Rattle.ups_compact.specs.Shifting.{shift};
ghost use Rattle.ups_compact.specs.Shifts.{less_by};
ghost use Rattle.ups_restore.specs.Compacting.{IsNoRefusal};
ghost use Rattle.ups_restore.specs.Lessening.{event_less, columns_less, lessened};

use crate::fault::CompactFault;
use crate::survey::{EventCount, Survey};
use std::alloc::{AllocError, Global};
use ups_compact::Shifts;
use ups_journal::{Columns, Record, RecordingFault, record_of};
use ups_life::Entry;
use ups_manager::Manager;
use ups_pdu::Bytes;

/// Returns the number of an event, made less, if there is one.
fn event_less(less: u64, event: Option<u64>) -> Option<u64>
    ensures { result ≡ event_less less event }
{
    match event {
        Some(number) => Some(number.saturating_sub(less)),
        None => None,
    }
}

/// Returns a copy of the bytes of a column.
///
/// Errors: if memory runs out.
fn copy_of(
    alloc: Global,
    column: &Option<Bytes<Global>>,
) -> Result<Option<Bytes<Global>>, AllocError>
    ensures { IfOk result (λ copy. copy ≡ column.now) }
{
    match column {
        Some(bytes) => Ok(Some(Bytes::copy_of(alloc, bytes.as_slice())?)),
        None => Ok(None),
    }
}

/// Returns a copy of the columns of a request, with the number of the event made less.
///
/// Errors: if memory runs out.
fn columns_less(
    alloc: Global,
    less: u64,
    columns: &Columns<Global>,
) -> Result<Columns<Global>, AllocError>
    ensures { IfOk result (λ copy. copy ≡ columns_less less columns.now) }
{
    Ok(Columns {
        operation: columns.operation,
        instance: copy_of(alloc, &columns.instance)?,
        transaction_uid: copy_of(alloc, &columns.transaction_uid)?,
        state: columns.state,
        receiver: copy_of(alloc, &columns.receiver)?,
        deletion_lock: columns.deletion_lock,
        event: event_less(less, columns.event),
        utc_offset: columns.utc_offset,
        attributes: copy_of(alloc, &columns.attributes)?,
    })
}

/// Returns a copy of a record, in which the number of the event, which an acknowledgement has, is less by the shift of the
/// watcher that acknowledged it (PS3.4 CC.2.4).
///
/// # Errors
///
/// If memory runs out.
pub fn lessen(
    alloc: Global,
    shifts: &Shifts<Global>,
    stored: &Record<Global>,
) -> Result<Record<Global>, AllocError>
    ensures { IfOk result (λ copy. copy ≡ lessened (less_by shifts.now) stored.now) }
{
    let less = shifts.less_for_title(stored.title.as_slice());
    Ok(Record {
        caller: stored.caller,
        title: Bytes::copy_of(alloc, stored.title.as_slice())?,
        moment: stored.moment,
        request: columns_less(alloc, less, &stored.request)?,
    })
}

/// Adds a record.
///
/// Errors: if memory runs out.
fn add_record(
    records: &mut Vec<Record<Global>, Global>,
    stored: Record<Global>,
) -> Result<(), AllocError>
    ensures { OnOk result (records.new.items ≡ records.old.items ++ stored ∷ []) }
{
    records.push(stored)?;
    Ok(())
}

/// Returns copies of records, made less as [`lessen`] makes each.
///
/// # Errors
///
/// If memory runs out.
pub fn lessen_all(
    alloc: Global,
    shifts: &Shifts<Global>,
    records: &[Record<Global>],
) -> Result<Vec<Record<Global>, Global>, AllocError>
    ensures { IfOk result (λ v. v.items ≡ map (lessened (less_by shifts.now)) records.now) }
{
    let mut copies = Vec::with_capacity(alloc, records.len())?;
    for stored in records {
        let copy = lessen(alloc, shifts, stored)?;
        add_record(&mut copies, copy)?;
    }
    Ok(copies)
}

/// Returns how many more events of a watcher were counted than were made for it in a fresh manager. It takes no memory.
fn shift_of(count: &EventCount, fresh: &Manager<Global>) -> u64
    ensures { result ≡ count.now.made - length (events fresh.now.settings (past fresh.now.history) count.now.ae) }
{
    count.made.saturating_sub(fresh.events_made(count.ae))
}

/// Returns the shifts from the history of a manager surveyed to a shorter one that stands for it: by how much the numbers
/// of the events of each watcher are less in the shorter one (PS3.4 CC.2.4). That of an application entity that is no peer
/// is 0.
///
/// # Errors
///
/// If memory runs out.
pub fn shifts_between(
    alloc: Global,
    survey: &Survey,
    fresh: &Manager<Global>,
) -> Result<Shifts<Global>, AllocError>
    requires { fresh.now.settings ≡ survey.now.settings }
    ensures { IfOk result (λ shifts. (w : List ℕ) → less_by shifts w ≡ shift survey.now.settings (past fresh.now.history) (past survey.now.history) w) }
{
    let _count = survey.entries();
    let counts = survey.counts();
    let mut shifts = Shifts::none(alloc);
    for count in counts {
        let less = shift_of(count, fresh);
        shifts.push(count.ae, less)?;
    }
    Ok(shifts)
}

/// Returns the first entries, at most `most`.
fn part(entries: &[Entry<Global>], most: usize) -> &[Entry<Global>]
    ensures { result.now ≡ take most entries.now }
{
    if entries.len() <= most {
        return entries;
    }
    &entries[..most]
}

/// Returns the entries of a manager's history from the index `from` on, or None if some of them have left memory.
fn history_from(manager: &Manager<Global>, from: usize) -> Option<&[Entry<Global>]>
    ensures { IfSome result (λ s. s.now ≡ drop from manager.now.history) }
{
    let recent = manager.history();
    let gone = manager.entries().saturating_sub(recent.len());
    let at = from.checked_sub(gone)?;
    if recent.len() <= at {
        return Some(&[]);
    }
    Some(&recent[at..])
}

/// Returns the records of entries, which then have records that can be read back.
///
/// Errors: those of the first entry that can't be recorded; lack of memory.
fn records_of(
    alloc: Global,
    entries: &[Entry<Global>],
) -> Result<Vec<Record<Global>, Global>, RecordingFault>
    ensures records { IfOk result (λ v. v.items ≡ map recorded entries.now) }
    ensures writable { IfOk result (λ v. All (λ e. IsWritableEntry e) entries.now) }
{
    let mut records = Vec::with_capacity(alloc, entries.len())?;
    for entry in entries {
        let stored = record_of(alloc, entry)?;
        add_record(&mut records, stored)?;
    }
    Ok(records)
}

/// Returns the records of the entries of a manager's history from the index `from` on, at most `most`. Each is read back as
/// its entry.
///
/// # Errors
///
/// `Recording` at the first of them that has no record, if an entry has left memory, or if memory runs out.
pub fn records_from(
    alloc: Global,
    manager: &Manager<Global>,
    from: usize,
    most: usize,
) -> Result<Vec<Record<Global>, Global>, CompactFault>
    ensures records { IfOk result (λ v. v.items ≡ map recorded (take most (drop from manager.now.history))) }
    ensures writable { IfOk result (λ v. All (λ e. IsWritableEntry e) (take most (drop from manager.now.history))) }
    ensures only { IfErr result IsNoRefusal }
{
    let Some(history) = history_from(manager, from) else {
        return Err(CompactFault::Recording(RecordingFault::Gone));
    };
    let records = records_of(alloc, part(history, most))?;
    Ok(records)
}
