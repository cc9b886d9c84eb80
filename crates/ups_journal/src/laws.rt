//! The laws of records, each the contract of a function.

ghost use Rattle.std.specs.Prelude.{◌≡◌, ◌≢◌, IfOk, IfErr};
ghost use Rattle.ups_journal.specs.declared.fault.RecordingFault.TheVariants.{Memory};
ghost use Rattle.ups_journal.specs.Writable.{IsWritableEntry};

use crate::fault::RecordingFault;
use crate::reading::entry_of;
use crate::recording::record_of;
use std::alloc::Allocator;
use ups_life::Entry;

/// Records an entry and reads it back as the same entry.
///
/// # Errors
///
/// Those of [`record_of`]; for an entry that has a record, only `Memory`.
pub fn what_is_recorded_is_read_again<A: Allocator + Copy>(
    alloc: A,
    entry: &Entry<A>,
) -> Result<Entry<A>, RecordingFault>
    ensures again { IfOk result (λ e. e ≡ entry.now) }
    ensures fault { IfErr result (λ f. f ≢ Memory → IsWritableEntry entry.now → ⊥) }
{
    let stored = record_of(alloc, entry)?;
    match entry_of(alloc, &stored) {
        Ok(again) => Ok(again),
        Err(_) => Err(RecordingFault::Memory),
    }
}
