//! Data sets as columns, in Explicit VR Little Endian.

ghost use Rattle.std.specs.Prelude.{◌≡◌, ◌≢◌, List, IfOk, IfErr, MatchResult};
ghost use Rattle.ups_pdu.specs.declared.syntax.TransferSyntax.TheVariants.{Explicit};
ghost use Rattle.ups_dataset.specs.Data.{El};
ghost use Rattle.ups_dataset.specs.Written.{written};
ghost use Rattle.ups_journal.specs.Writable.{IsStored};
ghost use Rattle.ups_dataset.specs.declared.fault.SetFault.TheVariants as reading;
ghost use Rattle.ups_journal.specs.declared.fault.RecordFault.TheVariants as faults;
ghost use Rattle.ups_journal.specs.declared.fault.RecordingFault.TheVariants as recording;

use crate::fault::{RecordFault, RecordingFault};
use std::alloc::Allocator;
use ups_dataset::{DataSet, SetFault, read_set, write_set};
use ups_pdu::{Bytes, TransferSyntax};

/// Writes a set as bytes, which are read back as the same set.
///
/// Errors: TooLarge if there are 2^32 bytes or more; Memory.
pub(crate) fn written_set<A: Allocator + Copy>(
    alloc: A,
    set: &DataSet<A>,
) -> Result<Bytes<A>, RecordingFault>
    ensures written { IfOk result (λ b. (b ≡ written Explicit set.now) × IsStored set.now) }
    ensures fault { IfErr result (λ f. f ≢ recording.Memory → IsStored set.now → ⊥) }
{
    if set.size() > u64::from(u32::MAX) {
        return Err(RecordingFault::TooLarge);
    }
    let bytes = write_set(alloc, TransferSyntax::Explicit, set)?;
    Ok(Bytes::from_vec(bytes))
}

/// Returns the fault of a record for a fault in reading its set.
fn set_fault(fault: SetFault) -> RecordFault
    ensures { fault ≡ reading.Memory → result ≡ faults.Memory }
{
    match fault {
        SetFault::Memory => RecordFault::Memory,
        _ => RecordFault::BadSet,
    }
}

/// Reads the set that is written as these bytes.
///
/// Errors: BadSet if there is none; Memory.
pub(crate) fn stored_set<A: Allocator + Copy>(
    alloc: A,
    bytes: &[u8],
) -> Result<DataSet<A>, RecordFault>
    ensures read { IfOk result (λ s. (written Explicit s ≡ bytes.now) × IsStored s) }
    ensures only { (set : List El) → IsStored set → written Explicit set ≡ bytes.now → MatchResult result (λ s. s ≡ set) (λ f. f ≡ faults.Memory) }
{
    let set = match read_set(alloc, TransferSyntax::Explicit, bytes) {
        Ok(set) => set,
        Err(fault) => return Err(set_fault(fault)),
    };
    if set.size() > u64::from(u32::MAX) {
        return Err(RecordFault::BadSet);
    }
    let again = write_set(alloc, TransferSyntax::Explicit, &set)?;
    if again.as_slice() != bytes {
        return Err(RecordFault::BadSet);
    }
    Ok(set)
}
