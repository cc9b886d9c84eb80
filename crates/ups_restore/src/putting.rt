//! Appends the records of a history to a ledger.

ghost use Rattle.std.specs.Prelude.{◌≡◌, ◌+◌, ◌<◌, ◌++◌, length, map, take, drop, OnOk, OnErr, IfOk, IfErr};
ghost use Rattle.ups_journal.specs.Columns.{recorded};
ghost use Rattle.ups_restore.specs.Compacting.{HasPut, IsNoRefusal};

use crate::fault::CompactFault;
use std::alloc::Global;
use ups_ledger::{Ledger, group_of};
use ups_life::Entry;

/// The greatest number of records that are appended to a ledger as one group.
const MAX_GROUP: usize = 256;

/// Appends the records of the entries of a history from an index on to a ledger, as one group. Returns the index after
/// them.
///
/// Errors: those of an entry that can't be recorded; those of the ledger. Nothing is appended then.
fn put_group<L: Ledger>(
    alloc: Global,
    history: &[Entry<Global>],
    from: usize,
    ledger: &mut L,
) -> Result<usize, CompactFault>
    requires { from < length history.now }
    ensures place { IfOk result (λ next. next ≡ from + length (take MAX_GROUP (drop from history.now))) }
    ensures put { OnOk result (L.is_sound ledger.new → L.kept ledger.new ≡ L.kept ledger.old ++ map recorded (take MAX_GROUP (drop from history.now))) }
    ensures same { OnErr result (L.is_sound ledger.new → L.kept ledger.new ≡ L.kept ledger.old) }
    ensures sound { L.is_sound ledger.new → L.is_sound ledger.old }
    ensures only { IfErr result IsNoRefusal }
{
    let group = group_of(alloc, history, from, MAX_GROUP)?;
    ledger.append(&group)?;
    Ok(from + group.len())
}

/// Appends the records of a history to a ledger, in groups.
///
/// # Errors
///
/// Those of the first entry that can't be recorded; those of the ledger. The groups that were appended stay there.
pub fn put_history<L: Ledger>(
    alloc: Global,
    history: &[Entry<Global>],
    ledger: &mut L,
) -> Result<(), CompactFault>
    ensures put { OnOk result (L.is_sound ledger.new → L.kept ledger.new ≡ L.kept ledger.old ++ map recorded history.now) }
    ensures begun { L.is_sound ledger.new → HasPut (L.kept ledger.old) history.now (L.kept ledger.new) }
    ensures sound { L.is_sound ledger.new → L.is_sound ledger.old }
    ensures only { IfErr result IsNoRefusal }
{
    let mut place = 0;
    while place < history.len() {
        place = put_group(alloc, history, place, ledger)?;
    }
    Ok(())
}
