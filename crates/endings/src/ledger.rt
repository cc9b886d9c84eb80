//! A ledger in memory.

ghost use Rattle.std.specs.Prelude.{◌≡◌, [], ◌∷◌, ◌++◌, IfOk, OnOk};

use std::alloc::{AllocError, Global};
use ups_journal::{Columns, Record};
use ups_ledger::{Ledger, LedgerFault};
use ups_manager::Manager;
use ups_pdu::Bytes;
use ups_server::{StoreOpener, Unopened};
use ups_terms::StartChoices;

/// A ledger that keeps copies of its records in memory. No crash leaves any of them.
#[derive(Drop)]
pub(crate) struct MemoryLedger {
    alloc: Global,
    records: Vec<Record<Global>>,
}

/// Copies an optional text.
///
/// Errors: lack of memory.
fn text_copy(
    alloc: Global,
    text: &Option<Bytes<Global>>,
) -> Result<Option<Bytes<Global>>, AllocError>
    ensures { IfOk result (λ copy. copy ≡ text.now) }
{
    match text {
        Some(text) => Ok(Some(Bytes::copy_of(alloc, text.as_slice())?)),
        None => Ok(None),
    }
}

/// Copies two optional texts.
///
/// Errors: lack of memory.
fn texts_copy(
    alloc: Global,
    first: &Option<Bytes<Global>>,
    second: &Option<Bytes<Global>>,
) -> Result<(Option<Bytes<Global>>, Option<Bytes<Global>>), AllocError>
    ensures { IfOk result (λ copies. (copies.0 ≡ first.now) × (copies.1 ≡ second.now)) }
{
    let first = text_copy(alloc, first)?;
    let second = text_copy(alloc, second)?;
    Ok((first, second))
}

/// Copies the columns of a request.
///
/// Errors: lack of memory.
fn columns_copy(alloc: Global, columns: &Columns<Global>) -> Result<Columns<Global>, AllocError>
    ensures { IfOk result (λ copy. copy ≡ columns.now) }
{
    let (instance, transaction_uid) = texts_copy(
        alloc,
        &columns.instance,
        &columns.transaction_uid,
    )?;
    let (receiver, attributes) = texts_copy(alloc, &columns.receiver, &columns.attributes)?;
    Ok(Columns {
        operation: columns.operation,
        instance,
        transaction_uid,
        state: columns.state,
        receiver,
        deletion_lock: columns.deletion_lock,
        event: columns.event,
        utc_offset: columns.utc_offset,
        attributes,
    })
}

/// Copies a record.
///
/// Errors: lack of memory.
fn record_copy(alloc: Global, stored: &Record<Global>) -> Result<Record<Global>, AllocError>
    ensures { IfOk result (λ copy. copy ≡ stored.now) }
{
    let title = Bytes::copy_of(alloc, stored.title.as_slice())?;
    let request = columns_copy(alloc, &stored.request)?;
    Ok(Record {
        caller: stored.caller,
        title,
        moment: stored.moment,
        request,
    })
}

/// Adds a copy of a record to others.
///
/// Errors: lack of memory.
fn add_copy(
    alloc: Global,
    copies: &mut Vec<Record<Global>>,
    stored: &Record<Global>,
) -> Result<(), AllocError>
    ensures { OnOk result (copies.new.items ≡ copies.old.items ++ stored.now ∷ []) }
{
    let copy = record_copy(alloc, stored)?;
    copies.push(copy)?;
    Ok(())
}

/// Copies records.
///
/// Errors: lack of memory.
fn copies_of(alloc: Global, records: &[Record<Global>]) -> Result<Vec<Record<Global>>, AllocError>
    ensures { IfOk result (λ copies. copies.items ≡ records.now) }
{
    let mut copies = Vec::new(alloc);
    for stored in records {
        add_copy(alloc, &mut copies, stored)?;
    }
    Ok(copies)
}

impl MemoryLedger {
    /// Returns a ledger without records.
    fn new(alloc: Global) -> MemoryLedger
        ensures { result.records.items ≡ [] }
    {
        MemoryLedger {
            alloc,
            records: Vec::new(alloc),
        }
    }

    /// Returns the records, oldest first.
    pub(crate) fn records(&self) -> &[Record<Global>] {
        &self.records
    }
}

impl Ledger for MemoryLedger {
    ghost use Rattle.std.specs.Prelude.{⊤, length};

    ghost kept = { λ l. l.records.items };

    ghost told = { λ l. length l.records.items };

    ghost is_sound = { λ _. ⊤ };

    ghost is_honest = { λ _. ⊤ };

    ghost is_first = { λ _. ⊤ };

    ghost recovers = { λ _ _. ⊥ };

    fn run(&self) -> u64 {
        1
    }

    fn append(&mut self, records: &[Record<Global>]) -> Result<(), LedgerFault> {
        let Ok(mut copies) = copies_of(self.alloc, records) else {
            return Err(LedgerFault::Full);
        };
        match self.records.append(&mut copies) {
            Ok(()) => Ok(()),
            Err(_) => Err(LedgerFault::Full),
        }
    }

    fn tidy(&mut self) {}
}

/// Opens a new ledger in memory for each file, whatever the file has.
#[derive(Clone, Copy)]
pub(crate) struct MemoryStores {
    alloc: Global,
}

impl MemoryStores {
    /// Returns what opens ledgers in this memory.
    pub(crate) fn new(alloc: Global) -> MemoryStores {
        MemoryStores { alloc }
    }
}

impl<'a> StoreOpener<'a, MemoryLedger> for MemoryStores {
    ghost begins = { λ _ _ _ _ history. history ≡ [] };

    fn open(
        &self,
        _file: &'a str,
        _choices: StartChoices,
        _manager: &mut Manager<Global>,
    ) -> Result<(MemoryLedger, usize), Unopened> {
        Ok((MemoryLedger::new(self.alloc), 0))
    }

    fn look(
        &self,
        _file: &'a str,
        _choices: StartChoices,
        _manager: &Manager<Global>,
    ) -> Result<Option<u16>, Unopened> {
        Ok(None)
    }
}
