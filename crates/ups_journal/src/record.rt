//! The records of requests.

ghost use Rattle.std.specs.Prelude.{◌≡◌, None};

use crate::operation::RecordedOperation;
use std::alloc::Allocator;
use ups_cycle::StepState;
use ups_pdu::Bytes;

/// A request, column by column. A column is None if the operation does not use it, or the request did not give it.
pub struct Columns<A: Allocator + Copy> {
    /// The operation.
    pub operation: RecordedOperation,
    /// The instance UID, which is that of a step, or the well-known one of a global subscription (PS3.4 CC.2.3).
    pub instance: Option<Bytes<A>>,
    /// The Transaction UID (0008,1195); empty if the one that was sent is not a UID.
    pub transaction_uid: Option<Bytes<A>>,
    /// The requested state of the step.
    pub state: Option<StepState>,
    /// The watcher, which is the Receiving AE (0074,1234).
    pub receiver: Option<Bytes<A>>,
    /// The Deletion Lock (0074,1230).
    pub deletion_lock: Option<bool>,
    /// The number of the last acknowledged event.
    pub event: Option<u64>,
    /// The offset by which DTs without one are read in the keys of a filter, in minutes east of UTC.
    pub utc_offset: Option<i16>,
    /// The attributes that were sent, or the keys of a filter, in Explicit VR Little Endian.
    pub attributes: Option<Bytes<A>>,
}

impl<A: Allocator + Copy> Drop for Columns<A> {
    fn drop(self) {
        let Columns {
            operation: _,
            instance: _,
            transaction_uid: _,
            state: _,
            receiver: _,
            deletion_lock: _,
            event: _,
            utc_offset: _,
            attributes: _,
        } = self;
    }
}

/// An accepted request as plain data, for a store.
pub struct Record<A: Allocator + Copy> {
    /// The number of the caller: which of several passes to the service made the call.
    pub caller: u32,
    /// The title of the requesting application entity.
    pub title: Bytes<A>,
    /// The time of the request, in seconds since 1970-01-01 UTC.
    pub moment: u64,
    /// The request.
    pub request: Columns<A>,
}

impl<A: Allocator + Copy> Drop for Record<A> {
    fn drop(self) {
        let Record {
            caller: _,
            title: _,
            moment: _,
            request: _,
        } = self;
    }
}

impl<A: Allocator + Copy> Columns<A> {
    /// Returns the columns of an operation, with all others empty.
    pub(crate) fn of(operation: RecordedOperation) -> Columns<A>
        ensures { result ≡ record { operation = operation; instance = None; transaction_uid = None; state = None; receiver = None; deletion_lock = None; event = None; utc_offset = None; attributes = None } }
    {
        Columns {
            operation,
            instance: None,
            transaction_uid: None,
            state: None,
            receiver: None,
            deletion_lock: None,
            event: None,
            utc_offset: None,
            attributes: None,
        }
    }
}
