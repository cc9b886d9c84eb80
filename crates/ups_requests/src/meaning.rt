//! What a message asks, by the bytes of its data set.

ghost use Rattle.std.specs.Prelude.{◌≡◌, Ok, IfOk, IfErr};
ghost use Rattle.ups_requests.specs.Asking.{unread, without_set, Asks, IsUnasked};

use std::alloc::Allocator;
use ups_cycle::Status;
use ups_dataset::{SetFault, read_set};
use ups_dimse::Operation;
use ups_life::{Ask, read_request};
use ups_pdu::TransferSyntax;

/// Why a message makes no request to the manager.
pub enum Unasked {
    /// It is refused with a status.
    Refused(Status),
    /// Memory ran out.
    Memory,
}

/// Returns the status of a message whose data set can't be read (PS3.7 annex C, PS3.4 section C.4.1.1.4).
fn unread<A: Allocator + Copy>(operation: &Operation<A>) -> Status
    ensures { result ≡ unread operation.now }
{
    match operation {
        Operation::Find { .. } => Status::UnableToProcess,
        _ => Status::ProcessingFailure,
    }
}

/// Returns what a fault in reading the data set of a message leads to.
fn without_set<A: Allocator + Copy>(operation: &Operation<A>, fault: SetFault) -> Unasked
    ensures { result ≡ without_set operation.now fault }
{
    match fault {
        SetFault::Memory => Unasked::Memory,
        _ => Unasked::Refused(unread(operation)),
    }
}

/// Returns the request of a message, given its operation and the bytes of its data set in Explicit VR Little Endian.
/// `offset` is the offset of the local time from UTC in minutes, for keys of DT without one.
pub fn ask_of<A: Allocator + Copy>(
    alloc: A,
    operation: &Operation<A>,
    data_set: &[u8],
    offset: i16,
) -> Result<Ask<A>, Unasked>
    ensures asks { IfOk result (λ ask. Asks offset operation.now data_set.now (Ok ask)) }
    ensures unasked { IfErr result (IsUnasked offset operation.now data_set.now) }
{
    let attributes = match read_set(alloc, TransferSyntax::Explicit, data_set) {
        Ok(attributes) => attributes,
        Err(fault) => return Err(without_set(operation, fault)),
    };
    match read_request(alloc, operation, attributes, offset) {
        Ok(ask) => Ok(ask),
        Err(Status::ResourceLimitation) => Err(Unasked::Memory),
        Err(status) => Err(Unasked::Refused(status)),
    }
}
