//! Event reports, built as PDUs.

ghost use Rattle.std.specs.Prelude.{◌≡◌, ◌≤◌, IfOk, IfErr};
ghost use Rattle.std.specs.List.{AllByRecursion};
ghost use Rattle.ups_pdu.specs.Fits.{Fits};
ghost use Rattle.ups_session.specs.declared.fault.SessionFault.TheVariants.{Memory};
ghost use Rattle.ups_session.specs.Reports.{report_bytes, report_pdus};

use crate::delivery::Route;
use crate::fault::SessionFault;
use crate::response::pieces;
use std::alloc::{AllocError, Allocator};
use ups_dataset::write_set;
use ups_dimse::{Command, Operation, RequestCommand, write_command};
use ups_life::{Event, EventReport};
use ups_pdu::{Pdu, RegisteredUid};
use ups_reports::type_id;

/// Encodes the command set of a report.
///
/// Errors: out of memory.
#[tactic(auto, unfolding(crate::specs::Reports::report_bytes))]
fn report_bytes<A: Allocator + Copy>(
    alloc: A,
    message: u16,
    event: &Event,
) -> Result<Vec<u8, A>, AllocError>
    ensures { IfOk result (λ v. v.items ≡ report_bytes A message event.now) }
{
    let command = RequestCommand {
        sop_class: Some(RegisteredUid::UpsPush.uid()),
        message_id: message,
        has_data_set: true,
        operation: Operation::EventReport {
            instance: Some(event.step.uid()),
            event: type_id(event.kind),
        },
    };
    write_command(alloc, &Command::Request(command))
}

/// Builds a report with its message ID, in PDUs. Event Information of 2^32 bytes or more counts as out of memory.
///
/// Errors: out of memory.
#[tactic(auto, unfolding(crate::specs::Reports::report_pdus))]
pub(crate) fn report_pdus<A: Allocator + Copy>(
    alloc: A,
    route: &Route,
    message: u16,
    report: &EventReport<A>,
) -> Result<Vec<Pdu<A>, A>, SessionFault>
    requires { 8 ≤ route.now.max }
    ensures report { IfOk result (λ v. v.items ≡ report_pdus route.now message report.now) }
    ensures writable { IfOk result (λ v. AllByRecursion (λ p. Fits p) v.items) }
    ensures memory { IfErr result (λ e. e ≡ Memory) }
{
    if report.information.size() > u64::from(u32::MAX) {
        return Err(SessionFault::Memory);
    }
    let command = report_bytes(alloc, message, &report.event)?;
    let body = write_set(alloc, route.context.transfer_syntax, &report.information)?;
    pieces(
        alloc,
        route.max,
        route.context.id,
        &command,
        Some(body.as_slice()),
    )
}
