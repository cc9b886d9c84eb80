//! Responses, built as PDUs and sent.

ghost use Rattle.std.specs.Prelude.{◌≡◌, ◌≤◌, ◌<◌, ◌⊎◌, ◌^◌, length, Some, IfOk, IfErr, option_copied};
ghost use Rattle.std.specs.List.{AllByRecursion, flat_map};
ghost use Rattle.std.specs.Option.{unwrap_or};
ghost use Rattle.ups_pdu.specs.declared.registered.RegisteredUid.TheVariants.{UpsPush};
ghost use Rattle.ups_pdu.specs.Fits.{Fits};
ghost use Rattle.ups_pdu.specs.Registered.{text_of};
ghost use Rattle.ups_pdu.specs.declared.syntax.TransferSyntax.TheVariants.{Explicit};
ghost use Rattle.ups_dataset.specs.Written.{written};
ghost use Rattle.ups_assoc.specs.Cutting.{pieces};
ghost use Rattle.ups_cycle.specs.Statuses.{code};
ghost use Rattle.ups_session.specs.declared.fault.SessionFault.TheVariants.{Memory};
ghost use Rattle.ups_session.specs.Responses.{response_bytes, bare_response, with_set, set_response, response};
ghost use Rattle.ups_cycle.specs.declared.status.Status.TheVariants.{Pending};
ghost use Rattle.ups_service.specs.Law.{SmallReply};
ghost use Rattle.ups_session.specs.Visits.{SendsPdus};

use crate::fault::SessionFault;
use crate::gate::Gate;
use crate::sending::{send_command, send_message};
use crate::watched_io::WatchedWriter;
use std::alloc::{AllocError, Allocator};
use std::io::Write;
use ups_assoc::{AcceptedContext, cut};
use ups_cycle::Status;
use ups_dataset::{DataSet, write_set};
use ups_dimse::{Command, RequestCommand, write_command};
use ups_life::Reply;
use ups_pdu::{Pdu, RegisteredUid, Uid};

/// Returns the SOP class of a response: that of the request, or the Push class if the request names none.
fn class_of<A: Allocator + Copy>(request: &RequestCommand<A>) -> Uid
    ensures { result ≡ unwrap_or request.now.sop_class (text_of UpsPush) }
{
    match request.sop_class {
        Some(class) => class,
        None => RegisteredUid::UpsPush.uid(),
    }
}

/// Encodes the command set of a response.
///
/// Errors: out of memory.
pub(crate) fn response_bytes<A: Allocator + Copy>(
    alloc: A,
    request: &RequestCommand<A>,
    status: Status,
    has_data_set: bool,
) -> Result<Vec<u8, A>, AllocError>
    ensures { IfOk result (λ v. v.items ≡ response_bytes request.now (code status) has_data_set) }
{
    let class = class_of(request);
    let response = request.answered(class, status.code(), has_data_set);
    write_command(alloc, &Command::Response(response))
}

/// Cuts a message into PDUs of at most `max` bytes.
///
/// Errors: out of memory.
pub(crate) fn pieces<A: Allocator + Copy>(
    alloc: A,
    max: u32,
    context: u8,
    command: &[u8],
    body: Option<&[u8]>,
) -> Result<Vec<Pdu<A>, A>, SessionFault>
    requires { 8 ≤ max }
    ensures pieces { IfOk result (λ v. v.items ≡ pieces context command.now (option_copied body.entry) max) }
    ensures writable { IfOk result (λ v. AllByRecursion (λ p. Fits p) v.items) }
    ensures memory { IfErr result (λ e. e ≡ Memory) }
{
    match cut(alloc, context, command, body, max) {
        Ok(pdus) => Ok(pdus),
        Err(_) => Err(SessionFault::Memory),
    }
}

/// Builds a response without a data set, in PDUs of at most `max` bytes.
///
/// Errors: out of memory.
pub(crate) fn bare_response<A: Allocator + Copy>(
    alloc: A,
    max: u32,
    context: &AcceptedContext,
    request: &RequestCommand<A>,
    status: Status,
) -> Result<Vec<Pdu<A>, A>, SessionFault>
    requires max { 8 ≤ max }
    ensures response { IfOk result (λ v. v.items ≡ bare_response max context.now request.now status) }
    ensures writable { IfOk result (λ v. AllByRecursion (λ p. Fits p) v.items) }
    ensures memory { IfErr result (λ e. e ≡ Memory) }
{
    let command = response_bytes(alloc, request, status, false)?;
    pieces(alloc, max, context.id, &command, None)
}

/// Sends a response without a data set. The buffer is for the bytes of one PDU after the other.
///
/// Errors: a failed write, or out of memory; a prefix of the bytes was then written.
fn send_status<A: Allocator + Copy, W: Write, G: Gate>(
    writer: &mut WatchedWriter<W>,
    gate: &mut G,
    buffer: &mut Vec<u8, A>,
    max: u32,
    context: &AcceptedContext,
    request: &RequestCommand<A>,
    status: Status,
) -> Result<(), SessionFault>
    requires max { 8 ≤ max }
    ensures { SendsPdus (bare_response max context.now request.now status) writer.old writer.new (G.told gate.old) (G.told gate.new) result }
{
    let command = response_bytes(*buffer.allocator(), request, status, false)?;
    send_command(writer, gate, buffer, max, context.id, &command)
}

/// Sends a response with its data set. `command` is its encoded command set. The buffer is for the bytes of one PDU
/// after the other.
///
/// Errors: a failed write, or out of memory; a prefix of the bytes was then written.
fn send_small_set<A: Allocator + Copy, W: Write, G: Gate>(
    writer: &mut WatchedWriter<W>,
    gate: &mut G,
    buffer: &mut Vec<u8, A>,
    max: u32,
    context: &AcceptedContext,
    command: &[u8],
    set: &DataSet<A>,
) -> Result<(), SessionFault>
    requires max { 8 ≤ max }
    requires small { length (written Explicit set.now) < 2 ^ 32 }
    ensures { SendsPdus (with_set {A = A} max context.now command.now set.now) writer.old writer.new (G.told gate.old) (G.told gate.new) result }
{
    let body = write_set(*buffer.allocator(), context.transfer_syntax, set)?;
    send_message(writer, gate, buffer, max, context.id, command, &body)
}

/// Sends a response with its data set. `command` is its encoded command set. The buffer is for the bytes of one PDU
/// after the other. A data set of 2^32 bytes or more counts as out of memory.
///
/// Errors: a failed write, or out of memory; a prefix of the bytes was then written.
fn send_set<A: Allocator + Copy, W: Write, G: Gate>(
    writer: &mut WatchedWriter<W>,
    gate: &mut G,
    buffer: &mut Vec<u8, A>,
    max: u32,
    context: &AcceptedContext,
    command: &[u8],
    set: &DataSet<A>,
) -> Result<(), SessionFault>
    requires max { 8 ≤ max }
    ensures { SendsPdus (with_set {A = A} max context.now command.now set.now) writer.old writer.new (G.told gate.old) (G.told gate.new) result }
{
    if set.size() > u64::from(u32::MAX) {
        return Err(SessionFault::Memory);
    }
    send_small_set(writer, gate, buffer, max, context, command, set)
}

/// Sends the matches of a query, one after another. Memory is taken for one at a time, and the buffer serves all. All
/// have the same command set, of status Pending, which is encoded once.
///
/// Errors: a failed write, or out of memory; a prefix of the bytes was then written.
fn send_matches<A: Allocator + Copy, W: Write, G: Gate>(
    writer: &mut WatchedWriter<W>,
    gate: &mut G,
    buffer: &mut Vec<u8, A>,
    max: u32,
    context: &AcceptedContext,
    request: &RequestCommand<A>,
    sets: &[DataSet<A>],
) -> Result<(), SessionFault>
    requires max { 8 ≤ max }
    ensures { SendsPdus (flat_map (set_response max context.now request.now Pending) sets.now) writer.old writer.new (G.told gate.old) (G.told gate.new) result }
{
    let command = response_bytes(*buffer.allocator(), request, Status::Pending, true)?;
    for set in sets {
        send_set(writer, gate, buffer, max, context, &command, set)?;
    }
    Ok(())
}

/// Sends the reply of the service to a request, in PDUs of at most `max` bytes. The buffer is for the bytes of one PDU after
/// the other.
///
/// Errors: a failed write, or out of memory; a prefix of the bytes was then written.
pub(crate) fn send_reply<A: Allocator + Copy, W: Write, G: Gate>(
    writer: &mut WatchedWriter<W>,
    gate: &mut G,
    buffer: &mut Vec<u8, A>,
    max: u32,
    context: &AcceptedContext,
    request: &RequestCommand<A>,
    reply: &Reply<A>,
) -> Result<(), SessionFault>
    requires max { 8 ≤ max }
    requires small { SmallReply reply.now }
    ensures { SendsPdus (response max context.now request.now reply.now) writer.old writer.new (G.told gate.old) (G.told gate.new) result }
{
    match reply {
        Reply::Status(status) => {
            send_status(writer, gate, buffer, max, context, request, *status)
        }
        Reply::Swept(_) | Reply::AckAhead | Reply::AckStale | Reply::Reports(_) => {
            send_status(writer, gate, buffer, max, context, request, Status::Success)
        }
        Reply::Set(status, set) => {
            let command = response_bytes(*buffer.allocator(), request, *status, true)?;
            send_small_set(writer, gate, buffer, max, context, &command, set)
        }
        Reply::Sets(sets) => {
            send_matches(writer, gate, buffer, max, context, request, sets.as_slice())?;
            send_status(writer, gate, buffer, max, context, request, Status::Success)
        }
    }
}
