//! Writing command sets.

ghost use Rattle.std.specs.Prelude.{◌≡◌, ◌<◌, ◌≤◌, ◌+◌, ◌*◌, ◌^◌, ◌++◌, length, take, drop, IfOk, IfSome, OnOk};
ghost use Rattle.std.specs.Int.{to_le_bytes, w32};
ghost use Rattle.std.specs.List.{flat_map};
ghost use Rattle.ups_pdu.specs.Identifier.{IsUid};
ghost use Rattle.ups_dataset.specs.Tag.{tag_bytes};
ghost use Rattle.ups_dimse.specs.Elements.{command_tag};
ghost use Rattle.ups_dimse.specs.Commands.{SpellsCommand};
ghost use Rattle.ups_dimse.specs.Written.{written_command, written_command_element, us_element, optional_us_element, uid_element, tags_element, data_set_element, operation_elements, result_elements, request_elements, response_elements, cancel_elements, command_elements, tags_of, FitsCommand};
ghost use Rattle.ups_dimse.specs.Held.{IsHeldTag, AreHeldTags, IsHeldOperation, IsHeldResult, IsHeldRequest, IsHeldResponse, IsHeldCancel, IsHeld};

use crate::command::{
    CancelCommand, Command, Operation, OperationResult, RequestCommand, ResponseCommand,
};
use crate::message::Message;
use crate::numbers::{
    ACTION_TYPE, AFFECTED_CLASS, AFFECTED_INSTANCE, ATTRIBUTES, COMMAND_FIELD, DATA_SET_TYPE,
    EVENT_TYPE, GROUP_LENGTH, MESSAGE_ID, PRIORITY, REQUESTED_INSTANCE, RESPONDED_TO, STATUS,
};
use std::alloc::{AllocError, Allocator};
use ups_dataset::Tag;
use ups_pdu::Uid;

/// The room taken at once for a command, in bytes: enough for any without an attribute list and with at most two UIDs.
const USUAL_LEN: usize = 256;

/// Appends the header of an element: its tag and the length of its value.
fn put_header<A: Allocator + Copy>(
    out: &mut Vec<u8, A>,
    number: u16,
    len: u32,
) -> Result<(), AllocError>
    ensures { OnOk result (out.new.items ≡ out.old.items ++ (tag_bytes (command_tag number) ++ to_le_bytes w32 len)) }
{
    let [low, high] = number.to_le_bytes();
    let [first, second, third, fourth] = len.to_le_bytes();
    out.extend_from_slice(&[0, 0, low, high, first, second, third, fourth])?;
    Ok(())
}

/// Appends a number.
fn put_us<A: Allocator + Copy>(
    out: &mut Vec<u8, A>,
    number: u16,
    value: u16,
) -> Result<(), AllocError>
    ensures wrote { OnOk result (out.new.items ≡ out.old.items ++ written_command_element (us_element number value)) }
    ensures held { value < 2 ^ 16 }
{
    let [low, high] = number.to_le_bytes();
    let [first, second] = value.to_le_bytes();
    out.extend_from_slice(&[0, 0, low, high, 2, 0, 0, 0, first, second])?;
    Ok(())
}

/// Appends a number, if there is one.
fn put_optional_us<A: Allocator + Copy>(
    out: &mut Vec<u8, A>,
    number: u16,
    value: Option<u16>,
) -> Result<(), AllocError>
    ensures wrote { OnOk result (out.new.items ≡ out.old.items ++ flat_map written_command_element (optional_us_element number value)) }
    ensures held { IfSome value (λ v. v < 2 ^ 16) }
{
    match value {
        Some(value) => put_us(out, number, value),
        None => Ok(()),
    }
}

/// Appends Command Data Set Type (0000,0800).
fn put_data_set<A: Allocator + Copy>(
    out: &mut Vec<u8, A>,
    has_data_set: bool,
) -> Result<(), AllocError>
    ensures { OnOk result (out.new.items ≡ out.old.items ++ written_command_element (data_set_element has_data_set)) }
{
    let value = if has_data_set { 0x0001 } else { 0x0101 };
    put_us(out, DATA_SET_TYPE, value)
}

/// Appends a UID, if there is one.
fn put_uid<A: Allocator + Copy>(
    out: &mut Vec<u8, A>,
    number: u16,
    uid: Option<Uid>,
) -> Result<(), AllocError>
    ensures wrote { OnOk result (out.new.items ≡ out.old.items ++ flat_map written_command_element (uid_element number uid)) }
    ensures held { OnOk result (IfSome uid IsUid) }
{
    let Some(uid) = uid else {
        return Ok(());
    };
    let text = uid.as_bytes();
    let len = text.len() as u32;
    put_header(out, number, len + len % 2)?;
    out.extend_from_slice(text)?;
    if len % 2 != 0 {
        out.push(0)?;
    }
    Ok(())
}

/// Appends a tag.
fn put_tag<A: Allocator + Copy>(out: &mut Vec<u8, A>, tag: Tag) -> Result<(), AllocError>
    ensures wrote { OnOk result (out.new.items ≡ out.old.items ++ tag_bytes tag) }
    ensures held { IsHeldTag tag }
{
    tag.put(out)
}

/// Appends tags, if there are any.
fn put_tags<A: Allocator + Copy>(
    out: &mut Vec<u8, A>,
    number: u16,
    tags: &[Tag],
) -> Result<(), AllocError>
    requires { 4 * length tags.now < 2 ^ 32 }
    ensures wrote { OnOk result (out.new.items ≡ out.old.items ++ flat_map written_command_element (tags_element number tags.now)) }
    ensures held { OnOk result (AreHeldTags tags.now) }
{
    if tags.is_empty() {
        return Ok(());
    }
    put_header(out, number, 4 * tags.len() as u32)?;
    for tag in tags {
        put_tag(out, *tag)?;
    }
    Ok(())
}

/// Appends the elements that are specific to an operation.
fn put_operation<A: Allocator + Copy>(
    out: &mut Vec<u8, A>,
    operation: &Operation<A>,
) -> Result<(), AllocError>
    requires { 4 * length (tags_of operation.now) < 2 ^ 32 }
    ensures wrote { OnOk result (out.new.items ≡ out.old.items ++ flat_map written_command_element (operation_elements operation.now)) }
    ensures held { OnOk result (IsHeldOperation operation.now) }
{
    match operation {
        Operation::EventReport { instance, event } => {
            put_uid(out, AFFECTED_INSTANCE, *instance)?;
            put_us(out, EVENT_TYPE, *event)?;
        }
        Operation::Create { instance } => put_uid(out, AFFECTED_INSTANCE, *instance)?,
        Operation::Get {
            instance,
            attributes,
        } => {
            put_uid(out, REQUESTED_INSTANCE, *instance)?;
            put_tags(out, ATTRIBUTES, attributes.as_slice())?;
        }
        Operation::Set { instance } => put_uid(out, REQUESTED_INSTANCE, *instance)?,
        Operation::Action { instance, action } => {
            put_uid(out, REQUESTED_INSTANCE, *instance)?;
            put_us(out, ACTION_TYPE, *action)?;
        }
        Operation::Echo | Operation::Find { .. } => (),
    }
    Ok(())
}

/// Appends the elements of a request.
fn put_request<A: Allocator + Copy>(
    out: &mut Vec<u8, A>,
    request: &RequestCommand<A>,
) -> Result<(), AllocError>
    requires { 4 * length (tags_of request.now.operation) < 2 ^ 32 }
    ensures wrote { OnOk result (out.new.items ≡ out.old.items ++ flat_map written_command_element (request_elements request.now)) }
    ensures held { OnOk result (IsHeldRequest request.now) }
{
    let operation = &request.operation;
    put_uid(out, operation.class_element(), request.sop_class)?;
    put_us(out, COMMAND_FIELD, operation.message().field())?;
    put_us(out, MESSAGE_ID, request.message_id)?;
    put_optional_us(out, PRIORITY, operation.priority())?;
    put_data_set(out, request.has_data_set)?;
    put_operation(out, operation)?;
    Ok(())
}

/// Appends the elements that are specific to a result.
fn put_result<A: Allocator + Copy>(
    out: &mut Vec<u8, A>,
    outcome: &OperationResult,
) -> Result<(), AllocError>
    ensures wrote { OnOk result (out.new.items ≡ out.old.items ++ flat_map written_command_element (result_elements outcome.now)) }
    ensures held { OnOk result (IsHeldResult outcome.now) }
{
    match outcome {
        OperationResult::EventReport { instance, event } => {
            put_uid(out, AFFECTED_INSTANCE, *instance)?;
            put_optional_us(out, EVENT_TYPE, *event)?;
        }
        OperationResult::Create { instance } => put_uid(out, AFFECTED_INSTANCE, *instance)?,
        OperationResult::Get { instance } => put_uid(out, AFFECTED_INSTANCE, *instance)?,
        OperationResult::Set { instance } => put_uid(out, AFFECTED_INSTANCE, *instance)?,
        OperationResult::Action { instance, action } => {
            put_uid(out, AFFECTED_INSTANCE, *instance)?;
            put_us(out, ACTION_TYPE, *action)?;
        }
        OperationResult::Echo | OperationResult::Find => (),
    }
    Ok(())
}

/// Appends the elements of a response.
fn put_response<A: Allocator + Copy>(
    out: &mut Vec<u8, A>,
    response: &ResponseCommand,
) -> Result<(), AllocError>
    ensures wrote { OnOk result (out.new.items ≡ out.old.items ++ flat_map written_command_element (response_elements response.now)) }
    ensures held { OnOk result (IsHeldResponse response.now) }
{
    put_uid(out, AFFECTED_CLASS, response.sop_class)?;
    put_us(out, COMMAND_FIELD, response.result.message().field())?;
    put_us(out, RESPONDED_TO, response.responded_to)?;
    put_data_set(out, response.has_data_set)?;
    put_us(out, STATUS, response.status)?;
    put_result(out, &response.result)?;
    Ok(())
}

/// Appends the elements of a C-CANCEL.
fn put_cancel<A: Allocator + Copy>(
    out: &mut Vec<u8, A>,
    cancel: &CancelCommand,
) -> Result<(), AllocError>
    ensures wrote { OnOk result (out.new.items ≡ out.old.items ++ flat_map written_command_element (cancel_elements cancel.now)) }
    ensures held { OnOk result (IsHeldCancel cancel.now) }
{
    put_us(out, COMMAND_FIELD, Message::CancelRequest.field())?;
    put_us(out, RESPONDED_TO, cancel.responded_to)?;
    put_data_set(out, cancel.has_data_set)?;
    Ok(())
}

/// Appends the elements of a command, without Command Group Length.
fn put_elements<A: Allocator + Copy>(
    out: &mut Vec<u8, A>,
    command: &Command<A>,
) -> Result<(), AllocError>
    requires { FitsCommand command.now }
    ensures wrote { OnOk result (out.new.items ≡ out.old.items ++ flat_map written_command_element (command_elements command.now)) }
    ensures held { OnOk result (IsHeld command.now) }
{
    match command {
        Command::Request(request) => put_request(out, request),
        Command::Response(response) => put_response(out, response),
        Command::Cancel(cancel) => put_cancel(out, cancel),
    }
}

/// Writes a number over the four bytes at `at`, in little-endian order.
fn set_u32<A: Allocator + Copy>(out: &mut Vec<u8, A>, at: usize, number: u32)
    requires { at + 4 ≤ length out.now.items }
    ensures { out.new.items ≡ take at out.old.items ++ (to_le_bytes w32 number ++ drop (at + 4) out.old.items) }
{
    out.as_mut_slice()[at..at + 4].copy_from_slice(&number.to_le_bytes());
}

/// Appends the encoding of a command that `write_command` returns.
///
/// # Errors
///
/// If memory runs out. The contents of the vector are then unspecified.
pub fn write_command_into<A: Allocator + Copy>(
    out: &mut Vec<u8, A>,
    command: &Command<A>,
) -> Result<(), AllocError>
    requires { FitsCommand command.now }
    // The bytes are the one encoding of the command.
    ensures written { OnOk result (out.new.items ≡ out.old.items ++ written_command command.now) }
    // They are read back as the same command.
    ensures again { OnOk result (SpellsCommand (written_command command.now) command.now) }
{
    put_header(out, GROUP_LENGTH, 4)?;
    let place = out.len();
    out.extend_from_slice(&[0; 4])?;
    let start = out.len();
    put_elements(out, command)?;
    let len = (out.len() - start) as u32;
    set_u32(out, place, len);
    Ok(())
}

/// Encodes a command: Command Group Length (0000,0000) with the exact length of the rest, and then the elements by
/// rising tag (PS3.7 section 6.3.1). Absent UIDs and an empty attribute list have no element.
///
/// # Errors
///
/// If memory runs out.
pub fn write_command<A: Allocator + Copy>(
    alloc: A,
    command: &Command<A>,
) -> Result<Vec<u8, A>, AllocError>
    requires { FitsCommand command.now }
    // The bytes are the one encoding of the command.
    ensures written { IfOk result (λ v. v.items ≡ written_command command.now) }
    // They are read back as the same command.
    ensures again { IfOk result (λ v. SpellsCommand v.items command.now) }
{
    let mut out = Vec::with_capacity(alloc, USUAL_LEN)?;
    write_command_into(&mut out, command)?;
    Ok(out)
}
