//! Reading command sets.

ghost use Rattle.std.specs.Prelude.{◌≡◌, List, ℕ, [], IfOk, IfErr, MatchResult};
ghost use Rattle.ups_dimse.specs.declared.command.Command.{Command};
ghost use Rattle.ups_dimse.specs.declared.fault.DimseFault.{DimseFault};
ghost use Rattle.ups_dimse.specs.declared.fault.DimseFault.TheVariants.{Memory};
ghost use Rattle.ups_dimse.specs.Elements.{CommandElement, SpellsCommandElements};
ghost use Rattle.ups_dimse.specs.Messages.{field_of, needs};
ghost use Rattle.ups_dimse.specs.Sorted.{HasValues};
ghost use Rattle.ups_dimse.specs.Values.{HasUs};
ghost use Rattle.ups_dimse.specs.Commands.{IsCommand, SpellsCommand};
ghost use Rattle.ups_dimse.specs.Faults.{FirstFails, ReadsOrFails, IsCommandFault};
ghost use Rattle.ups_dimse.specs.declared.message.Message.TheVariants.{EventReportRequest, EventReportResponse, GetRequest, GetResponse, SetRequest, SetResponse, ActionRequest, ActionResponse, CreateRequest, CreateResponse, EchoRequest, EchoResponse, FindRequest, FindResponse, CancelRequest};

use crate::command::{
    CancelCommand, Command, Operation, OperationResult, RequestCommand, ResponseCommand,
};
use crate::elements::{has_data_set, optional_us_of, tags_of, uid_of, us_of, values_in};
use crate::fault::DimseFault;
use crate::message::Message;
use crate::numbers::{
    ACTION_TYPE, ATTRIBUTES, COMMAND_FIELD, EVENT_TYPE, GROUP_LENGTH, MESSAGE_ID, PRIORITY,
    RESPONDED_TO, STATUS, command_tag,
};
use crate::values::CommandValues;
use std::alloc::Allocator;

/// Reads an N-EVENT-REPORT-RQ (PS3.7 section 10.3.1.1).
fn event_report_request<A: Allocator + Copy>(
    values: &CommandValues<'_>,
) -> Result<Command<A>, DimseFault>
    ensures { (elements : List CommandElement) → HasValues elements values.now → HasUs elements 0x0100 (field_of EventReportRequest)
        → ReadsOrFails (IsCommand elements) (FirstFails elements (needs EventReportRequest)) result }
{
    Ok(Command::Request(RequestCommand {
        sop_class: uid_of(values.affected_class),
        message_id: us_of(values.message_id, MESSAGE_ID)?,
        has_data_set: has_data_set(values)?,
        operation: Operation::EventReport {
            instance: uid_of(values.affected_instance),
            event: us_of(values.event_type, EVENT_TYPE)?,
        },
    }))
}

/// Reads an N-GET-RQ (PS3.7 section 10.3.2.1).
fn get_request<A: Allocator + Copy>(
    alloc: A,
    values: &CommandValues<'_>,
) -> Result<Command<A>, DimseFault>
    ensures { (elements : List CommandElement) → HasValues elements values.now → HasUs elements 0x0100 (field_of GetRequest)
        → ReadsOrFails (IsCommand elements) (FirstFails elements (needs GetRequest)) result }
{
    Ok(Command::Request(RequestCommand {
        sop_class: uid_of(values.requested_class),
        message_id: us_of(values.message_id, MESSAGE_ID)?,
        has_data_set: has_data_set(values)?,
        operation: Operation::Get {
            instance: uid_of(values.requested_instance),
            attributes: tags_of(alloc, values.attributes, ATTRIBUTES)?,
        },
    }))
}

/// Reads an N-SET-RQ (PS3.7 section 10.3.3.1).
fn set_request<A: Allocator + Copy>(values: &CommandValues<'_>) -> Result<Command<A>, DimseFault>
    ensures { (elements : List CommandElement) → HasValues elements values.now → HasUs elements 0x0100 (field_of SetRequest)
        → ReadsOrFails (IsCommand elements) (FirstFails elements (needs SetRequest)) result }
{
    Ok(Command::Request(RequestCommand {
        sop_class: uid_of(values.requested_class),
        message_id: us_of(values.message_id, MESSAGE_ID)?,
        has_data_set: has_data_set(values)?,
        operation: Operation::Set {
            instance: uid_of(values.requested_instance),
        },
    }))
}

/// Reads an N-ACTION-RQ (PS3.7 section 10.3.4.1).
fn action_request<A: Allocator + Copy>(values: &CommandValues<'_>) -> Result<Command<A>, DimseFault>
    ensures { (elements : List CommandElement) → HasValues elements values.now → HasUs elements 0x0100 (field_of ActionRequest)
        → ReadsOrFails (IsCommand elements) (FirstFails elements (needs ActionRequest)) result }
{
    Ok(Command::Request(RequestCommand {
        sop_class: uid_of(values.requested_class),
        message_id: us_of(values.message_id, MESSAGE_ID)?,
        has_data_set: has_data_set(values)?,
        operation: Operation::Action {
            instance: uid_of(values.requested_instance),
            action: us_of(values.action_type, ACTION_TYPE)?,
        },
    }))
}

/// Reads an N-CREATE-RQ (PS3.7 section 10.3.5.1).
fn create_request<A: Allocator + Copy>(values: &CommandValues<'_>) -> Result<Command<A>, DimseFault>
    ensures { (elements : List CommandElement) → HasValues elements values.now → HasUs elements 0x0100 (field_of CreateRequest)
        → ReadsOrFails (IsCommand elements) (FirstFails elements (needs CreateRequest)) result }
{
    Ok(Command::Request(RequestCommand {
        sop_class: uid_of(values.affected_class),
        message_id: us_of(values.message_id, MESSAGE_ID)?,
        has_data_set: has_data_set(values)?,
        operation: Operation::Create {
            instance: uid_of(values.affected_instance),
        },
    }))
}

/// Reads a C-ECHO-RQ (PS3.7 section 9.3.5.1).
fn echo_request<A: Allocator + Copy>(values: &CommandValues<'_>) -> Result<Command<A>, DimseFault>
    ensures { (elements : List CommandElement) → HasValues elements values.now → HasUs elements 0x0100 (field_of EchoRequest)
        → ReadsOrFails (IsCommand elements) (FirstFails elements (needs EchoRequest)) result }
{
    Ok(Command::Request(RequestCommand {
        sop_class: uid_of(values.affected_class),
        message_id: us_of(values.message_id, MESSAGE_ID)?,
        has_data_set: has_data_set(values)?,
        operation: Operation::Echo,
    }))
}

/// Reads a C-FIND-RQ (PS3.7 section 9.3.2.1).
fn find_request<A: Allocator + Copy>(values: &CommandValues<'_>) -> Result<Command<A>, DimseFault>
    ensures { (elements : List CommandElement) → HasValues elements values.now → HasUs elements 0x0100 (field_of FindRequest)
        → ReadsOrFails (IsCommand elements) (FirstFails elements (needs FindRequest)) result }
{
    Ok(Command::Request(RequestCommand {
        sop_class: uid_of(values.affected_class),
        message_id: us_of(values.message_id, MESSAGE_ID)?,
        operation: Operation::Find {
            priority: optional_us_of(values.priority, PRIORITY)?,
        },
        has_data_set: has_data_set(values)?,
    }))
}

/// Reads a C-CANCEL-RQ (PS3.7 section 9.3.2.3).
fn cancel_request<A: Allocator + Copy>(values: &CommandValues<'_>) -> Result<Command<A>, DimseFault>
    ensures { (elements : List CommandElement) → HasValues elements values.now → HasUs elements 0x0100 (field_of CancelRequest)
        → ReadsOrFails (IsCommand elements) (FirstFails elements (needs CancelRequest)) result }
{
    Ok(Command::Cancel(CancelCommand {
        responded_to: us_of(values.responded_to, RESPONDED_TO)?,
        has_data_set: has_data_set(values)?,
    }))
}

/// Reads an N-EVENT-REPORT-RSP (PS3.7 section 10.3.1.2).
fn event_report_response<A: Allocator + Copy>(
    values: &CommandValues<'_>,
) -> Result<Command<A>, DimseFault>
    ensures { (elements : List CommandElement) → HasValues elements values.now → HasUs elements 0x0100 (field_of EventReportResponse)
        → ReadsOrFails (IsCommand elements) (FirstFails elements (needs EventReportResponse)) result }
{
    Ok(Command::Response(ResponseCommand {
        sop_class: uid_of(values.affected_class),
        responded_to: us_of(values.responded_to, RESPONDED_TO)?,
        has_data_set: has_data_set(values)?,
        status: us_of(values.status, STATUS)?,
        result: OperationResult::EventReport {
            instance: uid_of(values.affected_instance),
            event: optional_us_of(values.event_type, EVENT_TYPE)?,
        },
    }))
}

/// Reads an N-GET-RSP (PS3.7 section 10.3.2.2).
fn get_response<A: Allocator + Copy>(values: &CommandValues<'_>) -> Result<Command<A>, DimseFault>
    ensures { (elements : List CommandElement) → HasValues elements values.now → HasUs elements 0x0100 (field_of GetResponse)
        → ReadsOrFails (IsCommand elements) (FirstFails elements (needs GetResponse)) result }
{
    Ok(Command::Response(ResponseCommand {
        sop_class: uid_of(values.affected_class),
        responded_to: us_of(values.responded_to, RESPONDED_TO)?,
        has_data_set: has_data_set(values)?,
        status: us_of(values.status, STATUS)?,
        result: OperationResult::Get {
            instance: uid_of(values.affected_instance),
        },
    }))
}

/// Reads an N-SET-RSP (PS3.7 section 10.3.3.2).
fn set_response<A: Allocator + Copy>(values: &CommandValues<'_>) -> Result<Command<A>, DimseFault>
    ensures { (elements : List CommandElement) → HasValues elements values.now → HasUs elements 0x0100 (field_of SetResponse)
        → ReadsOrFails (IsCommand elements) (FirstFails elements (needs SetResponse)) result }
{
    Ok(Command::Response(ResponseCommand {
        sop_class: uid_of(values.affected_class),
        responded_to: us_of(values.responded_to, RESPONDED_TO)?,
        has_data_set: has_data_set(values)?,
        status: us_of(values.status, STATUS)?,
        result: OperationResult::Set {
            instance: uid_of(values.affected_instance),
        },
    }))
}

/// Reads an N-ACTION-RSP (PS3.7 section 10.3.4.2).
fn action_response<A: Allocator + Copy>(
    values: &CommandValues<'_>,
) -> Result<Command<A>, DimseFault>
    ensures { (elements : List CommandElement) → HasValues elements values.now → HasUs elements 0x0100 (field_of ActionResponse)
        → ReadsOrFails (IsCommand elements) (FirstFails elements (needs ActionResponse)) result }
{
    Ok(Command::Response(ResponseCommand {
        sop_class: uid_of(values.affected_class),
        responded_to: us_of(values.responded_to, RESPONDED_TO)?,
        has_data_set: has_data_set(values)?,
        status: us_of(values.status, STATUS)?,
        result: OperationResult::Action {
            instance: uid_of(values.affected_instance),
            action: us_of(values.action_type, ACTION_TYPE)?,
        },
    }))
}

/// Reads an N-CREATE-RSP (PS3.7 section 10.3.5.2).
fn create_response<A: Allocator + Copy>(
    values: &CommandValues<'_>,
) -> Result<Command<A>, DimseFault>
    ensures { (elements : List CommandElement) → HasValues elements values.now → HasUs elements 0x0100 (field_of CreateResponse)
        → ReadsOrFails (IsCommand elements) (FirstFails elements (needs CreateResponse)) result }
{
    Ok(Command::Response(ResponseCommand {
        sop_class: uid_of(values.affected_class),
        responded_to: us_of(values.responded_to, RESPONDED_TO)?,
        has_data_set: has_data_set(values)?,
        status: us_of(values.status, STATUS)?,
        result: OperationResult::Create {
            instance: uid_of(values.affected_instance),
        },
    }))
}

/// Reads a C-ECHO-RSP (PS3.7 section 9.3.5.2).
fn echo_response<A: Allocator + Copy>(values: &CommandValues<'_>) -> Result<Command<A>, DimseFault>
    ensures { (elements : List CommandElement) → HasValues elements values.now → HasUs elements 0x0100 (field_of EchoResponse)
        → ReadsOrFails (IsCommand elements) (FirstFails elements (needs EchoResponse)) result }
{
    Ok(Command::Response(ResponseCommand {
        sop_class: uid_of(values.affected_class),
        responded_to: us_of(values.responded_to, RESPONDED_TO)?,
        has_data_set: has_data_set(values)?,
        status: us_of(values.status, STATUS)?,
        result: OperationResult::Echo,
    }))
}

/// Reads a C-FIND-RSP (PS3.7 section 9.3.2.2).
fn find_response<A: Allocator + Copy>(values: &CommandValues<'_>) -> Result<Command<A>, DimseFault>
    ensures { (elements : List CommandElement) → HasValues elements values.now → HasUs elements 0x0100 (field_of FindResponse)
        → ReadsOrFails (IsCommand elements) (FirstFails elements (needs FindResponse)) result }
{
    Ok(Command::Response(ResponseCommand {
        sop_class: uid_of(values.affected_class),
        responded_to: us_of(values.responded_to, RESPONDED_TO)?,
        has_data_set: has_data_set(values)?,
        status: us_of(values.status, STATUS)?,
        result: OperationResult::Find,
    }))
}

/// Reads the command of a message. Each message has a function of its own: a function clears the room of all its values
/// before it begins, so one for all messages would clear that of each.
fn command_of<A: Allocator + Copy>(
    alloc: A,
    values: &CommandValues<'_>,
    message: Message,
) -> Result<Command<A>, DimseFault>
    ensures { (elements : List CommandElement) → HasValues elements values.now → HasUs elements 0x0100 (field_of message)
        → ReadsOrFails (IsCommand elements) (FirstFails elements (needs message)) result }
{
    match message {
        Message::EventReportRequest => event_report_request(values),
        Message::EventReportResponse => event_report_response(values),
        Message::GetRequest => get_request(alloc, values),
        Message::GetResponse => get_response(values),
        Message::SetRequest => set_request(values),
        Message::SetResponse => set_response(values),
        Message::ActionRequest => action_request(values),
        Message::ActionResponse => action_response(values),
        Message::CreateRequest => create_request(values),
        Message::CreateResponse => create_response(values),
        Message::EchoRequest => echo_request(values),
        Message::EchoResponse => echo_response(values),
        Message::FindRequest => find_request(values),
        Message::FindResponse => find_response(values),
        Message::CancelRequest => cancel_request(values),
    }
}

/// Reads the command encoded in a command set (PS3.7 section 6.3.1): the bytes of all command fragments of a message.
/// It skips elements that the message does not name, and ignores the value of Command Group Length.
///
/// # Errors
///
/// The first of these, in this order. `BadValue` of (0000,0000): the bytes are not elements of group 0000 with rising
/// tags. `Missing` or `BadValue` of Command Field (0000,0100). `UnknownField`: no known message has that field.
/// `Missing` or `BadValue` of an element of the message, by rising tag: a number is missing (except Priority
/// (0000,0700), and Event Type ID (0000,1002) of an N-EVENT-REPORT-RSP, which are optional) or does not have two bytes,
/// or the length of a list of tags is not a multiple of four. `Memory`: the bytes encode a command, and memory ran out.
pub fn read_command<A: Allocator + Copy>(alloc: A, bytes: &[u8]) -> Result<Command<A>, DimseFault>
    // The bytes encode the command that is read.
    ensures found { IfOk result (SpellsCommand bytes.now) }
    // A command that the bytes encode is read, unless memory runs out.
    ensures only { (command : Command A) → SpellsCommand bytes.now command → MatchResult result (λ c. c ≡ command) (λ e. e ≡ Memory) }
    // A fault is the first one.
    ensures fault { IfErr result (IsCommandFault A bytes.now) }
{
    let Some(values) = values_in(bytes) else {
        return Err(DimseFault::BadValue(command_tag(GROUP_LENGTH)));
    };
    let field = us_of(values.command_field, COMMAND_FIELD)?;
    let Some(message) = Message::of(field) else {
        return Err(DimseFault::UnknownField);
    };
    command_of(alloc, &values, message)
}

/// Does nothing at run time: its contract tells a proof that bytes encode at most one command.
pub fn command_is_unique<A: Allocator + Copy>()
    ensures { (bytes : List ℕ) → (c : Command A) → (d : Command A) → SpellsCommand bytes c → SpellsCommand bytes d → c ≡ d }
{}

/// Does nothing at run time: its contract tells a proof that bytes have at most one first fault, and none if they
/// encode a command, except that memory may run out.
pub fn fault_is_unique<A: Allocator + Copy>()
    ensures { (bytes : List ℕ) → (f : DimseFault) → (g : DimseFault) → IsCommandFault A bytes f → IsCommandFault A bytes g → f ≡ g }
{}
