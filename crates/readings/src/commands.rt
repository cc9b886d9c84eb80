//! Commands: what they say, and how they are written again.

use crate::lines::{line_of, no_row, out_of_memory};
use fixtures::add_bytes;
use std::alloc::{AllocError, Global};
use std::io;
use ups_dataset::Tag;
use ups_dimse::{
    Command, DimseFault, Operation, OperationResult, RequestCommand, ResponseCommand, read_command,
    write_command,
};
use ups_pdu::Uid;

/// Returns a line with the encoded command, and the command written again.
///
/// Errors: lack of memory.
pub(crate) fn command_line(alloc: Global, bytes: &[u8]) -> io::Result<String> {
    match read_command(alloc, bytes) {
        Ok(command) => line_of_command(alloc, &command),
        Err(fault) => fault_line(alloc, fault),
    }
}

/// Returns a line with the response to the encoded request, and the response written. The words are the status and
/// whether a data set follows; if the request names no SOP class, that of the response is 1.2.
///
/// Errors: InvalidData if the words are not valid or the bytes are not a request; lack of memory.
pub(crate) fn answer_line(alloc: Global, words: &str, bytes: &[u8]) -> io::Result<String> {
    let Some((status, data)) = words.split_once(' ') else {
        return Err(no_row());
    };
    let Ok(status) = status.parse::<u16>() else {
        return Err(no_row());
    };
    match read_command(alloc, bytes) {
        Ok(Command::Request(request)) => response_line(alloc, &request, status, data == "yes"),
        Ok(_) => Err(no_row()),
        Err(fault) => fault_line(alloc, fault),
    }
}

/// Returns a line with the response to a request, and the response written.
fn response_line(
    alloc: Global,
    request: &RequestCommand<Global>,
    status: u16,
    has_data_set: bool,
) -> io::Result<String> {
    let Some(sop_class) = Uid::of(b"1.2") else {
        return Err(no_row());
    };
    let answer = request.answered(sop_class, status, has_data_set);
    line_of_command(alloc, &Command::Response(answer))
}

/// Returns a line with a fault, with the number of its element if it has one.
///
/// Errors: lack of memory, also if that is the fault.
fn fault_line(alloc: Global, fault: DimseFault) -> io::Result<String> {
    let told = match fault {
        DimseFault::Missing(tag) => format!(in alloc; "Missing {:08x}", tag.number())?,
        DimseFault::BadValue(tag) => format!(in alloc; "BadValue {:08x}", tag.number())?,
        DimseFault::UnknownField => format!(in alloc; "UnknownField")?,
        DimseFault::Memory => return Err(out_of_memory()),
    };
    line_of(alloc, told.as_str(), b"")
}

/// Returns a line with a command, and the command written.
fn line_of_command(alloc: Global, command: &Command<Global>) -> io::Result<String> {
    let told = described(alloc, command)?;
    let written = written(alloc, command)?;
    line_of(alloc, told.as_str(), &written)
}

/// Writes a command.
///
/// Errors: InvalidData if it is too long to be written; lack of memory.
fn written(alloc: Global, command: &Command<Global>) -> io::Result<Vec<u8>> {
    if !command.fits() {
        return Err(no_row());
    }
    Ok(write_command(alloc, command)?)
}

/// Returns what a command says, as a text.
fn described(alloc: Global, command: &Command<Global>) -> Result<String, AllocError> {
    let told = told_of(command);
    let mut text = format!(in alloc; "{} {} data {}", told.message, told.id, told.has_data_set)?;
    add_uid(&mut text, " class ", class_of(command))?;
    add_uid(&mut text, " instance ", told.instance)?;
    write!(text, " number {:?} status {:?}", told.number, told.status)?;
    write!(text, " attributes {:?}", listed(command))?;
    Ok(text)
}

/// Adds a word and a UID, or `-` if there is none.
fn add_uid(text: &mut String, word: &str, uid: Option<Uid>) -> Result<(), AllocError> {
    text.push_str(word)?;
    match uid {
        Some(uid) => add_bytes(text, uid.as_bytes()),
        None => text.push('-'),
    }
}

/// What a command says, except for its SOP class and the attributes that it lists.
#[derive(Clone, Copy)]
struct Told {
    message: &'static str,
    id: u16,
    has_data_set: bool,
    instance: Option<Uid>,
    number: Option<u16>,
    status: Option<u16>,
}

fn told_of_request(request: &RequestCommand<Global>) -> Told {
    let (message, instance, number) = match &request.operation {
        Operation::EventReport { instance, event } => {
            ("event report request", *instance, Some(*event))
        }
        Operation::Create { instance } => ("create request", *instance, None),
        Operation::Get { instance, .. } => ("get request", *instance, None),
        Operation::Set { instance } => ("set request", *instance, None),
        Operation::Action { instance, action } => ("action request", *instance, Some(*action)),
        Operation::Echo => ("echo request", None, None),
        Operation::Find { priority } => ("find request", None, *priority),
    };
    Told {
        message,
        id: request.message_id,
        has_data_set: request.has_data_set,
        instance,
        number,
        status: None,
    }
}

fn told_of_response(response: &ResponseCommand) -> Told {
    let (message, instance, number) = match response.result {
        OperationResult::EventReport { instance, event } => {
            ("event report response", instance, event)
        }
        OperationResult::Create { instance } => ("create response", instance, None),
        OperationResult::Get { instance } => ("get response", instance, None),
        OperationResult::Set { instance } => ("set response", instance, None),
        OperationResult::Action { instance, action } => ("action response", instance, Some(action)),
        OperationResult::Echo => ("echo response", None, None),
        OperationResult::Find => ("find response", None, None),
    };
    Told {
        message,
        id: response.responded_to,
        has_data_set: response.has_data_set,
        instance,
        number,
        status: Some(response.status),
    }
}

fn told_of(command: &Command<Global>) -> Told {
    match command {
        Command::Request(request) => told_of_request(request),
        Command::Response(response) => told_of_response(response),
        Command::Cancel(cancel) => Told {
            message: "cancel request",
            id: cancel.responded_to,
            has_data_set: cancel.has_data_set,
            instance: None,
            number: None,
            status: None,
        },
    }
}

/// Returns the SOP class of a command.
fn class_of(command: &Command<Global>) -> Option<Uid> {
    match command {
        Command::Request(request) => request.sop_class,
        Command::Response(response) => response.sop_class,
        Command::Cancel(_) => None,
    }
}

/// Returns the attributes that a command lists.
fn listed(command: &Command<Global>) -> &[Tag] {
    match command {
        Command::Request(request) => match &request.operation {
            Operation::Get { attributes, .. } => attributes.as_slice(),
            _ => &[],
        },
        _ => &[],
    }
}
