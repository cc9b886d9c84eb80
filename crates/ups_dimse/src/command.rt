//! The commands of messages.

use crate::limits::MAX_ATTRIBUTES;
use crate::message::Message;
use crate::numbers::{AFFECTED_CLASS, REQUESTED_CLASS};
use crate::tag_list::Tags;
use std::alloc::Allocator;
use ups_pdu::Uid;

/// The command encoded in a command set (PS3.7 section 6.3.1).
#[derive(Drop)]
pub enum Command<A: Allocator + Copy> {
    /// The command of a request (PS3.7 sections 9.3 and 10.3).
    Request(RequestCommand<A>),
    /// The command of a response (PS3.7 sections 9.3 and 10.3).
    Response(ResponseCommand),
    /// The command of a C-CANCEL, which has no response (PS3.7 section 9.3.2.3).
    Cancel(CancelCommand),
}

/// The command of a request.
pub struct RequestCommand<A: Allocator + Copy> {
    /// The Affected or Requested SOP Class UID, whichever the operation has; None if it is absent or malformed.
    pub sop_class: Option<Uid>,
    /// Message ID (0000,0110).
    pub message_id: u16,
    /// Whether a data set follows the command, by Command Data Set Type (0000,0800).
    pub has_data_set: bool,
    /// The requested operation.
    pub operation: Operation<A>,
}

impl<A: Allocator + Copy> Drop for RequestCommand<A> {
    fn drop(self) {
        let RequestCommand {
            sop_class: _,
            message_id: _,
            has_data_set: _,
            operation: _,
        } = self;
    }
}

/// The operation that a request asks for, with its own elements of the command.
#[derive(Drop)]
pub enum Operation<A: Allocator + Copy> {
    /// N-EVENT-REPORT (PS3.7 section 10.3.1). The data set is the report.
    EventReport {
        /// Affected SOP Instance UID (0000,1000); None if it is absent or malformed.
        instance: Option<Uid>,
        /// Event Type ID (0000,1002).
        event: u16,
    },
    /// N-CREATE (PS3.7 section 10.3.5).
    Create {
        /// Affected SOP Instance UID (0000,1000); None if it is absent or malformed.
        instance: Option<Uid>,
    },
    /// N-GET (PS3.7 section 10.3.2).
    Get {
        /// Requested SOP Instance UID (0000,1001); None if it is absent or malformed.
        instance: Option<Uid>,
        /// Attribute Identifier List (0000,1005); no tags if it is absent.
        attributes: Tags<A>,
    },
    /// N-SET (PS3.7 section 10.3.3).
    Set {
        /// Requested SOP Instance UID (0000,1001); None if it is absent or malformed.
        instance: Option<Uid>,
    },
    /// N-ACTION (PS3.7 section 10.3.4).
    Action {
        /// Requested SOP Instance UID (0000,1001); None if it is absent or malformed.
        instance: Option<Uid>,
        /// Action Type ID (0000,1008).
        action: u16,
    },
    /// C-ECHO (PS3.7 section 9.3.5), which asks whether the peer answers. It has no instance.
    Echo,
    /// C-FIND (PS3.7 section 9.3.2), which asks for the matches of an identifier, the data set. It has no instance.
    Find {
        /// Priority (0000,0700), whatever its number; None if it is absent.
        priority: Option<u16>,
    },
}

/// The command of a response.
#[derive(Clone, Copy)]
pub struct ResponseCommand {
    /// Affected SOP Class UID (0000,0002); None if it is absent or malformed.
    pub sop_class: Option<Uid>,
    /// Message ID Being Responded To (0000,0120).
    pub responded_to: u16,
    /// Whether a data set follows the command, by Command Data Set Type (0000,0800).
    pub has_data_set: bool,
    /// Status (0000,0900) (PS3.7 annex C).
    pub status: u16,
    /// The result of the operation.
    pub result: OperationResult,
}

/// The operation that a response answers, with its own elements of the command.
#[derive(Clone, Copy)]
pub enum OperationResult {
    /// N-EVENT-REPORT (PS3.7 section 10.3.1.2).
    EventReport {
        /// Affected SOP Instance UID (0000,1000); None if it is absent or malformed.
        instance: Option<Uid>,
        /// Event Type ID (0000,1002); None if it is absent, which is allowed if there is no event reply.
        event: Option<u16>,
    },
    /// N-CREATE (PS3.7 section 10.3.5.2).
    Create {
        /// Affected SOP Instance UID (0000,1000); None if it is absent or malformed.
        instance: Option<Uid>,
    },
    /// N-GET (PS3.7 section 10.3.2.2).
    Get {
        /// Affected SOP Instance UID (0000,1000); None if it is absent or malformed.
        instance: Option<Uid>,
    },
    /// N-SET (PS3.7 section 10.3.3.2).
    Set {
        /// Affected SOP Instance UID (0000,1000); None if it is absent or malformed.
        instance: Option<Uid>,
    },
    /// N-ACTION (PS3.7 section 10.3.4.2).
    Action {
        /// Affected SOP Instance UID (0000,1000); None if it is absent or malformed.
        instance: Option<Uid>,
        /// Action Type ID (0000,1008).
        action: u16,
    },
    /// C-ECHO (PS3.7 section 9.3.5.2).
    Echo,
    /// C-FIND (PS3.7 section 9.3.2.2).
    Find,
}

/// The command of a C-CANCEL, a request to cancel an operation.
#[derive(Clone, Copy)]
pub struct CancelCommand {
    /// Message ID Being Responded To (0000,0120): the Message ID of the operation.
    pub responded_to: u16,
    /// Whether a data set follows the command, by Command Data Set Type (0000,0800). The standard allows none.
    pub has_data_set: bool,
}

impl<A: Allocator + Copy> Command<A> {
    ghost use Rattle.std.specs.Prelude.{◌↔◌, IsTrue};
    ghost use Rattle.ups_dimse.specs.Written.{FitsCommand};

    /// Returns whether the length of its elements fits Command Group Length (0000,0000), as it does for every command
    /// except a request for about 2^30 attributes.
    pub fn fits(&self) -> bool
        ensures { IsTrue result ↔ FitsCommand self.now }
    {
        match self {
            Command::Request(request) => request.operation.attributes() <= MAX_ATTRIBUTES,
            Command::Response(_) => true,
            Command::Cancel(_) => true,
        }
    }
}

impl<A: Allocator + Copy> Operation<A> {
    ghost use Rattle.std.specs.Prelude.{◌≡◌, length};
    ghost use Rattle.ups_dimse.specs.Commands.{request_of, class_element};
    ghost use Rattle.ups_dimse.specs.Written.{tags_of, priority_of};

    /// Returns the message that requests the operation.
    pub(crate) fn message(&self) -> Message
        ensures { result ≡ request_of self.now }
    {
        match self {
            Operation::EventReport { .. } => Message::EventReportRequest,
            Operation::Create { .. } => Message::CreateRequest,
            Operation::Get { .. } => Message::GetRequest,
            Operation::Set { .. } => Message::SetRequest,
            Operation::Action { .. } => Message::ActionRequest,
            Operation::Echo => Message::EchoRequest,
            Operation::Find { .. } => Message::FindRequest,
        }
    }

    /// Returns the number of the element that names the SOP class of the request.
    pub(crate) fn class_element(&self) -> u16
        ensures { result ≡ class_element self.now }
    {
        match self {
            Operation::EventReport { .. }
            | Operation::Create { .. }
            | Operation::Echo
            | Operation::Find { .. } => AFFECTED_CLASS,
            Operation::Get { .. } | Operation::Set { .. } | Operation::Action { .. } => {
                REQUESTED_CLASS
            }
        }
    }

    /// Returns Priority (0000,0700), if there is one.
    pub(crate) fn priority(&self) -> Option<u16>
        ensures { result ≡ priority_of self.now }
    {
        match self {
            Operation::Find { priority } => *priority,
            _ => None,
        }
    }

    /// Returns the number of attributes listed.
    fn attributes(&self) -> usize
        ensures { result ≡ length (tags_of self.now) }
    {
        match self {
            Operation::Get { attributes, .. } => attributes.as_slice().len(),
            _ => 0,
        }
    }
}

impl OperationResult {
    ghost use Rattle.std.specs.Prelude.{◌≡◌};
    ghost use Rattle.ups_dimse.specs.Commands.{response_of};

    /// Returns the message that responds with the result.
    pub(crate) fn message(self) -> Message
        ensures { result ≡ response_of self }
    {
        match self {
            OperationResult::EventReport { .. } => Message::EventReportResponse,
            OperationResult::Create { .. } => Message::CreateResponse,
            OperationResult::Get { .. } => Message::GetResponse,
            OperationResult::Set { .. } => Message::SetResponse,
            OperationResult::Action { .. } => Message::ActionResponse,
            OperationResult::Echo => Message::EchoResponse,
            OperationResult::Find => Message::FindResponse,
        }
    }
}

impl<A: Allocator + Copy> RequestCommand<A> {
    ghost use Rattle.std.specs.Prelude.{◌≡◌, Some};
    ghost use Rattle.std.specs.Option.{unwrap_or};
    ghost use Rattle.ups_dimse.specs.Commands.{result_of};

    /// Returns the response to this request, with its SOP class, or `sop_class` if it names none, and its Message ID,
    /// operation, instance and event type or action type.
    pub fn answered(&self, sop_class: Uid, status: u16, has_data_set: bool) -> ResponseCommand
        ensures class { result.sop_class ≡ Some (unwrap_or self.now.sop_class sop_class) }
        ensures responded_to { result.responded_to ≡ self.now.message_id }
        ensures data_set { result.has_data_set ≡ has_data_set }
        ensures status { result.status ≡ status }
        ensures operation { result.result ≡ result_of self.now.operation }
    {
        let result = match &self.operation {
            Operation::EventReport { instance, event } => OperationResult::EventReport {
                instance: *instance,
                event: Some(*event),
            },
            Operation::Create { instance } => OperationResult::Create {
                instance: *instance,
            },
            Operation::Get { instance, .. } => OperationResult::Get {
                instance: *instance,
            },
            Operation::Set { instance } => OperationResult::Set {
                instance: *instance,
            },
            Operation::Action { instance, action } => OperationResult::Action {
                instance: *instance,
                action: *action,
            },
            Operation::Echo => OperationResult::Echo,
            Operation::Find { .. } => OperationResult::Find,
        };
        ResponseCommand {
            sop_class: Some(self.sop_class.unwrap_or(sop_class)),
            responded_to: self.message_id,
            has_data_set,
            status,
            result,
        }
    }
}
