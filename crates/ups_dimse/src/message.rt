//! The messages that command sets belong to.

ghost use Rattle.std.specs.Prelude.{◌≡◌, MatchOption};
ghost use Rattle.ups_dimse.specs.declared.message.Message.{Message};
ghost use Rattle.ups_dimse.specs.Messages.{field_of};

/// The messages that are read and written.
#[derive(Clone, Copy, Debug, PartialEq, Eq)]
pub(crate) enum Message {
    /// N-EVENT-REPORT-RQ (PS3.7 section 10.3.1.1).
    EventReportRequest,
    /// N-EVENT-REPORT-RSP (PS3.7 section 10.3.1.2).
    EventReportResponse,
    /// N-GET-RQ (PS3.7 section 10.3.2.1).
    GetRequest,
    /// N-GET-RSP (PS3.7 section 10.3.2.2).
    GetResponse,
    /// N-SET-RQ (PS3.7 section 10.3.3.1).
    SetRequest,
    /// N-SET-RSP (PS3.7 section 10.3.3.2).
    SetResponse,
    /// N-ACTION-RQ (PS3.7 section 10.3.4.1).
    ActionRequest,
    /// N-ACTION-RSP (PS3.7 section 10.3.4.2).
    ActionResponse,
    /// N-CREATE-RQ (PS3.7 section 10.3.5.1).
    CreateRequest,
    /// N-CREATE-RSP (PS3.7 section 10.3.5.2).
    CreateResponse,
    /// C-ECHO-RQ (PS3.7 section 9.3.5.1).
    EchoRequest,
    /// C-ECHO-RSP (PS3.7 section 9.3.5.2).
    EchoResponse,
    /// C-FIND-RQ (PS3.7 section 9.3.2.1).
    FindRequest,
    /// C-FIND-RSP (PS3.7 section 9.3.2.2).
    FindResponse,
    /// C-CANCEL-RQ (PS3.7 section 9.3.2.3).
    CancelRequest,
}

/// The values of Command Field (PS3.7 annex E.1).
mod field {
    pub(super) const EVENT_REPORT_REQUEST: u16 = 0x0100;

    pub(super) const EVENT_REPORT_RESPONSE: u16 = 0x8100;

    pub(super) const GET_REQUEST: u16 = 0x0110;

    pub(super) const GET_RESPONSE: u16 = 0x8110;

    pub(super) const SET_REQUEST: u16 = 0x0120;

    pub(super) const SET_RESPONSE: u16 = 0x8120;

    pub(super) const ACTION_REQUEST: u16 = 0x0130;

    pub(super) const ACTION_RESPONSE: u16 = 0x8130;

    pub(super) const CREATE_REQUEST: u16 = 0x0140;

    pub(super) const CREATE_RESPONSE: u16 = 0x8140;

    pub(super) const ECHO_REQUEST: u16 = 0x0030;

    pub(super) const ECHO_RESPONSE: u16 = 0x8030;

    pub(super) const FIND_REQUEST: u16 = 0x0020;

    pub(super) const FIND_RESPONSE: u16 = 0x8020;

    pub(super) const CANCEL_REQUEST: u16 = 0x0fff;
}

impl Message {
    /// Returns the value of its Command Field.
    pub(crate) fn field(self) -> u16
        ensures { result ≡ field_of self }
    {
        match self {
            Message::EventReportRequest => field::EVENT_REPORT_REQUEST,
            Message::EventReportResponse => field::EVENT_REPORT_RESPONSE,
            Message::GetRequest => field::GET_REQUEST,
            Message::GetResponse => field::GET_RESPONSE,
            Message::SetRequest => field::SET_REQUEST,
            Message::SetResponse => field::SET_RESPONSE,
            Message::ActionRequest => field::ACTION_REQUEST,
            Message::ActionResponse => field::ACTION_RESPONSE,
            Message::CreateRequest => field::CREATE_REQUEST,
            Message::CreateResponse => field::CREATE_RESPONSE,
            Message::EchoRequest => field::ECHO_REQUEST,
            Message::EchoResponse => field::ECHO_RESPONSE,
            Message::FindRequest => field::FIND_REQUEST,
            Message::FindResponse => field::FIND_RESPONSE,
            Message::CancelRequest => field::CANCEL_REQUEST,
        }
    }

    /// Returns the message with this value of Command Field, or None if there is none.
    pub(crate) fn of(field: u16) -> Option<Message>
        ensures { MatchOption result ((message : Message) → field_of message ≡ field → ⊥) (λ message. field_of message ≡ field) }
    {
        match field {
            field::EVENT_REPORT_REQUEST => Some(Message::EventReportRequest),
            field::EVENT_REPORT_RESPONSE => Some(Message::EventReportResponse),
            field::GET_REQUEST => Some(Message::GetRequest),
            field::GET_RESPONSE => Some(Message::GetResponse),
            field::SET_REQUEST => Some(Message::SetRequest),
            field::SET_RESPONSE => Some(Message::SetResponse),
            field::ACTION_REQUEST => Some(Message::ActionRequest),
            field::ACTION_RESPONSE => Some(Message::ActionResponse),
            field::CREATE_REQUEST => Some(Message::CreateRequest),
            field::CREATE_RESPONSE => Some(Message::CreateResponse),
            field::ECHO_REQUEST => Some(Message::EchoRequest),
            field::ECHO_RESPONSE => Some(Message::EchoResponse),
            field::FIND_REQUEST => Some(Message::FindRequest),
            field::FIND_RESPONSE => Some(Message::FindResponse),
            field::CANCEL_REQUEST => Some(Message::CancelRequest),
            _ => None,
        }
    }
}
