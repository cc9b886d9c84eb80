//! The statuses of responses.

ghost use Rattle.std.specs.Prelude.{◌≡◌};
ghost use Rattle.ups_cycle.specs.Statuses.{code};
ghost use Rattle.ups_cycle.specs.Statuses.{is_done};

/// The answer to a request (PS3.7 annex C, PS3.4 CC.2.1 to CC.2.7 and section C.4.1.1.4). Success and B301 mean that it
/// was accepted.
#[derive(Clone, Copy, Debug, PartialEq, Eq)]
pub enum Status {
    /// 0000: done as requested.
    Success,
    /// 0001: the step does not have some of the requested attributes; the others follow.
    AttributesNotSupported,
    /// 0106: an attribute has a value that is not allowed.
    InvalidAttributeValue,
    /// 0110: the data set could not be read.
    ProcessingFailure,
    /// 0111: a step with this instance UID was created before.
    DuplicateSopInstance,
    /// 0114: a required argument is missing.
    NoSuchArgument,
    /// 0115: an argument has a value that is not allowed.
    InvalidArgumentValue,
    /// 0117: the instance UID is absent, malformed, or has another meaning.
    InvalidObjectInstance,
    /// 0118: the SOP class may not be named here.
    NoSuchSopClass,
    /// 0120: a required attribute is missing.
    MissingAttribute,
    /// 0121: a required attribute has no value.
    MissingAttributeValue,
    /// 0123: the SOP class has no action of this type.
    NoSuchActionType,
    /// 0211: the SOP class does not have this service.
    UnrecognizedOperation,
    /// 0213: there is no room.
    ResourceLimitation,
    /// A700: there is no room to find the matches.
    OutOfResources,
    /// A900: the keys of a query can't be read.
    IdentifierMismatch,
    /// B301: done as requested, but without the Deletion Lock, to which the Receiving AE has no right.
    DeletionLockNotGranted,
    /// B304: the step is already CANCELED, as requested.
    AlreadyCanceled,
    /// B306: the step is already COMPLETED, as requested.
    AlreadyCompleted,
    /// C000: the data set of a query could not be read.
    UnableToProcess,
    /// C300: the step can no longer be updated.
    NoLongerUpdatable,
    /// C301: the correct Transaction UID was not given.
    WrongTransactionUid,
    /// C302: the step is already IN PROGRESS.
    AlreadyInProgress,
    /// C303: a step becomes SCHEDULED only by its creation.
    ScheduledByCreateAlone,
    /// C304: the requirements of the final state are not met.
    FinalStateNotMet,
    /// C307: no step with this instance UID is held.
    UnknownInstance,
    /// C308: the Receiving AE is not one of the peers.
    UnknownReceivingAe,
    /// C309: a step must be created as SCHEDULED.
    NotScheduled,
    /// C310: the step is not yet IN PROGRESS.
    NotInProgress,
    /// C311: the step is COMPLETED, and can no longer be canceled.
    TooLateToCancel,
    /// C314: the action does not apply to this instance.
    ActionNotAppropriate,
    /// FF00: this is a match, and there may be more.
    Pending,
}

impl Status {
    /// Returns whether a request with this status was accepted: it is done, though perhaps without the Deletion Lock
    /// that it asks for.
    pub fn is_done(self) -> bool
        ensures { result ≡ is_done self }
    {
        match self {
            Status::Success | Status::DeletionLockNotGranted => true,
            _ => false,
        }
    }

    /// Returns the code of the status in a response (PS3.7 annex C).
    pub fn code(self) -> u16
        ensures { result ≡ code self }
    {
        match self {
            Status::Success => 0x0000,
            Status::AttributesNotSupported => 0x0001,
            Status::InvalidAttributeValue => 0x0106,
            Status::ProcessingFailure => 0x0110,
            Status::DuplicateSopInstance => 0x0111,
            Status::NoSuchArgument => 0x0114,
            Status::InvalidArgumentValue => 0x0115,
            Status::InvalidObjectInstance => 0x0117,
            Status::NoSuchSopClass => 0x0118,
            Status::MissingAttribute => 0x0120,
            Status::MissingAttributeValue => 0x0121,
            Status::NoSuchActionType => 0x0123,
            Status::UnrecognizedOperation => 0x0211,
            Status::ResourceLimitation => 0x0213,
            Status::OutOfResources => 0xA700,
            Status::IdentifierMismatch => 0xA900,
            Status::DeletionLockNotGranted => 0xB301,
            Status::AlreadyCanceled => 0xB304,
            Status::AlreadyCompleted => 0xB306,
            Status::UnableToProcess => 0xC000,
            Status::NoLongerUpdatable => 0xC300,
            Status::WrongTransactionUid => 0xC301,
            Status::AlreadyInProgress => 0xC302,
            Status::ScheduledByCreateAlone => 0xC303,
            Status::FinalStateNotMet => 0xC304,
            Status::UnknownInstance => 0xC307,
            Status::UnknownReceivingAe => 0xC308,
            Status::NotScheduled => 0xC309,
            Status::NotInProgress => 0xC310,
            Status::TooLateToCancel => 0xC311,
            Status::ActionNotAppropriate => 0xC314,
            Status::Pending => 0xFF00,
        }
    }
}
