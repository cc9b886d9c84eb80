//! The operations of records.

ghost use Rattle.std.specs.Prelude.{◌≡◌};
ghost use Rattle.ups_journal.specs.Operations.{name_of, operation_named};

use std::fmt::{self, Display, Formatter};

/// The operation of an accepted request. A store keeps its name, which never changes.
#[derive(Clone, Copy, Debug, PartialEq, Eq)]
pub enum RecordedOperation {
    /// The creation of a step (N-CREATE).
    Create,
    /// The change of the state of a step (N-ACTION type 1).
    Change,
    /// The request to cancel a step (N-ACTION type 2).
    AskCancel,
    /// The setting of attributes of a step (N-SET).
    Set,
    /// The subscription of a watcher (N-ACTION type 3).
    Subscribe,
    /// The end of subscriptions of a watcher (N-ACTION type 4).
    Unsubscribe,
    /// The end of the global subscription of a watcher (N-ACTION type 5).
    Suspend,
    /// The acknowledgment of events.
    Acknowledge,
    /// The removal of final steps.
    Sweep,
    /// The reservation of the instance UID of a step.
    Reserve,
}

impl RecordedOperation {
    /// Returns the name of the operation, as a store keeps it: another would be another format. No two operations have
    /// the same.
    pub fn name(self) -> &'static [u8]
        ensures { result.now ≡ name_of self }
    {
        match self {
            RecordedOperation::Create => b"create",
            RecordedOperation::Change => b"change state",
            RecordedOperation::AskCancel => b"request cancel",
            RecordedOperation::Set => b"set",
            RecordedOperation::Subscribe => b"subscribe",
            RecordedOperation::Unsubscribe => b"unsubscribe",
            RecordedOperation::Suspend => b"suspend",
            RecordedOperation::Acknowledge => b"acknowledge",
            RecordedOperation::Sweep => b"sweep",
            RecordedOperation::Reserve => b"reserve",
        }
    }

    /// Returns the operation with this name, or None if there is none.
    #[tactic(auto, unfolding(crate::specs::Operations::operation_named))]
    pub fn named(name: &[u8]) -> Option<RecordedOperation>
        ensures { result ≡ operation_named name.now }
    {
        if name == RecordedOperation::Create.name() {
            Some(RecordedOperation::Create)
        } else if name == RecordedOperation::Change.name() {
            Some(RecordedOperation::Change)
        } else if name == RecordedOperation::AskCancel.name() {
            Some(RecordedOperation::AskCancel)
        } else if name == RecordedOperation::Set.name() {
            Some(RecordedOperation::Set)
        } else if name == RecordedOperation::Subscribe.name() {
            Some(RecordedOperation::Subscribe)
        } else if name == RecordedOperation::Unsubscribe.name() {
            Some(RecordedOperation::Unsubscribe)
        } else if name == RecordedOperation::Suspend.name() {
            Some(RecordedOperation::Suspend)
        } else if name == RecordedOperation::Acknowledge.name() {
            Some(RecordedOperation::Acknowledge)
        } else if name == RecordedOperation::Sweep.name() {
            Some(RecordedOperation::Sweep)
        } else if name == RecordedOperation::Reserve.name() {
            Some(RecordedOperation::Reserve)
        } else {
            None
        }
    }
}

impl Display for RecordedOperation {
    fn fmt<W: fmt::Write>(&self, f: &mut Formatter<W>) -> fmt::Result {
        f.write_str(str::from_utf8(self.name()).unwrap_or(""))
    }
}
