//! The reasons why a data set is not accepted as keys.

use thiserror::Error;

/// The reason why keys are unreadable (PS3.4 section C.2.2.2): the fault of the first such key by rising tag.
#[derive(Clone, Copy, Debug, PartialEq, Eq, Error)]
pub enum KeyFault {
    /// A key with the value representation DT is neither a DT nor a range of DTs (PS3.4 section C.2.2.2.5).
    #[error("a key is no date and time, and no range of them")]
    BadRange,
    /// A sequence has more than one item (PS3.4 section C.2.2.2.6).
    #[error("a sequence of the keys has more than one item")]
    TwoItems,
}
