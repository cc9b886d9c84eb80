//! Refused acknowledgements.

/// The reason why an acknowledgement is refused. Acknowledgements are the profile's: PS3.4 CC.2.4 has only the response
/// to a report.
#[derive(Clone, Copy, Debug, PartialEq, Eq)]
pub enum AckFault {
    /// The number is greater than that of any event made for the watcher.
    AckAhead,
    /// The watcher has acknowledged this number, or a greater one, before.
    AckStale,
}
