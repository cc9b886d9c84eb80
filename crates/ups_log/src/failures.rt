//! The responses of a watcher with a failure status.

/// Returns whether a status is a failure: not success, a warning, a cancel or pending (PS3.7 annex C).
pub fn is_failure(status: u16) -> bool {
    !matches!(
        status,
        0x0000 | 0x0001 | 0x0107 | 0x0116 | 0xb000..=0xbfff | 0xfe00 | 0xff00 | 0xff01
    )
}

/// The number of responses with a failure status, and the last of these.
#[derive(Clone, Copy)]
pub struct Failures {
    pub count: u64,
    pub last: u16,
}

impl Failures {
    /// Creates the count of no failures.
    pub fn none() -> Failures {
        Failures { count: 0, last: 0 }
    }
}
