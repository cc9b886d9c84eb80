//! A difference between the terms of two runs.

use std::fmt::{self, Debug, Formatter};
use std::str;
use thiserror::Error;
use ups_pdu::Ae;

/// What an earlier run had, and a later one lacks.
#[derive(Clone, Copy, PartialEq, Eq, Error)]
pub enum Difference {
    /// Finished steps were kept for this number of seconds.
    #[error("finished steps were kept for {0} seconds")]
    Keep(u32),
    /// The local time had this offset from UTC, in minutes.
    #[error("the offset from UTC was {0} minutes")]
    Offset(i16),
    /// The application entity might watch steps.
    #[error("{} was a peer", title_of(.0))]
    Peer(Ae),
    /// The application entity might lock steps against removal.
    #[error("{} had the right to lock steps", title_of(.0))]
    Lock(Ae),
}

/// Returns a title as text.
fn title_of(ae: &Ae) -> &str {
    str::from_utf8(ae.as_bytes()).unwrap_or("")
}

impl Debug for Difference {
    fn fmt<W: fmt::Write>(&self, f: &mut Formatter<W>) -> fmt::Result {
        write!(f, "{self}")
    }
}
