//! The limits of the service.

/// The latest moment, in seconds since 1970-01-01 UTC: its local time is before the year 10000 at every offset.
pub const MAX_MOMENT: u64 = 253_402_250_399;

/// The maximum number of bytes, in Explicit VR Little Endian, of a row that is created, set or asked to be canceled.
/// Changes of its state may add up to 40 bytes.
pub const MAX_ROW_BYTES: u64 = 1_048_576;

/// The maximum number of requests in a history.
pub const MAX_HISTORY: u64 = 1_000_000;

/// The maximum number of peers.
pub const MAX_PEERS: usize = 1_000;

/// The least offset of the local time from UTC, in minutes: 12 hours west (PS3.5 section 6.2, DT).
pub const MIN_OFFSET: i16 = -720;

/// The greatest offset of the local time from UTC, in minutes: 14 hours east (PS3.5 section 6.2, DT).
pub const MAX_OFFSET: i16 = 840;
