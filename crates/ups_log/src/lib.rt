//! The log of the server: its lines, what they are about, and the counts behind them (also for a file of numbers).
//!
//! What is logged changes no answer, and no contract says that a line is written. The contracts here are about what the
//! server does with what is logged: the moment, the result of an association, and the format of numbers.
#![tactic(auto)]

mod account;
mod audit;
mod clock;
mod digest;
mod failures;
mod first_bytes;
mod heading;
mod journal;
mod kinds;
mod line_queue;
mod lossy_log;
mod metrics;
mod tally;

pub use account::Account;
pub use audit::{AuditedAsk, tell_done, tell_swept};
pub use clock::{milliseconds_of, moment_of};
pub use digest::{Digest, UnloggedDeliveries};
pub use failures::{Failures, is_failure};
pub use heading::LineStyle;
pub use journal::{
    Delivered, Overrun, Tried, end_told, reason_in, tell_all_taken, tell_away, tell_back,
    tell_compacted, tell_crowd, tell_digest, tell_given_up, tell_recovered, tell_tried,
    tell_uncommitted, tell_uncompacted, tell_unwritten, title_of,
};
pub use kinds::{KINDS, KindCount, KindCounts, RequestKind, StatusCount};
pub use lossy_log::LossyLog;
pub use metrics::{Label, Labels, Metric, MetricKind, put_heading, put_metric, put_sample};
pub use tally::Tally;
