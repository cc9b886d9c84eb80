//! The lines that the server logs, mostly on associations.

ghost use Rattle.std.specs.Prelude.{◌≡◌};
ghost use Rattle.ups_log.specs.Journal.{end_told};

use crate::digest::Digest;
use crate::failures::Failures;
use crate::kinds::RequestKind;
use log::{Log, error, info, warn};
use std::io::ErrorKind;
use std::time::Duration;
use std::{fmt, str};
use ups_dimse::OperationResult;
use ups_ledger::{CommitFault, LedgerFault};
use ups_pdu::{Ae, Uid};
use ups_session::{End, SessionFault};

/// Returns the result of an association to log, given that of its session and whether the last waiting bytes could be
/// sent.
///
/// If the session ended well but its last bytes could not be sent, the association failed to write.
pub fn end_told(ended: Result<End, SessionFault>, is_sent: bool) -> Result<End, SessionFault>
    ensures { result ≡ end_told is_sent ended }
{
    if is_sent {
        return ended;
    }
    match ended {
        Ok(_) => Err(SessionFault::Write),
        Err(fault) => Err(fault),
    }
}

/// Returns a title as text.
pub fn title_of(ae: &Ae) -> &str {
    str::from_utf8(ae.as_bytes()).unwrap_or("")
}

/// Returns the name of the result of an association.
pub(crate) fn name_of(ended: &Result<End, SessionFault>) -> &'static str {
    match ended {
        Ok(End::Released) => "Released",
        Ok(End::AbortSent) => "AbortSent",
        Ok(End::AbortReceived) => "AbortReceived",
        Ok(End::Closed) => "Closed",
        Ok(End::Rejected) => "Rejected",
        Err(SessionFault::Read) => "Read",
        Err(SessionFault::Write) => "Write",
        Err(SessionFault::Turns) => "Turns",
        Err(SessionFault::Memory) => "Memory",
    }
}

/// The limit that a peer ran into.
#[derive(Clone, Copy)]
pub enum Overrun {
    /// It was silent for too long between two messages.
    Idle,
    /// It took too long to send a message.
    Message,
    /// It took too long to take an answer or a report.
    Answer,
    /// It used up its time for all the reports of an association.
    Whole,
    /// Another connection waited, and it had to make way.
    Way,
    /// What an answer to it rests on was not committed in time, so the answer was not sent.
    Commit,
}

/// Returns the name of the result of an association whose peer may have run into a limit: that of the limit, if the
/// session stopped at it.
pub(crate) fn name_with(
    ended: &Result<End, SessionFault>,
    overrun: Option<Overrun>,
) -> &'static str {
    match (ended, overrun) {
        (Err(SessionFault::Read | SessionFault::Write), Some(Overrun::Idle)) => "Idle",
        (Err(SessionFault::Read | SessionFault::Write), Some(Overrun::Whole)) => "Paused",
        (Err(SessionFault::Read | SessionFault::Write), Some(Overrun::Way)) => "MadeWay",
        (Err(SessionFault::Read | SessionFault::Write), Some(Overrun::Commit)) => "Uncommitted",
        (Err(SessionFault::Read | SessionFault::Write), Some(_)) => "Timeout",
        _ => name_of(ended),
    }
}

/// Warns if memory ran out.
pub(crate) fn warn_of<R: Log>(rt: &R, ended: &Result<End, SessionFault>) {
    if let Err(SessionFault::Memory) = ended {
        warn!(rt; target: "upsd", "out of memory: the limit of the address space (RLIMIT_AS) is reached");
    }
}

/// Warns that each of `workers` workers serves an association, and how many connections wait, if that is known.
pub fn tell_all_taken<R: Log>(rt: &R, workers: u32, waiting: Option<u64>) {
    match waiting {
        Some(waiting) => {
            warn!(rt; target: "upsd", "serve: each of {workers} workers has an association, {waiting} connections wait");
        }
        None => {
            warn!(rt; target: "upsd", "serve: each of {workers} workers has an association, others wait");
        }
    }
}

/// Logs that new entries can't be committed to the store, and why: no answer that rests on them is sent. If the store
/// is lost, only a restart helps.
pub fn tell_uncommitted<R: Log>(rt: &R, fault: CommitFault) {
    match fault {
        CommitFault::Ledger(LedgerFault::Lost) => {
            error!(rt; target: "upsd", "serve: the store is lost: {fault}; what is asked is not answered: restart");
        }
        _ => {
            error!(rt; target: "upsd", "serve: the store takes no requests: {fault}; what rests on them is not answered");
        }
    }
}

/// Logs that the store takes requests again.
pub fn tell_recovered<R: Log>(rt: &R, committed: u64) {
    info!(rt; target: "upsd", "serve: the store takes requests again: {committed} are committed");
}

/// Logs that the store was compacted while it was in use, from `before` requests to `after`, and how long that took.
pub fn tell_compacted<R: Log>(rt: &R, before: u64, after: u64, elapsed: Duration) {
    let time = Time(elapsed);
    info!(rt; target: "upsd", "store: compacted from {before} requests to {after}, in {time}");
}

/// Warns that the store could not be compacted while it was in use, and why. It goes on as it was.
pub fn tell_uncompacted<R: Log>(rt: &R, fault: LedgerFault) {
    warn!(rt; target: "upsd", "store: not compacted: {fault}");
}

/// Warns that `more` requests of a peer were refused beyond those that were logged.
pub(crate) fn tell_more_of<R: Log>(rt: &R, more: u64, peer: &str) {
    warn!(rt; target: "upsd", "serve: {more} more requests of {peer} were refused in the last minute");
}

/// Warns that `more` requests of others were refused beyond those that were logged.
pub(crate) fn tell_more_refusals<R: Log>(rt: &R, more: u64) {
    warn!(rt; target: "upsd", "serve: {more} more requests of others were refused in the last minute");
}

/// Warns that the numbers of the server could not be written to a file, and why.
pub fn tell_unwritten<R: Log>(rt: &R, file: &str, fault: ErrorKind) {
    warn!(rt; target: "upsd", "serve: the numbers can't be written to {file}: {fault}");
}

/// Warns that more than `crowd` reports wait for a watcher.
pub fn tell_crowd<R: Log>(rt: &R, watcher: Ae, crowd: usize) {
    let title = title_of(&watcher);
    warn!(rt; target: "upsd", "serve: over {crowd} reports wait for {title}");
}

/// Warns that `count` reports that waited for a watcher were given up.
pub fn tell_given_up<R: Log>(rt: &R, watcher: Ae, count: u64) {
    let title = title_of(&watcher);
    warn!(rt; target: "upsd", "serve: {count} reports for {title} were given up in the last minute");
}

/// The result of an association with a watcher.
#[derive(Clone, Copy)]
pub struct Delivered {
    /// How it ended.
    pub ended: Result<End, SessionFault>,
    /// The limit that the watcher ran into.
    pub overrun: Option<Overrun>,
    /// The number of acknowledged reports.
    pub acknowledged: u64,
    /// The responses with a failure status.
    pub failures: Failures,
    /// The source and the reason for which it was rejected or aborted, if they are known.
    pub reason: Option<(u8, u8)>,
    /// The time until the association was open, and until its end, both since the try to connect.
    pub opening: Duration,
    pub elapsed: Duration,
}

impl Delivered {
    /// Creates the result of an association that ended before it began.
    pub fn nothing(ended: Result<End, SessionFault>) -> Delivered
        ensures { result.ended ≡ ended }
    {
        Delivered {
            ended,
            overrun: None,
            acknowledged: 0,
            failures: Failures::none(),
            reason: None,
            opening: Duration::ZERO,
            elapsed: Duration::ZERO,
        }
    }

    /// Returns the name of the result. An association that was released without an acknowledged report has a name of
    /// its own.
    fn name(&self) -> &'static str {
        match (self.ended, self.acknowledged) {
            (Ok(End::Released), 0) => "Unacknowledged",
            (ended, _) => name_with(&ended, self.overrun),
        }
    }

    /// Returns whether reports were taken: one was acknowledged, and the watcher did not take longer for another than
    /// it may.
    fn is_good(&self) -> bool {
        let is_late = matches!(
            self.overrun,
            Some(Overrun::Idle | Overrun::Message | Overrun::Answer)
        );
        self.acknowledged > 0 && !is_late
    }

    /// Returns the summary that is logged with others.
    fn digest(&self) -> Digest {
        Digest {
            associations: 1,
            reports: self.acknowledged,
            failures: self.failures,
            elapsed: self.elapsed,
        }
    }
}

/// The number of milliseconds that a report, or the opening of an association, takes at most if a watcher isn't slow.
const SLOW: u64 = 250;

/// The result of a try to deliver to a watcher.
#[derive(Clone, Copy)]
pub enum Tried {
    /// There was no connection to it, for this reason.
    Unreachable(ErrorKind),
    /// There was an association, with this result.
    Ended(Delivered),
}

impl Tried {
    /// Returns whether reports were taken.
    pub fn is_good(&self) -> bool {
        match self {
            Tried::Unreachable(_) => false,
            Tried::Ended(delivered) => delivered.is_good(),
        }
    }

    /// Returns whether the watcher was slow: it took more than a quarter of a second to open the association, or on
    /// average for each report, including the opening and the end.
    pub fn is_slow(&self) -> bool {
        match self {
            Tried::Unreachable(_) => false,
            Tried::Ended(delivered) => {
                let most = delivered.acknowledged.saturating_mul(SLOW);
                delivered.opening > Duration::from_millis(SLOW)
                    || delivered.elapsed > Duration::from_millis(most)
            }
        }
    }

    /// Returns whether a report was acknowledged.
    pub fn has_taken(&self) -> bool {
        match self {
            Tried::Unreachable(_) => false,
            Tried::Ended(delivered) => delivered.acknowledged > 0,
        }
    }

    /// Returns how many reports were acknowledged.
    pub fn reports(&self) -> u64 {
        match self {
            Tried::Unreachable(_) => 0,
            Tried::Ended(delivered) => delivered.acknowledged,
        }
    }

    /// Returns the summary that is logged with others, if it is an association.
    pub fn digest(&self) -> Option<Digest> {
        match self {
            Tried::Unreachable(_) => None,
            Tried::Ended(delivered) => Some(delivered.digest()),
        }
    }

    /// Returns whether the time ran out before an association was open.
    pub fn is_late_to_open(&self) -> bool {
        match self {
            Tried::Unreachable(fault) => *fault == ErrorKind::TimedOut,
            Tried::Ended(delivered) => {
                delivered.opening.is_zero() && delivered.overrun.is_some()
            }
        }
    }

    /// Returns whether it ended before everything that waited was sent, as far as that can be seen.
    pub fn is_cut_off(&self) -> bool {
        match self {
            Tried::Unreachable(_) => true,
            Tried::Ended(delivered) => !matches!(delivered.ended, Ok(End::Released)),
        }
    }
}

/// Logs the result of a try to deliver to a watcher; for an association, also how many reports were acknowledged and
/// how long it took.
pub fn tell_tried<R: Log>(rt: &R, watcher: Ae, tried: Tried) {
    let title = title_of(&watcher);
    match tried {
        Tried::Unreachable(fault) => {
            info!(rt; target: "upsd", "deliver {title}: unreachable, {fault}");
        }
        Tried::Ended(delivered) => {
            let name = delivered.name();
            let reason = reason_of(&delivered.ended, delivered.reason);
            let reports = delivered.acknowledged;
            let time = Time(delivered.elapsed);
            info!(rt; target: "upsd", "deliver {title}: {name}{reason}, {reports} reports, {time}");
            tell_failures(rt, watcher, delivered.failures);
            warn_of(rt, &delivered.ended);
        }
    }
}

/// Warns if a watcher answered reports with a failure status; these events are acknowledged all the same.
fn tell_failures<R: Log>(rt: &R, watcher: Ae, failures: Failures) {
    if failures.count > 0 {
        let title = title_of(&watcher);
        let Failures { count, last } = failures;
        warn!(rt; target: "upsd", "deliver {title}: {count} reports were answered with a failure status, the last with {last:04X}");
    }
}

/// Logs the sum of further deliveries to a watcher that took reports.
pub fn tell_digest<R: Log>(rt: &R, watcher: Ae, digest: Digest) {
    let title = title_of(&watcher);
    let reports = digest.reports;
    let associations = digest.associations;
    let time = Time(digest.elapsed);
    info!(rt; target: "upsd", "deliver {title}: {reports} reports more over {associations} associations, {time}");
    tell_failures(rt, watcher, digest.failures);
}

/// Warns that a watcher is away from now on.
pub fn tell_away<R: Log>(rt: &R, watcher: Ae) {
    let title = title_of(&watcher);
    warn!(rt; target: "upsd", "deliver {title} is away: tried again after 1, 2, 4 and up to 60 seconds");
}

/// Logs that a watcher that was away has taken its reports.
pub fn tell_back<R: Log>(rt: &R, watcher: Ae) {
    let title = title_of(&watcher);
    info!(rt; target: "upsd", "deliver {title} is back");
}

/// The positions of the source and the reason in an A-ASSOCIATE-RJ and in an A-ABORT (PS3.8 tables 9-21 and 9-26).
const SOURCE_AT: usize = 8;

const REASON_AT: usize = 9;

/// Returns the source and the reason in one of these PDUs, or None if it ends before them.
#[cold]
pub fn reason_in(pdu: &[u8]) -> Option<(u8, u8)> {
    let source = pdu.get(SOURCE_AT).copied()?;
    let reason = pdu.get(REASON_AT).copied()?;
    Some((source, reason))
}

/// Returns why an association was rejected, by the source and the reason (PS3.8 table 9-21).
fn rejection_of(source: u8, reason: u8) -> &'static str {
    match (source, reason) {
        (1, 2) => "application context name not supported",
        (1, 3) => "calling AE title not recognized",
        (1, 7) => "called AE title not recognized",
        (2, 2) => "protocol version not supported",
        (3, 1) => "temporary congestion",
        (3, 2) => "local limit exceeded",
        _ => "no reason given",
    }
}

/// Returns why an association was aborted, by the source and the reason (PS3.8 table 9-26).
fn abort_of(source: u8, reason: u8) -> &'static str {
    match (source, reason) {
        (2, 1) => "unrecognized PDU",
        (2, 2) => "unexpected PDU",
        (2, 4) => "unrecognized PDU parameter",
        (2, 5) => "unexpected PDU parameter",
        (2, 6) => "invalid PDU parameter value",
        _ => "no reason given",
    }
}

/// Why an association ended, as a log line adds it to the result; nothing unless it was rejected, or aborted by this
/// side.
#[derive(Clone, Copy)]
pub(crate) enum Because {
    Nothing,
    /// The source and the reason of a rejection.
    Rejected(u8, u8),
    /// The source and the reason of an abort by this side.
    Aborted(u8, u8),
}

impl fmt::Display for Because {
    fn fmt<W: fmt::Write>(&self, f: &mut fmt::Formatter<W>) -> fmt::Result {
        match self {
            Because::Nothing => Ok(()),
            Because::Rejected(source, reason) => write!(f, ", {}", rejection_of(*source, *reason)),
            Because::Aborted(source, reason) => write!(
                f,
                ", {} (source {source}, reason {reason})",
                abort_of(*source, *reason)
            ),
        }
    }
}

/// Returns why an association ended, by the source and the reason of what ended it.
pub(crate) fn reason_of(ended: &Result<End, SessionFault>, reason: Option<(u8, u8)>) -> Because {
    match (ended, reason) {
        (Ok(End::Rejected), Some((source, reason))) => Because::Rejected(source, reason),
        (Ok(End::AbortSent), Some((source, reason))) => Because::Aborted(source, reason),
        _ => Because::Nothing,
    }
}

/// A time as a log line shows it, in seconds and tenths.
#[derive(Clone, Copy)]
pub(crate) struct Time(pub(crate) Duration);

impl fmt::Display for Time {
    fn fmt<W: fmt::Write>(&self, f: &mut fmt::Formatter<W>) -> fmt::Result {
        write!(f, "{}.{} s", self.0.as_secs(), self.0.subsec_millis() / 100)
    }
}

/// Returns the name of the operation that was answered, and the step that it was on, if the response names one.
pub(crate) fn operation_of(answered: &OperationResult) -> (&'static str, Option<Uid>) {
    match answered {
        OperationResult::EventReport { instance, .. } => ("N-EVENT-REPORT", *instance),
        OperationResult::Create { instance } => (RequestKind::Create.name(), *instance),
        OperationResult::Get { instance } => (RequestKind::Get.name(), *instance),
        OperationResult::Set { instance } => (RequestKind::Set.name(), *instance),
        OperationResult::Action { instance, action } => {
            (RequestKind::of_action(*action).name(), *instance)
        }
        OperationResult::Echo => (RequestKind::Echo.name(), None),
        OperationResult::Find => (RequestKind::Find.name(), None),
    }
}
