//! The kinds of requests, and how many of each were answered and refused.

use std::alloc::{AllocError, Global};
use std::sync::atomic::{AtomicU64, Ordering};

/// A kind of request, as the log and the numbers name it.
#[derive(Clone, Copy, Debug, PartialEq, Eq)]
pub enum RequestKind {
    Create,
    Get,
    Set,
    Change,
    Cancel,
    Subscribe,
    Unsubscribe,
    Suspend,
    /// An N-ACTION of another type.
    Action,
    Find,
    Echo,
    /// What none of these answers.
    Other,
}

/// The kinds of requests, in the order of their counts.
pub const KINDS: [RequestKind; 12] = [
    RequestKind::Create,
    RequestKind::Get,
    RequestKind::Set,
    RequestKind::Change,
    RequestKind::Cancel,
    RequestKind::Subscribe,
    RequestKind::Unsubscribe,
    RequestKind::Suspend,
    RequestKind::Action,
    RequestKind::Find,
    RequestKind::Echo,
    RequestKind::Other,
];

/// The maximum number of statuses with a count of their own for each kind.
const STATUSES: usize = 24;

/// The value of a status that is not set yet. It is no failure.
const NO_STATUS: u64 = 0;

/// The Command Field of an N-ACTION-RSP (PS3.7 annex E.1).
pub(crate) const ACTION_RESPONSE: u16 = 0x8130;

impl RequestKind {
    /// Returns the kind that a response with this Command Field answers (PS3.7 annex E.1), if it is no N-ACTION.
    pub fn of(field: u16) -> RequestKind {
        match field {
            0x8020 => RequestKind::Find,
            0x8030 => RequestKind::Echo,
            0x8110 => RequestKind::Get,
            0x8120 => RequestKind::Set,
            0x8140 => RequestKind::Create,
            _ => RequestKind::Other,
        }
    }

    /// Returns the kind of an N-ACTION of this type (PS3.4 table CC.2-1).
    pub fn of_action(action: u16) -> RequestKind {
        match action {
            1 => RequestKind::Change,
            2 => RequestKind::Cancel,
            3 => RequestKind::Subscribe,
            4 => RequestKind::Unsubscribe,
            5 => RequestKind::Suspend,
            _ => RequestKind::Action,
        }
    }

    /// Returns the failure statuses with which it may be refused (PS3.7 annex C, PS3.4 CC.2 and C.4.1.1.4), as the
    /// conformance statement lists them; none if it is not known.
    pub fn failures(self) -> &'static [u16] {
        match self {
            RequestKind::Create => &[
                0x0106, 0x0110, 0x0111, 0x0117, 0x0118, 0x0120, 0x0121, 0x0211, 0x0213, 0xC309,
            ],
            RequestKind::Get => &[0x0110, 0x0118, 0x0211, 0x0213, 0xC307],
            RequestKind::Set => &[
                0x0106, 0x0110, 0x0118, 0x0121, 0x0211, 0x0213, 0xC300, 0xC301, 0xC307, 0xC310,
            ],
            RequestKind::Change => &[
                0x0110, 0x0115, 0x0118, 0x0123, 0x0211, 0x0213, 0xC300, 0xC301, 0xC302, 0xC303,
                0xC304, 0xC307, 0xC310, 0xC314,
            ],
            RequestKind::Cancel => &[
                0x0110, 0x0115, 0x0118, 0x0123, 0x0211, 0x0213, 0xC307, 0xC311, 0xC314,
            ],
            RequestKind::Subscribe => &[
                0x0110, 0x0114, 0x0115, 0x0118, 0x0123, 0x0211, 0x0213, 0xC307, 0xC308,
            ],
            RequestKind::Unsubscribe => &[
                0x0110, 0x0115, 0x0118, 0x0123, 0x0211, 0x0213, 0xC307, 0xC308,
            ],
            RequestKind::Suspend => &[
                0x0110, 0x0115, 0x0118, 0x0123, 0x0211, 0x0213, 0xC308, 0xC314,
            ],
            RequestKind::Action => &[0x0110, 0x0115, 0x0118, 0x0123, 0x0211, 0x0213],
            RequestKind::Find => &[0x0118, 0x0211, 0xA700, 0xA900, 0xC000],
            RequestKind::Echo => &[0x0110, 0x0118, 0x0211],
            RequestKind::Other => &[],
        }
    }

    /// Returns its name.
    pub fn name(self) -> &'static str {
        match self {
            RequestKind::Create => "N-CREATE",
            RequestKind::Get => "N-GET",
            RequestKind::Set => "N-SET",
            RequestKind::Change => "Change",
            RequestKind::Cancel => "Cancel",
            RequestKind::Subscribe => "Subscribe",
            RequestKind::Unsubscribe => "Unsubscribe",
            RequestKind::Suspend => "Suspend",
            RequestKind::Action => "N-ACTION",
            RequestKind::Find => "C-FIND",
            RequestKind::Echo => "C-ECHO",
            RequestKind::Other => "other",
        }
    }
}

/// How many requests of one kind were refused with one status.
pub struct StatusCount {
    /// The status, or `NO_STATUS` as long as it counts none.
    status: AtomicU64,
    count: AtomicU64,
}

impl Drop for StatusCount {
    fn drop(self) {
        let StatusCount {
            status: _,
            count: _,
        } = self;
    }
}

impl StatusCount {
    /// Creates the count of a status, or of none yet.
    fn new(status: Option<u16>) -> StatusCount {
        StatusCount {
            status: AtomicU64::new(status.map_or(NO_STATUS, u64::from)),
            count: AtomicU64::new(0),
        }
    }

    /// Returns whether it counts this status; if it counts none yet, it does from now on.
    fn takes(&self, status: u64) -> bool {
        let found = self.status.load(Ordering::SeqCst);
        if found != NO_STATUS {
            return found == status;
        }
        let set = self
            .status
            .compare_exchange(NO_STATUS, status, Ordering::SeqCst, Ordering::SeqCst);
        set.is_ok() || set == Err(status)
    }

    /// Returns the status, or None as long as it counts none.
    pub fn status(&self) -> Option<u64> {
        match self.status.load(Ordering::SeqCst) {
            NO_STATUS => None,
            status => Some(status),
        }
    }

    /// Returns how many requests were refused with it.
    pub fn count(&self) -> u64 {
        self.count.load(Ordering::SeqCst)
    }
}

/// How many requests of one kind were answered, and refused with each status.
pub struct KindCount {
    answered: AtomicU64,
    refused: Vec<StatusCount>,
    /// The number of those refused with a status that has no count of its own.
    others: AtomicU64,
}

impl Drop for KindCount {
    fn drop(self) {
        let KindCount {
            answered: _,
            refused: _,
            others: _,
        } = self;
    }
}

impl KindCount {
    /// Creates the count of a kind, with 0 for each of its failure statuses, so that a monitor sees the first one.
    fn new(alloc: Global, kind: RequestKind) -> Result<KindCount, AllocError> {
        let failures = kind.failures();
        let mut refused = Vec::with_capacity(alloc, STATUSES)?;
        for place in 0..STATUSES {
            refused.push(StatusCount::new(failures.get(place).copied()))?;
        }
        Ok(KindCount {
            answered: AtomicU64::new(0),
            refused,
            others: AtomicU64::new(0),
        })
    }

    fn add_refusal(&self, status: u16) {
        let status = u64::from(status);
        for counted in self.refused.iter() {
            if counted.takes(status) {
                counted.count.fetch_add(1, Ordering::SeqCst);
                return;
            }
        }
        self.others.fetch_add(1, Ordering::SeqCst);
    }

    /// Returns how many were answered.
    pub fn answered(&self) -> u64 {
        self.answered.load(Ordering::SeqCst)
    }

    /// Returns how many were refused with each status: those of the kind, and then others in the order in which these
    /// came.
    pub fn refused(&self) -> &[StatusCount] {
        &self.refused
    }

    /// Returns how many were refused with a status that has no count of its own.
    pub fn others(&self) -> u64 {
        self.others.load(Ordering::SeqCst)
    }

    /// Returns how many were accepted: those that were answered, and not refused.
    pub(crate) fn accepted(&self) -> u64 {
        let mut refused = self.others();
        for counted in self.refused.iter() {
            refused = refused.saturating_add(counted.count());
        }
        self.answered().saturating_sub(refused)
    }
}

/// How many requests of each kind were answered, and refused with each status.
pub struct KindCounts {
    /// The counts, in the order of the kinds; none if memory ran out when the server began.
    counts: Vec<KindCount>,
}

impl Drop for KindCounts {
    fn drop(self) {
        let KindCounts { counts: _ } = self;
    }
}

fn counts_of(alloc: Global) -> Result<Vec<KindCount>, AllocError> {
    let mut counts = Vec::with_capacity(alloc, KINDS.len())?;
    for kind in KINDS {
        counts.push(KindCount::new(alloc, kind)?)?;
    }
    Ok(counts)
}

impl KindCounts {
    /// Creates the counts of a server that begins. If memory runs out, it counts nothing.
    pub(crate) fn new(alloc: Global) -> KindCounts {
        KindCounts {
            counts: counts_of(alloc).unwrap_or(Vec::new(alloc)),
        }
    }

    /// Returns the count of a kind, or None if memory ran out when the server began.
    pub fn of(&self, kind: RequestKind) -> Option<&KindCount> {
        self.counts.get(kind as usize)
    }

    /// Counts an answered request.
    pub(crate) fn add(&self, kind: RequestKind) {
        if let Some(count) = self.of(kind) {
            count.answered.fetch_add(1, Ordering::SeqCst);
        }
    }

    /// Counts a request that was refused with this status.
    pub(crate) fn add_refusal(&self, kind: RequestKind, status: u16) {
        if let Some(count) = self.of(kind) {
            count.add_refusal(status);
        }
    }
}
