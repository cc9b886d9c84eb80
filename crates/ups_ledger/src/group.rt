//! How many entries are committed at once.

use crate::fault::{CommitFault, LedgerFault};
use ups_journal::RecordingFault;

/// The maximum number of entries to commit at once, which are recorded in one turn.
const MOST: usize = 256;

/// How many entries to commit at once: at most 256, and after want of memory or room half as many as before, until a
/// commit succeeds. While it is in doubt whether the ledger has appended a group, the number stays: a ledger that is
/// opened anew has to be handed all records that it may have.
#[derive(Clone, Copy, Debug, PartialEq, Eq)]
pub struct Group {
    most: usize,
    is_doubtful: bool,
}

impl Group {
    ghost use Rattle.std.specs.Prelude.{◌≡◌};
    ghost use Rattle.ups_ledger.specs.Grouping.{group_after, halved, most_in, whole_group};

    /// Returns the group to begin with: the greatest, with nothing in doubt.
    pub fn new() -> Group
        ensures { result ≡ whole_group }
    {
        Group {
            most: MOST,
            is_doubtful: false,
        }
    }

    /// Returns how many entries to commit at once.
    pub fn most(&self) -> usize
        ensures { result ≡ most_in self.now }
    {
        self.most
    }

    /// Returns half the group, of at least one entry, unless the last one is in doubt.
    fn halved(self) -> Group
        ensures { result ≡ halved self }
    {
        if self.is_doubtful {
            return self;
        }
        Group {
            most: (self.most / 2).max(1),
            is_doubtful: false,
        }
    }

    /// Returns the group to try after this one.
    pub fn after(self, tried: &Result<(), CommitFault>) -> Group
        ensures { result ≡ group_after self tried.now }
    {
        match tried {
            Ok(()) => Group::new(),
            Err(CommitFault::Recording(RecordingFault::Memory)) => self.halved(),
            Err(CommitFault::Ledger(LedgerFault::Full)) => self.halved(),
            Err(CommitFault::Ledger(_)) => Group {
                most: self.most,
                is_doubtful: true,
            },
            Err(_) => self,
        }
    }
}
