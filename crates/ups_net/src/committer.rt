//! The committer: writes new entries to a ledger in the sweeper's thread, and releases the answers that wait for it.
//! Between two commits it has a slice of a compaction done, if one is due.

ghost use Rattle.std.specs.Prelude.{◌≡◌, ◌<◌, List, map, take, drop, IsTrue};
ghost use Rattle.std.specs.Global.{Global};
ghost use Rattle.ups_journal.specs.Columns.{recorded};
ghost use Rattle.ups_life.specs.declared.entry.Entry.{Entry};
ghost use Rattle.ups_ledger.specs.Backed.{Backs};
ghost use Rattle.ups_ledger.specs.Behind.{AreBehind};
ghost use Rattle.ups_ledger.specs.Grouping.{most_in};
ghost use Rattle.ups_ledger.specs.Keeping.{KeeperGoesOn, HasWatched};

use crate::monitor::{MINUTE, Reminder};
use crate::roster::Roster;
use crate::site::Site;
use crate::tender::{Compactions, Tender};
use log::Log;
use std::alloc::Global;
use std::sync::Wait;
use std::thread::{self, Threads};
use std::time::{Clock, Duration, Instant};
use ups_ledger::{CommitFault, Commits, Group, Keeper, Keeping, Ledger, LedgerFault};
use ups_log::{moment_of, tell_recovered, tell_uncommitted};
use ups_service::SharedService;
use ups_turn::{Desk, Pass};

/// The number of milliseconds between two rounds.
pub(crate) const ROUND: u64 = 1_000;

/// The number of milliseconds before the deliverers are rung for again, so that a busy server makes some ten deliveries
/// a second to a watcher, and not one for each request.
pub(crate) const REST: u64 = 100;

/// The maximum number of microseconds to wait, after a commit, until as many entries are asked for as with it.
const GATHERING: u64 = 1_000;

/// Returns the time left until the next round, or zero if the clock fails.
pub(crate) fn left_of_round<R: Clock>(rt: &R, begun: Instant) -> Duration {
    let elapsed = begun.elapsed(rt).unwrap_or(Duration::MAX);
    Duration::from_millis(ROUND).saturating_sub(elapsed)
}

/// Waits until the next round after `begun` if the last try failed.
fn rest_unless<R: Wait + Clock>(rt: &R, is_done: bool, begun: Instant) {
    if !is_done {
        thread::sleep(rt, left_of_round(rt, begun));
    }
}

/// What the committer has logged, and what it rang for.
#[derive(Clone, Copy)]
pub(crate) struct Committer {
    /// When it last logged that nothing can be committed.
    failure: Reminder,
    /// Whether the last try failed.
    is_failing: bool,
    /// Whether the ledger is lost, so that only a restart helps.
    is_lost: bool,
    /// The number of entries committed when it last rang, and the time of that.
    rung: u64,
    since: Option<Instant>,
    /// How many entries it commits at once.
    group: Group,
    /// Whether something was committed, or compacted, since the ledger was last tidied up.
    is_untidy: bool,
    /// The number of entries that came with the last commit and while it was made, and how long it took.
    came: u64,
    took: Duration,
    /// Whether it has checked in this round for new entries that perhaps nobody waits for.
    has_looked: bool,
    /// The compaction of the ledger.
    tender: Tender,
}

impl Committer {
    /// Creates a committer that has logged nothing, with `committed` entries committed.
    pub(crate) fn new(committed: u64) -> Committer {
        Committer {
            failure: Reminder::of(MINUTE),
            is_failing: false,
            is_lost: false,
            rung: committed,
            since: None,
            group: Group::new(),
            is_untidy: true,
            came: 0,
            took: Duration::ZERO,
            has_looked: false,
            tender: Tender::new(),
        }
    }

    /// Returns whether the last try to commit failed.
    pub(crate) fn is_failing(&self) -> bool {
        self.is_failing
    }

    /// Returns whether the ledger is lost, so that only a restart helps.
    pub(crate) fn is_lost(&self) -> bool {
        self.is_lost
    }

    /// Returns the compactions of the ledger since the server began.
    pub(crate) fn compactions(&self) -> Compactions {
        self.tender.compactions()
    }

    // Returns whether the last try to commit failed, or a compaction is under way.
    fn is_busy(&self) -> bool {
        self.is_failing || self.tender.is_going()
    }

    // Logs that nothing can be committed, at once and then once a minute.
    fn fail<R: Clock + Log>(&mut self, rt: &R, fault: CommitFault) {
        if self.failure.is_due(moment_of(rt)) || !self.is_failing {
            tell_uncommitted(rt, fault);
        }
        self.is_failing = true;
        self.is_lost = fault == CommitFault::Ledger(LedgerFault::Lost);
    }

    // Notes that `committed` entries are committed, and logs it if the last try failed.
    fn succeed<R: Log>(&mut self, rt: &R, committed: u64) {
        if self.is_failing {
            tell_recovered(rt, committed);
        }
        self.is_failing = false;
        self.is_untidy = true;
    }

    // Returns the time until it may ring again, or zero if the clock fails.
    fn left_of_rest<R: Clock>(&self, rt: &R) -> Duration {
        let elapsed = match self.since {
            Some(since) => since.elapsed(rt).unwrap_or(Duration::MAX),
            None => Duration::MAX,
        };
        Duration::from_millis(REST).saturating_sub(elapsed)
    }

    // Rings for the deliverers if more is committed than it rang for and it may ring again.
    fn ring<R: Clock>(&mut self, rt: &R, roster: &Roster, committed: u64) {
        if committed != self.rung && self.left_of_rest(rt).is_zero() {
            self.rung = committed;
            self.since = Instant::now(rt).ok();
            roster.ring();
        }
    }

    // Returns how long to wait for further entries: at most until it may ring for what is committed, and until the next
    // slice of a compaction.
    fn wait_of<R: Clock>(&self, rt: &R, committed: u64, left: Duration) -> Duration {
        let left = self.tender.wait_of(left);
        if committed == self.rung {
            return left;
        }
        left.min(self.left_of_rest(rt).max(Duration::from_millis(1)))
    }

    // Waits at most `wait` until more entries are asked for than are committed, and returns whether they are. After a
    // commit it first waits for as many as came with it and while it was made: for as long as that took, but at most
    // `GATHERING`. So threads that ask one after the other are released together, and come together.
    fn await_asked<K: Keeping, R: Wait>(
        &self,
        rt: &R,
        commits: &Commits<K>,
        committed: u64,
        wait: Duration,
    ) -> bool {
        if self.came > 1 {
            let gathering = self.took.min(Duration::from_micros(GATHERING)).min(wait);
            let _ = commits.await_asked(rt, committed.saturating_add(self.came), gathering);
        }
        commits.await_asked(rt, committed.saturating_add(1), wait) > committed
    }

    // Returns whether there are more entries than are committed. The first call in a round checks that at once; later
    // ones wait at most `wait` until more are asked for.
    fn await_more<M: SharedService<Global>, K: Keeping, R: Wait>(
        &mut self,
        rt: &R,
        desk: &Desk<M, Global>,
        commits: &Commits<K>,
        committed: u64,
        wait: Duration,
    ) -> bool {
        if !self.has_looked {
            self.has_looked = true;
            return desk.await_entries(rt, committed, Duration::ZERO) != committed;
        }
        self.await_asked(rt, commits, committed, wait)
    }

    // Notes how many entries came with a commit begun at `since` and while it was made, and how long it took.
    fn note<R: Clock>(&mut self, rt: &R, came: u64, since: Option<Instant>) {
        self.came = came.min(self.group.most() as u64);
        self.took = match since {
            Some(since) => since.elapsed(rt).unwrap_or(Duration::ZERO),
            None => Duration::ZERO,
        };
    }

    /// Commits new entries, at most one group. If they can't be committed, logs that, at once and then each minute, and
    /// returns false.
    fn commit<M: SharedService<Global>, K: Keeping, L: Ledger, R>(
        &mut self,
        site: Site<'_, M, K, R>,
        pass: &mut Pass<M, Global>,
        keeper: &mut Keeper<L>,
    ) -> bool
    where
        R: Wait + Clock + Log,
        requires here { pass.old.table ≡ site.desk.now.table }
        requires backs { Backs L.Ledger K.had }
        ensures stays { pass.new.table ≡ pass.old.table }
        ensures watched { HasWatched pass.old pass.new }
        ensures goes_on { KeeperGoesOn L.Ledger keeper.old pass.old.seen keeper.new pass.new.seen }
        ensures behind { IsTrue result → keeper.old.committed < keeper.new.committed → L.is_honest keeper.new.ledger → AreBehind (L.kept keeper.new.ledger) keeper.old.committed (map recorded (take (most_in self.old.group) (drop keeper.old.committed pass.new.seen))) }
    {
        let Site {
            rt,
            desk,
            options,
            commits,
        } = site;
        let before = keeper.count();
        let since = Instant::now(rt).ok();
        let tried = keeper.commit(rt, options.alloc, desk, pass, self.group.most());
        self.group = self.group.after(&tried);
        match tried {
            Ok(()) => {
                commits.advance(keeper);
                let came = commits.asked().saturating_sub(before);
                self.note(rt, came, since);
                self.succeed(rt, keeper.count());
                true
            }
            Err(fault) => {
                self.fail(rt, fault);
                false
            }
        }
    }

    /// Commits new entries if there are more, as `commit` does; returns true if there are none.
    fn commit_if<M: SharedService<Global>, K: Keeping, L: Ledger, R>(
        &mut self,
        is_more: bool,
        site: Site<'_, M, K, R>,
        pass: &mut Pass<M, Global>,
        keeper: &mut Keeper<L>,
    ) -> bool
    where
        R: Wait + Clock + Log,
        requires here { pass.old.table ≡ site.desk.now.table }
        requires backs { Backs L.Ledger K.had }
        ensures stays { pass.new.table ≡ pass.old.table }
        ensures watched { HasWatched pass.old pass.new }
        ensures goes_on { KeeperGoesOn L.Ledger keeper.old pass.old.seen keeper.new pass.new.seen }
    {
        if !is_more {
            return true;
        }
        self.commit(site, pass, keeper)
    }

    /// Does a slice of a compaction of the ledger if one is under way or due, unless the last try to commit failed.
    fn tend_to<L: Ledger, R: Threads + Clock + Log>(
        &mut self,
        rt: &R,
        keeper: &mut Keeper<L>,
        at: u64,
    )
        ensures goes_on { (history : List (Entry Global)) → KeeperGoesOn L.Ledger keeper.old history keeper.new history }
    {
        if self.is_failing {
            return;
        }
        self.tender.tend(rt, keeper, at);
        self.is_untidy = self.is_untidy || self.tender.is_going();
    }

    /// Commits new entries as soon as somebody waits for them, until the next round after `begun`, and has a slice of a
    /// compaction done after each try. Rings for the deliverers when more is committed, but at most once in a tenth of a
    /// second. If a commit fails, it is tried again in the next round.
    fn keep_until<M: SharedService<Global>, K: Keeping, L: Ledger, R>(
        &mut self,
        site: Site<'_, M, K, R>,
        roster: &Roster,
        pass: &mut Pass<M, Global>,
        keeper: &mut Keeper<L>,
        begun: Instant,
    )
    where
        R: Threads + Wait + Clock + Log,
        requires here { pass.old.table ≡ site.desk.now.table }
        requires backs { Backs L.Ledger K.had }
        ensures stays { pass.new.table ≡ pass.old.table }
        ensures watched { HasWatched pass.old pass.new }
        ensures goes_on { KeeperGoesOn L.Ledger keeper.old pass.old.seen keeper.new pass.new.seen }
    {
        let Site {
            rt,
            desk,
            options,
            commits,
        } = site;
        for _ in rt.forever() {
            let left = left_of_round(rt, begun);
            if left.is_zero() {
                return;
            }
            let committed = keeper.count();
            let wait = self.wait_of(rt, committed, left);
            let is_more = self.await_more(rt, desk, commits, committed, wait);
            let is_done = self.commit_if(is_more, site, pass, keeper);
            self.tend_to(rt, keeper, options.limits.compact_at);
            rest_unless(rt, is_done, begun);
            self.ring(rt, roster, keeper.count());
        }
        unreachable!()
    }

    // Waits for the next round and commits new entries meanwhile. If the clock fails, commits only at the end.
    fn keep_round<M: SharedService<Global>, K: Keeping, L: Ledger, R>(
        &mut self,
        site: Site<'_, M, K, R>,
        roster: &Roster,
        pass: &mut Pass<M, Global>,
        keeper: &mut Keeper<L>,
    )
    where
        R: Threads + Wait + Clock + Log,
        requires here { pass.old.table ≡ site.desk.now.table }
        requires backs { Backs L.Ledger K.had }
        ensures stays { pass.new.table ≡ pass.old.table }
        ensures watched { HasWatched pass.old pass.new }
        ensures goes_on { KeeperGoesOn L.Ledger keeper.old pass.old.seen keeper.new pass.new.seen }
    {
        match Instant::now(site.rt) {
            Ok(begun) => self.keep_until(site, roster, pass, keeper, begun),
            Err(_) => {
                thread::sleep(site.rt, Duration::from_millis(ROUND));
                let _ = self.commit(site, pass, keeper);
            }
        }
    }

    /// Waits for the next round and commits new entries meanwhile. Tidies up the ledger if none came in this round but
    /// some did before, and no compaction is under way. If the clock fails, commits only at the end.
    pub(crate) fn keep<M: SharedService<Global>, K: Keeping, L: Ledger, R>(
        &mut self,
        site: Site<'_, M, K, R>,
        roster: &Roster,
        pass: &mut Pass<M, Global>,
        keeper: &mut Keeper<L>,
    )
    where
        R: Threads + Wait + Clock + Log,
        requires here { pass.old.table ≡ site.desk.now.table }
        requires backs { Backs L.Ledger K.had }
        ensures stays { pass.new.table ≡ pass.old.table }
        ensures watched { HasWatched pass.old pass.new }
        ensures goes_on { KeeperGoesOn L.Ledger keeper.old pass.old.seen keeper.new pass.new.seen }
    {
        let committed = keeper.count();
        self.has_looked = false;
        self.keep_round(site, roster, pass, keeper);
        if self.is_untidy && !self.is_busy() && keeper.count() == committed {
            keeper.tidy();
            self.is_untidy = false;
        }
    }
}
