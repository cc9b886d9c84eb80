//! The service that numbered callers share, one call at a time.

use std::alloc::{AllocError, Allocator};
use ups_history::History;
use ups_life::{Ask, Reply};
use ups_pdu::Ae;
use ups_rows::SharedRows;

/// A service that callers share, one call at a time. It has the settings, and one history, in which each entry has the
/// number of its caller. A manager is one.
pub trait SharedService<A: Allocator + Copy>: Drop {
    ghost use Rattle.std.specs.Prelude.{◌≡◌, ◌++◌, ℕ, true, is_some, length, IfOk, OnErr};
    ghost use Rattle.std.specs.Option.{IfSome};
    ghost use Rattle.ups_life.specs.Settings.{IsMoment};
    ghost use Rattle.ups_life.specs.Steps.{past};
    ghost use Rattle.ups_life.specs.Events.{pending};
    ghost use Rattle.ups_service.specs.Asked.{NotesAsked};
    ghost use Rattle.ups_service.specs.Law.{Answers, SmallReply, entered, is_granted, is_legal};
    ghost use Rattle.ups_service.specs.Looking.{is_look, rows_for, reply_from};
    ghost use Rattle.ups_service.specs.State.{State};

    /// The settings, and the accepted requests, oldest first.
    ghost state: { Self → State A };

    /// The number of held steps about which its last query asked whether they match.
    ghost asked: { Self → ℕ };

    /// Returns the maximum number of requests in the history.
    fn limit(&self) -> u64
        ensures { result ≡ (state self.now).settings.limit };

    /// Returns the number of requests in the history.
    fn entries(&self) -> usize
        ensures count { result ≡ length (state self.now).history }
        ensures legal { is_legal (state self.now).settings (state self.now).history };

    /// Returns the accepted requests, oldest first.
    fn history(&self) -> &History<A>
        ensures { result.now.entries ≡ (state self.now).history };

    /// Returns the number of events that wait for a watcher (PS3.4 CC.2.4); 0 for an application entity that is no
    /// peer. It takes no memory.
    fn waiting(&self, ae: Ae) -> usize
        ensures { result ≡ length (pending (state self.now).settings (past (state self.now).history) ae) };

    /// Does some of the work that no answer depends on, so little at each call that nobody waits for long: lets entries
    /// before the one at index `upto` of the history leave memory, if nothing that is asked later can need them, and
    /// prepares rows for queries. Returns whether there is more to do.
    fn maintain(&mut self, upto: usize) -> bool
        ensures state { state self.new ≡ state self.old }
        ensures asked { asked self.new ≡ asked self.old };

    /// Returns the rows on which the reply to an N-GET or a query rests. [`complete`](crate::complete) makes the reply from
    /// them without the service, so that nobody waits meanwhile. The rows are shared, not copied.
    ///
    /// # Errors
    ///
    /// If memory runs out, as it can't for a step that is not held.
    fn look(&mut self, ask: &Ask<A>) -> Result<SharedRows<A>, AllocError>
        requires look { is_look ask.now ≡ true }
        ensures rows { IfOk result (λ rows. rows ≡ rows_for (state self.old).settings (state self.old).history ask.now) }
        ensures lacks { OnErr result (is_granted (reply_from (rows_for (state self.old).settings (state self.old).history ask.now) ask.now) ≡ true) }
        ensures small { SmallReply (reply_from (rows_for (state self.old).settings (state self.old).history ask.now) ask.now) }
        ensures legal { is_legal (state self.old).settings (state self.old).history }
        ensures state { state self.new ≡ state self.old }
        ensures asked { asked self.new ≡ asked self.old };

    /// Takes the ask out of its option, answers it for an application entity by the history, and enters it there if it
    /// is an accepted request. `caller` is the number of the caller, and `moment` is in seconds since 1970-01-01 UTC.
    /// A query asks about each held step of its class whether it matches, and about no other step. The ask is not passed by value, since the toolchain can't yet prove an impl whose method takes a value that is
    /// generic in its allocator.
    fn answer_as(&mut self, caller: u32, ae: Ae, moment: u64, ask: &mut Option<Ask<A>>) -> Reply<A>
        requires given { is_some ask.old ≡ true }
        requires moment { IsMoment moment }
        ensures answer { IfSome ask.old (λ asked. Answers (state self.old).settings (state self.old).history caller ae moment asked result) }
        ensures history { IfSome ask.old (λ asked. (state self.new).history ≡ (state self.old).history ++ entered caller ae moment asked result) }
        ensures settings { (state self.new).settings ≡ (state self.old).settings }
        ensures asked { IfSome ask.old (λ question. NotesAsked (state self.old).settings (state self.old).history question result (asked self.old) (asked self.new)) }
        ensures small { SmallReply result }
        ensures legal { is_legal (state self.old).settings (state self.old).history }
        ensures legal_after { is_legal (state self.new).settings (state self.new).history };
}
