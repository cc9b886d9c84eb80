//! Reading the requests of a store, and their digest.

ghost use Rattle.std.specs.Prelude.{◌≡◌, [], None, IfOk, OnOk, IsTrue};
ghost use Rattle.sqlite_trees.specs.View.{IsClean};
ghost use Rattle.ups_store.specs.Shown.{shown_by, all_of, given_out, has_ended, GivesRequest};
ghost use Rattle.ups_start.specs.Digested.{IsDigested};

use sqlite_trees::store::Store;
use ups_store::{Replay, StoreFault, StoredRequest, digest_with};

/// The requests of a store that was just opened, returned one by one, and the digest of those returned so far.
#[derive(Drop)]
pub(crate) struct Reading<S: Store> {
    /// The requests.
    pub(crate) replay: Replay<S>,
    /// The digest of those returned so far.
    pub(crate) digest: u64,
}

impl<S: Store> Reading<S> {
    /// Returns the requests of a store before the first is read.
    pub(crate) fn over(replay: Replay<S>) -> Reading<S>
        requires first { given_out replay ≡ [] }
        ensures is { result.replay ≡ replay }
        ensures digested { IsDigested result }
    {
        Reading { replay, digest: 0 }
    }

    /// Returns the next request, or None once all have been returned.
    ///
    /// Errors: those of [`Replay::next_request`].
    pub(crate) fn next_request(&mut self) -> Result<Option<StoredRequest>, StoreFault>
        ensures given { IfOk result (λ found. IsClean (shown_by self.new.replay) → GivesRequest (all_of self.new.replay) (given_out self.old.replay) (given_out self.new.replay) found) }
        ensures same { OnOk result (IsClean (shown_by self.new.replay) → all_of self.new.replay ≡ all_of self.old.replay) }
        ensures ended { IfOk result (λ found. found ≡ None → IsTrue (has_ended self.new.replay)) }
        ensures clean { IsClean (shown_by self.new.replay) → IsClean (shown_by self.old.replay) }
        ensures digested { OnOk result (IsDigested self.old → IsDigested self.new) }
    {
        match self.replay.next_request() {
            Ok(Some(request)) => {
                self.digest = digest_with(self.digest, &request.asked);
                Ok(Some(request))
            }
            Ok(None) => Ok(None),
            Err(fault) => Err(fault),
        }
    }

    /// Goes back to before the first request, once all have been returned.
    pub(crate) fn again(&mut self)
        ensures first { IsTrue (has_ended self.old.replay) → given_out self.new.replay ≡ [] }
        ensures same { shown_by self.new.replay ≡ shown_by self.old.replay }
        ensures digested { IsTrue (has_ended self.old.replay) → IsDigested self.new }
    {
        self.replay.again();
        self.digest = 0;
    }
}
