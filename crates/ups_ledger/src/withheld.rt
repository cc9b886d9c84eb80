//! A service that notes what its answers depend on.

ghost use Rattle.std.specs.Prelude.{◌≡◌, ◌≢◌, ◌≤◌, ◌<◌, length};

use crate::due::{CommitDue, Noted};
use std::alloc::Global;
use std::sync::ledger::Share;
use std::sync::{Mutex, Wait};
use ups_life::{Ask, Reply};
use ups_pdu::Ae;
use ups_service::{Service, SharedService};
use ups_turn::{Fixed, Seated};

/// A pass at its desk, as a service that notes with each answer how many entries have to be committed before it may be
/// sent: all that the pass has seen, with its own request and those of others on which the answer depends. It answers
/// like the inner pass and does not wait for a commit: the sender of answers has to withhold them until then.
#[derive(Drop)]
pub struct Withheld<'a, F: Fixed, D: Noted, M: SharedService<Global>, R: Wait> {
    seated: Seated<'a, F, M, Global, R>,
    rt: &'a R,
    due: &'a Mutex<CommitDue<D>>,
    pub(crate) share: Share<D>,
    /// The number of entries that it has noted.
    noted: u64,
    ghost some: { 0 < share.parts },
    ghost same: { share.amount ≡ noted },
    ghost covers: { seated.pass.calls ≢ D.calls → length seated.pass.seen ≤ noted },
}

impl<'a, F: Fixed, D: Noted, M: SharedService<Global>, R: Wait> Withheld<'a, F, D, M, R> {
    /// Returns a service that notes in `due` what its answers depend on.
    pub fn new(
        rt: &'a R,
        seated: Seated<'a, F, M, Global, R>,
        due: &'a Mutex<CommitDue<D>>,
        share: Share<D>,
    ) -> Withheld<'a, F, D, M, R>
        requires calls { seated.pass.calls ≡ D.calls }
        requires some { 0 < share.parts }
        requires nothing { share.amount ≡ 0 }
        ensures { result.seated ≡ seated.entry }
    {
        Withheld {
            seated,
            rt,
            due,
            share,
            noted: 0,
        }
    }

    /// Returns the number of entries of the history that the pass has seen: those by which it answered last, with its own
    /// request if that was accepted.
    pub fn seen(&self) -> u64
        ensures { result ≡ length self.now.seated.pass.seen }
    {
        self.seated.seen()
    }

    /// Returns the inner pass, and the share with what was noted.
    pub fn into_parts(self) -> (Seated<'a, F, M, Global, R>, Share<D>)
        ensures seated { result.0 ≡ self.entry.seated }
        ensures noted { result.0.pass.calls ≢ D.calls → length result.0.pass.seen ≤ result.1.amount }
    {
        let Withheld { seated, share, .. } = self;
        (seated, share)
    }
}

impl<'a, F: Fixed, D: Noted, M: SharedService<Global>, R: Wait> Service<Global>
    for Withheld<'a, F, D, M, R> {
    ghost use Rattle.ups_service.specs.Law.{callers};
    ghost use Rattle.ups_turn.specs.Pass.{seen_by};

    ghost settings = { λ s. s.seated.pass.settings };

    ghost others = { λ _. callers };

    ghost caller = { λ s. s.seated.pass.number };

    ghost seen = { λ s. seen_by s.seated.pass };

    fn answer(&mut self, ae: Ae, moment: u64, ask: &mut Option<Ask<Global>>) -> Reply<Global> {
        let reply = self.seated.answer(ae, moment, ask);
        let entries = self.seated.seen();
        let more = entries.saturating_sub(self.noted);
        self.due.lock(self.rt).note(&mut self.share, more);
        self.noted = self.noted.max(entries);
        reply
    }
}
