//! The manager of a desk, as the desk's table contains it.

ghost use Rattle.std.specs.Prelude.{◌≡◌, ◌++◌, length, true, is_some, IfOk, IfErr, OnErr};
ghost use Rattle.std.specs.Option.{IfSome};
ghost use Rattle.ups_life.specs.Settings.{IsMoment};
ghost use Rattle.ups_life.specs.Steps.{past};
ghost use Rattle.ups_life.specs.Events.{pending};
ghost use Rattle.ups_service.specs.Law.{Answers, SmallReply, entered, is_granted, is_legal};
ghost use Rattle.ups_service.specs.Looking.{is_look, rows_for, reply_from};

use std::alloc::{AllocError, Allocator};
use std::marker::Model;
use ups_history::History;
use ups_life::{Ask, Reply};
use ups_pdu::Ae;
use ups_rows::SharedRows;
use ups_service::SharedService;

/// The manager that the passes share. A contract sees it as what was fixed at its start and its history, oldest entry
/// first: the rule of the desk's table is about nothing else. The manager takes some 800 bytes, and is passed on with
/// each turn, so it has a block of memory of its own.
#[derive(Drop)]
pub struct Held<M: SharedService<A>, A: Allocator + Copy> {
    shared: Box<M, A>,
}

impl<M: SharedService<A>, A: Allocator + Copy> Model for Held<M, A> {
    ghost use Rattle.ups_service.specs.State.{State};

    ghost Value = { State A };

    ghost use Rattle.std.specs.Coded.{codes};
    ghost use Rattle.ups_dataset.specs.Code.{set_code};

    ghost coded = { Prim.hlevel (set_code, codes) };

    ghost view = { λ h. M.state h.shared.value };
}

impl<M: SharedService<A>, A: Allocator + Copy> Held<M, A> {
    /// Holds a manager in a block of memory from `alloc`.
    ///
    /// Errors: the manager as it was, if memory runs out.
    pub(crate) fn new(alloc: A, shared: M) -> Result<Held<M, A>, M>
        ensures held { IfOk result (λ h. h ≡ M.state shared) }
        ensures refused { IfErr result (λ m. m ≡ shared) }
    {
        match Box::new(alloc, shared) {
            Ok(shared) => Ok(Held { shared }),
            Err(failed) => Err(failed.value),
        }
    }

    pub(crate) fn into_shared(self) -> M
        ensures { M.state result ≡ self }
    {
        let Held { shared } = self;
        Box::into_inner(shared)
    }

    /// Returns the greatest number of requests that may be entered.
    pub(crate) fn limit(&self) -> u64
        ensures { result ≡ self.now.settings.limit }
    {
        self.shared.limit()
    }

    /// Returns the number of entered requests.
    pub(crate) fn entries(&self) -> u64
        ensures count { result ≡ length self.now.history }
        ensures legal { is_legal self.now.settings self.now.history }
    {
        self.shared.entries() as u64
    }

    /// Returns the accepted requests, oldest first.
    pub(crate) fn history(&self) -> &History<A>
        ensures { result.now.entries ≡ self.now.history }
    {
        self.shared.history()
    }

    /// Returns the number of events that wait for a watcher (PS3.4 CC.2.4); 0 for an application entity that is no
    /// peer.
    pub(crate) fn waiting(&self, ae: Ae) -> usize
        ensures { result ≡ length (pending self.now.settings (past self.now.history) ae) }
    {
        self.shared.waiting(ae)
    }

    /// Does some of the work that no answer depends on, for which no request before the one at index `upto` has to stay in
    /// memory. Returns whether there is more to do.
    pub(crate) fn maintain(&mut self, upto: usize) -> bool
        ensures { self.new ≡ self.old }
    {
        self.shared.maintain(upto)
    }

    /// Returns the rows on which the reply to an N-GET or a query rests.
    ///
    /// Errors: if memory runs out.
    pub(crate) fn look(&mut self, ask: &Ask<A>) -> Result<SharedRows<A>, AllocError>
        requires look { is_look ask.now ≡ true }
        ensures rows { IfOk result (λ rows. rows ≡ rows_for self.old.settings self.old.history ask.now) }
        ensures lacks { OnErr result (is_granted (reply_from (rows_for self.old.settings self.old.history ask.now) ask.now) ≡ true) }
        ensures small { SmallReply (reply_from (rows_for self.old.settings self.old.history ask.now) ask.now) }
        ensures same { self.new ≡ self.old }
    {
        self.shared.look(ask)
    }

    /// Answers what an application entity asks, and enters it if it is a request that is accepted.
    pub(crate) fn answer_as(
        &mut self,
        caller: u32,
        ae: Ae,
        moment: u64,
        ask: &mut Option<Ask<A>>,
    ) -> Reply<A>
        requires given { is_some ask.old ≡ true }
        requires moment { IsMoment moment }
        ensures answer { IfSome ask.old (λ asked. Answers self.old.settings self.old.history caller ae moment asked result) }
        ensures history { IfSome ask.old (λ asked. self.new.history ≡ self.old.history ++ entered caller ae moment asked result) }
        ensures settings { self.new.settings ≡ self.old.settings }
        ensures small { SmallReply result }
        ensures legal { is_legal self.old.settings self.old.history }
        ensures legal_after { is_legal self.new.settings self.new.history }
    {
        self.shared.answer_as(caller, ae, moment, ask)
    }
}
