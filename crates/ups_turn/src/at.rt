//! A pass at its desk, as a service.
ghost use Rattle.std.specs.Prelude.{◌≡◌, ℕ, true, is_some};
ghost use Rattle.std.specs.Option.{IfSome};
ghost use Rattle.ups_life.specs.Settings.{IsMoment};
ghost use Rattle.ups_service.specs.Law.{Others, callers, Serves, SmallReply};
ghost use Rattle.ups_turn.specs.Pass.{IsCall, seen_by};

use crate::desk::Desk;
use crate::pass::Pass;
use std::alloc::Allocator;
use std::sync::Wait;
use ups_life::{Ask, Reply};
use ups_pdu::Ae;
use ups_service::{Service, SharedService};

/// A pass at its desk: the service that a session of this pass asks. Other passes may enter requests between two of its
/// calls. A pass may make 2^40 calls, each of which is answered by the history, and refuses later ones: with A700 if
/// they are queries, and with 0213 otherwise.
#[derive(Drop)]
pub struct At<'a, M: SharedService<A>, A: Allocator + Copy, R: Wait> {
    rt: &'a R,
    desk: &'a Desk<M, A>,
    pass: &'a mut Pass<M, A>,
    ghost here: { pass.now.table ≡ desk.now.table },
}

impl<'a, M: SharedService<A>, A: Allocator + Copy, R: Wait> At<'a, M, A, R> {
    pub(crate) fn new(rt: &'a R, desk: &'a Desk<M, A>, pass: &'a mut Pass<M, A>) -> At<'a, M, A, R>
        requires here { pass.old.table ≡ desk.now.table }
        ensures same_reference { result.pass.ghost_name ≡ pass.entry.ghost_name }
        ensures stands { result.pass.now ≡ pass.old }
    {
        At { rt, desk, pass }
    }
}

impl<'a, M: SharedService<A>, A: Allocator + Copy, R: Wait> Service<A> for At<'a, M, A, R> {
    ghost settings = { λ s. s.pass.now.settings };

    ghost others = { λ _. callers };

    ghost caller = { λ s. s.pass.now.number };

    ghost seen = { λ s. seen_by s.pass.now };

    fn answer(&mut self, ae: Ae, moment: u64, ask: &mut Option<Ask<A>>) -> Reply<A>
        requires given { is_some ask.old ≡ true }
        requires moment { IsMoment moment }
        ensures same { (self.new.pass.now.settings ≡ self.old.pass.now.settings) × (◌≡◌ {A = Others} callers callers) × (self.new.pass.now.number ≡ self.old.pass.now.number) }
        ensures serves { IfSome ask.old (λ asked. Serves self.old.pass.now.settings callers self.old.pass.now.number (seen_by self.old.pass.now) ae moment asked result (seen_by self.new.pass.now)) }
        ensures small { SmallReply result }
        ensures called { IfSome ask.old (λ asked. IsCall self.old.pass.now ae moment asked result self.new.pass.now) }
        ensures same_reference { self.new.pass.ghost_name ≡ self.old.pass.ghost_name }
        ensures stays { self.new.pass.now.table ≡ self.old.pass.now.table }
    {
        let before = self.pass.seen();
        let reply = self.desk.call(self.rt, self.pass, ae, moment, ask);
        self.desk.announce(before, self.pass.seen());
        reply
    }
}
