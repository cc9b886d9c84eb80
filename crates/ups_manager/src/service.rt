//! The manager as the service of a session, and as the service that passes share.

ghost use Rattle.std.specs.Prelude.{◌≡◌, ◌++◌, ℕ, true, is_some, length};
ghost use Rattle.std.specs.Option.{IfSome};
ghost use Rattle.ups_life.specs.Settings.{IsMoment};
ghost use Rattle.ups_manager.specs.View.{shared_state};
ghost use Rattle.ups_service.specs.Asked.{NotesAsked};
ghost use Rattle.ups_service.specs.Law.{Answers, Others, nobody, alone, entered, is_legal, Serves, SmallReply};

use crate::manager::Manager;
use std::alloc::{AllocError, Allocator};
use ups_history::History;
use ups_life::{Ask, Reply};
use ups_pdu::Ae;
use ups_rows::SharedRows;
use ups_service::{Service, SharedService};

impl<A: Allocator + Copy> Service<A> for Manager<A> {
    ghost settings = { λ m. m.settings };

    ghost others = { λ _. nobody };

    ghost caller = { λ _. 0 };

    ghost seen = { λ m. alone m.history };

    fn answer(&mut self, ae: Ae, moment: u64, ask: &mut Option<Ask<A>>) -> Reply<A>
        requires given { is_some ask.old ≡ true }
        requires moment { IsMoment moment }
        ensures same { (self.new.settings ≡ self.old.settings) × (◌≡◌ {A = Others} nobody nobody) × (◌≡◌ {A = ℕ} 0 0) }
        ensures serves { IfSome ask.old (λ asked. Serves self.old.settings nobody 0 (alone self.old.history) ae moment asked result (alone self.new.history)) }
        ensures small { SmallReply result }
    {
        let Some(ask) = ask.take() else {
            unreachable!();
        };
        self.answer_as(0, ae, moment, ask)
    }
}

impl<A: Allocator + Copy> SharedService<A> for Manager<A> {
    ghost state = { λ m. shared_state m };

    ghost asked = { λ m. m.asked };

    fn limit(&self) -> u64 {
        Manager::limit(self)
    }

    fn entries(&self) -> usize {
        Manager::entries(self)
    }

    fn history(&self) -> &History<A> {
        self.all()
    }

    fn waiting(&self, ae: Ae) -> usize {
        Manager::waiting(self, ae)
    }

    fn maintain(&mut self, upto: usize) -> bool {
        let can_let_go = Manager::let_go(self, upto);
        let is_unprepared = self.prepare();
        can_let_go || is_unprepared
    }

    fn look(&mut self, ask: &Ask<A>) -> Result<SharedRows<A>, AllocError> {
        Manager::look(self, ask)
    }

    fn answer_as(&mut self, caller: u32, ae: Ae, moment: u64, ask: &mut Option<Ask<A>>) -> Reply<A>
        requires given { is_some ask.old ≡ true }
        requires moment { IsMoment moment }
        ensures answer { IfSome ask.old (λ asked. Answers self.old.settings self.old.history caller ae moment asked result) }
        ensures history { IfSome ask.old (λ asked. self.new.history ≡ self.old.history ++ entered caller ae moment asked result) }
        ensures settings { self.new.settings ≡ self.old.settings }
        ensures asked { IfSome ask.old (λ question. NotesAsked self.old.settings self.old.history question result self.old.asked self.new.asked) }
        ensures small { SmallReply result }
        ensures legal { is_legal self.old.settings self.old.history }
        ensures legal_after { is_legal self.new.settings self.new.history }
    {
        let Some(ask) = ask.take() else {
            unreachable!();
        };
        Manager::answer_as(self, caller, ae, moment, ask)
    }
}
