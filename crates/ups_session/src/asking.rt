//! The asks of a session, each made just after the gate gave its moment.

ghost use Rattle.std.specs.Prelude.{◌≡◌, is_some, true};
ghost use Rattle.std.specs.Option.{IfSome};
ghost use Rattle.ups_life.specs.Settings.{IsMoment};
ghost use Rattle.ups_service.specs.Law.{Serves, SmallReply};
ghost use Rattle.ups_session.specs.Tells.{IsTimed};

use crate::gate::Gate;
use std::alloc::Allocator;
use ups_life::{Ask, Reply};
use ups_pdu::Ae;
use ups_service::Service;

/// Takes the ask out of its option, and has the service answer it at the moment that the gate gave just before.
pub(crate) fn answer<A: Allocator + Copy, S: Service<A>, G: Gate>(
    service: &mut S,
    gate: &G,
    ae: Ae,
    moment: u64,
    ask: &mut Option<Ask<A>>,
) -> Reply<A>
    requires timed { IsTimed moment (G.told gate.now) }
    requires given { is_some ask.old ≡ true }
    requires moment { IsMoment moment }
    ensures same { (S.settings service.new ≡ S.settings service.old) × (S.others service.new ≡ S.others service.old) × (S.caller service.new ≡ S.caller service.old) }
    ensures serves { IfSome ask.old (λ asked. Serves (S.settings service.old) (S.others service.old) (S.caller service.old) (S.seen service.old) ae moment asked result (S.seen service.new)) }
    ensures small { SmallReply result }
{
    service.answer(ae, moment, ask)
}
