//! A service that counts the acknowledged reports.

ghost use Rattle.std.specs.Prelude.{◌≡◌};

use std::alloc::Global;
use ups_cycle::Status;
use ups_life::{Ask, Reply, Request};
use ups_pdu::Ae;
use ups_service::Service;

/// A service and the number of acknowledgments of event reports that it has accepted. It answers as the inner one does.
#[derive(Drop)]
pub(crate) struct Counted<S: Service<Global>> {
    pub(crate) service: S,
    pub(crate) acknowledged: u64,
}

impl<S: Service<Global>> Counted<S> {
    /// Wraps a service that has accepted none yet.
    pub(crate) fn new(service: S) -> Counted<S>
        ensures { result.service ≡ service }
    {
        Counted {
            service,
            acknowledged: 0,
        }
    }
}

/// Returns whether an ask is an acknowledgment.
fn is_acknowledgement(ask: &Option<Ask<Global>>) -> bool {
    matches!(ask, Some(Ask::Do(Request::Ack { .. })))
}

/// Returns whether a reply says that a request was accepted.
fn is_success(reply: &Reply<Global>) -> bool {
    matches!(reply, Reply::Status(Status::Success))
}

impl<S: Service<Global>> Service<Global> for Counted<S> {
    ghost settings = { λ c. S.settings c.service };

    ghost others = { λ c. S.others c.service };

    ghost caller = { λ c. S.caller c.service };

    ghost seen = { λ c. S.seen c.service };

    fn answer(&mut self, ae: Ae, moment: u64, ask: &mut Option<Ask<Global>>) -> Reply<Global> {
        let is_counted = is_acknowledgement(ask);
        let reply = self.service.answer(ae, moment, ask);
        if is_counted && is_success(&reply) {
            self.acknowledged = self.acknowledged.saturating_add(1);
        }
        reply
    }
}
